//! The environment's strategy of a game with recurring lines, one position after the other.
//!
//! Each position is noted: the first after a shift enters a least layer and takes on the hold of a goal, and while the goal
//! is false there the play denies it, and meets the assumptions one after the other (Könighofer et al. 2009,
//! counterstrategies; that the assumption aimed at is kept until it holds is this project's own).
//!
//! Contract: `Counterstrategy`, for each noted play that it stands for: `first` and `reply` write the input that is given,
//! `reply` answers the note of the position that it completes, `legal` names the first guarantee or monitor's line that an
//! output breaks, and `close` spends all that is held. `spot` tells where a play is, by its last state and what is remembered
//! there, `go` goes to where any such play ends, and `again` to the start. Only `Counterstrategy::make` takes memory: it makes
//! the moves into each layer and each iterate, so that a position tries moves and reads regions, and makes none.
//! Path: layers → **counterstrategy** → lines.
#![tactic(auto)]

mod counterstrategy;
mod equipping;
mod giving;
mod kit;
mod making;
mod noting;
mod remembered;
mod spot;

pub use counterstrategy::{Counterstrategy, Note};
pub use spot::EnvSpot;
