//! Who wins a specification, with which numbers, and by which strategy.
//!
//! The game of a specification is solved over sets of its states, first for the system, and where it doesn't win, for the
//! environment. One of the two wins each game (Bloem et al. 2012, solving GR(1) games). Each call has a budget of nodes;
//! where it runs out who wins is open, it is below the specification's need, and named sets of its game fill it (`cause`).
//!
//! Contract: `verdict`, whose numbers are true of all plays, and whose strategy is fresh and of that specification; `numbers`
//! says the same and makes no strategy. `core_of` gives what is left of the guarantees of an unrealizable specification, tried
//! in text order, and that it is a core; `separated` judges the specification whose one guarantee can never be met. Over any
//! regions `solve_game` finds the winner's layers, and `system_play` and `environment_play` make its strategy of them. The call
//! of `spec_order` is named here too.
//! Path: specification → game → regions → layers → strategy → **verdict** → lines.
#![tactic(auto)]

mod answers;
mod cores;
mod deciding;
mod laws;
mod parts;
mod playing;
mod separation;
mod solving;
mod space;

pub use answers::{Numbers, Opposition, Verdict};
pub use cores::{core_of, core_of_lost};
pub use deciding::{numbers, verdict, whole_numbers, whole_opposition, whole_verdict};
pub use laws::{
    crowded_only_below_the_need, fewer_guarantees_stay_realizable, no_specification_is_won_by_both,
    one_of_both_wins, realizable_or_unrealizable,
};
pub use playing::{environment_play, system_play};
pub use separation::{Separation, separated};
pub use solving::{Opposed, Solved, game_numbers, oppose_game, solve_game};
pub use space::Space;
pub use spec_order::{Better, OrderFault, OrderReport, order_of};
