//! Orders of variables: how many different parts diagrams have under each, and a better order by moving one variable at a time.
//!
//! Each variable has some neighbouring levels, its slot. Under an order of the slots the levels come slot by slot. Diagrams are
//! made under the order in which the slots are numbered; for another one they are copied into a second store, counted, and given
//! back, so that store holds copies under one order at a time.
//!
//! Contract: `nodes_under` is exact (`HasNodes`). `climb` ends at an order that no single move betters, reached by the first of
//! the best moves each time (`IsClimb`); where a budget ends it, copying under an order that it tried fills the budget.
//! Path: copies, counts → **orders of the slots** → a specification's order.
#![tactic(auto)]

mod climbing;
pub mod laws;
mod levels;
mod rounds;
mod sizes;

pub use climbing::{Found, climb};
pub use levels::levels_under;
pub use rounds::{Best, best_move, moved};
pub use sizes::nodes_under;
