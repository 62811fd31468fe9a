//! The functions of a game's lines and goals, as diagrams: what the size of a specification's diagrams is counted by.
//!
//! A line's function is true where its formula is, as it is written, and where each hidden table and each variable that it names,
//! itself or through the atoms of its tables, has the code of some value. A code past the last value makes it false, present or
//! next. The diagrams are made at the levels of a state's order.
//!
//! Contract: `line_functions` makes a diagram of each of `functions_of`, in order. Where the budget ends it, `cause` names what
//! fills it: sets that the lines' functions are made of (`IsOfLines`).
//! Path: game, codes → **functions of lines** → a specification's order.
#![tactic(auto)]

mod formulas;
mod making;
mod names;
mod places;
mod slots;

pub use making::line_functions;
