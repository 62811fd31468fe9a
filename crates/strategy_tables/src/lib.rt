//! Strategies as tables of nodes, the rules that they are checked by, and the law that a table that meets them wins.
//!
//! A table lists the states of a strategy's plays with what is remembered there. The rules look at each node and at those that may
//! come next. That they suffice is proved of the definitions of winning alone: no solver, no layer and no set of states stands
//! among the crates below. (The tables and their rules are this project's own; that ranks which fall towards a goal show that it is
//! met goes back to Bloem et al. 2012, solving GR(1) games, and Könighofer et al. 2009, counterstrategies.)
//!
//! Contract: `laws::sound_tables_win`, of a specification and its game; `laws::sound_system_tables_win` and
//! `laws::sound_environment_tables_win`, of any well-made game. `Table` is what programs read, write and check; what it stands for
//! is `table_data`. Path: strategy → **table** → text.
#![tactic(auto)]

mod fault;
pub mod laws;
mod tables;

pub use fault::TableFault;
pub use tables::{Node, Table};
