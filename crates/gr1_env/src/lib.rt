//! The layers of the environment's winning states, over any regions.
//!
//! A layer is the union of the goals' holds above the layer before it. A hold is a greatest set, and for each of its values
//! the solver has the iterates of a least set for each assumption (Könighofer et al. 2009, counterstrategies). Those of
//! earlier values are spent, and each iteration begins at all states or at none.
//!
//! Contract: `solve_env`, `EnvLayers::n` and `EnvLayers::m`. Where a budget runs out, what is told of it are sets of one
//! moment, at which each hold has one value. Path: regions → **layers** → counterstrategy.
#![tactic(auto)]

mod delays;
mod givens;
mod holds;
mod layering;
mod layers;
mod numbers;
mod solving;
mod spending;

pub use layers::{EnvGoal, EnvLayer, EnvLayers};
pub use solving::solve_env;
