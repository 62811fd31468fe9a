//! The system's winning states and their layers, over any regions.
//!
//! The winning states Z are a greatest set, each goal's layers least sets for Z, and the parts of a layer greatest sets
//! above the layer below (Bloem et al. 2012, solving GR(1) games). Each round of the solver holds one value of Z and the
//! layers for it: those of earlier values are spent.
//!
//! Where the number K alone is asked for, a layer is spent as soon as the next one is made.
//!
//! Contract: `solve_sys`, `SysLayers::k` and `count_sys`; `spend_all` gives back many regions. Path: regions → **layers** →
//! controller.
#![tactic(auto)]

mod climbing;
mod counting;
mod givens;
mod joining;
mod lasts;
mod layers;
mod parts;
mod ranks;
mod solving;
mod spending;
mod turns;

pub use counting::count_sys;
pub use joining::{and_in, or_in};
pub use layers::{SysLayer, SysLayers};
pub use solving::solve_sys;
pub use spending::spend_all;
