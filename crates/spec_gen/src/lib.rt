//! Texts of specifications that are made and not written: the arbiter of some clients.
//!
//! An arbiter gives a resource to one client at a time, and each request is answered again and again. It is the usual
//! family of specifications of rising size (Bloem et al. 2012, arbiters).
//!
//! Contract: `arbiter` gives exactly `arbiter_text`. Path: **text** → tokens → trees → specification.
#![tactic(auto)]

mod text;

pub use text::arbiter;
/// Memory ran out.
pub use std::alloc::AllocError as OutOfMemory;
