//! The kind of an expression, and what is wrong with it where it stands: misused names, wrong kinds, spans that are too wide,
//! and what may not stand there.
//!
//! An expression is judged by itself: what its names stand for is handed in, and no body is looked at. So one and the same
//! call judges a text as it is written, and the text with all bodies put in.
//!
//! Contract: `judge` gives the kind that the table of operators makes, and the first fault, or none exactly where there is none;
//! `report_faults` puts it among other faults.
//! Path: text → tokens → trees → resolved trees → **judge** → specification → game → regions → layers → strategy → verdict → lines.
#![tactic(auto)]

pub mod around;
pub mod chains;
pub mod findings;
pub mod judging;
pub mod kind;
pub mod kinding;
pub mod known;
pub mod laws;
mod leaves;
mod misplaced;
pub mod operators;
pub mod reporting;
pub mod standing;
pub mod walking;
