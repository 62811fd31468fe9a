//! Texts whose names have no fault.
//!
//! Contract: by the law, each part of such a text is sound: no name is misused in it, each type in it has a meaning but for
//! its bounds, and no limit on numbers of things is passed.
//! Path: text → tokens → trees → **resolved trees** → judge → specification → game → regions → layers → strategy → verdict →
//! lines.
#![tactic(auto)]

pub mod laws;
