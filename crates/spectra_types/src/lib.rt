//! From the trees of several files to the specification that they mean together.
//!
//! Each name is what it stands for, each expression is judged as it is written and with everything put in, and what has no
//! fault is the specification without its places. Of several faults that of the first file that has one is told, and in it the
//! one at the least place.
//!
//! `specs/Senses.antt` says what an expression of a text is at each position by its own tree, where a define or predicate is
//! what its body is, a quantifier speaks of each number between its bounds, and an index is the element whose number is meant:
//! nothing is put in for anything, nothing is written out, and nothing counts how deep bodies stand in one another.
//! `SameText.antt` says what it is for a specification to say the same, `Conditions.antt` what is asked for that of the values of
//! variables, and `Spans.antt` which spans are too wide in whole numbers without bound.
//!
//! Contract: `resolve` gives the specification that the files mean, or their first fault with its number, file and place. Each
//! line of it has the value of the line that is written, at each position, whatever each variable has there, and in a text that
//! reads an element, whatever value of its domain. By laws, what a definition is is one thing alone, and that the judge caps ends
//! of spans makes no difference to whether one is too wide.
//!
//! Path: text → tokens → trees → resolved trees → **specification** → game → regions → layers → strategy → verdict → lines.
#![tactic(auto)]

mod fault;
mod laws;
mod meaning;
mod patterns;
mod resolving;

pub use fault::TypeFault;
pub use laws::{
    definitions_have_one_sense, faultless_files_are_well_typed, faultless_files_have_room,
    spans_are_exact, use_is_worked,
};
pub use resolving::resolve;
pub use spec_parts::{OutOfMemory, forced, without};
