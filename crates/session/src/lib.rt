//! Talks: each line of an input is answered, until the talk ends; and audits, which read the lines of a log.
//!
//! Who speaks first, how a line is judged and what answers it is told by a `Protocol`; one loop meets it. In the talk of
//! `run` the inputs are read, and answered by the outputs of the system's strategy; in that of `counter` the outputs are
//! read, and answered by the notes and inputs of the environment's. An audit reads a whole position from each line, and
//! answers at its end alone.
//!
//! Contract: `run_lines` meets `RunTalk`: the lines that it read make a play with what it wrote, each of whose moves is legal,
//! and which keeps each recurring guarantee within K rounds; and it says how it ended. `counter_lines` meets `CounterTalk`:
//! likewise a noted play, which beats the system within N shifts and M denials in a row. `audit_lines` meets `AuditTalk`: the
//! lines that it read make a run, and it tells the first line of the specification that this breaks, or else how it ended.
//! Path: verdict → **lines**.
#![tactic(auto)]

mod auditing;
mod counter;
mod protocol;
mod strategy;
mod talking;

pub use auditing::{AuditEnd, audit_lines};
pub use counter::counter_lines;
pub use protocol::{Alone, Protocol, Reply};
pub use session_lines::{Lines, Taken};
pub use strategy::run_lines;
pub use talking::{End, talk};
pub use trace_planes::Finding;
