//! What the program writes and reads once it is known what is due: last lines with their statuses, sessions and audits.
//!
//! A session writes the verdict, answers each line of the input by the strategy of the side that wins, and says how that
//! ended. An audit reads a log, and says which line of the specification is broken first, and where. All room for these is
//! taken before anything is written or read. A check takes the input as a table, and says whether it wins. An export writes the
//! table of the winning side's strategy.
//!
//! Contract: `holding::hold`, `countering::counter` and, for many sessions, `hosting::host`, `exporting::export_system` and
//! `export_environment`, over any regions; `auditing::audit`; `verifying::verify`; in `saying` a function for each last line;
//! `status::Status`, how a run ends. Path: strategy → verdict → **lines and status**.
#![tactic(auto)]

pub mod auditing;
mod closing;
pub mod countering;
pub mod exporting;
pub mod holding;
pub mod hosting;
pub mod laws;
pub mod saying;
pub mod status;
pub mod verifying;
