//! Reads a script, runs it and writes its report, from bytes to bytes.
#![tactic(auto)]

mod fault;
mod fault_line;
mod input;
pub mod laws;
mod limits;
mod outcome;
mod run;
mod sealers;
mod top;
mod words;

pub use fault_line::put_fault;
pub use input::{InputFault, read_all};
pub use limits::{COMMAND_LIMIT, MEMORY_LIMIT};
pub use outcome::{RunOutcome, SCRIPT_LIMIT};
pub use sealers::{stream_sealers, vault_sealers};
pub use top::pef_run;
