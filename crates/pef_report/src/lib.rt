//! Each line of a report is put together and written with one call, byte for byte as the definitions have it.
#![tactic(auto)]

pub mod laws;
mod line;
mod names;
mod report;

pub use report::{put_end, put_entry, put_frame};
