//! What is read was left, what is written is kept in order, and a failure comes only where a fault was counted.
#![tactic(auto)]

mod faults;
mod log;
mod mem_sink;
mod mem_source;
mod plan;
mod sink;
mod source;
mod standard;
#[cfg(test)]
mod tests;
mod text;

pub use faults::Failed;
pub use mem_sink::MemSink;
pub use mem_source::MemSource;
pub use sink::Sink;
pub use source::Source;
pub use standard::{StdSink, StdSource};
pub use text::{put, put_all, put_decimal, put_value, write_hexadecimal};
