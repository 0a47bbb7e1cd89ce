//! Nothing of a guest's registers leaves with a hypercall but the inputs that the call's row in the table names.
#![tactic(auto)]

mod calls;
mod scrubbing;
mod table;
#[cfg(test)]
mod tests;

pub use calls::hcalls;
pub use scrubbing::scrub;
pub use table::Table;
