//! A vCPU has each register as it was last set: a call, an instruction or an answer changes those that it names, and no other.
#![tactic(auto)]

pub mod registers;
#[cfg(test)]
mod tests;
mod vcpu;

pub use vcpu::Vcpu;
