//! A guest is whole from the start: its sealer takes each of its pages, and each of its frames is one of the pool's.
#![tactic(auto)]

mod cpu;
mod guest;
mod hand;
mod words;

pub use cpu::Cpu;
pub use guest::Guest;
pub use hand::Hand;
pub use pef_regs::{Vcpu, registers};
pub use words::Words;
