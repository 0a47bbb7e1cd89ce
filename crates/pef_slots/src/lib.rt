//! The memory slots of a guest are disjoint runs of its pages, kept in the order in which they were registered.
#![tactic(auto)]

pub mod laws;
mod room;
mod run;
mod slot;
mod slots;
#[cfg(test)]
mod tests;

pub use pef_model::Slot;
pub use slot::SlotFault;
pub use slots::Slots;
