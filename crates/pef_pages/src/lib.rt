//! Each Secure and each moving page has exactly one frame, no other page has one, and each Out page has exactly one digest.
#![tactic(auto)]

mod cell;
pub mod laws;
mod order;
mod page;
mod pages;

pub use cell::Cell;
pub use page::Page;
pub use pages::Pages;
