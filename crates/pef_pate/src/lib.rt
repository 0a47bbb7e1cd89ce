//! A partition entry maps the pages of a guest to normal frames in a row: each page to one of its own, each frame one of the machine's.
#![tactic(auto)]

pub mod laws;
mod pate;

pub use pate::{Pate, PateFault};
