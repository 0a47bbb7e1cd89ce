//! The doubleword that is read is the one last put there, and an address has one frame and one place, or none.
#![tactic(auto)]

mod doubleword;
mod frame;
pub mod laws;
mod place;
mod size;

pub use doubleword::{dw_at, put_dw};
pub use frame::frame_of;
pub use place::{Place, place_of};
