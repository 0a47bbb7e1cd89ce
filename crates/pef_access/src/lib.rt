//! A load or store of a guest finds its doubleword in a secure or a normal frame, backs its page with one, or says why not.
#![tactic(auto)]

mod access;
mod asks;
mod place;
mod row;

pub use asks::{asks_for_frame, frame_of_access};
pub use place::place_below;
pub use row::{load, load_backing, load_through, store, store_backing, store_through};
