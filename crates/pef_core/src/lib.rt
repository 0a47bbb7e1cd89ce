//! One step of a machine is the one entry that the model gives next, whatever history the machine has behind it.
#![tactic(auto)]

mod aim;
mod at_frame;
mod at_guest;
mod did;
mod lent;
mod machine;
mod normal;
mod own;
mod readiness;

pub use aim::{Target, target_of};
pub use at_frame::apply_frame;
pub use at_guest::apply_guest;
pub use did::Did;
pub use lent::{Inner, Want, needs};
pub use machine::Machine;
pub use own::apply_own;
pub use readiness::{ready, ready_frame, ready_pool};
