//! A vCPU is taken up, does what its own registers alone decide, calls, and leaves, and a partition entry and memory slots are set,
//! as the model says.
#![tactic(auto)]

mod call;
mod enter;
mod leave;
mod own;
mod slots;
mod write;

pub use call::hypercall;
pub use enter::{enter_normal, uv_return};
pub use leave::{gone, interrupt};
pub use own::{add, exclusive_or, load_immediate, refuse_call, show};
pub use slots::{register_slot, unregister_slot};
pub use write::write_entry;
