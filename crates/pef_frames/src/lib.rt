//! A secure frame exists once: it is free in the pool, or somebody holds it.
#![tactic(auto)]

pub mod laws;
mod normal;
mod pool;
mod secure;

pub use normal::NormalFrame;
pub use pool::Pool;
pub use secure::SecFrame;
