//! Unsealing under the same tag gives the page that was sealed, and nothing else is promised to be a page.
#![tactic(auto)]

mod digest;
mod keystream;
pub mod laws;
mod seal;
mod stream;
mod tag;
#[cfg(test)]
mod tests;
mod vault;

pub use digest::digest_of;
pub use pef_model::{Digest32, Tag};
pub use seal::{Seal, seal_and_unseal};
pub use stream::StreamSeal;
pub use vault::VaultSeal;
