//! A keystream is computed block by block, each from the key, the tag and its own number.

ghost use Rattle.std.specs.Prelude.{◌≡◌, ◌++◌, List, ℕ};
ghost use Rattle.pef_model.specs.Seal.{keystream_block, tag_bytes};
ghost use Rattle.pef_model.specs.declared.state.Tag.{Tag};
ghost use Rattle.sha2.specs.Hashers.{Holds256};

use crate::Tag;
use crate::tag::write_tag;
use sha2::{Digest, Sha256};

/// What the blocks of a keystream have in common.
#[derive(Drop)]
pub struct Keystream {
    /// It has taken the key and the tag. They are one block of SHA-256, so that each block of the keystream is one more.
    begun: Sha256,
}

impl Keystream {
    /// The keystream of a key and a tag.
    pub fn build(key: &[u8; 32], tag: Tag) -> Keystream
        ensures { Holds256 result.begun (key.now ++ tag_bytes tag) }
    {
        let mut bytes = [0; 32];
        write_tag(tag, &mut bytes);
        let mut begun = Sha256::new();
        begun.update(key);
        begun.update(&bytes);
        Keystream { begun }
    }

    /// The block of a number, from 0.
    pub fn block(&self, number: u64) -> [u8; 32]
        ensures { (key : List ℕ) (tag : Tag) → Holds256 self.now.begun (key ++ tag_bytes tag) → result ≡ keystream_block key tag number }
    {
        let Ok(mut hasher) = self.begun.clone() else {
            unreachable!()
        };
        hasher.update(&number.to_be_bytes());
        hasher.finalize()
    }
}
