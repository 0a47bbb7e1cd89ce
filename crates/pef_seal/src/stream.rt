//! The stream seal keeps nothing: a page and its sealed page are each the other with the keystream.

ghost use Rattle.std.specs.Prelude.{◌≡◌, ◌↔◌, ◌<◌, ◌%◌, ℕ, length, slice_index, bit_xor, IsFalse};
ghost use Rattle.pef_model.specs.Plan.{IsInRange};
ghost use Rattle.pef_model.specs.Seal.{stream_image};
ghost use Rattle.pef_model.specs.declared.config.Config.{Config};
ghost use Rattle.pef_seal.specs.PageSize.{IsPageSize};
ghost use Rattle.pef_seal.specs.Serves.{Serves};

use crate::keystream::Keystream;
use crate::{Seal, Tag};
use std::marker::Model;

/// A sealer that writes each byte's exclusive-or with a keystream, seen as its key.
///
/// The keystream is this project's own: its block j, from 0, is the SHA-256 of the key, the tag's lpid, generation, page
/// number and version, and j, the numbers as big-endian doublewords. The sealer takes every page number, and pages whose
/// size is a power of two from 2^8 to 2^16 bytes.
#[derive(Drop)]
pub struct StreamSeal {
    key: [u8; 32],
}

impl Model for StreamSeal {
    ghost use Rattle.std.specs.Prelude.{ℕ, List};

    ghost Value = { List ℕ };

    ghost view = { λ s. s.key };
}

impl StreamSeal {
    /// The sealer with a key.
    pub fn build(key: [u8; 32]) -> StreamSeal
        ensures key { result ≡ key }
        ensures image { ⟦<StreamSeal as Seal>⟧.image result ≡ stream_image key }
        ensures takes { (gfn size : ℕ) → ⟦<StreamSeal as Seal>⟧.takes result gfn size ↔ IsPageSize size }
        ensures serves { (config : Config) → IsInRange config → IsFalse config.vault → config.key ≡ key →
            Serves config (⟦<StreamSeal as Seal>⟧.image result) (⟦<StreamSeal as Seal>⟧.takes result) }
    {
        StreamSeal { key }
    }
}

impl Seal for StreamSeal {
    ghost stands = { λ key tag plain sealed. sealed ≡ stream_image key tag plain };

    ghost image = { stream_image };

    ghost takes = { λ _ _ size. IsPageSize size };

    #[tactic(auto, using(crate::proofs::Sizes::page_is_blocks))]
    fn seal(&mut self, tag: Tag, plain: &[u8], out: &mut [u8]) {
        out.copy_from_slice(plain);
        apply_keystream(&self.key, tag, out);
    }

    #[tactic(auto, using(crate::proofs::Sizes::page_is_blocks, crate::proofs::Masks::twice))]
    fn unseal(&self, tag: Tag, sealed: &[u8], out: &mut [u8]) {
        out.copy_from_slice(sealed);
        apply_keystream(&self.key, tag, out);
    }
}

/// Each byte becomes its exclusive-or with the keystream's at its place.
fn apply_keystream(key: &[u8; 32], tag: Tag, bytes: &mut [u8])
    requires { length bytes.old % 32 ≡ 0 }
    ensures { bytes.new ≡ stream_image key.now tag bytes.old }
{
    let keystream = Keystream::build(key, tag);
    for number in 0..bytes.len() / 32 {
        let start = 32 * number;
        apply_block(
            &mut bytes[start..start + 32],
            &keystream.block(number as u64),
        );
    }
}

/// Each byte becomes its exclusive-or with the block's at its place.
fn apply_block(bytes: &mut [u8], block: &[u8; 32])
    requires { length bytes.old ≡ 32 }
    ensures { (i : ℕ) → i < 32 → slice_index bytes.new i ≡ bit_xor (slice_index bytes.old i) (slice_index block.now i) }
{
    for i in 0..32 {
        bytes[i] ^= block[i];
    }
}
