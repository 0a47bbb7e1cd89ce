//! A CPU's hand holds one page of public bytes: sealed ones, or a copy of a normal frame.

ghost use Rattle.std.specs.Prelude.{◌≡◌, ◌≢◌, ◌↔◌, ℕ, List, length, replicate, IfOk};
ghost use Rattle.pef_model.specs.declared.state.Tag.{Tag};

use pef_frames::NormalFrame;
use pef_model::Tag;
use pef_seal::Seal;
use std::alloc::{AllocError, Global};
use std::marker::Model;

/// What a CPU has in its hand, seen as the list of its bytes.
#[derive(Drop)]
pub struct Hand {
    bytes: Vec<u8>,
}

impl Model for Hand {
    ghost use Rattle.std.specs.Prelude.{ℕ, List};

    ghost Value = { List ℕ };

    ghost view = { λ h. h.bytes.items };
}

impl Hand {
    /// A hand of a size in bytes, all zero. Refused where the memory is not to be had.
    pub fn build(alloc: Global, size: u32) -> Result<Hand, AllocError>
        ensures { IfOk result (λ hand. hand ≡ replicate size 0) }
    {
        let bytes = vec![in alloc; 0; size as usize]?;
        Ok(Hand { bytes })
    }

    /// Its bytes.
    pub fn bytes(&self) -> &[u8]
        ensures { result.now ≡ self.now }
    {
        &self.bytes
    }

    /// Takes what a normal frame holds.
    pub fn take_copy(&mut self, frame: &NormalFrame)
        requires { length frame.now ≡ length self.old }
        ensures { self.new ≡ frame.now }
    {
        frame.copy_to(&mut self.bytes);
    }

    /// Takes the sealed page of a plain one, under a tag.
    pub fn take_sealed<S: Seal>(&mut self, sealer: &mut S, tag: Tag, plain: &[u8])
        requires lengths { length plain.now ≡ length self.old }
        requires takes { S.takes sealer.old tag.gfn (length plain.now) }
        ensures hand { self.new ≡ S.image sealer.old tag plain.now }
        ensures stands { S.stands sealer.new tag plain.now self.new }
        ensures others { (other : Tag) (page sealed : List ℕ) → other.gfn ≢ tag.gfn → S.stands sealer.new other page sealed ↔ S.stands sealer.old other page sealed }
        ensures same_image { S.image sealer.new ≡ S.image sealer.old }
        ensures same_takes { (gfn size : ℕ) → S.takes sealer.new gfn size ↔ S.takes sealer.old gfn size }
        ensures length { length self.new ≡ length self.old }
    {
        sealer.seal(tag, plain, &mut self.bytes);
    }
}
