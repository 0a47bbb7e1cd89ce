//! A normal frame is its bytes, and begins with zeros.

ghost use Rattle.std.specs.Prelude.{◌≡◌, ◌+◌, ◌≤◌, length, replicate, IfOk};
ghost use Rattle.pef_model.specs.Doubleword.{doubleword, with_doubleword};

use std::alloc::{AllocError, Global};
use std::marker::Model;

/// A normal frame, seen as the list of its bytes.
#[derive(Drop)]
pub struct NormalFrame {
    bytes: Vec<u8>,
}

impl Model for NormalFrame {
    ghost use Rattle.std.specs.Prelude.{ℕ, ◌^◌, ◌<◌, List, vec_len};

    ghost Value = { List ℕ };

    ghost view = { λ f. f.bytes.items };

    ghost invariant = { λ f. vec_len f.bytes < 2 ^ 32 };
}

impl NormalFrame {
    /// A frame of a size in bytes, all zero. Refused where the memory is not to be had.
    pub fn build(alloc: Global, size: u32) -> Result<NormalFrame, AllocError>
        ensures { IfOk result (λ frame. frame ≡ replicate size 0) }
    {
        let bytes = vec![in alloc; 0; size as usize]?;
        Ok(NormalFrame { bytes })
    }

    /// How many bytes it has: those that it was built with.
    pub fn size(&self) -> u32
        ensures { result ≡ length self.now }
    {
        self.bytes.len() as u32
    }

    /// Its bytes.
    pub fn bytes(&self) -> &[u8]
        ensures { result.now ≡ self.now }
    {
        &self.bytes
    }

    /// The doubleword in the eight bytes from an offset, the highest byte first.
    pub fn load(&self, off: u32) -> u64
        requires { off + 8 ≤ length self.now }
        ensures { result ≡ doubleword self.now off }
    {
        pef_num::dw_at(&self.bytes, off as usize)
    }

    /// Puts a doubleword into the eight bytes from an offset, the highest byte first. All other bytes stay.
    pub fn store(&mut self, off: u32, value: u64)
        requires { off + 8 ≤ length self.old }
        ensures bytes { self.new ≡ with_doubleword self.old off value }
        ensures size { length self.new ≡ length self.old }
    {
        pef_num::put_dw(&mut self.bytes, off as usize, value);
    }

    /// Copies all its bytes into a hand of as many.
    pub fn copy_to(&self, hand: &mut [u8])
        requires { length hand.old ≡ length self.now }
        ensures { hand.new ≡ self.now }
    {
        hand.copy_from_slice(&self.bytes);
    }

    /// Takes all its bytes from a hand of as many.
    pub fn copy_from(&mut self, hand: &[u8])
        requires { length hand.now ≡ length self.old }
        ensures { self.new ≡ hand.now }
    {
        self.bytes.copy_from_slice(hand);
    }

    /// Makes all its bytes zero.
    pub fn zero(&mut self)
        ensures { self.new ≡ replicate (length self.old) 0 }
    {
        self.bytes.fill(0);
    }
}
