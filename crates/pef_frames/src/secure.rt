//! A secure frame is a value that nobody can copy, so each exists once.

ghost use Rattle.std.specs.Prelude.{◌≡◌, IfOk};
ghost use Rattle.std.specs.Borrow.{sem};

use std::alloc::{AllocError, Global};
use std::marker::Model;

/// A secure frame, seen as its number and its bytes. Only a pool makes one, and nobody can copy it.
///
/// One that is dropped is lost to its pool: give it back.
#[derive(Drop)]
pub struct SecFrame {
    number: u32,
    bytes: Vec<u8>,
}

impl Model for SecFrame {
    ghost use Rattle.pef_frames.specs.Frame.{FrameState};

    ghost Value = { FrameState };

    ghost view = { λ f. record { number = f.number; bytes = f.bytes.items } };
}

impl SecFrame {
    ghost use Rattle.pef_frames.specs.Frame.{zero_frame, zeroed};
    ghost use Rattle.pef_frames.specs.Lent.{LendsBytes};

    /// A frame of a size in bytes, all zero.
    pub(crate) fn build(alloc: Global, number: u32, size: u32) -> Result<SecFrame, AllocError>
        ensures { IfOk result (λ frame. frame ≡ zero_frame size number) }
    {
        let bytes = vec![in alloc; 0; size as usize]?;
        Ok(SecFrame { number, bytes })
    }

    /// Its number among the frames of its pool, from 0.
    pub fn number(&self) -> u32
        ensures { result ≡ self.now.number }
    {
        self.number
    }

    /// Its bytes.
    pub fn bytes(&self) -> &[u8]
        ensures { result.now ≡ self.now.bytes }
    {
        &self.bytes
    }

    /// Its bytes, to be written. The frame then has what was written, under the number that it had; it keeps its length.
    pub fn bytes_mut(&mut self) -> &mut [u8]
        ensures value { result.now ≡ self.old.bytes }
        ensures* writes_back { sem 𝓛 (LendsBytes self.entry result) }
    {
        self.bytes.as_mut_slice()
    }

    /// Makes all its bytes zero.
    pub(crate) fn zero(&mut self)
        ensures { self.new ≡ zeroed self.old }
    {
        self.bytes.fill(0);
    }
}
