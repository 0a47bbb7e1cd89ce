//! Each free frame is all zero, since one that comes back is zeroed first.

ghost use Rattle.std.specs.Prelude.{◌≡◌, ◌↔◌, ◌+◌, ◌<◌, ◌≤◌, [], length, IfOk, IfSome, IsNone};

use crate::secure::SecFrame;
use std::alloc::{AllocError, Global};
use std::marker::Model;

/// The free secure frames of a machine, seen as their numbers, the one that is taken next first.
///
/// A number below the count that is not among them is that of a frame which somebody holds.
#[derive(Drop)]
pub struct Pool {
    count: u32,
    size: u32,
    frames: Vec<SecFrame>,
}

impl Model for Pool {
    ghost use Rattle.std.specs.Prelude.{reverse};
    ghost use Rattle.pef_frames.specs.Frame.{numbers_of};
    ghost use Rattle.pef_frames.specs.Pool.{PoolState, AreFree};

    ghost Value = { PoolState };

    ghost view = { λ p. record { count = p.count; size = p.size; free = numbers_of (reverse p.frames.items) } };

    // The room for all frames was taken at the start, so that giving one back takes no memory.
    ghost invariant = { λ p. AreFree p.count p.size p.frames };
}

impl Pool {
    ghost use Rattle.pef_frames.specs.Pool.{full_pool, first_free, without_first, with_free};

    /// A pool of so many frames of a size in bytes, numbered from 0, all free and all zero. Refused where the memory is
    /// not to be had.
    pub fn build(alloc: Global, count: u32, size: u32) -> Result<Pool, AllocError>
        ensures { IfOk result (λ pool. pool ≡ full_pool count size) }
    {
        let mut frames = Vec::with_capacity(alloc, count as usize)?;
        // The last goes in first, since a frame is taken from the end.
        let mut number = count;
        while number > 0 {
            number -= 1;
            frames.push(SecFrame::build(alloc, number, size)?)?;
        }
        Ok(Pool {
            count,
            size,
            frames,
        })
    }

    /// Takes the first free frame, which is all zero. None exactly where no frame is free. It takes no memory.
    pub fn take(&mut self) -> Option<SecFrame>
        ensures frame { result ≡ first_free self.old }
        ensures none { IsNone result ↔ (self.old.free ≡ []) }
        ensures number { IfSome result (λ frame. frame.number < self.new.count) }
        ensures room { IfSome result (λ _. length self.new.free < self.new.count) }
        ensures pool { self.new ≡ without_first self.old }
    {
        self.frames.pop()
    }

    /// Gives a frame back. It is zeroed, and the first that is taken next. It takes no memory.
    pub fn give(&mut self, mut frame: SecFrame)
        requires number { frame.number < self.old.count }
        requires size { length frame.bytes ≡ self.old.size }
        requires room { length self.old.free < self.old.count }
        ensures { self.new ≡ with_free self.old frame.number }
    {
        frame.zero();
        match self.frames.push(frame) {
            Ok(()) => {}
            Err(_) => unreachable!(),
        }
    }

    /// How many frames are free.
    pub fn free(&self) -> u32
        ensures value { result ≡ length self.now.free }
        ensures within { result ≤ self.now.count }
    {
        self.frames.len() as u32
    }

    /// How many frames are not free, and so may be given back.
    pub fn room(&self) -> u32
        ensures { result + length self.now.free ≡ self.now.count }
    {
        self.count - self.free()
    }

    /// How many frames there are, free or not.
    pub fn count(&self) -> u32
        ensures { result ≡ self.now.count }
    {
        self.count
    }

    /// How many bytes a frame has.
    pub fn size(&self) -> u32
        ensures { result ≡ self.now.size }
    {
        self.size
    }
}
