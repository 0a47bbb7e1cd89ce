//! A source in memory gives its bytes in order and fails at the calls that were named.

ghost use Rattle.std.specs.Prelude.{◌≡◌, ◌↔◌, ◌++◌, [], length, take, drop, min, Contains, IfOk, IsErr};
ghost use Rattle.pef_io.specs.Cause.{HasCause, count_taken, raised, faults_after};

use crate::plan::CallPlan;
use crate::{Failed, Source};
use std::marker::Model;

/// A source whose bytes lie in memory. It takes no memory of its own.
#[derive(Drop)]
pub struct MemSource {
    bytes: Vec<u8>,
    /// Where the bytes that are left begin.
    next: usize,
    plan: CallPlan,
}

impl Model for MemSource {
    ghost use Rattle.std.specs.Prelude.{◌≤◌, vec_len, take, drop};
    ghost use Rattle.pef_io.specs.MemSource.{MemSourceState};

    ghost Value = { MemSourceState };

    ghost view = { λ s. record {
      taken = take s.next s.bytes.items;
      left = drop s.next s.bytes.items;
      fails = s.plan.fails.items;
      calls = s.plan.calls;
      faults = s.plan.faults.count;
    } };

    ghost invariant = { λ s. s.next ≤ vec_len s.bytes };
}

impl MemSource {
    /// A source that gives these bytes, and whose reads with these numbers fail.
    ///
    /// The reads are numbered from 0, and those that fail are counted too. The numbers stay at
    /// 2^64 − 1.
    pub fn build(bytes: Vec<u8>, fails: Vec<u64>) -> MemSource
        ensures { result ≡ record {
          taken = [];
          left = bytes.items;
          fails = fails.items;
          calls = 0;
          faults = 0;
        } }
    {
        MemSource {
            bytes,
            next: 0,
            plan: CallPlan::build(fails),
        }
    }
}

impl Source for MemSource {
    ghost use Rattle.std.specs.Prelude.{◌≡◌, ◌++◌, [], Some};

    ghost taken = { λ s. s.taken };

    ghost ended = { λ s. s.left ≡ [] };

    ghost whole = { λ s. Some (s.taken ++ s.left) };

    ghost faults = { λ s. s.faults };

    /// Fails exactly where the number of the call is among those that fail. Else it moves as many
    /// bytes as the buffer holds and are left.
    fn read(&mut self, buf: &mut [u8]) -> Result<usize, Failed>
        ensures failed { IsErr result ↔ Contains self.old.fails self.old.calls }
        ensures cause { HasCause self.old.faults self.new.faults result }
        ensures count { IfOk result (λ n. n ≡ min (length buf.new) (length self.old.left)) }
        ensures buffer { buf.new ≡
            take (count_taken result) self.old.left ++ drop (count_taken result) buf.old }
        ensures source { self.new ≡ record self.old {
          taken = self.old.taken ++ take (count_taken result) self.old.left;
          left = drop (count_taken result) self.old.left;
          calls = raised self.old.calls;
          faults = faults_after self.old.faults result;
        } }
    {
        self.plan.begin_call()?;
        let left = &self.bytes[self.next..];
        let count = left.len().min(buf.len());
        buf[..count].copy_from_slice(&left[..count]);
        self.next += count;
        Ok(count)
    }
}
