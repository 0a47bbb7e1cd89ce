//! A sink in memory keeps what it takes, up to its room, and fails at the calls that were named.

ghost use Rattle.std.specs.Prelude.{◌≡◌, ◌↔◌, ◌≤◌, ◌-◌, ◌++◌, [], length, take, min, IfOk, IsErr};
ghost use Rattle.pef_io.specs.Cause.{HasCause, count_taken, raised, faults_after};

use crate::plan::CallPlan;
use crate::{Failed, Sink};
use std::alloc::{AllocError, Global};
use std::marker::Model;

/// A sink whose bytes lie in memory. Its writes take no memory.
#[derive(Drop)]
pub struct MemSink {
    bytes: Vec<u8>,
    /// How many bytes it takes in all.
    room: usize,
    plan: CallPlan,
}

impl Model for MemSink {
    ghost use Rattle.std.specs.Prelude.{◌≤◌, vec_len, vec_capacity};
    ghost use Rattle.pef_io.specs.MemSink.{MemSinkState};

    ghost Value = { MemSinkState };

    ghost view = { λ s. record {
      written = s.bytes.items;
      room = s.room;
      fails = s.plan.fails.items;
      calls = s.plan.calls;
      faults = s.plan.faults.count;
    } };

    // The room was taken at the start, so that a write takes no memory.
    ghost invariant = { λ s. (vec_len s.bytes ≤ s.room) × (s.room ≤ vec_capacity s.bytes) };
}

impl MemSink {
    /// A sink with room for so many bytes, whose writes with these numbers fail.
    ///
    /// The writes are numbered from 0, and those that fail are counted too. The numbers stay at
    /// 2^64 − 1. Refused where the memory for the room is not to be had.
    pub fn build(alloc: Global, room: usize, fails: Vec<u64>) -> Result<MemSink, AllocError>
        ensures { IfOk result (λ sink. sink ≡ record {
          written = [];
          room = room;
          fails = fails.items;
          calls = 0;
          faults = 0;
        }) }
    {
        let bytes = Vec::with_capacity(alloc, room)?;
        Ok(MemSink {
            bytes,
            room,
            plan: CallPlan::build(fails),
        })
    }

    /// The bytes that were written, from the first on.
    pub fn bytes(&self) -> &[u8]
        ensures value { result.now ≡ self.now.written }
        ensures within { length result.now ≤ self.now.room }
    {
        &self.bytes
    }
}

impl Sink for MemSink {
    ghost use Rattle.pef_io.specs.MemSink.{IsRefused};

    ghost given = { λ s. s.written };

    ghost faults = { λ s. s.faults };

    /// Fails exactly where the number of the call is among those that fail, or where the buffer
    /// is not empty and no room is left. Else it appends as many bytes as fit.
    fn write(&mut self, buf: &[u8]) -> Result<usize, Failed>
        ensures failed { IsErr result ↔ IsRefused self.old buf.now }
        ensures cause { HasCause self.old.faults self.new.faults result }
        ensures count { IfOk result (λ n.
            n ≡ min (length buf.now) (self.old.room - length self.old.written)) }
        ensures sink { self.new ≡ record self.old {
          written = self.old.written ++ take (count_taken result) buf.now;
          calls = raised self.old.calls;
          faults = faults_after self.old.faults result;
        } }
    {
        self.plan.begin_call()?;
        let space = self.room - self.bytes.len();
        if space == 0 && !buf.is_empty() {
            return Err(self.plan.faults.fail());
        }
        let count = buf.len().min(space);
        self.bytes.extend_from_slice(&buf[..count]).unwrap();
        Ok(count)
    }
}
