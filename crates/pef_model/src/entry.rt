//! An entry tells all that its step learnt and gave out.

ghost use Rattle.std.specs.Prelude.{◌≡◌, [], ◌∷◌, ◌++◌, ◌≤◌, length, OnOk, OnErr, IsTrue, ◌↔◌};

use crate::command::{Cmd, Code};
use crate::state::Ctx;
use std::alloc::{AllocError, Global};
use std::marker::Model;

/// Why a guest leaves for the hypervisor.
#[derive(Clone, Copy, Debug, PartialEq, Eq)]
pub enum Exit {
    /// A guest in normal memory leaves, with all its registers.
    Normal,
    /// An external interrupt of a secure guest.
    Irq,
    /// A secure guest's hypercall of this number, which the hypervisor is to answer.
    Hcall(u8),
}

/// The answer of a step.
#[derive(Clone, Copy, Debug, PartialEq, Eq)]
pub enum Answer {
    /// It is done.
    Done,
    /// It is done, and gives this value.
    Val(u64),
    /// The call came back with this code.
    Ret(Code),
    /// One step of a call is done, and the call is in progress.
    Step,
    /// A vCPU runs from now on.
    Enter,
    /// The guest leaves, and the hypervisor runs from now on.
    Exit(Exit),
    /// Nothing can be done at present: the page is on the move.
    Again,
    /// The guest that the CPU ran has ended; the hypervisor runs from now on.
    Gone,
    /// The address is none that can be accessed: it is no multiple of 8, lies in no page or frame, its page has no frame
    /// and isn't Invalid, or no secure frame is free to back it.
    Hole,
    /// The command is none of the CPU's context.
    Context,
    /// Nothing was done.
    Nothing,
}

/// Which step of which line an entry was, and what it answered.
#[derive(Clone, Copy, Debug, PartialEq, Eq)]
pub struct Trace {
    /// The script's line, from 1.
    pub line: u32,
    /// The CPU, from 0.
    pub cpu: u8,
    /// Which of its CPU's entries it is, from 0.
    pub place: u32,
    /// In a run of a script its place in the order of all entries, from 1.
    pub stamp: u64,
    pub cmd: Cmd,
    pub answer: Answer,
}

/// What a step learnt of the secure frames, and what it did with them.
#[derive(Clone, Copy, Debug, PartialEq, Eq)]
pub struct PoolSaw {
    /// A frame was free before the step; false where the step didn't ask.
    pub any: bool,
    /// How many frames it took.
    pub taken: u32,
    /// How many frames it gave back.
    pub given: u32,
}

/// The values that a guest lets out in a step, at most 32, seen as their list.
#[derive(Drop)]
pub struct Exposed {
    values: [u64; 32],
    count: u8,
}

impl Model for Exposed {
    ghost use Rattle.std.specs.Prelude.{ℕ, List, take, ◌≤◌};

    ghost Value = { List ℕ };

    ghost view = { λ x. take x.count x.values };

    ghost invariant = { λ x. x.count ≤ 32 };
}

impl Exposed {
    /// No value.
    pub fn nothing() -> Exposed
        ensures { result ≡ [] }
    {
        Exposed {
            values: [0; 32],
            count: 0,
        }
    }

    /// The values of a list.
    pub fn of(list: &[u64]) -> Exposed
        requires { length list.now ≤ 32 }
        ensures { result ≡ list.now }
    {
        let mut values = [0; 32];
        values[..list.len()].copy_from_slice(list);
        Exposed {
            values,
            count: list.len() as u8,
        }
    }
}

/// What a step saw beside the object at which it aimed.
#[derive(Drop)]
pub struct Saw {
    /// The CPU's context before the step.
    pub before: Ctx,
    /// The CPU's context after the step.
    pub after: Ctx,
    /// The guest that the CPU had selected before the step.
    pub lpid: u16,
    /// The vCPU that the CPU had selected before the step.
    pub vid: u8,
    /// The last answer that the hypervisor had on this CPU before the step.
    pub last: Answer,
    /// Some exactly where the step read or changed the number of free secure frames.
    pub pool: Option<PoolSaw>,
    /// The normal frame that the step read or wrote.
    pub frame: Option<u32>,
    /// What the guest let out.
    pub shown: Exposed,
}

/// One step as it is recorded.
#[derive(Drop)]
pub struct Entry {
    pub trace: Trace,
    pub saw: Saw,
    pub bytes: Vec<u8>,
}

impl Model for Entry {
    ghost use Rattle.pef_model.specs.Event.{Event};

    ghost Value = { Event };

    ghost view = { λ e. record { trace = e.trace; saw = e.saw; bytes = e.bytes.items } };
}

/// The entries of a run, seen as their list, the oldest first.
#[derive(Drop)]
pub struct History {
    entries: Vec<Entry>,
}

impl Model for History {
    ghost use Rattle.std.specs.Prelude.{List};
    ghost use Rattle.pef_model.specs.Event.{Event};

    ghost Value = { List Event };

    ghost view = { λ h. h.entries.items };
}

impl History {
    /// With no entry.
    pub fn new(alloc: Global) -> History
        ensures { result ≡ [] }
    {
        History {
            entries: Vec::new(alloc),
        }
    }

    /// Adds an entry at the end. For want of memory nothing is added.
    pub fn push(&mut self, entry: Entry) -> Result<(), AllocError>
        ensures ok { OnOk result (self.new ≡ self.old ++ entry ∷ []) }
        ensures err { OnErr result (self.new ≡ self.old) }
    {
        self.entries.push(entry)?;
        Ok(())
    }

    /// How many entries there are.
    pub fn len(&self) -> usize
        ensures { result ≡ length self.now }
    {
        self.entries.len()
    }

    /// Whether there is no entry.
    pub fn is_empty(&self) -> bool
        ensures { IsTrue result ↔ (self.now ≡ []) }
    {
        self.entries.is_empty()
    }
}
