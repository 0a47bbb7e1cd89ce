//! A guest has all its memory from the start.

ghost use Rattle.std.specs.Prelude.{◌≡◌, ◌-◌, ◌^◌, ◌<◌, ◌≤◌, ℕ, length, replicate, IfOk, IsTrue, ◌↔◌};
ghost use Rattle.pef_model.specs.Plan.{IsInRange, IsWithin, plan_of};
ghost use Rattle.pef_model.specs.Deed.{may_return_in};
ghost use Rattle.pef_model.specs.Entry.{may_write_in, may_enter_in};
ghost use Rattle.pef_model.specs.SlotCalls.{may_change_slots_in};
ghost use Rattle.pef_guest.specs.Ready.{may_run_in};
ghost use Rattle.pef_guest.specs.Life.{IsSet};
ghost use Rattle.pef_model.specs.GuestPart.{start_state};
ghost use Rattle.pef_model.specs.Slots.{start_slots};
ghost use Rattle.pef_regs.specs.Start.{start_vcpu};
ghost use Rattle.pef_guest.specs.Start.{IsStartGuest};
ghost use Rattle.pef_guest.specs.Whole.{IsWhole};

use crate::words::Words;
use pef_frames::SecFrame;
use pef_model::{Config, Phase, VState};
use pef_pages::Pages;
use pef_pate::Pate;
use pef_regs::Vcpu;
use pef_seal::Seal;
use pef_slots::Slots;
use std::alloc::{AllocError, Global};

/// A guest. Its fields are public, so that a step can borrow two of them at once.
#[derive(Drop)]
pub struct Guest<S: Seal> {
    /// Its number, from 1.
    pub lpid: u16,
    /// A page has 2^shift bytes; 8 to 16.
    pub shift: u8,
    /// How many normal frames the machine has.
    pub normal: u32,
    /// How many secure frames the machine has.
    pub secure: u32,
    /// Whether it runs in secure memory.
    pub phase: Phase,
    /// Which life of the guest it is, from 1.
    pub generation: u64,
    /// Which normal frames its pages have, where it is in normal memory.
    pub entry: Pate,
    /// Its memory slots: a secure guest has the pages that lie in one.
    pub slots: Slots,
    /// Its entropy words, each of which it is given once.
    pub words: Words,
    /// Its private memory.
    pub pages: Pages<SecFrame>,
    pub vcpus: Vec<Vcpu>,
    /// What seals its pages.
    pub sealer: S,
    /// How many steps were done on it. No version is above it.
    pub steps: u64,
}

/// Whether a guest is secure from the start.
fn is_born(config: &Config, lpid: u16) -> bool
    ensures { result ≡ (plan_of config.now).is_born lpid }
{
    config.born.as_slice().iter().any(|born| *born == lpid)
}

/// The memory slots with which a guest begins: slot 0 over all its pages where it is born secure, and else none.
fn first_slots(alloc: Global, config: &Config, born: bool) -> Result<Slots, AllocError>
    requires { 0 < config.now.pages }
    ensures { IfOk result (λ slots. slots ≡ start_slots (plan_of config.now) born) }
{
    if born {
        Slots::with_all(alloc, config.pages)
    } else {
        Slots::build(alloc)
    }
}

impl<S: Seal> Guest<S> {
    /// A guest of a configuration, by its number from 1, with its sealer, as it begins. One that is born secure is Secure,
    /// with Fresh vCPUs and slot 0 over all its pages; every other is Absent, with Idle vCPUs and no slot. Refused where the
    /// memory is not to be had.
    pub fn build(
        alloc: Global,
        config: &Config,
        lpid: u16,
        sealer: S,
    ) -> Result<Guest<S>, AllocError>
        requires range { IsInRange config.now }
        requires serves { (gfn : ℕ) → gfn < config.now.pages → S.takes sealer gfn (2 ^ config.now.shift) }
        ensures start { IfOk result (IsStartGuest config.now lpid sealer) }
        ensures whole { IfOk result (IsWhole S.takes) }
    {
        let pages = Pages::build(alloc, config.pages)?;
        let born = is_born(config, lpid);
        let slots = first_slots(alloc, config, born)?;
        let words = Words::build(alloc, config, lpid)?;
        let (phase, state) = if born {
            (Phase::Secure, VState::Fresh)
        } else {
            (Phase::Absent, VState::Idle)
        };
        let vcpus = vec![in alloc; Vcpu::new(state); config.vcpus as usize]?;
        Ok(Guest {
            lpid,
            shift: config.shift,
            normal: config.normal,
            secure: config.secure,
            phase,
            generation: 1,
            entry: Pate { dw0: 0, dw1: 0 },
            slots,
            words,
            pages,
            vcpus,
            sealer,
            steps: 0,
        })
    }

    /// Whether a vCPU of it runs in its phase.
    pub fn may_run(&self) -> bool
        ensures { result ≡ may_run_in self.now.phase }
    {
        match self.phase {
            Phase::Normal | Phase::Starting | Phase::Secure => true,
            Phase::Absent | Phase::Aborting => false,
        }
    }

    /// Whether `h.enter` is for it: it is in normal memory.
    pub fn may_enter(&self) -> bool
        ensures { result ≡ may_enter_in self.now.phase }
    {
        self.phase == Phase::Normal
    }

    /// Whether UV_WRITE_PATE may set its partition entry: it is neither secure nor on the way to it or back.
    pub fn may_write(&self) -> bool
        ensures { result ≡ may_write_in self.now.phase }
    {
        match self.phase {
            Phase::Absent | Phase::Normal => true,
            Phase::Starting | Phase::Secure | Phase::Aborting => false,
        }
    }

    /// Sets its partition entry. With a page it is in normal memory from now on. With none it ends: it is Absent, in the next
    /// generation, and each of its vCPUs is Idle, with zero registers.
    pub fn set_entry(&mut self, entry: Pate)
        requires { self.old.generation < 2 ^ 64 - 1 }
        ensures { IsSet self.old self.new entry }
    {
        self.entry = entry;
        if entry.dw1 != 0 {
            self.phase = Phase::Normal;
            return;
        }
        self.phase = Phase::Absent;
        self.generation += 1;
        self.vcpus.fill(Vcpu::new(VState::Idle));
    }

    /// Whether its memory slots may be changed: it is secure, or on the way to it.
    pub fn may_change_slots(&self) -> bool
        ensures { result ≡ may_change_slots_in self.now.phase }
    {
        match self.phase {
            Phase::Starting | Phase::Secure => true,
            Phase::Absent | Phase::Normal | Phase::Aborting => false,
        }
    }

    /// Whether UV_RETURN may take up one of its vCPUs.
    pub fn may_return(&self) -> bool
        ensures { result ≡ may_return_in self.now.phase }
    {
        match self.phase {
            Phase::Starting | Phase::Secure => true,
            Phase::Absent | Phase::Normal | Phase::Aborting => false,
        }
    }
}
