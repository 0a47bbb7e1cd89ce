//! A vCPU waits, runs, and waits again where it has left, with its registers.

ghost use Rattle.std.specs.Prelude.{◌≡◌, IfSome, slice_index, slice_set};
ghost use Rattle.pef_model.specs.GuestPart.{call_of_state};
ghost use Rattle.pef_model.specs.Guest.{entered_at, address_for, answered_by, answered_with, at_next_instruction};
ghost use Rattle.pef_model.specs.Deed.{is_waiting, taken_up_in};
ghost use Rattle.pef_model.specs.Entry.{can_be_entered};
ghost use Rattle.pef_model.specs.Hypercalls.{IsRow};

use crate::registers;
use pef_model::{Ctx, Pending, Reg, Regs, Row, Run, VState, Work};

/// A vCPU of a guest.
#[derive(Clone, Copy)]
pub struct Vcpu {
    pub state: VState,
    /// The guest's generation when it was taken up; 0 before.
    pub generation: u64,
    pub regs: Regs,
}

impl Vcpu {
    ghost use Rattle.pef_regs.specs.Start.{start_vcpu};
    ghost use Rattle.pef_model.specs.Registers.{with_outputs};
    ghost use Rattle.pef_regs.specs.Registers.{with_registers, with_gpr, TakesOutputs};

    /// A vCPU that hasn't run, with zero registers.
    pub fn new(state: VState) -> Vcpu
        ensures { result ≡ start_vcpu state }
    {
        Vcpu {
            state,
            generation: 0,
            regs: Regs {
                gpr: [0; 32],
                nip: 0,
                srr0: 0,
            },
        }
    }

    /// Whether UV_RETURN takes it up: it hasn't run, or has left a secure guest.
    pub fn is_waiting(&self) -> bool
        ensures { result ≡ is_waiting self.now.state }
    {
        match self.state {
            VState::Idle | VState::Running(_) | VState::Parked(Pending::Exit) => false,
            VState::Fresh | VState::Parked(_) => true,
        }
    }

    /// In what context it goes on once UV_RETURN has taken it up, as this vCPU of its guest: in the call in which it waits, and as
    /// a guest where it waits in none.
    pub fn goes_on_in(&self, run: Run) -> Ctx
        ensures { result ≡ taken_up_in self.now.state run }
    {
        match self.state {
            VState::Parked(Pending::Share(_)) => Ctx::Uv(Work::Share(run)),
            VState::Parked(Pending::Unshare(_)) => Ctx::Uv(Work::Unshare(run)),
            VState::Parked(Pending::UnshareAll(_)) => Ctx::Uv(Work::UnshareAll(run)),
            VState::Parked(Pending::EsmStart | Pending::EsmDone) => Ctx::Uv(Work::Esm(run)),
            VState::Parked(Pending::EsmNeed(_)) => Ctx::Uv(Work::Esm(run)),
            _ => Ctx::Guest(run),
        }
    }

    /// R2 of UV_RETURN as it counts for it: none where it goes back into its call.
    pub fn address_for(&self, r2: u64) -> u64
        ensures { result ≡ address_for (call_of_state self.now.state) r2 }
    {
        match self.state {
            VState::Parked(Pending::Share(_) | Pending::Unshare(_) | Pending::UnshareAll(_)) => 0,
            VState::Parked(Pending::EsmStart | Pending::EsmNeed(_) | Pending::EsmDone) => 0,
            _ => r2,
        }
    }

    /// Whether `h.enter` enters it: it hasn't run, or waits where it has left.
    pub fn can_be_entered(&self) -> bool
        ensures { result ≡ can_be_entered self.now.state }
    {
        match self.state {
            VState::Idle | VState::Parked(_) => true,
            VState::Fresh | VState::Running(_) => false,
        }
    }

    /// The value of a register.
    pub fn reg(&self, r: Reg) -> u64
        ensures { result ≡ slice_index self.now.regs.gpr r }
    {
        registers::value_of(&self.regs.gpr, r)
    }

    /// Puts a value into a register.
    pub fn set(&mut self, rd: Reg, value: u64)
        ensures { self.new ≡ with_gpr self.old (slice_set self.old.regs.gpr rd value) }
    {
        self.regs.gpr[rd.number() as usize] = value;
    }

    /// Goes on to the next instruction.
    pub fn advance(&mut self)
        ensures { self.new ≡ with_registers self.old (at_next_instruction self.old.regs self.old.regs.gpr) }
    {
        registers::move_on(&mut self.regs);
    }

    /// Takes the outputs of a hypercall: R4 and the registers after it, as many as the call's row has outputs, become the first
    /// of `outs`.
    pub fn take_outputs(&mut self, row: &Row, outs: &[u64; 9])
        requires { IsRow row.now }
        ensures vcpu { self.new ≡ with_gpr self.old (with_outputs self.old.regs.gpr row.now.outputs outs.now) }
        ensures each { TakesOutputs self.old.regs.gpr self.new.regs.gpr row.now.outputs outs.now }
    {
        let count = usize::from(row.outputs);
        self.regs.gpr[4..4 + count].copy_from_slice(&outs[..count]);
    }

    /// Takes the answer of a hypercall of this row, and its outputs: R3 becomes `r0`, and it goes on to the next instruction.
    pub fn answer_call(&mut self, row: Option<Row>, r0: u64, outs: &[u64; 9])
        requires { IfSome row IsRow }
        ensures { self.new ≡ with_registers self.old (answered_by row self.old.regs r0 outs.now) }
    {
        if let Some(row) = row {
            self.take_outputs(&row, outs);
        }
        self.regs.gpr[3] = r0;
        self.advance();
    }

    /// Gives R3 the value of `h.enter` where it waits for the answer of a hypercall, in a guest in normal memory.
    pub fn give_answer(&mut self, value: u64)
        ensures { self.new ≡ with_registers self.old (answered_with self.old.state self.old.regs value) }
    {
        if self.state == VState::Parked(Pending::Exit) {
            self.regs.gpr[3] = value;
        }
    }

    /// Runs from now on, on this CPU and in this generation of its guest; at R2's address, where that isn't 0.
    pub fn take_up(&mut self, cpu: u8, generation: u64, r2: u64)
        ensures { self.new ≡ record { state = VState.Running cpu; generation = generation; regs = entered_at self.old.regs r2 } }
    {
        self.state = VState::Running(cpu);
        self.generation = generation;
        registers::interrupt(&mut self.regs, r2);
    }

    /// Has left, and waits. Its registers stay in its record.
    pub fn park(&mut self, pending: Pending)
        ensures { self.new ≡ record self.old { state = VState.Parked pending } }
    {
        self.state = VState::Parked(pending);
    }
}
