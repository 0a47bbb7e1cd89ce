//! The hypervisor takes up a vCPU: by UV_RETURN one that waits in a secure guest, by `h.enter` one of a guest in normal memory.

ghost use Rattle.std.specs.Prelude.{◌≡◌, ℕ, ◌^◌, ◌&&◌, ◌<◌, ◌≤◌, nat_lt, length};
ghost use Rattle.std.specs.Vec.{with_item};
ghost use Rattle.pef_model.specs.Guest.{returned_by};
ghost use Rattle.pef_model.specs.Deed.{is_waiting, may_return_in, taken_up_in};
ghost use Rattle.pef_model.specs.Entry.{can_be_entered};
ghost use Rattle.pef_frames.specs.Pool.{PoolState};
ghost use Rattle.pef_guest.specs.Shows.{vcpu_at};
ghost use Rattle.pef_guest.specs.Whole.{IsWhole};
ghost use Rattle.pef_guest.specs.Does.{DoesRow};

use crate::call::bring_answer;
use pef_guest::{Cpu, Guest, registers};
use pef_model::{Answer, Cmd, Code, Ctx, Run, VState};
use pef_seal::Seal;

/// UV_RETURN of the hypervisor: the selected vCPU goes on, behind the hypercall with which it has left, with R0 in its R3 and the
/// call's outputs of `outs` from its R4 on; at the instruction whose access left; or in the call of its own in which it left. R2
/// not 0 is the address at which it goes on as a guest. U_INVALID where its guest is neither Starting nor Secure, or where the
/// vCPU is neither Fresh nor Parked.
pub fn uv_return<S: Seal>(
    guest: &mut Guest<S>,
    cpu: &mut Cpu,
    r0: u64,
    r2: u64,
    outs: &[u64; 9],
) -> Answer
    requires hypervisor { cpu.old.ctx ≡ Ctx.Hv }
    requires selects { cpu.old.lpid ≡ guest.old.lpid }
    requires vcpu { cpu.old.vid < length guest.old.vcpus.items }
    requires whole { IsWhole S.takes guest.old }
    requires steps { guest.old.steps < 2 ^ 63 }
    ensures { (pool : PoolState) → DoesRow S.takes S.stands S.image (Cmd.UReturn r0 r2 outs.now) guest.old guest.new cpu.old cpu.new pool pool result }
{
    guest.steps += 1;
    registers::load(
        &mut cpu.gpr,
        &Cmd::UReturn {
            r0,
            r2,
            outs: *outs,
        },
    );
    if !can_return(guest, cpu.vid) {
        return cpu.refuse(Code::UInvalid);
    }
    let run = Run {
        lpid: cpu.lpid,
        vid: cpu.vid,
        generation: guest.generation,
    };
    take_up(guest, cpu, run, r0, r2, outs)
}

/// `h.enter` of the hypervisor: a vCPU, by its number from 0, of a guest in normal memory runs from now on, in the guest's
/// generation. R3 of one that waits for the answer of a hypercall has the value from now on; every other register is as it was, and
/// so is each of one that doesn't wait for it. The CPU keeps its selection. The guest is the one that the command names.
///
/// U_PARAMETER where the guest isn't Normal; U_P2 where it has no such vCPU, or where the vCPU is neither Idle nor Parked. It
/// is no ultracall, so it loads no register: one that comes back has its code in R3. This project's own.
pub fn enter_normal<S: Seal>(guest: &mut Guest<S>, cpu: &mut Cpu, vid: u64, value: u64) -> Answer
    requires hypervisor { cpu.old.ctx ≡ Ctx.Hv }
    requires whole { IsWhole S.takes guest.old }
    requires steps { guest.old.steps < 2 ^ 63 }
    ensures { (pool : PoolState) (lpid : ℕ) → lpid ≡ guest.old.lpid → DoesRow S.takes S.stands S.image (Cmd.HEnter lpid vid value) guest.old guest.new cpu.old cpu.new pool pool result }
{
    guest.steps += 1;
    if !guest.may_enter() {
        return cpu.refuse(Code::UParameter);
    }
    if !has_vcpu_to_enter(guest, vid) {
        return cpu.refuse(Code::UP2);
    }
    let run = Run {
        lpid: guest.lpid,
        vid: vid as u8,
        generation: guest.generation,
    };
    let vcpu = &mut guest.vcpus[run.vid as usize];
    vcpu.give_answer(value);
    vcpu.take_up(cpu.number, run.generation, 0);
    cpu.enter(Ctx::Guest(run))
}

/// Whether UV_RETURN takes up a vCPU of a guest.
fn can_return<S: Seal>(guest: &Guest<S>, vid: u8) -> bool
    requires { vid < length guest.now.vcpus.items }
    ensures { result ≡ (may_return_in guest.now.phase && is_waiting (vcpu_at guest.now vid).state) }
{
    guest.may_return() && guest.vcpus[vid as usize].is_waiting()
}

/// Whether a guest has a vCPU of a number that `h.enter` enters.
fn has_vcpu_to_enter<S: Seal>(guest: &Guest<S>, vid: u64) -> bool
    ensures { result ≡ (nat_lt vid (length guest.now.vcpus.items) && can_be_entered (vcpu_at guest.now vid).state) }
{
    vid < guest.vcpus.len() as u64 && guest.vcpus[vid as usize].can_be_entered()
}

/// A vCPU of the guest goes on, on this CPU, in the call in which it waits, or as a guest: with the answer of the hypercall for which
/// it waits, if it waits for one, and at R2's address, where that isn't 0.
fn take_up<S: Seal>(
    guest: &mut Guest<S>,
    cpu: &mut Cpu,
    run: Run,
    r0: u64,
    r2: u64,
    outs: &[u64; 9],
) -> Answer
    requires { run.vid < length guest.old.vcpus.items }
    ensures answer { result ≡ Answer.Enter }
    ensures guest { guest.new ≡ record guest.old { vcpus = with_item guest.old.vcpus run.vid (record { state = VState.Running cpu.old.number; generation = run.generation; regs = returned_by (vcpu_at guest.old run.vid).state (vcpu_at guest.old run.vid).regs r0 r2 outs.now }) } }
    ensures cpu { cpu.new ≡ record cpu.old { ctx = taken_up_in (vcpu_at guest.old run.vid).state run; last = Answer.Enter } }
{
    let vcpu = &mut guest.vcpus[run.vid as usize];
    let after = vcpu.goes_on_in(run);
    let address = vcpu.address_for(r2);
    bring_answer(vcpu, r0, outs);
    vcpu.take_up(cpu.number, run.generation, address);
    cpu.enter(after)
}
