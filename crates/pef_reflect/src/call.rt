//! A vCPU makes a hypercall: it is answered at once, or leaves with what the call's row says, and gets what comes back.

ghost use Rattle.std.specs.Prelude.{◌≡◌, ◌^◌, ◌<◌, Some, length, slice_index, slice_set};
ghost use Rattle.pef_model.specs.declared.command.Cmd.{Cmd};
ghost use Rattle.pef_model.specs.declared.hypercall.TheConstants.{HCALLS};
ghost use Rattle.pef_model.specs.Registers.{with_code};
ghost use Rattle.pef_model.specs.Hypercalls.{IsRow, row_of, let_out_by, scrubbed};
ghost use Rattle.pef_model.specs.Guest.{at_next_instruction, returned_to};
ghost use Rattle.pef_frames.specs.Pool.{PoolState};
ghost use Rattle.pef_guest.specs.Whole.{IsWhole};
ghost use Rattle.pef_guest.specs.Ready.{IsRunning};
ghost use Rattle.pef_guest.specs.Refused.{RefusesVcpu};
ghost use Rattle.pef_regs.specs.Registers.{with_registers};
ghost use Rattle.pef_guest.specs.Leaves.{leaving};
ghost use Rattle.pef_guest.specs.Does.{DoesRow};

use pef_calls::{hcalls, scrub};
use pef_guest::{Cpu, Guest, Vcpu, registers};
use pef_model::{Answer, Code, Exit, Pending, Row, RowKind, Run, VState};
use pef_seal::Seal;

/// `g.hcall` of the vCPU that the CPU runs, by the number in its R3.
///
/// A guest in normal memory leaves, whatever the number is, and shows all its registers. Of every other the call is answered at
/// once, with H_FUNCTION where no row has the number, and H_UNSUPPORTED where it is the ultravisor's own call. H_RANDOM gives R4
/// the guest's next entropy word with H_SUCCESS, and H_HARDWARE where none is left. Each call that is left is the hypervisor's to
/// answer: the vCPU waits, and the CPU shows the number and the row's inputs, and nothing else. The choice of registers is this
/// project's own.
pub fn hypercall<S: Seal>(guest: &mut Guest<S>, cpu: &mut Cpu, run: Run) -> Answer
    requires runs { IsRunning cpu.old guest.old run }
    requires whole { IsWhole S.takes guest.old }
    requires steps { guest.old.steps < 2 ^ 63 }
    ensures { (pool : PoolState) → DoesRow S.takes S.stands S.image Cmd.GHcall guest.old guest.new cpu.old cpu.new pool pool result }
{
    guest.steps += 1;
    let open = guest.may_enter();
    let vcpu = &mut guest.vcpus[run.vid as usize];
    if open {
        return leave_open(vcpu, cpu, run);
    }
    let Some(row) = hcalls().row(vcpu.regs.gpr[3]) else {
        return answered(vcpu, Code::HFunction);
    };
    match row.kind {
        RowKind::Reflected => leave_scrubbed(vcpu, cpu, run, &row),
        RowKind::Local => match guest.words.draw() {
            Some(word) => given(vcpu, word),
            None => answered(vcpu, Code::HHardware),
        },
        RowKind::Svm => answered(vcpu, Code::HUnsupported),
    }
}

/// The call is answered at once: R3 has the code, and the guest goes on.
fn answered(vcpu: &mut Vcpu, code: Code) -> Answer
    ensures answer { result ≡ Answer.Ret code }
    ensures refused { RefusesVcpu vcpu.old vcpu.new code }
    ensures vcpu { vcpu.new ≡ with_registers vcpu.old (at_next_instruction vcpu.old.regs (with_code vcpu.old.regs.gpr code)) }
{
    registers::give_code(&mut vcpu.regs.gpr, code);
    registers::move_on(&mut vcpu.regs);
    Answer::Ret(code)
}

/// The vCPU has the word in R4, and goes on. No other register but R3 changes.
fn given(vcpu: &mut Vcpu, word: u64) -> Answer
    ensures answer { result ≡ Answer.Ret Code.HSuccess }
    ensures vcpu { vcpu.new ≡ with_registers vcpu.old (at_next_instruction vcpu.old.regs (with_code (slice_set vcpu.old.regs.gpr 4 word) Code.HSuccess)) }
{
    vcpu.regs.gpr[4] = word;
    registers::give_code(&mut vcpu.regs.gpr, Code::HSuccess);
    registers::move_on(&mut vcpu.regs);
    Answer::Ret(Code::HSuccess)
}

/// A vCPU in normal memory leaves behind its hypercall, and shows all its registers.
fn leave_open(vcpu: &mut Vcpu, cpu: &mut Cpu, run: Run) -> Answer
    ensures answer { result ≡ Answer.Exit Exit.Normal }
    ensures vcpu { vcpu.new ≡ record vcpu.old { state = VState.Parked Pending.Exit; regs = at_next_instruction vcpu.old.regs vcpu.old.regs.gpr } }
    ensures cpu { cpu.new ≡ leaving cpu.old run Exit.Normal vcpu.old.regs.gpr }
{
    registers::move_on(&mut vcpu.regs);
    vcpu.park(Pending::Exit);
    cpu.leave_normal(run, &vcpu.regs.gpr)
}

/// A vCPU leaves with the hypercall of a row: it waits at the call, and its CPU shows the call's number and its inputs.
fn leave_scrubbed(vcpu: &mut Vcpu, cpu: &mut Cpu, run: Run, row: &Row) -> Answer
    requires row { row_of HCALLS (slice_index vcpu.old.regs.gpr 3) ≡ Some row.now }
    requires whole { IsRow row.now }
    ensures answer { result ≡ Answer.Exit (Exit.Hcall row.now.number) }
    ensures vcpu { vcpu.new ≡ record vcpu.old { state = VState.Parked (Pending.Hcall row.now.number) } }
    ensures cpu { cpu.new ≡ leaving cpu.old run (Exit.Hcall row.now.number) (let_out_by row.now vcpu.old.regs.gpr) }
    ensures scrubbed { cpu.new.gpr ≡ (scrubbed row.now vcpu.old.regs).gpr }
{
    are_32(&vcpu.regs.gpr);
    vcpu.park(Pending::Hcall(row.number));
    cpu.leave(run, Exit::Hcall(row.number), scrub(&vcpu.regs, row).gpr)
}

/// What UV_RETURN brings a vCPU: where it waits for the answer of a hypercall, R3 has the answer, R4 and the registers after it
/// the call's outputs, as many as its row has, and the next instruction is the one after the call; else nothing.
pub(crate) fn bring_answer(vcpu: &mut Vcpu, r0: u64, outs: &[u64; 9])
    ensures { vcpu.new ≡ with_registers vcpu.old (returned_to vcpu.old.state vcpu.old.regs r0 outs.now) }
{
    if let VState::Parked(Pending::Hcall(number)) = vcpu.state {
        vcpu.answer_call(hcalls().row(u64::from(number)), r0, outs);
    }
}

/// There are 32 registers. It does nothing.
fn are_32(gpr: &[u64; 32])
    ensures { length gpr.now ≡ 32 }
{
    let _ = gpr;
}
