//! What a vCPU does with its own registers: it puts a value into one, combines two, and shows one; and its calls are refused.

ghost use Rattle.std.specs.Prelude.{◌≡◌, ◌^◌, ◌<◌, true, is_some, slice_set};
ghost use Rattle.pef_model.specs.Registers.{call_of, loaded, with_code};
ghost use Rattle.pef_model.specs.Guest.{at_next_instruction};
ghost use Rattle.pef_model.specs.Deed.{refused_with};
ghost use Rattle.pef_frames.specs.Pool.{PoolState};
ghost use Rattle.pef_guest.specs.Whole.{IsWhole};
ghost use Rattle.pef_guest.specs.Ready.{IsRunning};
ghost use Rattle.pef_guest.specs.Refused.{RefusesVcpu};
ghost use Rattle.pef_regs.specs.Registers.{with_registers};
ghost use Rattle.pef_guest.specs.Does.{DoesRow};

use pef_guest::{Cpu, Guest, Vcpu, registers};
use pef_model::{Answer, Cmd, Code, Reg, Run};
use pef_seal::Seal;

/// The guest puts a value into a register.
pub fn load_immediate<S: Seal>(
    guest: &mut Guest<S>,
    cpu: &Cpu,
    run: Run,
    rd: Reg,
    value: u64,
) -> Answer
    requires runs { IsRunning cpu.now guest.old run }
    requires whole { IsWhole S.takes guest.old }
    requires steps { guest.old.steps < 2 ^ 63 }
    ensures { (pool : PoolState) → DoesRow S.takes S.stands S.image (Cmd.GLi rd value) guest.old guest.new cpu.now cpu.now pool pool result }
{
    guest.steps += 1;
    assign(&mut guest.vcpus[run.vid as usize], rd, value)
}

/// The guest adds two registers into one, without what is past 64 bits.
pub fn add<S: Seal>(guest: &mut Guest<S>, cpu: &Cpu, run: Run, rd: Reg, ra: Reg, rb: Reg) -> Answer
    requires runs { IsRunning cpu.now guest.old run }
    requires whole { IsWhole S.takes guest.old }
    requires steps { guest.old.steps < 2 ^ 63 }
    ensures { (pool : PoolState) → DoesRow S.takes S.stands S.image (Cmd.GAdd rd ra rb) guest.old guest.new cpu.now cpu.now pool pool result }
{
    guest.steps += 1;
    let vcpu = &mut guest.vcpus[run.vid as usize];
    let sum = vcpu.reg(ra).wrapping_add(vcpu.reg(rb));
    assign(vcpu, rd, sum)
}

/// The guest combines two registers into one by exclusive-or.
pub fn exclusive_or<S: Seal>(
    guest: &mut Guest<S>,
    cpu: &Cpu,
    run: Run,
    rd: Reg,
    ra: Reg,
    rb: Reg,
) -> Answer
    requires runs { IsRunning cpu.now guest.old run }
    requires whole { IsWhole S.takes guest.old }
    requires steps { guest.old.steps < 2 ^ 63 }
    ensures { (pool : PoolState) → DoesRow S.takes S.stands S.image (Cmd.GXor rd ra rb) guest.old guest.new cpu.now cpu.now pool pool result }
{
    guest.steps += 1;
    let vcpu = &mut guest.vcpus[run.vid as usize];
    let combined = vcpu.reg(ra) ^ vcpu.reg(rb);
    assign(vcpu, rd, combined)
}

/// A register of the vCPU is shown. That changes nothing, and the vCPU doesn't move on. This project's own.
pub fn show<S: Seal>(guest: &mut Guest<S>, cpu: &Cpu, run: Run, reg: Reg) -> Answer
    requires runs { IsRunning cpu.now guest.old run }
    requires whole { IsWhole S.takes guest.old }
    requires steps { guest.old.steps < 2 ^ 63 }
    ensures { (pool : PoolState) → DoesRow S.takes S.stands S.image (Cmd.Dump reg) guest.old guest.new cpu.now cpu.now pool pool result }
{
    guest.steps += 1;
    Answer::Val(guest.vcpus[run.vid as usize].reg(reg))
}

/// A call of a guest that is the hypervisor's: it always comes back, UV_RETURN with U_INVALID, since only the hypervisor takes up
/// a vCPU, and each other with U_PERMISSION, whatever its operands are. This project's own.
pub fn refuse_call<S: Seal>(guest: &mut Guest<S>, cpu: &Cpu, run: Run, cmd: &Cmd) -> Answer
    requires call { is_some (call_of cmd.now) ≡ true }
    requires runs { IsRunning cpu.now guest.old run }
    requires whole { IsWhole S.takes guest.old }
    requires steps { guest.old.steps < 2 ^ 63 }
    ensures { (pool : PoolState) → DoesRow S.takes S.stands S.image cmd.now guest.old guest.new cpu.now cpu.now pool pool result }
{
    guest.steps += 1;
    call_refused(&mut guest.vcpus[run.vid as usize], cmd)
}

fn assign(vcpu: &mut Vcpu, rd: Reg, value: u64) -> Answer
    ensures answer { result ≡ Answer.Done }
    ensures vcpu { vcpu.new ≡ with_registers vcpu.old (at_next_instruction vcpu.old.regs (slice_set vcpu.old.regs.gpr rd value)) }
{
    registers::assign(&mut vcpu.regs, rd, value);
    Answer::Done
}

fn call_refused(vcpu: &mut Vcpu, cmd: &Cmd) -> Answer
    ensures answer { result ≡ Answer.Ret (refused_with cmd.now) }
    ensures refused { RefusesVcpu vcpu.old vcpu.new (refused_with cmd.now) }
    ensures vcpu { vcpu.new ≡ with_registers vcpu.old (at_next_instruction vcpu.old.regs (with_code (loaded vcpu.old.regs.gpr cmd.now) (refused_with cmd.now))) }
{
    let code = match cmd {
        Cmd::UReturn { .. } => Code::UInvalid,
        _ => Code::UPermission,
    };
    registers::load(&mut vcpu.regs.gpr, cmd);
    registers::give_code(&mut vcpu.regs.gpr, code);
    registers::move_on(&mut vcpu.regs);
    Answer::Ret(code)
}
