//! A command that aims at nothing works on its CPU alone.

ghost use Rattle.std.specs.Prelude.{◌≡◌, ◌^◌, ◌<◌, if◌then◌else◌, true};
ghost use Rattle.pef_model.specs.Registers.{loaded, with_code};
ghost use Rattle.pef_guest.specs.Refused.{RefusesCpu};
ghost use Rattle.pef_core.specs.Does.{DoesOwn, MayAimAtNone};

use pef_guest::{Cpu, registers};
use pef_model::{Answer, Cmd, Code, Ctx};

/// A command that aims at nothing, in a machine with so many guests of so many vCPUs each: Hole for a load or store of the
/// hypervisor that has no frame, U_PARAMETER for what it names that is no guest, its selection of a vCPU, the register that it
/// shows, and Context for every other.
pub fn apply_own(cpu: &mut Cpu, cmd: &Cmd, guests: u16, vcpus: u8) -> Answer
    requires { MayAimAtNone cpu.old.ctx cpu.old.lpid cmd.now }
    ensures { DoesOwn guests vcpus cmd.now cpu.old cpu.new result }
{
    match cpu.ctx {
        Ctx::Hv => hypervisor(cpu, cmd, guests, vcpus),
        Ctx::Uv(_) => Answer::Context,
        Ctx::Guest(_) => Answer::Context,
    }
}

/// Such a command of the hypervisor.
fn hypervisor(cpu: &mut Cpu, cmd: &Cmd, guests: u16, vcpus: u8) -> Answer
    requires hypervisor { cpu.old.ctx ≡ Ctx.Hv }
    requires none { MayAimAtNone cpu.old.ctx cpu.old.lpid cmd.now }
    ensures { DoesOwn guests vcpus cmd.now cpu.old cpu.new result }
{
    match cmd {
        Cmd::HLd { .. } => cpu.answer(Answer::Hole),
        Cmd::HSt { .. } => cpu.answer(Answer::Hole),
        Cmd::HSelect { lpid, vid } => select(cpu, *lpid, *vid, guests, vcpus),
        Cmd::HEnter { .. } => cpu.refuse(Code::UParameter),
        Cmd::UPate { .. }
        | Cmd::URegslot { .. }
        | Cmd::UUnregslot { .. }
        | Cmd::UPagein { .. }
        | Cmd::UPageout { .. }
        | Cmd::UInval { .. } => names_no_guest(cpu, cmd),
        Cmd::UReturn { .. } => unreachable!(),
        Cmd::GLi { .. } => Answer::Context,
        Cmd::GAdd { .. } => Answer::Context,
        Cmd::GXor { .. } => Answer::Context,
        Cmd::GLd { .. } => Answer::Context,
        Cmd::GSt { .. } => Answer::Context,
        Cmd::GHcall => Answer::Context,
        Cmd::GIrq => Answer::Context,
        Cmd::Go => Answer::Context,
        Cmd::Dump { reg } => cpu.show(*reg),
    }
}

/// The hypervisor selects a vCPU, from 0, of a guest, from 1. U_PARAMETER where there is no such guest, U_P2 where it has no
/// such vCPU.
fn select(cpu: &mut Cpu, lpid: u64, vid: u64, guests: u16, vcpus: u8) -> Answer
    requires { cpu.old.ctx ≡ Ctx.Hv }
    ensures { DoesOwn guests vcpus (Cmd.HSelect lpid vid) cpu.old cpu.new result }
{
    if lpid < 1 || u64::from(guests) < lpid {
        return cpu.refuse(Code::UParameter);
    }
    if u64::from(vcpus) <= vid {
        return cpu.refuse(Code::UP2);
    }
    cpu.select(lpid as u16, vid as u8)
}

/// A call of the hypervisor that names no guest: it comes back with U_PARAMETER.
fn names_no_guest(cpu: &mut Cpu, cmd: &Cmd) -> Answer
    ensures answer { result ≡ Answer.Ret Code.UParameter }
    ensures cpu { cpu.new ≡ record cpu.old { gpr = with_code (loaded cpu.old.gpr cmd.now) Code.UParameter; last = Answer.Ret Code.UParameter } }
    ensures refused { RefusesCpu cpu.old cpu.new Code.UParameter }
{
    registers::load(&mut cpu.gpr, cmd);
    cpu.refuse(Code::UParameter)
}
