//! Whether a step may be done at a guest or at a normal frame, by what can be tested of it, the CPU and the pool.

ghost use Rattle.std.specs.Prelude.{◌≡◌, ◌↔◌, ◌^◌, true, IsTrue, length, Some};
ghost use Rattle.pef_guest.specs.Whole.{IsWhole};
ghost use Rattle.pef_guest.specs.Aims.{guest_aimed};
ghost use Rattle.pef_guest.specs.Ready.{MayEnd, MayRun, ReadyIn, IsReadyFor, IsReadyPool};
ghost use Rattle.pef_core.specs.Frames.{IsPageSize, AimsAtFrame, IsReadyAt};

use crate::aim::aim_of;
use pef_frames::{NormalFrame, Pool};
use pef_guest::{Cpu, Guest};
use pef_model::{Aim, Cmd, Ctx, Move, Mover, Run, Way, Work};
use pef_seal::Seal;

/// Whether a command of a CPU may be done at a guest, which is whole: the command aims at it; the CPU's hand is of a page's
/// size; a page whose move the CPU has in progress, in the guest's generation, is marked as its, and of that way; a vCPU that
/// it selects or runs, or whose call it has in progress, is one of the guest's, and the phase lets it run; and fewer than 2^63
/// steps were done on the guest.
///
/// Of a machine all this holds at each step.
pub fn ready<S: Seal>(guest: &Guest<S>, cpu: &Cpu, cmd: &Cmd) -> bool
    requires { IsWhole S.takes guest.now }
    ensures { IsTrue result ↔ IsReadyFor S.takes cmd.now guest.now cpu.now }
{
    if aimed(cpu, cmd) != Some(u64::from(guest.lpid)) {
        return false;
    }
    if cpu.hand().len() != 1 << guest.shift {
        return false;
    }
    if !works(guest, cpu) {
        return false;
    }
    guest.steps < 1 << 63
}

/// Whether a pool may be lent to a step of a CPU at a guest, which is whole: it is of the guest's machine, and has room for the
/// frame of a page whose move the CPU has in progress, in the guest's generation.
///
/// Of a machine all this holds at each step.
pub fn ready_pool<S: Seal>(guest: &Guest<S>, cpu: &Cpu, pool: &Pool) -> bool
    requires { IsWhole S.takes guest.now }
    ensures { IsTrue result ↔ IsReadyPool guest.now cpu.now pool.now }
{
    if pool.count() != guest.secure || pool.size() != 1 << guest.shift {
        return false;
    }
    match cpu.ctx {
        Ctx::Uv(Work::Inward(page)) => page.generation != guest.generation || pool.room() > 0,
        Ctx::Uv(Work::Outward(page)) => page.generation != guest.generation || pool.room() > 0,
        Ctx::Hv | Ctx::Uv(_) | Ctx::Guest(_) => true,
    }
}

/// Whether a command of a CPU may be done at a normal frame of a page's size: it is a load or store of the hypervisor at the
/// address of a doubleword, or the copy of a page's move, and the CPU's hand is of that size too.
///
/// Of a machine all this holds at each step.
pub fn ready_frame(cpu: &Cpu, frame: &NormalFrame, cmd: &Cmd) -> bool
    requires { IsPageSize (length frame.now) }
    ensures { IsTrue result ↔ IsReadyAt cmd.now cpu.now frame.now }
{
    cpu.hand().len() == frame.bytes().len() && aims_at_frame(cpu, cmd)
}

/// Whether a command aims at a normal frame, as far as its CPU tells.
fn aims_at_frame(cpu: &Cpu, cmd: &Cmd) -> bool
    ensures { IsTrue result ↔ AimsAtFrame cpu.now.ctx cpu.now.lpid cmd.now }
{
    match aim_of(cpu, cmd) {
        Aim::Address(ra) => ra % 8 == 0,
        Aim::Move(page) => !page.copied,
        Aim::Nothing | Aim::NamedGuest(_) | Aim::Guest(_) => false,
    }
}

/// The number of the guest at which a command aims that aims at one.
fn aimed(cpu: &Cpu, cmd: &Cmd) -> Option<u64>
    ensures { result ≡ guest_aimed cpu.now.ctx cpu.now.lpid cmd.now }
{
    match aim_of(cpu, cmd) {
        Aim::NamedGuest(lpid) => Some(lpid),
        Aim::Guest(lpid) => Some(u64::from(lpid)),
        Aim::Move(page) if page.copied => Some(u64::from(page.lpid)),
        Aim::Nothing | Aim::Address(_) | Aim::Move(_) => None,
    }
}

/// Whether what the CPU does may go on at the guest.
fn works<S: Seal>(guest: &Guest<S>, cpu: &Cpu) -> bool
    ensures { IsTrue result ↔ ReadyIn guest.now cpu.now cpu.now.ctx }
{
    match cpu.ctx {
        Ctx::Hv => cpu.lpid != guest.lpid || (cpu.vid as usize) < guest.vcpus.len(),
        Ctx::Uv(Work::Inward(page)) => may_end(guest, cpu, Way::Inward, page),
        Ctx::Uv(Work::Outward(page)) => may_end(guest, cpu, Way::Outward, page),
        Ctx::Uv(Work::Share(run) | Work::Unshare(run)) => may_run(guest, run),
        Ctx::Uv(Work::UnshareAll(run) | Work::Esm(run)) => may_run(guest, run),
        Ctx::Guest(run) => may_run(guest, run),
    }
}

/// Whether a page whose move is of the guest's generation is moved by the CPU, this way.
fn may_end<S: Seal>(guest: &Guest<S>, cpu: &Cpu, way: Way, page: Move) -> bool
    ensures { IsTrue result ↔ MayEnd guest.now cpu.now way page }
{
    if page.generation != guest.generation {
        return true;
    }
    let mover = Mover {
        cpu: cpu.number,
        way,
    };
    page.gfn < guest.pages.count() && guest.pages.mover(page.gfn) == Some(mover)
}

/// Whether a vCPU is one of the guest's, whose phase lets it run where it is still in the generation.
fn may_run<S: Seal>(guest: &Guest<S>, run: Run) -> bool
    ensures { IsTrue result ↔ MayRun guest.now (Some run) }
{
    if run.generation != guest.generation {
        return (run.vid as usize) < guest.vcpus.len();
    }
    (run.vid as usize) < guest.vcpus.len() && guest.may_run()
}
