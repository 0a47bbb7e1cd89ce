//! A vCPU leaves its CPU at an interrupt, and a CPU leaves a guest that has ended.

ghost use Rattle.std.specs.Prelude.{◌≡◌, ◌≢◌, ◌^◌, ◌<◌};
ghost use Rattle.pef_model.specs.declared.command.Cmd.{Cmd};
ghost use Rattle.pef_frames.specs.Pool.{PoolState};
ghost use Rattle.pef_guest.specs.Whole.{IsWhole};
ghost use Rattle.pef_guest.specs.Leaves.{leaving};
ghost use Rattle.pef_guest.specs.Ready.{IsRunning};
ghost use Rattle.pef_guest.specs.Does.{DoesRow};
ghost use Rattle.pef_reflect.specs.Leave.{exit_in};

use pef_guest::{Cpu, Guest};
use pef_model::{Answer, Ctx, Pending, Phase, Run};
use pef_seal::Seal;

/// An external interrupt takes the vCPU from its CPU: it is parked. Where its guest is in normal memory the CPU shows all its
/// registers, and else the interrupt and nothing else.
pub fn interrupt<S: Seal>(guest: &mut Guest<S>, cpu: &mut Cpu, run: Run) -> Answer
    requires runs { IsRunning cpu.old guest.old run }
    requires whole { IsWhole S.takes guest.old }
    requires steps { guest.old.steps < 2 ^ 63 }
    ensures { (pool : PoolState) → DoesRow S.takes S.stands S.image Cmd.GIrq guest.old guest.new cpu.old cpu.new pool pool result }
{
    guest.steps += 1;
    let phase = guest.phase;
    let vcpu = &mut guest.vcpus[run.vid as usize];
    vcpu.park(Pending::Irq);
    show_exit(cpu, run, phase, &vcpu.regs.gpr)
}

/// The CPU shows how an interrupt takes a vCPU of a guest in this phase from it.
fn show_exit(cpu: &mut Cpu, run: Run, phase: Phase, gpr: &[u64; 32]) -> Answer
    ensures answer { result ≡ Answer.Exit (exit_in phase) }
    ensures cpu { cpu.new ≡ leaving cpu.old run (exit_in phase) gpr.now }
{
    match phase {
        Phase::Normal => cpu.leave_normal(run, gpr),
        Phase::Absent | Phase::Starting | Phase::Secure | Phase::Aborting => {
            cpu.leave_interrupted(run)
        }
    }
}

/// A command of a vCPU whose guest has ended since it was taken up: it does nothing, and the hypervisor runs from now on, with
/// zero registers.
pub fn gone<S: Seal>(guest: &mut Guest<S>, cpu: &mut Cpu, run: Run) -> Answer
    requires runs { cpu.old.ctx ≡ Ctx.Guest run }
    requires ended { run.generation ≢ guest.old.generation }
    requires whole { IsWhole S.takes guest.old }
    requires steps { guest.old.steps < 2 ^ 63 }
    ensures { (pool : PoolState) (cmd : Cmd) → DoesRow S.takes S.stands S.image cmd guest.old guest.new cpu.old cpu.new pool pool result }
{
    guest.steps += 1;
    cpu.gone()
}
