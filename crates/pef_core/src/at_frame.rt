//! A command at the normal frame at which it aims.

ghost use Rattle.std.specs.Prelude.{◌≡◌, ◌+◌, ◌%◌, ◌≤◌, length};
ghost use Rattle.pef_core.specs.Frames.{IsPageSize, IsReadyAt, DoesFrame};

use pef_frames::NormalFrame;
use pef_guest::Cpu;
use pef_model::{Answer, Cmd, Ctx, Work};

/// A command of a CPU at the normal frame at which it aims: a load or store of the hypervisor, or the copy of a page's move.
pub fn apply_frame(cpu: &mut Cpu, frame: &mut NormalFrame, cmd: &Cmd) -> Answer
    requires { IsReadyAt cmd.now cpu.old frame.old }
    ensures { DoesFrame cmd.now cpu.old cpu.new frame.old frame.new result }
{
    match cpu.ctx {
        Ctx::Hv => access(cpu, frame, cmd),
        Ctx::Uv(work) => copy(cpu, frame, work, cmd),
        Ctx::Guest(_) => unreachable!(),
    }
}

/// A load or store of the hypervisor.
fn access(cpu: &mut Cpu, frame: &mut NormalFrame, cmd: &Cmd) -> Answer
    requires ready { IsReadyAt cmd.now cpu.old frame.old }
    requires hypervisor { cpu.old.ctx ≡ Ctx.Hv }
    ensures { DoesFrame cmd.now cpu.old cpu.new frame.old frame.new result }
{
    match cmd {
        Cmd::HLd { ra } => load(cpu, frame, *ra),
        Cmd::HSt { ra, value } => store(cpu, frame, *ra, *value),
        _ => unreachable!(),
    }
}

/// The hypervisor loads the doubleword at a real address of the frame into R3.
fn load(cpu: &mut Cpu, frame: &NormalFrame, ra: u64) -> Answer
    requires hypervisor { cpu.old.ctx ≡ Ctx.Hv }
    requires aligned { ra % 8 ≡ 0 }
    requires size { IsPageSize (length frame.now) }
    ensures { DoesFrame (Cmd.HLd ra) cpu.old cpu.new frame.now frame.now result }
{
    cpu.load(frame.load(offset(frame, ra)))
}

/// The hypervisor stores a doubleword at a real address of the frame.
fn store(cpu: &mut Cpu, frame: &mut NormalFrame, ra: u64, value: u64) -> Answer
    requires hypervisor { cpu.old.ctx ≡ Ctx.Hv }
    requires aligned { ra % 8 ≡ 0 }
    requires size { IsPageSize (length frame.old) }
    ensures { DoesFrame (Cmd.HSt ra value) cpu.old cpu.new frame.old frame.new result }
{
    let off = offset(frame, ra);
    frame.store(off, value);
    cpu.answer(Answer::Done)
}

/// The offset of a real address in its frame.
fn offset(frame: &NormalFrame, ra: u64) -> u32
    requires aligned { ra % 8 ≡ 0 }
    requires size { IsPageSize (length frame.now) }
    ensures offset { result ≡ ra % length frame.now }
    ensures room { result + 8 ≤ length frame.now }
{
    (ra % u64::from(frame.size())) as u32
}

/// The copy of a page's move.
fn copy(cpu: &mut Cpu, frame: &mut NormalFrame, work: Work, cmd: &Cmd) -> Answer
    requires ready { IsReadyAt cmd.now cpu.old frame.old }
    requires working { cpu.old.ctx ≡ Ctx.Uv work }
    ensures { DoesFrame cmd.now cpu.old cpu.new frame.old frame.new result }
{
    match work {
        Work::Inward(page) => pef_move::page_in_copy(cpu, page, frame),
        Work::Outward(page) => pef_move::page_out_copy(cpu, page, frame),
        Work::Share(_) | Work::Unshare(_) | Work::UnshareAll(_) | Work::Esm(_) => unreachable!(),
    }
}
