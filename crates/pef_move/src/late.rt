//! A move whose guest has ended since comes back, and leaves the page, which may be another's by now.

ghost use Rattle.std.specs.Prelude.{◌≡◌, ◌≢◌, ◌↔◌, ◌^◌, ◌<◌, true, IsTrue};
ghost use Rattle.pef_model.specs.declared.command.Cmd.{Cmd};
ghost use Rattle.pef_model.specs.Target.{work_by};
ghost use Rattle.pef_frames.specs.Pool.{PoolState};
ghost use Rattle.pef_guest.specs.Whole.{IsWhole};
ghost use Rattle.pef_guest.specs.Refused.{BackWith, SameGuest};
ghost use Rattle.pef_guest.specs.Does.{DoesRow};

use pef_guest::{Cpu, Guest};
use pef_model::{Answer, Code, Ctx, Move, Way};
use pef_seal::Seal;

/// The end of a move under another generation than the guest's: the call comes back with U_PARAMETER, and nothing changes but the
/// CPU and counts of steps: the frame may be another page's by now. What it does after the guest's end is this project's own.
pub fn end_late<S: Seal>(guest: &mut Guest<S>, cpu: &mut Cpu, way: Way, page: Move) -> Answer
    requires working { cpu.old.ctx ≡ Ctx.Uv (work_by way page) }
    requires copied { page.copied ≡ true }
    requires late { page.generation ≢ guest.old.generation }
    requires whole { IsWhole S.takes guest.old }
    requires steps { guest.old.steps < 2 ^ 63 }
    ensures does { (pool : PoolState) → DoesRow S.takes S.stands S.image Cmd.Go guest.old guest.new cpu.old cpu.new pool pool result }
    ensures answer { result ≡ Answer.Ret Code.UParameter }
    ensures cpu { BackWith cpu.old cpu.new Code.UParameter }
    ensures guest { SameGuest guest.old guest.new }
{
    guest.steps += 1;
    cpu.come_back(Code::UParameter)
}

/// Whether a page that is on the move is of another generation than the guest's.
pub fn is_late<S: Seal>(guest: &Guest<S>, page: Move) -> bool
    ensures { IsTrue result ↔ (page.generation ≢ guest.now.generation) }
{
    page.generation != guest.generation
}
