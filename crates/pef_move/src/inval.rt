//! UV_PAGE_INVAL takes the normal frame from a Shared page, and loses nothing that is the guest's alone.

ghost use Rattle.std.specs.Prelude.{◌≡◌, ◌<◌, ◌^◌};
ghost use Rattle.pef_model.specs.Plan.{Plan, IsWithin};
ghost use Rattle.pef_model.specs.GuestPart.{GuestPart};
ghost use Rattle.pef_model.specs.PageInval.{page_inval_code};
ghost use Rattle.pef_frames.specs.Pool.{PoolState};
ghost use Rattle.pef_guest.specs.Whole.{IsWhole};
ghost use Rattle.pef_guest.specs.Does.{DoesRow};
ghost use Rattle.pef_move.specs.Route.{plan_with, part_with};
ghost use Rattle.pef_move.specs.PageInval.{Unmaps};

use crate::route::{is_for, page_to_drop};
use pef_guest::{Cpu, Guest, registers};
use pef_model::{Answer, Cmd, Code, Ctx};
use pef_seal::Seal;

/// UV_PAGE_INVAL of the hypervisor: a Shared page loses the normal frame that backs it, if one does, and stays Shared and fresh
/// or not as it was. An Invalid page has none to lose. The guest is the one that the call names.
///
/// The answer is the code in R3, the first of these: U_PARAMETER where the guest is neither Starting nor Secure; U_P2 where the
/// guest address is no multiple of a page's size, or past the guest's last page, or the page is Secure or Out, also on the move;
/// U_P3 where the order is not that of a page, 8 to 16; and U_SUCCESS. The order of the tests is this project's own.
pub fn page_inval<S: Seal>(
    guest: &mut Guest<S>,
    cpu: &mut Cpu,
    lpid: u64,
    gpa: u64,
    order: u64,
) -> Answer
    requires hypervisor { cpu.old.ctx ≡ Ctx.Hv }
    requires whole { IsWhole S.takes guest.old }
    requires steps { guest.old.steps < 2 ^ 63 }
    ensures { (pool : PoolState) → DoesRow S.takes S.stands S.image (Cmd.UInval lpid gpa order) guest.old guest.new cpu.old cpu.new pool pool result }
{
    guest.steps += 1;
    registers::load(&mut cpu.gpr, &Cmd::UInval { lpid, gpa, order });
    let code = unmap(guest, gpa, order);
    cpu.refuse(code)
}

/// Takes the normal frame from a page that may lose it, and gives the code with which the call comes back.
fn unmap<S: Seal>(guest: &mut Guest<S>, gpa: u64, order: u64) -> Code
    requires { IsWithin 8 16 guest.old.shift }
    ensures code { (plan : Plan) (g : GuestPart) → result ≡ page_inval_code (plan_with plan guest.old) (part_with g guest.old) gpa order }
    ensures guest { Unmaps result gpa guest.old guest.new }
{
    if !is_for(guest.phase) {
        return Code::UParameter;
    }
    let Some(gfn) = page_to_drop(guest, gpa) else {
        return Code::UP2;
    };
    if order != u64::from(guest.shift) {
        return Code::UP3;
    }
    guest.pages.unmap(gfn);
    Code::USuccess
}
