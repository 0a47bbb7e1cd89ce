//! Which steps of a page's move read or change the number of free frames.

ghost use Rattle.std.specs.Prelude.{◌≡◌, ◌↔◌, Bool, true, false, List, is_some, IsTrue};
ghost use Rattle.pef_model.specs.declared.state.Tag.{Tag};
ghost use Rattle.pef_model.specs.Plan.{Plan, IsWithin};
ghost use Rattle.pef_model.specs.Target.{Ask};
ghost use Rattle.pef_model.specs.Cpu.{CpuPart};
ghost use Rattle.pef_model.specs.Guest.{Guest as GuestWhole};
ghost use Rattle.pef_model.specs.Deed.{deed_page_in, deed_page_in_end, deed_page_out_end};
ghost use Rattle.pef_model.specs.Clash.{ends_in_clash};
ghost use Rattle.pef_guest.specs.Ready.{MayEnd};
ghost use Rattle.pef_guest.specs.Rows.{ask_inward};
ghost use Rattle.pef_guest.specs.Shows.{ShowsCpu, Shows};
ghost use Rattle.pef_move.specs.Route.{are_right_in};
ghost use Rattle.pef_move.specs.PageIn.{IsRefusedIn};

use crate::page_call::PageCall;
use crate::page_in::is_kept;
use crate::route::route_in;
use pef_guest::{Cpu, Guest};
use pef_model::{Move, Way};
use pef_seal::Seal;

/// Whether UV_PAGE_IN of the hypervisor comes to ask for a free frame: its operands are right.
pub fn asks_for_frame<S: Seal>(guest: &Guest<S>, call: &PageCall) -> bool
    requires { IsWithin 8 16 guest.now.shift }
    ensures here { are_right_in guest.now call.now ≡ result }
    ensures model { (plan : Plan) (g : GuestWhole) (any : Bool) (ask : Ask) → Shows S.stands S.image plan guest.now g →
        is_some (deed_page_in plan g.part any ask call.now.lpid call.now.ra call.now.gpa call.now.flags call.now.order).pool ≡ result }
{
    match route_in(guest, call) {
        Ok(_route) => true,
        Err(_code) => false,
    }
}

/// Whether the end of a page-in gives its frame back: under the guest's generation, where the page doesn't keep the digest of
/// the CPU's hand.
pub fn refuses_page<S: Seal>(guest: &Guest<S>, cpu: &Cpu, inward: Move) -> bool
    requires { MayEnd guest.now cpu.now Way.Inward inward }
    ensures here { IsTrue result ↔ IsRefusedIn guest.now cpu.now.hand inward }
    ensures model { (plan : Plan) (g : GuestWhole) (c : CpuPart) → Shows S.stands S.image plan guest.now g → ShowsCpu cpu.now c → ends_in_clash g.part (record inward { copied = true }) c.hand ≡ false →
        is_some (deed_page_in_end g.part (ask_inward inward c) inward).pool ≡ result }
{
    if inward.generation != guest.generation {
        return false;
    }
    !is_kept(&guest.pages, inward.gfn, cpu.hand())
}

/// Whether the end of a page-out gives its frame back: under the guest's generation.
pub fn gives_frame_back<S: Seal>(guest: &Guest<S>, outward: Move) -> bool
    ensures here { IsTrue result ↔ (outward.generation ≡ guest.now.generation) }
    ensures model { (plan : Plan) (g : GuestWhole) (ask : Ask) → Shows S.stands S.image plan guest.now g → is_some (deed_page_out_end g.part ask outward).pool ≡ result }
{
    outward.generation == guest.generation
}
