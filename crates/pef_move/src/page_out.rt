//! A page-out seals the page at its begin, so that what is written and what is kept are of one moment.

ghost use Rattle.std.specs.Prelude.{◌≡◌, ◌≢◌, ◌↔◌, ◌/◌, ◌^◌, ◌<◌, true, ℕ, List, length, Some};
ghost use Rattle.pef_model.specs.declared.state.Tag.{Tag};
ghost use Rattle.pef_num.specs.DoublewordLaw.{AreBytes};
ghost use Rattle.pef_guest.specs.Whole.{IsWhole};
ghost use Rattle.pef_guest.specs.Keeps.{IsPoolOf, KeepsGuest};
ghost use Rattle.pef_guest.specs.Shows.{Shows};
ghost use Rattle.pef_model.specs.Plan.{Plan};
ghost use Rattle.pef_model.specs.Guest.{Guest as GuestWhole};
ghost use Rattle.pef_model.specs.PageOut.{page_out_code};
ghost use Rattle.pef_guest.specs.Refused.{BackWith};
ghost use Rattle.pef_guest.specs.Does.{DoesRow};
ghost use Rattle.pef_frames.specs.Pool.{PoolState};
ghost use Rattle.pef_model.specs.declared.command.Cmd.{Cmd};
ghost use Rattle.pef_guest.specs.Ready.{MayEnd, HasRoomFor, KeepsOwn, WorksAt};
ghost use Rattle.pef_move.specs.PageOut.{RefusesCall, CopiesPageOut, GoesOut};
ghost use Rattle.pef_move.specs.Route.{CanBegin, HasBegun};

use crate::page_call::PageCall;
use crate::route::{Route, route_of};
use pef_frames::{NormalFrame, Pool, SecFrame};
use pef_guest::{Cpu, Guest, registers};
use pef_model::{Answer, Cmd, Code, Ctx, Move, Tag, Way, Work};
use pef_seal::{Seal, digest_of};

/// UV_PAGE_OUT of the hypervisor, the begin: the page is sealed into the CPU's hand under its next version, and moves from
/// now on. The call's registers are loaded before. The guest is the one that the call names.
///
/// The answer is Step, or the code of the first of these: U_PARAMETER where the guest is neither Starting nor Secure; U_P2
/// where the real address is no multiple of a page's size, or past the last normal frame; U_P3 where the guest address is no
/// multiple of a page's size, or past the guest's last page, or the page is Invalid or Out; U_FUNCTION at the flag
/// UV_SNAPSHOT, and U_P4 at every other flag; U_P5 where the order is not that of a page, 8 to 16; U_SUCCESS where the page
/// is Shared, since the hypervisor has it already; U_BUSY where the guest is Starting, or the page is on the move. A call
/// that comes back at once changes nothing but the CPU's registers and last answer, and counts of steps.
///
/// That a Shared page gives U_SUCCESS is the manual's. The begin as a step of its own, the order of the tests and U_BUSY are
/// this project's own.
pub fn page_out_begin<S: Seal>(guest: &mut Guest<S>, cpu: &mut Cpu, call: &PageCall) -> Answer
    requires hypervisor { cpu.old.ctx ≡ Ctx.Hv }
    requires named { call.now.lpid ≡ guest.old.lpid }
    requires whole { IsWhole S.takes guest.old }
    requires hand { length cpu.old.hand ≡ 2 ^ guest.old.shift }
    requires steps { guest.old.steps < 2 ^ 63 }
    ensures whole { IsWhole S.takes guest.new }
    ensures keeps { KeepsGuest guest.old guest.new }
    ensures own { KeepsOwn guest.new cpu.old cpu.new }
    ensures works { WorksAt guest.new cpu.new cpu.new.ctx }
    ensures does { (pool : PoolState) → DoesRow S.takes S.stands S.image (Cmd.UPageout call.now.lpid call.now.ra call.now.gpa call.now.flags call.now.order) guest.old guest.new cpu.old cpu.new pool pool result }
    ensures sealer { (tag : Tag) (page sealed : List ℕ) → tag.gfn ≢ call.now.gpa / 2 ^ guest.old.shift → S.stands guest.new.sealer tag page sealed ↔ S.stands guest.old.sealer tag page sealed }
    ensures code { (plan : Plan) (g : GuestWhole) → Shows S.stands S.image plan guest.old g → (code : Code) →
        (result ≡ Answer.Ret code) ↔ (page_out_code plan g.part call.now.ra call.now.gpa call.now.flags call.now.order ≡ Some code) }
    ensures refused { RefusesCall call.now guest.old guest.new cpu.old cpu.new result }
{
    guest.steps += 1;
    registers::load(&mut cpu.gpr, &call.page_out());
    match route_of(guest, call) {
        Ok(route) => begin(guest, cpu, route),
        Err(code) => cpu.refuse(code),
    }
}

/// The copy: all the bytes in the CPU's hand are written into the normal frame, whatever has become of the guest. It answers
/// Step: the call is still in progress. A step of its own is this project's own.
pub fn page_out_copy(cpu: &mut Cpu, outward: Move, frame: &mut NormalFrame) -> Answer
    requires working { cpu.old.ctx ≡ Ctx.Uv (Work.Outward outward) }
    requires size { length cpu.old.hand ≡ length frame.old }
    ensures answer { result ≡ Answer.Step }
    ensures cpu { cpu.new ≡ record cpu.old { ctx = Ctx.Uv (Work.Outward (record outward { copied = true })) } }
    ensures frame { frame.new ≡ cpu.old.hand }
    ensures row { CopiesPageOut outward cpu.old cpu.new frame.old frame.new result }
{
    frame.copy_from(cpu.hand());
    cpu.go_on(Work::Outward(Move {
        copied: true,
        ..outward
    }))
}

/// The end, in the guest's generation: the secure frame goes back zeroed, the page is Out with the digest of what the begin
/// sealed, and the call comes back with U_SUCCESS. A step of its own is this project's own.
pub fn page_out_end<S: Seal>(
    guest: &mut Guest<S>,
    cpu: &mut Cpu,
    outward: Move,
    pool: &mut Pool,
) -> Answer
    requires working { cpu.old.ctx ≡ Ctx.Uv (Work.Outward outward) }
    requires copied { outward.copied ≡ true }
    requires whole { IsWhole S.takes guest.old }
    requires pool { IsPoolOf guest.old pool.old }
    requires ready { MayEnd guest.old cpu.old Way.Outward outward }
    requires now { outward.generation ≡ guest.old.generation }
    requires room { HasRoomFor guest.old pool.old outward }
    requires steps { guest.old.steps < 2 ^ 63 }
    ensures does { DoesRow S.takes S.stands S.image Cmd.Go guest.old guest.new cpu.old cpu.new pool.old pool.new result }
    ensures answer { result ≡ Answer.Ret Code.USuccess }
    ensures cpu { BackWith cpu.old cpu.new Code.USuccess }
    ensures sealer { guest.new.sealer ≡ guest.old.sealer }
    ensures ended { GoesOut outward guest.old guest.new pool.old pool.new }
{
    guest.steps += 1;
    let frame = guest.pages.end_out(outward.gfn);
    pool.give(frame);
    cpu.come_back(Code::USuccess)
}

/// The bytes of a secure frame, each below 256.
fn bytes_of(frame: &SecFrame) -> &[u8]
    ensures value { result.now ≡ frame.now.bytes }
    ensures bytes { AreBytes result.now }
{
    let bytes = frame.bytes();
    bytes
}

/// The page of a route is sealed into the CPU's hand under its next version, and moves from now on.
fn begin<S: Seal>(guest: &mut Guest<S>, cpu: &mut Cpu, route: Route) -> Answer
    requires { CanBegin S.takes guest.old cpu.old.hand route.gfn }
    ensures answer { result ≡ Answer.Step }
    ensures begun { HasBegun S.stands S.image S.takes route guest.old guest.new cpu.old cpu.new }
{
    let Some(frame) = guest.pages.frame(route.gfn) else {
        unreachable!()
    };
    let tag = Tag {
        lpid: guest.lpid,
        generation: guest.generation,
        gfn: route.gfn,
        version: guest.pages.version(route.gfn) + 1,
    };
    cpu.hand
        .take_sealed(&mut guest.sealer, tag, bytes_of(frame));
    let hand = cpu.hand();
    let digest = digest_of(hand);
    guest.pages.begin_out(route.gfn, cpu.number, Some(digest));
    cpu.begin(Work::Outward(Move {
        lpid: guest.lpid,
        generation: guest.generation,
        gfn: route.gfn,
        frame: route.frame,
        copied: false,
    }))
}
