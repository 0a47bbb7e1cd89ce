//! A page-in is tested on what was copied and filled from it, so that a change of the normal frame after the copy is nothing.

ghost use Rattle.std.specs.Prelude.{◌≡◌, ◌↔◌, ◌^◌, ◌<◌, true, false, ℕ, length, Some, IsTrue, IsSome};
ghost use Rattle.pef_frames.specs.Frame.{FrameState};
ghost use Rattle.pef_frames.specs.Pool.{PoolState};
ghost use Rattle.pef_model.specs.Plan.{Plan};
ghost use Rattle.pef_model.specs.Guest.{Guest as GuestWhole};
ghost use Rattle.pef_model.specs.PageIn.{page_in_operands};
ghost use Rattle.pef_pages.specs.Cells.{way_of};
ghost use Rattle.pef_pages.specs.Pages.{mover_at, frame_at, digest_at};
ghost use Rattle.pef_guest.specs.Shows.{Shows, digest_by};
ghost use Rattle.pef_guest.specs.Refused.{BackWith, PutsBack};
ghost use Rattle.pef_guest.specs.Does.{DoesRow};
ghost use Rattle.pef_model.specs.declared.command.Cmd.{Cmd};
ghost use Rattle.pef_guest.specs.Whole.{IsFrameOf, IsWhole};
ghost use Rattle.pef_guest.specs.Keeps.{IsPoolOf};
ghost use Rattle.pef_guest.specs.Ready.{MayEnd, HasRoomFor};
ghost use Rattle.pef_move.specs.PageIn.{RefusesPageIn, CopiesPageIn, IsRefusedIn};
ghost use Rattle.pef_move.specs.Route.{are_right_in, busy_without};
ghost use Rattle.pef_move.specs.Unseal.{GivesBack, Unseals};

use crate::page_call::PageCall;
use crate::route::route_in;
use pef_frames::{NormalFrame, Pool, SecFrame};
use pef_guest::{Cpu, Guest, registers};
use pef_model::{Answer, Cmd, Code, Ctx, Move, Tag, Way, Work};
use pef_pages::Pages;
use pef_seal::{Seal, digest_of};

/// UV_PAGE_IN of the hypervisor with operands that are right, the begin: the page, which is Out, gets a zeroed secure frame, and
/// moves from now on. The call's registers are loaded before. The guest is the one that the call names.
///
/// The answer is Step, or U_BUSY where no secure frame is free: then nothing changes but the CPU's registers and last answer, and
/// counts of steps.
///
/// The flags are the manual's, and have no effect. The begin as a step of its own and U_BUSY are this project's own.
pub fn page_in_begin<S: Seal>(
    guest: &mut Guest<S>,
    cpu: &mut Cpu,
    pool: &mut Pool,
    call: &PageCall,
) -> Answer
    requires hypervisor { cpu.old.ctx ≡ Ctx.Hv }
    requires named { call.now.lpid ≡ guest.old.lpid }
    requires right { are_right_in guest.old call.now ≡ true }
    requires whole { IsWhole S.takes guest.old }
    requires pool { IsPoolOf guest.old pool.old }
    requires steps { guest.old.steps < 2 ^ 63 }
    ensures does { DoesRow S.takes S.stands S.image (Cmd.UPagein call.now.lpid call.now.ra call.now.gpa call.now.flags call.now.order) guest.old guest.new cpu.old cpu.new pool.old pool.new result }
    ensures sealer { guest.new.sealer ≡ guest.old.sealer }
    ensures code { (code : Code) → (result ≡ Answer.Ret code) ↔ (busy_without pool.old.free ≡ Some code) }
    ensures refused { RefusesPageIn call.now guest.old guest.new cpu.old cpu.new pool.old pool.new result }
{
    guest.steps += 1;
    registers::load(&mut cpu.gpr, &call.page_in());
    let Ok(route) = route_in(guest, call) else {
        unreachable!()
    };
    let Some(frame) = pool.take() else {
        return cpu.refuse(Code::UBusy);
    };
    guest.pages.begin_in(route.gfn, cpu.number, frame);
    cpu.begin(Work::Inward(Move {
        lpid: guest.lpid,
        generation: guest.generation,
        gfn: route.gfn,
        frame: route.frame,
        copied: false,
    }))
}

/// UV_PAGE_IN of the hypervisor with an operand that is wrong: it comes back with the code of the first of these. U_PARAMETER
/// where the guest is neither Starting nor Secure; U_P2 where the real address is no multiple of a page's size, or past the last
/// normal frame; U_P3 where the guest address is no multiple of a page's size, or past the guest's last page, or the page isn't
/// Out; U_P4 at flags above 7; U_P5 where the order is not that of a page, 8 to 16; U_BUSY where the page is on the move. Nothing
/// changes but the CPU's registers and last answer, and counts of steps. The order of the tests is this project's own.
pub fn page_in_refused<S: Seal>(guest: &mut Guest<S>, cpu: &mut Cpu, call: &PageCall) -> Answer
    requires hypervisor { cpu.old.ctx ≡ Ctx.Hv }
    requires wrong { are_right_in guest.old call.now ≡ false }
    requires whole { IsWhole S.takes guest.old }
    requires steps { guest.old.steps < 2 ^ 63 }
    ensures does { (pool : PoolState) → DoesRow S.takes S.stands S.image (Cmd.UPagein call.now.lpid call.now.ra call.now.gpa call.now.flags call.now.order) guest.old guest.new cpu.old cpu.new pool pool result }
    ensures code { (plan : Plan) (g : GuestWhole) → Shows S.stands S.image plan guest.old g → (code : Code) →
        (result ≡ Answer.Ret code) ↔ (page_in_operands plan g.part call.now.ra call.now.gpa call.now.flags call.now.order ≡ Some code) }
    ensures refused { (pool : PoolState) → RefusesPageIn call.now guest.old guest.new cpu.old cpu.new pool pool result }
{
    guest.steps += 1;
    registers::load(&mut cpu.gpr, &call.page_in());
    match route_in(guest, call) {
        Ok(_route) => unreachable!(),
        Err(code) => cpu.refuse(code),
    }
}

/// The copy: what the normal frame holds goes into the CPU's hand, once.
pub fn page_in_copy(cpu: &mut Cpu, inward: Move, frame: &NormalFrame) -> Answer
    requires working { cpu.old.ctx ≡ Ctx.Uv (Work.Inward inward) }
    requires size { length cpu.old.hand ≡ length frame.now }
    ensures answer { result ≡ Answer.Step }
    ensures cpu { cpu.new ≡ record cpu.old { ctx = Ctx.Uv (Work.Inward (record inward { copied = true })); hand = frame.now } }
    ensures row { CopiesPageIn inward cpu.old cpu.new frame.now result }
{
    cpu.hand.take_copy(frame);
    cpu.go_on(Work::Inward(Move {
        copied: true,
        ..inward
    }))
}

/// The end, where the hand has the digest that the page keeps: the page is Secure again with what the hand unseals to.
///
/// What was tested is what was copied. That the test comes after the copy, and that a page has one digest, is this project's own.
pub fn page_in_end<S: Seal>(guest: &mut Guest<S>, cpu: &mut Cpu, inward: Move) -> Answer
    requires working { cpu.old.ctx ≡ Ctx.Uv (Work.Inward inward) }
    requires copied { inward.copied ≡ true }
    requires whole { IsWhole S.takes guest.old }
    requires hand { length cpu.old.hand ≡ 2 ^ guest.old.shift }
    requires ready { MayEnd guest.old cpu.old Way.Inward inward }
    requires now { inward.generation ≡ guest.old.generation }
    requires kept { IsRefusedIn guest.old cpu.old.hand inward → ⊥ }
    requires steps { guest.old.steps < 2 ^ 63 }
    ensures does { (pool : PoolState) → DoesRow S.takes S.stands S.image Cmd.Go guest.old guest.new cpu.old cpu.new pool pool result }
    ensures answer { result ≡ Answer.Ret Code.USuccess }
    ensures cpu { BackWith cpu.old cpu.new Code.USuccess }
    ensures sealer { guest.new.sealer ≡ guest.old.sealer }
{
    guest.steps += 1;
    unseal(guest, inward.gfn, cpu.hand());
    guest.pages.end_in(inward.gfn, true);
    cpu.come_back(Code::USuccess)
}

/// The end, where it doesn't: the call comes back with U_P2, the page is Out at rest under the digest that it kept, and its
/// frame goes back zeroed.
pub fn page_in_end_refused<S: Seal>(
    guest: &mut Guest<S>,
    cpu: &mut Cpu,
    inward: Move,
    pool: &mut Pool,
) -> Answer
    requires working { cpu.old.ctx ≡ Ctx.Uv (Work.Inward inward) }
    requires copied { inward.copied ≡ true }
    requires whole { IsWhole S.takes guest.old }
    requires pool { IsPoolOf guest.old pool.old }
    requires ready { MayEnd guest.old cpu.old Way.Inward inward }
    requires differs { IsRefusedIn guest.old cpu.old.hand inward }
    requires room { HasRoomFor guest.old pool.old inward }
    requires steps { guest.old.steps < 2 ^ 63 }
    ensures does { DoesRow S.takes S.stands S.image Cmd.Go guest.old guest.new cpu.old cpu.new pool.old pool.new result }
    ensures answer { result ≡ Answer.Ret Code.UP2 }
    ensures cpu { BackWith cpu.old cpu.new Code.UP2 }
    ensures back { PutsBack inward guest.old guest.new pool.old pool.new }
{
    guest.steps += 1;
    refuse(&mut guest.pages, inward.gfn, pool);
    cpu.come_back(Code::UP2)
}

/// Whether bytes have the digest that a page keeps.
pub(crate) fn is_kept(pages: &Pages<SecFrame>, gfn: u32, bytes: &[u8]) -> bool
    requires { gfn < length pages.now.pages }
    ensures { IsTrue result ↔ (digest_at pages.now gfn ≡ Some (digest_by bytes.now)) }
{
    pages.digest(gfn) == Some(digest_of(bytes))
}

/// What came for a page is refused: the page is at rest as it was, and its frame goes back zeroed.
fn refuse(pages: &mut Pages<SecFrame>, gfn: u32, pool: &mut Pool)
    requires below { gfn < length pages.old.pages }
    requires moves { way_of (mover_at pages.old gfn) ≡ Some Way.Inward }
    requires frames { (frame : FrameState) → frame_at pages.old gfn ≡ Some frame → IsFrameOf pool.old.size pool.old.count frame }
    requires room { length pool.old.free < pool.old.count }
    ensures { GivesBack gfn pages.old pages.new pool.old pool.new }
{
    match pages.end_in(gfn, false) {
        Some(frame) => pool.give(frame),
        None => unreachable!(),
    }
}

/// What the bytes unseal to, under the tag of the page's version as it stands, is written into the page's frame.
fn unseal<S: Seal>(guest: &mut Guest<S>, gfn: u32, bytes: &[u8])
    requires below { gfn < length guest.old.pages.pages }
    requires takes { S.takes guest.old.sealer gfn (length bytes.now) }
    requires there { IsSome (frame_at guest.old.pages gfn) }
    requires size { (frame : FrameState) → frame_at guest.old.pages gfn ≡ Some frame → length frame.bytes ≡ length bytes.now }
    ensures { Unseals S.stands gfn bytes.now guest.old guest.new }
{
    let tag = Tag {
        lpid: guest.lpid,
        generation: guest.generation,
        gfn,
        version: guest.pages.version(gfn),
    };
    match guest.pages.frame_mut(gfn) {
        Some(frame) => guest.sealer.unseal(tag, bytes, frame.bytes_mut()),
        None => unreachable!(),
    }
}
