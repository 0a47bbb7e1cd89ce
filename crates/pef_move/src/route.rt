//! A call that moves a page tests its operands from left to right, and comes back with the code of the first that is wrong.

ghost use Rattle.std.specs.Prelude.{◌≡◌, ◌==◌, ◌&&◌, ◌/◌, ◌%◌, ◌^◌, ◌<◌, nat_lt, if◌then◌else◌, length, IfOk, IfSome};
ghost use Rattle.pef_model.specs.Plan.{Plan, IsWithin};
ghost use Rattle.pef_model.specs.PageOut.{may_page_out_in, can_go_out};
ghost use Rattle.pef_model.specs.GuestPart.{GuestPart, is_shared};
ghost use Rattle.pef_model.specs.PageIn.{may_page_in_in, can_come_in};
ghost use Rattle.pef_model.specs.PageInval.{may_be_dropped};
ghost use Rattle.pef_pages.specs.Pages.{kind_at};
ghost use Rattle.pef_move.specs.Route.{code_for, operands_for, has_page_at, are_right_in, code_of, has_value, IsRoute, IsRouteIn};

use crate::page_call::PageCall;
use pef_guest::Guest;
use pef_model::{Code, Kind, PAGE_IN_FLAGS, Phase, UV_SNAPSHOT};
use pef_num::frame_of;
use pef_seal::Seal;

/// What a call moves: the page, and the normal frame into which it goes, or from which it comes.
#[derive(Clone, Copy)]
pub(crate) struct Route {
    /// The page's number, from 0.
    pub gfn: u32,
    /// The normal frame's number, from 0.
    pub frame: u32,
}

/// What a page-out is to move, or the code with which the call comes back at once.
pub(crate) fn route_of<S: Seal>(guest: &Guest<S>, call: &PageCall) -> Result<Route, Code>
    requires { IsWithin 8 16 guest.now.shift }
    ensures code { (plan : Plan) (g : GuestPart) → code_of result ≡ code_for plan g guest.now call.now }
    ensures route { IfOk result (IsRoute guest.now call.now) }
{
    if !is_for(guest.phase) {
        return Err(Code::UParameter);
    }
    let Some(frame) = frame_below(call.ra, guest.shift, guest.normal) else {
        return Err(Code::UP2);
    };
    let Some(gfn) = page_to_go_out(guest, call.gpa) else {
        return Err(Code::UP3);
    };
    match call.flags {
        0 => {}
        UV_SNAPSHOT => return Err(Code::UFunction),
        _ => return Err(Code::UP4),
    }
    if call.order != u64::from(guest.shift) {
        return Err(Code::UP5);
    }
    if is_shared(guest.pages.kind(gfn)) {
        return Err(Code::USuccess);
    }
    if guest.phase == Phase::Starting || guest.pages.mover(gfn).is_some() {
        return Err(Code::UBusy);
    }
    Ok(Route { gfn, frame })
}

/// What a page-in is to move, or the code with which the call comes back by its operands.
pub(crate) fn route_in<S: Seal>(guest: &Guest<S>, call: &PageCall) -> Result<Route, Code>
    requires { IsWithin 8 16 guest.now.shift }
    ensures right { has_value result ≡ are_right_in guest.now call.now }
    ensures code { (plan : Plan) (g : GuestPart) → code_of result ≡ operands_for plan g guest.now call.now }
    ensures route { IfOk result (IsRouteIn guest.now call.now) }
{
    if !is_for(guest.phase) {
        return Err(Code::UParameter);
    }
    let Some(frame) = frame_below(call.ra, guest.shift, guest.normal) else {
        return Err(Code::UP2);
    };
    let Some(gfn) = page_to_come_in(guest, call.gpa) else {
        return Err(Code::UP3);
    };
    if call.flags > PAGE_IN_FLAGS {
        return Err(Code::UP4);
    }
    if call.order != u64::from(guest.shift) {
        return Err(Code::UP5);
    }
    if guest.pages.mover(gfn).is_some() {
        return Err(Code::UBusy);
    }
    Ok(Route { gfn, frame })
}

/// Whether a call for a page is for a guest in this phase: one that is Starting or Secure.
pub(crate) fn is_for(phase: Phase) -> bool
    ensures out { result ≡ may_page_out_in phase }
    ensures inward { result ≡ may_page_in_in phase }
{
    match phase {
        Phase::Starting | Phase::Secure => true,
        Phase::Absent | Phase::Normal | Phase::Aborting => false,
    }
}

/// The number of the frame that begins at an address, where there are so many of 2^shift bytes. None where none of them
/// begins there.
fn frame_below(address: u64, shift: u8, count: u32) -> Option<u32>
    requires { IsWithin 8 16 shift }
    ensures number { result ≡ (if (address % 2 ^ shift == 0) && nat_lt (address / 2 ^ shift) count then Some (address / 2 ^ shift) else None) }
    ensures below { IfSome result (λ number. number < count) }
{
    let number = frame_of(address, shift)?;
    (number < count).then_some(number)
}

/// The page that begins at a guest address, where there is one that is neither Invalid nor Out.
fn page_to_go_out<S: Seal>(guest: &Guest<S>, gpa: u64) -> Option<u32>
    requires { IsWithin 8 16 guest.now.shift }
    ensures number { result ≡ (if has_page_at guest.now gpa && can_go_out (kind_at guest.now.pages (gpa / 2 ^ guest.now.shift)) then Some (gpa / 2 ^ guest.now.shift) else None) }
    ensures below { IfSome result (λ gfn. gfn < length guest.now.pages.pages) }
{
    let gfn = frame_below(gpa, guest.shift, guest.pages.count())?;
    can_go_out(guest.pages.kind(gfn)).then_some(gfn)
}

/// The page that begins at a guest address, where there is one that is Out.
fn page_to_come_in<S: Seal>(guest: &Guest<S>, gpa: u64) -> Option<u32>
    requires { IsWithin 8 16 guest.now.shift }
    ensures number { result ≡ (if has_page_at guest.now gpa && can_come_in guest.now.phase (kind_at guest.now.pages (gpa / 2 ^ guest.now.shift)) then Some (gpa / 2 ^ guest.now.shift) else None) }
    ensures below { IfSome result (λ gfn. gfn < length guest.now.pages.pages) }
{
    let gfn = frame_below(gpa, guest.shift, guest.pages.count())?;
    can_come_in(guest.phase, guest.pages.kind(gfn)).then_some(gfn)
}

/// The page that begins at a guest address, where there is one that is Invalid or Shared.
pub(crate) fn page_to_drop<S: Seal>(guest: &Guest<S>, gpa: u64) -> Option<u32>
    requires { IsWithin 8 16 guest.now.shift }
    ensures number { result ≡ (if has_page_at guest.now gpa && may_be_dropped (kind_at guest.now.pages (gpa / 2 ^ guest.now.shift)) then Some (gpa / 2 ^ guest.now.shift) else None) }
    ensures below { IfSome result (λ gfn. gfn < length guest.now.pages.pages) }
{
    let gfn = frame_below(gpa, guest.shift, guest.pages.count())?;
    may_be_dropped(guest.pages.kind(gfn)).then_some(gfn)
}

/// Whether a page of this kind has nothing that would be lost: it is Invalid or Shared.
fn may_be_dropped(kind: Kind) -> bool
    ensures { result ≡ may_be_dropped kind }
{
    match kind {
        Kind::Invalid | Kind::Shared { .. } => true,
        Kind::Secure | Kind::Out => false,
    }
}

/// Whether a page of this kind can come in, in a guest of this phase: it is Out.
fn can_come_in(phase: Phase, kind: Kind) -> bool
    ensures { result ≡ can_come_in phase kind }
{
    match (phase, kind) {
        (_, Kind::Out) => true,
        (_, Kind::Invalid | Kind::Secure | Kind::Shared { .. }) => false,
    }
}

/// Whether a page of this kind can go out, or need not: it is neither Invalid nor Out.
fn can_go_out(kind: Kind) -> bool
    ensures { result ≡ can_go_out kind }
{
    match kind {
        Kind::Secure | Kind::Shared { .. } => true,
        Kind::Invalid | Kind::Out => false,
    }
}

/// Whether a page of this kind is Shared.
fn is_shared(kind: Kind) -> bool
    ensures { result ≡ is_shared kind }
{
    matches!(kind, Kind::Shared { .. })
}
