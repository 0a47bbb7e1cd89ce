//! Which accesses ask for a free frame, and which for a normal one.

ghost use Rattle.std.specs.Prelude.{◌≡◌, ℕ, ◌+◌, ◌/◌, ◌^◌, ◌<◌, ◌≤◌, IfSome};
ghost use Rattle.pef_model.specs.Plan.{Plan, IsWithin};
ghost use Rattle.pef_model.specs.Guest.{Guest as GuestWhole};
ghost use Rattle.pef_model.specs.GuestPart.{meets};
ghost use Rattle.pef_guest.specs.Shows.{Shows};
ghost use Rattle.pef_guest.specs.Whole.{IsWhole};
ghost use Rattle.pef_guest.specs.Aims.{frame_met};
ghost use Rattle.pef_access.specs.Access.{meets_at, meets_through, asks_at, through_at, is_unbacked, ShareBelow};

use crate::place::place_in_slot;
use pef_guest::Guest;
use pef_model::{Kind, Phase};
use pef_num::place_of;
use pef_pate::Pate;
use pef_seal::Seal;

/// Whether an access of a guest asks for a free frame: its page lies in a slot, is Invalid, and not on the move. None of a guest
/// in normal memory does.
pub fn asks_for_frame<S: Seal>(guest: &Guest<S>, gpa: u64) -> bool
    requires { IsWithin 8 16 guest.now.shift }
    ensures here { asks_at guest.now gpa ≡ result }
    ensures model { (plan : Plan) (g : GuestWhole) → Shows S.stands S.image plan guest.now g → is_unbacked (meets plan g.part gpa) ≡ result }
{
    guest.phase != Phase::Normal && is_unbacked_at(guest, gpa)
}

/// The normal frame into which an access of a guest goes, by its number from 0: in normal memory that of the page in the guest's
/// partition entry, and else that of a Shared page.
///
/// None where the address is no multiple of 8, where its page is none of the entry's or lies in no slot, and where no normal
/// frame backs the page.
pub fn frame_of_access<S: Seal>(guest: &Guest<S>, gpa: u64) -> Option<u32>
    requires { IsWhole S.takes guest.now }
    ensures here { through_at guest.now gpa ≡ result }
    ensures below { IfSome result (λ number. number < guest.now.normal) }
    ensures model { (plan : Plan) (g : GuestWhole) → Shows S.stands S.image plan guest.now g → frame_met (meets plan g.part gpa) ≡ result }
{
    if guest.phase == Phase::Normal {
        frame_through(&guest.entry, guest.normal, guest.shift, gpa)
    } else {
        shared_frame(guest, gpa)
    }
}

/// Whether the page of an address lies in a slot, is Invalid, and not on the move.
fn is_unbacked_at<S: Seal>(guest: &Guest<S>, gpa: u64) -> bool
    requires { IsWithin 8 16 guest.now.shift }
    ensures { is_unbacked (meets_at guest.now.shift guest.now.slots guest.now.pages gpa) ≡ result }
{
    let Some(place) = place_in_slot(guest, gpa) else {
        return false;
    };
    if guest.pages.mover(place.page).is_some() {
        return false;
    }
    match guest.pages.kind(place.page) {
        Kind::Invalid => true,
        Kind::Secure | Kind::Out | Kind::Shared { .. } => false,
    }
}

/// The normal frame of an address through a partition entry, which has one of so many for each of its pages.
fn frame_through(entry: &Pate, normal: u32, shift: u8, gpa: u64) -> Option<u32>
    requires shift { IsWithin 8 16 shift }
    requires fits { entry.now.dw0 / 2 ^ shift + entry.now.dw1 ≤ normal }
    ensures frame { frame_met (meets_through shift entry.now gpa) ≡ result }
    ensures below { IfSome result (λ number. number < normal) }
{
    let place = place_of(gpa, shift)?;
    entry.frame(place.page, shift)
}

/// The normal frame that backs the Shared page of an address, where the page lies in a slot.
fn shared_frame<S: Seal>(guest: &Guest<S>, gpa: u64) -> Option<u32>
    requires { IsWithin 8 16 guest.now.shift }
    ensures frame { frame_met (meets_at guest.now.shift guest.now.slots guest.now.pages gpa) ≡ result }
    ensures below { (normal : ℕ) → ShareBelow normal guest.now.pages → IfSome result (λ number. number < normal) }
{
    let place = place_in_slot(guest, gpa)?;
    match guest.pages.kind(place.page) {
        Kind::Shared { frame, .. } => frame,
        Kind::Invalid | Kind::Secure | Kind::Out => None,
    }
}
