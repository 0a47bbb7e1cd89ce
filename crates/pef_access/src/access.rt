//! An access of a guest finds its doubleword in a secure frame, or says why not.

ghost use Rattle.std.specs.Prelude.{true, false, ◌≡◌, ◌+◌, ◌^◌, ◌<◌, ◌≤◌, Some, None, length, if◌then◌else◌, IfOk, IfSome};
ghost use Rattle.pef_model.specs.Plan.{IsWithin};
ghost use Rattle.pef_frames.specs.Pool.{first_free, without_first};
ghost use Rattle.pef_guest.specs.Does.{is_any_free};
ghost use Rattle.pef_access.specs.Access.{place_at, meets_guest, asks_at, found_at, backed_by, HaveFrames, IsReached, value_at, stored_at};

use crate::place::place_in_slot;
use pef_frames::{Pool, SecFrame};
use pef_guest::Guest;
use pef_model::{Answer, Kind, Phase};
use pef_num::{self, Place};
use pef_pages::Pages;
use pef_seal::Seal;

/// Where the doubleword of a guest address lies, for an access that asks for no free frame.
///
/// Hole where the address is no multiple of 8 or its page lies in no slot of the guest, where the page is Out or Shared, and in a
/// guest in normal memory; Again where the page is on the move.
#[tactic(auto, using(crate::proofs::Reaching::room_where_secure))]
pub fn reach<S: Seal>(guest: &Guest<S>, gpa: u64) -> Result<Place, Answer>
    requires shift { IsWithin 8 16 guest.now.shift }
    requires frames { HaveFrames (2 ^ guest.now.shift) guest.now.pages }
    requires met { asks_at guest.now gpa ≡ false }
    ensures place { IfOk result (IsReached guest.now.pages) }
    ensures result { result ≡ found_at (place_at guest.now.shift gpa) (meets_guest guest.now gpa) }
{
    if guest.phase == Phase::Normal {
        return Err(Answer::Hole);
    }
    let Some(place) = place_in_slot(guest, gpa) else {
        return Err(Answer::Hole);
    };
    if guest.pages.mover(place.page).is_some() {
        return Err(Answer::Again);
    }
    match guest.pages.kind(place.page) {
        Kind::Secure => Ok(place),
        Kind::Invalid => unreachable!(),
        Kind::Out | Kind::Shared { .. } => Err(Answer::Hole),
    }
}

/// The same for an access that meets an Invalid page, which is backed by a zeroed frame. None where no frame is free.
#[tactic(auto, using(crate::proofs::Reaching::room_where_backed))]
pub fn back<S: Seal>(guest: &mut Guest<S>, pool: &mut Pool, gpa: u64) -> Option<Place>
    requires shift { IsWithin 8 16 guest.old.shift }
    requires size { pool.old.size ≡ 2 ^ guest.old.shift }
    requires met { asks_at guest.old gpa ≡ true }
    ensures place { IfSome result (IsReached guest.new.pages) }
    ensures result { result ≡ (if is_any_free pool.old then Some (place_at guest.old.shift gpa) else None) }
    ensures guest { guest.new ≡ record guest.old { pages = backed_by guest.old.pages (place_at guest.old.shift gpa).page (first_free pool.old) } }
    ensures pool { pool.new ≡ without_first pool.old }
    ensures number { IfSome (first_free pool.old) (λ frame. frame.number < pool.old.count) }
{
    let Some(place) = place_in_slot(guest, gpa) else {
        unreachable!()
    };
    let frame = pool.take()?;
    guest.pages.back(place.page, frame);
    Some(place)
}

/// The doubleword at a place whose page has a frame.
pub fn load(pages: &Pages<SecFrame>, place: Place) -> u64
    requires { IsReached pages.now place }
    ensures { result ≡ value_at pages.now place }
{
    match pages.frame(place.page) {
        Some(frame) => pef_num::dw_at(frame.bytes(), place.off as usize),
        None => unreachable!(),
    }
}

/// Puts a doubleword at a place whose page has a frame. All other bytes stay.
pub fn store(pages: &mut Pages<SecFrame>, place: Place, value: u64)
    requires { IsReached pages.old place }
    ensures { pages.new ≡ stored_at pages.old place value }
{
    match pages.frame_mut(place.page) {
        Some(frame) => pef_num::put_dw(frame.bytes_mut(), place.off as usize, value),
        None => unreachable!(),
    }
}
