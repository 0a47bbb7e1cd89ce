//! An address has a place in pages or frames of one size, or none, and may have one in a slot of a guest.

ghost use Rattle.std.specs.Prelude.{◌≡◌, ◌+◌, ◌^◌, ◌<◌, ◌≤◌, IfSome, if◌then◌else◌, length};
ghost use Rattle.pef_model.specs.Plan.{IsWithin};
ghost use Rattle.pef_access.specs.Access.{has_place, is_in_slot, place_at};

use pef_guest::Guest;
use pef_num::{Place, place_of};
use pef_seal::Seal;

/// The place of an address in so many pages or frames of 2^shift bytes. None where the address is no multiple of 8, or past
/// the last of them.
pub fn place_below(address: u64, shift: u8, count: u32) -> Option<Place>
    requires { IsWithin 8 16 shift }
    ensures result { result ≡ (if has_place shift count address then Some (place_at shift address) else None) }
    ensures below { IfSome result (λ place. place.page < count) }
    ensures room { IfSome result (λ place. place.off + 8 ≤ 2 ^ shift) }
{
    let place = place_of(address, shift)?;
    (place.page < count).then_some(place)
}

/// The place of an address in those pages of a guest that lie in its slots.
pub(crate) fn place_in_slot<S: Seal>(guest: &Guest<S>, gpa: u64) -> Option<Place>
    requires { IsWithin 8 16 guest.now.shift }
    ensures result { result ≡ (if is_in_slot guest.now.shift (length guest.now.pages.pages) guest.now.slots gpa then Some (place_at guest.now.shift gpa) else None) }
    ensures below { IfSome result (λ place. place.page < length guest.now.pages.pages) }
    ensures room { IfSome result (λ place. place.off + 8 ≤ 2 ^ guest.now.shift) }
{
    let place = place_below(gpa, guest.shift, guest.pages.count())?;
    let is_in_slot = guest.slots.slot_of(place.page).is_some();
    is_in_slot.then_some(place)
}
