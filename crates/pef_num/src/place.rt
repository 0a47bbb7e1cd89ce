//! A doubleword's address says in which page it lies, and where in it.

ghost use Rattle.std.specs.Prelude.{◌≡◌, IfSome};
ghost use Rattle.pef_model.specs.Plan.{IsWithin};
ghost use Rattle.pef_num.specs.Addresses.{place_in, IsPlace};

use crate::size;

/// Where a doubleword lies.
#[derive(Clone, Copy, Debug, PartialEq, Eq)]
pub struct Place {
    /// The number of its page, from 0.
    pub page: u32,
    /// Where it begins in the page, in bytes.
    pub off: u32,
}

/// The place of a doubleword's address, in pages of 2^shift bytes.
///
/// None exactly where the address is no multiple of 8, or where its page's number is above 4294967295.
#[tactic(auto, using(pef_model::proofs::Places::room_at, pef_model::proofs::Places::offset_aligned))]
pub fn place_of(addr: u64, shift: u8) -> Option<Place>
    requires { IsWithin 8 16 shift }
    ensures result { result ≡ place_in shift addr }
    ensures place { IfSome result (IsPlace shift) }
{
    if addr % 8 != 0 {
        return None;
    }
    let size = size::size_of(shift);
    let page = u32::try_from(addr / size).ok()?;
    Some(Place {
        page,
        off: (addr % size) as u32,
    })
}
