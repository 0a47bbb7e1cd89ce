//! A frame's address is a multiple of the frame's size.

ghost use Rattle.std.specs.Prelude.{◌≡◌};
ghost use Rattle.pef_model.specs.Plan.{IsWithin};
ghost use Rattle.pef_num.specs.Addresses.{frame_in};

use crate::size;

/// The number of the frame of 2^shift bytes that begins at an address, from 0.
///
/// None exactly where no frame begins there, since the address is no multiple of 2^shift, or where the number is above
/// 4294967295.
pub fn frame_of(addr: u64, shift: u8) -> Option<u32>
    requires { IsWithin 8 16 shift }
    ensures { result ≡ frame_in shift addr }
{
    let size = size::size_of(shift);
    if addr % size == 0 {
        u32::try_from(addr / size).ok()
    } else {
        None
    }
}
