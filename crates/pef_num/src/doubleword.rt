//! A doubleword in a list of bytes is eight bytes, the highest first.

ghost use Rattle.std.specs.Prelude.{◌≡◌, ◌+◌, ◌≤◌, length};
ghost use Rattle.pef_model.specs.Doubleword.{doubleword, with_doubleword};

use byteorder::{BigEndian, ByteOrder};

/// The doubleword in the eight bytes from an offset, the highest byte first. It need not be aligned.
#[tactic(auto, unfolding(pef_model::specs::Doubleword::doubleword))]
pub fn dw_at(page: &[u8], off: usize) -> u64
    requires { off + 8 ≤ length page.now }
    ensures { result ≡ doubleword page.now off }
{
    BigEndian::read_u64(&page[off..])
}

/// Puts a doubleword into the eight bytes from an offset, the highest byte first. All other bytes stay.
#[tactic(auto, using(pef_model::proofs::Doublewords::lengths), unfolding(pef_model::specs::Doubleword::with_doubleword))]
pub fn put_dw(page: &mut [u8], off: usize, value: u64)
    requires { off + 8 ≤ length page.old }
    ensures bytes { page.new ≡ with_doubleword page.old off value }
    ensures size { length page.new ≡ length page.old }
{
    BigEndian::write_u64(&mut page[off..], value);
}
