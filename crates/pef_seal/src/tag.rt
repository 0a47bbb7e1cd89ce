//! A tag is written as four doublewords.

ghost use Rattle.std.specs.Prelude.{◌≡◌, length};
ghost use Rattle.pef_model.specs.Seal.{tag_bytes};

use crate::Tag;
use byteorder::{BigEndian, ByteOrder};

/// Writes a tag as its four doublewords.
#[tactic(auto, unfolding(pef_model::specs::Seal::tag_bytes))]
pub fn write_tag(tag: Tag, bytes: &mut [u8])
    requires { length bytes.old ≡ 32 }
    ensures { bytes.new ≡ tag_bytes tag }
{
    let values = [tag.lpid as u64, tag.generation, tag.gfn as u64, tag.version];
    BigEndian::write_u64_into(&values, bytes);
}
