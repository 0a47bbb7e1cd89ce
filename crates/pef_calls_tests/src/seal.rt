//! A vault shows the tag and keeps the page. What the stream writes is tested in its own crate.

ghost use Rattle.std.specs.Prelude.{◌≡◌, ◌^◌};
ghost use Rattle.pef_model.specs.Plan.{IsWithin};

use pef_seal::{Seal, Tag, VaultSeal};
use std::test::Fail;

const TAG: Tag = Tag {
    lpid: 1,
    generation: 2,
    gfn: 3,
    version: 4,
};

// How many bytes a page has.
fn size_of(shift: u8) -> u32
    requires { IsWithin 8 16 shift }
    ensures { result ≡ 2 ^ shift }
{
    1 << shift
}

#[test]
fn a_vault_shows_the_tag_and_keeps_the_page(rt: HostRuntime) -> Result<(), Fail> {
    let page = [7; 256];
    let mut sealed = [0xff; 256];
    let mut out = [0xff; 256];
    let mut vault = VaultSeal::build(rt.alloc(), 4, size_of(8))?;
    vault.seal(TAG, &page, &mut sealed);
    vault.unseal(TAG, &sealed, &mut out);
    // The four numbers of the tag, each with the highest byte first, and zeros.
    let mut want = [0; 256];
    want[7] = 1;
    want[15] = 2;
    want[23] = 3;
    want[31] = 4;
    assert!(rt; sealed == want);
    assert!(rt; out == page);
    Ok(())
}
