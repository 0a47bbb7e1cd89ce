//! Digests and sealed pages that were computed elsewhere.

ghost use Rattle.std.specs.Prelude.{◌≡◌, ◌+◌, ◌^◌, ◌≤◌, length, IfOk};
ghost use Rattle.pef_model.specs.Plan.{IsWithin};

use super::*;
use byteorder::{BigEndian, ByteOrder};
use std::alloc::{AllocError, Global};
use std::process::Abort;
use std::test::Fail;

const KEY: [u8; 32] = *b"ABCDEFGHIJKLMNOPQRSTUVWXYZ012345";

fn tag(lpid: u16, generation: u64, gfn: u32, version: u64) -> Tag
    ensures { result ≡ record { lpid = lpid; generation = generation; gfn = gfn; version = version } }
{
    Tag {
        lpid,
        generation,
        gfn,
        version,
    }
}

// Four doublewords, as digests are written here, from a start on.
fn words_at(bytes: &[u8], start: usize) -> [u64; 4]
    requires { start + 32 ≤ length bytes.now }
{
    let mut words = [0; 4];
    BigEndian::read_u64_into(&bytes[start..start + 32], &mut words);
    words
}

// How many bytes a page has.
fn size_of(shift: u8) -> u32
    requires { IsWithin 8 16 shift }
    ensures { result ≡ 2 ^ shift }
{
    1 << shift
}

// A page whose byte i is a start and i, modulo 251.
fn page_from(alloc: Global, start: u8, size: u32) -> Result<Vec<u8>, AllocError>
    ensures { IfOk result (λ page. length page.items ≡ size) }
{
    let mut page = vec![in alloc; 0; size as usize]?;
    for (i, byte) in page.iter_mut().enumerate() {
        *byte = ((start as usize + i) % 251) as u8;
    }
    Ok(page)
}

#[test]
fn a_digest_is_the_standards(rt: HostRuntime) {
    // The values are python's, by hashlib.
    for (text, digest) in [
        (
            "",
            [
                0xe3b0c44298fc1c14,
                0x9afbf4c8996fb924,
                0x27ae41e4649b934c,
                0xa495991b7852b855,
            ],
        ),
        (
            "abc",
            [
                0xba7816bf8f01cfea,
                0x414140de5dae2223,
                0xb00361a396177a9c,
                0xb410ff61f20015ad,
            ],
        ),
    ] {
        assert_eq!(rt;
            words_at(&digest_of(text.as_bytes()).bytes, 0),
            digest,
            "of {text}"
        );
    }
}

// Seals a page of zeros by the stream.
fn zeros_sealed(alloc: Global, key: [u8; 32], tag: Tag, shift: u8) -> Result<Vec<u8>, AllocError>
    requires { IsWithin 8 16 shift }
{
    let size = size_of(shift);
    let zeros = vec![in alloc; 0; size as usize]?;
    let mut sealed = page_from(alloc, 1, size)?;
    StreamSeal::build(key).seal(tag, &zeros, &mut sealed);
    Ok(sealed)
}

#[test]
fn a_page_of_zeros_shows_the_keystream(rt: HostRuntime) -> Result<(), Fail> {
    let sealed = zeros_sealed(rt.alloc(), [0; 32], tag(1, 1, 0, 1), 8)?;
    assert_eq!(rt; sealed.len(), 256);
    // Blocks 0 and 7, by python's hashlib.
    assert_eq!(rt;
        words_at(&sealed, 0),
        [
            0x4b4df788c045d69e,
            0x2c1b1d1cca03c70e,
            0xa7f410a293615023,
            0xb93e327fb8621faa
        ]
    );
    assert_eq!(rt;
        words_at(&sealed, 224),
        [
            0xef2cd14ab495754f,
            0x248e3a456cbb4b3d,
            0xf1492d9b23dc1c1c,
            0xefc69b357758f56a
        ]
    );
    Ok(())
}

// Seals a page by the stream, and gives the digest of the sealed page; None where unsealing gives another page.
fn stream_digest(
    alloc: Global,
    key: [u8; 32],
    tag: Tag,
    shift: u8,
) -> Result<Option<[u64; 4]>, AllocError>
    requires { IsWithin 8 16 shift }
{
    let size = size_of(shift);
    let page = page_from(alloc, 0, size)?;
    let mut sealed = page_from(alloc, 1, size)?;
    let mut out = page_from(alloc, 2, size)?;
    seal_and_unseal(
        &mut StreamSeal::build(key),
        tag,
        &page,
        &mut sealed,
        &mut out,
    );
    Ok(if out == page {
        Some(words_at(&digest_of(&sealed).bytes, 0))
    } else {
        None
    })
}

/// A key, a tag, and the SHA-256 of the page that is sealed under both.
type Vector = ([u8; 32], Tag, [u64; 4]);

// Seals the page of 2^shift bytes whose byte i is i modulo 251, and compares the digest. The digests are Python's, by hashlib.
fn have_digests(rt: &impl Abort, alloc: Global, shift: u8, vectors: &[Vector]) -> Result<(), Fail>
    requires shift { IsWithin 8 16 shift }
{
    for (key, tag, digest) in vectors {
        let sealed = stream_digest(alloc, *key, *tag, shift)?;
        assert_eq!(rt; sealed, Some(*digest), "under {tag:?}");
    }
    Ok(())
}

#[test]
fn small_pages_have_these_digests_at_the_ends_of_guests(rt: HostRuntime) -> Result<(), Fail> {
    have_digests(
        &rt,
        rt.alloc(),
        8,
        &[
            (
                [0; 32],
                tag(1, 1, 0, 1),
                [
                    0xe655c7977a1cedd2,
                    0x55a5e1e449f35384,
                    0xa8ce7f6a62ad5b99,
                    0x764548af405fcc33,
                ],
            ),
            (
                [0; 32],
                tag(u16::MAX, 1, 0, 1),
                [
                    0x0605bf58344c186f,
                    0x4a2a0cc023ba0718,
                    0x4d2f805a8e44f406,
                    0x84f80417367d478e,
                ],
            ),
            (
                [0; 32],
                tag(1, u64::MAX - 1, 0, 1),
                [
                    0xb23e25941dee0504,
                    0x93f4ecd7eb24b7f7,
                    0xeed85394b48a1b1c,
                    0xe34673934616cb3c,
                ],
            ),
        ],
    )
}

#[test]
fn small_pages_have_these_digests_at_the_ends_of_pages(rt: HostRuntime) -> Result<(), Fail> {
    have_digests(
        &rt,
        rt.alloc(),
        8,
        &[
            (
                [0; 32],
                tag(1, 1, u32::MAX, 1),
                [
                    0x94ad82554cf36816,
                    0x4841aff2d8f4fa8c,
                    0xa0437c8f5047fbbc,
                    0x4651dcb6a4840453,
                ],
            ),
            (
                [0; 32],
                tag(1, 1, 0, u64::MAX - 1),
                [
                    0x721546e2ac86de91,
                    0x3002067f727d4cef,
                    0x90c59a1c68b05059,
                    0x26e8ff52dd8e3bf2,
                ],
            ),
            (
                [0; 32],
                tag(u16::MAX, u64::MAX - 1, u32::MAX, u64::MAX - 1),
                [
                    0x2cfe5dc6cff7483f,
                    0x09c2f772bd3de4f1,
                    0xc2362ff5492f6dd0,
                    0x78459e81c90da916,
                ],
            ),
        ],
    )
}

#[test]
fn small_pages_have_these_digests_under_a_key_at_the_ends_of_guests(
    rt: HostRuntime,
) -> Result<(), Fail> {
    have_digests(
        &rt,
        rt.alloc(),
        8,
        &[
            (
                KEY,
                tag(1, 1, 0, 1),
                [
                    0x99934b6bd7d2b783,
                    0xdf5bd0fffab3723b,
                    0x09254fd68c55fbc2,
                    0x2ab463db0cf72c79,
                ],
            ),
            (
                KEY,
                tag(u16::MAX, 1, 0, 1),
                [
                    0xaac1d28eff0668f4,
                    0xe10656d7a7d54777,
                    0x96f19c3a244a1b24,
                    0x3f0969e93ea767c7,
                ],
            ),
            (
                KEY,
                tag(1, u64::MAX - 1, 0, 1),
                [
                    0x30a2c35120209e96,
                    0x0a46efa9ec050c10,
                    0x60a10929ab49e55f,
                    0x099a54baefdc1842,
                ],
            ),
        ],
    )
}

#[test]
fn small_pages_have_these_digests_under_a_key_at_the_ends_of_pages(
    rt: HostRuntime,
) -> Result<(), Fail> {
    have_digests(
        &rt,
        rt.alloc(),
        8,
        &[
            (
                KEY,
                tag(1, 1, u32::MAX, 1),
                [
                    0x5630c892144af5f8,
                    0x5304aed922ac3902,
                    0x91e1e9bab21c3623,
                    0x77d9199d9272c29c,
                ],
            ),
            (
                KEY,
                tag(1, 1, 0, u64::MAX - 1),
                [
                    0x8647cb6034c47dc1,
                    0xd97f14ccabab4a37,
                    0x0124a09c080dbf88,
                    0xc9d957fbc5f0662a,
                ],
            ),
            (
                KEY,
                tag(u16::MAX, u64::MAX - 1, u32::MAX, u64::MAX - 1),
                [
                    0x6355def173bf1845,
                    0xd738538e11fc2ce7,
                    0x18267fd53450798b,
                    0x1eff7a8ad745bf17,
                ],
            ),
        ],
    )
}

#[test]
fn large_pages_have_these_digests(rt: HostRuntime) -> Result<(), Fail> {
    have_digests(
        &rt,
        rt.alloc(),
        16,
        &[
            (
                [0; 32],
                tag(1, 1, 0, 1),
                [
                    0x613be0455e5f4445,
                    0xce6e6db1838556d3,
                    0x96b2232ebd8212b9,
                    0x2b0f721c046c202c,
                ],
            ),
            (
                [0; 32],
                tag(u16::MAX, u64::MAX - 1, u32::MAX, u64::MAX - 1),
                [
                    0x03981bc029bf342b,
                    0x08e540f57dd155cb,
                    0x6615f397803e2590,
                    0x784fefd5a01bef30,
                ],
            ),
        ],
    )
}

#[test]
fn large_pages_have_these_digests_under_a_key(rt: HostRuntime) -> Result<(), Fail> {
    have_digests(
        &rt,
        rt.alloc(),
        16,
        &[
            (
                KEY,
                tag(1, 1, 0, 1),
                [
                    0x1a174f72d3a7fa99,
                    0x4122ae26c5fb51d2,
                    0x5eb5b2d933a1cedc,
                    0xf39297905b4e4e45,
                ],
            ),
            (
                KEY,
                tag(u16::MAX, u64::MAX - 1, u32::MAX, u64::MAX - 1),
                [
                    0xfe0c6cb1cc7351fe,
                    0x5da5aed8efe90716,
                    0x5aaac2c88d8a45c3,
                    0xa64c9f7e8d55f068,
                ],
            ),
        ],
    )
}
