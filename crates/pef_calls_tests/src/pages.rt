//! A page is backed by a frame of the pool, goes out and comes in, or gives its frame away.

use pef_frames::{Pool, SecFrame};
use pef_model::{Digest32, Kind, Mover, Way};
use pef_pages::Pages;
use std::alloc::{AllocError, Global};
use std::process::Abort;
use std::test::Fail;

const SEALED: Digest32 = Digest32 { bytes: [7; 32] };

const SHARED: Kind = Kind::Shared {
    frame: Some(9),
    fresh: false,
};

const UNBACKED: Kind = Kind::Shared {
    frame: None,
    fresh: false,
};

const OUTWARD: Mover = Mover {
    cpu: 3,
    way: Way::Outward,
};

const INWARD: Mover = Mover {
    cpu: 4,
    way: Way::Inward,
};

// Takes a frame, which is there.
fn take(rt: &impl Abort, pool: &mut Pool) -> SecFrame {
    pool.take().expect(rt, "a frame is free")
}

// Gives a frame of the pool back.
fn give(rt: &impl Abort, pool: &mut Pool, frame: SecFrame) {
    assert!(rt; pool.room() > 0);
    assert!(rt; frame.number() < pool.count());
    assert_eq!(rt; frame.bytes().len(), pool.size() as usize);
    pool.give(frame);
}

fn back(rt: &impl Abort, pages: &mut Pages<SecFrame>, gfn: u32, frame: SecFrame) {
    assert!(rt; gfn < pages.count());
    assert_eq!(rt; pages.kind(gfn), Kind::Invalid);
    assert_eq!(rt; pages.mover(gfn), None);
    pages.back(gfn, frame);
}

// CPU 3 begins to move page 0 outward. Gives its new version.
fn begin_out(rt: &impl Abort, pages: &mut Pages<SecFrame>) -> u64 {
    assert!(rt; pages.count() > 0);
    assert_eq!(rt; pages.kind(0), Kind::Secure);
    assert_eq!(rt; pages.mover(0), None);
    assert!(rt; pages.version(0) < u64::MAX);
    pages.begin_out(0, 3, Some(SEALED))
}

fn end_out(rt: &impl Abort, pages: &mut Pages<SecFrame>) -> SecFrame {
    assert!(rt; pages.count() > 0);
    assert_eq!(rt; pages.mover(0), Some(OUTWARD));
    pages.end_out(0)
}

// CPU 4 begins to move page 0, which is Out, inward.
fn begin_in(rt: &impl Abort, pages: &mut Pages<SecFrame>, frame: SecFrame) {
    assert!(rt; pages.count() > 0);
    assert_eq!(rt; pages.kind(0), Kind::Out);
    assert_eq!(rt; pages.mover(0), None);
    pages.begin_in(0, 4, frame);
}

// What came for page 0 is accepted.
fn end_in(rt: &impl Abort, pages: &mut Pages<SecFrame>) -> Option<SecFrame> {
    assert!(rt; pages.count() > 0);
    assert_eq!(rt; pages.mover(0), Some(INWARD));
    pages.end_in(0, true)
}

// A guest's pages, none of which has anything.
fn pages_of(alloc: Global, count: u32) -> Result<Pages<SecFrame>, AllocError> {
    Pages::build(alloc, count)
}

// A pool of so many frames.
fn pool_of(alloc: Global, count: u32) -> Result<Pool, AllocError> {
    Pool::build(alloc, count, 256)
}

// What a page has: its kind, version and digest, and the number of its frame.
fn has(
    rt: &impl Abort,
    pages: &Pages<SecFrame>,
    gfn: u32,
    kind: Kind,
    version: u64,
    digest: Option<Digest32>,
    frame: Option<u32>,
) {
    assert!(rt; gfn < pages.count());
    assert_eq!(rt; pages.kind(gfn), kind);
    assert_eq!(rt; pages.version(gfn), version);
    assert_eq!(rt; pages.digest(gfn), digest);
    assert_eq!(rt; pages.frame(gfn).map(|frame| frame.number()), frame);
}

// How many pages there are and move, and the oldest that may go out.
fn counts(rt: &impl Abort, pages: &Pages<SecFrame>, count: u32, movers: u32, oldest: Option<u32>) {
    assert_eq!(rt; pages.count(), count);
    assert_eq!(rt; pages.movers(), movers);
    assert_eq!(rt; pages.oldest(), oldest);
}

// Page 0 becomes Shared, and gives its frame away.
fn share(rt: &impl Abort, pages: &mut Pages<SecFrame>) -> Option<SecFrame> {
    assert!(rt; pages.count() > 0);
    assert_eq!(rt; pages.mover(0), None);
    pages.put_shared(0, Some(9), false)
}

// Page 0 loses the normal frame that backs it.
fn unmap(rt: &impl Abort, pages: &mut Pages<SecFrame>) {
    assert!(rt; pages.count() > 0);
    pages.unmap(0);
}

fn drop_to_invalid(rt: &impl Abort, pages: &mut Pages<SecFrame>, gfn: u32) -> Option<SecFrame> {
    assert!(rt; gfn < pages.count());
    pages.drop_to_invalid(gfn)
}

// Fills the frame of a page, where it has one.
fn fill(rt: &impl Abort, pages: &mut Pages<SecFrame>, gfn: u32, byte: u8) {
    assert!(rt; gfn < pages.count());
    if let Some(frame) = pages.frame_mut(gfn) {
        frame.bytes_mut().fill(byte);
    }
}

// Whether a page has a frame of this byte.
fn is_full(rt: &impl Abort, pages: &Pages<SecFrame>, gfn: u32, byte: u8) -> bool {
    assert!(rt; gfn < pages.count());
    match pages.frame(gfn) {
        Some(frame) => frame.bytes() == [byte; 256].as_slice(),
        None => false,
    }
}

// The only page has no frame, and the guest is reset.
fn reset(rt: &impl Abort, pages: &mut Pages<SecFrame>) {
    assert_eq!(rt; pages.count(), 1);
    assert!(rt; pages.frame(0).is_none());
    pages.reset();
}

#[test]
fn a_page_is_written_goes_out_and_comes_in_again(rt: HostRuntime) -> Result<(), Fail> {
    let mut pool = pool_of(rt.alloc(), 1)?;
    let mut pages = pages_of(rt.alloc(), 1)?;
    back(&rt, &mut pages, 0, take(&rt, &mut pool));
    fill(&rt, &mut pages, 0, 7);
    assert!(rt; is_full(&rt, &pages, 0, 7));
    has(&rt, &pages, 0, Kind::Secure, 0, None, Some(0));
    counts(&rt, &pages, 1, 0, Some(0));
    assert!(rt; begin_out(&rt, &mut pages) == 1);
    counts(&rt, &pages, 1, 1, None);
    give(&rt, &mut pool, end_out(&rt, &mut pages));
    has(&rt, &pages, 0, Kind::Out, 1, Some(SEALED), None);
    begin_in(&rt, &mut pages, take(&rt, &mut pool));
    assert!(rt; end_in(&rt, &mut pages).is_none());
    has(&rt, &pages, 0, Kind::Secure, 1, None, Some(0));
    Ok(())
}

#[test]
fn a_page_that_becomes_shared_or_invalid_gives_its_frame_away(rt: HostRuntime) -> Result<(), Fail> {
    let mut pool = pool_of(rt.alloc(), 2)?;
    let mut pages = pages_of(rt.alloc(), 2)?;
    back(&rt, &mut pages, 0, take(&rt, &mut pool));
    back(&rt, &mut pages, 1, take(&rt, &mut pool));
    let shared = share(&rt, &mut pages).expect(&rt, "the page had a frame");
    let dropped = drop_to_invalid(&rt, &mut pages, 1).expect(&rt, "the page had a frame");
    assert!(rt; shared.number() == 0);
    assert!(rt; dropped.number() == 1);
    has(&rt, &pages, 0, SHARED, 0, None, None);
    has(&rt, &pages, 1, Kind::Invalid, 0, None, None);
    unmap(&rt, &mut pages);
    has(&rt, &pages, 0, UNBACKED, 0, None, None);
    Ok(())
}

#[test]
fn a_reset_guest_is_as_it_was_built(rt: HostRuntime) -> Result<(), Fail> {
    let mut pages = pages_of(rt.alloc(), 1)?;
    assert!(rt; share(&rt, &mut pages).is_none());
    reset(&rt, &mut pages);
    has(&rt, &pages, 0, Kind::Invalid, 0, None, None);
    counts(&rt, &pages, 1, 0, None);
    Ok(())
}
