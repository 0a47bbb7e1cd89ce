//! A secure frame comes back zeroed, and a normal frame is its bytes.

use pef_frames::{NormalFrame, Pool, SecFrame};
use std::process::Abort;
use std::test::Fail;

// The bytes of 0x0102030405060708, the highest first, and zeros.
fn stored() -> [u8; 256] {
    let mut bytes = [0; 256];
    bytes[..8].copy_from_slice(&[1, 2, 3, 4, 5, 6, 7, 8]);
    bytes
}

// Takes the frame of this number, which is there, all zero.
fn take(rt: &impl Abort, pool: &mut Pool, number: u32) -> SecFrame {
    let frame = pool.take().expect(rt, "a frame is free");
    assert!(rt; frame.number() == number);
    assert!(rt; frame.bytes() == [0; 256].as_slice());
    frame
}

// Writes a frame, which stays of its number.
fn write(rt: &impl Abort, frame: &mut SecFrame, number: u32) {
    assert!(rt; frame.bytes().len() == 256);
    frame.bytes_mut().copy_from_slice(&stored());
    assert!(rt; frame.bytes() == stored().as_slice());
    assert!(rt; frame.number() == number);
}

// Gives a frame of the pool back.
fn give(rt: &impl Abort, pool: &mut Pool, frame: SecFrame) {
    assert!(rt; pool.room() > 0);
    assert!(rt; frame.number() < pool.count());
    assert!(rt; frame.bytes().len() == pool.size() as usize);
    pool.give(frame);
}

// How many frames a pool has, are free and are not.
fn counts(rt: &impl Abort, pool: &Pool, count: u32, free: u32, room: u32) {
    assert_eq!(rt;
        (pool.count(), pool.free(), pool.room()),
        (count, free, room)
    );
    assert_eq!(rt; pool.size(), 256);
}

#[test]
fn a_frame_comes_back_zeroed(rt: HostRuntime) -> Result<(), Fail> {
    let mut pool = Pool::build(rt.alloc(), 2, 256)?;
    let mut frame = take(&rt, &mut pool, 0);
    write(&rt, &mut frame, 0);
    give(&rt, &mut pool, frame);
    counts(&rt, &pool, 2, 2, 0);
    let _again = take(&rt, &mut pool, 0);
    Ok(())
}

#[test]
fn a_normal_frame_is_stored_and_loaded(rt: HostRuntime) -> Result<(), Fail> {
    let mut frame = NormalFrame::build(rt.alloc(), 256)?;
    assert!(rt; frame.size() == 256);
    frame.store(0, 0x0102_0304_0506_0708);
    assert!(rt; frame.bytes() == stored().as_slice());
    assert!(rt; frame.load(4) == 0x0506_0708_0000_0000);
    Ok(())
}

#[test]
fn a_normal_frame_is_copied_both_ways_and_zeroed(rt: HostRuntime) -> Result<(), Fail> {
    let mut frame = NormalFrame::build(rt.alloc(), 256)?;
    let mut hand = [0xff; 256];
    frame.copy_from(&stored());
    frame.copy_to(&mut hand);
    assert!(rt; hand == stored());
    frame.zero();
    assert!(rt; frame.bytes() == [0; 256].as_slice());
    Ok(())
}
