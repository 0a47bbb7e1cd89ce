//! Each call once, at values written by hand, and at every call that fails.

use super::*;
use crate::faults::FaultCount;
use crate::plan::CallPlan;
use std::io;
use std::io::{ErrorKind, Read, Write};
use std::test::Fail;

const TEXT: &[u8] = b"abcdefgh";

// Reads a source to its end by a small buffer, past the reads that fail, and gives how many failed.
fn read_past_failures<S: Source>(source: &mut S, bytes: &mut Vec<u8>) -> Result<u64, Fail> {
    let mut failed = 0u64;
    for _ in 0..20u64 {
        let mut buf = [0; 3];
        match source.read(&mut buf) {
            Ok(0) => break,
            Ok(count) => bytes.extend_from_slice(&buf[..count])?,
            Err(Failed) => failed = failed.wrapping_add(1),
        }
    }
    Ok(failed)
}

#[test]
fn each_read_that_was_named_fails(rt: HostRuntime) -> Result<(), Fail> {
    let alloc = rt.alloc();
    // Four reads bring the text and its end, and where one of them fails there is a fifth.
    for number in 0..6u64 {
        let fails = vec![in alloc; number]?;
        let mut source = MemSource::build(TEXT.to_vec(alloc)?, fails);
        let mut bytes = Vec::new(alloc);
        let failed = read_past_failures(&mut source, &mut bytes)?;
        assert_eq!(rt; bytes.as_slice(), TEXT, "at {number}");
        assert_eq!(rt; failed, u64::from(number < 4), "at {number}");
    }
    Ok(())
}

#[test]
fn each_write_that_was_named_fails(rt: HostRuntime) -> Result<(), Fail> {
    let alloc = rt.alloc();
    for (number, answer, want) in [
        (0, Err(Failed), ""),
        (1, Err(Failed), "0x"),
        (2, Ok(()), "0x7"),
    ] {
        let fails = vec![in alloc; number]?;
        let mut sink = MemSink::build(alloc, 8, fails)?;
        assert_eq!(rt; put_value(&mut sink, 7), answer, "at {number}");
        assert_eq!(rt; sink.bytes(), want.as_bytes(), "at {number}");
    }
    Ok(())
}

#[test]
fn a_text_that_does_not_fit_is_cut(rt: HostRuntime) -> Result<(), Fail> {
    let alloc = rt.alloc();
    let mut sink = MemSink::build(alloc, 5, Vec::new(alloc))?;
    assert_eq!(rt; put(&mut sink, TEXT), Err(Failed));
    assert_eq!(rt; sink.bytes(), b"abcde".as_slice());
    assert_eq!(rt; put(&mut sink, b""), Ok(()));
    Ok(())
}

#[test]
fn pieces_are_written_in_their_order(rt: HostRuntime) -> Result<(), Fail> {
    let alloc = rt.alloc();
    let pieces = [b"ab".as_slice(), b"", b"cde", b"f"];
    let mut sink = MemSink::build(alloc, 6, Vec::new(alloc))?;
    assert_eq!(rt; put_all(&mut sink, &pieces), Ok(()));
    assert_eq!(rt; sink.bytes(), b"abcdef".as_slice());
    let mut sink = MemSink::build(alloc, 4, Vec::new(alloc))?;
    assert_eq!(rt; put_all(&mut sink, &pieces), Err(Failed));
    assert_eq!(rt; sink.bytes(), b"abcd".as_slice());
    Ok(())
}

#[test]
fn numbers_and_values_have_their_texts(rt: HostRuntime) -> Result<(), Fail> {
    let alloc = rt.alloc();
    for (number, decimal, value) in [
        (0, "0", "0x0"),
        (7, "7", "0x7"),
        (16, "16", "0x10"),
        (0xdead_beef, "3735928559", "0xdeadbeef"),
        (u64::MAX, "18446744073709551615", "0xffffffffffffffff"),
    ] {
        let mut sink = MemSink::build(alloc, 20, Vec::new(alloc))?;
        assert_eq!(rt; put_decimal(&mut sink, number), Ok(()));
        assert_eq!(rt; sink.bytes(), decimal.as_bytes());
        let mut sink = MemSink::build(alloc, 20, Vec::new(alloc))?;
        assert_eq!(rt; put_value(&mut sink, number), Ok(()));
        assert_eq!(rt; sink.bytes(), value.as_bytes());
    }
    Ok(())
}

#[test]
fn counts_stay_at_their_end(rt: HostRuntime) -> Result<(), Fail> {
    let mut plan = CallPlan {
        fails: vec![in rt.alloc(); u64::MAX]?,
        calls: u64::MAX,
        faults: FaultCount { count: u64::MAX },
    };
    assert_eq!(rt; plan.begin_call(), Err(Failed));
    assert_eq!(rt; plan.calls, u64::MAX);
    assert_eq!(rt; plan.faults.count, u64::MAX);
    Ok(())
}

// A reader or a writer whose first call fails.
#[derive(Drop)]
struct FailsOnce<D> {
    has_failed: bool,
    device: D,
}

impl<D> FailsOnce<D> {
    fn fail_once(&mut self) -> io::Result<()> {
        if self.has_failed {
            return Ok(());
        }
        self.has_failed = true;
        Err(io::Error::from(ErrorKind::Interrupted))
    }
}

impl<R: Read> Read for FailsOnce<R> {
    fn read(&mut self, buf: &mut [u8]) -> io::Result<usize> {
        self.fail_once()?;
        self.device.read(buf)
    }
}

impl<W: Write> Write for FailsOnce<W> {
    fn write(&mut self, buf: &[u8]) -> io::Result<usize> {
        self.fail_once()?;
        self.device.write(buf)
    }

    fn flush(&mut self) -> io::Result<()> {
        self.device.flush()
    }
}

#[test]
fn a_read_that_failed_is_told_and_loses_nothing(rt: HostRuntime) -> Result<(), Fail> {
    let mut bytes = Vec::new(rt.alloc());
    let mut source = StdSource::build(FailsOnce {
        has_failed: false,
        device: TEXT,
    });
    assert_eq!(rt; read_past_failures(&mut source, &mut bytes)?, 1);
    assert_eq!(rt; bytes.as_slice(), TEXT);
    Ok(())
}

#[test]
fn a_write_that_failed_is_told_and_writes_nothing(rt: HostRuntime) {
    let mut room = [0; 5];
    let mut sink = StdSink::build(FailsOnce {
        has_failed: false,
        device: &mut room[..],
    });
    assert_eq!(rt; put(&mut sink, b"abc"), Err(Failed));
    assert_eq!(rt; put(&mut sink, b"def"), Ok(()));
    assert_eq!(rt; room.as_slice(), b"def\0\0".as_slice());
}

#[test]
fn a_writer_that_takes_nothing_fails(rt: HostRuntime) {
    let mut room = [0; 5];
    let mut sink = StdSink::build(&mut room[..]);
    assert_eq!(rt; put(&mut sink, b"abc"), Ok(()));
    assert_eq!(rt; put(&mut sink, b"def"), Err(Failed));
    assert_eq!(rt; room.as_slice(), b"abcde".as_slice());
}
