//! Each way in which a top call ends that no pair of files can show.

use pef_io::{Failed, MemSink, MemSource, Sink, Source};
use pef_top::{RunOutcome, SCRIPT_LIMIT, pef_run};
use std::alloc::{AllocError, Global};
use std::marker::Model;
use std::process::Abort;
use std::test::Fail;

const SCRIPT: &str =
    "pef 1\nborn 1\nbegin\n0 u.return 0 0\n0 g.li r20 7\n0 g.st r20 0x0\n0 g.ld r6 0x0\n";

const REPORT: &[u8] =
    b"4 0 u.return enter\n5 0 g.li done\n6 0 g.st done\n7 0 g.ld val 0x7\nfree 15\nend\n";

/// A source that gives one byte a read, and doesn't know what is left.
#[derive(Drop)]
struct ByteSource {
    source: MemSource,
}

impl Model for ByteSource {
    ghost use Rattle.pef_io.specs.MemSource.{MemSourceState};

    ghost Value = { MemSourceState };

    ghost view = { λ s. s.source };
}

impl Source for ByteSource {
    ghost use Rattle.std.specs.Prelude.{◌≡◌, [], None};

    ghost taken = { λ s. s.taken };

    ghost ended = { λ s. s.left ≡ [] };

    ghost whole = { λ _. None };

    ghost faults = { λ s. s.faults };

    fn read(&mut self, buf: &mut [u8]) -> Result<usize, Failed> {
        let count = buf.len().min(1);
        self.source.read(&mut buf[..count])
    }
}

/// The number of the one call that fails, if one does.
fn failing(alloc: Global, number: Option<u64>) -> Result<Vec<u64>, AllocError> {
    let mut fails = Vec::new(alloc);
    if let Some(number) = number {
        fails.push(number)?;
    }
    Ok(fails)
}

/// A source of a text, of which one read fails, or none.
fn source_of(alloc: Global, text: &str, fail: Option<u64>) -> Result<MemSource, AllocError> {
    let bytes = text.as_bytes().to_vec(alloc)?;
    Ok(MemSource::build(bytes, failing(alloc, fail)?))
}

/// A sink with room for so many bytes, of which one write fails, or none.
fn sink_of(alloc: Global, room: usize, fail: Option<u64>) -> Result<MemSink, AllocError> {
    MemSink::build(alloc, room, failing(alloc, fail)?)
}

/// A top call with the words that a space separates: compares how it ends and what it writes.
fn ends<S: Source + Drop>(
    rt: &impl Abort,
    alloc: Global,
    words: &str,
    mut source: S,
    mut sink: MemSink,
    outcome: RunOutcome,
    report: &[u8],
) -> Result<(), Fail> {
    let mut list = Vec::new(alloc);
    for word in words.split_whitespace() {
        list.push(String::from_str(alloc, word)?)?;
    }
    assert_eq!(rt;
        pef_run(alloc, &list, &mut source, &mut sink),
        outcome,
        "{words:?}"
    );
    assert_eq!(rt; sink.bytes(), report, "{words:?}");
    Ok(())
}

#[test]
fn a_read_may_fail_at_each_call(rt: HostRuntime) -> Result<(), Fail> {
    let alloc = rt.alloc();
    // A read for each byte, and one at the end.
    let reads = SCRIPT.len() as u64 + 1;
    for number in 0..=reads {
        let source = ByteSource {
            source: source_of(alloc, SCRIPT, Some(number))?,
        };
        let sink = sink_of(alloc, 100, None)?;
        let (status, report) = if number < reads {
            (3, b"".as_slice())
        } else {
            (0, REPORT)
        };
        ends(
            &rt,
            alloc,
            "run",
            source,
            sink,
            RunOutcome::plain(status),
            report,
        )?;
    }
    Ok(())
}

#[test]
fn a_write_may_be_short_at_each_length(rt: HostRuntime) -> Result<(), Fail> {
    let alloc = rt.alloc();
    for room in 0..=REPORT.len() {
        let source = source_of(alloc, SCRIPT, None)?;
        let sink = sink_of(alloc, room, None)?;
        let status = if room < REPORT.len() { 4 } else { 0 };
        ends(
            &rt,
            alloc,
            "run",
            source,
            sink,
            RunOutcome::plain(status),
            &REPORT[..room],
        )?;
    }
    Ok(())
}

#[test]
fn a_write_may_fail_at_each_call(rt: HostRuntime) -> Result<(), Fail> {
    let alloc = rt.alloc();
    // Each line is one write, but the last two are one.
    for (number, report) in [
        (0, ""),
        (1, "4 0 u.return enter\n"),
        (2, "4 0 u.return enter\n5 0 g.li done\n"),
        (3, "4 0 u.return enter\n5 0 g.li done\n6 0 g.st done\n"),
        (
            4,
            "4 0 u.return enter\n5 0 g.li done\n6 0 g.st done\n7 0 g.ld val 0x7\n",
        ),
    ] {
        let source = source_of(alloc, SCRIPT, None)?;
        let sink = sink_of(alloc, 100, Some(number))?;
        ends(
            &rt,
            alloc,
            "run",
            source,
            sink,
            RunOutcome::plain(4),
            report.as_bytes(),
        )?;
    }
    Ok(())
}

#[test]
fn what_comes_first_decides_the_status(rt: HostRuntime) -> Result<(), Fail> {
    let alloc = rt.alloc();
    // The words, then the read, then the script, and then the write.
    for (words, text, read, write, outcome) in [
        ("", SCRIPT, None, None, RunOutcome::plain(2)),
        ("run run", SCRIPT, None, None, RunOutcome::plain(2)),
        ("--help", "", Some(0), Some(0), RunOutcome::plain(2)),
        ("run", "", Some(0), Some(0), RunOutcome::plain(3)),
        ("run", "", None, Some(0), RunOutcome::script_fault(1)),
    ] {
        let source = source_of(alloc, text, read)?;
        let sink = sink_of(alloc, 100, write)?;
        ends(&rt, alloc, words, source, sink, outcome, b"")?;
    }
    Ok(())
}

/// A script of so many command lines.
fn script_of(alloc: Global, lines: u32) -> Result<Vec<u8>, AllocError> {
    let mut text = b"pef 1\nbegin\n".as_slice().to_vec(alloc)?;
    for _ in 0..lines {
        text.extend_from_slice(b"0 go\n")?;
    }
    Ok(text)
}

#[test]
fn a_text_past_a_limit_is_refused(rt: HostRuntime) -> Result<(), Fail> {
    let alloc = rt.alloc();
    let empty = vec![in alloc; b'\n'; SCRIPT_LIMIT + 10]?;
    for (text, line, left, right) in [
        (empty, 1, 16_777_217, 16_777_216),
        (script_of(alloc, 200_001)?, 2, 200_001, 200_000),
    ] {
        let source = MemSource::build(text, Vec::new(alloc));
        let sink = sink_of(alloc, 100, None)?;
        let outcome = RunOutcome {
            status: 6,
            line,
            left,
            right,
        };
        ends(&rt, alloc, "run", source, sink, outcome, b"")?;
    }
    Ok(())
}
