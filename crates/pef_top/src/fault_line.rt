//! Each status but 0 has a line that says what a top call came to.

ghost use Rattle.std.specs.Prelude.{◌≡◌, ◌++◌, OnErr, OnOk};
ghost use Rattle.pef_io.specs.Cause.{HasCause};
ghost use Rattle.pef_io.specs.Sink.{AppendsPrefix};
ghost use Rattle.pef_top.specs.FaultLine.{fault_text, limit_text, script_text};

use crate::outcome::RunOutcome;
use itoa::Buffer;
use pef_io::{Failed, Sink, put, put_all};

/// Writes the line of a status from 1 to 6, and nothing at 0. It fails as `put` does. The lines are this project's own.
pub fn put_fault<K: Sink>(sink: &mut K, outcome: RunOutcome) -> Result<(), Failed>
    ensures all { OnOk result (K.given sink.new ≡ K.given sink.old ++ fault_text outcome) }
    ensures prefix { OnErr result
        (AppendsPrefix (K.given sink.old) (K.given sink.new) (fault_text outcome)) }
    ensures cause { HasCause (K.faults sink.old) (K.faults sink.new) result }
{
    match outcome.status {
        1 => put_script_fault(sink, outcome.line),
        2 => put(sink, b"pef: words\n"),
        3 => put(sink, b"pef: read fault\n"),
        4 => put(sink, b"pef: write fault\n"),
        5 => put(sink, b"pef: no memory\n"),
        6 => put_limit(sink, outcome),
        _ => Ok(()),
    }
}

/// Writes the line of an input that is no script. It fails as `put` does.
fn put_script_fault<K: Sink>(sink: &mut K, line: u64) -> Result<(), Failed>
    ensures all { OnOk result (K.given sink.new ≡ K.given sink.old ++ script_text line) }
    ensures prefix { OnErr result
        (AppendsPrefix (K.given sink.old) (K.given sink.new) (script_text line)) }
    ensures cause { HasCause (K.faults sink.old) (K.faults sink.new) result }
{
    let mut digits = Buffer::new();
    put_all(
        sink,
        &[
            b"pef: script fault at line ",
            digits.format(line).as_bytes(),
            b"\n",
        ],
    )
}

/// Writes the line of a limit that is passed. It fails as `put` does.
fn put_limit<K: Sink>(sink: &mut K, outcome: RunOutcome) -> Result<(), Failed>
    ensures all { OnOk result (K.given sink.new ≡ K.given sink.old ++ limit_text outcome) }
    ensures prefix { OnErr result
        (AppendsPrefix (K.given sink.old) (K.given sink.new) (limit_text outcome)) }
    ensures cause { HasCause (K.faults sink.old) (K.faults sink.new) result }
{
    let mut limit = Buffer::new();
    let mut stood = Buffer::new();
    let mut most = Buffer::new();
    put_all(
        sink,
        &[
            b"pef: limit ",
            limit.format(outcome.line).as_bytes(),
            b": ",
            stood.format(outcome.left).as_bytes(),
            b" over ",
            most.format(outcome.right).as_bytes(),
            b"\n",
        ],
    )
}
