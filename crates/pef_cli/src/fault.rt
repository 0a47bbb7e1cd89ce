//! Each status but 0 has one line on standard error, and status 2 the usage text behind it.

ghost use Rattle.std.specs.Prelude.{◌≡◌, ◌++◌, OnErr, OnOk};
ghost use Rattle.pef_io.specs.Cause.{HasCause};
ghost use Rattle.pef_io.specs.Sink.{AppendsPrefix};
ghost use Rattle.pef_top.specs.FaultLine.{fault_text};

use pef_io::{Failed, Sink, put};
use pef_top::{RunOutcome, put_fault};

/// Writes the line of an outcome, and a text behind it. It fails as `put` does.
pub fn put_told<K: Sink>(sink: &mut K, outcome: RunOutcome, usage: &[u8]) -> Result<(), Failed>
    ensures all { OnOk result (K.given sink.new ≡ K.given sink.old ++ (fault_text outcome ++ usage.now)) }
    ensures prefix { OnErr result
        (AppendsPrefix (K.given sink.old) (K.given sink.new) (fault_text outcome ++ usage.now)) }
    ensures cause { HasCause (K.faults sink.old) (K.faults sink.new) result }
{
    put_fault(sink, outcome)?;
    put(sink, usage)
}
