//! A standard device keeps the bytes that it moved, and counts its failures.

ghost use Rattle.std.specs.Prelude.{◌≡◌, ◌↔◌, ◌≤◌, ◌<◌, ◌++◌, [], false, length, take, IfOk, IsTrue, Ok};
ghost use Rattle.std.specs.Io.KnownBytes.{ReadConsumes, WriteAppends};
ghost use Rattle.pef_io.specs.Cause.{HasCause, count_taken, faults_after};

use crate::faults::FaultCount;
use crate::log::ByteLog;
use crate::{Failed, Sink, Source};
use std::io::{Read, Write};
use std::marker::Model;

/// Standard input, or another reader, as a source that does not tell what is left.
///
/// It counts its faults. The count stays at 2^64 − 1.
#[derive(Drop)]
pub struct StdSource<R> {
    reader: R,
    taken: ByteLog,
    /// Whether the last read that did not fail said that no byte is left.
    ended: bool,
    faults: FaultCount,
}

impl<R> Model for StdSource<R> {
    ghost use Rattle.pef_io.specs.Standard.{StdSourceState};

    ghost Value = { StdSourceState R };

    ghost view = { λ s. record {
      reader = s.reader;
      taken = s.taken.bytes;
      ended = s.ended;
      faults = s.faults.count;
    } };
}

impl<R: Read + Drop> StdSource<R> {
    /// A source over a reader, as `rt.reader()` under `Input`.
    pub fn build(reader: R) -> StdSource<R>
        ensures { result ≡ record { reader = reader; taken = []; ended = false; faults = 0 } }
    {
        StdSource {
            reader,
            taken: ByteLog::new(),
            ended: false,
            faults: FaultCount::zero(),
        }
    }
}

impl<R: Read + Drop> Source for StdSource<R> {
    ghost use Rattle.std.specs.Prelude.{None, IsTrue};

    ghost taken = { λ s. s.taken };

    ghost ended = { λ s. IsTrue s.ended };

    ghost whole = { λ _. None };

    ghost faults = { λ s. s.faults };

    /// One read of the reader. Each of its errors is a fault, an interrupted read too: nothing is
    /// tried again here, so a call comes to its end.
    fn read(&mut self, buf: &mut [u8]) -> Result<usize, Failed>
        ensures bound { IfOk result (λ n. n ≤ length buf.new) }
        ensures taken { self.new.taken ≡ self.old.taken ++ take (count_taken result) buf.new }
        ensures ended { result ≡ Ok 0 → 0 < length buf.new → IsTrue self.new.ended }
        ensures said { IfOk result (λ n. IsTrue self.new.ended ↔ ((n ≡ 0) × (0 < length buf.new))) }
        ensures reader { ReadConsumes (R.remaining self.old.reader) (R.remaining self.new.reader)
            result buf.new }
        ensures counted { self.new.faults ≡ faults_after self.old.faults result }
        ensures cause { HasCause self.old.faults self.new.faults result }
    {
        match self.reader.read(buf) {
            Ok(count) => {
                self.taken.add(&buf[..count]);
                self.ended = count == 0 && !buf.is_empty();
                Ok(count)
            }
            Err(_) => Err(self.faults.fail()),
        }
    }
}

/// Standard output, or another writer, as a sink.
///
/// It counts its faults. The count stays at 2^64 − 1.
#[derive(Drop)]
pub struct StdSink<W> {
    writer: W,
    given: ByteLog,
    faults: FaultCount,
}

impl<W> Model for StdSink<W> {
    ghost use Rattle.pef_io.specs.Standard.{StdSinkState};

    ghost Value = { StdSinkState W };

    ghost view = { λ s. record {
      writer = s.writer;
      given = s.given.bytes;
      faults = s.faults.count;
    } };
}

impl<W: Write + Drop> StdSink<W> {
    /// A sink over a writer, as `io::writer(&rt)` under `Print`.
    pub fn build(writer: W) -> StdSink<W>
        ensures { result ≡ record { writer = writer; given = []; faults = 0 } }
    {
        StdSink {
            writer,
            given: ByteLog::new(),
            faults: FaultCount::zero(),
        }
    }
}

impl<W: Write + Drop> Sink for StdSink<W> {
    ghost given = { λ s. s.given };

    ghost faults = { λ s. s.faults };

    /// One write of the writer. Each of its errors is a fault, an interrupted write too, and so is
    /// an answer that it took nothing of a buffer that is not empty.
    fn write(&mut self, buf: &[u8]) -> Result<usize, Failed>
        ensures bound { IfOk result (λ n. n ≤ length buf.now) }
        ensures some { IfOk result (λ n. 0 < length buf.now → 0 < n) }
        ensures bytes { self.new.given ≡ self.old.given ++ take (count_taken result) buf.now }
        ensures writer { WriteAppends (W.contents self.old.writer) (W.contents self.new.writer)
            result buf.now }
        ensures counted { self.new.faults ≡ faults_after self.old.faults result }
        ensures cause { HasCause self.old.faults self.new.faults result }
    {
        match self.writer.write(buf) {
            Ok(0) if !buf.is_empty() => Err(self.faults.fail()),
            Ok(count) => {
                self.given.add(&buf[..count]);
                Ok(count)
            }
            Err(_) => Err(self.faults.fail()),
        }
    }
}
