//! The lines of a report.

ghost use Rattle.std.specs.Prelude.{◌≡◌, ◌+◌, ◌≤◌, ◌++◌, length, codes, decimal, OnErr, OnOk};
ghost use Rattle.hex.specs.Hex.{encode_lower};
ghost use Rattle.sha2.specs.Sha256.{sha256};
ghost use Rattle.pef_io.specs.Cause.{HasCause};
ghost use Rattle.pef_io.specs.Sink.{AppendsPrefix};
ghost use Rattle.pef_model.specs.Report.{answer_text, is_zero, frame_line, free_text};
ghost use Rattle.pef_report.specs.Text.{line_text};

use crate::line::LineText;
use crate::names::{name_of, name_of_code, name_of_hypercall};
use pef_io::{Failed, Sink, put};
use pef_model::{Answer, Cmd, Exit};
use sha2::{Digest, Sha256};

/// Adds an answer: at most 24 bytes.
fn push_answer(line: &mut LineText, answer: &Answer)
    requires { length line.old + 24 ≤ 96 }
    ensures text { line.new ≡ line.old ++ answer_text answer.now }
    ensures len { length line.new ≤ length line.old + 24 }
{
    match answer {
        Answer::Done => line.push(b"done"),
        Answer::Val(value) => {
            line.push(b"val ");
            line.push_value(*value);
        }
        Answer::Ret(code) => {
            line.push(b"ret ");
            line.push(name_of_code(*code));
        }
        Answer::Step => line.push(b"step"),
        Answer::Enter => line.push(b"enter"),
        Answer::Exit(Exit::Normal) => line.push(b"exit normal"),
        Answer::Exit(Exit::Irq) => line.push(b"exit irq"),
        Answer::Exit(Exit::Hcall(number)) => {
            line.push(b"exit ");
            line.push(name_of_hypercall(*number));
        }
        Answer::Again => line.push(b"again"),
        Answer::Gone => line.push(b"gone"),
        Answer::Hole => line.push(b"hole"),
        Answer::Context => line.push(b"context"),
        Answer::Nothing => line.push(b"nothing"),
    }
}

/// The line of an entry.
fn entry_line(line: u64, cpu: u8, cmd: &Cmd, answer: &Answer) -> LineText
    ensures { result ≡ line_text line cpu cmd.now answer.now }
{
    let mut text = LineText::new();
    text.push_decimal(line);
    text.push(b" ");
    text.push_decimal(u64::from(cpu));
    text.push(b" ");
    text.push(name_of(cmd));
    text.push(b" ");
    push_answer(&mut text, answer);
    text.push(b"\n");
    text
}

/// Writes the line of an entry with one `put`: the script's line from 1, the CPU from 0, the command's name, the answer. It fails
/// as `put` does. The form is this project's own.
pub fn put_entry<K: Sink>(
    sink: &mut K,
    line: u64,
    cpu: u8,
    cmd: &Cmd,
    answer: &Answer,
) -> Result<(), Failed>
    ensures all { OnOk result
        (K.given sink.new ≡ K.given sink.old ++ line_text line cpu cmd.now answer.now) }
    ensures prefix { OnErr result
        (AppendsPrefix (K.given sink.old) (K.given sink.new) (line_text line cpu cmd.now answer.now)) }
    ensures cause { HasCause (K.faults sink.old) (K.faults sink.new) result }
{
    put(sink, entry_line(line, cpu, cmd, answer).as_slice())
}

/// Whether a frame's bytes are all zero.
fn is_blank(bytes: &[u8]) -> bool
    ensures { result ≡ is_zero bytes.now }
{
    bytes.iter().all(|byte| *byte == 0)
}

/// Writes the SHA-256 of a frame's bytes over a text, in lower-case hexadecimal.
fn write_digest(bytes: &[u8], text: &mut [u8; 64])
    ensures { text.new ≡ encode_lower (sha256 bytes.now) }
{
    hex::encode_to_slice(Sha256::digest(bytes), text).unwrap();
}

/// The line of a normal frame that isn't all zero.
fn digest_line(number: u32, bytes: &[u8]) -> LineText
    ensures { result ≡ codes "frame " ++ (decimal number ++ (codes " " ++ (encode_lower (sha256 bytes.now) ++ codes "\n"))) }
{
    let mut digest = [0; 64];
    write_digest(bytes, &mut digest);
    let mut text = LineText::new();
    text.push(b"frame ");
    text.push_decimal(u64::from(number));
    text.push(b" ");
    text.push(&digest);
    text.push(b"\n");
    text
}

/// Writes the line of a normal frame with one `put`: its number, and the SHA-256 of its bytes in lower-case hexadecimal. Of a
/// frame that is all zero it writes nothing. It fails as `put` does. The form is this project's own.
pub fn put_frame<K: Sink>(sink: &mut K, number: u32, bytes: &[u8]) -> Result<(), Failed>
    ensures all { OnOk result
        (K.given sink.new ≡ K.given sink.old ++ frame_line number bytes.now) }
    ensures prefix { OnErr result
        (AppendsPrefix (K.given sink.old) (K.given sink.new) (frame_line number bytes.now)) }
    ensures cause { HasCause (K.faults sink.old) (K.faults sink.new) result }
{
    if is_blank(bytes) {
        return Ok(());
    }
    put(sink, digest_line(number, bytes).as_slice())
}

/// The end of a report.
fn end_text(free: u32) -> LineText
    ensures { result ≡ free_text free }
{
    let mut text = LineText::new();
    text.push(b"free ");
    text.push_decimal(u64::from(free));
    text.push(b"\nend\n");
    text
}

/// Writes the end of a report with one `put`: the number of free secure frames, and `end`. It fails as `put` does. The form is
/// this project's own.
pub fn put_end<K: Sink>(sink: &mut K, free: u32) -> Result<(), Failed>
    ensures all { OnOk result
        (K.given sink.new ≡ K.given sink.old ++ free_text free) }
    ensures prefix { OnErr result
        (AppendsPrefix (K.given sink.old) (K.given sink.new) (free_text free)) }
    ensures cause { HasCause (K.faults sink.old) (K.faults sink.new) result }
{
    put(sink, end_text(free).as_slice())
}

#[cfg(test)]
mod tests;
