//! A text that is put is written whole, and at a failure a first part of it.

ghost use Rattle.std.specs.Prelude.{◌≡◌, ◌==◌, ◌≤◌, ◌++◌, false, not, drop, position, decimal, OnErr, OnOk};
ghost use Rattle.std.specs.Fmt.{digits};
ghost use Rattle.pef_io.specs.Cause.{HasCause};
ghost use Rattle.pef_io.specs.Sink.{AppendsPrefix};
ghost use Rattle.pef_io.specs.Text.{joined, value_text};

use crate::{Failed, Sink};
use itoa::Buffer;

const ZERO: u8 = b'0';

/// Writes a whole text.
///
/// It fails where a write of the sink fails, and has then written a first part of the text.
pub fn put<K: Sink>(sink: &mut K, text: &[u8]) -> Result<(), Failed>
    ensures all { OnOk result (K.given sink.new ≡ K.given sink.old ++ text.now) }
    ensures prefix { OnErr result
        (AppendsPrefix (K.given sink.old) (K.given sink.new) text.now) }
    ensures cause { HasCause (K.faults sink.old) (K.faults sink.new) result }
{
    let mut done = 0;
    while done < text.len() {
        done += sink.write(&text[done..])?;
    }
    Ok(())
}

/// Writes pieces of a text one after another. It fails as `put` does.
pub fn put_all<K: Sink>(sink: &mut K, pieces: &[&[u8]]) -> Result<(), Failed>
    ensures all { OnOk result
        (K.given sink.new ≡ K.given sink.old ++ (joined pieces.now)) }
    ensures prefix { OnErr result
        (AppendsPrefix (K.given sink.old) (K.given sink.new) (joined pieces.now)) }
    ensures cause { HasCause (K.faults sink.old) (K.faults sink.new) result }
{
    for piece in pieces {
        put(sink, piece)?;
    }
    Ok(())
}

/// Writes a number in decimal, with no leading zeros. It fails as `put` does.
pub fn put_decimal<K: Sink>(sink: &mut K, number: u64) -> Result<(), Failed>
    ensures all { OnOk result (K.given sink.new ≡ K.given sink.old ++ (decimal number)) }
    ensures prefix { OnErr result
        (AppendsPrefix (K.given sink.old) (K.given sink.new) (decimal number)) }
    ensures cause { HasCause (K.faults sink.old) (K.faults sink.new) result }
{
    put(sink, Buffer::new().format(number).as_bytes())
}

/// Writes a value as `0x` and its hexadecimal digits, in lower case with no leading zeros: this
/// project's own form. It fails as `put` does.
pub fn put_value<K: Sink>(sink: &mut K, value: u64) -> Result<(), Failed>
    ensures all { OnOk result (K.given sink.new ≡ K.given sink.old ++ (value_text value)) }
    ensures prefix { OnErr result
        (AppendsPrefix (K.given sink.old) (K.given sink.new) (value_text value)) }
    ensures cause { HasCause (K.faults sink.old) (K.faults sink.new) result }
{
    let mut text = [0; 16];
    let start = write_hexadecimal(value, &mut text);
    put(sink, b"0x")?;
    put(sink, &text[start..])
}

/// Writes the hexadecimal digits of a value to the end of the text, in lower case with no leading zeros, and says where they
/// start: 0 to 15.
pub fn write_hexadecimal(value: u64, text: &mut [u8; 16]) -> usize
    ensures within { result ≤ 16 }
    ensures digits { drop result text.new ≡ digits 16 false value }
{
    hex::encode_to_slice(value.to_be_bytes(), text).unwrap();
    // The last digit stands even where it is a zero.
    first_digit(text).unwrap_or(15)
}

/// Where the first digit stands that is not a zero, if there is one.
fn first_digit(text: &[u8]) -> Option<usize>
    ensures { result ≡ position (λ digit. not (digit == ZERO)) text.now }
{
    text.iter().position(|digit| *digit != ZERO)
}
