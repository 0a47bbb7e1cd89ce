//! A line is put together in a buffer before it is written.

ghost use Rattle.std.specs.Prelude.{◌≡◌, ◌+◌, ◌≤◌, ◌++◌, [], length, decimal};
ghost use Rattle.pef_model.specs.Report.{value_text};

use itoa::Buffer;
use pef_io::write_hexadecimal;
use std::marker::Model;

/// A text of at most 96 bytes, seen as these bytes. The longest line of a report, that of a frame, has 82.
#[derive(Drop)]
pub struct LineText {
    bytes: [u8; 96],
    len: usize,
}

impl Model for LineText {
    ghost use Rattle.std.specs.Prelude.{ℕ, List, take, ◌≤◌};

    ghost Value = { List ℕ };

    ghost view = { λ l. take l.len l.bytes };

    ghost invariant = { λ l. l.len ≤ 96 };
}

impl LineText {
    /// An empty text.
    pub fn new() -> LineText
        ensures { result ≡ [] }
    {
        LineText {
            bytes: [0; 96],
            len: 0,
        }
    }

    /// Its bytes.
    pub fn as_slice(&self) -> &[u8]
        ensures { result.now ≡ self.now }
    {
        &self.bytes[..self.len]
    }

    /// Adds a text at the end.
    pub fn push(&mut self, text: &[u8])
        requires { length self.old + length text.now ≤ 96 }
        ensures text { self.new ≡ self.old ++ text.now }
        ensures len { length self.new ≡ length self.old + length text.now }
    {
        let end = self.len + text.len();
        self.bytes[self.len..end].copy_from_slice(text);
        self.len = end;
    }

    /// Adds a number in decimal, with no leading zeros: at most 20 bytes.
    pub fn push_decimal(&mut self, number: u64)
        requires { length self.old + 20 ≤ 96 }
        ensures text { self.new ≡ self.old ++ decimal number }
        ensures len { length self.new ≤ length self.old + 20 }
    {
        self.push(Buffer::new().format(number).as_bytes());
    }

    /// Adds a value as `0x` and its hexadecimal digits, in lower case with no leading zeros: at most 18 bytes.
    pub fn push_value(&mut self, value: u64)
        requires { length self.old + 18 ≤ 96 }
        ensures text { self.new ≡ self.old ++ value_text value }
        ensures len { length self.new ≤ length self.old + 18 }
    {
        let mut text = [0; 16];
        let start = write_hexadecimal(value, &mut text);
        self.push(b"0x");
        self.push(&text[start..]);
    }
}
