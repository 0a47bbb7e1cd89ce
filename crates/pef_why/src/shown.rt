//! A line is shown with what can't be seen in it made visible.

use std::alloc::{AllocError, Global};

/// The most bytes of a line that are shown.
const MOST: usize = 200;

/// The digit of a number below 16.
fn digit(number: u8) -> char {
    match number {
        0..=9 => char::from(b'0' + number),
        10..=15 => char::from(b'a' + (number - 10)),
        _ => '?',
    }
}

/// A line's first bytes: printable ones as they are, a tab as \t, a carriage return as \r, and others as \x and two digits.
pub fn shown(alloc: Global, line: &[u8]) -> Result<String, AllocError> {
    let mut text = String::new(alloc);
    for byte in line.iter().take(MOST) {
        match *byte {
            b'\t' => text.push_str("\\t")?,
            b'\r' => text.push_str("\\r")?,
            b'\\' => text.push_str("\\\\")?,
            b'"' => text.push_str("\\\"")?,
            b' '..=b'~' => text.push(char::from(*byte))?,
            other => {
                text.push_str("\\x")?;
                text.push(digit(other / 16))?;
                text.push(digit(other % 16))?;
            }
        }
    }
    if line.len() > MOST {
        text.push_str("..")?;
    }
    Ok(text)
}
