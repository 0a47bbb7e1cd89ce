//! A word is read as a number or a register exactly where the grammar has it as one.

ghost use Rattle.std.specs.Prelude.{◌≡◌, ◌≤◌};
ghost use Rattle.pef_model.specs.Words.{numeral_in, number_in, register_in};

use pef_model::Reg;

/// The number that the digits of a radix write; None without a digit, with more than `most`, with another byte or
/// from 2^64 on.
fn parse_numeral(digits: &[u8], radix: u32, most: usize) -> Option<u64>
    requires lowest { 2 ≤ radix }
    requires highest { radix ≤ 36 }
    ensures { result ≡ numeral_in radix most digits.now }
{
    if digits.is_empty() || digits.len() > most {
        return None;
    }
    let mut number = 0u64;
    for digit in digits {
        let value = char::from(*digit).to_digit(radix)?;
        number = number
            .checked_mul(u64::from(radix))?
            .checked_add(u64::from(value))?;
    }
    Some(number)
}

/// A number in decimal, or in hexadecimal after 0x; None where the word is none below 2^64.
pub fn parse_number(word: &[u8]) -> Option<u64>
    ensures { result ≡ number_in word.now }
{
    match word.strip_prefix(b"0x") {
        Some(digits) => parse_numeral(digits, 16, 16),
        None => parse_numeral(word, 10, 20),
    }
}

/// A register from r0 to r31; None where the word is none, as with a leading zero.
pub fn parse_register(word: &[u8]) -> Option<Reg>
    ensures { result ≡ register_in word.now }
{
    let digits = word.strip_prefix(b"r")?;
    if digits.len() > 1 && digits.starts_with(b"0") {
        return None;
    }
    let number = parse_numeral(digits, 10, 2)?;
    Reg::new(u8::try_from(number).ok()?)
}
