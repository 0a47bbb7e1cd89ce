//! A command line is read by the table, and else its fault is told.

ghost use Rattle.std.specs.Prelude.{◌≡◌, ◌+◌, ◌<◌, ◌≤◌, ◌^◌, [], ◌∷◌, length, slice_set};
ghost use Rattle.pef_script.specs.Table.{no_operands};
ghost use Rattle.pef_script.specs.Token.{tokens_of};
ghost use Rattle.pef_script.specs.Command.{with_operand, operands_in, line_in};

use crate::fault::Cause;
use crate::line::{Line, ReadLine};
use crate::number::{parse_number, parse_register};
use crate::table::{Kind, Operands, made, no_operands, row_named};
use crate::token::{count_tokens, next_token, parse_pair};
use pef_model::Reg;

impl Operands {
    /// Puts a number at its place.
    fn put(&mut self, place: usize, number: u64)
        ensures { self.new ≡ record self.old { numbers = slice_set self.old.numbers place number } }
    {
        if place < 11 {
            self.numbers[place] = number;
        }
    }

    /// Puts a register at its place.
    fn put_register(&mut self, place: usize, register: Reg)
        ensures { self.new ≡ record self.old { registers = slice_set self.old.registers place register } }
    {
        if place < 3 {
            self.registers[place] = register;
        }
    }

    /// With one more operand; None where the token isn't of its kind.
    fn with(mut self, kind: Kind, place: usize, token: &[u8]) -> Option<Operands>
        ensures { result ≡ with_operand kind place token.now self }
    {
        match kind {
            Kind::Number => self.put(place, parse_number(token)?),
            Kind::Register => self.put_register(place, parse_register(token)?),
            Kind::Pair => {
                let pair = parse_pair(token)?;
                self.put(place, pair.left);
                self.right = pair.right;
            }
        }
        Some(self)
    }
}

/// The operands of a text's tokens; None where one isn't of its kind.
fn read_operands(kinds: &[Kind], text: &[u8]) -> Option<Operands>
    ensures { result ≡ operands_in 0 kinds.now no_operands (tokens_of text.now) }
{
    let mut operands = no_operands();
    let mut place = 0;
    let mut rest = text;
    while let Some((token, more)) = next_token(rest) {
        let kind = kinds.get(place).copied().unwrap_or(Kind::Number);
        operands = operands.with(kind, place, token)?;
        place += 1;
        rest = more;
    }
    Some(operands)
}

/// The command line of a number and a text, on a machine with so many CPUs, or why it is none.
#[tactic(auto, unfolding(crate::specs::Command::line_in))]
pub fn read_command(cpus: u8, number: u32, text: &[u8]) -> Result<ReadLine, Cause>
    ensures { result ≡ line_in cpus number (tokens_of text.now) }
{
    let (first, rest) = next_token(text).ok_or(Cause::Number)?;
    let cpu = parse_number(first).ok_or(Cause::Number)?;
    let (name, rest) = next_token(rest).ok_or(Cause::Word)?;
    let row = row_named(name).ok_or(Cause::Word)?;
    let count = count_tokens(rest);
    if count < row.kinds.len() || count - row.kinds.len() > row.more {
        return Err(Cause::Count);
    }
    let operands = read_operands(row.kinds, rest).ok_or(Cause::Number)?;
    if cpu >= u64::from(cpus) {
        return Err(Cause::Range);
    }
    Ok(ReadLine {
        line: Line {
            number,
            cpu: cpu as u8,
            directive: made(row.word, &operands),
        },
        right: operands.right,
    })
}
