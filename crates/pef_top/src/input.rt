//! The input is read to its end, or to one byte past its limit.

ghost use Rattle.std.specs.Prelude.{◌≡◌, ◌≢◌, ◌≤◌, length, IfOk, IfErr, Err};
ghost use Rattle.pef_top.specs.Input.{TookAll, StopsInTime, HasFault};

use crate::outcome::SCRIPT_LIMIT;
use pef_io::Source;
use std::alloc::{AllocError, Global};

/// How many bytes one read asks for.
const BUFFER: usize = 4096;

/// Why the input was not read to its end.
#[derive(Clone, Copy, Debug, PartialEq, Eq)]
pub enum InputFault {
    /// A read failed.
    Read,
    /// There are more bytes than a script may have.
    TooLong,
    /// There was no memory.
    Memory,
}

impl From<AllocError> for InputFault {
    ghost use Rattle.pef_top.specs.declared.input.InputFault.TheVariants.{Memory};

    ghost from_gives = { λ _ e. e ≡ Memory };

    fn from(_: AllocError) -> InputFault {
        InputFault::Memory
    }
}

/// All bytes of a source. Reading stops one byte past the limit.
pub fn read_all<S: Source>(alloc: Global, source: &mut S) -> Result<Vec<u8>, InputFault>
    ensures all { IfOk result (λ text.
        TookAll (S.ended source.new) (S.taken source.old) (S.taken source.new) text.items) }
    ensures limit { IfOk result (λ text. length text.items ≤ SCRIPT_LIMIT) }
    ensures stops { StopsInTime (S.taken source.old) (S.taken source.new) }
    ensures whole { S.whole source.new ≡ S.whole source.old }
    ensures fault { IfErr result
        (HasFault (S.taken source.old) (S.taken source.new) (S.faults source.old) (S.faults source.new)) }
    ensures clean { result ≢ Err InputFault.Read → S.faults source.new ≡ S.faults source.old }
    ensures never_falls { S.faults source.old ≤ S.faults source.new }
{
    let mut text = Vec::new(alloc);
    let mut buffer = [0u8; BUFFER];
    // Each read but the last takes a byte.
    for _ in 0..SCRIPT_LIMIT + 2 {
        let room = (SCRIPT_LIMIT + 1 - text.len()).min(BUFFER);
        let Ok(count) = source.read(&mut buffer[..room]) else {
            return Err(InputFault::Read);
        };
        if count == 0 {
            return Ok(text);
        }
        text.extend_from_slice(&buffer[..count])?;
        if text.len() > SCRIPT_LIMIT {
            return Err(InputFault::TooLong);
        }
    }
    unreachable!()
}
