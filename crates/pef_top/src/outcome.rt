//! What a top call came to: a status, and what it says.

ghost use Rattle.std.specs.Prelude.{◌≡◌};

use crate::limits::{COMMAND_LIMIT, Limit, MEMORY_LIMIT};

/// The most bytes that a script may have. This project's own.
pub const SCRIPT_LIMIT: usize = 16_777_216;

/// What a top call came to. A field that the status doesn't use is 0.
///
/// | status | comes |
/// |---|---|
/// | 0 | done; the input was read to its end |
/// | 1 | the input is no script: `line` is its first faulty line, from 1 |
/// | 2 | the words are none that the program knows |
/// | 3 | a read failed |
/// | 4 | a write failed; what was written is a first part of the text |
/// | 5 | there was no memory |
/// | 6 | a limit is passed: `line` is its number, `left` what stood, `right` the limit |
#[derive(Clone, Copy, Debug, PartialEq, Eq)]
pub struct RunOutcome {
    pub status: u8,
    pub line: u64,
    pub left: u64,
    pub right: u64,
}

impl RunOutcome {
    ghost use Rattle.pef_top.specs.Outcome.{plain, script_fault, limit_passed};

    /// An outcome that says no more than its status, which is 0 or from 2 to 5.
    pub fn plain(status: u8) -> RunOutcome
        ensures { result ≡ plain status }
    {
        RunOutcome {
            status,
            line: 0,
            left: 0,
            right: 0,
        }
    }

    /// The input is no script: its first faulty line, from 1.
    pub fn script_fault(line: u64) -> RunOutcome
        ensures { result ≡ script_fault line }
    {
        RunOutcome {
            status: 1,
            line,
            left: 0,
            right: 0,
        }
    }

    /// A limit is passed: its number, what stood, and the limit. Of limit 1 stood what was read, one byte past it.
    pub(crate) fn limit_passed(passed: Limit) -> RunOutcome
        ensures { result ≡ limit_passed passed }
    {
        let (line, left, right) = match passed {
            Limit::Script => (1, SCRIPT_LIMIT as u64 + 1, SCRIPT_LIMIT as u64),
            Limit::Commands { count } => (2, count, COMMAND_LIMIT as u64),
            Limit::Frames { bytes } => (3, bytes, MEMORY_LIMIT),
            Limit::Pages { bytes } => (4, bytes, MEMORY_LIMIT),
        };
        RunOutcome {
            status: 6,
            line,
            left,
            right,
        }
    }
}
