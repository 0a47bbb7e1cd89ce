//! A command line is kept with both numbers of its pair.

ghost use Rattle.std.specs.Prelude.{◌≡◌};
ghost use Rattle.pef_script.specs.Line.{right_cmd, right_directive};

use pef_model::{Cmd, Directive};
use std::marker::Model;

/// A command line.
#[derive(Clone, Copy, Debug, PartialEq, Eq)]
pub struct Line {
    /// Where it stands in the text, counted from 1.
    pub number: u32,
    /// The CPU that does it, counted from 0.
    pub cpu: u8,
    /// What it tells the CPU to do.
    pub directive: Directive,
}

impl Model for Line {
    ghost use Rattle.pef_model.specs.Script.{Line};

    ghost Value = { Line };

    ghost view = { λ l. record { number = l.number; cpu = l.cpu; directive = l.directive } };

    ghost inverse = { λ l. record { number = l.number; cpu = l.cpu; directive = l.directive } };
}

/// A command line as it is read.
#[derive(Clone, Copy, Debug, PartialEq, Eq)]
pub struct ReadLine {
    /// The line, with the left number of its pair.
    pub line: Line,
    /// The right number of the pair: the left one again where one number stands there, and 0 where no pair may stand.
    pub right: u64,
}

impl Model for ReadLine {
    ghost use Rattle.pef_script.specs.Line.{ReadLine};

    ghost Value = { ReadLine };

    ghost view = { λ l. record { line = l.line; right = l.right } };

    ghost inverse = { λ l. record { line = l.line; right = l.right } };
}

/// A command with this number in the place of the one that a pair gives.
fn right_cmd(right: u64, cmd: Cmd) -> Cmd
    ensures { result ≡ right_cmd right cmd }
{
    match cmd {
        Cmd::GLi { rd, .. } => Cmd::GLi { rd, value: right },
        other => other,
    }
}

/// What a line tells its CPU to do, with this number in the place of the one that a pair gives.
fn right_directive(right: u64, directive: Directive) -> Directive
    ensures { result ≡ right_directive right directive }
{
    match directive {
        Directive::Once(cmd) => Directive::Once(right_cmd(right, cmd)),
        Directive::GoAll => Directive::GoAll,
    }
}

impl ReadLine {
    /// What the line tells its CPU to do, with the right number of its pair in the place of the left one.
    pub fn right_directive(&self) -> Directive
        ensures { result ≡ right_directive self.now.right self.now.line.directive }
    {
        right_directive(self.right, self.line.directive)
    }
}
