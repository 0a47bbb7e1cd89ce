//! A text is read as the script that it is, and else its first fault is told.

ghost use Rattle.std.specs.Prelude.{◌≡◌, ◌+◌, ◌^◌, ◌≤◌, ◌<◌, [], ◌∷◌, ◌++◌, OnOk, length, MatchOption, IfSome, IfOk};
ghost use Rattle.pef_model.specs.Plan.{default_config};
ghost use Rattle.pef_model.specs.Script.{IsScript};
ghost use Rattle.pef_script.specs.Checked.{count_of};
ghost use Rattle.pef_script.specs.Token.{tokens_of};
ghost use Rattle.pef_script.specs.Script.{lines_of, is_skipped, is_begin, is_first, header_in, commands_in, script_or_fault, left_script, Answers};

use crate::command::read_command;
use crate::fault::{Cause, LineEnd, ReadEnd, ScriptFault};
use crate::line::ReadLine;
use crate::parts::cut_at;
use crate::setting::{Header, read_setting};
use crate::token::next_token;
use pef_model::Config;
use std::alloc::{AllocError, Global};
use std::marker::Model;

/// The first line, and what stands behind it; None where there is none.
pub fn next_line(text: &[u8]) -> Option<(&[u8], &[u8])>
    ensures line { MatchOption result (lines_of text.now ≡ [])
        (λ found. lines_of text.now ≡ found.0.now ∷ lines_of found.1.now) }
    ensures shorter { IfSome result (λ found. length found.1.now < length text.now) }
{
    if text.is_empty() {
        return None;
    }
    match cut_at(text, b'\n') {
        Some((line, rest)) => Some((line, rest)),
        None => Some((text, &[])),
    }
}

/// Whether a line is a comment, or nothing but spaces.
fn skips(line: &[u8]) -> bool
    ensures { result ≡ is_skipped line.now }
{
    line.starts_with(b"#") || next_token(line).is_none()
}

/// Whether a line is `begin`.
fn begins(line: &[u8]) -> bool
    ensures { result ≡ is_begin (tokens_of line.now) }
{
    let Some((name, rest)) = next_token(line) else {
        return false;
    };
    match next_token(rest) {
        Some(_) => false,
        None => name == b"begin".as_slice(),
    }
}

/// Whether a line is a script's first.
fn is_version(line: &[u8]) -> bool
    ensures { result ≡ is_first (tokens_of line.now) }
{
    let Some((name, rest)) = next_token(line) else {
        return false;
    };
    let Some((version, rest)) = next_token(rest) else {
        return false;
    };
    match next_token(rest) {
        Some(_) => false,
        None => name == b"pef".as_slice() && version == b"1".as_slice(),
    }
}

/// The lines of a text that are left: the number of the first, and the text from it on.
#[derive(Drop)]
pub struct Begin<'a> {
    pub config: Config,
    pub number: u32,
    pub rest: &'a [u8],
}

/// The configuration of the lines up to `begin`, and where the next begin.
fn read_header(config: Config, text: &[u8]) -> Result<Begin<'_>, ReadEnd>
    requires { length text.now ≤ 2 ^ 24 }
    ensures header { Answers (λ b. record { config = b.config; number = b.number; rest = lines_of b.rest.now }) result (header_in 2 0 config (lines_of text.now)) }
    ensures room { IfOk result (λ b. b.number + length b.rest.now ≤ 2 + length text.now) }
{
    let mut header = Header { config, place: 0 };
    let mut number = 2;
    let mut rest = text;
    while let Some((line, more)) = next_line(rest) {
        if !skips(line) {
            if begins(line) {
                return Ok(Begin {
                    config: header.config,
                    number: number + 1,
                    rest: more,
                });
            }
            match read_setting(header.place, header.config, line) {
                Ok(next) => header = next,
                Err(LineEnd::Fault(cause)) => return Err(ReadEnd::Fault(ScriptFault {
                    line: number,
                    cause,
                })),
                Err(LineEnd::NoMemory) => return Err(ReadEnd::NoMemory),
            }
        }
        number += 1;
        rest = more;
    }
    Err(ReadEnd::Fault(ScriptFault {
        line: number,
        cause: Cause::NoBegin,
    }))
}

/// How many command lines a text has, the first of whose lines has a number, on a machine with so many CPUs; or the first fault.
fn check_commands(cpus: u8, first: u32, text: &[u8]) -> Result<usize, ScriptFault>
    requires { first + length text.now ≤ 2 ^ 25 }
    ensures count { result ≡ count_of (commands_in cpus first (lines_of text.now)) }
    ensures few { IfOk result (λ count. count ≤ length text.now) }
{
    let mut count = 0;
    let mut number = first;
    let mut rest = text;
    while let Some((line, more)) = next_line(rest) {
        if !skips(line) {
            match read_command(cpus, number, line) {
                Ok(_) => count += 1,
                Err(cause) => return Err(ScriptFault {
                    line: number,
                    cause,
                }),
            }
        }
        number += 1;
        rest = more;
    }
    Ok(count)
}

/// Adds a line at the end.
fn add(found: &mut Vec<ReadLine>, line: ReadLine) -> Result<(), AllocError>
    ensures ok { OnOk result (found.new.items ≡ found.old.items ++ line ∷ []) }
{
    found.push(line)?;
    Ok(())
}

/// The command lines of a text, with memory for so many at first, or the first fault.
fn read_commands(
    alloc: Global,
    count: usize,
    cpus: u8,
    first: u32,
    text: &[u8],
) -> Result<Vec<ReadLine>, ReadEnd>
    requires { first + length text.now ≤ 2 ^ 25 }
    ensures { Answers (λ v. v.items) result (commands_in cpus first (lines_of text.now)) }
{
    let mut found = Vec::with_capacity(alloc, count)?;
    let mut number = first;
    let mut rest = text;
    while let Some((line, more)) = next_line(rest) {
        if !skips(line) {
            match read_command(cpus, number, line) {
                Ok(line) => add(&mut found, line)?,
                Err(cause) => return Err(ReadEnd::Fault(ScriptFault {
                    line: number,
                    cause,
                })),
            }
        }
        number += 1;
        rest = more;
    }
    Ok(found)
}

/// A script that was read.
#[derive(Drop)]
pub struct Script {
    pub config: Config,
    pub lines: Vec<ReadLine>,
}

impl Model for Script {
    ghost use Rattle.pef_script.specs.Script.{ReadScript};

    ghost Value = { ReadScript };

    ghost view = { λ s. record { config = s.config; lines = s.lines.items } };
}

/// A script whose lines were all tried and counted, and are not kept yet; seen as the script that it is.
#[derive(Drop)]
pub struct CheckedScript<'a> {
    config: Config,
    count: usize,
    first: u32,
    rest: &'a [u8],
}

impl<'a> Model for CheckedScript<'a> {
    ghost use Rattle.pef_script.specs.Script.{ReadScript, lines_of, commands_in};
    ghost use Rattle.pef_script.specs.Checked.{checked_lines, IsChecked};

    ghost Value = { ReadScript };

    ghost view = { λ c. record { config = c.config; lines = checked_lines (commands_in c.config.cpus c.first (lines_of c.rest.now)) } };

    ghost invariant = { λ c. IsChecked c.count c.config.cpus c.first c.rest.now };
}

impl<'a> CheckedScript<'a> {
    /// Its configuration.
    pub fn config(&self) -> &Config
        ensures { result.now ≡ self.now.config }
    {
        &self.config
    }

    /// How many command lines it has.
    pub fn count(&self) -> usize
        ensures { result ≡ length self.now.lines }
    {
        self.count
    }

    /// The script with its lines. Refused only where the memory for them is not to be had.
    pub fn keep(self, alloc: Global) -> Result<Script, AllocError>
        ensures { IfOk result (λ s. s ≡ self.entry) }
    {
        match read_commands(alloc, self.count, self.config.cpus, self.first, self.rest) {
            Ok(lines) => Ok(Script {
                config: self.config,
                lines,
            }),
            Err(ReadEnd::NoMemory) => Err(AllocError),
            Err(ReadEnd::Fault(_)) => unreachable!(),
        }
    }
}

/// The script that a text is, with its lines tried and counted; else its first fault.
#[tactic(auto, unfolding(crate::specs::Script::script_or_fault))]
fn check_lines(alloc: Global, text: &[u8]) -> Result<CheckedScript<'_>, ReadEnd>
    requires { length text.now ≤ 2 ^ 24 }
    ensures script { Answers (λ c. c) result (script_or_fault text.now) }
{
    let Some((line, rest)) = next_line(text) else {
        return Err(ReadEnd::Fault(ScriptFault {
            line: 1,
            cause: Cause::Header,
        }));
    };
    if !is_version(line) {
        return Err(ReadEnd::Fault(ScriptFault {
            line: 1,
            cause: Cause::Header,
        }));
    }
    let begin = read_header(Config::with_defaults(alloc), rest)?;
    match check_commands(begin.config.cpus, begin.number, begin.rest) {
        Ok(count) => Ok(CheckedScript {
            config: begin.config,
            count,
            first: begin.number,
            rest: begin.rest,
        }),
        Err(fault) => Err(ReadEnd::Fault(fault)),
    }
}

/// The script that a text of at most 16 MiB is, with its lines tried and counted, and not kept; else its first fault. Memory may be
/// wanting for the guests that are secure from the start and for the entropy words. The grammar is this project's own.
pub fn check_script(alloc: Global, text: &[u8]) -> Result<CheckedScript<'_>, ReadEnd>
    requires { length text.now ≤ 2 ^ 24 }
    ensures script { Answers (λ c. c) result (script_or_fault text.now) }
    ensures is { IfOk result (λ c. IsScript (left_script c)) }
{
    let script = check_lines(alloc, text)?;
    Ok(script)
}

/// The script that a text of at most 16 MiB is; else its first fault. Memory may be wanting as in `check_script`, and for the lines.
pub fn read_script(alloc: Global, text: &[u8]) -> Result<Script, ReadEnd>
    requires { length text.now ≤ 2 ^ 24 }
    ensures script { Answers (λ s. s) result (script_or_fault text.now) }
    ensures is { IfOk result (λ s. IsScript (left_script s)) }
{
    let script = check_script(alloc, text)?.keep(alloc)?;
    Ok(script)
}

#[cfg(test)]
mod tests;
