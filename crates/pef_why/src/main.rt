//! Tells in words why standard input is no script: the first faulty line, its text, the cause, and what was expected there.
#![tactic(auto)]

mod expected;
mod shown;
mod text;

use expected::expected;
use pef_io::StdSource;
use pef_script::{Cause, ReadEnd, ScriptFault, check_script};
use pef_top::{InputFault, read_all};
use shown::shown;
use std::alloc::Global;
use std::io;
use std::process::ExitCode;
use text::find_line;

/// A cause in words.
fn cause_text(cause: Cause) -> &'static str {
    match cause {
        Cause::Header => "the first line is another",
        Cause::Word => "a word that may not stand here",
        Cause::Count => "another number of operands",
        Cause::Number => "a number or a register that is not of its form",
        Cause::Range => "a number out of its range",
        Cause::NoBegin => "the text ends before `begin`",
    }
}

/// Why a text is no script.
fn told(alloc: Global, text: &[u8], fault: ScriptFault) -> io::Result<String> {
    let found = find_line(text, fault.line);
    Ok(format!(in alloc;
        "line {}: \"{}\"\ncause: {}\nexpected: {}",
        fault.line,
        shown(alloc, found.line)?,
        cause_text(fault.cause),
        expected(alloc, &found, fault.cause)?
    )?)
}

/// What is said of standard input, and the status that the program would have: 0 stands for a script.
fn answer(rt: &HostRuntime) -> io::Result<(u8, String)> {
    let alloc = rt.alloc();
    let text = match read_all(alloc, &mut StdSource::build(rt.reader())) {
        Ok(text) => text,
        Err(InputFault::Read) => return Ok((3, String::from_str(alloc, "it can't be read")?)),
        Err(InputFault::TooLong) => {
            return Ok((
                6,
                String::from_str(alloc, "it has more than 16,777,216 bytes")?,
            ));
        }
        Err(InputFault::Memory) => return Ok((
            5,
            String::from_str(alloc, "there is no memory for it")?,
        )),
    };
    match check_script(alloc, &text) {
        Ok(_) => Ok((0, String::from_str(alloc, "it is a script")?)),
        Err(ReadEnd::NoMemory) => Ok((5, String::from_str(alloc, "there is no memory for it")?)),
        Err(ReadEnd::Fault(fault)) => Ok((1, told(alloc, &text, fault)?)),
    }
}

fn main(rt: HostRuntime) -> io::Result<ExitCode> {
    let (status, said) = answer(&rt)?;
    println!(rt; "{said}")?;
    Ok(ExitCode::from(status))
}
