//! Runs each script of a folder and compares what is shown of it with the file beside it.
//!
//! `NAME.pef` is a text, and `NAME.report` what `pef run` shows of it: what it writes on standard output, and behind it the line of
//! its fault. The program counts the pairs that agree, and tells of each other one the first difference.
#![tactic(auto)]

mod difference;
mod pair;

use pair::compare;
use std::process::ExitCode;
use std::{fs, io};

/// The names of the texts in the folder that the program runs in, in order.
fn names(rt: &HostRuntime) -> io::Result<Vec<String>> {
    let mut names = Vec::new(rt.alloc());
    for entry in fs::read_dir(rt, ".")? {
        if let Some(name) = entry?.file_name().strip_suffix(".pef") {
            names.push(String::from_str(rt.alloc(), name)?)?;
        }
    }
    names.sort()?;
    Ok(names)
}

fn main(rt: HostRuntime) -> io::Result<ExitCode> {
    let mut agree = 0u64;
    let mut differ = 0u64;
    for name in names(&rt)? {
        match compare(&rt, &name)? {
            None => agree = agree.saturating_add(1),
            Some(difference) => {
                println!(rt; "{name}: {difference}")?;
                differ = differ.saturating_add(1);
            }
        }
    }
    println!(rt; "{agree} agree, {differ} differ")?;
    Ok(ExitCode::from(u8::from(differ > 0)))
}
