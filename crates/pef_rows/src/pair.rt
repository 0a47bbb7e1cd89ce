//! A text and what is to be shown of it.

use crate::difference::first_difference;
use pef_io::{MemSink, MemSource};
use pef_top::{pef_run, put_fault};
use std::alloc::Global;
use std::{fs, io};

/// What is shown beyond what is wanted, in bytes, so that a difference at the end is told as it is.
const ROOM: usize = 1000;

/// What `pef run` shows of a text: its report and the line of its fault, up to `room` bytes.
fn shown(alloc: Global, text: Vec<u8>, room: usize) -> io::Result<MemSink> {
    let mut words = Vec::new(alloc);
    words.push(String::from_str(alloc, "run")?)?;
    let mut source = MemSource::build(text, Vec::new(alloc));
    let mut sink = MemSink::build(alloc, room, Vec::new(alloc))?;
    let outcome = pef_run(alloc, &words, &mut source, &mut sink);
    // A sink that is full shows a difference by itself.
    let _ = put_fault(&mut sink, outcome);
    Ok(sink)
}

/// The first difference between what is shown of the text of this name and what is wanted, or nothing.
pub fn compare(rt: &HostRuntime, name: &str) -> io::Result<Option<String>> {
    let alloc = rt.alloc();
    let text = fs::read(rt, format!(in alloc; "{name}.pef")?)?;
    let wanted = fs::read(rt, format!(in alloc; "{name}.report")?)?;
    let sink = shown(alloc, text, wanted.len().saturating_add(ROOM))?;
    Ok(first_difference(alloc, &wanted, sink.bytes())?)
}
