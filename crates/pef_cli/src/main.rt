//! The program: `main` hands the arguments and the real devices to `program`, which is proved for any.
#![tactic(auto)]

mod fault;
mod program;
mod usage;
mod words;

use pef_io::{StdSink, StdSource};
use program::program;
use std::process::ExitCode;
use std::{env, io};

fn main(rt: HostRuntime) -> ExitCode {
    program(
        rt.alloc(),
        env::args(&rt),
        &mut StdSource::build(rt.reader()),
        &mut StdSink::build(io::writer(&rt)),
        &mut StdSink::build(rt.stderr()),
    )
}
