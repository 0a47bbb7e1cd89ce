//! The usage text names the words that the program knows.

ghost use Rattle.std.specs.Prelude.{◌≡◌, ◌≢◌, []};

use clap::Command;
use std::alloc::{AllocError, Global};

/// What `clap` makes of the words.
fn usage(alloc: Global) -> Result<String, AllocError> {
    let run = Command::new(alloc, "run").about(
        "Reads a script from standard input, runs it and writes its report",
    );
    Command::new(alloc, "pef")
        .about("A proved ultravisor that runs a script and reports every answer")
        .disable_help_flag(true)
        .disable_help_subcommand(true)
        .subcommand_required(true)
        .subcommand(run)?
        .render_help()
}

/// The usage text at status 2, and nothing at another status or where there is no memory for it.
pub fn usage_at(alloc: Global, status: u8) -> Vec<u8>
    ensures { status ≢ 2 → result.items ≡ [] }
{
    if status != 2 {
        return Vec::new(alloc);
    }
    match usage(alloc) {
        Ok(text) => text.into_bytes(),
        Err(_) => Vec::new(alloc),
    }
}
