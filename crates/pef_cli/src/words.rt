//! The words are the arguments but the first.

ghost use Rattle.std.specs.Prelude.{◌≡◌, drop, IfOk, IfErr, MatchResult, Err};
ghost use Rattle.std.specs.Vec.Iter.{into_iter_items};
ghost use Rattle.std.specs.IoError.{error_kind};
ghost use Rattle.pef_top.specs.Outcome.{plain};
ghost use Rattle.pef_cli.specs.Words.{no_words};

use pef_top::RunOutcome;
use std::alloc::{AllocError, Global};
use std::env::Args;
use std::io;
use std::io::ErrorKind;

/// The arguments but the first.
fn words_after_name(alloc: Global, args: Args) -> Result<Vec<String>, AllocError>
    ensures { IfOk result (λ words. words.items ≡ drop 1 (into_iter_items args)) }
{
    args.skip(1).collect(alloc)
}

/// The words after the program's name, or the outcome where they can't be had: 2 where an argument is no text, and so no word
/// that the program knows, and 5 where there is no memory or the system gives no arguments.
pub fn words_of(alloc: Global, args: io::Result<Args>) -> Result<Vec<String>, RunOutcome>
    ensures given { IfOk args (λ given.
        MatchResult result (λ words. words.items ≡ drop 1 (into_iter_items given)) (λ outcome. outcome ≡ plain 5)) }
    ensures refused { IfErr args (λ error. result ≡ Err (no_words (error_kind error))) }
{
    match args {
        Ok(args) => match words_after_name(alloc, args) {
            Ok(words) => Ok(words),
            Err(_) => Err(RunOutcome::plain(5)),
        },
        Err(error) if error.kind() == ErrorKind::InvalidData => Err(RunOutcome::plain(2)),
        Err(_) => Err(RunOutcome::plain(5)),
    }
}
