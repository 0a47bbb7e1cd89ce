//! The program is the top call on its words, and then the line of its fault.

ghost use Rattle.std.specs.Prelude.{◌≡◌, ◌≢◌, IfOk, IfErr};
ghost use Rattle.std.specs.IoError.{error_kind};
ghost use Rattle.std.specs.Process.{exit_status};
ghost use Rattle.std.specs.Vec.Iter.{into_iter_items};
ghost use Rattle.pef_io.specs.Cause.{Rose};
ghost use Rattle.pef_top.specs.Input.{StopsInTime};
ghost use Rattle.pef_top.specs.Outcome.{IsOutcome};
ghost use Rattle.pef_top.specs.Top.{Reports, TookNoScript, Passes, Begins, IsUntouched, Answers};
ghost use Rattle.pef_cli.specs.Told.{Tells};
ghost use Rattle.pef_cli.specs.Words.{no_words, AnswersWords};
ghost use Rattle.pef_cli.specs.Due.{EndsAsDue, WhereAllWent};

use crate::fault::put_told;
use crate::usage::usage_at;
use crate::words::words_of;
use pef_io::{Sink, Source};
use pef_top::{RunOutcome, pef_run};
use std::alloc::Global;
use std::env::Args;
use std::io;
use std::process::ExitCode;

/// Gives the words to the top call, or the outcome where there are none to give.
fn run<S: Source, K: Sink>(
    alloc: Global,
    args: io::Result<Args>,
    source: &mut S,
    sink: &mut K,
) -> RunOutcome
    ensures done { result.status ≡ 0 →
        Reports (S.ended source.new) (S.taken source.old) (S.taken source.new) (K.given sink.old) (K.given sink.new) }
    ensures fault { result.status ≡ 1 →
        TookNoScript (S.ended source.new) (S.taken source.old) (S.taken source.new) result }
    ensures words { IfOk args (λ given. AnswersWords (into_iter_items given) result.status) }
    ensures no_words { IfErr args (λ error. result ≡ no_words (error_kind error)) }
    ensures read { result.status ≡ 3 → Rose (S.faults source.old) (S.faults source.new) }
    ensures write { result.status ≡ 4 → Rose (K.faults sink.old) (K.faults sink.new) }
    ensures begins { result.status ≡ 4 →
        Begins (S.ended source.new) (S.taken source.old) (S.taken source.new) (K.given sink.old) (K.given sink.new) }
    ensures limit { result.status ≡ 6 →
        Passes (S.ended source.new) (S.taken source.old) (S.taken source.new) result }
    ensures fields { IsOutcome result }
    ensures untouched { result.status ≢ 0 → result.status ≢ 4 →
        IsUntouched (K.given sink.old) (K.given sink.new) (K.faults sink.old) (K.faults sink.new) }
    ensures unread { result.status ≡ 2 →
        IsUntouched (S.taken source.old) (S.taken source.new) (S.faults source.old) (S.faults source.new) }
    ensures stops { StopsInTime (S.taken source.old) (S.taken source.new) }
    ensures reads_clean { result.status ≢ 3 → S.faults source.new ≡ S.faults source.old }
    ensures writes_clean { result.status ≢ 4 → K.faults sink.new ≡ K.faults sink.old }
    ensures complete { IfOk args (λ given.
        WhereAllWent (into_iter_items given) (Rose (S.faults source.old) (S.faults source.new)) (Rose (K.faults sink.old) (K.faults sink.new)) result.status
        (Answers (S.ended source.new) (S.taken source.old) (S.taken source.new) result)) }
{
    match words_of(alloc, args) {
        Ok(words) => pef_run(alloc, &words, source, sink),
        Err(outcome) => outcome,
    }
}

/// The whole program: it runs the top call on its words, writes the line of its fault, and ends with its status.
///
/// The words are the arguments but the first. At status 2 the usage text follows the line, where there is memory for it. Where
/// standard error can't be written either, the status alone says what happened. The statuses and their lines are this project's own.
pub fn program<S: Source, K: Sink, E: Sink>(
    alloc: Global,
    args: io::Result<Args>,
    source: &mut S,
    sink: &mut K,
    errors: &mut E,
) -> ExitCode
    ensures done { exit_status result ≡ 0 →
        Reports (S.ended source.new) (S.taken source.old) (S.taken source.new) (K.given sink.old) (K.given sink.new) }
    ensures words { IfOk args (λ given. AnswersWords (into_iter_items given) (exit_status result)) }
    ensures no_words { IfErr args (λ error. exit_status result ≡ (no_words (error_kind error)).status) }
    ensures read { exit_status result ≡ 3 → Rose (S.faults source.old) (S.faults source.new) }
    ensures write { exit_status result ≡ 4 → Rose (K.faults sink.old) (K.faults sink.new) }
    ensures begins { exit_status result ≡ 4 →
        Begins (S.ended source.new) (S.taken source.old) (S.taken source.new) (K.given sink.old) (K.given sink.new) }

    // Which line is written on standard error, that a line that it tells is the first faulty one of the input, and that a limit
    // that it tells is passed.
    ensures told { Tells (TookNoScript (S.ended source.new) (S.taken source.old) (S.taken source.new))
        (Passes (S.ended source.new) (S.taken source.old) (S.taken source.new))
        result (E.given errors.old) (E.given errors.new) (E.faults errors.old) (E.faults errors.new) }

    ensures untouched { exit_status result ≢ 0 → exit_status result ≢ 4 →
        IsUntouched (K.given sink.old) (K.given sink.new) (K.faults sink.old) (K.faults sink.new) }
    ensures unread { exit_status result ≡ 2 →
        IsUntouched (S.taken source.old) (S.taken source.new) (S.faults source.old) (S.faults source.new) }
    ensures stops { StopsInTime (S.taken source.old) (S.taken source.new) }
    ensures reads_clean { exit_status result ≢ 3 → S.faults source.new ≡ S.faults source.old }
    ensures writes_clean { exit_status result ≢ 4 → K.faults sink.new ≡ K.faults sink.old }

    // Where the word is `run` and no device failed, the status is the one due, unless memory is wanting.
    ensures complete { IfOk args (λ given.
        WhereAllWent (into_iter_items given) (Rose (S.faults source.old) (S.faults source.new)) (Rose (K.faults sink.old) (K.faults sink.new)) (exit_status result)
        (EndsAsDue (S.ended source.new) (S.taken source.old) (S.taken source.new) (exit_status result))) }
{
    let outcome = run(alloc, args, source, sink);
    let usage = usage_at(alloc, outcome.status);
    // Where standard error can't be written either, the status alone says what happened.
    let _ = put_told(errors, outcome, &usage);
    ExitCode::from(outcome.status)
}

#[cfg(test)]
mod tests;
