//! The top call: a script is read, run and reported, from bytes to bytes.

ghost use Rattle.std.specs.Prelude.{◌≡◌, ◌≢◌, ◌≤◌, ◌↔◌, ℕ, [], ◌∷◌, map, codes, string_bytes, OnOk, IfErr, Err};
ghost use Rattle.pef_io.specs.Cause.{Rose};
ghost use Rattle.pef_top.specs.declared.limits.Limit.{Limit};
ghost use Rattle.pef_top.specs.Fault.{IsFault};
ghost use Rattle.pef_top.specs.Outcome.{IsOutcome, script_fault, limit_passed};
ghost use Rattle.pef_top.specs.Input.{StopsInTime};
ghost use Rattle.pef_top.specs.Top.{Reports, TookNoScript, Passes, Begins, IsUntouched, AnswersAsDue};

use crate::fault::RunFault;
use crate::input::read_all;
use crate::limits::check_limits;
use crate::outcome::RunOutcome;
use crate::run::run_on_machine;
use crate::words::is_run;
use pef_io::{Sink, Source};
use pef_script::check_script;
use std::alloc::Global;

/// Reads a script, runs it and writes its report. Nothing is written before all memory is taken.
fn run_script<S: Source, K: Sink>(
    alloc: Global,
    source: &mut S,
    sink: &mut K,
) -> Result<(), RunFault>
    ensures done { OnOk result
        (Reports (S.ended source.new) (S.taken source.old) (S.taken source.new) (K.given sink.old) (K.given sink.new)) }
    ensures fault { (line : ℕ) → result ≡ Err (RunFault.Script line) →
        TookNoScript (S.ended source.new) (S.taken source.old) (S.taken source.new) (script_fault line) }
    ensures read { result ≡ Err RunFault.Read → Rose (S.faults source.old) (S.faults source.new) }
    ensures write { result ≡ Err RunFault.Write → Rose (K.faults sink.old) (K.faults sink.new) }
    ensures begins { result ≡ Err RunFault.Write →
        Begins (S.ended source.new) (S.taken source.old) (S.taken source.new) (K.given sink.old) (K.given sink.new) }
    ensures limit { (passed : Limit) → result ≡ Err (RunFault.Limit passed) →
        Passes (S.ended source.new) (S.taken source.old) (S.taken source.new) (limit_passed passed) }
    ensures over { IfErr result IsFault }
    ensures untouched { IfErr result (λ e. e ≢ RunFault.Write →
        IsUntouched (K.given sink.old) (K.given sink.new) (K.faults sink.old) (K.faults sink.new)) }
    ensures stops { StopsInTime (S.taken source.old) (S.taken source.new) }
    ensures whole { S.whole source.new ≡ S.whole source.old }
    ensures reads_clean { result ≢ Err RunFault.Read → S.faults source.new ≡ S.faults source.old }
    ensures writes_clean { OnOk result (K.faults sink.new ≡ K.faults sink.old) }
    ensures source { S.faults source.old ≤ S.faults source.new }
    ensures sink { K.faults sink.old ≤ K.faults sink.new }
{
    let text = read_all(alloc, source)?;
    let checked = check_script(alloc, &text)?;
    check_limits(checked.count(), checked.config())?;
    let script = checked.keep(alloc)?;
    run_on_machine(alloc, &script, sink)
}

/// Runs the script that a source gives, and writes its report to a sink.
///
/// What was taken is what the source gave in this call, and what was given is what the sink took in it; nothing is asked of
/// the devices but what `Source` and `Sink` say. The words are those after the program's name. Refusals come in this order: the
/// words; a failed read or a script that is too long, as reading goes; an input that is no script, by its first faulty line;
/// limits 2, 3 and 4; want of memory, which may come wherever memory is taken; a failed write. At a failed write a first part of
/// the report was written, or, where the run has a digest collision, a first part of the lines before the first, or these and
/// more; at every other refusal nothing.
pub fn pef_run<S: Source, K: Sink>(
    alloc: Global,
    words: &[String],
    source: &mut S,
    sink: &mut K,
) -> RunOutcome
    ensures done { result.status ≡ 0 →
        Reports (S.ended source.new) (S.taken source.old) (S.taken source.new) (K.given sink.old) (K.given sink.new) }
    ensures fault { result.status ≡ 1 → TookNoScript (S.ended source.new) (S.taken source.old) (S.taken source.new) result }
    ensures words { (result.status ≡ 2) ↔
        (¬ (map (λ word. string_bytes word) words.now ≡ codes "run" ∷ [])) }
    ensures read { result.status ≡ 3 → Rose (S.faults source.old) (S.faults source.new) }
    ensures write { result.status ≡ 4 → Rose (K.faults sink.old) (K.faults sink.new) }
    ensures begins { result.status ≡ 4 →
        Begins (S.ended source.new) (S.taken source.old) (S.taken source.new) (K.given sink.old) (K.given sink.new) }
    ensures limit { result.status ≡ 6 → Passes (S.ended source.new) (S.taken source.old) (S.taken source.new) result }

    // These are all the statuses, and what the other fields say.
    ensures fields { IsOutcome result }

    // Nothing was written but at 0 and at 4, and nothing was read at 2.
    ensures untouched { result.status ≢ 0 → result.status ≢ 4 →
        IsUntouched (K.given sink.old) (K.given sink.new) (K.faults sink.old) (K.faults sink.new) }
    ensures unread { result.status ≡ 2 →
        IsUntouched (S.taken source.old) (S.taken source.new) (S.faults source.old) (S.faults source.new) }

    // At most one byte more than a script may have was read, and what a source knows of all its bytes stays.
    ensures stops { StopsInTime (S.taken source.old) (S.taken source.new) }
    ensures whole { S.whole source.new ≡ S.whole source.old }

    // A read failed at 3 alone, and a write at 4 alone.
    ensures reads_clean { result.status ≢ 3 → S.faults source.new ≡ S.faults source.old }
    ensures writes_clean { result.status ≢ 4 → K.faults sink.new ≡ K.faults sink.old }
    ensures source { S.faults source.old ≤ S.faults source.new }
    ensures sink { K.faults sink.old ≤ K.faults sink.new }

    // Where the word is `run` and no device failed, the answer is the one due, unless memory is wanting.
    ensures complete { map (λ word. string_bytes word) words.now ≡ codes "run" ∷ [] →
        ¬ (Rose (S.faults source.old) (S.faults source.new)) →
        ¬ (Rose (K.faults sink.old) (K.faults sink.new)) →
        AnswersAsDue (S.ended source.new) (S.taken source.old) (S.taken source.new) result }
{
    if !is_run(words) {
        return RunOutcome::plain(2);
    }
    match run_script(alloc, source, sink) {
        Ok(()) => RunOutcome::plain(0),
        Err(fault) => fault.outcome(),
    }
}

#[cfg(test)]
mod tests;
