//! A script is run on a machine, and its report is written as the run goes.

ghost use Rattle.std.specs.Prelude.{◌≡◌, ◌≢◌, ◌≤◌, ◌<◌, ◌+◌, ◌^◌, ◌++◌, false, List, [], ◌∷◌, length, not, ◌||◌, IfOk, IfErr, IfSome, OnErr, OnOk, Err, slice_get};
ghost use Rattle.pef_io.specs.Cause.{Rose, HasCause};
ghost use Rattle.pef_io.specs.Sink.{AppendsPrefix};
ghost use Rattle.pef_model.specs.Plan.{Plan, plan_of};
ghost use Rattle.pef_model.specs.Event.{Event};
ghost use Rattle.pef_model.specs.Run.{is_in_progress, is_again, entry_after, with_directive, run_of};
ghost use Rattle.pef_model.specs.Script.{IsScript};
ghost use Rattle.pef_script.specs.Script.{left_script};
ghost use Rattle.pef_seal.specs.Serves.{Serves};
ghost use Rattle.pef_core.specs.Start.{IsServed};
ghost use Rattle.pef_core.specs.Steps.{Fits, Makes};
ghost use Rattle.pef_top.specs.Text.{Wrote, WrotePart, Writes, WritesPart, frames_text, WroteReport, WroteReportPart};
ghost use Rattle.pef_top.specs.Runs.{FitsIfClean};
ghost use Rattle.pef_model.specs.Sound.{is_clash};
ghost use Rattle.pef_top.specs.Top.{IsUntouched};

use crate::fault::RunFault;
use crate::limits::COMMAND_LIMIT;
use crate::sealers::{stream_sealers, vault_sealers};
use pef_core::Machine;
use pef_io::{Failed, Sink};
use pef_model::{Answer, Cmd, Directive};
use pef_report::{put_end, put_entry, put_frame};
use pef_script::{Line, Script};
use pef_seal::Seal;
use std::alloc::Global;

/// Does a command of a line once, and writes the line of its entry. It fails as `put` does.
fn run_once<S: Seal, K: Sink>(
    machine: &mut Machine<S>,
    line: &Line,
    cmd: &Cmd,
    sink: &mut K,
) -> Result<Answer, Failed>
    requires cpu { line.now.cpu < length machine.old.cpus }
    requires steps { machine.old.steps < 2 ^ 63 }
    ensures made { (plan : Plan) → (past : List Event) → Fits S.stands S.image plan machine.old past → is_clash plan past (entry_after plan past line.now cmd.now) ≡ false →
        IfOk result (Makes S.stands S.image plan machine.new past (entry_after plan past line.now cmd.now)) }
    ensures all { (plan : Plan) → (past : List Event) → FitsIfClean S.stands S.image plan machine.old past →
        OnOk result (Writes plan (K.given sink.old) (K.given sink.new) past (entry_after plan past line.now cmd.now ∷ past)) }
    ensures prefix { (plan : Plan) → (past : List Event) → FitsIfClean S.stands S.image plan machine.old past →
        OnErr result (WritesPart plan (K.given sink.old) (K.given sink.new) past (entry_after plan past line.now cmd.now ∷ past)) }
    ensures cause { HasCause (K.faults sink.old) (K.faults sink.new) result }
    ensures count { machine.new.steps ≡ machine.old.steps + 1 }
    ensures cpus { length machine.new.cpus ≡ length machine.old.cpus }
{
    let answer = machine.step(line.cpu, cmd);
    put_entry(sink, u64::from(line.number), line.cpu, cmd, &answer)?;
    Ok(answer)
}

/// Whether `go*` ends with a step of a CPU, which is below the number of CPUs: no call is in progress after it, or it answers
/// that nothing can be done, at present or in such a call.
fn ends_all<S: Seal>(machine: &Machine<S>, cpu: u8, answer: &Answer) -> bool
    requires { cpu < length machine.now.cpus }
    ensures { IfSome (slice_get machine.now.cpus cpu) (λ own. result ≡ (not (is_in_progress own.ctx) || is_again answer.now)) }
{
    !machine.is_in_progress(cpu) || matches!(answer, Answer::Again | Answer::Context)
}

/// Does `go` on a line's CPU again and again, until no call is in progress or nothing can be done at present, and writes
/// the line of each entry. It fails as `put` does.
fn run_all<S: Seal, K: Sink>(
    machine: &mut Machine<S>,
    pages: u32,
    line: &Line,
    sink: &mut K,
) -> Result<(), Failed>
    requires cpu { line.now.cpu < length machine.old.cpus }
    requires few { pages ≤ 1024 }
    requires steps { machine.old.steps + 1028 ≤ 2 ^ 63 }
    ensures fits { (plan : Plan) → (past : List Event) → plan.pages ≡ pages → FitsIfClean S.stands S.image plan machine.old past →
        OnOk result (FitsIfClean S.stands S.image plan machine.new (with_directive plan past line.now Directive.GoAll)) }
    ensures all { (plan : Plan) → (past : List Event) → plan.pages ≡ pages → FitsIfClean S.stands S.image plan machine.old past →
        OnOk result (Writes plan (K.given sink.old) (K.given sink.new) past (with_directive plan past line.now Directive.GoAll)) }
    ensures prefix { (plan : Plan) → (past : List Event) → plan.pages ≡ pages → FitsIfClean S.stands S.image plan machine.old past →
        OnErr result (WritesPart plan (K.given sink.old) (K.given sink.new) past (with_directive plan past line.now Directive.GoAll)) }
    ensures cause { HasCause (K.faults sink.old) (K.faults sink.new) result }
    ensures count { machine.new.steps ≤ machine.old.steps + 1028 }
    ensures cpus { length machine.new.cpus ≡ length machine.old.cpus }
{
    for _done in 0..pages + 4 {
        let answer = run_once(machine, line, &Cmd::Go, sink)?;
        if ends_all(machine, line.cpu, &answer) {
            return Ok(());
        }
    }
    Ok(())
}

/// Does the directive of a line, and writes the line of each entry. It fails as `put` does.
fn run_line<S: Seal, K: Sink>(
    machine: &mut Machine<S>,
    pages: u32,
    line: &Line,
    sink: &mut K,
) -> Result<(), Failed>
    requires cpu { line.now.cpu < length machine.old.cpus }
    requires few { pages ≤ 1024 }
    requires steps { machine.old.steps + 1028 ≤ 2 ^ 63 }
    ensures fits { (plan : Plan) → (past : List Event) → plan.pages ≡ pages → FitsIfClean S.stands S.image plan machine.old past →
        OnOk result (FitsIfClean S.stands S.image plan machine.new (with_directive plan past line.now line.now.directive)) }
    ensures all { (plan : Plan) → (past : List Event) → plan.pages ≡ pages → FitsIfClean S.stands S.image plan machine.old past →
        OnOk result (Writes plan (K.given sink.old) (K.given sink.new) past (with_directive plan past line.now line.now.directive)) }
    ensures prefix { (plan : Plan) → (past : List Event) → plan.pages ≡ pages → FitsIfClean S.stands S.image plan machine.old past →
        OnErr result (WritesPart plan (K.given sink.old) (K.given sink.new) past (with_directive plan past line.now line.now.directive)) }
    ensures cause { HasCause (K.faults sink.old) (K.faults sink.new) result }
    ensures count { machine.new.steps ≤ machine.old.steps + 1028 }
    ensures cpus { length machine.new.cpus ≡ length machine.old.cpus }
{
    match &line.directive {
        Directive::Once(cmd) => {
            run_once(machine, line, cmd, sink)?;
            Ok(())
        }
        Directive::GoAll => run_all(machine, pages, line, sink),
    }
}

/// Does the lines of a script one after another, and writes the line of each. It fails as `put` does.
fn run_commands<S: Seal, K: Sink>(
    machine: &mut Machine<S>,
    script: &Script,
    sink: &mut K,
) -> Result<(), Failed>
    requires fits { Fits S.stands S.image (plan_of script.now.config) machine.old [] }
    requires steps { machine.old.steps ≡ 0 }
    requires script { IsScript (left_script script.now) }
    requires few { length script.now.lines ≤ COMMAND_LIMIT }
    ensures fits { OnOk result (FitsIfClean S.stands S.image (plan_of script.now.config) machine.new (run_of (left_script script.now))) }
    ensures all { OnOk result (Wrote (plan_of script.now.config) (K.given sink.old) (K.given sink.new) (run_of (left_script script.now))) }
    ensures prefix { OnErr result (WrotePart (plan_of script.now.config) (K.given sink.old) (K.given sink.new) (run_of (left_script script.now))) }
    ensures cause { HasCause (K.faults sink.old) (K.faults sink.new) result }
{
    for line in &script.lines {
        run_line(machine, script.config.pages, &line.line, sink)?;
    }
    Ok(())
}

/// Writes the lines of a machine's normal frames in order. It fails as `put` does.
fn put_frames<S: Seal, K: Sink>(machine: &Machine<S>, sink: &mut K) -> Result<(), Failed>
    ensures all { OnOk result
        (K.given sink.new ≡ K.given sink.old ++ frames_text machine.now.normal.frames) }
    ensures prefix { OnErr result
        (AppendsPrefix (K.given sink.old) (K.given sink.new) (frames_text machine.now.normal.frames)) }
    ensures cause { HasCause (K.faults sink.old) (K.faults sink.new) result }
{
    for number in 0..machine.normal() {
        put_frame(sink, number, machine.frame(number).bytes())?;
    }
    Ok(())
}

/// Runs a script on its machine, which has done nothing yet, and writes the report. It fails as `put` does.
fn write_report<S: Seal, K: Sink>(
    machine: &mut Machine<S>,
    script: &Script,
    sink: &mut K,
) -> Result<(), Failed>
    requires fits { Fits S.stands S.image (plan_of script.now.config) machine.old [] }
    requires steps { machine.old.steps ≡ 0 }
    requires script { IsScript (left_script script.now) }
    requires few { length script.now.lines ≤ COMMAND_LIMIT }
    ensures all { OnOk result
        (WroteReport (left_script script.now) (K.given sink.old) (K.given sink.new)) }
    ensures prefix { OnErr result
        (WroteReportPart (left_script script.now) (K.given sink.old) (K.given sink.new)) }
    ensures cause { HasCause (K.faults sink.old) (K.faults sink.new) result }
{
    run_commands(machine, script, sink)?;
    put_frames(machine, sink)?;
    put_end(sink, machine.free())
}

/// Runs a script on the machine of its configuration, with a sealer for each guest in order of lpid, and writes the report.
/// Nothing is written before all memory is taken. The faults are that there is no memory, and that a write failed.
fn run_sealed<S: Seal, K: Sink>(
    alloc: Global,
    script: &Script,
    sealers: Vec<S>,
    sink: &mut K,
) -> Result<(), RunFault>
    requires script { IsScript (left_script script.now) }
    requires few { length script.now.lines ≤ COMMAND_LIMIT }
    requires sealers { IsServed script.now.config S.image S.takes sealers.items }
    ensures all { OnOk result
        (WroteReport (left_script script.now) (K.given sink.old) (K.given sink.new)) }
    ensures prefix { result ≡ Err RunFault.Write →
        WroteReportPart (left_script script.now) (K.given sink.old) (K.given sink.new) }
    ensures write { result ≡ Err RunFault.Write → Rose (K.faults sink.old) (K.faults sink.new) }
    ensures memory { IfErr result (λ e. e ≢ RunFault.Write → e ≡ RunFault.Memory) }
    ensures untouched { IfErr result (λ e. e ≢ RunFault.Write →
        IsUntouched (K.given sink.old) (K.given sink.new) (K.faults sink.old) (K.faults sink.new)) }
    ensures clean { OnOk result (K.faults sink.new ≡ K.faults sink.old) }
    ensures sink { K.faults sink.old ≤ K.faults sink.new }
{
    let mut machine = Machine::build(alloc, &script.config, sealers)?;
    write_report(&mut machine, script, sink)?;
    Ok(())
}

/// Runs a script on the machine of its configuration, by the seal that it names, and writes the report. Nothing is written
/// before all memory is taken. The faults are that there is no memory, and that a write failed.
pub fn run_on_machine<K: Sink>(alloc: Global, script: &Script, sink: &mut K) -> Result<(), RunFault>
    requires script { IsScript (left_script script.now) }
    requires few { length script.now.lines ≤ COMMAND_LIMIT }
    ensures all { OnOk result
        (WroteReport (left_script script.now) (K.given sink.old) (K.given sink.new)) }
    ensures prefix { result ≡ Err RunFault.Write →
        WroteReportPart (left_script script.now) (K.given sink.old) (K.given sink.new) }
    ensures write { result ≡ Err RunFault.Write → Rose (K.faults sink.old) (K.faults sink.new) }
    ensures memory { IfErr result (λ e. e ≢ RunFault.Write → e ≡ RunFault.Memory) }
    ensures untouched { IfErr result (λ e. e ≢ RunFault.Write →
        IsUntouched (K.given sink.old) (K.given sink.new) (K.faults sink.old) (K.faults sink.new)) }
    ensures clean { OnOk result (K.faults sink.new ≡ K.faults sink.old) }
    ensures sink { K.faults sink.old ≤ K.faults sink.new }
{
    if script.config.vault {
        run_sealed(alloc, script, vault_sealers(alloc, &script.config)?, sink)
    } else {
        run_sealed(alloc, script, stream_sealers(alloc, &script.config)?, sink)
    }
}
