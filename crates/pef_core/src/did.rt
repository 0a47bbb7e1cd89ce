//! What a step did is what its entry tells.

ghost use Rattle.std.specs.Prelude.{◌≡◌, ℕ, Option, slice_index};
ghost use Rattle.pef_model.specs.declared.hypercall.TheConstants.{HCALLS};
ghost use Rattle.pef_model.specs.Registers.{arguments};
ghost use Rattle.pef_model.specs.Hypercalls.{row_of};
ghost use Rattle.pef_model.specs.StepLaw.{let_out_running, let_out_calling};
ghost use Rattle.pef_core.specs.Did.{pool_seen, shown_of};

use pef_calls::hcalls;
use pef_guest::{Cpu, registers};
use pef_model::{Answer, Cmd, Ctx, Exit, Exposed, PoolSaw, Saw};

/// What a step did: its command, its answer, and what it saw beside the object at which it aimed.
#[derive(Drop)]
pub struct Did {
    pub cmd: Cmd,
    pub answer: Answer,
    pub saw: Saw,
}

/// What can be told of a step before it is done.
#[derive(Clone, Copy)]
pub(crate) struct Look {
    pub before: Ctx,
    pub lpid: u16,
    pub vid: u8,
    pub last: Answer,
    /// Whether it reads or changes the number of free secure frames.
    pub touched: bool,
    pub frame: Option<u32>,
    /// R0 to R31 of the vCPU that runs, if one does.
    pub gpr: [u64; 32],
}

/// What can be told of a step by its CPU, and by what is known of the pool, the normal frame and the vCPU's registers.
pub(crate) fn look_of(own: &Cpu, touched: bool, frame: Option<u32>, gpr: [u64; 32]) -> Look
    ensures { result ≡ record { before = own.now.ctx; lpid = own.now.lpid; vid = own.now.vid; last = own.now.last; touched = touched; frame = frame; gpr = gpr } }
{
    Look {
        before: own.ctx,
        lpid: own.lpid,
        vid: own.vid,
        last: own.last,
        touched,
        frame,
        gpr,
    }
}

/// What a step did with the pool, by the numbers of free frames before and after it, where it touched the pool.
pub(crate) fn pool_seen(touched: bool, free: u32, after: u32) -> Option<PoolSaw>
    ensures { result ≡ pool_seen touched free after }
{
    if !touched {
        return None;
    }
    Some(PoolSaw {
        any: after < free,
        taken: free.saturating_sub(after),
        given: after.saturating_sub(free),
    })
}

/// The values that a guest lets out in a step that was looked at before: the arguments of its call that came back, the number of
/// a hypercall that was answered at once, that and the row's inputs of one that leaves, what it stores in a normal frame, all its
/// registers where it leaves in normal memory, and nothing by any other step.
pub(crate) fn let_out(look: &Look, cmd: &Cmd, answer: Answer) -> Exposed
    ensures { result ≡ shown_of look.now.before look.now.gpr cmd.now answer look.now.frame }
{
    match look.before {
        Ctx::Guest(_) => let_out_running(&look.gpr, cmd, answer, look.frame),
        Ctx::Hv | Ctx::Uv(_) => Exposed::nothing(),
    }
}

/// The same of a step of a vCPU with these registers.
fn let_out_running(gpr: &[u64; 32], cmd: &Cmd, answer: Answer, frame: Option<u32>) -> Exposed
    ensures { result ≡ let_out_running gpr.now cmd.now answer frame }
{
    match (cmd, answer, frame) {
        (Cmd::GHcall, Answer::Ret(_), _) => Exposed::of(&[gpr[3]]),
        (Cmd::GHcall, Answer::Exit(Exit::Hcall(_)), _) => let_out_calling(gpr),
        (Cmd::GHcall | Cmd::GIrq, Answer::Exit(Exit::Normal), _) => Exposed::of(gpr),
        (_, Answer::Ret(_), _) => arguments(cmd),
        (Cmd::GSt { rs, .. }, Answer::Done, Some(_)) => {
            Exposed::of(&[registers::value_of(gpr, *rs)])
        }
        _ => Exposed::nothing(),
    }
}

/// The values that leave with the hypercall whose number R3 has: R3, and the inputs of its row, from R4 on.
fn let_out_calling(gpr: &[u64; 32]) -> Exposed
    ensures { result ≡ let_out_calling gpr.now (row_of HCALLS (slice_index gpr.now 3)) }
{
    match hcalls().row(gpr[3]) {
        Some(row) => Exposed::of(&gpr[3..4 + row.inputs as usize]),
        None => Exposed::nothing(),
    }
}

/// The operands of a call, and what UV_RETURN has in R0 and R2; nothing of a command that is no call.
fn arguments(cmd: &Cmd) -> Exposed
    ensures { result ≡ arguments cmd.now }
{
    cmd.numbers_fit();
    match *cmd {
        Cmd::UPate { lpid, dw0, dw1 } => Exposed::of(&[lpid, dw0, dw1]),
        Cmd::URegslot {
            lpid,
            start,
            size,
            flags,
            id,
        } => Exposed::of(&[lpid, start, size, flags, id]),
        Cmd::UUnregslot { lpid, id } => Exposed::of(&[lpid, id]),
        Cmd::UPagein {
            lpid,
            src,
            gpa,
            flags,
            order,
        } => Exposed::of(&[lpid, src, gpa, flags, order]),
        Cmd::UPageout {
            lpid,
            dest,
            gpa,
            flags,
            order,
        } => Exposed::of(&[lpid, dest, gpa, flags, order]),
        Cmd::UInval { lpid, gpa, order } => Exposed::of(&[lpid, gpa, order]),
        Cmd::UReturn { r0, r2, outs } => {
            let mut values = [0; 11];
            values[0] = r0;
            values[1] = r2;
            values[2..].copy_from_slice(&outs);
            Exposed::of(&values)
        }
        _ => Exposed::nothing(),
    }
}
