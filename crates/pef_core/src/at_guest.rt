//! A command at the guest at which it aims: the row of its context and its name.

ghost use Rattle.std.specs.Prelude.{◌≡◌, ◌^◌, true, false, length, Some, None};
ghost use Rattle.pef_frames.specs.Pool.{PoolState};
ghost use Rattle.pef_guest.specs.Ready.{IsReadyFor, IsReadyPool, IsRunning};
ghost use Rattle.pef_guest.specs.Does.{DoesLent, DoesRow};
ghost use Rattle.pef_core.specs.Lent.{IsLent, WantsPool, is_page_call, call_asks, command_asks, command_goes, frame_needed, LeavesIn, LeavesLent, pool_of, pool_left, frame_of, frame_left};

use crate::lent::Inner;
use pef_frames::{NormalFrame, Pool};
use pef_guest::{Cpu, Guest};
use pef_model::{Answer, Cmd, Ctx, Run, Way, Work};
use pef_move::PageCall;
use pef_seal::Seal;

/// A command of a CPU at the guest at which it aims, which is lent what `needs` says.
pub fn apply_guest<S: Seal>(
    guest: &mut Guest<S>,
    cpu: &mut Cpu,
    inner: Inner<'_>,
    cmd: &Cmd,
) -> Answer
    requires ready { IsReadyFor S.takes cmd.now guest.old cpu.old }
    requires lent { IsLent guest.old cpu.old cmd.now inner }
    ensures does { (pool : PoolState) → DoesLent S.takes S.stands S.image cmd.now guest.old guest.new cpu.old cpu.new (pool_of pool inner.entry) (pool_left pool inner.exit) (frame_of inner.entry) (frame_left inner.exit) result }
    ensures left { LeavesLent guest.old cpu.old cmd.now result (frame_of inner.entry) (frame_left inner.exit) }
{
    match inner {
        Inner::Nothing => without_pool(guest, cpu, cmd),
        Inner::Pool(pool) => with_pool(guest, cpu, pool, cmd),
        Inner::Frame(number, frame) => with_frame(guest, cpu, number, frame, cmd),
    }
}

/// A command that is lent the pool.
fn with_pool<S: Seal>(guest: &mut Guest<S>, cpu: &mut Cpu, pool: &mut Pool, cmd: &Cmd) -> Answer
    requires ready { IsReadyFor S.takes cmd.now guest.old cpu.old }
    requires pool { IsReadyPool guest.old cpu.old pool.old }
    requires wanted { WantsPool guest.old cpu.old cpu.old.ctx cmd.now }
    ensures { DoesRow S.takes S.stands S.image cmd.now guest.old guest.new cpu.old cpu.new pool.old pool.new result }
{
    match cpu.ctx {
        Ctx::Hv => call_with_pool(guest, cpu, pool, cmd),
        Ctx::Uv(Work::Inward(inward)) => pef_move::page_in_end_refused(guest, cpu, inward, pool),
        Ctx::Uv(Work::Outward(outward)) => pef_move::page_out_end(guest, cpu, outward, pool),
        Ctx::Uv(_) => unreachable!(),
        Ctx::Guest(run) => access(guest, cpu, pool, run, cmd),
    }
}

/// A call of the hypervisor that is lent the pool.
fn call_with_pool<S: Seal>(
    guest: &mut Guest<S>,
    cpu: &mut Cpu,
    pool: &mut Pool,
    cmd: &Cmd,
) -> Answer
    requires ready { IsReadyFor S.takes cmd.now guest.old cpu.old }
    requires pool { IsReadyPool guest.old cpu.old pool.old }
    requires hypervisor { cpu.old.ctx ≡ Ctx.Hv }
    requires wanted { call_asks guest.old cmd.now ≡ true }
    ensures { DoesRow S.takes S.stands S.image cmd.now guest.old guest.new cpu.old cpu.new pool.old pool.new result }
{
    match cmd {
        Cmd::UPagein {
            lpid,
            src,
            gpa,
            flags,
            order,
        } => pef_move::page_in_begin(
            guest,
            cpu,
            pool,
            &PageCall {
                lpid: *lpid,
                ra: *src,
                gpa: *gpa,
                flags: *flags,
                order: *order,
            },
        ),
        _ => unreachable!(),
    }
}

/// A load or store of the vCPU that the CPU runs, in an Invalid page.
fn access<S: Seal>(guest: &mut Guest<S>, cpu: &Cpu, pool: &mut Pool, run: Run, cmd: &Cmd) -> Answer
    requires ready { IsReadyFor S.takes cmd.now guest.old cpu.now }
    requires pool { IsReadyPool guest.old cpu.now pool.old }
    requires runs { IsRunning cpu.now guest.old run }
    requires wanted { command_asks guest.old cmd.now ≡ true }
    ensures { DoesRow S.takes S.stands S.image cmd.now guest.old guest.new cpu.now cpu.now pool.old pool.new result }
{
    match cmd {
        Cmd::GLd { rd, gpa } => pef_access::load_backing(guest, cpu, pool, run, *rd, *gpa),
        Cmd::GSt { rs, gpa } => pef_access::store_backing(guest, cpu, pool, run, *rs, *gpa),
        _ => unreachable!(),
    }
}

/// A load or store of the vCPU that the CPU runs, in a normal frame, which it is lent.
pub(crate) fn with_frame<S: Seal>(
    guest: &mut Guest<S>,
    cpu: &Cpu,
    number: u32,
    frame: &mut NormalFrame,
    cmd: &Cmd,
) -> Answer
    requires ready { IsReadyFor S.takes cmd.now guest.old cpu.now }
    requires size { length frame.old ≡ 2 ^ guest.old.shift }
    requires needed { frame_needed guest.old cpu.now.ctx cmd.now ≡ Some number }
    ensures does { (pool : PoolState) → DoesLent S.takes S.stands S.image cmd.now guest.old guest.new cpu.now cpu.now pool pool (Some (record { number = number; bytes = frame.old })) frame.new result }
    ensures left { LeavesIn guest.old cpu.now cmd.now result (record { number = number; bytes = frame.old }) frame.new }
{
    match (cpu.ctx, cmd) {
        (Ctx::Guest(run), Cmd::GLd { rd, gpa }) => {
            pef_access::load_through(guest, cpu, number, frame, run, *rd, *gpa)
        }
        (Ctx::Guest(run), Cmd::GSt { rs, gpa }) => {
            pef_access::store_through(guest, cpu, number, frame, run, *rs, *gpa)
        }
        _ => unreachable!(),
    }
}

/// A command that is lent nothing.
fn without_pool<S: Seal>(guest: &mut Guest<S>, cpu: &mut Cpu, cmd: &Cmd) -> Answer
    requires ready { IsReadyFor S.takes cmd.now guest.old cpu.old }
    requires unwanted { WantsPool guest.old cpu.old cpu.old.ctx cmd.now → ⊥ }
    requires frameless { frame_needed guest.old cpu.old.ctx cmd.now ≡ None }
    ensures { (pool : PoolState) → DoesRow S.takes S.stands S.image cmd.now guest.old guest.new cpu.old cpu.new pool pool result }
{
    match cpu.ctx {
        Ctx::Hv => call(guest, cpu, cmd),
        Ctx::Uv(work) => go(guest, cpu, work, cmd),
        Ctx::Guest(run) if run.generation != guest.generation => pef_reflect::gone(guest, cpu, run),
        Ctx::Guest(run) => command(guest, cpu, run, cmd),
    }
}

/// The next step of a call in progress that is lent nothing: a page's move ends, under another generation than the guest's, or
/// accepted as it comes in.
fn go<S: Seal>(guest: &mut Guest<S>, cpu: &mut Cpu, work: Work, cmd: &Cmd) -> Answer
    requires ready { IsReadyFor S.takes cmd.now guest.old cpu.old }
    requires working { cpu.old.ctx ≡ Ctx.Uv work }
    requires unwanted { WantsPool guest.old cpu.old cpu.old.ctx cmd.now → ⊥ }
    ensures { (pool : PoolState) → DoesRow S.takes S.stands S.image cmd.now guest.old guest.new cpu.old cpu.new pool pool result }
{
    match work {
        Work::Inward(page) if pef_move::is_late(guest, page) => {
            pef_move::end_late(guest, cpu, Way::Inward, page)
        }
        Work::Outward(page) if pef_move::is_late(guest, page) => {
            pef_move::end_late(guest, cpu, Way::Outward, page)
        }
        Work::Inward(page) => pef_move::page_in_end(guest, cpu, page),
        Work::Outward(_) => unreachable!(),
        Work::Share(_) | Work::Unshare(_) | Work::UnshareAll(_) | Work::Esm(_) => unreachable!(),
    }
}

/// A call of the hypervisor that is lent nothing.
fn call<S: Seal>(guest: &mut Guest<S>, cpu: &mut Cpu, cmd: &Cmd) -> Answer
    requires ready { IsReadyFor S.takes cmd.now guest.old cpu.old }
    requires hypervisor { cpu.old.ctx ≡ Ctx.Hv }
    requires unwanted { call_asks guest.old cmd.now ≡ false }
    ensures { (pool : PoolState) → DoesRow S.takes S.stands S.image cmd.now guest.old guest.new cpu.old cpu.new pool pool result }
{
    match cmd {
        Cmd::HEnter { vid, value, .. } => pef_reflect::enter_normal(guest, cpu, *vid, *value),
        Cmd::UPate { lpid, dw0, dw1 } => pef_reflect::write_entry(guest, cpu, *lpid, *dw0, *dw1),
        Cmd::URegslot {
            lpid,
            start,
            size,
            flags,
            id,
        } => pef_reflect::register_slot(guest, cpu, *lpid, *start, *size, *flags, *id),
        Cmd::UUnregslot { lpid, id } => pef_reflect::unregister_slot(guest, cpu, *lpid, *id),
        Cmd::UReturn { r0, r2, outs } => pef_reflect::uv_return(guest, cpu, *r0, *r2, outs),
        _ => page_call(guest, cpu, cmd),
    }
}

/// A call of the hypervisor for a page, which is lent nothing.
fn page_call<S: Seal>(guest: &mut Guest<S>, cpu: &mut Cpu, cmd: &Cmd) -> Answer
    requires ready { IsReadyFor S.takes cmd.now guest.old cpu.old }
    requires hypervisor { cpu.old.ctx ≡ Ctx.Hv }
    requires named { is_page_call cmd.now ≡ true }
    requires unwanted { call_asks guest.old cmd.now ≡ false }
    ensures { (pool : PoolState) → DoesRow S.takes S.stands S.image cmd.now guest.old guest.new cpu.old cpu.new pool pool result }
{
    match cmd {
        Cmd::UPagein {
            lpid,
            src,
            gpa,
            flags,
            order,
        } => pef_move::page_in_refused(
            guest,
            cpu,
            &PageCall {
                lpid: *lpid,
                ra: *src,
                gpa: *gpa,
                flags: *flags,
                order: *order,
            },
        ),
        Cmd::UPageout {
            lpid,
            dest,
            gpa,
            flags,
            order,
        } => pef_move::page_out_begin(
            guest,
            cpu,
            &PageCall {
                lpid: *lpid,
                ra: *dest,
                gpa: *gpa,
                flags: *flags,
                order: *order,
            },
        ),
        Cmd::UInval { lpid, gpa, order } => {
            pef_move::page_inval(guest, cpu, *lpid, *gpa, *order)
        }
        _ => unreachable!(),
    }
}

/// A command of the vCPU that the CPU runs, which is lent nothing.
fn command<S: Seal>(guest: &mut Guest<S>, cpu: &mut Cpu, run: Run, cmd: &Cmd) -> Answer
    requires ready { IsReadyFor S.takes cmd.now guest.old cpu.old }
    requires runs { IsRunning cpu.old guest.old run }
    requires unwanted { command_asks guest.old cmd.now ≡ false }
    requires frameless { command_goes guest.old cmd.now ≡ None }
    ensures { (pool : PoolState) → DoesRow S.takes S.stands S.image cmd.now guest.old guest.new cpu.old cpu.new pool pool result }
{
    match cmd {
        Cmd::UPate { .. }
        | Cmd::URegslot { .. }
        | Cmd::UUnregslot { .. }
        | Cmd::UPagein { .. }
        | Cmd::UPageout { .. }
        | Cmd::UInval { .. }
        | Cmd::UReturn { .. } => pef_reflect::refuse_call(guest, cpu, run, cmd),
        Cmd::GLi { rd, value } => pef_reflect::load_immediate(guest, cpu, run, *rd, *value),
        Cmd::GAdd { rd, ra, rb } => pef_reflect::add(guest, cpu, run, *rd, *ra, *rb),
        Cmd::GXor { rd, ra, rb } => pef_reflect::exclusive_or(guest, cpu, run, *rd, *ra, *rb),
        Cmd::GLd { rd, gpa } => pef_access::load(guest, cpu, run, *rd, *gpa),
        Cmd::GSt { rs, gpa } => pef_access::store(guest, cpu, run, *rs, *gpa),
        Cmd::GHcall => pef_reflect::hypercall(guest, cpu, run),
        Cmd::GIrq => pef_reflect::interrupt(guest, cpu, run),
        Cmd::Dump { reg } => pef_reflect::show(guest, cpu, run, *reg),
        _ => unreachable!(),
    }
}
