//! What a step at a guest touches beside the guest and its CPU, and what it is lent.

ghost use Rattle.std.specs.Prelude.{◌≡◌, ◌↔◌, ℕ, ◌<◌, Bool, true, is_some, IsSome, IfSome, IsTrue};
ghost use Rattle.pef_model.specs.Plan.{Plan, IsWithin};
ghost use Rattle.pef_model.specs.Target.{Ask};
ghost use Rattle.pef_model.specs.Guest.{Guest as GuestWhole};
ghost use Rattle.pef_model.specs.Deed.{deed_hypervisor, deed_running};
ghost use Rattle.pef_guest.specs.Aims.{uses_pool, frame_running};
ghost use Rattle.pef_guest.specs.Shows.{Shows};
ghost use Rattle.pef_guest.specs.Ready.{may_run_in, IsReadyFor};
ghost use Rattle.pef_guest.specs.Whole.{IsWhole};
ghost use Rattle.pef_core.specs.Lent.{is_pool, frame_wanted, frame_needed, command_goes, call_asks, command_asks, WantsPool, TouchesPool, TouchesFrame, Touches};

use pef_frames::{NormalFrame, Pool};
use pef_guest::{Cpu, Guest};
use pef_model::{Cmd, Ctx, Run, Work};
use pef_move::PageCall;
use pef_seal::Seal;

/// What a step at a guest needs.
#[derive(Clone, Copy)]
pub enum Want {
    /// Nothing.
    Nothing,
    /// The pool.
    Pool,
    /// A normal frame, by its number from 0.
    Frame(u32),
}

impl Want {
    /// Whether it is the pool.
    pub(crate) fn is_pool(self) -> bool
        ensures { result ≡ is_pool self }
    {
        match self {
            Want::Nothing => false,
            Want::Pool => true,
            Want::Frame(_) => false,
        }
    }
}

/// What a step at a guest is lent.
pub enum Inner<'a> {
    /// Nothing.
    Nothing,
    /// The pool.
    Pool(&'a mut Pool),
    /// A normal frame, by its number.
    Frame(u32, &'a mut NormalFrame),
}

/// What a command of a CPU needs at the guest at which it aims: it is what the step touches beside the guest.
pub fn needs<S: Seal>(guest: &Guest<S>, cpu: &Cpu, cmd: &Cmd) -> Want
    requires { IsReadyFor S.takes cmd.now guest.now cpu.now }
    ensures here { IsTrue (is_pool result) ↔ WantsPool guest.now cpu.now cpu.now.ctx cmd.now }
    ensures used { is_pool result ≡ true → uses_pool cpu.now.ctx cmd.now ≡ true }
    ensures frame { frame_wanted result ≡ frame_needed guest.now cpu.now.ctx cmd.now }
    ensures below { IfSome (frame_wanted result) (λ number. number < guest.now.normal) }
    ensures touches { Touches S.stands S.image guest.now cpu.now cmd.now result }
{
    if touches_pool(guest, cpu, cmd) {
        return Want::Pool;
    }
    match touched_frame(guest, cpu, cmd) {
        Some(number) => Want::Frame(number),
        None => Want::Nothing,
    }
}

impl Want {
    /// The normal frame that it is, by its number.
    pub(crate) fn frame(self) -> Option<u32>
        ensures { result ≡ frame_wanted self }
    {
        match self {
            Want::Nothing | Want::Pool => None,
            Want::Frame(number) => Some(number),
        }
    }
}

/// The normal frame that a command of a CPU touches at the guest at which it aims: that of a load or store of its vCPU, under the
/// guest's generation, in normal memory or in a Shared page.
fn touched_frame<S: Seal>(guest: &Guest<S>, cpu: &Cpu, cmd: &Cmd) -> Option<u32>
    requires { IsReadyFor S.takes cmd.now guest.now cpu.now }
    ensures here { result ≡ frame_needed guest.now cpu.now.ctx cmd.now }
    ensures below { IfSome result (λ number. number < guest.now.normal) }
    ensures model { TouchesFrame S.stands S.image guest.now cpu.now cmd.now result }
{
    match cpu.ctx {
        Ctx::Guest(run) if run.generation == guest.generation => gone_into(guest, cmd),
        Ctx::Guest(_) | Ctx::Hv | Ctx::Uv(_) => None,
    }
}

/// The normal frame into which a command of a vCPU goes, in its guest's generation.
fn gone_into<S: Seal>(guest: &Guest<S>, cmd: &Cmd) -> Option<u32>
    requires { IsWhole S.takes guest.now }
    ensures here { result ≡ command_goes guest.now cmd.now }
    ensures below { IfSome result (λ number. number < guest.now.normal) }
    ensures model { (plan : Plan) (g : GuestWhole) → Shows S.stands S.image plan guest.now g → frame_running plan g.part cmd.now ≡ result }
{
    match cmd {
        Cmd::GLd { gpa, .. } | Cmd::GSt { gpa, .. } => pef_access::frame_of_access(guest, *gpa),
        _ => None,
    }
}

/// Whether a command of a CPU touches the pool at the guest at which it aims: UV_PAGE_IN whose operands are right, the end of a
/// page-out and that of a page-in which is refused, under the guest's generation, and a load or store in an Invalid page.
fn touches_pool<S: Seal>(guest: &Guest<S>, cpu: &Cpu, cmd: &Cmd) -> bool
    requires { IsReadyFor S.takes cmd.now guest.now cpu.now }
    ensures here { IsTrue result ↔ WantsPool guest.now cpu.now cpu.now.ctx cmd.now }
    ensures model { TouchesPool S.stands S.image guest.now cpu.now cmd.now result }
{
    match cpu.ctx {
        Ctx::Hv => asked_by_call(guest, cmd),
        Ctx::Uv(Work::Inward(page)) => pef_move::refuses_page(guest, cpu, page),
        Ctx::Uv(Work::Outward(page)) => pef_move::gives_frame_back(guest, page),
        Ctx::Uv(_) => false,
        Ctx::Guest(run) if run.generation != guest.generation => false,
        Ctx::Guest(run) => asked_by_command(guest, run, cmd),
    }
}

/// Whether a call of the hypervisor does.
fn asked_by_call<S: Seal>(guest: &Guest<S>, cmd: &Cmd) -> bool
    requires { IsWithin 8 16 guest.now.shift }
    ensures here { call_asks guest.now cmd.now ≡ result }
    ensures model { (plan : Plan) (g : GuestWhole) (any : Bool) (ask : Ask) → Shows S.stands S.image plan guest.now g → is_some (deed_hypervisor plan g any ask cmd.now).pool ≡ result }
{
    match cmd {
        Cmd::UPagein {
            lpid,
            src,
            gpa,
            flags,
            order,
        } => pef_move::asks_for_frame(
            guest,
            &PageCall {
                lpid: *lpid,
                ra: *src,
                gpa: *gpa,
                flags: *flags,
                order: *order,
            },
        ),
        Cmd::UPageout { .. } => false,
        Cmd::UInval { .. } => false,
        Cmd::UReturn { .. } => false,
        Cmd::HLd { .. } => false,
        Cmd::HSt { .. } => false,
        Cmd::HSelect { .. } => false,
        Cmd::HEnter { .. } => false,
        Cmd::UPate { .. } => false,
        Cmd::URegslot { .. } => false,
        Cmd::UUnregslot { .. } => false,
        Cmd::GLi { .. } => false,
        Cmd::GAdd { .. } => false,
        Cmd::GXor { .. } => false,
        Cmd::GLd { .. } => false,
        Cmd::GSt { .. } => false,
        Cmd::GHcall => false,
        Cmd::GIrq => false,
        Cmd::Go => false,
        Cmd::Dump { .. } => false,
    }
}

/// Whether a command of a vCPU does, in its guest's generation.
fn asked_by_command<S: Seal>(guest: &Guest<S>, run: Run, cmd: &Cmd) -> bool
    requires shift { IsWithin 8 16 guest.now.shift }
    requires phase { may_run_in guest.now.phase ≡ true }
    ensures here { command_asks guest.now cmd.now ≡ result }
    ensures model { (plan : Plan) (g : GuestWhole) (found : ℕ → ℕ → ℕ) (any : Bool) (ask : Ask) → Shows S.stands S.image plan guest.now g → is_some (deed_running plan run g found any ask cmd.now).pool ≡ result }
{
    match cmd {
        Cmd::GLd { gpa, .. } => pef_access::asks_for_frame(guest, *gpa),
        Cmd::GSt { gpa, .. } => pef_access::asks_for_frame(guest, *gpa),
        Cmd::UPate { .. } => false,
        Cmd::URegslot { .. } => false,
        Cmd::UUnregslot { .. } => false,
        Cmd::UPagein { .. } => false,
        Cmd::UPageout { .. } => false,
        Cmd::UInval { .. } => false,
        Cmd::UReturn { .. } => false,
        Cmd::HLd { .. } => false,
        Cmd::HSt { .. } => false,
        Cmd::HSelect { .. } => false,
        Cmd::HEnter { .. } => false,
        Cmd::GLi { .. } => false,
        Cmd::GAdd { .. } => false,
        Cmd::GXor { .. } => false,
        Cmd::GHcall => false,
        Cmd::GIrq => false,
        Cmd::Go => false,
        Cmd::Dump { .. } => false,
    }
}
