//! At what a command aims.

ghost use Rattle.std.specs.Prelude.{◌≡◌, length};
ghost use Rattle.pef_model.specs.Plan.{Plan};
ghost use Rattle.pef_model.specs.Target.{aim_in, target_of_aim};
ghost use Rattle.pef_core.specs.Does.{Targets, target_shown};

use crate::normal::Normal;
use pef_guest::Cpu;
use pef_model::{Aim, Cmd, Ctx, Work};

/// The object whose state decides a step's answer, beside the CPU.
#[derive(Clone, Copy)]
pub enum Target {
    /// None: the CPU alone.
    Alone,
    /// A guest, by its number from 1.
    Guest(u64),
    /// A normal frame, by its number from 0.
    Frame(u32),
}

/// At what a command of a CPU aims.
pub fn aim_of(own: &Cpu, cmd: &Cmd) -> Aim
    ensures { result ≡ aim_in own.now.ctx own.now.lpid cmd.now }
{
    match (own.ctx, cmd) {
        (Ctx::Hv, Cmd::HLd { ra }) => Aim::Address(*ra),
        (Ctx::Hv, Cmd::HSt { ra, .. }) => Aim::Address(*ra),
        (Ctx::Hv, Cmd::HEnter { lpid, .. }) => Aim::NamedGuest(*lpid),
        (Ctx::Hv, Cmd::UPate { lpid, .. }) => Aim::NamedGuest(*lpid),
        (Ctx::Hv, Cmd::URegslot { lpid, .. }) => Aim::NamedGuest(*lpid),
        (Ctx::Hv, Cmd::UUnregslot { lpid, .. }) => Aim::NamedGuest(*lpid),
        (Ctx::Hv, Cmd::UPagein { lpid, .. }) => Aim::NamedGuest(*lpid),
        (Ctx::Hv, Cmd::UPageout { lpid, .. }) => Aim::NamedGuest(*lpid),
        (Ctx::Hv, Cmd::UInval { lpid, .. }) => Aim::NamedGuest(*lpid),
        (Ctx::Hv, Cmd::UReturn { .. }) => Aim::Guest(own.lpid),
        (Ctx::Uv(Work::Inward(page)), Cmd::Go) => Aim::Move(page),
        (Ctx::Uv(Work::Outward(page)), Cmd::Go) => Aim::Move(page),
        (Ctx::Guest(_), Cmd::HLd { .. } | Cmd::HSt { .. }) => Aim::Nothing,
        (Ctx::Guest(_), Cmd::HSelect { .. } | Cmd::HEnter { .. } | Cmd::Go) => Aim::Nothing,
        (Ctx::Guest(run), _) => Aim::Guest(run.lpid),
        _ => Aim::Nothing,
    }
}

/// The target of a command of a CPU, in a machine with these normal frames and so many guests.
pub fn target_of(own: &Cpu, cmd: &Cmd, normal: &Normal, guests: u64) -> Target
    ensures { Targets guests normal.now own.now cmd.now (target_shown result) }
{
    resolve(aim_of(own, cmd), normal, guests)
}

/// The target of an aim.
fn resolve(aim: Aim, normal: &Normal, guests: u64) -> Target
    ensures { (plan : Plan) → plan.shift ≡ normal.now.shift → plan.normal ≡ length normal.now.frames → plan.guests ≡ guests → target_of_aim plan aim ≡ target_shown result }
{
    match aim {
        Aim::NamedGuest(lpid) if 1 <= lpid && lpid <= guests => Target::Guest(lpid),
        Aim::Guest(lpid) => Target::Guest(u64::from(lpid)),
        Aim::Address(ra) => match normal.place_of(ra) {
            Some(place) => Target::Frame(place.page),
            None => Target::Alone,
        },
        Aim::Move(page) if page.copied => Target::Guest(u64::from(page.lpid)),
        Aim::Move(page) => Target::Frame(page.frame),
        Aim::Nothing | Aim::NamedGuest(_) => Target::Alone,
    }
}
