//! The steps of the machine, one after another, are the history that the model gives.

ghost use Rattle.std.specs.Prelude.{◌≡◌, ◌+◌, ◌^◌, ◌<◌, ◌≤◌, ◌&&◌, nat_le, [], ℕ, false, length, IfOk, IfSome, Some, slice_get, true};
ghost use Rattle.pef_model.specs.Plan.{IsInRange, plan_of};
ghost use Rattle.pef_model.specs.Run.{is_in_progress};
ghost use Rattle.pef_seal.specs.Serves.{Serves};
ghost use Rattle.pef_guest.specs.Start.{IsStartCpu};
ghost use Rattle.pef_core.specs.Normal.{frame_at};
ghost use Rattle.pef_core.specs.State.{FramesOnce, HasContext, HasSteps};
ghost use Rattle.pef_core.specs.Start.{IsServed, AreStartCpus, AreStartGuests};
ghost use Rattle.pef_core.specs.Steps.{Fits, Continues};
ghost use Rattle.pef_core.specs.Refused.{LeavesRest};
ghost use Rattle.pef_core.specs.Alone.{LeavesOthers};
ghost use Rattle.pef_model.specs.Target.{Alone, AtGuest, AtFrame};
ghost use Rattle.pef_core.specs.Does.{AimsAt, DoesStep};
ghost use Rattle.pef_core.specs.Did.{HasRegisters, LooksAt, TellsStep};
ghost use Rattle.pef_guest.specs.declared.cpu.Cpu.{Cpu};
ghost use Rattle.pef_core.specs.Places.{EachPageIsPlaced};

use crate::aim::{Target, target_of};
use crate::at_guest::apply_guest;
use crate::did::{Did, Look, let_out, look_of, pool_seen};
use crate::lent::{Inner, Want, needs};
use crate::normal::Normal;
use crate::own::apply_own;
use pef_frames::{NormalFrame, Pool};
use pef_guest::{Cpu, Guest};
use pef_model::{Answer, Cmd, Config, Ctx, Saw};
use pef_seal::Seal;
use std::alloc::{AllocError, Global};
use std::marker::Model;

/// A machine. It has all its memory from the start: a step takes none.
#[derive(Drop)]
pub struct Machine<S: Seal> {
    cpus: Vec<Cpu>,
    guests: Vec<Guest<S>>,
    /// How many vCPUs each guest has.
    vcpus: u8,
    /// The free secure frames.
    pool: Pool,
    /// The memory that the hypervisor loads and stores.
    normal: Normal,
    /// How many steps were done.
    steps: u64,
}

impl<S: Seal> Model for Machine<S> {
    ghost use Rattle.pef_core.specs.State.{State, IsWholeMachine};

    ghost Value = { State S };

    ghost view = { λ m. record { cpus = m.cpus.items; guests = m.guests.items; vcpus = m.vcpus; pool = m.pool; normal = m.normal; steps = m.steps } };

    ghost invariant = { λ m. IsWholeMachine S.takes (record { cpus = m.cpus.items; guests = m.guests.items; vcpus = m.vcpus; pool = m.pool; normal = m.normal; steps = m.steps }) };
}

/// The CPUs of a configuration.
fn build_cpus(alloc: Global, config: &Config) -> Result<Vec<Cpu>, AllocError>
    requires { IsInRange config.now }
    ensures { IfOk result (λ cpus. AreStartCpus config.now cpus.items) }
{
    let mut cpus = Vec::new(alloc);
    for number in 0..config.cpus {
        cpus.push(Cpu::build(alloc, number, 1 << config.shift)?)?;
    }
    Ok(cpus)
}

/// The guests of a configuration, each with its sealer.
fn build_guests<S: Seal>(
    alloc: Global,
    config: &Config,
    sealers: Vec<S>,
) -> Result<Vec<Guest<S>>, AllocError>
    requires range { IsInRange config.now }
    requires sealers { IsServed config.now S.image S.takes sealers.items }
    ensures { IfOk result (λ guests. AreStartGuests S.image S.takes config.now guests.items) }
{
    let mut guests = Vec::new(alloc);
    for sealer in sealers {
        let lpid = guests.len() as u16 + 1;
        guests.push(Guest::build(alloc, config, lpid, sealer)?)?;
    }
    Ok(guests)
}

impl<S: Seal> Machine<S> {
    /// The machine of a configuration, before its first step, with a sealer for each guest in order of lpid. The one error
    /// is that there is no memory for it.
    pub fn build(alloc: Global, config: &Config, sealers: Vec<S>) -> Result<Machine<S>, AllocError>
        requires range { IsInRange config.now }
        requires sealers { IsServed config.now S.image S.takes sealers.items }
        ensures fits { IfOk result (λ machine. Fits S.stands S.image (plan_of config.now) machine []) }
        ensures frames_once { IfOk result FramesOnce }
        ensures steps { IfOk result (λ machine. machine.steps ≡ 0) }
    {
        let cpus = build_cpus(alloc, config)?;
        let guests = build_guests(alloc, config, sealers)?;
        let pool = Pool::build(alloc, config.secure, 1 << config.shift)?;
        let normal = Normal::build(alloc, config.shift, config.normal)?;
        Ok(Machine {
            cpus,
            guests,
            vcpus: config.vcpus,
            pool,
            normal,
            steps: 0,
        })
    }

    /// One step of a CPU, which is below the number of CPUs: it does the command, and says what it answered.
    pub fn step(&mut self, cpu: u8, cmd: &Cmd) -> Answer
        requires cpu { cpu < length self.old.cpus }
        requires count { self.old.steps < 2 ^ 63 }
        ensures step { Continues S.stands S.image self.old self.new cpu cmd.now result }
        ensures frames_once { FramesOnce self.new }
        ensures refused { (own : Cpu) → slice_get self.old.cpus cpu ≡ Some own → LeavesRest cpu own.ctx cmd.now self.old self.new result }
        ensures alone { LeavesOthers cpu cmd.now self.old self.new result }
        ensures count { self.new.steps ≡ self.old.steps + 1 }
        ensures cpus { length self.new.cpus ≡ length self.old.cpus }
        ensures guests { length self.new.guests ≡ length self.old.guests }
    {
        self.steps += 1;
        cmd.numbers_fit();
        self.counted(cpu, cmd)
    }

    /// The same step, and what it did.
    pub fn step_seen(&mut self, cpu: u8, cmd: &Cmd) -> Did
        requires cpu { cpu < length self.old.cpus }
        requires count { self.old.steps < 2 ^ 63 }
        ensures told { TellsStep S.stands S.image self.old cpu cmd.now result }
        ensures step { Continues S.stands S.image self.old self.new cpu cmd.now result.answer }
        ensures frames_once { FramesOnce self.new }
        ensures refused { (own : Cpu) → slice_get self.old.cpus cpu ≡ Some own → LeavesRest cpu own.ctx cmd.now self.old self.new result.answer }
        ensures alone { LeavesOthers cpu cmd.now self.old self.new result.answer }
        ensures count { self.new.steps ≡ self.old.steps + 1 }
        ensures cpus { length self.new.cpus ≡ length self.old.cpus }
        ensures guests { length self.new.guests ≡ length self.old.guests }
    {
        let look = self.look(cpu, cmd);
        let free = self.pool.free();
        let answer = self.step(cpu, cmd);
        Did {
            cmd: *cmd,
            answer,
            saw: Saw {
                before: look.before,
                after: self.cpus[cpu as usize].ctx,
                lpid: look.lpid,
                vid: look.vid,
                last: look.last,
                pool: pool_seen(look.touched, free, self.pool.free()),
                frame: look.frame,
                shown: let_out(&look, cmd, answer),
            },
        }
    }

    /// What can be told of a step before it is done.
    fn look(&self, cpu: u8, cmd: &Cmd) -> Look
        requires cpu { cpu < length self.now.cpus }
        requires count { self.now.steps < 2 ^ 63 }
        ensures { LooksAt S.stands S.image self.now cpu cmd.now result }
    {
        let own = &self.cpus[cpu as usize];
        let gpr = self.running_registers(cpu);
        match target_of(own, cmd, &self.normal, self.guests.len() as u64) {
            Target::Alone => look_of(own, false, None, gpr),
            Target::Guest(lpid) => {
                let guest = &self.guests[lpid as usize - 1];
                let wanted = needs(guest, own, cmd);
                look_of(own, wanted.is_pool(), wanted.frame(), gpr)
            }
            Target::Frame(frame) => look_of(own, false, Some(frame), gpr),
        }
    }

    /// R0 to R31 of the vCPU that a CPU runs, and zeros where it runs none.
    fn running_registers(&self, cpu: u8) -> [u64; 32]
        requires { cpu < length self.now.cpus }
        ensures { HasRegisters S.stands S.image self.now cpu result }
    {
        match self.cpus[cpu as usize].ctx {
            Ctx::Guest(run) => {
                self.guests[run.lpid as usize - 1].vcpus[run.vid as usize]
                    .regs
                    .gpr
            }
            Ctx::Hv => [0; 32],
            Ctx::Uv(_) => [0; 32],
        }
    }

    /// A step that is counted: at its CPU alone, at a guest or at a normal frame.
    fn counted(&mut self, cpu: u8, cmd: &Cmd) -> Answer
        requires cpu { cpu < length self.old.cpus }
        requires steps { HasSteps self.old }
        ensures { DoesStep S.stands S.image cpu cmd.now self.old self.new result }
    {
        match target_of(
            &self.cpus[cpu as usize],
            cmd,
            &self.normal,
            self.guests.len() as u64,
        ) {
            Target::Alone => self.at_own(cpu, cmd),
            Target::Guest(lpid) => self.at_guest(cpu, lpid, cmd),
            Target::Frame(frame) => self.at_frame(cpu, frame, cmd),
        }
    }

    /// A command that aims at nothing.
    fn at_own(&mut self, cpu: u8, cmd: &Cmd) -> Answer
        requires { AimsAt cpu cmd.now Alone self.old }
        ensures { DoesStep S.stands S.image cpu cmd.now self.old self.new result }
    {
        let guests = self.guests.len() as u16;
        apply_own(&mut self.cpus[cpu as usize], cmd, guests, self.vcpus)
    }

    /// A command at the guest at which it aims, with the pool or the normal frame where it needs it.
    fn at_guest(&mut self, cpu: u8, lpid: u64, cmd: &Cmd) -> Answer
        requires { AimsAt cpu cmd.now (AtGuest lpid) self.old }
        ensures { DoesStep S.stands S.image cpu cmd.now self.old self.new result }
    {
        let own = &mut self.cpus[cpu as usize];
        let guest = &mut self.guests[lpid as usize - 1];
        match needs(guest, own, cmd) {
            Want::Nothing => apply_guest(guest, own, Inner::Nothing, cmd),
            Want::Pool => apply_guest(guest, own, Inner::Pool(&mut self.pool), cmd),
            Want::Frame(number) => self.normal.lend(guest, own, number, cmd),
        }
    }

    /// A command at the normal frame at which it aims.
    fn at_frame(&mut self, cpu: u8, frame: u32, cmd: &Cmd) -> Answer
        requires { AimsAt cpu cmd.now (AtFrame frame) self.old }
        ensures { DoesStep S.stands S.image cpu cmd.now self.old self.new result }
    {
        self.normal.apply(&mut self.cpus[cpu as usize], frame, cmd)
    }

    /// Whether a CPU, which is below the number of CPUs, has a call in progress.
    pub fn is_in_progress(&self, cpu: u8) -> bool
        requires { cpu < length self.now.cpus }
        ensures { IfSome (slice_get self.now.cpus cpu) (λ (own : Cpu). result ≡ is_in_progress own.ctx) }
    {
        matches!(self.cpus[cpu as usize].ctx, Ctx::Uv(_))
    }

    /// Each page of the machine has the one copy that counts in the place that the model names, whatever history fits the
    /// machine. It does nothing.
    pub fn each_page_is_placed(&self)
        ensures { EachPageIsPlaced S.stands S.image self.now }
    {
        let _ = &self.cpus;
    }

    /// How many steps were done.
    pub fn steps(&self) -> u64
        ensures { result ≡ self.now.steps }
    {
        self.steps
    }

    /// How many normal frames there are.
    pub fn normal(&self) -> u32
        ensures { result ≡ length self.now.normal.frames }
    {
        self.normal.count()
    }

    /// A normal frame, by its number from 0: what the hypervisor's stores, those of guests in normal memory and the copies of
    /// page-outs have left there, and else zeros.
    pub fn frame(&self, number: u32) -> &NormalFrame
        requires { number < length self.now.normal.frames }
        ensures { result.now ≡ frame_at self.now.normal.frames number }
    {
        self.normal.frame(number)
    }

    /// How many secure frames are free.
    pub fn free(&self) -> u32
        ensures { result ≡ length self.now.pool.free }
    {
        self.pool.free()
    }
}
