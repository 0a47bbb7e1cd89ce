//! A page of one guest goes out and comes in while another guest stores and loads, each step at the objects that it names alone.

ghost use Rattle.std.specs.Prelude.{◌≡◌, ◌^◌, true, false, length, Some, None, IfOk, IsFalse};
ghost use Rattle.pef_model.specs.Plan.{IsInRange, IsWithin};
ghost use Rattle.pef_guest.specs.Ready.{IsReadyFor, IsReadyPool};
ghost use Rattle.pef_guest.specs.Whole.{IsWhole};
ghost use Rattle.pef_core.specs.Lent.{WantsPool, frame_needed};

use crate::machine::{immediate, load, store, u_return};
use pef_core::{Inner, Want, apply_frame, apply_guest, needs, ready, ready_frame, ready_pool};
use pef_frames::{NormalFrame, Pool};
use pef_guest::{Cpu, Guest};
use pef_model::{Answer, Cmd, Code, Config};
use pef_seal::{Seal, StreamSeal};
use std::alloc::{AllocError, Global};
use std::process::Abort;
use std::test::Fail;

/// Two guests that are secure from the start, with two vCPUs and pages of 256 bytes.
fn config(alloc: Global) -> Result<Config, AllocError>
    ensures range { IfOk result IsInRange }
    ensures stream { IfOk result (λ config. IsFalse config.vault) }
{
    let mut config = Config::with_defaults(alloc);
    config.shift = 8;
    config.cpus = 4;
    config.guests = 2;
    config.vcpus = 2;
    config.born.push(1)?;
    config.born.push(2)?;
    Ok(config)
}

fn guest_of(alloc: Global, config: &Config, lpid: u16) -> Result<Guest<StreamSeal>, AllocError>
    requires range { IsInRange config.now }
    requires stream { IsFalse config.now.vault }
    ensures { IfOk result (IsWhole ⟦<StreamSeal as Seal>⟧.takes) }
{
    Guest::build(alloc, config, lpid, StreamSeal::build(config.key))
}

/// Does a step at a guest that needs no normal frame, with the pool where it needs it, and compares what it answers.
fn at_guest(
    rt: &impl Abort,
    guest: &mut Guest<StreamSeal>,
    cpu: &mut Cpu,
    pool: &mut Pool,
    cmd: &Cmd,
    answer: Answer,
)
    requires { IsWhole ⟦<StreamSeal as Seal>⟧.takes guest.old }
    ensures { IsWhole ⟦<StreamSeal as Seal>⟧.takes guest.new }
{
    assert!(rt; ready(guest, cpu, cmd));
    assert!(rt; ready_pool(guest, cpu, pool));
    match needs(guest, cpu, cmd) {
        Want::Nothing => assert_eq!(rt; without_pool(guest, cpu, cmd), answer),
        Want::Pool => assert_eq!(rt; with_pool(guest, cpu, pool, cmd), answer),
        Want::Frame(_) => assert!(rt; false),
    }
}

/// Does a step at a guest that needs a normal frame of this number, and compares what it answers.
fn at_guest_through(
    rt: &impl Abort,
    guest: &mut Guest<StreamSeal>,
    cpu: &mut Cpu,
    number: u32,
    frame: &mut NormalFrame,
    cmd: &Cmd,
    answer: Answer,
)
    requires whole { IsWhole ⟦<StreamSeal as Seal>⟧.takes guest.old }
    requires size { length frame.old ≡ 256 }
    ensures whole { IsWhole ⟦<StreamSeal as Seal>⟧.takes guest.new }
    ensures size { length frame.new ≡ 256 }
{
    assert_eq!(rt; guest.shift, 8);
    assert!(rt; ready(guest, cpu, cmd));
    match needs(guest, cpu, cmd) {
        Want::Frame(needed) => {
            assert_eq!(rt; needed, number);
            assert_eq!(rt; with_frame(guest, cpu, needed, frame, cmd), answer);
        }
        Want::Nothing | Want::Pool => assert!(rt; false),
    }
}

/// A step at a guest that is lent nothing.
fn without_pool<S: Seal>(guest: &mut Guest<S>, cpu: &mut Cpu, cmd: &Cmd) -> Answer
    requires ready { IsReadyFor S.takes cmd.now guest.old cpu.old }
    requires unwanted { WantsPool guest.old cpu.old cpu.old.ctx cmd.now → ⊥ }
    requires frameless { frame_needed guest.old cpu.old.ctx cmd.now ≡ None }
    ensures { IsWhole S.takes guest.new }
{
    apply_guest(guest, cpu, Inner::Nothing, cmd)
}

/// A step at a guest that is lent the pool.
fn with_pool<S: Seal>(guest: &mut Guest<S>, cpu: &mut Cpu, pool: &mut Pool, cmd: &Cmd) -> Answer
    requires ready { IsReadyFor S.takes cmd.now guest.old cpu.old }
    requires pool { IsReadyPool guest.old cpu.old pool.old }
    requires wanted { WantsPool guest.old cpu.old cpu.old.ctx cmd.now }
    ensures { IsWhole S.takes guest.new }
{
    apply_guest(guest, cpu, Inner::Pool(pool), cmd)
}

/// A step at a guest that is lent a normal frame, by its number.
fn with_frame<S: Seal>(
    guest: &mut Guest<S>,
    cpu: &mut Cpu,
    number: u32,
    frame: &mut NormalFrame,
    cmd: &Cmd,
) -> Answer
    requires ready { IsReadyFor S.takes cmd.now guest.old cpu.old }
    requires needed { frame_needed guest.old cpu.old.ctx cmd.now ≡ Some number }
    requires size { length frame.old ≡ 2 ^ guest.old.shift }
    ensures whole { IsWhole S.takes guest.new }
    ensures size { length frame.new ≡ length frame.old }
{
    apply_guest(guest, cpu, Inner::Frame(number, frame), cmd)
}

/// A guest comes to its next generation, as where it has ended, without a step.
fn ends(rt: &impl Abort, guest: &mut Guest<StreamSeal>)
    requires { IsWhole ⟦<StreamSeal as Seal>⟧.takes guest.old }
    ensures { IsWhole ⟦<StreamSeal as Seal>⟧.takes guest.new }
{
    assert!(rt; guest.generation <= guest.steps && guest.steps < 1 << 63);
    guest.generation += 1;
}

/// Does the copy of a page's move at a normal frame of 2^shift bytes.
fn copies(rt: &impl Abort, cpu: &mut Cpu, frame: &mut NormalFrame, shift: u8)
    requires shift { IsWithin 8 16 shift }
    requires size { length frame.old ≡ 2 ^ shift }
    ensures { length frame.new ≡ 2 ^ shift }
{
    assert!(rt; ready_frame(cpu, frame, &Cmd::Go));
    assert_eq!(rt; apply_frame(cpu, frame, &Cmd::Go), Answer::Step);
}

/// UV_PAGE_OUT of page 0 of guest 2 into normal frame 1.
fn page_out() -> Cmd {
    Cmd::UPageout {
        lpid: 2,
        dest: 0x100,
        gpa: 0,
        flags: 0,
        order: 8,
    }
}

/// UV_PAGE_IN of page 0 of guest 2 from normal frame 1.
fn page_in() -> Cmd {
    Cmd::UPagein {
        lpid: 2,
        src: 0x100,
        gpa: 0,
        flags: 0,
        order: 8,
    }
}

/// A CPU of a number, with a hand of 256 bytes, on which a vCPU of a guest is selected.
fn selecting(alloc: Global, number: u8, lpid: u16, vid: u8) -> Result<Cpu, AllocError> {
    let mut cpu = Cpu::build(alloc, number, 256)?;
    cpu.lpid = lpid;
    cpu.vid = vid;
    Ok(cpu)
}

/// Takes up the selected vCPU, which stores a value at address 0 of its guest.
fn enters_and_stores(
    rt: &impl Abort,
    guest: &mut Guest<StreamSeal>,
    cpu: &mut Cpu,
    pool: &mut Pool,
    value: u64,
)
    requires { IsWhole ⟦<StreamSeal as Seal>⟧.takes guest.old }
    ensures { IsWhole ⟦<StreamSeal as Seal>⟧.takes guest.new }
{
    at_guest(rt, guest, cpu, pool, &u_return(), Answer::Enter);
    at_guest(rt, guest, cpu, pool, &immediate(value), Answer::Done);
    at_guest(rt, guest, cpu, pool, &store(0), Answer::Done);
}

/// Moves a page of a guest from the begin to the end of a call, while a vCPU of another guest loads what it stored, and stores it
/// again.
fn moves(
    rt: &impl Abort,
    guest: &mut Guest<StreamSeal>,
    mover: &mut Cpu,
    begin: &Cmd,
    other: &mut Guest<StreamSeal>,
    cpu: &mut Cpu,
    pool: &mut Pool,
    frame: &mut NormalFrame,
)
    requires guest { IsWhole ⟦<StreamSeal as Seal>⟧.takes guest.old }
    requires other { IsWhole ⟦<StreamSeal as Seal>⟧.takes other.old }
    requires size { length frame.old ≡ 256 }
    ensures guest { IsWhole ⟦<StreamSeal as Seal>⟧.takes guest.new }
    ensures other { IsWhole ⟦<StreamSeal as Seal>⟧.takes other.new }
    ensures size { length frame.new ≡ 256 }
{
    at_guest(rt, guest, mover, pool, begin, Answer::Step);
    at_guest(rt, other, cpu, pool, &load(0), Answer::Val(7));
    copies(rt, mover, frame, 8);
    at_guest(rt, other, cpu, pool, &store(0), Answer::Done);
    at_guest(
        rt,
        guest,
        mover,
        pool,
        &Cmd::Go,
        Answer::Ret(Code::USuccess),
    );
}

#[test]
fn a_page_of_guest_2_goes_out_and_in_while_guest_1_runs(rt: HostRuntime) -> Result<(), Fail> {
    let config = config(rt.alloc())?;
    let mut one = guest_of(rt.alloc(), &config, 1)?;
    let mut two = guest_of(rt.alloc(), &config, 2)?;
    let mut pool = Pool::build(rt.alloc(), 16, 256)?;
    let mut frame = NormalFrame::build(rt.alloc(), 256)?;
    let mut first = selecting(rt.alloc(), 0, 1, 0)?;
    let mut second = selecting(rt.alloc(), 1, 1, 1)?;
    let mut third = selecting(rt.alloc(), 2, 2, 0)?;
    let mut fourth = selecting(rt.alloc(), 3, 1, 0)?;
    enters_and_stores(&rt, &mut one, &mut first, &mut pool, 7);
    enters_and_stores(&rt, &mut two, &mut third, &mut pool, 9);
    at_guest(
        &rt,
        &mut one,
        &mut second,
        &mut pool,
        &u_return(),
        Answer::Enter,
    );
    moves(
        &rt,
        &mut two,
        &mut fourth,
        &page_out(),
        &mut one,
        &mut first,
        &mut pool,
        &mut frame,
    );
    assert_eq!(rt; pool.free(), 15);
    at_guest(&rt, &mut two, &mut third, &mut pool, &load(0), Answer::Hole);
    moves(
        &rt,
        &mut two,
        &mut fourth,
        &page_in(),
        &mut one,
        &mut first,
        &mut pool,
        &mut frame,
    );
    at_guest(
        &rt,
        &mut two,
        &mut third,
        &mut pool,
        &load(0),
        Answer::Val(9),
    );
    at_guest(
        &rt,
        &mut one,
        &mut second,
        &mut pool,
        &load(0),
        Answer::Val(7),
    );
    assert_eq!(rt; pool.free(), 14);
    Ok(())
}

#[test]
fn a_move_that_ends_after_its_guest_comes_back_and_leaves_all(rt: HostRuntime) -> Result<(), Fail> {
    let config = config(rt.alloc())?;
    let mut guest = guest_of(rt.alloc(), &config, 2)?;
    let mut pool = Pool::build(rt.alloc(), 16, 256)?;
    let mut frame = NormalFrame::build(rt.alloc(), 256)?;
    let mut runs = selecting(rt.alloc(), 0, 2, 0)?;
    let mut moves = selecting(rt.alloc(), 1, 1, 0)?;
    enters_and_stores(&rt, &mut guest, &mut runs, &mut pool, 9);
    at_guest(
        &rt,
        &mut guest,
        &mut moves,
        &mut pool,
        &page_out(),
        Answer::Step,
    );
    copies(&rt, &mut moves, &mut frame, 8);
    ends(&rt, &mut guest);
    at_guest(
        &rt,
        &mut guest,
        &mut moves,
        &mut pool,
        &Cmd::Go,
        Answer::Ret(Code::UParameter),
    );
    assert_eq!(rt; pool.free(), 15);
    at_guest(
        &rt,
        &mut guest,
        &mut runs,
        &mut pool,
        &load(0),
        Answer::Gone,
    );
    Ok(())
}

#[test]
fn a_guest_in_normal_memory_stores_in_the_frame_that_it_needs(rt: HostRuntime) -> Result<(), Fail> {
    let mut config = Config::with_defaults(rt.alloc());
    config.shift = 8;
    let mut guest = guest_of(rt.alloc(), &config, 1)?;
    let mut pool = Pool::build(rt.alloc(), 16, 256)?;
    let mut frame = NormalFrame::build(rt.alloc(), 256)?;
    let mut cpu = selecting(rt.alloc(), 0, 1, 0)?;
    let entry = Cmd::UPate {
        lpid: 1,
        dw0: 0x300,
        dw1: 2,
    };
    let enter = Cmd::HEnter {
        lpid: 1,
        vid: 0,
        value: 0,
    };
    at_guest(
        &rt,
        &mut guest,
        &mut cpu,
        &mut pool,
        &entry,
        Answer::Ret(Code::USuccess),
    );
    at_guest(&rt, &mut guest, &mut cpu, &mut pool, &enter, Answer::Enter);
    at_guest(
        &rt,
        &mut guest,
        &mut cpu,
        &mut pool,
        &immediate(7),
        Answer::Done,
    );
    at_guest_through(
        &rt,
        &mut guest,
        &mut cpu,
        4,
        &mut frame,
        &store(0x108),
        Answer::Done,
    );
    assert_eq!(rt; frame.load(8), 7);
    Ok(())
}
