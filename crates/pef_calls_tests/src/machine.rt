//! A secure guest stores and loads, and so does the hypervisor.

ghost use Rattle.std.specs.Prelude.{◌≡◌, ◌<◌, length, IfOk};

use pef_core::Machine;
use pef_model::{Answer, Cmd, Config, Reg};
use pef_seal::StreamSeal;
use pef_top::stream_sealers;
use std::alloc::{AllocError, Global};
use std::process::Abort;
use std::test::Fail;

fn register(number: u8) -> Reg
    requires { number < 32 }
    ensures { result ≡ number }
{
    match Reg::new(number) {
        Some(register) => register,
        None => unreachable!(),
    }
}

/// A machine with two CPUs, whose guest 1 is secure from the start.
fn secure_machine(alloc: Global) -> Result<Machine<StreamSeal>, AllocError>
    ensures { IfOk result (λ machine. length machine.cpus ≡ 2) }
{
    let mut config = Config::with_defaults(alloc);
    config.cpus = 2;
    config.born.push(1)?;
    Machine::build(alloc, &config, stream_sealers(alloc, &config)?)
}

/// Does the steps one after another, each by its CPU, and compares what it answers.
fn run(rt: &impl Abort, machine: &mut Machine<StreamSeal>, steps: &[(u8, Cmd, Answer)])
    requires { length machine.old.cpus ≡ 2 }
    ensures { length machine.new.cpus ≡ 2 }
{
    for (cpu, cmd, answer) in steps {
        assert!(rt; *cpu < 2);
        assert!(rt; machine.steps() < 100);
        assert_eq!(rt; machine.step(*cpu, cmd), *answer);
    }
}

/// Compares how many secure frames are free, how many steps were done, and how many normal frames there are.
fn counts(rt: &impl Abort, machine: &Machine<StreamSeal>, free: u32, steps: u64) {
    assert_eq!(rt; machine.free(), free);
    assert_eq!(rt; machine.steps(), steps);
    assert_eq!(rt; machine.normal(), 16);
}

/// Compares the beginning of a normal frame, behind which it is all zero.
fn begins(rt: &impl Abort, machine: &Machine<StreamSeal>, number: u32, start: &[u8]) {
    assert!(rt; number < machine.normal());
    let bytes = machine.frame(number).bytes();
    assert_eq!(rt; bytes.len(), 0x1_0000);
    assert!(rt; bytes.starts_with(start));
    assert!(rt; bytes.iter().skip(start.len()).all(|byte| *byte == 0));
}

pub(crate) fn u_return() -> Cmd {
    Cmd::UReturn {
        r0: 0,
        r2: 0,
        outs: [0; 9],
    }
}

pub(crate) fn immediate(value: u64) -> Cmd {
    Cmd::GLi {
        rd: register(20),
        value,
    }
}

pub(crate) fn store(gpa: u64) -> Cmd {
    Cmd::GSt {
        rs: register(20),
        gpa,
    }
}

pub(crate) fn load(gpa: u64) -> Cmd {
    Cmd::GLd {
        rd: register(6),
        gpa,
    }
}

#[test]
fn stores_and_loads(rt: HostRuntime) -> Result<(), Fail> {
    let mut machine = secure_machine(rt.alloc())?;
    counts(&rt, &machine, 16, 0);
    run(
        &rt,
        &mut machine,
        &[
            (0, u_return(), Answer::Enter),
            (0, immediate(7), Answer::Done),
            (0, store(0), Answer::Done),
            (0, load(0), Answer::Val(7)),
        ],
    );
    counts(&rt, &machine, 15, 4);
    Ok(())
}

#[test]
fn loads_what_the_hypervisor_stored(rt: HostRuntime) -> Result<(), Fail> {
    let mut machine = secure_machine(rt.alloc())?;
    let value = 0x0102_0304_0506_0708;
    run(
        &rt,
        &mut machine,
        &[
            (0, Cmd::HSt { ra: 8, value }, Answer::Done),
            (0, Cmd::HLd { ra: 8 }, Answer::Val(value)),
            (0, Cmd::HLd { ra: 0 }, Answer::Val(0)),
            (0, Cmd::HLd { ra: 0xF_FFF8 }, Answer::Val(0)),
        ],
    );
    counts(&rt, &machine, 16, 4);
    begins(
        &rt,
        &machine,
        0,
        &[0, 0, 0, 0, 0, 0, 0, 0, 1, 2, 3, 4, 5, 6, 7, 8],
    );
    begins(&rt, &machine, 1, &[]);
    Ok(())
}
