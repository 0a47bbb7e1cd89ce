//! A vCPU's registers through one hypercall and back, with values chosen here.

use super::*;
use pef_model::{Cmd, Code, Ctx, Pending, Reg, Row, RowKind, Run, VState, Work};

const GET_TERM_CHAR: Row = Row {
    number: 11,
    first: 4,
    inputs: 1,
    outputs: 3,
    kind: RowKind::Reflected,
};

#[test]
fn outputs_stand_from_r4_on(rt: HostRuntime) {
    let mut vcpu = Vcpu::new(VState::Fresh);
    assert!(rt; vcpu.is_waiting());
    vcpu.take_up(1, 2, 0x500);
    assert_eq!(rt; vcpu.regs.nip, 0x500);
    vcpu.regs.gpr[7] = 70;
    vcpu.park(Pending::Hcall(11));
    assert!(rt; vcpu.is_waiting());
    assert!(rt; vcpu.can_be_entered());
    vcpu.answer_call(Some(GET_TERM_CHAR), 33, &[1, 2, 3, 4, 5, 6, 7, 8, 9]);
    assert_eq!(rt; vcpu.regs.gpr[3], 33);
    assert_eq!(rt; vcpu.regs.gpr[4], 1);
    assert_eq!(rt; vcpu.regs.gpr[6], 3);
    assert_eq!(rt; vcpu.regs.gpr[7], 70);
    assert_eq!(rt; vcpu.regs.nip, 0x504);
}

#[test]
fn an_answer_is_for_the_call_alone(rt: HostRuntime) {
    let mut vcpu = Vcpu::new(VState::Idle);
    vcpu.give_answer(9);
    assert_eq!(rt; vcpu.regs.gpr[3], 0);
    vcpu.park(Pending::Exit);
    vcpu.give_answer(9);
    assert_eq!(rt; vcpu.regs.gpr[3], 9);
    match Reg::new(31) {
        Some(last) => {
            vcpu.set(last, 5);
            assert_eq!(rt; vcpu.reg(last), 5);
            registers::assign(&mut vcpu.regs, last, 6);
            assert_eq!(rt; registers::value_of(&vcpu.regs.gpr, last), 6);
            assert_eq!(rt; vcpu.regs.nip, 4);
        }
        None => assert!(rt; false),
    }
    registers::load(&mut vcpu.regs.gpr, &Cmd::UUnregslot { lpid: 1, id: 8 });
    assert_eq!(rt; vcpu.regs.gpr[3], 3);
    assert_eq!(rt; vcpu.regs.gpr[5], 8);
    registers::give_code(&mut vcpu.regs.gpr, Code::UBusy);
    assert_eq!(rt; vcpu.regs.gpr[3], 7);
}

/// A vCPU that waits for this.
fn parked(pending: Pending) -> Vcpu {
    let mut vcpu = Vcpu::new(VState::Fresh);
    vcpu.park(pending);
    vcpu
}

#[test]
fn a_call_goes_on_where_it_left(rt: HostRuntime) {
    let run = Run {
        lpid: 3,
        vid: 1,
        generation: 2,
    };
    assert!(rt; parked(Pending::Share(5)).goes_on_in(run) == Ctx::Uv(Work::Share(run)));
    assert!(rt; parked(Pending::Unshare(5)).goes_on_in(run) == Ctx::Uv(Work::Unshare(run)));
    assert!(rt; parked(Pending::UnshareAll(5)).goes_on_in(run) == Ctx::Uv(Work::UnshareAll(run)));
    assert!(rt; parked(Pending::EsmStart).goes_on_in(run) == Ctx::Uv(Work::Esm(run)));
    assert!(rt; parked(Pending::EsmNeed(5)).goes_on_in(run) == Ctx::Uv(Work::Esm(run)));
    assert!(rt; parked(Pending::EsmDone).goes_on_in(run) == Ctx::Uv(Work::Esm(run)));
    assert!(rt; parked(Pending::EsmNeed(5)).is_waiting());
    assert_eq!(rt; parked(Pending::Share(5)).address_for(0x500), 0);
}

#[test]
fn an_access_is_tried_again(rt: HostRuntime) {
    let run = Run {
        lpid: 3,
        vid: 1,
        generation: 2,
    };
    assert!(rt; parked(Pending::Fault(5)).goes_on_in(run) == Ctx::Guest(run));
    assert!(rt; parked(Pending::Victim(5)).is_waiting());
    assert_eq!(rt; parked(Pending::Victim(5)).address_for(0x500), 0x500);
}
