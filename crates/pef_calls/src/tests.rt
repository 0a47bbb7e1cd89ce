//! Rows of the table, and what leaves with one, against values from the description of the table.

use super::*;
use pef_model::{H_CONFER, Regs, Row, RowKind};

const CONFER: Row = Row {
    number: 9,
    first: 4,
    inputs: 2,
    outputs: 0,
    kind: RowKind::Reflected,
};

const GET_TERM_CHAR: Row = Row {
    number: 11,
    first: 4,
    inputs: 1,
    outputs: 3,
    kind: RowKind::Reflected,
};

#[test]
fn rows_have_their_inputs_and_outputs(rt: HostRuntime) {
    let calls = hcalls();
    assert_eq!(rt; H_CONFER, 9);
    assert_eq!(rt; calls.row(9), Some(CONFER));
    assert_eq!(rt; calls.row(11), Some(GET_TERM_CHAR));
    assert_eq!(rt; calls.row(19), None);
}

#[test]
fn rows_are_a_table_in_order_alone(rt: HostRuntime) {
    assert!(rt; Table::of([CONFER, GET_TERM_CHAR]).is_some());
    assert!(rt; Table::of([GET_TERM_CHAR, CONFER]).is_none());
    assert!(rt; Table::of([CONFER, CONFER]).is_none());
}

#[test]
fn confer_shows_its_two_inputs(rt: HostRuntime) {
    let mut gpr = [0; 32];
    gpr[3] = 9;
    gpr[4] = 1;
    gpr[5] = 65;
    gpr[20] = 99;
    let regs = Regs {
        gpr,
        nip: 0x100,
        srr0: 0x200,
    };
    match hcalls().row(9) {
        Some(row) => {
            let shown = scrub(&regs, &row);
            assert_eq!(rt; shown.gpr[3], 9);
            assert_eq!(rt; shown.gpr[4], 1);
            assert_eq!(rt; shown.gpr[5], 65);
            assert_eq!(rt; shown.gpr[20], 0);
        }
        None => assert!(rt; false),
    }
}
