//! The hypercalls: a row for each, with the registers that leave with it and come back.

/// Who answers a secure guest's hypercall.
#[derive(Clone, Copy, Debug, PartialEq, Eq)]
pub enum RowKind {
    /// The hypervisor, which gets the call's inputs.
    Reflected,
    /// The ultravisor, and the hypervisor hears nothing of it.
    Local,
    /// Nobody: it is the ultravisor's own call to the hypervisor about the guest.
    Svm,
}

/// A hypercall: its number, and the registers that go out and come back with it. Which these are is this project's own.
#[derive(Clone, Copy, Debug, PartialEq, Eq)]
pub struct Row {
    /// The number that its caller puts into R3, from 0 to 255.
    pub number: u8,
    /// The number of the first register of the inputs, and of the outputs: in a table it is 4.
    pub first: u8,
    /// How many registers from the first on go out with the call: in a table 0 to 9.
    pub inputs: u8,
    /// How many registers from the first on come back with it: in a table 0 to 9.
    pub outputs: u8,
    /// Who answers it.
    pub kind: RowKind,
}

/// UV_ESM has begun: the guest is to become a secure virtual machine.
pub const H_SVM_INIT_START: u8 = 1;

/// UV_ESM is done: the guest is a secure virtual machine.
pub const H_SVM_INIT_DONE: u8 = 2;

/// UV_ESM failed: the guest's pages go back.
pub const H_SVM_INIT_ABORT: u8 = 3;

/// The ultravisor asks for a page of the guest.
pub const H_SVM_PAGE_IN: u8 = 4;

/// The ultravisor asks that a page of the guest is paged out.
pub const H_SVM_PAGE_OUT: u8 = 5;

/// The guest asks for a random doubleword, which the hypervisor is not to choose.
pub const H_RANDOM: u8 = 6;

/// The guest gives up its processor until it has something to do.
pub const H_CEDE: u8 = 7;

/// The guest wakes another of its virtual processors.
pub const H_PROD: u8 = 8;

/// The guest gives the rest of its time to another of its virtual processors.
pub const H_CONFER: u8 = 9;

/// The guest writes to its console.
pub const H_PUT_TERM_CHAR: u8 = 10;

/// The guest reads from its console.
pub const H_GET_TERM_CHAR: u8 = 11;

/// The guest has dealt with an interrupt.
pub const H_EOI: u8 = 12;

/// The guest sets which interrupts its processor takes.
pub const H_CPPR: u8 = 13;

/// The guest interrupts one of its virtual processors.
pub const H_IPI: u8 = 14;

/// The guest looks which interrupt waits, and doesn't take it.
pub const H_IPOLL: u8 = 15;

/// The guest takes the interrupt that waits.
pub const H_XIRR: u8 = 16;

/// The guest sets a resource of its processor, as where interrupts go.
pub const H_SET_MODE: u8 = 17;

/// The guest names an area that it shares with the hypervisor.
pub const H_REGISTER_VPA: u8 = 18;

macro_rules! row {
    ($number:ident, $inputs:literal, $outputs:literal, $kind:ident) => {
        Row {
            number: $number,
            first: 4,
            inputs: $inputs,
            outputs: $outputs,
            kind: RowKind::$kind,
        }
    };
}

/// Each hypercall with the numbers of its inputs and of its outputs, from R4 on, and with who answers it.
pub const HCALLS: [Row; 18] = [
    row!(H_SVM_INIT_START, 0, 0, Svm),
    row!(H_SVM_INIT_DONE, 0, 0, Svm),
    row!(H_SVM_INIT_ABORT, 0, 0, Svm),
    row!(H_SVM_PAGE_IN, 3, 0, Svm),
    row!(H_SVM_PAGE_OUT, 3, 0, Svm),
    row!(H_RANDOM, 0, 1, Local),
    row!(H_CEDE, 0, 0, Reflected),
    row!(H_PROD, 1, 0, Reflected),
    row!(H_CONFER, 2, 0, Reflected),
    row!(H_PUT_TERM_CHAR, 4, 0, Reflected),
    row!(H_GET_TERM_CHAR, 1, 3, Reflected),
    row!(H_EOI, 1, 0, Reflected),
    row!(H_CPPR, 1, 0, Reflected),
    row!(H_IPI, 2, 0, Reflected),
    row!(H_IPOLL, 1, 2, Reflected),
    row!(H_XIRR, 0, 1, Reflected),
    row!(H_SET_MODE, 4, 0, Reflected),
    row!(H_REGISTER_VPA, 3, 0, Reflected),
];
