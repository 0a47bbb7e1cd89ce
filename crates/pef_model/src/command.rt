//! A command is one of a closed list, and names no register above R31.

ghost use Rattle.std.specs.Prelude.{◌≡◌, ◌<◌, ◌↔◌, IsSome, IfSome};
ghost use Rattle.pef_model.specs.Commands.{IsCommand};
ghost use Rattle.pef_model.specs.Registers.{number_of};

use std::marker::Model;

/// The number of the ultracall UV_WRITE_PATE, which its caller puts into R3. This project's own.
pub const UV_WRITE_PATE: u64 = 1;

/// The number of the ultracall UV_REGISTER_MEM_SLOT, which its caller puts into R3. This project's own.
pub const UV_REGISTER_MEM_SLOT: u64 = 2;

/// The number of the ultracall UV_UNREGISTER_MEM_SLOT, which its caller puts into R3. This project's own.
pub const UV_UNREGISTER_MEM_SLOT: u64 = 3;

/// The number of the ultracall UV_PAGE_IN, which its caller puts into R3. This project's own.
pub const UV_PAGE_IN: u64 = 4;

/// The number of the ultracall UV_PAGE_OUT, which its caller puts into R3. This project's own.
pub const UV_PAGE_OUT: u64 = 5;

/// The number of the ultracall UV_PAGE_INVAL, which its caller puts into R3. This project's own.
pub const UV_PAGE_INVAL: u64 = 6;

/// The number of the ultracall UV_RETURN, which its caller puts into R3. This project's own.
pub const UV_RETURN: u64 = 8;

/// The greatest flags of UV_PAGE_IN: the manual's CACHE_INHIBITED 1, CACHE_ENABLED 2 and WRITE_PROTECTION 4 are accepted and
/// have no effect.
pub const PAGE_IN_FLAGS: u64 = 7;

/// The flag of UV_PAGE_OUT that asks for a copy of a page which stays. This project's own number.
pub const UV_SNAPSHOT: u64 = 1;

/// What R3 shows the hypervisor where an external interrupt takes a secure guest from the CPU: the interrupt's vector. This
/// project's own choice of register.
pub const EXTERNAL_INTERRUPT: u64 = 0x500;

/// The number of one of the registers R0 to R31, seen as that number.
#[derive(Clone, Copy, Debug, PartialEq, Eq)]
pub struct Reg {
    number: u8,
}

impl Model for Reg {
    ghost use Rattle.std.specs.Prelude.{ℕ, ◌<◌};

    ghost Value = { ℕ };

    ghost view = { λ r. r.number };

    ghost invariant = { λ r. r.number < 32 };

    ghost inverse = { λ n. record { number = n } };
}

impl Reg {
    /// The register of a number; None exactly where the number is 32 or above.
    pub fn new(number: u8) -> Option<Reg>
        ensures found { IsSome result ↔ (number < 32) }
        ensures value { IfSome result (λ r. r ≡ number) }
    {
        if number < 32 {
            Some(Reg { number })
        } else {
            None
        }
    }

    /// Its number, 0 to 31.
    pub fn number(self) -> u8
        ensures value { result ≡ self }
        ensures bound { result < 32 }
    {
        self.number
    }
}

/// What an ultracall or a hypercall gives back in R3.
#[derive(Clone, Copy, Debug, PartialEq, Eq)]
pub enum Code {
    /// The call is done.
    USuccess,
    /// The first operand names nothing that the call is for, or the guest has ended since the call began.
    UParameter,
    /// The second operand is wrong.
    UP2,
    /// The third operand is wrong.
    UP3,
    /// The fourth operand is wrong.
    UP4,
    /// The fifth operand is wrong.
    UP5,
    /// The call doesn't do what was asked for.
    UFunction,
    /// The call can't be done at present.
    UBusy,
    /// The caller has no right to the call.
    UPermission,
    /// The call makes no sense in the caller's state.
    UInvalid,
    /// The hypercall is done.
    HSuccess,
    /// A hypercall that isn't the guest's to make.
    HUnsupported,
    /// A hypercall that isn't there.
    HFunction,
    /// A hypercall that wants what the machine doesn't have.
    HHardware,
}

impl Code {
    /// The number that stands for it in R3. This project's own.
    pub fn number(self) -> u64
        ensures { result ≡ number_of self }
    {
        match self {
            Code::USuccess => 0,
            Code::UParameter => 1,
            Code::UP2 => 2,
            Code::UP3 => 3,
            Code::UP4 => 4,
            Code::UP5 => 5,
            Code::UFunction => 6,
            Code::UBusy => 7,
            Code::UPermission => 8,
            Code::UInvalid => 9,
            Code::HSuccess => 0,
            Code::HUnsupported => 37,
            Code::HFunction => 38,
            Code::HHardware => 39,
        }
    }
}

/// A command: what the hypervisor or the guest on a CPU does in one step.
#[derive(Clone, Copy, Debug, PartialEq, Eq)]
pub enum Cmd {
    /// The hypervisor loads the doubleword at a real address, in bytes, into R3.
    HLd {
        ra: u64,
    },
    /// The hypervisor stores a doubleword at a real address, in bytes.
    HSt {
        ra: u64,
        value: u64,
    },
    /// The hypervisor selects a vCPU, from 0, of the guest of a number, from 1: UV_RETURN takes up the selected one.
    HSelect {
        lpid: u64,
        vid: u64,
    },
    /// The hypervisor enters a vCPU, from 0, of the guest of a number, from 1, that is in normal memory; the value is for R3 of
    /// one that asked for it.
    HEnter {
        lpid: u64,
        vid: u64,
        value: u64,
    },
    /// The ultracall UV_WRITE_PATE: the partition entry of the guest of a number, from 1, has the real address, in bytes, of the
    /// normal frame of its page 0, and the number of its pages; with no page the guest ends.
    UPate {
        lpid: u64,
        dw0: u64,
        dw1: u64,
    },
    /// The ultracall UV_REGISTER_MEM_SLOT: the guest of a number, from 1, has a memory slot from a guest address on, of a size,
    /// both in bytes, under an id.
    URegslot {
        lpid: u64,
        start: u64,
        size: u64,
        flags: u64,
        id: u64,
    },
    /// The ultracall UV_UNREGISTER_MEM_SLOT: the guest of a number, from 1, loses the memory slot of an id.
    UUnregslot {
        lpid: u64,
        id: u64,
    },
    /// The ultracall UV_PAGE_IN: the page at a guest address, in bytes, of the guest of a number, from 1, comes in from the
    /// normal frame at a real address, in bytes; the order is a page's size as a power of two.
    UPagein {
        lpid: u64,
        src: u64,
        gpa: u64,
        flags: u64,
        order: u64,
    },
    /// The ultracall UV_PAGE_OUT: the page at a guest address, in bytes, of the guest of a number, from 1, moves into the
    /// normal frame at a real address, in bytes; the order is a page's size as a power of two.
    UPageout {
        lpid: u64,
        dest: u64,
        gpa: u64,
        flags: u64,
        order: u64,
    },
    /// The ultracall UV_PAGE_INVAL: the page at a guest address, in bytes, of the guest of a number, from 1, loses its normal
    /// frame if it is Shared; the order is a page's size as a power of two.
    UInval {
        lpid: u64,
        gpa: u64,
        order: u64,
    },
    /// The ultracall UV_RETURN, with the values that the caller loads: R0 a hypercall's return value, R2 the
    /// address of a synthesized interrupt or 0, and R4 to R12 a hypercall's outputs.
    UReturn {
        r0: u64,
        r2: u64,
        outs: [u64; 9],
    },
    /// The guest puts a value into a register.
    GLi {
        rd: Reg,
        value: u64,
    },
    /// The guest adds two registers into one, without what is past 64 bits.
    GAdd {
        rd: Reg,
        ra: Reg,
        rb: Reg,
    },
    /// The guest combines two registers into one by exclusive-or.
    GXor {
        rd: Reg,
        ra: Reg,
        rb: Reg,
    },
    /// The guest loads the doubleword at a guest address, in bytes, into a register.
    GLd {
        rd: Reg,
        gpa: u64,
    },
    /// The guest stores a register at a guest address, in bytes.
    GSt {
        rs: Reg,
        gpa: u64,
    },
    /// The guest makes the hypercall whose number it has in R3, with its inputs from R4 on.
    GHcall,
    /// An external interrupt comes while the guest runs.
    GIrq,
    /// The next step of the call in progress.
    Go,
    /// A register is shown, of the hypervisor on its CPU or of the vCPU that runs. It changes nothing of either.
    Dump {
        reg: Reg,
    },
}

impl Cmd {
    /// A command is one that a history can have: its types bound its numbers. It does nothing.
    pub fn numbers_fit(self)
        ensures { IsCommand self }
    {
        match self {
            Cmd::HLd { .. } => {}
            Cmd::HSt { .. } => {}
            Cmd::HSelect { .. } => {}
            Cmd::HEnter { .. } => {}
            Cmd::UPate { .. } => {}
            Cmd::URegslot { .. } => {}
            Cmd::UUnregslot { .. } => {}
            Cmd::UPagein { .. } => {}
            Cmd::UPageout { .. } => {}
            Cmd::UInval { .. } => {}
            Cmd::UReturn { outs, .. } => {
                let [_r4, _r5, _r6, _r7, _r8, _r9, _r10, _r11, _r12] = outs;
            }
            Cmd::GLi { .. } => {}
            Cmd::GAdd { .. } => {}
            Cmd::GXor { .. } => {}
            Cmd::GLd { .. } => {}
            Cmd::GSt { .. } => {}
            Cmd::GHcall => {}
            Cmd::GIrq => {}
            Cmd::Go => {}
            Cmd::Dump { .. } => {}
        }
    }
}

/// What a line of a script tells its CPU to do.
#[derive(Clone, Copy, Debug, PartialEq, Eq)]
pub enum Directive {
    /// One command, once.
    Once(Cmd),
    /// `go` again and again, at least once, until no call is in progress or nothing can be done at present.
    GoAll,
}
