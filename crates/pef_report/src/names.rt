//! Commands, codes and hypercalls have names.

ghost use Rattle.std.specs.Prelude.{◌≡◌, ◌≤◌, [], length, slice_index_or};
ghost use Rattle.pef_model.specs.Report.{command_name, code_name, hypercall_names};

use pef_model::{Cmd, Code};

/// A command's name in a report, of at most 11 bytes.
pub fn name_of(cmd: &Cmd) -> &'static [u8]
    ensures name { result.now ≡ command_name cmd.now }
    ensures short { length result.now ≤ 11 }
{
    match cmd {
        Cmd::HLd { .. } => b"h.ld",
        Cmd::HSt { .. } => b"h.st",
        Cmd::HSelect { .. } => b"h.select",
        Cmd::HEnter { .. } => b"h.enter",
        Cmd::UPate { .. } => b"u.pate",
        Cmd::URegslot { .. } => b"u.regslot",
        Cmd::UUnregslot { .. } => b"u.unregslot",
        Cmd::UPagein { .. } => b"u.pagein",
        Cmd::UPageout { .. } => b"u.pageout",
        Cmd::UInval { .. } => b"u.inval",
        Cmd::UReturn { .. } => b"u.return",
        Cmd::GLi { .. } => b"g.li",
        Cmd::GAdd { .. } => b"g.add",
        Cmd::GXor { .. } => b"g.xor",
        Cmd::GLd { .. } => b"g.ld",
        Cmd::GSt { .. } => b"g.st",
        Cmd::GHcall => b"g.hcall",
        Cmd::GIrq => b"g.irq",
        Cmd::Go => b"go",
        Cmd::Dump { .. } => b"dump",
    }
}

/// A code's name in a report, of at most 13 bytes.
pub fn name_of_code(code: Code) -> &'static [u8]
    ensures name { result.now ≡ code_name code }
    ensures short { length result.now ≤ 13 }
{
    match code {
        Code::USuccess => b"U_SUCCESS",
        Code::UParameter => b"U_PARAMETER",
        Code::UP2 => b"U_P2",
        Code::UP3 => b"U_P3",
        Code::UP4 => b"U_P4",
        Code::UP5 => b"U_P5",
        Code::UFunction => b"U_FUNCTION",
        Code::UBusy => b"U_BUSY",
        Code::UPermission => b"U_PERMISSION",
        Code::UInvalid => b"U_INVALID",
        Code::HSuccess => b"H_SUCCESS",
        Code::HUnsupported => b"H_UNSUPPORTED",
        Code::HFunction => b"H_FUNCTION",
        Code::HHardware => b"H_HARDWARE",
    }
}

/// The hypercalls' names, in the order of their numbers; 0 is none.
static HYPERCALLS: [&[u8]; 19] = [
    b"",
    b"H_SVM_INIT_START",
    b"H_SVM_INIT_DONE",
    b"H_SVM_INIT_ABORT",
    b"H_SVM_PAGE_IN",
    b"H_SVM_PAGE_OUT",
    b"H_RANDOM",
    b"H_CEDE",
    b"H_PROD",
    b"H_CONFER",
    b"H_PUT_TERM_CHAR",
    b"H_GET_TERM_CHAR",
    b"H_EOI",
    b"H_CPPR",
    b"H_IPI",
    b"H_IPOLL",
    b"H_XIRR",
    b"H_SET_MODE",
    b"H_REGISTER_VPA",
];

/// The name of the hypercall of a number, of at most 16 bytes; a number that none has gives no byte.
pub fn name_of_hypercall(number: u8) -> &'static [u8]
    ensures name { result.now ≡ slice_index_or hypercall_names number [] }
    ensures short { length result.now ≤ 16 }
{
    HYPERCALLS.get(usize::from(number)).copied().unwrap_or(b"")
}
