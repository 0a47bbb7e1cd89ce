//! What of a guest's registers the hypervisor sees with a hypercall.

ghost use Rattle.std.specs.Prelude.{◌≡◌, ◌<◌};
ghost use Rattle.pef_model.specs.Hypercalls.{IsRow, scrubbed, value_scrubbed};

use pef_model::{Regs, Row};

/// A guest's registers as they leave with the call of a row: R3 is the row's number, the row's inputs are kept, and every other
/// register is 0, and so are `nip` and `srr0`.
pub fn scrub(regs: &Regs, row: &Row) -> Regs
    requires { IsRow row.now }
    ensures { result ≡ scrubbed row.now regs.now }
{
    let mut gpr = [0; 32];
    for r in 0..32 {
        gpr[r] = shown(regs, row, r);
    }
    Regs {
        gpr,
        nip: 0,
        srr0: 0,
    }
}

// What the hypervisor sees in a register, by its number.
fn shown(regs: &Regs, row: &Row, r: usize) -> u64
    requires { r < 32 }
    ensures { result ≡ value_scrubbed row.now regs.now.gpr r }
{
    let first = usize::from(row.first);
    if r == 3 {
        u64::from(row.number)
    } else if first <= r && r < first + usize::from(row.inputs) {
        regs.gpr[r]
    } else {
        0
    }
}
