//! A call loads its values into R0, R2, R3 and R4 to R12; a guest's command moves on to the next instruction.

ghost use Rattle.std.specs.Prelude.{◌≡◌, ◌≢◌, ◌≤◌, ℕ, length, Some, slice_index, slice_set};
ghost use Rattle.pef_model.specs.Registers.{with_call, loaded, with_code, number_of};
ghost use Rattle.pef_model.specs.Guest.{at_next_instruction, entered_at};
ghost use Rattle.pef_regs.specs.Loads.{LoadsCall};

use pef_model::{
    Cmd, Code, Reg, Regs, UV_PAGE_IN, UV_PAGE_INVAL, UV_PAGE_OUT, UV_REGISTER_MEM_SLOT, UV_RETURN,
    UV_UNREGISTER_MEM_SLOT, UV_WRITE_PATE,
};

/// Loads what the caller of an ultracall loads: the call's number into R3, and its operands into R4 and the registers after it;
/// UV_RETURN alone has two values more, in R0 and R2. A command that is no ultracall loads nothing.
#[tactic(auto, using(crate::proofs::Loading::loads_call))]
pub fn load(gpr: &mut [u64; 32], cmd: &Cmd)
    ensures gpr { gpr.new ≡ loaded gpr.old cmd.now }
    ensures rest { LoadsCall gpr.old gpr.new }
{
    cmd.numbers_fit();
    match cmd {
        Cmd::UPate { lpid, dw0, dw1 } => put(gpr, UV_WRITE_PATE, &[*lpid, *dw0, *dw1]),
        Cmd::URegslot {
            lpid,
            start,
            size,
            flags,
            id,
        } => put(
            gpr,
            UV_REGISTER_MEM_SLOT,
            &[*lpid, *start, *size, *flags, *id],
        ),
        Cmd::UUnregslot { lpid, id } => put(gpr, UV_UNREGISTER_MEM_SLOT, &[*lpid, *id]),
        Cmd::UPagein {
            lpid,
            src,
            gpa,
            flags,
            order,
        } => put(gpr, UV_PAGE_IN, &[*lpid, *src, *gpa, *flags, *order]),
        Cmd::UPageout {
            lpid,
            dest,
            gpa,
            flags,
            order,
        } => put(gpr, UV_PAGE_OUT, &[*lpid, *dest, *gpa, *flags, *order]),
        Cmd::UInval { lpid, gpa, order } => put(gpr, UV_PAGE_INVAL, &[*lpid, *gpa, *order]),
        Cmd::UReturn { r0, r2, outs } => {
            gpr[0] = *r0;
            gpr[2] = *r2;
            put(gpr, UV_RETURN, outs);
        }
        _ => {}
    }
}

/// Puts a call's number into R3, and its operands into R4 and the registers after it.
fn put(gpr: &mut [u64; 32], number: u64, operands: &[u64])
    requires { length operands.now ≤ 9 }
    ensures { gpr.new ≡ with_call gpr.old (Some (record { number = number; operands = operands.now })) }
{
    gpr[3] = number;
    gpr[4..4 + operands.len()].copy_from_slice(operands);
}

/// The value of a register.
pub fn value_of(gpr: &[u64; 32], rs: Reg) -> u64
    ensures { result ≡ slice_index gpr.now rs }
{
    gpr[rs.number() as usize]
}

/// Gives a code back in R3.
pub fn give_code(gpr: &mut [u64; 32], code: Code)
    ensures gpr { gpr.new ≡ with_code gpr.old code }
    ensures given { slice_index gpr.new 3 ≡ number_of code }
    ensures rest { (r : ℕ) → r ≢ 3 → slice_index gpr.new r ≡ slice_index gpr.old r }
{
    gpr[3] = code.number();
}

/// Moves on to the next instruction.
pub fn move_on(regs: &mut Regs)
    ensures { regs.new ≡ at_next_instruction regs.old regs.old.gpr }
{
    regs.nip = regs.nip.wrapping_add(4);
}

/// Puts a value into a register, and moves on to the next instruction.
pub fn assign(regs: &mut Regs, rd: Reg, value: u64)
    ensures { regs.new ≡ at_next_instruction regs.old (slice_set regs.old.gpr rd value) }
{
    regs.gpr[rd.number() as usize] = value;
    move_on(regs);
}

/// Goes on at the address of a synthesized interrupt, and keeps in SRR0 where the vCPU was; at 0 there is none.
pub fn interrupt(regs: &mut Regs, r2: u64)
    ensures { regs.new ≡ entered_at regs.old r2 }
{
    if r2 != 0 {
        regs.srr0 = regs.nip;
        regs.nip = r2;
    }
}
