//! The hypervisor registers memory slots of a guest, and takes them out.

ghost use Rattle.std.specs.Prelude.{◌≡◌, ◌/◌, ◌^◌, ◌<◌};
ghost use Rattle.pef_model.specs.Plan.{Plan, IsWithin};
ghost use Rattle.pef_model.specs.Slots.{registered_by, unregistered_by};
ghost use Rattle.pef_model.specs.SlotCalls.{register_code, unregister_code};
ghost use Rattle.pef_model.specs.Guest.{Guest as GuestWhole};
ghost use Rattle.pef_frames.specs.Pool.{PoolState};
ghost use Rattle.pef_guest.specs.Shows.{Shows};
ghost use Rattle.pef_guest.specs.Whole.{IsWhole};
ghost use Rattle.pef_guest.specs.Does.{DoesRow};
ghost use Rattle.pef_reflect.specs.Slots.{code_of};

use pef_guest::{Cpu, Guest, registers};
use pef_model::{Answer, Cmd, Code, Ctx};
use pef_seal::Seal;
use pef_slots::SlotFault;

/// UV_REGISTER_MEM_SLOT of the hypervisor: the guest may have the pages from a guest address on, of a size in bytes, from now on,
/// as the slot of an id. The guest is the one that the call names.
///
/// The answer is the code in R3, the first of these: U_PARAMETER where the guest is neither Starting nor Secure; U_P2 where no
/// page of it begins at the start; U_P3 where the size is 0 or no whole number of pages, or reaches past its last page, or where
/// one of the pages lies in a slot; U_P4 where the flags are not 0; U_P5 where the id is above 65535 or that of a slot, or the
/// guest has 32 slots; and U_SUCCESS. The order of the tests is this project's own.
pub fn register_slot<S: Seal>(
    guest: &mut Guest<S>,
    cpu: &mut Cpu,
    lpid: u64,
    start: u64,
    size: u64,
    flags: u64,
    id: u64,
) -> Answer
    requires hypervisor { cpu.old.ctx ≡ Ctx.Hv }
    requires whole { IsWhole S.takes guest.old }
    requires steps { guest.old.steps < 2 ^ 63 }
    ensures { (pool : PoolState) → DoesRow S.takes S.stands S.image (Cmd.URegslot lpid start size flags id) guest.old guest.new cpu.old cpu.new pool pool result }
{
    guest.steps += 1;
    registers::load(
        &mut cpu.gpr,
        &Cmd::URegslot {
            lpid,
            start,
            size,
            flags,
            id,
        },
    );
    let code = register(guest, start, size, flags, id);
    cpu.refuse(code)
}

/// UV_UNREGISTER_MEM_SLOT of the hypervisor: the guest may have the pages of the slot of an id no longer. They stay as they are,
/// and come back as they were with a slot that has them again. The guest is the one that the call names.
///
/// The answer is the code in R3, the first of these: U_PARAMETER where the guest is neither Starting nor Secure; U_P2 where no
/// slot has the id; and U_SUCCESS.
pub fn unregister_slot<S: Seal>(guest: &mut Guest<S>, cpu: &mut Cpu, lpid: u64, id: u64) -> Answer
    requires hypervisor { cpu.old.ctx ≡ Ctx.Hv }
    requires whole { IsWhole S.takes guest.old }
    requires steps { guest.old.steps < 2 ^ 63 }
    ensures { (pool : PoolState) → DoesRow S.takes S.stands S.image (Cmd.UUnregslot lpid id) guest.old guest.new cpu.old cpu.new pool pool result }
{
    guest.steps += 1;
    registers::load(&mut cpu.gpr, &Cmd::UUnregslot { lpid, id });
    let code = unregister(guest, id);
    cpu.refuse(code)
}

/// Registers a slot of a guest whose slots may be changed, and gives the code with which the call comes back.
fn register<S: Seal>(guest: &mut Guest<S>, start: u64, size: u64, flags: u64, id: u64) -> Code
    requires { IsWithin 8 16 guest.old.shift }
    ensures code { (plan : Plan) (g : GuestWhole) → Shows S.stands S.image plan guest.old g → result ≡ register_code plan g.part start size flags id }
    ensures guest { guest.new ≡ record guest.old { slots = registered_by result guest.old.slots (record { id = id; first = start / 2 ^ guest.old.shift; count = size / 2 ^ guest.old.shift }) } }
{
    if !guest.may_change_slots() {
        return Code::UParameter;
    }
    let pages = guest.pages.count();
    match guest
        .slots
        .register(start, size, flags, id, guest.shift, pages)
    {
        Ok(()) => Code::USuccess,
        Err(fault) => code_of(fault),
    }
}

/// Takes the slot of an id out of a guest whose slots may be changed, and gives the code with which the call comes back.
fn unregister<S: Seal>(guest: &mut Guest<S>, id: u64) -> Code
    ensures code { (plan : Plan) (g : GuestWhole) → Shows S.stands S.image plan guest.old g → result ≡ unregister_code g.part id }
    ensures guest { guest.new ≡ record guest.old { slots = unregistered_by result guest.old.slots id } }
{
    if !guest.may_change_slots() {
        return Code::UParameter;
    }
    match guest.slots.unregister(id) {
        Ok(_) => Code::USuccess,
        Err(fault) => code_of(fault),
    }
}

/// The code of a fault: that of the operand which is wrong, and that of the id where the guest has 32 slots.
fn code_of(fault: SlotFault) -> Code
    ensures { result ≡ code_of fault }
{
    match fault {
        SlotFault::BadStart | SlotFault::NoSlot => Code::UP2,
        SlotFault::BadSize | SlotFault::Overlap => Code::UP3,
        SlotFault::BadFlags => Code::UP4,
        SlotFault::IdOutOfRange | SlotFault::IdTaken | SlotFault::Full => Code::UP5,
    }
}
