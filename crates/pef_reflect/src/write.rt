//! The hypervisor sets a guest's partition entry: the guest comes into normal memory, or ends there.

ghost use Rattle.std.specs.Prelude.{◌≡◌, ◌≢◌, ◌-◌, ◌^◌, ◌<◌};
ghost use Rattle.pef_model.specs.Plan.{Plan, IsWithin};
ghost use Rattle.pef_model.specs.Guest.{Guest as GuestWhole};
ghost use Rattle.pef_model.specs.Entry.{write_code};
ghost use Rattle.pef_frames.specs.Pool.{PoolState};
ghost use Rattle.pef_guest.specs.Shows.{Shows};
ghost use Rattle.pef_guest.specs.Whole.{IsWhole};
ghost use Rattle.pef_guest.specs.Does.{DoesRow};
ghost use Rattle.pef_reflect.specs.Write.{SetsEntry};

use pef_guest::{Cpu, Guest, registers};
use pef_model::{Answer, Cmd, Code, Ctx};
use pef_pate::{Pate, PateFault};
use pef_seal::Seal;

/// UV_WRITE_PATE of the hypervisor: the partition entry of a guest becomes the real address, in bytes, of the normal frame of
/// its page 0, and the number of its pages. With a page the guest is Normal from now on, and its vCPUs stay as they are. With
/// none it is Absent, in the next generation, and each vCPU is Idle with zero registers; one that runs finds out at its next
/// command. The guest is the one that the call names.
///
/// The answer is the code in R3, the first of these: U_PERMISSION where the guest is Starting, Secure or Aborting; U_P2 where
/// no normal frame begins at the address; U_P3 where the guest has fewer pages, or the machine fewer normal frames from there
/// on; and U_SUCCESS. The order of the tests is this project's own.
pub fn write_entry<S: Seal>(
    guest: &mut Guest<S>,
    cpu: &mut Cpu,
    lpid: u64,
    dw0: u64,
    dw1: u64,
) -> Answer
    requires hypervisor { cpu.old.ctx ≡ Ctx.Hv }
    requires whole { IsWhole S.takes guest.old }
    requires steps { guest.old.steps < 2 ^ 63 }
    ensures { (pool : PoolState) → DoesRow S.takes S.stands S.image (Cmd.UPate lpid dw0 dw1) guest.old guest.new cpu.old cpu.new pool pool result }
{
    guest.steps += 1;
    registers::load(&mut cpu.gpr, &Cmd::UPate { lpid, dw0, dw1 });
    let code = set_entry(guest, dw0, dw1);
    cpu.refuse(code)
}

/// Sets the entry of a guest that may have it, and gives the code with which the call comes back.
fn set_entry<S: Seal>(guest: &mut Guest<S>, dw0: u64, dw1: u64) -> Code
    requires shift { IsWithin 8 16 guest.old.shift }
    requires life { guest.old.generation < 2 ^ 64 - 1 }
    ensures code { (plan : Plan) (g : GuestWhole) → Shows S.stands S.image plan guest.old g → result ≡ write_code plan g.part dw0 dw1 }
    ensures set { result ≡ Code.USuccess → SetsEntry guest.old guest.new (record { dw0 = dw0; dw1 = dw1 }) }
    ensures stays { result ≢ Code.USuccess → guest.new ≡ guest.old }
{
    if !guest.may_write() {
        return Code::UPermission;
    }
    match Pate::check(dw0, dw1, guest.shift, guest.normal, guest.pages.count()) {
        Err(PateFault::BadBase) => Code::UP2,
        Err(PateFault::BadLength) => Code::UP3,
        Ok(entry) => {
            guest.set_entry(entry);
            Code::USuccess
        }
    }
}
