//! A load or store of the vCPU that a CPU runs does what the model says, whatever the guest has kept so far.

ghost use Rattle.std.specs.Prelude.{true, false, ◌≡◌, ◌%◌, ◌^◌, ◌<◌, ◌∷◌, [], Some, None, length};
ghost use Rattle.pef_model.specs.declared.command.Cmd.{Cmd};
ghost use Rattle.pef_model.specs.declared.state.Ctx.{Ctx};
ghost use Rattle.pef_model.specs.Memory.{write_in, after_writes};
ghost use Rattle.pef_model.specs.Seal.{doublewords};
ghost use Rattle.pef_guest.specs.Whole.{IsWhole};
ghost use Rattle.pef_guest.specs.Keeps.{IsPoolOf};
ghost use Rattle.pef_guest.specs.Ready.{IsRunning};
ghost use Rattle.pef_guest.specs.Does.{DoesLent, DoesRow};
ghost use Rattle.pef_frames.specs.Pool.{PoolState};
ghost use Rattle.pef_access.specs.Access.{asks_at, through_at, IsReached, value_at, stored_at, after_load, after_store, register_at, with_change};

use crate::access;
use pef_frames::{NormalFrame, Pool};
use pef_guest::{Cpu, Guest, registers};
use pef_model::{Answer, Reg, Run};
use pef_num::Place;
use pef_seal::Seal;

/// The guest loads the doubleword at an address into a register, where that takes no free frame and goes into no normal one.
///
/// Hole where the address is that of no doubleword in a page of its slots, or of its partition entry in normal memory, and where
/// the page is Out, or Shared without a frame; Again where the page is on the move.
pub fn load<S: Seal>(guest: &mut Guest<S>, cpu: &Cpu, run: Run, rd: Reg, gpa: u64) -> Answer
    requires runs { IsRunning cpu.now guest.old run }
    requires whole { IsWhole S.takes guest.old }
    requires met { asks_at guest.old gpa ≡ false }
    requires inside { through_at guest.old gpa ≡ None }
    requires steps { guest.old.steps < 2 ^ 63 }
    ensures { (pool : PoolState) → DoesRow S.takes S.stands S.image (Cmd.GLd rd gpa) guest.old guest.new cpu.now cpu.now pool pool result }
{
    guest.steps += 1;
    match access::reach(guest, gpa) {
        Ok(place) => load_at(guest, run, rd, place),
        Err(answer) => answer,
    }
}

/// The guest loads the doubleword at an address of an Invalid page into a register. Hole where no frame is free.
pub fn load_backing<S: Seal>(
    guest: &mut Guest<S>,
    cpu: &Cpu,
    pool: &mut Pool,
    run: Run,
    rd: Reg,
    gpa: u64,
) -> Answer
    requires runs { IsRunning cpu.now guest.old run }
    requires whole { IsWhole S.takes guest.old }
    requires pool { IsPoolOf guest.old pool.old }
    requires met { asks_at guest.old gpa ≡ true }
    requires steps { guest.old.steps < 2 ^ 63 }
    ensures { DoesRow S.takes S.stands S.image (Cmd.GLd rd gpa) guest.old guest.new cpu.now cpu.now pool.old pool.new result }
{
    guest.steps += 1;
    match access::back(guest, pool, gpa) {
        Some(place) => load_at(guest, run, rd, place),
        None => Answer::Hole,
    }
}

/// The guest loads the doubleword at an address into a register, from the normal frame of this number, into which the address
/// goes.
pub fn load_through<S: Seal>(
    guest: &mut Guest<S>,
    cpu: &Cpu,
    number: u32,
    frame: &NormalFrame,
    run: Run,
    rd: Reg,
    gpa: u64,
) -> Answer
    requires runs { IsRunning cpu.now guest.old run }
    requires whole { IsWhole S.takes guest.old }
    requires through { through_at guest.old gpa ≡ Some number }
    requires size { length frame.now ≡ 2 ^ guest.old.shift }
    requires steps { guest.old.steps < 2 ^ 63 }
    ensures { (pool : PoolState) → DoesLent S.takes S.stands S.image (Cmd.GLd rd gpa) guest.old guest.new cpu.now cpu.now pool pool (Some (record { number = number; bytes = frame.now })) frame.now result }
{
    guest.steps += 1;
    let value = frame.load(offset_in(frame, gpa));
    finish_load(guest, run, rd, value)
}

/// The guest stores a register at an address, where that takes no free frame and goes into no normal one. It is Hole and Again
/// where a load is.
pub fn store<S: Seal>(guest: &mut Guest<S>, cpu: &Cpu, run: Run, rs: Reg, gpa: u64) -> Answer
    requires runs { IsRunning cpu.now guest.old run }
    requires whole { IsWhole S.takes guest.old }
    requires met { asks_at guest.old gpa ≡ false }
    requires inside { through_at guest.old gpa ≡ None }
    requires steps { guest.old.steps < 2 ^ 63 }
    ensures { (pool : PoolState) → DoesRow S.takes S.stands S.image (Cmd.GSt rs gpa) guest.old guest.new cpu.now cpu.now pool pool result }
{
    guest.steps += 1;
    match access::reach(guest, gpa) {
        Ok(place) => store_at(guest, run, rs, place),
        Err(answer) => answer,
    }
}

/// The guest stores a register at an address of an Invalid page. Hole where no frame is free.
pub fn store_backing<S: Seal>(
    guest: &mut Guest<S>,
    cpu: &Cpu,
    pool: &mut Pool,
    run: Run,
    rs: Reg,
    gpa: u64,
) -> Answer
    requires runs { IsRunning cpu.now guest.old run }
    requires whole { IsWhole S.takes guest.old }
    requires pool { IsPoolOf guest.old pool.old }
    requires met { asks_at guest.old gpa ≡ true }
    requires steps { guest.old.steps < 2 ^ 63 }
    ensures { DoesRow S.takes S.stands S.image (Cmd.GSt rs gpa) guest.old guest.new cpu.now cpu.now pool.old pool.new result }
{
    guest.steps += 1;
    match access::back(guest, pool, gpa) {
        Some(place) => store_at(guest, run, rs, place),
        None => Answer::Hole,
    }
}

/// The guest stores a register at an address, in the normal frame of this number, into which the address goes. The rest of the
/// frame stays, and so do the guest's own pages.
pub fn store_through<S: Seal>(
    guest: &mut Guest<S>,
    cpu: &Cpu,
    number: u32,
    frame: &mut NormalFrame,
    run: Run,
    rs: Reg,
    gpa: u64,
) -> Answer
    requires runs { IsRunning cpu.now guest.old run }
    requires whole { IsWhole S.takes guest.old }
    requires through { through_at guest.old gpa ≡ Some number }
    requires size { length frame.old ≡ 2 ^ guest.old.shift }
    requires steps { guest.old.steps < 2 ^ 63 }
    ensures does { (pool : PoolState) → DoesLent S.takes S.stands S.image (Cmd.GSt rs gpa) guest.old guest.new cpu.now cpu.now pool pool (Some (record { number = number; bytes = frame.old })) frame.new result }
    ensures size { length frame.new ≡ length frame.old }
    ensures left { frame.new ≡ after_writes number frame.old (write_in guest.old.shift (Ctx.Guest run) (Cmd.GSt rs gpa) result (doublewords (register_at guest.old run.vid rs ∷ [])) number) }
{
    guest.steps += 1;
    let value = value_of(guest, run, rs);
    frame.store(offset_in(frame, gpa), value);
    finish_store(guest, run)
}

/// The load at a place in a secure frame.
fn load_at<S: Seal>(guest: &mut Guest<S>, run: Run, rd: Reg, place: Place) -> Answer
    requires vid { run.vid < length guest.old.vcpus.items }
    requires place { IsReached guest.old.pages place }
    ensures answer { result ≡ Answer.Val (value_at guest.old.pages place) }
    ensures guest { guest.new ≡ with_change guest.old run.vid (after_load rd (value_at guest.old.pages place)) }
{
    let value = access::load(&guest.pages, place);
    finish_load(guest, run, rd, value)
}

/// The store at a place in a secure frame.
fn store_at<S: Seal>(guest: &mut Guest<S>, run: Run, rs: Reg, place: Place) -> Answer
    requires vid { run.vid < length guest.old.vcpus.items }
    requires place { IsReached guest.old.pages place }
    ensures answer { result ≡ Answer.Done }
    ensures value { register_at guest.old run.vid rs < 2 ^ 64 }
    ensures guest { guest.new ≡ with_change (record guest.old { pages = stored_at guest.old.pages place (register_at guest.old run.vid rs) }) run.vid after_store }
{
    let value = value_of(guest, run, rs);
    access::store(&mut guest.pages, place, value);
    finish_store(guest, run)
}

/// The offset of a guest address in the normal frame of its page.
fn offset_in(frame: &NormalFrame, gpa: u64) -> u32
    requires { 0 < length frame.now }
    ensures { result ≡ gpa % length frame.now }
{
    (gpa % u64::from(frame.size())) as u32
}

/// The value of a register of the vCPU.
fn value_of<S: Seal>(guest: &Guest<S>, run: Run, rs: Reg) -> u64
    requires { run.vid < length guest.now.vcpus.items }
    ensures { result ≡ register_at guest.now run.vid rs }
{
    registers::value_of(&guest.vcpus[run.vid as usize].regs.gpr, rs)
}

/// A load is done: the register has the value, and the vCPU goes on.
fn finish_load<S: Seal>(guest: &mut Guest<S>, run: Run, rd: Reg, value: u64) -> Answer
    requires { run.vid < length guest.old.vcpus.items }
    ensures answer { result ≡ Answer.Val value }
    ensures guest { guest.new ≡ with_change guest.old run.vid (after_load rd value) }
{
    registers::assign(&mut guest.vcpus[run.vid as usize].regs, rd, value);
    Answer::Val(value)
}

/// A store is done: the vCPU goes on.
fn finish_store<S: Seal>(guest: &mut Guest<S>, run: Run) -> Answer
    requires { run.vid < length guest.old.vcpus.items }
    ensures answer { result ≡ Answer.Done }
    ensures guest { guest.new ≡ with_change guest.old run.vid after_store }
{
    registers::move_on(&mut guest.vcpus[run.vid as usize].regs);
    Answer::Done
}
