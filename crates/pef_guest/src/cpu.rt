//! A CPU goes into a guest and comes back, and shows the hypervisor no more than the guest's exit says.

ghost use Rattle.std.specs.Prelude.{◌≡◌, [], slice_index, slice_set, IfOk};
ghost use Rattle.pef_model.specs.Registers.{zero_registers, with_code};
ghost use Rattle.pef_guest.specs.Refused.{RefusesCpu};

use crate::hand::Hand;
use pef_model::{Answer, Code, Ctx, EXTERNAL_INTERRUPT, Exit, Reg, Run, Work};
use pef_regs::registers;
use std::alloc::{AllocError, Global};

/// A CPU.
#[derive(Drop)]
pub struct Cpu {
    /// Its number, from 0.
    pub number: u8,
    /// What it is doing.
    pub ctx: Ctx,
    /// R0 to R31, as the hypervisor has them on this CPU.
    pub gpr: [u64; 32],
    /// The selected guest, from 1.
    pub lpid: u16,
    /// The selected vCPU, from 0.
    pub vid: u8,
    /// What the last command of the hypervisor answered, or the guest that left or has ended.
    pub last: Answer,
    /// One page of public bytes.
    pub hand: Hand,
}

impl Cpu {
    ghost use Rattle.pef_guest.specs.Start.{IsStartCpu};
    ghost use Rattle.pef_guest.specs.Refused.{RefusesCpu};
    ghost use Rattle.pef_guest.specs.Leaves.{leaving};

    /// The CPU of a number, from 0, with a hand of a size in bytes. The hypervisor runs on it, with zero registers; guest 1
    /// and its vCPU 0 are selected. Refused where the memory is not to be had.
    pub fn build(alloc: Global, number: u8, size: u32) -> Result<Cpu, AllocError>
        ensures { IfOk result (IsStartCpu number size) }
    {
        let hand = Hand::build(alloc, size)?;
        Ok(Cpu {
            number,
            ctx: Ctx::Hv,
            gpr: [0; 32],
            lpid: 1,
            vid: 0,
            last: Answer::Nothing,
            hand,
        })
    }

    /// The bytes in its hand.
    pub fn hand(&self) -> &[u8]
        ensures { result.now ≡ self.now.hand }
    {
        self.hand.bytes()
    }

    /// A vCPU goes on from now on, in this context: it runs, or its call is in progress.
    pub fn enter(&mut self, after: Ctx) -> Answer
        ensures answer { result ≡ Answer.Enter }
        ensures cpu { self.new ≡ record self.old { ctx = after; last = Answer.Enter } }
    {
        self.ctx = after;
        self.answer(Answer::Enter)
    }

    /// The hypervisor selects a vCPU, from 0, of a guest, from 1.
    pub fn select(&mut self, lpid: u16, vid: u8) -> Answer
        ensures answer { result ≡ Answer.Done }
        ensures cpu { self.new ≡ record self.old { lpid = lpid; vid = vid; last = Answer.Done } }
    {
        self.lpid = lpid;
        self.vid = vid;
        self.answer(Answer::Done)
    }

    /// A call of the hypervisor comes back with a code in R3.
    pub fn refuse(&mut self, code: Code) -> Answer
        ensures answer { result ≡ Answer.Ret code }
        ensures cpu { self.new ≡ record self.old { gpr = with_code self.old.gpr code; last = Answer.Ret code } }
        ensures refused { RefusesCpu self.old self.new code }
    {
        registers::give_code(&mut self.gpr, code);
        self.last = Answer::Ret(code);
        self.last
    }

    /// A call of the hypervisor is in progress from now on.
    pub fn begin(&mut self, work: Work) -> Answer
        ensures answer { result ≡ Answer.Step }
        ensures cpu { self.new ≡ record self.old { ctx = Ctx.Uv work; last = Answer.Step } }
    {
        self.ctx = Ctx::Uv(work);
        self.answer(Answer::Step)
    }

    /// The call in progress goes on, with this left to do. It is no step of the hypervisor, whose last answer stays.
    pub fn go_on(&mut self, work: Work) -> Answer
        ensures answer { result ≡ Answer.Step }
        ensures cpu { self.new ≡ record self.old { ctx = Ctx.Uv work } }
    {
        self.ctx = Ctx::Uv(work);
        Answer::Step
    }

    /// The call in progress comes back with a code in R3, and the hypervisor runs from now on.
    pub fn come_back(&mut self, code: Code) -> Answer
        ensures answer { result ≡ Answer.Ret code }
        ensures cpu { self.new ≡ record self.old { ctx = Ctx.Hv; gpr = with_code self.old.gpr code; last = Answer.Ret code } }
    {
        self.ctx = Ctx::Hv;
        self.refuse(code)
    }

    /// A step of the hypervisor answers this, and changes nothing else of the CPU.
    pub fn answer(&mut self, answer: Answer) -> Answer
        ensures answer { result ≡ answer }
        ensures cpu { self.new ≡ record self.old { last = answer } }
    {
        self.last = answer;
        answer
    }

    /// The hypervisor loads a value into R3.
    pub fn load(&mut self, value: u64) -> Answer
        ensures answer { result ≡ Answer.Val value }
        ensures cpu { self.new ≡ record self.old { gpr = slice_set self.old.gpr 3 value; last = Answer.Val value } }
    {
        self.gpr[3] = value;
        self.answer(Answer::Val(value))
    }

    /// The hypervisor is shown one of its registers, which are as they were.
    pub fn show(&mut self, reg: Reg) -> Answer
        ensures answer { result ≡ Answer.Val (slice_index self.old.gpr reg) }
        ensures cpu { self.new ≡ record self.old { last = Answer.Val (slice_index self.old.gpr reg) } }
    {
        let value = self.gpr[reg.number() as usize];
        self.answer(Answer::Val(value))
    }

    /// The vCPU that runs here leaves a guest in normal memory, which shows all its registers: these.
    pub fn leave_normal(&mut self, run: Run, shown: &[u64; 32]) -> Answer
        ensures answer { result ≡ Answer.Exit Exit.Normal }
        ensures cpu { self.new ≡ leaving self.old run Exit.Normal shown.now }
    {
        self.leave(run, Exit::Normal, *shown)
    }

    /// An interrupt takes the vCPU that runs here from it: the registers show the interrupt, and nothing of the guest.
    pub fn leave_interrupted(&mut self, run: Run) -> Answer
        ensures answer { result ≡ Answer.Exit Exit.Irq }
        ensures cpu { self.new ≡ leaving self.old run Exit.Irq [] }
    {
        let mut gpr = [0; 32];
        gpr[3] = EXTERNAL_INTERRUPT;
        self.leave(run, Exit::Irq, gpr)
    }

    /// The vCPU that runs here leaves so, and the registers are these: it is selected, and the hypervisor runs from now on.
    pub fn leave(&mut self, run: Run, exit: Exit, gpr: [u64; 32]) -> Answer
        ensures answer { result ≡ Answer.Exit exit }
        ensures cpu { self.new ≡ record self.old { ctx = Ctx.Hv; gpr = gpr; lpid = run.lpid; vid = run.vid; last = Answer.Exit exit } }
    {
        self.ctx = Ctx::Hv;
        self.gpr = gpr;
        self.lpid = run.lpid;
        self.vid = run.vid;
        self.last = Answer::Exit(exit);
        self.last
    }

    /// The guest that runs here has ended: it lets nothing out, and the hypervisor runs from now on.
    pub fn gone(&mut self) -> Answer
        ensures answer { result ≡ Answer.Gone }
        ensures cpu { self.new ≡ record self.old { ctx = Ctx.Hv; gpr = zero_registers; last = Answer.Gone } }
    {
        self.ctx = Ctx::Hv;
        self.gpr = [0; 32];
        self.last = Answer::Gone;
        self.last
    }
}
