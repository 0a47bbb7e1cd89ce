//! The laws of one step and of counts: each is the contract of a function that does nothing.

ghost use Rattle.pef_model.specs.StepLaw.{EachEntryLeavesCpu, EachEntryLeavesRegisters, EachEntryTells};
ghost use Rattle.pef_model.specs.HypercallLaw.{EachHypercallIsScrubbed};
ghost use Rattle.pef_model.specs.InvalLaw.{InvalTakesFrame};
ghost use Rattle.pef_model.specs.TransitionLaw.{EachEntryLeavesKinds, EachEntryLeavesStates, EachEntryLeavesLives, EachEntryLeavesSlots};
ghost use Rattle.pef_model.specs.CountLaw.{EachCpuRunsItsVcpu, EachRunIsOfAGeneration, NoVcpuRunsTwice, FramesAreCounted, OrderHasSecurePages, OrderGrows, EachNormalGuestIsPlain, EachGuestHasItsSlots};

/// An entry leaves its CPU in the context that it tells, with these registers, last answer, selection and hand, and shows
/// what its step lets out.
pub fn each_entry_leaves_cpu()
    ensures { EachEntryLeavesCpu }
{}

/// While its guest has one generation and isn't Starting, a vCPU's next instruction changes at its own steps and where UV_RETURN
/// takes it up, SRR0 at the latter alone, and R0 to R31 at its own steps, where UV_RETURN gives it something: nothing to one that
/// hasn't run yet or was interrupted; and R3 where `h.enter` gives its hypercall the answer.
pub fn each_entry_leaves_registers()
    ensures { EachEntryLeavesRegisters }
{}

/// Where a secure guest leaves with a hypercall, its CPU's registers are the guest's, scrubbed by the row of the number in R3:
/// R3 is the number, the row's inputs are kept, and every other register is 0.
pub fn each_hypercall_is_scrubbed()
    ensures { EachHypercallIsScrubbed }
{}

/// A CPU that runs a vCPU of a guest's present generation is the one that the vCPU's state names, in the generation in which
/// the vCPU was taken up.
pub fn each_cpu_runs_its_vcpu()
    ensures { EachCpuRunsItsVcpu }
{}

/// A CPU runs no vCPU of a generation that its guest hasn't reached.
pub fn each_run_is_of_a_generation()
    ensures { EachRunIsOfAGeneration }
{}

/// In one generation no vCPU runs, or has its call in progress, on two CPUs.
pub fn no_vcpu_runs_twice()
    ensures { NoVcpuRunsTwice }
{}

/// The free frames, and the pages that are Secure or move inward, are together as many as the secure frames.
pub fn frames_are_counted()
    ensures { FramesAreCounted }
{}

/// A guest's order has each of its Secure pages once, and no other page.
pub fn order_has_secure_pages()
    ensures { OrderHasSecurePages }
{}

/// The pages that stay Secure keep their order, and a page that becomes Secure stands behind them.
pub fn order_grows()
    ensures { OrderGrows }
{}

/// A page becomes Secure by an access that was done or by a page-in that was accepted, Out by a page-out that ends, and a Shared
/// one loses its frame and keeps its mark by UV_PAGE_INVAL that is accepted; no other entry changes its kind.
pub fn each_entry_leaves_kinds()
    ensures { EachEntryLeavesKinds }
{}

/// UV_PAGE_INVAL that is accepted takes its frame from the Shared page that it names, which keeps its mark, and leaves every
/// other page, all else of the guests, the number of free frames and the normal frames.
pub fn inval_takes_frame()
    ensures { InvalTakesFrame }
{}

/// A vCPU runs on a CPU from where UV_RETURN or `h.enter` takes it up there, in the guest's generation, until an interrupt parks
/// it or UV_WRITE_PATE ends its guest, which leaves it Idle; no other entry changes its state or its generation.
pub fn each_entry_leaves_states()
    ensures { EachEntryLeavesStates }
{}

/// UV_WRITE_PATE that is accepted sets a guest's partition entry: with a page the guest is in normal memory, and with none it is
/// Absent, in another generation. No other entry changes a guest's phase, generation or partition entry.
pub fn each_entry_leaves_lives()
    ensures { EachEntryLeavesLives }
{}

/// UV_REGISTER_MEM_SLOT that is accepted puts a slot behind a guest's others, and UV_UNREGISTER_MEM_SLOT takes one out; no other
/// entry changes a guest's slots.
pub fn each_entry_leaves_slots()
    ensures { EachEntryLeavesSlots }
{}

/// The slots of a guest are at most 32, each two of them have different ids of 16 bits and no page in common, and each has pages
/// of the guest alone.
pub fn each_guest_has_its_slots()
    ensures { EachGuestHasItsSlots }
{}

/// Each page of a guest that is Absent or in normal memory is Invalid and at rest.
pub fn each_normal_guest_is_plain()
    ensures { EachNormalGuestIsPlain }
{}

/// An entry tells what its step learnt of its CPU.
pub fn each_entry_tells()
    ensures { EachEntryTells }
{}
