//! Refusals, names and numbers, computed from the definitions: each is the contract of a function that does nothing.

ghost use Rattle.pef_model.specs.RefusalLaw.{PageOutRefusals, PageInRefusals, InvalRefusals, NoFrameIsFree, TheLastGuest, AGuestMeanwhile, AGuestMeanwhileIn, NormalAtTheEdge, PagesOf512Bytes};
ghost use Rattle.pef_model.specs.PhaseLaw.{TablesByPhase};
ghost use Rattle.pef_model.specs.NameLaw.{EachNameIsWritten, FrameHasItsLine, AreNumbers};
ghost use Rattle.pef_model.specs.EntryLaw.{ANormalGuest, AGuestEndsAsItRuns, AllRegistersAreLeft, PateRefusals, SelectRefusals, EnterRefusals};
ghost use Rattle.pef_model.specs.SlotLaw.{APageComesBack, RegisterRefusals, UnregisterRefusals};
ghost use Rattle.pef_model.specs.HypercallLaw.{CallsAreAnswered, ANormalGuestCalls, InputsAloneLeave};

/// The codes of UV_PAGE_OUT, each where what would be refused later is wrong too.
pub fn page_out_refusals()
    ensures { PageOutRefusals }
{}

/// The codes of UV_PAGE_IN, each where what would be refused later is wrong too.
pub fn page_in_refusals()
    ensures { PageInRefusals }
{}

/// The codes of UV_PAGE_INVAL, each where what would be refused later is wrong too; and what it answers of a page that is
/// Invalid, on the move or Out, and to a guest.
pub fn inval_refusals()
    ensures { InvalRefusals }
{}

/// A page-in for which no secure frame is free answers U_BUSY.
pub fn no_frame_is_free()
    ensures { NoFrameIsFree }
{}

/// On a machine with one guest a page of guest 1 goes out, and there is no guest 2.
pub fn the_last_guest()
    ensures { TheLastGuest }
{}

/// What a guest is answered while its page is paged out.
pub fn a_guest_meanwhile()
    ensures { AGuestMeanwhile }
{}

/// What a guest is answered while its page is paged in.
pub fn a_guest_meanwhile_in()
    ensures { AGuestMeanwhileIn }
{}

/// Which real addresses the hypervisor can load and store.
pub fn normal_at_the_edge()
    ensures { NormalAtTheEdge }
{}

/// Page moves on a machine whose pages have 512 bytes, each operand just beside a right one, and right.
pub fn pages_of_512_bytes()
    ensures { PagesOf512Bytes }
{}

/// What UV_RETURN, UV_PAGE_OUT, UV_PAGE_IN, UV_PAGE_INVAL and a load answer, and what an access meets, in a guest of each phase
/// with a page of each kind, what UV_PAGE_INVAL leaves of the page, and what UV_RETURN does by what the vCPU waits for; also
/// where no script brings a guest, a page or a vCPU there.
pub fn tables_by_phase()
    ensures { TablesByPhase }
{}

/// A report with names of commands, codes and answers, and how Gone and Nothing are written.
pub fn each_name_is_written()
    ensures { EachNameIsWritten }
{}

/// A report has a line for each normal frame that isn't all zero, in their order, with the SHA-256 of its bytes; it has CPUs and
/// frames in decimal, and values in hexadecimal.
pub fn frame_has_its_line()
    ensures { FrameHasItsLine }
{}

/// The numbers that registers show.
pub fn registers_have_numbers()
    ensures { AreNumbers }
{}

/// A guest in normal memory: its partition entry is refused and written, it stores in a normal frame, leaves and ends.
pub fn a_normal_guest()
    ensures { ANormalGuest }
{}

/// What a vCPU in normal memory is answered whose guest ends as it runs, and what it finds in its registers once it is entered
/// anew.
pub fn a_guest_ends_as_it_runs()
    ensures { AGuestEndsAsItRuns }
{}

/// A guest in normal memory leaves with all its registers.
pub fn all_registers_are_left()
    ensures { AllRegistersAreLeft }
{}

/// The codes of UV_WRITE_PATE, each where what would be refused later is wrong too.
pub fn pate_refusals()
    ensures { PateRefusals }
{}

/// The codes of h.select, each where what would be refused later is wrong too.
pub fn select_refusals()
    ensures { SelectRefusals }
{}

/// The codes of h.enter, each where what would be refused later is wrong too.
pub fn enter_refusals()
    ensures { EnterRefusals }
{}

/// A guest's page that lies in no slot for a while is met as it was, once a slot has it again, and a hole meanwhile.
pub fn a_page_comes_back()
    ensures { APageComesBack }
{}

/// Each code of UV_REGISTER_MEM_SLOT in its order, where what would be refused later is wrong too; and what is accepted then.
pub fn register_refusals()
    ensures { RegisterRefusals }
{}

/// Each code of UV_UNREGISTER_MEM_SLOT in its order.
pub fn unregister_refusals()
    ensures { UnregisterRefusals }
{}

/// What a secure guest's hypercalls are answered, and which registers its CPU shows where one leaves; a sum that wraps, an
/// exclusive-or.
pub fn calls_are_answered()
    ensures { CallsAreAnswered }
{}

/// A guest in normal memory leaves with any hypercall, shows all its registers, and has the answer of `h.enter` in R3.
pub fn a_normal_guest_calls()
    ensures { ANormalGuestCalls }
{}

/// Two runs that differ in a register that is no input of a hypercall show the hypervisor the same; where an input differs they
/// don't.
pub fn inputs_alone_leave()
    ensures { InputsAloneLeave }
{}
