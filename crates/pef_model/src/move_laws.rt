//! The laws of pages on the move: each is the contract of a function that does nothing.

ghost use Rattle.pef_model.specs.MoveLaw.{EachCpuMovesItsPage, EachCpuMovesItsPageIn, EachMoverHasItsCall, EachMoveIsOfAGeneration, EachPageKeepsWhatIsSealed, LastSealedIsBegun, VersionsCountPageOuts, NoTagTwice, PageOutSealsLastStore, PageHasEachDoubleword, PageHasItsLength, SealedPagesFill, OutPageIsSealed, EachMoveGoesThroughHand, EachCallBeginsWhatIsNamed};

/// A CPU with a page-out in progress, in its guest's generation, moves the page that its call names, which is still Secure, and
/// has in its hand what is pending of it.
pub fn each_cpu_moves_its_page()
    ensures { EachCpuMovesItsPage }
{}

/// A page that moves is named by the call in progress of the CPU that moves it.
pub fn each_mover_has_its_call()
    ensures { EachMoverHasItsCall }
{}

/// A CPU has no page's move in progress in a generation that its guest hasn't reached.
pub fn each_move_is_of_a_generation()
    ensures { EachMoveIsOfAGeneration }
{}

/// A page has last sealed bytes exactly where it is Out, and pending ones exactly where it moves outward.
pub fn each_page_keeps_what_is_sealed()
    ensures { EachPageKeepsWhatIsSealed }
{}

/// What was last sealed of a page that is Out is what the page-out sealed that made it Out, whatever happened between.
pub fn last_sealed_is_begun()
    ensures { LastSealedIsBegun }
{}

/// While a guest has one generation, the version of a page rises by how many page-outs of it begin.
pub fn versions_count_page_outs()
    ensures { VersionsCountPageOuts }
{}

/// No two page-outs of a history seal under one tag.
pub fn no_tag_twice()
    ensures { NoTagTwice }
{}

/// A page-out of a guest that is Secure seals the page of the last stores, under the tag of the page's next version.
pub fn page_out_seals_last_store()
    ensures { PageOutSealsLastStore }
{}

/// The bytes of a page have the doubleword of each address at its offset.
pub fn page_has_each_doubleword()
    ensures { PageHasEachDoubleword }
{}

/// The bytes of a page are as many as its size.
pub fn page_has_its_length()
    ensures { PageHasItsLength }
{}

/// A configuration's sealed pages have as many bytes as its pages.
pub fn sealed_pages_fill()
    ensures { SealedPagesFill }
{}

/// A CPU with a page-in in progress, in its guest's generation, moves the page that its call names, which is still Out in a
/// guest that is Secure.
pub fn each_cpu_moves_its_page_in()
    ensures { EachCpuMovesItsPageIn }
{}

/// The one copy that counts of a page that is Out are the sealed bytes of its last stores, under the tag of its version.
pub fn out_page_is_sealed()
    ensures { OutPageIsSealed }
{}

/// The copy of a page-out writes what its CPU has in its hand; that of a page-in reads the normal frame that the call names;
/// and the end of a page-in tests what its CPU has in its hand.
pub fn each_move_goes_through_hand()
    ensures { EachMoveGoesThroughHand }
{}

/// A call that begins moves the page that it names, from or into the normal frame that it names, in the guest's generation.
pub fn each_call_begins_what_is_named()
    ensures { EachCallBeginsWhatIsNamed }
{}
