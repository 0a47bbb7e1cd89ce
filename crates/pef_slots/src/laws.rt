//! The laws of slots that come and go: each is the contract of a function that does nothing.

ghost use Rattle.pef_slots.specs.SlotsLaw.{AcceptedStayApart, RemainingStayApart, PageHasOneSlot, RegisteredComesOut, OthersKeepOrder, PagesHaveTheirSlot, RunsMeetAtAPage, SlotHasItsBytes, SlotIsTheGuests};

/// Where a slot is accepted, and joins, each two slots have different ids and no page in common, as before.
pub fn accepted_stay_apart()
    ensures { AcceptedStayApart }
{}

/// And where one leaves.
pub fn remaining_stay_apart()
    ensures { RemainingStayApart }
{}

/// A page lies in one slot at most.
pub fn page_has_one_slot()
    ensures { PageHasOneSlot }
{}

/// The slot that was registered last is found by its id, and without it the slots are as they were before.
pub fn registered_comes_out()
    ensures { RegisteredComesOut }
{}

/// Where a slot leaves, those before it and those behind it stay, in their order.
pub fn others_keep_order()
    ensures { OthersKeepOrder }
{}

/// A page has a slot's id exactly where it lies in that slot, and none exactly where it lies in no slot.
pub fn pages_have_their_slot()
    ensures { PagesHaveTheirSlot }
{}

/// A run of pages meets the slots exactly where one of its pages lies in one of them.
pub fn runs_meet_at_a_page()
    ensures { RunsMeetAtAPage }
{}

/// A slot that is accepted has the page of each byte from the start on, as many bytes as the size, and no other page.
pub fn slot_has_its_bytes()
    ensures { SlotHasItsBytes }
{}

/// Each page of a slot that is accepted is one of the guest's.
pub fn slot_is_the_guests()
    ensures { SlotIsTheGuests }
{}
