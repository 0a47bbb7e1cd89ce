//! The laws of answers and their causes, and of what guests keep: each is the contract of a function that does nothing.

ghost use Rattle.pef_model.specs.CauseLaw.{BusyExactlyWhere, BeginsExactlyWhere, EntersExactlyWhere, EntersNormalExactlyWhere, WritesExactlyWhere, RegistersExactlyWhere, UnregistersExactlyWhere, SelectsExactlyWhere, AgainExactlyWhere, HoleExactlyWhere, ExitsExactlyWhere, ContextExactlyWhere, GoneExactlyWhere};
ghost use Rattle.pef_model.specs.InvalLaw.{InvalExactlyWhere};
ghost use Rattle.pef_model.specs.AnswerLaw.{EachAnswerIsOfItsRow};
ghost use Rattle.pef_model.specs.OldMoveLaw.{OldMovesChangeNothing};
ghost use Rattle.pef_model.specs.ToldLaw.{AccessTellsItsFrame, PrivateAccessTellsNoFrame, EntryAtGuestIsTold};
ghost use Rattle.pef_model.specs.GuestLaw.{InvalidPageIsZero, WordsAreCounted, CleanIsEachGuests};
ghost use Rattle.pef_model.specs.TagLaw.{TagShowsNumbers, TagBytesTell, VaultImagesDiffer, VaultShowsTagAlone, KeystreamHasBlocks, StreamSealsEachByte};
ghost use Rattle.pef_model.specs.PublicLaw.{PublicStateHasObjects, AuthorityIsByKind};
ghost use Rattle.pef_model.specs.StartLaw.{StartsAs};
ghost use Rattle.pef_model.specs.AddressLaw.{EachAddressIsParted};

/// Each command has, in each context, one of the answers of its row, and in a context that isn't its own Context alone.
pub fn each_answer_is_of_its_row()
    ensures { EachAnswerIsOfItsRow }
{}

/// U_BUSY comes exactly at UV_PAGE_IN and UV_PAGE_OUT of the hypervisor with right operands: at a page-in where the page has
/// a mover or no secure frame is free, at a page-out of a page that isn't Shared where the guest is Starting or the page has
/// a mover.
pub fn busy_exactly_where()
    ensures { BusyExactlyWhere }
{}

/// UV_PAGE_IN and UV_PAGE_OUT of the hypervisor with right operands begin to move a page exactly where it is at rest and a
/// secure frame is free, or where it isn't Shared, is at rest, and its guest isn't Starting; no other command of the
/// hypervisor begins a call.
pub fn begins_exactly_where()
    ensures { BeginsExactlyWhere }
{}

/// UV_RETURN of the hypervisor enters exactly where the selected guest is in a phase for it and the selected vCPU waits.
pub fn enters_exactly_where()
    ensures { EntersExactlyWhere }
{}

/// h.enter enters exactly where it names a vCPU of a guest that is Normal, which hasn't run or waits.
pub fn enters_normal_exactly_where()
    ensures { EntersNormalExactlyWhere }
{}

/// UV_WRITE_PATE of the hypervisor writes a partition entry exactly where it names a guest that is Absent or Normal, a normal
/// frame, and at most as many pages as the guest has, with a normal frame for each.
pub fn writes_exactly_where()
    ensures { WritesExactlyWhere }
{}

/// UV_REGISTER_MEM_SLOT of the hypervisor registers a slot exactly where it names a guest that is Starting or Secure, pages of
/// it of which none lies in a slot, flags of 0 and an id of 16 bits that no slot has, and there are fewer than 32 slots.
pub fn registers_exactly_where()
    ensures { RegistersExactlyWhere }
{}

/// UV_UNREGISTER_MEM_SLOT of the hypervisor takes a slot out exactly where it names a guest that is Starting or Secure, and the
/// id of a slot of it.
pub fn unregisters_exactly_where()
    ensures { UnregistersExactlyWhere }
{}

/// UV_PAGE_INVAL of the hypervisor is accepted exactly where it names a guest that is Starting or Secure, a page of it that is
/// Invalid or Shared, and the order of a page's size.
pub fn inval_exactly_where()
    ensures { InvalExactlyWhere }
{}

/// h.select selects exactly where it names a vCPU of a guest of the machine.
pub fn selects_exactly_where()
    ensures { SelectsExactlyWhere }
{}

/// Again comes exactly at a vCPU's load or store in a page with a mover, in a slot of a guest that isn't Normal, under its
/// generation.
pub fn again_exactly_where()
    ensures { AgainExactlyWhere }
{}

/// Hole comes at loads and stores alone: of the hypervisor exactly at no doubleword of normal memory; of a guest that isn't
/// Normal, under its generation, exactly at no doubleword of a page, or in a page that lies in no slot, or in one at rest that
/// is Out, or Shared without a frame, or Invalid while no secure frame is free; of one that is Normal exactly at no doubleword
/// of a page in its partition entry.
pub fn hole_exactly_where()
    ensures { HoleExactlyWhere }
{}

/// A guest leaves under its generation alone: one that is Normal with all its registers, exactly by a hypercall or an interrupt;
/// every other by an interrupt with none, and with a hypercall exactly where the row of its number is the hypervisor's to answer.
pub fn exits_exactly_where()
    ensures { ExitsExactlyWhere }
{}

/// Context comes exactly at a command that is none of its CPU's context, and changes nothing.
pub fn context_exactly_where()
    ensures { ContextExactlyWhere }
{}

/// Gone comes exactly at a command of a vCPU that comes under another generation than its guest's, and changes its CPU alone:
/// the hypervisor runs, and sees zeros.
pub fn gone_exactly_where()
    ensures { GoneExactlyWhere }
{}

/// The end of a page's move under another generation than its guest's answers U_PARAMETER and changes its CPU alone; its copy
/// still copies.
pub fn old_moves_change_nothing()
    ensures { OldMovesChangeNothing }
{}

/// An access of a vCPU that is done tells the normal frame that it meets, and none where it meets none.
pub fn access_tells_its_frame()
    ensures { AccessTellsItsFrame }
{}

/// Such an access tells no normal frame exactly where its page is private.
pub fn private_access_tells_no_frame()
    ensures { PrivateAccessTellsNoFrame }
{}

/// An entry at a guest follows from the guest, the command and what the entry tells of all else.
pub fn entry_at_guest_is_told()
    ensures { EntryAtGuestIsTold }
{}

/// After a legal history a page that is Invalid holds 0 at each of its addresses.
pub fn invalid_page_is_zero()
    ensures { InvalidPageIsZero }
{}

/// The number of a guest's entropy words that is public is that of the words that are left.
pub fn words_are_counted()
    ensures { WordsAreCounted }
{}

/// A history has no digest collision exactly where no guest has met one, which the entries that touch the guest tell.
pub fn clean_is_each_guests()
    ensures { CleanIsEachGuests }
{}

/// A tag's 32 bytes are its guest's number, its generation, its page's number and its version, each a doubleword.
pub fn tag_shows_numbers()
    ensures { TagShowsNumbers }
{}

/// Tags with the same bytes are one.
pub fn tag_bytes_tell()
    ensures { TagBytesTell }
{}

/// The sealed pages that a vault makes under two tags differ.
pub fn vault_images_differ()
    ensures { VaultImagesDiffer }
{}

/// A sealed page of a vault is its tag, and zeros behind it.
pub fn vault_shows_tag_alone()
    ensures { VaultShowsTagAlone }
{}

/// Which byte of which digest each byte of a keystream is.
pub fn keystream_has_blocks()
    ensures { KeystreamHasBlocks }
{}

/// A sealed page of the stream is as long as the page, and each byte of it is the page's with the keystream's by exclusive-or.
pub fn stream_seals_each_byte()
    ensures { StreamSealsEachByte }
{}

/// The public state has the CPUs, what is public of the guests, the number of free frames and the normal frames.
pub fn public_state_has_objects()
    ensures { PublicStateHasObjects }
{}

/// Of a Secure page its secure frame counts, of one that is Out its last sealed bytes, of a Shared one its normal frame, and
/// of each other no copy.
pub fn authority_is_by_kind()
    ensures { AuthorityIsByKind }
{}

/// What each guest, vCPU, page, CPU and frame starts with.
pub fn starts_as()
    ensures { StartsAs }
{}

/// Each address is one of a frame or page and of an offset there, whatever the size of pages; it is that of a frame, a page or
/// a doubleword exactly where it stands at a frame's or page's begin, or at a multiple of 8, and there is such a one.
pub fn each_address_is_parted()
    ensures { EachAddressIsParted }
{}
