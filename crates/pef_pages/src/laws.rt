//! The laws of the definitions: each is the contract of a function that does nothing.

ghost use Rattle.pef_pages.specs.Laws.{EachCellKeepsHeadline, EachSecurePageGoesOut, EachAbsentPageComesIn, EachWriteChangesFrameAlone, FramesMoveSingly};

/// A page has a secure frame exactly where it is Secure or moves, and a digest exactly where it is Out. A Shared page
/// doesn't move, and is not fresh where a normal frame backs it.
pub fn each_cell_keeps_headline<F>()
    ensures { EachCellKeepsHeadline F }
{}

/// A Secure page that moves outward stays Secure in its frame until the move ends; then it has the digest that was given.
pub fn each_secure_page_goes_out<F>()
    ensures { EachSecurePageGoesOut F }
{}

/// An Invalid or Out page that moves inward keeps its kind and its digest until the move ends; then it is Secure in the
/// frame, or as it was before the move.
pub fn each_absent_page_comes_in<F>()
    ensures { EachAbsentPageComesIn F }
{}

/// A write of a page's secure frame leaves its kind, its mover and its digest, and puts no frame where there was none.
pub fn each_write_changes_frame_alone<F>()
    ensures { EachWriteChangesFrameAlone F }
{}

/// Where one page changes, the secure frames that the pages have change by what came and what left, whichever of them are
/// counted: no other frame comes, goes or is doubled.
pub fn frames_move_singly<F>()
    ensures { FramesMoveSingly F }
{}
