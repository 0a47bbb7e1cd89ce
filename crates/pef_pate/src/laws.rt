//! The laws of partition entries: each is the contract of a function that does nothing.

ghost use Rattle.pef_pate.specs.EntryLaw.{FramesAreNormal, PagesHaveTheirFrames, EmptyEntryMapsNone};

/// Of an entry that was checked each page's frame is a normal one, and the page is one of the guest's.
pub fn frames_are_normal()
    ensures { FramesAreNormal }
{}

/// Two pages of an entry have two frames.
pub fn pages_have_their_frames()
    ensures { PagesHaveTheirFrames }
{}

/// An entry of length 0 has no page.
pub fn empty_entry_maps_none()
    ensures { EmptyEntryMapsNone }
{}
