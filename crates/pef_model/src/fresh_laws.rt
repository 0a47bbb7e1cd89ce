//! The laws of pages that come in: each is the contract of a function that does nothing.

ghost use Rattle.pef_model.specs.FreshLaw.{Freshness, MovesKeepLastStore, EachSoundPart, OwnEntriesClash, EachClashIsRefused, EachCollisionIsClash, NoRefusalIsClean};
ghost use Rattle.pef_model.specs.RunLaw.{OutAndIn, TagIsSeen, AnOlderImage, ChangeAfterCopy, OneBitBeforeCopy};

/// What comes in for a page that is Out, under its guest's generation, is accepted exactly where it is what was last paged out
/// of the page, which is Secure then; other bytes are refused, and the page is at rest as it was. The guest's last stores stay
/// either way.
pub fn freshness()
    ensures { Freshness }
{}

/// While a guest has one generation, no step but one of its own changes what it last stored in a page that is Invalid neither
/// before the step nor after it.
pub fn moves_keep_last_store()
    ensures { MovesKeepLastStore }
{}

/// The part of a history before its first digest collision is its longest first part without one, legal where the history
/// is, and the history where that has none.
pub fn each_sound_part()
    ensures { EachSoundPart }
{}

/// Whether an entry is a digest collision follows from the entries that touch its guest.
pub fn own_entries_clash()
    ensures { OwnEntriesClash }
{}

/// A page goes out and comes in, and the guest loads what it stored.
pub fn out_and_in()
    ensures { OutAndIn }
{}

/// What lies in normal memory of a page under the vault is its tag, and zeros.
pub fn tag_is_seen()
    ensures { TagIsSeen }
{}

/// An older image of a page is refused, and the newer one comes in.
pub fn an_older_image()
    ensures { AnOlderImage }
{}

/// A change of the normal frame after the copy changes nothing.
pub fn change_after_copy()
    ensures { ChangeAfterCopy }
{}

/// A change of the normal frame before the copy is refused, and the page comes in once it is undone.
pub fn one_bit_before_copy()
    ensures { OneBitBeforeCopy }
{}

/// A digest collision is a page-in that is refused: what was last paged out of the page are other bytes, with the same
/// SHA-256.
pub fn each_clash_is_refused()
    ensures { EachClashIsRefused }
{}

/// Each page-in of other bytes, with the SHA-256 of what was last paged out of the page, is a digest collision.
pub fn each_collision_is_clash()
    ensures { EachCollisionIsClash }
{}

/// A history in which no step answers U_P2 has no digest collision.
pub fn no_refusal_is_clean()
    ensures { NoRefusalIsClean }
{}
