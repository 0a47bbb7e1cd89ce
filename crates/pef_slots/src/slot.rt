//! Which pages lie in a memory slot, and why a call about one is refused.

ghost use Rattle.std.specs.Prelude.{◌≡◌, ◌<◌, ◌+◌, ◌≤◌};
ghost use Rattle.pef_model.specs.Slots.{has, has_any};

use pef_model::Slot;

/// Why a call is refused. That an overlap is refused, the order of the causes, ids of 16 bits and the limit of 32 slots are this
/// project's own.
#[derive(Clone, Copy, Debug, PartialEq, Eq)]
pub enum SlotFault {
    /// The start is no address of a page of the guest.
    BadStart,
    /// The size is 0, no whole number of pages, or reaches past the guest's last page.
    BadSize,
    /// One of the pages lies in a slot.
    Overlap,
    /// The flags are not 0.
    BadFlags,
    /// The id is above 65535.
    IdOutOfRange,
    /// A slot has the id.
    IdTaken,
    /// There are 32 slots.
    Full,
    /// No slot has the id.
    NoSlot,
}

/// Whether a page lies in a slot.
pub(crate) fn has_page(slot: &Slot, gfn: u32) -> bool
    ensures { result ≡ has slot.now gfn }
{
    gfn >= slot.first && gfn - slot.first < slot.count
}

/// Whether one of so many pages, from a first one on, lies in a slot.
#[tactic(auto, using(crate::proofs::Runs::any_meets))]
pub(crate) fn has_any_page(slot: &Slot, first: u32, count: u32) -> bool
    requires filled { 0 < slot.now.count }
    requires some { 0 < count }
    ensures { result ≡ has_any slot.now first count }
{
    has_page(slot, first) || (slot.first >= first && slot.first - first < count)
}
