//! At what a command aims.

use crate::state::Move;

/// At what a command aims, beside its CPU, as the CPU's context and the command tell.
#[derive(Clone, Copy)]
pub enum Aim {
    /// At nothing.
    Nothing,
    /// At the guest that a call names, if there is one of that number.
    NamedGuest(u64),
    /// At a guest that is there: the selected one, or the one that runs.
    Guest(u16),
    /// At the doubleword at a real address, if there is one.
    Address(u64),
    /// At a page on the move: its normal frame until it is copied, and then its guest.
    Move(Move),
}
