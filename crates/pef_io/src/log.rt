//! Bytes that only proofs read. They take no memory, and adding to them does nothing at run time.

ghost use Rattle.std.specs.Prelude.{◌≡◌, ℕ, List, [], ◌++◌};
ghost use Rattle.std.specs.Borrow.{ftrue};

use std::marker::{Model, PhantomData};

/// The bytes that a device moved so far. A clause reads them as `bytes`.
#[derive(Drop)]
pub(crate) struct ByteLog {
    marker: PhantomData<u8>,
    pub ghost bytes: { List ℕ },
}

impl Model for ByteLog {
    ghost also_owns = { λ _. ftrue };
}

impl ByteLog {
    /// The log of a device that has moved nothing.
    pub(crate) fn new() -> ByteLog
        ensures { result.bytes ≡ [] }
    {
        ByteLog {
            marker: PhantomData,
        }
    }

    /// Adds the bytes at the end.
    pub(crate) fn add(&mut self, _bytes: &[u8])
        ensures { self.new.bytes ≡ self.old.bytes ++ _bytes.now }
    {}
}
