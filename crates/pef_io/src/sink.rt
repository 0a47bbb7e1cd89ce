//! A sink keeps what it takes in the order in which it came.

ghost use Rattle.std.specs.Prelude.{◌≡◌, ◌≤◌, ◌<◌, ◌++◌, ℕ, List, length, take, IfOk};
ghost use Rattle.pef_io.specs.Cause.{HasCause, count_taken};

use crate::Failed;

/// Something that takes bytes: this project's own form of a writer, whose failures are counted.
pub trait Sink {
    /// All bytes that it took so far, in their order.
    ghost given: { Self → List ℕ };

    /// How many writes have failed. The count never falls, and stays at 2^64 − 1.
    ghost faults: { Self → ℕ };

    /// Appends the first bytes of the buffer, and says how many.
    ///
    /// It may take fewer than there are, which is no fault, but takes at least one unless the
    /// buffer is empty. After a failure nothing was appended.
    fn write(&mut self, buf: &[u8]) -> Result<usize, Failed>
        ensures bound { IfOk result (λ n. n ≤ length buf.now) }
        ensures some { IfOk result (λ n. 0 < length buf.now → 0 < n) }
        ensures bytes { given self.new ≡ given self.old ++ take (count_taken result) buf.now }
        ensures cause { HasCause (faults self.old) (faults self.new) result };
}
