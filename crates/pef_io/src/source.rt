//! A source gives its bytes in order, each of them once.

ghost use Rattle.std.specs.Prelude.{◌≡◌, ◌≤◌, ◌<◌, ◌++◌, ℕ, List, Option, length, take, IfOk, Ok};
ghost use Rattle.pef_io.specs.Cause.{HasCause, count_taken};

use crate::Failed;

/// Something that gives bytes: this project's own form of a reader, whose failures are counted.
pub trait Source {
    /// All bytes that it gave so far, in their order.
    ghost taken: { Self → List ℕ };

    /// Whether it said that no byte is left, when it last answered.
    ghost ended: { Self → Type 0 };

    /// All bytes that it gives until it ends, where that is told.
    ghost whole: { Self → Option (List ℕ) };

    /// How many reads have failed. The count never falls, and stays at 2^64 − 1.
    ghost faults: { Self → ℕ };

    /// Moves the first bytes that are left to the front of the buffer, and says how many.
    ///
    /// It may move fewer than the buffer holds, which is no fault. `Ok(0)` for a buffer that is
    /// not empty is the end of the input. After a failure the same bytes are left as before, and
    /// what the buffer holds is not said.
    fn read(&mut self, buf: &mut [u8]) -> Result<usize, Failed>
        ensures bound { IfOk result (λ n. n ≤ length buf.new) }
        ensures taken { taken self.new ≡ taken self.old ++ take (count_taken result) buf.new }
        ensures ended { result ≡ Ok 0 → 0 < length buf.new → ended self.new }
        ensures whole { whole self.new ≡ whole self.old }
        ensures cause { HasCause (faults self.old) (faults self.new) result };
}
