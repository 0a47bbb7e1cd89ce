//! A failure is made where it is counted, and the count never falls.

ghost use Rattle.std.specs.Prelude.{◌≡◌, ◌≤◌};
ghost use Rattle.pef_io.specs.Cause.{raised};

/// A read or a write that failed. It has moved no byte.
///
/// The device that answers it has counted a fault in the same call.
#[derive(Clone, Copy, Debug, PartialEq, Eq)]
pub struct Failed;

/// How many calls of a device have failed. It stays at 2^64 − 1.
#[derive(Clone, Copy, Debug)]
pub(crate) struct FaultCount {
    pub(crate) count: u64,
}

impl FaultCount {
    /// The count of a device that has not been called.
    pub(crate) fn zero() -> FaultCount
        ensures { result.count ≡ 0 }
    {
        FaultCount { count: 0 }
    }

    /// Counts a fault, and gives the failure to report.
    pub(crate) fn fail(&mut self) -> Failed
        ensures raised { self.new.count ≡ raised self.old.count }
        ensures never_falls { self.old.count ≤ self.new.count }
    {
        self.count = self.count.saturating_add(1);
        Failed
    }
}
