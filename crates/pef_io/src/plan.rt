//! The calls that fail are those that were named, and each is counted.

ghost use Rattle.std.specs.Prelude.{◌≡◌, ◌↔◌, Contains, IsErr};
ghost use Rattle.pef_io.specs.Cause.{HasCause, raised, faults_after};

use crate::faults::{Failed, FaultCount};

/// Which calls of a device in memory fail, and how many there were.
#[derive(Drop)]
pub(crate) struct CallPlan {
    /// The numbers of the calls that fail, counted from 0.
    pub(crate) fails: Vec<u64>,
    /// The number of the next call, which stays at 2^64 − 1.
    pub(crate) calls: u64,
    pub(crate) faults: FaultCount,
}

impl CallPlan {
    /// The plan before the first call.
    pub(crate) fn build(fails: Vec<u64>) -> CallPlan
        ensures fails { result.fails ≡ fails }
        ensures calls { result.calls ≡ 0 }
        ensures faults { result.faults.count ≡ 0 }
    {
        CallPlan {
            fails,
            calls: 0,
            faults: FaultCount::zero(),
        }
    }

    /// Counts a call, which fails where its number was named.
    pub(crate) fn begin_call(&mut self) -> Result<(), Failed>
        ensures failed { IsErr result ↔ Contains self.old.fails.items self.old.calls }
        ensures fails { self.new.fails ≡ self.old.fails }
        ensures calls { self.new.calls ≡ raised self.old.calls }
        ensures faults { self.new.faults.count ≡ faults_after self.old.faults.count result }
        ensures cause { HasCause self.old.faults.count self.new.faults.count result }
    {
        let call = self.calls;
        self.calls = call.saturating_add(1);
        if self.fails.contains(&call) {
            return Err(self.faults.fail());
        }
        Ok(())
    }
}
