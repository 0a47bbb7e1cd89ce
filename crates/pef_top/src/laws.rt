//! What holds of all calls, and of two together: each is the contract of a function that does nothing.

ghost use Rattle.pef_top.specs.InMemory.{MemoryIsTakenInOrder};
ghost use Rattle.pef_top.specs.LimitLaw.{LimitsAreTold};
ghost use Rattle.pef_top.specs.TwoRuns.{AlikeRunsWriteTheSame};

/// Two calls of `pef_run` that answered 0 and took scripts whose runs are alike gave reports that agree in the hypervisor's
/// lines, whatever their devices. It says nothing of scripts whose guests let out different values, nor of time.
pub fn alike_runs_write_the_same()
    ensures { AlikeRunsWriteTheSame }
{}

/// Over a source in memory each clause of `pef_run` on the text that it took is one on the bytes that were left before.
pub fn memory_is_taken_in_order()
    ensures { MemoryIsTakenInOrder }
{}

/// The four limits: 16 MiB for a script, 200,000 command lines, 64 MiB for all frames, 64 MiB for all pages of the guests, and what
/// is told of each.
pub fn limits_are_told()
    ensures { LimitsAreTold }
{}
