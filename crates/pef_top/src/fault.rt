//! Each fault of a run has one outcome.

ghost use Rattle.std.specs.Prelude.{◌≡◌};
ghost use Rattle.pef_top.specs.Fault.{outcome_of, fault_of_input, fault_of_read};

use crate::input::InputFault;
use crate::limits::Limit;
use crate::outcome::RunOutcome;
use pef_io::Failed;
use pef_script::ReadEnd;
use std::alloc::AllocError;

/// Why a script was not run to its end.
#[derive(Clone, Copy, Debug, PartialEq, Eq)]
pub enum RunFault {
    /// The input is no script: its first faulty line, from 1.
    Script(u64),
    /// A read failed.
    Read,
    /// A write failed.
    Write,
    /// There was no memory.
    Memory,
    /// A limit is passed.
    Limit(Limit),
}

impl RunFault {
    /// What the top call answers.
    pub fn outcome(self) -> RunOutcome
        ensures { result ≡ outcome_of self }
    {
        match self {
            RunFault::Script(line) => RunOutcome::script_fault(line),
            RunFault::Read => RunOutcome::plain(3),
            RunFault::Write => RunOutcome::plain(4),
            RunFault::Memory => RunOutcome::plain(5),
            RunFault::Limit(passed) => RunOutcome::limit_passed(passed),
        }
    }
}

impl From<InputFault> for RunFault {
    ghost from_gives = { λ fault e. e ≡ fault_of_input fault };

    fn from(fault: InputFault) -> RunFault {
        match fault {
            InputFault::Read => RunFault::Read,
            InputFault::TooLong => RunFault::Limit(Limit::Script),
            InputFault::Memory => RunFault::Memory,
        }
    }
}

impl From<ReadEnd> for RunFault {
    ghost from_gives = { λ end e. e ≡ fault_of_read end };

    fn from(end: ReadEnd) -> RunFault {
        match end {
            ReadEnd::Fault(fault) => RunFault::Script(u64::from(fault.line)),
            ReadEnd::NoMemory => RunFault::Memory,
        }
    }
}

impl From<AllocError> for RunFault {
    ghost use Rattle.pef_top.specs.declared.fault.RunFault.TheVariants.{Memory};

    ghost from_gives = { λ _ e. e ≡ Memory };

    fn from(_: AllocError) -> RunFault {
        RunFault::Memory
    }
}

impl From<Failed> for RunFault {
    ghost use Rattle.pef_top.specs.declared.fault.RunFault.TheVariants.{Write};

    ghost from_gives = { λ _ e. e ≡ Write };

    fn from(_: Failed) -> RunFault {
        RunFault::Write
    }
}
