//! How scripts and runs end.
ghost use Rattle.std.specs.Prelude.{◌≡◌};
ghost use Rattle.wk_edit.specs.Outcome.{status_code};
ghost use Rattle.wk_edit.specs.declared.fault.ScriptFault.TheVariants as ScriptFault;
ghost use Rattle.wk_edit.specs.declared.fault.RunFault.TheVariants as RunFault;

use std::alloc::{AllocError, AllocFailed};
use thiserror::Error;
use wk_bytes::OutOfMemory;

/// Why a script is refused, S1 to S3 in this order. Lines count from 1.
#[derive(Clone, Copy, Debug, PartialEq, Eq)]
pub enum ScriptFault {
    /// S1: the line is no edit.
    BadWord {
        /// The line.
        line: u64,
    },
    /// S2: the line has a byte of `80` or above.
    NotAscii {
        /// The line.
        line: u64,
    },
    /// S3: a growth was refused.
    Memory,
}

/// How a run ended, where all was written.
#[derive(Clone, Copy, Debug, PartialEq, Eq)]
pub enum Status {
    /// All edits were accepted, and the module is valid: 0.
    Accepted,
    /// Some edit was refused, or the module is invalid: 1.
    Refused,
    /// The input spells no module: 2.
    Malformed,
    /// The script is wrong: 3.
    BadScript,
}

impl Status {
    /// The exit status: 0 to 3, in the order of the variants.
    pub fn code(self) -> u8
        ensures { result ≡ status_code self }
    {
        match self {
            Status::Accepted => 0,
            Status::Refused => 1,
            Status::Malformed => 2,
            Status::BadScript => 3,
        }
    }
}

/// Why a run gave up.
#[derive(Clone, Copy, Debug, PartialEq, Eq, Error)]
pub enum RunFault {
    /// The output of the module failed. A beginning of the module was taken, and nothing of the report.
    #[error("cannot write the module")]
    Out,
    /// The output of the report failed. The module was taken, and a beginning of the report.
    #[error("cannot write the report")]
    Report,
    /// A growth was refused. Nothing was taken.
    #[error("out of memory")]
    Memory,
}

impl From<AllocError> for ScriptFault {
    ghost from_gives = { λ _ e. e ≡ ScriptFault.Memory };

    fn from(_error: AllocError) -> ScriptFault {
        ScriptFault::Memory
    }
}

impl<T: Drop> From<AllocFailed<T>> for ScriptFault {
    ghost from_gives = { λ _ e. e ≡ ScriptFault.Memory };

    fn from(_error: AllocFailed<T>) -> ScriptFault {
        ScriptFault::Memory
    }
}

impl From<AllocError> for RunFault {
    ghost from_gives = { λ _ e. e ≡ RunFault.Memory };

    fn from(_error: AllocError) -> RunFault {
        RunFault::Memory
    }
}

impl From<OutOfMemory> for RunFault {
    ghost from_gives = { λ _ e. e ≡ RunFault.Memory };

    fn from(_error: OutOfMemory) -> RunFault {
        RunFault::Memory
    }
}
