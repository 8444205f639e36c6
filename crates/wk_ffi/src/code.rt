//! What calls answer.
ghost use Rattle.std.specs.Prelude.{◌≡◌};
ghost use Rattle.wk_ffi.specs.Told.{code_number, status_told, run_told};
ghost use Rattle.wk_ffi.specs.declared.code.CallFault.TheVariants as CallFault;

use std::alloc::AllocError;
use wk_bytes::OutOfMemory;
use wk_edit::Status;

/// How a call ends, as a number of `enum wasmkit_result`: 0 to 7, in the order of the variants.
#[derive(Clone, Copy, Debug, PartialEq, Eq)]
pub enum Code {
    /// All is well.
    Fine,
    /// The bytes are a module that is invalid.
    Invalid,
    /// The bytes are no module.
    Malformed,
    /// The script is none.
    BadScript,
    /// Some edit was refused, or the edited module is invalid.
    Refused,
    /// A growth was refused.
    NoMemory,
    /// An argument is outside of what the call takes.
    BadArgument,
    /// An output has no room for what goes there.
    TooSmall,
}

/// Why a call works nothing out.
#[derive(Clone, Copy, Debug, PartialEq, Eq)]
pub enum CallFault {
    /// A growth was refused.
    Memory,
    /// An argument is outside of what the call takes.
    Argument,
}

/// What a call works out.
#[derive(Debug, Drop)]
pub struct Answer {
    /// How it ends.
    pub code: Code,
    /// The bytes of a module, none where it makes none.
    pub bytes: Vec<u8>,
    /// The lines that the program prints.
    pub text: Vec<u8>,
}

impl Code {
    /// The number.
    pub fn number(self) -> u32
        ensures { result ≡ code_number self }
    {
        match self {
            Code::Fine => 0,
            Code::Invalid => 1,
            Code::Malformed => 2,
            Code::BadScript => 3,
            Code::Refused => 4,
            Code::NoMemory => 5,
            Code::BadArgument => 6,
            Code::TooSmall => 7,
        }
    }

    /// Of the status of a verdict, or of bytes that are no module.
    pub fn of_status(status: u8) -> Code
        ensures { result ≡ status_told status }
    {
        match status {
            0 => Code::Fine,
            1 => Code::Invalid,
            _ => Code::Malformed,
        }
    }

    /// Of the status of a run of edits.
    pub fn of_run(status: Status) -> Code
        ensures { result ≡ run_told status }
    {
        match status {
            Status::Accepted => Code::Fine,
            Status::Refused => Code::Refused,
            Status::Malformed => Code::Malformed,
            Status::BadScript => Code::BadScript,
        }
    }
}

impl From<OutOfMemory> for CallFault {
    ghost from_gives = { λ _ e. e ≡ CallFault.Memory };

    fn from(_error: OutOfMemory) -> CallFault {
        CallFault::Memory
    }
}

impl From<AllocError> for CallFault {
    ghost from_gives = { λ _ e. e ≡ CallFault.Memory };

    fn from(_error: AllocError) -> CallFault {
        CallFault::Memory
    }
}
