//! Why a listing stopped.

ghost use Rattle.std.specs.Prelude.{◌≡◌};
ghost use Rattle.wk_list.specs.declared.fault.ListFault.TheVariants.{Write as not_written, Memory as no_memory};

use std::alloc::AllocError;
use wk_bytes::{OutFault, OutOfMemory};

/// Why a listing stopped. A beginning of its text stands written.
#[derive(Clone, Copy, Debug, PartialEq, Eq)]
pub enum ListFault {
    /// What takes the text failed.
    Write,
    /// A growth was refused.
    Memory,
}

/// What a call that lists answers.
pub(crate) type Listed = Result<(), ListFault>;

impl From<AllocError> for ListFault {
    ghost from_gives = { λ _ e. e ≡ no_memory };

    fn from(_e: AllocError) -> ListFault {
        ListFault::Memory
    }
}

impl From<OutOfMemory> for ListFault {
    ghost from_gives = { λ _ e. e ≡ no_memory };

    fn from(_e: OutOfMemory) -> ListFault {
        ListFault::Memory
    }
}

impl From<OutFault> for ListFault {
    ghost from_gives = { λ _ e. e ≡ not_written };

    fn from(_e: OutFault) -> ListFault {
        ListFault::Write
    }
}
