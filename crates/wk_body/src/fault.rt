//! Why a body or an expression could not be written.

ghost use Rattle.std.specs.Prelude.{◌≡◌};
ghost use Rattle.wk_body.specs.declared.fault.EncodeFault.TheVariants.{Memory as no_memory};

use std::alloc::AllocError;
use wk_bytes::OutOfMemory;

/// Why there are no bytes.
#[derive(Clone, Copy, Debug, PartialEq, Eq)]
pub enum EncodeFault {
    /// The written form is longer than 2,147,483,647 bytes.
    TooLarge,
    /// A growth was refused.
    Memory,
}

impl From<AllocError> for EncodeFault {
    ghost from_gives = { λ _ e. e ≡ no_memory };

    fn from(_e: AllocError) -> EncodeFault {
        EncodeFault::Memory
    }
}

impl From<OutOfMemory> for EncodeFault {
    ghost from_gives = { λ _ e. e ≡ no_memory };

    fn from(_e: OutOfMemory) -> EncodeFault {
        EncodeFault::Memory
    }
}
