//! Why words give no command.

ghost use Rattle.std.specs.Prelude.{◌≡◌};
ghost use Rattle.wk_command_line.specs.Faults.{IsOfParser};
ghost use Rattle.wk_command_line.specs.declared.fault.WordsFault.TheVariants.{Memory as no_memory};

use clap::Error;
use clap::error::ErrorKind;
use std::alloc::AllocError;

/// Why words give no command.
#[derive(Debug, Drop)]
pub enum WordsFault {
    /// They are no command, or ask for help or the version: what `clap` says of them.
    CommandLine(Error),
    /// They are a command, but not a good one.
    BadWords,
    /// A growth was refused.
    Memory,
}

impl From<Error> for WordsFault {
    ghost from_gives = { λ e f. IsOfParser e f };

    fn from(error: Error) -> WordsFault {
        match error.kind() {
            ErrorKind::OutOfMemory => WordsFault::Memory,
            _ => WordsFault::CommandLine(error),
        }
    }
}

impl From<AllocError> for WordsFault {
    ghost from_gives = { λ _ f. f ≡ no_memory };

    fn from(_error: AllocError) -> WordsFault {
        WordsFault::Memory
    }
}
