//! Why typing stops early.

ghost use Rattle.std.specs.Prelude.{Result};
ghost use Rattle.wk_typing.specs.Levels.{Blocks};
ghost use Rattle.wk_typing.specs.Moves.{Steps, MadeBy};
ghost use Rattle.wk_typing.specs.declared.fault.FaultKind.{FaultKind};

use crate::fault::FaultKind;
use wk_bytes::OutOfMemory;

/// Why the typing of instructions stops early.
#[derive(Clone, Copy, Debug, PartialEq, Eq)]
pub(crate) enum Stop {
    /// The instruction has this fault.
    Fault(FaultKind),
    /// A growth was refused.
    Memory,
}

impl From<FaultKind> for Stop {
    ghost use Rattle.std.specs.Prelude.{◌≡◌};
    ghost use Rattle.wk_typing.specs.declared.stop.Stop.TheVariants.{Fault};

    ghost from_gives = { λ kind s. s ≡ Fault kind };

    fn from(kind: FaultKind) -> Stop {
        Stop::Fault(kind)
    }
}

impl From<OutOfMemory> for Stop {
    ghost use Rattle.std.specs.Prelude.{◌≡◌};
    ghost use Rattle.wk_typing.specs.declared.stop.Stop.TheVariants.{Memory};

    ghost from_gives = { λ _ s. s ≡ Memory };

    fn from(_e: OutOfMemory) -> Stop {
        Stop::Memory
    }
}

/// Whether there was memory for what an instruction grows. (Beside a kind of fault it goes in a register, where a `Stop` doesn't.)
#[derive(Clone, Copy, Debug, PartialEq, Eq)]
pub(crate) enum Growth {
    /// There was, or nothing grew.
    Made,
    /// It was refused.
    Refused,
}

/// What an instruction came to, as a call out of line answers it: in registers.
#[inline(always)]
pub(crate) fn to_registers(told: Result<(), Stop>) -> Result<Growth, FaultKind>
    ensures { (o : Result Blocks FaultKind) (new : Blocks) → Steps o told new
        → MadeBy o result new }
{
    match told {
        Ok(()) => Ok(Growth::Made),
        Err(Stop::Memory) => Ok(Growth::Refused),
        Err(Stop::Fault(kind)) => Err(kind),
    }
}
