//! Operands, as typing knows them.

ghost use Rattle.std.specs.Prelude.{◌≡◌};
ghost use Rattle.wk_typing.specs.Slots.{AnyType, Known, fits, selected};

use std::marker::Model;
use wk_module::ValType;

// The types of operands, in one byte.
#[derive(Clone, Copy, Debug, PartialEq, Eq)]
enum Mark {
    Any,
    I32,
    I64,
    F32,
    F64,
}

/// The type of an operand, or any type where the code can't be reached.
#[derive(Clone, Copy, Debug)]
pub(crate) struct Operand {
    mark: Mark,
}

const _: () = prove!(size_of::<Operand>() <= 1);

impl Model for Operand {
    ghost use Rattle.std.proofs.Common.{ap};
    ghost use Rattle.wk_typing.specs.Slots.{Slot, slot_of, mark_of, mark_back, coded_slot};

    ghost Value = { Slot };

    ghost coded = { coded_slot };

    ghost view = { λ o. slot_of o.mark };

    ghost inverse = { λ s. record { mark = mark_of s } };

    ghost inverse_ok = { λ o _. ap (λ m. record { mark = m }) (mark_back o.mark) };
}

impl Operand {
    /// An operand of any type.
    pub(crate) fn any() -> Operand
        ensures { result ≡ AnyType }
    {
        Operand { mark: Mark::Any }
    }

    /// An operand of this type.
    #[inline(always)]
    pub(crate) fn known(ty: ValType) -> Operand
        ensures { result ≡ Known ty }
    {
        let mark = match ty {
            ValType::I32 => Mark::I32,
            ValType::I64 => Mark::I64,
            ValType::F32 => Mark::F32,
            ValType::F64 => Mark::F64,
        };
        Operand { mark }
    }

    /// Whether an operand may stand where this one is wanted.
    #[inline(always)]
    pub(crate) fn fits(self, have: Operand) -> bool
        ensures { result ≡ fits self have }
    {
        // (compares: a match on the wanted mark is a jump through a table, which is often mispredicted)
        have.mark == self.mark || have.mark == Mark::Any || self.mark == Mark::Any
    }

    /// This operand, or the other where this one is of any type.
    pub(crate) fn or(self, other: Operand) -> Operand
        ensures { result ≡ selected self other }
    {
        match self.mark {
            Mark::Any => other,
            Mark::I32 => self,
            Mark::I64 => self,
            Mark::F32 => self,
            Mark::F64 => self,
        }
    }
}
