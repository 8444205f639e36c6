//! The texts of faults.

ghost use Rattle.std.specs.Prelude.{Some};
ghost use Rattle.wk_body.specs.FaultText.{encode_fault_text, shift_fault_text};

use crate::fault::EncodeFault;
use crate::renumber::ShiftFault;
use std::error::Error;
use std::fmt;

/// `too large`, or `out of memory`.
impl fmt::Display for EncodeFault {
    ghost output = { λ x. Some (encode_fault_text x) };

    fn fmt<W: fmt::Write>(&self, f: &mut fmt::Formatter<W>) -> fmt::Result {
        f.write_str(match self {
            EncodeFault::TooLarge => "too large",
            EncodeFault::Memory => "out of memory",
        })
    }
}

impl Error for EncodeFault {}

/// `index overflow`, or `out of memory`.
impl fmt::Display for ShiftFault {
    ghost output = { λ x. Some (shift_fault_text x) };

    fn fmt<W: fmt::Write>(&self, f: &mut fmt::Formatter<W>) -> fmt::Result {
        f.write_str(match self {
            ShiftFault::Overflow => "index overflow",
            ShiftFault::Memory => "out of memory",
        })
    }
}

impl Error for ShiftFault {}
