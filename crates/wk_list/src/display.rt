//! The texts of faults.

ghost use Rattle.std.specs.Prelude.{Some};
ghost use Rattle.wk_list.specs.FaultText.{list_fault_text};

use crate::fault::ListFault;
use std::error::Error;
use std::fmt;

/// `write failed`, or `out of memory`.
impl fmt::Display for ListFault {
    ghost output = { λ x. Some (list_fault_text x) };

    fn fmt<W: fmt::Write>(&self, f: &mut fmt::Formatter<W>) -> fmt::Result {
        f.write_str(match self {
            ListFault::Write => "write failed",
            ListFault::Memory => "out of memory",
        })
    }
}

impl Error for ListFault {}
