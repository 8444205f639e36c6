//! The texts of script faults.

ghost use Rattle.std.specs.Prelude.{Some};
ghost use Rattle.wk_edit.specs.ReportText.{script_fault_text};

use crate::fault::ScriptFault;
use std::error::Error;
use std::fmt;

/// The number and the name, and the line in decimal, as in `S1 BadWord line 3`.
impl fmt::Display for ScriptFault {
    ghost output = { λ x. Some (script_fault_text x) };

    fn fmt<W: fmt::Write>(&self, f: &mut fmt::Formatter<W>) -> fmt::Result {
        match self {
            ScriptFault::BadWord { line } => write!(f, "S1 BadWord line {line}"),
            ScriptFault::NotAscii { line } => write!(f, "S2 NotAscii line {line}"),
            ScriptFault::Memory => f.write_str("S3 Memory"),
        }
    }
}

impl Error for ScriptFault {}
