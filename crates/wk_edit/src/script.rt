//! Whole scripts.

ghost use Rattle.std.specs.Prelude.{◌≢◌, IfErr, IfOk};
ghost use Rattle.wk_edit.specs.declared.fault.ScriptFault.TheVariants.{Memory};
ghost use Rattle.wk_edit.specs.Script.{script_of, Reads};
ghost use Rattle.wk_edit.specs.ScriptGrammar.{IsFaultOf, IsNoScript, IsOnlyScript, IsScript};

use crate::fault::ScriptFault;
use crate::line::read_line;
use crate::pieces::Pieces;
use std::alloc::Global;
use wk_session::Edit;

#[tactic(auto, using(crate::proofs::ScriptSteps::line_steps))]
fn read_lines(alloc: Global, bytes: &[u8]) -> Result<Vec<Edit>, ScriptFault>
    ensures { Reads (λ edits. edits.items) result (script_of bytes.now) }
{
    let mut edits = Vec::new(alloc);
    let mut number = 0;
    for line in Pieces::new(bytes, b'\n') {
        number += 1;
        if let Some(edit) = read_line(alloc, number, line)? {
            edits.push(edit)?;
        }
    }
    Ok(edits)
}

/// The edits of a script, or the fault of its first wrong line; S3 where a growth was refused.
///
/// Lines end with LF, which the last one may lack, and count from 1. An empty line gives no edit.
/// Any other is one edit, in words of the bytes `21` to `7E` parted by exactly one space:
///
/// - `type TYPES TYPES` appends a type of these parameters and results.
/// - `import func NAME NAME U32`, `import table NAME NAME U32 [U32]`, `import memory NAME NAME U32 [U32]` and
///   `import global NAME NAME VALTYPE MUT` append an import: its module's name, its name there, and the index of its type, its least
///   and its greatest size, or its type.
/// - `func U32 BYTES` appends a function of the type with this index, and `body U32 BYTES` replaces the body of the function with this
///   index; the bytes are its code, without the size.
/// - `global VALTYPE MUT BYTES` appends a global, whose first value is that of the expression of these bytes.
/// - `export KIND NAME U32` appends an export, and `unexport NAME` removes the first of that name.
/// - `custom set NAME BYTES` gives the first custom section of that name these bytes, or appends one, and `custom strip NAME` removes
///   those of that name.
/// - `strip` removes all custom sections.
///
/// TYPES is `-` for none, or value types joined by `,`. VALTYPE is `i32`, `i64`, `f32` or `f64`, MUT is `const` or `var`, and KIND is
/// `func`, `table`, `memory` or `global`. U32 is decimal, at most 4294967295, without a zero in front unless it is `0`. NAME is a word that does not begin with `x:`, or
/// `x:` and the name's bytes in hexadecimal, which are UTF-8. BYTES is `-` for none, or two hexadecimal digits of either case for each.
///
/// A wrong line with a byte of `80` or above is S2, any other S1.
pub fn read_script(alloc: Global, bytes: &[u8]) -> Result<Vec<Edit>, ScriptFault>
    ensures exact { Reads (λ edits. edits.items) result (script_of bytes.now) }
    ensures found { IfOk result (λ edits. IsScript bytes.now edits.items) }
    ensures only { IfOk result (λ edits. IsOnlyScript bytes.now edits.items) }
    ensures refused { IfErr result (λ e. e ≢ Memory → IsNoScript bytes.now) }
    ensures fault { IfErr result (λ e. e ≢ Memory → IsFaultOf bytes.now e) }
{
    read_lines(alloc, bytes)
}
