//! The lines that tell a verdict, or that bytes are no module.

ghost use Rattle.std.specs.Prelude.{◌≡◌, IfOk, string_bytes};
ghost use Rattle.wk_check.specs.VerdictLines.{malformed_text, verdict_line};

use std::alloc::{AllocError, Global};
use wk_bytes::ReadFault;
use wk_typing::Verdict;

/// The line of a verdict: `valid`, or `invalid` and the fault, as in `invalid V1 TypeArity at section 1 item 0`.
///
/// Want of memory is the only refusal.
pub fn verdict_line(alloc: Global, verdict: &Verdict) -> Result<String, AllocError>
    ensures { IfOk result (λ line. string_bytes line ≡ verdict_line verdict.now) }
{
    format!(in alloc; "{verdict}\n")
}

/// The line of bytes that are no module: `malformed R5 IntTooLarge at 0x00000009`. It is the report of such a module.
///
/// Want of memory is the only refusal.
pub fn malformed_line(alloc: Global, fault: &ReadFault) -> Result<String, AllocError>
    ensures { IfOk result (λ line. string_bytes line ≡ malformed_text fault.now) }
{
    format!(in alloc; "malformed {fault}\n")
}
