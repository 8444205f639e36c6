//! What `validate` prints of a module.

ghost use Rattle.std.specs.Prelude.{◌≡◌, IfOk};
ghost use Rattle.wk_module.specs.Reading.{module_at};
ghost use Rattle.wk_answers.specs.Validation.{status_of};
ghost use Rattle.wasmkit.specs.Answers.{IsPrinted};

use std::alloc::Global;
use wk_answers::{Explanation, Validation, explain_with, validate_with};
use wk_bytes::OutOfMemory;
use wk_judging::Validator;
use wk_module::Profile;

/// What is printed of the module of a profile that the bytes spell, with the line of the place where that is asked for, and the status.
pub(crate) fn judged(
    alloc: Global,
    validator: &mut Validator,
    explain: bool,
    bytes: &[u8],
    profile: Profile,
) -> Result<Explanation, OutOfMemory>
    ensures text { IfOk result (λ x. IsPrinted explain profile bytes.now x.text.items) }
    ensures status { IfOk result (λ x. x.status ≡ status_of (module_at profile bytes.now)) }
{
    if explain {
        return explain_with(validator, alloc, bytes, profile);
    }
    let Validation { line, status } = validate_with(validator, alloc, bytes, profile)?;
    Ok(Explanation {
        text: line.into_bytes(),
        status,
    })
}
