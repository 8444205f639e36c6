//! Judging the module that bytes spell.
ghost use Rattle.std.specs.Prelude.{◌≡◌, ◌≢◌, IfErr, IfOk, OnOk, string_bytes};
ghost use Rattle.wk_body.specs.Reads.{Reads};
ghost use Rattle.wk_module.specs.ListReading.{IsReading};
ghost use Rattle.wk_module.specs.Reading.{module_at};
ghost use Rattle.wk_judging.specs.Spelled.{judged};
ghost use Rattle.wk_answers.specs.Validation.{printed, status_of, Means};

use std::alloc::Global;
use wk_bytes::{OutOfMemory, ReadFault, ReadKind};
use wk_check::{malformed_line, verdict_line};
use wk_judging::{Validator, Verdict, judge_bytes};
use wk_module::Profile;

/// What `validate` prints, and its status.
#[derive(Debug, Drop)]
pub struct Validation {
    /// The line of the verdict, or of bytes that are no module.
    pub line: String,
    /// 0 where the module is valid, 1 where it is not, 2 where the bytes are no module.
    pub status: u8,
}

/// What is printed of a module that was judged, or of bytes that are no module.
pub(crate) fn told(
    alloc: Global,
    _bytes: &[u8],
    _profile: Profile,
    verdict: &Result<Verdict, ReadFault>,
) -> Result<Validation, OutOfMemory>
    requires exact { Reads (λ v. v) verdict.now (judged (module_at _profile _bytes.now)) }
    requires is { IsReading _profile _bytes.now (module_at _profile _bytes.now) }
    ensures line { IfOk result
        (λ v. string_bytes v.line ≡ printed (module_at _profile _bytes.now)) }
    ensures means { IfOk result (λ v. Means _profile _bytes.now (string_bytes v.line) v.status) }
    ensures status { IfOk result (λ v. v.status ≡ status_of (module_at _profile _bytes.now)) }
    ensures known { OnOk result (IfErr verdict.now (λ e. e.kind ≢ ReadKind.Memory)) }
{
    match verdict {
        Ok(verdict) => {
            let status = match verdict {
                Verdict::Valid => 0,
                Verdict::Invalid(_) => 1,
            };
            Ok(Validation {
                line: verdict_line(alloc, verdict)?,
                status,
            })
        }
        Err(fault) => {
            if let ReadKind::Memory = fault.kind {
                return Err(OutOfMemory);
            }
            Ok(Validation {
                line: malformed_line(alloc, fault)?,
                status: 2,
            })
        }
    }
}

/// Judges the module of a profile that the bytes spell.
///
/// # Errors
///
/// Want of memory.
pub fn validate(alloc: Global, bytes: &[u8], profile: Profile) -> Result<Validation, OutOfMemory>
    ensures line { IfOk result (λ v. string_bytes v.line ≡ printed (module_at profile bytes.now)) }
    ensures means { IfOk result (λ v. Means profile bytes.now (string_bytes v.line) v.status) }
    ensures status { IfOk result (λ v. v.status ≡ status_of (module_at profile bytes.now)) }
{
    let verdict = judge_bytes(alloc, bytes, profile);
    told(alloc, bytes, profile, &verdict)
}

/// Judges the module of a profile that the bytes spell, as [`validate`] does, with room that is kept from one module to the next. The
/// validator may be used again whatever this answered.
///
/// # Errors
///
/// Want of memory.
pub fn validate_with(
    validator: &mut Validator,
    alloc: Global,
    bytes: &[u8],
    profile: Profile,
) -> Result<Validation, OutOfMemory>
    ensures line { IfOk result (λ v. string_bytes v.line ≡ printed (module_at profile bytes.now)) }
    ensures means { IfOk result (λ v. Means profile bytes.now (string_bytes v.line) v.status) }
    ensures status { IfOk result (λ v. v.status ≡ status_of (module_at profile bytes.now)) }
{
    let verdict = validator.judge_bytes(alloc, bytes, profile);
    told(alloc, bytes, profile, &verdict)
}
