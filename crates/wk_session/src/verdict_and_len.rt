//! Whether a module that an edit would make may stay, and what is to be kept of it.

ghost use Rattle.std.specs.Prelude.{◌≡◌, ◌≢◌, ◌<◌, ◌^◌, length, IfErr, IfSome};
ghost use Rattle.wk_body.specs.Lengths.{limited};
ghost use Rattle.wk_module.specs.declared.types.Parts.{Parts as PartsOf};
ghost use Rattle.wk_module.specs.Listed.{AreNumbered, listed};
ghost use Rattle.wk_module.specs.Shape.{IsFormed};
ghost use Rattle.wk_module.specs.Writing.{encoded};
ghost use Rattle.wk_check.specs.Verdict.{module_verdict};
ghost use Rattle.wk_session.specs.Kept.{IsPending, IsAppraised, MayLast};

use crate::edit::EditFault;
use std::alloc::Global;
use wk_check::{BodyVerdict, Verdict, first_code_fault, judge_around};
use wk_module::Lists;

/// What is kept of a module as a whole.
#[derive(Clone, Copy)]
pub(crate) struct Appraisal {
    /// Its verdict.
    pub(crate) verdict: Verdict,
    /// The length of its written form, in bytes.
    pub(crate) len: u32,
}

/// Whether a module with this verdict may stay, where `keep` says whether it has to be valid.
pub(crate) fn check_verdict(keep: bool, verdict: &Verdict) -> Result<(), EditFault>
    ensures { MayLast keep verdict.now result }
{
    match verdict {
        Verdict::Invalid(fault) if keep => Err(EditFault::WouldBreak(*fault)),
        _ => Ok(()),
    }
}

/// Whether a module that an edit would make may stay, which has that verdict, and that length where it is not past the limit; or says
/// why the edit is refused, where `keep` says whether the module has to be valid. It takes no memory.
pub(crate) fn admit(keep: bool, verdict: Verdict, len: Option<u32>) -> Result<Appraisal, EditFault>
    ensures appraised { (n : PartsOf) → IsFormed n → verdict ≡ module_verdict n
        → len ≡ limited (length (encoded n)) → IsAppraised keep n result }
    ensures other { IfErr result (λ e. e ≢ EditFault.Memory) }
{
    let Some(len) = len else {
        return Err(EditFault::TooLarge);
    };
    check_verdict(keep, &verdict)?;
    Ok(Appraisal { verdict, len })
}

/// Judges a module that an edit would make, by its lists and the verdicts of its bodies, where its length is not past the limit; or says
/// why the edit is refused, where `keep` says whether the module has to be valid. Where its verdict is known nothing of it is judged.
pub(crate) fn appraise(
    alloc: Global,
    keep: bool,
    known: Option<Verdict>,
    lists: &Lists<'_>,
    verdicts: &Vec<BodyVerdict>,
    len: Option<u32>,
) -> Result<Appraisal, EditFault>
    requires numbered { AreNumbered (listed lists.now) }
    requires few { length verdicts.now.items < 2 ^ 32 }
    ensures { (n : PartsOf) → IsPending lists.now verdicts.now.items len n
        → IfSome known (λ v. v ≡ module_verdict n) → IsAppraised keep n result }
{
    if let Some(verdict) = known {
        return admit(keep, verdict, len);
    }
    if len.is_none() {
        return Err(EditFault::TooLarge);
    }
    let verdict = judge_around(alloc, lists, first_code_fault(verdicts))?;
    admit(keep, verdict, len)
}
