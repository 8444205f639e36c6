//! Judging one module after the other, with room that is kept.

ghost use Rattle.std.specs.Prelude.{◌≡◌, ◌↔◌, IfOk};
ghost use Rattle.wk_body.specs.Reads.{Reads};
ghost use Rattle.wk_module.specs.ListReading.{IsReading};
ghost use Rattle.wk_module.specs.Reading.{module_at};
ghost use Rattle.wk_typing.specs.declared.fault.Verdict.{Verdict};
ghost use Rattle.wk_judging.specs.Spelled.{judged, IsVerdictOf, IsValidRead};

use crate::judge_encoded::judge_sections;
use crate::judge_sections::Workspace;
use std::alloc::Global;
use std::marker::Model;
use wk_bytes::ReadFault;
use wk_module::{Profile, reading_of_module};
use wk_typing::Verdict;

/// Judges modules, one after the other, for a host that is given many: what it takes to read and type code is kept from one module to the
/// next. Its value is the unit, so no verdict and no fault depends on the modules before.
///
/// It keeps room alone (no clause says so), of each part as much as the module asked for that asked for most of it, and
/// [`shrink`](Validator::shrink) gives it back. With the call go the set of the names of exports, where there are more than sixteen,
/// and a body that is held whole: one that is invalid, or that stands behind a fault.
///
/// # Example
///
/// ```rust
/// let alloc = rt.alloc();
/// let mut validator = Validator::new(alloc);
/// // A function without results, of `i32.const 0` and `end`: it leaves an operand. Behind it an empty module.
/// let bytes = b"\0asm\x01\0\0\0\x01\x04\x01\x60\0\0\x03\x02\x01\0\x0a\x06\x01\x04\0\x41\0\x0b";
/// let verdict = validator.judge_bytes(alloc, bytes, Profile::Core)?;
/// assert!(rt; verdict != Verdict::Valid);
/// let verdict = validator.judge_bytes(alloc, b"\0asm\x01\0\0\0", Profile::Core)?;
/// assert_eq!(rt; verdict, Verdict::Valid);
/// ```
#[derive(Debug, Drop)]
pub struct Validator {
    workspace: Workspace,
}

impl Model for Validator {
    ghost Value = { Unit {0} };

    ghost view = { λ _. tt };
}

impl Validator {
    /// One that has judged nothing. It takes no memory yet.
    pub fn new(alloc: Global) -> Validator {
        Validator {
            workspace: Workspace::new(alloc),
        }
    }

    /// Judges the module of a profile that bytes spell, as [`judge_bytes`](crate::judge_bytes) does (5.5.15, 3.4.10): valid, or the first
    /// fault by section, item, and what is looked at. It may be called again whatever it answered, want of memory too.
    ///
    /// # Errors
    ///
    /// Where the bytes spell no module of the profile, the first fault from left to right, at its offset; where a growth is refused,
    /// `Memory` at 0.
    #[tactic(auto, using(crate::proofs::JudgedCodes::told_meaning))]
    pub fn judge_bytes(
        &mut self,
        alloc: Global,
        bytes: &[u8],
        profile: Profile,
    ) -> Result<Verdict, ReadFault>
        ensures exact { Reads (λ v. v) result (judged (module_at profile bytes.now)) }
        ensures meaning { IfOk result
            (λ verdict. IsVerdictOf (module_at profile bytes.now) verdict) }
        ensures valid { IfOk result
            (λ verdict. verdict ≡ Verdict.Valid ↔ IsValidRead (module_at profile bytes.now)) }
        ensures is { IsReading profile bytes.now (module_at profile bytes.now) }
    {
        reading_of_module(bytes, profile);
        judge_sections(alloc, &mut self.workspace, bytes, profile, false)
    }

    /// Gives back all room that is kept.
    pub fn shrink(&mut self, alloc: Global) {
        self.workspace = Workspace::new(alloc);
    }
}
