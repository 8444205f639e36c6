//! What is kept of a code entry that an edit gives or replaces.

ghost use Rattle.std.specs.Prelude.{◌≡◌, ◌≢◌, ◌<◌, length, slice_set, IfOk, IfErr, Ok, Err};
ghost use Rattle.wk_body.specs.Spelling.{SpellsBody};
ghost use Rattle.wk_module.specs.Items.{IsCode};
ghost use Rattle.wk_session.specs.Functions.{body_spelled};

use crate::cache::Cache;
use crate::edit::EditFault;
use crate::verdict_and_len::Appraisal;
use std::alloc::Global;
use std::collections::BTreeSet;
use wk_bytes::{Items, OutOfMemory, ReadKind};
use wk_check::BodyVerdict;
use wk_module::{Body, Profile, Ref, read_body_in};

/// The verdicts of the bodies of a module with a code entry that an edit gives or replaces.
#[derive(Drop)]
pub(super) enum Verdicts {
    /// That of the entry. Those of the others stay.
    Own(BodyVerdict),
    /// All of them.
    All(Vec<BodyVerdict>),
}

/// What is to be kept of a module with a code entry that an edit gives or replaces.
#[derive(Drop)]
pub(super) struct Entry {
    /// What the function refers to, its own type too.
    pub(super) uses: BTreeSet<Ref>,
    /// The verdicts of bodies that are others.
    pub(super) verdicts: Verdicts,
    /// The code of the entry, without its size.
    pub(super) code: Items<u8>,
    /// How many bytes all codes have, with their sizes.
    pub(super) codes_len: u32,
    /// How many bodies were encoded.
    pub(super) encoded: u32,
    /// How many sections change.
    pub(super) sections: u32,
    /// What is kept of the module as a whole.
    pub(super) appraisal: Appraisal,
}

/// The body that the bytes of an edit spell.
pub(super) fn spelled_body(
    alloc: Global,
    profile: Profile,
    code: &Items<u8>,
) -> Result<Body, EditFault>
    ensures ok { IfOk result (λ b. body_spelled profile code.now ≡ Ok b) }
    ensures valid { IfOk result (λ b. IsCode profile b) }
    ensures spelled { IfOk result (λ b. SpellsBody profile b code.now) }
    ensures err { IfErr result (λ f. f ≢ EditFault.Memory → body_spelled profile code.now ≡ Err f) }
{
    let body = match read_body_in(alloc, code.as_slice(), profile) {
        Ok(body) => body,
        Err(fault) if fault.kind == ReadKind::Memory => return Err(EditFault::Memory),
        Err(fault) => return Err(EditFault::BadBytes(fault)),
    };
    // The proof asks what these say: that the body is one that bytes can spell.
    let _ = body.groups();
    let _ = body.tokens();
    Ok(body)
}

/// A copy with another item at an index.
pub(super) fn with_other<T: Copy>(
    alloc: Global,
    items: &Vec<T>,
    index: usize,
    item: T,
) -> Result<Vec<T>, OutOfMemory>
    requires { index < length items.now.items }
    ensures { IfOk result (λ v. v.items ≡ slice_set items.now.items index item) }
{
    let mut copy = Vec::from_slice(alloc, items.as_slice())?;
    copy[index] = item;
    Ok(copy)
}

/// Keeps what is to be kept of a module as a whole, but for its sections.
pub(super) fn keep_entry(kept: &mut Cache, entry: &Entry)
    ensures { kept.new ≡ record kept.old {
      verdict = entry.now.appraisal.verdict;
      len = entry.now.appraisal.len;
      pieces = record kept.old.pieces { codes_len = entry.now.codes_len };
    } }
{
    kept.verdict = entry.appraisal.verdict;
    kept.len = entry.appraisal.len;
    kept.pieces.codes_len = entry.codes_len;
}
