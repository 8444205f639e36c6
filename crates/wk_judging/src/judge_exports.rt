//! Exports, judged while they are read (5.5.10, 3.4.10).

ghost use Rattle.std.specs.Prelude.{◌≡◌, List, ℕ, ◌∷◌, [], ◌++◌, None, IfOk};
ghost use Rattle.wk_bytes.specs.Raw.{raw_view};
ghost use Rattle.wk_body.specs.Reads.{Reads};
ghost use Rattle.wk_module.specs.InPlace.{export_view};
ghost use Rattle.wk_judging.specs.Contexts.{exports_at_once, next_export_flaw};
ghost use Rattle.wk_judging.specs.Names.{AreKnown};

use crate::context::Context;
use crate::judge_items::at_end;
use crate::names::Names;
use std::alloc::Global;
use wk_bytes::{OutOfMemory, RawSection, ReadFault};
use wk_check::flaw_of_index;
use wk_module::{ExportRef, read_export, section_id};
use wk_typing::{Fault, FaultKind, Flaw};

// What is wrong with an export that comes behind those of these names, to which its own comes.
fn flaw_of_next_export<'a>(
    context: &Context,
    export: &ExportRef<'a>,
    names: &mut Names<'a>,
) -> Result<Option<Flaw>, OutOfMemory>
    ensures { (before : List (List ℕ)) → AreKnown names.old before
        → IfOk result
        (λ w. (w ≡ next_export_flaw (record { context = context.now; names = before })
        (export_view export.now))
        × (w ≡ None → AreKnown names.new (before ++ export.now.name.now ∷ []))) }
{
    if let Some(flaw) = flaw_of_index(context, export.kind, export.index) {
        return Ok(Some(flaw));
    }
    if names.insert(export.name)? {
        return Ok(None);
    }
    Ok(Some(Flaw::of(FaultKind::DuplicateExport)))
}

/// Reads the exports of a section, none of which is kept. The answer is the first fault up to them, where that of the sections before is
/// given: behind a fault nothing is judged.
pub(crate) fn judge_exports(
    alloc: Global,
    context: &Context,
    section: &RawSection<'_>,
    before: Option<Fault>,
) -> Result<Option<Fault>, ReadFault>
    ensures { Reads (λ f. f) result
        (exports_at_once context.now before (raw_view section.now)) }
{
    let mut cursor = section.cursor();
    let count = cursor.u32()?;
    let mut names = Names::new(alloc);
    let mut fault = before;
    for index in 0..count {
        let export = read_export(&mut cursor)?;
        if fault.is_some() {
            continue;
        }
        if let Some(flaw) = flaw_of_next_export(context, &export, &mut names)? {
            fault = Some(flaw.at(section_id::EXPORT, index));
        }
    }
    at_end(&cursor)?;
    Ok(fault)
}
