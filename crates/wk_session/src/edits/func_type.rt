//! A type more.

ghost use Rattle.std.specs.Prelude.{◌≡◌, ◌≢◌, ◌<◌, ◌+◌, ◌-◌, ◌^◌, ◌∷◌, [], length, take, IfNone, IfSome, MatchResult, OnOk, OnErr};
ghost use Rattle.wk_body.specs.Lengths.{limited};
ghost use Rattle.wk_module.specs.Listed.{listed};
ghost use Rattle.wk_module.specs.Changes.{with_type};
ghost use Rattle.wk_module.specs.Shape.{IsShaped};
ghost use Rattle.wk_module.specs.Types.{written_functype};
ghost use Rattle.wk_module.specs.Writing.{encoded, list_contents};
ghost use Rattle.wk_check.specs.SpacesLaws.{answers_of};
ghost use Rattle.wk_pieces.specs.Pieces.{IsOverlong};
ghost use Rattle.wk_session.specs.declared.edit.Edit.{Edit};
ghost use Rattle.wk_session.specs.Judged.{IsGrown, IsKnown};
ghost use Rattle.wk_session.specs.Kept.{IsKept, Leads};
ghost use Rattle.wk_session.specs.Added.{IsNewItem};

use crate::basis::Basis;
use crate::cache::Cache;
use crate::edit::{EditFault, Reply, Work};
use crate::edits::plan_append::{NewItem, judge_grown, keep_grown, len_beside, new_item};
use std::alloc::Global;
use std::slice;
use wk_check::{Meter, Verdict, laws_of_valid_modules, verdict_with_type};
use wk_module::{EncodeFault, FuncType, Lists, Parts, section_id, type_len};

// The lists without the last type.
fn without_last_type<'a>(lists: Lists<'a>) -> Lists<'a>
    requires { 0 < length lists.types.now }
    ensures { listed result
        ≡ record (listed lists.entry)
        { types = take (length lists.entry.types.now - 1) lists.entry.types.now } }
{
    let types = &lists.types[..lists.types.len() - 1];
    Lists { types, ..lists }
}

// The verdict of a module with a type more, where it is known: where the one without is valid.
fn known_with_type(parts: &Parts, kept: &Cache, ty: &FuncType) -> Option<Verdict>
    requires shaped { IsShaped parts.now }
    requires kept { IsKept parts.now kept.now }
    ensures some { IfSome result (IsKnown (answers_of parts.now) (with_type ty.now parts.now)) }
    ensures none { IfNone result (kept.now.verdict ≢ Verdict.Valid) }
{
    // The proof asks what this says: bodies of a valid module find what they found.
    laws_of_valid_modules();
    match kept.verdict {
        Verdict::Valid => Some(verdict_with_type(parts.profile, parts.types.len() as u32, ty)),
        Verdict::Invalid(_) => None,
    }
}

// The type as it comes to the others.
fn new_type(
    alloc: Global,
    parts: &Parts,
    kept: &Cache,
    ty: &FuncType,
) -> Result<NewItem, EncodeFault>
    requires { length parts.now.types + 1 < 2 ^ 32 }
    ensures { MatchResult result
        (IsNewItem 1 (length parts.now.types) (list_contents written_functype (ty.now ∷ [])))
        (IsOverlong (list_contents written_functype (ty.now ∷ []))) }
{
    let alone = Lists {
        types: slice::from_ref(ty),
        ..Lists::of(parts, &kept.types)
    };
    new_item(alloc, &alone, section_id::TYPE, parts.types.len() as u32)
}

// Appends a type where the module with it may stay, which is so long, and keeps what is to be kept of it. Answers how many sections changed;
// or leaves all as it was.
fn push_type(
    alloc: Global,
    keep: bool,
    parts: &mut Parts,
    kept: &mut Cache,
    meter: &mut Meter,
    ty: FuncType,
    len: Option<u32>,
) -> Result<u32, EditFault>
    requires shaped { IsShaped parts.old }
    requires kept { IsKept parts.old kept.old }
    requires len { len ≡ limited (length (encoded (with_type ty parts.old))) }
    requires fresh { meter.old ≡ 0 }
    ensures ok { OnOk result (parts.new ≡ with_type ty parts.old) }
    ensures err { OnErr result (parts.new ≡ parts.old) }
    ensures grown { IsGrown keep (answers_of parts.old) (with_type ty parts.old) meter.new 1
        kept.old kept.new result }
{
    let known = known_with_type(parts, kept, &ty);
    let item = new_type(alloc, parts, kept, &ty)?;
    parts.types.push(ty)?;
    let before = without_last_type(Lists::of(parts, &kept.types));
    let basis = Basis { keep, parts, kept };
    let judged = judge_grown(alloc, basis, before, len, known, meter);
    let grown = keep_grown(alloc, kept, &item, judged);
    if grown.is_err() {
        let _ = parts.types.pop();
    }
    grown
}

/// Appends a type.
pub(crate) fn add_type(
    alloc: Global,
    keep: bool,
    parts: &mut Parts,
    kept: &mut Cache,
    meter: &mut Meter,
    ty: &FuncType,
) -> Reply
    requires shaped { IsShaped parts.old }
    requires kept { IsKept parts.old kept.old }
    requires fresh { meter.old ≡ 0 }
    ensures { Leads keep (Edit.Ty ty.now) parts.old result parts.new kept.new }
{
    let count = parts.types.len();
    let len = len_beside(parts, kept, section_id::TYPE, count, type_len(ty));
    if len.is_none() {
        return Err(EditFault::TooLarge);
    }
    let ty = ty.copy(alloc)?;
    let sections = push_type(alloc, keep, parts, kept, meter, ty, len)?;
    Ok(Work {
        typed: meter.typed() as u32,
        encoded: 0,
        sections,
    })
}
