//! A global more.

ghost use Rattle.std.specs.Prelude.{◌≡◌, ◌≢◌, ◌<◌, ◌+◌, ◌-◌, ◌^◌, ◌∷◌, ◌++◌, [], Ok, Err, length, take, IfOk, IfErr, IfNone, IfSome, MatchResult, OnOk, OnErr};
ghost use Rattle.wk_body.specs.Reading.{all_expr_at, whole_at};
ghost use Rattle.wk_module.specs.Changes.{with_global};
ghost use Rattle.wk_module.specs.Items.{IsInit, written_global};
ghost use Rattle.wk_module.specs.Listed.{listed};
ghost use Rattle.wk_module.specs.Shape.{IsShaped};
ghost use Rattle.wk_module.specs.Writing.{list_contents};
ghost use Rattle.wk_check.specs.SpacesLaws.{answers_of};
ghost use Rattle.wk_pieces.specs.Pieces.{IsOverlong};
ghost use Rattle.wk_session.specs.declared.edit.Edit.{Edit};
ghost use Rattle.wk_session.specs.Edits.{from_bytes};
ghost use Rattle.wk_session.specs.Judged.{IsGrown, IsKnown};
ghost use Rattle.wk_session.specs.Kept.{IsKept, Leads};
ghost use Rattle.wk_session.specs.Added.{IsNewItem};

use crate::basis::Basis;
use crate::cache::Cache;
use crate::edit::{EditFault, Reply, Work};
use crate::edits::plan_append::{NewItem, item_len, judge_grown, keep_grown, len_beside, new_item};
use std::alloc::Global;
use std::slice;
use wk_bytes::{Items, OutOfMemory, ReadFault, ReadKind};
use wk_check::{Meter, Verdict, laws_of_valid_modules, verdict_with_global};
use wk_module::{
    EncodeFault, Expr, GlobalDef, GlobalType, Lists, Parts, Profile, read_expr_in, section_id,
};

// What an edit is answered whose bytes cannot be read.
fn refusal_of(fault: ReadFault) -> EditFault
    ensures memory { fault.kind ≡ ReadKind.Memory → result ≡ EditFault.Memory }
    ensures bytes { fault.kind ≢ ReadKind.Memory → result ≡ EditFault.BadBytes fault }
{
    if let ReadKind::Memory = fault.kind {
        return EditFault::Memory;
    }
    EditFault::BadBytes(fault)
}

// The expression of a first value, which is all of the bytes.
fn read_init(alloc: Global, profile: Profile, init: &Items<u8>) -> Result<Expr, EditFault>
    ensures read { IfOk result (λ e. from_bytes (whole_at (all_expr_at profile) init.now) ≡ Ok e) }
    ensures valid { IfOk result (IsInit profile) }
    ensures fault { IfErr result
        (λ f. f ≢ EditFault.Memory → from_bytes (whole_at (all_expr_at profile) init.now) ≡ Err f) }
{
    match read_expr_in(alloc, init.as_slice(), profile) {
        Ok(expr) => {
            // The proof asks what this says: the expression is shaped.
            let _tokens = expr.tokens();
            Ok(expr)
        }
        Err(fault) => Err(refusal_of(fault)),
    }
}

// The lists without the last global.
fn without_last_global<'a>(lists: Lists<'a>) -> Lists<'a>
    requires { 0 < length lists.globals.now }
    ensures { listed result
        ≡ record (listed lists.entry)
        { globals = take (length lists.entry.globals.now - 1) lists.entry.globals.now } }
{
    let globals = &lists.globals[..lists.globals.len() - 1];
    Lists { globals, ..lists }
}

// The verdict of a module with a global more, where it is known: where the one without is valid.
fn known_with_global(
    alloc: Global,
    parts: &Parts,
    kept: &Cache,
    global: &GlobalDef,
) -> Result<Option<Verdict>, OutOfMemory>
    requires shaped { IsShaped parts.now }
    requires kept { IsKept parts.now kept.now }
    ensures some { IfOk result (λ known. IfSome known
        (IsKnown (answers_of parts.now) (with_global global.now.ty global.now.init parts.now))) }
    ensures none { IfOk result (λ known. IfNone known (kept.now.verdict ≢ Verdict.Valid)) }
{
    // The proof asks what this says: bodies of a valid module find what they found.
    laws_of_valid_modules();
    if let Verdict::Invalid(_) = kept.verdict {
        return Ok(None);
    }
    let lists = Lists::of(parts, &kept.types);
    let verdict = verdict_with_global(alloc, &lists, global.ty, &global.init)?;
    Ok(Some(verdict))
}

// The global as it comes to the others.
fn new_global(
    alloc: Global,
    parts: &Parts,
    kept: &Cache,
    global: &GlobalDef,
) -> Result<NewItem, EncodeFault>
    requires { length parts.now.globals + 1 < 2 ^ 32 }
    ensures { MatchResult result
        (IsNewItem 6 (length parts.now.globals) (list_contents written_global (global.now ∷ [])))
        (IsOverlong (list_contents written_global (global.now ∷ []))) }
{
    let alone = Lists {
        globals: slice::from_ref(global),
        ..Lists::of(parts, &kept.types)
    };
    let count = parts.globals.len() as u32;
    new_item(alloc, &alone, section_id::GLOBAL, count)
}

// Appends a global where the module with it may stay, and keeps what is to be kept of it. Answers how many sections changed; or
// leaves all as it was.
fn push_global(
    alloc: Global,
    keep: bool,
    parts: &mut Parts,
    kept: &mut Cache,
    meter: &mut Meter,
    global: GlobalDef,
) -> Result<u32, EditFault>
    requires shaped { IsShaped parts.old }
    requires kept { IsKept parts.old kept.old }
    requires valid { IsInit parts.old.profile global.init }
    requires fresh { meter.old ≡ 0 }
    ensures ok { OnOk result
        (parts.new ≡ record parts.old { globals = parts.old.globals ++ global ∷ [] }) }
    ensures err { OnErr result (parts.new ≡ parts.old) }
    ensures grown { IsGrown keep (answers_of parts.old)
        (record parts.old { globals = parts.old.globals ++ global ∷ [] })
        meter.new 1 kept.old kept.new result }
{
    let known = known_with_global(alloc, parts, kept, &global)?;
    let item = new_global(alloc, parts, kept, &global)?;
    let count = item.count as usize;
    let len = len_beside(parts, kept, item.id, count, Some(item_len(&item)));
    parts.globals.push(global)?;
    let before = without_last_global(Lists::of(parts, &kept.types));
    let basis = Basis { keep, parts, kept };
    let judged = judge_grown(alloc, basis, before, len, known, meter);
    let grown = keep_grown(alloc, kept, &item, judged);
    if grown.is_err() {
        let _ = parts.globals.pop();
    }
    grown
}

/// Appends a global.
pub(crate) fn add_global(
    alloc: Global,
    keep: bool,
    parts: &mut Parts,
    kept: &mut Cache,
    meter: &mut Meter,
    ty: GlobalType,
    init: &Items<u8>,
) -> Reply
    requires shaped { IsShaped parts.old }
    requires kept { IsKept parts.old kept.old }
    requires fresh { meter.old ≡ 0 }
    ensures { Leads keep (Edit.Global ty init.now) parts.old result parts.new kept.new }
{
    let init = read_init(alloc, parts.profile, init)?;
    let global = GlobalDef { ty, init };
    let sections = push_global(alloc, keep, parts, kept, meter, global)?;
    Ok(Work {
        typed: meter.typed() as u32,
        encoded: 0,
        sections,
    })
}
