//! Exports: one more, or one less.

ghost use Rattle.std.specs.Prelude.{◌≡◌, ◌≢◌, ◌+◌, ◌-◌, ◌<◌, ◌≤◌, ◌^◌, ℕ, Bool, [], ◌∷◌, drop, get_or, insert, length, remove, set, take, vec_capacity, vec_len, IfNone, IfSome, MatchResult, OnOk, OnErr};
ghost use Rattle.std.specs.List.{flat_map, position_from};
ghost use Rattle.std.specs.Str.{bytes_eq};
ghost use Rattle.wk_bytes.specs.Frames.{limit};
ghost use Rattle.wk_bytes.specs.Short.{short};
ghost use Rattle.wk_body.specs.declared.references.Ref.{Ref as RefOf};
ghost use Rattle.wk_body.specs.Lengths.{limited};
ghost use Rattle.wk_module.specs.declared.types.Parts.{Parts as PartsOf};
ghost use Rattle.wk_module.specs.Changes.{with_export};
ghost use Rattle.wk_module.specs.Items.{IsExport, written_export};
ghost use Rattle.wk_module.specs.Shape.{IsFormed, IsInOrderFrom, IsShaped};
ghost use Rattle.wk_module.specs.Writing.{encoded, list_contents};
ghost use Rattle.wk_typing.specs.Answers.{Found};
ghost use Rattle.wk_check.specs.SpacesLaws.{answers_of};
ghost use Rattle.wk_check.specs.Verdict.{module_verdict};
ghost use Rattle.wk_pieces.specs.Pieces.{IsOverlong, codes_size, customs_size, section_pieces};
ghost use Rattle.wk_pieces.specs.Shorter.{without_item};
ghost use Rattle.wk_session.specs.declared.edit.Edit.{Edit};
ghost use Rattle.wk_session.specs.Judged.{AreKept, IsGrown, IsJudged};
ghost use Rattle.wk_session.specs.Kept.{IsKept, Leads};
ghost use Rattle.wk_session.specs.Added.{IsNewItem};

use crate::basis::Basis;
use crate::cache::Cache;
use crate::edit::{EditFault, Reply, work_on};
use crate::edits::plan_append::{
    Judgement, NewItem, keep_grown, keep_judgement, len_beside, new_item,
};
use crate::verdict_and_len::appraise;
use std::alloc::Global;
use std::{mem, slice};
use wk_bytes::{Items, Text};
use wk_check::{Verdict, laws_of_valid_modules, verdict_with_export};
use wk_module::{EncodeFault, Export, Lists, Parts, export_len, section_id};
use wk_pieces::{Span, module_len, remove_item, shrunk_len, sizes_with};

// The verdict of a module with an export more, where it is known: where the one without is valid.
fn known_with_export(parts: &Parts, kept: &Cache, export: &Export) -> Option<Verdict>
    requires shaped { IsShaped parts.now }
    requires kept { IsKept parts.now kept.now }
    ensures some { IfSome result (λ v. v ≡ module_verdict (with_export export.now parts.now)) }
    ensures none { IfNone result (kept.now.verdict ≢ Verdict.Valid) }
{
    match kept.verdict {
        Verdict::Valid => Some(verdict_with_export(&Lists::of(parts, &kept.types), export)),
        Verdict::Invalid(_) => None,
    }
}

// The verdict of a module without one of its exports, where it is known: where the one with it is valid.
fn known_without_export(parts: &Parts, kept: &Cache, place: usize) -> Option<Verdict>
    requires kept { IsKept parts.now kept.now }
    ensures some { IfSome result
        (λ v. v ≡ module_verdict (record parts.now { exports = remove parts.now.exports place })) }
    ensures none { IfNone result (kept.now.verdict ≢ Verdict.Valid) }
{
    // The proof asks what this says: no export is what another one needs.
    laws_of_valid_modules();
    match kept.verdict {
        Verdict::Valid => Some(Verdict::Valid),
        Verdict::Invalid(_) => None,
    }
}

// Judges a module with these exports in the place of its own, which is so long. Where its verdict is known it is not judged.
fn judge_exports(
    alloc: Global,
    basis: Basis<'_>,
    exports: &[Export],
    len: Option<u32>,
    known: Option<Verdict>,
) -> Result<Judgement, EditFault>
    requires formed { IsFormed (record basis.parts.now { exports = exports.now }) }
    requires kept { AreKept (answers_of basis.parts.now) basis.parts.now basis.kept.now }
    requires len { len
        ≡ limited (length (encoded (record basis.parts.now { exports = exports.now }))) }
    requires known { IfSome known
        (λ v. v ≡ module_verdict (record basis.parts.now { exports = exports.now })) }
    ensures { let m = basis.entry.parts.now in
        IsJudged basis.entry.keep (answers_of m) (record m { exports = exports.now })
        basis.entry.kept.now 0 result }
{
    let lists = Lists {
        exports,
        ..Lists::of(basis.parts, &basis.kept.types)
    };
    let Basis { keep, kept, .. } = basis;
    let appraisal = appraise(alloc, keep, known, &lists, &kept.verdicts, len)?;
    Ok(Judgement {
        verdicts: None,
        appraisal,
    })
}

// The export as it comes to the others.
fn new_export(
    alloc: Global,
    parts: &Parts,
    kept: &Cache,
    export: &Export,
) -> Result<NewItem, EncodeFault>
    requires { length parts.now.exports + 1 < 2 ^ 32 }
    ensures { MatchResult result
        (IsNewItem 7 (length parts.now.exports) (list_contents written_export (export.now ∷ [])))
        (IsOverlong (list_contents written_export (export.now ∷ []))) }
{
    let alone = Lists {
        exports: slice::from_ref(export),
        ..Lists::of(parts, &kept.types)
    };
    let count = parts.exports.len() as u32;
    new_item(alloc, &alone, section_id::EXPORT, count)
}

// Appends an export where the module with it may stay, which is so long, and keeps what is to be kept of it. Answers how many sections
// changed; or leaves all as it was.
fn push_export(
    alloc: Global,
    keep: bool,
    parts: &mut Parts,
    kept: &mut Cache,
    export: Export,
    len: Option<u32>,
) -> Result<u32, EditFault>
    requires shaped { IsShaped parts.old }
    requires kept { IsKept parts.old kept.old }
    requires valid { IsExport export }
    requires len { len ≡ limited (length (encoded (with_export export parts.old))) }
    ensures ok { OnOk result (parts.new ≡ with_export export parts.old) }
    ensures err { OnErr result (parts.new ≡ parts.old) }
    ensures grown { IsGrown keep (answers_of parts.old) (with_export export parts.old) 0 1 kept.old
        kept.new result }
{
    let known = known_with_export(parts, kept, &export);
    let item = new_export(alloc, parts, kept, &export)?;
    parts.exports.push(export)?;
    let exports = parts.exports.as_slice();
    let basis = Basis { keep, parts, kept };
    let judged = judge_exports(alloc, basis, exports, len, known);
    let grown = keep_grown(alloc, kept, &item, judged);
    if grown.is_err() {
        let _ = parts.exports.pop();
    }
    grown
}

/// Appends an export.
pub(crate) fn add_export(
    alloc: Global,
    keep: bool,
    parts: &mut Parts,
    kept: &mut Cache,
    export: &Export,
) -> Reply
    requires shaped { IsShaped parts.old }
    requires kept { IsKept parts.old kept.old }
    ensures { Leads keep (Edit.Export export.now) parts.old result parts.new kept.new }
{
    let count = parts.exports.len();
    let len = len_beside(parts, kept, section_id::EXPORT, count, export_len(export));
    if len.is_none() {
        return Err(EditFault::TooLarge);
    }
    let export = export.copy(alloc)?;
    // The proof asks what this says: the name is text.
    let _name = export.name.as_str();
    let sections = push_export(alloc, keep, parts, kept, export, len)?;
    Ok(work_on(sections))
}

// The last byte of a name, or 0 where it has none.
#[inline(always)]
fn last_of(name: &Text) -> u8
    ensures { result ≡ get_or name.now (length name.now - 1) 0 }
{
    let bytes = name.as_str().as_bytes();
    if bytes.is_empty() {
        return 0;
    }
    bytes[bytes.len() - 1]
}

// Whether two names are the same. Out of line, so that the loop over other names is short.
#[inline(never)]
fn is_same(name: &Text, other: &Text) -> bool
    ensures { result ≡ bytes_eq name.now other.now }
{
    name.as_str() == other.as_str()
}

// Whether an export has a name. One of another length is not looked at, and of one that ends otherwise its last byte alone, in which names
// of one length mostly differ.
#[tactic(auto, using(crate::proofs::Names::other_length, crate::proofs::Names::other_end))]
#[inline(always)]
fn has_name(export: &Export, name: &Text) -> bool
    ensures { result ≡ bytes_eq export.now.name name.now }
{
    export.name.as_str().len() == name.as_str().len()
        && last_of(&export.name) == last_of(name)
        && is_same(&export.name, name)
}

// Where the first export of a name stands. Out of line, so that its loop has the registers for itself.
#[inline(never)]
fn place_of(exports: &Items<Export>, name: &Text) -> Option<usize>
    ensures { result ≡ position_from (λ e. bytes_eq e.name name.now) 0 exports.now }
{
    exports
        .as_slice()
        .iter()
        .position(|export| has_name(export, name))
}

// Puts an export in its place again. There is room for it.
fn put_back(exports: &mut Vec<Export>, place: usize, export: Export)
    requires place { place ≤ vec_len exports.old }
    requires room { vec_len exports.old < vec_capacity exports.old }
    ensures { exports.new.items ≡ insert exports.old.items place export }
{
    let Ok(()) = exports.insert(place, export) else {
        unreachable!()
    };
}

// How many bytes exports have as they are written.
fn written_len(exports: &[Export]) -> usize
    requires { length (flat_map written_export exports.now) ≤ limit }
    ensures { result ≡ length (flat_map written_export exports.now) }
{
    let mut total = 0;
    for export in exports {
        let Some(len) = export_len(export) else {
            unreachable!()
        };
        total += len as usize;
    }
    total
}

// Where the export of a place stands in the contents of the section.
fn span_of(exports: &[Export], place: usize) -> Span
    requires place { place < length exports.now }
    requires few { length (flat_map written_export exports.now) ≤ limit }
    ensures at { result.at ≡ length (flat_map written_export (take place exports.now)) }
    ensures size { result.size
        ≡ length (flat_map written_export (take 1 (drop place exports.now))) }
{
    Span {
        at: written_len(&exports[..place]),
        size: written_len(&exports[place..=place]),
    }
}

// The length of a module without an export of so many that stands there, by how many functions it defines.
fn len_without(kept: &Cache, funcs: usize, count: u32, span: Span) -> Option<u32>
    requires sections { length kept.now.pieces.sections.items ≡ 12 }
    requires some { 0 < count }
    requires few { length (get_or kept.now.pieces.sections.items 7 []) ≤ limit }
    requires within { length (short count) + span.at + span.size
        ≤ length (get_or kept.now.pieces.sections.items 7 []) }
    requires funcs { funcs < 2 ^ 32 }
    ensures { (n : PartsOf) → IsInOrderFrom 0 n.customs
        → set kept.now.pieces.sections.items 7
        (without_item (get_or kept.now.pieces.sections.items 7 []) count span.at span.size)
        ≡ section_pieces n
        → funcs ≡ length n.funcs → kept.now.pieces.codes_len ≡ codes_size n.funcs
        → kept.now.pieces.customs_len ≡ customs_size n.customs
        → result ≡ limited (length (encoded n)) }
{
    let pieces = &kept.pieces;
    let section = pieces.sections[section_id::EXPORT as usize].as_slice();
    let size = shrunk_len(section, count, span);
    let sizes = sizes_with(&pieces.sections, section_id::EXPORT as usize, size);
    module_len(sizes, funcs, pieces.codes_len, pieces.customs_len)
}

// Keeps what is to be kept of a module without an export of so many where it may stay, and answers how many sections changed; or leaves
// what is kept as it was.
fn keep_shrunk(
    alloc: Global,
    kept: &mut Cache,
    count: u32,
    span: Span,
    judged: Result<Judgement, EditFault>,
) -> Result<u32, EditFault>
    requires sections { length kept.old.pieces.sections.items ≡ 12 }
    requires some { 0 < count }
    requires within { length (short count) + span.at + span.size
        ≤ length (get_or kept.old.pieces.sections.items 7 []) }
    ensures { (keep : Bool) → (before : RefOf → Found) → (n : PartsOf) → (typed : ℕ)
        → AreKept before n kept.old
        → set kept.old.pieces.sections.items 7
        (without_item (get_or kept.old.pieces.sections.items 7 []) count span.at span.size)
        ≡ section_pieces n
        → IsJudged keep before n kept.old typed judged
        → IsGrown keep before n typed 1 kept.old kept.new result }
{
    let judgement = judged?;
    let mut made = 0;
    let section = &mut kept.pieces.sections[section_id::EXPORT as usize];
    remove_item(alloc, section, count, span, &mut made)?;
    keep_judgement(kept, judgement);
    Ok(made)
}

// Takes an export out where the module without it may stay, and keeps what is to be kept of it. Answers how many sections changed; or leaves all
// as it was.
fn take_export(
    alloc: Global,
    keep: bool,
    parts: &mut Parts,
    kept: &mut Cache,
    place: usize,
) -> Result<u32, EditFault>
    requires place { place < length parts.old.exports }
    requires formed { IsFormed (record parts.old { exports = remove parts.old.exports place }) }
    requires shaped { IsShaped parts.old }
    requires kept { IsKept parts.old kept.old }
    ensures ok { OnOk result
        (parts.new ≡ record parts.old { exports = remove parts.old.exports place }) }
    ensures err { OnErr result (parts.new ≡ parts.old) }
    ensures shrunk { IsGrown keep (answers_of parts.old)
        (record parts.old { exports = remove parts.old.exports place }) 0 1 kept.old kept.new
        result }
{
    let known = known_without_export(parts, kept, place);
    let count = parts.exports.len() as u32;
    let span = span_of(parts.exports.as_slice(), place);
    let len = len_without(kept, parts.funcs.len(), count, span);
    let mut exports = mem::replace(&mut parts.exports, Items::new(alloc)).into_vec();
    let export = exports.remove(place);
    let basis = Basis { keep, parts, kept };
    let judged = judge_exports(alloc, basis, &exports, len, known);
    match keep_shrunk(alloc, kept, count, span, judged) {
        Ok(made) => {
            parts.exports = Items::from_vec(exports);
            Ok(made)
        }
        Err(fault) => {
            put_back(&mut exports, place, export);
            parts.exports = Items::from_vec(exports);
            Err(fault)
        }
    }
}

/// Removes the first export of a name.
pub(crate) fn remove_export(
    alloc: Global,
    keep: bool,
    parts: &mut Parts,
    kept: &mut Cache,
    name: &Text,
) -> Reply
    requires shaped { IsShaped parts.old }
    requires kept { IsKept parts.old kept.old }
    ensures { Leads keep (Edit.Unexport name.now) parts.old result parts.new kept.new }
{
    let Some(place) = place_of(&parts.exports, name) else {
        return Err(EditFault::NoSuchExport);
    };
    let sections = take_export(alloc, keep, parts, kept, place)?;
    Ok(work_on(sections))
}
