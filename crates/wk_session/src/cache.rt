//! What a session keeps beside its module, so that an edit computes only what depends on it.

ghost use Rattle.std.specs.Prelude.{◌≡◌, ◌+◌, ◌<◌, ◌≤◌, ◌^◌, length, map, IfOk, IfSome};
ghost use Rattle.wk_body.specs.Lengths.{limited};
ghost use Rattle.wk_module.specs.declared.types.Parts.{Parts as PartsOf};
ghost use Rattle.wk_module.specs.declared.types.Func.{Func as FuncOf};
ghost use Rattle.wk_module.specs.Listed.{listed, AreNumbered};
ghost use Rattle.wk_module.specs.Shape.{IsInOrderFrom};
ghost use Rattle.wk_module.specs.Writing.{Fits, encoded};
ghost use Rattle.wk_check.specs.Spaces.{answer_in, spaces_of};
ghost use Rattle.wk_typing.specs.declared.fault.Verdict.{Verdict as VerdictOf};
ghost use Rattle.wk_check.specs.Flaws.{first_in};
ghost use Rattle.wk_typing.specs.Faults.{body_flaw};
ghost use Rattle.wk_check.specs.Verdict.{func_verdict, module_verdict, verdict_around};
ghost use Rattle.wk_pieces.specs.Pieces.{ArePieces, code_of};
ghost use Rattle.wk_session.specs.Kept.{IsKept, uses_of};
ghost use Rattle.wk_session.specs.Known.{AreKnown};

use crate::judged::type_body;
use crate::known::told_body;
use std::alloc::Global;
use std::collections::BTreeSet;
use wk_bytes::{Items, OutOfMemory};
use wk_check::{BodyVerdict, Env, Meter, Verdict, Whole, first_code_fault, judge_around};
use wk_module::{Body, Func, Lists, Module, Ref, uses};
use wk_pieces::{EncodedSections, code_in_room, module_len, no_news, sizes_after};

/// What is kept beside a module: each part is what computing it from the module would give (`IsKept` of `specs/Kept`).
#[derive(Debug, Drop)]
pub(crate) struct Cache {
    /// The verdict of the module.
    pub(crate) verdict: Verdict,
    /// The length of its written form, in bytes.
    pub(crate) len: u32,
    /// The index of the type of each function that it defines.
    pub(crate) types: Vec<u32>,
    /// The verdict of each body.
    pub(crate) verdicts: Vec<BodyVerdict>,
    /// What each function refers to, its own type too.
    pub(crate) refs: Vec<BTreeSet<Ref>>,
    /// Its written form, in pieces.
    pub(crate) pieces: EncodedSections,
}

// The types of functions.
fn types_of(alloc: Global, funcs: &Items<Func>) -> Result<Vec<u32>, OutOfMemory>
    ensures { IfOk result (λ v. v.items ≡ map (λ f. f.ty) funcs.now) }
{
    let mut types = Vec::with_capacity(alloc, funcs.len())?;
    for func in funcs.as_slice() {
        types.push(func.ty)?;
    }
    Ok(types)
}

/// What is kept of each function.
#[derive(Drop)]
struct Entries {
    /// The verdict of each body.
    verdicts: Vec<BodyVerdict>,
    /// What each function refers to.
    refs: Vec<BTreeSet<Ref>>,
    /// The code of each, without its size.
    codes: Vec<Items<u8>>,
}

/// What a function refers to, its own type too.
pub(crate) fn func_uses(
    alloc: Global,
    own_type: u32,
    body: &Body,
) -> Result<BTreeSet<Ref>, OutOfMemory>
    ensures { IfOk result
        (λ s. (f : FuncOf) → f.ty ≡ own_type → f.body ≡ body.now → s.keys ≡ uses_of f) }
{
    uses(alloc, own_type, body)
}

// The verdict of a body, which is not typed where it is told.
fn verdict_of<E: Env>(
    env: &E,
    func: &Func,
    told: Option<BodyVerdict>,
    meter: &mut Meter,
) -> Result<BodyVerdict, OutOfMemory>
    requires room { meter.old + 1 < 2 ^ 64 }
    requires told { IfSome told (λ v. v ≡ func_verdict (E.answers env.now) func.now) }
    ensures verdict { IfOk result (λ v. v ≡ func_verdict (E.answers env.now) func.now) }
    ensures typed { meter.new ≤ meter.old + 1 }
{
    match told {
        Some(verdict) => Ok(verdict),
        None => type_body(env, func.ty, &func.body, meter),
    }
}

// What is kept of functions of a module, whose verdict may be known, and whose codes may be at hand. Each of which the verdict does not tell
// is judged, and each is looked at and, where its code is not at hand, written while it is in the processor's caches.
fn entries_in<E: Env>(
    alloc: Global,
    env: &E,
    funcs: &Items<Func>,
    known: &Option<Verdict>,
    at_hand: Option<Vec<Items<u8>>>,
) -> Result<Entries, OutOfMemory>
    requires few { length funcs.now < 2 ^ 32 }
    requires told { AreKnown known.now (E.answers env.now) funcs.now }
    requires at_hand { IfSome at_hand (λ cs. cs.items ≡ map code_of funcs.now) }
    ensures verdicts { IfOk result
        (λ e. e.verdicts.items ≡ map (func_verdict (E.answers env.now)) funcs.now) }
    ensures refs { IfOk result (λ e. map (λ s. s.keys) e.refs.items ≡ map uses_of funcs.now) }
    ensures codes { IfOk result (λ e. e.codes.items ≡ map code_of funcs.now) }
{
    let mut meter = Meter::new(alloc);
    let mut encoded = 0;
    let mut verdicts = Vec::with_capacity(alloc, funcs.len())?;
    let mut refs = Vec::with_capacity(alloc, funcs.len())?;
    let is_written = at_hand.is_some();
    let mut codes = match at_hand {
        Some(codes) => codes,
        None => Vec::with_capacity(alloc, funcs.len())?,
    };
    let mut room = Vec::new(alloc);
    for (i, func) in funcs.as_slice().iter().enumerate() {
        let verdict = verdict_of(env, func, told_body(known, i), &mut meter)?;
        let found = func_uses(alloc, func.ty, &func.body)?;
        if !is_written {
            codes.push(code_in_room(alloc, &mut room, &func.body, &mut encoded)?)?;
        }
        verdicts.push(verdict)?;
        refs.push(found)?;
    }
    Ok(Entries {
        verdicts,
        refs,
        codes,
    })
}

// What is kept of functions in a module with these lists, whose verdict may be known, and whose codes may be at hand.
fn entries_of(
    alloc: Global,
    lists: Lists<'_>,
    funcs: &Items<Func>,
    known: &Option<Verdict>,
    at_hand: Option<Vec<Items<u8>>>,
) -> Result<Entries, OutOfMemory>
    requires few { length funcs.now < 2 ^ 32 }
    requires told { AreKnown known.now (answer_in (spaces_of (listed lists))) funcs.now }
    requires at_hand { IfSome at_hand (λ cs. cs.items ≡ map code_of funcs.now) }
    ensures verdicts { IfOk result
        (λ e. e.verdicts.items
        ≡ map (func_verdict (answer_in (spaces_of (listed lists.entry)))) funcs.now) }
    ensures refs { IfOk result (λ e. map (λ s. s.keys) e.refs.items ≡ map uses_of funcs.now) }
    ensures codes { IfOk result (λ e. e.codes.items ≡ map code_of funcs.now) }
{
    let whole = Whole::of(alloc, lists)?;
    entries_in(alloc, &whole, funcs, known, at_hand)
}

// The verdict of a module with these lists and verdicts of bodies. It is not judged where it is known.
fn module_verdict_of(
    alloc: Global,
    lists: &Lists<'_>,
    verdicts: &[BodyVerdict],
    known: &Option<Verdict>,
) -> Result<Verdict, OutOfMemory>
    requires few { length verdicts.now < 2 ^ 32 }
    requires numbered { AreNumbered (listed lists.now) }
    ensures { (w : VerdictOf)
        → verdict_around lists.now.profile (listed lists.now)
        (first_in 10 0 (map body_flaw verdicts.now))
        ≡ w
        → IfSome known.now (λ v. v ≡ w) → IfOk result (λ v. v ≡ w) }
{
    match known {
        Some(verdict) => Ok(*verdict),
        None => judge_around(alloc, lists, first_code_fault(verdicts)),
    }
}

// How long the module of these pieces is, or nothing past 2,147,483,647.
fn pieces_len(alloc: Global, pieces: &EncodedSections) -> Result<Option<u32>, OutOfMemory>
    requires sections { length pieces.now.sections.items ≡ 12 }
    requires few { length pieces.now.codes.items < 2 ^ 32 }
    ensures { (m : PartsOf) → IsInOrderFrom 0 m.customs → ArePieces m pieces.now
        → IfOk result (λ len. len ≡ limited (length (encoded m))) }
{
    let news = no_news(alloc)?;
    let sizes = sizes_after(&pieces.sections, &news);
    let count = pieces.codes.len();
    Ok(module_len(sizes, count, pieces.codes_len, pieces.customs_len))
}

impl Cache {
    /// What is to be kept of a module that is not too large, whose verdict may be known, and whose codes may be at hand.
    pub(crate) fn of(
        alloc: Global,
        module: &Module,
        known: &Option<Verdict>,
        at_hand: Option<Vec<Items<u8>>>,
    ) -> Result<Cache, OutOfMemory>
        requires fits { Fits «module».now }
        requires known { IfSome known.now (λ v. v ≡ module_verdict «module».now) }
        requires at_hand { IfSome at_hand (λ cs. cs.items ≡ map code_of («module».now).funcs) }
        ensures { IfOk result (IsKept «module».now) }
    {
        let parts = module.parts();
        let types = types_of(alloc, &parts.funcs)?;
        let lists = Lists::of(parts, &types);
        let entries = entries_of(alloc, lists, &parts.funcs, known, at_hand)?;
        let Entries {
            verdicts,
            refs,
            codes,
        } = entries;
        let verdict = module_verdict_of(alloc, &lists, &verdicts, known)?;
        let pieces = EncodedSections::of(alloc, parts, &types, codes)?;
        let Some(len) = pieces_len(alloc, &pieces)? else {
            unreachable!()
        };
        Ok(Cache {
            verdict,
            len,
            types,
            verdicts,
            refs,
            pieces,
        })
    }
}
