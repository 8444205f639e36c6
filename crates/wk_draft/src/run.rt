//! Edits of a valid module, from its bytes.
//!
//! Where edits are not made, an outline or a draft is let go by `drop`: how its lists are freed is then proved once, and not at each exit.

ghost use Rattle.std.specs.Prelude.{◌≡◌, ◌↔◌, Bool, List, [], Ok, IfOk, IfSome, MatchResult, map, replicate, true};
ghost use Rattle.wk_body.specs.Reads.{FailsAs};
ghost use Rattle.wk_body.specs.Written.{written_body};
ghost use Rattle.wk_module.specs.declared.types.Func.{Func as FuncOf};
ghost use Rattle.wk_module.specs.declared.types.Parts.{Parts as PartsOf};
ghost use Rattle.wk_module.specs.ListReading.{IsReading};
ghost use Rattle.wk_module.specs.Reading.{module_at};
ghost use Rattle.wk_module.specs.Outlines.{outlined};
ghost use Rattle.wk_module.specs.Shape.{IsShaped};
ghost use Rattle.wk_check.specs.Verdict.{module_verdict};
ghost use Rattle.wk_pieces.specs.Pieces.{code_of};
ghost use Rattle.wk_session.specs.declared.edit.Edit.{Edit as EditOf};
ghost use Rattle.wk_session.specs.Runs.{after, replies_of};
ghost use Rattle.wk_draft.specs.Drafts.{deferred_room};
ghost use Rattle.wk_draft.specs.Runs.{AreAlike, IsDrafted, IsFirst, IsHeld, IsMade, IsOutlined, IsRun};

use crate::draft::{Answer, Draft, step};
use crate::edited::Edited;
use crate::predict_refusal::has_breaking_import;
use crate::put_back::put_back;
use crate::size_bound::{deferred_room, has_room};
use std::alloc::Global;
use wk_bytes::{Items, OutOfMemory, ReadFault, ReadKind};
use wk_check::laws_of_valid_modules;
use wk_judging::{Verdict, judge_bytes, judge_spelled};
use wk_list::Shape;
use wk_module::{
    EncodeFault, Kind, Module, Outline, Parts, Profile, Shifts, import_count, read_outline,
    reading_of_module,
};
use wk_session::{Edit, Session};

/// What edits made of a module.
#[derive(Debug, Drop)]
pub struct Run {
    /// The edited module, as it is to be written.
    pub edited: Edited,
    /// Its verdict.
    pub verdict: Verdict,
    /// What each edit was answered. How much work an accepted one took is not told: a draft takes other work than the module.
    pub replies: Vec<Answer>,
}

/// What came of edits of a module of which an outline was read.
#[derive(Debug, Drop)]
pub enum Drafted {
    /// They were made.
    Made(Run),
    /// None of them was made.
    Unmade {
        /// The verdict on the module, where it was judged.
        verdict: Option<Verdict>,
        /// The codes of its bodies, which the outline had, where no draft took them.
        codes: Option<Vec<Items<u8>>>,
    },
}

// Where references stand at first.
fn shifts_of(parts: &Parts) -> Option<Shifts>
    ensures { IfSome result (IsFirst parts.now) }
{
    let funcs = import_count(parts.imports.as_slice(), Kind::Func);
    let globals = import_count(parts.imports.as_slice(), Kind::Global);
    Some(Shifts {
        funcs_from: u32::try_from(funcs).ok()?,
        funcs_by: 0,
        globals_from: u32::try_from(globals).ok()?,
        globals_by: 0,
    })
}

// So many flags, all set.
fn defer_all(alloc: Global, count: usize) -> Result<Vec<bool>, OutOfMemory>
    ensures { IfOk result (λ deferred. deferred.items ≡ replicate count true) }
{
    let mut deferred = Vec::with_capacity(alloc, count)?;
    for _ in 0..count {
        deferred.push_reserved(true);
    }
    Ok(deferred)
}

// A session over the draft, or nothing where it is too large.
fn session_of(alloc: Global, module: Module) -> Result<Option<Session>, OutOfMemory>
    ensures { IfOk result (λ r. IfSome r (λ session. session ≡ «module»)) }
{
    match Session::of(alloc, module) {
        Ok(session) => Ok(Some(session)),
        Err(EncodeFault::TooLarge) => Ok(None),
        Err(EncodeFault::Memory) => Err(OutOfMemory),
    }
}

// Defers each body of a draft, or answers `false` where the draft is not valid, has no such room, or imports too many.
fn begin_draft(alloc: Global, draft: &mut Draft, room: usize) -> Result<bool, OutOfMemory>
    ensures { (m : PartsOf) → draft.old.session ≡ outlined m → IsShaped m
        → module_verdict m ≡ Verdict.Valid → room ≡ deferred_room m.funcs
        → IfOk result (λ begun. begun ≡ true → IsHeld m.funcs m draft.new) }
{
    // The proof asks what this says: bodies of a valid module are valid.
    laws_of_valid_modules();
    let parts = draft.session.parts();
    let Some(shifts) = shifts_of(parts) else {
        return Ok(false);
    };
    let deferred = defer_all(alloc, parts.funcs.len())?;
    let Verdict::Valid = draft.session.verdict() else {
        return Ok(false);
    };
    if !has_room(draft.session.encoded_len(), room) {
        return Ok(false);
    }
    draft.deferred = deferred;
    draft.shifts = shifts;
    Ok(true)
}

// Makes edits of a draft, and answers each as the module would. Nothing is answered where the module may be too large.
fn make_edits(
    alloc: Global,
    draft: &mut Draft,
    keep: bool,
    edits: &[Edit],
    room: usize,
) -> Result<Option<Vec<Answer>>, OutOfMemory>
    ensures { (os : List FuncOf) (m : PartsOf) → room ≡ deferred_room os → IsHeld os m draft.old
        → IfOk result (λ r. IfSome r (λ replies. IsHeld os (after keep edits.now [] m) draft.new
        × AreAlike replies.items (replies_of keep edits.now [] m))) }
{
    let mut replies = Vec::with_capacity(alloc, edits.len())?;
    for edit in edits {
        let Some(answer) = step(draft, keep, edit, room)? else {
            return Ok(None);
        };
        replies.push_reserved(answer);
    }
    Ok(Some(replies))
}

// Edits a draft whose bodies have these codes: the codes in the place of its stubs, and the answers; or nothing where it does not serve.
fn edit_draft(
    alloc: Global,
    draft: &mut Draft,
    codes: Vec<Items<u8>>,
    edits: &[Edit],
    keep: bool,
) -> Result<Option<(Vec<Option<Items<u8>>>, Vec<Answer>)>, OutOfMemory>
    ensures { (m : PartsOf) → IsOutlined m draft.old.session codes.items
        → IfOk result (λ r. IfSome r (λ made.
        IsMade keep m edits.now draft.new made.0.items made.1.items)) }
{
    let Some(room) = deferred_room(&codes) else {
        return Ok(None);
    };
    if !begin_draft(alloc, draft, room)? {
        return Ok(None);
    }
    let Some(replies) = make_edits(alloc, draft, keep, edits, room)? else {
        return Ok(None);
    };
    if draft.deferred.len() != codes.len() {
        return Ok(None);
    }
    let Some(codes) = put_back(alloc, draft, codes)? else {
        return Ok(None);
    };
    Ok(Some((codes, replies)))
}

// The run of a draft whose edits are made and answered so, where these codes come in the place of its stubs.
fn run_of(draft: Draft, codes: Vec<Option<Items<u8>>>, replies: Vec<Answer>) -> Run
    requires { (keep : Bool) × (m : PartsOf) × (edits : List EditOf)
        × IsMade keep m edits draft codes.items replies.items }
    ensures { (keep : Bool) (m : PartsOf) (edits : List EditOf)
        → IsMade keep m edits draft codes.items replies.items → IsRun keep m edits result }
{
    let Draft { session, .. } = draft;
    // The proof asks what this says: the draft is shaped.
    let _parts = session.parts();
    let verdict = *session.verdict();
    Run {
        edited: Edited { session, codes },
        verdict,
        replies,
    }
}

// Makes edits of a valid module, of its outline; or nothing where a draft does not serve.
fn edit_outlined(
    alloc: Global,
    outline: Outline,
    edits: &[Edit],
    keep: bool,
) -> Result<Option<Run>, OutOfMemory>
    requires { (m : PartsOf) × IsOutlined m outline.«module» outline.codes.items }
    ensures { (m : PartsOf) → IsOutlined m outline.«module» outline.codes.items
        → IfOk result (λ r. IfSome r (IsRun keep m edits.now)) }
{
    let Outline { module, codes } = outline;
    let Some(session) = session_of(alloc, module)? else {
        return Ok(None);
    };
    // No body is deferred yet.
    let mut draft = Draft {
        session,
        deferred: Vec::new(alloc),
        shifts: Shifts {
            funcs_from: 0,
            funcs_by: 0,
            globals_from: 0,
            globals_by: 0,
        },
    };
    match edit_draft(alloc, &mut draft, codes, edits, keep) {
        Ok(Some((codes, replies))) => Ok(Some(run_of(draft, codes, replies))),
        unmade => {
            drop(draft);
            unmade.and(Ok(None))
        }
    }
}

// What is left where no draft is made of an outline: its stubs go, and its codes stay, for a session over the whole module.
fn give_up(verdict: Option<Verdict>, outline: Outline) -> Drafted
    ensures { (keep : Bool) (m : PartsOf) (edits : List EditOf)
        → IfSome verdict (λ v. v ≡ module_verdict m) → outline.codes.items ≡ map code_of m.funcs
        → IsDrafted keep m edits result }
{
    let Outline { module, codes } = outline;
    drop(module);
    Drafted::Unmade {
        verdict,
        codes: Some(codes),
    }
}

/// Whether the module of a profile that bytes spell is valid.
///
/// # Errors
///
/// Where the bytes spell no module of the profile, the first fault from left to right, at its offset; where a growth is refused,
/// `Memory` at 0.
pub fn is_valid(alloc: Global, input: &[u8], profile: Profile) -> Result<bool, ReadFault>
    ensures exact { MatchResult result
        (λ valid. (m : PartsOf) × (module_at profile input.now ≡ Ok m)
        × (valid ≡ true ↔ module_verdict m ≡ Verdict.Valid))
        (λ e. FailsAs e e.kind (module_at profile input.now)) }
    ensures is { IsReading profile input.now (module_at profile input.now) }
{
    match judge_bytes(alloc, input, profile)? {
        Verdict::Valid => Ok(true),
        Verdict::Invalid(_) => Ok(false),
    }
}

/// Makes edits in order on the module of a profile that bytes spell, which has to be valid ([`is_valid`] tells whether it is); `keep` says
/// whether each has to leave a valid module.
///
/// Or nothing is answered, and then nothing is known; no clause says when. It is so where the module may pass 2,147,483,647 bytes by a bound
/// of three times its codes, and where an import or a custom section is refused because the module would be invalid, which is mostly told
/// before any edit is made. Where bodies are no longer than a stub, of three bytes, a session over the whole module takes less time.
///
/// # Errors
///
/// Want of memory, also where an edit met it.
pub fn edit_valid(
    alloc: Global,
    input: &[u8],
    profile: Profile,
    edits: &[Edit],
    keep: bool,
) -> Result<Option<Run>, OutOfMemory>
    requires { (m : PartsOf) × (module_at profile input.now ≡ Ok m)
        × (module_verdict m ≡ Verdict.Valid) }
    ensures { (m : PartsOf) → module_at profile input.now ≡ Ok m
        → IfOk result (λ r. IfSome r (IsRun keep m edits.now)) }
{
    // The proof asks what this says: the module is shaped and fits.
    reading_of_module(input, profile);
    let outline = match read_outline(alloc, input, profile) {
        Ok(outline) => outline,
        Err(fault) if fault.kind == ReadKind::Memory => return Err(OutOfMemory),
        Err(_) => return Ok(None),
    };
    if keep && has_breaking_import(outline.module.parts(), edits) {
        drop(outline);
        return Ok(None);
    }
    edit_outlined(alloc, outline, edits, keep)
}

/// Makes edits in order on the module of a profile that bytes spell, of which an outline was read; `keep` says whether each has to leave a
/// valid module. The module is judged first, and an invalid one is left as it is.
///
/// Where they are not made, nothing is known but the verdict and the codes that are answered, if there are any; no clause says when. It is so
/// as for [`edit_valid`]. An import that looks as if it would break the module is told before it is judged.
///
/// # Errors
///
/// Want of memory, also where an edit met it.
pub fn edit_outline(
    alloc: Global,
    outline: Outline,
    input: &[u8],
    profile: Profile,
    edits: &[Edit],
    keep: bool,
) -> Result<Drafted, OutOfMemory>
    requires { (m : PartsOf) × (module_at profile input.now ≡ Ok m)
        × (outline.«module» ≡ outlined m)
        × (outline.codes.items ≡ map (λ f. written_body f.body) m.funcs) }
    ensures { (m : PartsOf) → module_at profile input.now ≡ Ok m
        → IfOk result (IsDrafted keep m edits.now) }
{
    // The proof asks what this says: the module is shaped and fits.
    reading_of_module(input, profile);
    if keep && has_breaking_import(outline.module.parts(), edits) {
        return Ok(give_up(None, outline));
    }
    let verdict = match judge_spelled(alloc, input, profile) {
        Ok(verdict) => verdict,
        Err(fault) => {
            drop(outline);
            return Err(fault);
        }
    };
    let Verdict::Valid = verdict else {
        return Ok(give_up(Some(verdict), outline));
    };
    match edit_outlined(alloc, outline, edits, keep)? {
        Some(run) => Ok(Drafted::Made(run)),
        None => Ok(Drafted::Unmade {
            verdict: Some(Verdict::Valid),
            codes: None,
        }),
    }
}
