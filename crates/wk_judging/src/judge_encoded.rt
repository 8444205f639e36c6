//! Judging the module that bytes spell: what each section holds is judged when it is read, and of all but types little is kept.

ghost use Rattle.std.specs.Prelude.{◌≡◌, ◌↔◌, ◌<◌, ◌^◌, [], true, length, Ok, Some, None, Option, IfOk};
ghost use Rattle.wk_bytes.specs.Frames.{sections_of};
ghost use Rattle.wk_bytes.specs.Raw.{raw_view};
ghost use Rattle.wk_body.specs.Reads.{Reads};
ghost use Rattle.wk_module.specs.declared.types.Parts.{Parts as PartsOf};
ghost use Rattle.wk_module.specs.ListReading.{IsReading};
ghost use Rattle.wk_module.specs.Reading.{module_at};
ghost use Rattle.wk_typing.specs.declared.fault.Fault.{Fault as FaultOf};
ghost use Rattle.wk_typing.specs.declared.fault.Verdict.{Verdict};
ghost use Rattle.wk_judging.specs.Contexts.{IsFront, spaces_in};
ghost use Rattle.wk_judging.specs.Spelled.{judged, IsVerdictOf, IsValidRead, fault_read, codes_judged, opened_judged};
ghost use Rattle.wk_check.specs.Flaws.{verdict_by};
ghost use Rattle.wk_check.specs.Verdict.{module_verdict};

use crate::context::Context;
use crate::judge_sections::Workspace;
use std::alloc::Global;
use wk_bytes::{Cursor, OutOfMemory, RawSection, ReadFault, ReadKind, Sections};
use wk_module::{CodeReader, Profile, reading_of_module, section_id};
use wk_typing::{Fault, Rooms, Verdict, type_encoded_body};

// A function whose code is still to be read.
#[derive(Drop)]
struct Unread<'a> {
    index: u32,
    ty: u32,
    profile: Profile,
    code: Cursor<'a>,
}

// What is read up to a code section: the sections behind it, the first fault of those in front of it, and the code section.
struct Front<'a> {
    left: Sections<'a>,
    fault: Option<Fault>,
    code: RawSection<'a>,
}

// The first fault of the functions up to this one, whose code is still to be read, where that of those before it is given. Behind a fault
// the code is only read.
fn fault_up_to(
    alloc: Global,
    context: &Context,
    fault: Option<Fault>,
    func: &Unread<'_>,
    rooms: &mut Rooms,
) -> Result<Option<Fault>, ReadFault>
    ensures { Reads (λ r. r) result
        (fault_read func.now.profile (spaces_in context.now) fault func.now.index func.now.ty
        func.now.code) }
{
    let Unread {
        index,
        ty,
        profile,
        code,
    } = func;
    if fault.is_some() {
        // (Here and below, what is owned is freed by a call, which is proved apart.)
        drop(rooms.scratch.read_body(alloc, code, *profile)?);
        return Ok(fault);
    }
    match type_encoded_body(alloc, context, *ty, *profile, code, rooms)?.flaw() {
        Some(flaw) => Ok(Some(flaw.at(section_id::CODE, *index))),
        None => Ok(None),
    }
}

// The first fault of the sections up to a code section that was opened, in this context, where that of the sections in front of it is
// known. Each body is judged when it is read. Behind a fault bodies are only read, and where it is known that the section can be read they
// aren't.
fn fault_of_codes(
    alloc: Global,
    profile: Profile,
    context: &Context,
    known: Option<Fault>,
    codes: &mut CodeReader<'_>,
    rooms: &mut Rooms,
    is_spelled: bool,
) -> Result<Option<Fault>, ReadFault>
    requires few { length context.now.funcs < 2 ^ 32 }
    requires spelled { is_spelled ≡ true
        → (o : Option FaultOf) × (opened_judged profile context.now known codes.old ≡ Ok o) }
    ensures { Reads (λ r. r) result (opened_judged profile context.now known codes.old) }
{
    let mut fault = known;
    for (index, ty) in context.funcs().iter().enumerate() {
        if is_spelled && fault.is_some() {
            return Ok(fault);
        }
        let func = Unread {
            index: index as u32,
            ty: *ty,
            profile,
            code: codes.next_code()?,
        };
        fault = fault_up_to(alloc, context, fault, &func, rooms)?;
    }
    codes.end()?;
    Ok(fault)
}

// The same of a code section that is still to be opened.
fn fault_of_section(
    alloc: Global,
    profile: Profile,
    workspace: &mut Workspace,
    known: Option<Fault>,
    section: &RawSection<'_>,
    is_spelled: bool,
) -> Result<Option<Fault>, ReadFault>
    requires spelled { is_spelled ≡ true
        → (o : Option FaultOf)
        × (codes_judged profile workspace.old.context known (raw_view section.now) ≡ Ok o) }
    ensures fault { Reads (λ r. r) result
        (codes_judged profile workspace.old.context known (raw_view section.now)) }
    ensures context { workspace.new.context ≡ workspace.old.context }
{
    let Workspace { context, rooms } = workspace;
    let mut codes = CodeReader::open(section, context.funcs().len())?;
    fault_of_codes(
        alloc, profile, context, known, &mut codes, rooms, is_spelled,
    )
}

// The verdict where this is the first fault.
fn verdict_of(fault: Option<Fault>) -> Verdict
    ensures { result ≡ verdict_by fault }
{
    match fault {
        Some(fault) => Verdict::Invalid(fault),
        None => Verdict::Valid,
    }
}

// Judges the module of these bytes, of which the sections in front of the code section are read, and of which may be known that they
// spell one.
fn judge_from_code(
    alloc: Global,
    workspace: &mut Workspace,
    bytes: &[u8],
    profile: Profile,
    front: Front<'_>,
    is_spelled: bool,
) -> Result<Verdict, ReadFault>
    requires spelled { is_spelled ≡ true
        → (m : PartsOf) × (module_at profile bytes.now ≡ Ok m) }
    requires front { IsFront profile (sections_of bytes.now) workspace.old.context front.left
        front.fault (Some front.code) }
    ensures { Reads (λ v. v) result (judged (module_at profile bytes.now)) }
{
    reading_of_module(bytes, profile);
    let Front {
        mut left,
        fault,
        code,
    } = front;
    let fault = fault_of_section(alloc, profile, workspace, fault, &code, is_spelled)?;
    Ok(verdict_of(workspace.judge_behind(alloc, profile, &mut left, fault)?))
}

// The verdict of the module of these bytes, which are read and hold no code section, where this is the first fault.
fn verdict_without_code(
    bytes: &[u8],
    profile: Profile,
    context: &Context,
    fault: Option<Fault>,
) -> Result<Verdict, ReadFault>
    requires { IsFront profile (sections_of bytes.now) context.now [] fault None }
    ensures { Reads (λ v. v) result (judged (module_at profile bytes.now)) }
{
    reading_of_module(bytes, profile);
    if !context.funcs().is_empty() {
        return Err(ReadFault {
            kind: ReadKind::FuncCodeCount,
            at: bytes.len() as u32,
        });
    }
    Ok(verdict_of(fault))
}

/// Judges the module that these bytes spell. Where it is known that they spell one, no body behind the first fault is read.
pub(crate) fn judge_sections(
    alloc: Global,
    workspace: &mut Workspace,
    bytes: &[u8],
    profile: Profile,
    is_spelled: bool,
) -> Result<Verdict, ReadFault>
    requires { is_spelled ≡ true → (m : PartsOf) × (module_at profile bytes.now ≡ Ok m) }
    ensures { Reads (λ v. v) result (judged (module_at profile bytes.now)) }
{
    reading_of_module(bytes, profile);
    let mut left = Sections::new(bytes);
    let (fault, code) = workspace.judge_front(alloc, profile, &mut left)?;
    match code {
        Some(code) => {
            let front = Front { left, fault, code };
            judge_from_code(alloc, workspace, bytes, profile, front, is_spelled)
        }
        None => verdict_without_code(bytes, profile, &workspace.context, fault),
    }
}

// The same in a workspace of its own.
fn judge_spelling(
    alloc: Global,
    bytes: &[u8],
    profile: Profile,
    is_spelled: bool,
) -> Result<Verdict, ReadFault>
    requires { is_spelled ≡ true → (m : PartsOf) × (module_at profile bytes.now ≡ Ok m) }
    ensures { Reads (λ v. v) result (judged (module_at profile bytes.now)) }
{
    judge_sections(
        alloc,
        &mut Workspace::new(alloc),
        bytes,
        profile,
        is_spelled,
    )
}

/// Judges the module of a profile that bytes spell (5.5.15, 3.4.10): valid, or the first fault by section, item, and what is
/// looked at.
///
/// The verdict is that of the module that [`read_in`](wk_module::read_in) reads of these bytes. Each item is judged and each body typed
/// while it is read, so that the memory taken is that of the module's types, of the types of its functions and globals, and of the blocks and
/// operands of one body. A body that is invalid, and those behind a fault, are held whole, one at a time.
///
/// # Errors
///
/// Where the bytes spell no module of the profile, the first fault from left to right, at its offset; where a growth is refused,
/// `Memory` at 0.
///
/// # Example
///
/// ```rust
/// let alloc = rt.alloc();
/// // A function without results, of `i32.const 0` and `end`: it leaves an operand.
/// let bytes = b"\0asm\x01\0\0\0\x01\x04\x01\x60\0\0\x03\x02\x01\0\x0a\x06\x01\x04\0\x41\0\x0b";
/// let place = Place {
///     section: 10,
///     item: 0,
///     token: Some(1),
/// };
/// let kind = FaultKind::StackHeight;
/// let verdict = judge_bytes(alloc, bytes, Profile::Core)?;
/// assert_eq!(rt; verdict, Verdict::Invalid(Fault { kind, place }));
/// ```
#[tactic(auto, using(crate::proofs::JudgedCodes::told_meaning))]
pub fn judge_bytes(alloc: Global, bytes: &[u8], profile: Profile) -> Result<Verdict, ReadFault>
    ensures exact { Reads (λ v. v) result (judged (module_at profile bytes.now)) }
    ensures meaning { IfOk result (λ verdict. IsVerdictOf (module_at profile bytes.now) verdict) }
    // It is valid exactly where the declarative rules derive each body, each initialiser and each offset, and nothing is wrong with
    // the rest of it (chapter 3).
    ensures valid { IfOk result
        (λ verdict. verdict ≡ Verdict.Valid ↔ IsValidRead (module_at profile bytes.now)) }
    ensures is { IsReading profile bytes.now (module_at profile bytes.now) }
{
    reading_of_module(bytes, profile);
    judge_spelling(alloc, bytes, profile, false)
}

/// Judges the module of a profile that bytes are known to spell (5.5.15, 3.4.10), as [`judge_bytes`] does. Behind its first fault no
/// body is read, so that one that is invalid in front costs no more than its lists.
///
/// # Errors
///
/// [`OutOfMemory`] where a growth is refused.
pub fn judge_spelled(alloc: Global, bytes: &[u8], profile: Profile) -> Result<Verdict, OutOfMemory>
    requires { (m : PartsOf) × (module_at profile bytes.now ≡ Ok m) }
    ensures exact { (m : PartsOf) → module_at profile bytes.now ≡ Ok m →
        IfOk result (λ v. v ≡ module_verdict m) }
    ensures meaning { IfOk result (λ verdict. IsVerdictOf (module_at profile bytes.now) verdict) }
    ensures valid { IfOk result
        (λ verdict. verdict ≡ Verdict.Valid ↔ IsValidRead (module_at profile bytes.now)) }
    ensures is { IsReading profile bytes.now (module_at profile bytes.now) }
{
    reading_of_module(bytes, profile);
    match judge_spelling(alloc, bytes, profile, true) {
        Ok(verdict) => Ok(verdict),
        Err(fault) if fault.kind == ReadKind::Memory => Err(OutOfMemory),
        // The bytes spell a module.
        Err(_) => unreachable!(),
    }
}
