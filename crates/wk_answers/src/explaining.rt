//! Judging the module that bytes spell, and saying where in them its fault is.

ghost use Rattle.std.specs.Prelude.{◌≡◌, ◌≢◌, ◌++◌, Result, IfErr, IfOk, OnOk, codes, option_map};
ghost use Rattle.wk_bytes.specs.declared.fault.ReadFault.{ReadFault as ReadFaultOf};
ghost use Rattle.wk_bytes.specs.FaultText.{offset_text};
ghost use Rattle.wk_body.specs.Reads.{Reads};
ghost use Rattle.wk_module.specs.declared.types.Parts.{Parts};
ghost use Rattle.wk_module.specs.ListReading.{IsReading};
ghost use Rattle.wk_module.specs.Modules.{Spells};
ghost use Rattle.wk_module.specs.Reading.{module_at};
ghost use Rattle.wk_typing.specs.declared.fault.Verdict.TheVariants as VerdictOf;
ghost use Rattle.wk_judging.specs.Spelled.{judged};
ghost use Rattle.wk_check.specs.Verdict.{module_verdict};
ghost use Rattle.wk_answers.specs.Validation.{status_of};
ghost use Rattle.wk_answers.specs.Explaining.{behind_colon, entry_text, func_text, place_line, Explains, Puts, TellsBody, TellsMore, TellsPlace};

use crate::validation::{Validation, told};
use std::alloc::Global;
use wk_bytes::{OutOfMemory, ReadFault, ReadKind};
use wk_judging::{Fault, Validator, Verdict};
use wk_module::Profile;
use wk_place::{Located, entry_of_fault, func_of_fault, locate, locate_token};

/// What `validate --explain` prints, and its status.
#[derive(Debug, Drop)]
pub struct Explanation {
    /// The line of `validate`, and the line of the place.
    pub text: Vec<u8>,
    /// 0 where the module is valid, 1 where it is not, 2 where the bytes are no module.
    pub status: u8,
}

// Appends the index of a function, if there is one.
fn put_func(alloc: Global, func: Option<u32>, text: &mut Vec<u8>) -> Result<(), OutOfMemory>
    ensures { OnOk result (text.new.items ≡ text.old.items ++ func_text func) }
{
    let Some(func) = func else {
        return Ok(());
    };
    let line = format!(in alloc; " in func[{func}]")?;
    text.extend_from_slice(line.as_bytes())?;
    Ok(())
}

// Appends an offset.
fn put_offset(alloc: Global, offset: u32, text: &mut Vec<u8>) -> Result<(), OutOfMemory>
    ensures { OnOk result
        (text.new.items ≡ text.old.items ++ (codes " at " ++ offset_text offset)) }
{
    let line = format!(in alloc; " at 0x{offset:08x}")?;
    text.extend_from_slice(line.as_bytes())?;
    Ok(())
}

// Appends the entry of an element segment, if one is meant.
fn put_entry(alloc: Global, entry: Option<u32>, text: &mut Vec<u8>) -> Result<(), OutOfMemory>
    ensures { OnOk result (text.new.items ≡ text.old.items ++ entry_text entry) }
{
    let Some(entry) = entry else {
        return Ok(());
    };
    let line = format!(in alloc; " entry {entry}")?;
    text.extend_from_slice(line.as_bytes())?;
    Ok(())
}

// Appends a token behind a colon, if there is one.
fn put_token(token: Option<&Vec<u8>>, text: &mut Vec<u8>) -> Result<(), OutOfMemory>
    ensures { OnOk result
        (text.new.items ≡ text.old.items ++ behind_colon (option_map (λ t. t.now.items) token.entry)) }
{
    if let Some(token) = token {
        text.extend_from_slice(b": ")?;
        text.extend_from_slice(token)?;
    }
    Ok(())
}

// Appends the line of a place, if there is one.
fn put_line(
    alloc: Global,
    located: Option<Located>,
    entry: Option<u32>,
    token: Option<&Vec<u8>>,
    text: &mut Vec<u8>,
) -> Result<(), OutOfMemory>
    ensures { OnOk result
        (text.new.items
        ≡ text.old.items ++ place_line located entry (option_map (λ t. t.now.items) token.entry)) }
{
    let Some(Located { offset, func }) = located else {
        return Ok(());
    };
    put_offset(alloc, offset, text)?;
    put_func(alloc, func, text)?;
    put_entry(alloc, entry, text)?;
    put_token(token, text)?;
    text.extend_from_slice(b"\n")?;
    Ok(())
}

// Appends the line of the place of a fault, where the bytes have it.
fn put_place(
    alloc: Global,
    bytes: &[u8],
    profile: Profile,
    fault: &Fault,
    text: &mut Vec<u8>,
) -> Result<(), OutOfMemory>
    ensures { (m : Parts) → m.profile ≡ profile → Spells bytes.now m
        → module_verdict m ≡ VerdictOf.Invalid fault.now
        → OnOk result (Puts (TellsPlace profile bytes.now m fault.now) text.old.items
        text.new.items) }
{
    let located = locate(alloc, bytes, profile, fault)?;
    let entry = entry_of_fault(alloc, bytes, profile, fault)?;
    let token = locate_token(alloc, bytes, profile, fault)?;
    put_line(alloc, located, entry, token.as_ref(), text)
}

// Appends the line of the body in which a fault of reading lies, if it lies in one.
fn put_body(
    alloc: Global,
    bytes: &[u8],
    profile: Profile,
    fault: &ReadFault,
    text: &mut Vec<u8>,
) -> Result<(), OutOfMemory>
    ensures { OnOk result (Puts (TellsBody profile bytes.now fault.now) text.old.items
        text.new.items) }
{
    let func = func_of_fault(alloc, bytes, profile, fault)?;
    if func.is_some() {
        put_func(alloc, func, text)?;
        text.extend_from_slice(b"\n")?;
    }
    Ok(())
}

// Appends the line behind that of a verdict, or of bytes that are no module.
fn put_more(
    alloc: Global,
    bytes: &[u8],
    profile: Profile,
    verdict: &Result<Verdict, ReadFault>,
    text: &mut Vec<u8>,
) -> Result<(), OutOfMemory>
    ensures { (read : Result Parts ReadFaultOf) → IsReading profile bytes.now read
        → Reads (λ v. v) verdict.now (judged read)
        → IfErr verdict.now (λ e. e.kind ≢ ReadKind.Memory)
        → OnOk result (Puts (TellsMore profile bytes.now read) text.old.items text.new.items) }
{
    match verdict {
        Ok(verdict) => match verdict {
            Verdict::Valid => Ok(()),
            Verdict::Invalid(fault) => put_place(alloc, bytes, profile, fault, text),
        },
        Err(fault) => put_body(alloc, bytes, profile, fault, text),
    }
}

/// Judges the module of a profile that the bytes spell, as [`validate_with`](crate::validate_with) does, and says where in the bytes the fault
/// of an invalid module is: behind the line of the verdict comes one as ` at 0x00000058 in func[2]: call 1`. Its offset is that of the first byte
/// of the item, or of the token where the verdict names one; the function has its index in the function index space, where the item is a body; and
/// the token is as in the code listing. Where an element segment of several functions has one that the module has not, the line says which is the
/// first, counted from 0, as ` at 0x00000058 entry 17`. Of bytes that are no module it says in which function's body the fault is, as ` in func[2]`,
/// where it is in one. The validator may be used again whatever this answered.
///
/// # Errors
///
/// Want of memory.
pub fn explain_with(
    validator: &mut Validator,
    alloc: Global,
    bytes: &[u8],
    profile: Profile,
) -> Result<Explanation, OutOfMemory>
    ensures told { IfOk result (λ x. Explains profile bytes.now x.text.items x.status) }
    ensures status { IfOk result (λ x. x.status ≡ status_of (module_at profile bytes.now)) }
{
    let verdict = validator.judge_bytes(alloc, bytes, profile);
    let Validation { line, status } = told(alloc, bytes, profile, &verdict)?;
    let mut text = line.into_bytes();
    put_more(alloc, bytes, profile, &verdict, &mut text)?;
    Ok(Explanation { text, status })
}

/// The same by a validator of its own.
///
/// # Errors
///
/// Want of memory.
pub fn explain(alloc: Global, bytes: &[u8], profile: Profile) -> Result<Explanation, OutOfMemory>
    ensures told { IfOk result (λ x. Explains profile bytes.now x.text.items x.status) }
    ensures status { IfOk result (λ x. x.status ≡ status_of (module_at profile bytes.now)) }
{
    let mut validator = Validator::new(alloc);
    explain_with(&mut validator, alloc, bytes, profile)
}
