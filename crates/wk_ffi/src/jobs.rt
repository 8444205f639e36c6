//! What calls work out, before any of it is handed out.
ghost use Rattle.std.specs.Prelude.{◌≡◌, ◌≢◌, [], All, IfErr, IfOk, OnOk, option_map, string_bytes};
ghost use Rattle.wk_bytes.specs.Frames.{sections_of};
ghost use Rattle.wk_bytes.specs.Stands.{ItemStands};
ghost use Rattle.wk_module.specs.Reading.{module_at};
ghost use Rattle.wk_module.specs.Writing.{Fits};
ghost use Rattle.wk_list.specs.Listing.{listing};
ghost use Rattle.wk_edit.specs.Outcome.{outcome_of};
ghost use Rattle.wk_ffi.specs.declared.code.CallFault.TheVariants as CallFault;
ghost use Rattle.wk_edit.specs.Theorem.{IsReport};
ghost use Rattle.wk_ffi.specs.Meanings.{EditMeans, ListMeans, MeansListed, MeansStripped, StripMeans, ValidationMeans};
ghost use Rattle.wk_ffi.specs.Outputs.{told_of, IsAnswer};
ghost use Rattle.wk_ffi.specs.Told.{
  edit_told,
  list_told,
  listing_answer,
  malformed_told,
  outcome_told,
  sections_told,
  status_told,
  strip_answer,
  strip_told,
  validation_told,
};

use crate::asked::{flag_of, is_short, keep_of, owned, part_of, profile_of};
use crate::code::{Answer, CallFault, Code};
use std::alloc::Global;
use wk_answers::{Listing, Validation, list_sections, validate, validate_with};
use wk_bytes::{ReadFault, ReadKind, Sink, Text};
use wk_check::malformed_line;
use wk_edit::edit_in;
use wk_judging::Validator;
use wk_list::{Layout, Part, list};
use wk_module::{EncodeFault, Module, Profile, read_in, reading_of_module};
use wk_strip::strip_bytes;

// Of the lines alone.
fn of_text(alloc: Global, code: Code, text: Vec<u8>) -> Answer
    ensures code { result.code ≡ code }
    ensures bytes { result.bytes.items ≡ [] }
    ensures text { result.text ≡ text }
{
    Answer {
        code,
        bytes: Vec::new(alloc),
        text,
    }
}

// Of bytes that spell no module.
fn of_malformed(alloc: Global, fault: &ReadFault) -> Result<Answer, CallFault>
    ensures ok { IfOk result (λ a. told_of a ≡ malformed_told fault.now) }
    ensures other { OnOk result (fault.now.kind ≢ ReadKind.Memory) }
    ensures memory { IfErr result (λ e. e ≡ CallFault.Memory) }
{
    if let ReadKind::Memory = fault.kind {
        return Err(CallFault::Memory);
    }
    let line = malformed_line(alloc, fault)?;
    Ok(of_text(alloc, Code::Malformed, line.into_bytes()))
}

// Of a module that was judged, or of bytes that are no module.
fn of_validation(alloc: Global, validation: Validation) -> Answer
    ensures code { result.code ≡ status_told validation.status }
    ensures bytes { result.bytes.items ≡ [] }
    ensures text { result.text.items ≡ string_bytes validation.line }
{
    let Validation { line, status } = validation;
    of_text(alloc, Code::of_status(status), line.into_bytes())
}

/// The verdict on a module.
pub fn validation(alloc: Global, bytes: &[u8], profile: u32) -> Result<Answer, CallFault>
    ensures told { IsAnswer (validation_told profile bytes.now) result }
    ensures means { OnOk result (ValidationMeans profile bytes.now) }
{
    let Some(profile) = profile_of(profile) else {
        return Err(CallFault::Argument);
    };
    if !is_short(bytes) {
        return Err(CallFault::Argument);
    }
    Ok(of_validation(alloc, validate(alloc, bytes, profile)?))
}

/// The same by a validator that is kept, whatever it judged before.
pub fn validation_with(
    validator: &mut Validator,
    alloc: Global,
    bytes: &[u8],
    profile: u32,
) -> Result<Answer, CallFault>
    ensures told { IsAnswer (validation_told profile bytes.now) result }
    ensures means { OnOk result (ValidationMeans profile bytes.now) }
{
    let Some(profile) = profile_of(profile) else {
        return Err(CallFault::Argument);
    };
    if !is_short(bytes) {
        return Err(CallFault::Argument);
    }
    Ok(of_validation(alloc, validate_with(validator, alloc, bytes, profile)?))
}

/// The sections that stand in bytes.
pub fn sections(alloc: Global, bytes: &[u8]) -> Result<Answer, CallFault>
    ensures told { IsAnswer (sections_told bytes.now) result }
    ensures stands { OnOk result (All (ItemStands bytes.now) (sections_of bytes.now)) }
{
    if !is_short(bytes) {
        return Err(CallFault::Argument);
    }
    let Listing { text, has_fault } = list_sections(alloc, bytes)?;
    let code = if has_fault {
        Code::Malformed
    } else {
        Code::Fine
    };
    Ok(of_text(alloc, code, text))
}

// A part of the listing of a module.
fn list_module(alloc: Global, whole: &Module, part: Part) -> Result<Vec<u8>, CallFault>
    requires { Fits whole.now }
    ensures ok { IfOk result (λ text. text.items ≡ listing whole.now part) }
    ensures memory { IfErr result (λ e. e ≡ CallFault.Memory) }
{
    let layout = match Layout::of(alloc, whole) {
        Ok(layout) => layout,
        Err(EncodeFault::Memory) => return Err(CallFault::Memory),
        Err(EncodeFault::TooLarge) => unreachable!(),
    };
    let mut text = Sink::new(Vec::new(alloc));
    // The output lies in memory, so that each fault is a growth that was refused.
    let Ok(()) = list(alloc, &layout, part, &mut text) else {
        return Err(CallFault::Memory);
    };
    Ok(text.into_inner())
}

// A part of the listing of the module that bytes spell.
fn list_bytes(
    alloc: Global,
    bytes: &[u8],
    profile: Profile,
    part: Part,
) -> Result<Answer, CallFault>
    ensures ok { IfOk result (λ a. told_of a ≡ listing_answer part (module_at profile bytes.now)) }
    ensures means { OnOk result (MeansListed profile bytes.now (module_at profile bytes.now)) }
    ensures memory { IfErr result (λ e. e ≡ CallFault.Memory) }
{
    // The proof asks for what this says of modules.
    reading_of_module(bytes, profile);
    match read_in(alloc, bytes, profile) {
        Ok(module) => {
            let text = list_module(alloc, &module, part)?;
            Ok(of_text(alloc, Code::Fine, text))
        }
        Err(fault) => of_malformed(alloc, &fault),
    }
}

/// A part of the listing of a module.
pub fn listing(alloc: Global, bytes: &[u8], profile: u32, part: u32) -> Result<Answer, CallFault>
    ensures told { IsAnswer (list_told profile part bytes.now) result }
    ensures means { OnOk result (ListMeans profile part bytes.now) }
{
    let (Some(profile), Some(part)) = (profile_of(profile), part_of(part)) else {
        return Err(CallFault::Argument);
    };
    if !is_short(bytes) {
        return Err(CallFault::Argument);
    }
    list_bytes(alloc, bytes, profile, part)
}

// The module that bytes spell without its custom sections, but those of a name.
fn strip_module(
    alloc: Global,
    bytes: &[u8],
    profile: Profile,
    keep: Option<&Text>,
) -> Result<Answer, CallFault>
    ensures ok { IfOk result
        (λ a. told_of a
        ≡ strip_answer (option_map (λ name. name.now) keep.entry)
        (module_at profile bytes.now)) }
    ensures means { OnOk result
        (MeansStripped profile (option_map (λ name. name.now) keep.entry) bytes.now
        (module_at profile bytes.now)) }
    ensures memory { IfErr result (λ e. e ≡ CallFault.Memory) }
{
    let bytes = Vec::from_slice(alloc, bytes)?;
    match strip_bytes(alloc, bytes, profile, keep) {
        Ok(stripped) => Ok(Answer {
            code: Code::Fine,
            bytes: Vec::from_slice(alloc, stripped.as_slice())?,
            text: Vec::new(alloc),
        }),
        Err(fault) => of_malformed(alloc, &fault),
    }
}

/// The module without its custom sections, but those of the name `keep`, if that has bytes.
pub fn strip(alloc: Global, bytes: &[u8], profile: u32, keep: &[u8]) -> Result<Answer, CallFault>
    ensures told { IsAnswer (strip_told profile keep.now bytes.now) result }
    ensures means { OnOk result (StripMeans profile keep.now bytes.now) }
{
    let Some(profile) = profile_of(profile) else {
        return Err(CallFault::Argument);
    };
    if !is_short(bytes) {
        return Err(CallFault::Argument);
    }
    let Some(name) = keep_of(keep) else {
        return Err(CallFault::Argument);
    };
    let name = owned(alloc, name)?;
    strip_module(alloc, bytes, profile, name.as_ref())
}

// The module that the edits of a script make, and the report.
fn edit_bytes(
    alloc: Global,
    bytes: &[u8],
    script: &[u8],
    keep_valid: bool,
    profile: Profile,
) -> Result<Answer, CallFault>
    ensures ok { IfOk result
        (λ a. told_of a ≡ outcome_told (outcome_of keep_valid profile bytes.now script.now)) }
    ensures means { OnOk result
        (IsReport keep_valid profile bytes.now script.now
        (outcome_of keep_valid profile bytes.now script.now)) }
    ensures memory { IfErr result (λ e. e ≡ CallFault.Memory) }
{
    let mut edited = Sink::new(Vec::new(alloc));
    let mut report = Sink::new(Vec::new(alloc));
    // Both outputs lie in memory.
    let Ok(status) = edit_in(
        alloc,
        bytes,
        script,
        keep_valid,
        profile,
        &mut edited,
        &mut report,
    ) else {
        return Err(CallFault::Memory);
    };
    Ok(Answer {
        code: Code::of_run(status),
        bytes: edited.into_inner(),
        text: report.into_inner(),
    })
}

/// The module that the edits of a script make, and the report.
pub fn edit(
    alloc: Global,
    bytes: &[u8],
    script: &[u8],
    keep_valid: u32,
    profile: u32,
) -> Result<Answer, CallFault>
    ensures told { IsAnswer (edit_told profile keep_valid bytes.now script.now) result }
    ensures means { OnOk result (EditMeans profile keep_valid bytes.now script.now) }
{
    let (Some(profile), Some(keep_valid)) = (profile_of(profile), flag_of(keep_valid)) else {
        return Err(CallFault::Argument);
    };
    if !is_short(bytes) || !is_short(script) {
        return Err(CallFault::Argument);
    }
    edit_bytes(alloc, bytes, script, keep_valid, profile)
}
