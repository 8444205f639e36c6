//! Where the fault of bytes is: working it out, and writing it as numbers.

ghost use Rattle.std.specs.Prelude.{◌≡◌, ◌≢◌, Result, IfErr, IfOk, OnOk};
ghost use Rattle.wk_bytes.specs.declared.fault.ReadFault.{ReadFault as ReadFaultOf};
ghost use Rattle.wk_body.specs.Reads.{Reads};
ghost use Rattle.wk_module.specs.declared.types.Parts.{Parts};
ghost use Rattle.wk_module.specs.ListReading.{IsReading};
ghost use Rattle.wk_module.specs.Modules.{Spells};
ghost use Rattle.wk_module.specs.Reading.{module_at};
ghost use Rattle.wk_typing.specs.declared.fault.Verdict.TheVariants as VerdictOf;
ghost use Rattle.wk_judging.specs.Spelled.{judged};
ghost use Rattle.wk_check.specs.Verdict.{module_verdict};
ghost use Rattle.wk_answers.specs.Validation.{status_of};
ghost use Rattle.wk_ffi.specs.Asked.{taken};
ghost use Rattle.wk_ffi.specs.Meanings.{LocateMeans};
ghost use Rattle.wk_ffi.specs.Numbers.{AreOfFault, AreOfRead};
ghost use Rattle.wk_ffi.specs.Outputs.{AnswersNumbers, IsTold, PutsNumbers};
ghost use Rattle.wk_ffi.specs.Told.{status_told};

use crate::asked::{is_short, profile_of};
use crate::code::Code;
use crate::numbers::{COUNT, FaultNumbers};
use std::alloc::Global;
use wk_bytes::{OutOfMemory, ReadFault, ReadKind};
use wk_judging::{Fault, Validator, Verdict};
use wk_module::Profile;
use wk_place::{func_of_fault, locate};

// How judging ended, but for want of memory.
fn code_of(verdict: &Result<Verdict, ReadFault>) -> Result<Code, OutOfMemory>
    ensures code { (read : Result Parts ReadFaultOf) → Reads (λ v. v) verdict.now (judged read)
        → IfOk result (λ code. code ≡ status_told (status_of read)) }
    ensures known { OnOk result (IfErr verdict.now (λ e. e.kind ≢ ReadKind.Memory)) }
{
    match verdict {
        Ok(verdict) => match verdict {
            Verdict::Valid => Ok(Code::Fine),
            Verdict::Invalid(_) => Ok(Code::Invalid),
        },
        Err(fault) => match fault.kind {
            ReadKind::Memory => Err(OutOfMemory),
            _ => Ok(Code::Malformed),
        },
    }
}

// Of the fault of a module that the bytes spell.
fn of_fault(
    alloc: Global,
    bytes: &[u8],
    profile: Profile,
    fault: &Fault,
) -> Result<FaultNumbers, OutOfMemory>
    ensures { (m : Parts) → m.profile ≡ profile → Spells bytes.now m
        → module_verdict m ≡ VerdictOf.Invalid fault.now
        → IfOk result (λ n. AreOfFault profile bytes.now m fault.now n) }
{
    let located = locate(alloc, bytes, profile, fault)?;
    Ok(FaultNumbers::of_invalid(fault, located))
}

// Of what judging the bytes gave, which was no want of memory.
fn numbers_of(
    alloc: Global,
    bytes: &[u8],
    profile: Profile,
    verdict: &Result<Verdict, ReadFault>,
) -> Result<FaultNumbers, OutOfMemory>
    ensures { (read : Result Parts ReadFaultOf) → IsReading profile bytes.now read
        → Reads (λ v. v) verdict.now (judged read)
        → IfErr verdict.now (λ e. e.kind ≢ ReadKind.Memory)
        → IfOk result (λ n. AreOfRead profile bytes.now read n) }
{
    match verdict {
        Ok(verdict) => match verdict {
            Verdict::Valid => Ok(FaultNumbers::of_valid()),
            Verdict::Invalid(fault) => of_fault(alloc, bytes, profile, fault),
        },
        Err(fault) => {
            let func = func_of_fault(alloc, bytes, profile, fault)?;
            Ok(FaultNumbers::of_malformed(fault, func))
        }
    }
}

// Judges the module of a profile that the bytes spell, and writes the numbers of its fault, where there is memory for them. Without that it
// looks for no place.
fn locate_in(
    validator: &mut Validator,
    alloc: Global,
    bytes: &[u8],
    profile: Profile,
    numbers: &mut [u32],
) -> Result<Code, OutOfMemory>
    ensures code { IfOk result
        (λ code. code ≡ status_told (status_of (module_at profile bytes.now))) }
    ensures puts { OnOk result
        (PutsNumbers (AreOfRead profile bytes.now (module_at profile bytes.now)) numbers.old
        numbers.new) }
    ensures same { IfErr result (λ _. numbers.new ≡ numbers.old) }
    ensures is { IsReading profile bytes.now (module_at profile bytes.now) }
    ensures known { OnOk result
        (IfErr (module_at profile bytes.now) (λ e. e.kind ≢ ReadKind.Memory)) }
{
    let verdict = validator.judge_bytes(alloc, bytes, profile);
    let code = code_of(&verdict)?;
    if numbers.len() >= COUNT {
        numbers_of(alloc, bytes, profile, &verdict)?.put(numbers);
    }
    Ok(code)
}

/// Judges the module that bytes spell by a validator that is kept, and writes where its fault is, or that of bytes that spell none. Gives the
/// number of the code.
pub fn locate_with(
    validator: &mut Validator,
    alloc: Global,
    bytes: &[u8],
    profile: u32,
    numbers: &mut [u32],
) -> u32
    ensures told { AnswersNumbers (taken profile bytes.now) bytes.now numbers.old numbers.new
        result }
    ensures means { IsTold result → LocateMeans profile bytes.now }
{
    let Some(profile) = profile_of(profile) else {
        return Code::BadArgument.number();
    };
    if !is_short(bytes) {
        return Code::BadArgument.number();
    }
    match locate_in(validator, alloc, bytes, profile, numbers) {
        Ok(code) => code.number(),
        Err(OutOfMemory) => Code::NoMemory.number(),
    }
}
