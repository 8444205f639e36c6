//! The library for C.
//!
//! Each call takes bytes as a pointer and a length, and numbers. It writes its outputs to memory that the caller gives, each as a
//! pointer and a capacity, tells their lengths, and gives the number of a `Code`. A `Global` is passed as nothing: memory comes
//! from the program's `malloc`.
//!
//! The code is `NoMemory` where a growth was refused, `BadArgument` where a module or script has more than 2,147,483,647 bytes, a
//! number has no meaning or a name is not UTF-8, and `TooSmall` where an output has no room. After these nothing is written but
//! lengths: 0, and of `TooSmall` those that are needed. A profile is 0, of WebAssembly 1.0, or 1, the extended one.
//!
//! No pointer is null, no length is above 9,223,372,036,854,775,807, and no output lies in what another argument points to: the
//! language has no other slices. `include/wasmkit.h` checks all that of what a C program passes, and then calls these.
//!
//! [`wk_ffi_locate`] answers with numbers in place of a text, and [`wk_ffi_version`] with the version of the library.
//!
//! For a host that judges many modules, [`wk_validator_new`] makes a validator that keeps its room from one module to the next. C holds
//! its pointer, which goes to one call at a time, may go on to another thread, and is gone after [`wk_validator_free`].
//!
//! # What it promises
//!
//! Each call answers what a definition says that there is to tell (`specs/Told`: a code, the bytes of a module, a text), and hands it
//! out as `specs/Outputs` says.
//!
//! - [`wk_ffi_validate`], [`wk_ffi_sections`] and [`wk_ffi_list`] are `AnswersText` of `validation_told`, `sections_told` and
//!   `list_told`: the code comes with the whole text in front of its memory and all behind it as it was. `TooSmall` comes exactly where
//!   the text does not fit, with the length that it needs, and `BadArgument` exactly where the definition has nothing to tell, as of a
//!   profile that has no such number or of more than 2,147,483,647 bytes. Want of memory is `NoMemory`. After these three nothing is
//!   written but lengths.
//! - [`wk_ffi_locate`] is `AnswersNumbers` (`specs/Outputs`): the code of [`wk_ffi_validate`], and where there is memory for six numbers those of the
//!   fault (`AreOfRead` of `specs/Numbers`) in front of it, with all behind it as it was. Of an invalid module these are the fault of
//!   `module_verdict` and its place, the offset that this place has in the bytes (`LiesThere` of `wk_place`) and the index of the function
//!   (`func_index`); of bytes that spell no module the fault of reading them, its offset, and the function in whose body it is
//!   (`IsInBodyOf`). With memory for fewer numbers the code is the same, and nothing is written; nor is after `NoMemory` and `BadArgument`.
//! - [`wk_ffi_strip`] and [`wk_ffi_edit`] are `AnswersBoth` of `strip_told` and `edit_told`: the same of a module and a text, both or
//!   neither.
//! - The text and the code are those of `wk_answers::validate`, `list_sections`, `wk_list::listing` and `outcome_of`. The bytes of
//!   [`wk_ffi_strip`] are `encoded` of the module with the customs that stay, and those of [`wk_ffi_edit`] those of the main theorem.
//! - Where there is something to tell, it means what `Means` of `wk_answers` says ([`wk_ffi_validate`]), that the module listed is the one
//!   that the bytes spell ([`wk_ffi_list`], `MeansListed`) or what `IsStripped` of `wk_strip` does ([`wk_ffi_strip`]), or that the bytes
//!   spell no module and the fault stands in them, or what the main theorem does ([`wk_ffi_edit`], `IsReport`): their clauses `means`.
//!   Sections that are listed lie in the bytes, and the fault behind them stands there ([`wk_ffi_sections`], `stands`).
//! - Where numbers are told, the module is the one that the bytes spell, or they spell none and the fault is the first and stands in them
//!   ([`wk_ffi_locate`], `LocateMeans`).
//! - [`wk_validator_judge`] has the clauses of [`wk_ffi_validate`], and [`wk_validator_locate`] those of [`wk_ffi_locate`], whatever its validator
//!   judged before, and leaves the validator where it lies after any answer, want of memory too, so that it judges on.
//! - [`wk_validator_new`] is `Fine` with a pointer that is not null, or `NoMemory` with null (`IsNew` of `specs/Handles`). With the pointer
//!   the caller is given the memory of the validator and the right to free it (`validator_at`): [`wk_validator_judge`] and [`wk_validator_locate`] ask for
//!   both and give them back, and [`wk_validator_free`] takes them. So it can be called once for each pointer that was handed out, and no call with it
//!   can follow. That it frees the memory, and that there is memory for the next call, no clause says: `tests/embed` and `tests/refusals` look.
//! - But for a validator's pointer, no clause speaks of null, of lengths that no slice has and of outputs that lie in one another, since a slice has none of these:
//!   the header checks them, and `tests/embed` tries them.
#![tactic(auto)]

mod asked;
mod code;
mod hand;
mod handle;
mod jobs;
mod locating;
mod numbers;

ghost use Rattle.std.specs.Prelude.{◌≡◌, All};
ghost use Rattle.wk_bytes.specs.Frames.{sections_of};
ghost use Rattle.wk_bytes.specs.Stands.{ItemStands};
ghost use Rattle.wk_ffi.specs.Asked.{taken};
ghost use Rattle.wk_ffi.specs.Handles.{handed_out, validator_at, IsNew};
ghost use Rattle.wk_ffi.specs.Meanings.{EditMeans, ListMeans, LocateMeans, StripMeans, ValidationMeans};
ghost use Rattle.wk_ffi.specs.Numbers.{version_number};
ghost use Rattle.wk_ffi.specs.Outputs.{output, AnswersBoth, AnswersNumbers, AnswersText, IsTold};
ghost use Rattle.wk_ffi.specs.Told.{edit_told, list_told, sections_told, strip_told, validation_told};
ghost use types.Logic.{sem};

use crate::code::Code;
use crate::hand::{hand_both, hand_text};
use crate::handle::Handle;
use crate::locating::locate_with;
use std::alloc::Global;
use std::ptr::null_mut;
use wk_judging::Validator;

/// Judges the module that bytes spell: the text is its verdict, or the first fault of bytes that spell none. The code is `Fine`,
/// `Invalid` or `Malformed`, or one of those of every call.
#[unsafe(no_mangle)]
pub extern "C" fn wk_ffi_validate(
    alloc: Global,
    bytes: &[u8],
    profile: u32,
    text: &mut [u8],
    text_len: &mut usize,
) -> u32
    ensures told { AnswersText (validation_told profile bytes.now)
        (output text.old text.new text_len.new) result }
    ensures means { IsTold result → ValidationMeans profile bytes.now }
{
    hand_text(jobs::validation(alloc, bytes, profile), text, text_len)
}

/// Judges the module that bytes spell, and says in numbers where its fault is, or that of bytes that spell none: the fault, the section, the
/// item, the token, the offset and the index of the function, as `struct wasmkit_fault` has them, each 4,294,967,295 where there is none.
/// Where `numbers` has fewer than six nothing is written to it, and no place is looked for. The code is `Fine`, `Invalid` or `Malformed`, or
/// `NoMemory` or `BadArgument`, and then nothing is written.
#[unsafe(no_mangle)]
pub extern "C" fn wk_ffi_locate(
    alloc: Global,
    bytes: &[u8],
    profile: u32,
    numbers: &mut [u32],
) -> u32
    ensures told { AnswersNumbers (taken profile bytes.now) bytes.now numbers.old numbers.new
        result }
    ensures means { IsTold result → LocateMeans profile bytes.now }
{
    let mut validator = Validator::new(alloc);
    locate_with(&mut validator, alloc, bytes, profile, numbers)
}

/// Lists the sections that stand in bytes, with their contents unread, and the fault behind them, if there is one: `Malformed`, and
/// else `Fine`.
#[unsafe(no_mangle)]
pub extern "C" fn wk_ffi_sections(
    alloc: Global,
    bytes: &[u8],
    text: &mut [u8],
    text_len: &mut usize,
) -> u32
    ensures told { AnswersText (sections_told bytes.now) (output text.old text.new text_len.new)
        result }
    ensures stands { IsTold result → All (ItemStands bytes.now) (sections_of bytes.now) }
{
    hand_text(jobs::sections(alloc, bytes), text, text_len)
}

/// Lists a part of the module that bytes spell: 0 its headers, 1 its details, 2 its code, 3 what its functions use. The code is `Fine`,
/// or `Malformed` with the first fault as the text.
#[unsafe(no_mangle)]
pub extern "C" fn wk_ffi_list(
    alloc: Global,
    bytes: &[u8],
    profile: u32,
    part: u32,
    text: &mut [u8],
    text_len: &mut usize,
) -> u32
    ensures told { AnswersText (list_told profile part bytes.now)
        (output text.old text.new text_len.new) result }
    ensures means { IsTold result → ListMeans profile part bytes.now }
{
    hand_text(jobs::listing(alloc, bytes, profile, part), text, text_len)
}

/// Removes the custom sections of the module that bytes spell, but those of the name `keep`, if that has bytes. The code is `Fine`, or
/// `Malformed` with the first fault as the text; `BadArgument` also where `keep` is not UTF-8.
#[unsafe(no_mangle)]
pub extern "C" fn wk_ffi_strip(
    alloc: Global,
    bytes: &[u8],
    profile: u32,
    keep: &[u8],
    out: &mut [u8],
    out_len: &mut usize,
    text: &mut [u8],
    text_len: &mut usize,
) -> u32
    ensures told { AnswersBoth (strip_told profile keep.now bytes.now)
        (output out.old out.new out_len.new) (output text.old text.new text_len.new) result }
    ensures means { IsTold result → StripMeans profile keep.now bytes.now }
{
    let answer = jobs::strip(alloc, bytes, profile, keep);
    hand_both(answer, out, out_len, text, text_len)
}

/// Makes the edits of a script on the module that bytes spell. Where `keep_valid` is 1, an edit that would leave an invalid
/// module is refused; else it is 0. The code is `Fine`, `Refused` with a module and a report all the same, `Malformed` or `BadScript`.
#[unsafe(no_mangle)]
pub extern "C" fn wk_ffi_edit(
    alloc: Global,
    bytes: &[u8],
    script: &[u8],
    profile: u32,
    keep_valid: u32,
    out: &mut [u8],
    out_len: &mut usize,
    text: &mut [u8],
    text_len: &mut usize,
) -> u32
    ensures told { AnswersBoth (edit_told profile keep_valid bytes.now script.now)
        (output out.old out.new out_len.new) (output text.old text.new text_len.new) result }
    ensures means { IsTold result → EditMeans profile keep_valid bytes.now script.now }
{
    let answer = jobs::edit(alloc, bytes, script, keep_valid, profile);
    hand_both(answer, out, out_len, text, text_len)
}

/// Makes a validator on the heap, and hands out where it lies: `Fine`. Where memory was wanting it is null: `NoMemory`.
#[unsafe(no_mangle)]
pub extern "C" fn wk_validator_new(alloc: Global, validator: &mut *mut Handle) -> u32
    ensures* memory { sem 𝓛 (handed_out alloc validator.new) }
    ensures told { IsNew validator.new result }
{
    match handle::make(alloc) {
        Some(made) => {
            *validator = Box::into_raw(made) as *mut Handle;
            Code::Fine.number()
        }
        None => {
            *validator = null_mut();
            Code::NoMemory.number()
        }
    }
}

/// Judges the module that bytes spell, as `wk_ffi_validate` does, with a validator of `wk_validator_new` that is not yet freed. What it
/// judged before makes no difference, and after any answer, want of memory too, it judges on.
#[unsafe(no_mangle)]
pub unsafe extern "C" fn wk_validator_judge(
    alloc: Global,
    validator: *mut Handle,
    bytes: &[u8],
    profile: u32,
    text: &mut [u8],
    text_len: &mut usize,
) -> u32
    requires* { sem 𝓛 (validator_at alloc validator) }
    ensures* memory { sem 𝓛 (validator_at alloc validator) }
    ensures told { AnswersText (validation_told profile bytes.now)
        (output text.old text.new text_len.new) result }
    ensures means { IsTold result → ValidationMeans profile bytes.now }
{
    handle::judge(
        &mut *(validator as *mut Validator),
        alloc,
        bytes,
        profile,
        text,
        text_len,
    )
}

/// Judges the module that bytes spell and says where its fault is, as `wk_ffi_locate` does, with a validator of `wk_validator_new` that is not
/// yet freed. What it judged before makes no difference, and after any answer, want of memory too, it judges on.
#[unsafe(no_mangle)]
pub unsafe extern "C" fn wk_validator_locate(
    alloc: Global,
    validator: *mut Handle,
    bytes: &[u8],
    profile: u32,
    numbers: &mut [u32],
) -> u32
    requires* { sem 𝓛 (validator_at alloc validator) }
    ensures* memory { sem 𝓛 (validator_at alloc validator) }
    ensures told { AnswersNumbers (taken profile bytes.now) bytes.now numbers.old numbers.new
        result }
    ensures means { IsTold result → LocateMeans profile bytes.now }
{
    locate_with(
        &mut *(validator as *mut Validator),
        alloc,
        bytes,
        profile,
        numbers,
    )
}

/// Frees a validator of `wk_validator_new`, which is gone then.
#[unsafe(no_mangle)]
pub unsafe extern "C" fn wk_validator_free(alloc: Global, validator: *mut Handle)
    requires* { sem 𝓛 (validator_at alloc validator) }
{
    handle::let_go(Box::from_raw(alloc, validator as *mut Validator));
}

/// The version of the library: of major.minor.patch it is major * 1,000,000 + minor * 1,000 + patch.
#[unsafe(no_mangle)]
pub extern "C" fn wk_ffi_version() -> u32
    ensures { result ≡ version_number 0 9 0 }
{
    9_000
}
