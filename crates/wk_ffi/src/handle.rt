//! What the calls of a validator do, but for its pointer.
ghost use Rattle.wk_ffi.specs.Meanings.{ValidationMeans};
ghost use Rattle.wk_ffi.specs.Outputs.{output, AnswersText, IsTold};
ghost use Rattle.wk_ffi.specs.Told.{validation_told};

use crate::hand::hand_text;
use crate::jobs;
use std::alloc::Global;
use wk_judging::Validator;

/// What C sees of a validator: that it lies somewhere. (A pointer to a type that holds a `Vec` cannot go to C.)
#[repr(C)]
#[derive(Drop)]
pub struct Handle {}

// On the heap, where memory is not wanting. What C is handed may go on to another thread, so that this asks for `Send`.
fn boxed<T: Drop + Send>(alloc: Global, value: T) -> Option<Box<T>> {
    Box::new(alloc, value).ok()
}

/// A validator on the heap, where memory is not wanting.
pub fn make(alloc: Global) -> Option<Box<Validator>> {
    boxed(alloc, Validator::new(alloc))
}

/// Judges the module that bytes spell, and hands the text out.
pub fn judge(
    validator: &mut Validator,
    alloc: Global,
    bytes: &[u8],
    profile: u32,
    text: &mut [u8],
    text_len: &mut usize,
) -> u32
    ensures told { AnswersText (validation_told profile bytes.now)
        (output text.old text.new text_len.new) result }
    ensures means { IsTold result → ValidationMeans profile bytes.now }
{
    hand_text(
        jobs::validation_with(validator, alloc, bytes, profile),
        text,
        text_len,
    )
}

/// Frees a validator.
pub fn let_go(_validator: Box<Validator>) {}
