//! Names of a script.

ghost use Rattle.std.specs.Prelude.{◌≡◌, IfOk, true};
ghost use Rattle.std.specs.List.{list_all};
ghost use Rattle.std.specs.Str.{IsUtf8};
ghost use Rattle.hex.specs.Hex.{decode_of};
ghost use Rattle.wk_edit.specs.Words.{is_graphic, is_plain, name_of, utf8_of};

use hex::FromHexError;
use std::alloc::{AllocError, Global};
use std::str;
use wk_bytes::Text;

// The name that hexadecimal digits spell.
#[tactic(auto, using(crate::proofs::Utf8::utf8_is, crate::proofs::Utf8::utf8_not))]
fn read_digits(alloc: Global, digits: &[u8]) -> Result<Option<Text>, AllocError>
    ensures { IfOk result (λ name. name ≡ utf8_of (decode_of digits.now)) }
{
    match hex::decode(alloc, digits) {
        Ok(bytes) => match str::from_utf8(&bytes) {
            Ok(text) => Ok(Some(Text::from_string(String::from_str(alloc, text)?))),
            Err(_) => Ok(None),
        },
        Err(FromHexError::OutOfMemory) => Err(AllocError),
        Err(_) => Ok(None),
    }
}

fn is_graphic(word: &[u8]) -> bool
    ensures { result ≡ list_all is_graphic word.now }
{
    word.iter().all(|x| *x >= 33 && *x <= 126)
}

#[tactic(auto, using(crate::proofs::Utf8::plain_utf8))]
fn is_plain(word: &[u8]) -> bool
    ensures value { result ≡ is_plain word.now }
    ensures utf8 { result ≡ true → IsUtf8 word.now }
{
    !word.is_empty() && is_graphic(word)
}

/// The name of a word: where that begins with `x:` the UTF-8 that its hexadecimal digits spell,
/// else the word itself. `None` where it has none.
pub fn read_name(alloc: Global, word: &[u8]) -> Result<Option<Text>, AllocError>
    ensures { IfOk result (λ name. name ≡ name_of word.now) }
{
    if let Some(digits) = word.strip_prefix(b"x:") {
        return read_digits(alloc, digits);
    }
    if !is_plain(word) {
        return Ok(None);
    }
    match str::from_utf8(word) {
        Ok(text) => Ok(Some(Text::from_string(String::from_str(alloc, text)?))),
        Err(_) => Ok(None),
    }
}
