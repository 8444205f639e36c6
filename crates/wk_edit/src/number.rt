//! Numbers of a script.

ghost use Rattle.std.specs.Prelude.{◌≡◌, decimal, map};
ghost use Rattle.std.specs.Str.{bytes_eq};
ghost use Rattle.wk_edit.specs.Words.{limits_of, number_of};

use itoa::Buffer;
use std::str;
use wk_module::Limits;

// Whether a word is what a number is written as.
fn is_text_of(word: &[u8], number: u32) -> bool
    ensures { result ≡ bytes_eq word.now (decimal number) }
{
    let mut buffer = Buffer::new();
    word == buffer.format(number).as_bytes()
}

/// The number of a word, in decimal and at most 4,294,967,295. `None` where it is none, or has a sign or a zero in front.
pub(crate) fn read_number(word: &[u8]) -> Option<u32>
    ensures { result ≡ number_of word.now }
{
    let Ok(text) = str::from_utf8(word) else {
        return None;
    };
    let Ok(number) = text.parse::<u32>() else {
        return None;
    };
    // What `parse` takes as well, a sign or zeros in front, is not written back.
    if is_text_of(word, number) {
        Some(number)
    } else {
        None
    }
}

/// The sizes of a table or a memory, by a number or two: the least, and the greatest.
pub(crate) fn read_limits(words: &[&[u8]]) -> Option<Limits>
    ensures { result ≡ limits_of (map (λ w. w.now) words.now) }
{
    match words {
        &[min] => Some(Limits {
            min: read_number(min)?,
            max: None,
        }),
        &[min, max] => Some(Limits {
            min: read_number(min)?,
            max: Some(read_number(max)?),
        }),
        _ => None,
    }
}
