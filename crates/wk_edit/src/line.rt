//! One line of a script.

ghost use Rattle.std.specs.Prelude.{◌≡◌, IfOk, map};
ghost use Rattle.std.specs.List.{list_any};
ghost use Rattle.wk_edit.specs.Pieces.{pieces};
ghost use Rattle.wk_edit.specs.Script.{edit_of, is_high, line_edit, Reads};

use crate::edits::read_edit;
use crate::fault::ScriptFault;
use crate::pieces::Pieces;
use crate::verb::read_verb;
use std::alloc::{AllocError, Global};
use wk_session::Edit;

fn read_words(alloc: Global, words: &[&[u8]]) -> Result<Option<Edit>, AllocError>
    ensures { IfOk result (λ edit. edit ≡ edit_of (map (λ w. w.now) words.now)) }
{
    let Some((first, rest)) = words.split_first() else {
        return Ok(None);
    };
    match read_verb(first) {
        Some(verb) => read_edit(alloc, verb, rest),
        None => Ok(None),
    }
}

fn split<'a>(alloc: Global, bytes: &'a [u8]) -> Result<Vec<&'a [u8]>, AllocError>
    ensures { IfOk result (λ words. map (λ w. w.now) words.items ≡ pieces 32 bytes.now) }
{
    let mut words = Vec::new(alloc);
    for word in Pieces::new(bytes, b' ') {
        words.push(word)?;
    }
    Ok(words)
}

fn has_high(bytes: &[u8]) -> bool
    ensures { result ≡ list_any is_high bytes.now }
{
    bytes.iter().any(|x| *x >= 128)
}

fn read_full(alloc: Global, bytes: &[u8]) -> Result<Option<Edit>, AllocError>
    ensures { IfOk result (λ edit. edit ≡ edit_of (pieces 32 bytes.now)) }
{
    let words = split(alloc, bytes)?;
    read_words(alloc, &words)
}

/// The edit of the line with that number, `None` where the line is empty.
pub(crate) fn read_line(alloc: Global, line: u64, bytes: &[u8]) -> Result<Option<Edit>, ScriptFault>
    ensures { Reads (λ edit. edit) result (line_edit line bytes.now) }
{
    if bytes.is_empty() {
        return Ok(None);
    }
    if has_high(bytes) {
        return Err(ScriptFault::NotAscii { line });
    }
    match read_full(alloc, bytes)? {
        Some(edit) => Ok(Some(edit)),
        None => Err(ScriptFault::BadWord { line }),
    }
}
