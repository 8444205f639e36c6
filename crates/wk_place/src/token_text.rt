//! The text of the token that a fault names.

ghost use Rattle.std.specs.Prelude.{◌≡◌, ◌++◌, [], List, ℕ, IfOk, option_map};
ghost use Rattle.wk_body.proofs.GrammarTokens.{MayCome, SpellsTok};
ghost use Rattle.wk_body.specs.Tree.{Tok};
ghost use Rattle.wk_list.specs.TokenText.{tok_text};
ghost use Rattle.wk_place.specs.TokenTexts.{IsTokenText};

use crate::place::find_place;
use std::alloc::Global;
use wk_bytes::{Cursor, OutOfMemory, ReadKind};
use wk_check::Fault;
use wk_list::token_text;
use wk_module::{Profile, TokenReader};

// The text of the token that is read at the cursor, where no block is open and no `else` comes.
fn text_read(alloc: Global, profile: Profile, code: Cursor<'_>) -> Result<Vec<u8>, OutOfMemory>
    ensures { (t : Tok) (front later : List ℕ) → SpellsTok profile t front
        → code.entry.rest ≡ front ++ later → MayCome [] t
        → IfOk result (λ text. text.items ≡ tok_text t) }
{
    let mut reader = TokenReader::new(alloc);
    let mut cursor = code;
    match reader.next(profile, &mut cursor) {
        Ok(next) => match next {
            Some(token) => token_text(alloc, reader.labels(), &token),
            None => Ok(Vec::from_slice(alloc, b"end")?),
        },
        Err(fault) => match fault.kind {
            ReadKind::Memory => Err(OutOfMemory),
            _ => Ok(Vec::new(alloc)),
        },
    }
}

// The text of the token that the cursor stands at. An `else` and an `end` are known by their byte, whichever blocks are open.
fn text_here(alloc: Global, profile: Profile, code: Cursor<'_>) -> Result<Vec<u8>, OutOfMemory>
    ensures { (t : Tok) (front later : List ℕ) → SpellsTok profile t front
        → code.entry.rest ≡ front ++ later → IfOk result (λ text. text.items ≡ tok_text t) }
{
    match code.rest() {
        [0x05, ..] => Ok(Vec::from_slice(alloc, b"else")?),
        _ => text_read(alloc, profile, code),
    }
}

/// The text of the token that a fault of a module of the profile names, as a line of the code listing has it after the offset: `local.get 39`.
/// There is none where the place names no token, the bytes spell no such module, or it has no item, or the item no token, of these numbers.
///
/// # Errors
///
/// Want of memory.
pub fn locate_token(
    alloc: Global,
    bytes: &[u8],
    profile: Profile,
    fault: &Fault,
) -> Result<Option<Vec<u8>>, OutOfMemory>
    ensures { IfOk result
        (λ o. IsTokenText profile bytes.now fault.now.place (option_map (λ v. v.items) o)) }
{
    let Some(_) = fault.place.token else {
        return Ok(None);
    };
    match find_place(alloc, bytes, profile, &fault.place) {
        Ok(found) => match found {
            Some(code) => Ok(Some(text_here(alloc, profile, code)?)),
            None => Ok(None),
        },
        Err(fault) => match fault.kind {
            ReadKind::Memory => Err(OutOfMemory),
            _ => Ok(None),
        },
    }
}
