//! Going over the instructions of an item up to one token (5.4).

ghost use Rattle.std.specs.Prelude.{◌≡◌, false, MatchOption};
ghost use Rattle.wk_body.specs.Reads.{Parses, Reads};
ghost use Rattle.wk_place.specs.Seeking.{body_instrs_at, find_token_at, instrs_at, is_empty_else, sized_at, IsNextLeft};

use std::alloc::Global;
use wk_bytes::{Cursor, ReadFault};
use wk_module::{Profile, TokenReader, next_groups, read_global_type, section_id};

/// Takes the bytes of a code, behind its size (5.5.13). The cursor moves past the code.
///
/// # Errors
///
/// The first fault of the size, or `UnexpectedEnd` at the code where there are fewer bytes.
#[tactic(auto, unfolding(crate::specs::Seeking::sized_at, wk_module::specs::Formats::bytes_at))]
pub(crate) fn take_code<'a>(cursor: &mut Cursor<'a>) -> Result<Cursor<'a>, ReadFault>
    ensures { Parses (λ code. code) sized_at cursor.old result cursor.new }
{
    let size = cursor.u32()?;
    let at = cursor.at();
    Ok(Cursor::within(cursor.take(size)?, at))
}

// The instructions of a code, behind its size and its local groups (5.5.13).
#[tactic(auto, unfolding(crate::specs::Seeking::body_instrs_at))]
fn instructions_of_body<'a>(alloc: Global, cursor: &mut Cursor<'a>) -> Result<Cursor<'a>, ReadFault>
    ensures { Parses (λ code. code) body_instrs_at cursor.old result cursor.new }
{
    let mut code = take_code(cursor)?;
    let mut groups = Vec::new(alloc);
    next_groups(&mut groups, &mut code)?;
    Ok(code)
}

/// The instructions of an item of the section of an id, where the cursor stands at its first byte. There are none where items of the
/// section hold none.
///
/// # Errors
///
/// The first fault of what comes in front of them, or `Memory` at 0 where a growth was refused.
#[tactic(auto, unfolding(crate::specs::Seeking::instrs_at))]
pub(crate) fn find_instructions<'a>(
    alloc: Global,
    section: u8,
    item: Cursor<'a>,
) -> Result<Option<Cursor<'a>>, ReadFault>
    ensures { Reads (λ code. code) result (instrs_at section item.entry.end item.entry.rest) }
{
    let mut cursor = item;
    match section {
        section_id::GLOBAL => {
            read_global_type(&mut cursor)?;
            Ok(Some(cursor))
        }
        section_id::ELEMENT | section_id::DATA => {
            cursor.u32()?;
            Ok(Some(cursor))
        }
        section_id::CODE => Ok(Some(instructions_of_body(alloc, &mut cursor)?)),
        _ => Ok(None),
    }
}

// Whether an `else` comes, and an `end` directly behind it.
fn begins_empty_else(bytes: &[u8]) -> bool
    ensures { result ≡ is_empty_else bytes.now }
{
    matches!(bytes, [0x05, 0x0B, ..])
}

// How many tokens are still to be counted behind the one that comes, or nothing where that is the last of them.
fn left_behind(bytes: &[u8], left: u32) -> Option<u32>
    ensures { MatchOption result ((is_empty_else bytes.now ≡ false) × (left ≡ 0))
        (λ next. IsNextLeft bytes.now left next) }
{
    if begins_empty_else(bytes) {
        return Some(left);
    }
    left.checked_sub(1)
}

/// The token of that number, counted from 0, of the expression that the cursor stands at. An `else` directly in front of an `end` is not
/// counted. There is none where the expression ends before it.
///
/// # Errors
///
/// The first fault of the tokens up to it, itself among them, or `Memory` at 0 where a growth was refused.
#[tactic(auto, unfolding(crate::specs::Seeking::find_token_at))]
pub(crate) fn find_token<'a>(
    alloc: Global,
    profile: Profile,
    code: Cursor<'a>,
    token: u32,
) -> Result<Option<Cursor<'a>>, ReadFault>
    ensures { Reads (λ t. t) result (find_token_at profile token code.entry.end code.entry.rest) }
{
    let mut reader = TokenReader::new(alloc);
    let mut cursor = code;
    let mut left = token;
    loop {
        let here = cursor.ahead();
        let next = reader.next(profile, &mut cursor)?;
        let Some(still_left) = left_behind(here.rest(), left) else {
            return Ok(Some(here));
        };
        let Some(_) = next else {
            return Ok(None);
        };
        left = still_left;
    }
}
