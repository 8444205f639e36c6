//! A token where it stands in an input (5.4).

ghost use Rattle.std.specs.Prelude.{◌≡◌, ◌≤◌, length, IfOk, MatchOption};
ghost use Rattle.wk_bytes.specs.Frames.{limit};
ghost use Rattle.wk_place.specs.Places.{IsNoToken, IsTokenThere};
ghost use Rattle.wk_place.specs.Seeking.{begins_with_else};

use wk_bytes::{Cursor, LIMIT, OutOfMemory, ReadKind};
use wk_module::{Profile, Token, TokenReader};

// Whether an `else` comes.
fn begins_else(bytes: &[u8]) -> bool
    ensures { result ≡ begins_with_else bytes.now }
{
    matches!(bytes, [0x05, ..])
}

/// Reads the token that stands at an offset of an input, as that of a place that [`locate`](crate::locate) found. No blocks are open
/// there, so an `else` and an `end` are told of whatever they belong to, and `skip` is 0. The labels of a `br_table` are those of the
/// reader, up to its next call. There is none where the bytes from the offset on begin with no token, or where the input has more than
/// [`LIMIT`] bytes.
///
/// # Errors
///
/// Want of memory.
pub fn read_token(
    reader: &mut TokenReader,
    bytes: &[u8],
    profile: Profile,
    offset: u32,
) -> Result<Option<Token>, OutOfMemory>
    ensures { length bytes.now ≤ limit
        → IfOk result
        (λ o. MatchOption o (IsNoToken profile bytes.now offset)
        (IsTokenThere profile bytes.now offset reader.new.labels)) }
{
    if bytes.len() > LIMIT || offset as usize > bytes.len() {
        return Ok(None);
    }
    let mut cursor = Cursor::new(&bytes[offset as usize..]);
    if begins_else(cursor.rest()) {
        return Ok(Some(Token::Else { skip: 0 }));
    }
    reader.begin();
    match reader.next(profile, &mut cursor) {
        Ok(Some(token)) => Ok(Some(token)),
        Ok(None) => Ok(Some(Token::End)),
        Err(fault) => match fault.kind {
            ReadKind::Memory => Err(OutOfMemory),
            _ => Ok(None),
        },
    }
}
