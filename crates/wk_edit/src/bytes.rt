//! Bytes of a script.

ghost use Rattle.std.specs.Prelude.{◌≡◌, IfOk};
ghost use Rattle.wk_edit.specs.Words.{data_of};

use hex::FromHexError;
use std::alloc::{AllocError, Global};
use wk_bytes::Items;

/// The bytes of a word: none for `-`, else those that its hexadecimal digits spell. `None` where it is neither.
pub(crate) fn read_data(alloc: Global, spelled: &[u8]) -> Result<Option<Items<u8>>, AllocError>
    ensures { IfOk result (λ bytes. bytes ≡ data_of spelled.now) }
{
    if spelled == b"-".as_slice() {
        return Ok(Some(Items::new(alloc)));
    }
    if spelled.is_empty() {
        return Ok(None);
    }
    match hex::decode(alloc, spelled) {
        Ok(bytes) => Ok(Some(Items::from_vec(bytes))),
        Err(FromHexError::OutOfMemory) => Err(AllocError),
        Err(_) => Ok(None),
    }
}
