//! The kept contents of a list that gets an item more: what stays is not written again.

ghost use Rattle.std.specs.Prelude.{◌≡◌, ◌+◌, ◌<◌, ◌≤◌, ◌^◌, ◌++◌, ℕ, List, drop, length, OnOk, OnErr};
ghost use Rattle.wk_bytes.specs.Short.{short};
ghost use Rattle.wk_pieces.specs.Longer.{with_item};

use std::alloc::Global;
use std::mem;
use wk_bytes::{Items, OutOfMemory, leb_len_u32, put_u32};

// What stands behind the count of so many items.
fn behind_count(contents: &[u8], count: u32) -> &[u8]
    ensures { result.now ≡ drop (length (short count)) contents.now }
{
    contents.get(leb_len_u32(count)..).unwrap_or(&[])
}

/// How many bytes contents of so many items get to which one more comes, which has that many. It takes no memory.
#[inline]
pub fn grown_len(contents: &[u8], count: u32, item: u32) -> usize
    requires { count + 1 < 2 ^ 32 }
    ensures { (bytes : List ℕ) → item ≡ length bytes
        → result ≡ length (with_item contents.now count bytes) }
{
    leb_len_u32(count + 1) + behind_count(contents, count).len() + item as usize
}

/// Writes bytes over the first ones.
pub(crate) fn put_over(bytes: &mut [u8], front: &[u8])
    requires { length front.now ≤ length bytes.old }
    ensures { bytes.new ≡ front.now ++ drop (length front.now) bytes.old }
{
    bytes[..front.len()].copy_from_slice(front);
}

// Appends an item to contents, and makes their count one more. The bytes between stay where they are, but where the count gets longer.
fn append_to(
    alloc: Global,
    contents: &mut Vec<u8>,
    count: u32,
    item: &[u8],
) -> Result<(), OutOfMemory>
    requires { count + 1 < 2 ^ 32 }
    ensures ok { OnOk result (contents.new.items ≡ with_item contents.old.items count item.now) }
    ensures err { OnErr result (contents.new.items ≡ contents.old.items) }
{
    let mut front = Vec::new(alloc);
    put_u32(&mut front, count + 1)?;
    let len = front.len();
    if len != leb_len_u32(count) || contents.len() < len {
        front.extend_from_slice(behind_count(contents, count))?;
        front.extend_from_slice(item)?;
        *contents = front;
        return Ok(());
    }
    contents.extend_from_slice(item)?;
    put_over(contents, &front);
    Ok(())
}

/// Appends an item to the contents of a section that holds so many, or leaves them as they were.
pub fn append_item(
    alloc: Global,
    section: &mut Items<u8>,
    count: u32,
    item: &[u8],
) -> Result<(), OutOfMemory>
    requires { count + 1 < 2 ^ 32 }
    ensures ok { OnOk result (section.new ≡ with_item section.old count item.now) }
    ensures err { OnErr result (section.new ≡ section.old) }
{
    let mut contents = mem::replace(section, Items::new(alloc)).into_vec();
    let appended = append_to(alloc, &mut contents, count, item);
    *section = Items::from_vec(contents);
    appended
}
