//! The kept contents of a list that loses an item: what stays is not written again.

ghost use Rattle.std.specs.Prelude.{◌≡◌, ◌+◌, ◌<◌, ◌≤◌, ◌++◌, drop, length, take, OnOk, OnErr};
ghost use Rattle.wk_bytes.specs.Frames.{limit};
ghost use Rattle.wk_bytes.specs.Short.{short};
ghost use Rattle.wk_pieces.specs.Shorter.{without_item};

use crate::appending::put_over;
use std::alloc::Global;
use std::mem;
use wk_bytes::{Items, OutOfMemory, leb_len_u32, put_u32};

/// Where an item stands in the contents of a list.
#[derive(Debug, Clone, Copy)]
pub struct Span {
    /// How many bytes stand between the count and it.
    pub at: usize,
    /// How many bytes it has.
    pub size: usize,
}

/// How many bytes contents of so many items have without one of them. It takes no memory.
#[inline]
pub fn shrunk_len(contents: &[u8], count: u32, span: Span) -> usize
    requires some { 0 < count }
    requires few { length contents.now ≤ limit }
    requires within { length (short count) + span.at + span.size ≤ length contents.now }
    ensures { result ≡ length (without_item contents.now count span.at span.size) }
{
    if count == 1 {
        return 0;
    }
    contents.len() - leb_len_u32(count) - span.size + leb_len_u32(count - 1)
}

// Moves the bytes behind a gap into it.
fn close_gap(bytes: &mut Vec<u8>, at: usize, size: usize)
    requires { at + size ≤ length bytes.old.items }
    ensures { bytes.new.items ≡ take at bytes.old.items ++ drop (at + size) bytes.old.items }
{
    let rest = bytes.len() - size;
    bytes.copy_within(at + size.., at);
    bytes.truncate(rest);
}

// Whether bytes without so many of them fill less than a quarter of their room.
fn is_mostly_gone(bytes: &Vec<u8>, size: usize) -> bool
    requires { size ≤ length bytes.now.items }
{
    bytes.len() - size < bytes.capacity() / 4
}

// Takes an item out of contents, and makes their count one less. The bytes before it stay where they are, but where the count gets
// shorter or most of their room is empty then: so room that is kept follows what is there.
fn remove_from(
    alloc: Global,
    contents: &mut Vec<u8>,
    count: u32,
    span: Span,
) -> Result<(), OutOfMemory>
    requires some { 0 < count }
    requires within { length (short count) + span.at + span.size ≤ length contents.old.items }
    ensures ok { OnOk result
        (contents.new.items ≡ without_item contents.old.items count span.at span.size) }
    ensures err { OnErr result (contents.new.items ≡ contents.old.items) }
{
    if count == 1 {
        *contents = Vec::new(alloc);
        return Ok(());
    }
    let mut front = Vec::new(alloc);
    put_u32(&mut front, count - 1)?;
    let items = leb_len_u32(count);
    let start = items + span.at;
    if front.len() != items || is_mostly_gone(contents, span.size) {
        front.extend_from_slice(&contents[items..start])?;
        front.extend_from_slice(&contents[start + span.size..])?;
        *contents = front;
        return Ok(());
    }
    close_gap(contents, start, span.size);
    put_over(contents, &front);
    Ok(())
}

/// Takes an item out of the contents of a section that holds so many, and counts the section; or leaves the contents as they were.
pub fn remove_item(
    alloc: Global,
    section: &mut Items<u8>,
    count: u32,
    span: Span,
    made: &mut u32,
) -> Result<(), OutOfMemory>
    requires some { 0 < count }
    requires few { made.old < 12 }
    requires within { length (short count) + span.at + span.size ≤ length section.old }
    ensures ok { OnOk result (section.new ≡ without_item section.old count span.at span.size) }
    ensures err { OnErr result (section.new ≡ section.old) }
    ensures made { made.new ≡ made.old + 1 }
{
    *made += 1;
    let mut contents = mem::replace(section, Items::new(alloc)).into_vec();
    let removed = remove_from(alloc, &mut contents, count, span);
    *section = Items::from_vec(contents);
    removed
}
