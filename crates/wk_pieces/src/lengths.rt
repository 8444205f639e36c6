//! How long a module gets, by how long its pieces are. Nothing here takes memory.

ghost use Rattle.std.specs.Prelude.{◌≡◌, ◌+◌, ◌<◌, ◌^◌, ◌==◌, if◌then◌else◌, ℕ, List, Some, length, map, set, slice_get, option_map};
ghost use Rattle.wk_bytes.specs.Short.{short};
ghost use Rattle.wk_body.specs.Lengths.{limited, GrowsBy};
ghost use Rattle.wk_module.specs.declared.types.Parts.{Parts as PartsOf};
ghost use Rattle.wk_module.specs.Shape.{IsInOrderFrom};
ghost use Rattle.wk_module.specs.Sizes.{entry_size};
ghost use Rattle.wk_module.specs.Writing.{encoded};
ghost use Rattle.wk_module.specs.WritingLaws.{written_frame};
ghost use Rattle.wk_pieces.specs.Overlays.{with_items};
ghost use Rattle.wk_pieces.specs.Pieces.{codes_size, customs_size, entries_size, section_pieces};

use crate::replace::item_at;
use wk_bytes::{Items, LIMIT, leb_len_u32};
use wk_module::{Custom, custom_len, framed_len, section_id, whole_len};

// A length with more added, or nothing past 2,147,483,647.
fn plus(total: Option<u32>, more: usize) -> Option<u32>
    ensures { GrowsBy more total result }
{
    match total {
        Some(total) if total as usize <= LIMIT && more <= LIMIT - total as usize => {
            Some(total + more as u32)
        }
        _ => None,
    }
}

/// A length with a code and its size added, or nothing past 2,147,483,647.
#[inline]
pub fn plus_code(total: Option<u32>, code: &Items<u8>) -> Option<u32>
    ensures { GrowsBy (entry_size (length code.now)) total result }
{
    let len = code.len();
    if len > LIMIT {
        return None;
    }
    plus(plus(total, leb_len_u32(len as u32)), len)
}

/// How many bytes codes have, with their sizes; or nothing past 2,147,483,647.
pub(crate) fn codes_len(codes: &Vec<Items<u8>>) -> Option<u32>
    ensures { result ≡ limited (entries_size codes.now.items) }
{
    let mut total = Some(0);
    for code in codes {
        total = plus_code(total, code);
    }
    total
}

/// The same of codes with those made anew in their places.
pub fn codes_len_after(codes: &Vec<Items<u8>>, news: &Vec<Option<Items<u8>>>) -> Option<u32>
    requires { length news.now.items ≡ length codes.now.items }
    ensures { result ≡ limited (entries_size (with_items codes.now.items news.now.items)) }
{
    let mut total = Some(0);
    for i in 0..codes.len() {
        total = plus_code(total, item_at(codes, news, i));
    }
    total
}

// A length with a custom section added, its id and its size with it; or nothing past 2,147,483,647.
fn plus_custom(total: Option<u32>, custom: &Custom) -> Option<u32>
    ensures { GrowsBy (length (written_frame custom.now)) total result }
{
    let size = custom_len(custom)?;
    let framed = framed_len(size)?;
    plus(total, framed as usize)
}

/// How many bytes custom sections have, with their ids and sizes; or nothing past 2,147,483,647.
pub fn customs_len(customs: &Items<Custom>) -> Option<u32>
    ensures { result ≡ limited (customs_size customs.now) }
{
    let mut total = Some(0);
    for custom in customs.as_slice() {
        total = plus_custom(total, custom);
    }
    total
}

// How many bytes the contents of a section have, or what is made in their place.
fn size_after(sections: &Vec<Items<u8>>, news: &Vec<Option<Items<u8>>>, id: usize) -> usize
    requires sections { id < length sections.now.items }
    requires news { id < length news.now.items }
    ensures { Some result
        ≡ option_map length (slice_get (with_items sections.now.items news.now.items) id) }
{
    item_at(sections, news, id).len()
}

/// How many bytes the contents of each section have, by their ids, or what is made in their place.
#[inline]
pub fn sizes_after(sections: &Vec<Items<u8>>, news: &Vec<Option<Items<u8>>>) -> [usize; 12]
    requires sections { length sections.now.items ≡ 12 }
    requires news { length news.now.items ≡ 12 }
    ensures { result ≡ map length (with_items sections.now.items news.now.items) }
{
    let mut sizes = [0; section_id::COUNT];
    for id in 0..section_id::COUNT {
        sizes[id] = size_after(sections, news, id);
    }
    sizes
}

/// How many bytes the contents of each section have, by their ids.
#[inline]
pub fn sizes_of(sections: &Vec<Items<u8>>) -> [usize; 12]
    requires { length sections.now.items ≡ 12 }
    ensures { result ≡ map length sections.now.items }
{
    let mut sizes = [0; section_id::COUNT];
    for id in 0..section_id::COUNT {
        sizes[id] = sections[id].len();
    }
    sizes
}

/// The same, where one section alone is another, whose contents have that many bytes.
#[inline]
pub fn sizes_with(sections: &Vec<Items<u8>>, id: usize, size: usize) -> [usize; 12]
    requires sections { length sections.now.items ≡ 12 }
    requires id { id < 12 }
    ensures { (bytes : List ℕ) → size ≡ length bytes
        → result ≡ map length (set sections.now.items id bytes) }
{
    let mut sizes = sizes_of(sections);
    sizes[id] = size;
    sizes
}

/// How many bytes the contents of the code section have, by how many codes there are and how many bytes they have with their sizes.
#[inline]
pub fn code_contents(count: usize, codes: u32) -> usize
    requires { count < 2 ^ 32 }
    ensures { result ≡ if count == 0 then 0 else length (short count) + codes }
{
    if count == 0 {
        return 0;
    }
    leb_len_u32(count as u32) + codes as usize
}

/// The length of a module, by how many bytes the contents of each section have, by how many functions it defines, and by how many bytes
/// its codes and its custom sections have, with sizes and ids; or nothing past 2,147,483,647.
#[inline]
pub fn module_len(sizes: [usize; 12], count: usize, codes: u32, customs: u32) -> Option<u32>
    requires { count < 2 ^ 32 }
    ensures { (n : PartsOf) → IsInOrderFrom 0 n.customs → sizes ≡ map length (section_pieces n)
        → count ≡ length n.funcs → codes ≡ codes_size n.funcs → customs ≡ customs_size n.customs
        → result ≡ limited (length (encoded n)) }
{
    let mut sizes = sizes;
    sizes[section_id::CODE as usize] = code_contents(count, codes);
    whole_len(&sizes, customs as usize)
}
