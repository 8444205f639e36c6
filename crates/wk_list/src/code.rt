//! The code listing.

ghost use Rattle.std.specs.Prelude.{◌≡◌, ◌<◌, ◌≤◌, ◌+◌, ◌-◌, ◌^◌, ◌++◌, length, min, take, IfOk, OnOk};
ghost use Rattle.std.specs.List.{AllByRecursion, flat_map};
ghost use Rattle.wk_bytes.specs.Frames.{limit};
ghost use Rattle.wk_body.specs.Kept.{told, all_told, IsWithin};
ghost use Rattle.wk_body.specs.Written.{tok_bytes, written_group, written_body};
ghost use Rattle.wk_module.specs.Items.{written_code};
ghost use Rattle.wk_module.specs.Writing.{customs_at};
ghost use Rattle.wk_list.specs.Taken.{PutsOut};
ghost use Rattle.wk_list.specs.CodeText.{code_line, group_text, locals_text, entry_head, entry_text, entries_text, code_start, code_text};
ghost use Rattle.wk_list.specs.TokenText.{tok_text, toks_text, toks_length};

use crate::fast_line::{NAME_LIMIT, write_line};
use crate::fault::{ListFault, Listed};
use crate::headers::{contents_start, section_end};
use crate::line_buffer::CAPACITY;
use crate::page::{FLUSH_LEN, len_to_flush, spill};
use crate::rows::put_field;
use crate::shape::Shape;
use crate::spaces::count_of;
use crate::text::{put_indexed, put_number};
use crate::token::{Place, depths, put_line};
use crate::typetext::valtype_name;
use wk_bytes::{Out, OutOfMemory, leb_len_u32};
use wk_module::{Func, HEADER_LEN, Kind, LocalGroup, Token, section_id};

// How far names may reach in a buffer behind this text. Where both are long enough to go out, no name has room: so the text goes out
// behind the same line, and before the next one asks for memory, as if each line went behind it by itself.
fn reach_behind(text: &[u8]) -> usize
    ensures near { result ≤ NAME_LIMIT }
    ensures exact { result ≡ min NAME_LIMIT (FLUSH_LEN - length text.now) }
{
    NAME_LIMIT.min(len_to_flush(text))
}

// The lines in a buffer go behind the text.
fn put_buf<W: Out>(buf: &[u8], text: &mut Vec<u8>, out: &mut W) -> Listed
    requires room { W.failed out.old < 2 ^ 64 - 1 }
    ensures { PutsOut W.taken W.failed out.old out.new
        (text.old.items ++ buf.now) text.new.items result }
{
    if buf.is_empty() {
        return Ok(());
    }
    text.extend_from_slice(buf)?;
    spill(text, out)
}

// The lines in a buffer, and behind them the line of a token that goes to no buffer.
#[inline(never)]
fn list_long_line<W: Out>(
    buf: &[u8],
    labels: &[u32],
    token: &Token,
    place: Place,
    text: &mut Vec<u8>,
    out: &mut W,
) -> Listed
    requires room { W.failed out.old < 2 ^ 64 - 1 }
    requires within { IsWithin (length labels.now) token.now }
    requires shallow { place.depth < 2 ^ 32 }
    ensures { PutsOut W.taken W.failed out.old out.new
        (text.old.items ++ buf.now
        ++ code_line place.at place.depth (tok_text (told labels.now token.now)))
        text.new.items result }
{
    put_buf(buf, text, out)?;
    put_line(text, labels, token, place)?;
    spill(text, out)
}

// How many bytes of a buffer are used, and how far names may reach in it.
#[derive(Clone, Copy)]
struct Fill {
    used: usize,
    reach: usize,
}

// The line of a token, behind what is used of a buffer. The answer is how many bytes the token is.
#[inline(always)]
fn list_token<W: Out>(
    labels: &[u32],
    token: &Token,
    place: Place,
    buf: &mut [u8; CAPACITY],
    fill: &mut Fill,
    text: &mut Vec<u8>,
    out: &mut W,
) -> Result<u64, ListFault>
    requires room { W.failed out.old < 2 ^ 64 - 1 }
    requires within { IsWithin (length labels.now) token.now }
    requires shallow { place.depth < 2 ^ 32 }
    requires inside { fill.old.used ≤ CAPACITY }
    requires reach { fill.old.reach ≤ NAME_LIMIT }
    ensures inside { fill.new.used ≤ CAPACITY }
    ensures reach { fill.new.reach ≤ NAME_LIMIT }
    ensures puts { PutsOut W.taken W.failed out.old out.new
        (text.old.items ++ take fill.old.used buf.old
        ++ code_line place.at place.depth (tok_text (told labels.now token.now)))
        (text.new.items ++ take fill.new.used buf.new) result }
    ensures len { IfOk result (λ len. len ≡ length (tok_bytes (told labels.now token.now))) }
{
    if let Some(line) = write_line(buf, fill.used, labels, token, place, fill.reach) {
        fill.used = line.end;
        return Ok(line.len);
    }
    list_long_line(&buf[..fill.used], labels, token, place, text, out)?;
    *fill = Fill {
        used: 0,
        reach: reach_behind(text),
    };
    Ok(token.head_len(labels))
}

// The lines of tokens, the first of which stands at `start` and outside of all blocks. They are gathered in a buffer first.
fn list_tokens<W: Out>(
    labels: &[u32],
    tokens: &[Token],
    start: u32,
    buf: &mut [u8; CAPACITY],
    text: &mut Vec<u8>,
    out: &mut W,
) -> Listed
    requires room { W.failed out.old < 2 ^ 64 - 1 }
    requires within { AllByRecursion (IsWithin (length labels.now)) tokens.now }
    requires fits { start + toks_length (all_told labels.now tokens.now) ≤ limit }
    ensures { PutsOut W.taken W.failed out.old out.new
        (text.old.items ++ toks_text start 0 (all_told labels.now tokens.now)) text.new.items
        result }
{
    let mut rest = tokens;
    let mut at = start;
    let mut depth = 0;
    let mut fill = Fill {
        used: 0,
        reach: reach_behind(text),
    };
    while let Some((token, after)) = rest.split_first() {
        let (here, behind) = depths(token, depth);
        let place = Place { at, depth: here };
        let len = list_token(labels, token, place, buf, &mut fill, text, out)?;
        at += len as u32;
        depth = behind;
        rest = after;
    }
    put_buf(&buf[..fill.used], text, out)
}

// How many bytes local groups are, without their count.
fn groups_len(groups: &[LocalGroup]) -> u64
    requires { length (flat_map written_group groups.now) ≤ limit }
    ensures { result ≡ length (flat_map written_group groups.now) }
{
    let mut total = 0;
    for group in groups {
        total += leb_len_u32(group.count) as u64 + 1;
    }
    total
}

// The line of local groups, where there are any.
fn put_locals(text: &mut Vec<u8>, groups: &[LocalGroup]) -> Result<(), OutOfMemory>
    ensures { OnOk result (text.new.items ≡ text.old.items ++ locals_text groups.now) }
{
    if groups.is_empty() {
        return Ok(());
    }
    text.extend_from_slice(b" locals")?;
    put_groups(text, groups)?;
    text.extend_from_slice(b"\n")?;
    Ok(())
}

// Each local group after a space, as ` i32*2`.
fn put_groups(text: &mut Vec<u8>, groups: &[LocalGroup]) -> Result<(), OutOfMemory>
    ensures { OnOk result (text.new.items ≡ text.old.items ++ flat_map group_text groups.now) }
{
    for group in groups {
        put_group(text, group)?;
    }
    Ok(())
}

// A local group after a space.
fn put_group(text: &mut Vec<u8>, group: &LocalGroup) -> Result<(), OutOfMemory>
    ensures { OnOk result (text.new.items ≡ text.old.items ++ group_text group.now) }
{
    text.extend_from_slice(b" ")?;
    text.extend_from_slice(valtype_name(group.ty).as_bytes())?;
    text.extend_from_slice(b"*")?;
    put_number(text, u64::from(group.count))
}

// The lines of a function in front of its instructions.
fn put_entry_head(text: &mut Vec<u8>, index: u64, func: &Func) -> Result<(), OutOfMemory>
    ensures { OnOk result (text.new.items ≡ text.old.items ++ entry_head index func.now) }
{
    put_indexed(text, "func", index)?;
    put_field(text, " type=", func.ty)?;
    text.extend_from_slice(b":\n")?;
    put_locals(text, func.body.groups())
}

// The lines of a function whose size, which is that of its code, begins at `at`.
fn list_entry<W: Out>(
    index: u64,
    func: &Func,
    at: u32,
    size: u32,
    buf: &mut [u8; CAPACITY],
    text: &mut Vec<u8>,
    out: &mut W,
) -> Listed
    requires room { W.failed out.old < 2 ^ 64 - 1 }
    requires size { size ≡ length (written_body func.now.body) }
    requires fits { at + length (written_code func.now.body) ≤ limit }
    ensures { PutsOut W.taken W.failed out.old out.new
        (text.old.items ++ entry_text index at func.now) text.new.items result }
{
    let groups = func.body.groups();
    let locals_len = leb_len_u32(groups.len() as u32) as u64 + groups_len(groups);
    let start = at + leb_len_u32(size) as u32 + locals_len as u32;
    put_entry_head(text, index, func)?;
    let (tokens, labels) = func.body.expr().tokens();
    list_tokens(labels, tokens, start, buf, text, out)
}

// The lines of all functions, behind so many imported ones; the size of the first begins at `start`.
fn list_entries<S: Shape, W: Out>(
    shape: &S,
    imported: u32,
    start: u32,
    buf: &mut [u8; CAPACITY],
    text: &mut Vec<u8>,
    out: &mut W,
) -> Listed
    requires room { W.failed out.old < 2 ^ 64 - 1 }
    requires few { length (S.seen shape.now).funcs < 2 ^ 32 }
    requires fits { start + length (flat_map (λ f. written_code f.body) (S.seen shape.now).funcs)
        ≤ limit }
    ensures { PutsOut W.taken W.failed out.old out.new
        (text.old.items ++ entries_text imported start (S.seen shape.now).funcs) text.new.items
        result }
{
    let mut at = start;
    for (index, func) in shape.parts().funcs.as_slice().iter().enumerate() {
        let size = shape.body_len(index);
        list_entry(
            u64::from(imported) + index as u64,
            func,
            at,
            size,
            buf,
            text,
            out,
        )?;
        at += leb_len_u32(size) as u32 + size;
    }
    Ok(())
}

// How many bytes the custom sections of a place are.
fn customs_len<S: Shape>(shape: &S, place: u8) -> u32
    requires { place < 12 }
    ensures { result ≡ length (customs_at place (S.seen shape.now).customs) }
{
    let mut total = 0;
    for (index, custom) in shape.parts().customs.as_slice().iter().enumerate() {
        if custom.place == place {
            let size = shape.custom_len(index);
            total = contents_start(total, size) + size;
        }
    }
    total
}

// Where the code section begins.
fn code_start<S: Shape>(shape: &S) -> u32
    ensures { result ≡ code_start (S.seen shape.now) }
{
    // The proof asks what this says: the module fits.
    let _parts = shape.parts();
    let mut at = HEADER_LEN;
    for id in 0..section_id::CODE {
        at = section_end(id, at, shape.section_len(id)) + customs_len(shape, id);
    }
    at
}

/// The lines of all functions.
pub(crate) fn list_code<S: Shape, W: Out>(shape: &S, text: &mut Vec<u8>, out: &mut W) -> Listed
    requires room { W.failed out.old < 2 ^ 64 - 1 }
    ensures { PutsOut W.taken W.failed out.old out.new
        (text.old.items ++ code_text (S.seen shape.now)) text.new.items result }
{
    let parts = shape.parts();
    if parts.funcs.is_empty() {
        return Ok(());
    }
    let imported = count_of(Kind::Func, parts.imports.as_slice());
    let contents = contents_start(code_start(shape), shape.section_len(section_id::CODE));
    let first = contents + leb_len_u32(parts.funcs.len() as u32) as u32;
    let mut buf = [0; CAPACITY];
    list_entries(shape, imported, first, &mut buf, text, out)
}
