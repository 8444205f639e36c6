//! The codes of a code section, written where they are read.

ghost use Rattle.std.specs.Prelude.{◌≡◌, ◌+◌, ◌≤◌, ◌++◌, List, OnOk, MatchResult, take, drop, length};
ghost use Rattle.std.specs.List.{between, flat_map};
ghost use Rattle.wk_bytes.specs.Frames.{limit};
ghost use Rattle.wk_bytes.specs.LebLaws.{IsBytes};
ghost use Rattle.wk_bytes.specs.Raw.{raw_view};
ghost use Rattle.wk_bytes.specs.Short.{short};
ghost use Rattle.wk_body.specs.Reads.{FailsAs};
ghost use Rattle.wk_module.specs.Formats.{bytes_at};
ghost use Rattle.wk_module.specs.Items.{code_at};
ghost use Rattle.wk_module.specs.ListReading.{codes_of};
ghost use Rattle.wk_strip.specs.Rewritten.{codes_in, IsTaken, IsRewritten, AreRewritten, BeginsCodes};
ghost use Rattle.wk_strip.specs.Written.{code_front};

use std::alloc::Global;
use wk_bytes::{Cursor, OutOfMemory, RawSection, ReadFault, ReadKind, leb_len_u32, put_u32};
use wk_module::{Profile, Scratch, reading_of_code, section_id, written_form_of_code};

// So many codes: where the first one stands in the input, and where their section ends.
#[derive(Clone, Copy)]
pub(crate) struct Codes {
    pub(crate) first: usize,
    pub(crate) end: usize,
    pub(crate) count: usize,
}

// Where the next code is read and written, and where the section of the codes ends.
#[derive(Clone, Copy)]
pub(crate) struct Place {
    read: usize,
    write: usize,
    end: usize,
}

// Bytes are below 256. It does nothing.
fn are_bytes(bytes: &[u8])
    ensures { IsBytes bytes.now }
{}

impl Codes {
    // The codes of a section, where that many functions were declared.
    #[tactic(auto, unfolding(wk_module::specs::Sections::codes_at))]
    pub(crate) fn of(section: &RawSection<'_>, funcs: usize) -> Result<Codes, ReadFault>
        ensures { MatchResult result (BeginsCodes (raw_view section.now) funcs)
            (λ e. (profile : Profile)
            → FailsAs e e.kind (codes_of profile funcs (raw_view section.now))) }
    {
        let mut cursor = section.cursor();
        let mismatch = cursor.fault(ReadKind::FuncCodeCount);
        let count = cursor.u32()?;
        if count as usize != funcs {
            return Err(mismatch);
        }
        let first = cursor.at() as usize;
        Ok(Codes {
            first,
            end: first + cursor.rest().len(),
            count: funcs,
        })
    }
}

// Takes the code that stands at an offset of the input, behind its size, where its section ends at another.
#[tactic(auto, unfolding(wk_module::specs::Formats::bytes_at, wk_bytes::specs::Span::piece_at))]
fn take_code(bytes: &[u8], read: usize, end: usize) -> Result<Cursor<'_>, ReadFault>
    requires order { read ≤ end }
    requires within { end ≤ length bytes.now }
    requires few { end ≤ limit }
    ensures { MatchResult result
        (IsTaken bytes.now read end)
        (λ e. FailsAs e e.kind (bytes_at end (between read end bytes.now))) }
{
    let mut cursor = Cursor::within(&bytes[read..end], read as u32);
    let size = cursor.u32()?;
    let at = cursor.at();
    let code = cursor.take(size)?;
    Ok(Cursor::within(code, at))
}

// Writes over the bytes that stand at an offset.
fn put_at(bytes: &mut [u8], at: usize, new: &[u8])
    requires { at + length new.now ≤ length bytes.old }
    ensures { bytes.new ≡ take at bytes.old ++ (new.now ++ drop (at + length new.now) bytes.old) }
{
    bytes[at..at + new.len()].copy_from_slice(new);
}

// Writes a code there: its size, and the written form of its body.
fn put_code(bytes: &mut [u8], at: usize, size: &[u8], body: &[u8])
    requires { at + length size.now + length body.now ≤ length bytes.old }
    ensures { bytes.new ≡ take at bytes.old
        ++ ((size.now ++ body.now) ++ drop (at + length size.now + length body.now) bytes.old) }
{
    put_at(bytes, at, size);
    put_at(bytes, at + size.len(), body);
}

// Writes the next code, which is no longer than it was: the size of the written form of its body, and that.
fn rewrite_code(
    alloc: Global,
    scratch: &mut Scratch,
    profile: Profile,
    size: &mut Vec<u8>,
    bytes: &mut [u8],
    place: Place,
) -> Result<Place, ReadFault>
    requires behind { place.write ≤ place.read }
    requires order { place.read ≤ place.end }
    requires within { place.end ≤ length bytes.old }
    requires few { place.end ≤ limit }
    ensures { MatchResult result (IsRewritten profile bytes.old bytes.new place)
        (λ e. FailsAs e e.kind
        (code_at profile place.end (between place.read place.end bytes.old))) }
{
    // The proof asks for what these say: that the body is no longer than the code.
    reading_of_code();
    written_form_of_code();
    let code = take_code(bytes, place.read, place.end)?;
    are_bytes(code.rest());
    let read = code.at() as usize + code.rest().len();
    let body = scratch.written_form(alloc, &code, profile)?;
    size.clear();
    put_u32(size, body.len() as u32)?;
    put_code(bytes, place.write, size, body);
    Ok(Place {
        read,
        write: place.write + size.len() + body.len(),
        end: place.end,
    })
}

// Writes the codes, each behind the one before, from where the first one stands on. It gives where they end then.
pub(crate) fn rewrite_codes(
    alloc: Global,
    scratch: &mut Scratch,
    profile: Profile,
    bytes: &mut [u8],
    codes: Codes,
) -> Result<usize, ReadFault>
    requires order { codes.first ≤ codes.end }
    requires within { codes.end ≤ length bytes.old }
    requires few { codes.end ≤ limit }
    ensures { MatchResult result
        (AreRewritten profile bytes.old bytes.new codes)
        (λ e. FailsAs e e.kind (codes_in profile bytes.old codes)) }
{
    let mut size = Vec::new(alloc);
    let mut place = Place {
        read: codes.first,
        write: codes.first,
        end: codes.end,
    };
    for _ in 0..codes.count {
        place = rewrite_code(alloc, scratch, profile, &mut size, bytes, place)?;
    }
    if place.read < codes.end {
        return Err(ReadFault {
            kind: ReadKind::SectionSize,
            at: place.read as u32,
        });
    }
    Ok(place.write)
}

// Appends what stands in front of the codes of a code section: its id, its size, and their number. It is left out where there are none.
pub(crate) fn append_code_front(
    count: u32,
    codes: u32,
    out: &mut Vec<u8>,
) -> Result<(), OutOfMemory>
    requires { length (short count) + codes ≤ limit }
    ensures { OnOk result (out.new.items ≡ out.old.items ++ code_front count codes) }
{
    if count == 0 {
        return Ok(());
    }
    out.push(section_id::CODE)?;
    put_u32(out, leb_len_u32(count) as u32 + codes)?;
    put_u32(out, count)
}
