//! What a cursor reads, the frames of sections, and what holds items and text.

use std::alloc::{AllocError, Global};
use std::test::Fail;
use wk_bytes::{Cursor, Items, ReadFault, ReadKind, Sections, Text};
use wk_samples::modules::TWO_CODES;

const PIECES: &[u8] = b"\x09\x00\x00\x80\x3f\x00\x00\x00\x00\x00\x00\xf0\xbf\x02\xc3\xa9\x05\x06";

// Bytes, words, a name and what is taken, one behind the other.
fn reads_pieces() -> bool {
    let mut cursor = Cursor::within(PIECES, 100);
    cursor.byte() == Ok(9)
        && cursor.word32() == Ok(0x3f80_0000)
        && cursor.word64() == Ok(0xbff0_0000_0000_0000)
        && cursor.name() == Ok("é")
        && cursor.at() == 116
        && cursor.ahead().take(2) == Ok(b"\x05\x06".as_slice())
        && cursor.take(1) == Ok(b"\x05".as_slice())
        && cursor.rest() == b"\x06".as_slice()
}

// A refusal leaves the cursor as it was.
fn refuses_pieces() -> bool {
    let mut cursor = Cursor::new(b"\x02\xff");
    let end = cursor.fault(ReadKind::UnexpectedEnd);
    cursor.word32() == Err(end)
        && cursor.word64() == Err(end)
        && cursor.take(3) == Err(end)
        && cursor.name()
            == Err(ReadFault {
                kind: ReadKind::UnexpectedEnd,
                at: 1,
            })
        && cursor.at() == 0
}

#[test]
fn reads_with_a_cursor(rt: HostRuntime) -> Result<(), Fail> {
    assert!(rt; reads_pieces() && refuses_pieces() && reads_integers());
    Ok(())
}

const INTEGERS: &[u8] =
    b"\x7f\xe5\x8e\x26\x40\xff\xff\xff\xff\x7f\xc0\x00\xff\x00\x80\x80\x80\x80\x10";

// Integers one behind the other, padded ones among them.
fn reads_integers() -> bool {
    let mut cursor = Cursor::new(INTEGERS);
    cursor.u32() == Ok(127)
        && cursor.u32() == Ok(624_485)
        && cursor.s32() == Ok(-64)
        && cursor.s32() == Ok(-1)
        && cursor.s33() == Ok(64)
        && cursor.s64() == Ok(127)
        && cursor.u32() == Err(cursor.fault(ReadKind::IntTooLarge))
        && cursor.s32() == Err(cursor.fault(ReadKind::IntTooLarge))
        && cursor.at() == 14
}

// The ids of the sections and where their contents begin, up to a fault.
fn frames(alloc: Global, input: &[u8]) -> Result<Vec<(u8, u32)>, AllocError> {
    let mut found = Vec::new(alloc);
    for section in Sections::new(input) {
        if let Ok(section) = section {
            found.push((section.id, section.at))?;
        }
    }
    Ok(found)
}

const FRAMES: [(u8, u32); 7] = [
    (0, 10),
    (1, 14),
    (3, 21),
    (7, 26),
    (10, 33),
    (0, 46),
    (11, 50),
];

fn is_framed(alloc: Global) -> Result<bool, AllocError> {
    Ok(frames(alloc, TWO_CODES)?.as_slice() == FRAMES.as_slice())
}

// What stands in the first section, and the fault behind it.
fn reads_first(input: &[u8], contents: &[u8], fault: ReadFault) -> bool {
    let mut sections = Sections::new(input);
    let is_first = match sections.next() {
        Some(Ok(section)) => section.contents == contents && section.cursor().rest() == contents,
        _ => false,
    };
    let is_refused = match sections.next() {
        Some(Err(found)) => found == fault,
        _ => false,
    };
    is_first && is_refused && sections.next().is_none()
}

const UNKNOWN: ReadFault = ReadFault {
    kind: ReadKind::UnknownSection,
    at: 11,
};

#[test]
fn reads_frames(rt: HostRuntime) -> Result<(), Fail> {
    assert_eq!(rt; is_framed(rt.alloc()), Ok(true));
    assert!(rt; reads_first(b"\0asm\x01\0\0\0\x01\x01\0\x0c", b"\0", UNKNOWN));
    Ok(())
}

// Items are pushed, copied and popped.
fn holds_items(alloc: Global) -> Result<bool, AllocError> {
    let mut items = Items::from_vec(Vec::from_slice(alloc, &[4u32])?);
    let is_pushed = items.push(5).is_ok();
    let copy = items.copy(alloc)?;
    let is_popped = items.pop() == Some(5) && items.pop() == Some(4) && items.pop().is_none();
    Ok(
        is_pushed
            && is_popped
            && items.is_empty()
            && copy.len() == 2
            && copy.into_vec().as_slice() == [4, 5].as_slice(),
    )
}

fn holds_text(alloc: Global) -> Result<bool, AllocError> {
    let text = Text::from_string(String::from_str(alloc, "é")?);
    Ok(text.copy(alloc)?.as_str() == "é" && text.as_str() == "é")
}

#[test]
fn holds(rt: HostRuntime) -> Result<(), Fail> {
    assert!(rt; Items::<u32>::new(rt.alloc()).is_empty());
    assert_eq!(rt; holds_items(rt.alloc()), Ok(true));
    assert_eq!(rt; holds_text(rt.alloc()), Ok(true));
    Ok(())
}
