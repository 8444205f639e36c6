//! Integers against spellings that are known from elsewhere: written, measured and read back.

use std::alloc::Global;
use std::test::Fail;
use wk_bytes::{
    Cursor, OutOfMemory, ReadFault, ReadKind, Sink, leb_len_s64, leb_len_u32, out_u32, put_s32,
    put_s33, put_s64, put_u32,
};
use wk_samples::integers::{
    CUT_64, PADDED_64, SIGNED_32, SIGNED_32_BORDERS, SIGNED_33, SIGNED_64, SIGNED_64_BORDERS,
    SIGNED_64_HASHES, Signed, TOO_LARGE_64, TOO_LONG_64, UNSIGNED, UNSIGNED_BORDERS, Unsigned,
};

// Whether the integer is put, put out, measured and read so.
fn is_spelled(alloc: Global, row: Unsigned) -> Result<bool, OutOfMemory> {
    let mut bytes = Vec::new(alloc);
    put_u32(&mut bytes, row.value)?;
    let mut sink = Sink::new(Vec::new(alloc));
    let is_out = out_u32(&mut sink, row.value).is_ok();
    let put_out = sink.into_inner();
    Ok(
        bytes.as_slice() == row.bytes
            && is_out
            && put_out.as_slice() == row.bytes
            && leb_len_u32(row.value) == row.bytes.len()
            && row.bytes.len() <= 5
            && Cursor::new(row.bytes).u32() == Ok(row.value),
    )
}

/// How many bits an integer with a sign may have.
#[derive(Clone, Copy, Debug)]
enum Width {
    Bits32,
    Bits33,
    Bits64,
}

impl Width {
    // Puts an integer, if it has no more bits.
    fn put(self, out: &mut Vec<u8>, value: i64) -> Result<(), OutOfMemory> {
        match self {
            Width::Bits32 => match i32::try_from(value) {
                Ok(value) => put_s32(out, value),
                Err(_) => Ok(()),
            },
            Width::Bits33 if -4_294_967_296 <= value && value < 4_294_967_296 => {
                put_s33(out, value)
            }
            Width::Bits33 => Ok(()),
            Width::Bits64 => put_s64(out, value),
        }
    }

    fn read(self, cursor: &mut Cursor<'_>) -> Result<i64, ReadFault> {
        match self {
            Width::Bits32 => cursor.s32().map(i64::from),
            Width::Bits33 => cursor.s33(),
            Width::Bits64 => cursor.s64(),
        }
    }
}

// Whether the integer is put, measured and read so.
fn is_spelled_in(alloc: Global, width: Width, row: Signed) -> Result<bool, OutOfMemory> {
    let mut bytes = Vec::new(alloc);
    width.put(&mut bytes, row.value)?;
    Ok(
        bytes.as_slice() == row.bytes
            && leb_len_s64(row.value) == row.bytes.len()
            && row.bytes.len() <= 10
            && width.read(&mut Cursor::new(row.bytes)) == Ok(row.value),
    )
}

#[test]
fn spells_integers(rt: HostRuntime) -> Result<(), Fail> {
    let unsigned: [&[Unsigned]; 2] = [&UNSIGNED, &UNSIGNED_BORDERS];
    for rows in unsigned {
        for row in rows {
            assert_eq!(rt; is_spelled(rt.alloc(), *row), Ok(true), "{row:?}");
        }
    }
    let signed: [(Width, &[Signed]); 11] = [
        (Width::Bits32, &SIGNED_32),
        (Width::Bits32, &SIGNED_32_BORDERS),
        (Width::Bits33, &SIGNED_32),
        (Width::Bits33, &SIGNED_32_BORDERS),
        (Width::Bits33, &SIGNED_33),
        (Width::Bits64, &SIGNED_32),
        (Width::Bits64, &SIGNED_32_BORDERS),
        (Width::Bits64, &SIGNED_33),
        (Width::Bits64, &SIGNED_64),
        (Width::Bits64, &SIGNED_64_BORDERS),
        (Width::Bits64, &SIGNED_64_HASHES),
    ];
    for (width, rows) in signed {
        for row in rows {
            let answer = is_spelled_in(rt.alloc(), width, *row);
            assert_eq!(rt; answer, Ok(true), "{row:?} in {width:?}");
        }
    }
    Ok(())
}

// Other bytes behind an integer: longer ones are read in one way where ten bytes are at hand, and in another where fewer are.
const BEHIND: &[u8] = b"\x80\x00\xff\x7f\x80\x00\xff\x7f\x80\x00";

// Whether reading 64 bits answers this: what is read leaves what stands behind it, and what is refused leaves all.
fn is_read(input: &[u8], behind: &[u8], wanted: Result<i64, ReadKind>) -> bool {
    if input.len() > 21 {
        return false;
    }
    let mut cursor = Cursor::new(input);
    match wanted {
        Ok(value) => cursor.s64() == Ok(value) && cursor.rest() == behind,
        Err(kind) => { cursor.s64() == Err(ReadFault { kind, at: 0 }) && cursor.rest() == input }
    }
}

// The same of the bytes alone and with others behind them, where they are not cut.
fn answers(
    alloc: Global,
    bytes: &[u8],
    wanted: Result<i64, ReadKind>,
) -> Result<bool, OutOfMemory> {
    let mut more = Vec::from_slice(alloc, bytes)?;
    more.extend_from_slice(BEHIND)?;
    let is_cut = wanted == Err(ReadKind::UnexpectedEnd);
    Ok(is_read(bytes, b"", wanted) && (is_cut || is_read(more.as_slice(), BEHIND, wanted)))
}

#[test]
fn reads_long_integers(rt: HostRuntime) -> Result<(), Fail> {
    let tables: [&[Signed]; 4] = [
        &SIGNED_64,
        &SIGNED_64_BORDERS,
        &SIGNED_64_HASHES,
        &PADDED_64,
    ];
    for rows in tables {
        for row in rows {
            let answer = answers(rt.alloc(), row.bytes, Ok(row.value));
            assert_eq!(rt; answer, Ok(true), "{row:?}");
        }
    }
    Ok(())
}

// Padded ones have more bytes than 32 and 33 bits may have.
fn is_refused_short(row: Signed) -> bool {
    let fault = ReadFault {
        kind: ReadKind::IntTooLong,
        at: 0,
    };
    row.bytes.len() <= 10
        && Cursor::new(row.bytes).s32() == Err(fault)
        && Cursor::new(row.bytes).s33() == Err(fault)
}

#[test]
fn refuses_long_integers(rt: HostRuntime) -> Result<(), Fail> {
    let tables: [(ReadKind, &[&[u8]]); 3] = [
        (ReadKind::IntTooLarge, &TOO_LARGE_64),
        (ReadKind::IntTooLong, &TOO_LONG_64),
        (ReadKind::UnexpectedEnd, &CUT_64),
    ];
    for (kind, rows) in tables {
        for bytes in rows {
            let answer = answers(rt.alloc(), bytes, Err(kind));
            assert_eq!(rt; answer, Ok(true), "{kind:?} of {bytes:?}");
        }
    }
    for row in &PADDED_64 {
        assert!(rt; is_refused_short(*row), "{row:?}");
    }
    Ok(())
}
