//! The shortest spellings of signed integers (5.2.2 "Integers"), appended and measured.

ghost use Rattle.std.specs.Prelude.{◌≡◌, ◌+◌, ◌<◌, ◌≤◌, ◌^◌, ◌++◌, pos, neg_ℤ, ◌≤ℤ◌, ◌<ℤ◌, length, take, vec_capacity, vec_len, OnOk, OnErr};
ghost use Rattle.wk_bytes.specs.Leb.{SpellsS};
ghost use Rattle.wk_bytes.specs.Short.{short_signed, is_lastS, lowS, highS, IsShortSigned};

use crate::memory::OutOfMemory;

// Whether a last byte stands for the number.
#[inline(always)]
fn is_last(n: i64) -> bool
    ensures { result ≡ is_lastS n }
{
    -64 <= n && n < 64
}

// The low seven bits.
#[inline(always)]
fn low_bits(n: i64) -> u8
    ensures value { result ≡ lowS n }
    ensures small { result < 128 }
{
    (n & 127) as u8
}

// The number above them.
#[inline(always)]
fn high_bits(n: i64) -> i64
    ensures { result ≡ highS n }
{
    n >> 7
}

// Writes the shortest spelling, and answers how many bytes it takes.
fn write_short_signed(bytes: &mut [u8; 10], n: i64) -> usize
    ensures len { result ≤ 10 }
    ensures value { take result bytes.new ≡ short_signed n }
{
    let mut rest = n;
    let mut len = 0;
    while !is_last(rest) {
        bytes[len] = low_bits(rest) + 128;
        rest = high_bits(rest);
        len += 1;
    }
    bytes[len] = low_bits(rest);
    len + 1
}

/// How many bytes, 1 to 10, the shortest spelling of a signed integer of 64 bits takes.
pub fn leb_len_s64(n: i64) -> usize
    ensures { result ≡ length (short_signed n) }
{
    let mut rest = n;
    let mut len = 1;
    while !is_last(rest) {
        rest = high_bits(rest);
        len += 1;
    }
    len
}

// Appends the shortest spelling, all of it or nothing. It is out of line, for integers of several bytes and where there is no room.
#[inline(never)]
fn append_long_signed(out: &mut Vec<u8>, n: i64) -> Result<(), OutOfMemory>
    ensures ok { OnOk result (out.new.items ≡ out.old.items ++ short_signed n) }
    ensures err { OnErr result (out.new.items ≡ out.old.items) }
    ensures full { OnErr result (vec_capacity out.old < vec_len out.old + length (short_signed n)) }
{
    let mut bytes = [0; 10];
    let len = write_short_signed(&mut bytes, n);
    out.extend_from_slice(&bytes[..len])?;
    Ok(())
}

// Appends the shortest spelling, all of it or nothing. Where it has one byte, for which there is room, that is pushed in line: most
// integers of a module have one.
#[inline(always)]
fn append_short_signed(out: &mut Vec<u8>, n: i64) -> Result<(), OutOfMemory>
    ensures ok { OnOk result (out.new.items ≡ out.old.items ++ short_signed n) }
    ensures err { OnErr result (out.new.items ≡ out.old.items) }
    ensures full { OnErr result (vec_capacity out.old < vec_len out.old + length (short_signed n)) }
{
    if is_last(n) && out.len() < out.capacity() {
        out.push_reserved(low_bits(n));
        return Ok(());
    }
    append_long_signed(out, n)
}

/// Appends the shortest spelling of a signed integer of 64 bits. Want of memory is answered only where `out` has no room for
/// it, and leaves `out` as before.
#[inline(always)]
pub fn put_s64(out: &mut Vec<u8>, n: i64) -> Result<(), OutOfMemory>
    ensures ok { OnOk result (out.new.items ≡ out.old.items ++ short_signed n) }
    ensures err { OnErr result (out.new.items ≡ out.old.items) }
    ensures full { OnErr result (vec_capacity out.old < vec_len out.old + length (short_signed n)) }
    ensures shortest { IsShortSigned (short_signed n) n }
    ensures spells { SpellsS 64 (short_signed n) n }
{
    append_short_signed(out, n)
}

/// Appends the shortest spelling of a signed integer of 32 bits. Want of memory is answered only where `out` has no room for
/// it, and leaves `out` as before.
#[inline(always)]
pub fn put_s32(out: &mut Vec<u8>, n: i32) -> Result<(), OutOfMemory>
    ensures ok { OnOk result (out.new.items ≡ out.old.items ++ short_signed n) }
    ensures err { OnErr result (out.new.items ≡ out.old.items) }
    ensures full { OnErr result (vec_capacity out.old < vec_len out.old + length (short_signed n)) }
    ensures shortest { IsShortSigned (short_signed n) n }
    ensures spells { SpellsS 32 (short_signed n) n }
{
    put_s64(out, i64::from(n))
}

/// Appends the shortest spelling of a signed integer of 33 bits, from -4,294,967,296 to 4,294,967,295. A type index that stands
/// as a block type is spelled so. Want of memory is answered only where `out` has no room for it, and leaves `out` as before.
#[inline(always)]
pub fn put_s33(out: &mut Vec<u8>, n: i64) -> Result<(), OutOfMemory>
    requires low { neg_ℤ (pos (2 ^ 32)) ≤ℤ n }
    requires high { n <ℤ pos (2 ^ 32) }
    ensures ok { OnOk result (out.new.items ≡ out.old.items ++ short_signed n) }
    ensures err { OnErr result (out.new.items ≡ out.old.items) }
    ensures full { OnErr result (vec_capacity out.old < vec_len out.old + length (short_signed n)) }
    ensures shortest { IsShortSigned (short_signed n) n }
    ensures spells { SpellsS 33 (short_signed n) n }
{
    put_s64(out, n)
}
