//! A buffer of lines: an array that short lines are written to, one behind the other, before they go behind the text together. What
//! is asked of each piece of them is where it starts; room is asked for once a line.

ghost use Rattle.std.specs.Prelude.{◌≡◌, ◌≤◌, ◌+◌, ◌++◌, length, take, replicate, decimal};
ghost use Rattle.std.specs.Fmt.{signed_decimal};
ghost use Rattle.wk_bytes.specs.HexDigits.{hex_digits};

use crate::hexadecimal::pair;
use itoa::Buffer;

/// How many bytes the buffer takes.
pub(crate) const CAPACITY: usize = 1 << 12;

/// How many spaces are written at once.
const MARGIN: usize = 32;

/// A piece, written at a place. The answer is the place behind it.
#[inline(always)]
pub(crate) fn write(buf: &mut [u8; CAPACITY], at: usize, piece: &[u8]) -> usize
    requires { at + length piece.now ≤ CAPACITY }
    ensures end { result ≡ at + length piece.now }
    ensures text { take result buf.new ≡ take at buf.old ++ piece.now }
{
    let end = at + piece.len();
    buf[at..end].copy_from_slice(piece);
    end
}

// A piece of N to 2 N bytes: its first N and its last N, which may meet. Two moves of a fixed size are quicker than one of any.
#[inline(always)]
fn write_ends<const N: usize>(buf: &mut [u8; CAPACITY], at: usize, piece: &[u8]) -> usize
    requires room { at + length piece.now ≤ CAPACITY }
    requires small { N ≤ 8 }
    requires size { length piece.now ≤ N + N }
    ensures end { result ≡ at + length piece.now }
    ensures text { take result buf.new ≡ take at buf.old ++ piece.now }
{
    let Some(first) = piece.first_chunk::<N>() else {
        return write(buf, at, piece);
    };
    let Some(last) = piece.last_chunk::<N>() else {
        return write(buf, at, piece);
    };
    // As values of their own, which lie in no buffer, they are moved without a look at which end goes first.
    let (first, last) = (*first, *last);
    let _first = write(buf, at, &first);
    write(buf, at + (piece.len() - N), &last)
}

/// A piece of a few bytes, most likely.
#[inline(always)]
pub(crate) fn write_word(buf: &mut [u8; CAPACITY], at: usize, word: &[u8]) -> usize
    requires { at + length word.now ≤ CAPACITY }
    ensures end { result ≡ at + length word.now }
    ensures text { take result buf.new ≡ take at buf.old ++ word.now }
{
    match word.len() {
        8..=16 => write_ends::<8>(buf, at, word),
        4..=7 => write_ends::<4>(buf, at, word),
        2..=3 => write_ends::<2>(buf, at, word),
        _ => write(buf, at, word),
    }
}

/// That many spaces. A few are written as many, since a fixed number is quick to write.
#[inline(always)]
pub(crate) fn write_margin(buf: &mut [u8; CAPACITY], at: usize, count: usize) -> usize
    requires { at + count + MARGIN ≤ CAPACITY }
    ensures end { result ≡ at + count }
    ensures text { take result buf.new ≡ take at buf.old ++ replicate count 32 }
{
    let end = at + count;
    if count <= MARGIN {
        let _margin = write(buf, at, &[b' '; MARGIN]);
    } else {
        buf[at..end].fill(b' ');
    }
    end
}

/// A number in decimal digits.
#[inline(always)]
#[tactic(auto, using(std::proofs::lemmas::Fmt::decimal_digit, crate::proofs::Pieces::two_digits))]
pub(crate) fn write_number(buf: &mut [u8; CAPACITY], at: usize, n: u64) -> usize
    requires { at + 20 ≤ CAPACITY }
    ensures end { result ≡ at + length (decimal n) }
    ensures short { result ≤ at + 20 }
    ensures text { take result buf.new ≡ take at buf.old ++ decimal n }
{
    if n < 10 {
        return write(buf, at, &[48 + n as u8]);
    }
    if n < 100 {
        return write(buf, at, &[48 + (n / 10) as u8, 48 + (n % 10) as u8]);
    }
    write_large(buf, at, n)
}

// A number of more digits than two.
#[inline(never)]
fn write_large(buf: &mut [u8; CAPACITY], at: usize, n: u64) -> usize
    requires { at + 20 ≤ CAPACITY }
    ensures end { result ≡ at + length (decimal n) }
    ensures short { result ≤ at + 20 }
    ensures text { take result buf.new ≡ take at buf.old ++ decimal n }
{
    let mut buffer = Buffer::new();
    write(buf, at, buffer.format(n).as_bytes())
}

/// A signed number in decimal digits.
#[inline(always)]
pub(crate) fn write_signed(buf: &mut [u8; CAPACITY], at: usize, z: i64) -> usize
    requires { at + 21 ≤ CAPACITY }
    ensures end { result ≡ at + length (signed_decimal z) }
    ensures short { result ≤ at + 21 }
    ensures text { take result buf.new ≡ take at buf.old ++ signed_decimal z }
{
    if z < 0 {
        let digits = write(buf, at, b"-");
        return write_number(buf, digits, z.unsigned_abs());
    }
    write_number(buf, at, z.unsigned_abs())
}

/// A number in eight hexadecimal digits.
#[inline(always)]
pub(crate) fn write_hex8(buf: &mut [u8; CAPACITY], at: usize, n: u32) -> usize
    requires { at + 8 ≤ CAPACITY }
    ensures end { result ≡ at + 8 }
    ensures text { take result buf.new ≡ take at buf.old ++ hex_digits 8 n }
{
    let second = write(buf, at, &pair(n / 0x100_0000));
    let third = write(buf, second, &pair(n / 0x1_0000 % 256));
    let last = write(buf, third, &pair(n / 0x100 % 256));
    write(buf, last, &pair(n % 256))
}
