//! A token buffer: an array that tokens are written to, one behind the other, before they go behind the output together. What is asked of
//! each of their pieces is where it starts; room is asked for once a token.

ghost use Rattle.std.specs.Prelude.{◌≡◌, ◌≤◌, ◌<◌, ◌+◌, ◌++◌, ◌∷◌, length, take, IfSome, IfNone};
ghost use Rattle.byteorder.specs.Endian.{little_bytes};
ghost use Rattle.wk_bytes.specs.Short.{short, short_signed, is_lastS, lowS, highS};
ghost use Rattle.wk_body.specs.Kept.{told, IsWithin};
ghost use Rattle.wk_body.specs.Operands.{operand_bytes, operands_of};
ghost use Rattle.wk_body.specs.Written.{type_bytes, tok_bytes};

use crate::operands::Operands;
use crate::token::Token;
use crate::types::BlockType;
use byteorder::{ByteOrder, LittleEndian};

/// How many bytes the buffer takes. It is cleared for each expression, and most of these are short.
pub(crate) const CAPACITY: usize = 256;

/// The most bytes of a token that goes into the buffer.
const MAX_TOKEN_LEN: usize = 11;

// Bytes, written at a place. The answer is the place behind them.
#[inline(always)]
fn put<const N: usize>(buf: &mut [u8; CAPACITY], at: usize, bytes: [u8; N]) -> usize
    requires { at + N ≤ CAPACITY }
    ensures end { result ≡ at + N }
    ensures bytes { take result buf.new ≡ take at buf.old ++ bytes.entry }
{
    let end = at + N;
    buf[at..end].copy_from_slice(&bytes);
    end
}

// The shortest spelling of an unsigned integer, byte by byte. It is out of line, for integers of several bytes.
#[inline(never)]
fn put_long(buf: &mut [u8; CAPACITY], at: usize, n: u32) -> usize
    requires { at + 5 ≤ CAPACITY }
    ensures few { result ≤ at + 5 }
    ensures bytes { take result buf.new ≡ take at buf.old ++ short n }
{
    let mut rest = n;
    let mut end = at;
    while rest >= 128 {
        buf[end] = (rest % 128 + 128) as u8;
        rest /= 128;
        end += 1;
    }
    buf[end] = rest as u8;
    end + 1
}

// The shortest spelling of an unsigned integer. Most have one byte.
#[inline(always)]
fn put_number(buf: &mut [u8; CAPACITY], at: usize, n: u32) -> usize
    requires { at + 5 ≤ CAPACITY }
    ensures few { result ≤ at + 5 }
    ensures bytes { take result buf.new ≡ take at buf.old ++ short n }
{
    if n < 128 {
        return put(buf, at, [n as u8]);
    }
    put_long(buf, at, n)
}

// Whether a last byte stands for the number.
#[inline(always)]
fn is_last(n: i64) -> bool
    ensures { result ≡ is_lastS n }
{
    -64 <= n && n < 64
}

// The low seven bits.
#[inline(always)]
fn low_bits(n: i64) -> u8
    ensures value { result ≡ lowS n }
    ensures small { result < 128 }
{
    (n & 127) as u8
}

// The number above them.
#[inline(always)]
fn high_bits(n: i64) -> i64
    ensures { result ≡ highS n }
{
    n >> 7
}

// The shortest spelling of a signed integer, byte by byte. It is out of line, for integers of several bytes.
#[inline(never)]
fn put_long_signed(buf: &mut [u8; CAPACITY], at: usize, n: i64) -> usize
    requires { at + 10 ≤ CAPACITY }
    ensures few { result ≤ at + 10 }
    ensures bytes { take result buf.new ≡ take at buf.old ++ short_signed n }
{
    let mut rest = n;
    let mut end = at;
    while !is_last(rest) {
        buf[end] = low_bits(rest) + 128;
        rest = high_bits(rest);
        end += 1;
    }
    buf[end] = low_bits(rest);
    end + 1
}

// The shortest spelling of a signed integer. Most have one byte.
#[inline(always)]
fn put_signed(buf: &mut [u8; CAPACITY], at: usize, n: i64) -> usize
    requires { at + 10 ≤ CAPACITY }
    ensures few { result ≤ at + 10 }
    ensures bytes { take result buf.new ≡ take at buf.old ++ short_signed n }
{
    if is_last(n) {
        return put(buf, at, [low_bits(n)]);
    }
    put_long_signed(buf, at, n)
}

// An opcode and a label or an index.
#[inline(always)]
fn put_index(buf: &mut [u8; CAPACITY], at: usize, opcode: u8, x: u32) -> usize
    requires { at + 6 ≤ CAPACITY }
    ensures few { result ≤ at + 6 }
    ensures bytes { take result buf.new ≡ take at buf.old ++ (opcode ∷ short x) }
{
    let behind = put(buf, at, [opcode]);
    put_number(buf, behind, x)
}

// A block type.
#[inline(always)]
fn put_type(buf: &mut [u8; CAPACITY], at: usize, ty: BlockType) -> usize
    requires { at + 10 ≤ CAPACITY }
    ensures few { result ≤ at + 10 }
    ensures bytes { take result buf.new ≡ take at buf.old ++ type_bytes ty }
{
    match ty {
        BlockType::Empty => put(buf, at, [0x40]),
        BlockType::Value(ty) => put(buf, at, [ty.byte()]),
        BlockType::Index(x) => put_signed(buf, at, i64::from(x)),
    }
}

// A word of 32 bits.
#[inline(always)]
fn put_word32(buf: &mut [u8; CAPACITY], at: usize, word: u32) -> usize
    requires { at + 4 ≤ CAPACITY }
    ensures end { result ≡ at + 4 }
    ensures bytes { take result buf.new ≡ take at buf.old ++ little_bytes 4 word }
{
    let mut bytes = [0; 4];
    LittleEndian::write_u32(&mut bytes, word);
    put(buf, at, bytes)
}

// A word of 64 bits.
#[inline(always)]
fn put_word64(buf: &mut [u8; CAPACITY], at: usize, word: u64) -> usize
    requires { at + 8 ≤ CAPACITY }
    ensures end { result ≡ at + 8 }
    ensures bytes { take result buf.new ≡ take at buf.old ++ little_bytes 8 word }
{
    let mut bytes = [0; 8];
    LittleEndian::write_u64(&mut bytes, word);
    put(buf, at, bytes)
}

// What stands behind an opcode, or nothing for labels.
#[inline(always)]
fn put_operands(buf: &mut [u8; CAPACITY], at: usize, operands: Operands<'_>) -> Option<usize>
    requires { at + 10 ≤ CAPACITY }
    ensures few { IfSome result (λ end. end ≤ at + 10) }
    ensures bytes { IfSome result
        (λ end. take end buf.new ≡ take at buf.old ++ operand_bytes (operands_of operands.entry)) }
    ensures none { IfNone result (take at buf.new ≡ take at buf.old) }
{
    match operands {
        Operands::Nothing => Some(at),
        Operands::Reserved => Some(put(buf, at, [0x00])),
        Operands::Index(x) => Some(put_number(buf, at, x)),
        Operands::IndexReserved(x) => {
            let behind = put_number(buf, at, x);
            Some(put(buf, behind, [0x00]))
        }
        Operands::Labels { .. } => None,
        Operands::Memarg { align, offset } => {
            let behind = put_number(buf, at, align);
            Some(put_number(buf, behind, offset))
        }
        Operands::Signed32(z) => Some(put_signed(buf, at, i64::from(z))),
        Operands::Signed64(z) => Some(put_signed(buf, at, z)),
        Operands::Word32(word) => Some(put_word32(buf, at, word)),
        Operands::Word64(word) => Some(put_word64(buf, at, word)),
        Operands::Opening(ty) => Some(put_type(buf, at, ty)),
    }
}

/// A token, behind so many bytes of a buffer. The answer is how many stand in it then, or nothing for a token that has labels, which
/// lie in the pool, and where the buffer might have too little room.
#[inline(always)]
pub(crate) fn put_short(
    buf: &mut [u8; CAPACITY],
    used: usize,
    labels: &[u32],
    token: &Token,
) -> Option<usize>
    requires inside { used ≤ CAPACITY }
    requires within { IsWithin (length labels.now) token.now }
    ensures inside { IfSome result (λ end. end ≤ CAPACITY) }
    ensures bytes { IfSome result
        (λ end. take end buf.new ≡ take used buf.old ++ tok_bytes (told labels.now token.now)) }
    ensures none { IfNone result (take used buf.new ≡ take used buf.old) }
{
    if used > CAPACITY - MAX_TOKEN_LEN {
        return None;
    }
    // (Locals and globals are a third of all tokens or more. Asked for by themselves first, they are told apart by one test of a range,
    // which is foreseen better than a jump by the kind of token.)
    if matches!(
        *token,
        Token::LocalGet(_)
            | Token::LocalSet(_)
            | Token::LocalTee(_)
            | Token::GlobalGet(_)
            | Token::GlobalSet(_)
    ) {
        if let (opcode, Operands::Index(x)) = token.operands(labels) {
            return Some(put_index(buf, used, opcode, x));
        }
    }
    let (opcode, operands) = token.operands(labels);
    let behind = put(buf, used, [opcode]);
    put_operands(buf, behind, operands)
}
