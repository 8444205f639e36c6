//! The lines of tokens in a buffer, but for a token that has labels.

ghost use Rattle.std.specs.Prelude.{◌≡◌, ◌<◌, ◌≤◌, ◌+◌, ◌*◌, ◌^◌, ◌++◌, codes, length, take, replicate, Some, IfSome, IfNone};
ghost use Rattle.std.specs.Fmt.{signed_decimal};
ghost use Rattle.wk_bytes.specs.HexDigits.{hex_digits};
ghost use Rattle.wk_bytes.specs.Short.{short, short_signed};
ghost use Rattle.wk_body.specs.Kept.{told, IsWithin};
ghost use Rattle.wk_body.specs.Operands.{operand_bytes, operands_of};
ghost use Rattle.wk_body.specs.Written.{type_bytes, tok_bytes};
ghost use Rattle.wk_list.specs.CodeText.{type_text, code_line};
ghost use Rattle.wk_list.specs.Details.{field};
ghost use Rattle.wk_list.specs.Text.{spaced};
ghost use Rattle.wk_list.specs.TokenText.{tok_text, behind_name, operands_text};

use crate::line_buffer::{
    CAPACITY, write, write_hex8, write_margin, write_number, write_signed, write_word,
};
use crate::token::Place;
use crate::typetext::valtype_name;
use wk_body::Operands;
use wk_bytes::{leb_len_s64, leb_len_u32};
use wk_module::{BlockType, Token};

/// The room that a line may take besides its name and the spaces in front of it.
const MAX_REST_LEN: usize = 128;

/// How far the name of a line may reach in a buffer, so that there is room for what stands behind it.
pub(crate) const NAME_LIMIT: usize = CAPACITY - MAX_REST_LEN;

/// A line in a buffer: the place behind it, and how many bytes its token is.
#[derive(Clone, Copy)]
pub(crate) struct Line {
    pub(crate) end: usize,
    pub(crate) len: u64,
}

// How many bytes an unsigned integer has. Most have one.
#[inline(always)]
#[tactic(auto, using(crate::proofs::ShortTokens::len_1))]
fn unsigned_len(x: u32) -> u64
    ensures len { result ≡ length (short x) }
    ensures few { result ≤ 10 }
{
    if x < 128 {
        return 1;
    }
    leb_len_u32(x) as u64
}

// How many bytes a signed integer has. Most have one.
#[inline(always)]
#[tactic(auto, using(crate::proofs::ShortTokens::one_byte_signed))]
fn signed_len(z: i64) -> u64
    ensures len { result ≡ length (short_signed z) }
    ensures few { result ≤ 10 }
{
    if -64 <= z && z < 64 {
        return 1;
    }
    leb_len_s64(z) as u64
}

// How many bytes the type of a block has.
#[inline(always)]
fn type_len(ty: BlockType) -> u64
    ensures len { result ≡ length (type_bytes ty) }
    ensures few { result ≤ 10 }
{
    match ty {
        BlockType::Empty | BlockType::Value(_) => 1,
        BlockType::Index(x) => signed_len(i64::from(x)),
    }
}

// A number behind its label.
#[inline(always)]
fn write_field<const N: usize>(buf: &mut [u8; CAPACITY], at: usize, label: [u8; N], n: u32) -> usize
    requires { at + N + 20 ≤ CAPACITY }
    ensures short { result ≤ at + N + 20 }
    ensures text { take result buf.new ≡ take at buf.old ++ field label.entry n }
{
    let digits = write(buf, at, &label);
    write_number(buf, digits, u64::from(n))
}

// A signed number after a space.
#[inline(always)]
fn write_integer(buf: &mut [u8; CAPACITY], at: usize, z: i64) -> usize
    requires { at + 22 ≤ CAPACITY }
    ensures short { result ≤ at + 22 }
    ensures text { take result buf.new ≡ take at buf.old ++ (codes " " ++ signed_decimal z) }
{
    let digits = write(buf, at, b" ");
    write_signed(buf, digits, z)
}

// A word of 64 bits in sixteen hexadecimal digits.
fn write_hex16(buf: &mut [u8; CAPACITY], at: usize, word: u64) -> usize
    requires { at + 16 ≤ CAPACITY }
    ensures short { result ≤ at + 16 }
    ensures text { take result buf.new ≡ take at buf.old ++ hex_digits 16 word }
{
    let low = write_hex8(buf, at, (word / 0x1_0000_0000) as u32);
    write_hex8(buf, low, (word % 0x1_0000_0000) as u32)
}

// The type of a block.
#[inline(always)]
fn write_type(buf: &mut [u8; CAPACITY], at: usize, ty: BlockType) -> usize
    requires { at + 32 ≤ CAPACITY }
    ensures short { result ≤ at + 32 }
    ensures text { take result buf.new ≡ take at buf.old ++ type_text ty }
{
    match ty {
        BlockType::Empty => at,
        BlockType::Value(ty) => {
            let name = write(buf, at, b" ");
            write(buf, name, valtype_name(ty).as_bytes())
        }
        BlockType::Index(x) => write_field(buf, at, *b" type=", x),
    }
}

// A line that ends there, of a token of that length.
#[inline(always)]
fn line_to(end: usize, len: u64) -> Option<Line>
    ensures { result ≡ Some (record { end = end; len = len }) }
{
    Some(Line { end, len })
}

// What is listed of operands, or nothing for labels.
#[inline(always)]
fn write_operands(buf: &mut [u8; CAPACITY], at: usize, operands: Operands<'_>) -> Option<Line>
    requires { at + 64 ≤ CAPACITY }
    ensures short { IfSome result (λ line. line.end ≤ at + 60) }
    ensures text { IfSome result
        (λ line. take line.end buf.new
        ≡ take at buf.old ++ operands_text (operands_of operands.entry)) }
    ensures len { IfSome result
        (λ line. line.len ≡ 1 + length (operand_bytes (operands_of operands.entry))) }
    ensures none { IfNone result (take at buf.new ≡ take at buf.old) }
{
    match operands {
        Operands::Nothing => line_to(at, 1),
        Operands::Reserved => line_to(at, 2),
        Operands::Index(x) => line_to(write_field(buf, at, *b" ", x), 1 + unsigned_len(x)),
        Operands::IndexReserved(x) => {
            line_to(write_field(buf, at, *b" type=", x), 2 + unsigned_len(x))
        }
        Operands::Labels { .. } => None,
        Operands::Memarg { align, offset } => {
            let behind = write_field(buf, at, *b" align=", align);
            let end = write_field(buf, behind, *b" offset=", offset);
            line_to(end, 1 + unsigned_len(align) + unsigned_len(offset))
        }
        Operands::Signed32(z) => {
            let z = i64::from(z);
            line_to(write_integer(buf, at, z), 1 + signed_len(z))
        }
        Operands::Signed64(z) => line_to(write_integer(buf, at, z), 1 + signed_len(z)),
        Operands::Word32(word) => {
            let digits = write(buf, at, b" 0x");
            line_to(write_hex8(buf, digits, word), 5)
        }
        Operands::Word64(word) => {
            let digits = write(buf, at, b" 0x");
            line_to(write_hex16(buf, digits, word), 9)
        }
        Operands::Opening(ty) => line_to(write_type(buf, at, ty), 1 + type_len(ty)),
    }
}

// What stands behind the name of a token, or nothing for one that has labels, which lie in the pool.
#[inline(always)]
fn write_immediates(
    buf: &mut [u8; CAPACITY],
    at: usize,
    labels: &[u32],
    token: &Token,
) -> Option<Line>
    requires room { at + 64 ≤ CAPACITY }
    requires within { IsWithin (length labels.now) token.now }
    ensures short { IfSome result (λ line. line.end ≤ at + 60) }
    ensures text { IfSome result
        (λ line. take line.end buf.new
        ≡ take at buf.old ++ behind_name (told labels.now token.now)) }
    ensures len { IfSome result
        (λ line. line.len ≡ length (tok_bytes (told labels.now token.now))) }
    ensures none { IfNone result (take at buf.new ≡ take at buf.old) }
{
    let (_opcode, operands) = token.operands(labels);
    write_operands(buf, at, operands)
}

// The front of a line: a space, the offset, and two spaces for each open block.
#[inline(always)]
fn write_front(buf: &mut [u8; CAPACITY], used: usize, place: Place) -> usize
    requires shallow { place.depth < 2 ^ 32 }
    requires room { used + 2 * place.depth + 43 ≤ CAPACITY }
    ensures end { result ≡ used + 2 * place.depth + 11 }
    ensures text { take result buf.new
        ≡ take used buf.old
        ++ (codes " "
        ++ (hex_digits 8 place.at ++ (codes ": " ++ replicate (2 * place.depth) 32))) }
{
    let digits = write(buf, used, b" ");
    let colon = write_hex8(buf, digits, place.at);
    let space = write(buf, colon, b":");
    let margin = write(buf, space, b" ");
    write_margin(buf, margin, 2 * place.depth)
}

/// The line of a token at a place, behind so many bytes of a buffer, or nothing for a token that has labels,
/// which lie in the pool, and where its name would reach too far.
#[inline(always)]
#[tactic(auto, unfolding(crate::specs::CodeText::code_line))]
pub(crate) fn write_line(
    buf: &mut [u8; CAPACITY],
    used: usize,
    labels: &[u32],
    token: &Token,
    place: Place,
    reach: usize,
) -> Option<Line>
    requires within { IsWithin (length labels.now) token.now }
    requires shallow { place.depth < 2 ^ 32 }
    requires inside { used ≤ CAPACITY }
    requires reach { reach ≤ NAME_LIMIT }
    ensures inside { IfSome result (λ line. line.end ≤ CAPACITY) }
    ensures text { IfSome result
        (λ line. take line.end buf.new
        ≡ take used buf.old
        ++ code_line place.at place.depth (tok_text (told labels.now token.now))) }
    ensures len { IfSome result
        (λ line. line.len ≡ length (tok_bytes (told labels.now token.now))) }
    ensures none { IfNone result (take used buf.new ≡ take used buf.old) }
{
    let name = token.name().as_bytes();
    if used + 2 * place.depth + name.len() > reach {
        return None;
    }
    let front = write_front(buf, used, place);
    let behind = write_word(buf, front, name);
    let Line { end, len } = write_immediates(buf, behind, labels, token)?;
    let end = write(buf, end, b"\n");
    Some(Line { end, len })
}
