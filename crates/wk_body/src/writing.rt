//! Writes expressions and bodies in the one written form.

ghost use Rattle.std.specs.Prelude.{◌≡◌, ◌≤◌, ◌<◌, ℕ, List, [], ◌++◌, ◌∷◌, ◌^◌, length, take, IfOk, OnOk, OnErr, MatchResult};
ghost use Rattle.std.specs.List.{flat_map, AllByRecursion};
ghost use Rattle.byteorder.specs.Endian.{little_bytes};
ghost use Rattle.wk_bytes.specs.LebLaws.{IsBytes};
ghost use Rattle.wk_bytes.specs.Short.{short};
ghost use Rattle.wk_body.specs.Kept.{told, all_told, IsWithin};
ghost use Rattle.wk_body.specs.Written.{type_bytes, tok_bytes, written_expr, written_body, written_group, Fits, Unwritten, StaysInFront};
ghost use Rattle.wk_body.specs.Operands.{operand_bytes, operands_of, AreCounted};
ghost use Rattle.wk_body.specs.Spelling.{SpellsExpr, SpellsBody};
ghost use Rattle.wk_body.specs.Shape.{IsShaped, IsOf};
ghost use Rattle.wk_body.specs.Tree.{Instrs, tokens_of};
ghost use Rattle.wk_body.specs.Bodies.{BodyOf, AreGroups};

use crate::body::Body;
use crate::expr::Expr;
use crate::fault::EncodeFault;
use crate::length::{body_len, expr_len};
use crate::operands::Operands;
use crate::reading::are_bytes;
use crate::token::Token;
use crate::token_buffer::{CAPACITY, put_short};
use crate::types::{BlockType, LocalGroup, Profile};
use byteorder::{ByteOrder, LittleEndian};
use std::alloc::Global;
use wk_bytes::{OutOfMemory, put_s32, put_s33, put_s64, put_u32};

/// So many tokens are written into a buffer: fewer are written sooner one by one.
const BUFFER_FROM: usize = 8;

// Appends a byte where there may be no room.
#[cold]
#[inline(never)]
fn put_growing(out: &mut Vec<u8>, byte: u8) -> Result<(), OutOfMemory>
    ensures ok { OnOk result (out.new.items ≡ out.old.items ++ byte ∷ []) }
    ensures err { OnErr result (out.new.items ≡ out.old.items) }
{
    out.push(byte)?;
    Ok(())
}

// Appends a byte, in line where there is room for it.
#[inline(always)]
fn put_byte(out: &mut Vec<u8>, byte: u8) -> Result<(), OutOfMemory>
    ensures ok { OnOk result (out.new.items ≡ out.old.items ++ byte ∷ []) }
    ensures err { OnErr result (out.new.items ≡ out.old.items) }
{
    if out.len() < out.capacity() {
        out.push_reserved(byte);
        return Ok(());
    }
    put_growing(out, byte)
}

fn put_word32(out: &mut Vec<u8>, word: u32) -> Result<(), OutOfMemory>
    ensures ok { OnOk result (out.new.items ≡ out.old.items ++ little_bytes 4 word) }
    ensures err { OnErr result (out.new.items ≡ out.old.items) }
{
    let mut bytes = [0; 4];
    LittleEndian::write_u32(&mut bytes, word);
    out.extend_from_slice(&bytes)?;
    Ok(())
}

fn put_word64(out: &mut Vec<u8>, word: u64) -> Result<(), OutOfMemory>
    ensures ok { OnOk result (out.new.items ≡ out.old.items ++ little_bytes 8 word) }
    ensures err { OnErr result (out.new.items ≡ out.old.items) }
{
    let mut bytes = [0; 8];
    LittleEndian::write_u64(&mut bytes, word);
    out.extend_from_slice(&bytes)?;
    Ok(())
}

fn put_numbers(out: &mut Vec<u8>, numbers: &[u32]) -> Result<(), OutOfMemory>
    ensures ok { OnOk result (out.new.items ≡ out.old.items ++ flat_map short numbers.now) }
    ensures err { OnErr result (StaysInFront out.old.items out.new.items) }
{
    for n in numbers {
        put_u32(out, *n)?;
    }
    Ok(())
}

// A block type (5.3.2).
pub(crate) fn put_type(out: &mut Vec<u8>, ty: BlockType) -> Result<(), OutOfMemory>
    ensures ok { OnOk result (out.new.items ≡ out.old.items ++ type_bytes ty) }
    ensures err { OnErr result (out.new.items ≡ out.old.items) }
{
    match ty {
        BlockType::Empty => put_byte(out, 0x40)?,
        BlockType::Value(ty) => put_byte(out, ty.byte())?,
        BlockType::Index(x) => put_s33(out, i64::from(x))?,
    }
    Ok(())
}

// An opcode and a label or an index.
#[inline(always)]
pub(crate) fn put_index(out: &mut Vec<u8>, opcode: u8, x: u32) -> Result<(), OutOfMemory>
    ensures ok { OnOk result (out.new.items ≡ out.old.items ++ (opcode ∷ short x)) }
    ensures err { OnErr result (StaysInFront out.old.items out.new.items) }
{
    put_byte(out, opcode)?;
    put_u32(out, x)
}

// What stands behind an opcode (5.4).
#[inline(always)]
fn put_operands(out: &mut Vec<u8>, operands: Operands<'_>) -> Result<(), OutOfMemory>
    requires { AreCounted operands }
    ensures ok { OnOk result
        (out.new.items ≡ out.old.items ++ operand_bytes (operands_of operands.entry)) }
    ensures err { OnErr result (StaysInFront out.old.items out.new.items) }
{
    match operands {
        Operands::Nothing => Ok(()),
        Operands::Reserved => put_byte(out, 0x00),
        Operands::Index(x) => put_u32(out, x),
        Operands::IndexReserved(x) => {
            put_u32(out, x)?;
            put_byte(out, 0x00)
        }
        Operands::Labels { labels, other } => {
            put_u32(out, labels.len() as u32)?;
            put_numbers(out, labels)?;
            put_u32(out, other)
        }
        Operands::Memarg { align, offset } => {
            put_u32(out, align)?;
            put_u32(out, offset)
        }
        Operands::Signed32(z) => put_s32(out, z),
        Operands::Signed64(z) => put_s64(out, z),
        Operands::Word32(word) => put_word32(out, word),
        Operands::Word64(word) => put_word64(out, word),
        Operands::Opening(ty) => put_type(out, ty),
    }
}

// A token whose labels lie in the pool (5.4).
#[inline(always)]
fn put_token(out: &mut Vec<u8>, labels: &[u32], token: &Token) -> Result<(), OutOfMemory>
    requires { IsWithin (length labels.now) token.now }
    ensures ok { OnOk result
        (out.new.items ≡ out.old.items ++ tok_bytes (told labels.now token.now)) }
    ensures err { OnErr result (StaysInFront out.old.items out.new.items) }
{
    let (opcode, operands) = token.operands(labels);
    put_byte(out, opcode)?;
    put_operands(out, operands)
}

// The tokens in a buffer, and behind them one that goes to no buffer.
#[inline(never)]
fn flush_then_put(
    out: &mut Vec<u8>,
    buf: &[u8],
    labels: &[u32],
    token: &Token,
) -> Result<(), OutOfMemory>
    requires { IsWithin (length labels.now) token.now }
    ensures ok { OnOk result
        (out.new.items ≡ out.old.items ++ buf.now ++ tok_bytes (told labels.now token.now)) }
    ensures err { OnErr result (StaysInFront out.old.items out.new.items) }
{
    out.extend_from_slice(buf)?;
    put_token(out, labels, token)
}

// A token, behind so many bytes of a buffer. The answer is how many stand in it then.
#[inline(always)]
fn buffer_token(
    out: &mut Vec<u8>,
    buf: &mut [u8; CAPACITY],
    used: usize,
    labels: &[u32],
    token: &Token,
) -> Result<usize, OutOfMemory>
    requires within { IsWithin (length labels.now) token.now }
    requires inside { used ≤ CAPACITY }
    ensures inside { IfOk result (λ end. end ≤ CAPACITY) }
    ensures ok { IfOk result
        (λ end. out.new.items ++ take end buf.new
        ≡ out.old.items ++ take used buf.old ++ tok_bytes (told labels.now token.now)) }
    ensures front { StaysInFront out.old.items out.new.items }
{
    if let Some(end) = put_short(buf, used, labels, token) {
        return Ok(end);
    }
    flush_then_put(out, &buf[..used], labels, token)?;
    Ok(0)
}

// Tokens that are gathered in a buffer first.
fn put_buffered(out: &mut Vec<u8>, labels: &[u32], tokens: &[Token]) -> Result<(), OutOfMemory>
    requires { AllByRecursion (IsWithin (length labels.now)) tokens.now }
    ensures ok { OnOk result
        (out.new.items ≡ out.old.items ++ flat_map tok_bytes (all_told labels.now tokens.now)) }
    ensures err { OnErr result (StaysInFront out.old.items out.new.items) }
{
    let mut buf = [0; CAPACITY];
    let mut used = 0;
    for token in tokens {
        used = buffer_token(out, &mut buf, used, labels, token)?;
    }
    out.extend_from_slice(&buf[..used])?;
    Ok(())
}

// The same for few tokens, for which no buffer is cleared.
fn put_unbuffered(out: &mut Vec<u8>, labels: &[u32], tokens: &[Token]) -> Result<(), OutOfMemory>
    requires { AllByRecursion (IsWithin (length labels.now)) tokens.now }
    ensures ok { OnOk result
        (out.new.items ≡ out.old.items ++ flat_map tok_bytes (all_told labels.now tokens.now)) }
    ensures err { OnErr result (StaysInFront out.old.items out.new.items) }
{
    for token in tokens {
        put_token(out, labels, token)?;
    }
    Ok(())
}

// The tokens of an expression.
fn put_tokens(out: &mut Vec<u8>, labels: &[u32], tokens: &[Token]) -> Result<(), OutOfMemory>
    requires { AllByRecursion (IsWithin (length labels.now)) tokens.now }
    ensures ok { OnOk result
        (out.new.items ≡ out.old.items ++ flat_map tok_bytes (all_told labels.now tokens.now)) }
    ensures err { OnErr result (StaysInFront out.old.items out.new.items) }
{
    if tokens.len() < BUFFER_FROM {
        return put_unbuffered(out, labels, tokens);
    }
    put_buffered(out, labels, tokens)
}

/// What appending behind so many bytes answered. Where it was refused, the vector is cut back to these.
#[inline(always)]
pub(crate) fn or_undone(
    out: &mut Vec<u8>,
    start: usize,
    appended: Result<(), OutOfMemory>,
) -> Result<(), OutOfMemory>
    ensures same { result ≡ appended }
    ensures ok { OnOk appended (out.new.items ≡ out.old.items) }
    ensures err { OnErr appended (out.new.items ≡ take start out.old.items) }
{
    if appended.is_err() {
        out.truncate(start);
    }
    appended
}

// An expression: its tokens.
fn put_expr(out: &mut Vec<u8>, expr: &Expr) -> Result<(), OutOfMemory>
    ensures ok { OnOk result (out.new.items ≡ out.old.items ++ written_expr expr.now) }
    ensures err { OnErr result (StaysInFront out.old.items out.new.items) }
    ensures spells { (profile : Profile) → IsOf profile expr.now
        → SpellsExpr profile expr.now (written_expr expr.now) }
{
    let (tokens, labels) = expr.tokens();
    put_tokens(out, labels, tokens)
}

/// Appends the written form of an expression, which spells it. After a refusal `out` holds what it held before.
pub fn append_expr(out: &mut Vec<u8>, expr: &Expr) -> Result<(), OutOfMemory>
    ensures ok { OnOk result (out.new.items ≡ out.old.items ++ written_expr expr.now) }
    ensures err { OnErr result (out.new.items ≡ out.old.items) }
    ensures spells { (profile : Profile) → IsOf profile expr.now
        → SpellsExpr profile expr.now (written_expr expr.now) }
{
    let start = out.len();
    let appended = put_expr(out, expr);
    or_undone(out, start, appended)
}

fn put_groups(out: &mut Vec<u8>, groups: &[LocalGroup]) -> Result<(), OutOfMemory>
    ensures ok { OnOk result (out.new.items ≡ out.old.items ++ flat_map written_group groups.now) }
    ensures err { OnErr result (StaysInFront out.old.items out.new.items) }
{
    for group in groups {
        put_u32(out, group.count)?;
        put_byte(out, group.ty.byte())?;
    }
    Ok(())
}

// A body: its groups of locals behind their number, and its expression.
fn put_body(out: &mut Vec<u8>, body: &Body) -> Result<(), OutOfMemory>
    ensures ok { OnOk result (out.new.items ≡ out.old.items ++ written_body body.now) }
    ensures err { OnErr result (StaysInFront out.old.items out.new.items) }
    ensures spells { OnOk result
        ((profile : Profile) → IsOf profile body.now.instrs
        → SpellsBody profile body.now (written_body body.now)) }
{
    let groups = body.groups();
    put_u32(out, groups.len() as u32)?;
    put_groups(out, groups)?;
    put_expr(out, body.expr())
}

/// Appends the written form of a body, a code without its size, which spells it. After a refusal `out` holds what it held before.
pub fn append_body(out: &mut Vec<u8>, body: &Body) -> Result<(), OutOfMemory>
    ensures ok { OnOk result (out.new.items ≡ out.old.items ++ written_body body.now) }
    ensures err { OnErr result (out.new.items ≡ out.old.items) }
    ensures spells { OnOk result
        ((profile : Profile) → IsOf profile body.now.instrs
        → SpellsBody profile body.now (written_body body.now)) }
{
    let start = out.len();
    let appended = put_body(out, body);
    or_undone(out, start, appended)
}

/// The written form of an expression.
///
/// `TooLarge` is answered exactly where it is longer than 2,147,483,647 bytes, else `Memory` where a growth was refused. What is
/// written spells the expression in each profile that it belongs to.
pub fn encode_expr(alloc: Global, expr: &Expr) -> Result<Vec<u8>, EncodeFault>
    ensures exact { MatchResult result (λ v. (v.items ≡ written_expr expr.now) × Fits v.items)
        (Unwritten (written_expr expr.now)) }
    ensures spells { IfOk result
        (λ v. (profile : Profile) → IsOf profile expr.now → SpellsExpr profile expr.now v.items) }
{
    let Some(len) = expr_len(expr) else {
        return Err(EncodeFault::TooLarge);
    };
    let mut out = Vec::with_capacity(alloc, len as usize)?;
    append_expr(&mut out, expr)?;
    Ok(out)
}

/// The written form of a body: a code without its size.
///
/// `TooLarge` is answered exactly where it is longer than 2,147,483,647 bytes, else `Memory` where a growth was refused. What is
/// written spells the body in each profile that it belongs to.
pub fn encode_body(alloc: Global, body: &Body) -> Result<Vec<u8>, EncodeFault>
    ensures exact { MatchResult result (λ v. (v.items ≡ written_body body.now) × Fits v.items)
        (Unwritten (written_body body.now)) }
    ensures spells { IfOk result
        (λ v. (profile : Profile) → IsOf profile body.now.instrs
        → SpellsBody profile body.now v.items) }
{
    let Some(len) = body_len(body) else {
        return Err(EncodeFault::TooLarge);
    };
    let mut out = Vec::with_capacity(alloc, len as usize)?;
    append_body(&mut out, body)?;
    Ok(out)
}

/// The written form of a body that these bytes spell, answered as by [`encode_body`]: a copy of the bytes, where they are it.
///
/// A spelling is the written form exactly where it is as long. So this looks at each token where `encode_body` writes each.
pub fn code_bytes(alloc: Global, body: &Body, spelled: &[u8]) -> Result<Vec<u8>, EncodeFault>
    requires { (profile : Profile) × SpellsBody profile body.now spelled.now }
    ensures { MatchResult result (λ v. (v.items ≡ written_body body.now) × Fits v.items)
        (Unwritten (written_body body.now)) }
{
    // The proof asks what these two say: each byte is below 256, and a spelling as long as the written form is it.
    are_bytes(spelled);
    written_form_of_code();
    let Some(len) = body_len(body) else {
        return Err(EncodeFault::TooLarge);
    };
    if len as usize == spelled.len() {
        return Ok(Vec::from_slice(alloc, spelled)?);
    }
    encode_body(alloc, body)
}

/// The laws of the written form: it spells what it is made of, in each profile that this belongs to; no spelling is shorter, and one
/// that is as long is the same; and that of an expression is made of those of its tokens (`Token::head_len`), one after the other. It does nothing.
pub fn written_form_of_code()
    ensures expr { (profile : Profile) (t : Instrs) → IsShaped t → IsOf profile t
        → SpellsExpr profile t (written_expr t) }
    ensures body { (profile : Profile) (b : BodyOf) → AreGroups b.groups → IsShaped b.instrs
        → IsOf profile b.instrs → SpellsBody profile b (written_body b) }
    ensures least_expr { (profile : Profile) (t : Instrs) (bytes : List ℕ)
        → SpellsExpr profile t bytes → length (written_expr t) ≤ length bytes }
    ensures least_body { (profile : Profile) (b : BodyOf) (bytes : List ℕ)
        → SpellsBody profile b bytes → length (written_body b) ≤ length bytes }
    ensures only_expr { (profile : Profile) (t : Instrs) (bytes : List ℕ) → IsBytes bytes
        → SpellsExpr profile t bytes → length bytes ≡ length (written_expr t)
        → bytes ≡ written_expr t }
    ensures only_body { (profile : Profile) (b : BodyOf) (bytes : List ℕ) → IsBytes bytes
        → SpellsBody profile b bytes → length bytes ≡ length (written_body b)
        → bytes ≡ written_body b }
    ensures tokens { (t : Instrs) → flat_map tok_bytes (tokens_of t) ≡ written_expr t }
{}
