//! The line of a token in the code listing.

ghost use Rattle.std.specs.Prelude.{◌≡◌, ◌<◌, ◌≤◌, ◌+◌, ◌^◌, ◌++◌, List, ℕ, codes, length, IfOk, OnOk};
ghost use Rattle.std.specs.Fmt.{signed_decimal};
ghost use Rattle.wk_body.specs.Instructions.{Memarg};
ghost use Rattle.wk_body.specs.Kept.{told, IsWithin};
ghost use Rattle.wk_body.specs.Operands.{operands_of};
ghost use Rattle.wk_list.specs.CodeText.{immediates_text, type_text, code_line};
ghost use Rattle.wk_list.specs.TokenText.{tok_text, behind_name, operands_text, stands_at, open_after};

use crate::rows::put_field;
use crate::text::{put_all_spaced, put_hex8, put_hex16, put_signed, put_spaced, put_spaces};
use crate::typetext::valtype_name;
use std::alloc::Global;
use wk_body::Operands;
use wk_bytes::OutOfMemory;
use wk_module::{BlockType, Token};

// The type of a block.
fn put_type(text: &mut Vec<u8>, ty: BlockType) -> Result<(), OutOfMemory>
    ensures { OnOk result (text.new.items ≡ text.old.items ++ type_text ty) }
{
    match ty {
        BlockType::Empty => Ok(()),
        BlockType::Value(ty) => {
            text.extend_from_slice(b" ")?;
            text.extend_from_slice(valtype_name(ty).as_bytes())?;
            Ok(())
        }
        BlockType::Index(x) => put_field(text, " type=", x),
    }
}

// An alignment and an offset.
fn put_memarg(text: &mut Vec<u8>, align: u32, offset: u32) -> Result<(), OutOfMemory>
    ensures { OnOk result
        (text.new.items ≡ text.old.items ++ immediates_text (Memarg align offset)) }
{
    put_field(text, " align=", align)?;
    put_field(text, " offset=", offset)
}

// A signed number after a space.
fn put_integer(text: &mut Vec<u8>, z: i64) -> Result<(), OutOfMemory>
    ensures { OnOk result (text.new.items ≡ text.old.items ++ (codes " " ++ signed_decimal z)) }
{
    text.extend_from_slice(b" ")?;
    put_signed(text, z)
}

// What is listed of operands.
fn put_operands(text: &mut Vec<u8>, operands: Operands<'_>) -> Result<(), OutOfMemory>
    ensures { OnOk result
        (text.new.items ≡ text.old.items ++ operands_text (operands_of operands.entry)) }
{
    match operands {
        Operands::Nothing | Operands::Reserved => Ok(()),
        Operands::Index(x) => put_spaced(text, x),
        Operands::IndexReserved(x) => put_field(text, " type=", x),
        Operands::Labels { labels, other } => {
            put_all_spaced(text, labels)?;
            put_spaced(text, other)
        }
        Operands::Memarg { align, offset } => put_memarg(text, align, offset),
        Operands::Signed32(z) => put_integer(text, i64::from(z)),
        Operands::Signed64(z) => put_integer(text, z),
        Operands::Word32(word) => {
            text.extend_from_slice(b" 0x")?;
            put_hex8(text, word)
        }
        Operands::Word64(word) => {
            text.extend_from_slice(b" 0x")?;
            put_hex16(text, word)
        }
        Operands::Opening(ty) => put_type(text, ty),
    }
}

// What stands behind the name of a token.
fn put_immediates(text: &mut Vec<u8>, labels: &[u32], token: &Token) -> Result<(), OutOfMemory>
    requires { IsWithin (length labels.now) token.now }
    ensures { OnOk result
        (text.new.items ≡ text.old.items ++ behind_name (told labels.now token.now)) }
{
    let (_opcode, operands) = token.operands(labels);
    put_operands(text, operands)
}

/// Where the line of a token stands: at the offset of the token, inside so many open blocks.
#[derive(Clone, Copy)]
pub(crate) struct Place {
    pub(crate) at: u32,
    pub(crate) depth: usize,
}

/// The depth at which a token stands inside so many open blocks, and how many are open behind it.
pub(crate) fn depths(token: &Token, depth: usize) -> (usize, usize)
    requires { depth < 2 ^ 32 }
    ensures here { (pool : List ℕ) → result.0 ≡ stands_at depth (told pool token.now) }
    ensures behind { (pool : List ℕ) → result.1 ≡ open_after depth (told pool token.now) }
    ensures near { (result.0 ≤ depth) × (result.1 ≤ depth + 1) }
{
    match *token {
        Token::Block { .. } | Token::Loop { .. } | Token::If { .. } => (depth, depth + 1),
        Token::Else { .. } => (depth.saturating_sub(1), depth),
        Token::End => (depth.saturating_sub(1), depth.saturating_sub(1)),
        _ => (depth, depth),
    }
}

// The name of a token and what stands behind it. Its labels lie in the pool.
fn put_text(text: &mut Vec<u8>, labels: &[u32], token: &Token) -> Result<(), OutOfMemory>
    requires { IsWithin (length labels.now) token.now }
    ensures { OnOk result
        (text.new.items ≡ text.old.items ++ tok_text (told labels.now token.now)) }
{
    text.extend_from_slice(token.name().as_bytes())?;
    put_immediates(text, labels, token)
}

/// The name of a token and its immediates, as a line of the code listing has them after the offset: `local.get 39`, `call_indirect type=2`.
/// The labels of a `br_table` lie in `labels`.
///
/// # Errors
///
/// Want of memory.
pub fn token_text(alloc: Global, labels: &[u32], token: &Token) -> Result<Vec<u8>, OutOfMemory>
    requires { IsWithin (length labels.now) token.now }
    ensures { IfOk result (λ text. text.items ≡ tok_text (told labels.now token.now)) }
{
    let mut text = Vec::new(alloc);
    put_text(&mut text, labels, token)?;
    Ok(text)
}

/// The line of a token at a place. Its labels lie in the pool.
#[tactic(auto, unfolding(crate::specs::CodeText::code_line))]
pub(crate) fn put_line(
    text: &mut Vec<u8>,
    labels: &[u32],
    token: &Token,
    place: Place,
) -> Result<(), OutOfMemory>
    requires within { IsWithin (length labels.now) token.now }
    requires shallow { place.depth < 2 ^ 32 }
    ensures { OnOk result
        (text.new.items
        ≡ text.old.items
        ++ code_line place.at place.depth (tok_text (told labels.now token.now))) }
{
    text.extend_from_slice(b" ")?;
    put_hex8(text, place.at)?;
    text.extend_from_slice(b": ")?;
    put_spaces(text, 2 * place.depth)?;
    put_text(text, labels, token)?;
    text.extend_from_slice(b"\n")?;
    Ok(())
}
