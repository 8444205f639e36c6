//! How long written forms are.

ghost use Rattle.std.specs.Prelude.{◌≡◌, ℕ, ◌+◌, ◌-◌, ◌*◌, ◌<◌, ◌≤◌, ◌^◌, length, min};
ghost use Rattle.std.specs.List.{flat_map, AllByRecursion};
ghost use Rattle.wk_bytes.specs.Short.{short, short_signed};
ghost use Rattle.wk_body.specs.Kept.{told, all_told, IsWithin};
ghost use Rattle.wk_body.specs.Lengths.{limited, GrowsBy};
ghost use Rattle.wk_body.specs.Operands.{operand_bytes, operands_of, AreCounted};
ghost use Rattle.wk_body.specs.Vectors.{written_vector};
ghost use Rattle.wk_body.specs.Written.{type_bytes, tok_bytes, written_expr, written_body, written_group};

use crate::body::Body;
use crate::expr::Expr;
use crate::operands::Operands;
use crate::token::Token;
use crate::types::{BlockType, LocalGroup};
use wk_bytes::{LIMIT, leb_len_s64, leb_len_u32};

// The bytes of an unsigned integer.
fn unsigned_len(x: u32) -> u64
    ensures len { result ≡ length (short x) }
    ensures few { result ≤ 5 }
{
    leb_len_u32(x) as u64
}

// The bytes of a signed integer.
fn signed_len(z: i64) -> u64
    ensures len { result ≡ length (short_signed z) }
    ensures few { result ≤ 10 }
{
    leb_len_s64(z) as u64
}

// The bytes of a block type.
pub(crate) fn type_len(ty: BlockType) -> u64
    ensures len { result ≡ length (type_bytes ty) }
    ensures few { result ≤ 10 }
{
    match ty {
        BlockType::Empty | BlockType::Value(_) => 1,
        BlockType::Index(x) => signed_len(i64::from(x)),
    }
}

// The bytes of an opcode and an index.
fn index_len(x: u32) -> u64
    ensures len { result ≡ 1 + length (short x) }
    ensures few { result ≤ 6 }
{
    1 + unsigned_len(x)
}

// The bytes of labels, each at most five.
fn labels_len(labels: &[u32]) -> u64
    requires { length labels.now < 2 ^ 32 }
    ensures len { result ≡ length (flat_map short labels.now) }
    ensures few { result ≤ 5 * length labels.now }
{
    let mut total = 0;
    for label in labels {
        total += unsigned_len(*label);
    }
    total
}

// The bytes of what stands behind an opcode.
#[inline(always)]
fn operands_len(operands: Operands<'_>) -> u64
    requires { AreCounted operands }
    ensures len { result ≡ length (operand_bytes (operands_of operands.entry)) }
    ensures few { result ≤ 2 ^ 35 }
{
    match operands {
        Operands::Nothing => 0,
        Operands::Reserved => 1,
        Operands::Index(x) => unsigned_len(x),
        Operands::IndexReserved(x) => unsigned_len(x) + 1,
        Operands::Labels { labels, other } => {
            unsigned_len(labels.len() as u32) + labels_len(labels) + unsigned_len(other)
        }
        Operands::Memarg { align, offset } => unsigned_len(align) + unsigned_len(offset),
        Operands::Signed32(z) => signed_len(i64::from(z)),
        Operands::Signed64(z) => signed_len(z),
        Operands::Word32(_) => 4,
        Operands::Word64(_) => 8,
        Operands::Opening(ty) => type_len(ty),
    }
}

impl Token {
    /// How many bytes this token has in the written form: of a `block`, `loop` or `if` the opcode and the block type alone. Its
    /// labels lie in the pool that its tokens were lent with.
    pub fn head_len(&self, labels: &[u32]) -> u64
        requires { IsWithin (length labels.now) self.now }
        ensures { result ≡ length (tok_bytes (told labels.now self.now)) }
    {
        self.len_in_loop(labels)
    }

    // The same, in line: a loop that does little else for a token makes no call.
    #[inline(always)]
    pub(crate) fn len_in_loop(&self, labels: &[u32]) -> u64
        requires { IsWithin (length labels.now) self.now }
        ensures { result ≡ length (tok_bytes (told labels.now self.now)) }
    {
        let (_opcode, operands) = self.operands(labels);
        1 + operands_len(operands)
    }
}

// A length with more added, or nothing past the limit.
fn plus(total: Option<u32>, more: u64) -> Option<u32>
    ensures { GrowsBy more total result }
{
    match total {
        Some(total) if total as usize <= LIMIT && more <= (LIMIT - total as usize) as u64 => {
            Some(total + more as u32)
        }
        _ => None,
    }
}

// How many bytes tokens have, or the greatest number where they have more. (One sum for all: a test for the limit at each token would
// be half of the loop.)
fn tokens_len(labels: &[u32], tokens: &[Token]) -> u64
    requires { AllByRecursion (IsWithin (length labels.now)) tokens.now }
    ensures { result
        ≡ min (length (flat_map tok_bytes (all_told labels.now tokens.now))) (2 ^ 64 - 1) }
{
    let mut total: u64 = 0;
    for token in tokens {
        total = total.saturating_add(token.len_in_loop(labels));
    }
    total
}

// A length with an expression added.
fn plus_expr(total: Option<u32>, expr: &Expr) -> Option<u32>
    ensures { GrowsBy (length (written_expr expr.now)) total result }
{
    let (tokens, labels) = expr.tokens();
    plus(total, tokens_len(labels, tokens))
}

// A length with local groups added.
fn plus_groups(total: Option<u32>, groups: &[LocalGroup]) -> Option<u32>
    ensures { GrowsBy (length (flat_map written_group groups.now)) total result }
{
    let mut all = total;
    for group in groups {
        all = plus(all, index_len(group.count));
    }
    all
}

/// How many bytes local groups have, with their count.
pub(crate) fn groups_len(groups: &[LocalGroup]) -> u64
    requires { length groups.now < 2 ^ 32 }
    ensures { result ≡ length (written_vector written_group groups.now) }
{
    let mut total = unsigned_len(groups.len() as u32);
    for group in groups {
        total += index_len(group.count);
    }
    total
}

/// How many bytes the written form of an expression has, or nothing past 2,147,483,647. It takes no memory.
pub fn expr_len(expr: &Expr) -> Option<u32>
    ensures { result ≡ limited (length (written_expr expr.now)) }
{
    plus_expr(Some(0), expr)
}

/// How many bytes the written form of a body has, a code without its size, or nothing past 2,147,483,647. It takes no memory.
pub fn body_len(body: &Body) -> Option<u32>
    ensures { result ≡ limited (length (written_body body.now)) }
{
    let groups = body.groups();
    let total = plus(Some(0), unsigned_len(groups.len() as u32));
    plus_expr(plus_groups(total, groups), body.expr())
}
