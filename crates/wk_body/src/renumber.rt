//! References that move, as an import of their kind is put in before them.

ghost use Rattle.std.specs.Prelude.{◌≡◌, ◌||◌, [], map, true, false, IfOk, MatchResult};
ghost use Rattle.std.specs.List.{flat_map};
ghost use Rattle.wk_body.specs.declared.renumber.ShiftFault.TheVariants.{Overflow, Memory as no_memory};
ghost use Rattle.wk_body.specs.Kept.{told, all_told};
ghost use Rattle.wk_body.specs.Shape.{IsOf};
ghost use Rattle.wk_body.specs.References.{refs_of, tok_refs, moved, shift_instrs, shift_body, is_stuck_at, any_stuck, IsRefused};
ghost use Rattle.wk_body.specs.Moved.{moved_kept};
ghost use Rattle.wk_body.specs.Moves.{index_movement, movement_of, ShiftKeepsShape, ShiftKeepsProfile, StayUnmoved, MoveAlike};

use crate::body::Body;
use crate::expr::Expr;
use crate::token::Token;
use crate::types::Profile;
use std::alloc::{AllocError, AllocFailed, Global};
use wk_bytes::OutOfMemory;

/// The kind of the references that move.
#[derive(Clone, Copy, Debug, PartialEq, Eq)]
pub enum Moving {
    Func,
    Global,
}

/// Why references did not move.
#[derive(Clone, Copy, Debug, PartialEq, Eq)]
pub enum ShiftFault {
    /// A reference that would move is 4,294,967,295.
    Overflow,
    /// A growth was refused.
    Memory,
}

impl From<AllocError> for ShiftFault {
    ghost from_gives = { λ _ e. e ≡ no_memory };

    fn from(_e: AllocError) -> ShiftFault {
        ShiftFault::Memory
    }
}

impl<T: Drop> From<AllocFailed<T>> for ShiftFault {
    ghost from_gives = { λ _ e. e ≡ no_memory };

    fn from(_e: AllocFailed<T>) -> ShiftFault {
        ShiftFault::Memory
    }
}

impl From<OutOfMemory> for ShiftFault {
    ghost from_gives = { λ _ e. e ≡ no_memory };

    fn from(_e: OutOfMemory) -> ShiftFault {
        ShiftFault::Memory
    }
}

/// What moves of things that hold references.
#[derive(Clone, Copy, Debug, PartialEq, Eq)]
pub struct Movement {
    /// Whether a reference moves.
    pub moves: bool,
    /// Whether one that moves is 4,294,967,295, which has no next.
    pub stuck: bool,
}

impl Movement {
    /// That of things that hold no reference.
    pub const NONE: Movement = Movement {
        moves: false,
        stuck: false,
    };

    /// That of an index of the kind that moves, from `from` on.
    pub fn of_index(from: u32, x: u32) -> Movement
        ensures { result ≡ index_movement from x }
    {
        Movement {
            moves: from <= x,
            stuck: from <= x && x == u32::MAX,
        }
    }

    /// That of both.
    pub fn or(self, other: Movement) -> Movement
        ensures { result
            ≡ record { moves = self.moves || other.moves; stuck = self.stuck || other.stuck } }
    {
        Movement {
            moves: self.moves || other.moves,
            stuck: self.stuck || other.stuck,
        }
    }
}

/// An index of the kind that moves, after an import of it was put in at the index `from`.
pub fn shift_index(from: u32, x: u32) -> Result<u32, ShiftFault>
    ensures { MatchResult result
        (λ y. (y ≡ moved from x) × (is_stuck_at from x ≡ false))
        (λ e. (e ≡ Overflow) × (is_stuck_at from x ≡ true)) }
{
    if x < from {
        return Ok(x);
    }
    x.checked_add(1).ok_or(ShiftFault::Overflow)
}

// An index of the kind that moves and has a next, moved.
pub(crate) fn next_index(from: u32, x: u32) -> u32
    requires { is_stuck_at from x ≡ false }
    ensures { result ≡ moved from x }
{
    if from <= x { x + 1 } else { x }
}

// Moves the reference of a token, which has a next where it moves.
fn shift_token(kind: Moving, from: u32, token: &mut Token)
    requires { any_stuck kind from (tok_refs (told [] token.old)) ≡ false }
    ensures { token.new ≡ moved_kept kind from token.old }
{
    match (kind, *token) {
        (Moving::Func, Token::Call(x)) => *token = Token::Call(next_index(from, x)),
        (Moving::Global, Token::GlobalGet(x)) => *token = Token::GlobalGet(next_index(from, x)),
        (Moving::Global, Token::GlobalSet(x)) => *token = Token::GlobalSet(next_index(from, x)),
        _ => {}
    }
}

// Moves the references of tokens where they stand.
pub(crate) fn shift_tokens(kind: Moving, from: u32, tokens: &mut [Token])
    requires { any_stuck kind from (flat_map tok_refs (all_told [] tokens.old)) ≡ false }
    ensures { tokens.new ≡ map (moved_kept kind from) tokens.old }
{
    for token in tokens.iter_mut() {
        shift_token(kind, from, token);
    }
}

// What moves of a token.
#[inline(always)]
fn token_movement(kind: Moving, from: u32, token: &Token) -> Movement
    ensures { result ≡ movement_of kind from (tok_refs (told [] token.now)) }
{
    match (kind, *token) {
        (Moving::Func, Token::Call(x))
        | (Moving::Global, Token::GlobalGet(x))
        | (Moving::Global, Token::GlobalSet(x)) => Movement::of_index(from, x),
        _ => Movement::NONE,
    }
}

// What moves of tokens.
fn tokens_movement(kind: Moving, from: u32, tokens: &[Token]) -> Movement
    ensures { result ≡ movement_of kind from (flat_map tok_refs (all_told [] tokens.now)) }
{
    let mut found = Movement::NONE;
    for token in tokens {
        found = found.or(token_movement(kind, from, token));
    }
    found
}

/// What moves of an expression, or of the instructions of a body. It takes no memory.
pub fn expr_movement(expr: &Expr, kind: Moving, from: u32) -> Movement
    ensures { result ≡ movement_of kind from (refs_of expr.now) }
{
    let (tokens, _) = expr.tokens();
    tokens_movement(kind, from, tokens)
}

// An expression with its references moved.
fn moved_expr(alloc: Global, expr: &Expr, kind: Moving, from: u32) -> Result<Expr, ShiftFault>
    ensures { MatchResult result
        (λ e. (any_stuck kind from (refs_of expr.now) ≡ false)
        × (e ≡ shift_instrs kind from expr.now))
        (λ e. IsRefused e (any_stuck kind from (refs_of expr.now))) }
{
    if expr_movement(expr, kind, from).stuck {
        return Err(ShiftFault::Overflow);
    }
    let mut moved = expr.clone()?;
    moved.shift_in_place(kind, from);
    Ok(moved)
}

/// The body after an import of the kind was put in at the index `from`: each reference of the kind to `from` or above is one
/// more.
///
/// `Overflow` is answered exactly where such a reference is 4,294,967,295, which has no next; else `Memory` where a growth was
/// refused. A body of a profile stays one of it.
pub fn shift(alloc: Global, body: &Body, kind: Moving, from: u32) -> Result<Body, ShiftFault>
    ensures exact { MatchResult result
        (λ b. (any_stuck kind from (refs_of body.now.instrs) ≡ false)
        × (b ≡ shift_body kind from body.now))
        (λ e. IsRefused e (any_stuck kind from (refs_of body.now.instrs))) }
    ensures profile { IfOk result
        (λ b. (profile : Profile) → IsOf profile body.now.instrs → IsOf profile b.instrs) }
{
    let instrs = moved_expr(alloc, body.expr(), kind, from)?;
    let groups = Vec::from_slice(alloc, body.groups())?;
    Ok(Body::of(groups, instrs))
}

/// Makes the body what [`shift`] answers, in its place. It takes no memory.
pub fn shift_in_place(body: &mut Body, kind: Moving, from: u32)
    requires { any_stuck kind from (refs_of body.old.instrs) ≡ false }
    ensures exact { body.new ≡ shift_body kind from body.old }
    ensures profile { (profile : Profile) → IsOf profile body.old.instrs
        → IsOf profile body.new.instrs }
{
    // The proof asks what this says: what has moved is of the same profile.
    moving_of_code();
    body.shift_in_place(kind, from);
}

/// The expression after an import of a global was put in at the index `from`, as [`shift`] of a body.
pub fn shift_expr(alloc: Global, expr: &Expr, from: u32) -> Result<Expr, ShiftFault>
    ensures exact { MatchResult result
        (λ e. (any_stuck Moving.Global from (refs_of expr.now) ≡ false)
        × (e ≡ shift_instrs Moving.Global from expr.now))
        (λ e. IsRefused e (any_stuck Moving.Global from (refs_of expr.now))) }
    ensures profile { IfOk result
        (λ e. (profile : Profile) → IsOf profile expr.now → IsOf profile e) }
{
    moved_expr(alloc, expr, Moving::Global, from)
}

/// The laws of moving: what has moved is as deep and in range as before, and of the same profile; where nothing moves, all stays;
/// and of what [`uses`](crate::uses) finds there moves what moves of the body. It does nothing.
pub fn moving_of_code()
    ensures shape { ShiftKeepsShape }
    ensures profile { ShiftKeepsProfile }
    ensures stays { StayUnmoved }
    ensures uses { MoveAlike }
{}
