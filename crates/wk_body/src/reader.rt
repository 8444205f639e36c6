//! Reads whole expressions and bodies, and the expression at the front of a cursor.

ghost use Rattle.std.specs.Prelude.{◌≡◌, ◌≢◌, ◌<◌, ◌≤◌, ℕ, List, [], length, IfOk, IfErr, MatchResult};
ghost use Rattle.wk_bytes.specs.declared.fault.ReadKind.TheVariants.{BodySize};
ghost use Rattle.wk_bytes.specs.Fault.{long_input};
ghost use Rattle.wk_bytes.specs.Span.{fault};
ghost use Rattle.wk_bytes.specs.Stands.{StandsInCode, StandsOrMemory};
ghost use Rattle.wk_body.specs.ValTypes.{valtype_at};
ghost use Rattle.wk_body.specs.Reads.{FailsAs, Parses, Reads};
ghost use Rattle.wk_body.specs.Reading.{groups_at, body_at, expr_at, all_expr_at, all_body_at, whole_at};
ghost use Rattle.wk_body.specs.Shape.{IsOf, IsShaped};
ghost use Rattle.wk_body.specs.Spelling.{SpellsExpr, SpellsBody};
ghost use Rattle.wk_bytes.specs.LebLaws.{IsBytes};
ghost use Rattle.wk_body.specs.Tree.{Instrs};
ghost use Rattle.wk_body.specs.Meaning.{FindsOnly, Takes, TakesOnly, SpellOnce, SpellAlike, IsReadAs, IsAllReadAs, NeverMemory};

use crate::body::Body;
use crate::expr::Expr;
use crate::reading::{are_bytes, read_front};
use crate::scratch::Scratch;
use crate::types::{LocalGroup, Profile, ValType};
use std::alloc::Global;
use wk_bytes::{Cursor, LIMIT, ReadFault, ReadKind};

impl Scratch {
    /// Reads the expression at the front of what the cursor has left, and moves past it (5.4.6).
    ///
    /// It is the one front that spells an expression of the profile. A refusal leaves the cursor as it was: the first fault from
    /// left to right, which says that no front spells one, or `Memory` at 0 where a growth was refused.
    pub fn next_expr(
        &mut self,
        alloc: Global,
        cursor: &mut Cursor<'_>,
        profile: Profile,
    ) -> Result<Expr, ReadFault>
        ensures exact { Takes (λ e. e) (expr_at profile) cursor.old result cursor.new }
        ensures only { TakesOnly (λ e. e) (SpellsExpr profile) cursor.old result cursor.new }
        ensures profile { IfOk result (IsOf profile) }
        ensures fault { IfErr result (λ e. StandsOrMemory cursor.old e) }
    {
        // The proof asks what this says: each byte is below 256.
        are_bytes(cursor.rest());
        let mut ahead = cursor.ahead();
        let expr = read_front(alloc, self, profile, &mut ahead)?;
        *cursor = ahead;
        Ok(expr)
    }
}

// A local group's type.
#[tactic(auto, unfolding(crate::specs::ValTypes::valtype_at))]
pub(crate) fn local_type(cursor: &mut Cursor<'_>) -> Result<ValType, ReadFault>
    ensures { Parses (λ x. x) valtype_at cursor.old result cursor.new }
{
    let at = cursor.at();
    let byte = cursor.byte()?;
    ValType::from_byte(byte).ok_or(ReadFault {
        kind: ReadKind::BadByte,
        at,
    })
}

// So many local groups, which are all that the room holds then. No room is made for a count.
pub(crate) fn groups_of(
    groups: &mut Vec<LocalGroup>,
    count: u32,
    cursor: &mut Cursor<'_>,
) -> Result<(), ReadFault>
    ensures { MatchResult result
        (λ _. (groups_at count 0 cursor.old.end cursor.old.rest
        ≡ Ok (groups.new.items, cursor.new.rest))
        × (cursor.new.end ≡ cursor.old.end))
        (λ e. FailsAs e e.kind (groups_at count 0 cursor.old.end cursor.old.rest)) }
{
    groups.clear();
    let mut declared: u32 = 0;
    for _ in 0..count {
        let at = cursor.at();
        let count = cursor.u32()?;
        let Some(sum) = declared.checked_add(count) else {
            return Err(ReadFault {
                kind: ReadKind::TooManyLocals,
                at,
            });
        };
        let ty = local_type(cursor)?;
        groups.push(LocalGroup { count, ty })?;
        declared = sum;
    }
    Ok(())
}

// A body at the front.
#[tactic(auto, unfolding(crate::specs::Reading::body_at))]
fn body_front(
    alloc: Global,
    scratch: &mut Scratch,
    profile: Profile,
    cursor: &mut Cursor<'_>,
) -> Result<Body, ReadFault>
    ensures { Parses (λ b. b) (body_at profile) cursor.old result cursor.new }
{
    let count = cursor.u32()?;
    // The proof asks what this says: each byte is below 256.
    are_bytes(cursor.rest());
    let mut groups = Vec::new(alloc);
    groups_of(&mut groups, count, cursor)?;
    let instrs = read_front(alloc, scratch, profile, cursor)?;
    Ok(Body::of(groups, instrs))
}

// What was read took all of the bytes.
pub(crate) fn at_end(cursor: &Cursor<'_>) -> Result<(), ReadFault>
    ensures { MatchResult result
        (λ _. cursor.now.rest ≡ [])
        (λ e. (e ≡ fault BodySize cursor.now.end cursor.now.rest) × (cursor.now.rest ≢ [])) }
{
    if !cursor.rest().is_empty() {
        return Err(cursor.fault(ReadKind::BodySize));
    }
    Ok(())
}

impl Scratch {
    /// Reads a code without its size (5.5.13): all that the cursor has left is a body of the profile.
    ///
    /// The body is the only one that the bytes spell. A refusal is the first fault from left to right, which says that they spell
    /// none, or `Memory` at 0 where a growth was refused.
    #[tactic(auto, unfolding(crate::specs::Reading::all_body_at))]
    pub fn read_body(
        &mut self,
        alloc: Global,
        cursor: &Cursor<'_>,
        profile: Profile,
    ) -> Result<Body, ReadFault>
        ensures exact { Reads (λ b. b) result (all_body_at profile cursor.now.end cursor.now.rest) }
        ensures only { FindsOnly (λ b. b) (SpellsBody profile) cursor.now.rest result }
        ensures profile { IfOk result (λ b. IsOf profile b.instrs) }
        ensures fault { IfErr result (λ e. StandsOrMemory cursor.now e) }
    {
        // The proof asks what these two say: each byte is below 256, and the bytes are few.
        are_bytes(cursor.rest());
        let _at = cursor.at();
        let mut ahead = cursor.ahead();
        let body = body_front(alloc, self, profile, &mut ahead)?;
        at_end(&ahead)?;
        Ok(body)
    }
}

// The fault of an input with more bytes than a module may have.
fn check_len(bytes: &[u8]) -> Result<(), ReadFault>
    ensures { MatchResult result
        (λ _. length bytes.now ≤ LIMIT)
        (λ e. (e ≡ long_input) × (LIMIT < length bytes.now)) }
{
    if bytes.len() > LIMIT {
        return Err(ReadFault {
            kind: ReadKind::LongInput,
            at: LIMIT as u32,
        });
    }
    Ok(())
}

/// Reads a body of a profile: a code without its size (5.5.13), which is all of the bytes.
///
/// The body is the only one that the bytes spell. Where they spell none the answer is the first fault from left to right, at its
/// offset in `bytes`; where a growth is refused it is `Memory`, at 0.
#[tactic(auto, unfolding(crate::specs::Reading::whole_at))]
pub fn read_body_in(alloc: Global, bytes: &[u8], profile: Profile) -> Result<Body, ReadFault>
    ensures exact { Reads (λ b. b) result (whole_at (all_body_at profile) bytes.now) }
    ensures only { FindsOnly (λ b. b) (SpellsBody profile) bytes.now result }
    ensures profile { IfOk result (λ b. IsOf profile b.instrs) }
    ensures fault { IfErr result (λ e. StandsInCode bytes.now e) }
{
    check_len(bytes)?;
    Scratch::new(alloc).read_body(alloc, &Cursor::new(bytes), profile)
}

/// Reads a body of WebAssembly 1.0, as [`read_body_in`] does.
pub fn read_body(alloc: Global, bytes: &[u8]) -> Result<Body, ReadFault>
    ensures exact { Reads (λ b. b) result (whole_at (all_body_at Profile.Core) bytes.now) }
    ensures only { FindsOnly (λ b. b) (SpellsBody Profile.Core) bytes.now result }
    ensures profile { IfOk result (λ b. IsOf Profile.Core b.instrs) }
    ensures fault { IfErr result (λ e. StandsInCode bytes.now e) }
{
    read_body_in(alloc, bytes, Profile::Core)
}

// All that the cursor has left is an expression.
#[tactic(auto, unfolding(crate::specs::Reading::all_expr_at))]
fn expr_whole(alloc: Global, cursor: &Cursor<'_>, profile: Profile) -> Result<Expr, ReadFault>
    ensures { Reads (λ e. e) result (all_expr_at profile cursor.now.end cursor.now.rest) }
{
    let mut ahead = cursor.ahead();
    let expr = read_front(alloc, &mut Scratch::new(alloc), profile, &mut ahead)?;
    at_end(&ahead)?;
    Ok(expr)
}

/// Reads an expression of a profile (5.4.6), which is all of the bytes.
///
/// The expression is the only one that the bytes spell. Where they spell none the answer is the first fault from left to right,
/// at its offset in `bytes`; where a growth is refused it is `Memory`, at 0.
#[tactic(auto, unfolding(crate::specs::Reading::whole_at))]
pub fn read_expr_in(alloc: Global, bytes: &[u8], profile: Profile) -> Result<Expr, ReadFault>
    ensures exact { Reads (λ e. e) result (whole_at (all_expr_at profile) bytes.now) }
    ensures only { FindsOnly (λ e. e) (SpellsExpr profile) bytes.now result }
    ensures profile { IfOk result (IsOf profile) }
    ensures fault { IfErr result (λ e. StandsInCode bytes.now e) }
{
    check_len(bytes)?;
    expr_whole(alloc, &Cursor::new(bytes), profile)
}

/// Reads an expression of WebAssembly 1.0, as [`read_expr_in`] does.
pub fn read_expr(alloc: Global, bytes: &[u8]) -> Result<Expr, ReadFault>
    ensures exact { Reads (λ e. e) result (whole_at (all_expr_at Profile.Core) bytes.now) }
    ensures only { FindsOnly (λ e. e) (SpellsExpr Profile.Core) bytes.now result }
    ensures profile { IfOk result (IsOf Profile.Core) }
    ensures fault { IfErr result (λ e. StandsInCode bytes.now e) }
{
    read_expr_in(alloc, bytes, Profile::Core)
}

/// Reads the expression at the front of what the cursor has left, as [`Scratch::next_expr`] does, in a room of its own.
pub fn next_expr_in(
    alloc: Global,
    cursor: &mut Cursor<'_>,
    profile: Profile,
) -> Result<Expr, ReadFault>
    ensures exact { Takes (λ e. e) (expr_at profile) cursor.old result cursor.new }
    ensures only { TakesOnly (λ e. e) (SpellsExpr profile) cursor.old result cursor.new }
    ensures profile { IfOk result (IsOf profile) }
    ensures fault { IfErr result (λ e. StandsOrMemory cursor.old e) }
{
    Scratch::new(alloc).next_expr(alloc, cursor, profile)
}

/// Reads the expression of WebAssembly 1.0 at the front, as [`next_expr_in`] does.
pub fn next_expr(alloc: Global, cursor: &mut Cursor<'_>) -> Result<Expr, ReadFault>
    ensures exact { Takes (λ e. e) (expr_at Profile.Core) cursor.old result cursor.new }
    ensures only { TakesOnly (λ e. e) (SpellsExpr Profile.Core) cursor.old result cursor.new }
    ensures profile { IfOk result (IsOf Profile.Core) }
    ensures fault { IfErr result (λ e. StandsOrMemory cursor.old e) }
{
    next_expr_in(alloc, cursor, Profile::Core)
}

/// The laws that make bodies and expressions readable in one way: no bytes spell two, no spelling begins another, and what is
/// spelled in 1.0 is spelled so in the other profile. It does nothing.
pub fn one_spelling_of_code()
    ensures expr { (profile : Profile) → SpellOnce (SpellsExpr profile) }
    ensures body { (profile : Profile) → SpellOnce (SpellsBody profile) }
    ensures same_expr { SpellAlike SpellsExpr }
    ensures same_body { SpellAlike SpellsBody }
{}

/// The laws of reading: what is read is what the grammar spells, in its one way, and is of the profile; a fault stands in the
/// bytes; and what reading gives is never want of memory. It does nothing.
pub fn reading_of_code()
    ensures expr { (profile : Profile) → IsReadAs (SpellsExpr profile) (expr_at profile) }
    ensures body { (profile : Profile) → IsAllReadAs (SpellsBody profile) (all_body_at profile) }
    ensures all_expr { (profile : Profile)
        → IsAllReadAs (SpellsExpr profile) (all_expr_at profile) }
    ensures expr_shape { (profile : Profile) (t : Instrs) (bytes : List ℕ) → IsBytes bytes
        → SpellsExpr profile t bytes → IsShaped t × IsOf profile t }
    ensures never_memory_expr { (profile : Profile) → NeverMemory (all_expr_at profile) }
    ensures never_memory_body { (profile : Profile) → NeverMemory (all_body_at profile) }
{}
