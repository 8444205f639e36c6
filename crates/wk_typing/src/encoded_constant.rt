//! What is wrong with a constant expression that is still to be read.

ghost use Rattle.std.specs.Prelude.{◌≡◌, IfErr, OnErr};
ghost use Rattle.wk_bytes.specs.Stands.{StandsOrMemory};
ghost use Rattle.wk_body.specs.Reading.{expr_at};
ghost use Rattle.wk_body.specs.Reads.{Parses};
ghost use Rattle.wk_module.specs.Formats.{made_at};
ghost use Rattle.wk_typing.specs.Constants.{constant_flaw};

use crate::constant::constant_flaw;
use crate::encoded_body::Rooms;
use crate::env::Scope;
use crate::fast_constant::pass_constant;
use crate::fault::Flaw;
use std::alloc::Global;
use wk_bytes::{Cursor, ReadFault};
use wk_module::{Profile, ValType};

// Reads the expression, and asks what is wrong with it.
#[tactic(auto, unfolding(wk_module::specs::Formats::made_at))]
fn read_and_type<E: Scope>(
    alloc: Global,
    env: &E,
    ty: ValType,
    profile: Profile,
    cursor: &mut Cursor<'_>,
    rooms: &mut Rooms,
) -> Result<Option<Flaw>, ReadFault>
    ensures exact { Parses (λ w. w)
        (made_at (constant_flaw (E.answers env.now) ty) (expr_at profile)) cursor.old result
        cursor.new }
    ensures fault { IfErr result (λ e. StandsOrMemory cursor.old e) }
{
    let expr = rooms.scratch.next_expr(alloc, cursor, profile)?;
    Ok(constant_flaw(env, ty, &expr, &mut rooms.room)?)
}

/// Reads a constant expression (5.4.6): the initialiser of a global or the offset of a segment. The answer is what is wrong with it
/// where it has to give this type (3.3.7.2): the first token that is not constant, else the first fault of typing. The cursor then
/// stands behind it.
///
/// A constant of that type and its end take no memory (no clause says so).
///
/// # Errors
///
/// Where no expression of the profile is at the front, the first fault from left to right, at its offset in the whole input; `Memory`
/// at 0 where a growth was refused. The cursor is then as before.
pub fn next_constant_flaw<E: Scope>(
    alloc: Global,
    env: &E,
    ty: ValType,
    profile: Profile,
    cursor: &mut Cursor<'_>,
    rooms: &mut Rooms,
) -> Result<Option<Flaw>, ReadFault>
    ensures exact { Parses (λ w. w)
        (made_at (constant_flaw (E.answers env.now) ty) (expr_at profile)) cursor.old result
        cursor.new }
    ensures fault { IfErr result (λ e. StandsOrMemory cursor.old e) }
    ensures left { OnErr result (cursor.new ≡ cursor.old) }
{
    let mut ahead = cursor.ahead();
    if pass_constant(ty, &mut ahead) {
        *cursor = ahead;
        return Ok(None);
    }
    let mut ahead = cursor.ahead();
    let flaw = read_and_type(alloc, env, ty, profile, &mut ahead, rooms)?;
    *cursor = ahead;
    Ok(flaw)
}
