//! Typing instructions, token by token (3.3, 3.4.1).

ghost use Rattle.std.specs.Prelude.{◌≡◌, ◌<◌, ◌^◌, length, IfOk};
ghost use Rattle.std.specs.List.{AllByRecursion};
ghost use Rattle.wk_body.specs.Kept.{all_told, IsWithin};
ghost use Rattle.wk_typing.specs.Effects.{local_type, results_of};
ghost use Rattle.wk_typing.specs.Levels.{run};
ghost use Rattle.wk_typing.specs.Moves.{RunsTo, JudgedAs};
ghost use Rattle.wk_typing.specs.Typing.{code_result, body_verdict};

use crate::control::{check_end, check_known, params, results};
use crate::env::Scope;
use crate::fault::{BodyVerdict, FaultKind};
use crate::locals::{Locals, LocalsRoom};
use crate::stacks::Stacks;
use crate::step::{Function, type_token};
use crate::stop::Stop;
use std::alloc::Global;
use std::marker::Model;
use wk_bytes::OutOfMemory;
use wk_module::{BlockType, Body, Expr, Token};

/// The room in which code is typed: an operand stack, the control frames, and the locals of a body. It is used again from one body to
/// the next, and its value is the unit, since no verdict depends on what it holds.
#[derive(Debug, Drop)]
pub struct Room {
    pub(crate) stacks: Stacks,
    locals: LocalsRoom,
}

impl Model for Room {
    ghost Value = { Unit {0} };

    ghost view = { λ _. tt };
}

impl Room {
    /// Room that is still to grow: it takes no memory yet.
    pub fn new(alloc: Global) -> Room {
        Room {
            stacks: Stacks::new(alloc),
            locals: LocalsRoom::new(alloc),
        }
    }
}

// Types tokens in order: the first fault and its token, or none.
fn type_tokens<E: Scope>(
    env: &E,
    f: &Function<'_>,
    pool: &[u32],
    s: &mut Stacks,
    tokens: &[Token],
) -> Result<Option<(FaultKind, u32)>, OutOfMemory>
    requires few { length tokens.now < 2 ^ 32 }
    requires within { AllByRecursion (IsWithin (length pool.now)) tokens.now }
    ensures { IfOk result
        (λ r. RunsTo
        (run (E.answers env.now) (local_type f.now.locals.params f.now.locals.groups)
        f.now.results.now 0 (all_told pool.now tokens.now) s.old)
        r s.new) }
{
    let mut at: u32 = 0;
    for token in tokens {
        match type_token(env, f, pool, s, token) {
            Ok(()) => {
                at += 1;
            }
            Err(Stop::Fault(kind)) => {
                return Ok(Some((kind, at)));
            }
            Err(Stop::Memory) => {
                return Err(OutOfMemory);
            }
        }
    }
    Ok(None)
}

/// Types instructions up to their last end, as a block of this type: the first fault and its token, or none.
pub(crate) fn type_code<E: Scope>(
    env: &E,
    f: &Function<'_>,
    block: BlockType,
    expr: &Expr,
    s: &mut Stacks,
) -> Result<Option<(FaultKind, u32)>, OutOfMemory>
    requires { f.now.results.now ≡ results_of (E.answers env.now) block }
    ensures { IfOk result
        (λ r. JudgedAs
        (code_result (E.answers env.now) (local_type f.now.locals.params f.now.locals.groups)
        f.now.results.now expr.now)
        r) }
{
    let (tokens, pool) = expr.tokens();
    s.begin(block);
    if let Some(fault) = type_tokens(env, f, pool, s, tokens)? {
        return Ok(Some(fault));
    }
    match check_end(s, f.results) {
        Ok(()) => Ok(None),
        Err(kind) => Ok(Some((kind, tokens.len() as u32 - 1))),
    }
}

/// Types a body under the function type of an index (3.4.1): valid, or the first fault and its token. Want of memory is the only refusal.
pub fn type_body<E: Scope>(
    env: &E,
    own_type: u32,
    body: &Body,
    room: &mut Room,
) -> Result<BodyVerdict, OutOfMemory>
    ensures { IfOk result (λ v. v ≡ body_verdict (E.answers env.now) own_type body.now) }
{
    let block = BlockType::Index(own_type);
    match check_known(env, block) {
        Ok(()) => {}
        Err(kind) => return Ok(BodyVerdict::Invalid { kind, token: 0 }),
    }
    let f = Function {
        locals: Locals::of(params(env, block), body.groups(), &mut room.locals)?,
        results: results(env, block),
    };
    match type_code(env, &f, block, body.expr(), &mut room.stacks)? {
        None => Ok(BodyVerdict::Valid),
        Some((kind, token)) => Ok(BodyVerdict::Invalid { kind, token }),
    }
}
