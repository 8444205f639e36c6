//! Constant expressions (3.3.7.2).

ghost use Rattle.std.specs.Prelude.{◌≡◌, ◌<◌, ◌^◌, [], length, IfOk};
ghost use Rattle.wk_body.specs.Kept.{told, all_told};
ghost use Rattle.wk_typing.specs.Constants.{constant_flaw, is_constant_tok, first_varying_tok};

use crate::control::one;
use crate::env::{Lookup, Scope};
use crate::fault::{FaultKind, Flaw};
use crate::locals::Locals;
use crate::step::Function;
use crate::typing::{Room, type_code};
use wk_bytes::OutOfMemory;
use wk_module::{BlockType, Expr, Ref, Token, ValType};

// Whether a token may stand in a constant expression. A global that is not found is for typing to refuse.
fn is_constant<E: Scope>(env: &E, token: &Token) -> bool
    ensures { result ≡ is_constant_tok (E.answers env.now) (told [] token.now) }
{
    match *token {
        Token::I32Const(_)
        | Token::I64Const(_)
        | Token::F32Const(_)
        | Token::F64Const(_)
        | Token::End => true,
        Token::GlobalGet(x) => match env.look_up(Ref::Global(x)) {
            Lookup::Global(global) => !global.mutable,
            _ => true,
        },
        _ => false,
    }
}

// The first token that may not stand in a constant expression.
fn first_varying<E: Scope>(env: &E, tokens: &[Token]) -> Option<u32>
    requires { length tokens.now < 2 ^ 32 }
    ensures { result ≡ first_varying_tok (E.answers env.now) 0 (all_told [] tokens.now) }
{
    for (at, token) in tokens.iter().enumerate() {
        if !is_constant(env, token) {
            return Some(at as u32);
        }
    }
    None
}

/// What is wrong with a constant expression of a type (3.3.7.2): the first token that is not constant, else the first fault of typing.
/// Want of memory is the only refusal.
pub fn constant_flaw<E: Scope>(
    env: &E,
    ty: ValType,
    expr: &Expr,
    room: &mut Room,
) -> Result<Option<Flaw>, OutOfMemory>
    ensures { IfOk result (λ r. r ≡ constant_flaw (E.answers env.now) ty expr.now) }
{
    let (tokens, _) = expr.tokens();
    if let Some(token) = first_varying(env, tokens) {
        return Ok(Some(Flaw {
            kind: FaultKind::ConstantExpected,
            token: Some(token),
        }));
    }
    let f = Function {
        locals: Locals::none(),
        results: one(ty),
    };
    match type_code(env, &f, BlockType::Value(ty), expr, &mut room.stacks)? {
        None => Ok(None),
        Some((kind, token)) => Ok(Some(Flaw {
            kind,
            token: Some(token),
        })),
    }
}
