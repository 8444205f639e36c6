//! Typing a body while it is read: each token is looked at once, and nothing is kept.

ghost use Rattle.std.specs.Prelude.{◌≡◌, true, false, IfOk};
ghost use Rattle.wk_body.specs.declared.types.Profile.{Profile};
ghost use Rattle.wk_body.specs.declared.types.ValType.{ValType};
ghost use Rattle.wk_typing.specs.Effects.{local_type, results_of};
ghost use Rattle.wk_typing.specs.Streaming.{IsTyped, IsValidBody, GoesOn};

use crate::control::{check_end, check_known, params, results};
use crate::env::Scope;
use crate::fast_blocks::FastStep;
use crate::fast_extended::{fast_open_indexed, fast_sign_extend};
use crate::fast_path::type_fast;
use crate::locals::{Locals, LocalsRoom};
use crate::stacks::Stacks;
use crate::step::{Function, type_token};
use crate::stop::Stop;
use std::alloc::Global;
use std::marker::Model;
use wk_bytes::{Cursor, OutOfMemory, ReadFault, ReadKind};
use wk_module::{BlockType, LocalGroup, Profile, TokenReader, next_groups};

// The tokens and the open blocks, which go on together.
#[derive(Debug, Drop)]
struct Stream {
    reader: TokenReader,
    stacks: Stacks,
}

/// The room in which bodies are typed while they are read. It is used again from one body to the next, and its value is the unit: each
/// call clears it, and no clause can speak of what it holds.
#[derive(Debug, Drop)]
pub struct StreamRoom {
    stream: Stream,
    groups: Vec<LocalGroup>,
    locals: LocalsRoom,
}

impl Model for StreamRoom {
    ghost Value = { Unit {0} };

    ghost view = { λ _. tt };
}

impl StreamRoom {
    /// Room that is still to grow: it takes no memory yet.
    pub fn new(alloc: Global) -> StreamRoom {
        StreamRoom {
            stream: Stream {
                reader: TokenReader::new(alloc),
                stacks: Stacks::new(alloc),
            },
            groups: Vec::new(alloc),
            locals: LocalsRoom::new(alloc),
        }
    }
}

// What it means for the body that its reading stops at a fault.
fn verdict_of_fault(fault: &ReadFault) -> Result<bool, OutOfMemory>
    ensures { IfOk result (λ valid. valid ≡ false) }
{
    match fault.kind {
        ReadKind::Memory => Err(OutOfMemory),
        _ => Ok(false),
    }
}

// What one token came to. (It goes in a register.)
#[derive(Clone, Copy, Debug, PartialEq, Eq)]
enum TokenOutcome {
    // It was typed.
    On,
    // It is the end that closes no block.
    End,
    // It can't be read, or has a fault.
    Wrong,
    // Memory was refused.
    Memory,
}

// Reads the token at the front, whatever it is, and types it.
#[inline(never)]
fn read_and_type<E: Scope>(
    env: &E,
    f: &Function<'_>,
    profile: Profile,
    stream: &mut Stream,
    cursor: &mut Cursor<'_>,
) -> TokenOutcome
    ensures { GoesOn (E.answers env.now) f.now profile result stream.old stream.new cursor.old
        cursor.new }
{
    let Stream { reader, stacks } = stream;
    // (A cursor of its own, which stays in registers from label to label.)
    let mut ahead = cursor.ahead();
    let next = reader.next(profile, &mut ahead);
    *cursor = ahead;
    match next {
        Ok(Some(token)) => match type_token(env, f, reader.labels(), stacks, &token) {
            Ok(()) => TokenOutcome::On,
            Err(Stop::Fault(_)) => TokenOutcome::Wrong,
            Err(Stop::Memory) => TokenOutcome::Memory,
        },
        Ok(None) => TokenOutcome::End,
        Err(fault) => match fault.kind {
            ReadKind::Memory => TokenOutcome::Memory,
            _ => TokenOutcome::Wrong,
        },
    }
}

// Types the token at the front, whatever it is, in the extended profile: one that opens a block of a type index from its bytes.
#[inline(never)]
fn type_extended<E: Scope>(
    env: &E,
    f: &Function<'_>,
    profile: Profile,
    stream: &mut Stream,
    cursor: &mut Cursor<'_>,
) -> TokenOutcome
    requires { profile ≡ Profile.Extended }
    ensures { GoesOn (E.answers env.now) f.now profile result stream.old stream.new cursor.old
        cursor.new }
{
    let Stream { reader, stacks } = stream;
    let mut ahead = cursor.ahead();
    match fast_open_indexed(env, f, reader, stacks, &mut ahead) {
        Ok(true) => {
            *cursor = ahead;
            return TokenOutcome::On;
        }
        Ok(false) => {}
        Err(Stop::Fault(_)) => return TokenOutcome::Wrong,
        Err(Stop::Memory) => return TokenOutcome::Memory,
    }
    read_and_type(env, f, profile, stream, cursor)
}

// Types the token at the front, whatever it is. It stands apart, so that the loop over those that `type_fast` takes is small. What
// the extended profile alone has is told from its bytes here, as `type_fast` tells other tokens, and the rarer one behind another
// call: so this one holds no room of a result, which would be cleared at each token.
#[inline(never)]
fn type_slow<E: Scope>(
    env: &E,
    f: &Function<'_>,
    profile: Profile,
    stream: &mut Stream,
    cursor: &mut Cursor<'_>,
) -> TokenOutcome
    ensures { GoesOn (E.answers env.now) f.now profile result stream.old stream.new cursor.old
        cursor.new }
{
    if profile == Profile::Core {
        return read_and_type(env, f, profile, stream, cursor);
    }
    let mut ahead = cursor.ahead();
    match fast_sign_extend(env, f, &mut stream.stacks, &mut ahead) {
        Ok(true) => {
            *cursor = ahead;
            return TokenOutcome::On;
        }
        Ok(false) => {}
        Err(Stop::Fault(_)) => return TokenOutcome::Wrong,
        Err(Stop::Memory) => return TokenOutcome::Memory,
    }
    type_extended(env, f, profile, stream, cursor)
}

// Whether the instructions at the front, which have this type, go up to their end without a fault. Then the cursor stands behind
// them.
#[inline(never)]
fn type_expr<E: Scope>(
    env: &E,
    f: &Function<'_>,
    block: BlockType,
    profile: Profile,
    stream: &mut Stream,
    cursor: &mut Cursor<'_>,
) -> Result<bool, OutOfMemory>
    requires { f.now.results.now ≡ results_of (E.answers env.now) block }
    ensures { IfOk result
        (λ valid. valid ≡ true
        → IsTyped (E.answers env.now) (local_type f.now.locals.params f.now.locals.groups)
        f.now.results.now profile cursor.old cursor.new) }
{
    stream.reader.begin();
    stream.stacks.begin(block);
    // A cursor of its own, which stays in registers from token to token.
    let mut ahead = cursor.ahead();
    loop {
        let mut next = ahead.ahead();
        let Stream { reader, stacks } = stream;
        match type_fast(env, f, reader, stacks, &mut next) {
            Ok(FastStep::Token) => {
                ahead = next;
                continue;
            }
            Ok(FastStep::Last) => {
                let Ok(()) = check_end(stacks, f.results) else {
                    return Ok(false);
                };
                *cursor = next;
                return Ok(true);
            }
            Ok(FastStep::Other) => {}
            Err(Stop::Fault(_)) => return Ok(false),
            Err(Stop::Memory) => return Err(OutOfMemory),
        }
        let mut next = ahead.ahead();
        match type_slow(env, f, profile, stream, &mut next) {
            TokenOutcome::On => ahead = next,
            TokenOutcome::End => {
                let Ok(()) = check_end(&mut stream.stacks, f.results) else {
                    return Ok(false);
                };
                *cursor = next;
                return Ok(true);
            }
            TokenOutcome::Wrong => return Ok(false),
            TokenOutcome::Memory => return Err(OutOfMemory),
        }
    }
}

/// Whether all of the bytes are a code of the profile (its groups of locals and its body) that is valid under the function type of an
/// index (3.4.1). It says no where the bytes are no code of the profile, and no clause says that it does so nowhere else: then the body is
/// read whole, and that decides. Want of memory is the only refusal.
pub(crate) fn is_valid_body<E: Scope>(
    env: &E,
    own_type: u32,
    profile: Profile,
    code: &Cursor<'_>,
    room: &mut StreamRoom,
) -> Result<bool, OutOfMemory>
    ensures { IfOk result
        (λ valid. valid ≡ true → IsValidBody (E.answers env.now) own_type profile code.now) }
{
    let block = BlockType::Index(own_type);
    let Ok(()) = check_known(env, block) else {
        return Ok(false);
    };
    let StreamRoom {
        stream,
        groups,
        locals,
    } = room;
    let mut cursor = code.ahead();
    if let Err(fault) = next_groups(groups, &mut cursor) {
        return verdict_of_fault(&fault);
    }
    let f = Function {
        locals: Locals::of(params(env, block), groups, locals)?,
        results: results(env, block),
    };
    Ok(type_expr(env, &f, block, profile, stream, &mut cursor)? && cursor.rest().is_empty())
}
