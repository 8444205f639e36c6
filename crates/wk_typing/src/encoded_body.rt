//! Typing a body that is still to be read.

ghost use Rattle.std.specs.Prelude.{◌≡◌, [], IfErr};
ghost use Rattle.wk_bytes.specs.Stands.{StandsOrMemory};
ghost use Rattle.wk_body.specs.Building.{kinds_of, size_of, toks_of};
ghost use Rattle.wk_body.specs.Reads.{Reads};
ghost use Rattle.wk_typing.specs.Faults.{encoded_verdict};

use crate::env::Scope;
use crate::fault::BodyVerdict;
use crate::streaming::{StreamRoom, is_valid_body};
use crate::typing::{Room, type_body};
use std::alloc::Global;
use wk_bytes::{Cursor, ReadFault};
use wk_module::{Profile, Scratch};

/// The rooms in which code is read and typed. They are used again from one body, expression or module to the next: what they hold is
/// forgotten by each call, and no verdict and no fault of reading depends on it.
#[derive(Debug, Drop)]
pub struct Rooms {
    /// The room in which bodies and expressions are read.
    pub scratch: Scratch,
    /// The room in which a body is typed while it is read.
    pub stream: StreamRoom,
    /// The room in which code that was read is typed.
    pub room: Room,
}

impl Rooms {
    /// Rooms that are still to grow: they take no memory yet.
    pub fn new(alloc: Global) -> Rooms
        ensures toks { toks_of result.scratch ≡ [] }
        ensures kinds { kinds_of result.scratch ≡ [] }
        ensures size { size_of result.scratch ≡ 0 }
    {
        Rooms {
            scratch: Scratch::new(alloc),
            stream: StreamRoom::new(alloc),
            room: Room::new(alloc),
        }
    }
}

// Reads the whole body, and types it.
fn type_read_body<E: Scope>(
    alloc: Global,
    env: &E,
    own_type: u32,
    profile: Profile,
    code: &Cursor<'_>,
    rooms: &mut Rooms,
) -> Result<BodyVerdict, ReadFault>
    ensures exact { Reads (λ v. v) result
        (encoded_verdict (E.answers env.now) own_type profile code.now) }
    ensures fault { IfErr result (λ e. StandsOrMemory code.now e) }
{
    let body = rooms.scratch.read_body(alloc, code, profile)?;
    let verdict = type_body(env, own_type, &body, &mut rooms.room);
    drop(body);
    Ok(verdict?)
}

/// Types the body that all of the bytes encode, a code without its size (5.5.13), under the function type of an index (3.4.1): valid, or
/// the first fault and its token.
///
/// A valid body is typed while it is read, and nothing of it is kept (no clause says so). Where that finds a fault, or no body, the bytes
/// are read whole, to tell which.
///
/// # Errors
///
/// Where the bytes encode no body of the profile, the first fault from left to right, at its offset in the whole input; `Memory` at 0 where
/// a growth was refused.
pub fn type_encoded_body<E: Scope>(
    alloc: Global,
    env: &E,
    own_type: u32,
    profile: Profile,
    code: &Cursor<'_>,
    rooms: &mut Rooms,
) -> Result<BodyVerdict, ReadFault>
    ensures exact { Reads (λ v. v) result
        (encoded_verdict (E.answers env.now) own_type profile code.now) }
    ensures fault { IfErr result (λ e. StandsOrMemory code.now e) }
{
    if is_valid_body(env, own_type, profile, code, &mut rooms.stream)? {
        return Ok(BodyVerdict::Valid);
    }
    type_read_body(alloc, env, own_type, profile, code, rooms)
}
