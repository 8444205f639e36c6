//! Judging one body, and the count of judged bodies.

ghost use Rattle.std.specs.Prelude.{◌≡◌, ◌+◌, ◌<◌, ◌^◌, IfOk};
ghost use Rattle.wk_typing.specs.Typing.{body_verdict};
ghost use Rattle.wk_typing.specs.Derives.{IsDerived};
ghost use Rattle.wk_typing.specs.DerivesLaws.{HaveTypesPartByPart};
ghost use Rattle.wk_typing.specs.declared.fault.BodyVerdict.{BodyVerdict};

use crate::env::Scope;
use crate::fault::BodyVerdict;
use crate::typing::{Room, type_body};
use std::alloc::Global;
use std::marker::Model;
use wk_bytes::OutOfMemory;
use wk_module::Body;

/// Counts the bodies that were judged, and keeps the room that their typing uses again.
#[derive(Debug, Drop)]
pub struct Meter {
    typed: u64,
    room: Room,
}

impl Model for Meter {
    ghost use Rattle.std.specs.Prelude.{ℕ};

    ghost Value = { ℕ };

    ghost view = { λ m. m.typed };
}

impl Meter {
    /// No body was judged. It takes no memory.
    pub fn new(alloc: Global) -> Meter
        ensures { result ≡ 0 }
    {
        Meter {
            typed: 0,
            room: Room::new(alloc),
        }
    }

    /// How many bodies were judged, with those whose judging was refused memory.
    pub fn typed(&self) -> u64
        ensures { result ≡ self.now }
    {
        self.typed
    }
}

/// Judges a body under the function type of an index (3.4.1): valid, or the first fault and its token. The meter counts the call.
///
/// Valid says two things that are one: the typing of the appendix goes through, and the body is derived by the declarative rules.
///
/// Want of memory is the only refusal. It is counted too.
pub fn judge_body<E: Scope>(
    env: &E,
    own_type: u32,
    body: &Body,
    meter: &mut Meter,
) -> Result<BodyVerdict, OutOfMemory>
    requires { meter.old + 1 < 2 ^ 64 }
    ensures verdict { IfOk result (λ v. v ≡ body_verdict (E.answers env.now) own_type body.now) }
    ensures typed { meter.new ≡ meter.old + 1 }
    ensures sound { IfOk result
        (λ v. v ≡ BodyVerdict.Valid → IsDerived (E.answers env.now) own_type body.now) }
    ensures complete { IfOk result
        (λ v. IsDerived (E.answers env.now) own_type body.now → v ≡ BodyVerdict.Valid) }
{
    meter.typed += 1;
    type_body(env, own_type, body, &mut meter.room)
}

/// The law of the declarative rules for lists of instructions (3.3): a list has a type exactly where each of its two parts has one,
/// and they meet at a stack. It does nothing.
pub fn declarative_rules()
    ensures { HaveTypesPartByPart }
{}
