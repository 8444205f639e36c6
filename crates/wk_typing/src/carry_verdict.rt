//! Verdicts that are kept: only what a body's references find matters.

ghost use Rattle.std.specs.Prelude.{◌≡◌};
ghost use Rattle.wk_body.specs.References.{refs_of, shift_body};
ghost use Rattle.wk_body.specs.declared.references.Ref.{Ref};
ghost use Rattle.wk_typing.specs.Carried.{Agree, AgreeMoved, Keeps, KeepsMoved};
ghost use Rattle.wk_typing.specs.Finds.{ValidFinds};
ghost use Rattle.wk_typing.specs.Typing.{body_verdict};

use crate::env::Env;
use crate::fault::BodyVerdict;
use wk_module::{Body, Moving};

/// The verdict of a body whose references find what they found, under types that are found to be the same: the verdict that it
/// had, with its kind and token. `own_types` are the indexes of the type before and now. It takes no memory.
pub fn carry<O: Env, N: Env>(
    _old: &O,
    _new: &N,
    own_types: (u32, u32),
    _body: &Body,
    verdict: BodyVerdict,
) -> BodyVerdict
    requires own_type { N.answers _new.now (Ref.Ty own_types.1)
        ≡ O.answers _old.now (Ref.Ty own_types.0) }
    requires agree { Agree (O.answers _old.now) (N.answers _new.now) (refs_of _body.now.instrs) }
    requires was { verdict ≡ body_verdict (O.answers _old.now) own_types.0 _body.now }
    ensures { result ≡ body_verdict (N.answers _new.now) own_types.1 _body.now }
{
    verdict // its references find what they found
}

/// The verdict of a body after an import of the kind came in front of the index `from`, where each reference, moved, finds what it
/// found: the verdict that the body had before it moved, with its kind and token. It takes no memory.
pub fn carry_moved<O: Env, N: Env>(
    _old: &O,
    _new: &N,
    own_types: (u32, u32),
    _kind: Moving,
    _from: u32,
    _body: &Body,
    verdict: BodyVerdict,
) -> BodyVerdict
    requires own_type { N.answers _new.now (Ref.Ty own_types.1)
        ≡ O.answers _old.now (Ref.Ty own_types.0) }
    requires agree { AgreeMoved _kind _from (O.answers _old.now) (N.answers _new.now)
        (refs_of _body.now.instrs) }
    requires was { verdict ≡ body_verdict (O.answers _old.now) own_types.0 _body.now }
    ensures { result
        ≡ body_verdict (N.answers _new.now) own_types.1 (shift_body _kind _from _body.now) }
{
    verdict // its references, moved, find what they found
}

/// The laws by which verdicts are kept, for all bodies at once: [`carry`] and [`carry_moved`] are these of one body; and all that a valid
/// body refers to is there. It does nothing.
pub fn verdicts_that_keep()
    ensures frame { Keeps }
    ensures moved { KeepsMoved }
    ensures there { ValidFinds }
{}
