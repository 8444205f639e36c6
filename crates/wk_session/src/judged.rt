//! The verdicts of the bodies that an edit leaves.

ghost use Rattle.std.specs.Prelude.{◌≡◌, ◌+◌, ◌<◌, ◌^◌, not, true, count_by, length, map, IfOk, OnOk};
ghost use Rattle.std.specs.List.{list_any};
ghost use Rattle.wk_typing.specs.Answers.{found};
ghost use Rattle.wk_typing.specs.Typing.{body_verdict};
ghost use Rattle.wk_typing.specs.Finds.{is_there, Grows};
ghost use Rattle.wk_check.specs.Verdict.{func_verdict};
ghost use Rattle.wk_session.specs.Dependents.{same_found, differs_in, is_retyped_in, one_if};
ghost use Rattle.wk_session.specs.Kept.{uses_of};

use crate::basis::Basis;
use std::alloc::Global;
use std::collections::BTreeSet;
use wk_bytes::OutOfMemory;
use wk_check::{Answer, BodyVerdict, Env, Meter, carry, judge_body, verdicts_that_keep};
use wk_module::{Body, Func, Ref};

// Whether a reference that found nothing finds another thing now.
fn is_found_now(before: &Answer<'_>, now: &Answer<'_>) -> bool
    ensures { (is_there (found before.now) ≡ true → found now.now ≡ found before.now)
        → result ≡ not (same_found (found before.now) (found now.now)) }
{
    match before {
        Answer::NoType => !matches!(now, Answer::NoType),
        Answer::FuncOfNoType => !matches!(now, Answer::FuncOfNoType),
        Answer::NoFunc => !matches!(now, Answer::NoFunc),
        Answer::NoGlobal => !matches!(now, Answer::NoGlobal),
        Answer::Absent => !matches!(now, Answer::Absent),
        Answer::Ty(_) => false,
        Answer::Func(_) => false,
        Answer::Global(_) => false,
        Answer::Present => false,
    }
}

// Whether some of these references find another thing now.
fn is_retyped<O: Env, N: Env>(old: &O, new: &N, refs: &BTreeSet<Ref>) -> bool
    requires { Grows (O.answers old.now) (N.answers new.now) }
    ensures { result ≡ list_any (differs_in (O.answers old.now) (N.answers new.now)) refs.now.keys }
{
    for reference in refs {
        if is_found_now(&old.answer(*reference), &new.answer(*reference)) {
            return true;
        }
    }
    false
}

/// Types a body. No other function of this crate does.
pub(crate) fn type_body<E: Env>(
    env: &E,
    own_type: u32,
    body: &Body,
    meter: &mut Meter,
) -> Result<BodyVerdict, OutOfMemory>
    requires { meter.old + 1 < 2 ^ 64 }
    ensures verdict { IfOk result (λ v. v ≡ body_verdict (E.answers env.now) own_type body.now) }
    ensures typed { meter.new ≡ meter.old + 1 }
{
    judge_body(env, own_type, body, meter)
}

// The verdict of a body where what was found is found still. A valid one refers to nothing that was not, so that it is not looked at.
fn rejudge_body<O: Env, N: Env>(
    old: &O,
    new: &N,
    func: &Func,
    refs: &BTreeSet<Ref>,
    verdict: BodyVerdict,
    meter: &mut Meter,
) -> Result<BodyVerdict, OutOfMemory>
    requires grows { Grows (O.answers old.now) (N.answers new.now) }
    requires refs { refs.now.keys ≡ uses_of func.now }
    requires was { verdict ≡ func_verdict (O.answers old.now) func.now }
    requires room { meter.old + 1 < 2 ^ 64 }
    ensures verdict { IfOk result (λ v. v ≡ func_verdict (N.answers new.now) func.now) }
    ensures typed { OnOk result
        (meter.new
        ≡ meter.old + one_if (is_retyped_in (O.answers old.now) (N.answers new.now) func.now)) }
{
    // The proof asks what this says: all that a valid body refers to is there.
    verdicts_that_keep();
    let own_types = (func.ty, func.ty);
    if let BodyVerdict::Valid = verdict {
        return Ok(carry(old, new, own_types, &func.body, verdict));
    }
    if is_retyped(old, new, refs) {
        return type_body(new, func.ty, &func.body, meter);
    }
    Ok(carry(old, new, own_types, &func.body, verdict))
}

/// The verdicts of bodies where what was found is found still. The meter counts those that are judged for it.
pub(crate) fn rejudge_bodies<O: Env, N: Env>(
    alloc: Global,
    old: &O,
    new: &N,
    basis: Basis<'_>,
    meter: &mut Meter,
) -> Result<Vec<BodyVerdict>, OutOfMemory>
    requires grows { Grows (O.answers old.now) (N.answers new.now) }
    requires refs { map (λ s. s.keys) basis.kept.now.refs.items
        ≡ map uses_of basis.parts.now.funcs }
    requires were { basis.kept.now.verdicts.items
        ≡ map (func_verdict (O.answers old.now)) basis.parts.now.funcs }
    requires room { meter.old + length basis.parts.now.funcs < 2 ^ 64 }
    ensures verdicts { IfOk result
        (λ v. v.items ≡ map (func_verdict (N.answers new.now)) basis.entry.parts.now.funcs) }
    ensures typed { let typed = is_retyped_in (O.answers old.now) (N.answers new.now) in
        OnOk result (meter.new ≡ meter.old + count_by typed basis.entry.parts.now.funcs) }
{
    let Basis { parts, kept, .. } = basis;
    let mut judged = Vec::with_capacity(alloc, parts.funcs.len())?;
    for (i, func) in parts.funcs.as_slice().iter().enumerate() {
        let verdict = rejudge_body(old, new, func, &kept.refs[i], kept.verdicts[i], meter)?;
        judged.push(verdict)?;
    }
    Ok(judged)
}
