//! What the verdict of a module tells of its bodies.

ghost use Rattle.std.specs.Prelude.{◌≡◌};
ghost use Rattle.wk_session.specs.Known.{body_told, told_by};

use wk_check::{BodyVerdict, Fault, Verdict};
use wk_module::section_id;

// What a fault of a module, its first, tells of the body at an index.
fn told_behind(fault: Fault, index: usize) -> Option<BodyVerdict>
    ensures { result ≡ told_by fault index }
{
    let place = fault.place;
    let item = place.item as usize;
    if place.section < section_id::CODE {
        return None;
    }
    if section_id::CODE < place.section || index < item {
        return Some(BodyVerdict::Valid);
    }
    if item < index {
        return None;
    }
    Some(BodyVerdict::Invalid {
        kind: fault.kind,
        token: place.token?,
    })
}

/// What the verdict of a module, if there is one, tells of its body at an index, counted from 0.
pub(crate) fn told_body(verdict: &Option<Verdict>, index: usize) -> Option<BodyVerdict>
    ensures { result ≡ body_told verdict.now index }
{
    match verdict {
        Some(Verdict::Valid) => Some(BodyVerdict::Valid),
        Some(Verdict::Invalid(fault)) => told_behind(*fault, index),
        None => None,
    }
}
