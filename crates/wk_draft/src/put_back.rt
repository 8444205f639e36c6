//! The codes of the deferred bodies, as they are put back.

ghost use Rattle.std.specs.Prelude.{◌≡◌, List, true, length, map, IfOk, IfSome};
ghost use Rattle.std.specs.List.{AllByRecursion};
ghost use Rattle.wk_body.specs.declared.types.Profile.{Profile as ProfileOf};
ghost use Rattle.wk_body.specs.Bodies.{BodyOf};
ghost use Rattle.wk_body.specs.Shifts.{shifted_body};
ghost use Rattle.wk_body.specs.Written.{written_body};
ghost use Rattle.wk_module.specs.declared.types.Func.{Func as FuncOf};
ghost use Rattle.wk_module.specs.declared.types.Parts.{Parts as PartsOf};
ghost use Rattle.wk_module.specs.Items.{IsCode};
ghost use Rattle.wk_pieces.specs.Overlays.{with_items};
ghost use Rattle.wk_pieces.specs.Pieces.{code_of};
ghost use Rattle.wk_draft.specs.Runs.{IsHeld, deferred_codes};

use crate::draft::Draft;
use std::alloc::Global;
use wk_bytes::{Items, OutOfMemory};
use wk_list::Shape;
use wk_module::{Shifts, append_shifts};

// Whether no reference has moved.
fn are_still(shifts: Shifts) -> bool
    ensures { result ≡ true → (shifts.funcs_by ≡ 0) × (shifts.globals_by ≡ 0) }
{
    shifts.funcs_by == 0 && shifts.globals_by == 0
}

// A code with its references where they stand now, or nothing where one has no place.
fn renumber_code(
    alloc: Global,
    room: &mut Vec<u8>,
    code: Items<u8>,
    shifts: Shifts,
) -> Result<Option<Items<u8>>, OutOfMemory>
    ensures { IfOk result
        (λ r. IfSome r
        (λ c. (profile : ProfileOf) (b : BodyOf) → IsCode profile b → code ≡ written_body b
        → c ≡ written_body (shifted_body shifts b))) }
{
    if are_still(shifts) {
        return Ok(Some(code));
    }
    room.clear();
    if !append_shifts(room, code.as_slice(), shifts)? {
        return Ok(None);
    }
    Ok(Some(Items::from_vec(Vec::from_slice(alloc, room)?)))
}

// The codes of the deferred bodies, in their places.
fn renumber_codes(
    alloc: Global,
    deferred: &Vec<bool>,
    codes: Vec<Items<u8>>,
    shifts: Shifts,
) -> Result<Option<Vec<Option<Items<u8>>>>, OutOfMemory>
    requires { length deferred.now.items ≡ length codes.items }
    ensures { (profile : ProfileOf) (os : List FuncOf) → codes.items ≡ map code_of os
        → AllByRecursion (λ o. IsCode profile o.body) os
        → IfOk result
        (λ r. IfSome r (λ news. news.items ≡ deferred_codes shifts os deferred.now.items)) }
{
    let mut news = Vec::with_capacity(alloc, codes.len())?;
    let mut room = Vec::new(alloc);
    for code in codes {
        if !deferred[news.len()] {
            news.push_reserved(None);
            continue;
        }
        let Some(code) = renumber_code(alloc, &mut room, code, shifts)? else {
            return Ok(None);
        };
        news.push_reserved(Some(code));
    }
    Ok(Some(news))
}

/// The codes that come in the place of those of the draft, one for each function or nothing; or nothing where one can't be put back.
/// `codes` are those of the first module.
pub(crate) fn put_back(
    alloc: Global,
    draft: &Draft,
    codes: Vec<Items<u8>>,
) -> Result<Option<Vec<Option<Items<u8>>>>, OutOfMemory>
    requires { length draft.now.deferred.items ≡ length codes.items }
    ensures many { IfOk result
        (λ r. IfSome r (λ news. length news.items ≡ length draft.now.session.funcs)) }
    ensures codes { (profile : ProfileOf) (os : List FuncOf) (m : PartsOf)
        → codes.items ≡ map code_of os → AllByRecursion (λ o. IsCode profile o.body) os
        → IsHeld os m draft.now
        → IfOk result
        (λ r. IfSome r
        (λ news. with_items (map code_of draft.now.session.funcs) news.items
        ≡ map code_of m.funcs)) }
{
    let count = draft.session.parts().funcs.len();
    let Some(mut news) = renumber_codes(alloc, &draft.deferred, codes, draft.shifts)? else {
        return Ok(None);
    };
    if news.len() > count {
        return Ok(None);
    }
    while news.len() < count {
        news.push(None)?;
    }
    Ok(Some(news))
}
