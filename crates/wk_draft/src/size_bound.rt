//! How many bytes a module may have more than its draft. Nothing here takes memory.

ghost use Rattle.std.specs.Prelude.{◌≡◌, ◌+◌, ◌≤◌, true, List, length, map, IfSome};
ghost use Rattle.wk_bytes.specs.Frames.{limit};
ghost use Rattle.wk_module.specs.declared.types.Func.{Func as FuncOf};
ghost use Rattle.wk_typing.specs.declared.fault.Fault.{Fault as FaultOf};
ghost use Rattle.wk_pieces.specs.Pieces.{code_of};
ghost use Rattle.wk_draft.specs.Drafts.{deferred_room};
ghost use Rattle.wk_draft.specs.Steps.{edit_room, IsSure};

use wk_bytes::{Items, LIMIT, leb_len_u32};
use wk_session::{Edit, EditFault};

/// By how many bytes a module may be longer than its draft, whose deferred bodies have these codes at most; or nothing where that
/// is too much to tell.
pub(crate) fn deferred_room(codes: &Vec<Items<u8>>) -> Option<usize>
    ensures { IfSome result
        (λ room. (os : List FuncOf) → codes.now.items ≡ map code_of os → room ≡ deferred_room os) }
{
    let mut total: usize = 0;
    for code in codes {
        let more = code.len().checked_mul(3)?.checked_add(5)?;
        total = total.checked_add(more)?;
    }
    total.checked_add(16)
}

/// Whether so many bytes and that many more are no more than a module may have.
pub(crate) fn has_room(len: u32, room: usize) -> bool
    ensures { result ≡ true → len + room ≤ limit }
{
    room <= LIMIT && len as usize <= LIMIT - room
}

// How many bytes an edit may bring, or nothing where that is too much to tell.
fn edit_room(edit: &Edit) -> Option<usize>
    ensures { IfSome result (λ room. room ≡ edit_room edit.now) }
{
    match edit {
        Edit::Ty(ty) => {
            let types = ty.params.len().checked_add(ty.results.len())?;
            types.checked_mul(2)?.checked_add(64)
        }
        Edit::Func { ty, code } => {
            let code = code.len().checked_mul(2)?;
            code.checked_add(leb_len_u32(*ty))?.checked_add(64)
        }
        Edit::Body { code, .. } => code.len().checked_mul(2)?.checked_add(64),
        Edit::Global { init, .. } => init.len().checked_mul(2)?.checked_add(64),
        Edit::Export(export) => {
            let name = export.name.as_str().len().checked_mul(2)?;
            name.checked_add(leb_len_u32(export.index))?.checked_add(64)
        }
        _ => Some(0),
    }
}

// Whether the module would be invalid where the draft would be, which has that length: where neither gets too large. Of an import and of
// a custom section that is set this is not told.
fn would_break(edit: &Edit, len: u32, room: usize) -> bool
    ensures { result ≡ true → (fault : FaultOf)
        → IsSure edit.now (len + room) (EditFault.WouldBreak fault) }
{
    if let Edit::Import(_) | Edit::SetCustom { .. } = edit {
        return false;
    }
    let Some(more) = edit_room(edit) else {
        return false;
    };
    match room.checked_add(more) {
        Some(room) => has_room(len, room),
        None => false,
    }
}

/// Whether an edit that the draft refuses is one that the module refuses for the same reason, where the draft has that length and the
/// module that many bytes more at most.
pub(crate) fn is_sure(edit: &Edit, len: u32, room: usize, fault: EditFault) -> bool
    ensures { result ≡ true → IsSure edit.now (len + room) fault }
{
    match fault {
        EditFault::TooLarge => false,
        EditFault::Memory => false,
        EditFault::WouldBreak(_) => would_break(edit, len, room),
        _ => true,
    }
}
