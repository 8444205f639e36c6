//! A draft of a module, and one edit of it.

ghost use Rattle.std.specs.Prelude.{◌≡◌, ◌+◌, true, false, List, IfOk, IfSome};
ghost use Rattle.wk_module.specs.declared.types.Func.{Func as FuncOf};
ghost use Rattle.wk_module.specs.declared.types.Parts.{Parts as PartsOf};
ghost use Rattle.wk_session.specs.Runs.{after_one, is_memory, reply_of};
ghost use Rattle.wk_draft.specs.Drafts.{deferred_room};
ghost use Rattle.wk_draft.specs.Steps.{replaced_entry, shifts_after, deferred_without};
ghost use Rattle.wk_draft.specs.Runs.{IsHeld, IsStepped};

use crate::size_bound::{has_room, is_sure};
use wk_bytes::OutOfMemory;
use wk_check::verdicts_that_keep;
use wk_list::Shape;
use wk_module::{Kind, Shifts, moving_of_module, reading_of_code, written_form_of_code};
use wk_session::{Edit, EditFault, Reply, Session, bytes_of_edit};

/// What an edit is answered of which no work is told: whether it was made, or why it was refused.
pub type Answer = Result<(), EditFault>;

/// A draft of a module, in which a stub stands in the place of each deferred body.
#[derive(Drop)]
pub(crate) struct Draft {
    /// The draft.
    pub(crate) session: Session,
    /// For each function of the first module, whether its body is deferred.
    pub(crate) deferred: Vec<bool>,
    /// Where the references of these bodies stand now.
    pub(crate) shifts: Shifts,
}

// The function whose body an edit replaces, if it does: which of so many that the module defines. Where references stand says how many it
// imports, so that no line of a script counts all imports.
fn replaced_entry(edit: &Edit, shifts: Shifts, defined: usize) -> Option<usize>
    ensures { result ≡ replaced_entry edit.now (shifts.funcs_from + shifts.funcs_by) defined }
{
    let Edit::Body { func, .. } = edit else {
        return None;
    };
    let imported = shifts.funcs_from as usize + shifts.funcs_by as usize;
    let index = *func as usize;
    if index < imported || index - imported >= defined {
        return None;
    }
    Some(index - imported)
}

// A body that is replaced is deferred no more.
fn clear_deferred(deferred: &mut Vec<bool>, entry: Option<usize>)
    ensures { deferred.new.items ≡ deferred_without entry deferred.old.items }
{
    let Some(entry) = entry else {
        return;
    };
    if entry < deferred.len() {
        deferred[entry] = false;
    }
}

// Where references stand after an edit that is made; or nothing where so many imports can't be counted.
fn shifts_after(edit: &Edit, shifts: Shifts) -> Option<Shifts>
    ensures { IfSome result (λ s. s ≡ shifts_after edit.now shifts) }
{
    let Edit::Import(import) = edit else {
        return Some(shifts);
    };
    match import.desc.kind() {
        Kind::Func => Some(Shifts {
            funcs_by: shifts.funcs_by.checked_add(1)?,
            ..shifts
        }),
        Kind::Global => Some(Shifts {
            globals_by: shifts.globals_by.checked_add(1)?,
            ..shifts
        }),
        Kind::Table | Kind::Memory => Some(shifts),
    }
}

// Makes an edit of the session.
fn apply(session: &mut Session, keep: bool, edit: &Edit) -> Reply
    ensures reply { result ≡ reply_of keep edit.now (is_memory result) session.old }
    ensures module_is { session.new ≡ after_one keep edit.now (is_memory result) session.old }
{
    if keep {
        session.apply_kept(edit)
    } else {
        session.apply(edit)
    }
}

/// Makes an edit of the draft, where what it answers is what the module would. Nothing is answered where that is not sure.
pub(crate) fn step(
    draft: &mut Draft,
    keep: bool,
    edit: &Edit,
    room: usize,
) -> Result<Option<Answer>, OutOfMemory>
    ensures { (os : List FuncOf) (m : PartsOf) → room ≡ deferred_room os → IsHeld os m draft.old
        → IfOk result (λ r. IfSome r (λ answer. IsStepped keep edit.now os m answer draft.new)) }
{
    // The proof asks what these say: that verdicts are kept, that what has moved is formed, and that no code is shorter than its written
    // form.
    verdicts_that_keep();
    moving_of_module();
    reading_of_code();
    written_form_of_code();
    bytes_of_edit(edit);
    let defined = draft.session.parts().funcs.len();
    let entry = replaced_entry(edit, draft.shifts, defined);
    let len = draft.session.encoded_len();
    match apply(&mut draft.session, keep, edit) {
        Ok(_) => {
            let Some(shifts) = shifts_after(edit, draft.shifts) else {
                return Ok(None);
            };
            // The proof asks what this says: the draft is shaped.
            let _parts = draft.session.parts();
            if !has_room(draft.session.encoded_len(), room) {
                return Ok(None);
            }
            clear_deferred(&mut draft.deferred, entry);
            draft.shifts = shifts;
            Ok(Some(Ok(())))
        }
        Err(EditFault::Memory) => Err(OutOfMemory),
        Err(fault) if is_sure(edit, len, room, fault) => Ok(Some(Err(fault))),
        Err(_) => Ok(None),
    }
}
