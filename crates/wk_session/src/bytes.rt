//! Bytes of edits.

ghost use Rattle.wk_bytes.specs.LebLaws.{IsBytes};
ghost use Rattle.wk_session.specs.Making.{HasBytes};

use crate::edit::Edit;

// Bytes are below 256. It does nothing.
fn are_bytes(bytes: &[u8])
    ensures { IsBytes bytes.now }
{}

/// What an edit gives as a code or an expression is bytes. It does nothing.
pub fn bytes_of_edit(edit: &Edit)
    ensures { HasBytes edit.now }
{
    match edit {
        Edit::Func { code, .. } => are_bytes(code.as_slice()),
        Edit::Body { code, .. } => are_bytes(code.as_slice()),
        Edit::Global { init, .. } => are_bytes(init.as_slice()),
        _ => {}
    }
}
