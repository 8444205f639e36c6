//! An edited module, as it is to be written.

ghost use Rattle.std.specs.Prelude.{◌≡◌, ◌-◌, ◌<◌, ◌≤◌, ◌^◌, length, IfErr, OnOk};
ghost use Rattle.std.specs.Io.KnownBytes.{Appends};
ghost use Rattle.wk_bytes.specs.Frames.{limit};
ghost use Rattle.wk_session.specs.Written.{Leaves, failures_after_write};

use std::marker::Model;
use wk_bytes::{Items, Out};
use wk_session::{Session, WriteFault};

/// The written form of an edited module: that of a draft, with other codes in the place of stubs.
#[derive(Debug, Drop)]
pub struct Edited {
    pub(crate) session: Session,
    pub(crate) codes: Vec<Option<Items<u8>>>,
}

impl Model for Edited {
    ghost use Rattle.std.specs.Prelude.{◌≡◌, ◌≤◌, ℕ, List, length, map};
    ghost use Rattle.wk_bytes.specs.Frames.{limit};
    ghost use Rattle.wk_pieces.specs.Overlays.{with_items};
    ghost use Rattle.wk_pieces.specs.Pieces.{code_of};
    ghost use Rattle.wk_pieces.specs.Recoded.{encoded_with};

    ghost Value = { List ℕ };

    ghost view = { λ e. encoded_with e.session
        (with_items (map code_of e.session.funcs) e.codes.items) };

    ghost invariant = { λ e. (length e.codes.items ≡ length e.session.funcs)
        × (length (encoded_with e.session
        (with_items (map code_of e.session.funcs) e.codes.items))
        ≤ limit) };
}

impl Edited {
    /// Writes it. It takes no memory.
    ///
    /// # Errors
    ///
    /// `Write`, and only where the [`Out`] failed in this call: want of memory is never answered. After it a beginning of the written
    /// form was taken.
    pub fn write<W: Out>(&self, out: &mut W) -> Result<(), WriteFault>
        requires { W.failed out.old < 2 ^ 64 - 1 }
        ensures ok { OnOk result (Appends (W.taken out.old) (W.taken out.new) self.now) }
        ensures err { IfErr result (Leaves (W.taken out.old) (W.taken out.new) self.now) }
        ensures failures { W.failed out.new ≡ failures_after_write (W.failed out.old) result }
        ensures never { IfErr result (λ e. e ≡ WriteFault.Write) }
    {
        self.session.write_with(&self.codes, out)
    }
}
