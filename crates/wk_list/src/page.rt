//! Text on its way out: it is gathered, and goes in large pieces.

ghost use Rattle.std.specs.Prelude.{◌≡◌, ◌<◌, ◌-◌, ◌^◌, length, OnOk, OnErr};
ghost use Rattle.std.specs.Io.KnownBytes.{Appends};
ghost use Rattle.wk_bytes.specs.Taken.{TakesFront};
ghost use Rattle.wk_list.specs.Taken.{PutsOut, failed_after};

use crate::fault::Listed;
use wk_bytes::{Out, put_all};

/// How many bytes of text are worth a call of the [`Out`].
pub(crate) const FLUSH_LEN: usize = 1 << 16;

/// How many bytes are wanting until the text is long enough to go out.
pub(crate) fn len_to_flush(text: &[u8]) -> usize
    ensures { result ≡ FLUSH_LEN - length text.now }
{
    FLUSH_LEN.saturating_sub(text.len())
}

/// Puts out the text that was gathered, if it is long.
///
/// What is left of it stays. After a fault a beginning of it was taken.
pub(crate) fn spill<W: Out>(text: &mut Vec<u8>, out: &mut W) -> Listed
    requires { W.failed out.old < 2 ^ 64 - 1 }
    ensures { PutsOut W.taken W.failed out.old out.new text.old.items text.new.items result }
{
    if text.len() < FLUSH_LEN {
        return Ok(());
    }
    flush(text, out)?;
    text.clear();
    Ok(())
}

/// Puts out all of the text that was gathered. After a fault a beginning of it was taken.
pub(crate) fn flush<W: Out>(text: &[u8], out: &mut W) -> Listed
    requires { W.failed out.old < 2 ^ 64 - 1 }
    ensures ok { OnOk result (Appends (W.taken out.old) (W.taken out.new) text.now) }
    ensures err { OnErr result (TakesFront (W.taken out.old) (W.taken out.new) text.now) }
    ensures failures { W.failed out.new ≡ failed_after (W.failed out.old) result }
{
    put_all(out, text)?;
    Ok(())
}
