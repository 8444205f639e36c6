//! Passes over the pieces of a code that is written again.
//!
//! What stands there as it is written stays pending, in bytes that are copied at once. A call that answers nothing met something
//! unclear, or a growth was refused: then nothing is said of what it wrote.

ghost use Rattle.std.specs.Prelude.{◌≡◌, ℕ, ◌+◌, ◌≤◌, ◌^◌, Bool, ◌∷◌, [], List, ◌++◌, ◌-◌, ◌<◌, length, take, IfSome};
ghost use Rattle.std.specs.List.{flat_map};
ghost use Rattle.byteorder.specs.Endian.{little_bytes};
ghost use Rattle.wk_bytes.specs.Short.{short, short_signed};
ghost use Rattle.wk_bytes.specs.Span.{u32_at, signed_at, word_at};
ghost use Rattle.wk_body.specs.Vectors.{items_at, written_vector};
ghost use Rattle.wk_body.specs.Reading.{reserved_at, labels_at};
ghost use Rattle.wk_body.specs.declared.types.Profile.{Profile};
ghost use Rattle.wk_body.specs.declared.reencoder.Reencoder.{Reencoder};
ghost use Rattle.wk_body.specs.Minimal.{number_of};
ghost use Rattle.wk_body.specs.Shape.{depth_limit};
ghost use Rattle.wk_body.specs.Reencoding.{Passes, Keeps, PassesPlain, BlocksPass, GoesOn};

use crate::immediate_kind::{ImmediateKind, imm_kind};
use crate::minimal_len::{
    begins_nop, behind_short, blocks_after, may_skip, nops, other_len, takes_else,
};
use crate::opcode;
use crate::reading::{are_bytes, reserved};
use crate::token_len::min_len;
use crate::types::Profile;
use wk_bytes::{Cursor, leb_len_s64, leb_len_u32, put_s64, put_u32};

/// A code that is read, and its pending bytes: those from the first that is not written yet.
#[derive(Drop)]
pub(crate) struct Reencoder<'a> {
    pub(crate) cursor: Cursor<'a>,
    pub(crate) pending: &'a [u8],
}

// Writes the pending bytes that lie in front of the last `left` ones.
pub(crate) fn write_pending(out: &mut Vec<u8>, pending: &[u8], left: usize) -> Option<()>
    ensures { IfSome result
        (λ _. out.new.items ≡ out.old.items ++ take (length pending.now - left) pending.now) }
{
    let said = pending.get(..pending.len().checked_sub(left)?)?;
    out.extend_from_slice(said).ok()
}

// Writes the pending bytes in front of an unsigned integer, and the integer.
#[inline(never)]
fn respell_u32(out: &mut Vec<u8>, pending: &[u8], left: usize, n: u32) -> Option<()>
    ensures { IfSome result
        (λ _. out.new.items
        ≡ (out.old.items ++ take (length pending.now - left) pending.now) ++ short n) }
{
    write_pending(out, pending, left)?;
    put_u32(out, n).ok()
}

// Writes the pending bytes in front of a signed integer, and the integer.
#[inline(never)]
fn respell_signed(out: &mut Vec<u8>, pending: &[u8], left: usize, n: i64) -> Option<()>
    ensures { IfSome result
        (λ _. out.new.items
        ≡ (out.old.items ++ take (length pending.now - left) pending.now) ++ short_signed n) }
{
    write_pending(out, pending, left)?;
    put_s64(out, n).ok()
}

impl<'a> Reencoder<'a> {
    // The same reencoder, as a copy of its own.
    #[inline(always)]
    pub(crate) fn ahead(&self) -> Reencoder<'a>
        ensures { result ≡ self.now }
    {
        Reencoder {
            cursor: self.cursor.ahead(),
            pending: self.pending,
        }
    }
}

impl Reencoder<'_> {
    // An unsigned integer.
    #[inline(always)]
    pub(crate) fn pass_u32(&mut self, out: &mut Vec<u8>) -> Option<u32>
        ensures { IfSome result
            (λ n. Passes u32_at n (short n) out.old.items self.old out.new.items self.new) }
    {
        let left = self.cursor.rest().len();
        let Ok(n) = self.cursor.u32() else {
            return None;
        };
        let rest = self.cursor.rest();
        if left - rest.len() != leb_len_u32(n) {
            respell_u32(out, self.pending, left, n)?;
            self.pending = rest;
        }
        Some(n)
    }

    // A signed integer of 32 bits.
    #[inline(always)]
    fn pass_s32(&mut self, out: &mut Vec<u8>) -> Option<i32>
        ensures { IfSome result
            (λ n. Passes (signed_at 32) n (short_signed n) out.old.items self.old out.new.items
            self.new) }
    {
        let left = self.cursor.rest().len();
        let Ok(n) = self.cursor.s32() else {
            return None;
        };
        let rest = self.cursor.rest();
        if left - rest.len() != leb_len_s64(i64::from(n)) {
            respell_signed(out, self.pending, left, i64::from(n))?;
            self.pending = rest;
        }
        Some(n)
    }

    // A signed integer of 64 bits.
    #[inline(always)]
    fn pass_s64(&mut self, out: &mut Vec<u8>) -> Option<i64>
        ensures { IfSome result
            (λ n. Passes (signed_at 64) n (short_signed n) out.old.items self.old out.new.items
            self.new) }
    {
        let left = self.cursor.rest().len();
        let Ok(n) = self.cursor.s64() else {
            return None;
        };
        let rest = self.cursor.rest();
        if left - rest.len() != leb_len_s64(n) {
            respell_signed(out, self.pending, left, n)?;
            self.pending = rest;
        }
        Some(n)
    }

    // A word of four bytes.
    #[inline(always)]
    fn pass_word32(&mut self) -> Option<u32>
        ensures { IfSome result
            (λ word. Keeps (word_at 4) word (little_bytes 4 word) self.old self.new) }
    {
        // The proof asks what this says: each byte is below 256.
        are_bytes(self.cursor.rest());
        let Ok(word) = self.cursor.word32() else {
            return None;
        };
        Some(word)
    }

    // A word of eight bytes.
    #[inline(always)]
    fn pass_word64(&mut self) -> Option<u64>
        ensures { IfSome result
            (λ word. Keeps (word_at 8) word (little_bytes 8 word) self.old self.new) }
    {
        // The proof asks what this says: each byte is below 256.
        are_bytes(self.cursor.rest());
        let Ok(word) = self.cursor.word64() else {
            return None;
        };
        Some(word)
    }

    // A reserved byte.
    #[inline(always)]
    fn pass_reserved(&mut self) -> Option<u8>
        ensures { IfSome result (λ zero. Keeps reserved_at zero (0x00 ∷ []) self.old self.new) }
    {
        let Ok(zero) = reserved(&mut self.cursor) else {
            return None;
        };
        Some(zero)
    }

    // So many labels. It stands apart and has a copy of its own: where there are many, no cursor lies in memory. Those in front that
    // have a byte each take a look at that byte.
    #[inline(never)]
    fn labels_apart(&mut self, count: u32, out: &mut Vec<u8>) -> Option<()>
        ensures { IfSome result
            (λ _. (labels : List ℕ)
            × Passes (items_at u32_at count) labels (flat_map short labels) out.old.items
            self.old out.new.items self.new) }
    {
        let mut coder = self.ahead();
        let rest = coder.cursor.rest();
        let alone = behind_short(rest, 0, rest.len().min(count as usize)) as u32;
        let Ok(_) = coder.cursor.take(alone) else {
            unreachable!()
        };
        for _ in alone..count {
            coder.pass_u32(out)?;
        }
        *self = coder;
        Some(())
    }

    // So many labels. Not this one but a copy is lent to the function that stands apart: else it would lie in memory for all tokens.
    #[inline(always)]
    fn pass_labels(&mut self, count: u32, out: &mut Vec<u8>) -> Option<()>
        ensures { IfSome result
            (λ _. (labels : List ℕ)
            × Passes (items_at u32_at count) labels (flat_map short labels) out.old.items
            self.old out.new.items self.new) }
    {
        let mut own = self.ahead();
        own.labels_apart(count, out)?;
        *self = own;
        Some(())
    }

    // What stands behind the opcode of a `br_table`.
    #[inline(always)]
    fn pass_table(&mut self, out: &mut Vec<u8>) -> Option<()>
        ensures { IfSome result
            (λ _. (t : List ℕ × ℕ)
            × Passes labels_at t (written_vector short t.0 ++ short t.1) out.old.items self.old
            out.new.items self.new) }
    {
        let count = self.pass_u32(out)?;
        self.pass_labels(count, out)?;
        self.pass_u32(out)?;
        Some(())
    }

    // Tokens that are as short as they may be, as many as stand here in front of the last two bytes, where the innermost open blocks are
    // the bits of a number. (No jump depends on which of the minimal ones it is, so the processor foresees each but the one that ends
    // a run of them. Others that stay as they stand are passed over in the same loop: to leave it and to begin it again takes more
    // than the token.)
    #[inline(always)]
    pub(crate) fn skip_minimal(&mut self, blocks: u64) -> u64
        requires { blocks ≤ 2 ^ 62 }
        ensures small { result ≤ 2 ^ 62 }
        ensures goes { (ks below : List Bool) → blocks ≡ number_of ks
            → length below + 64 ≤ depth_limit → BlocksPass self.old self.new result ks below }
    {
        // The proof asks what these say: 32 bits hold the number of bytes, and each byte is below 256.
        self.cursor.at();
        let bytes = self.cursor.rest();
        are_bytes(bytes);
        let last = bytes.len().saturating_sub(2);
        let mut inner = blocks;
        let mut at = 0;
        while at < last {
            let opcode = bytes[at];
            let len = min_len(opcode);
            let after = blocks_after(inner, opcode);
            let (x, y) = (bytes[at + 1], bytes[at + 2]);
            let size = if may_skip(opcode, len, x, y, after) {
                inner = after;
                usize::from(len)
            } else if opcode < opcode::ELSE {
                if opcode != opcode::NOP || x == opcode::NOP {
                    break;
                }
                1
            } else if opcode == opcode::ELSE {
                if x == opcode::END || !takes_else(inner) {
                    break;
                }
                inner -= 1;
                1
            } else {
                let size = other_len(bytes, at);
                if size == 0 || bytes.len() - at < size {
                    break;
                }
                size
            };
            at += size;
        }
        let Ok(_) = self.cursor.take(at as u32) else {
            unreachable!()
        };
        inner
    }

    // The nops that stand here, which are more often many than any other instruction: their run takes a look at each byte.
    #[inline(always)]
    pub(crate) fn pass_nops(&mut self)
        ensures { (profile : Profile) (before out : List ℕ) (from : Reencoder) (ks : List Bool)
            → GoesOn profile before from ks out self.old
            → GoesOn profile before from ks out self.new }
    {
        // The proof asks what this says: 32 bits hold the number of bytes.
        self.cursor.at();
        let bytes = self.cursor.rest();
        if !begins_nop(bytes) {
            return;
        }
        let count = nops(bytes);
        let Ok(_) = self.cursor.take(count as u32) else {
            unreachable!()
        };
    }

    // What stands behind the opcode of an instruction that holds no others.
    #[inline(always)]
    pub(crate) fn pass_plain(
        &mut self,
        profile: Profile,
        opcode: u8,
        out: &mut Vec<u8>,
    ) -> Option<()>
        ensures { IfSome result
            (λ _. PassesPlain profile opcode out.old.items self.old out.new.items self.new) }
    {
        match imm_kind(profile, opcode)? {
            ImmediateKind::Nothing => Some(()),
            ImmediateKind::Reserved => {
                self.pass_reserved()?;
                Some(())
            }
            ImmediateKind::Index => {
                self.pass_u32(out)?;
                Some(())
            }
            ImmediateKind::IndexReserved => {
                self.pass_u32(out)?;
                self.pass_reserved()?;
                Some(())
            }
            ImmediateKind::Labels => {
                self.pass_table(out)?;
                Some(())
            }
            ImmediateKind::Memarg => {
                self.pass_u32(out)?;
                self.pass_u32(out)?;
                Some(())
            }
            ImmediateKind::Signed32 => {
                self.pass_s32(out)?;
                Some(())
            }
            ImmediateKind::Signed64 => {
                self.pass_s64(out)?;
                Some(())
            }
            ImmediateKind::Word32 => {
                self.pass_word32()?;
                Some(())
            }
            ImmediateKind::Word64 => {
                self.pass_word64()?;
                Some(())
            }
        }
    }
}
