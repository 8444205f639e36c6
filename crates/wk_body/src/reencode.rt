//! Writes a code again while it is read once.

ghost use Rattle.std.specs.Prelude.{◌≡◌, ◌+◌, ◌≤◌, ◌^◌, Bool, true, false, ◌++◌, ◌-◌, ◌∷◌, [], ℕ, List, length, take, Ok, IfErr, IfSome, MatchResult, OnOk};
ghost use Rattle.wk_bytes.specs.Fault.{no_memory};
ghost use Rattle.wk_bytes.specs.Stands.{StandsOrMemory};
ghost use Rattle.wk_body.specs.declared.types.LocalGroup.{LocalGroup};
ghost use Rattle.wk_body.specs.declared.reencoder.Reencoder.{Reencoder};
ghost use Rattle.wk_body.specs.ValTypes.{valtype_byte, valtype_at};
ghost use Rattle.wk_body.specs.Vectors.{written_vector};
ghost use Rattle.wk_body.specs.Tree.{Instrs};
ghost use Rattle.wk_body.specs.Reads.{FailsAs};
ghost use Rattle.wk_body.specs.Reading.{expr_at, all_body_at};
ghost use Rattle.wk_body.specs.TokenReading.{local_groups_at};
ghost use Rattle.wk_body.specs.Written.{type_bytes, written_group, written_expr, written_body};
ghost use Rattle.wk_body.specs.Minimal.{number_of};
ghost use Rattle.wk_body.specs.Reencoding.{Passes, PassesType, PassesGroups, Keeps, Behind, GoesOn, Goes, Ends, TakesElse, BlocksPass};
ghost use Rattle.wk_body.specs.Bodies.{BodyOf};
ghost use Rattle.wk_body.specs.Shape.{depth_limit};

use crate::length::type_len;
use crate::minimal_len::{MAX_BLOCKS, begins_minimal, blocks_after, number_of};
use crate::opcode;
use crate::reader::{at_end, local_type, reading_of_code};
use crate::reading::{MAX_DEPTH, are_bytes};
use crate::reencoder::{Reencoder, write_pending};
use crate::scratch::Scratch;
use crate::token_reader::TokenReader;
use crate::types::{BlockType, Profile, ValType};
use crate::writing::{append_body, put_type, written_form_of_code};
use std::alloc::Global;
use wk_bytes::{Cursor, ReadFault};

// Writes the pending bytes in front of a block type, and the type.
#[inline(never)]
fn respell_type(out: &mut Vec<u8>, pending: &[u8], left: usize, ty: BlockType) -> Option<()>
    ensures { IfSome result
        (λ _. out.new.items
        ≡ (out.old.items ++ take (length pending.now - left) pending.now) ++ type_bytes ty) }
{
    write_pending(out, pending, left)?;
    put_type(out, ty).ok()
}

// The type of a block that opens here, behind its opcode, which stands at `at`.
#[inline(always)]
fn pass_type(
    profile: Profile,
    at: u32,
    reader: &TokenReader,
    coder: &mut Reencoder<'_>,
    out: &mut Vec<u8>,
) -> Option<BlockType>
    ensures { IfSome result
        (λ ty. PassesType profile reader.now.kinds at ty out.old.items coder.old out.new.items
        coder.new) }
{
    // The proof asks what this says: each byte is below 256.
    are_bytes(coder.cursor.rest());
    let left = coder.cursor.rest().len();
    let Ok(ty) = reader.opening(profile, at, &mut coder.cursor) else {
        return None;
    };
    let rest = coder.cursor.rest();
    if (left - rest.len()) as u64 != type_len(ty) {
        respell_type(out, coder.pending, left, ty)?;
        coder.pending = rest;
    }
    Some(ty)
}

// Opens the blocks that are the bits of a number, above those that the reader has.
fn spill(inner: u64, reader: &mut TokenReader) -> Option<()>
    ensures { IfSome result
        (λ _. (ks : List Bool) → inner ≡ number_of ks → reader.new.kinds ≡ ks ++ reader.old.kinds) }
{
    let mut turned: u64 = 1;
    let mut left = inner;
    while left > 1 {
        turned = turned.checked_mul(2)? + left % 2;
        left /= 2;
    }
    while turned > 1 {
        let Ok(()) = reader.open(turned % 2 == 1) else {
            return None;
        };
        turned /= 2;
    }
    Some(())
}

// How many blocks a refill takes from the reader at once, at most: half of what the bits hold. So 31 openers come in front of the next
// spill, and 31 ends in front of the next refill: no code has more than three blocks moved for each of its openers
// and ends.
const MAX_REFILL: usize = 31;

// Takes the innermost open blocks back from the reader, as the bits of a number: then the ends behind them go by the table again.
#[inline(never)]
fn refill(reader: &mut TokenReader) -> u64
    ensures small { result ≤ 2 ^ 62 }
    ensures taken { (next : List Bool) × (result ≡ number_of next)
        × (reader.old.kinds ≡ next ++ reader.new.kinds) }
{
    let blocks = reader.innermost(MAX_REFILL);
    let count = blocks.len();
    let inner = number_of(blocks);
    reader.close_blocks(count);
    inner
}

// Whether blocks may be open as the bits of a number, above those that the reader has: they are fewer than 64.
#[inline(always)]
fn has_room(reader: &TokenReader) -> bool
    ensures { result ≡ true → length reader.now.kinds + 64 ≤ depth_limit }
{
    reader.depth() <= MAX_DEPTH - 64
}

// Tokens that are as short as they may be.
#[inline(always)]
fn skip_minimal(inner: u64, reader: &TokenReader, coder: &mut Reencoder<'_>) -> u64
    requires { inner ≤ 2 ^ 62 }
    ensures small { result ≤ 2 ^ 62 }
    ensures goes { (ks : List Bool) → inner ≡ number_of ks
        → BlocksPass coder.old coder.new result ks reader.now.kinds }
{
    if !begins_minimal(coder.cursor.rest()) || !has_room(reader) {
        return inner;
    }
    coder.skip_minimal(inner)
}

// A block opens, behind its opcode, which stands at `at`, where it has no room among the bits: then all open blocks are the reader's.
#[inline(never)]
fn open_spilled(
    profile: Profile,
    opcode: u8,
    at: u32,
    inner: u64,
    reader: &mut TokenReader,
    coder: &mut Reencoder<'_>,
    out: &mut Vec<u8>,
) -> Option<()>
    requires opener { (0x02 ≤ opcode) × (opcode ≤ 0x04) }
    ensures { (before : List ℕ) (from token : Reencoder) (ks : List Bool)
        → inner ≡ number_of ks → Behind opcode token coder.old
        → at ≡ token.cursor.end - length token.cursor.rest
        → GoesOn profile before from (ks ++ reader.old.kinds) out.old.items token
        → IfSome result (λ _. GoesOn profile before from reader.new.kinds out.new.items coder.new) }
{
    spill(inner, reader)?;
    pass_type(profile, at, reader, coder, out)?;
    let Ok(()) = reader.open(opcode == opcode::IF) else {
        return None;
    };
    Some(())
}

// A block opens, behind its opcode, which stands at `at`.
#[inline(always)]
fn pass_opening(
    profile: Profile,
    opcode: u8,
    at: u32,
    inner: &mut u64,
    reader: &mut TokenReader,
    coder: &mut Reencoder<'_>,
    out: &mut Vec<u8>,
) -> Option<()>
    requires opener { (0x02 ≤ opcode) × (opcode ≤ 0x04) }
    requires small { inner.old ≤ 2 ^ 62 }
    ensures small { IfSome result (λ _. inner.new ≤ 2 ^ 62) }
    ensures goes { (before : List ℕ) (from token : Reencoder) (ks : List Bool)
        → inner.old ≡ number_of ks → Behind opcode token coder.old
        → at ≡ token.cursor.end - length token.cursor.rest
        → GoesOn profile before from (ks ++ reader.old.kinds) out.old.items token
        → IfSome result (λ _. (next : List Bool) × (inner.new ≡ number_of next)
        × GoesOn profile before from (next ++ reader.new.kinds) out.new.items coder.new) }
{
    let after = blocks_after(*inner, opcode);
    if MAX_BLOCKS < after || !has_room(reader) {
        // A copy is lent: else the reencoder would lie in memory for all tokens.
        let mut own = coder.ahead();
        open_spilled(profile, opcode, at, *inner, reader, &mut own, out)?;
        *coder = own;
        *inner = 1;
        return Some(());
    }
    // A block of a longer type is one of the bits too: else code of such blocks would have all of them moved at each.
    pass_type(profile, at, reader, coder, out)?;
    *inner = after;
    Some(())
}

// An end. Whether it closes no block.
#[inline(always)]
fn pass_end(inner: &mut u64, reader: &mut TokenReader) -> bool
    requires { inner.old ≤ 2 ^ 62 }
    ensures small { inner.new ≤ 2 ^ 62 }
    ensures ends { (ks : List Bool) → inner.old ≡ number_of ks
        → Ends result (ks ++ reader.old.kinds) inner.new reader.new.kinds }
{
    if *inner > 1 {
        *inner /= 2;
        return false;
    }
    if !reader.close_block() {
        return true;
    }
    if has_room(reader) {
        *inner = refill(reader);
    }
    false
}

// The innermost open block has its else, whose opcode stands at `at`.
#[inline(always)]
fn else_block(at: u32, inner: &mut u64, reader: &mut TokenReader) -> Option<()>
    ensures less { IfSome result (λ _. inner.new ≤ inner.old) }
    ensures takes { (ks : List Bool) → inner.old ≡ number_of ks
        → IfSome result (λ _. TakesElse (ks ++ reader.old.kinds) inner.new reader.new.kinds) }
{
    if *inner > 1 {
        if *inner % 2 == 0 {
            return None;
        }
        *inner -= 1;
        return Some(());
    }
    let Ok(_) = reader.other(at) else {
        return None;
    };
    Some(())
}

// An else, behind its opcode, before which `left` bytes were left. It goes where its branch is empty.
#[inline(always)]
fn pass_else(left: usize, coder: &mut Reencoder<'_>, out: &mut Vec<u8>) -> Option<()>
    ensures { (profile : Profile) (before : List ℕ) (from at : Reencoder) (outer : List Bool)
        → Behind 0x05 at coder.old → left ≡ length at.cursor.rest
        → GoesOn profile before from (true ∷ outer) out.old.items at
        → IfSome result (λ _. GoesOn profile before from (false ∷ outer) out.new.items coder.new) }
{
    let rest = coder.cursor.rest();
    let (next, _) = rest.split_first()?;
    if *next == opcode::END {
        write_pending(out, coder.pending, left)?;
        coder.pending = rest;
    }
    Some(())
}

// A token. Whether it is the end that closes no block.
#[inline(always)]
fn pass_token(
    profile: Profile,
    inner: &mut u64,
    reader: &mut TokenReader,
    coder: &mut Reencoder<'_>,
    out: &mut Vec<u8>,
) -> Option<bool>
    requires { inner.old ≤ 2 ^ 62 }
    ensures small { IfSome result (λ _. inner.new ≤ 2 ^ 62) }
    ensures goes { (before : List ℕ) (from : Reencoder) (ks : List Bool) → inner.old ≡ number_of ks
        → GoesOn profile before from (ks ++ reader.old.kinds) out.old.items coder.old
        → IfSome result
        (λ last. (next : List Bool) × (inner.new ≡ number_of next)
        × Goes last profile before from (next ++ reader.new.kinds) out.new.items
        coder.new) }
{
    let at = coder.cursor.at();
    let left = coder.cursor.rest().len();
    let Ok(opcode) = coder.cursor.byte() else {
        return None;
    };
    match opcode {
        opcode::END => Some(pass_end(inner, reader)),
        opcode::BLOCK..=opcode::IF => {
            pass_opening(profile, opcode, at, inner, reader, coder, out)?;
            Some(false)
        }
        opcode::ELSE => {
            else_block(at, inner, reader)?;
            pass_else(left, coder, out)?;
            Some(false)
        }
        opcode::NOP => {
            coder.pass_plain(profile, opcode::NOP, out)?;
            coder.pass_nops();
            Some(false)
        }
        _ => {
            coder.pass_plain(profile, opcode, out)?;
            Some(false)
        }
    }
}

// The instructions up to their end.
fn pass_expr(
    profile: Profile,
    reader: &mut TokenReader,
    coder: &mut Reencoder<'_>,
    out: &mut Vec<u8>,
) -> Option<()>
    ensures { IfSome result
        (λ _. (t : Instrs)
        × Passes (expr_at profile) t (written_expr t) out.old.items coder.old out.new.items
        coder.new) }
{
    reader.begin();
    let mut inner: u64 = 1;
    let mut left = coder.cursor.rest().len();
    while left > 0 {
        inner = skip_minimal(inner, reader, coder);
        if pass_token(profile, &mut inner, reader, coder, out)? {
            return Some(());
        }
        left -= 1;
    }
    None
}

// A local group's type.
#[inline(always)]
fn pass_valtype(coder: &mut Reencoder<'_>) -> Option<ValType>
    ensures { IfSome result (λ ty. Keeps valtype_at ty (valtype_byte ty ∷ []) coder.old coder.new) }
{
    // The proof asks what this says: each byte is below 256.
    are_bytes(coder.cursor.rest());
    let Ok(ty) = local_type(&mut coder.cursor) else {
        return None;
    };
    Some(ty)
}

// So many local groups. It stands apart and has a copy of its own: where there are many, no cursor lies in memory.
#[inline(never)]
fn pass_groups(count: u32, coder: &mut Reencoder<'_>, out: &mut Vec<u8>) -> Option<()>
    ensures { IfSome result
        (λ _. (groups : List LocalGroup)
        × PassesGroups count groups out.old.items coder.old out.new.items coder.new) }
{
    let mut own = coder.ahead();
    let mut declared: u32 = 0;
    for _ in 0..count {
        let count = own.pass_u32(out)?;
        let Some(sum) = declared.checked_add(count) else {
            return None;
        };
        pass_valtype(&mut own)?;
        declared = sum;
    }
    *coder = own;
    Some(())
}

// The local groups of a body.
fn pass_locals(coder: &mut Reencoder<'_>, out: &mut Vec<u8>) -> Option<()>
    ensures { IfSome result
        (λ _. (groups : List LocalGroup)
        × Passes local_groups_at groups (written_vector written_group groups) out.old.items
        coder.old out.new.items coder.new) }
{
    let count = coder.pass_u32(out)?;
    // A copy is lent: else the reencoder would lie in memory for all tokens behind.
    let mut own = coder.ahead();
    pass_groups(count, &mut own, out)?;
    *coder = own;
    Some(())
}

// Walks over the body that all that the cursor has left spells, and writes it to an empty room but for the pending bytes that it
// answers; or answers nothing where anything is unclear.
fn walk_body<'a>(
    profile: Profile,
    reader: &mut TokenReader,
    cursor: &Cursor<'a>,
    out: &mut Vec<u8>,
) -> Option<&'a [u8]>
    requires { out.old.items ≡ [] }
    ensures { IfSome result
        (λ pending. (b : BodyOf) × (all_body_at profile cursor.now.end cursor.now.rest ≡ Ok b)
        × (out.new.items ++ pending.now ≡ written_body b)) }
{
    let mut coder = Reencoder {
        cursor: cursor.ahead(),
        pending: cursor.rest(),
    };
    pass_locals(&mut coder, out)?;
    pass_expr(profile, reader, &mut coder, out)?;
    let Ok(()) = at_end(&coder.cursor) else {
        return None;
    };
    Some(coder.pending)
}

// Writes the body that all that the cursor has left spells to an empty room, or answers nothing where anything is unclear.
fn rewrite(
    profile: Profile,
    reader: &mut TokenReader,
    cursor: &Cursor<'_>,
    out: &mut Vec<u8>,
) -> Option<()>
    ensures { IfSome result
        (λ _. (b : BodyOf) × (all_body_at profile cursor.now.end cursor.now.rest ≡ Ok b)
        × (out.new.items ≡ written_body b)) }
{
    out.clear();
    out.reserve(cursor.rest().len()).ok()?;
    let pending = walk_body(profile, reader, cursor, out)?;
    write_pending(out, pending, 0)?;
    Some(())
}

impl Scratch {
    // Forgets what was written, and makes room to walk over a code of that length. The walk then wants no memory: what is written is no
    // longer than the code, and opens no more blocks than it has bytes.
    fn make_room(&mut self, len: usize) -> Result<(), ReadFault>
        ensures empty { OnOk result (self.new.written.items ≡ []) }
        ensures fault { IfErr result (λ e. e ≡ no_memory) }
    {
        self.written.clear();
        self.written.reserve(len)?;
        self.reader.make_room(len.min(MAX_DEPTH))?;
        Ok(())
    }

    // The written form of a body that is read whole first, in a room of its own: the first fault of reading is answered where there
    // is one.
    fn read_and_write(
        &mut self,
        alloc: Global,
        cursor: &Cursor<'_>,
        profile: Profile,
    ) -> Result<&[u8], ReadFault>
        ensures exact { MatchResult result
            (λ written. (b : BodyOf) × (all_body_at profile cursor.now.end cursor.now.rest ≡ Ok b)
            × (written.now ≡ written_body b))
            (λ e. FailsAs e e.kind (all_body_at profile cursor.now.end cursor.now.rest)) }
        ensures fault { IfErr result (λ e. StandsOrMemory cursor.now e) }
    {
        let body = self.read_body(alloc, cursor, profile)?;
        self.written.clear();
        append_body(&mut self.written, &body)?;
        Ok(&self.written)
    }

    /// Lends the written form of the one body that all that the cursor has left spells (5.5.13), which the next call forgets. It is
    /// read once and not kept; one that is refused is read again for its fault.
    ///
    /// # Errors
    /// The first fault from left to right, which says that the bytes spell no body of the profile, or `Memory` at 0 where a growth
    /// was refused.
    pub fn written_form(
        &mut self,
        alloc: Global,
        cursor: &Cursor<'_>,
        profile: Profile,
    ) -> Result<&[u8], ReadFault>
        ensures exact { MatchResult result
            (λ written. (b : BodyOf) × (all_body_at profile cursor.now.end cursor.now.rest ≡ Ok b)
            × (written.now ≡ written_body b))
            (λ e. FailsAs e e.kind (all_body_at profile cursor.now.end cursor.now.rest)) }
        ensures fault { IfErr result (λ e. StandsOrMemory cursor.now e) }
    {
        self.make_room(cursor.rest().len())?;
        if rewrite(profile, &mut self.reader, cursor, &mut self.written).is_some() {
            return Ok(&self.written);
        }
        self.read_and_write(alloc, cursor, profile)
    }

    /// How many bytes the written form has of the one body that all that the cursor has left spells (5.5.13), without its size. The
    /// body is read once and not kept; one that is refused is read again for its fault.
    ///
    /// Of a code that is its own written form nothing is copied; of another one what stands up to its last integer or empty else that is
    /// spelled longer than need be. There is room for all of it before it is read.
    ///
    /// # Errors
    /// The first fault from left to right, which says that the bytes spell no body of the profile, or `Memory` at 0 where a growth
    /// was refused.
    pub fn written_len(
        &mut self,
        alloc: Global,
        cursor: &Cursor<'_>,
        profile: Profile,
    ) -> Result<u32, ReadFault>
        ensures exact { MatchResult result
            (λ len. (b : BodyOf) × (all_body_at profile cursor.now.end cursor.now.rest ≡ Ok b)
            × (len ≡ length (written_body b)))
            (λ e. FailsAs e e.kind (all_body_at profile cursor.now.end cursor.now.rest)) }
        ensures fault { IfErr result (λ e. StandsOrMemory cursor.now e) }
    {
        // The proof asks what these say: no written form is longer than a code, and a code is no longer than a module may be.
        reading_of_code();
        written_form_of_code();
        are_bytes(cursor.rest());
        let _at = cursor.at();
        // As in `written_form`, the walk then wants no memory, so that one that is refused is told.
        self.make_room(cursor.rest().len())?;
        if let Some(pending) = walk_body(profile, &mut self.reader, cursor, &mut self.written) {
            return Ok((self.written.len() + pending.len()) as u32);
        }
        let written = self.read_and_write(alloc, cursor, profile)?;
        Ok(written.len() as u32)
    }
}
