//! Several imports at once in front of what a module defines: what the written form of a body is then, by the one before alone.

ghost use Rattle.std.specs.Prelude.{◌≡◌, ◌<◌, ◌≤◌, ◌^◌, ◌+◌, ◌++◌, ℕ, List, true, false, None, Some, drop, length, IfOk, IfSome, OnErr, slice_index};
ghost use Rattle.wk_bytes.specs.Short.{short};
ghost use Rattle.wk_body.specs.Bodies.{BodyOf, AreGroups};
ghost use Rattle.wk_body.specs.Shape.{IsShaped};
ghost use Rattle.wk_body.specs.Tree.{Tok};
ghost use Rattle.wk_body.specs.Vectors.{written_vector};
ghost use Rattle.wk_body.specs.Written.{tok_bytes, written_body, StaysInFront};
ghost use Rattle.wk_body.specs.declared.shifts.Shifts.{Shifts};
ghost use Rattle.wk_body.specs.Shifts.{shifted, shifted_body};
ghost use Rattle.wk_body.specs.ShiftSteps.{IsInteger, AreIntegers, IsReferring, index_after, IsTokInRange, Shifting, ShiftsOn, StaysBehind};

use crate::opcode;
use crate::token_len::{is_minimal, stride};
use crate::writing::put_index;
use wk_bytes::{Cursor, LIMIT, OutOfMemory};

/// Where references stand, since so many imports came in front of what a module defines.
#[derive(Clone, Copy, Debug, PartialEq, Eq)]
pub struct Shifts {
    /// The index of the first function in front of which functions came, as it stood before they did.
    pub funcs_from: u32,
    /// How many functions came.
    pub funcs_by: u32,
    /// The index of the first global in front of which globals came, as it stood before they did.
    pub globals_from: u32,
    /// How many globals came.
    pub globals_by: u32,
}

// The offset behind the integer at an offset.
#[inline(always)]
fn behind_integer(code: &[u8], at: usize) -> Option<usize>
    requires { at ≤ length code.now }
    ensures within { IfSome result (λ end. (at < end) × (end ≤ length code.now)) }
    ensures exact { (front later : List ℕ) → IsInteger front → drop at code.now ≡ front ++ later
        → result ≡ Some (at + length front) }
{
    let mut end = at;
    while end < code.len() {
        let byte = code[end];
        end += 1;
        if byte < 128 {
            return Some(end);
        }
    }
    None
}

// The offset behind so many integers at an offset.
#[inline(always)]
fn behind_integers(code: &[u8], at: usize, count: usize) -> Option<usize>
    requires { at ≤ length code.now }
    ensures within { IfSome result (λ end. (at ≤ end) × (end ≤ length code.now)) }
    ensures exact { (front later : List ℕ) → AreIntegers count front
        → drop at code.now ≡ front ++ later → result ≡ Some (at + length front) }
{
    let mut end = at;
    for _ in 0..count {
        end = behind_integer(code, end)?;
    }
    Some(end)
}

// The index at an offset, and the offset behind it.
#[inline(always)]
fn index_at(code: &[u8], at: usize) -> Option<(u32, usize)>
    ensures within { IfSome result (λ found. (at ≤ found.1) × (found.1 ≤ length code.now)) }
    ensures exact { (x : ℕ) (later : List ℕ) → x < 2 ^ 32 → drop at code.now ≡ short x ++ later
        → result ≡ Some (x, at + length (short x)) }
{
    let byte = *code.get(at)?;
    if byte < 128 {
        return Some((u32::from(byte), at + 1));
    }
    // No index has more than five bytes, and no cursor is over more than a module has.
    let front = &code[at..code.len().min(at + 5)];
    let mut cursor = Cursor::new(front);
    let Ok(x) = cursor.u32() else {
        return None;
    };
    Some((x, at + (front.len() - cursor.rest().len())))
}

// The offset behind the labels of a `br_table` at an offset.
fn behind_labels(code: &[u8], at: usize) -> Option<usize>
    ensures within { IfSome result (λ end. (at ≤ end) × (end ≤ length code.now)) }
    ensures exact { (labels : List ℕ) (other : ℕ) (later : List ℕ) → length labels < 2 ^ 32
        → drop at code.now ≡ (written_vector short labels ++ short other) ++ later
        → result ≡ Some (at + length (written_vector short labels ++ short other)) }
{
    let (count, first) = index_at(code, at)?;
    behind_integers(code, first, count as usize + 1)
}

// The offset behind so many bytes at an offset.
fn behind_bytes(code: &[u8], at: usize, size: usize) -> Option<usize>
    requires { at ≤ length code.now }
    ensures within { IfSome result (λ end. (at ≤ end) × (end ≤ length code.now)) }
    ensures exact { (front later : List ℕ) → length front ≡ size → drop at code.now ≡ front ++ later
        → result ≡ Some (at + length front) }
{
    if code.len() - at < size {
        return None;
    }
    Some(at + size)
}

// The offset behind a token at an offset, of which nothing moves.
fn behind_token(code: &[u8], at: usize, opcode: u8) -> Option<usize>
    requires inside { at < length code.now }
    requires opcode { opcode ≡ slice_index code.now at }
    requires still { IsReferring opcode → ⊥ }
    ensures within { IfSome result (λ end. (at < end) × (end ≤ length code.now)) }
    ensures exact { (t : Tok) (later : List ℕ) → IsTokInRange t
        → drop at code.now ≡ tok_bytes t ++ later → result ≡ Some (at + length (tok_bytes t)) }
{
    let next = at + 1;
    match opcode {
        opcode::BR_TABLE => behind_labels(code, next),
        opcode::F32_CONST => behind_bytes(code, next, 4),
        opcode::F64_CONST => behind_bytes(code, next, 8),
        _ => {
            let count = stride(opcode).checked_sub(1)?;
            behind_integers(code, next, usize::from(count))
        }
    }
}

// The index behind an opcode, moved. There is none where it has no place.
fn index_after(opcode: u8, x: u32, shifts: Shifts) -> Option<u32>
    ensures some { IfSome result (λ y. y ≡ index_after shifts opcode x) }
    ensures none { result ≡ None → 2 ^ 32 ≤ index_after shifts opcode x }
{
    let (from, by) = if opcode == opcode::CALL {
        (shifts.funcs_from, shifts.funcs_by)
    } else {
        (shifts.globals_from, shifts.globals_by)
    };
    if x < from {
        return Some(x);
    }
    x.checked_add(by)
}

// A token at an offset that refers to a function or a global. Where its index moves, the run in front of it is written, and the token.
fn pass_reference(
    out: &mut Vec<u8>,
    code: &[u8],
    run: &mut usize,
    at: &mut usize,
    opcode: u8,
    shifts: Shifts,
) -> Result<bool, OutOfMemory>
    requires inside { at.old < length code.now }
    requires order { run.old ≤ at.old }
    requires opcode { opcode ≡ slice_index code.now at.old }
    requires referring { IsReferring opcode }
    ensures within { IfOk result
        (λ done. done ≡ true
        → (at.old < at.new) × (at.new ≤ length code.now) × (run.new ≤ at.new)) }
    ensures goes { IfOk result
        (λ done. done ≡ true
        → ShiftsOn shifts code.now out.old.items run.old at.old out.new.items run.new at.new) }
    ensures stays { IfOk result
        (λ done. done ≡ false → StaysBehind shifts code.now out.old.items run.old at.old) }
    ensures front { StaysInFront out.old.items out.new.items }
{
    let Some((x, end)) = index_at(code, *at + 1) else {
        return Ok(false);
    };
    let Some(y) = index_after(opcode, x, shifts) else {
        return Ok(false);
    };
    if y != x {
        out.extend_from_slice(&code[*run..*at])?;
        put_index(out, opcode, y)?;
        *run = end;
    }
    *at = end;
    Ok(true)
}

// The token at an offset.
fn pass_token(
    out: &mut Vec<u8>,
    code: &[u8],
    run: &mut usize,
    at: &mut usize,
    shifts: Shifts,
) -> Result<bool, OutOfMemory>
    requires inside { at.old < length code.now }
    requires order { run.old ≤ at.old }
    ensures within { IfOk result
        (λ done. done ≡ true
        → (at.old < at.new) × (at.new ≤ length code.now) × (run.new ≤ at.new)) }
    ensures goes { IfOk result
        (λ done. done ≡ true
        → ShiftsOn shifts code.now out.old.items run.old at.old out.new.items run.new at.new) }
    ensures stays { IfOk result
        (λ done. done ≡ false → StaysBehind shifts code.now out.old.items run.old at.old) }
    ensures front { StaysInFront out.old.items out.new.items }
{
    let opcode = code[*at];
    if opcode == opcode::CALL || opcode == opcode::GLOBAL_GET || opcode == opcode::GLOBAL_SET {
        return pass_reference(out, code, run, at, opcode, shifts);
    }
    let Some(end) = behind_token(code, *at, opcode) else {
        return Ok(false);
    };
    *at = end;
    Ok(true)
}

// The offset behind the token at an offset, where it has integers alone behind its opcode and nothing of it moves.
#[inline(always)]
fn behind_regular(code: &[u8], at: usize) -> Option<usize>
    requires { at + 2 < length code.now }
    ensures within { IfSome result (λ end. (at < end) × (end ≤ length code.now)) }
    ensures goes { IfSome result
        (λ end. (s : Shifts) (out : List ℕ) (run : ℕ) → run ≤ at
        → ShiftsOn s code.now out run at out run end) }
{
    let len = stride(code[at]);
    if is_minimal(len, code[at + 1], code[at + 2]) {
        return Some(at + usize::from(len));
    }
    let count = len.checked_sub(1)?;
    let end = behind_integers(code, at + 1, usize::from(count))?;
    Some(end)
}

// The offset behind such tokens, as many as stand at an offset in front of the last two bytes.
#[inline(always)]
fn behind_run(code: &[u8], from: usize) -> usize
    requires { from ≤ length code.now }
    ensures within { (from ≤ result) × (result ≤ length code.now) }
    ensures goes { (s : Shifts) (out : List ℕ) (run : ℕ) → run ≤ from
        → ShiftsOn s code.now out run from out run result }
{
    let last = code.len().saturating_sub(2);
    let mut at = from;
    while at < last {
        let Some(end) = behind_regular(code, at) else {
            break;
        };
        at = end;
    }
    at
}

// Appends a code from its tokens on, which begin at `head`, with what stands in front of them.
pub(crate) fn put_tokens(
    out: &mut Vec<u8>,
    code: &[u8],
    head: usize,
    shifts: Shifts,
) -> Result<bool, OutOfMemory>
    requires { head ≤ length code.now }
    ensures goes { IfOk result (λ done. done ≡ true → (all : List Tok) (goal : List ℕ)
        → Shifting shifts all goal code.now out.old.items 0 head → out.new.items ≡ goal) }
    ensures stays { IfOk result
        (λ done. done ≡ false → StaysBehind shifts code.now out.old.items 0 head) }
    ensures front { StaysInFront out.old.items out.new.items }
{
    let mut run = 0;
    let mut at = head;
    while at < code.len() {
        if !pass_token(out, code, &mut run, &mut at, shifts)? {
            return Ok(false);
        }
        at = behind_run(code, at);
    }
    out.extend_from_slice(&code[run..])?;
    Ok(true)
}

// The written form of a body with its references where they stand then, or a part of it.
fn put_shifts(out: &mut Vec<u8>, code: &[u8], shifts: Shifts) -> Result<bool, OutOfMemory>
    ensures exact { IfOk result
        (λ done. done ≡ true → (b : BodyOf) → AreGroups b.groups → IsShaped b.instrs
        → code.now ≡ written_body b
        → out.new.items ≡ out.old.items ++ written_body (shifted_body shifts b)) }
    ensures sure { IfOk result
        (λ done. done ≡ false → (b : BodyOf) → AreGroups b.groups → IsShaped b.instrs
        → code.now ≡ written_body b → length code.now ≤ LIMIT
        → IsShaped (shifted_body shifts b).instrs → ⊥) }
    ensures front { StaysInFront out.old.items out.new.items }
{
    if shifts.funcs_by == 0 && shifts.globals_by == 0 {
        out.extend_from_slice(code)?;
        return Ok(true);
    }
    if code.len() > LIMIT {
        return Ok(false);
    }
    let Some((groups, first)) = index_at(code, 0) else {
        return Ok(false);
    };
    let Some(head) = behind_integers(code, first, 2 * groups as usize) else {
        return Ok(false);
    };
    put_tokens(out, code, head, shifts)
}

/// Appends the written form of a body with its references where they stand then, by the one before, which is `code`.
///
/// Says whether it did: it did where no index that moves gets past 4,294,967,295 and the code is no longer than a module may be. If it
/// did not, and after a refusal, `out` holds what it held before.
///
/// It goes once over the bytes, keeps nothing, and takes them for a written form: of other bytes no more is promised than that `out`
/// begins with what it held before.
pub fn append_shifts(out: &mut Vec<u8>, code: &[u8], shifts: Shifts) -> Result<bool, OutOfMemory>
    ensures exact { IfOk result
        (λ done. done ≡ true → (b : BodyOf) → AreGroups b.groups → IsShaped b.instrs
        → code.now ≡ written_body b
        → out.new.items ≡ out.old.items ++ written_body (shifted_body shifts b)) }
    ensures sure { IfOk result
        (λ done. done ≡ false → (b : BodyOf) → AreGroups b.groups → IsShaped b.instrs
        → code.now ≡ written_body b → length code.now ≤ LIMIT
        → IsShaped (shifted_body shifts b).instrs → ⊥) }
    ensures front { StaysInFront out.old.items out.new.items }
    ensures unmoved { IfOk result (λ done. done ≡ false → out.new.items ≡ out.old.items) }
    ensures err { OnErr result (out.new.items ≡ out.old.items) }
{
    let start = out.len();
    let done = put_shifts(out, code, shifts);
    if let Ok(true) = done {
        return Ok(true);
    }
    out.truncate(start);
    done
}
