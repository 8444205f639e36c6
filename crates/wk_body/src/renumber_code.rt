//! What an import makes of what is kept of a body: what it refers to, and its written form.

ghost use Rattle.std.specs.Prelude.{◌≡◌, ◌++◌, ◌∷◌, ℕ, false, IfOk, OnErr, OnOk};
ghost use Rattle.wk_body.specs.Instructions.{Plain};
ghost use Rattle.wk_body.specs.Moved.{moved_ref};
ghost use Rattle.wk_body.specs.References.{refs_of, moved_plain, is_stuck, any_stuck, shift_body, shift_instrs, AreRising, AreSame};
ghost use Rattle.wk_body.specs.Shifts.{shifted_plain};
ghost use Rattle.wk_body.specs.Tree.{Instrs};
ghost use Rattle.wk_body.specs.Written.{written_body, StaysInFront};

use crate::body::Body;
use crate::length::groups_len;
use crate::references::{Ref, add};
use crate::renumber::{Moving, next_index};
use crate::shifts::{Shifts, put_tokens};
use crate::writing::or_undone;
use std::alloc::Global;
use std::collections::BTreeSet;
use wk_bytes::OutOfMemory;

// A reference that has a next where it moves, moved.
fn shifted_ref(kind: Moving, from: u32, reference: Ref) -> Ref
    requires { is_stuck kind from reference ≡ false }
    ensures { result ≡ moved_ref kind from reference }
{
    match (kind, reference) {
        (Moving::Func, Ref::Func(x)) => Ref::Func(next_index(from, x)),
        (Moving::Global, Ref::Global(x)) => Ref::Global(next_index(from, x)),
        (_, other) => other,
    }
}

/// What a function refers to after [`shift`](crate::shift) of its body, by what it refers to before, as [`uses`](crate::uses) answers
/// both.
pub fn shift_uses(
    alloc: Global,
    uses: &BTreeSet<Ref>,
    kind: Moving,
    from: u32,
) -> Result<BTreeSet<Ref>, OutOfMemory>
    requires { any_stuck kind from uses.now.keys ≡ false }
    ensures rising { IfOk result (λ s. AreRising s.keys) }
    ensures exact { IfOk result
        (λ s. (own_type : ℕ) (t : Instrs) → AreSame uses.now.keys (Ref.Ty own_type ∷ refs_of t)
        → AreSame s.keys (Ref.Ty own_type ∷ refs_of (shift_instrs kind from t))) }
{
    let mut found = BTreeSet::new(alloc);
    for reference in uses {
        add(&mut found, shifted_ref(kind, from, *reference))?;
    }
    Ok(found)
}

// Where references stand, since one import of a kind came.
fn one_import(kind: Moving, from: u32) -> Shifts
    ensures { (p : Plain) → shifted_plain result p ≡ moved_plain kind from p }
{
    let (funcs_by, globals_by) = match kind {
        Moving::Func => (1, 0),
        Moving::Global => (0, 1),
    };
    Shifts {
        funcs_from: from,
        funcs_by,
        globals_from: from,
        globals_by,
    }
}

// The written form of a body after a shift.
fn put_shifted(
    out: &mut Vec<u8>,
    body: &Body,
    code: &[u8],
    kind: Moving,
    from: u32,
) -> Result<(), OutOfMemory>
    requires free { any_stuck kind from (refs_of body.now.instrs) ≡ false }
    requires code { code.now ≡ written_body body.now }
    ensures ok { OnOk result
        (out.new.items ≡ out.old.items ++ written_body (shift_body kind from body.now)) }
    ensures err { OnErr result (StaysInFront out.old.items out.new.items) }
{
    // The proof asks what this says: all numbers of its instructions are in their ranges.
    body.tokens();
    let head = groups_len(body.groups()) as usize;
    let whole = put_tokens(out, code, head, one_import(kind, from))?;
    prove!(whole);
    Ok(())
}

/// Appends the written form of a body after [`shift`](crate::shift), by the one before, which is `code`. After a refusal `out` holds
/// what it held before.
pub fn append_shifted(
    out: &mut Vec<u8>,
    body: &Body,
    code: &[u8],
    kind: Moving,
    from: u32,
) -> Result<(), OutOfMemory>
    requires free { any_stuck kind from (refs_of body.now.instrs) ≡ false }
    requires code { code.now ≡ written_body body.now }
    ensures ok { OnOk result
        (out.new.items ≡ out.old.items ++ written_body (shift_body kind from body.now)) }
    ensures err { OnErr result (out.new.items ≡ out.old.items) }
{
    let start = out.len();
    let appended = put_shifted(out, body, code, kind, from);
    or_undone(out, start, appended)
}
