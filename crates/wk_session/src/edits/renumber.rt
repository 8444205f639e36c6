//! What an import moves: the code entries that hold a reference of its kind to what comes behind the imported ones.

ghost use Rattle.std.specs.Prelude.{◌≡◌, ◌++◌, [], ◌∷◌, OnOk, Some, false, is_some, true, length, map, option_map, IfOk, ◌+◌, ◌<◌, ◌^◌};
ghost use Rattle.std.specs.List.{list_any};
ghost use Rattle.wk_body.specs.Moves.{is_moving, movement_of};
ghost use Rattle.wk_body.specs.References.{is_stuck, any_stuck, refs_of, shift_body};
ghost use Rattle.wk_body.specs.Written.{written_body};
ghost use Rattle.wk_module.specs.declared.types.Func.{Func as FuncOf};
ghost use Rattle.wk_module.specs.Moving.{moved_func, is_code_moving, is_code_stuck, with_lists};
ghost use Rattle.wk_pieces.specs.Pieces.{code_of};
ghost use Rattle.wk_session.specs.Kept.{uses_of};
ghost use Rattle.wk_session.specs.Dependents.{one_if};
ghost use Rattle.wk_session.specs.MovedEntries.{uses_movement, shifted_func, IsMovedEntry, AreMovedEntries};

use std::alloc::Global;
use std::collections::BTreeSet;
use std::mem;
use wk_bytes::{Items, OutOfMemory};
use wk_module::{
    Body, Func, Kind, MovedLists, Movement, Moving, Parts, Profile, Ref, append_shifted,
    moving_of_code, moving_of_module, shift_in_place, shift_uses,
};

/// A code entry, and what is kept of it.
#[derive(Clone, Copy)]
struct KeptEntry<'a> {
    /// The function.
    func: &'a Func,
    /// What it refers to, its own type too.
    refs: &'a BTreeSet<Ref>,
    /// Its code, without the size.
    code: &'a Items<u8>,
}

/// What is kept of a code entry after an import. Nothing stands in the place of what is as before.
#[derive(Drop)]
pub(crate) struct MovedEntry {
    /// What the function refers to, where its body moves.
    pub(crate) refs: Option<BTreeSet<Ref>>,
    /// Its code without the size, where its body moves.
    pub(crate) code: Option<Items<u8>>,
}

/// What is kept of all code entries after an import, in their order.
#[derive(Drop)]
pub(crate) struct MovedEntries {
    /// What each function refers to whose body moves.
    pub(crate) refs: Vec<Option<BTreeSet<Ref>>>,
    /// The code of each of these, without the size.
    pub(crate) codes: Vec<Option<Items<u8>>>,
    /// How many bodies were encoded.
    pub(crate) encoded: u32,
}

// What moves of a reference.
fn ref_movement(kind: Moving, from: u32, reference: Ref) -> Movement
    ensures { result
        ≡ record { moves = is_moving kind from reference; stuck = is_stuck kind from reference } }
{
    match (kind, reference) {
        (Moving::Func, Ref::Func(x)) => Movement::of_index(from, x),
        (Moving::Global, Ref::Global(x)) => Movement::of_index(from, x),
        _ => Movement::NONE,
    }
}

// What moves of references.
fn refs_movement(kind: Moving, from: u32, refs: &BTreeSet<Ref>) -> Movement
    ensures { result ≡ movement_of kind from refs.now.keys }
{
    let mut found = Movement::NONE;
    for reference in refs {
        found = found.or(ref_movement(kind, from, *reference));
    }
    found
}

// What moves of what a function refers to. Bodies name functions and globals by an index, and nothing else that moves.
fn uses_movement(kind: Kind, from: u32, refs: &BTreeSet<Ref>) -> Movement
    ensures { result ≡ uses_movement kind from refs.now.keys }
{
    match kind {
        Kind::Func => refs_movement(Moving::Func, from, refs),
        Kind::Global => refs_movement(Moving::Global, from, refs),
        Kind::Table | Kind::Memory => Movement::NONE,
    }
}

/// Whether a code refers to 4,294,967,295, which would move and has no next. It takes no memory.
pub(crate) fn is_any_code_stuck(kind: Kind, from: u32, refs: &Vec<BTreeSet<Ref>>) -> bool
    ensures { result ≡ list_any (λ s. (uses_movement kind from s.keys).stuck) refs.now.items }
{
    for set in refs {
        if uses_movement(kind, from, set).stuck {
            return true;
        }
    }
    false
}

// Makes the code of a body that moves, without its size, and counts it: by the code before. It is written in a room that serves one
// body after the other, and copied from there, so that it has no spare capacity.
fn shifted_code(
    alloc: Global,
    room: &mut Vec<u8>,
    body: &Body,
    code: &[u8],
    kind: Moving,
    from: u32,
    made: &mut u32,
) -> Result<Items<u8>, OutOfMemory>
    requires few { made.old + 1 < 2 ^ 32 }
    requires free { any_stuck kind from (refs_of body.now.instrs) ≡ false }
    requires code { code.now ≡ written_body body.now }
    ensures code { IfOk result (λ c. c ≡ written_body (shift_body kind from body.now)) }
    ensures made { made.new ≡ made.old + 1 }
{
    *made += 1;
    room.clear();
    append_shifted(room, body, code, kind, from)?;
    let code = Vec::from_slice(alloc, room.as_slice())?;
    Ok(Items::from_vec(code))
}

// What a function refers to after its body moved, its own type too, by what it refers to before.
fn shifted_uses(
    alloc: Global,
    uses: &BTreeSet<Ref>,
    kind: Moving,
    from: u32,
) -> Result<BTreeSet<Ref>, OutOfMemory>
    requires { any_stuck kind from uses.now.keys ≡ false }
    ensures { IfOk result
        (λ s. (f : FuncOf) → uses.now.keys ≡ uses_of f
        → s.keys ≡ uses_of (shifted_func kind from f)) }
{
    shift_uses(alloc, uses, kind, from)
}

// What is kept of an entry whose body moves and has nothing stuck.
fn shifted_entry(
    alloc: Global,
    room: &mut Vec<u8>,
    kept: KeptEntry<'_>,
    kind: Moving,
    from: u32,
    encoded: &mut u32,
) -> Result<MovedEntry, OutOfMemory>
    requires few { encoded.old + 1 < 2 ^ 32 }
    requires refs { kept.refs.now.keys ≡ uses_of kept.func.now }
    requires code { kept.code.now ≡ code_of kept.func.now }
    requires free { any_stuck kind from (refs_of kept.func.now.body.instrs) ≡ false }
    ensures refs { let moved = shifted_func kind from kept.entry.func.now in IfOk result
        (λ e. option_map (λ s. s.keys) e.refs ≡ Some (uses_of moved)) }
    ensures code { let moved = shifted_func kind from kept.entry.func.now in IfOk result
        (λ e. e.code ≡ Some (code_of moved)) }
    ensures encoded { OnOk result (encoded.new ≡ encoded.old + 1) }
{
    // The proof asks what this says: of what a function refers to there moves what moves of its body.
    moving_of_code();
    let refs = shifted_uses(alloc, kept.refs, kind, from)?;
    let before = kept.code.as_slice();
    let code = shifted_code(alloc, room, &kept.func.body, before, kind, from, encoded)?;
    Ok(MovedEntry {
        refs: Some(refs),
        code: Some(code),
    })
}

// What is kept of an entry after an import.
fn moved_entry(
    alloc: Global,
    room: &mut Vec<u8>,
    kept: KeptEntry<'_>,
    kind: Kind,
    from: u32,
    encoded: &mut u32,
) -> Result<MovedEntry, OutOfMemory>
    requires few { encoded.old + 1 < 2 ^ 32 }
    requires refs { kept.refs.now.keys ≡ uses_of kept.func.now }
    requires code { kept.code.now ≡ code_of kept.func.now }
    requires free { is_code_stuck kind from kept.func.now.body.instrs ≡ false }
    ensures entry { IfOk result (IsMovedEntry kind from kept.entry.func.now) }
    ensures encoded { let instrs = kept.entry.func.now.body.instrs in OnOk result
        (encoded.new ≡ encoded.old + one_if (is_code_moving kind from instrs)) }
{
    // The proof asks what these say: of what a function refers to there moves what moves of its body; where nothing does, it stays.
    moving_of_code();
    moving_of_module();
    if !uses_movement(kind, from, kept.refs).moves {
        return Ok(MovedEntry {
            refs: None,
            code: None,
        });
    }
    match kind {
        Kind::Func => shifted_entry(alloc, room, kept, Moving::Func, from, encoded),
        Kind::Global => shifted_entry(alloc, room, kept, Moving::Global, from, encoded),
        Kind::Table | Kind::Memory => unreachable!(),
    }
}

/// What is kept of all code entries after an import of the kind at the index `from`, which leaves none stuck.
pub(crate) fn moved_entries(
    alloc: Global,
    funcs: &Items<Func>,
    refs: &Vec<BTreeSet<Ref>>,
    codes: &Vec<Items<u8>>,
    kind: Kind,
    from: u32,
) -> Result<MovedEntries, OutOfMemory>
    requires refs { map (λ s. s.keys) refs.now.items ≡ map uses_of funcs.now }
    requires codes { codes.now.items ≡ map code_of funcs.now }
    requires few { length funcs.now < 2 ^ 32 }
    requires free { list_any (λ f. is_code_stuck kind from f.body.instrs) funcs.now ≡ false }
    ensures { IfOk result (AreMovedEntries kind from funcs.now) }
{
    let mut room = Vec::new(alloc);
    let mut entries = MovedEntries {
        refs: Vec::with_capacity(alloc, funcs.len())?,
        codes: Vec::with_capacity(alloc, funcs.len())?,
        encoded: 0,
    };
    for (i, func) in funcs.as_slice().iter().enumerate() {
        let kept = KeptEntry {
            func,
            refs: &refs[i],
            code: &codes[i],
        };
        let entry = moved_entry(alloc, &mut room, kept, kind, from, &mut entries.encoded)?;
        push_entry(&mut entries, entry)?;
    }
    Ok(entries)
}

// Appends an entry.
fn push_entry(entries: &mut MovedEntries, entry: MovedEntry) -> Result<(), OutOfMemory>
    ensures refs { OnOk result
        (entries.new.refs.items ≡ entries.old.refs.items ++ entry.refs ∷ []) }
    ensures codes { OnOk result
        (entries.new.codes.items ≡ entries.old.codes.items ++ entry.code ∷ []) }
    ensures encoded { entries.new.encoded ≡ entries.old.encoded }
{
    let MovedEntry { refs, code } = entry;
    entries.refs.push(refs)?;
    entries.codes.push(code)?;
    Ok(())
}

// Moves the body of a function where it stands, where something in it moves.
fn move_func(func: &mut Func, is_moving: bool, kind: Kind, from: u32)
    requires moves { is_moving ≡ is_code_moving kind from func.old.body.instrs }
    requires free { is_code_stuck kind from func.old.body.instrs ≡ false }
    ensures { func.new ≡ moved_func kind from func.old }
{
    // The proof asks what this says: a body in which nothing moves stays.
    moving_of_module();
    if is_moving {
        match kind {
            Kind::Func => shift_in_place(&mut func.body, Moving::Func, from),
            Kind::Global => shift_in_place(&mut func.body, Moving::Global, from),
            Kind::Table | Kind::Memory => {}
        }
    }
}

// Moves the bodies of functions where they stand: those for which a code is planned. What the others refer to is not looked at
// again: the plan has a code exactly where something moves.
fn move_funcs(funcs: &mut Vec<Func>, codes: &Vec<Option<Items<u8>>>, kind: Kind, from: u32)
    requires moves { map is_some codes.now.items
        ≡ map (λ f. is_code_moving kind from f.body.instrs) funcs.old.items }
    requires free { list_any (λ f. is_code_stuck kind from f.body.instrs) funcs.old.items ≡ false }
    ensures { funcs.new.items ≡ map (moved_func kind from) funcs.old.items }
{
    for i in 0..funcs.len() {
        move_func(&mut funcs[i], codes[i].is_some(), kind, from);
    }
}

/// Puts lists that have moved in their places, and moves functions where they stand: those for which a code is planned. It takes no
/// memory.
pub(crate) fn put_moved(
    alloc: Global,
    parts: &mut Parts,
    lists: MovedLists,
    codes: &Vec<Option<Items<u8>>>,
    kind: Kind,
    from: u32,
)
    requires moves { map is_some codes.now.items
        ≡ map (λ f. is_code_moving kind from f.body.instrs) parts.old.funcs }
    requires free { list_any (λ f. is_code_stuck kind from f.body.instrs) parts.old.funcs ≡ false }
    ensures { parts.new
        ≡ record (with_lists lists parts.old)
        { funcs = map (moved_func kind from) parts.old.funcs } }
{
    let before = mem::replace(parts, Parts::new(alloc, Profile::Core));
    let mut now = lists.put_into(before);
    let mut all = mem::replace(&mut now.funcs, Items::new(alloc)).into_vec();
    move_funcs(&mut all, codes, kind, from);
    now.funcs = Items::from_vec(all);
    *parts = now;
}
