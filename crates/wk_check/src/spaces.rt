//! The index spaces of a module (2.5.1), and what references find in them.

ghost use Rattle.std.specs.Prelude.{◌≡◌, if◌then◌else◌};
ghost use Rattle.wk_typing.specs.Answers.{IsAbsent, IsPresent, seen};
ghost use Rattle.wk_check.specs.Spaces.{answer_in, with_globals};
ghost use Rattle.wk_body.specs.declared.references.Ref.{Ref};

use wk_module::{FuncTypeRef, GlobalType, Ref};
use wk_typing::{Lookup, Scope};

/// The index spaces of a module, in which what is imported comes first (2.5.1). No call takes memory.
pub trait IndexSpaces {
    ghost use Rattle.std.specs.Prelude.{◌≡◌, MatchOption, None, Some, length, nat_lt, slice_get};
    ghost use Rattle.wk_module.specs.InPlace.{func_type_view};
    ghost use Rattle.wk_check.specs.Spaces.{Spaces};

    ghost spaces: { Self → Spaces };

    /// How many types there are.
    fn type_count(&self) -> usize
        ensures { result ≡ length (spaces self.now).types };

    /// The type of that index, lent.
    fn func_type(&self, x: u32) -> Option<FuncTypeRef<'_>>
        ensures { MatchOption result (slice_get (spaces self.now).types x ≡ None)
            (λ ty. slice_get (spaces self.now).types x ≡ Some (func_type_view ty)) };

    /// The index of the type of a function.
    fn func(&self, x: u32) -> Option<u32>
        ensures { result ≡ slice_get (spaces self.now).funcs x };

    /// The type of a global.
    fn global(&self, x: u32) -> Option<GlobalType>
        ensures { result ≡ slice_get (spaces self.now).globals x };

    /// Whether there is a function of that index.
    fn has_func(&self, x: u32) -> bool
        ensures { result ≡ nat_lt x (length (spaces self.now).funcs) };

    /// Whether there is a table of that index.
    fn has_table(&self, x: u32) -> bool
        ensures { result ≡ nat_lt x (length (spaces self.now).tables) };

    /// Whether there is a memory of that index.
    fn has_memory(&self, x: u32) -> bool
        ensures { result ≡ nat_lt x (length (spaces self.now).memories) };

    /// Whether there is a global of that index.
    fn has_global(&self, x: u32) -> bool
        ensures { result ≡ nat_lt x (length (spaces self.now).globals) };
}

// What a reference to the type of an index finds.
#[inline(always)]
fn found_type<S: IndexSpaces>(spaces: &S, x: u32) -> Lookup<'_>
    ensures { seen result ≡ answer_in (S.spaces spaces.now) (Ref.Ty x) }
{
    match spaces.func_type(x) {
        Some(ty) => Lookup::Ty(ty),
        None => Lookup::NoType,
    }
}

/// What a reference to a function finds.
#[inline(always)]
pub(crate) fn found_func<S: IndexSpaces>(spaces: &S, x: u32) -> Lookup<'_>
    ensures { seen result ≡ answer_in (S.spaces spaces.now) (Ref.Func x) }
{
    let Some(ty) = spaces.func(x) else {
        return Lookup::NoFunc;
    };
    match spaces.func_type(ty) {
        Some(ty) => Lookup::Func(ty),
        None => Lookup::FuncOfNoType,
    }
}

// What a reference to a global finds.
#[inline(always)]
fn found_global<S: IndexSpaces>(spaces: &S, x: u32) -> Lookup<'_>
    ensures { seen result ≡ answer_in (S.spaces spaces.now) (Ref.Global x) }
{
    match spaces.global(x) {
        Some(ty) => Lookup::Global(ty),
        None => Lookup::NoGlobal,
    }
}

// What a reference to the table, or to the memory, finds, where it is known whether there is a first.
#[inline(always)]
fn found_first(has_first: bool) -> Lookup<'static>
    ensures { seen result ≡ (if has_first then IsPresent else IsAbsent) }
{
    if has_first {
        return Lookup::Present;
    }
    Lookup::Absent
}

/// What a reference finds in index spaces (3.1.1).
#[inline(always)]
pub fn look_up_in<S: IndexSpaces>(spaces: &S, reference: Ref) -> Lookup<'_>
    ensures { seen result ≡ answer_in (S.spaces spaces.now) reference }
{
    match reference {
        Ref::Ty(x) => found_type(spaces, x),
        Ref::Func(x) => found_func(spaces, x),
        Ref::Global(x) => found_global(spaces, x),
        Ref::Table => found_first(spaces.has_table(0)),
        Ref::Memory => found_first(spaces.has_memory(0)),
    }
}

/// The same spaces as the initialisers of globals see them: of the globals they see the imported ones alone (3.4.10).
#[derive(Clone, Copy, Debug)]
pub struct Initial<'a, S: IndexSpaces> {
    pub spaces: &'a S,
    /// The types of the imported globals.
    pub imported: &'a [GlobalType],
}

impl<'a, S: IndexSpaces> Initial<'a, S> {
    // What a reference to a global finds.
    fn found_global(&self, x: u32) -> Lookup<'_>
        ensures { seen result
            ≡ answer_in (with_globals self.now.imported.now (S.spaces self.now.spaces.now))
            (Ref.Global x) }
    {
        match self.imported.get(x as usize) {
            Some(ty) => Lookup::Global(*ty),
            None => Lookup::NoGlobal,
        }
    }
}

impl<'a, S: IndexSpaces> Scope for Initial<'a, S> {
    ghost use Rattle.wk_check.specs.Spaces.{answer_in, answers_of_kind, with_globals};

    ghost answers = { λ i r. answer_in (with_globals i.imported.now (S.spaces i.spaces.now)) r };

    ghost of_kind = { λ i r. answers_of_kind (with_globals i.imported.now (S.spaces i.spaces.now)) r };

    fn look_up(&self, reference: Ref) -> Lookup<'_> {
        match reference {
            Ref::Global(x) => self.found_global(x),
            _ => look_up_in(self.spaces, reference),
        }
    }
}
