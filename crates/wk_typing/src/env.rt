//! What the code of a module sees of the module.

ghost use Rattle.std.specs.Prelude.{◌≡◌};
ghost use Rattle.wk_typing.specs.Answers.{Found, IsOfKind, found, seen};

use wk_module::{FuncType, FuncTypeRef, GlobalType, Ref};

/// What a reference finds (3.1.1): a reference to a type `Ty` or `NoType`, one to a function `Func`, `FuncOfNoType` or `NoFunc`,
/// one to a global `Global` or `NoGlobal`, the table and the memory `Present` or `Absent`.
#[derive(Clone, Copy, Debug)]
pub enum Answer<'a> {
    /// The type.
    Ty(&'a FuncType),
    /// There is no type of that index.
    NoType,
    /// The type of the function.
    Func(&'a FuncType),
    /// The function has the index of a type that is not there.
    FuncOfNoType,
    /// There is no function of that index.
    NoFunc,
    /// The type of the global.
    Global(GlobalType),
    /// There is no global of that index.
    NoGlobal,
    /// There is a table, or a memory.
    Present,
    /// There is none.
    Absent,
}

/// What references find: the context of the standard (3.1.1), asked one reference at a time.
///
/// Its meaning is a function from references to what they find. A law of each implementation says that every answer is of the
/// kind of its reference.
pub trait Env {
    ghost use Rattle.wk_body.specs.declared.references.Ref.{Ref};
    ghost use Rattle.wk_typing.specs.Answers.{Found, IsOfKind, found};
    ghost use Rattle.std.specs.Prelude.{◌≡◌};

    ghost answers: { Self → Ref → Found };

    /// What the reference finds. It takes no memory.
    fn answer(&self, reference: Ref) -> Answer<'_>
        ensures { found result ≡ answers self.now reference };

    /// Each answer is of the kind of its reference.
    ghost of_kind: { (env : Self) (r : Ref) → IsOfKind r (answers env r) };
}

/// What a reference finds, as [`Answer`] says it, with a function type lent by its lists (3.1.1): so a context may hold types in any form.
#[derive(Clone, Copy, Debug)]
pub enum Lookup<'a> {
    /// The type.
    Ty(FuncTypeRef<'a>),
    /// There is no type of that index.
    NoType,
    /// The type of the function.
    Func(FuncTypeRef<'a>),
    /// The function has the index of a type that is not there.
    FuncOfNoType,
    /// There is no function of that index.
    NoFunc,
    /// The type of the global.
    Global(GlobalType),
    /// There is no global of that index.
    NoGlobal,
    /// There is a table, or a memory.
    Present,
    /// There is none.
    Absent,
}

/// What references find, as an [`Env`] says it, in a context (3.1.1) that need not hold whole function types: it lends their lists,
/// wherever these lie. All typing asks a `Scope`, and each [`Env`] is one, of the same meaning.
///
/// Its meaning and its law are those of an [`Env`]: a function from references to what they find, each of the kind of its reference.
pub trait Scope {
    ghost use Rattle.wk_body.specs.declared.references.Ref.{Ref};
    ghost use Rattle.wk_typing.specs.Answers.{Found, IsOfKind, seen};
    ghost use Rattle.std.specs.Prelude.{◌≡◌};

    ghost answers: { Self → Ref → Found };

    /// What the reference finds. It takes no memory.
    fn look_up(&self, reference: Ref) -> Lookup<'_>
        ensures { seen result ≡ answers self.now reference };

    /// Each answer is of the kind of its reference.
    ghost of_kind: { (scope : Self) (r : Ref) → IsOfKind r (answers scope r) };
}

impl<E: Env> Scope for E {
    ghost answers = { λ env r. E.answers env r };

    #[inline(always)]
    fn look_up(&self, reference: Ref) -> Lookup<'_> {
        match self.answer(reference) {
            Answer::Ty(ty) => Lookup::Ty(ty.as_ref()),
            Answer::NoType => Lookup::NoType,
            Answer::Func(ty) => Lookup::Func(ty.as_ref()),
            Answer::FuncOfNoType => Lookup::FuncOfNoType,
            Answer::NoFunc => Lookup::NoFunc,
            Answer::Global(global) => Lookup::Global(global),
            Answer::NoGlobal => Lookup::NoGlobal,
            Answer::Present => Lookup::Present,
            Answer::Absent => Lookup::Absent,
        }
    }

    ghost of_kind = { λ env r. E.of_kind env r };
}
