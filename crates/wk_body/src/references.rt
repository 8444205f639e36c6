//! What a body refers to outside of itself.

ghost use Rattle.std.specs.Prelude.{◌≡◌, [], ◌∷◌, true, IfOk, OnOk};
ghost use Rattle.std.specs.List.{flat_map};
ghost use Rattle.wk_body.specs.Kept.{told, all_told};
ghost use Rattle.wk_body.specs.References.{refs_of, type_refs, tok_refs, AreRising, AreSame, Gains, Collects};
ghost use Rattle.wk_body.specs.Naming.{takes_memory, may_name};

use crate::body::Body;
use crate::token::Token;
use crate::types::BlockType;
use std::alloc::Global;
use std::collections::BTreeSet;
use wk_bytes::OutOfMemory;

/// A reference: to a type, a function or a global by its index, to the table or to the memory.
#[derive(Clone, Copy, Debug, PartialEq, Eq, PartialOrd, Ord)]
pub enum Ref {
    Ty(u32),
    Func(u32),
    Global(u32),
    Table,
    Memory,
}

// Adds a reference.
pub(crate) fn add(found: &mut BTreeSet<Ref>, r: Ref) -> Result<(), OutOfMemory>
    ensures { OnOk result (Gains found.old.keys found.new.keys (r ∷ [])) }
{
    found.insert(r)?;
    Ok(())
}

// Adds the type of a block.
#[tactic(auto, using(crate::proofs::RefSets::gains_none))]
fn add_type(found: &mut BTreeSet<Ref>, ty: BlockType) -> Result<(), OutOfMemory>
    ensures { OnOk result (Gains found.old.keys found.new.keys (type_refs ty)) }
{
    match ty {
        BlockType::Index(x) => add(found, Ref::Ty(x)),
        _ => Ok(()),
    }
}

// Adds a type and the table.
fn add_indirect(found: &mut BTreeSet<Ref>, x: u32) -> Result<(), OutOfMemory>
    ensures { OnOk result (Gains found.old.keys found.new.keys (Ref.Ty x ∷ Ref.Table ∷ [])) }
{
    add(found, Ref::Ty(x))?;
    add(found, Ref::Table)
}

// Whether a token uses the memory.
#[inline(always)]
fn takes_memory(token: &Token) -> bool
    ensures { result ≡ takes_memory token.now }
{
    matches!(
        *token,
        Token::Access { .. } | Token::MemorySize | Token::MemoryGrow
    )
}

// Whether a token may refer to something else.
#[inline(always)]
fn may_name(token: &Token) -> bool
    ensures { result ≡ may_name token.now }
{
    matches!(
        *token,
        Token::Block { .. }
            | Token::Loop { .. }
            | Token::If { .. }
            | Token::Call(_)
            | Token::CallIndirect(_)
            | Token::GlobalGet(_)
            | Token::GlobalSet(_)
    )
}

// Adds the references of a token that may have some.
fn add_named(found: &mut BTreeSet<Ref>, token: &Token) -> Result<(), OutOfMemory>
    requires { may_name token.now ≡ true }
    ensures { OnOk result (Gains found.old.keys found.new.keys (tok_refs (told [] token.now))) }
{
    match *token {
        Token::Block { ty, .. } | Token::Loop { ty, .. } | Token::If { ty, .. } => {
            add_type(found, ty)
        }
        Token::Call(x) => add(found, Ref::Func(x)),
        Token::CallIndirect(x) => add_indirect(found, x),
        Token::GlobalGet(x) | Token::GlobalSet(x) => add(found, Ref::Global(x)),
        _ => unreachable!(),
    }
}

// Adds the references of a token to those of the set, or to it that the memory is used. (Both questions are tests of bits, and the first
// goes by no jump: a jump by the kind of each token would often be foreseen wrongly.)
#[inline(always)]
fn add_refs(found: &mut BTreeSet<Ref>, memory: &mut bool, token: &Token) -> Result<(), OutOfMemory>
    ensures { OnOk result
        (Collects found.old.keys memory.old found.new.keys memory.new
        (tok_refs (told [] token.now))) }
{
    *memory |= takes_memory(token);
    if may_name(token) {
        return add_named(found, token);
    }
    Ok(())
}

// The references of tokens. Most of them are to the memory, which is put into the set once.
fn refs_among(alloc: Global, tokens: &[Token]) -> Result<BTreeSet<Ref>, OutOfMemory>
    ensures { IfOk result (λ s. Gains [] s.keys (flat_map tok_refs (all_told [] tokens.now))) }
{
    let mut found = BTreeSet::new(alloc);
    let mut memory = false;
    for token in tokens {
        add_refs(&mut found, &mut memory, token)?;
    }
    if memory {
        add(&mut found, Ref::Memory)?;
    }
    Ok(found)
}

/// The references of a body, each once, in the order of [`Ref`]. The body's own type is not among them.
pub fn refs(alloc: Global, body: &Body) -> Result<BTreeSet<Ref>, OutOfMemory>
    ensures rising { IfOk result (λ s. AreRising s.keys) }
    ensures exact { IfOk result (λ s. AreSame s.keys (refs_of body.now.instrs)) }
{
    let (tokens, _) = body.tokens();
    refs_among(alloc, tokens)
}

/// What a function refers to: the references of its body and its own type, each once, in the order of [`Ref`].
pub fn uses(alloc: Global, own_type: u32, body: &Body) -> Result<BTreeSet<Ref>, OutOfMemory>
    ensures rising { IfOk result (λ s. AreRising s.keys) }
    ensures exact { IfOk result (λ s. AreSame s.keys (Ref.Ty own_type ∷ refs_of body.now.instrs)) }
{
    let mut found = refs(alloc, body)?;
    add(&mut found, Ref::Ty(own_type))?;
    Ok(found)
}
