//! Expressions, kept flat.

ghost use Rattle.std.specs.Prelude.{◌≡◌, ◌≤◌, false, length, IfOk};
ghost use Rattle.std.specs.List.{AllByRecursion};
ghost use Rattle.wk_body.specs.Tree.{tokens_of};
ghost use Rattle.wk_body.specs.Shape.{IsShaped};
ghost use Rattle.wk_body.specs.Kept.{IsKept, IsWithin, all_told, tree_kept};
ghost use Rattle.wk_body.specs.References.{refs_of, any_stuck, shift_instrs};

use crate::renumber::{Moving, shift_tokens};
use crate::token::Token;
use smallvec::SmallVec;
use std::alloc::{AllocError, Global};
use std::marker::Model;
use wk_bytes::LIMIT;

/// How many tokens an expression holds without memory of its own: a constant and its `end`, as most initialisers are.
pub(crate) const INLINE: usize = 2;

/// Instructions up to their last `end` (2.4.6): an initialiser or an offset, or what a body holds beside its locals.
///
/// They are kept as tokens, one after the other, so that nothing recurses over nested blocks. A contract sees their tree
/// (`Instrs` of `specs/Tree.antt`). Each is one that bytes can spell: all numbers are in their ranges, and at most 20,000 blocks
/// are open at one place.
#[derive(Debug, Drop)]
pub struct Expr {
    tokens: SmallVec<Token, INLINE>,
    labels: Vec<u32>,
}

impl Model for Expr {
    ghost use Rattle.wk_body.specs.Tree.{Instrs};
    ghost use Rattle.wk_body.specs.TreeCode.{coded_instrs};

    ghost Value = { Instrs };

    ghost coded = { coded_instrs };

    ghost use Rattle.wk_body.specs.Kept.{tree_kept, IsKept};

    ghost view = { λ e. tree_kept e.labels.items e.tokens.items };

    ghost invariant = { λ e. IsKept e.labels.items e.tokens.items };
}

impl Clone for Expr {
    ghost is_clone = { λ e copy. copy ≡ e };

    fn clone(&self) -> Result<Expr, AllocError> {
        let tokens = self.tokens.clone()?;
        let labels = self.labels.clone()?;
        Ok(Expr { tokens, labels })
    }
}

impl Expr {
    // A copy of what was put together.
    pub(crate) fn of(alloc: Global, tokens: &[Token], labels: &[u32]) -> Result<Expr, AllocError>
        requires { IsKept labels.now tokens.now }
        ensures { IfOk result (λ e. e ≡ tree_kept labels.now tokens.now) }
    {
        let tokens = SmallVec::from_slice(alloc, tokens)?;
        let labels = Vec::from_slice(alloc, labels)?;
        Ok(Expr { tokens, labels })
    }

    /// The tokens in the order in which they are written, the last `end` among them, and the pool of their labels.
    ///
    /// A token's number is its place here. Each one that opens a block, and each `Else`, has the distance to the matching `End`.
    pub fn tokens(&self) -> (&[Token], &[u32])
        ensures tokens { all_told result.1.now result.0.now ≡ tokens_of self.now }
        ensures within { AllByRecursion (IsWithin (length result.1.now)) result.0.now }
        ensures few { length result.0.now ≤ LIMIT }
        ensures shaped { IsShaped self.now }
    {
        (self.tokens.as_slice(), &self.labels)
    }

    // Moves its references where they stand.
    pub(crate) fn shift_in_place(&mut self, kind: Moving, from: u32)
        requires { any_stuck kind from (refs_of self.old) ≡ false }
        ensures { self.new ≡ shift_instrs kind from self.old }
    {
        shift_tokens(kind, from, self.tokens.as_mut_slice());
    }
}
