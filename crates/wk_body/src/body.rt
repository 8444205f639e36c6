//! Bodies: local groups and instructions.

ghost use Rattle.std.specs.Prelude.{◌≡◌, ◌≤◌, false, length};
ghost use Rattle.std.specs.List.{AllByRecursion};
ghost use Rattle.wk_body.specs.Tree.{tokens_of};
ghost use Rattle.wk_body.specs.Kept.{IsWithin, all_told};
ghost use Rattle.wk_body.specs.Shape.{IsShaped};
ghost use Rattle.wk_body.specs.References.{refs_of, any_stuck, shift_body};
ghost use Rattle.wk_body.specs.Bodies.{BodyOf, AreGroups};

use crate::expr::Expr;
use crate::renumber::Moving;
use crate::token::Token;
use crate::types::LocalGroup;
use std::alloc::AllocError;
use std::marker::Model;
use wk_bytes::LIMIT;

/// The locals and the instructions of a function (2.5.3, 5.5.13): a code without its size.
///
/// Local groups are kept as they are, empty ones too. They declare fewer than 2^32 locals.
#[derive(Debug, Drop)]
pub struct Body {
    groups: Vec<LocalGroup>,
    instrs: Expr,
}

impl Model for Body {
    ghost use Rattle.wk_body.specs.Bodies.{BodyOf, AreGroups, coded_body};

    ghost Value = { BodyOf };

    ghost coded = { coded_body };

    ghost view = { λ b. record { groups = b.groups.items; instrs = b.instrs } };

    ghost invariant = { λ b. AreGroups b.groups.items };
}

impl Clone for Body {
    ghost is_clone = { λ b copy. copy ≡ b };

    fn clone(&self) -> Result<Body, AllocError> {
        let groups = self.groups.clone()?;
        let instrs = self.instrs.clone()?;
        Ok(Body::of(groups, instrs))
    }
}

impl Body {
    // What was read, or made of what was read.
    pub(crate) fn of(groups: Vec<LocalGroup>, instrs: Expr) -> Body
        requires { AreGroups groups.items }
        ensures { result ≡ record { groups = groups.items; instrs = instrs } }
    {
        Body { groups, instrs }
    }

    /// The local groups.
    pub fn groups(&self) -> &[LocalGroup]
        ensures value { result.now ≡ self.now.groups }
        ensures in_range { AreGroups self.now.groups }
    {
        &self.groups
    }

    /// The instructions.
    pub fn expr(&self) -> &Expr
        ensures { result.now ≡ self.now.instrs }
    {
        &self.instrs
    }

    /// The tokens of the instructions in the order in which they are written, and the pool of their labels ([`Expr::tokens`]).
    pub fn tokens(&self) -> (&[Token], &[u32])
        ensures tokens { all_told result.1.now result.0.now ≡ tokens_of self.now.instrs }
        ensures within { AllByRecursion (IsWithin (length result.1.now)) result.0.now }
        ensures few { length result.0.now ≤ LIMIT }
        ensures shaped { IsShaped self.now.instrs }
    {
        self.instrs.tokens()
    }

    // Moves the references of its instructions where they stand.
    pub(crate) fn shift_in_place(&mut self, kind: Moving, from: u32)
        requires { any_stuck kind from (refs_of self.old.instrs) ≡ false }
        ensures { self.new ≡ shift_body kind from self.old }
    {
        self.instrs.shift_in_place(kind, from);
    }
}
