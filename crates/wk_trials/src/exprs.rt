//! Calls of `wk_body` on expressions.

use crate::bodies::NO_MEMORY;
use crate::mark::{call_begins, call_ends};
use crate::sinks::{Room, vector, was_appended};
use std::alloc::{AllocError, Global};
use wk_body::{
    EncodeFault, Expr, Profile, Scratch, ShiftFault, append_expr, encode_expr, next_expr,
    next_expr_in, read_expr, read_expr_in, shift_expr,
};
use wk_bytes::{Cursor, ReadFault};
use wk_samples::bodies::{EXPR, LONG_EXPR, MOVED_EXPR, MOVED_LONG_EXPR};
use wk_samples::outcome::Outcome;

// Whether the expression is written as these bytes.
fn is_expr(alloc: Global, expr: &Expr, bytes: &[u8]) -> bool {
    match encode_expr(alloc, expr) {
        Ok(written) => written.as_slice() == bytes,
        Err(_) => false,
    }
}

/// A call that reads an expression.
#[derive(Clone, Copy)]
pub(crate) enum ReadExpr {
    /// `read_expr`, or `read_expr_in` of the wider profile.
    Whole,
    /// `next_expr`, or `next_expr_in` of the wider profile. It leaves the cursor where it refuses.
    Next,
    /// `Scratch::next_expr`.
    InScratch,
}

// The long expression, and a byte behind it.
const FRONT: &[u8] = b"\x23\x07\x41\x00\x0b\xff";

impl ReadExpr {
    /// The call.
    pub(crate) fn run(self, alloc: Global, profile: Profile) -> Outcome {
        let mut cursor = Cursor::new(FRONT);
        let mut scratch = Scratch::new(alloc);
        call_begins(alloc);
        let answer = self.read(alloc, profile, &mut cursor, &mut scratch);
        call_ends(alloc);
        let at = match self {
            ReadExpr::Whole => 0,
            _ => 5,
        };
        match &answer {
            Ok(expr) => Outcome::answered(cursor.at() == at && is_expr(alloc, expr, LONG_EXPR)),
            Err(fault) => Outcome::refused(*fault == NO_MEMORY && cursor.at() == 0),
        }
    }

    fn read(
        self,
        alloc: Global,
        profile: Profile,
        cursor: &mut Cursor<'_>,
        scratch: &mut Scratch,
    ) -> Result<Expr, ReadFault> {
        match (self, profile) {
            (ReadExpr::Whole, Profile::Core) => read_expr(alloc, LONG_EXPR),
            (ReadExpr::Whole, profile) => read_expr_in(alloc, LONG_EXPR, profile),
            (ReadExpr::Next, Profile::Core) => next_expr(alloc, cursor),
            (ReadExpr::Next, profile) => next_expr_in(alloc, cursor, profile),
            (ReadExpr::InScratch, profile) => scratch.next_expr(alloc, cursor, profile),
        }
    }
}

/// A call that is lent an expression.
#[derive(Clone, Copy)]
pub(crate) enum OfExpr {
    /// `encode_expr`.
    Encode,
    /// `append_expr`.
    Append,
    /// `shift_expr`.
    Shift,
    /// `Expr::clone`.
    Clone,
}

/// An expression, and what becomes of it where its globals move.
#[derive(Clone, Copy)]
pub(crate) struct ExprSample {
    spelled: &'static [u8],
    moved: &'static [u8],
}

/// One of two tokens, which are held in line.
pub(crate) const SHORT: ExprSample = ExprSample {
    spelled: EXPR,
    moved: MOVED_EXPR,
};

/// One of three.
pub(crate) const LONG: ExprSample = ExprSample {
    spelled: LONG_EXPR,
    moved: MOVED_LONG_EXPR,
};

impl OfExpr {
    /// The call.
    pub(crate) fn run(self, alloc: Global, sample: ExprSample) -> Outcome {
        match read_expr(alloc, sample.spelled) {
            Ok(expr) => self.run_on(alloc, sample, &expr),
            Err(_) => Outcome::NO_SAMPLE,
        }
    }

    fn run_on(self, alloc: Global, sample: ExprSample, expr: &Expr) -> Outcome {
        match self {
            OfExpr::Encode => encodes(alloc, sample, expr),
            OfExpr::Append => appends(alloc, sample, expr),
            OfExpr::Shift => shifts(alloc, sample, expr),
            OfExpr::Clone => clones(alloc, sample, expr),
        }
    }
}

fn encodes(alloc: Global, sample: ExprSample, expr: &Expr) -> Outcome {
    call_begins(alloc);
    let answer = encode_expr(alloc, expr);
    call_ends(alloc);
    match answer {
        Ok(bytes) => Outcome::answered(bytes.as_slice() == sample.spelled),
        Err(fault) => Outcome::refused(
            fault == EncodeFault::Memory && is_expr(alloc, expr, sample.spelled),
        ),
    }
}

fn appends(alloc: Global, sample: ExprSample, expr: &Expr) -> Outcome {
    let Some(mut bytes) = vector(alloc, Room::Scant) else {
        return Outcome::NO_SAMPLE;
    };
    call_begins(alloc);
    let answer = append_expr(&mut bytes, expr);
    call_ends(alloc);
    was_appended(&bytes, answer, sample.spelled)
}

fn shifts(alloc: Global, sample: ExprSample, expr: &Expr) -> Outcome {
    call_begins(alloc);
    let answer = shift_expr(alloc, expr, 0);
    call_ends(alloc);
    match answer {
        Ok(moved) => Outcome::answered(is_expr(alloc, &moved, sample.moved)),
        Err(fault) => Outcome::refused(
            fault == ShiftFault::Memory && is_expr(alloc, expr, sample.spelled),
        ),
    }
}

fn clones(alloc: Global, sample: ExprSample, expr: &Expr) -> Outcome {
    call_begins(alloc);
    let answer: Result<Expr, AllocError> = expr.clone();
    call_ends(alloc);
    match answer {
        Ok(copy) => Outcome::answered(is_expr(alloc, &copy, sample.spelled)),
        Err(AllocError) => Outcome::refused(is_expr(alloc, expr, sample.spelled)),
    }
}
