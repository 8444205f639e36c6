//! The typing of code: bodies and constant expressions, by what their references find.
//!
//! # What it promises
//!
//! - What code sees of its module is an [`Env`]: a call that answers one reference at a time, whose meaning is a function from
//!   references to what they find (`Found` of `specs/Answers`), each of the kind of its reference by a law of the implementation.
//!   Typing asks a [`Scope`]: the same, with function types lent by their lists, so that a context may hold them in any form. Each
//!   [`Env`] is a [`Scope`] of the same meaning.
//! - [`judge_body`] is `body_verdict` for that function (`specs/Typing`, by the table of `specs/Effects`). It counts one more on its
//!   [`Meter`], want of memory included, and asks that the count is not the greatest `u64`. Its clauses `sound` and `complete` say that
//!   it answers valid exactly where the body is derived by declarative rules (`IsDerived` of `specs/Derives`): those of the standard,
//!   with this project's own for what the extended profile adds. They are said from the first instruction on; [`declarative_rules`]
//!   carries the law that a list has a type exactly where each of two parts has one, so that for 1.0 they are the standard's, which go
//!   from the last one back.
//! - [`type_body`] is the same verdict without the count, [`constant_flaw`] what is wrong with a constant expression (`specs/Constants`).
//!   [`type_encoded_body`] is the verdict of the body that bytes encode, or the first fault of reading it (`encoded_verdict` of
//!   `specs/Faults`): it types a body while it reads it, and one that is valid is not kept, which no clause says.
//!   [`next_constant_flaw`] reads a constant expression at the front of bytes, and answers what [`constant_flaw`] says of it.
//! - [`carry`] and [`carry_moved`] take no memory and give the verdict that they were given: that of the same body, or of the body
//!   moved, where its own type and what its references find is the same (`Agree`, `AgreeMoved` of `specs/Carried`).
//!   [`verdicts_that_keep`] has these laws for all bodies at once, and that all that a valid body refers to is there.
//!
//! # What it costs
//!
//! A body is typed in one pass over its tokens; nothing recurses over nested blocks. An operand stack and a list of control frames are
//! made once and serve all bodies and constant expressions: those of a [`Room`], of a [`StreamRoom`] or of a [`Meter`]. The types of a
//! body's first locals are written out, 256 at the most, which asks for no memory; more parameters than these stay where they lie. The
//! others are found by where their groups end, so billions of locals in one group take no room.
#![tactic(auto)]

mod carry_verdict;
mod constant;
mod control;
mod display;
mod encoded_body;
mod encoded_constant;
mod env;
mod fast_blocks;
mod fast_constant;
mod fast_extended;
mod fast_path;
mod fault;
mod locals;
mod meter;
mod operand;
mod operands;
mod stacks;
mod step;
mod stop;
mod streaming;
mod typing;

pub use carry_verdict::{carry, carry_moved, verdicts_that_keep};
pub use constant::constant_flaw;
pub use encoded_body::{Rooms, type_encoded_body};
pub use encoded_constant::next_constant_flaw;
pub use env::{Answer, Env, Lookup, Scope};
pub use fault::{BodyVerdict, Fault, FaultKind, Flaw, Place, Verdict};
pub use meter::{Meter, declarative_rules, judge_body};
pub use streaming::StreamRoom;
pub use typing::{Room, type_body};
