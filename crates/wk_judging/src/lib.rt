//! The verdict of the module that bytes spell, judged while it is read.
//!
//! # What it promises
//!
//! - [`judge_bytes`] is `module_verdict` of `wk_check`, of the module that bytes spell in a profile, or the fault of
//!   reading it (`judged` of `specs/Spelled`), or `Memory` at 0. Its clauses `meaning` and `valid` tell the verdict in words, and `is`
//!   says what that module and that fault are. So it answers what [`judge`](wk_check::judge) does of what `read_in` gives; that it keeps
//!   no body is no clause.
//! - [`judge_spelled`] is `module_verdict` of the module that bytes are known to spell, with the same clauses.
//! - A [`Validator`] answers what [`judge_bytes`] does, with its clauses, of one module after the other, and keeps room from one to the
//!   next.
//! - The words of verdicts are those of `wk_check`, which are handed on: [`Fault`], [`FaultKind`], [`Place`], [`Verdict`].
//!
//! # What it costs
//!
//! Judging a module of 1.0 takes time and memory in line with its bytes (`docs/VERDICTS.md`, "Cost"). The sections in front of the
//! bodies are judged first, and where one has a fault no body is typed. One room serves all bodies, and a second one all constant
//! expressions and the first body that is not valid. What is held of the module are its types, and the types of functions and globals,
//! tables and memories; the names of its exports, if they are more than sixteen, while it reads the export section; an initialiser or an
//! offset while it looks at it; and no body up to the first fault, then one at a time.
#![tactic(auto)]

mod context;
mod few_limits;
mod func_space;
mod item_kinds;
mod judge_encoded;
mod judge_exports;
mod judge_items;
mod judge_sections;
mod names;
mod validator;

pub use judge_encoded::{judge_bytes, judge_spelled};
pub use validator::Validator;
pub use wk_check::{Fault, FaultKind, Place, Verdict};
