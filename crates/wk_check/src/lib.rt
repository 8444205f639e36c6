//! The verdict of a module that is held: valid, or the first fault and its place.
//!
//! # What it promises
//!
//! - The typing of code is that of `wk_typing`, whose calls for other crates are handed on: [`Env`], [`Scope`], [`judge_body`] with its
//!   [`Meter`], [`declarative_rules`], [`carry`], [`carry_moved`], [`verdicts_that_keep`], and the words of verdicts.
//! - [`Whole`] is the [`Env`] over the lists of a module (`answer_in`, `spaces_of` of `specs/Spaces`).
//! - [`judge`] is `module_verdict` (`specs/Verdict`), the first flaw of the items of all sections, and that is so in words
//!   (`IsVerdict`). Its clause `valid` says that it is `Valid` exactly where each body is derived and no other section has a flaw
//!   (`IsValidModule` of `specs/Valid`); [`meaning_of_verdicts`] carries that as a law of all modules. In the other profile it is the
//!   same unless it was V1 (`extended`). [`judge_around`] is the same of lists that are lent, for a given first fault of the code section;
//!   it asks that each list has fewer than 2^32 items (`AreNumbered`).
//! - [`first_code_fault`] is the first flaw of the code section, by the verdicts of its bodies.
//! - [`verdict_with_type`], [`verdict_with_func`], [`verdict_with_body`], [`verdict_with_global`], [`verdict_with_export`] and
//!   [`verdict_with_import`] are `module_verdict` of a valid module with that one item more, or with that other body, for every module
//!   that the arguments are of; they judge the item alone (that of an export goes through the names of the others, once), and all but
//!   that of a global take no memory. [`laws_of_valid_modules`] carries what they rest on: a valid module stays so without one of its
//!   exports (`without`), its bodies are valid (`bodies`), and where what was there is found as it was they stay so (`stay`), as does
//!   all that its functions refer to (`found`).
//! - An [`IndexSpaces`] has what a module's references find, whoever holds its lists; [`look_up_in`] and [`Initial`] answer from it
//!   (`answer_in`). [`flaw_of_type`], [`flaw_of_import`] and their kin are what is wrong with one item (`specs/Items`), for `wk_judging`,
//!   which judges items while it reads them.
//! - [`verdict_line`] and [`malformed_line`] are the lines that tell a verdict, or that bytes are no module (`specs/VerdictLines`).
//!
//! # What it costs
//!
//! Judging a module of 1.0 takes time and memory in line with its bytes (`docs/VERDICTS.md`, "Cost"). The sections in front of the
//! bodies are judged first, and where one has a fault no body is typed. The imports are counted once, for all references. One room
//! serves all bodies and constant expressions.
#![tactic(auto)]

mod code_faults;
mod exports;
mod incremental;
mod judging;
mod lines;
mod rule;
mod rules;
mod spaces;
mod whole;

pub use code_faults::first_code_fault;
pub use exports::flaw_of_index;
pub use incremental::{
    laws_of_valid_modules, verdict_with_body, verdict_with_export, verdict_with_func,
    verdict_with_global, verdict_with_import, verdict_with_type,
};
pub use judging::{judge, judge_around, meaning_of_verdicts};
pub use lines::{malformed_line, verdict_line};
pub use rules::{
    flaw_of_import, flaw_of_memory, flaw_of_start, flaw_of_table, flaw_of_type, flaw_of_type_index,
};
pub use spaces::{IndexSpaces, Initial, look_up_in};
pub use whole::Whole;
pub use wk_typing::{
    Answer, BodyVerdict, Env, Fault, FaultKind, Flaw, Lookup, Meter, Place, Scope, Verdict, carry,
    carry_moved, declarative_rules, judge_body, verdicts_that_keep,
};
