//! The main job: a module, a script of edits, the edited module and a report.
//!
//! # What it promises
//!
//! - [`read_script`] is the grammar of scripts (`IsScript` of `specs/ScriptGrammar`), both ways: the edits that the lines spell, or the
//!   fault of the first line that spells none. [`read_name`] is the name that a word of a script spells (`name_of`).
//! - [`edit_owned`] gives `outcome_of` the two inputs (`specs/Outcome`), and that is a report in the words of the grammar, the edits and
//!   the verdict (`IsReport` of `specs/Theorem`), whether each edit has to leave a valid module or not: what an edit puts into the module
//!   is what its bytes spell, what is written spells the edited module, and no other, and the last line is `valid` exactly where that
//!   module is. [`edit_in`] is that of bytes that are lent, and [`edit`] of 1.0.
//! - After a fault of one output a beginning stands taken there, and nothing in the one behind it; after want of memory nothing in
//!   either.
//! - [`malformed_line`] and [`verdict_line`] of `wk_check` are handed on, since a report has such lines (`specs/ReportText`).
//!
//! # How it goes
//!
//! The module is read before the script, and both before anything is judged where a draft is worth it: then an outline is read, `wk_draft`
//! makes the edits of it, and what it leaves a session over the whole module makes. Where the codes do not outweigh the lists, such a
//! session makes them at once. What is written and answered is the same either way.
#![tactic(auto)]

mod bytes;
mod display;
mod edits;
mod fault;
mod job;
mod line;
mod lines;
mod name;
mod number;
mod pieces;
mod prepare;
mod script;
mod types;
mod verb;
mod worth;

pub use fault::{RunFault, ScriptFault, Status};
pub use job::{edit, edit_in, edit_owned};
pub use name::read_name;
pub use script::read_script;
pub use wk_check::{malformed_line, verdict_line};
