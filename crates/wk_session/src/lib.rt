//! A module under edits.
//!
//! # What it promises
//!
//! - A [`Session`] is seen as its plain module; no clause names what it keeps. [`Session::open_in`] is the grammar of a profile,
//!   [`Session::open`] that of 1.0. [`Session::open_judged`] is the same as `open_in` where the verdict is known, and
//!   [`Session::open_outlined`] where the codes are at hand in their written form, as an outline has them.
//! - [`Session::of`] is over a module that is given, unless its written form would be too long.
//! - [`Session::apply`] and [`Session::apply_kept`] make of the module what the definition of the edit says, and answer its reply
//!   (`made` of `specs/Edits`; `reply_of`, `after_one` of `specs/Runs`), for any module and for a valid one. [`Session::run`] and
//!   [`Session::run_kept`] are `after` and `replies_of` over the list, and after `run_kept` what was valid is valid.
//! - [`Session::verdict`] is `module_verdict`, [`Session::write`] appends `encoded`, [`Session::list`] appends `listing`, and
//!   [`Session::uses`] is `uses_of` of the entry, or nothing past the last: all are those of the module judged, encoded and listed from
//!   scratch.
//! - A reply tells the [`Work`] of an edit (`specs/Dependents`): `typed` counts the bodies that the edit gives and those that refer to
//!   something which is found to be another thing, `encoded` those that it gives and those that move, `sections` the sections that
//!   change. [`work_of_edits`] ties the first two to the references that change and to those that move. That no more
//!   than these are typed or encoded is no clause: tests compare what a meter counts.
//! - [`Session::write`] fails only where its output does, and takes no memory. So does [`Session::write_with`], which appends
//!   `encoded_with` of `wk_pieces`: the written form with other codes in the place of some. With the codes of bodies it is that of the
//!   module with these bodies (`recoded` there).
//! - What an accepted edit puts into the module, alone or in a run, is what its bytes spell, and they spell nothing else (`IsMade` of
//!   `specs/Making`). Where they are refused they spell nothing, and the fault stands in them (`IsTold` of `specs/Told`).
//!   [`bytes_of_edit`] carries what the first rests on for other crates: that they are bytes.
//! - What `is_decided` marks is never answered by want of memory (`decided`). `is_memory` marks the edits that were refused for want of
//!   memory; what the others do and answer is said for those marks.
//!
//! # What it costs
//!
//! Kept are the verdict of each body, what it refers to and its code, and the contents of each section: the last two by `wk_pieces`. An
//! edit types the bodies that find another thing than before, and no other; of a valid module it judges what it adds alone. It encodes the
//! bodies that move, the sections in which something moves, and an item that comes, and writing puts what is kept in order. All growths
//! come before a change that lasts; what was pushed to be judged is taken back where the edit is refused.
//!
//! Opening goes over the bytes once, and over each body once more: it is typed, unless its verdict
//! is known, looked at, and, unless its code is at hand, written in turn, into one room that serves
//! all bodies. What is held then is 16 bytes for each token, each code, the contents of each
//! section beside the lists that are read of them, and a set of some 200 bytes for each function.
//!
//! What grows with a session that is kept open is the module, and with it what is kept: an edit leaves nothing behind, but for the room
//! of a list that got shorter, which later items fill, and room ahead of one that grew, at most as much again. Appending to a list of a
//! valid module costs the bytes of the item, an export also one look at each name: they come behind those that are kept of the section,
//! where only the count in front is written over. Taking an export out moves the bytes behind it. A function or another body costs its
//! code and one look at the imports; an import, two looks at what each function refers to, and the bodies that move. An edit of an
//! invalid module judges the sections anew, looks at the verdicts of all bodies, and types the invalid ones that find another thing. A
//! custom section costs its own bytes, and a verdict, a length and what a function refers to cost nothing: they are looked up.
#![tactic(auto)]

mod basis;
mod bytes;
mod cache;
mod display;
mod edit;
mod edits;
mod judged;
mod known;
mod laws;
mod session;
mod verdict_and_len;
mod write;

pub use bytes::bytes_of_edit;
pub use edit::{Edit, EditFault, Reply, Work};
pub use laws::work_of_edits;
pub use session::Session;
pub use write::WriteFault;
