//! Edits of a valid module of which the bodies that the edits leave as they are stay bytes.
//!
//! # What it promises
//!
//! - [`is_valid`] tells whether the module that bytes spell is valid, or the fault of reading it.
//! - [`edit_outline`] makes edits in order on the module that bytes spell, of which an outline was read before: the answers, the verdict and
//!   the written form that come are those that the edits of `wk_session` make of it (`IsRun` of `specs/Runs`; an [`Answer`] tells of no
//!   work). Or it says that it does not, with the verdict on the module where it was judged, and with its codes where they are at hand: a
//!   session over the whole module makes them then.
//! - [`edit_valid`] does so of bytes alone, whose module has to be valid.
//! - An [`Edited`] is seen as the written form of the edited module, and [`Edited::write`] makes an `Out` take it, without memory.
//!
//! # How it goes
//!
//! An outline is read before anything is judged, so that what is malformed is refused in the time of reading, and the draft is made of that
//! outline. The edits are made on a draft (`specs/Drafts`): the module with a stub for each of its bodies, which a session holds. A stub is valid
//! under each type that is there, as the body is that it stands for, and both stay so whatever comes to the module. So the draft has the
//! verdict of the module and answers each edit as the module would (`Follows` of `specs/Steps`), but for its length, which is bounded: where
//! a module may be too large, or an import would make it invalid, the draft gives up. A body that is replaced is deferred no more. At the
//! end each deferred body is put in its place, with its references where the imports that came have moved them.
#![tactic(auto)]

mod draft;
mod edited;
mod predict_refusal;
mod put_back;
mod run;
mod size_bound;

pub use draft::Answer;
pub use edited::Edited;
pub use run::{Drafted, Run, edit_outline, edit_valid, is_valid};
