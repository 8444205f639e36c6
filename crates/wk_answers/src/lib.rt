//! What the commands answer of bytes: the texts that they print, and what their statuses say.
//!
//! # What it promises
//!
//! - [`list_sections`] is a line for each item of `sections_of` the bytes, and whether one of them is a fault (`specs/Listing`): each
//!   section lies in the bytes, and the fault stands in them.
//! - [`list_parts`] is the listings of these parts of a module, one behind the other, or after a fault a beginning of them.
//!   [`list_summary_parts`] is the same of a module whose bodies were not kept, where [`list_bodies`] says that no part tells of them.
//! - [`validate`] is the verdict line of the module that the bytes spell in a profile, or the line of their first fault, with the
//!   status (`specs/Validation`). That it judges by `judge_bytes`, and never holds that module whole, makes no difference to its clauses.
//!   [`validate_with`] is the same with a `Validator`, whose room is kept from one module to the next: no answer depends on those before.
//! - [`explain`] is that line, and behind it a line that says where in the bytes the fault of an invalid module is: the offset of its item or
//!   token, the index of the function, and the token (`specs/Explaining`). [`explain_with`] is the same with a `Validator`.
#![tactic(auto)]

mod dumping;
mod explaining;
mod listing;
mod validation;

pub use dumping::{list_bodies, list_parts, list_summary_parts};
pub use explaining::{Explanation, explain, explain_with};
pub use listing::{Listing, list_sections};
pub use validation::{Validation, validate, validate_with};
