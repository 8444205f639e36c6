//! The scenarios that are run, by their names, in the order in which they are run.

mod codes;
mod drafts;
mod edits;
mod jobs;
mod modules;
mod sessions;

use crate::scenario::Named;
use crate::table::codes::CODES;
use crate::table::drafts::DRAFTS;
use crate::table::edits::{KINDS, MENDS, REFUSALS, WIDE_KINDS};
use crate::table::jobs::JOBS;
use crate::table::modules::MODULES;
use crate::table::sessions::SESSIONS;

/// All scenarios, in the order in which they are run.
pub(crate) fn tables() -> [&'static [Named]; 9] {
    [
        &CODES,
        &MODULES,
        &SESSIONS,
        &KINDS,
        &MENDS,
        &REFUSALS,
        &WIDE_KINDS,
        &DRAFTS,
        &JOBS,
    ]
}
