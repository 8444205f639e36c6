//! Calls of `wk_draft`.

use crate::drafts;
use crate::modules::{OF_MOVING, OF_WIDE};
use crate::scenario::{Named, Scenario, scenarios};
use crate::sinks::Room::{Ample, Full};

/// Calls of `wk_draft`.
pub(crate) static DRAFTS: [Named; 10] = scenarios! {
    "is-valid" => Scenario::IsValid(OF_MOVING),
    "is-valid-wide" => Scenario::IsValid(OF_WIDE),
    "edit-valid" => Scenario::EditValid(drafts::EACH_KIND),
    "edit-valid-kept" => Scenario::EditValid(drafts::EACH_KIND_KEPT),
    "edit-valid-wide" => Scenario::EditValid(drafts::EACH_KIND_WIDE),
    "edit-outline" => Scenario::EditOutline(drafts::EACH_KIND),
    "edit-outline-kept" => Scenario::EditOutline(drafts::EACH_KIND_KEPT),
    "edit-outline-wide" => Scenario::EditOutline(drafts::EACH_KIND_WIDE),
    "edited-write-in-room" => Scenario::WriteEdited(drafts::EACH_KIND, Ample),
    "edited-write-to-full" => Scenario::WriteEdited(drafts::EACH_KIND, Full),
};
