//! Calls of `wk_edit` and `wk_answers`.

use crate::answers::Answer;
use crate::jobs;
use crate::lines::Line;
use crate::scenario::{Named, Scenario, scenarios};
use crate::sinks::Room::{Ample, Full};

/// Calls of `wk_edit` and `wk_answers`, and what they are made of.
pub(crate) static JOBS: [Named; 24] = scenarios! {
    "read-script" => Scenario::ReadScript,
    "malformed-line" => Scenario::Line(Line::Malformed),
    "verdict-line" => Scenario::Line(Line::Valid),
    "verdict-line-of-fault" => Scenario::Line(Line::Invalid),
    "read-name" => Scenario::Line(Line::Name),
    "read-plain-name" => Scenario::Line(Line::PlainName),
    "put-header" => Scenario::Line(Line::Header),
    "token-text" => Scenario::Line(Line::Token),
    "edit" => Scenario::Edit(jobs::EDITS, Ample, Ample),
    "edit-of-code" => Scenario::Edit(jobs::EDIT_OF_CODE, Ample, Ample),
    "edit-each-kind" => Scenario::Edit(jobs::EACH_KIND, Ample, Ample),
    "edit-kept-each-kind" => Scenario::Edit(jobs::EACH_KIND_KEPT, Ample, Ample),
    "edit-in" => Scenario::Edit(jobs::EXTENDED, Ample, Ample),
    "edit-in-kept" => Scenario::Edit(jobs::EXTENDED_KEPT, Ample, Ample),
    "edit-in-each-kind" => Scenario::Edit(jobs::EACH_KIND_WIDE, Ample, Ample),
    "edit-in-kept-each-kind" => Scenario::Edit(jobs::EACH_KIND_WIDE_KEPT, Ample, Ample),
    "edit-report-full" => Scenario::Edit(jobs::EDITS, Ample, Full),
    "edit-to-full" => Scenario::Edit(jobs::EDITS, Full, Full),
    "edit-malformed" => Scenario::Edit(jobs::MALFORMED, Full, Full),
    "edit-bad-script" => Scenario::Edit(jobs::BAD_SCRIPT, Full, Full),
    "validate" => Scenario::Answer(Answer::Validate),
    "list-sections" => Scenario::Answer(Answer::ListSections),
    "list-parts" => Scenario::Answer(Answer::ListParts),
    "list-summary-parts" => Scenario::Answer(Answer::ListSummaryParts),
};
