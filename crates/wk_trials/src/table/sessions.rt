//! Calls of sessions.

use crate::modules::{OF_MOVING, OF_TYPES, OF_VALID, OF_WIDE};
use crate::scenario::Scenario::{self, Apply, ListSession, Open};
use crate::scenario::{Named, scenarios};
use crate::sinks::Room::{Ample, Full};
use crate::{changes, runs};
use wk_list::Part;
use wk_module::Profile::{Core, Extended};

/// Calls of sessions.
pub(crate) static SESSIONS: [Named; 50] = scenarios! {
    "open-types" => Open(OF_TYPES),
    "open-valid" => Open(OF_VALID),
    "open-moving" => Open(OF_MOVING),
    "open-wide" => Open(OF_WIDE),
    "open-judged" => Scenario::OpenJudged(OF_MOVING),
    "open-judged-wide" => Scenario::OpenJudged(OF_WIDE),
    "open-outlined" => Scenario::OpenOutlined(OF_MOVING),
    "open-outlined-wide" => Scenario::OpenOutlined(OF_WIDE),
    "hold-types" => Scenario::Holding(OF_TYPES),
    "hold-moving" => Scenario::Holding(OF_MOVING),
    "hold-wide" => Scenario::Holding(OF_WIDE),
    "tell-in-room" => Scenario::Tell(OF_MOVING),
    "tell-wide-in-room" => Scenario::Tell(OF_WIDE),
    "session-headers" => ListSession(Part::Headers, Core, Ample),
    "session-headers-to-full" => ListSession(Part::Headers, Core, Full),
    "session-details" => ListSession(Part::Details, Core, Ample),
    "session-details-to-full" => ListSession(Part::Details, Core, Full),
    "session-code" => ListSession(Part::Code, Core, Ample),
    "session-code-to-full" => ListSession(Part::Code, Core, Full),
    "session-uses" => ListSession(Part::Uses, Core, Ample),
    "session-uses-to-full" => ListSession(Part::Uses, Core, Full),
    "session-headers-wide" => ListSession(Part::Headers, Extended, Ample),
    "session-headers-wide-to-full" => ListSession(Part::Headers, Extended, Full),
    "session-details-wide" => ListSession(Part::Details, Extended, Ample),
    "session-details-wide-to-full" => ListSession(Part::Details, Extended, Full),
    "session-code-wide" => ListSession(Part::Code, Extended, Ample),
    "session-code-wide-to-full" => ListSession(Part::Code, Extended, Full),
    "session-uses-wide" => ListSession(Part::Uses, Extended, Ample),
    "session-uses-wide-to-full" => ListSession(Part::Uses, Extended, Full),
    "write-in-room" => Scenario::Write(OF_VALID, Ample),
    "write-to-full" => Scenario::Write(OF_VALID, Full),
    "write-wide-in-room" => Scenario::Write(OF_WIDE, Ample),
    "write-wide-to-full" => Scenario::Write(OF_WIDE, Full),
    "write-with-in-room" => Scenario::WriteWith(Ample),
    "write-with-to-full" => Scenario::WriteWith(Full),
    "apply-type" => Apply(changes::TYPE),
    "apply-type-to-code" => Apply(changes::TYPE_TO_CODE),
    "apply-strip-in-room" => Apply(changes::STRIP_FIRST),
    "apply-set" => Apply(changes::SET_SECOND),
    "apply-set-new" => Apply(changes::SET_NEW),
    "apply-strip-all-in-room" => Apply(changes::STRIP_ALL),
    "apply-refused-in-room" => Apply(changes::ABSENT_FIRST),
    "many-type" => Scenario::ApplyMany(b"type - -"),
    "many-export" => Scenario::ApplyMany(b"export func e 0"),
    "many-import" => Scenario::ApplyMany(b"import func env f 0"),
    "run" => Scenario::Run(runs::EDITS),
    "run-each-kind" => Scenario::Run(runs::EACH_KIND),
    "run-kept-each-kind" => Scenario::Run(runs::EACH_KIND_KEPT),
    "run-wide-each-kind" => Scenario::Run(runs::EACH_KIND_WIDE),
    "run-wide-kept-each-kind" => Scenario::Run(runs::EACH_KIND_WIDE_KEPT),
};
