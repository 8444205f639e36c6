//! Calls of `wk_edit`.

ghost use Rattle.std.specs.Prelude.{◌≡◌, ◌<◌, ◌-◌, ◌^◌};

use crate::mark::{call_begins, call_ends};
use crate::sinks::{Room, holds, holds_begun, sink};
use std::alloc::Global;
use wk_bytes::{Out, Sink};
use wk_edit::{RunFault, ScriptFault, Status, edit, edit_in, read_script};
use wk_module::Profile;
use wk_samples::edits::{
    EDITED, MODULE, REPORT, SCRIPT, VALID, VALID_REPORT, VALID_SCRIPT, VALID_WITH_TYPE,
};
use wk_samples::lacking::{NO_BLOCK_TYPE, NO_BLOCK_TYPE_MENDED};
use wk_samples::moving::{ALL_EDITED, ALL_KEPT, ALL_REPORT, KEPT_REPORT, MOVING, OF_EACH_KIND};
use wk_samples::outcome::Outcome;
use wk_samples::wide::{self, WIDE};
use wk_session::Edit;

/// `read_script` of a line of each kind.
pub(crate) fn reads_script(alloc: Global) -> Outcome {
    call_begins(alloc);
    let answer = read_script(alloc, OF_EACH_KIND);
    call_ends(alloc);
    match answer {
        Ok(edits) => Outcome::answered(are_edits(&edits)),
        Err(fault) => Outcome::refused(fault == ScriptFault::Memory),
    }
}

// Whether there is an edit of each kind, and the last of them strips all custom sections.
fn are_edits(edits: &[Edit]) -> bool {
    edits.len() == 13 && matches!(edits.last(), Some(Edit::StripAll))
}

/// A run, and what it gives where memory is ample.
#[derive(Clone, Copy)]
pub(crate) struct Job {
    profile: Profile,
    input: &'static [u8],
    script: &'static [u8],
    keep: bool,
    status: Status,
    module: &'static [u8],
    report: &'static [u8],
}

/// Edits that are made, but for one that is refused.
pub(crate) const EDITS: Job = Job {
    profile: Profile::Core,
    input: MODULE,
    script: SCRIPT,
    keep: false,
    status: Status::Refused,
    module: EDITED,
    report: REPORT,
};

/// An edit of a module with code.
pub(crate) const EDIT_OF_CODE: Job = Job {
    profile: Profile::Core,
    input: VALID,
    script: VALID_SCRIPT,
    keep: false,
    status: Status::Accepted,
    module: VALID_WITH_TYPE,
    report: VALID_REPORT,
};

/// An edit of each kind.
pub(crate) const EACH_KIND: Job = Job {
    profile: Profile::Core,
    input: MOVING,
    script: OF_EACH_KIND,
    keep: false,
    status: Status::Refused,
    module: ALL_EDITED,
    report: ALL_REPORT,
};

/// The same where the module has to stay valid.
pub(crate) const EACH_KIND_KEPT: Job = Job {
    keep: true,
    module: ALL_KEPT,
    report: KEPT_REPORT,
    ..EACH_KIND
};

/// An edit in the other profile that makes the module valid.
pub(crate) const EXTENDED: Job = Job {
    profile: Profile::Extended,
    input: NO_BLOCK_TYPE,
    script: b"strip\ntype i32 i32",
    keep: false,
    status: Status::Accepted,
    module: NO_BLOCK_TYPE_MENDED,
    report: b"1 ok\n2 ok\nvalid\n",
};

/// An edit of each kind in that profile.
pub(crate) const EACH_KIND_WIDE: Job = Job {
    profile: Profile::Extended,
    input: WIDE,
    script: wide::OF_EACH_KIND,
    keep: false,
    status: Status::Refused,
    module: wide::ALL_EDITED,
    report: wide::ALL_REPORT,
};

/// The same where the module has to stay valid.
pub(crate) const EACH_KIND_WIDE_KEPT: Job = Job {
    keep: true,
    module: wide::ALL_KEPT,
    report: wide::KEPT_REPORT,
    ..EACH_KIND_WIDE
};

/// The same as [`EXTENDED`] where the module has to be valid.
pub(crate) const EXTENDED_KEPT: Job = Job {
    keep: true,
    status: Status::Refused,
    report: b"1 refused E7 WouldBreak V2 UnknownType at section 10 item 0 token 1\n2 ok\nvalid\n",
    ..EXTENDED
};

/// An input that is no module.
pub(crate) const MALFORMED: Job = Job {
    profile: Profile::Core,
    input: b"\0asm\x01\0\0\0\x0c\0",
    script: SCRIPT,
    keep: false,
    status: Status::Malformed,
    module: &[],
    report: b"malformed R6 UnknownSection at 0x00000008\n",
};

/// A script that is wrong.
pub(crate) const BAD_SCRIPT: Job = Job {
    profile: Profile::Core,
    input: MODULE,
    script: b"type - -\ntype",
    keep: false,
    status: Status::BadScript,
    module: &[],
    report: b"script S1 BadWord line 2\n",
};

impl Job {
    /// `edit` onto outputs with that much room.
    pub(crate) fn run(self, alloc: Global, out: Room, report: Room) -> Outcome {
        match sink(alloc, out) {
            Some(out) => self.run_onto(alloc, out, report),
            None => Outcome::NO_SAMPLE,
        }
    }

    fn run_onto(self, alloc: Global, out: Sink, report: Room) -> Outcome
        requires { ⟦<Sink as Out>⟧.failed out ≡ 0 }
    {
        match sink(alloc, report) {
            Some(report) => self.run_to(alloc, out, report),
            None => Outcome::NO_SAMPLE,
        }
    }

    fn edit_to(self, alloc: Global, out: &mut Sink, report: &mut Sink) -> Result<Status, RunFault>
        requires out { ⟦<Sink as Out>⟧.failed out.old < 2 ^ 64 - 1 }
        requires report { ⟦<Sink as Out>⟧.failed report.old < 2 ^ 64 - 1 }
    {
        match self.profile {
            Profile::Core => edit(alloc, self.input, self.script, self.keep, out, report),
            profile => edit_in(
                alloc,
                self.input,
                self.script,
                self.keep,
                profile,
                out,
                report,
            ),
        }
    }

    fn run_to(self, alloc: Global, mut out: Sink, mut report: Sink) -> Outcome
        requires out { ⟦<Sink as Out>⟧.failed out ≡ 0 }
        requires report { ⟦<Sink as Out>⟧.failed report ≡ 0 }
    {
        call_begins(alloc);
        let answer = self.edit_to(alloc, &mut out, &mut report);
        call_ends(alloc);
        match answer {
            Ok(status) => {
                let is_whole = holds(out, 0, self.module) && holds(report, 0, self.report);
                Outcome::answered(is_whole && status == self.status)
            }
            Err(RunFault::Out) => {
                Outcome::refused(holds_begun(out, 1, self.module) && holds(report, 0, &[]))
            }
            Err(RunFault::Report) => {
                Outcome::refused(holds(out, 0, self.module) && holds_begun(report, 1, self.report))
            }
            Err(RunFault::Memory) => {
                Outcome::refused(holds(out, 0, &[]) && holds(report, 0, &[]))
            }
        }
    }
}
