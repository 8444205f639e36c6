//! Calls of `wk_draft`.

ghost use Rattle.std.specs.Prelude.{◌≡◌, Ok};
ghost use Rattle.wk_module.specs.declared.types.Parts.{Parts as PartsOf};
ghost use Rattle.wk_module.specs.Reading.{module_at};
ghost use Rattle.wk_check.specs.Verdict.{module_verdict};

use crate::bodies::NO_MEMORY;
use crate::mark::{call_begins, call_ends};
use crate::modules::{OF_MOVING, OF_WIDE, Sample};
use crate::sinks::{Room, holds, holds_begun, sink};
use std::alloc::Global;
use wk_bytes::{Out, OutOfMemory, Sink};
use wk_check::Verdict;
use wk_draft::{Drafted, Edited, Run, edit_outline, edit_valid, is_valid};
use wk_edit::read_script;
use wk_module::read_outline;
use wk_samples::moving::{self, OF_EACH_KIND};
use wk_samples::outcome::Outcome;
use wk_samples::wide;
use wk_session::{Edit, WriteFault};

/// Edits of a valid module, and what they make of it.
#[derive(Clone, Copy)]
pub(crate) struct Draft {
    sample: Sample,
    /// The edits, as a script.
    script: &'static [u8],
    /// Whether the module has to stay valid, as it does then.
    keep: bool,
    made: &'static [u8],
}

/// An edit of each kind.
pub(crate) const EACH_KIND: Draft = Draft {
    sample: OF_MOVING,
    script: OF_EACH_KIND,
    keep: false,
    made: moving::ALL_EDITED,
};

/// An edit of each kind of which the module stays valid.
pub(crate) const EACH_KIND_KEPT: Draft = Draft {
    script: b"type i32 f64\n\
        import func a h 1\nimport global a i i64 const\n\
        func 0 00410010021a0b\nbody 2 01017e20010b\nglobal i32 var 23000b\n\
        export func h 2\nunexport g\n\
        custom set c 0909\ncustom strip c\nstrip\n",
    keep: true,
    made: moving::ALL_KEPT,
    ..EACH_KIND
};

/// An edit of each kind in the wider profile.
pub(crate) const EACH_KIND_WIDE: Draft = Draft {
    sample: OF_WIDE,
    script: wide::OF_EACH_KIND,
    keep: false,
    made: wide::ALL_EDITED,
};

/// `is_valid` of a valid module.
pub(crate) fn judges(alloc: Global, sample: Sample) -> Outcome {
    call_begins(alloc);
    let answer = is_valid(alloc, sample.bytes, sample.profile);
    call_ends(alloc);
    match answer {
        Ok(valid) => Outcome::answered(valid),
        Err(fault) => Outcome::refused(fault == NO_MEMORY),
    }
}

impl Draft {
    /// `edit_valid`, or, where a room is given, `Edited::write` of what it answers to a sink with that much room.
    pub(crate) fn run(self, alloc: Global, room: Option<Room>) -> Outcome {
        match read_script(alloc, self.script) {
            Ok(edits) => self.run_by(alloc, &edits, room),
            Err(_) => Outcome::NO_SAMPLE,
        }
    }

    fn run_by(self, alloc: Global, edits: &[Edit], room: Option<Room>) -> Outcome {
        let Ok(true) = is_valid(alloc, self.sample.bytes, self.sample.profile) else {
            return Outcome::NO_SAMPLE;
        };
        match room {
            None => self.edits(alloc, edits),
            Some(room) => self.edits_and_writes(alloc, edits, room),
        }
    }

    fn edits(self, alloc: Global, edits: &[Edit]) -> Outcome
        requires { (m : PartsOf) × (module_at self.sample.profile self.sample.bytes.now ≡ Ok m)
            × (module_verdict m ≡ Verdict.Valid) }
    {
        let Sample { profile, bytes } = self.sample;
        call_begins(alloc);
        let answer = edit_valid(alloc, bytes, profile, edits, self.keep);
        call_ends(alloc);
        match answer {
            Ok(Some(run)) => Outcome::answered(self.is_made(alloc, &run, edits)),
            Ok(None) => Outcome::Wrong("the draft gave up"),
            Err(OutOfMemory) => Outcome::refused(true),
        }
    }

    /// `edit_outline`.
    pub(crate) fn run_outlined(self, alloc: Global) -> Outcome {
        match read_script(alloc, self.script) {
            Ok(edits) => self.edits_outlined(alloc, &edits),
            Err(_) => Outcome::NO_SAMPLE,
        }
    }

    fn edits_outlined(self, alloc: Global, edits: &[Edit]) -> Outcome {
        let Sample { profile, bytes } = self.sample;
        let Ok(outline) = read_outline(alloc, bytes, profile) else {
            return Outcome::NO_SAMPLE;
        };
        call_begins(alloc);
        let answer = edit_outline(alloc, outline, bytes, profile, edits, self.keep);
        call_ends(alloc);
        match answer {
            Ok(Drafted::Made(run)) => Outcome::answered(self.is_made(alloc, &run, edits)),
            Ok(Drafted::Unmade { .. }) => Outcome::Wrong("the draft gave up"),
            Err(OutOfMemory) => Outcome::refused(true),
        }
    }

    // Whether each edit has a reply, the module is valid where it has to stay so, and it is written as it should be.
    fn is_made(self, alloc: Global, run: &Run, edits: &[Edit]) -> bool {
        let is_kept = !self.keep || run.verdict == Verdict::Valid;
        let mut sink = Sink::new(Vec::new(alloc));
        let is_written = run.edited.write(&mut sink).is_ok();
        let bytes = sink.into_inner();
        is_kept && is_written && bytes.as_slice() == self.made && run.replies.len() == edits.len()
    }

    fn edits_and_writes(self, alloc: Global, edits: &[Edit], room: Room) -> Outcome
        requires { (m : PartsOf) × (module_at self.sample.profile self.sample.bytes.now ≡ Ok m)
            × (module_verdict m ≡ Verdict.Valid) }
    {
        let Sample { profile, bytes } = self.sample;
        match edit_valid(alloc, bytes, profile, edits, self.keep) {
            Ok(Some(run)) => self.writes(alloc, &run.edited, room),
            _ => Outcome::NO_SAMPLE,
        }
    }

    fn writes(self, alloc: Global, edited: &Edited, room: Room) -> Outcome {
        match sink(alloc, room) {
            Some(sink) => self.writes_to(alloc, edited, sink),
            None => Outcome::NO_SAMPLE,
        }
    }

    fn writes_to(self, alloc: Global, edited: &Edited, mut sink: Sink) -> Outcome
        requires { ⟦<Sink as Out>⟧.failed sink ≡ 0 }
    {
        call_begins(alloc);
        let answer = edited.write(&mut sink);
        call_ends(alloc);
        match answer {
            Ok(()) => Outcome::answered(holds(sink, 0, self.made)),
            Err(WriteFault::Write) => Outcome::refused(holds_begun(sink, 1, self.made)),
            Err(WriteFault::Memory) => Outcome::Wrong("writing took memory of its own"),
        }
    }
}
