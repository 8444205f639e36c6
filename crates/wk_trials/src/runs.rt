//! `Session::run` and `Session::run_kept`.

use crate::mark::{call_begins, call_ends};
use crate::same::{are_same, is_session_of};
use crate::scenario::and_drop;
use std::alloc::Global;
use wk_bytes::{OutOfMemory, ReadFault};
use wk_edit::read_script;
use wk_module::Profile;
use wk_samples::edits::{EDITED, MODULE, SCRIPT};
use wk_samples::moving::{ALL_EDITED, ALL_KEPT, MOVING, OF_EACH_KIND};
use wk_samples::outcome::Outcome;
use wk_samples::wide::{self, WIDE};
use wk_session::{Edit, EditFault, Reply, Session};

/// Edits of a module.
#[derive(Clone, Copy)]
pub(crate) struct Edits {
    /// How the module is read.
    pub(crate) profile: Profile,
    /// The written form of the module.
    pub(crate) input: &'static [u8],
    /// The edits, as a script.
    pub(crate) script: &'static [u8],
    /// Whether the module has to stay valid.
    pub(crate) keep: bool,
    /// How many of them are refused where memory is ample.
    refusals: usize,
    /// The written form of the module that they make then.
    made: &'static [u8],
}

/// Four edits, one of them of a custom section that is not there.
pub(crate) const EDITS: Edits = Edits {
    profile: Profile::Core,
    input: MODULE,
    script: SCRIPT,
    keep: false,
    refusals: 1,
    made: EDITED,
};

/// An edit of each kind.
pub(crate) const EACH_KIND: Edits = Edits {
    profile: Profile::Core,
    input: MOVING,
    script: OF_EACH_KIND,
    keep: false,
    refusals: 0,
    made: ALL_EDITED,
};

/// The same, two of which would make the module invalid.
pub(crate) const EACH_KIND_KEPT: Edits = Edits {
    keep: true,
    refusals: 2,
    made: ALL_KEPT,
    ..EACH_KIND
};

/// An edit of each kind in the wider profile.
pub(crate) const EACH_KIND_WIDE: Edits = Edits {
    profile: Profile::Extended,
    input: WIDE,
    script: wide::OF_EACH_KIND,
    keep: false,
    refusals: 0,
    made: wide::ALL_EDITED,
};

/// The same, two of which would make the module invalid.
pub(crate) const EACH_KIND_WIDE_KEPT: Edits = Edits {
    keep: true,
    refusals: 2,
    made: wide::ALL_KEPT,
    ..EACH_KIND_WIDE
};

fn refusals_in(replies: &[Reply]) -> usize {
    let mut refusals = 0usize;
    for reply in replies {
        if reply.is_err() {
            refusals = refusals.saturating_add(1);
        }
    }
    refusals
}

impl Edits {
    /// The run of them.
    pub(crate) fn run(&self, alloc: Global) -> Outcome {
        match read_script(alloc, self.script) {
            Ok(edits) => self.run_all(alloc, &edits),
            Err(_) => Outcome::NO_SAMPLE,
        }
    }

    fn run_all(&self, alloc: Global, edits: &[Edit]) -> Outcome {
        match self.open(alloc) {
            Ok(mut session) => and_drop(self.run_in(alloc, &mut session, edits), session),
            Err(_) => Outcome::NO_SAMPLE,
        }
    }

    /// A session of the module.
    pub(crate) fn open(&self, alloc: Global) -> Result<Session, ReadFault> {
        Session::open_in(alloc, self.input, self.profile)
    }

    fn run_in(&self, alloc: Global, session: &mut Session, edits: &[Edit]) -> Outcome {
        call_begins(alloc);
        let answer = if self.keep {
            session.run_kept(edits)
        } else {
            session.run(edits)
        };
        call_ends(alloc);
        match answer {
            Ok(replies) => self.compared(alloc, session, edits, &replies),
            Err(OutOfMemory) if self.is_session_of(alloc, session, self.input) => {
                Outcome::MemoryOf("replies")
            }
            Err(OutOfMemory) => Outcome::refused(false),
        }
    }

    fn is_session_of(&self, alloc: Global, session: &Session, bytes: &[u8]) -> bool {
        is_session_of(alloc, session, self.profile, bytes)
    }

    // What the run came to, beside a session apart.
    fn compared(
        &self,
        alloc: Global,
        session: &Session,
        edits: &[Edit],
        replies: &[Reply],
    ) -> Outcome {
        match self.open(alloc) {
            Ok(mut apart) => self.after_run(alloc, session, edits, replies, &mut apart),
            Err(_) => Outcome::NO_SAMPLE,
        }
    }

    // Of the edits that were not refused for want of memory, the replies and the module have to be those of a session that
    // makes these edits alone, which the last one is to be.
    fn after_run(
        &self,
        alloc: Global,
        session: &Session,
        edits: &[Edit],
        replies: &[Reply],
        apart: &mut Session,
    ) -> Outcome {
        let (wants, are_answers) = self.replies_apart(apart, edits, replies);
        let refusals = refusals_in(replies);
        if wants == 0 {
            let is_made = self.is_session_of(alloc, session, self.made);
            Outcome::answered(are_answers && refusals == self.refusals && is_made)
        } else if !(are_answers && are_same(alloc, session, apart)) {
            Outcome::Wrong("other edits suffered from a refusal")
        } else if wants == 1 {
            Outcome::MemoryOf("an edit")
        } else {
            Outcome::MemoryOf("edits")
        }
    }

    // How many edits were refused for want of memory, and whether the replies to the others are those of a session that makes
    // these edits alone.
    fn replies_apart(&self, apart: &mut Session, edits: &[Edit], replies: &[Reply]) -> (u32, bool) {
        let mut wants = 0u32;
        let mut are_answers = replies.len() == edits.len();
        for (edit, reply) in edits.iter().zip(replies) {
            if *reply == Err(EditFault::Memory) {
                wants = wants.saturating_add(1);
            } else {
                let reply_apart = self.reply(apart, edit);
                are_answers = are_answers && reply_apart == *reply;
            }
        }
        (wants, are_answers)
    }

    /// What a session replies to an edit.
    pub(crate) fn reply(&self, session: &mut Session, edit: &Edit) -> Reply {
        if self.keep {
            session.apply_kept(edit)
        } else {
            session.apply(edit)
        }
    }
}
