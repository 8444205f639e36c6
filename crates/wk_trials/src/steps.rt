//! Single edits of a script, each behind those that stand in front of it.

use crate::mark::{call_begins, call_ends};
use crate::runs::Edits;
use crate::same::are_same;
use crate::scenario::and_drop;
use std::alloc::Global;
use wk_edit::read_script;
use wk_samples::outcome::Outcome;
use wk_session::{Edit, EditFault, Reply, Session};

impl Edits {
    /// The edit of that number, from 0, beside a session apart that is made the same edits.
    pub(crate) fn step(&self, alloc: Global, number: usize) -> Outcome {
        match read_script(alloc, self.script) {
            Ok(edits) => self.step_of(alloc, &edits, number),
            Err(_) => Outcome::NO_SAMPLE,
        }
    }

    fn step_of(&self, alloc: Global, edits: &[Edit], number: usize) -> Outcome {
        match self.open(alloc) {
            Ok(mut session) => and_drop(self.step_in(alloc, &mut session, edits, number), session),
            Err(_) => Outcome::NO_SAMPLE,
        }
    }

    fn step_in(
        &self,
        alloc: Global,
        session: &mut Session,
        edits: &[Edit],
        number: usize,
    ) -> Outcome {
        match self.open(alloc) {
            Ok(mut apart) => self.step_beside(alloc, session, &mut apart, edits, number),
            Err(_) => Outcome::NO_SAMPLE,
        }
    }

    fn step_beside(
        &self,
        alloc: Global,
        session: &mut Session,
        apart: &mut Session,
        edits: &[Edit],
        number: usize,
    ) -> Outcome {
        let Some(edit) = edits.get(number) else {
            return Outcome::NO_SAMPLE;
        };
        for before in edits.iter().take(number) {
            if self.reply(session, before) != self.reply(apart, before) {
                return Outcome::NO_SAMPLE;
            }
        }
        call_begins(alloc);
        let reply = self.reply(session, edit);
        call_ends(alloc);
        self.was_replied(alloc, session, apart, edit, reply)
    }

    // What an edit was replied, which the session apart was not made.
    fn was_replied(
        &self,
        alloc: Global,
        session: &Session,
        apart: &mut Session,
        edit: &Edit,
        reply: Reply,
    ) -> Outcome {
        if reply == Err(EditFault::Memory) {
            return Outcome::refused(are_same(alloc, session, apart));
        }
        let is_reply = self.reply(apart, edit) == reply;
        Outcome::answered(is_reply && are_same(alloc, session, apart))
    }
}
