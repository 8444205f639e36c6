//! An edit, what it is answered, and what it leaves.

use wk_check::{Fault, FaultKind, Place, Verdict};
use wk_session::{EditFault, Reply};

/// What is answered.
#[derive(Clone, Copy)]
pub(crate) enum Answer {
    /// So many bodies are typed and encoded, and so many sections change.
    Work(u32, u32, u32),
    /// Why the edit is refused, other than to keep the module valid.
    Refused(EditFault),
    /// What makes the module invalid, where it has to be valid afterwards: the fault, its section and its item, and the token of a body.
    Broken(FaultKind, u8, u32, Option<u32>),
}

/// A verdict.
#[derive(Clone, Copy)]
pub(crate) enum Judged {
    /// The module is valid.
    Valid,
    /// It is not: the first fault, its section and its item, and the token of a body.
    Invalid(FaultKind, u8, u32, Option<u32>),
}

fn fault_at(kind: FaultKind, section: u8, item: u32, token: Option<u32>) -> Fault {
    let place = Place {
        section,
        item,
        token,
    };
    Fault { kind, place }
}

impl Answer {
    /// The reply that says so.
    pub(crate) fn reply(self) -> Reply {
        match self {
            Answer::Work(typed, encoded, sections) => Ok(wk_session::Work {
                typed,
                encoded,
                sections,
            }),
            Answer::Refused(fault) => Err(fault),
            Answer::Broken(kind, section, item, token) => Err(EditFault::WouldBreak(fault_at(
                kind, section, item, token,
            ))),
        }
    }
}

impl Judged {
    /// The verdict that says so.
    pub(crate) fn verdict(self) -> Verdict {
        match self {
            Judged::Valid => Verdict::Valid,
            Judged::Invalid(kind, section, item, token) => {
                Verdict::Invalid(fault_at(kind, section, item, token))
            }
        }
    }
}

/// A line of a script, what its edit is answered, and the module and the verdict that it leaves.
pub(crate) type Step = (&'static [u8], Answer, &'static [u8], Judged);

// Steps, each behind the next: a line, what it is answered, and what it leaves.
macro_rules! steps {
    ($($line:literal => $answer:expr, $bytes:expr, $judged:expr;)*) => {
        [$(($line, $answer, $bytes, $judged)),*]
    };
}

pub(crate) use steps;

/// A module, and edits of it, each of what the one before leaves.
#[derive(Clone, Copy)]
pub(crate) struct Walk {
    /// The module, in its written form or longer.
    pub(crate) bytes: &'static [u8],
    /// Whether it has to be valid after each edit.
    pub(crate) keep: bool,
    /// The edits.
    pub(crate) steps: &'static [Step],
}

// Walks, a line each, in the order of their fields.
macro_rules! walks {
    ($($bytes:expr, $keep:literal, $steps:expr;)*) => {
        [$(Walk { bytes: $bytes, keep: $keep, steps: $steps }),*]
    };
}

pub(crate) use walks;
