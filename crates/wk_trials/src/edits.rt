//! `Session::apply` and `Session::apply_kept`.

use crate::mark::{call_begins, call_ends};
use crate::same::is_session_of;
use crate::scenario::and_drop;
use std::alloc::{AllocError, Global};
use std::fmt;
use wk_bytes::{Items, Text};
use wk_edit::read_script;
use wk_module::{Export, FuncType, Kind, Profile, ValType};
use wk_samples::moving::MOVING;
use wk_samples::outcome::Outcome;
use wk_samples::sections::{Sections, with_sections};
use wk_session::{Edit, EditFault, Reply, Session, Work};

/// What an edit comes to where memory is ample.
#[derive(Clone, Copy)]
pub(crate) enum Wanted {
    /// It types and encodes that many bodies and makes that many sections again, and leaves the module with these sections.
    Made([u32; 3], Sections),
    /// It is refused for that, and the module stays.
    Refused(&'static str),
}

/// An edit of a module.
#[derive(Clone, Copy)]
pub(crate) struct Trial {
    /// How the module is read.
    pub(crate) profile: Profile,
    /// The written form of the module.
    pub(crate) input: &'static [u8],
    /// The edit, as the line of a script.
    pub(crate) line: &'static [u8],
    /// What it comes to.
    pub(crate) wanted: Wanted,
}

/// The one edit of a script.
pub(crate) fn edit_of(alloc: Global, line: &[u8]) -> Option<Edit> {
    read_script(alloc, line).ok()?.pop()
}

// Makes the edit, which is the call under test.
fn reply(alloc: Global, keep: bool, session: &mut Session, edit: &Edit) -> Reply {
    call_begins(alloc);
    let reply = if keep {
        session.apply_kept(edit)
    } else {
        session.apply(edit)
    };
    call_ends(alloc);
    reply
}

// Whether the fault is told by this text.
fn is_told(alloc: Global, fault: EditFault, text: &str) -> bool {
    match format!(in alloc; "{fault}") {
        Ok(told) => told.as_str() == text,
        Err(AllocError) => false,
    }
}

impl Trial {
    /// Its edit, where `keep` says whether the module has to be valid afterwards.
    pub(crate) fn run(&self, alloc: Global, keep: bool) -> Outcome {
        match edit_of(alloc, self.line) {
            Some(edit) => self.run_by(alloc, keep, &edit),
            None => Outcome::NO_SAMPLE,
        }
    }

    fn run_by(&self, alloc: Global, keep: bool, edit: &Edit) -> Outcome {
        match Session::open_in(alloc, self.input, self.profile) {
            Ok(mut session) => and_drop(self.run_on(alloc, keep, &mut session, edit), session),
            Err(_) => Outcome::NO_SAMPLE,
        }
    }

    fn run_on(&self, alloc: Global, keep: bool, session: &mut Session, edit: &Edit) -> Outcome {
        match reply(alloc, keep, session, edit) {
            Ok(work) => self.was_made(alloc, session, work),
            Err(EditFault::Memory) => Outcome::refused(self.is_as_before(alloc, session)),
            Err(fault) => {
                let is_right =
                    matches!(self.wanted, Wanted::Refused(text) if is_told(alloc, fault, text));
                Outcome::answered(is_right && self.is_as_before(alloc, session))
            }
        }
    }

    fn is_as_before(&self, alloc: Global, session: &Session) -> bool {
        is_session_of(alloc, session, self.profile, self.input)
    }

    // Whether the session is that of the module with these sections.
    fn is_left(&self, alloc: Global, session: &Session, sections: Sections) -> bool {
        match with_sections(alloc, self.input, sections) {
            Some(bytes) => is_session_of(alloc, session, self.profile, &bytes),
            None => false,
        }
    }

    // What an accepted edit came to.
    fn was_made(&self, alloc: Global, session: &Session, work: Work) -> Outcome {
        match self.wanted {
            Wanted::Made(counts, sections) => {
                let is_told = [work.typed, work.encoded, work.sections] == counts;
                Outcome::answered(is_told && self.is_left(alloc, session, sections))
            }
            Wanted::Refused(_) => Outcome::Wrong("an edit that is to be refused is made"),
        }
    }
}

/// An edit of more bytes than any written form has.
#[derive(Clone, Copy)]
pub(crate) enum TooLarge {
    /// Of a type.
    Ty,
    /// Of an export.
    Export,
    /// Of a custom section.
    Custom,
}

const TOO_LARGE: Trial = Trial {
    profile: Profile::Core,
    input: MOVING,
    line: b"",
    wanted: Wanted::Refused("E5 TooLarge"),
};

// Parts of this length, and how many of them are one byte more than the longest written form.
const PART: usize = 1 << 20;

const PARTS: usize = 1 << 11;

// So many letters.
fn long_text(alloc: Global) -> Result<String, AllocError> {
    let part: String = "n".repeat(alloc, PART)?;
    part.repeat(alloc, PARTS)
}

// So many value types.
fn many_types(alloc: Global) -> Result<Vec<ValType>, AllocError> {
    let mut part = Vec::new(alloc);
    part.resize(PART, ValType::I32)?;
    let mut types = Vec::with_capacity(alloc, PARTS * PART)?;
    for _ in 0..PARTS {
        types.extend_from_slice(&part)?;
    }
    Ok(types)
}

impl TooLarge {
    fn edit(self, alloc: Global) -> Result<Edit, AllocError> {
        match self {
            TooLarge::Ty => {
                let params = Items::from_vec(many_types(alloc)?);
                let results = Items::new(alloc);
                Ok(Edit::Ty(FuncType { params, results }))
            }
            TooLarge::Export => {
                let name = Text::from_string(long_text(alloc)?);
                let kind = Kind::Func;
                Ok(Edit::Export(Export {
                    name,
                    kind,
                    index: 0,
                }))
            }
            TooLarge::Custom => {
                let bytes = Items::from_vec(long_text(alloc)?.into_bytes());
                let name = Text::from_string(String::new(alloc));
                Ok(Edit::SetCustom { name, bytes })
            }
        }
    }

    /// The edit, which is refused.
    pub(crate) fn run(self, alloc: Global, keep: bool) -> Outcome {
        match self.edit(alloc) {
            Ok(edit) => TOO_LARGE.run_by(alloc, keep, &edit),
            Err(AllocError) => Outcome::NO_SAMPLE,
        }
    }
}
