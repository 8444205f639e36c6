//! Calls of `wk_answers`.

ghost use Rattle.std.specs.Prelude.{◌≡◌};

use crate::listings::was_listed;
use crate::mark::{call_begins, call_ends};
use crate::modules::{OF_ALL, OF_WIDE, Sample};
use crate::scenario::and_drop;
use crate::sinks::{Room, sink};
use std::alloc::{AllocError, Global};
use wk_answers::{list_bodies, list_parts, list_sections, list_summary_parts, validate};
use wk_bytes::{Out, OutOfMemory, Sink};
use wk_list::{Part, Plain, Summary};
use wk_module::Module;
use wk_samples::outcome::Outcome;
use wk_samples::wide::{CODE, DETAILS, HEADERS};

/// A call of `wk_answers`.
#[derive(Clone, Copy)]
pub(crate) enum Answer {
    /// `validate` of a valid module, of an invalid one, and of bytes that are none.
    Validate,
    /// `list_sections`, with a fault behind them.
    ListSections,
    /// `list_parts` of two parts.
    ListParts,
    /// `list_summary_parts` of two parts.
    ListSummaryParts,
}

const INVALID: &str = "invalid V5 TooManyTables at section 4 item 0\n";

const MALFORMED: &str = "malformed R2 BadVersion at 0x00000004\n";

// Judges each, up to the first that is refused. Says whether the lines are right.
fn validate_each(alloc: Global) -> Result<bool, OutOfMemory> {
    let Sample { profile, bytes } = OF_WIDE;
    let valid = validate(alloc, bytes, profile)?;
    let Sample { profile, bytes } = OF_ALL;
    let invalid = validate(alloc, bytes, profile)?;
    let malformed = validate(alloc, b"\0asm\x02\0\0\0", profile)?;
    Ok(
        valid.line.as_str() == "valid\n"
            && invalid.line.as_str() == INVALID
            && malformed.line.as_str() == MALFORMED,
    )
}

// Lists the sections. Says whether the lines are right.
fn list_each(alloc: Global) -> Result<bool, OutOfMemory> {
    let listing = list_sections(alloc, b"\0asm\x01\0\0\0\x01\x01\0\x0c\0")?;
    let text = b"    Type start=0x0000000a end=0x0000000b size=0x00000001\n\
        malformed R6 UnknownSection at 0x0000000b\n";
    Ok(listing.has_fault && listing.text.as_slice() == text.as_slice())
}

impl Answer {
    /// The call.
    pub(crate) fn run(self, alloc: Global) -> Outcome {
        match self {
            Answer::Validate => {
                call_begins(alloc);
                let answer = validate_each(alloc);
                call_ends(alloc);
                was_answered(answer)
            }
            Answer::ListSections => {
                call_begins(alloc);
                let answer = list_each(alloc);
                call_ends(alloc);
                was_answered(answer)
            }
            Answer::ListParts => lists_parts(alloc),
            Answer::ListSummaryParts => lists_summary_parts(alloc),
        }
    }
}

fn was_answered(answer: Result<bool, OutOfMemory>) -> Outcome {
    match answer {
        Ok(is_right) => Outcome::answered(is_right),
        Err(OutOfMemory) => Outcome::refused(true),
    }
}

fn lists_parts(alloc: Global) -> Outcome {
    match OF_WIDE.read(alloc) {
        Ok(module) => and_drop(lists_parts_of(alloc, &module), module),
        Err(_) => Outcome::NO_SAMPLE,
    }
}

fn lists_parts_of(alloc: Global, module: &Module) -> Outcome {
    match both(alloc, CODE) {
        Ok(text) => lists_parts_as(alloc, module, &text),
        Err(AllocError) => Outcome::NO_SAMPLE,
    }
}

fn lists_parts_as(alloc: Global, module: &Module, text: &[u8]) -> Outcome {
    match sink(alloc, Room::Full) {
        Some(sink) => lists_parts_to(alloc, module, text, sink),
        None => Outcome::NO_SAMPLE,
    }
}

// The lines of both parts, the first of which is headers.
fn both(alloc: Global, second: &[u8]) -> Result<Vec<u8>, AllocError> {
    let mut text = Vec::from_slice(alloc, HEADERS)?;
    text.extend_from_slice(second)?;
    Ok(text)
}

fn lists_parts_to(alloc: Global, module: &Module, text: &[u8], mut sink: Sink) -> Outcome
    requires { ⟦<Sink as Out>⟧.failed sink ≡ 0 }
{
    let Some(plain) = Plain::of(module) else {
        return Outcome::NO_SAMPLE;
    };
    call_begins(alloc);
    let answer = list_parts(alloc, &plain, &[Part::Headers, Part::Code], &mut sink);
    call_ends(alloc);
    was_listed(answer, sink, text)
}

fn lists_summary_parts(alloc: Global) -> Outcome {
    let Sample { profile, bytes } = OF_WIDE;
    match Summary::read(alloc, bytes, profile) {
        Ok(summary) => and_drop(lists_summary_parts_of(alloc, &summary), summary),
        Err(_) => Outcome::NO_SAMPLE,
    }
}

fn lists_summary_parts_of(alloc: Global, summary: &Summary<'_>) -> Outcome {
    match (both(alloc, DETAILS), sink(alloc, Room::Full)) {
        (Ok(text), Some(sink)) => lists_summary_parts_to(alloc, summary, &text, sink),
        _ => Outcome::NO_SAMPLE,
    }
}

fn lists_summary_parts_to(
    alloc: Global,
    summary: &Summary<'_>,
    text: &[u8],
    mut sink: Sink,
) -> Outcome
    requires { ⟦<Sink as Out>⟧.failed sink ≡ 0 }
{
    let parts = [Part::Headers, Part::Details];
    if list_bodies(&parts) {
        return Outcome::NO_SAMPLE;
    }
    call_begins(alloc);
    let answer = list_summary_parts(alloc, summary, &parts, &mut sink);
    call_ends(alloc);
    was_listed(answer, sink, text)
}
