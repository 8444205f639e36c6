//! Calls of `wk_list`.

ghost use Rattle.std.specs.Prelude.{◌≡◌, false};
ghost use Rattle.wk_list.specs.Listing.{lists_bodies};

use crate::bodies::NO_MEMORY;
use crate::mark::{call_begins, call_ends};
use crate::modules::Sample;
use crate::scenario::and_drop;
use crate::sinks::{Room, holds, holds_begun, sink};
use std::alloc::Global;
use wk_bytes::{Out, Sink};
use wk_list::{Layout, ListFault, Part, Plain, Shape, Summary, list, list_summary};
use wk_module::{EncodeFault, Module, Profile};
use wk_samples::listings::{CALLING, CODE, DETAILS, HEADERS, USES};
use wk_samples::modules::WHOLE;
use wk_samples::outcome::Outcome;
use wk_samples::wide::{self, WIDE};

fn core_sample(part: Part) -> (&'static [u8], &'static [u8]) {
    match part {
        Part::Headers => (WHOLE, HEADERS),
        Part::Details => (WHOLE, DETAILS),
        Part::Code => (CALLING, CODE),
        Part::Uses => (CALLING, USES),
    }
}

fn wide_lines(part: Part) -> &'static [u8] {
    match part {
        Part::Headers => wide::HEADERS,
        Part::Details => wide::DETAILS,
        Part::Code => wide::CODE,
        Part::Uses => wide::USES,
    }
}

/// The module of a profile that has such a part, and its lines.
pub(crate) fn sample(part: Part, profile: Profile) -> (Sample, &'static [u8]) {
    let (bytes, lines) = match profile {
        Profile::Core => core_sample(part),
        Profile::Extended => (WIDE, wide_lines(part)),
    };
    (Sample { profile, bytes }, lines)
}

/// `list` of a part of a module of a profile, to a sink with that much room.
pub(crate) fn lists(alloc: Global, part: Part, profile: Profile, room: Room) -> Outcome {
    let (sample, text) = sample(part, profile);
    match sample.read(alloc) {
        Ok(module) => and_drop(lists_of(alloc, &module, part, text, room), module),
        Err(_) => Outcome::NO_SAMPLE,
    }
}

fn lists_of(alloc: Global, module: &Module, part: Part, text: &[u8], room: Room) -> Outcome {
    match (Plain::of(module), sink(alloc, room)) {
        (Some(plain), Some(sink)) => lists_to(alloc, &plain, part, text, sink),
        _ => Outcome::NO_SAMPLE,
    }
}

fn lists_to(alloc: Global, plain: &Plain<'_>, part: Part, text: &[u8], mut sink: Sink) -> Outcome
    requires { ⟦<Sink as Out>⟧.failed sink ≡ 0 }
{
    call_begins(alloc);
    let answer = list(alloc, plain, part, &mut sink);
    call_ends(alloc);
    was_listed(answer, sink, text)
}

/// What a call that lists answered.
pub(crate) fn was_listed(answer: Result<(), ListFault>, sink: Sink, text: &[u8]) -> Outcome {
    match answer {
        Ok(()) => Outcome::answered(holds(sink, 0, text)),
        Err(ListFault::Write) => Outcome::refused(holds_begun(sink, 1, text)),
        Err(ListFault::Memory) => Outcome::refused(holds_begun(sink, 0, text)),
    }
}

/// `Plain::of`, and the lengths that it tells as a `Shape`.
pub(crate) fn sees_plain(alloc: Global, sample: Sample) -> Outcome {
    match sample.read(alloc) {
        Ok(module) => and_drop(sees_plain_of(alloc, &module), module),
        Err(_) => Outcome::NO_SAMPLE,
    }
}

// The length of the element section.
fn len_of_elements(module: &Module) -> Option<u32> {
    Some(Plain::of(module)?.section_len(9))
}

fn sees_plain_of(alloc: Global, module: &Module) -> Outcome {
    call_begins(alloc);
    let len = len_of_elements(module);
    call_ends(alloc);
    Outcome::answered(matches!(len, Some(8 | 9)))
}

/// `Layout::of`, and the lengths that it tells as a `Shape`.
pub(crate) fn lays_out(alloc: Global, sample: Sample) -> Outcome {
    match sample.read(alloc) {
        Ok(module) => and_drop(lays_out_of(alloc, &module), module),
        Err(_) => Outcome::NO_SAMPLE,
    }
}

fn lays_out_of(alloc: Global, module: &Module) -> Outcome {
    let Some(plain) = Plain::of(module) else {
        return Outcome::NO_SAMPLE;
    };
    call_begins(alloc);
    let answer = Layout::of(alloc, module);
    call_ends(alloc);
    match answer {
        Ok(layout) => Outcome::answered(
            layout.section_len(9) == plain.section_len(9)
                && layout.section_len(10) == plain.section_len(10),
        ),
        Err(fault) => Outcome::refused(fault == EncodeFault::Memory),
    }
}

/// `Summary::read` of a module.
pub(crate) fn summarizes(alloc: Global, sample: Sample) -> Outcome {
    call_begins(alloc);
    let answer = Summary::read(alloc, sample.bytes, sample.profile);
    call_ends(alloc);
    match answer {
        Ok(_) => Outcome::answered(true),
        Err(fault) => Outcome::refused(fault == NO_MEMORY),
    }
}

/// `list_summary` of a part of a module of a profile, to a sink with that much room.
pub(crate) fn lists_summary(alloc: Global, part: Part, profile: Profile, room: Room) -> Outcome {
    let (sample, text) = sample(part, profile);
    match (
        Summary::read(alloc, sample.bytes, profile),
        sink(alloc, room),
    ) {
        (Ok(summary), Some(sink)) if !part.lists_bodies() => {
            lists_summary_to(alloc, &summary, part, text, sink)
        }
        _ => Outcome::NO_SAMPLE,
    }
}

fn lists_summary_to(
    alloc: Global,
    summary: &Summary<'_>,
    part: Part,
    text: &[u8],
    mut sink: Sink,
) -> Outcome
    requires failed { ⟦<Sink as Out>⟧.failed sink ≡ 0 }
    requires part { lists_bodies part ≡ false }
{
    call_begins(alloc);
    let answer = list_summary(alloc, summary, part, &mut sink);
    call_ends(alloc);
    was_listed(answer, sink, text)
}
