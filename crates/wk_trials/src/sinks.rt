//! Outputs in memory, full or with room.
ghost use Rattle.std.specs.Prelude.{◌≡◌, IfSome};

use std::alloc::Global;
use wk_bytes::{Out, OutOfMemory, Sink};
use wk_samples::outcome::Outcome;

/// What each output holds before a scenario.
pub(crate) const BEFORE: [u8; 3] = [1, 2, 3];

/// How much room an output has behind `BEFORE`.
#[derive(Clone, Copy, Debug, PartialEq, Eq)]
pub(crate) enum Room {
    /// For none: it has to grow.
    Full,
    /// For one byte: it has to grow behind that.
    Scant,
    /// For all that a scenario puts: it never grows.
    Ample,
}

/// A vector that holds `BEFORE`.
pub(crate) fn vector(alloc: Global, room: Room) -> Option<Vec<u8>> {
    let mut bytes = Vec::from_slice(alloc, &BEFORE).ok()?;
    match room {
        Room::Full => {}
        Room::Scant => bytes.reserve_exact(1).ok()?,
        Room::Ample => bytes.reserve(2000).ok()?,
    }
    Some(bytes)
}

/// A sink that holds `BEFORE`.
pub(crate) fn sink(alloc: Global, room: Room) -> Option<Sink>
    ensures { IfSome result (λ s. ⟦<Sink as Out>⟧.failed s ≡ 0) }
{
    match vector(alloc, room) {
        Some(bytes) => Some(Sink::new(bytes)),
        None => None,
    }
}

/// Whether the bytes are `BEFORE` and then these.
pub(crate) fn has_appended(bytes: &[u8], more: &[u8]) -> bool {
    match bytes.strip_prefix(&BEFORE) {
        Some(rest) => rest == more,
        None => false,
    }
}

/// What appending these bytes to a vector that held `BEFORE` answered. After a refusal it has to hold that alone.
pub(crate) fn was_appended(bytes: &[u8], answer: Result<(), OutOfMemory>, more: &[u8]) -> Outcome {
    match answer {
        Ok(()) => Outcome::answered(has_appended(bytes, more)),
        Err(OutOfMemory) => Outcome::refused(has_appended(bytes, b"")),
    }
}

/// Whether the bytes are `BEFORE` and then a beginning of these.
pub(crate) fn has_begun(bytes: &[u8], more: &[u8]) -> bool {
    match bytes.strip_prefix(&BEFORE) {
        Some(rest) => more.starts_with(rest),
        None => false,
    }
}

/// Whether the sink has counted so many failures, and holds `BEFORE` and then these bytes.
pub(crate) fn holds(sink: Sink, failures: u64, more: &[u8]) -> bool {
    let is_counted = sink.failures() == failures;
    let bytes = sink.into_inner();
    is_counted && has_appended(&bytes, more)
}

/// Whether the sink has counted so many failures, and holds `BEFORE` and then a beginning of these bytes.
pub(crate) fn holds_begun(sink: Sink, failures: u64, more: &[u8]) -> bool {
    let is_counted = sink.failures() == failures;
    let bytes = sink.into_inner();
    is_counted && has_begun(&bytes, more)
}
