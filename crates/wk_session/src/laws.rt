//! Laws of what a reply counts, in terms of what functions refer to.

ghost use Rattle.wk_session.specs.DependentsLaws.{RetypedMeets, ReencodedMoves, LeftMoves, HeldMoves};

/// The laws of what a reply counts: a function is typed again exactly where something that it refers to, as it stands after the edit,
/// is among what is found to be another thing; it is encoded again exactly where something that it refers to moves; the functions that
/// an edit neither gives nor replaces are those of before, moved; and what such a one refers to is what it referred to, each reference
/// moved. It does nothing.
pub fn work_of_edits()
    ensures typed { RetypedMeets }
    ensures encoded { ReencodedMoves }
    ensures left { LeftMoves }
    ensures held { HeldMoves }
{}
