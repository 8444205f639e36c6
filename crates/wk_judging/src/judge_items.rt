//! Items of a section, judged while they are read.

ghost use Rattle.std.specs.Prelude.{◌≡◌, ◌≢◌, [], MatchResult};
ghost use Rattle.wk_bytes.specs.Raw.{raw_view};
ghost use Rattle.wk_bytes.specs.Span.{fault};
ghost use Rattle.wk_body.specs.Reads.{Reads};
ghost use Rattle.wk_judging.specs.Contexts.{items_at_once};

use std::alloc::Global;
use wk_bytes::{Cursor, RawSection, ReadFault, ReadKind};
use wk_module::Profile;
use wk_typing::{Fault, Flaw, Rooms};

/// What is known where the next item of a section is read.
#[derive(Clone, Copy, Debug)]
pub(crate) struct Next {
    /// The profile of the module.
    pub(crate) profile: Profile,
    /// How many items are still to be read, this one among them.
    pub(crate) left: u32,
    /// Whether it is asked what is wrong with the item.
    pub(crate) is_asked: bool,
}

/// A kind of items that are judged while they are read.
pub(crate) trait ItemKind {
    /// What is read.
    type Item: Drop;
    /// What of the module so far is looked at with the next item.
    type State: Drop;

    ghost use Rattle.std.specs.Prelude.{ℕ, List, Option, Result};
    ghost use Rattle.wk_bytes.specs.declared.fault.ReadFault.{ReadFault};
    ghost use Rattle.wk_body.specs.declared.types.Profile.{Profile as InProfile};
    ghost use Rattle.wk_body.specs.Reads.{Parses};
    ghost use Rattle.wk_module.specs.Formats.{made_at};
    ghost use Rattle.wk_typing.specs.declared.fault.Flaw.{Flaw as Wrong};
    ghost use Rattle.wk_judging.specs.Contexts.{next_judged};

    // How one is read at the front of bytes that end at an offset.
    ghost read_at: { InProfile → ℕ → List ℕ → Result (Self.Item × List ℕ) ReadFault };

    // What is wrong with one, if anything is.
    ghost wrong: { InProfile → Self.State → Self.Item → Option Wrong };

    // What one adds.
    ghost add: { Self.State → Self.Item → Self.State };

    /// Reads the next item, adds it, and tells what is wrong with it, where that is asked. Of the state nothing is said after a refusal.
    fn judge_next(
        alloc: Global,
        state: &mut Self::State,
        next: &Next,
        cursor: &mut Cursor<'_>,
        rooms: &mut Rooms,
    ) -> Result<Option<Flaw>, ReadFault>
        ensures { Parses (λ w. (state.new, w))
            (made_at (next_judged (wrong next.now.profile) add next.now.is_asked state.old)
            (read_at next.now.profile)) cursor.old result cursor.new };
}

/// What was read took all of a section's contents.
pub(crate) fn at_end(cursor: &Cursor<'_>) -> Result<(), ReadFault>
    ensures { MatchResult result (λ _. cursor.now.rest ≡ [])
        (λ e. (e ≡ fault ReadKind.SectionSize cursor.now.end cursor.now.rest)
        × (cursor.now.rest ≢ [])) }
{
    if !cursor.rest().is_empty() {
        return Err(cursor.fault(ReadKind::SectionSize));
    }
    Ok(())
}

/// Reads the items of a section, and adds each of them. The answer is the first fault up to them, where that of the sections before is
/// given: behind a fault nothing is judged.
pub(crate) fn judge_items<K: ItemKind>(
    alloc: Global,
    state: &mut K::State,
    profile: Profile,
    section: &RawSection<'_>,
    before: Option<Fault>,
    rooms: &mut Rooms,
) -> Result<Option<Fault>, ReadFault>
    ensures { Reads (λ f. (state.new, f)) result
        (items_at_once (K.read_at profile) (K.wrong profile) K.add state.old before
        (raw_view section.now)) }
{
    let mut cursor = section.cursor();
    let count = cursor.u32()?;
    let mut fault = before;
    for index in 0..count {
        let next = Next {
            profile,
            left: count - index,
            is_asked: fault.is_none(),
        };
        if let Some(flaw) = K::judge_next(alloc, state, &next, &mut cursor, rooms)? {
            fault = Some(flaw.at(section.id, index));
        }
    }
    at_end(&cursor)?;
    Ok(fault)
}
