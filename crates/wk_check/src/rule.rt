//! The first flaw of a section's items.

ghost use Rattle.std.specs.Prelude.{◌≡◌, ◌<◌, ◌^◌, length, IfOk};
ghost use Rattle.wk_check.specs.Flaws.{numbered, first_in};

use wk_bytes::OutOfMemory;
use wk_typing::{Fault, Flaw, Room};

/// What is asked of each item of a section that holds these (3.4).
pub(crate) trait Rule<Item> {
    ghost use Rattle.std.specs.Prelude.{◌≡◌, ℕ, Option, IfOk};
    ghost use Rattle.wk_typing.specs.declared.fault.Flaw.{Flaw as Wrong};

    // What is wrong with an item at an index, if anything is.
    ghost wrong: { Self → ℕ → Item → Option Wrong };

    /// What is wrong with the item at an index, if anything is. Code is typed in the room.
    fn flaw(&self, index: usize, item: &Item, room: &mut Room) -> Result<Option<Flaw>, OutOfMemory>
        ensures { IfOk result (λ r. r ≡ wrong self.now index item.now) };
}

/// The first fault of the section with this id.
pub(crate) fn first_fault<T, R: Rule<T>>(
    rule: &R,
    section: u8,
    items: &[T],
    room: &mut Room,
) -> Result<Option<Fault>, OutOfMemory>
    requires { length items.now < 2 ^ 32 }
    ensures { IfOk result (λ r. r ≡ first_in section 0 (numbered (R.wrong rule.now) 0 items.now)) }
{
    for (index, item) in items.iter().enumerate() {
        if let Some(flaw) = rule.flaw(index, item, room)? {
            return Ok(Some(flaw.at(section, index as u32)));
        }
    }
    Ok(None)
}
