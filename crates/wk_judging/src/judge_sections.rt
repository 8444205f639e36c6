//! The sections of a module but its bodies, judged while they are read (3.4.10, 5.5.15).

ghost use Rattle.std.specs.Prelude.{◌≡◌, ◌≢◌, ◌≤◌, Some, MatchResult};
ghost use Rattle.wk_bytes.specs.Raw.{raw_view};
ghost use Rattle.wk_body.specs.Reads.{FailsAs, Reads};
ghost use Rattle.wk_module.specs.ListReading.{Rise, lists_read};
ghost use Rattle.wk_module.specs.Sections.{SectionLists, SectionId, no_lists, number, of_number};
ghost use Rattle.wk_judging.specs.Contexts.{AreOmittedFrom, IsFront, context_of, section_judged, start_at_once, behind_at_once};

use crate::context::Context;
use crate::item_kinds::{Datas, Elems, Funcs, Globals, Imports, Memories, Tables, Types};
use crate::judge_exports::judge_exports;
use crate::judge_items::{at_end, judge_items};
use std::alloc::Global;
use wk_bytes::{RawSection, ReadFault, Sections};
use wk_check::flaw_of_start;
use wk_module::{Profile, section_id};
use wk_typing::{Fault, Rooms};

/// The rooms in which modules are read and judged: those of one call, or those that are kept from one module to the next.
#[derive(Debug, Drop)]
pub(crate) struct Workspace {
    pub(crate) context: Context,
    pub(crate) rooms: Rooms,
}

impl Workspace {
    /// One that is still to grow: it takes no memory yet.
    pub(crate) fn new(alloc: Global) -> Workspace
        ensures { result.context ≡ context_of no_lists }
    {
        Workspace {
            context: Context::new(alloc),
            rooms: Rooms::new(alloc),
        }
    }
}

// Reads and judges the start section, which is one index.
fn judge_start(
    context: &Context,
    section: &RawSection<'_>,
    before: Option<Fault>,
) -> Result<Option<Fault>, ReadFault>
    ensures { Reads (λ f. f) result
        (start_at_once context.now before (raw_view section.now)) }
{
    let mut cursor = section.cursor();
    let index = cursor.u32()?;
    at_end(&cursor)?;
    if before.is_some() {
        return Ok(before);
    }
    Ok(flaw_of_start(context, index).map(|flaw| flaw.at(section_id::START, 0)))
}

impl Workspace {
    // Reads and judges a section of the ids 1 to 5.
    fn judge_low_section(
        &mut self,
        alloc: Global,
        profile: Profile,
        section: &RawSection<'_>,
        before: Option<Fault>,
    ) -> Result<Option<Fault>, ReadFault>
        requires low { 1 ≤ section.now.id }
        requires high { section.now.id ≤ 5 }
        ensures { (l : SectionLists) → self.old.context ≡ context_of l
            → AreOmittedFrom section.now.id l
            → Reads (λ f. (self.new.context, f)) result
            (section_judged profile l before (raw_view section.now)) }
    {
        let Workspace { context, rooms } = self;
        match section.id {
            section_id::TYPE => judge_items::<Types>(
                alloc, context, profile, section, before, rooms,
            ),
            section_id::IMPORT => judge_items::<Imports>(
                alloc, context, profile, section, before, rooms,
            ),
            section_id::FUNCTION => judge_items::<Funcs>(
                alloc, context, profile, section, before, rooms,
            ),
            section_id::TABLE => judge_items::<Tables>(
                alloc, context, profile, section, before, rooms,
            ),
            _ => judge_items::<Memories>(alloc, context, profile, section, before, rooms),
        }
    }

    // Reads and judges a section of the ids 6 to 11, but for the code section.
    fn judge_high_section(
        &mut self,
        alloc: Global,
        profile: Profile,
        section: &RawSection<'_>,
        before: Option<Fault>,
    ) -> Result<Option<Fault>, ReadFault>
        requires low { 6 ≤ section.now.id }
        requires high { section.now.id ≤ 11 }
        requires bodies { section.now.id ≢ 10 }
        ensures { (l : SectionLists) → self.old.context ≡ context_of l
            → AreOmittedFrom section.now.id l
            → Reads (λ f. (self.new.context, f)) result
            (section_judged profile l before (raw_view section.now)) }
    {
        let Workspace { context, rooms } = self;
        match section.id {
            section_id::GLOBAL => judge_items::<Globals>(
                alloc, context, profile, section, before, rooms,
            ),
            section_id::EXPORT => judge_exports(alloc, context, section, before),
            section_id::START => judge_start(context, section, before),
            section_id::ELEMENT => judge_items::<Elems>(
                alloc, context, profile, section, before, rooms,
            ),
            _ => judge_items::<Datas>(alloc, context, profile, section, before, rooms),
        }
    }

    // Reads and judges one more section, which is not the code section. Of a custom one the name is read.
    fn judge_section(
        &mut self,
        alloc: Global,
        profile: Profile,
        section: &RawSection<'_>,
        before: Option<Fault>,
    ) -> Result<Option<Fault>, ReadFault>
        requires { section.now.id ≢ 10 }
        ensures { (l : SectionLists) → self.old.context ≡ context_of l
            → ((k : SectionId) → of_number section.now.id ≡ Some k → AreOmittedFrom (number k) l)
            → Reads (λ f. (self.new.context, f)) result
            (section_judged profile l before (raw_view section.now)) }
    {
        match section.id {
            section_id::TYPE..=section_id::MEMORY => self.judge_low_section(
                alloc, profile, section, before,
            ),
            section_id::GLOBAL..=section_id::DATA => self.judge_high_section(
                alloc, profile, section, before,
            ),
            _ => {
                let mut cursor = section.cursor();
                let _name = cursor.name()?;
                Ok(before)
            }
        }
    }

    /// Reads and judges the sections of a module up to its code section, which it gives unread, or to the end. The answer is their first
    /// fault.
    pub(crate) fn judge_front<'a>(
        &mut self,
        alloc: Global,
        profile: Profile,
        left: &mut Sections<'a>,
    ) -> Result<(Option<Fault>, Option<RawSection<'a>>), ReadFault>
        requires rise { Rise 0 left.old }
        ensures { MatchResult result
            (λ r. IsFront profile left.old self.new.context left.new r.0 r.1)
            (λ e. FailsAs e e.kind (lists_read profile no_lists left.old)) }
    {
        self.context.clear();
        let mut fault = None;
        while let Some(section) = left.next() {
            let section = section?;
            if section.id == section_id::CODE {
                return Ok((fault, Some(section)));
            }
            fault = self.judge_section(alloc, profile, &section, fault)?;
        }
        Ok((fault, None))
    }

    /// Reads and judges the sections behind the code section, where the first fault up to it is given.
    pub(crate) fn judge_behind(
        &mut self,
        alloc: Global,
        profile: Profile,
        left: &mut Sections<'_>,
        before: Option<Fault>,
    ) -> Result<Option<Fault>, ReadFault>
        requires rise { Rise 10 left.old }
        ensures { (l : SectionLists) → self.old.context ≡ context_of l → AreOmittedFrom 11 l
            → Reads (λ f. f) result (behind_at_once profile l before left.old) }
    {
        let mut fault = before;
        while let Some(section) = left.next() {
            fault = self.judge_section(alloc, profile, &section?, fault)?;
        }
        Ok(fault)
    }
}
