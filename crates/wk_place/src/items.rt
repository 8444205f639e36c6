//! Going over the items of a section (5.5.4 to 5.5.14) up to one of them.

ghost use Rattle.std.specs.Prelude.{◌≡◌};
ghost use Rattle.wk_bytes.specs.Raw.{raw_view};
ghost use Rattle.wk_bytes.specs.Span.{u32_at};
ghost use Rattle.wk_body.specs.Reading.{expr_at};
ghost use Rattle.wk_body.specs.Reads.{Parses, Reads};
ghost use Rattle.wk_body.specs.Vectors.{vector_at};
ghost use Rattle.wk_module.specs.Items.{data_at, elem_at, global_at};
ghost use Rattle.wk_module.specs.Reading.{section_end};
ghost use Rattle.wk_module.specs.Types.{functype_at};
ghost use Rattle.wk_place.specs.Seeking.{all_passed, count_at, item_passed, passed, seek_at};

use std::alloc::Global;
use wk_bytes::{Cursor, RawSection, ReadFault};
use wk_module::{
    Profile, Scratch, TypeList, read_export, read_global_type, read_import_desc, read_memory_type,
    read_sized_bytes, read_table_type, section_id,
};

/// What items are read with before they are let go. Its memory is used again for the next.
#[derive(Debug, Drop)]
pub(crate) struct ItemReader {
    alloc: Global,
    profile: Profile,
    scratch: Scratch,
    types: TypeList,
}

// Passes a vector of indices (5.1.3).
#[tactic(auto, using(crate::proofs::Passing::passes, crate::proofs::Passing::stops, crate::proofs::Passing::ends), unfolding(wk_module::specs::Formats::made_at, wk_body::specs::Vectors::vector_at))]
fn pass_indices(cursor: &mut Cursor<'_>) -> Result<(), ReadFault>
    ensures { Parses (λ _. tt) (passed (vector_at u32_at)) cursor.old result cursor.new }
{
    let count = cursor.u32()?;
    for _ in 0..count {
        cursor.u32()?;
    }
    Ok(())
}

// How many items a section of an id has. The start section has one, which has no count in front.
fn item_count(section: u8, cursor: &mut Cursor<'_>) -> Result<u32, ReadFault>
    ensures { Parses (λ n. n) (count_at section) cursor.old result cursor.new }
{
    if section == section_id::START {
        return Ok(1);
    }
    cursor.u32()
}

impl ItemReader {
    /// One that has read nothing. It takes no memory yet.
    pub(crate) fn new(alloc: Global, profile: Profile) -> ItemReader
        ensures { result.profile ≡ profile }
    {
        ItemReader {
            alloc,
            profile,
            scratch: Scratch::new(alloc),
            types: TypeList::new(alloc),
        }
    }

    // Passes a function type (5.5.4).
    #[tactic(auto, unfolding(wk_module::specs::Formats::made_at))]
    fn pass_type(&mut self, cursor: &mut Cursor<'_>) -> Result<(), ReadFault>
        ensures read { Parses (λ _. tt) (passed functype_at) cursor.old result cursor.new }
        ensures profile { self.new.profile ≡ self.old.profile }
    {
        self.types.clear();
        self.types.read_next(cursor)
    }

    /// Passes an expression (5.4.6).
    ///
    /// # Errors
    ///
    /// Its first fault, or `Memory` at 0 where a growth was refused.
    #[tactic(auto, unfolding(wk_module::specs::Formats::made_at))]
    pub(crate) fn pass_expr(&mut self, cursor: &mut Cursor<'_>) -> Result<(), ReadFault>
        ensures read { Parses (λ _. tt) (passed (expr_at self.old.profile)) cursor.old result
            cursor.new }
        ensures profile { self.new.profile ≡ self.old.profile }
    {
        drop(self.scratch.next_expr(self.alloc, cursor, self.profile)?);
        Ok(())
    }

    // Passes a global (5.5.9).
    #[tactic(auto, unfolding(wk_module::specs::Formats::made_at, wk_module::specs::Formats::both_at))]
    fn pass_global(&mut self, cursor: &mut Cursor<'_>) -> Result<(), ReadFault>
        ensures read { Parses (λ _. tt) (passed (global_at self.old.profile)) cursor.old result
            cursor.new }
        ensures profile { self.new.profile ≡ self.old.profile }
    {
        read_global_type(cursor)?;
        self.pass_expr(cursor)
    }

    // Passes an element segment (5.5.12).
    #[tactic(auto, unfolding(wk_module::specs::Formats::made_at, wk_module::specs::Formats::both_at))]
    fn pass_elem(&mut self, cursor: &mut Cursor<'_>) -> Result<(), ReadFault>
        ensures read { Parses (λ _. tt) (passed (elem_at self.old.profile)) cursor.old result
            cursor.new }
        ensures profile { self.new.profile ≡ self.old.profile }
    {
        let _table = cursor.u32()?;
        self.pass_expr(cursor)?;
        pass_indices(cursor)
    }

    // Passes a data segment (5.5.14).
    #[tactic(auto, unfolding(wk_module::specs::Formats::made_at, wk_module::specs::Formats::both_at))]
    fn pass_data(&mut self, cursor: &mut Cursor<'_>) -> Result<(), ReadFault>
        ensures read { Parses (λ _. tt) (passed (data_at self.old.profile)) cursor.old result
            cursor.new }
        ensures profile { self.new.profile ≡ self.old.profile }
    {
        let _memory = cursor.u32()?;
        self.pass_expr(cursor)?;
        read_sized_bytes(cursor)?;
        Ok(())
    }

    // Passes an item of the section of an id. Of a code its size says how long it is.
    #[tactic(auto, unfolding(wk_module::specs::Formats::made_at, crate::specs::Seeking::item_passed))]
    fn pass_item(&mut self, section: u8, cursor: &mut Cursor<'_>) -> Result<(), ReadFault>
        ensures read { Parses (λ _. tt) (item_passed self.old.profile section) cursor.old result
            cursor.new }
        ensures profile { self.new.profile ≡ self.old.profile }
    {
        match section {
            section_id::TYPE => self.pass_type(cursor)?,
            section_id::IMPORT => drop(read_import_desc(cursor)?),
            section_id::FUNCTION => drop(cursor.u32()?),
            section_id::TABLE => drop(read_table_type(cursor)?),
            section_id::MEMORY => drop(read_memory_type(cursor)?),
            section_id::GLOBAL => self.pass_global(cursor)?,
            section_id::EXPORT => drop(read_export(cursor)?),
            section_id::START => drop(cursor.u32()?),
            section_id::ELEMENT => self.pass_elem(cursor)?,
            section_id::CODE => drop(read_sized_bytes(cursor)?),
            _ => self.pass_data(cursor)?,
        }
        Ok(())
    }

    // Passes so many items of the section of an id.
    #[tactic(auto, using(crate::proofs::Passing::passes, crate::proofs::Passing::stops, crate::proofs::Passing::ends))]
    fn pass_items(
        &mut self,
        section: u8,
        count: u32,
        cursor: &mut Cursor<'_>,
    ) -> Result<(), ReadFault>
        ensures { Parses (λ _. tt) (all_passed (item_passed self.old.profile section) count)
            cursor.old result cursor.new }
    {
        for _ in 0..count {
            self.pass_item(section, cursor)?;
        }
        Ok(())
    }

    /// What a section holds from an item on, which is counted from 0. There is none where the section has fewer items.
    ///
    /// # Errors
    ///
    /// The first fault of the items in front, or `Memory` at 0 where a growth was refused.
    #[tactic(auto, unfolding(crate::specs::Seeking::seek_at))]
    pub(crate) fn seek_item<'a>(
        &mut self,
        section: &RawSection<'a>,
        item: u32,
    ) -> Result<Option<Cursor<'a>>, ReadFault>
        ensures { Reads (λ o. o) result
            (seek_at self.old.profile section.now.id item (section_end (raw_view section.now))
            section.now.contents.now) }
    {
        let mut cursor = section.cursor();
        let count = item_count(section.id, &mut cursor)?;
        if item >= count {
            return Ok(None);
        }
        self.pass_items(section.id, item, &mut cursor)?;
        Ok(Some(cursor))
    }
}
