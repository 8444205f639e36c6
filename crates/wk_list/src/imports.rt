//! The lines of imports in the details listing.

ghost use Rattle.std.specs.Prelude.{◌≡◌, ◌<◌, ◌-◌, ◌^◌, ◌++◌, [], List, length, OnOk};
ghost use Rattle.wk_module.specs.declared.types.Import.{Import as Imported};
ghost use Rattle.wk_module.specs.Items.{desc_kind};
ghost use Rattle.wk_module.specs.Sections.{ImportSection, number};
ghost use Rattle.wk_list.specs.Taken.{PutsOut};
ghost use Rattle.wk_list.specs.Spaces.{count_of};
ghost use Rattle.wk_list.specs.Details.{desc_text, import_head, import_line, import_lines, with_heading};

use crate::fault::Listed;
use crate::page::spill;
use crate::rows::{put_field, put_heading, put_item, put_named};
use crate::spaces::Counts;
use crate::text::put_indexed;
use crate::typetext::{kind_name, put_globaltype, put_limits};
use wk_bytes::{Out, OutOfMemory};
use wk_module::{Import, ImportDesc, section_id};

// What is imported, behind its kind and its index.
fn put_desc(text: &mut Vec<u8>, desc: &ImportDesc) -> Result<(), OutOfMemory>
    ensures { OnOk result (text.new.items ≡ text.old.items ++ desc_text desc.now) }
{
    match desc {
        ImportDesc::Func(ty) => put_field(text, " type=", *ty),
        ImportDesc::Table(limits) => put_limits(text, limits),
        ImportDesc::Memory(limits) => put_limits(text, limits),
        ImportDesc::Global(ty) => put_globaltype(text, *ty),
    }
}

// The import at an index, as far as its two names.
fn put_head(text: &mut Vec<u8>, index: u64, import: &Import) -> Result<(), OutOfMemory>
    ensures { OnOk result (text.new.items ≡ text.old.items ++ import_head index import.now) }
{
    put_item(text, "import", index)?;
    put_named(text, import.from.as_str())?;
    put_named(text, import.name.as_str())?;
    text.extend_from_slice(b" ")?;
    Ok(())
}

// The line of the import at an index, which has an index of its own in the space of its kind.
fn put_import(text: &mut Vec<u8>, index: u64, own: u64, import: &Import) -> Result<(), OutOfMemory>
    ensures { (before : List Imported) → index ≡ length before
        → own ≡ count_of (desc_kind (import.now).desc) before
        → OnOk result (text.new.items ≡ text.old.items ++ import_line before import.now) }
{
    put_head(text, index, import)?;
    put_indexed(text, kind_name(import.desc.kind()), own)?;
    put_desc(text, &import.desc)?;
    text.extend_from_slice(b"\n")?;
    Ok(())
}

/// The import section.
pub(crate) fn list_imports<W: Out>(imports: &[Import], text: &mut Vec<u8>, out: &mut W) -> Listed
    requires room { W.failed out.old < 2 ^ 64 - 1 }
    requires few { length imports.now < 2 ^ 32 }
    ensures { PutsOut W.taken W.failed out.old out.new
        (text.old.items
        ++ with_heading (number ImportSection) imports.now (import_lines [] imports.now))
        text.new.items result }
{
    put_heading(text, section_id::IMPORT, imports.len())?;
    let mut counts = Counts::new();
    for (index, import) in imports.iter().enumerate() {
        let own = counts.take(&import.desc);
        put_import(text, index as u64, own, import)?;
        spill(text, out)?;
    }
    Ok(())
}
