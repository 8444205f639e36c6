//! Reading items where they stand: nothing is copied of a name, and nothing of some bytes.

ghost use Rattle.std.specs.Prelude.{◌≡◌, ◌≢◌, IfErr, OnErr};
ghost use Rattle.wk_bytes.specs.Stands.{Stands};
ghost use Rattle.wk_body.specs.Reads.{Parses};
ghost use Rattle.wk_module.specs.Formats.{bytes_at};
ghost use Rattle.wk_module.specs.InPlace.{import_desc_at, export_view};
ghost use Rattle.wk_module.specs.Items.{export_at};
ghost use Rattle.wk_module.specs.Types.{globaltype_at, limits_at, tabletype_at};

use crate::item_read::{read_desc, read_kind, read_limits, read_table_limits, take_global_type};
use crate::types::{GlobalType, ImportDesc, Kind, Limits};
use wk_bytes::{Cursor, ReadFault, ReadKind};

/// An export (2.5.10) whose name is lent.
#[derive(Clone, Copy, Debug)]
pub struct ExportRef<'a> {
    /// Its name.
    pub name: &'a str,
    /// What it exports.
    pub kind: Kind,
    /// The index in the space of its kind, which may be that of none.
    pub index: u32,
}

/// Reads an import (5.5.5), and gives what is imported. Both of its names are read and let go. It takes no memory.
///
/// # Errors
///
/// The first fault, at its offset. The cursor is then as before.
#[tactic(auto, using(crate::proofs::InPlace::stands_sure, crate::proofs::InPlace::import_desc_stands), unfolding(crate::specs::Formats::made_at, crate::specs::Formats::both_at))]
pub fn read_import_desc(cursor: &mut Cursor<'_>) -> Result<ImportDesc, ReadFault>
    ensures exact { Parses (λ d. d) import_desc_at cursor.old result cursor.new }
    ensures fault { IfErr result (λ e. Stands cursor.old e) }
    ensures left { OnErr result (cursor.new ≡ cursor.old) }
{
    let mut ahead = cursor.ahead();
    let _from = ahead.name()?;
    let _name = ahead.name()?;
    let desc = read_desc(&mut ahead)?;
    *cursor = ahead;
    Ok(desc)
}

/// Reads an export (5.5.10), and lends its name. It takes no memory.
///
/// # Errors
///
/// The first fault, at its offset. The cursor is then as before.
#[tactic(auto, using(crate::proofs::InPlace::stands_sure, crate::proofs::InPlace::export_stands), unfolding(crate::specs::Formats::made_at, crate::specs::Formats::both_at))]
pub fn read_export<'a>(cursor: &mut Cursor<'a>) -> Result<ExportRef<'a>, ReadFault>
    ensures exact { Parses export_view export_at cursor.old result cursor.new }
    ensures fault { IfErr result (λ e. Stands cursor.old e) }
    ensures left { OnErr result (cursor.new ≡ cursor.old) }
{
    let mut ahead = cursor.ahead();
    let name = ahead.name()?;
    let kind = read_kind(&mut ahead)?;
    let index = ahead.u32()?;
    *cursor = ahead;
    Ok(ExportRef { name, kind, index })
}

/// Reads a table type (5.3.6), and gives its limits. It takes no memory.
///
/// # Errors
///
/// The first fault, at its offset. The cursor is then as before.
#[tactic(auto, using(crate::proofs::InPlace::tabletype_stands))]
pub fn read_table_type(cursor: &mut Cursor<'_>) -> Result<Limits, ReadFault>
    ensures exact { Parses (λ x. x) tabletype_at cursor.old result cursor.new }
    ensures fault { IfErr result (λ e. Stands cursor.old e) }
    ensures left { OnErr result (cursor.new ≡ cursor.old) }
{
    let mut ahead = cursor.ahead();
    let limits = read_table_limits(&mut ahead)?;
    *cursor = ahead;
    Ok(limits)
}

/// Reads a memory type (5.3.5), which is limits alone. It takes no memory.
///
/// # Errors
///
/// The first fault, at its offset. The cursor is then as before.
#[tactic(auto, using(crate::proofs::InPlace::limits_stand))]
pub fn read_memory_type(cursor: &mut Cursor<'_>) -> Result<Limits, ReadFault>
    ensures exact { Parses (λ x. x) limits_at cursor.old result cursor.new }
    ensures fault { IfErr result (λ e. Stands cursor.old e) }
    ensures left { OnErr result (cursor.new ≡ cursor.old) }
{
    let mut ahead = cursor.ahead();
    let limits = read_limits(&mut ahead)?;
    *cursor = ahead;
    Ok(limits)
}

/// Reads a global type (5.3.7), which stands in front of the initialiser of a global. It takes no memory.
///
/// # Errors
///
/// The first fault, at its offset. The cursor is then as before.
#[tactic(auto, using(crate::proofs::InPlace::globaltype_stands))]
pub fn read_global_type(cursor: &mut Cursor<'_>) -> Result<GlobalType, ReadFault>
    ensures exact { Parses (λ x. x) globaltype_at cursor.old result cursor.new }
    ensures fault { IfErr result (λ e. Stands cursor.old e) }
    ensures left { OnErr result (cursor.new ≡ cursor.old) }
{
    let mut ahead = cursor.ahead();
    let ty = take_global_type(&mut ahead)?;
    *cursor = ahead;
    Ok(ty)
}

/// Reads a size and as many bytes (5.1.3), which it lends: those of a data segment (5.5.14), for one. It takes no memory.
///
/// # Errors
///
/// The first fault, at its offset. The cursor is then as before.
#[tactic(auto, using(crate::proofs::InPlace::stands_sure, crate::proofs::InPlace::bytes_stand), unfolding(crate::specs::Formats::bytes_at))]
pub fn read_sized_bytes<'a>(cursor: &mut Cursor<'a>) -> Result<&'a [u8], ReadFault>
    ensures exact { Parses (λ x. x.now) bytes_at cursor.old result cursor.new }
    ensures fault { IfErr result (λ e. Stands cursor.old e) }
    ensures left { OnErr result (cursor.new ≡ cursor.old) }
{
    let mut ahead = cursor.ahead();
    let size = ahead.u32()?;
    let bytes = ahead.take(size)?;
    *cursor = ahead;
    Ok(bytes)
}
