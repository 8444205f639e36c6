//! Reading what the lists of a module hold (5.3, 5.5).

ghost use Rattle.std.specs.Prelude.{◌≢◌, IfErr};
ghost use Rattle.wk_body.specs.Reads.{Parses};
ghost use Rattle.wk_bytes.specs.Span.{u32_at};
ghost use Rattle.wk_body.specs.ValTypes.{valtype_at};
ghost use Rattle.wk_module.specs.Formats.{coded_at};
ghost use Rattle.wk_module.specs.Types.{flag_of, kind_of, limits_at, tabletype_at, globaltype_at, functype_at};
ghost use Rattle.wk_module.specs.Items.{desc_at, import_at, global_at, export_at, elem_at, data_at};

use crate::format::{
    Datas, Elems, Exports, FuncTypes, Globals, Imports, Indices, Memories, Tables, ValTypes,
};
use crate::in_place::{ExportRef, read_export, read_sized_bytes};
use crate::types::{
    DataSeg, Elem, Export, FuncType, GlobalDef, GlobalType, Import, ImportDesc, Kind, Limits,
};
use crate::vector_read::{Readable, read_name, read_this, read_vector};
use std::alloc::Global;
use wk_body::{Profile, Scratch, ValType};
use wk_bytes::{Cursor, Items, ReadFault, ReadKind, Text};

/// A value type (5.3.1).
#[inline]
#[tactic(auto, using(crate::proofs::InPlace::stands_sure), unfolding(wk_body::specs::ValTypes::valtype_at))]
pub(crate) fn read_valtype(cursor: &mut Cursor<'_>) -> Result<ValType, ReadFault>
    ensures exact { Parses (λ x. x) valtype_at cursor.old result cursor.new }
    ensures sure { IfErr result (λ e. e.kind ≢ ReadKind.Memory) }
{
    let bad = cursor.fault(ReadKind::BadByte);
    ValType::from_byte(cursor.byte()?).ok_or(bad)
}

// A byte that says no or yes.
#[tactic(auto, using(crate::proofs::InPlace::stands_sure), unfolding(crate::specs::Formats::coded_at))]
fn read_flag(cursor: &mut Cursor<'_>) -> Result<bool, ReadFault>
    ensures exact { Parses (λ x. x) (coded_at flag_of) cursor.old result cursor.new }
    ensures sure { IfErr result (λ e. e.kind ≢ ReadKind.Memory) }
{
    let bad = cursor.fault(ReadKind::BadByte);
    match cursor.byte()? {
        0x00 => Ok(false),
        0x01 => Ok(true),
        _ => Err(bad),
    }
}

/// The kind of an import or an export.
#[tactic(auto, using(crate::proofs::InPlace::stands_sure), unfolding(crate::specs::Formats::coded_at))]
pub(crate) fn read_kind(cursor: &mut Cursor<'_>) -> Result<Kind, ReadFault>
    ensures exact { Parses (λ x. x) (coded_at kind_of) cursor.old result cursor.new }
    ensures sure { IfErr result (λ e. e.kind ≢ ReadKind.Memory) }
{
    let bad = cursor.fault(ReadKind::BadByte);
    match cursor.byte()? {
        0x00 => Ok(Kind::Func),
        0x01 => Ok(Kind::Table),
        0x02 => Ok(Kind::Memory),
        0x03 => Ok(Kind::Global),
        _ => Err(bad),
    }
}

/// Limits (5.3.4).
#[tactic(auto, using(crate::proofs::InPlace::stands_sure), unfolding(crate::specs::Formats::keyed_at, crate::specs::Formats::made_at, crate::specs::Formats::both_at, crate::specs::Types::bounds_at))]
pub(crate) fn read_limits(cursor: &mut Cursor<'_>) -> Result<Limits, ReadFault>
    ensures exact { Parses (λ x. x) limits_at cursor.old result cursor.new }
    ensures sure { IfErr result (λ e. e.kind ≢ ReadKind.Memory) }
{
    let has_max = read_flag(cursor)?;
    let min = cursor.u32()?;
    let max = if has_max { Some(cursor.u32()?) } else { None };
    Ok(Limits { min, max })
}

/// A table type (5.3.6), whose only element type is that of functions.
#[tactic(auto, using(crate::proofs::InPlace::stands_sure), unfolding(crate::specs::Formats::behind_at))]
pub(crate) fn read_table_limits(cursor: &mut Cursor<'_>) -> Result<Limits, ReadFault>
    ensures exact { Parses (λ x. x) tabletype_at cursor.old result cursor.new }
    ensures sure { IfErr result (λ e. e.kind ≢ ReadKind.Memory) }
{
    read_this(0x70, cursor)?;
    read_limits(cursor)
}

/// A global type (5.3.7).
#[tactic(auto, using(crate::proofs::InPlace::stands_sure), unfolding(crate::specs::Formats::made_at, crate::specs::Formats::both_at))]
pub(crate) fn take_global_type(cursor: &mut Cursor<'_>) -> Result<GlobalType, ReadFault>
    ensures exact { Parses (λ x. x) globaltype_at cursor.old result cursor.new }
    ensures sure { IfErr result (λ e. e.kind ≢ ReadKind.Memory) }
{
    let val = read_valtype(cursor)?;
    let mutable = read_flag(cursor)?;
    Ok(GlobalType { val, mutable })
}

/// What is imported (5.5.5).
#[tactic(auto, using(crate::proofs::InPlace::stands_sure), unfolding(crate::specs::Formats::keyed_at, crate::specs::Formats::made_at, crate::specs::Items::desc_rest_at))]
pub(crate) fn read_desc(cursor: &mut Cursor<'_>) -> Result<ImportDesc, ReadFault>
    ensures exact { Parses (λ x. x) desc_at cursor.old result cursor.new }
    ensures sure { IfErr result (λ e. e.kind ≢ ReadKind.Memory) }
{
    match read_kind(cursor)? {
        Kind::Func => Ok(ImportDesc::Func(cursor.u32()?)),
        Kind::Table => Ok(ImportDesc::Table(read_table_limits(cursor)?)),
        Kind::Memory => Ok(ImportDesc::Memory(read_limits(cursor)?)),
        Kind::Global => Ok(ImportDesc::Global(take_global_type(cursor)?)),
    }
}

impl Readable for ValTypes {
    type Item = ValType;

    ghost read_at = { λ profile. valtype_at };

    fn read(
        _alloc: Global,
        _scratch: &mut Scratch,
        _profile: Profile,
        cursor: &mut Cursor<'_>,
    ) -> Result<ValType, ReadFault> {
        read_valtype(cursor)
    }
}

impl Readable for FuncTypes {
    type Item = FuncType;

    ghost read_at = { λ profile. functype_at };

    #[tactic(auto, unfolding(crate::specs::Formats::made_at, crate::specs::Formats::both_at, crate::specs::Formats::behind_at))]
    fn read(
        alloc: Global,
        scratch: &mut Scratch,
        profile: Profile,
        cursor: &mut Cursor<'_>,
    ) -> Result<FuncType, ReadFault> {
        read_this(0x60, cursor)?;
        let params = read_vector::<ValTypes>(alloc, scratch, profile, cursor)?;
        let results = read_vector::<ValTypes>(alloc, scratch, profile, cursor)?;
        Ok(FuncType { params, results })
    }
}

impl Readable for Imports {
    type Item = Import;

    ghost read_at = { λ profile. import_at };

    #[tactic(auto, unfolding(crate::specs::Formats::made_at, crate::specs::Formats::both_at))]
    fn read(
        alloc: Global,
        _scratch: &mut Scratch,
        _profile: Profile,
        cursor: &mut Cursor<'_>,
    ) -> Result<Import, ReadFault> {
        let from = read_name(alloc, cursor)?;
        let name = read_name(alloc, cursor)?;
        let desc = read_desc(cursor)?;
        Ok(Import { from, name, desc })
    }
}

impl Readable for Indices {
    type Item = u32;

    ghost read_at = { λ profile. u32_at };

    fn read(
        _alloc: Global,
        _scratch: &mut Scratch,
        _profile: Profile,
        cursor: &mut Cursor<'_>,
    ) -> Result<u32, ReadFault> {
        cursor.u32()
    }
}

impl Readable for Tables {
    type Item = Limits;

    ghost read_at = { λ profile. tabletype_at };

    fn read(
        _alloc: Global,
        _scratch: &mut Scratch,
        _profile: Profile,
        cursor: &mut Cursor<'_>,
    ) -> Result<Limits, ReadFault> {
        read_table_limits(cursor)
    }
}

impl Readable for Memories {
    type Item = Limits;

    ghost read_at = { λ profile. limits_at };

    fn read(
        _alloc: Global,
        _scratch: &mut Scratch,
        _profile: Profile,
        cursor: &mut Cursor<'_>,
    ) -> Result<Limits, ReadFault> {
        read_limits(cursor)
    }
}

impl Readable for Globals {
    type Item = GlobalDef;

    ghost read_at = { global_at };

    #[tactic(auto, unfolding(crate::specs::Formats::made_at, crate::specs::Formats::both_at))]
    fn read(
        alloc: Global,
        scratch: &mut Scratch,
        profile: Profile,
        cursor: &mut Cursor<'_>,
    ) -> Result<GlobalDef, ReadFault> {
        let ty = take_global_type(cursor)?;
        let init = scratch.next_expr(alloc, cursor, profile)?;
        Ok(GlobalDef { ty, init })
    }
}

impl Readable for Exports {
    type Item = Export;

    ghost read_at = { λ profile. export_at };

    fn read(
        alloc: Global,
        _scratch: &mut Scratch,
        _profile: Profile,
        cursor: &mut Cursor<'_>,
    ) -> Result<Export, ReadFault> {
        let ExportRef { name, kind, index } = read_export(cursor)?;
        Ok(Export {
            name: Text::from_string(String::from_str(alloc, name)?),
            kind,
            index,
        })
    }
}

impl Readable for Elems {
    type Item = Elem;

    ghost read_at = { elem_at };

    #[tactic(auto, unfolding(crate::specs::Formats::made_at, crate::specs::Formats::both_at))]
    fn read(
        alloc: Global,
        scratch: &mut Scratch,
        profile: Profile,
        cursor: &mut Cursor<'_>,
    ) -> Result<Elem, ReadFault> {
        let table = cursor.u32()?;
        let offset = scratch.next_expr(alloc, cursor, profile)?;
        let funcs = read_vector::<Indices>(alloc, scratch, profile, cursor)?;
        Ok(Elem {
            table,
            offset,
            funcs,
        })
    }
}

impl Readable for Datas {
    type Item = DataSeg;

    ghost read_at = { data_at };

    #[tactic(auto, unfolding(crate::specs::Formats::made_at, crate::specs::Formats::both_at))]
    fn read(
        alloc: Global,
        scratch: &mut Scratch,
        profile: Profile,
        cursor: &mut Cursor<'_>,
    ) -> Result<DataSeg, ReadFault> {
        let memory = cursor.u32()?;
        let offset = scratch.next_expr(alloc, cursor, profile)?;
        let bytes = read_sized_bytes(cursor)?;
        Ok(DataSeg {
            memory,
            offset,
            bytes: Items::from_vec(Vec::from_slice(alloc, bytes)?),
        })
    }
}
