//! Writing what the lists of a module hold (5.3, 5.5).

ghost use Rattle.std.specs.Prelude.{◌≡◌, ◌<◌, ◌^◌, ◌++◌, length, OnOk, OnErr};
ghost use Rattle.wk_body.specs.Lengths.{GrowsBy};
ghost use Rattle.wk_body.specs.Written.{written_expr, StaysInFront};
ghost use Rattle.wk_module.specs.Types.{flag_byte, kind_byte, written_limits, written_tabletype, written_globaltype};
ghost use Rattle.wk_module.specs.Items.{desc_kind, written_desc};

use crate::format::{
    Datas, Elems, Exports, FuncIndices, FuncTypes, Globals, Imports, Indices, Memories, Tables,
    ValTypes,
};
use crate::types::{
    DataSeg, Elem, Export, Func, FuncType, GlobalDef, GlobalType, Import, ImportDesc, Kind, Limits,
};
use crate::vector_write::{
    Writable, plus, plus_bytes, plus_u32, plus_vector, put_bytes, put_vector,
};
use wk_body::{Expr, ValType, append_expr, expr_len};
use wk_bytes::{OutOfMemory, put_u32};

/// The byte that begins a function type (5.3.3).
const FUNC_TYPE: u8 = 0x60;

/// The byte of the element type of tables (5.3.6).
const FUNC_REF: u8 = 0x70;

// The byte of a flag.
fn flag_code(flag: bool) -> u8
    ensures { result ≡ flag_byte flag }
{
    u8::from(flag)
}

// The byte of a kind (5.5.10).
fn kind_code(kind: Kind) -> u8
    ensures { result ≡ kind_byte kind }
{
    match kind {
        Kind::Func => 0x00,
        Kind::Table => 0x01,
        Kind::Memory => 0x02,
        Kind::Global => 0x03,
    }
}

// A length with limits added.
fn plus_limits(total: Option<u32>, limits: Limits) -> Option<u32>
    ensures { GrowsBy (length (written_limits limits)) total result }
{
    let total = plus_u32(plus(total, 1), limits.min);
    match limits.max {
        Some(max) => plus_u32(total, max),
        None => total,
    }
}

// A length with what is imported added.
fn plus_desc(total: Option<u32>, desc: &ImportDesc) -> Option<u32>
    ensures { GrowsBy (length (written_desc desc.now)) total result }
{
    match *desc {
        ImportDesc::Func(ty) => plus_u32(plus(total, 1), ty),
        ImportDesc::Table(limits) => plus_limits(plus(total, 2), limits),
        ImportDesc::Memory(limits) => plus_limits(plus(total, 1), limits),
        ImportDesc::Global(_) => plus(total, 3),
    }
}

// A length with an expression added.
fn plus_expr(total: Option<u32>, expr: &Expr) -> Option<u32>
    ensures { GrowsBy (length (written_expr expr.now)) total result }
{
    plus(total, expr_len(expr)? as usize)
}

// Limits (5.3.4).
fn put_limits(limits: Limits, bytes: &mut Vec<u8>) -> Result<(), OutOfMemory>
    ensures ok { OnOk result (bytes.new.items ≡ bytes.old.items ++ written_limits limits) }
    ensures err { OnErr result (StaysInFront bytes.old.items bytes.new.items) }
{
    bytes.push(flag_code(limits.max.is_some()))?;
    put_u32(bytes, limits.min)?;
    if let Some(max) = limits.max {
        put_u32(bytes, max)?;
    }
    Ok(())
}

// A table type (5.3.6).
fn put_table_type(limits: Limits, bytes: &mut Vec<u8>) -> Result<(), OutOfMemory>
    ensures ok { OnOk result (bytes.new.items ≡ bytes.old.items ++ written_tabletype limits) }
    ensures err { OnErr result (StaysInFront bytes.old.items bytes.new.items) }
{
    bytes.push(FUNC_REF)?;
    put_limits(limits, bytes)
}

// A global type (5.3.7).
fn put_global_type(ty: GlobalType, bytes: &mut Vec<u8>) -> Result<(), OutOfMemory>
    ensures ok { OnOk result (bytes.new.items ≡ bytes.old.items ++ written_globaltype ty) }
    ensures err { OnErr result (StaysInFront bytes.old.items bytes.new.items) }
{
    bytes.extend_from_slice(&[ty.val.byte(), flag_code(ty.mutable)])?;
    Ok(())
}

// What is imported (5.5.5).
fn put_desc(desc: &ImportDesc, bytes: &mut Vec<u8>) -> Result<(), OutOfMemory>
    ensures ok { OnOk result (bytes.new.items ≡ bytes.old.items ++ written_desc desc.now) }
    ensures err { OnErr result (StaysInFront bytes.old.items bytes.new.items) }
{
    bytes.push(kind_code(desc.kind()))?;
    match *desc {
        ImportDesc::Func(ty) => put_u32(bytes, ty),
        ImportDesc::Table(limits) => put_table_type(limits, bytes),
        ImportDesc::Memory(limits) => put_limits(limits, bytes),
        ImportDesc::Global(ty) => put_global_type(ty, bytes),
    }
}

impl Writable for ValTypes {
    type Item = ValType;

    ghost use Rattle.std.proofs.Common.{rules};
    ghost use Rattle.wk_module.specs.Types.{written_valtype};

    ghost written = { written_valtype };

    ghost some = { Prim.search rules };

    fn measure(_item: &ValType, so_far: Option<u32>) -> Option<u32> {
        plus(so_far, 1)
    }

    fn put(item: &ValType, bytes: &mut Vec<u8>) -> Result<(), OutOfMemory> {
        bytes.push(item.byte())?;
        Ok(())
    }
}

impl Writable for FuncTypes {
    type Item = FuncType;

    ghost use Rattle.wk_module.specs.Types.{written_functype};
    ghost use Rattle.wk_module.specs.WritingLaws.{some_functype};

    ghost written = { written_functype };

    ghost some = { some_functype };

    fn measure(item: &FuncType, so_far: Option<u32>) -> Option<u32> {
        let total = plus(so_far, 1);
        let total = plus_vector::<ValTypes>(item.params.as_slice(), total);
        plus_vector::<ValTypes>(item.results.as_slice(), total)
    }

    fn put(item: &FuncType, bytes: &mut Vec<u8>) -> Result<(), OutOfMemory> {
        bytes.push(FUNC_TYPE)?;
        put_vector::<ValTypes>(item.params.as_slice(), bytes)?;
        put_vector::<ValTypes>(item.results.as_slice(), bytes)
    }
}

impl Writable for Imports {
    type Item = Import;

    ghost use Rattle.wk_module.specs.Items.{written_import};
    ghost use Rattle.wk_module.specs.WritingLaws.{some_import};

    ghost written = { written_import };

    ghost some = { some_import };

    fn measure(item: &Import, so_far: Option<u32>) -> Option<u32> {
        let total = plus_bytes(item.from.as_str().as_bytes(), so_far);
        let total = plus_bytes(item.name.as_str().as_bytes(), total);
        plus_desc(total, &item.desc)
    }

    fn put(item: &Import, bytes: &mut Vec<u8>) -> Result<(), OutOfMemory> {
        put_bytes(item.from.as_str().as_bytes(), bytes)?;
        put_bytes(item.name.as_str().as_bytes(), bytes)?;
        put_desc(&item.desc, bytes)
    }
}

impl Writable for Indices {
    type Item = u32;

    ghost use Rattle.wk_bytes.specs.Short.{short};
    ghost use Rattle.wk_bytes.specs.ShortLaws.{short-some};

    ghost written = { short };

    ghost some = { short-some };

    fn measure(item: &u32, so_far: Option<u32>) -> Option<u32> {
        plus_u32(so_far, *item)
    }

    fn put(item: &u32, bytes: &mut Vec<u8>) -> Result<(), OutOfMemory> {
        put_u32(bytes, *item)
    }
}

impl Writable for FuncIndices {
    type Item = Func;

    ghost use Rattle.wk_bytes.specs.Short.{short};
    ghost use Rattle.wk_bytes.specs.ShortLaws.{short-some};

    ghost written = { λ f. short f.ty };

    ghost some = { λ f. short-some f.ty };

    fn measure(item: &Func, so_far: Option<u32>) -> Option<u32> {
        plus_u32(so_far, item.ty)
    }

    fn put(item: &Func, bytes: &mut Vec<u8>) -> Result<(), OutOfMemory> {
        put_u32(bytes, item.ty)
    }
}

impl Writable for Tables {
    type Item = Limits;

    ghost use Rattle.std.proofs.Common.{rules};
    ghost use Rattle.wk_module.specs.Types.{written_tabletype};

    ghost written = { written_tabletype };

    ghost some = { Prim.search rules };

    fn measure(item: &Limits, so_far: Option<u32>) -> Option<u32> {
        plus_limits(plus(so_far, 1), *item)
    }

    fn put(item: &Limits, bytes: &mut Vec<u8>) -> Result<(), OutOfMemory> {
        put_table_type(*item, bytes)
    }
}

impl Writable for Memories {
    type Item = Limits;

    ghost use Rattle.std.proofs.Common.{rules};
    ghost use Rattle.wk_module.specs.Types.{written_limits};

    ghost written = { written_limits };

    ghost some = { Prim.search rules };

    fn measure(item: &Limits, so_far: Option<u32>) -> Option<u32> {
        plus_limits(so_far, *item)
    }

    fn put(item: &Limits, bytes: &mut Vec<u8>) -> Result<(), OutOfMemory> {
        put_limits(*item, bytes)
    }
}

impl Writable for Globals {
    type Item = GlobalDef;

    ghost use Rattle.std.proofs.Common.{rules};
    ghost use Rattle.wk_module.specs.Items.{written_global};

    ghost written = { written_global };

    ghost some = { Prim.search rules };

    fn measure(item: &GlobalDef, so_far: Option<u32>) -> Option<u32> {
        plus_expr(plus(so_far, 2), &item.init)
    }

    fn put(item: &GlobalDef, bytes: &mut Vec<u8>) -> Result<(), OutOfMemory> {
        put_global_type(item.ty, bytes)?;
        append_expr(bytes, &item.init)
    }
}

impl Writable for Exports {
    type Item = Export;

    ghost use Rattle.wk_module.specs.Items.{written_export};
    ghost use Rattle.wk_module.specs.WritingLaws.{some_export};

    ghost written = { written_export };

    ghost some = { some_export };

    fn measure(item: &Export, so_far: Option<u32>) -> Option<u32> {
        let total = plus_bytes(item.name.as_str().as_bytes(), so_far);
        plus_u32(plus(total, 1), item.index)
    }

    fn put(item: &Export, bytes: &mut Vec<u8>) -> Result<(), OutOfMemory> {
        put_bytes(item.name.as_str().as_bytes(), bytes)?;
        bytes.push(kind_code(item.kind))?;
        put_u32(bytes, item.index)
    }
}

impl Writable for Elems {
    type Item = Elem;

    ghost use Rattle.wk_module.specs.Items.{written_elem};
    ghost use Rattle.wk_module.specs.WritingLaws.{some_elem};

    ghost written = { written_elem };

    ghost some = { some_elem };

    fn measure(item: &Elem, so_far: Option<u32>) -> Option<u32> {
        let total = plus_expr(plus_u32(so_far, item.table), &item.offset);
        plus_vector::<Indices>(item.funcs.as_slice(), total)
    }

    fn put(item: &Elem, bytes: &mut Vec<u8>) -> Result<(), OutOfMemory> {
        put_u32(bytes, item.table)?;
        append_expr(bytes, &item.offset)?;
        put_vector::<Indices>(item.funcs.as_slice(), bytes)
    }
}

impl Writable for Datas {
    type Item = DataSeg;

    ghost use Rattle.wk_module.specs.Items.{written_data};
    ghost use Rattle.wk_module.specs.WritingLaws.{some_data};

    ghost written = { written_data };

    ghost some = { some_data };

    fn measure(item: &DataSeg, so_far: Option<u32>) -> Option<u32> {
        let total = plus_expr(plus_u32(so_far, item.memory), &item.offset);
        plus_bytes(item.bytes.as_slice(), total)
    }

    fn put(item: &DataSeg, bytes: &mut Vec<u8>) -> Result<(), OutOfMemory> {
        put_u32(bytes, item.memory)?;
        append_expr(bytes, &item.offset)?;
        put_bytes(item.bytes.as_slice(), bytes)
    }
}
