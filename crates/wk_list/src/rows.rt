//! The lines of the details listing, one for each item of a section.

ghost use Rattle.std.specs.Prelude.{◌≡◌, ◌==◌, ◌++◌, if◌then◌else◌, [], codes, decimal, OnOk};
ghost use Rattle.hex.specs.Hex.{encode_lower};
ghost use Rattle.wk_list.specs.Text.{spaced, joined, functype_text, limits_text, globaltype_text, kind_name};
ghost use Rattle.wk_list.specs.Details.{item_text, field, code_field, named, heading};

use crate::header::section_name;
use crate::text::{put_hex, put_indexed, put_name, put_number, put_spaced};
use crate::typetext::{kind_name, put_functype, put_globaltype, put_joined, put_limits};
use wk_bytes::OutOfMemory;
use wk_module::{DataSeg, Elem, Export, Expr, Func, FuncType, GlobalDef, Limits, append_expr};

/// The heading of a section of so many items: nothing where there are none.
pub(crate) fn put_heading(text: &mut Vec<u8>, id: u8, count: usize) -> Result<(), OutOfMemory>
    ensures { OnOk result
        (text.new.items ≡ text.old.items ++ (if count == 0 then [] else heading id count)) }
{
    if count == 0 {
        return Ok(());
    }
    put_indexed(text, section_name(id), count as u64)?;
    Ok(text.extend_from_slice(b":\n")?)
}

/// An item of a list, as ` - type[0]`.
pub(crate) fn put_item(text: &mut Vec<u8>, name: &str, index: u64) -> Result<(), OutOfMemory>
    ensures { OnOk result (text.new.items ≡ text.old.items ++ item_text name.now index) }
{
    text.extend_from_slice(b" - ")?;
    put_indexed(text, name, index)
}

/// A number behind its label, as ` type=0`.
pub(crate) fn put_field(text: &mut Vec<u8>, label: &str, n: u32) -> Result<(), OutOfMemory>
    ensures { OnOk result (text.new.items ≡ text.old.items ++ field label.now n) }
{
    text.extend_from_slice(label.as_bytes())?;
    put_number(text, u64::from(n))
}

/// A name after a space.
pub(crate) fn put_named(text: &mut Vec<u8>, name: &str) -> Result<(), OutOfMemory>
    ensures { OnOk result (text.new.items ≡ text.old.items ++ named name.now) }
{
    text.extend_from_slice(b" ")?;
    put_name(text, name)
}

// An expression behind its label, in its written form.
fn put_code(text: &mut Vec<u8>, label: &str, expr: &Expr) -> Result<(), OutOfMemory>
    ensures { OnOk result (text.new.items ≡ text.old.items ++ code_field label.now expr.now) }
{
    let mut bytes = Vec::new(*text.allocator());
    append_expr(&mut bytes, expr)?;
    text.extend_from_slice(label.as_bytes())?;
    put_hex(text, &bytes)
}

/// An item of a section.
pub(crate) trait Row {
    ghost use Rattle.std.specs.Prelude.{◌≡◌, ◌++◌, ℕ, List, OnOk};

    // What stands behind its name and its index, and ends its line.
    ghost rest: { Self → List ℕ };

    /// Puts what stands behind its name and its index, and ends its line.
    fn put_row(&self, text: &mut Vec<u8>) -> Result<(), OutOfMemory>
        ensures { OnOk result (text.new.items ≡ text.old.items ++ rest self.now) };
}

impl Row for FuncType {
    ghost rest = { λ ty. codes " " ++ (functype_text ty ++ codes "\n") };

    fn put_row(&self, text: &mut Vec<u8>) -> Result<(), OutOfMemory> {
        text.extend_from_slice(b" ")?;
        put_functype(text, self)?;
        Ok(text.extend_from_slice(b"\n")?)
    }
}

impl Row for Func {
    ghost rest = { λ f. field (codes " type=") f.ty ++ codes "\n" };

    fn put_row(&self, text: &mut Vec<u8>) -> Result<(), OutOfMemory> {
        put_field(text, " type=", self.ty)?;
        Ok(text.extend_from_slice(b"\n")?)
    }
}

/// A table or a memory.
impl Row for Limits {
    ghost rest = { λ l. limits_text l ++ codes "\n" };

    fn put_row(&self, text: &mut Vec<u8>) -> Result<(), OutOfMemory> {
        put_limits(text, self)?;
        Ok(text.extend_from_slice(b"\n")?)
    }
}

impl Row for GlobalDef {
    ghost rest = { λ g. globaltype_text g.ty
        ++ (code_field (codes " init=") g.init ++ codes "\n") };

    fn put_row(&self, text: &mut Vec<u8>) -> Result<(), OutOfMemory> {
        put_globaltype(text, self.ty)?;
        put_code(text, " init=", &self.init)?;
        Ok(text.extend_from_slice(b"\n")?)
    }
}

impl Row for Export {
    ghost rest = { λ e. named e.name
        ++ (codes " " ++ (kind_name e.kind ++ (spaced e.index ++ codes "\n"))) };

    fn put_row(&self, text: &mut Vec<u8>) -> Result<(), OutOfMemory> {
        put_named(text, self.name.as_str())?;
        text.extend_from_slice(b" ")?;
        text.extend_from_slice(kind_name(self.kind).as_bytes())?;
        put_spaced(text, self.index)?;
        Ok(text.extend_from_slice(b"\n")?)
    }
}

impl Row for Elem {
    ghost rest = { λ e. field (codes " table=") e.table
        ++ (code_field (codes " offset=") e.offset
        ++ (codes " funcs=" ++ (joined decimal e.funcs ++ codes "\n"))) };

    fn put_row(&self, text: &mut Vec<u8>) -> Result<(), OutOfMemory> {
        put_field(text, " table=", self.table)?;
        put_code(text, " offset=", &self.offset)?;
        text.extend_from_slice(b" funcs=")?;
        put_joined(text, self.funcs.as_slice())?;
        Ok(text.extend_from_slice(b"\n")?)
    }
}

impl Row for DataSeg {
    ghost rest = { λ d. field (codes " memory=") d.memory
        ++ (code_field (codes " offset=") d.offset
        ++ (codes " bytes=" ++ (encode_lower d.bytes ++ codes "\n"))) };

    fn put_row(&self, text: &mut Vec<u8>) -> Result<(), OutOfMemory> {
        put_field(text, " memory=", self.memory)?;
        put_code(text, " offset=", &self.offset)?;
        text.extend_from_slice(b" bytes=")?;
        put_hex(text, self.bytes.as_slice())?;
        Ok(text.extend_from_slice(b"\n")?)
    }
}
