//! The uses listing.

ghost use Rattle.std.specs.Prelude.{◌≡◌, ◌<◌, ◌-◌, ◌^◌, ◌++◌, ◌∷◌, IfOk, OnOk};
ghost use Rattle.std.specs.List.{flat_map};
ghost use Rattle.wk_body.specs.References.{refs_of};
ghost use Rattle.wk_list.specs.Taken.{PutsOut};
ghost use Rattle.wk_list.specs.Uses.{in_order, ref_text, use_line, uses_text};

use crate::fault::Listed;
use crate::page::spill;
use crate::shape::Shape;
use crate::spaces::count_of;
use crate::text::put_indexed;
use std::collections::BTreeSet;
use wk_bytes::{Out, OutOfMemory};
use wk_module::{Func, Kind, Ref, uses};

// A reference after a space.
fn put_ref(text: &mut Vec<u8>, reference: Ref) -> Result<(), OutOfMemory>
    ensures { OnOk result (text.new.items ≡ text.old.items ++ ref_text reference) }
{
    match reference {
        Ref::Ty(x) => put_indexed(text, " type", u64::from(x)),
        Ref::Func(x) => put_indexed(text, " func", u64::from(x)),
        Ref::Global(x) => put_indexed(text, " global", u64::from(x)),
        Ref::Table => Ok(text.extend_from_slice(b" table")?),
        Ref::Memory => Ok(text.extend_from_slice(b" memory")?),
    }
}

// References, in their order.
fn put_refs(text: &mut Vec<u8>, references: &BTreeSet<Ref>) -> Result<(), OutOfMemory>
    ensures { OnOk result
        (text.new.items ≡ text.old.items ++ flat_map ref_text references.now.keys) }
{
    for reference in references.iter() {
        put_ref(text, *reference)?;
    }
    Ok(())
}

// The line of a function: what it refers to.
fn put_uses(text: &mut Vec<u8>, index: u64, func: &Func) -> Result<(), OutOfMemory>
    ensures { OnOk result (text.new.items ≡ text.old.items ++ use_line index func.now) }
{
    let references = uses(*text.allocator(), func.ty, &func.body)?;
    put_indexed(text, "func", index)?;
    text.extend_from_slice(b":")?;
    put_refs(text, &references)?;
    Ok(text.extend_from_slice(b"\n")?)
}

/// The lines of all functions.
pub(crate) fn list_uses<S: Shape, W: Out>(shape: &S, text: &mut Vec<u8>, out: &mut W) -> Listed
    requires room { W.failed out.old < 2 ^ 64 - 1 }
    ensures { PutsOut W.taken W.failed out.old out.new
        (text.old.items ++ uses_text (S.seen shape.now)) text.new.items result }
{
    let parts = shape.parts();
    let funcs = parts.funcs.as_slice();
    let imported = count_of(Kind::Func, parts.imports.as_slice());
    for (index, func) in funcs.iter().enumerate() {
        put_uses(text, u64::from(imported) + index as u64, func)?;
        spill(text, out)?;
    }
    Ok(())
}
