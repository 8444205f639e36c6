//! Exports (3.4.8, 3.4.10): what they name is there, and no two have one name.

ghost use Rattle.std.specs.Prelude.{◌≡◌, ◌+◌, ◌<◌, ◌^◌, length, nat_lt, take, IfOk};
ghost use Rattle.std.specs.List.{list_any};
ghost use Rattle.std.specs.Str.{bytes_eq};
ghost use Rattle.wk_module.specs.Listed.{listed};
ghost use Rattle.wk_check.specs.Flaws.{numbered, first_in};
ghost use Rattle.wk_check.specs.Items.{index_flaw, export_flaw, unless};
ghost use Rattle.wk_check.specs.Spaces.{spaces_of};

use crate::spaces::IndexSpaces;
use crate::whole::Whole;
use std::alloc::Global;
use std::collections::BTreeSet;
use wk_bytes::{OutOfMemory, Text};
use wk_module::{Export, Kind, Lists, import_count, section_id};
use wk_typing::{Fault, FaultKind, Flaw};

/// What is wrong with the index of an export.
pub fn flaw_of_index<S: IndexSpaces>(spaces: &S, kind: Kind, index: u32) -> Option<Flaw>
    ensures { result ≡ index_flaw (S.spaces spaces.now) kind index }
{
    let (is_there, fault) = match kind {
        Kind::Func => (spaces.has_func(index), FaultKind::UnknownFunc),
        Kind::Table => (spaces.has_table(index), FaultKind::UnknownTable),
        Kind::Memory => (spaces.has_memory(index), FaultKind::UnknownMemory),
        Kind::Global => (spaces.has_global(index), FaultKind::UnknownGlobal),
    };
    if is_there {
        return None;
    }
    Some(Flaw::of(fault))
}

// What is wrong with an index of a space that holds so many imports and so many own items.
fn flaw_beyond(imported: usize, own: usize, index: u32, fault: FaultKind) -> Option<Flaw>
    ensures { result ≡ unless fault (nat_lt index (imported + own)) }
{
    let index = index as usize;
    if index < imported || index - imported < own {
        return None;
    }
    Some(Flaw::of(fault))
}

// What is wrong with the index of an export of a module with these lists. The imports are counted.
fn flaw_of_listed_index(lists: &Lists<'_>, kind: Kind, index: u32) -> Option<Flaw>
    ensures { result ≡ index_flaw (spaces_of (listed lists.now)) kind index }
{
    let imported = import_count(lists.imports, kind);
    match kind {
        Kind::Func => flaw_beyond(imported, lists.funcs.len(), index, FaultKind::UnknownFunc),
        Kind::Table => flaw_beyond(imported, lists.tables.len(), index, FaultKind::UnknownTable),
        Kind::Memory => flaw_beyond(
            imported,
            lists.memories.len(),
            index,
            FaultKind::UnknownMemory,
        ),
        Kind::Global => flaw_beyond(
            imported,
            lists.globals.len(),
            index,
            FaultKind::UnknownGlobal,
        ),
    }
}

// Whether an export has the name.
fn is_named(exports: &[Export], name: &Text) -> bool
    ensures { result ≡ list_any (λ e. bytes_eq e.name name.now) exports.now }
{
    exports
        .iter()
        .any(|export| export.name.as_str() == name.as_str())
}

/// What is wrong with an export that comes behind those of these lists. It takes no memory.
pub(crate) fn flaw_of_export(lists: &Lists<'_>, export: &Export) -> Option<Flaw>
    ensures { result ≡ export_flaw (spaces_of (listed lists.now)) lists.now.exports.now export.now }
{
    if let Some(flaw) = flaw_of_listed_index(lists, export.kind, export.index) {
        return Some(flaw);
    }
    if is_named(lists.exports, &export.name) {
        return Some(Flaw::of(FaultKind::DuplicateExport));
    }
    None
}

/// The first fault of the export section. The names are kept in a set.
pub(crate) fn exports_fault(
    alloc: Global,
    whole: &Whole<'_>,
    exports: &[Export],
) -> Result<Option<Fault>, OutOfMemory>
    requires { length exports.now < 2 ^ 32 }
    ensures { IfOk result
        (λ r. r
        ≡ first_in 7 0
        (numbered (λ item e. export_flaw (spaces_of whole.now) (take item exports.now) e) 0
        exports.now)) }
{
    let mut names: BTreeSet<&str> = BTreeSet::new(alloc);
    for (index, export) in exports.iter().enumerate() {
        if let Some(flaw) = flaw_of_index(whole, export.kind, export.index) {
            return Ok(Some(flaw.at(section_id::EXPORT, index as u32)));
        }
        if !names.insert(export.name.as_str())? {
            return Ok(Some(Flaw::of(FaultKind::DuplicateExport).at(
                section_id::EXPORT,
                index as u32,
            )));
        }
    }
    Ok(None)
}
