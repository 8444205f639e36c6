//! Imports that would break a module, told before any edit is made.

use wk_module::{FuncType, ImportDesc, Kind, Limits, Parts, Profile, import_count};
use wk_session::Edit;

/// The most pages that a memory may have (2.3.4, 3.2.4).
const PAGES: u32 = 65_536;

// Whether the sizes are out of order, or one of them is past the most that may be.
fn are_wrong(limits: &Limits, most: u32) -> bool {
    match limits.max {
        Some(max) => limits.min > max || max > most,
        None => limits.min > most,
    }
}

// Whether a type may stand in a valid module (3.2.2): in WebAssembly 1.0 it has at most one result.
fn may_stand(profile: Profile, ty: &FuncType) -> bool {
    profile == Profile::Extended || ty.results.len() <= 1
}

/// Whether an import looks as if it would leave an invalid module, by the types, tables and memories that are there when its turn comes, where
/// each edit has to leave a valid one. The draft would give up at it, behind the work of all edits in front of it. What comes of the
/// edits is the same either way.
pub(crate) fn has_breaking_import(parts: &Parts, edits: &[Edit]) -> bool {
    let imports = parts.imports.as_slice();
    let mut types = parts.types.len();
    let mut has_table = !parts.tables.is_empty() || import_count(imports, Kind::Table) > 0;
    let mut has_memory = !parts.memories.is_empty() || import_count(imports, Kind::Memory) > 0;
    for edit in edits {
        match edit {
            Edit::Ty(ty) if may_stand(parts.profile, ty) => types = types.saturating_add(1),
            Edit::Import(import) => match &import.desc {
                ImportDesc::Func(ty) => {
                    if *ty as usize >= types {
                        return true;
                    }
                }
                ImportDesc::Table(limits) => {
                    if has_table || are_wrong(limits, u32::MAX) {
                        return true;
                    }
                    has_table = true;
                }
                ImportDesc::Memory(limits) => {
                    if has_memory || are_wrong(limits, PAGES) {
                        return true;
                    }
                    has_memory = true;
                }
                ImportDesc::Global(_) => {}
            },
            _ => {}
        }
    }
    false
}
