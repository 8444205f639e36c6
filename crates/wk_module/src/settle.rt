//! Settling: each custom section stands behind a section that is not empty, or first.

ghost use Rattle.std.specs.Prelude.{◌≡◌, false, map, slice_index_or};
ghost use Rattle.wk_module.specs.Shape.{filled_ids as filled_list, lowered as lowered_id, settled_custom};

use crate::types::{Custom, Parts};
use wk_bytes::Items;

/// For each id from 0 on, whether the section with that id is written.
pub(crate) fn filled_ids(parts: &Parts) -> [bool; 12]
    ensures { result ≡ filled_list parts.now }
{
    let has_funcs = !parts.funcs.is_empty();
    [
        false,
        !parts.types.is_empty(),
        !parts.imports.is_empty(),
        has_funcs,
        !parts.tables.is_empty(),
        !parts.memories.is_empty(),
        !parts.globals.is_empty(),
        !parts.exports.is_empty(),
        parts.start.is_some(),
        !parts.elems.is_empty(),
        has_funcs,
        !parts.datas.is_empty(),
    ]
}

/// The custom sections, each at its settled place.
pub(crate) fn settle_customs(customs: Items<Custom>, filled: &[bool]) -> Items<Custom>
    ensures { result ≡ map (settled_custom (λ id. slice_index_or filled.now id false)) customs }
{
    let mut customs = customs.into_vec();
    for custom in customs.iter_mut() {
        custom.place = lower_place(custom.place, filled);
    }
    Items::from_vec(customs)
}

/// The greatest id up to a place whose section is filled, or 0.
fn lower_place(place: u8, filled: &[bool]) -> u8
    ensures { result ≡ lowered_id (λ id. slice_index_or filled.now id false) place }
{
    let mut id = place;
    while id > 0 && !filled.get(usize::from(id)).copied().unwrap_or(false) {
        id -= 1;
    }
    id
}
