//! Moving one index space over the lists of a module, as an import of its kind is put in before the index `from`.

ghost use Rattle.std.specs.Prelude.{◌≡◌, ◌||◌, ℕ, Bool, true, false, map, MatchResult};
ghost use Rattle.std.specs.List.{list_any};
ghost use Rattle.wk_body.specs.declared.renumber.ShiftFault.TheVariants.{Overflow};
ghost use Rattle.wk_body.specs.References.{IsRefused};
ghost use Rattle.wk_body.specs.Moved.{MayRefuse};
ghost use Rattle.wk_module.specs.declared.types.Kind.{Kind as KindOf};
ghost use Rattle.wk_module.specs.declared.types.Func.{Func as FuncOf};
ghost use Rattle.wk_module.specs.declared.types.Parts.{Parts as PartsOf};
ghost use Rattle.wk_module.specs.Shape.{IsFormed};
ghost use Rattle.wk_module.specs.Moving.{moved_index, moved_expr, moved_func, moved_global, moved_export, moved_elem, moved_data, moved_parts, is_index_stuck, is_code_stuck, is_expr_stuck, is_start_stuck, is_elem_stuck, is_data_stuck, are_lists_stuck, are_parts_stuck, is_index_moving, is_code_moving, is_expr_moving, is_start_moving, is_elem_moving, is_data_moving, some_if, start_if_moving, moved_lists, with_lists, items_movement, lists_movements};

use crate::types::{DataSeg, Elem, Export, GlobalDef, Kind, Parts};
use std::alloc::Global;
use wk_body::{
    Expr, Movement, Moving, ShiftFault, expr_movement, moving_of_code, shift_expr, shift_index,
};
use wk_bytes::Items;

/// The lists of a module that hold something that moves, moved. `None` stands where nothing in a list moves.
#[derive(Debug, Drop)]
pub struct MovedLists {
    /// The globals.
    pub globals: Option<Items<GlobalDef>>,
    /// The exports.
    pub exports: Option<Items<Export>>,
    /// The index of the start function.
    pub start: Option<u32>,
    /// The element segments.
    pub elems: Option<Items<Elem>>,
    /// The data segments.
    pub datas: Option<Items<DataSeg>>,
}

impl MovedLists {
    /// The parts of a module with these lists in the place of their own. It takes no memory.
    pub fn put_into(self, parts: Parts) -> Parts
        ensures { result ≡ with_lists self parts }
    {
        let MovedLists {
            globals,
            exports,
            start,
            elems,
            datas,
        } = self;
        Parts {
            globals: globals.unwrap_or(parts.globals),
            exports: exports.unwrap_or(parts.exports),
            start: start.or(parts.start),
            elems: elems.unwrap_or(parts.elems),
            datas: datas.unwrap_or(parts.datas),
            ..parts
        }
    }
}

// An item of a list, which holds references.
trait Movable: Drop {
    ghost use Rattle.std.specs.Prelude.{ℕ, Bool};
    ghost use Rattle.wk_module.specs.declared.types.Kind.{Kind as KindOf};

    // Whether something in it moves.
    ghost moves: { KindOf → ℕ → Self → Bool };

    // Whether something in it moves and can't.
    ghost stuck: { KindOf → ℕ → Self → Bool };

    // It, moved.
    ghost moved: { KindOf → ℕ → Self → Self };

    // What moves of it.
    fn movement(&self, kind: Kind, from: u32) -> Movement
        ensures { result
            ≡ record { moves = moves kind from self.now; stuck = stuck kind from self.now } };

    // It, moved, in memory of its own.
    fn shift_item(&self, alloc: Global, kind: Kind, from: u32) -> Result<Self, ShiftFault>
        ensures { MatchResult result (λ x. x ≡ moved kind from self.now)
            (λ e. MayRefuse e (stuck kind from self.now)) };
}

// What moves of an index that names something of a kind.
fn index_movement(kind: Kind, from: u32, named: Kind, x: u32) -> Movement
    ensures { result ≡ record {
      moves = is_index_moving kind from named x;
      stuck = is_index_stuck kind from named x;
    } }
{
    if kind == named {
        Movement::of_index(from, x)
    } else {
        Movement::NONE
    }
}

// An index that names something of a kind, moved.
fn shifted_index(kind: Kind, from: u32, named: Kind, x: u32) -> Result<u32, ShiftFault>
    ensures { MatchResult result (λ y. y ≡ moved_index kind from named x)
        (λ e. (e ≡ Overflow) × (is_index_stuck kind from named x ≡ true)) }
{
    if kind == named {
        shift_index(from, x)
    } else {
        Ok(x)
    }
}

// What moves of an initialiser or an offset.
fn offset_movement(kind: Kind, from: u32, expr: &Expr) -> Movement
    ensures { result ≡ record {
      moves = is_expr_moving kind from expr.now;
      stuck = is_expr_stuck kind from expr.now;
    } }
{
    match kind {
        Kind::Global => expr_movement(expr, Moving::Global, from),
        _ => Movement::NONE,
    }
}

// An initialiser or an offset, moved.
fn shifted_offset(alloc: Global, kind: Kind, from: u32, expr: &Expr) -> Result<Expr, ShiftFault>
    ensures { MatchResult result (λ e. e ≡ moved_expr kind from expr.now)
        (λ e. MayRefuse e (is_expr_stuck kind from expr.now)) }
{
    match kind {
        Kind::Global => shift_expr(alloc, expr, from),
        _ => Ok(expr.clone()?),
    }
}

// What moves of items.
fn items_movement<T: Movable>(items: &[T], kind: Kind, from: u32) -> Movement
    ensures { result ≡ items_movement (T.moves kind from) (T.stuck kind from) items.now }
{
    let mut found = Movement::NONE;
    for item in items {
        found = found.or(item.movement(kind, from));
    }
    found
}

// Items, moved.
fn shifted_items<T: Movable>(
    alloc: Global,
    items: &[T],
    kind: Kind,
    from: u32,
) -> Result<Items<T>, ShiftFault>
    ensures { MatchResult result (λ v. v ≡ map (T.moved kind from) items.now)
        (λ e. MayRefuse e (list_any (T.stuck kind from) items.now)) }
{
    let mut shifted = Vec::with_capacity(alloc, items.len())?;
    for item in items {
        shifted.push(item.shift_item(alloc, kind, from)?)?;
    }
    Ok(Items::from_vec(shifted))
}

// Items moved, where something in them moves.
fn shifted_if<T: Movable>(
    alloc: Global,
    moves: bool,
    items: &[T],
    kind: Kind,
    from: u32,
) -> Result<Option<Items<T>>, ShiftFault>
    ensures { MatchResult result (λ v. v ≡ some_if moves (map (T.moved kind from) items.now))
        (λ e. MayRefuse e (list_any (T.stuck kind from) items.now)) }
{
    if !moves {
        return Ok(None);
    }
    Ok(Some(shifted_items(alloc, items, kind, from)?))
}

// The index of a function, as element segments hold it.
impl Movable for u32 {
    ghost use Rattle.wk_module.specs.declared.types.Kind.TheVariants.{Func as func};

    ghost moves = { λ kind from x. is_index_moving kind from func x };

    ghost stuck = { λ kind from x. is_index_stuck kind from func x };

    ghost moved = { λ kind from x. moved_index kind from func x };

    fn movement(&self, kind: Kind, from: u32) -> Movement {
        index_movement(kind, from, Kind::Func, *self)
    }

    fn shift_item(&self, _alloc: Global, kind: Kind, from: u32) -> Result<u32, ShiftFault> {
        shifted_index(kind, from, Kind::Func, *self)
    }
}

impl Movable for GlobalDef {
    ghost moves = { λ kind from g. is_expr_moving kind from g.init };

    ghost stuck = { λ kind from g. is_expr_stuck kind from g.init };

    ghost moved = { moved_global };

    fn movement(&self, kind: Kind, from: u32) -> Movement {
        offset_movement(kind, from, &self.init)
    }

    fn shift_item(&self, alloc: Global, kind: Kind, from: u32) -> Result<GlobalDef, ShiftFault> {
        Ok(GlobalDef {
            ty: self.ty,
            init: shifted_offset(alloc, kind, from, &self.init)?,
        })
    }
}

impl Movable for Export {
    ghost moves = { λ kind from e. is_index_moving kind from e.kind e.index };

    ghost stuck = { λ kind from e. is_index_stuck kind from e.kind e.index };

    ghost moved = { moved_export };

    fn movement(&self, kind: Kind, from: u32) -> Movement {
        index_movement(kind, from, self.kind, self.index)
    }

    fn shift_item(&self, alloc: Global, kind: Kind, from: u32) -> Result<Export, ShiftFault> {
        Ok(Export {
            name: self.name.copy(alloc)?,
            kind: self.kind,
            index: shifted_index(kind, from, self.kind, self.index)?,
        })
    }
}

impl Movable for Elem {
    ghost moves = { is_elem_moving };

    ghost stuck = { is_elem_stuck };

    ghost moved = { moved_elem };

    fn movement(&self, kind: Kind, from: u32) -> Movement {
        let funcs = items_movement(self.funcs.as_slice(), kind, from);
        let offset = offset_movement(kind, from, &self.offset).or(funcs);
        index_movement(kind, from, Kind::Table, self.table).or(offset)
    }

    fn shift_item(&self, alloc: Global, kind: Kind, from: u32) -> Result<Elem, ShiftFault> {
        Ok(Elem {
            table: shifted_index(kind, from, Kind::Table, self.table)?,
            offset: shifted_offset(alloc, kind, from, &self.offset)?,
            funcs: shifted_items(alloc, self.funcs.as_slice(), kind, from)?,
        })
    }
}

impl Movable for DataSeg {
    ghost moves = { is_data_moving };

    ghost stuck = { is_data_stuck };

    ghost moved = { moved_data };

    fn movement(&self, kind: Kind, from: u32) -> Movement {
        let offset = offset_movement(kind, from, &self.offset);
        index_movement(kind, from, Kind::Memory, self.memory).or(offset)
    }

    fn shift_item(&self, alloc: Global, kind: Kind, from: u32) -> Result<DataSeg, ShiftFault> {
        Ok(DataSeg {
            memory: shifted_index(kind, from, Kind::Memory, self.memory)?,
            offset: shifted_offset(alloc, kind, from, &self.offset)?,
            bytes: self.bytes.copy(alloc)?,
        })
    }
}

// What moves of the start function.
fn start_movement(start: Option<u32>, kind: Kind, from: u32) -> Movement
    ensures { result ≡ record {
      moves = is_start_moving kind from start;
      stuck = is_start_stuck kind from start;
    } }
{
    match start {
        Some(x) => index_movement(kind, from, Kind::Func, x),
        None => Movement::NONE,
    }
}

// The index of the start function, where it moves.
fn shifted_start(start: Option<u32>, kind: Kind, from: u32) -> Result<Option<u32>, ShiftFault>
    ensures { MatchResult result (λ v. v ≡ start_if_moving kind from start)
        (λ e. (e ≡ Overflow) × (is_start_stuck kind from start ≡ true)) }
{
    match start {
        Some(x) if kind == Kind::Func && from <= x => Ok(Some(shift_index(from, x)?)),
        _ => Ok(None),
    }
}

// What moves of each list.
#[derive(Clone, Copy, Debug)]
struct Movements {
    globals: Movement,
    exports: Movement,
    start: Movement,
    elems: Movement,
    datas: Movement,
}

fn movements_of(parts: &Parts, kind: Kind, from: u32) -> Movements
    ensures { result ≡ lists_movements kind from parts.now }
{
    Movements {
        globals: items_movement(parts.globals.as_slice(), kind, from),
        exports: items_movement(parts.exports.as_slice(), kind, from),
        start: start_movement(parts.start, kind, from),
        elems: items_movement(parts.elems.as_slice(), kind, from),
        datas: items_movement(parts.datas.as_slice(), kind, from),
    }
}

// The lists of which something moves, moved.
fn shifted_lists(
    alloc: Global,
    parts: &Parts,
    kind: Kind,
    from: u32,
    found: &Movements,
) -> Result<MovedLists, ShiftFault>
    requires { found.now ≡ lists_movements kind from parts.now }
    ensures { MatchResult result (λ v. v ≡ moved_lists kind from parts.now)
        (λ e. MayRefuse e (are_lists_stuck kind from parts.now)) }
{
    Ok(MovedLists {
        globals: shifted_if(
            alloc,
            found.globals.moves,
            parts.globals.as_slice(),
            kind,
            from,
        )?,
        exports: shifted_if(
            alloc,
            found.exports.moves,
            parts.exports.as_slice(),
            kind,
            from,
        )?,
        start: shifted_start(parts.start, kind, from)?,
        elems: shifted_if(alloc, found.elems.moves, parts.elems.as_slice(), kind, from)?,
        datas: shifted_if(alloc, found.datas.moves, parts.datas.as_slice(), kind, from)?,
    })
}

/// The lists of a module that hold something that moves, after an import of the kind was put in at the index `from`: each
/// reference of that kind to `from` or above is one more. Codes are no lists here: [`wk_body::shift`] moves them.
///
/// `Overflow` is answered exactly where such a reference is 4,294,967,295, which has no next; else `Memory` where a growth was
/// refused.
pub fn shift_lists(
    alloc: Global,
    parts: &Parts,
    kind: Kind,
    from: u32,
) -> Result<MovedLists, ShiftFault>
    ensures { MatchResult result
        (λ v. (are_lists_stuck kind from parts.now ≡ false) × (v ≡ moved_lists kind from parts.now))
        (λ e. IsRefused e (are_lists_stuck kind from parts.now)) }
{
    let found = movements_of(parts, kind, from);
    if found.globals.stuck
        || found.exports.stuck
        || found.start.stuck
        || found.elems.stuck
        || found.datas.stuck
    {
        return Err(ShiftFault::Overflow);
    }
    shifted_lists(alloc, parts, kind, from, &found)
}

/// The laws of moving: a module whose references have moved is formed as before, where nothing is stuck; the lists that moved, laid
/// over the others, are those of the module whose references have moved; and a function whose code holds nothing that moves stays.
/// It does nothing.
pub fn moving_of_module()
    ensures formed { (kind : KindOf) (from : ℕ) (m : PartsOf) → are_parts_stuck kind from m ≡ false
        → IsFormed m → IsFormed (moved_parts kind from m) }
    ensures lists { (kind : KindOf) (from : ℕ) (m : PartsOf)
        → with_lists (moved_lists kind from m) m
        ≡ record (moved_parts kind from m) { funcs = m.funcs } }
    ensures funcs { (kind : KindOf) (from : ℕ) (f : FuncOf)
        → is_code_moving kind from f.body.instrs ≡ false
        → (moved_func kind from f ≡ f) × (is_code_stuck kind from f.body.instrs ≡ false) }
{
    moving_of_code();
}
