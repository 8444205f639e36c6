//! The kinds of items that are judged while they are read (5.5.4 to 5.5.14), but for exports, which are looked at with the names before.

ghost use Rattle.std.specs.Prelude.{length};
ghost use Rattle.wk_bytes.specs.Span.{u32_at};
ghost use Rattle.wk_body.specs.Reading.{expr_at};
ghost use Rattle.wk_body.specs.Reads.{Parses};
ghost use Rattle.wk_body.specs.Vectors.{vector_at};
ghost use Rattle.wk_module.specs.Formats.{made_at};
ghost use Rattle.wk_typing.specs.Constants.{constant_flaw};
ghost use Rattle.wk_judging.specs.Contexts.{flaw_if, initial_in, spaces_in};
ghost use Rattle.wk_check.specs.Items.{all_within};
ghost use Rattle.wk_check.specs.Spaces.{answer_in};

use crate::context::Context;
use crate::judge_items::{ItemKind, Next};
use std::alloc::Global;
use wk_bytes::{Cursor, ReadFault};
use wk_check::{
    IndexSpaces, Initial, flaw_of_import, flaw_of_memory, flaw_of_table, flaw_of_type,
    flaw_of_type_index,
};
use wk_module::{
    DataSeg, Elem, FuncType, GlobalDef, Import, Limits, ValType, read_global_type,
    read_import_desc, read_memory_type, read_sized_bytes, read_table_type,
};
use wk_typing::{FaultKind, Flaw, Rooms, Scope, next_constant_flaw};

/// Types (5.5.4).
pub(crate) struct Types;

impl ItemKind for Types {
    type Item = FuncType;

    type State = Context;

    ghost use Rattle.wk_module.specs.Types.{functype_at};
    ghost use Rattle.wk_judging.specs.Contexts.{add_type, next_type_flaw};

    ghost read_at = { λ profile. functype_at };

    ghost wrong = { next_type_flaw };

    ghost add = { add_type };

    #[tactic(auto, unfolding(wk_module::specs::Formats::made_at))]
    fn judge_next(
        _alloc: Global,
        context: &mut Context,
        next: &Next,
        cursor: &mut Cursor<'_>,
        _rooms: &mut Rooms,
    ) -> Result<Option<Flaw>, ReadFault> {
        context.types.read_next(cursor)?;
        Ok(match context.types.last() {
            Some(ty) if next.is_asked => flaw_of_type(next.profile, ty),
            _ => None,
        })
    }
}

/// Imports (5.5.5), whose names are read and not kept.
pub(crate) struct Imports;

impl ItemKind for Imports {
    type Item = Import;

    type State = Context;

    ghost use Rattle.wk_module.specs.Items.{import_at};
    ghost use Rattle.wk_judging.specs.Contexts.{add_import, next_import_flaw};

    ghost read_at = { λ profile. import_at };

    ghost wrong = { λ profile. next_import_flaw };

    ghost add = { add_import };

    #[tactic(auto, unfolding(wk_module::specs::Formats::made_at))]
    fn judge_next(
        _alloc: Global,
        context: &mut Context,
        next: &Next,
        cursor: &mut Cursor<'_>,
        _rooms: &mut Rooms,
    ) -> Result<Option<Flaw>, ReadFault> {
        let desc = read_import_desc(cursor)?;
        let flaw = if next.is_asked {
            let types = context.type_count();
            flaw_of_import(types, context.tables(), context.memories(), &desc)
        } else {
            None
        };
        context.add_import(desc)?;
        Ok(flaw)
    }
}

/// The types of functions (5.5.6).
pub(crate) struct Funcs;

impl ItemKind for Funcs {
    type Item = u32;

    type State = Context;

    ghost use Rattle.wk_bytes.specs.Span.{u32_at};
    ghost use Rattle.wk_judging.specs.Contexts.{add_func, next_func_flaw};

    ghost read_at = { λ profile. u32_at };

    ghost wrong = { λ profile. next_func_flaw };

    ghost add = { add_func };

    #[tactic(auto, unfolding(wk_module::specs::Formats::made_at))]
    fn judge_next(
        _alloc: Global,
        context: &mut Context,
        next: &Next,
        cursor: &mut Cursor<'_>,
        _rooms: &mut Rooms,
    ) -> Result<Option<Flaw>, ReadFault> {
        let ty = cursor.u32()?;
        context.add_func(ty)?;
        if next.is_asked {
            return Ok(flaw_of_type_index(context.type_count(), ty));
        }
        Ok(None)
    }
}

/// Tables (5.5.7).
pub(crate) struct Tables;

impl ItemKind for Tables {
    type Item = Limits;

    type State = Context;

    ghost use Rattle.wk_module.specs.Types.{tabletype_at};
    ghost use Rattle.wk_judging.specs.Contexts.{add_table, next_table_flaw};

    ghost read_at = { λ profile. tabletype_at };

    ghost wrong = { λ profile. next_table_flaw };

    ghost add = { add_table };

    #[tactic(auto, unfolding(wk_module::specs::Formats::made_at))]
    fn judge_next(
        _alloc: Global,
        context: &mut Context,
        next: &Next,
        cursor: &mut Cursor<'_>,
        _rooms: &mut Rooms,
    ) -> Result<Option<Flaw>, ReadFault> {
        let limits = read_table_type(cursor)?;
        let is_first = context.tables() == 0;
        context.add_table(limits)?;
        if next.is_asked {
            return Ok(flaw_of_table(&limits, is_first));
        }
        Ok(None)
    }
}

/// Memories (5.5.8).
pub(crate) struct Memories;

impl ItemKind for Memories {
    type Item = Limits;

    type State = Context;

    ghost use Rattle.wk_module.specs.Types.{limits_at};
    ghost use Rattle.wk_judging.specs.Contexts.{add_memory, next_memory_flaw};

    ghost read_at = { λ profile. limits_at };

    ghost wrong = { λ profile. next_memory_flaw };

    ghost add = { add_memory };

    #[tactic(auto, unfolding(wk_module::specs::Formats::made_at))]
    fn judge_next(
        _alloc: Global,
        context: &mut Context,
        next: &Next,
        cursor: &mut Cursor<'_>,
        _rooms: &mut Rooms,
    ) -> Result<Option<Flaw>, ReadFault> {
        let limits = read_memory_type(cursor)?;
        let is_first = context.memories() == 0;
        context.add_memory(limits)?;
        if next.is_asked {
            return Ok(flaw_of_memory(&limits, is_first));
        }
        Ok(None)
    }
}

// What is wrong with the constant expression that comes next, where that is asked. Else it is read alone.
#[tactic(auto, unfolding(wk_module::specs::Formats::made_at))]
fn next_flaw<E: Scope>(
    alloc: Global,
    env: &E,
    ty: ValType,
    next: &Next,
    cursor: &mut Cursor<'_>,
    rooms: &mut Rooms,
) -> Result<Option<Flaw>, ReadFault>
    ensures { Parses (λ w. w)
        (made_at (flaw_if next.now.is_asked (constant_flaw (E.answers env.now) ty))
        (expr_at next.now.profile)) cursor.old result cursor.new }
{
    if next.is_asked {
        return next_constant_flaw(alloc, env, ty, next.profile, cursor, rooms);
    }
    drop(rooms.scratch.next_expr(alloc, cursor, next.profile)?);
    Ok(None)
}

/// Globals (5.5.9), whose initialisers are read and not kept.
pub(crate) struct Globals;

// The same of the initialiser of a global of a type, which sees imported globals alone.
fn next_initialiser_flaw(
    alloc: Global,
    context: &Context,
    ty: ValType,
    next: &Next,
    cursor: &mut Cursor<'_>,
    rooms: &mut Rooms,
) -> Result<Option<Flaw>, ReadFault>
    ensures { Parses (λ w. w)
        (made_at
        (flaw_if next.now.is_asked (constant_flaw (answer_in (initial_in context.now)) ty))
        (expr_at next.now.profile)) cursor.old result cursor.new }
{
    let initial = Initial {
        spaces: context,
        imported: context.imported_globals(),
    };
    next_flaw(alloc, &initial, ty, next, cursor, rooms)
}

impl ItemKind for Globals {
    type Item = GlobalDef;

    type State = Context;

    ghost use Rattle.wk_module.specs.Items.{global_at};
    ghost use Rattle.wk_judging.specs.Contexts.{add_global, next_global_flaw};

    ghost read_at = { global_at };

    ghost wrong = { λ profile. next_global_flaw };

    ghost add = { add_global };

    #[tactic(auto, unfolding(wk_module::specs::Formats::made_at, wk_module::specs::Formats::both_at))]
    fn judge_next(
        alloc: Global,
        context: &mut Context,
        next: &Next,
        cursor: &mut Cursor<'_>,
        rooms: &mut Rooms,
    ) -> Result<Option<Flaw>, ReadFault> {
        let ty = read_global_type(cursor)?;
        let flaw = next_initialiser_flaw(alloc, context, ty.val, next, cursor, rooms)?;
        context.add_global(ty, next.left)?;
        Ok(flaw)
    }
}

/// Element segments (5.5.12), whose functions are read and not kept.
pub(crate) struct Elems;

// Reads the functions of a segment, and tells whether there is one for each index.
fn read_funcs(context: &Context, cursor: &mut Cursor<'_>) -> Result<bool, ReadFault>
    ensures { Parses (λ b. b) (made_at (all_within (length (spaces_in context.now).funcs))
        (vector_at u32_at)) cursor.old result cursor.new }
{
    let count = cursor.u32()?;
    let mut are_there = true;
    for _ in 0..count {
        let func = cursor.u32()?;
        are_there = are_there && context.has_func(func);
    }
    Ok(are_there)
}

impl ItemKind for Elems {
    type Item = Elem;

    type State = Context;

    ghost use Rattle.wk_module.specs.Items.{elem_at};
    ghost use Rattle.wk_judging.specs.Contexts.{add_nothing, next_elem_flaw};

    ghost read_at = { elem_at };

    ghost wrong = { λ profile. next_elem_flaw };

    ghost add = { add_nothing };

    #[tactic(auto, unfolding(wk_module::specs::Formats::made_at, wk_module::specs::Formats::both_at))]
    fn judge_next(
        alloc: Global,
        context: &mut Context,
        next: &Next,
        cursor: &mut Cursor<'_>,
        rooms: &mut Rooms,
    ) -> Result<Option<Flaw>, ReadFault> {
        let table = cursor.u32()?;
        let offset_flaw = next_flaw(alloc, context, ValType::I32, next, cursor, rooms)?;
        let are_there = read_funcs(context, cursor)?;
        if !next.is_asked {
            return Ok(None);
        }
        if !context.has_table(table) {
            return Ok(Some(Flaw::of(FaultKind::UnknownTable)));
        }
        if offset_flaw.is_some() || are_there {
            return Ok(offset_flaw);
        }
        Ok(Some(Flaw::of(FaultKind::UnknownFunc)))
    }
}

/// Data segments (5.5.14), whose bytes are passed over.
pub(crate) struct Datas;

impl ItemKind for Datas {
    type Item = DataSeg;

    type State = Context;

    ghost use Rattle.wk_module.specs.Items.{data_at};
    ghost use Rattle.wk_judging.specs.Contexts.{add_nothing, next_data_flaw};

    ghost read_at = { data_at };

    ghost wrong = { λ profile. next_data_flaw };

    ghost add = { add_nothing };

    #[tactic(auto, unfolding(wk_module::specs::Formats::made_at, wk_module::specs::Formats::both_at))]
    fn judge_next(
        alloc: Global,
        context: &mut Context,
        next: &Next,
        cursor: &mut Cursor<'_>,
        rooms: &mut Rooms,
    ) -> Result<Option<Flaw>, ReadFault> {
        let memory = cursor.u32()?;
        let offset_flaw = next_flaw(alloc, context, ValType::I32, next, cursor, rooms)?;
        let _bytes = read_sized_bytes(cursor)?;
        if next.is_asked && !context.has_memory(memory) {
            return Ok(Some(Flaw::of(FaultKind::UnknownMemory)));
        }
        Ok(offset_flaw)
    }
}
