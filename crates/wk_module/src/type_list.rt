//! Function types whose lists lie in one room.

ghost use Rattle.std.specs.Prelude.{◌≡◌, ◌-◌, [], ◌∷◌, ◌++◌, length, take, IfErr, OnErr, MatchOption, slice_get, IfOk, Some, None};
ghost use Rattle.wk_bytes.specs.Stands.{StandsOrMemory};
ghost use Rattle.wk_body.specs.Reads.{Parses};
ghost use Rattle.wk_body.specs.ValTypes.{valtype_at};
ghost use Rattle.wk_body.specs.Vectors.{vector_at};
ghost use Rattle.wk_module.specs.Formats.{made_at};
ghost use Rattle.wk_module.specs.InPlace.{func_type_view, type_within, AreWithin, AreBetween};
ghost use Rattle.wk_module.specs.Types.{functype_at};

use crate::item_read::read_valtype;
use crate::types::FuncTypeRef;
use crate::vector_read::{FIRST_ROOM, read_this};
use smallvec::SmallVec;
use std::alloc::Global;
use std::marker::Model;
use wk_body::ValType;
use wk_bytes::{Cursor, ReadFault};

// How many types take no memory for their bounds.
const INLINE: usize = 16;

// Where the lists of a type lie among the value types of all: its parameters begin at `start` and end where its results begin.
#[derive(Clone, Copy, Debug, Default)]
struct TypeBounds {
    start: usize,
    results: usize,
    end: usize,
}

impl TypeBounds {
    // The type.
    #[inline(always)]
    fn lend<'a>(&self, lists: &'a [ValType]) -> FuncTypeRef<'a>
        requires { AreWithin (length lists.now) self.now }
        ensures { func_type_view result ≡ type_within lists.now self.now }
    {
        FuncTypeRef {
            params: &lists[self.start..self.results],
            results: &lists[self.results..self.end],
        }
    }
}

// Reads value types behind their count (5.1.3) to the end of a list. A refusal may leave some of them there.
#[tactic(auto, using(crate::proofs::VectorReading::goes_on, crate::proofs::VectorReading::is_done, crate::proofs::TypeLists::front_stays), unfolding(wk_body::specs::Vectors::vector_at, crate::specs::Formats::made_at))]
fn append_valtypes(lists: &mut Vec<ValType>, cursor: &mut Cursor<'_>) -> Result<(), ReadFault>
    ensures read { Parses (λ u. lists.new.items)
        (made_at (λ ts. lists.old.items ++ ts) (vector_at valtype_at)) cursor.old result cursor.new }
    ensures stays { take (length lists.old.items) lists.new.items ≡ lists.old.items }
{
    let count = cursor.u32()?;
    for _ in 0..count {
        let ty = read_valtype(cursor)?;
        if lists.is_empty() {
            lists.reserve(FIRST_ROOM as usize)?;
        }
        lists.push(ty)?;
    }
    Ok(())
}

// Reads a function type (5.3.3), and puts its lists to the end of a list. A refusal may leave value types there.
#[tactic(auto, unfolding(crate::specs::Formats::made_at, crate::specs::Formats::both_at, crate::specs::Formats::behind_at))]
fn append_func_type(
    lists: &mut Vec<ValType>,
    cursor: &mut Cursor<'_>,
) -> Result<TypeBounds, ReadFault>
    ensures read { Parses (type_within lists.new.items) functype_at cursor.old result cursor.new }
    ensures between { IfOk result (AreBetween (length lists.old.items) (length lists.new.items)) }
    ensures stays { take (length lists.old.items) lists.new.items ≡ lists.old.items }
{
    read_this(0x60, cursor)?;
    let start = lists.len();
    append_valtypes(lists, cursor)?;
    let results = lists.len();
    append_valtypes(lists, cursor)?;
    Ok(TypeBounds {
        start,
        results,
        end: lists.len(),
    })
}

/// A list of function types (2.3.3), which a contract sees as that list. All their value types lie in one room, one type behind the other, so
/// that no type asks for memory of its own. The room stays when the list is cleared.
#[derive(Debug, Drop)]
pub struct TypeList {
    // The parameters and the results of all types, one behind the other.
    lists: Vec<ValType>,
    bounds: SmallVec<TypeBounds, INLINE>,
}

impl Model for TypeList {
    ghost use Rattle.std.specs.Prelude.{List};
    ghost use Rattle.wk_module.specs.declared.types.FuncType.{FuncType as InFuncType};

    ghost Value = { List InFuncType };

    ghost use Rattle.wk_module.specs.InPlace.{types_within, AreTypesOf};

    ghost view = { λ l. types_within l.lists.items l.bounds.items };

    ghost invariant = { λ l. AreTypesOf l.lists.items l.bounds.items };
}

impl TypeList {
    /// No types. It takes no memory until one is read.
    pub fn new(alloc: Global) -> TypeList
        ensures { result ≡ [] }
    {
        TypeList {
            lists: Vec::new(alloc),
            bounds: SmallVec::new(alloc),
        }
    }

    /// How many types there are.
    #[inline(always)]
    pub fn len(&self) -> usize
        ensures { result ≡ length self.now }
    {
        self.bounds.len()
    }

    /// The type with an index, or nothing where there is none.
    #[inline(always)]
    pub fn get(&self, index: usize) -> Option<FuncTypeRef<'_>>
        ensures { MatchOption
            result
            (slice_get self.now index ≡ None)
            (λ ty. slice_get self.now index ≡ Some (func_type_view ty)) }
    {
        match self.bounds.as_slice().get(index) {
            Some(bounds) => Some(bounds.lend(&self.lists)),
            None => None,
        }
    }

    /// The last type, or nothing where there is none.
    #[inline(always)]
    pub fn last(&self) -> Option<FuncTypeRef<'_>>
        ensures { MatchOption
            result
            (self.now ≡ [])
            (λ ty. slice_get self.now (length self.now - 1) ≡ Some (func_type_view ty)) }
    {
        match self.bounds.as_slice().last() {
            Some(bounds) => Some(bounds.lend(&self.lists)),
            None => None,
        }
    }

    /// Forgets the types, and keeps all room for those that are read next. It never fails.
    pub fn clear(&mut self)
        ensures { self.new ≡ [] }
    {
        self.bounds.clear();
        self.lists.clear();
    }

    /// Reads a function type (5.3.3) behind the others. Room for 64 value types is made once the first is read; else it grows with those that
    /// are read and not with a count. Where the types lie in it takes memory only behind the sixteenth.
    ///
    /// # Errors
    ///
    /// The first fault, at its offset, or `Memory` at 0. The types and the cursor are then as before.
    #[tactic(auto, using(crate::proofs::InPlace::functype_stands), unfolding(crate::specs::Formats::made_at))]
    pub fn read_next(&mut self, cursor: &mut Cursor<'_>) -> Result<(), ReadFault>
        ensures exact { Parses (λ u. self.new) (made_at (λ t. self.old ++ t ∷ []) functype_at)
            cursor.old result cursor.new }
        ensures fault { IfErr result (λ e. StandsOrMemory cursor.old e) }
        ensures types { OnErr result (self.new ≡ self.old) }
        ensures left { OnErr result (cursor.new ≡ cursor.old) }
    {
        self.bounds.reserve(1)?;
        let kept = self.lists.len();
        let mut ahead = cursor.ahead();
        match append_func_type(&mut self.lists, &mut ahead) {
            Ok(bounds) => {
                self.bounds.push_reserved(bounds);
                *cursor = ahead;
                Ok(())
            }
            Err(fault) => {
                self.lists.truncate(kept);
                Err(fault)
            }
        }
    }
}
