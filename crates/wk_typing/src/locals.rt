//! The locals of a function.

ghost use Rattle.std.specs.Prelude.{◌≡◌, ◌+◌, ◌≤◌, ◌<◌, ◌^◌, [], ◌++◌, length, replicate, IfOk, OnOk};
ghost use Rattle.wk_body.specs.Bodies.{AreGroups};
ghost use Rattle.wk_typing.specs.Effects.{local_type, type_in_groups};
ghost use Rattle.wk_typing.specs.Locals.{ends_from, AreFirst};

use std::alloc::Global;
use std::marker::Model;
use wk_bytes::OutOfMemory;
use wk_module::{LocalGroup, ValType};

// Writes into `ends` the number of locals up to the end of each group. The groups declare fewer than 2^32.
fn put_ends(groups: &[LocalGroup], ends: &mut Vec<u32>) -> Result<(), OutOfMemory>
    requires { AreGroups groups.now }
    ensures { OnOk result (ends.new.items ≡ ends_from 0 groups.now) }
{
    ends.clear();
    let mut total: u32 = 0;
    for group in groups {
        total += group.count;
        ends.push(total)?;
    }
    Ok(())
}

// Of how many locals the types are written out at the most, so that a body of a few bytes with many locals takes little time.
const MAX_WRITTEN: usize = 256;

// The types of the first locals, one by one. They lie in the value itself, so they ask for no memory.
#[derive(Debug, Drop)]
struct FirstLocals {
    types: [ValType; MAX_WRITTEN],
    len: usize,
}

impl Model for FirstLocals {
    ghost use Rattle.std.specs.Prelude.{◌≡◌, ◌≤◌, List, length, take};
    ghost use Rattle.wk_body.specs.declared.types.ValType.{ValType};

    ghost Value = { List ValType };

    ghost view = { λ f. take f.len f.types };

    ghost invariant = { λ f. (f.len ≤ 256) × (length f.types ≡ 256) };
}

impl FirstLocals {
    // None.
    fn new() -> FirstLocals
        ensures { result ≡ [] }
    {
        FirstLocals {
            types: [ValType::I32; MAX_WRITTEN],
            len: 0,
        }
    }

    // Begins anew with these.
    fn begin(&mut self, types: &[ValType])
        requires { length types.now ≤ MAX_WRITTEN }
        ensures { self.new ≡ types.now }
    {
        let len = types.len();
        self.types[..len].copy_from_slice(types);
        self.len = len;
    }

    // So many more of one type.
    fn extend(&mut self, count: usize, ty: ValType)
        requires { length self.old + count ≤ MAX_WRITTEN }
        ensures { self.new ≡ self.old ++ replicate count ty }
    {
        let start = self.len;
        let end = start + count;
        self.types[start..end].fill(ty);
        self.len = end;
    }

    // How many there are.
    fn len(&self) -> usize
        ensures value { result ≡ length self.now }
        ensures fits { result ≤ MAX_WRITTEN }
    {
        self.len
    }

    // All of them.
    fn as_slice(&self) -> &[ValType]
        ensures { result.now ≡ self.now }
    {
        &self.types[..self.len]
    }

    // Writes the types of parameters and of the groups behind them, up to the first group that does not fit whole. It tells how many
    // groups are written.
    fn put(&mut self, params: &[ValType], groups: &[LocalGroup]) -> usize
        requires { length params.now ≤ MAX_WRITTEN }
        ensures within { result ≤ length groups.now }
        ensures written { AreFirst params.now groups.now result self.new }
    {
        self.begin(params);
        let mut written = 0;
        for group in groups {
            let count = group.count as usize;
            if self.len() + count > MAX_WRITTEN {
                return written;
            }
            self.extend(count, group.ty);
            written += 1;
        }
        written
    }
}

/// The room for the locals of a body. It is used again from one body to the next, and its value is the unit, since no clause speaks of
/// what it holds.
#[derive(Debug, Drop)]
pub(crate) struct LocalsRoom {
    first: FirstLocals,
    ends: Vec<u32>,
}

impl Model for LocalsRoom {
    ghost Value = { Unit {0} };

    ghost view = { λ _. tt };
}

impl LocalsRoom {
    /// Room that takes no memory yet.
    pub(crate) fn new(alloc: Global) -> LocalsRoom {
        LocalsRoom {
            first: FirstLocals::new(),
            ends: Vec::new(alloc),
        }
    }
}

/// The locals of a function: those whose types are written out, and behind them those of groups, which are found by where the groups
/// end. So billions of locals in one group take no room.
#[derive(Drop)]
pub(crate) struct Locals<'a> {
    first: &'a [ValType],
    far: &'a [LocalGroup],
    ends: &'a [u32],
}

impl<'a> Model for Locals<'a> {
    ghost use Rattle.std.specs.Prelude.{◌≡◌};
    ghost use Rattle.wk_typing.specs.Locals.{LocalsOf, ends_from};

    ghost Value = { LocalsOf };

    ghost view = { λ l. record { params = l.first.now; groups = l.far.now } };

    ghost invariant = { λ l. l.ends.now ≡ ends_from 0 l.far.now };
}

impl<'a> Locals<'a> {
    /// The locals of these parameters and groups. More than 256 parameters stay where they lie; else they are written out with the groups
    /// behind them that fit whole. Memory is asked for only by the ends of the groups that are not written out.
    pub(crate) fn of(
        params: &'a [ValType],
        groups: &'a [LocalGroup],
        room: &'a mut LocalsRoom,
    ) -> Result<Locals<'a>, OutOfMemory>
        requires { AreGroups groups.now }
        ensures { IfOk result
            (λ l. local_type l.params l.groups ≡ local_type params.now groups.now) }
    {
        let LocalsRoom { first, ends } = room;
        if params.len() > MAX_WRITTEN {
            put_ends(groups, ends)?;
            return Ok(Locals {
                first: params,
                far: groups,
                ends,
            });
        }
        let written = first.put(params, groups);
        let far = &groups[written..];
        put_ends(far, ends)?;
        Ok(Locals {
            first: first.as_slice(),
            far,
            ends,
        })
    }

    /// No locals.
    pub(crate) fn none() -> Locals<'static>
        ensures { result ≡ record { params = []; groups = [] } }
    {
        Locals {
            first: &[],
            far: &[],
            ends: &[],
        }
    }

    // The type of a local that is not written out, by where the groups end.
    #[inline(never)]
    fn far_ty(&self, x: usize) -> Option<ValType>
        requires { length self.now.params ≤ x }
        ensures { result ≡ local_type self.now.params self.now.groups x }
    {
        let at = x - self.first.len();
        let group = self.ends.partition_point(|end| *end as usize <= at);
        self.far.get(group).map(|found| found.ty)
    }

    /// The type of a local, or nothing where there is none of that index.
    #[inline(always)]
    pub(crate) fn ty(&self, x: u32) -> Option<ValType>
        ensures { result ≡ local_type self.now.params self.now.groups x }
    {
        let x = x as usize;
        if x < self.first.len() {
            return Some(self.first[x]);
        }
        self.far_ty(x)
    }
}
