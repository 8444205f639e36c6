//! Index spaces: what is imported of a kind comes first in the space of that kind (2.5.1).

ghost use Rattle.std.specs.Prelude.{◌≡◌, ◌<◌, ◌+◌, ◌-◌, ◌^◌, ◌++◌, ◌∷◌, [], List, length};
ghost use Rattle.wk_module.specs.declared.types.Import.{Import as Imported};
ghost use Rattle.wk_module.specs.Items.{desc_kind};
ghost use Rattle.wk_module.specs.Sections.{of_number};
ghost use Rattle.wk_list.specs.Spaces.{count_of, first_index, AreCounted};

use wk_module::{Import, ImportDesc, Kind, import_count, section_id};

/// How many of each kind were imported so far.
#[derive(Clone, Copy, Debug)]
pub(crate) struct Counts {
    pub(crate) funcs: u64,
    pub(crate) tables: u64,
    pub(crate) memories: u64,
    pub(crate) globals: u64,
}

/// How many imports are of the kind.
#[tactic(auto, using(crate::proofs::Counting::count_le, crate::proofs::Counting::counted_of))]
pub(crate) fn count_of(kind: Kind, imports: &[Import]) -> u32
    requires { length imports.now < 2 ^ 32 }
    ensures { result ≡ count_of kind imports.now }
{
    import_count(imports, kind) as u32
}

/// The index of the first item of the section of an id: what is imported of its kind comes first.
pub(crate) fn first_index(id: u8, imports: &[Import]) -> u32
    requires { length imports.now < 2 ^ 32 }
    ensures { result ≡ first_index (of_number id) imports.now }
{
    match id {
        section_id::FUNCTION => count_of(Kind::Func, imports),
        section_id::TABLE => count_of(Kind::Table, imports),
        section_id::MEMORY => count_of(Kind::Memory, imports),
        section_id::GLOBAL => count_of(Kind::Global, imports),
        _ => 0,
    }
}

// Counts one more. Answers how many there were before.
fn count_one(count: &mut u64) -> u64
    requires { count.old < 2 ^ 64 - 1 }
    ensures before { result ≡ count.old }
    ensures counted { count.new ≡ count.old + 1 }
{
    let before = *count;
    *count += 1;
    before
}

impl Counts {
    /// Before any import.
    pub(crate) fn new() -> Counts
        ensures { AreCounted result [] }
    {
        Counts {
            funcs: 0,
            tables: 0,
            memories: 0,
            globals: 0,
        }
    }

    /// The index that an import has in the space of its kind; it is counted from now on.
    #[tactic(auto, using(crate::proofs::Counting::count_le))]
    pub(crate) fn take(&mut self, desc: &ImportDesc) -> u64
        requires { (before : List Imported) × AreCounted self.old before
            × (length before < 2 ^ 32) }
        ensures index { (before : List Imported) → AreCounted self.old before
            → result ≡ count_of (desc_kind desc.now) before }
        ensures counted { (before : List Imported) (import : Imported) → import.desc ≡ desc.now
            → AreCounted self.old before → AreCounted self.new (before ++ import ∷ []) }
    {
        match desc {
            ImportDesc::Func(_) => count_one(&mut self.funcs),
            ImportDesc::Table(_) => count_one(&mut self.tables),
            ImportDesc::Memory(_) => count_one(&mut self.memories),
            ImportDesc::Global(_) => count_one(&mut self.globals),
        }
    }
}
