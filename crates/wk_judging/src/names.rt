//! The names of exports, to tell whether one comes twice.

ghost use Rattle.std.specs.Prelude.{◌≡◌, ◌++◌, ◌∷◌, [], ℕ, List, not, true, IfOk};
ghost use Rattle.wk_judging.specs.Names.{AreKnown, has_name};

use arrayvec::ArrayVec;
use std::alloc::Global;
use std::collections::BTreeSet;
use wk_bytes::OutOfMemory;

// How many names are compared one by one.
const FEW: usize = 16;

/// Names, each of which came once. Up to sixteen are compared one by one, and take no memory; where there are more, all of them lie
/// in a set, so that a name is sought in one place alone.
#[derive(Drop)]
pub(crate) struct Names<'a> {
    few: ArrayVec<&'a str, FEW>,
    // Empty until the seventeenth name comes.
    many: BTreeSet<&'a str>,
}

impl<'a> Names<'a> {
    /// No names.
    pub(crate) fn new(alloc: Global) -> Names<'a>
        ensures { AreKnown result [] }
    {
        Names {
            few: ArrayVec::new(),
            many: BTreeSet::new(alloc),
        }
    }

    /// Adds a name, and tells whether it is new.
    pub(crate) fn insert(&mut self, name: &'a str) -> Result<bool, OutOfMemory>
        ensures { (before : List (List ℕ)) → AreKnown self.old before
            → IfOk result
            (λ is_new. (is_new ≡ not (has_name before name.now))
            × (is_new ≡ true → AreKnown self.new (before ++ name.now ∷ []))) }
    {
        if self.many.is_empty() {
            if self.few.as_slice().iter().any(|few| *few == name) {
                return Ok(false);
            }
            if self.few.try_push(name).is_ok() {
                return Ok(true);
            }
            // There is no more room: from now on all names lie in the set.
            self.many.extend(self.few.as_slice())?;
        }
        Ok(self.many.insert(name)?)
    }
}
