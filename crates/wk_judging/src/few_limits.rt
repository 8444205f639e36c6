//! The limits of tables, or of memories, while a module is read.

ghost use Rattle.std.specs.Prelude.{◌≡◌, ◌++◌, ◌∷◌, [], OnOk, length};

use std::alloc::Global;
use std::marker::Model;
use wk_bytes::OutOfMemory;
use wk_module::Limits;

/// Limits, of which the first lie in the value itself and take no memory: a valid module has one table and one memory at most (3.4.10).
#[derive(Debug, Drop)]
pub(crate) struct FewLimits {
    first: Option<Limits>,
    // those behind the first; where there is no first, they are of the module before, and do not count
    more: Vec<Limits>,
}

impl Model for FewLimits {
    ghost use Rattle.std.specs.Prelude.{List};
    ghost use Rattle.wk_module.specs.declared.types.Limits.{Limits as InLimits};
    ghost use Rattle.wk_judging.specs.Contexts.{headed_by};

    ghost Value = { List InLimits };

    ghost view = { λ l. headed_by l.first l.more.items };
}

impl FewLimits {
    /// None. They take no memory before the second comes.
    pub(crate) fn new(alloc: Global) -> FewLimits
        ensures { result ≡ [] }
    {
        FewLimits {
            first: None,
            more: Vec::new(alloc),
        }
    }

    /// Forgets them, and keeps their room.
    pub(crate) fn clear(&mut self)
        ensures { self.new ≡ [] }
    {
        self.first = None;
    }

    /// Adds limits behind the others.
    pub(crate) fn push(&mut self, limits: Limits) -> Result<(), OutOfMemory>
        ensures { OnOk result (self.new ≡ self.old ++ limits ∷ []) }
    {
        if self.first.is_none() {
            self.more.clear();
            self.first = Some(limits);
            return Ok(());
        }
        self.more.push(limits)?;
        Ok(())
    }

    /// How many there are.
    pub(crate) fn len(&self) -> usize
        ensures { result ≡ length self.now }
    {
        match self.first {
            Some(_) => self.more.len() + 1,
            None => 0,
        }
    }
}
