//! A vector that contracts see as a list.

ghost use Rattle.std.specs.Prelude.{◌≡◌, ◌<◌, [], ◌∷◌, ◌++◌, length, OnOk, OnErr, IfOk, IfErr, IfSome, OnSome, IfNone, slice_set, slice_index_or};
ghost use Rattle.wk_bytes.specs.ListWords.{is_empty};

use std::alloc::{AllocError, AllocFailed, Global};
use std::marker::Model;

/// A vector, which a contract sees as the list of its items and nothing else: not its room, not where it lies in memory.
///
/// Types that clauses compare hold their lists so. A vector goes in by [`Items::from_vec`] and comes out by
/// [`Items::into_vec`], neither of which takes memory.
#[derive(Debug, Drop)]
pub struct Items<T> {
    items: Vec<T>,
}

impl<T> Model for Items<T> {
    ghost use Rattle.std.specs.Prelude.{List};
    ghost use Rattle.std.specs.Coded.{coded_list};

    ghost Value = { List T };

    ghost coded = { coded_list T.code };

    ghost view = { λ v. v.items.items };
}

impl<T> Items<T> {
    /// No items. It takes no memory until an item is pushed.
    pub fn new(alloc: Global) -> Items<T>
        ensures { result ≡ [] }
    {
        Items {
            items: Vec::new(alloc),
        }
    }

    /// The items of a vector.
    pub fn from_vec(items: Vec<T>) -> Items<T>
        ensures { result ≡ items.items }
    {
        Items { items }
    }

    /// The vector of the items.
    pub fn into_vec(self) -> Vec<T>
        ensures { result.items ≡ self }
    {
        let Items { items } = self;
        items
    }

    /// The items, to read.
    pub fn as_slice(&self) -> &[T]
        ensures { result.now ≡ self.now }
    {
        self.items.as_slice()
    }

    /// The number of items.
    pub fn len(&self) -> usize
        ensures { result ≡ length self.now }
    {
        self.items.len()
    }

    /// Whether there is no item.
    pub fn is_empty(&self) -> bool
        ensures { result ≡ is_empty self.now }
    {
        self.items.is_empty()
    }

    /// Adds an item at the end.
    ///
    /// Where a growth is refused nothing changes, and the error holds the item.
    pub fn push(&mut self, item: T) -> Result<(), AllocFailed<T>>
        ensures ok { OnOk result (self.new ≡ self.old ++ item ∷ []) }
        ensures err { OnErr result (self.new ≡ self.old) }
        ensures value { IfErr result (λ e. e.value ≡ item) }
    {
        self.items.push(item)
    }

    /// Takes the last item, if there is one. It takes no memory.
    pub fn pop(&mut self) -> Option<T>
        ensures some { IfSome result (λ item. self.old ≡ self.new ++ item ∷ []) }
        ensures none { IfNone result ((self.old ≡ []) × (self.new ≡ [])) }
    {
        self.items.pop()
    }

    /// Puts an item in the place of the one at `index`, counted from 0, and gives that one back. It takes no memory.
    pub fn set(&mut self, index: usize, item: T) -> T
        requires { index < length self.old }
        ensures new { self.new ≡ slice_set self.old index item }
        ensures old { result ≡ slice_index_or self.old index result }
    {
        std::mem::replace(&mut self.items[index], item)
    }
}

impl<T: Copy> Items<T> {
    /// The same items in memory of their own.
    pub fn copy(&self, alloc: Global) -> Result<Items<T>, AllocError>
        ensures { IfOk result (λ items. items ≡ self.now) }
    {
        Ok(Items {
            items: Vec::from_slice(alloc, self.items.as_slice())?,
        })
    }
}
