//! The codes that are put out: those that are kept, or others in the place of some.

ghost use Rattle.std.specs.Prelude.{◌≡◌, ◌<◌, ◌≤◌, Some, length, slice_get};
ghost use Rattle.wk_bytes.specs.Frames.{limit};
ghost use Rattle.wk_pieces.specs.Overlays.{with_items};
ghost use Rattle.wk_pieces.specs.Pieces.{entries_size};

use crate::lengths::codes_len_after;
use crate::pieces::EncodedSections;
use crate::replace::item_at;
use std::marker::Model;
use wk_bytes::Items;

/// Codes without their sizes: those that are kept, each new one in the place of its own. A contract sees the list of them.
#[derive(Debug, Drop)]
pub struct Codes<'a> {
    kept: &'a Vec<Items<u8>>,
    // None at all, or one for each that is kept.
    news: &'a [Option<Items<u8>>],
    // How many bytes they have, with their sizes.
    len: u32,
}

impl<'a> Model for Codes<'a> {
    ghost use Rattle.std.specs.Prelude.{List, ℕ, ◌≡◌};
    ghost use Rattle.wk_pieces.specs.Overlays.{with_items};
    ghost use Rattle.wk_pieces.specs.Pieces.{entries_size};

    ghost Value = { List (List ℕ) };

    ghost view = { λ c. with_items c.kept.now.items c.news.now };

    ghost invariant = { λ c. c.len ≡ entries_size (with_items c.kept.now.items c.news.now) };
}

impl<'a> Codes<'a> {
    /// The codes that are kept.
    #[inline]
    #[tactic(auto, using(crate::proofs::Replacing::with_items_all))]
    pub fn of(pieces: &'a EncodedSections) -> Codes<'a>
        requires { pieces.now.codes_len ≡ entries_size pieces.now.codes.items }
        ensures { result ≡ pieces.now.codes.items }
    {
        Codes {
            kept: &pieces.codes,
            news: &[],
            len: pieces.codes_len,
        }
    }

    /// The same with each new one in the place of the one that is kept. They are measured here.
    #[inline]
    pub fn with_new(pieces: &'a EncodedSections, news: &'a Vec<Option<Items<u8>>>) -> Codes<'a>
        requires many { length news.now.items ≡ length pieces.now.codes.items }
        requires few { entries_size (with_items pieces.now.codes.items news.now.items) ≤ limit }
        ensures { result ≡ with_items pieces.now.codes.items news.now.items }
    {
        let kept = &pieces.codes;
        let Some(len) = codes_len_after(kept, news) else {
            unreachable!()
        };
        Codes { kept, news, len }
    }

    /// How many there are.
    #[inline]
    pub(crate) fn count(&self) -> usize
        ensures { result ≡ length self.now }
    {
        self.kept.len()
    }

    /// How many bytes they have, with their sizes.
    #[inline]
    pub(crate) fn len(&self) -> u32
        ensures { result ≡ entries_size self.now }
    {
        self.len
    }

    /// The code of an index.
    #[inline]
    pub(crate) fn at(&self, index: usize) -> &'a [u8]
        requires { index < length self.now }
        ensures { slice_get self.now index ≡ Some result.now }
    {
        item_at(self.kept, self.news, index).as_slice()
    }
}
