//! Bytes cut at a separator.

ghost use Rattle.std.specs.Prelude.{◌≡◌, ◌<◌, ◌==◌, ◌∷◌, length, option_map, position, IfSome};
ghost use Rattle.std.specs.Iterator.{YieldsFirstRef, item_count};
ghost use Rattle.wk_edit.specs.Pieces.{pieces, pieces_left};

use std::marker::Model;

/// The pieces between separators that are still to come, the first one first.
/// A contract sees the list of them.
#[derive(Drop)]
pub(crate) struct Pieces<'a> {
    /// What is not cut yet; `None` after the last piece.
    rest: Option<&'a [u8]>,
    separator: u8,
}

impl<'a> Model for Pieces<'a> {
    ghost use Rattle.std.specs.Prelude.{List, ℕ, option_map};
    ghost use Rattle.wk_edit.specs.Pieces.{pieces_left};

    ghost Value = { List (List ℕ) };

    ghost view = { λ p. pieces_left p.separator (option_map (λ b. b.now) p.rest) };
}

// The place of the first separator.
fn find(bytes: &[u8], separator: u8) -> Option<usize>
    ensures place { result ≡ position (λ b. b == separator) bytes.now }
    ensures within { IfSome result (λ i. i < length bytes.now) }
{
    bytes.iter().position(|x| *x == separator)
}

// The first piece, and what stands behind the separator that ends it.
#[tactic(auto, using(crate::proofs::Cutting::cut_at, crate::proofs::Cutting::cut_none))]
fn cut(bytes: &[u8], separator: u8) -> (&[u8], Option<&[u8]>)
    ensures { pieces separator bytes.now
        ≡ result.0.now ∷ pieces_left separator (option_map (λ b. b.now) result.1) }
{
    match find(bytes, separator) {
        Some(i) => {
            let (_, after) = bytes.split_at(i + 1);
            (&bytes[..i], Some(after))
        }
        None => (bytes, None),
    }
}

impl<'a> Pieces<'a> {
    /// All pieces of the bytes, one more than they have separators.
    pub(crate) fn new(bytes: &'a [u8], separator: u8) -> Pieces<'a>
        ensures { result ≡ pieces separator bytes.now }
    {
        Pieces {
            rest: Some(bytes),
            separator,
        }
    }
}

impl<'a> Iterator for Pieces<'a> {
    type Item = &'a [u8];

    ghost next_gives = { YieldsFirstRef (λ rest. rest) };

    ghost remaining = { item_count (λ rest. rest) };

    fn next(&mut self) -> Option<&'a [u8]> {
        let rest = self.rest?;
        let (piece, after) = cut(rest, self.separator);
        self.rest = after;
        Some(piece)
    }
}
