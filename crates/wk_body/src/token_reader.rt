//! Tokens that are read one by one, and not kept.

ghost use Rattle.std.specs.Prelude.{◌≡◌, ◌++◌, ◌∷◌, ◌<◌, ◌≤◌, [], length, reverse, take, drop, true, false, Some, Ok, Err, if◌then◌else◌, IfOk, IfErr, OnOk, MatchResult};
ghost use Rattle.wk_bytes.specs.declared.fault.ReadKind.TheVariants.{UnknownOpcode, TooDeep};
ghost use Rattle.wk_bytes.specs.declared.fault.ReadFault.{ReadFault};
ghost use Rattle.wk_bytes.specs.Fault.{no_memory};
ghost use Rattle.wk_bytes.specs.Span.{u32_at};
ghost use Rattle.wk_bytes.specs.Stands.{StandsOrMemory};
ghost use Rattle.wk_body.specs.declared.types.Profile.{Profile};
ghost use Rattle.wk_body.specs.Vectors.{items_at};
ghost use Rattle.wk_body.specs.Bodies.{AreGroups};
ghost use Rattle.wk_body.specs.Reads.{FailsAs, Parses};
ghost use Rattle.wk_body.specs.Meaning.{TakesOnly};
ghost use Rattle.wk_body.specs.Spelling.{SpellsGroups};
ghost use Rattle.wk_body.specs.Reading.{type_here, plain_at, tok_at, behind_at, token_at, after, may_else};
ghost use Rattle.wk_body.specs.Kept.{told, IsWithin};
ghost use Rattle.wk_body.specs.Shape.{depth_limit};
ghost use Rattle.wk_body.specs.Tree.{Close, Otherwise};
ghost use Rattle.wk_body.specs.TokenReading.{NextRead, local_groups_at};
ghost use Rattle.wk_body.specs.TokenSteps.{IsNext, Opens, Closes, StartsElse};

use crate::opcode;
use crate::reader::groups_of;
use crate::reading::{MAX_DEPTH, are_bytes, block_type, simple_of};
use crate::token::Token;
use crate::types::{BlockType, LocalGroup, Profile};
use std::alloc::Global;
use std::marker::Model;
use wk_bytes::{Cursor, ReadFault, ReadKind};

/// Reads the tokens of expressions one after the other (5.4), for whoever looks at each of them once: nothing is kept but which
/// blocks are open, and the labels of the last `br_table`.
///
/// One reader is used for many expressions, each after a call of [`begin`](TokenReader::begin), and grows once.
#[derive(Debug, Drop)]
pub struct TokenReader {
    // of each open block, the innermost last, whether an `else` may still come
    blocks: Vec<bool>,
    labels: Vec<u32>,
}

impl Model for TokenReader {
    ghost use Rattle.std.specs.Prelude.{reverse};
    ghost use Rattle.wk_body.specs.TokenReading.{TokenReading};

    ghost Value = { TokenReading };

    ghost view = { λ r. record { kinds = reverse r.blocks.items; labels = r.labels.items } };
}

// For how many labels room is made at first, so that a short list asks for memory once.
const FIRST_LABELS: u32 = 64;

// The same of open blocks.
const FIRST_BLOCKS: usize = 64;

// A label at the end of the others, of which there are so many in all. It stands apart, so that no cursor has to lie in memory for it.
#[inline(never)]
fn push_label(labels: &mut Vec<u32>, label: u32, len: u32) -> Result<(), ReadFault>
    ensures items { OnOk result (labels.new.items ≡ labels.old.items ++ label ∷ []) }
    ensures fault { IfErr result (λ e. e ≡ no_memory) }
{
    if labels.is_empty() {
        labels.reserve(len.min(FIRST_LABELS) as usize)?;
    }
    labels.push(label)?;
    Ok(())
}

// So many labels, in an empty room. Room is made for a few once the first is read, not for a count.
#[inline(always)]
fn labels_into(labels: &mut Vec<u32>, len: u32, cursor: &mut Cursor<'_>) -> Result<(), ReadFault>
    requires { labels.old.items ≡ [] }
    ensures { MatchResult result
        (λ _. (items_at u32_at len cursor.old.end cursor.old.rest
        ≡ Ok (labels.new.items, cursor.new.rest))
        × (cursor.new.end ≡ cursor.old.end))
        (λ e. FailsAs e e.kind (items_at u32_at len cursor.old.end cursor.old.rest)) }
{
    for _ in 0..len {
        let label = cursor.u32()?;
        push_label(labels, label, len)?;
    }
    Ok(())
}

impl TokenReader {
    /// A reader, in which no block is open, and which has no labels. It takes no memory yet.
    pub fn new(alloc: Global) -> TokenReader
        ensures kinds { result.kinds ≡ [] }
        ensures labels { result.labels ≡ [] }
    {
        TokenReader {
            blocks: Vec::new(alloc),
            labels: Vec::new(alloc),
        }
    }

    /// Begins an expression: no block is open, and no labels are left of the one before.
    pub fn begin(&mut self)
        ensures kinds { self.new.kinds ≡ [] }
        ensures labels { self.new.labels ≡ [] }
    {
        self.blocks.clear();
        self.labels.clear();
    }

    /// Opens a block, for a caller that has read its opcode and its type: where one more may open and there is room for it. Whether
    /// it did; else the reader is as it was. It takes no memory.
    #[inline(always)]
    pub fn open_block(&mut self, is_if: bool) -> bool
        ensures opened { result ≡ true
            → (length self.old.kinds < depth_limit) × (self.new.kinds ≡ is_if ∷ self.old.kinds)
            × (self.new.labels ≡ self.old.labels) }
        ensures left { result ≡ false → self.new ≡ self.old }
    {
        if self.blocks.len() < MAX_DEPTH && self.blocks.len() < self.blocks.capacity() {
            self.blocks.push_reserved(is_if);
            return true;
        }
        false
    }

    /// Closes the innermost block, for a caller that has read an `end`. Whether there was one; else the reader is as it was.
    #[inline(always)]
    pub fn close_block(&mut self) -> bool
        ensures closed { result ≡ true
            → (after Close self.old.kinds ≡ Some self.new.kinds)
            × (self.new.labels ≡ self.old.labels) }
        ensures none { result ≡ false → self.old.kinds ≡ [] }
        ensures left { result ≡ false → self.new ≡ self.old }
    {
        self.blocks.pop().is_some()
    }

    /// Begins the else branch of the innermost block, for a caller that has read an `else`: where that block is an `if` in which none
    /// came yet. Whether it is; else the reader is as it was. It takes no memory.
    #[inline(always)]
    pub fn part_block(&mut self) -> bool
        ensures may { result ≡ true → may_else self.old.kinds ≡ true }
        ensures parted { result ≡ true
            → (after (Otherwise 0) self.old.kinds ≡ Some self.new.kinds)
            × (self.new.labels ≡ self.old.labels) }
        ensures none { result ≡ false → may_else self.old.kinds ≡ false }
        ensures left { result ≡ false → self.new ≡ self.old }
    {
        let Some(is_if) = self.blocks.pop() else {
            return false;
        };
        self.blocks.push_reserved(false);
        is_if
    }

    /// The labels of a `br_table` that was read last: those of its token lie in them, as in the pool of a body. They are told of up
    /// to the next call of [`next`](TokenReader::next), which may forget them, whatever token it reads.
    #[inline(always)]
    pub fn labels(&self) -> &[u32]
        ensures { result.now ≡ self.now.labels }
    {
        &self.labels
    }

    // How many blocks are open.
    #[inline(always)]
    pub(crate) fn depth(&self) -> usize
        ensures { result ≡ length self.now.kinds }
    {
        self.blocks.len()
    }

    // The innermost open blocks, so many at most, the innermost last: of each, whether an `else` may still come.
    #[inline(always)]
    pub(crate) fn innermost(&self, most: usize) -> &[bool]
        ensures few { (length result.now ≤ most) × (length result.now ≤ length self.now.kinds) }
        ensures innermost { reverse result.now ≡ take (length result.now) self.now.kinds }
    {
        &self.blocks[self.blocks.len().saturating_sub(most)..]
    }

    // Closes so many blocks.
    #[inline(always)]
    pub(crate) fn close_blocks(&mut self, count: usize)
        requires { count ≤ length self.old.kinds }
        ensures { self.new.kinds ≡ drop count self.old.kinds }
    {
        self.blocks.truncate(self.blocks.len() - count);
    }

    // The type of a block that opens here, behind its opcode, which stands at `at`.
    #[tactic(auto, unfolding(crate::specs::Reading::type_here))]
    #[inline(always)]
    pub(crate) fn opening(
        &self,
        profile: Profile,
        at: u32,
        cursor: &mut Cursor<'_>,
    ) -> Result<BlockType, ReadFault>
        ensures { Parses (λ x. x)
            (type_here profile self.now.kinds (record { kind = TooDeep; at = at })) cursor.old
            result cursor.new }
    {
        if self.blocks.len() < MAX_DEPTH {
            block_type(profile, cursor)
        } else {
            Err(ReadFault {
                kind: ReadKind::TooDeep,
                at,
            })
        }
    }

    // A block opens.
    #[inline(always)]
    pub(crate) fn open(&mut self, is_if: bool) -> Result<(), ReadFault>
        ensures opened { OnOk result (Opens is_if self.old self.new) }
        ensures fault { IfErr result (λ e. e ≡ no_memory) }
    {
        if self.blocks.len() < self.blocks.capacity() {
            self.blocks.push_reserved(is_if);
            return Ok(());
        }
        self.open_growing(is_if)?;
        Ok(())
    }

    /// Makes room for so many open blocks, behind those that are open.
    pub(crate) fn make_room(&mut self, blocks: usize) -> Result<(), ReadFault>
        ensures { IfErr result (λ e. e ≡ no_memory) }
    {
        self.blocks.reserve(blocks)?;
        Ok(())
    }

    #[cold]
    #[inline(never)]
    fn open_growing(&mut self, is_if: bool) -> Result<(), ReadFault>
        ensures opened { OnOk result (Opens is_if self.old self.new) }
        ensures fault { IfErr result (λ e. e ≡ no_memory) }
    {
        self.blocks.reserve(FIRST_BLOCKS)?;
        self.blocks.push_reserved(is_if);
        Ok(())
    }

    // An end: of the innermost block, or of the expression.
    #[inline(always)]
    pub(crate) fn close(&mut self) -> Option<Token>
        ensures { Closes result self.old self.new }
    {
        match self.blocks.pop() {
            Some(_) => Some(Token::End),
            None => None,
        }
    }

    // An else, whose opcode stands at `at`.
    #[inline(always)]
    pub(crate) fn other(&mut self, at: u32) -> Result<Token, ReadFault>
        ensures { MatchResult result (λ t. StartsElse self.old self.new t)
            (λ e. FailsAs e e.kind
            (if may_else self.old.kinds then Ok self.old.kinds
            else Err (record { kind = UnknownOpcode; at = at }))) }
    {
        if let Some(true) = self.blocks.pop() {
            self.blocks.push(false)?;
            return Ok(Token::Else { skip: 0 });
        }
        Err(ReadFault {
            kind: ReadKind::UnknownOpcode,
            at,
        })
    }

    // A `br_table` behind its opcode. Its labels are those of the reader.
    #[tactic(auto, unfolding(crate::specs::Reading::plain_at, crate::specs::Reading::behind_form, crate::specs::Instructions::form_of, crate::specs::Reading::labels_at, crate::specs::Vectors::vector_at))]
    #[inline(always)]
    fn table(&mut self, cursor: &mut Cursor<'_>) -> Result<Token, ReadFault>
        ensures read { (profile : Profile) (e : ReadFault)
            → Parses (λ x. told self.new.labels x) (tok_at (plain_at profile e 0x0E)) cursor.old
            result cursor.new }
        ensures within { IfOk result (IsWithin (length self.new.labels)) }
        ensures kinds { IfOk result (λ _. self.new.kinds ≡ self.old.kinds) }
    {
        let len = cursor.u32()?;
        self.labels.clear();
        labels_into(&mut self.labels, len, cursor)?;
        let other = cursor.u32()?;
        Ok(Token::BrTable {
            start: 0,
            len,
            other,
        })
    }

    // A token behind its opcode, which stands at `at`.
    #[tactic(auto, unfolding(crate::specs::Reading::behind_at))]
    #[inline(always)]
    fn finish_token(
        &mut self,
        profile: Profile,
        opcode: u8,
        at: u32,
        cursor: &mut Cursor<'_>,
    ) -> Result<Option<Token>, ReadFault>
        ensures { MatchResult result
            (λ t. IsNext (behind_at profile self.old.kinds at opcode cursor.old.end cursor.old.rest)
            self.old self.new cursor.old.end cursor.new t)
            (λ e. FailsAs e e.kind
            (behind_at profile self.old.kinds at opcode cursor.old.end cursor.old.rest)) }
    {
        match opcode {
            opcode::END => Ok(self.close()),
            opcode::ELSE => Ok(Some(self.other(at)?)),
            opcode::BLOCK => {
                let ty = self.opening(profile, at, cursor)?;
                self.open(false)?;
                Ok(Some(Token::Block { ty, skip: 0 }))
            }
            opcode::LOOP => {
                let ty = self.opening(profile, at, cursor)?;
                self.open(false)?;
                Ok(Some(Token::Loop { ty, skip: 0 }))
            }
            opcode::IF => {
                let ty = self.opening(profile, at, cursor)?;
                self.open(true)?;
                Ok(Some(Token::If { ty, skip: 0 }))
            }
            opcode::BR_TABLE => Ok(Some(self.table(cursor)?)),
            _ => Ok(Some(simple_of(profile, opcode, at, cursor)?)),
        }
    }

    // The next token, as `next` reads it. After a refusal the cursor stands anywhere.
    #[inline(always)]
    fn take(
        &mut self,
        profile: Profile,
        cursor: &mut Cursor<'_>,
    ) -> Result<Option<Token>, ReadFault>
        ensures exact { MatchResult result
            (λ t. NextRead profile self.old self.new cursor.old cursor.new t)
            (λ e. FailsAs e e.kind
            (token_at profile self.old.kinds cursor.old.end cursor.old.rest)) }
    {
        let at = cursor.at();
        let opcode = cursor.byte()?;
        self.finish_token(profile, opcode, at, cursor)
    }

    /// The next token of the expression, or none where its end is read: the `end` that closes no block.
    ///
    /// A token stands for itself alone: the distance of a block to its end (`skip`) is 0, an `else` is told of even where its branch
    /// is empty, and the labels of a `br_table` are those that [`labels`](TokenReader::labels) gives before the next call. The
    /// cursor moves past the token. Behind the end the reader stands anywhere, until it begins anew.
    ///
    /// # Errors
    /// The first fault of the token from left to right, or `Memory` at 0 where a growth was refused. The cursor is as it was, and
    /// the reader stands anywhere, until it begins anew.
    #[inline(always)]
    pub fn next(
        &mut self,
        profile: Profile,
        cursor: &mut Cursor<'_>,
    ) -> Result<Option<Token>, ReadFault>
        ensures exact { MatchResult result
            (λ t. NextRead profile self.old self.new cursor.old cursor.new t)
            (λ e. FailsAs e e.kind
            (token_at profile self.old.kinds cursor.old.end cursor.old.rest)) }
        ensures left { IfErr result (λ e. cursor.new ≡ cursor.old) }
        ensures fault { IfErr result (λ e. StandsOrMemory cursor.old e) }
    {
        let before = cursor.ahead();
        match self.take(profile, cursor) {
            Ok(token) => Ok(token),
            Err(fault) => {
                *cursor = before;
                Err(fault)
            }
        }
    }
}

// The local groups, as `next_groups` reads them. After a refusal the cursor stands anywhere.
#[tactic(auto, unfolding(crate::specs::TokenReading::local_groups_at))]
fn take_groups(groups: &mut Vec<LocalGroup>, cursor: &mut Cursor<'_>) -> Result<(), ReadFault>
    ensures exact { MatchResult result
        (λ _. (local_groups_at cursor.old.end cursor.old.rest
        ≡ Ok (groups.new.items, cursor.new.rest))
        × (cursor.new.end ≡ cursor.old.end))
        (λ e. FailsAs e e.kind (local_groups_at cursor.old.end cursor.old.rest)) }
{
    let count = cursor.u32()?;
    groups_of(groups, count, cursor)
}

/// Reads the local groups of a body, at the front of what the cursor has left (5.5.13), into a room, and moves past them. What
/// was in the room before is forgotten. They are the groups of the one front that spells any.
///
/// # Errors
/// The first fault from left to right, as [`TooManyLocals`](ReadKind::TooManyLocals) where the groups declare 2^32 locals or
/// more, or `Memory` at 0 where a growth was refused. The cursor is as it was, and the room holds anything.
pub fn next_groups(groups: &mut Vec<LocalGroup>, cursor: &mut Cursor<'_>) -> Result<(), ReadFault>
    ensures exact { MatchResult result
        (λ _. (local_groups_at cursor.old.end cursor.old.rest
        ≡ Ok (groups.new.items, cursor.new.rest))
        × (cursor.new.end ≡ cursor.old.end))
        (λ e. FailsAs e e.kind (local_groups_at cursor.old.end cursor.old.rest)) }
    ensures only { TakesOnly (λ _. groups.new.items) SpellsGroups cursor.old result cursor.new }
    ensures range { IfOk result (λ _. AreGroups groups.new.items) }
    ensures left { IfErr result (λ e. cursor.new ≡ cursor.old) }
    ensures fault { IfErr result (λ e. StandsOrMemory cursor.old e) }
{
    // The proof asks what this says: each byte is below 256.
    are_bytes(cursor.rest());
    let mut ahead = cursor.ahead();
    take_groups(groups, &mut ahead)?;
    *cursor = ahead;
    Ok(())
}
