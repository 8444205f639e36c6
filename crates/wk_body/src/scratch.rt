//! Tokens that are put together from left to right.

ghost use Rattle.std.specs.Prelude.{◌≡◌, ◌+◌, ◌<◌, ◌≤◌, ◌^◌, ◌++◌, ◌∷◌, [], true, length, set, slice_index_or, IfOk, OnOk};
ghost use Rattle.wk_body.specs.Tree.{Open, OpenIf, Otherwise};
ghost use Rattle.wk_body.specs.Reading.{may_else};
ghost use Rattle.wk_body.specs.Kept.{told, skipping, ended, else_ended, IsWithin, IsKept, tree_kept};
ghost use Rattle.wk_body.specs.Building.{Good, Adds, AddsEnd, Closes, GoodWith, IsSimple, Labelled, toks_of, kinds_of, size_of};

use crate::expr::Expr;
use crate::token::Token;
use crate::token_reader::TokenReader;
use crate::types::{BlockKind, BlockType};
use std::alloc::Global;
use wk_bytes::OutOfMemory;

/// A block that is open, and where its tokens stand.
#[derive(Clone, Copy, Debug)]
pub(crate) enum Opened {
    Block(u32),
    Then(u32),
    Else { opened: u32, other: u32 },
}

/// Room in which bodies and expressions are read, one after the other, before each is copied to a room of its own size, or in which
/// codes are written again.
///
/// What it holds of one read is forgotten by the next; only its memory stays. A call that reads many bodies is given one of these and grows it once.
#[derive(Debug, Drop)]
pub struct Scratch {
    pub(crate) tokens: Vec<Token>,
    pub(crate) labels: Vec<u32>,
    pub(crate) blocks: Vec<Opened>,
    // where a code is written again while it is read
    pub(crate) reader: TokenReader,
    pub(crate) written: Vec<u8>,
}

// The token with another distance to its end.
fn with_skip(token: Token, n: u32) -> Token
    ensures { result ≡ skipping token n }
{
    match token {
        Token::Block { ty, .. } => Token::Block { ty, skip: n },
        Token::Loop { ty, .. } => Token::Loop { ty, skip: n },
        Token::If { ty, .. } => Token::If { ty, skip: n },
        Token::Else { .. } => Token::Else { skip: n },
        other => other,
    }
}

// Sets the distance of the token at a place to its end.
fn set_skip(tokens: &mut Vec<Token>, place: usize, n: u32)
    requires { place < length tokens.old.items }
    ensures { tokens.new.items
        ≡ set tokens.old.items place
        (skipping (slice_index_or tokens.old.items place Token.End) n) }
{
    let token = with_skip(tokens[place], n);
    tokens[place] = token;
}

// Puts an end behind the tokens, to which the token at `place` leads.
fn end_at(tokens: &mut Vec<Token>, place: u32) -> Result<(), OutOfMemory>
    requires inside { place < length tokens.old.items }
    requires room { length tokens.old.items < 2 ^ 32 }
    ensures { OnOk result (tokens.new.items ≡ ended tokens.old.items place) }
{
    let inside = tokens.len() as u32 - place - 1;
    set_skip(tokens, place as usize, inside);
    tokens.push(Token::End)?;
    Ok(())
}

// Ends an else branch, which goes where it is empty.
fn end_else(tokens: &mut Vec<Token>, other: u32)
    requires inside { other < length tokens.old.items }
    requires room { length tokens.old.items < 2 ^ 32 }
    ensures { tokens.new.items ≡ else_ended tokens.old.items other }
{
    let inside = tokens.len() as u32 - other - 1;
    if inside == 0 {
        tokens.truncate(other as usize);
    } else {
        set_skip(tokens, other as usize, inside);
    }
}

impl Scratch {
    /// An empty room: it holds no token and no label, and no block is open. It takes no memory yet.
    pub fn new(alloc: Global) -> Scratch
        ensures toks { toks_of result ≡ [] }
        ensures kinds { kinds_of result ≡ [] }
        ensures size { size_of result ≡ 0 }
    {
        Scratch {
            tokens: Vec::new(alloc),
            labels: Vec::new(alloc),
            blocks: Vec::new(alloc),
            reader: TokenReader::new(alloc),
            written: Vec::new(alloc),
        }
    }

    // Forgets what was read.
    pub(crate) fn clear(&mut self)
        ensures good { Good self.new }
        ensures toks { toks_of self.new ≡ [] }
        ensures kinds { kinds_of self.new ≡ [] }
        ensures size { size_of self.new ≡ 0 }
    {
        self.tokens.clear();
        self.labels.clear();
        self.blocks.clear();
    }

    // An instruction that holds no others.
    pub(crate) fn push(&mut self, token: Token) -> Result<(), OutOfMemory>
        requires good { Good self.old }
        requires simple { IsSimple (told self.old.labels.items token) }
        requires within { IsWithin (length self.old.labels.items) token }
        ensures { OnOk result (Adds self.old self.new (told self.old.labels.items token)) }
    {
        self.tokens.push(token)?;
        Ok(())
    }

    pub(crate) fn open_block(&mut self, kind: BlockKind, ty: BlockType) -> Result<(), OutOfMemory>
        requires good { Good self.old }
        requires room { size_of self.old < 2 ^ 31 }
        ensures { OnOk result (Adds self.old self.new (Open kind ty 0)) }
    {
        let place = self.tokens.len() as u32;
        self.tokens.push(match kind {
            BlockKind::Block => Token::Block { ty, skip: 0 },
            BlockKind::Loop => Token::Loop { ty, skip: 0 },
        })?;
        self.blocks.push(Opened::Block(place))?;
        Ok(())
    }

    pub(crate) fn open_if(&mut self, ty: BlockType) -> Result<(), OutOfMemory>
        requires good { Good self.old }
        requires room { size_of self.old < 2 ^ 31 }
        ensures { OnOk result (Adds self.old self.new (OpenIf ty 0)) }
    {
        let place = self.tokens.len() as u32;
        self.tokens.push(Token::If { ty, skip: 0 })?;
        self.blocks.push(Opened::Then(place))?;
        Ok(())
    }

    // Whether an else may come here.
    pub(crate) fn may_else(&self) -> bool
        ensures { result ≡ may_else (kinds_of self.now) }
    {
        matches!(self.blocks.last(), Some(Opened::Then(_)))
    }

    pub(crate) fn start_else(&mut self) -> Result<(), OutOfMemory>
        requires good { Good self.old }
        requires room { size_of self.old < 2 ^ 31 }
        requires may { may_else (kinds_of self.old) ≡ true }
        ensures { OnOk result (Adds self.old self.new (Otherwise 0)) }
    {
        let place = self.tokens.len() as u32;
        let Some(Opened::Then(opened)) = self.blocks.pop() else {
            unreachable!()
        };
        self.tokens.push(Token::Else { skip: 0 })?;
        self.blocks.push(Opened::Else {
            opened,
            other: place,
        })?;
        Ok(())
    }

    fn close_block(&mut self, innermost: Opened) -> Result<(), OutOfMemory>
        requires good { GoodWith self.old innermost }
        requires room { size_of self.old < 2 ^ 31 }
        ensures { OnOk result (AddsEnd self.old self.new) }
    {
        match innermost {
            Opened::Block(place) => end_at(&mut self.tokens, place),
            Opened::Then(place) => end_at(&mut self.tokens, place),
            Opened::Else { opened, other } => {
                end_else(&mut self.tokens, other);
                end_at(&mut self.tokens, opened)
            }
        }
    }

    // An end. Whether it is the one that closes no block.
    pub(crate) fn close(&mut self) -> Result<bool, OutOfMemory>
        requires good { Good self.old }
        requires room { size_of self.old < 2 ^ 31 }
        ensures { IfOk result (λ last. Closes last self.old self.new) }
    {
        match self.blocks.pop() {
            Some(innermost) => {
                self.close_block(innermost)?;
                Ok(false)
            }
            None => {
                self.tokens.push(Token::End)?;
                Ok(true)
            }
        }
    }

    // A label for the next token that has labels.
    pub(crate) fn add_label(&mut self, label: u32) -> Result<(), OutOfMemory>
        requires { Good self.old }
        ensures { OnOk result (Labelled self.old self.new (label ∷ [])) }
    {
        self.labels.push(label)?;
        Ok(())
    }

    // How many blocks are open.
    pub(crate) fn depth(&self) -> usize
        ensures { result ≡ length (kinds_of self.now) }
    {
        self.blocks.len()
    }

    // A copy of the instructions that were put together, after their last end.
    pub(crate) fn copied(&self, alloc: Global) -> Result<Expr, OutOfMemory>
        requires { IsKept self.now.labels.items self.now.tokens.items }
        ensures { IfOk result (λ e. e ≡ tree_kept self.now.labels.items self.now.tokens.items) }
    {
        Ok(Expr::of(alloc, &self.tokens, &self.labels)?)
    }
}
