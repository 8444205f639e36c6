//! The operand stack and the control frames.

ghost use Rattle.std.specs.Prelude.{◌≡◌, ◌∷◌, [], ◌++◌, true, false, Ok, OnOk, OnErr, IsTrue};
ghost use Rattle.wk_typing.specs.Own.{popped_any, is_empty};
ghost use Rattle.wk_typing.specs.Moves.{pushed_on, ctrl_pushed, ctrl_popped, unreachable_on, else_begun, Pops, popped_on, body_of, own_is_empty, own_is_spent, unop_on, binop_on, head_at};

use crate::fault::FaultKind;
use crate::operand::Operand;
use std::alloc::Global;
use std::marker::Model;
use wk_bytes::OutOfMemory;
use wk_module::BlockType;

/// What opened a block.
#[derive(Clone, Copy, Debug, PartialEq, Eq)]
pub(crate) enum FrameKind {
    /// None: it is the body, or the expression, itself.
    Body,
    /// A `block`.
    Block,
    /// A `loop`.
    Loop,
    /// An `if`, whose first branch is open.
    If,
    /// The `else` of an `if`.
    Else,
}

/// A control frame: an open block.
#[derive(Clone, Copy, Debug, PartialEq, Eq)]
pub(crate) struct Frame {
    /// What opened it.
    pub(crate) kind: FrameKind,
    /// Its type.
    pub(crate) block: BlockType,
    /// Whether it is behind an instruction that does not go on.
    pub(crate) unreachable: bool,
    /// The number of operands below its own.
    pub(crate) height: usize,
}

// For how many operands room is made at first, so that short bodies ask for memory once.
const FIRST_OPERANDS: usize = 64;

// For how many frames of outer blocks room is made at first, likewise.
const FIRST_FRAMES: usize = 16;

// A frame at the end of the others, where there may be no room.
#[cold]
#[inline(never)]
fn push_frame(frames: &mut Vec<Frame>, frame: Frame) -> Result<(), OutOfMemory>
    ensures ok { OnOk result (frames.new.items ≡ frames.old.items ++ frame ∷ []) }
    ensures err { OnErr result (frames.new.items ≡ frames.old.items) }
{
    frames.reserve(FIRST_FRAMES)?;
    frames.push_reserved(frame);
    Ok(())
}

/// The open blocks, each with its own stack, which a contract sees: one operand stack of all of them, cut by control frames.
#[derive(Debug, Drop)]
pub(crate) struct Stacks {
    operands: Vec<Operand>,
    inner: Frame,
    outer: Vec<Frame>,
}

impl Model for Stacks {
    ghost use Rattle.std.specs.Prelude.{List, reverse, ◌∷◌};
    ghost use Rattle.wk_typing.specs.Levels.{Blocks};

    ghost Value = { Blocks };

    ghost use Rattle.wk_typing.specs.Cuts.{blocks_of, Cuts};

    ghost view = { λ s. blocks_of s.inner (reverse s.outer.items) (reverse s.operands.items) };

    ghost invariant = { λ s. Cuts (s.inner ∷ reverse s.outer.items) (reverse s.operands.items) };
}

impl Stacks {
    /// The stacks at the beginning of an expression of no type, without room yet.
    pub(crate) fn new(alloc: Global) -> Self {
        Stacks {
            operands: Vec::new(alloc),
            inner: Frame {
                kind: FrameKind::Body,
                block: BlockType::Empty,
                unreachable: false,
                height: 0,
            },
            outer: Vec::new(alloc),
        }
    }

    /// Begins a body, or an expression, with this type. The room stays.
    pub(crate) fn begin(&mut self, block: BlockType)
        ensures { self.new ≡ body_of block }
    {
        self.operands.clear();
        self.outer.clear();
        self.inner = Frame {
            kind: FrameKind::Body,
            block,
            unreachable: false,
            height: 0,
        };
    }

    // Pushes an operand where there may be no room.
    #[cold]
    #[inline(never)]
    fn push_growing(&mut self, x: Operand) -> Result<(), OutOfMemory>
        ensures { OnOk result (self.new ≡ pushed_on x self.old) }
    {
        self.operands.reserve(FIRST_OPERANDS)?;
        self.operands.push_reserved(x);
        Ok(())
    }

    /// Pushes an operand.
    #[inline(always)]
    pub(crate) fn push_val(&mut self, x: Operand) -> Result<(), OutOfMemory>
        ensures { OnOk result (self.new ≡ pushed_on x self.old) }
    {
        if self.operands.len() < self.operands.capacity() {
            self.operands.push_reserved(x);
            return Ok(());
        }
        self.push_growing(x)
    }

    /// Pops any operand.
    #[inline(always)]
    pub(crate) fn pop_val(&mut self) -> Result<Operand, FaultKind>
        ensures { Pops (popped_on popped_any self.old) result self.new }
    {
        if self.inner.height < self.operands.len() {
            let Some(x) = self.operands.pop() else {
                unreachable!()
            };
            return Ok(x);
        }
        if self.inner.unreachable {
            Ok(Operand::any())
        } else {
            Err(FaultKind::StackUnderflow)
        }
    }

    /// Puts an operand in the place of the innermost block's last one, where there is one that fits: a pop and a push, without a
    /// look for room between them. Else nothing is done.
    #[inline(always)]
    pub(crate) fn unop_top(&mut self, want: Operand, given: Operand) -> bool
        ensures applied { result ≡ true → unop_on want given self.old ≡ Ok self.new }
        ensures left { result ≡ false → self.new ≡ self.old }
    {
        let len = self.operands.len();
        if self.inner.height >= len || !want.fits(self.operands[len - 1]) {
            return false;
        }
        self.operands[len - 1] = given;
        true
    }

    /// Puts an operand in the place of the innermost block's last two, where there are two that fit. Else nothing is done.
    #[inline(always)]
    pub(crate) fn binop_top(&mut self, want: Operand, given: Operand) -> bool
        ensures applied { result ≡ true → binop_on want given self.old ≡ Ok self.new }
        ensures left { result ≡ false → self.new ≡ self.old }
    {
        let len = self.operands.len();
        if len - self.inner.height < 2
            || !want.fits(self.operands[len - 1])
            || !want.fits(self.operands[len - 2])
        {
            return false;
        }
        self.operands.truncate(len - 1);
        self.operands[len - 2] = given;
        true
    }

    /// Whether the innermost block's own stack is empty.
    #[inline(always)]
    pub(crate) fn is_clear(&self) -> bool
        ensures { result ≡ own_is_empty self.now }
    {
        self.inner.height == self.operands.len()
    }

    /// Whether the innermost block is unreachable and has no operands: each pop then gives any operand, and changes nothing.
    #[inline(always)]
    pub(crate) fn is_spent(&self) -> bool
        ensures { result ≡ own_is_spent self.now }
    {
        self.inner.unreachable && self.is_clear()
    }

    /// Makes the innermost block unreachable.
    #[inline(always)]
    pub(crate) fn unreachable(&mut self)
        ensures { self.new ≡ unreachable_on self.old }
    {
        self.operands.truncate(self.inner.height);
        self.inner.unreachable = true;
    }

    /// Opens a block.
    #[inline(always)]
    pub(crate) fn push_ctrl(&mut self, kind: FrameKind, block: BlockType) -> Result<(), OutOfMemory>
        ensures { OnOk result (self.new ≡ ctrl_pushed kind block self.old) }
    {
        let height = self.operands.len();
        if self.outer.len() < self.outer.capacity() {
            self.outer.push_reserved(self.inner);
        } else {
            push_frame(&mut self.outer, self.inner)?;
        }
        self.inner = Frame {
            kind,
            block,
            unreachable: false,
            height,
        };
        Ok(())
    }

    /// Closes the innermost block, whose own stack is empty, unless it is the only one.
    #[inline(always)]
    pub(crate) fn pop_ctrl(&mut self)
        requires { IsTrue (own_is_empty self.old) }
        ensures { self.new ≡ ctrl_popped self.old }
    {
        if let Some(frame) = self.outer.pop() {
            self.inner = frame;
        }
    }

    /// Begins an else branch in place of the innermost block, whose own stack is empty.
    #[inline(always)]
    pub(crate) fn begin_else(&mut self)
        requires { IsTrue (own_is_empty self.old) }
        ensures { self.new ≡ else_begun self.old }
    {
        self.inner.kind = FrameKind::Else;
        self.inner.unreachable = false;
    }

    /// Whether the innermost block is the only one.
    #[inline(always)]
    pub(crate) fn is_outermost(&self) -> bool
        ensures { result ≡ is_empty self.now.outer }
    {
        self.outer.is_empty()
    }

    /// What opened the innermost block.
    #[inline(always)]
    pub(crate) fn frame_kind(&self) -> FrameKind
        ensures { result ≡ self.now.inner.kind }
    {
        self.inner.kind
    }

    /// The type of the innermost block.
    #[inline(always)]
    pub(crate) fn block(&self) -> BlockType
        ensures { result ≡ self.now.inner.block }
    {
        self.inner.block
    }

    /// What opened the block at a depth, and its type.
    #[inline(always)]
    pub(crate) fn head(&self, depth: usize) -> Option<(FrameKind, BlockType)>
        ensures { result ≡ head_at self.now depth }
    {
        if depth == 0 {
            return Some((self.inner.kind, self.inner.block));
        }
        if depth > self.outer.len() {
            return None;
        }
        let frame = self.outer[self.outer.len() - depth];
        Some((frame.kind, frame.block))
    }
}
