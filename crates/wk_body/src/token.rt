//! The tokens in which a body is kept: its instructions one after the other, with their `else` and `end`.

ghost use Rattle.std.specs.Prelude.{◌≡◌, []};
ghost use Rattle.wk_body.specs.Kept.{told};
ghost use Rattle.wk_body.specs.Names.{tok_name};

use crate::memory::MemoryOp;
use crate::numeric::NumericOp;
use crate::opcode;
use crate::types::BlockType;

/// One token (2.4, 5.4).
///
/// Labels, indexes, alignments and offsets are those of the binary format; an alignment is the exponent as it is stored.
///
/// Among the tokens of a body or an expression `skip` is how many tokens stand between this one and the `End` that closes it, and
/// an `Else` stands only where its branch holds an instruction. Of a token that a [`TokenReader`](crate::TokenReader) reads, which
/// keeps none, `skip` is 0, and an `Else` is told of wherever it is spelled, so it may stand right before its `End`.
#[derive(Clone, Copy, Debug, Default, PartialEq, Eq)]
pub enum Token {
    #[default]
    Unreachable,
    Nop,
    Block {
        ty: BlockType,
        skip: u32,
    },
    Loop {
        ty: BlockType,
        skip: u32,
    },
    If {
        ty: BlockType,
        skip: u32,
    },
    Else {
        skip: u32,
    },
    End,
    Br(u32),
    BrIf(u32),
    /// Its labels are `len` of the pool beside the tokens, or of the reader's, from `start` on; `other` is the default label.
    BrTable {
        start: u32,
        len: u32,
        other: u32,
    },
    Return,
    Call(u32),
    /// The index of a type.
    CallIndirect(u32),
    Drop,
    Select,
    LocalGet(u32),
    LocalSet(u32),
    LocalTee(u32),
    GlobalGet(u32),
    GlobalSet(u32),
    /// A load or a store.
    Access {
        op: MemoryOp,
        align: u32,
        offset: u32,
    },
    MemorySize,
    MemoryGrow,
    I32Const(i32),
    I64Const(i64),
    /// The word of a float of 32 bits.
    F32Const(u32),
    /// The word of a float of 64 bits.
    F64Const(u64),
    Numeric(NumericOp),
}

const _: () = prove!(size_of::<Token>() <= 16);

impl Token {
    /// The name in the text format (6.5).
    pub fn name(&self) -> &'static str
        ensures { result.now ≡ tok_name (told [] self.now) }
    {
        // Three tests, not arms of one match: with arms the compiler jumps by the token twice. The labels of a `br_table` are not at hand, so
        // it stands apart.
        if let Token::Access { op, .. } = *self {
            return op.name();
        }
        if let Token::Numeric(op) = *self {
            return op.name();
        }
        if let Token::BrTable { .. } = *self {
            return opcode::name(opcode::BR_TABLE);
        }
        opcode::name(self.operands(&[]).0)
    }
}
