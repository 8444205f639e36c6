//! A token in two parts: its opcode, and what stands behind it. Who writes tokens, measures or lists them goes by the few forms of
//! operands, and not by each instruction.

ghost use Rattle.std.specs.Prelude.{◌≡◌, ◌∷◌, length};
ghost use Rattle.wk_body.specs.Kept.{told, IsWithin};
ghost use Rattle.wk_body.specs.Operands.{tok_opcode, tok_operands, operand_bytes, operands_of, AreCounted};
ghost use Rattle.wk_body.specs.Written.{tok_bytes};

use crate::opcode;
use crate::token::Token;
use crate::types::BlockType;

/// What stands behind the opcode of a token (5.4): the immediates of an instruction, or the type of a block.
#[derive(Clone, Copy, Debug)]
pub enum Operands<'a> {
    Nothing,
    /// A byte that is 00.
    Reserved,
    /// A label or an index.
    Index(u32),
    /// An index, and a byte that is 00.
    IndexReserved(u32),
    /// The labels of a `br_table`, and its default label.
    Labels { labels: &'a [u32], other: u32 },
    /// An alignment, which is the exponent as it is stored, and an offset.
    Memarg { align: u32, offset: u32 },
    Signed32(i32),
    Signed64(i64),
    /// The word of a float of 32 bits.
    Word32(u32),
    /// The word of a float of 64 bits.
    Word64(u64),
    /// The type of a block.
    Opening(BlockType),
}

impl Token {
    /// The opcode, and what stands behind it. The labels of a `br_table` lie in the pool that its tokens were lent with.
    #[inline(always)]
    pub fn operands<'a>(&self, labels: &'a [u32]) -> (u8, Operands<'a>)
        requires { IsWithin (length labels.now) self.now }
        ensures opcode { result.0 ≡ tok_opcode (told labels.now self.now) }
        ensures counted { AreCounted result.1 }
        ensures operands { operands_of result.1 ≡ tok_operands (told labels.now self.now) }
        ensures bytes { tok_bytes (told labels.now self.now)
            ≡ result.0 ∷ operand_bytes (operands_of result.1) }
    {
        match *self {
            Token::Unreachable => (opcode::UNREACHABLE, Operands::Nothing),
            Token::Nop => (opcode::NOP, Operands::Nothing),
            Token::Block { ty, .. } => (opcode::BLOCK, Operands::Opening(ty)),
            Token::Loop { ty, .. } => (opcode::LOOP, Operands::Opening(ty)),
            Token::If { ty, .. } => (opcode::IF, Operands::Opening(ty)),
            Token::Else { .. } => (opcode::ELSE, Operands::Nothing),
            Token::End => (opcode::END, Operands::Nothing),
            Token::Br(label) => (opcode::BR, Operands::Index(label)),
            Token::BrIf(label) => (opcode::BR_IF, Operands::Index(label)),
            Token::BrTable { start, len, other } => {
                let start = start as usize;
                let end = start + len as usize;
                let labels = &labels[start..end];
                (opcode::BR_TABLE, Operands::Labels { labels, other })
            }
            Token::Return => (opcode::RETURN, Operands::Nothing),
            Token::Call(x) => (opcode::CALL, Operands::Index(x)),
            Token::CallIndirect(x) => (opcode::CALL_INDIRECT, Operands::IndexReserved(x)),
            Token::Drop => (opcode::DROP, Operands::Nothing),
            Token::Select => (opcode::SELECT, Operands::Nothing),
            Token::LocalGet(x) => (opcode::LOCAL_GET, Operands::Index(x)),
            Token::LocalSet(x) => (opcode::LOCAL_SET, Operands::Index(x)),
            Token::LocalTee(x) => (opcode::LOCAL_TEE, Operands::Index(x)),
            Token::GlobalGet(x) => (opcode::GLOBAL_GET, Operands::Index(x)),
            Token::GlobalSet(x) => (opcode::GLOBAL_SET, Operands::Index(x)),
            Token::Access { op, align, offset } => {
                (op.opcode(), Operands::Memarg { align, offset })
            }
            Token::MemorySize => (opcode::MEMORY_SIZE, Operands::Reserved),
            Token::MemoryGrow => (opcode::MEMORY_GROW, Operands::Reserved),
            Token::I32Const(z) => (opcode::I32_CONST, Operands::Signed32(z)),
            Token::I64Const(z) => (opcode::I64_CONST, Operands::Signed64(z)),
            Token::F32Const(word) => (opcode::F32_CONST, Operands::Word32(word)),
            Token::F64Const(word) => (opcode::F64_CONST, Operands::Word64(word)),
            Token::Numeric(op) => (op.opcode(), Operands::Nothing),
        }
    }
}
