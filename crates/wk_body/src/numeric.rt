//! Numeric instructions (2.4.1): their opcodes, names and types.

ghost use Rattle.std.specs.Prelude.{◌≡◌};
ghost use Rattle.wk_body.specs.declared.numeric.NumericType.TheVariants.{Unary, Binary};
ghost use Rattle.wk_body.specs.Numeric.{numeric_of, numeric_opcode, numeric_type};

use crate::opcode;
use crate::types::ValType;

/// A numeric instruction without immediates. Its number is its opcode (5.4.5).
///
/// The last five, opcodes `C0` to `C4`, belong to [`Profile::Extended`](crate::Profile::Extended) alone.
#[derive(Clone, Copy, Debug, PartialEq, Eq)]
pub enum NumericOp {
    I32Eqz = 0x45,
    I32Eq = 0x46,
    I32Ne = 0x47,
    I32LtS = 0x48,
    I32LtU = 0x49,
    I32GtS = 0x4A,
    I32GtU = 0x4B,
    I32LeS = 0x4C,
    I32LeU = 0x4D,
    I32GeS = 0x4E,
    I32GeU = 0x4F,
    I64Eqz = 0x50,
    I64Eq = 0x51,
    I64Ne = 0x52,
    I64LtS = 0x53,
    I64LtU = 0x54,
    I64GtS = 0x55,
    I64GtU = 0x56,
    I64LeS = 0x57,
    I64LeU = 0x58,
    I64GeS = 0x59,
    I64GeU = 0x5A,
    F32Eq = 0x5B,
    F32Ne = 0x5C,
    F32Lt = 0x5D,
    F32Gt = 0x5E,
    F32Le = 0x5F,
    F32Ge = 0x60,
    F64Eq = 0x61,
    F64Ne = 0x62,
    F64Lt = 0x63,
    F64Gt = 0x64,
    F64Le = 0x65,
    F64Ge = 0x66,
    I32Clz = 0x67,
    I32Ctz = 0x68,
    I32Popcnt = 0x69,
    I32Add = 0x6A,
    I32Sub = 0x6B,
    I32Mul = 0x6C,
    I32DivS = 0x6D,
    I32DivU = 0x6E,
    I32RemS = 0x6F,
    I32RemU = 0x70,
    I32And = 0x71,
    I32Or = 0x72,
    I32Xor = 0x73,
    I32Shl = 0x74,
    I32ShrS = 0x75,
    I32ShrU = 0x76,
    I32Rotl = 0x77,
    I32Rotr = 0x78,
    I64Clz = 0x79,
    I64Ctz = 0x7A,
    I64Popcnt = 0x7B,
    I64Add = 0x7C,
    I64Sub = 0x7D,
    I64Mul = 0x7E,
    I64DivS = 0x7F,
    I64DivU = 0x80,
    I64RemS = 0x81,
    I64RemU = 0x82,
    I64And = 0x83,
    I64Or = 0x84,
    I64Xor = 0x85,
    I64Shl = 0x86,
    I64ShrS = 0x87,
    I64ShrU = 0x88,
    I64Rotl = 0x89,
    I64Rotr = 0x8A,
    F32Abs = 0x8B,
    F32Neg = 0x8C,
    F32Ceil = 0x8D,
    F32Floor = 0x8E,
    F32Trunc = 0x8F,
    F32Nearest = 0x90,
    F32Sqrt = 0x91,
    F32Add = 0x92,
    F32Sub = 0x93,
    F32Mul = 0x94,
    F32Div = 0x95,
    F32Min = 0x96,
    F32Max = 0x97,
    F32Copysign = 0x98,
    F64Abs = 0x99,
    F64Neg = 0x9A,
    F64Ceil = 0x9B,
    F64Floor = 0x9C,
    F64Trunc = 0x9D,
    F64Nearest = 0x9E,
    F64Sqrt = 0x9F,
    F64Add = 0xA0,
    F64Sub = 0xA1,
    F64Mul = 0xA2,
    F64Div = 0xA3,
    F64Min = 0xA4,
    F64Max = 0xA5,
    F64Copysign = 0xA6,
    I32WrapI64 = 0xA7,
    I32TruncF32S = 0xA8,
    I32TruncF32U = 0xA9,
    I32TruncF64S = 0xAA,
    I32TruncF64U = 0xAB,
    I64ExtendI32S = 0xAC,
    I64ExtendI32U = 0xAD,
    I64TruncF32S = 0xAE,
    I64TruncF32U = 0xAF,
    I64TruncF64S = 0xB0,
    I64TruncF64U = 0xB1,
    F32ConvertI32S = 0xB2,
    F32ConvertI32U = 0xB3,
    F32ConvertI64S = 0xB4,
    F32ConvertI64U = 0xB5,
    F32DemoteF64 = 0xB6,
    F64ConvertI32S = 0xB7,
    F64ConvertI32U = 0xB8,
    F64ConvertI64S = 0xB9,
    F64ConvertI64U = 0xBA,
    F64PromoteF32 = 0xBB,
    I32ReinterpretF32 = 0xBC,
    I64ReinterpretF64 = 0xBD,
    F32ReinterpretI32 = 0xBE,
    F64ReinterpretI64 = 0xBF,
    I32Extend8S = 0xC0,
    I32Extend16S = 0xC1,
    I64Extend8S = 0xC2,
    I64Extend16S = 0xC3,
    I64Extend32S = 0xC4,
}

/// The type of a numeric instruction (3.3.1): its operands, which have one type, and its one result.
#[derive(Clone, Copy, Debug, PartialEq, Eq)]
pub enum NumericType {
    Unary { operand: ValType, result: ValType },
    Binary { operand: ValType, result: ValType },
}

impl NumericType {
    #[inline(always)]
    fn unary(operand: ValType, given: ValType) -> NumericType
        ensures { result ≡ Unary operand given }
    {
        NumericType::Unary {
            operand,
            result: given,
        }
    }

    #[inline(always)]
    fn binary(operand: ValType, given: ValType) -> NumericType
        ensures { result ≡ Binary operand given }
    {
        NumericType::Binary {
            operand,
            result: given,
        }
    }
}

// The instructions in the order of their opcodes.
static OPS: [NumericOp; 128] = [
    NumericOp::I32Eqz,
    NumericOp::I32Eq,
    NumericOp::I32Ne,
    NumericOp::I32LtS,
    NumericOp::I32LtU,
    NumericOp::I32GtS,
    NumericOp::I32GtU,
    NumericOp::I32LeS,
    NumericOp::I32LeU,
    NumericOp::I32GeS,
    NumericOp::I32GeU,
    NumericOp::I64Eqz,
    NumericOp::I64Eq,
    NumericOp::I64Ne,
    NumericOp::I64LtS,
    NumericOp::I64LtU,
    NumericOp::I64GtS,
    NumericOp::I64GtU,
    NumericOp::I64LeS,
    NumericOp::I64LeU,
    NumericOp::I64GeS,
    NumericOp::I64GeU,
    NumericOp::F32Eq,
    NumericOp::F32Ne,
    NumericOp::F32Lt,
    NumericOp::F32Gt,
    NumericOp::F32Le,
    NumericOp::F32Ge,
    NumericOp::F64Eq,
    NumericOp::F64Ne,
    NumericOp::F64Lt,
    NumericOp::F64Gt,
    NumericOp::F64Le,
    NumericOp::F64Ge,
    NumericOp::I32Clz,
    NumericOp::I32Ctz,
    NumericOp::I32Popcnt,
    NumericOp::I32Add,
    NumericOp::I32Sub,
    NumericOp::I32Mul,
    NumericOp::I32DivS,
    NumericOp::I32DivU,
    NumericOp::I32RemS,
    NumericOp::I32RemU,
    NumericOp::I32And,
    NumericOp::I32Or,
    NumericOp::I32Xor,
    NumericOp::I32Shl,
    NumericOp::I32ShrS,
    NumericOp::I32ShrU,
    NumericOp::I32Rotl,
    NumericOp::I32Rotr,
    NumericOp::I64Clz,
    NumericOp::I64Ctz,
    NumericOp::I64Popcnt,
    NumericOp::I64Add,
    NumericOp::I64Sub,
    NumericOp::I64Mul,
    NumericOp::I64DivS,
    NumericOp::I64DivU,
    NumericOp::I64RemS,
    NumericOp::I64RemU,
    NumericOp::I64And,
    NumericOp::I64Or,
    NumericOp::I64Xor,
    NumericOp::I64Shl,
    NumericOp::I64ShrS,
    NumericOp::I64ShrU,
    NumericOp::I64Rotl,
    NumericOp::I64Rotr,
    NumericOp::F32Abs,
    NumericOp::F32Neg,
    NumericOp::F32Ceil,
    NumericOp::F32Floor,
    NumericOp::F32Trunc,
    NumericOp::F32Nearest,
    NumericOp::F32Sqrt,
    NumericOp::F32Add,
    NumericOp::F32Sub,
    NumericOp::F32Mul,
    NumericOp::F32Div,
    NumericOp::F32Min,
    NumericOp::F32Max,
    NumericOp::F32Copysign,
    NumericOp::F64Abs,
    NumericOp::F64Neg,
    NumericOp::F64Ceil,
    NumericOp::F64Floor,
    NumericOp::F64Trunc,
    NumericOp::F64Nearest,
    NumericOp::F64Sqrt,
    NumericOp::F64Add,
    NumericOp::F64Sub,
    NumericOp::F64Mul,
    NumericOp::F64Div,
    NumericOp::F64Min,
    NumericOp::F64Max,
    NumericOp::F64Copysign,
    NumericOp::I32WrapI64,
    NumericOp::I32TruncF32S,
    NumericOp::I32TruncF32U,
    NumericOp::I32TruncF64S,
    NumericOp::I32TruncF64U,
    NumericOp::I64ExtendI32S,
    NumericOp::I64ExtendI32U,
    NumericOp::I64TruncF32S,
    NumericOp::I64TruncF32U,
    NumericOp::I64TruncF64S,
    NumericOp::I64TruncF64U,
    NumericOp::F32ConvertI32S,
    NumericOp::F32ConvertI32U,
    NumericOp::F32ConvertI64S,
    NumericOp::F32ConvertI64U,
    NumericOp::F32DemoteF64,
    NumericOp::F64ConvertI32S,
    NumericOp::F64ConvertI32U,
    NumericOp::F64ConvertI64S,
    NumericOp::F64ConvertI64U,
    NumericOp::F64PromoteF32,
    NumericOp::I32ReinterpretF32,
    NumericOp::I64ReinterpretF64,
    NumericOp::F32ReinterpretI32,
    NumericOp::F64ReinterpretI64,
    NumericOp::I32Extend8S,
    NumericOp::I32Extend16S,
    NumericOp::I64Extend8S,
    NumericOp::I64Extend16S,
    NumericOp::I64Extend32S,
];

impl NumericOp {
    /// The opcode (5.4.5).
    #[inline(always)]
    pub fn opcode(self) -> u8
        ensures { result ≡ numeric_opcode self }
    {
        self as u8
    }

    /// The instruction of an opcode, in either profile.
    pub fn from_opcode(opcode: u8) -> Option<NumericOp>
        ensures { result ≡ numeric_of opcode }
    {
        if opcode < opcode::FIRST_NUMERIC {
            return None;
        }
        let ops: &[NumericOp] = &OPS;
        ops.get(usize::from(opcode - opcode::FIRST_NUMERIC))
            .copied()
    }

    /// The type (3.3.1).
    // The rows stand in the order of how often code has them: they are tried one after the other, in line, at each token that
    // is typed.
    #[inline(always)]
    pub fn ty(self) -> NumericType
        ensures { result ≡ numeric_type self }
    {
        use ValType::{F32, F64, I32, I64};
        let opcode = self.opcode();
        // (the two rows that most code has are told apart first; no two rows overlap, so their order says nothing)
        if 0x6A <= opcode && opcode <= 0x78 {
            return NumericType::binary(I32, I32);
        }
        if 0x46 <= opcode && opcode <= 0x4F {
            return NumericType::binary(I32, I32);
        }
        match opcode {
            0x45 => NumericType::unary(I32, I32),
            0x7C..=0x8A => NumericType::binary(I64, I64),
            0x92..=0x98 => NumericType::binary(F32, F32),
            0xA0..=0xA6 => NumericType::binary(F64, F64),
            0x51..=0x5A => NumericType::binary(I64, I32),
            0x5B..=0x60 => NumericType::binary(F32, I32),
            0x61..=0x66 => NumericType::binary(F64, I32),
            0xA7 => NumericType::unary(I64, I32),
            0xAC..=0xAD => NumericType::unary(I32, I64),
            0x50 => NumericType::unary(I64, I32),
            0x67..=0x69 => NumericType::unary(I32, I32),
            0x79..=0x7B => NumericType::unary(I64, I64),
            0x8B..=0x91 => NumericType::unary(F32, F32),
            0x99..=0x9F => NumericType::unary(F64, F64),
            0xA8..=0xA9 => NumericType::unary(F32, I32),
            0xAA..=0xAB => NumericType::unary(F64, I32),
            0xAE..=0xAF => NumericType::unary(F32, I64),
            0xB0..=0xB1 => NumericType::unary(F64, I64),
            0xB2..=0xB3 => NumericType::unary(I32, F32),
            0xB4..=0xB5 => NumericType::unary(I64, F32),
            0xB6 => NumericType::unary(F64, F32),
            0xB7..=0xB8 => NumericType::unary(I32, F64),
            0xB9..=0xBA => NumericType::unary(I64, F64),
            0xBB => NumericType::unary(F32, F64),
            0xBC => NumericType::unary(F32, I32),
            0xBD => NumericType::unary(F64, I64),
            0xBE => NumericType::unary(I32, F32),
            0xBF => NumericType::unary(I64, F64),
            0xC0..=0xC1 => NumericType::unary(I32, I32),
            _ => NumericType::unary(I64, I64),
        }
    }
}
