//! Loads and stores (2.4.4): their opcodes, names, types and widths.

ghost use Rattle.std.specs.Prelude.{◌≡◌};
ghost use Rattle.wk_body.specs.MemoryOps.{memory_of, memory_opcode, memory_name, memory_type, memory_width, memory_stores};

use crate::opcode;
use crate::types::ValType;

/// A load or a store. Its number is its opcode (5.4.4).
#[derive(Clone, Copy, Debug, PartialEq, Eq)]
pub enum MemoryOp {
    I32Load = 0x28,
    I64Load = 0x29,
    F32Load = 0x2A,
    F64Load = 0x2B,
    I32Load8S = 0x2C,
    I32Load8U = 0x2D,
    I32Load16S = 0x2E,
    I32Load16U = 0x2F,
    I64Load8S = 0x30,
    I64Load8U = 0x31,
    I64Load16S = 0x32,
    I64Load16U = 0x33,
    I64Load32S = 0x34,
    I64Load32U = 0x35,
    I32Store = 0x36,
    I64Store = 0x37,
    F32Store = 0x38,
    F64Store = 0x39,
    I32Store8 = 0x3A,
    I32Store16 = 0x3B,
    I64Store8 = 0x3C,
    I64Store16 = 0x3D,
    I64Store32 = 0x3E,
}

// The loads and stores in the order of their opcodes.
static OPS: [MemoryOp; 23] = [
    MemoryOp::I32Load,
    MemoryOp::I64Load,
    MemoryOp::F32Load,
    MemoryOp::F64Load,
    MemoryOp::I32Load8S,
    MemoryOp::I32Load8U,
    MemoryOp::I32Load16S,
    MemoryOp::I32Load16U,
    MemoryOp::I64Load8S,
    MemoryOp::I64Load8U,
    MemoryOp::I64Load16S,
    MemoryOp::I64Load16U,
    MemoryOp::I64Load32S,
    MemoryOp::I64Load32U,
    MemoryOp::I32Store,
    MemoryOp::I64Store,
    MemoryOp::F32Store,
    MemoryOp::F64Store,
    MemoryOp::I32Store8,
    MemoryOp::I32Store16,
    MemoryOp::I64Store8,
    MemoryOp::I64Store16,
    MemoryOp::I64Store32,
];

impl MemoryOp {
    /// The opcode (5.4.4).
    pub fn opcode(self) -> u8
        ensures { result ≡ memory_opcode self }
    {
        self as u8
    }

    /// The load or store of an opcode.
    #[inline(always)]
    pub fn from_opcode(opcode: u8) -> Option<MemoryOp>
        ensures { result ≡ memory_of opcode }
    {
        if opcode < opcode::FIRST_ACCESS {
            return None;
        }
        let ops: &[MemoryOp] = &OPS;
        ops.get(usize::from(opcode - opcode::FIRST_ACCESS)).copied()
    }

    /// Whether it is a store.
    #[inline(always)]
    pub fn is_store(self) -> bool
        ensures { result ≡ memory_stores self }
    {
        self.opcode() >= opcode::FIRST_STORE
    }

    /// The type of the value that is loaded or stored (3.3.4).
    #[inline(always)]
    pub fn ty(self) -> ValType
        ensures { result ≡ memory_type self }
    {
        use ValType::{F32, F64, I32, I64};
        match self {
            MemoryOp::I32Load
            | MemoryOp::I32Load8S
            | MemoryOp::I32Load8U
            | MemoryOp::I32Load16S
            | MemoryOp::I32Load16U
            | MemoryOp::I32Store
            | MemoryOp::I32Store8
            | MemoryOp::I32Store16 => I32,
            MemoryOp::I64Load
            | MemoryOp::I64Load8S
            | MemoryOp::I64Load8U
            | MemoryOp::I64Load16S
            | MemoryOp::I64Load16U
            | MemoryOp::I64Load32S
            | MemoryOp::I64Load32U
            | MemoryOp::I64Store
            | MemoryOp::I64Store8
            | MemoryOp::I64Store16
            | MemoryOp::I64Store32 => I64,
            MemoryOp::F32Load | MemoryOp::F32Store => F32,
            MemoryOp::F64Load | MemoryOp::F64Store => F64,
        }
    }

    /// How many bytes of memory it reads or writes: 1, 2, 4 or 8 (3.3.4).
    #[inline(always)]
    pub fn width(self) -> u32
        ensures { result ≡ memory_width self }
    {
        match self {
            MemoryOp::I32Load8S
            | MemoryOp::I32Load8U
            | MemoryOp::I64Load8S
            | MemoryOp::I64Load8U
            | MemoryOp::I32Store8
            | MemoryOp::I64Store8 => 1,
            MemoryOp::I32Load16S
            | MemoryOp::I32Load16U
            | MemoryOp::I64Load16S
            | MemoryOp::I64Load16U
            | MemoryOp::I32Store16
            | MemoryOp::I64Store16 => 2,
            MemoryOp::I32Load
            | MemoryOp::F32Load
            | MemoryOp::I64Load32S
            | MemoryOp::I64Load32U
            | MemoryOp::I32Store
            | MemoryOp::F32Store
            | MemoryOp::I64Store32 => 4,
            MemoryOp::I64Load | MemoryOp::F64Load | MemoryOp::I64Store | MemoryOp::F64Store => 8,
        }
    }

    /// The name in the text format (6.5.5).
    pub fn name(self) -> &'static str
        ensures { result.now ≡ memory_name self }
    {
        match self {
            MemoryOp::I32Load => "i32.load",
            MemoryOp::I64Load => "i64.load",
            MemoryOp::F32Load => "f32.load",
            MemoryOp::F64Load => "f64.load",
            MemoryOp::I32Load8S => "i32.load8_s",
            MemoryOp::I32Load8U => "i32.load8_u",
            MemoryOp::I32Load16S => "i32.load16_s",
            MemoryOp::I32Load16U => "i32.load16_u",
            MemoryOp::I64Load8S => "i64.load8_s",
            MemoryOp::I64Load8U => "i64.load8_u",
            MemoryOp::I64Load16S => "i64.load16_s",
            MemoryOp::I64Load16U => "i64.load16_u",
            MemoryOp::I64Load32S => "i64.load32_s",
            MemoryOp::I64Load32U => "i64.load32_u",
            MemoryOp::I32Store => "i32.store",
            MemoryOp::I64Store => "i64.store",
            MemoryOp::F32Store => "f32.store",
            MemoryOp::F64Store => "f64.store",
            MemoryOp::I32Store8 => "i32.store8",
            MemoryOp::I32Store16 => "i32.store16",
            MemoryOp::I64Store8 => "i64.store8",
            MemoryOp::I64Store16 => "i64.store16",
            MemoryOp::I64Store32 => "i64.store32",
        }
    }
}
