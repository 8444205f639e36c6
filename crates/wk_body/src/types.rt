//! Value types, block types and locals, and the rules by which they are read.

ghost use Rattle.std.specs.Prelude.{◌≡◌};
ghost use Rattle.wk_body.specs.ValTypes.{valtype_byte, valtype_of};

/// The rules by which a module is read and judged.
#[derive(Clone, Copy, Debug, PartialEq, Eq)]
pub enum Profile {
    /// WebAssembly 1.0.
    Core,
    /// WebAssembly 1.0 with sign extension and with blocks of any function type.
    Extended,
}

/// A value type (2.3.1, 5.3.1).
#[derive(Clone, Copy, Debug, PartialEq, Eq)]
pub enum ValType {
    I32,
    I64,
    F32,
    F64,
}

impl ValType {
    /// The byte of the type.
    pub fn byte(self) -> u8
        ensures { result ≡ valtype_byte self }
    {
        match self {
            ValType::I32 => 0x7F,
            ValType::I64 => 0x7E,
            ValType::F32 => 0x7D,
            ValType::F64 => 0x7C,
        }
    }

    /// The type of a byte, or nothing where the byte is that of none.
    pub fn from_byte(byte: u8) -> Option<ValType>
        ensures { result ≡ valtype_of byte }
    {
        match byte {
            0x7F => Some(ValType::I32),
            0x7E => Some(ValType::I64),
            0x7D => Some(ValType::F32),
            0x7C => Some(ValType::F64),
            _ => None,
        }
    }
}

/// The type of a block (5.3.2).
#[derive(Clone, Copy, Debug, PartialEq, Eq)]
pub enum BlockType {
    /// No parameters and no results.
    Empty,
    /// No parameters and one result.
    Value(ValType),
    /// The function type of that index. It comes in [`Profile::Extended`] alone.
    Index(u32),
}

/// The two kinds of blocks that have one branch (5.4.1), as the trees of contracts name them.
#[derive(Clone, Copy, Debug, PartialEq, Eq)]
pub enum BlockKind {
    Block,
    Loop,
}

/// `count` locals of one type, one after the other (5.5.13).
#[derive(Clone, Copy, Debug, PartialEq, Eq)]
pub struct LocalGroup {
    pub count: u32,
    pub ty: ValType,
}

const _: () = prove!(size_of::<BlockType>() <= 8);
