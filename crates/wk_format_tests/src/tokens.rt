//! Tokens: read one by one, named and measured; instructions with their opcodes and types.

use crate::bodies::TOKENS;
use std::alloc::Global;
use std::test::Fail;
use wk_body::{
    BlockType, LocalGroup, MemoryOp, NumericOp, NumericType, Profile, Token, TokenReader, ValType,
    next_groups,
};
use wk_bytes::{Cursor, ReadFault, ReadKind};
use wk_samples::bodies::BODY;

const EMPTY: BlockType = BlockType::Empty;

// What comes for a token of a body: it stands for itself alone.
fn alone(token: Token) -> Token {
    match token {
        Token::Block { ty, .. } => Token::Block { ty, skip: 0 },
        Token::Loop { ty, .. } => Token::Loop { ty, skip: 0 },
        Token::If { ty, .. } => Token::If { ty, skip: 0 },
        Token::Else { .. } => Token::Else { skip: 0 },
        _ => token,
    }
}

// Whether the tokens of the body come, and its end, which leaves nothing.
fn hands_out(reader: &mut TokenReader, cursor: &mut Cursor<'_>) -> bool {
    for token in &TOKENS[..TOKENS.len() - 1] {
        if reader.next(Profile::Core, cursor) != Ok(Some(alone(*token))) {
            return false;
        }
    }
    reader.next(Profile::Core, cursor) == Ok(None) && cursor.rest().is_empty()
}

// One reader for a whole body, for code that is cut, and for an end.
fn reads_tokens(alloc: Global) -> bool {
    let mut groups = Vec::new(alloc);
    let mut cursor = Cursor::new(BODY);
    let are_two = next_groups(&mut groups, &mut cursor).is_ok() && groups.len() == 2;
    let mut reader = TokenReader::new(alloc);
    let is_whole = hands_out(&mut reader, &mut cursor);
    are_two && is_whole && reader.labels() == [0, 1, 2].as_slice() && begins_again(&mut reader)
}

fn begins_again(reader: &mut TokenReader) -> bool {
    reader.begin();
    let mut cut = Cursor::new(b"\x0e\x01\x08\x09\x03\x40");
    let is_table = reader.next(Profile::Core, &mut cut).is_ok()
        && reader.labels() == [8].as_slice();
    let is_loop = reader.next(Profile::Core, &mut cut).is_ok();
    let is_cut = reader.next(Profile::Core, &mut cut) == Err(cut.fault(ReadKind::UnexpectedEnd));
    reader.begin();
    is_table
        && is_loop
        && is_cut
        && reader.next(Profile::Core, &mut Cursor::new(b"\x0b")) == Ok(None)
}

// Blocks that are opened and closed by whoever reads them: there is no room for one before `next` makes it.
fn opens_and_closes(alloc: Global) -> bool {
    let mut reader = TokenReader::new(alloc);
    let has_none = !reader.open_block(true) && !reader.close_block();
    let block = Token::Block { ty: EMPTY, skip: 0 };
    let is_read = reader.next(Profile::Core, &mut Cursor::new(b"\x02\x40")) == Ok(Some(block));
    let is_other = reader.close_block() && reader.open_block(true);
    let other = Ok(Some(Token::Else { skip: 0 }));
    has_none
        && is_read
        && is_other
        && reader.next(Profile::Core, &mut Cursor::new(b"\x05")) == other
        && reader.close_block()
        && !reader.close_block()
}

// An else branch that is begun by whoever reads it: of an `if`, and once.
fn parts(alloc: Global) -> bool {
    let mut reader = TokenReader::new(alloc);
    let has_none = !reader.part_block();
    let opened = Token::If { ty: EMPTY, skip: 0 };
    let is_read = reader.next(Profile::Core, &mut Cursor::new(b"\x04\x40")) == Ok(Some(opened));
    let is_parted = reader.part_block() && !reader.part_block();
    has_none && is_read && is_parted && reader.close_block() && !reader.part_block()
}

// A room that held two groups, for one of another body and for too many.
fn refills_groups(alloc: Global) -> bool {
    let mut groups = Vec::new(alloc);
    let last = LocalGroup {
        count: 3,
        ty: ValType::I64,
    };
    let fault = ReadFault {
        kind: ReadKind::TooManyLocals,
        at: 7,
    };
    let mut many = Cursor::new(b"\x02\xff\xff\xff\xff\x0f\x7f\x01\x7f");
    next_groups(&mut groups, &mut Cursor::new(BODY)).is_ok()
        && next_groups(&mut groups, &mut Cursor::new(b"\x01\x03\x7e")).is_ok()
        && groups.as_slice() == [last].as_slice()
        && next_groups(&mut groups, &mut many) == Err(fault)
        && many.at() == 0
}

#[test]
fn reads_one_by_one(rt: HostRuntime) -> Result<(), Fail> {
    assert!(rt; reads_tokens(rt.alloc()) && refills_groups(rt.alloc()));
    assert!(rt; opens_and_closes(rt.alloc()));
    assert!(rt; parts(rt.alloc()));
    Ok(())
}

// A token, its name, and the length of its written form.
#[derive(Clone, Copy)]
struct Known {
    token: Token,
    name: &'static str,
    len: u64,
}

const KNOWN: [Known; 14] = [
    Known {
        token: Token::End,
        name: "end",
        len: 1,
    },
    Known {
        token: Token::Else { skip: 1 },
        name: "else",
        len: 1,
    },
    Known {
        token: Token::If {
            ty: BlockType::Value(ValType::F64),
            skip: 9,
        },
        name: "if",
        len: 2,
    },
    Known {
        token: Token::Loop {
            ty: BlockType::Index(63),
            skip: 9,
        },
        name: "loop",
        len: 2,
    },
    Known {
        token: Token::Block {
            ty: BlockType::Index(64),
            skip: 9,
        },
        name: "block",
        len: 3,
    },
    Known {
        token: Token::BrTable {
            start: 0,
            len: 2,
            other: 0,
        },
        name: "br_table",
        len: 6,
    },
    Known {
        token: Token::Call(128),
        name: "call",
        len: 3,
    },
    Known {
        token: Token::CallIndirect(0),
        name: "call_indirect",
        len: 3,
    },
    Known {
        token: Token::Access {
            op: MemoryOp::I64Load16S,
            align: 2,
            offset: 128,
        },
        name: "i64.load16_s",
        len: 4,
    },
    Known {
        token: Token::MemoryGrow,
        name: "memory.grow",
        len: 2,
    },
    Known {
        token: Token::I32Const(-65),
        name: "i32.const",
        len: 3,
    },
    Known {
        token: Token::I64Const(63),
        name: "i64.const",
        len: 2,
    },
    Known {
        token: Token::F64Const(0),
        name: "f64.const",
        len: 9,
    },
    Known {
        token: Token::Numeric(NumericOp::I64ReinterpretF64),
        name: "i64.reinterpret_f64",
        len: 1,
    },
];

// The first token with another name or length.
fn wrong_token() -> Option<Token> {
    for Known { token, name, len } in KNOWN {
        if token.name() != name || token.head_len(&[1, 200]) != len {
            return Some(token);
        }
    }
    None
}

#[test]
fn tells_of_tokens(rt: HostRuntime) -> Result<(), Fail> {
    assert_eq!(rt; wrong_token(), None);
    Ok(())
}

// A numeric instruction with its type.
#[derive(Clone, Copy)]
struct Numeric {
    opcode: u8,
    op: NumericOp,
    name: &'static str,
    ty: NumericType,
}

const NUMERIC: [Numeric; 6] = [
    Numeric {
        opcode: 0x50,
        op: NumericOp::I64Eqz,
        name: "i64.eqz",
        ty: NumericType::Unary {
            operand: ValType::I64,
            result: ValType::I32,
        },
    },
    Numeric {
        opcode: 0x8b,
        op: NumericOp::F32Abs,
        name: "f32.abs",
        ty: NumericType::Unary {
            operand: ValType::F32,
            result: ValType::F32,
        },
    },
    Numeric {
        opcode: 0xa6,
        op: NumericOp::F64Copysign,
        name: "f64.copysign",
        ty: NumericType::Binary {
            operand: ValType::F64,
            result: ValType::F64,
        },
    },
    Numeric {
        opcode: 0xa7,
        op: NumericOp::I32WrapI64,
        name: "i32.wrap_i64",
        ty: NumericType::Unary {
            operand: ValType::I64,
            result: ValType::I32,
        },
    },
    Numeric {
        opcode: 0xbb,
        op: NumericOp::F64PromoteF32,
        name: "f64.promote_f32",
        ty: NumericType::Unary {
            operand: ValType::F32,
            result: ValType::F64,
        },
    },
    Numeric {
        opcode: 0xc4,
        op: NumericOp::I64Extend32S,
        name: "i64.extend32_s",
        ty: NumericType::Unary {
            operand: ValType::I64,
            result: ValType::I64,
        },
    },
];

// The first numeric instruction that is told otherwise.
fn wrong_numeric() -> Option<u8> {
    for Numeric {
        opcode,
        op,
        name,
        ty,
    } in NUMERIC {
        let is_found = NumericOp::from_opcode(opcode) == Some(op) && op.opcode() == opcode;
        if !is_found || op.name() != name || op.ty() != ty {
            return Some(opcode);
        }
    }
    None
}

// A load or store with its type, the bytes that it touches, and whether it stores.
#[derive(Clone, Copy)]
struct Access {
    opcode: u8,
    op: MemoryOp,
    name: &'static str,
    of: (ValType, u32, bool),
}

const ACCESSES: [Access; 5] = [
    Access {
        opcode: 0x28,
        op: MemoryOp::I32Load,
        name: "i32.load",
        of: (ValType::I32, 4, false),
    },
    Access {
        opcode: 0x35,
        op: MemoryOp::I64Load32U,
        name: "i64.load32_u",
        of: (ValType::I64, 4, false),
    },
    Access {
        opcode: 0x39,
        op: MemoryOp::F64Store,
        name: "f64.store",
        of: (ValType::F64, 8, true),
    },
    Access {
        opcode: 0x3a,
        op: MemoryOp::I32Store8,
        name: "i32.store8",
        of: (ValType::I32, 1, true),
    },
    Access {
        opcode: 0x3d,
        op: MemoryOp::I64Store16,
        name: "i64.store16",
        of: (ValType::I64, 2, true),
    },
];

// The first load or store that is told otherwise.
fn wrong_access() -> Option<u8> {
    for Access {
        opcode,
        op,
        name,
        of,
    } in ACCESSES {
        let is_found = MemoryOp::from_opcode(opcode) == Some(op) && op.opcode() == opcode;
        if !is_found || op.name() != name || (op.ty(), op.width(), op.is_store()) != of {
            return Some(opcode);
        }
    }
    None
}

// The first value type whose byte is not that of the standard.
fn wrong_type() -> Option<ValType> {
    let types = [ValType::I32, ValType::I64, ValType::F32, ValType::F64];
    for (ty, byte) in types.into_iter().zip([0x7f, 0x7e, 0x7d, 0x7c]) {
        if ty.byte() != byte || ValType::from_byte(byte) != Some(ty) {
            return Some(ty);
        }
    }
    None
}

// Whether opcodes beside those of the tables are none of them.
fn are_no_others() -> bool {
    NumericOp::from_opcode(0x44).is_none()
        && NumericOp::from_opcode(0xc5).is_none()
        && MemoryOp::from_opcode(0x27).is_none()
        && MemoryOp::from_opcode(0x3f).is_none()
        && ValType::from_byte(0x40).is_none()
}

#[test]
fn tells_of_instructions(rt: HostRuntime) -> Result<(), Fail> {
    assert_eq!(rt; wrong_numeric().or(wrong_access()), None);
    assert!(rt; wrong_type().is_none() && are_no_others());
    Ok(())
}
