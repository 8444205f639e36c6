//! Bodies and expressions: read, lent and measured. `wk_trials` has them written, copied and moved.

use std::alloc::Global;
use std::test::Fail;
use wk_body::{
    BlockType, Body, Expr, LocalGroup, Profile, Scratch, Token, ValType, body_len, expr_len,
    next_expr, next_expr_in, read_body, read_expr, read_expr_in,
};
use wk_bytes::{Cursor, ReadFault, ReadKind};
use wk_samples::bodies::{BODY, EXPR, EXTENDED, PADDED, PADDED_EXPR};

const GROUPS: [LocalGroup; 2] = [
    LocalGroup {
        count: 2,
        ty: ValType::I32,
    },
    LocalGroup {
        count: 1,
        ty: ValType::F64,
    },
];

/// The tokens of [`BODY`].
pub(crate) const TOKENS: [Token; 14] = [
    Token::Block {
        ty: BlockType::Empty,
        skip: 7,
    },
    Token::If {
        ty: BlockType::Empty,
        skip: 3,
    },
    Token::Call(5),
    Token::Else { skip: 1 },
    Token::CallIndirect(3),
    Token::End,
    Token::GlobalGet(7),
    Token::Drop,
    Token::End,
    Token::BrTable {
        start: 0,
        len: 3,
        other: 0,
    },
    Token::Loop {
        ty: BlockType::Value(ValType::I32),
        skip: 1,
    },
    Token::MemorySize,
    Token::End,
    Token::End,
];

// Whether the body lends what it was read from.
fn is_lent(body: &Body) -> bool {
    let (tokens, labels) = body.tokens();
    body.groups() == GROUPS.as_slice()
        && tokens == TOKENS.as_slice()
        && labels == [0, 1, 2].as_slice()
        && body.expr().tokens() == (tokens, labels)
        && body_len(body) == Some(BODY.len() as u32)
}

fn reads(alloc: Global, bytes: &[u8]) -> bool {
    match read_body(alloc, bytes) {
        Ok(body) => is_lent(&body),
        Err(_) => false,
    }
}

// Why a body of the wider profile is refused in the other.
const INDEX: ReadFault = ReadFault {
    kind: ReadKind::BadByte,
    at: 4,
};

fn is_refused(alloc: Global) -> bool {
    let answer = read_body(alloc, EXTENDED);
    let is_so = matches!(&answer, Err(fault) if *fault == INDEX);
    drop(answer);
    is_so
}

fn reads_all(alloc: Global) -> bool {
    reads(alloc, BODY) && reads(alloc, PADDED) && is_refused(alloc)
}

#[test]
fn reads_bodies(rt: HostRuntime) -> Result<(), Fail> {
    assert!(rt; reads_all(rt.alloc()));
    Ok(())
}

// Whether the body is read in a room.
fn reads_in(alloc: Global, scratch: &mut Scratch, bytes: &[u8]) -> bool {
    bytes.len() < 1000
        && match scratch.read_body(alloc, &Cursor::new(bytes), Profile::Core) {
            Ok(body) => is_lent(&body),
            Err(_) => false,
        }
}

// One room for a body, a fault in a block, and the body again.
fn reads_again(alloc: Global) -> bool {
    let mut scratch = Scratch::new(alloc);
    reads_in(alloc, &mut scratch, PADDED)
        && !reads_in(alloc, &mut scratch, b"\x00\x0e\x01\x05\x06\x02\x40")
        && reads_in(alloc, &mut scratch, BODY)
}

#[test]
fn reads_in_one_room(rt: HostRuntime) -> Result<(), Fail> {
    assert!(rt; reads_again(rt.alloc()));
    Ok(())
}

const GLOBAL: [Token; 2] = [Token::GlobalGet(7), Token::End];

fn is_the_expr(expr: &Expr) -> bool {
    let (tokens, labels) = expr.tokens();
    tokens == GLOBAL.as_slice() && labels.is_empty() && expr_len(expr) == Some(3)
}

// Whether it is the expression that was answered.
fn is_answered(answer: &Result<Expr, ReadFault>) -> bool {
    match answer {
        Ok(expr) => is_the_expr(expr),
        Err(_) => false,
    }
}

// Why bytes behind an expression are refused.
const BEHIND: ReadFault = ReadFault {
    kind: ReadKind::BodySize,
    at: 3,
};

fn reads_expr(alloc: Global) -> bool {
    is_answered(&read_expr(alloc, EXPR))
}

fn reads_expr_in(alloc: Global) -> bool {
    is_answered(&read_expr_in(alloc, PADDED_EXPR, Profile::Extended))
}

fn is_expr_refused(alloc: Global) -> bool {
    read_expr(alloc, b"\x23\x07\x0b\x00").err() == Some(BEHIND)
}

fn reads_exprs(alloc: Global) -> bool {
    reads_expr(alloc) && reads_expr_in(alloc) && is_expr_refused(alloc)
}

#[test]
fn reads_expressions(rt: HostRuntime) -> Result<(), Fail> {
    assert!(rt; reads_exprs(rt.alloc()));
    Ok(())
}

// Two expressions, and a fault, which leaves the cursor.
fn takes_fronts(alloc: Global) -> bool {
    let mut cursor = Cursor::new(b"\x23\x07\x0b\x23\x87\x00\x0b\x05");
    let first = next_expr(alloc, &mut cursor);
    let second = next_expr_in(alloc, &mut cursor, Profile::Core);
    let are_right = is_answered(&first) && is_answered(&second);
    let fault = cursor.fault(ReadKind::UnknownOpcode);
    are_right
        && cursor.at() == 7
        && next_expr(alloc, &mut cursor).err() == Some(fault)
        && cursor.at() == 7
}

fn takes_front_in_room(alloc: Global) -> bool {
    let mut cursor = Cursor::new(b"\x23\x07\x0b\xff");
    let expr = Scratch::new(alloc).next_expr(alloc, &mut cursor, Profile::Core);
    is_answered(&expr) && cursor.at() == 3
}

#[test]
fn takes_the_front(rt: HostRuntime) -> Result<(), Fail> {
    assert!(rt; takes_fronts(rt.alloc()) && takes_front_in_room(rt.alloc()));
    Ok(())
}
