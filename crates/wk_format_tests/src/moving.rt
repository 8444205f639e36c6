//! What the references of bodies and expressions move to. `wk_trials` has them found.

use std::alloc::{AllocError, Global};
use std::test::Fail;
use wk_body::{
    Body, EncodeFault, Movement, Moving, ShiftFault, Shifts, append_shifted, append_shifts,
    encode_body, encode_expr, expr_movement, read_body, read_expr, shift, shift_expr,
    shift_in_place, shift_index,
};
use wk_samples::bodies::{
    BODY, EXPR, GREAT_CALL, GREATEST_CALL, GREATEST_EXPR, MOVED_EXPR, WITH_FUNC_MOVED,
    WITH_GLOBAL_MOVED,
};

// A body, how its references move, and what it becomes: nothing where an index has no next.
type Move = (&'static [u8], Moving, u32, Option<&'static [u8]>);

static MOVES: [Move; 10] = [
    (BODY, Moving::Func, 0, Some(WITH_FUNC_MOVED)),
    (BODY, Moving::Func, 5, Some(WITH_FUNC_MOVED)),
    (BODY, Moving::Func, 6, Some(BODY)),
    (BODY, Moving::Global, 7, Some(WITH_GLOBAL_MOVED)),
    (BODY, Moving::Global, 8, Some(BODY)),
    (GREATEST_CALL, Moving::Func, 0, None),
    (GREATEST_CALL, Moving::Func, u32::MAX, None),
    (GREATEST_CALL, Moving::Global, 0, Some(GREATEST_CALL)),
    (GREAT_CALL, Moving::Func, u32::MAX - 1, Some(GREATEST_CALL)),
    (GREAT_CALL, Moving::Func, u32::MAX, Some(GREAT_CALL)),
];

fn is_encoded(answer: Result<Vec<u8>, EncodeFault>, bytes: &[u8]) -> bool {
    match answer {
        Ok(written) => written.as_slice() == bytes,
        Err(_) => false,
    }
}

// Whether the body moves so, which is told before.
fn moves(alloc: Global, body: &Body, row: Move) -> bool {
    let (bytes, kind, from, becomes) = row;
    let stuck = becomes.is_none();
    let moves = stuck || becomes != Some(bytes);
    if expr_movement(body.expr(), kind, from) != (Movement { moves, stuck }) {
        return false;
    }
    match (shift(alloc, body, kind, from), becomes) {
        (Ok(moved), Some(bytes)) => is_encoded(encode_body(alloc, &moved), bytes),
        (Err(ShiftFault::Overflow), None) => true,
        _ => false,
    }
}

// Whether the body moves so where it stands, and by its written form.
fn moves_in_place(alloc: Global, body: Body, row: Move) -> bool {
    let (_, kind, from, becomes) = row;
    if expr_movement(body.expr(), kind, from).stuck {
        return becomes.is_none();
    }
    let (Ok(code), Some(becomes)) = (encode_body(alloc, &body), becomes) else {
        return false;
    };
    let mut moved = Vec::new(alloc);
    let appended = append_shifted(&mut moved, &body, &code, kind, from);
    let mut body = body;
    shift_in_place(&mut body, kind, from);
    appended.is_ok()
        && moved.as_slice() == becomes
        && is_encoded(encode_body(alloc, &body), becomes)
}

// Whether the written form, moved by its bytes alone, is that one, or is none and leaves nothing.
fn is_shifted(alloc: Global, code: &[u8], shifts: Shifts, becomes: Option<&[u8]>) -> bool {
    let mut moved = Vec::new(alloc);
    match (append_shifts(&mut moved, code, shifts), becomes) {
        (Ok(true), Some(bytes)) => moved.as_slice() == bytes,
        (Ok(false), None) => moved.is_empty(),
        _ => false,
    }
}

const UNMOVED: Shifts = Shifts {
    funcs_from: 0,
    funcs_by: 0,
    globals_from: 0,
    globals_by: 0,
};

// The same of a move by one.
fn moves_from_bytes(alloc: Global, row: Move) -> bool {
    let (bytes, kind, from, becomes) = row;
    let mut shifts = UNMOVED;
    match kind {
        Moving::Func => {
            shifts.funcs_from = from;
            shifts.funcs_by = 1;
        }
        Moving::Global => {
            shifts.globals_from = from;
            shifts.globals_by = 1;
        }
    }
    is_shifted(alloc, bytes, shifts, becomes)
}

fn moves_as_read(alloc: Global, row: Move) -> bool {
    match read_body(alloc, row.0) {
        Ok(body) => {
            moves(alloc, &body, row)
                && moves_in_place(alloc, body, row)
                && moves_from_bytes(alloc, row)
        }
        Err(_) => false,
    }
}

#[test]
fn moves_bodies(rt: HostRuntime) -> Result<(), Fail> {
    for row in &MOVES {
        assert!(rt; moves_as_read(rt.alloc(), *row), "{row:?}");
    }
    Ok(())
}

// The body with 300 functions in front of the function 5, and 120 globals in front of the global 7: the one index gets longer.
const SHIFTED: &[u8] = b"\x02\x02\x7f\x01\x7c\
    \x02\x40\x04\x40\x10\xb1\x02\x05\x11\x03\x00\x0b\x23\x7f\x1a\x0b\
    \x0e\x03\x00\x01\x02\x00\
    \x03\x7f\x3f\x00\x0b\x0b";

// A call of the function 5, and of the function 4,294,967,295.
const STUCK_BEHIND_5: &[u8] = b"\x00\x10\x05\x10\xff\xff\xff\xff\x0f\x0b";

const BOTH: Shifts = Shifts {
    funcs_from: 5,
    funcs_by: 300,
    globals_from: 7,
    globals_by: 120,
};

// Behind the last reference of either kind.
const NONE: Shifts = Shifts {
    funcs_from: 6,
    funcs_by: 300,
    globals_from: 8,
    globals_by: 120,
};

// A written form, where references stand, and what it becomes.
static SHIFTS: [(&[u8], Shifts, Option<&[u8]>); 5] = [
    (BODY, BOTH, Some(SHIFTED)),
    (STUCK_BEHIND_5, BOTH, None),
    (BODY, NONE, Some(BODY)),
    (b"", NONE, None),
    (SHIFTED, UNMOVED, Some(SHIFTED)),
];

#[test]
fn shifts_by_several(rt: HostRuntime) -> Result<(), Fail> {
    for &(code, shifts, becomes) in &SHIFTS {
        let is_right = is_shifted(rt.alloc(), code, shifts, becomes);
        assert!(rt; is_right, "{code:?} by {shifts:?}");
    }
    Ok(())
}

// What an expression becomes, as a body.
fn expr_moves(alloc: Global, bytes: &[u8], from: u32, becomes: Option<&[u8]>) -> bool {
    match read_expr(alloc, bytes) {
        Ok(expr) => match (shift_expr(alloc, &expr, from), becomes) {
            (Ok(moved), Some(bytes)) => is_encoded(encode_expr(alloc, &moved), bytes),
            (Err(ShiftFault::Overflow), None) => true,
            _ => false,
        },
        Err(_) => false,
    }
}

// An expression, where its globals move from, and what it becomes.
static EXPRS: [(&[u8], u32, Option<&[u8]>); 4] = [
    (EXPR, 0, Some(MOVED_EXPR)),
    (EXPR, 7, Some(MOVED_EXPR)),
    (EXPR, 8, Some(EXPR)),
    (GREATEST_EXPR, 9, None),
];

const STUCK: Movement = Movement {
    moves: true,
    stuck: true,
};

fn move_indexes() -> bool {
    shift_index(4, 3) == Ok(3)
        && shift_index(4, 4) == Ok(5)
        && shift_index(4, u32::MAX) == Err(ShiftFault::Overflow)
        && Movement::NONE.or(Movement::of_index(4, u32::MAX)) == STUCK
}

#[test]
fn moves_expressions(rt: HostRuntime) -> Result<(), Fail> {
    for &(bytes, from, becomes) in &EXPRS {
        let is_right = expr_moves(rt.alloc(), bytes, from, becomes);
        assert!(rt; is_right, "{bytes:?} from {from}");
    }
    assert!(rt; move_indexes());
    Ok(())
}

fn say_faults(alloc: Global) -> bool {
    let sizes = format!(in alloc; "{}, {}", EncodeFault::TooLarge, EncodeFault::Memory);
    let moves = format!(in alloc; "{}, {}", ShiftFault::Overflow, ShiftFault::Memory);
    match (sizes, moves) {
        (Ok(sizes), Ok(moves)) => {
            sizes.as_str() == "too large, out of memory"
                && moves.as_str() == "index overflow, out of memory"
        }
        _ => false,
    }
}

#[test]
fn says_faults(rt: HostRuntime) -> Result<(), Fail> {
    assert!(rt; say_faults(rt.alloc()));
    Ok(())
}

// 20,000 blocks, one in the other, and a call in the innermost.
fn nested(alloc: Global, callee: u8) -> Result<Vec<u8>, AllocError> {
    let mut bytes = Vec::new(alloc);
    bytes.push(0)?;
    for _ in 0..20_000 {
        bytes.extend_from_slice(b"\x02\x40")?;
    }
    bytes.extend_from_slice(&[0x10, callee])?;
    for _ in 0..20_001 {
        bytes.push(0x0b)?;
    }
    Ok(bytes)
}

// A copy of a body with its references to functions moved; the body itself is gone.
fn moved_copy(alloc: Global, bytes: &[u8]) -> Option<Body> {
    let body = read_body(alloc, bytes).ok()?;
    let copy = body.clone().ok()?;
    drop(body);
    shift(alloc, &copy, Moving::Func, 0).ok()
}

fn moves_deep(alloc: Global) -> Result<bool, AllocError> {
    let bytes = nested(alloc, 0)?;
    let becomes = nested(alloc, 1)?;
    match moved_copy(alloc, &bytes) {
        Some(body) => Ok(is_encoded(encode_body(alloc, &body), &becomes)),
        None => Ok(false),
    }
}

#[test]
fn moves_and_copies_20_000_blocks(rt: HostRuntime) -> Result<(), Fail> {
    assert_eq!(rt; moves_deep(rt.alloc()), Ok(true));
    Ok(())
}
