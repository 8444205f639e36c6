//! Edits one after the other, what each is answered, and the module and the verdict that it leaves.

use crate::step::Answer::{Broken, Refused, Work};
use crate::step::Judged::{self, Invalid, Valid};
use crate::step::{Step, Walk, steps, walks};
use wk_bytes::{ReadFault, ReadKind};
use wk_check::FaultKind::{
    DuplicateExport, TooManyMemories, TooManyTables, TypeArity, UnknownFunc, UnknownGlobal,
    UnknownType,
};
use wk_session::EditFault::{BadBytes, IndexOverflow, NoSuchCustom, NoSuchExport, NoSuchFunction};

/// A module of nothing.
pub(crate) const EMPTY: &[u8] = b"\0asm\x01\0\0\0";

/// A type that takes nothing and gives nothing.
pub(crate) const ONE_TYPE: &[u8] = b"\0asm\x01\0\0\0\x01\x04\x01\x60\0\0";

/// A type of two results.
pub(crate) const TWO_RESULTS: &[u8] = b"\0asm\x01\0\0\0\x01\x07\x01\x60\x01\x7f\x02\x7f\x7f";

/// Custom sections `a` and `b`, a type, and custom sections `a`, ``, `c` and `a`.
pub(crate) const MIXED: &[u8] =
    b"\0asm\x01\0\0\0\0\x02\x01a\0\x03\x01b\x01\x01\x04\x01\x60\0\0\0\x03\x01a\x02\0\x02\0\x03\0\x02\x01c\0\x02\x01a";

/// A function that calls itself.
pub(crate) const OWN_CALL: &[u8] =
    b"\0asm\x01\0\0\0\x01\x04\x01\x60\0\0\x03\x02\x01\0\x0a\x06\x01\x04\0\x10\0\x0b";

// ---- types and custom sections

// `MIXED` with a type from `i32` to `i64`, and without the custom sections `a`.
const NO_A: &[u8] =
    b"\0asm\x01\0\0\0\0\x03\x01b\x01\x01\x09\x02\x60\0\0\x60\x01\x7f\x01\x7e\0\x02\0\x03\0\x02\x01c";

// `NO_A` with two more types, and without the custom section of the empty name.
const FOUR_TYPES: &[u8] =
    b"\0asm\x01\0\0\0\0\x03\x01b\x01\x01\x13\x04\x60\0\0\x60\x01\x7f\x01\x7e\x60\0\x02\x7f\x7f\x60\x02\x7d\x7c\0\0\x02\x01c";

const ARITY: Judged = Invalid(TypeArity, 1, 2, None);

const OF_TYPES_AND_CUSTOMS: [Step; 8] = steps! {
    b"custom strip d" => Refused(NoSuchCustom), MIXED, Valid;
    b"type i32 i64" => Work(0, 0, 1),
        b"\0asm\x01\0\0\0\0\x02\x01a\0\x03\x01b\x01\x01\x09\x02\x60\0\0\x60\x01\x7f\x01\x7e\0\x03\x01a\x02\0\x02\0\x03\0\x02\x01c\0\x02\x01a",
        Valid;
    b"custom strip a" => Work(0, 0, 0), NO_A, Valid;
    b"custom strip a" => Refused(NoSuchCustom), NO_A, Valid;
    b"type - i32,i32" => Work(0, 0, 1),
        b"\0asm\x01\0\0\0\0\x03\x01b\x01\x01\x0e\x03\x60\0\0\x60\x01\x7f\x01\x7e\x60\0\x02\x7f\x7f\0\x02\0\x03\0\x02\x01c",
        ARITY;
    b"custom strip x:" => Work(0, 0, 0),
        b"\0asm\x01\0\0\0\0\x03\x01b\x01\x01\x0e\x03\x60\0\0\x60\x01\x7f\x01\x7e\x60\0\x02\x7f\x7f\0\x02\x01c",
        ARITY;
    b"type f32,f64 -" => Work(0, 0, 1), FOUR_TYPES, ARITY;
    b"custom strip B" => Refused(NoSuchCustom), FOUR_TYPES, ARITY;
};

// The custom section stays in front of a type that comes later.
const OF_NO_TYPES: [Step; 2] = steps! {
    b"type - -" => Work(0, 0, 1), b"\0asm\x01\0\0\0\0\x02\x01c\x01\x04\x01\x60\0\0", Valid;
    b"custom strip c" => Work(0, 0, 0), ONE_TYPE, Valid;
};

const OF_CUSTOMS: [Step; 7] = steps! {
    b"custom set a ff" => Work(0, 0, 1),
        b"\0asm\x01\0\0\0\0\x03\x01a\xff\0\x03\x01b\x01\x01\x04\x01\x60\0\0\0\x03\x01a\x02\0\x02\0\x03\0\x02\x01c\0\x02\x01a",
        Valid;
    b"custom set b -" => Work(0, 0, 1),
        b"\0asm\x01\0\0\0\0\x03\x01a\xff\0\x02\x01b\x01\x04\x01\x60\0\0\0\x03\x01a\x02\0\x02\0\x03\0\x02\x01c\0\x02\x01a",
        Valid;
    b"custom set d 0080" => Work(0, 0, 1),
        b"\0asm\x01\0\0\0\0\x03\x01a\xff\0\x02\x01b\x01\x04\x01\x60\0\0\0\x03\x01a\x02\0\x02\0\x03\0\x02\x01c\0\x02\x01a\0\x04\x01d\0\x80",
        Valid;
    b"custom set x: -" => Work(0, 0, 1),
        b"\0asm\x01\0\0\0\0\x03\x01a\xff\0\x02\x01b\x01\x04\x01\x60\0\0\0\x03\x01a\x02\0\x01\0\0\x02\x01c\0\x02\x01a\0\x04\x01d\0\x80",
        Valid;
    b"strip" => Work(0, 0, 0), ONE_TYPE, Valid;
    b"strip" => Work(0, 0, 0), ONE_TYPE, Valid;
    b"custom set x:c3a9 07" => Work(0, 0, 1),
        b"\0asm\x01\0\0\0\x01\x04\x01\x60\0\0\0\x04\x02\xc3\xa9\x07",
        Valid;
};

const OF_TWO_RESULTS: [Step; 2] = steps! {
    b"custom set c 00" => Work(0, 0, 1),
        b"\0asm\x01\0\0\0\x01\x07\x01\x60\x01\x7f\x02\x7f\x7f\0\x03\x01c\0",
        Invalid(TypeArity, 1, 0, None);
    b"strip" => Work(0, 0, 0), TWO_RESULTS, Invalid(TypeArity, 1, 0, None);
};

// ---- functions, globals and imports

// A function that calls one behind it, which is not there.
const NO_FUNC: &[u8] =
    b"\0asm\x01\0\0\0\x01\x04\x01\x60\0\0\x03\x02\x01\0\x0a\x06\x01\x04\0\x10\x01\x0b";

const UNKNOWN_CALL: Judged = Invalid(UnknownFunc, 10, 0, Some(0));

// A function that calls one of no type.
const NO_TYPE: &[u8] =
    b"\0asm\x01\0\0\0\x01\x04\x01\x60\0\0\x03\x03\x02\0\x01\x0a\x09\x02\x04\0\x10\x01\x0b\x02\0\x0b";

// With the type.
const NO_TYPE_TYPED: &[u8] = b"\0asm\x01\0\0\0\x01\x07\x02\x60\0\0\x60\0\0\
    \x03\x03\x02\0\x01\x0a\x09\x02\x04\0\x10\x01\x0b\x02\0\x0b";

// A table, a start function, and an element segment.
const TABLE: &[u8] = b"\0asm\x01\0\0\0\x01\x04\x01\x60\0\0\x03\x02\x01\0\x04\x04\x01\x70\0\x01\
    \x08\x01\0\x09\x07\x01\0\x41\0\x0b\x01\0\x0a\x04\x01\x02\0\x0b";

// A memory, a global, and data whose offset reads the global.
const DATA: &[u8] = b"\0asm\x01\0\0\0\x05\x03\x01\0\x01\x06\x06\x01\x7f\0\x41\0\x0b\
    \x0b\x06\x01\0\x23\0\x0b\0";

const OF_NO_TYPE: [Step; 1] = steps! {
    b"type - -" => Work(2, 0, 1), NO_TYPE_TYPED, Valid;
};

const OF_NO_FUNC: [Step; 1] = steps! {
    b"func 0 000b" => Work(2, 1, 1),
        b"\0asm\x01\0\0\0\x01\x04\x01\x60\0\0\x03\x03\x02\0\0\x0a\x09\x02\x04\0\x10\x01\x0b\x02\0\x0b",
        Valid;
};

const OF_NO_FUNC_KEPT: [Step; 1] = steps! {
    b"strip" => Broken(UnknownFunc, 10, 0, Some(0)), NO_FUNC, UNKNOWN_CALL;
};

const OF_BODY: [Step; 3] = steps! {
    b"body 1 000b" => Refused(NoSuchFunction), OWN_CALL, Valid;
    b"body 0 00ff0b" => Refused(BadBytes(ReadFault { kind: ReadKind::UnknownOpcode, at: 1 })),
        OWN_CALL,
        Valid;
    b"body 0 000b" => Work(1, 1, 0),
        b"\0asm\x01\0\0\0\x01\x04\x01\x60\0\0\x03\x02\x01\0\x0a\x04\x01\x02\0\x0b",
        Valid;
};

const OF_OWN_GLOBAL: [Step; 1] = steps! {
    b"global i32 const 23000b" => Work(0, 0, 1),
        b"\0asm\x01\0\0\0\x05\x03\x01\0\x01\x06\x0b\x02\x7f\0\x41\0\x0b\x7f\0\x23\0\x0b\
            \x0b\x06\x01\0\x23\0\x0b\0",
        Invalid(UnknownGlobal, 6, 1, Some(0));
};

// A body reads a global which comes now.
const OF_NO_GLOBAL: [Step; 1] = steps! {
    b"global i64 var 42000b" => Work(1, 0, 1),
        b"\0asm\x01\0\0\0\x01\x04\x01\x60\0\0\x03\x02\x01\0\x06\x06\x01\x7e\x01\x42\0\x0b\
            \x0a\x07\x01\x05\0\x23\0\x1a\x0b",
        Valid;
};

const OF_CALL: [Step; 1] = steps! {
    b"import func env f 0" => Work(0, 1, 1),
        b"\0asm\x01\0\0\0\x01\x04\x01\x60\0\0\x02\x09\x01\x03env\x01f\0\0\x03\x02\x01\0\
            \x0a\x06\x01\x04\0\x10\x01\x0b",
        Valid;
};

// An index that names nothing gets longer.
const OF_LONG_CALL: [Step; 1] = steps! {
    b"import func env f 0" => Work(0, 1, 1),
        b"\0asm\x01\0\0\0\x01\x04\x01\x60\0\0\x02\x09\x01\x03env\x01f\0\0\x03\x02\x01\0\
            \x0a\x07\x01\x05\0\x10\x80\x01\x0b",
        UNKNOWN_CALL;
};

// The start function and an element segment move.
const OF_ELEMENTS: [Step; 1] = steps! {
    b"import func env f 0" => Work(0, 0, 3),
        b"\0asm\x01\0\0\0\x01\x04\x01\x60\0\0\x02\x09\x01\x03env\x01f\0\0\x03\x02\x01\0\
            \x04\x04\x01\x70\0\x01\x08\x01\x01\x09\x07\x01\0\x41\0\x0b\x01\x01\x0a\x04\x01\x02\0\x0b",
        Valid;
};

const OF_TABLE: [Step; 1] = steps! {
    b"import table env t 1" => Work(0, 0, 2),
        b"\0asm\x01\0\0\0\x01\x04\x01\x60\0\0\x02\x0b\x01\x03env\x01t\x01\x70\0\x01\x03\x02\x01\0\
            \x04\x04\x01\x70\0\x01\x08\x01\0\x09\x07\x01\x01\x41\0\x0b\x01\0\x0a\x04\x01\x02\0\x0b",
        Invalid(TooManyTables, 4, 0, None);
};

const OF_MEMORY: [Step; 1] = steps! {
    b"import memory env m 1" => Work(0, 0, 2),
        b"\0asm\x01\0\0\0\x02\x0a\x01\x03env\x01m\x02\0\x01\x05\x03\x01\0\x01\
            \x06\x06\x01\x7f\0\x41\0\x0b\x0b\x06\x01\x01\x23\0\x0b\0",
        Invalid(TooManyMemories, 5, 0, None);
};

const OF_OFFSET: [Step; 1] = steps! {
    b"import global env g i32 const" => Work(0, 0, 2),
        b"\0asm\x01\0\0\0\x02\x0a\x01\x03env\x01g\x03\x7f\0\x05\x03\x01\0\x01\
            \x06\x06\x01\x7f\0\x41\0\x0b\x0b\x06\x01\0\x23\x01\x0b\0",
        Valid;
};

// ---- exports

// A function and an export of it.
const EXPORTED: &[u8] = b"\0asm\x01\0\0\0\x01\x04\x01\x60\0\0\x03\x02\x01\0\x07\x05\x01\x01e\0\0\
    \x0a\x06\x01\x04\0\x10\0\x0b";

// Two exports of one name.
const TWO_EXPORTS: &[u8] = b"\0asm\x01\0\0\0\x01\x04\x01\x60\0\0\x03\x02\x01\0\
    \x07\x09\x02\x01a\0\0\x01a\0\0\x0a\x04\x01\x02\0\x0b";

// An export, and a custom section behind it.
const CUSTOM: &[u8] = b"\0asm\x01\0\0\0\x01\x04\x01\x60\0\0\x03\x02\x01\0\x07\x05\x01\x01f\0\0\
    \0\x03\x01c\xaa\x0a\x04\x01\x02\0\x0b";

// Without the custom section.
const STRIPPED: &[u8] = b"\0asm\x01\0\0\0\x01\x04\x01\x60\0\0\x03\x02\x01\0\x07\x05\x01\x01f\0\0\
    \x0a\x04\x01\x02\0\x0b";

// An export of the function with the greatest index.
const GREATEST: &[u8] = b"\0asm\x01\0\0\0\x07\x09\x01\x01a\0\xff\xff\xff\xff\x0f";

const OF_EXPORT: [Step; 2] = steps! {
    b"unexport a" => Refused(NoSuchExport), OWN_CALL, Valid;
    b"export func e 0" => Work(0, 0, 1), EXPORTED, Valid;
};

// The first of two of the name goes.
const OF_TWO_EXPORTS: [Step; 1] = steps! {
    b"unexport a" => Work(0, 0, 1),
        b"\0asm\x01\0\0\0\x01\x04\x01\x60\0\0\x03\x02\x01\0\x07\x05\x01\x01a\0\0\x0a\x04\x01\x02\0\x0b",
        Valid;
};

// The custom section moves to the front.
const OF_LAST_EXPORT: [Step; 1] = steps! {
    b"unexport f" => Work(0, 0, 1),
        b"\0asm\x01\0\0\0\x01\x04\x01\x60\0\0\x03\x02\x01\0\0\x03\x01c\xaa\x0a\x04\x01\x02\0\x0b",
        Valid;
};

const OF_ONE_CUSTOM: [Step; 3] = steps! {
    b"custom strip d" => Refused(NoSuchCustom), CUSTOM, Valid;
    b"custom set c bb" => Work(0, 0, 1),
        b"\0asm\x01\0\0\0\x01\x04\x01\x60\0\0\x03\x02\x01\0\x07\x05\x01\x01f\0\0\
            \0\x03\x01c\xbb\x0a\x04\x01\x02\0\x0b",
        Valid;
    b"custom strip c" => Work(0, 0, 0), STRIPPED, Valid;
};

const OF_GREATEST: [Step; 1] = steps! {
    b"import func env f 0" => Refused(IndexOverflow), GREATEST, Invalid(UnknownFunc, 7, 0, None);
};

// ---- where the module has to stay valid

const OF_OWN_CALL_KEPT: [Step; 4] = steps! {
    b"func 5 000b" => Broken(UnknownType, 3, 1, None), OWN_CALL, Valid;
    b"type - i32,i32" => Broken(TypeArity, 1, 1, None), OWN_CALL, Valid;
    b"export func e 0" => Work(0, 0, 1), EXPORTED, Valid;
    b"export func e 0" => Broken(DuplicateExport, 7, 1, None), EXPORTED, Valid;
};

/// All of them.
pub(crate) static WALKS: [Walk; 24] = walks! {
    MIXED, false, &OF_TYPES_AND_CUSTOMS;
    b"\0asm\x01\0\0\0\x01\x01\0\0\x02\x01c", false, &OF_NO_TYPES;
    MIXED, false, &OF_CUSTOMS;
    TWO_RESULTS, false, &OF_TWO_RESULTS;
    NO_TYPE, false, &OF_NO_TYPE;
    NO_TYPE, true, &OF_NO_TYPE;
    NO_FUNC, false, &OF_NO_FUNC;
    NO_FUNC, true, &OF_NO_FUNC_KEPT;
    OWN_CALL, false, &OF_BODY;
    DATA, false, &OF_OWN_GLOBAL;
    b"\0asm\x01\0\0\0\x01\x04\x01\x60\0\0\x03\x02\x01\0\x0a\x07\x01\x05\0\x23\0\x1a\x0b", false, &OF_NO_GLOBAL;
    OWN_CALL, false, &OF_CALL;
    b"\0asm\x01\0\0\0\x01\x04\x01\x60\0\0\x03\x02\x01\0\x0a\x06\x01\x04\0\x10\x7f\x0b", false, &OF_LONG_CALL;
    TABLE, false, &OF_ELEMENTS;
    TABLE, false, &OF_TABLE;
    DATA, false, &OF_MEMORY;
    DATA, false, &OF_OFFSET;
    OWN_CALL, false, &OF_EXPORT;
    TWO_EXPORTS, false, &OF_TWO_EXPORTS;
    CUSTOM, false, &OF_LAST_EXPORT;
    CUSTOM, false, &OF_ONE_CUSTOM;
    CUSTOM, true, &OF_ONE_CUSTOM;
    GREATEST, false, &OF_GREATEST;
    OWN_CALL, true, &OF_OWN_CALL_KEPT;
};
