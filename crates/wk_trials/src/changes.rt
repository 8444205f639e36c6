//! Edits of samples, and what they come to.

use crate::edits::Trial;
use crate::edits::Wanted::{Made, Refused};
use wk_module::Profile;
use wk_samples::edits::{
    MODULE, MOSTLY_ONE_NAME, STRIPPED, VALID, VALID_TYPES, WITH_BYTES, WITH_CUSTOM, WITH_TYPE,
    WITHOUT_CUSTOMS, WITHOUT_LONG_NAME,
};
use wk_samples::lacking::{
    self, BLOCK_TYPE, BROKEN, BROKEN_MENDED, NO_BLOCK_TYPE, NO_FUNC, NO_FUNC_MENDED, NO_GLOBAL,
    NO_GLOBAL_MENDED, NO_MEMORY, NO_MEMORY_MENDED, NO_TABLE, NO_TABLE_MENDED, NO_TYPE,
    NO_TYPE_MENDED, TWICE, TWICE_MENDED,
};
use wk_samples::moving::{self, MOVING};

// The line of a script for a module of a profile, and what it comes to.
macro_rules! trial {
    ($profile:ident $input:expr, $line:literal => $wanted:expr) => {
        Trial {
            profile: Profile::$profile,
            input: $input,
            line: $line,
            wanted: $wanted,
        }
    };
}

pub(crate) const TYPE: Trial = trial!(Core MODULE, b"type i32 f64" => Made([0, 0, 1], WITH_TYPE));

pub(crate) const TYPE_TO_CODE: Trial =
    trial!(Core VALID, b"type i32 f64" => Made([0, 0, 1], VALID_TYPES));

pub(crate) const STRIP_FIRST: Trial =
    trial!(Core MODULE, b"custom strip first" => Made([0, 0, 0], STRIPPED));

pub(crate) const SET_SECOND: Trial =
    trial!(Core MODULE, b"custom set second 09" => Made([0, 0, 1], WITH_BYTES));

pub(crate) const SET_NEW: Trial =
    trial!(Core MODULE, b"custom set new 09" => Made([0, 0, 1], WITH_CUSTOM));

pub(crate) const STRIP_ALL: Trial =
    trial!(Core MODULE, b"strip" => Made([0, 0, 0], WITHOUT_CUSTOMS));

pub(crate) const REMOVE_MOST: Trial = trial!(Core MOSTLY_ONE_NAME,
    b"unexport nnnnnnnnnnnnnnnnnnnnnnnnnnnnnnnnnnnnnnnnnnnnnnnnnnnnnnnnnnnn"
        => Made([0, 0, 1], WITHOUT_LONG_NAME));

// Each kind of edit, of a module in which all moves that can.
pub(crate) const ADD_TYPE: Trial =
    trial!(Core MOVING, b"type i32 f64" => Made([0, 0, 1], moving::WITH_TYPE));

pub(crate) const IMPORT_FUNC: Trial =
    trial!(Core MOVING, b"import func a h 1" => Made([0, 1, 4], moving::WITH_FUNC_IMPORT));

pub(crate) const IMPORT_TABLE: Trial =
    trial!(Core MOVING, b"import table a u 4" => Made([0, 0, 1], moving::WITH_TABLE_IMPORT));

pub(crate) const IMPORT_MEMORY: Trial =
    trial!(Core MOVING, b"import memory a n 1 3" => Made([0, 0, 1], moving::WITH_MEMORY_IMPORT));

pub(crate) const IMPORT_GLOBAL: Trial = trial!(Core MOVING, b"import global a i i64 const"
        => Made([0, 2, 2], moving::WITH_GLOBAL_IMPORT));

pub(crate) const ADD_FUNC: Trial =
    trial!(Core MOVING, b"func 0 00024010020b0b" => Made([1, 1, 1], moving::WITH_FUNC));

pub(crate) const PUT_BODY: Trial =
    trial!(Core MOVING, b"body 1 01017e02400b20010b" => Made([1, 1, 0], moving::WITH_BODY));

pub(crate) const ADD_GLOBAL: Trial =
    trial!(Core MOVING, b"global i32 var 23000b" => Made([0, 0, 1], moving::WITH_GLOBAL));

pub(crate) const ADD_EXPORT: Trial =
    trial!(Core MOVING, b"export func h 2" => Made([0, 0, 1], moving::WITH_EXPORT));

pub(crate) const REMOVE_EXPORT: Trial =
    trial!(Core MOVING, b"unexport g" => Made([0, 0, 1], moving::WITHOUT_EXPORT));

pub(crate) const SET_CUSTOM: Trial =
    trial!(Core MOVING, b"custom set c 0909" => Made([0, 0, 1], moving::WITH_BYTES));

pub(crate) const ADD_CUSTOM: Trial =
    trial!(Core MOVING, b"custom set n 09" => Made([0, 0, 1], moving::WITH_CUSTOM));

pub(crate) const STRIP_CUSTOM: Trial =
    trial!(Core MOVING, b"custom strip c" => Made([0, 0, 0], moving::STRIPPED));

pub(crate) const STRIP_CUSTOMS: Trial =
    trial!(Core MOVING, b"strip" => Made([0, 0, 0], moving::WITHOUT_CUSTOMS));

// Edits that make an invalid module valid.
pub(crate) const MEND_TYPE: Trial =
    trial!(Core NO_TYPE, b"type - -" => Made([2, 0, 1], NO_TYPE_MENDED));

pub(crate) const MEND_FUNC: Trial =
    trial!(Core NO_FUNC, b"func 0 000b" => Made([2, 1, 1], NO_FUNC_MENDED));

pub(crate) const MEND_GLOBAL: Trial =
    trial!(Core NO_GLOBAL, b"global i32 const 41000b" => Made([1, 0, 1], NO_GLOBAL_MENDED));

pub(crate) const MEND_TABLE: Trial =
    trial!(Core NO_TABLE, b"import table a t 1" => Made([1, 0, 1], NO_TABLE_MENDED));

pub(crate) const MEND_MEMORY: Trial =
    trial!(Core NO_MEMORY, b"import memory a m 1" => Made([1, 0, 1], NO_MEMORY_MENDED));

pub(crate) const MEND_BODY: Trial =
    trial!(Core BROKEN, b"body 0 000240010b0b" => Made([1, 1, 0], BROKEN_MENDED));

pub(crate) const MEND_EXPORTS: Trial =
    trial!(Core TWICE, b"unexport e" => Made([0, 0, 1], TWICE_MENDED));

pub(crate) const MEND_BLOCK: Trial =
    trial!(Extended NO_BLOCK_TYPE, b"type i32 i32" => Made([1, 0, 1], BLOCK_TYPE));

// What is looked up and not found.
pub(crate) const ABSENT_FUNC: Trial =
    trial!(Core MOVING, b"body 0 ff" => Refused("E1 NoSuchFunction"));

pub(crate) const ABSENT_EXPORT: Trial =
    trial!(Core MOVING, b"unexport n" => Refused("E2 NoSuchExport"));

pub(crate) const ABSENT_CUSTOM: Trial =
    trial!(Core MOVING, b"custom strip e" => Refused("E3 NoSuchCustom"));

pub(crate) const ABSENT_FIRST: Trial =
    trial!(Core MODULE, b"custom strip absent" => Refused("E3 NoSuchCustom"));

// Code that cannot be read, in its first bytes or behind its end.
pub(crate) const BAD_FUNC: Trial = trial!(Core MOVING, b"func 0 000240c00b0b"
        => Refused("E6 BadBytes R11 UnknownOpcode at 0x00000003"));

pub(crate) const BAD_BODY: Trial = trial!(Core MOVING, b"body 1 01017e02400b20010b0b"
        => Refused("E6 BadBytes R14 BodySize at 0x00000009"));

pub(crate) const BAD_GLOBAL: Trial = trial!(Core MOVING, b"global i32 var 41000b00"
        => Refused("E6 BadBytes R14 BodySize at 0x00000003"));

// What cannot move.
pub(crate) const GREATEST_CALL: Trial =
    trial!(Core lacking::GREATEST_CALL, b"import func a f 0" => Refused("E4 IndexOverflow"));

pub(crate) const GREATEST_EXPORT: Trial =
    trial!(Core lacking::GREATEST_EXPORT, b"import func a f 0" => Refused("E4 IndexOverflow"));

// What would make the module invalid.
pub(crate) const BREAK_TYPE: Trial = trial!(Core MOVING, b"type - i32,i32"
        => Refused("E7 WouldBreak V1 TypeArity at section 1 item 2"));

pub(crate) const BREAK_IMPORT_FUNC: Trial = trial!(Core MOVING, b"import func a h 9"
        => Refused("E7 WouldBreak V2 UnknownType at section 2 item 4"));

pub(crate) const BREAK_IMPORT_TABLE: Trial = trial!(Core MOVING, b"import table a u 4"
        => Refused("E7 WouldBreak V5 TooManyTables at section 2 item 4"));

pub(crate) const BREAK_IMPORT_MEMORY: Trial = trial!(Core MOVING, b"import memory a n 1 3"
        => Refused("E7 WouldBreak V6 TooManyMemories at section 2 item 4"));

pub(crate) const BREAK_FUNC: Trial = trial!(Core MOVING, b"func 9 000b"
        => Refused("E7 WouldBreak V2 UnknownType at section 3 item 2"));

pub(crate) const BREAK_BODY: Trial = trial!(Core MOVING, b"body 1 0002400b0b"
        => Refused("E7 WouldBreak V13 StackUnderflow at section 10 item 0 token 2"));

pub(crate) const BREAK_GLOBAL: Trial = trial!(Core MOVING, b"global i32 var 23090b"
        => Refused("E7 WouldBreak V10 UnknownGlobal at section 6 item 1 token 0"));

pub(crate) const BREAK_EXPORT: Trial = trial!(Core MOVING, b"export func g 2"
        => Refused("E7 WouldBreak V20 DuplicateExport at section 7 item 4"));

pub(crate) const BREAK_SET: Trial = trial!(Core NO_MEMORY, b"custom set c 09"
        => Refused("E7 WouldBreak V9 UnknownMemory at section 10 item 0 token 1"));

pub(crate) const BREAK_STRIP: Trial = trial!(Core NO_MEMORY, b"strip"
        => Refused("E7 WouldBreak V9 UnknownMemory at section 10 item 0 token 1"));
