//! The opcodes that the code names, in their order (5.4). Those of loads, stores and numeric instructions are rows of `memory.rt` and
//! `numeric.rt`: here stand the first and the last of them that the code asks for.

ghost use Rattle.std.specs.Prelude.{◌≡◌};
ghost use Rattle.wk_body.specs.Names.{opcode_name};

// ---- control instructions (5.4.1); `end` closes an expression too (5.4.6)

pub(crate) const UNREACHABLE: u8 = 0x00;

pub(crate) const NOP: u8 = 0x01;

pub(crate) const BLOCK: u8 = 0x02;

pub(crate) const LOOP: u8 = 0x03;

pub(crate) const IF: u8 = 0x04;

pub(crate) const ELSE: u8 = 0x05;

pub(crate) const END: u8 = 0x0B;

pub(crate) const BR: u8 = 0x0C;

pub(crate) const BR_IF: u8 = 0x0D;

pub(crate) const BR_TABLE: u8 = 0x0E;

pub(crate) const RETURN: u8 = 0x0F;

pub(crate) const CALL: u8 = 0x10;

pub(crate) const CALL_INDIRECT: u8 = 0x11;

// ---- parametric instructions (5.4.2)

pub(crate) const DROP: u8 = 0x1A;

pub(crate) const SELECT: u8 = 0x1B;

// ---- variable instructions (5.4.3)

pub(crate) const LOCAL_GET: u8 = 0x20;

pub(crate) const LOCAL_SET: u8 = 0x21;

pub(crate) const LOCAL_TEE: u8 = 0x22;

pub(crate) const GLOBAL_GET: u8 = 0x23;

pub(crate) const GLOBAL_SET: u8 = 0x24;

// ---- memory instructions (5.4.4)

/// `i32.load`, the first load; stores follow the loads.
pub(crate) const FIRST_ACCESS: u8 = 0x28;
/// `i32.store`.
pub(crate) const FIRST_STORE: u8 = 0x36;
/// `i64.store32`, the last store.
pub(crate) const LAST_ACCESS: u8 = 0x3E;

pub(crate) const MEMORY_SIZE: u8 = 0x3F;

pub(crate) const MEMORY_GROW: u8 = 0x40;

// ---- numeric instructions (5.4.5)

pub(crate) const I32_CONST: u8 = 0x41;

pub(crate) const I64_CONST: u8 = 0x42;

pub(crate) const F32_CONST: u8 = 0x43;

pub(crate) const F64_CONST: u8 = 0x44;
/// `i32.eqz`, the first one without immediates.
pub(crate) const FIRST_NUMERIC: u8 = 0x45;
/// `f64.reinterpret_i64`, the last opcode of 1.0. Behind it stand those of the extended profile.
pub(crate) const LAST_CORE: u8 = 0xBF;

/// The name in the text format (6.5) of an instruction that is neither a load nor a store nor numeric, of an `else` or of an `end`. Any
/// other opcode has the empty name.
#[inline(always)]
pub(crate) fn name(opcode: u8) -> &'static str
    ensures { result.now ≡ opcode_name opcode }
{
    match opcode {
        UNREACHABLE => "unreachable",
        NOP => "nop",
        BLOCK => "block",
        LOOP => "loop",
        IF => "if",
        ELSE => "else",
        END => "end",
        BR => "br",
        BR_IF => "br_if",
        BR_TABLE => "br_table",
        RETURN => "return",
        CALL => "call",
        CALL_INDIRECT => "call_indirect",
        DROP => "drop",
        SELECT => "select",
        LOCAL_GET => "local.get",
        LOCAL_SET => "local.set",
        LOCAL_TEE => "local.tee",
        GLOBAL_GET => "global.get",
        GLOBAL_SET => "global.set",
        MEMORY_SIZE => "memory.size",
        MEMORY_GROW => "memory.grow",
        I32_CONST => "i32.const",
        I64_CONST => "i64.const",
        F32_CONST => "f32.const",
        F64_CONST => "f64.const",
        _ => "",
    }
}
