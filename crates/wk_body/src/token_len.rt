//! How many bytes a token has, by its opcode, where each of its integers and its type has one, and whether they have.
//!
//! The two walks over minimal encodings skip different tokens, so each has a table. One table with the answers to both as bits of a row
//! would have them masked at each token: in a sketch of both loops that took 6 and 16 hundredths more instructions at least, and 4 and 6
//! hundredths more time.

ghost use Rattle.std.specs.Prelude.{◌≡◌, ◌<◌, ◌≤◌, true};
ghost use Rattle.wk_body.specs.TokenLen.{min_len, stride, IsMinimal};

/// By opcode what `min_len` is, for the walk of `strip`. It is 0 for what has anything but integers behind its opcode, for an `else`,
/// and where 1.0 has no token. It is 0 for a `nop` too: where one stands, there are often many, which are counted their own way.
static LENGTHS: [u8; 256] = [
    1, 0, 2, 2, 2, 0, 0, 0, 0, 0, 0, 1, 2, 2, 0, 1, // 00: unreachable, openers, end, br, br_if, return
    2, 0, 0, 0, 0, 0, 0, 0, 0, 0, 1, 1, 0, 0, 0, 0, // 10: call, drop, select
    2, 2, 2, 2, 2, 0, 0, 0, 3, 3, 3, 3, 3, 3, 3, 3, // 20: locals, globals, loads
    3, 3, 3, 3, 3, 3, 3, 3, 3, 3, 3, 3, 3, 3, 3, 0, // 30: loads, stores
    0, 2, 2, 0, 0, 1, 1, 1, 1, 1, 1, 1, 1, 1, 1, 1, // 40: constants of integers, numeric instructions
    1, 1, 1, 1, 1, 1, 1, 1, 1, 1, 1, 1, 1, 1, 1, 1, // 50
    1, 1, 1, 1, 1, 1, 1, 1, 1, 1, 1, 1, 1, 1, 1, 1, // 60
    1, 1, 1, 1, 1, 1, 1, 1, 1, 1, 1, 1, 1, 1, 1, 1, // 70
    1, 1, 1, 1, 1, 1, 1, 1, 1, 1, 1, 1, 1, 1, 1, 1, // 80
    1, 1, 1, 1, 1, 1, 1, 1, 1, 1, 1, 1, 1, 1, 1, 1, // 90
    1, 1, 1, 1, 1, 1, 1, 1, 1, 1, 1, 1, 1, 1, 1, 1, // A0
    1, 1, 1, 1, 1, 1, 1, 1, 1, 1, 1, 1, 1, 1, 1, 1, // B0
    0, 0, 0, 0, 0, 0, 0, 0, 0, 0, 0, 0, 0, 0, 0, 0, // C0
    0, 0, 0, 0, 0, 0, 0, 0, 0, 0, 0, 0, 0, 0, 0, 0, // D0
    0, 0, 0, 0, 0, 0, 0, 0, 0, 0, 0, 0, 0, 0, 0, 0, // E0
    0, 0, 0, 0, 0, 0, 0, 0, 0, 0, 0, 0, 0, 0, 0, 0, // F0
];

/// By opcode what `stride` is, for the walk that moves references. It is 0 for what may move, for what has labels or a word behind its
/// opcode, and where there is no token.
static STRIDES: [u8; 256] = [
    1, 1, 2, 2, 2, 1, 0, 0, 0, 0, 0, 1, 2, 2, 0, 1, // 00: unreachable, nop, openers, else, end, br, br_if, return
    0, 3, 0, 0, 0, 0, 0, 0, 0, 0, 1, 1, 0, 0, 0, 0, // 10: call_indirect, drop, select
    2, 2, 2, 0, 0, 0, 0, 0, 3, 3, 3, 3, 3, 3, 3, 3, // 20: locals, loads
    3, 3, 3, 3, 3, 3, 3, 3, 3, 3, 3, 3, 3, 3, 3, 2, // 30: loads, stores, memory.size
    2, 2, 2, 0, 0, 1, 1, 1, 1, 1, 1, 1, 1, 1, 1, 1, // 40: memory.grow, constants of integers, numeric instructions
    1, 1, 1, 1, 1, 1, 1, 1, 1, 1, 1, 1, 1, 1, 1, 1, // 50
    1, 1, 1, 1, 1, 1, 1, 1, 1, 1, 1, 1, 1, 1, 1, 1, // 60
    1, 1, 1, 1, 1, 1, 1, 1, 1, 1, 1, 1, 1, 1, 1, 1, // 70
    1, 1, 1, 1, 1, 1, 1, 1, 1, 1, 1, 1, 1, 1, 1, 1, // 80
    1, 1, 1, 1, 1, 1, 1, 1, 1, 1, 1, 1, 1, 1, 1, 1, // 90
    1, 1, 1, 1, 1, 1, 1, 1, 1, 1, 1, 1, 1, 1, 1, 1, // A0
    1, 1, 1, 1, 1, 1, 1, 1, 1, 1, 1, 1, 1, 1, 1, 1, // B0
    1, 1, 1, 1, 1, 0, 0, 0, 0, 0, 0, 0, 0, 0, 0, 0, // C0: sign extension
    0, 0, 0, 0, 0, 0, 0, 0, 0, 0, 0, 0, 0, 0, 0, 0, // D0
    0, 0, 0, 0, 0, 0, 0, 0, 0, 0, 0, 0, 0, 0, 0, 0, // E0
    0, 0, 0, 0, 0, 0, 0, 0, 0, 0, 0, 0, 0, 0, 0, 0, // F0
];

/// How many bytes the token of an opcode has, where it has a byte for each integer and each type, in both profiles.
#[inline(always)]
#[tactic(auto, using(crate::proofs::TokenLen::length_at))]
pub(crate) fn min_len(opcode: u8) -> u8
    ensures { result ≡ min_len opcode }
{
    LENGTHS[usize::from(opcode)]
}

/// How many bytes the token of an opcode has in the extended profile, where it has a byte for each integer and each type, and none of
/// them may move.
#[inline(always)]
#[tactic(auto, using(crate::proofs::TokenLen::stride_at))]
pub(crate) fn stride(opcode: u8) -> u8
    ensures { result ≡ stride opcode }
{
    STRIDES[usize::from(opcode)]
}

/// Of two bytes behind an opcode, the bits that are set where an integer has more bytes, by how many bytes the token has else.
static MORE: [u32; 4] = [0, 0, 0x0080, 0x8080];

/// Whether these bytes behind an opcode leave the token that many bytes.
#[inline(always)]
pub(crate) fn is_minimal(len: u8, x: u8, y: u8) -> bool
    requires { len ≤ 3 }
    ensures { result ≡ true → IsMinimal len x y }
{
    // One test: what is left of the bytes is 0, or at least 128, and no number is below a length of 0.
    let behind = u16::from_le_bytes([x, y]);
    (u32::from(behind) & MORE[usize::from(len)]) < u32::from(len)
}
