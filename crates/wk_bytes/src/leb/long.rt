//! Signed integers of 64 bits that have more bytes than those of 32, as constants of hashes: full-width ones have nine or ten.

ghost use Rattle.std.specs.Prelude.{ℕ, ◌≡◌, ◌+◌, ◌-◌, ◌*◌, ◌≤◌, ◌<◌, ◌^◌, ℤ, pos, ◌+ℤ◌, ◌*ℤ◌, List, ◌∷◌, ◌++◌, length, take, drop, Ok, IsErr, IfSome};
ghost use Rattle.wk_bytes.specs.Leb.{IsSignedOf, joinU, sint_at, SpellsS};

use super::{above, five_bytes, five_signed, one_signed, read_signed, three_signed, two_signed};
use byteorder::{ByteOrder, LittleEndian};

// The bit of each byte of a word that says that more come.
const MORE: u64 = 0x8080_8080_8080_8080;

// The bytes of a word, each below 128, with seven bits each: first in twos, then in fours, then all eight. Each step moves the upper half
// of each pair down, by taking away how much too high it stands. A step does for all pairs at once what a sum byte by byte does for one.
#[inline(always)]
fn side_by_side(word: u64) -> u64
    ensures { (a b c d e f g h : ℕ) → a < 128 → b < 128 → c < 128 → d < 128 → e < 128 → f < 128
        → g < 128 → h < 128
        → word ≡ a + 256 * (b + 256 * (c + 256 * (d + 256 * (e + 256 * (f + 256 * (g + 256 * h))))))
        → result ≡ joinU a (joinU b (joinU c (joinU d (joinU e (joinU f (joinU g h)))))) }
{
    let twos = word - 128 * ((word >> 8) & 0x00FF_00FF_00FF_00FF);
    let fours = twos - 49_152 * ((twos >> 16) & 0x0000_FFFF_0000_FFFF);
    fours - 4_026_531_840 * (fours >> 32)
}

// The lower 56 bits of an integer at the front, where more than eight bytes spell it: one test for all eight, in a word.
#[inline(always)]
fn eight_more(bytes: &[u8]) -> Option<u64>
    requires { 8 ≤ length bytes.now }
    ensures room { IfSome result (λ n. n < 2 ^ 56) }
    ensures spelling { IfSome result
        (λ n. (rest : List ℕ) (z : ℤ) → SpellsS 8 rest z
        → SpellsS 64 (take 8 bytes.now ++ rest) (pos n +ℤ (pos (2 ^ 56) *ℤ z))) }
{
    let word = LittleEndian::read_u64(bytes);
    if word & MORE != MORE {
        return None;
    }
    Some(side_by_side(word - MORE))
}

// A signed integer of nine or ten bytes at the front and their number. Of the tenth byte one bit is left, the sign.
#[inline(always)]
fn nine_or_ten(bytes: &[u8]) -> Option<(i64, u32)>
    ensures { IfSome result
        (λ x. (0 < x.1) × (x.1 ≤ length bytes.now) × SpellsS 64 (take x.1 bytes.now) x.0) }
{
    let [_, _, _, _, _, _, _, _, i, j, ..] = *bytes else {
        return None;
    };
    let low = eight_more(bytes)?;
    if i < 128 {
        return Some((above(low, 1 << 56, one_signed(i)), 9));
    }
    if j == 0 || j == 127 {
        return Some((above(low, 1 << 56, two_signed(i, j)), 10));
    }
    None
}

// The number of five bytes and of those after them, which spell `high`.
#[inline(always)]
fn below(a: u8, b: u8, c: u8, d: u8, e: u8, high: i64) -> i64
    requires first { 128 ≤ a }
    requires second { 128 ≤ b }
    requires third { 128 ≤ c }
    requires fourth { 128 ≤ d }
    requires fifth { 128 ≤ e }
    requires room { IsSignedOf 29 high }
    ensures { (rest : List ℕ) → SpellsS 29 rest high
        → SpellsS 64 (a ∷ b ∷ c ∷ d ∷ e ∷ rest) result }
{
    // less the high bit of the fifth byte
    let low = five_bytes(a, b, c, d, e) - 34_359_738_368;
    high * 34_359_738_368 + low as i64
}

// A signed integer of one to three bytes at the front and their number.
#[inline(always)]
fn one_to_three(bytes: &[u8]) -> Option<(i64, u32)>
    ensures { IfSome result
        (λ x. (0 < x.1) × (x.1 ≤ 3) × (x.1 ≤ length bytes.now)
        × SpellsS 29 (take x.1 bytes.now) x.0) }
{
    let [a, b, c, ..] = *bytes else {
        return None;
    };
    if a < 128 {
        return Some((one_signed(a), 1));
    }
    if b < 128 {
        return Some((two_signed(a, b), 2));
    }
    if c < 128 {
        return Some((three_signed(a, b, c), 3));
    }
    None
}

// A signed integer of five to eight bytes at the front and their number. Those of five have more bits than 32 mostly, as masks have.
#[inline(always)]
fn five_to_eight(bytes: &[u8]) -> Option<(i64, u32)>
    ensures { IfSome result
        (λ x. (0 < x.1) × (x.1 ≤ length bytes.now) × SpellsS 64 (take x.1 bytes.now) x.0) }
{
    let &[a, b, c, d, e, ref rest @ ..] = bytes else {
        return None;
    };
    if a < 128 || b < 128 || c < 128 || d < 128 {
        return None;
    }
    if e < 128 {
        return Some((five_signed(a, b, c, d, e), 5));
    }
    let (high, len) = one_to_three(rest)?;
    Some((below(a, b, c, d, e, high), 5 + len))
}

// The same as `far_signed`, for what it does not tell at once: out of line, so that shorter integers don't pay for the registers. Where
// fewer bytes are at hand than are looked at, and for what is refused, the loop reads them, which gives the same for all.
#[inline(never)]
pub(super) fn far_long(bits: u32, bytes: &[u8]) -> (i64, u32)
    requires low { 7 ≤ bits }
    requires high { bits ≤ 64 }
    requires few { length bytes.now < 2 ^ 32 }
    ensures found { 0 < result.1 → sint_at bits bytes.now ≡ Ok (result.0, drop result.1 bytes.now) }
    ensures spelling { 0 < result.1 → SpellsS bits (take result.1 bytes.now) result.0 }
    ensures range { 0 < result.1 → IsSignedOf bits result.0 }
    ensures within { result.1 ≤ length bytes.now }
    ensures refused { result.1 ≡ 0 → IsErr (sint_at bits bytes.now) }
{
    if bits == 64 {
        if let Some(found) = nine_or_ten(bytes) {
            return found;
        }
        if let Some(found) = five_to_eight(bytes) {
            return found;
        }
    }
    match read_signed(bits, bytes) {
        Ok((n, after)) => (n, (bytes.len() - after.len()) as u32),
        Err(_) => (0, 0),
    }
}
