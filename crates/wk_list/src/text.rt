//! Pieces of text, each put behind what was gathered.

ghost use Rattle.std.specs.Prelude.{◌≡◌, ◌<◌, ◌^◌, ◌++◌, ◌≤◌, codes, decimal, length, replicate, OnOk, OnErr};
ghost use Rattle.std.specs.Fmt.{signed_decimal};
ghost use Rattle.std.specs.List.{flat_map};
ghost use Rattle.hex.specs.Hex.{encode_lower};
ghost use Rattle.wk_bytes.specs.HexDigits.{hex_digits};
ghost use Rattle.wk_list.specs.Text.{all_visible, is_word, name_text, spaced, indexed};

use crate::hexadecimal::{DIGITS, digits_of, eight_digits};
use itoa::Buffer;
use wk_bytes::OutOfMemory;

/// How many bytes become hexadecimal digits at once.
const CHUNK: usize = DIGITS / 2;

/// A number in eight hexadecimal digits.
pub(crate) fn put_hex8(text: &mut Vec<u8>, n: u32) -> Result<(), OutOfMemory>
    ensures ok { OnOk result (text.new.items ≡ text.old.items ++ hex_digits 8 n) }
    ensures err { OnErr result (text.new.items ≡ text.old.items) }
{
    text.extend_from_slice(&eight_digits(n))?;
    Ok(())
}

/// A word of 64 bits in sixteen hexadecimal digits.
pub(crate) fn put_hex16(text: &mut Vec<u8>, word: u64) -> Result<(), OutOfMemory>
    ensures { OnOk result (text.new.items ≡ text.old.items ++ hex_digits 16 word) }
{
    put_hex8(text, (word / 0x1_0000_0000) as u32)?;
    put_hex8(text, (word % 0x1_0000_0000) as u32)
}

/// A number in decimal digits.
pub(crate) fn put_number(text: &mut Vec<u8>, n: u64) -> Result<(), OutOfMemory>
    ensures { OnOk result (text.new.items ≡ text.old.items ++ decimal n) }
{
    let mut buffer = Buffer::new();
    text.extend_from_slice(buffer.format(n).as_bytes())?;
    Ok(())
}

/// A signed number in decimal digits.
pub(crate) fn put_signed(text: &mut Vec<u8>, z: i64) -> Result<(), OutOfMemory>
    ensures { OnOk result (text.new.items ≡ text.old.items ++ signed_decimal z) }
{
    let mut buffer = Buffer::new();
    text.extend_from_slice(buffer.format(z).as_bytes())?;
    Ok(())
}

/// A number after a space.
pub(crate) fn put_spaced(text: &mut Vec<u8>, n: u32) -> Result<(), OutOfMemory>
    ensures { OnOk result (text.new.items ≡ text.old.items ++ spaced n) }
{
    text.extend_from_slice(b" ")?;
    put_number(text, u64::from(n))
}

/// Each number after a space.
pub(crate) fn put_all_spaced(text: &mut Vec<u8>, numbers: &[u32]) -> Result<(), OutOfMemory>
    ensures { OnOk result (text.new.items ≡ text.old.items ++ flat_map spaced numbers.now) }
{
    for n in numbers {
        put_spaced(text, *n)?;
    }
    Ok(())
}

/// That many spaces.
pub(crate) fn put_spaces(text: &mut Vec<u8>, count: usize) -> Result<(), OutOfMemory>
    requires { count < 2 ^ 33 }
    ensures ok { OnOk result (text.new.items ≡ text.old.items ++ replicate count 32) }
    ensures err { OnErr result (text.new.items ≡ text.old.items) }
{
    text.resize(text.len() + count, b' ')?;
    Ok(())
}

/// Bytes, each in two hexadecimal digits.
pub(crate) fn put_hex(text: &mut Vec<u8>, bytes: &[u8]) -> Result<(), OutOfMemory>
    ensures { OnOk result (text.new.items ≡ text.old.items ++ encode_lower bytes.now) }
{
    let mut rest = bytes;
    while rest.len() > CHUNK {
        let (chunk, after) = rest.split_at(CHUNK);
        put_chunk(text, chunk)?;
        rest = after;
    }
    put_chunk(text, rest)
}

// A few bytes, each in two hexadecimal digits.
fn put_chunk(text: &mut Vec<u8>, bytes: &[u8]) -> Result<(), OutOfMemory>
    requires { length bytes.now ≤ CHUNK }
    ensures { OnOk result (text.new.items ≡ text.old.items ++ encode_lower bytes.now) }
{
    let mut digits = [0; DIGITS];
    let end = digits_of(&mut digits, bytes);
    text.extend_from_slice(&digits[..end])?;
    Ok(())
}

// Whether the bytes are 21 to 7E alone.
#[tactic(auto, unfolding(crate::specs::Text::all_visible))]
fn are_visible(name: &[u8]) -> bool
    ensures { result ≡ all_visible name.now }
{
    let mut rest = name;
    while let Some((b, after)) = rest.split_first() {
        if !(0x21 <= *b && *b <= 0x7E) {
            return false;
        }
        rest = after;
    }
    true
}

// Whether a name is written as it is.
#[tactic(auto, unfolding(crate::specs::Text::is_word))]
fn is_plain(name: &[u8]) -> bool
    ensures { result ≡ is_word name.now }
{
    match name {
        [] => false,
        [b'x', b':', ..] => false,
        _ => are_visible(name),
    }
}

/// A name as it is, or `x:` and its bytes in hexadecimal digits.
#[tactic(auto, unfolding(crate::specs::Text::name_text))]
pub(crate) fn put_name(text: &mut Vec<u8>, name: &str) -> Result<(), OutOfMemory>
    ensures { OnOk result (text.new.items ≡ text.old.items ++ name_text name.now) }
{
    let bytes = name.as_bytes();
    if is_plain(bytes) {
        text.extend_from_slice(bytes)?;
        return Ok(());
    }
    text.extend_from_slice(b"x:")?;
    put_hex(text, bytes)
}

/// What has an index, as `func[1]`.
pub(crate) fn put_indexed(text: &mut Vec<u8>, name: &str, index: u64) -> Result<(), OutOfMemory>
    ensures { OnOk result (text.new.items ≡ text.old.items ++ indexed name.now index) }
{
    text.extend_from_slice(name.as_bytes())?;
    text.extend_from_slice(b"[")?;
    put_number(text, index)?;
    text.extend_from_slice(b"]")?;
    Ok(())
}
