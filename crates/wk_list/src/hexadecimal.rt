//! Hexadecimal digits, two at a time.

ghost use Rattle.std.specs.Prelude.{◌≡◌, ◌<◌, ◌≤◌, ◌*◌, ◌/◌, ◌%◌, ◌∷◌, [], length, take};
ghost use Rattle.std.specs.List.{flat_map};
ghost use Rattle.wk_bytes.specs.HexDigits.{hex_digit, hex_digits};
ghost use Rattle.wk_list.specs.Text.{both_digits};

/// Both hexadecimal digits of each byte.
static PAIRS: [u8; 512] = *b"000102030405060708090a0b0c0d0e0f101112131415161718191a1b1c1d1e1f\
      202122232425262728292a2b2c2d2e2f303132333435363738393a3b3c3d3e3f\
      404142434445464748494a4b4c4d4e4f505152535455565758595a5b5c5d5e5f\
      606162636465666768696a6b6c6d6e6f707172737475767778797a7b7c7d7e7f\
      808182838485868788898a8b8c8d8e8f909192939495969798999a9b9c9d9e9f\
      a0a1a2a3a4a5a6a7a8a9aaabacadaeafb0b1b2b3b4b5b6b7b8b9babbbcbdbebf\
      c0c1c2c3c4c5c6c7c8c9cacbcccdcecfd0d1d2d3d4d5d6d7d8d9dadbdcdddedf\
      e0e1e2e3e4e5e6e7e8e9eaebecedeeeff0f1f2f3f4f5f6f7f8f9fafbfcfdfeff";

/// Both digits of a byte.
#[inline(always)]
#[tactic(auto, using(crate::proofs::Digits::pair_at))]
pub(crate) fn pair(byte: u32) -> [u8; 2]
    requires { byte < 256 }
    ensures { result ≡ hex_digit (byte / 16) ∷ hex_digit (byte % 16) ∷ [] }
{
    let from = byte as usize * 2;
    [PAIRS[from], PAIRS[from + 1]]
}

/// A number in eight digits.
#[inline(always)]
pub(crate) fn eight_digits(n: u32) -> [u8; 8]
    ensures { result ≡ hex_digits 8 n }
{
    let [a, b] = pair(n / 0x100_0000);
    let [c, d] = pair(n / 0x1_0000 % 256);
    let [e, f] = pair(n / 0x100 % 256);
    let [g, h] = pair(n % 256);
    [a, b, c, d, e, f, g, h]
}

/// How many digits are put together before they go behind a text.
pub(crate) const DIGITS: usize = 1 << 9;

/// Bytes, each in both its digits. The answer is how many digits they are.
pub(crate) fn digits_of(digits: &mut [u8; DIGITS], bytes: &[u8]) -> usize
    requires { 2 * length bytes.now ≤ DIGITS }
    ensures inside { result ≤ DIGITS }
    ensures text { take result digits.new ≡ flat_map both_digits bytes.now }
{
    let mut end = 0;
    for byte in bytes {
        digits[end..end + 2].copy_from_slice(&pair(u32::from(*byte)));
        end += 2;
    }
    end
}
