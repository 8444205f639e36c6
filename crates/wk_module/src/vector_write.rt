//! Writing items one after the other (5.1.3): how long they get, and their bytes.

ghost use Rattle.std.specs.Prelude.{◌≡◌, ℕ, ◌+◌, ◌<◌, ◌≤◌, ◌++◌, length, OnOk, OnErr};
ghost use Rattle.wk_bytes.specs.Frames.{limit};
ghost use Rattle.wk_bytes.specs.Short.{short};
ghost use Rattle.wk_body.specs.Lengths.{limited, GrowsBy};
ghost use Rattle.wk_body.specs.Vectors.{written_vector};
ghost use Rattle.wk_body.specs.Written.{StaysInFront};
ghost use Rattle.wk_module.specs.Formats.{written_bytes};
ghost use Rattle.wk_module.specs.Writing.{list_contents};

use wk_bytes::{LIMIT, OutOfMemory, leb_len_u32, put_u32};

/// A way in which items of vectors are spelled, as they are written.
pub(crate) trait Writable {
    /// What is written.
    type Item;

    ghost use Rattle.std.specs.Prelude.{ℕ, List};

    // The bytes of the written form.
    ghost written: { Self.Item → List ℕ };

    /// The length so far with the written form added, or nothing past the limit.
    fn measure(item: &Self::Item, so_far: Option<u32>) -> Option<u32>
        ensures { GrowsBy (length (written item.now)) so_far result };

    /// Appends the written form, or a part of it where memory is refused.
    fn put(item: &Self::Item, bytes: &mut Vec<u8>) -> Result<(), OutOfMemory>
        requires { length (written item.now) ≤ limit }
        ensures ok { OnOk result (bytes.new.items ≡ bytes.old.items ++ written item.now) }
        ensures err { OnErr result (StaysInFront bytes.old.items bytes.new.items) };

    // No written form is empty.
    ghost some: { (x : Self.Item) → 0 < length (written x) };
}

/// A length with more added, or nothing past the limit.
pub(crate) fn plus(total: Option<u32>, more: usize) -> Option<u32>
    ensures { GrowsBy more total result }
{
    match total {
        Some(total) if total as usize <= LIMIT && more <= LIMIT - total as usize => {
            Some(total + more as u32)
        }
        _ => None,
    }
}

/// A length with an index or a count added.
pub(crate) fn plus_u32(total: Option<u32>, n: u32) -> Option<u32>
    ensures { GrowsBy (length (short n)) total result }
{
    plus(total, leb_len_u32(n))
}

/// A length with a count added, where at least as many bytes are in it already.
pub(crate) fn plus_count(total: Option<u32>, count: usize) -> Option<u32>
    ensures { (n : ℕ) → total ≡ limited n → count ≤ n
        → result ≡ limited (n + length (short count)) }
{
    if count > LIMIT {
        return None;
    }
    plus(total, leb_len_u32(count as u32))
}

/// A length with a vector added.
pub(crate) fn plus_vector<F: Writable>(items: &[F::Item], so_far: Option<u32>) -> Option<u32>
    ensures { GrowsBy (length (written_vector F.written items.now)) so_far result }
{
    let mut total = so_far;
    for item in items {
        total = F::measure(item, total);
    }
    plus_count(total, items.len())
}

/// A length with bytes and their number added.
pub(crate) fn plus_bytes(bytes: &[u8], so_far: Option<u32>) -> Option<u32>
    ensures { GrowsBy (length (written_bytes bytes.now)) so_far result }
{
    plus_count(plus(so_far, bytes.len()), bytes.len())
}

/// Appends a vector, or a part of it where memory is refused.
pub(crate) fn put_vector<F: Writable>(
    items: &[F::Item],
    bytes: &mut Vec<u8>,
) -> Result<(), OutOfMemory>
    requires { length (written_vector F.written items.now) ≤ limit }
    ensures ok { OnOk result
        (bytes.new.items ≡ bytes.old.items ++ written_vector F.written items.now) }
    ensures err { OnErr result (StaysInFront bytes.old.items bytes.new.items) }
{
    put_u32(bytes, items.len() as u32)?;
    for item in items {
        F::put(item, bytes)?;
    }
    Ok(())
}

/// Appends bytes behind their number, or a part of that where memory is refused.
pub(crate) fn put_bytes(piece: &[u8], bytes: &mut Vec<u8>) -> Result<(), OutOfMemory>
    requires { length piece.now ≤ limit }
    ensures ok { OnOk result (bytes.new.items ≡ bytes.old.items ++ written_bytes piece.now) }
    ensures err { OnErr result (StaysInFront bytes.old.items bytes.new.items) }
{
    put_u32(bytes, piece.len() as u32)?;
    bytes.extend_from_slice(piece)?;
    Ok(())
}

/// The length of the contents of a section that is a vector, which are none where it is empty; or nothing past the limit.
pub(crate) fn list_len<F: Writable>(items: &[F::Item]) -> Option<u32>
    ensures { result ≡ limited (length (list_contents F.written items.now)) }
{
    if items.is_empty() {
        return Some(0);
    }
    plus_vector::<F>(items, Some(0))
}

/// Appends the contents of a section that is a vector, which are none where it is empty; or a part of them where memory is refused.
pub(crate) fn put_list<F: Writable>(
    items: &[F::Item],
    bytes: &mut Vec<u8>,
) -> Result<(), OutOfMemory>
    requires { length (list_contents F.written items.now) ≤ limit }
    ensures ok { OnOk result
        (bytes.new.items ≡ bytes.old.items ++ list_contents F.written items.now) }
    ensures err { OnErr result (StaysInFront bytes.old.items bytes.new.items) }
{
    if items.is_empty() {
        return Ok(());
    }
    put_vector::<F>(items, bytes)
}
