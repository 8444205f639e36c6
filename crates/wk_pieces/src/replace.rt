//! Lists of which an edit makes some items anew.

ghost use Rattle.std.specs.Prelude.{◌≡◌, ◌<◌, ◌≤◌, Some, length, slice_get};
ghost use Rattle.wk_pieces.specs.Overlays.{with_items};

/// Puts each new item that there is in the place of the old one. It takes no memory.
pub fn replace_each<T: Drop>(items: &mut Vec<T>, news: Vec<Option<T>>)
    requires { length news.items ≤ length items.old.items }
    ensures { items.new.items ≡ with_items items.old.items news.items }
{
    let mut news = news;
    while let Some(new) = news.pop() {
        if let Some(item) = new {
            let index = news.len();
            items[index] = item;
        }
    }
}

/// The item of an index, or the new one in its place. Behind the last of the new ones items stay.
pub(crate) fn item_at<'a, T>(items: &'a Vec<T>, news: &'a [Option<T>], index: usize) -> &'a T
    requires { index < length items.now.items }
    ensures { slice_get (with_items items.now.items news.now) index ≡ Some result.now }
{
    match news.get(index) {
        Some(new) => new.as_ref().unwrap_or(&items[index]),
        None => &items[index],
    }
}
