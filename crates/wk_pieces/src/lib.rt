//! What is kept of the written form of a module, and how it is put together.
//!
//! # What it promises
//!
//! - [`EncodedSections`] is the written form in pieces: each is what writing the module anew gives (`ArePieces` of `specs/Pieces`), and
//!   [`EncodedSections::of`] makes them of a module that fits, by the codes of its functions.
//! - [`remake_section`], [`encoded_body`] and [`code_in_room`] make one piece anew and count it. They give the contents of the section, or
//!   the code, of the module written from scratch; they are refused for want of memory, or where these are more than a module may have
//!   (`IsOverlong`). [`one_remade`] makes the contents of one section and of no other (`IsOneRemade`). [`NewSections`] has those that were
//!   made, and [`no_news`] none.
//! - [`append_item`] and [`remove_item`] change the kept contents of a list where they stand (`with_item` of `specs/Longer`, `without_item`
//!   of `specs/Shorter`), or leave them as they were; [`grown_len`] and [`shrunk_len`] tell how long they get. Of a section whose items
//!   are written one behind the other these are the contents of the list with that item more, or without it: whoever calls them shows so.
//! - [`replace_each`] puts each new item that there is in the place of the old one (`with_items` of `specs/Overlays`).
//! - [`module_len`] is the length of the written form by the lengths of its pieces, or nothing past 2,147,483,647. [`sizes_of`],
//!   [`sizes_with`], [`sizes_after`], [`code_contents`], [`plus_code`], [`codes_len_after`] and [`customs_len`] tell these lengths.
//! - [`Codes`] is seen as a list of codes: those that are kept, or others in the place of some. [`put_module`] appends the written form with
//!   these codes (`encoded_with` of `specs/Recoded`); after a fault a beginning of it stands taken. With the codes of bodies it is the
//!   written form of the module with these bodies (`recoded` of `specs/RecodedLaws`).
//!
//! # What it costs
//!
//! A piece that is made costs its bytes. An item that comes costs its own, but where the count in front of all gets longer; one that goes
//! moves the bytes behind it. Lengths cost one look at each piece and no byte of it, and putting out takes no memory. What is
//! kept is each code, and the contents of each section but custom sections, whose bytes the module holds.
#![tactic(auto)]

mod appending;
mod codes;
mod lengths;
mod pieces;
mod removing;
mod replace;
mod written;

pub use appending::{append_item, grown_len};
pub use codes::Codes;
pub use lengths::{
    code_contents, codes_len_after, customs_len, module_len, plus_code, sizes_after, sizes_of,
    sizes_with,
};
pub use pieces::{
    EncodedSections, NewSections, code_in_room, encoded_body, no_news, one_remade, remake_section,
};
pub use removing::{Span, remove_item, shrunk_len};
pub use replace::replace_each;
pub use written::put_module;
