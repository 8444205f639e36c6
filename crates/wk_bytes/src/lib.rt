//! Bytes of a WebAssembly module: integers, words, names, frames, and where bytes go.
//!
//! # What it promises
//!
//! - A [`Cursor`] is seen as a *span*: the bytes that are left, and the offset in the whole input at which they end (`specs/Span`). So
//!   faults carry offsets of the whole input, also from within a section's contents ([`RawSection::cursor`], [`Cursor::within`]).
//! - A reading call of a cursor has three clauses. `exact`: the answer and the rest are those of a reader on lists (`u32_at`,
//!   `name_at`, ..). `spelling`: a front of the rest is a spelling of the answer by the relation, and the cursor moved past it; or no
//!   front is a spelling of any value, and the cursor did not move. `stands`: a fault stands, that is, the bytes from its offset on are
//!   as its kind says (`specs/Stands`). Of a piece and a word that is `short`: fewer bytes are left than it has.
//! - [`Sections`] is an iterator whose value, to a contract, is the list of items to come: the frames, in order. A fault comes at most
//!   once, and last; where none comes, the bytes are the header and these frames alone.
//! - [`put_u32`] and its kin append the shortest spelling, and `leb_len_*` count it. [`one_spelling`] and [`one_spelling_of_pieces`]
//!   carry the laws that no spelling begins another and that a spelling has one value.
//! - [`Items`] and [`Text`] are a vector and a string that contracts see as the list of items and of bytes. Where a growth is refused
//!   they are as before.
//! - An [`Out`] appends what it says it took, and counts its failures. [`put_all`] makes it take all of the bytes, or after a failure a
//!   beginning of them. A [`Sink`] takes each piece whole, and fails only where it has no room.
#![tactic(auto)]

mod cursor;
mod display;
mod fault;
mod items;
mod leb;
mod memory;
mod output;
mod raw;
mod sections;
mod text;
mod writing;
mod writing_signed;

pub use cursor::{Cursor, LIMIT, one_spelling_of_pieces};
pub use fault::{ReadFault, ReadKind};
pub use items::Items;
pub use leb::one_spelling;
pub use memory::OutOfMemory;
pub use output::{Out, OutFault, Sink, Stream, put_all};
pub use raw::RawSection;
pub use sections::Sections;
pub use text::Text;
pub use writing::{leb_len_u32, out_u32, put_u32};
pub use writing_signed::{leb_len_s64, put_s32, put_s33, put_s64};
