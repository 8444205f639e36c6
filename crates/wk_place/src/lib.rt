//! Where a fault of a module lies in its bytes: the offset of the item, or of the token, that a verdict names, and the function.
//!
//! # What it promises
//!
//! - [`locate`] gives the offset of the place of a fault in these bytes, whatever their integers are padded to. `IsPlaceAt` of
//!   `specs/Places` says in the grammar's words which bytes stand there: what is in front of them spells what comes before the place. Where
//!   it gives none, the bytes have no such place (`IsNowhere`); of the fault of a module's verdict there always is one (`found`). In a body it
//!   gives the index of the function too (`func_index`). [`one_place`] is the law that there is one place at most.
//! - [`read_token`] gives the token that stands at an offset, for whoever prints it (`IsTokenThere`). Its labels are those of the reader.
//! - [`locate_token`] gives the text of the token that a fault names, as the code listing has it (`IsTokenText` of `specs/TokenTexts`).
//! - [`entry_of_fault`] gives the entry of an element segment that a fault means: the first of several functions of the segment that the
//!   module has not (`IsEntry` of `specs/Entries`).
//! - [`func_of_fault`] gives the function in whose body the first fault of an input lies that spells no module (`IsInBodyOf`).
//!
//! Each may want memory, and answers then [`OutOfMemory`](wk_bytes::OutOfMemory).
//!
//! # What it costs
//!
//! `locate` goes over the frames of an input, the items of one section up to the place, and the tokens of one item. Codes in front are
//! passed by their sizes. It reads the imports for the index of a function. `func_of_fault` reads the bodies up to the broken one. What they
//! hold is room for one item, and no recursion goes over nested blocks.
#![tactic(auto)]

mod entries;
mod faults;
mod items;
mod place;
mod sections;
mod token_text;
mod tokens;
mod tokens_there;

pub use entries::entry_of_fault;
pub use faults::func_of_fault;
pub use place::{Located, locate, one_place};
pub use token_text::locate_token;
pub use tokens_there::read_token;
