//! The listings of a module: its headers, its details, its code, and what its functions refer to.
//!
//! # What it promises
//!
//! - A [`Shape`] is what a listing asks of a module: its parts, as a shaped module that fits, and the lengths of its sections, custom
//!   sections and codes, each tied to the written form. [`list`] is proved for every `Shape`. [`Plain`] is the one that counts lengths
//!   from a module when they are asked for, without memory; [`Plain::of`] is nothing exactly where the module does not fit.
//!   [`Layout`] measures each body once and keeps the sizes; [`Layout::of`] is refused where the module does not fit, or memory.
//! - A [`Summary`] is a module that was read without its bodies, which were measured: [`Summary::read`] gives the module that the bytes
//!   spell, or its first fault, as `read_in` of `wk_module` does. [`list_summary`] lists its headers and its details.
//! - The text of a part (`listing` of `specs/Listing`) is a function of the module alone: `headers_text` (`specs/Headers`),
//!   `details_text` (`specs/Details`), `code_text` (`specs/CodeText`) and `uses_text` (`specs/Uses`). Where a section begins in it is
//!   said by the lengths of the written bytes in front. The code is said on the instruction tree, by recursion, with the depth and the
//!   offset handed down; what stands in front of an instruction is counted by its written bytes.
//! - [`list`] and [`list_summary`] make the `Out` take that text, or after a fault a beginning of it; they count one failure more
//!   exactly where they answer `Write`.
//! - [`token_text`] is the text of one token, as the code listing has it (`tok_text` of `specs/TokenText`).
//! - [`put_header`] appends the line of a section as far as its size (`header_text`), which `sections` of the program prints too. Where it
//!   is refused, the text is as before.
//!
//! Nothing recurses over nested blocks: tokens are listed as they are kept. Text goes out in pieces, so that no part is held whole:
//! what is held is a piece, a buffer of 4 KB, one line (as long as its item needs), and the bytes of one initialiser or what one function
//! refers to.
#![tactic(auto)]

mod code;
mod details;
mod display;
mod fast_line;
mod fault;
mod header;
mod headers;
mod hexadecimal;
mod imports;
mod layout;
mod line_buffer;
mod listing;
mod page;
mod plain;
mod rows;
mod shape;
mod sketch;
mod spaces;
mod summary;
mod text;
mod token;
mod typetext;
mod uses;

pub use fault::ListFault;
pub use header::put_header;
pub use layout::Layout;
pub use listing::{Part, list};
pub use plain::Plain;
pub use shape::Shape;
pub use summary::{Summary, list_summary};
pub use token::token_text;
