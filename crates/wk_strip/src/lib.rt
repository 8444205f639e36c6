//! A module without its custom sections, from bytes to bytes, in the room of the bytes: no body is kept.
//!
//! # What it promises
//!
//! - [`strip_bytes`] gives the written form of the one module that bytes spell in a profile, without its custom sections or with those of
//!   one name (`with_kept` of `specs/Stripped`, settled and `encoded`), or the fault of reading it, or `Memory` at 0. So it is `encode` of
//!   what `read_in` gives with other custom sections. Its clause `meaning` tells it in words (`IsStripped`): the module that is spelled,
//!   that what is made of it fits, and that what comes spells this and no other; `refused` and `fault` are those of `read_in`. That it
//!   keeps no body, and writes codes over those that it read, is no clause.
//! - [`Stripped`] is seen as its bytes, which [`Stripped::as_slice`] lends.
#![tactic(auto)]

mod codes;
mod customs;
mod sections;
mod strip;
mod stripped;

pub use strip::strip_bytes;
pub use stripped::Stripped;
