//! What calls are asked for, by numbers and words.
ghost use Rattle.std.specs.Prelude.{◌≡◌, IfOk, option_map};
ghost use Rattle.wk_ffi.specs.Asked.{flag_of, keep_of, part_of, profile_of, short_enough};

use std::alloc::{AllocError, Global};
use std::str;
use wk_bytes::{LIMIT, Text};
use wk_list::Part;
use wk_module::Profile;

/// Whether the bytes are not too many to be read.
pub fn is_short(bytes: &[u8]) -> bool
    ensures { result ≡ short_enough bytes.now }
{
    bytes.len() <= LIMIT
}

/// The profile of a number.
pub fn profile_of(number: u32) -> Option<Profile>
    ensures { result ≡ profile_of number }
{
    match number {
        0 => Some(Profile::Core),
        1 => Some(Profile::Extended),
        _ => None,
    }
}

/// The part of a number.
pub fn part_of(number: u32) -> Option<Part>
    ensures { result ≡ part_of number }
{
    match number {
        0 => Some(Part::Headers),
        1 => Some(Part::Details),
        2 => Some(Part::Code),
        3 => Some(Part::Uses),
        _ => None,
    }
}

/// What a number says where it is 0 or 1.
pub fn flag_of(number: u32) -> Option<bool>
    ensures { result ≡ flag_of number }
{
    match number {
        0 => Some(false),
        1 => Some(true),
        _ => None,
    }
}

/// The name to keep: none where there are no bytes, and nothing where they are not UTF-8.
pub fn keep_of(name: &[u8]) -> Option<Option<&str>>
    ensures { option_map (option_map (λ name. name.now)) result ≡ keep_of name.now }
{
    if name.is_empty() {
        return Some(None);
    }
    match str::from_utf8(name) {
        Ok(name) => Some(Some(name)),
        Err(_) => None,
    }
}

/// The name in memory of its own.
pub fn owned(alloc: Global, name: Option<&str>) -> Result<Option<Text>, AllocError>
    ensures { IfOk result (λ text. text ≡ option_map (λ name. name.now) name.entry) }
{
    match name {
        Some(name) => Ok(Some(Text::from_string(String::from_str(alloc, name)?))),
        None => Ok(None),
    }
}
