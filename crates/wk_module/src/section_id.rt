//! The ids of sections (5.5.2), in the order in which sections stand. Custom sections stand anywhere among them.

/// A custom section (5.5.3).
pub const CUSTOM: u8 = 0;

/// The types of functions (5.5.4).
pub const TYPE: u8 = 1;

/// What is imported (5.5.5).
pub const IMPORT: u8 = 2;

/// The type index of each function that is defined (5.5.6).
pub const FUNCTION: u8 = 3;

/// The tables (5.5.7).
pub const TABLE: u8 = 4;

/// The memories (5.5.8).
pub const MEMORY: u8 = 5;

/// The globals (5.5.9).
pub const GLOBAL: u8 = 6;

/// What is exported (5.5.10).
pub const EXPORT: u8 = 7;

/// The start function (5.5.11).
pub const START: u8 = 8;

/// The element segments (5.5.12).
pub const ELEMENT: u8 = 9;

/// The bodies of the functions that are defined (5.5.13).
pub const CODE: u8 = 10;

/// The data segments (5.5.14).
pub const DATA: u8 = 11;

/// The greatest id.
pub const LAST: u8 = DATA;

/// How many ids there are.
pub const COUNT: usize = 12;
