//! The ways in which items of vectors are spelled. Each is a name alone: `item_read` and `item_write` say what it does.

/// Value types (5.3.1).
pub(crate) struct ValTypes;

/// Function types (5.3.3).
pub(crate) struct FuncTypes;

/// Imports (5.5.5).
pub(crate) struct Imports;

/// Indices (5.5.1), of the types of functions and of functions.
pub(crate) struct Indices;

/// Table types (5.3.6).
pub(crate) struct Tables;

/// Memory types (5.3.5).
pub(crate) struct Memories;

/// Globals (5.5.9).
pub(crate) struct Globals;

/// Exports (5.5.10).
pub(crate) struct Exports;

/// Element segments (5.5.12).
pub(crate) struct Elems;

/// The type indices of functions (5.5.6).
pub(crate) struct FuncIndices;

/// Data segments (5.5.14).
pub(crate) struct Datas;
