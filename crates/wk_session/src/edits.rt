//! The edits, each in a file of its own: first all that may be refused, then the change, which takes no memory.

mod body;
mod code_entry;
mod custom;
mod export;
mod func_type;
mod function;
mod global;
mod import;
mod plan_append;
mod renumber;

pub(crate) use body::put_body;
pub(crate) use custom::{set_custom, strip_all, strip_custom};
pub(crate) use export::{add_export, remove_export};
pub(crate) use func_type::add_type;
pub(crate) use function::add_func;
pub(crate) use global::add_global;
pub(crate) use import::add_import;
