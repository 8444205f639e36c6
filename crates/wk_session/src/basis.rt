//! What an edit is planned on.

use crate::cache::Cache;
use wk_module::Parts;

/// What an edit is planned on: a module, and what is kept of it. What comes with the edit may stand in either already.
#[derive(Clone, Copy)]
pub(crate) struct Basis<'a> {
    /// Whether the module that comes of it has to be valid.
    pub(crate) keep: bool,
    /// The lists of the module.
    pub(crate) parts: &'a Parts,
    /// What is kept beside them.
    pub(crate) kept: &'a Cache,
}
