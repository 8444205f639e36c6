//! Why a module is not written.

/// Why a module is not written.
#[derive(Clone, Copy, Debug, PartialEq, Eq)]
pub enum WriteFault {
    /// The output failed. A beginning of the bytes was taken.
    Write,
    /// A growth was refused. Nothing was taken. [`Session::write`](crate::Session::write) takes no memory, and never answers it.
    Memory,
}
