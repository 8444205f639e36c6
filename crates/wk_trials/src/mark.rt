//! Where the call under test begins and ends. `tests/refusals/refuse.c` knows the two sizes.

use std::alloc::{AllocError, Global};

const BEGINS: usize = 770_001;

const ENDS: usize = 770_002;

// What it is answered makes no difference: a mark that is refused is not counted, which the script finds.
fn allocate(alloc: Global, size: usize) {
    let _mark: Result<Vec<u8>, AllocError> = Vec::with_capacity(alloc, size);
}

/// From here on allocations are counted.
pub(crate) fn call_begins(alloc: Global) {
    allocate(alloc, BEGINS);
}

/// From here on they are not.
pub(crate) fn call_ends(alloc: Global) {
    allocate(alloc, ENDS);
}
