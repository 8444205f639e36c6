//! A module, edits of it as a script, and what they make of it.

use crate::sections::Sections;

/// Three types, and four custom sections in two places, two of one name. It is in its written form, and valid.
pub const MODULE: &[u8] = b"\0asm\x01\0\0\0\
    \x00\x06\x04name\x07\
    \x01\x11\x03\x60\x00\x00\x60\x02\x7f\x7e\x01\x7d\x60\x04\x7f\x7f\x7c\x7c\x00\
    \x00\x0a\x05first\x01\x02\x03\x04\
    \x00\x07\x06second\
    \x00\x08\x05first\x05\x06";

/// The module with a type from i32 to f64.
pub const WITH_TYPE: Sections = &[(
    1,
    b"\x01\x16\x04\x60\x00\x00\x60\x02\x7f\x7e\x01\x7d\x60\x04\x7f\x7f\x7c\x7c\x00\x60\x01\x7f\x01\x7c",
)];

/// The module without the custom sections named `first`.
pub const STRIPPED: Sections = &[(2, b""), (4, b"")];

/// The module with the byte 9 in the custom section `second`.
pub const WITH_BYTES: Sections = &[(3, b"\x00\x08\x06second\x09")];

/// The module with a custom section `new` of the byte 9.
pub const WITH_CUSTOM: Sections = &[(5, b"\x00\x05\x03new\x09")];

/// The module without custom sections.
pub const WITHOUT_CUSTOMS: Sections = &[(0, b""), (2, b""), (3, b""), (4, b"")];

/// The module after the edits of [`SCRIPT`]: with two types more, the second one invalid, and without `first`.
pub const EDITED: &[u8] = b"\0asm\x01\0\0\0\
    \x00\x06\x04name\x07\
    \x01\x1b\x05\x60\x00\x00\x60\x02\x7f\x7e\x01\x7d\x60\x04\x7f\x7f\x7c\x7c\x00\x60\x01\x7f\x01\x7c\x60\x00\x02\x7f\x7f\
    \x00\x07\x06second";

/// Edits as a script: a type, the stripping of two custom sections, one that is refused, and a type that is invalid.
pub const SCRIPT: &[u8] =
    b"type i32 f64\ncustom strip first\n\ncustom strip absent\ntype - i32,i32";

/// What the edits are answered, and the verdict after them.
pub const REPORT: &[u8] = b"1 ok\n\
    2 ok\n\
    3 refused E3 NoSuchCustom\n\
    4 ok\n\
    invalid V1 TypeArity at section 1 item 4\n";

/// A valid module with code of each kind: imports of each kind, an initialiser, two exports, a start function, offsets, and a body
/// with a parameter, a local and a block. Judging it takes room for imports, for the types of its functions, for the names of its
/// exports, for local groups, for operands and for open blocks.
pub const VALID: &[u8] = b"\0asm\x01\0\0\0\
    \x01\x09\x02\x60\x00\x00\x60\x01\x7f\x01\x7e\
    \x02\x1e\x04\x01a\x01f\x00\x00\x01a\x01t\x01\x70\x01\x01\x02\x01a\x01m\x02\x00\x01\x01a\x01g\x03\x7f\x00\
    \x03\x02\x01\x01\
    \x06\x06\x01\x7f\x01\x41\x00\x0b\
    \x07\x09\x02\x01f\x00\x01\x01g\x03\x01\
    \x08\x01\x00\
    \x09\x08\x01\x00\x23\x00\x0b\x02\x00\x01\
    \x0a\x0f\x01\x0d\x01\x01\x7e\x02\x40\x20\x00\x0d\x00\x0b\x42\x00\x0b\
    \x0b\x08\x01\x00\x41\x00\x0b\x02\xaa\xbb";

/// The valid module with a type from i32 to f64.
pub const VALID_WITH_TYPE: &[u8] = b"\0asm\x01\0\0\0\
    \x01\x0e\x03\x60\x00\x00\x60\x01\x7f\x01\x7e\x60\x01\x7f\x01\x7c\
    \x02\x1e\x04\x01a\x01f\x00\x00\x01a\x01t\x01\x70\x01\x01\x02\x01a\x01m\x02\x00\x01\x01a\x01g\x03\x7f\x00\
    \x03\x02\x01\x01\
    \x06\x06\x01\x7f\x01\x41\x00\x0b\
    \x07\x09\x02\x01f\x00\x01\x01g\x03\x01\
    \x08\x01\x00\
    \x09\x08\x01\x00\x23\x00\x0b\x02\x00\x01\
    \x0a\x0f\x01\x0d\x01\x01\x7e\x02\x40\x20\x00\x0d\x00\x0b\x42\x00\x0b\
    \x0b\x08\x01\x00\x41\x00\x0b\x02\xaa\xbb";

/// What stands otherwise in it.
pub const VALID_TYPES: Sections = &[(
    0,
    b"\x01\x0e\x03\x60\x00\x00\x60\x01\x7f\x01\x7e\x60\x01\x7f\x01\x7c",
)];

/// A module of a memory that is exported twice, most of the section by a name of 60 bytes.
pub const MOSTLY_ONE_NAME: &[u8] = b"\0asm\x01\0\0\0\
    \x05\x03\x01\x00\x01\
    \x07\x44\x02\x01m\x02\x00\
    \x3cnnnnnnnnnnnnnnnnnnnnnnnnnnnnnnnnnnnnnnnnnnnnnnnnnnnnnnnnnnnn\x02\x00";

/// The same without that name.
pub const WITHOUT_LONG_NAME: Sections = &[(1, b"\x07\x05\x01\x01m\x02\x00")];

/// A custom section `new` of the byte 9, which an edit puts behind all others.
pub const NEW_CUSTOM: &[u8] = b"\x00\x05\x03new\x09";

/// The report of [`VALID_SCRIPT`].
pub const VALID_REPORT: &[u8] = b"1 ok\nvalid\n";

/// The edit that makes [`VALID_WITH_TYPE`], as a script.
pub const VALID_SCRIPT: &[u8] = b"type i32 f64\n";
