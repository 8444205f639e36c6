//! Modules, and what they become.

/// The header of a module.
pub const HEADER: &[u8] = b"\0asm\x01\0\0\0";

/// Every section, and custom sections before, among and behind them. It is in its written form.
pub const WHOLE: &[u8] = b"\0asm\x01\0\0\0\
    \x00\x03\x01a\xaa\
    \x01\x09\x02\x60\x00\x00\x60\x01\x7f\x01\x7e\
    \x02\x1e\x04\x01a\x01f\x00\x00\x01a\x01t\x01\x70\x01\x01\x02\x01a\x01m\x02\x00\x01\x01a\x01g\x03\x7f\x00\
    \x03\x02\x01\x00\
    \x04\x04\x01\x70\x00\x03\
    \x05\x04\x01\x01\x01\x02\
    \x06\x06\x01\x7f\x01\x41\x00\x0b\
    \x07\x05\x01\x01f\x00\x01\
    \x08\x01\x00\
    \x09\x08\x01\x00\x41\x00\x0b\x02\x00\x01\
    \x0a\x06\x01\x04\x01\x01\x7e\x0b\
    \x00\x02\x01b\
    \x0b\x08\x01\x00\x41\x00\x0b\x02\xaa\xbb\
    \x00\x01\x00";

/// The contents of a section.
#[derive(Clone, Copy, Debug)]
pub struct Contents {
    /// The id of the section.
    pub id: u8,
    /// Its contents.
    pub bytes: &'static [u8],
}

/// The sections of the whole module that hold lists, but that of the codes.
pub const OF_WHOLE: [Contents; 10] = [
    Contents {
        id: 1,
        bytes: b"\x02\x60\x00\x00\x60\x01\x7f\x01\x7e",
    },
    Contents {
        id: 2,
        bytes: b"\x04\x01a\x01f\x00\x00\x01a\x01t\x01\x70\x01\x01\x02\x01a\x01m\x02\x00\x01\x01a\x01g\x03\x7f\x00",
    },
    Contents {
        id: 3,
        bytes: b"\x01\x00",
    },
    Contents {
        id: 4,
        bytes: b"\x01\x70\x00\x03",
    },
    Contents {
        id: 5,
        bytes: b"\x01\x01\x01\x02",
    },
    Contents {
        id: 6,
        bytes: b"\x01\x7f\x01\x41\x00\x0b",
    },
    Contents {
        id: 7,
        bytes: b"\x01\x01f\x00\x01",
    },
    Contents {
        id: 8,
        bytes: b"\x00",
    },
    Contents {
        id: 9,
        bytes: b"\x01\x00\x41\x00\x0b\x02\x00\x01",
    },
    Contents {
        id: 11,
        bytes: b"\x01\x00\x41\x00\x0b\x02\xaa\xbb",
    },
];

/// The contents of the custom sections of the whole module.
pub const CUSTOMS_OF_WHOLE: [&[u8]; 3] = [b"\x01a\xaa", b"\x01b", b"\x00"];

/// A padded size, a section of no items, and a padded index.
pub const LONGER: &[u8] = b"\0asm\x01\0\0\0\
    \x01\x84\x80\x00\x01\x60\x00\x00\
    \x02\x01\x00\
    \x08\x02\x81\x00";

/// Its written form.
pub const SHORTEST: &[u8] = b"\0asm\x01\0\0\0\x01\x04\x01\x60\x00\x00\x08\x01\x01";

/// A function whose block has a type by its index, which only the wider profile has.
pub const EXTENDED: &[u8] = b"\0asm\x01\0\0\0\
    \x01\x09\x02\x60\x00\x00\x60\x01\x7f\x01\x7f\
    \x03\x02\x01\x00\
    \x0a\x0b\x01\x09\x00\x41\x00\x02\x01\x45\x0b\x1a\x0b";

/// A function, an export of it, the custom section `c` and the code.
pub const EXPORTED: &[u8] = b"\0asm\x01\0\0\0\
    \x01\x04\x01\x60\x00\x00\
    \x03\x02\x01\x00\
    \x07\x05\x01\x01f\x00\x00\
    \x00\x03\x01c\xaa\
    \x0a\x04\x01\x02\x00\x0b";

/// The same without the export.
pub const PRIVATE: &[u8] = b"\0asm\x01\0\0\0\
    \x01\x04\x01\x60\x00\x00\
    \x03\x02\x01\x00\
    \x00\x03\x01c\xaa\
    \x0a\x04\x01\x02\x00\x0b";

/// Two functions, an export, a data segment, and custom sections in front of the code and behind it.
pub const TWO_CODES: &[u8] = b"\0asm\x01\0\0\0\
    \x00\x02\x01c\
    \x01\x05\x01\x60\x00\x01\x7f\
    \x03\x03\x02\x00\x00\
    \x07\x05\x01\x01f\x00\x01\
    \x0a\x0b\x02\x04\x00\x41\x07\x0b\x04\x00\x41\x08\x0b\
    \x00\x02\x01d\
    \x0b\x07\x01\x00\x41\x00\x0b\x01\xaa";

/// The codes of these functions.
pub const CODES_OF_TWO: [&[u8]; 2] = [b"\x00\x41\x07\x0b", b"\x00\x41\x08\x0b"];

/// A global, two exports, a start function, an element segment and a data segment, each of which names what has the index 1.
pub const ALL_OF_ONE: &[u8] = b"\0asm\x01\0\0\0\
    \x06\x06\x01\x7d\x01\x23\x01\x0b\
    \x07\x09\x02\x01\x61\x03\x01\x01\x62\x00\x01\
    \x08\x01\x01\
    \x09\x08\x01\x01\x23\x01\x0b\x02\x00\x01\
    \x0b\x08\x01\x01\x23\x01\x0b\x02\xaa\xbb";
