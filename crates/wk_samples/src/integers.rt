//! Integers, and their shortest spellings in LEB128.

/// An integer without a sign.
#[derive(Clone, Copy, Debug)]
pub struct Unsigned {
    /// The integer.
    pub value: u32,
    /// Its spelling.
    pub bytes: &'static [u8],
}

/// An integer with a sign.
#[derive(Clone, Copy, Debug)]
pub struct Signed {
    /// The integer.
    pub value: i64,
    /// Its spelling, in the form for integers with a sign.
    pub bytes: &'static [u8],
}

/// Integers of each length of spelling, and 624,485, the usual example.
pub const UNSIGNED: [Unsigned; 12] = [
    Unsigned {
        value: 0,
        bytes: b"\x00",
    },
    Unsigned {
        value: 1,
        bytes: b"\x01",
    },
    Unsigned {
        value: 63,
        bytes: b"\x3f",
    },
    Unsigned {
        value: 64,
        bytes: b"\x40",
    },
    Unsigned {
        value: 127,
        bytes: b"\x7f",
    },
    Unsigned {
        value: 128,
        bytes: b"\x80\x01",
    },
    Unsigned {
        value: 300,
        bytes: b"\xac\x02",
    },
    Unsigned {
        value: 16_383,
        bytes: b"\xff\x7f",
    },
    Unsigned {
        value: 16_384,
        bytes: b"\x80\x80\x01",
    },
    Unsigned {
        value: 624_485,
        bytes: b"\xe5\x8e\x26",
    },
    Unsigned {
        value: 1 << 28,
        bytes: b"\x80\x80\x80\x80\x01",
    },
    Unsigned {
        value: u32::MAX,
        bytes: b"\xff\xff\xff\xff\x0f",
    },
];

/// More of them, about where three and four bytes end.
pub const UNSIGNED_BORDERS: [Unsigned; 3] = [
    Unsigned {
        value: 2_097_151,
        bytes: b"\xff\xff\x7f",
    },
    Unsigned {
        value: 2_097_152,
        bytes: b"\x80\x80\x80\x01",
    },
    Unsigned {
        value: 268_435_455,
        bytes: b"\xff\xff\xff\x7f",
    },
];

/// Integers of 32 bits.
pub const SIGNED_32: [Signed; 17] = [
    Signed {
        value: 0,
        bytes: b"\x00",
    },
    Signed {
        value: 1,
        bytes: b"\x01",
    },
    Signed {
        value: 63,
        bytes: b"\x3f",
    },
    Signed {
        value: 64,
        bytes: b"\xc0\x00",
    },
    Signed {
        value: 127,
        bytes: b"\xff\x00",
    },
    Signed {
        value: 128,
        bytes: b"\x80\x01",
    },
    Signed {
        value: 300,
        bytes: b"\xac\x02",
    },
    Signed {
        value: 8_191,
        bytes: b"\xff\x3f",
    },
    Signed {
        value: 8_192,
        bytes: b"\x80\xc0\x00",
    },
    Signed {
        value: 624_485,
        bytes: b"\xe5\x8e\x26",
    },
    Signed {
        value: 2_147_483_647,
        bytes: b"\xff\xff\xff\xff\x07",
    },
    Signed {
        value: -1,
        bytes: b"\x7f",
    },
    Signed {
        value: -64,
        bytes: b"\x40",
    },
    Signed {
        value: -65,
        bytes: b"\xbf\x7f",
    },
    Signed {
        value: -128,
        bytes: b"\x80\x7f",
    },
    Signed {
        value: -123_456,
        bytes: b"\xc0\xbb\x78",
    },
    Signed {
        value: -2_147_483_648,
        bytes: b"\x80\x80\x80\x80\x78",
    },
];

/// More of them, about where two, three and four bytes end.
pub const SIGNED_32_BORDERS: [Signed; 9] = [
    Signed {
        value: 1_048_575,
        bytes: b"\xff\xff\x3f",
    },
    Signed {
        value: 1_048_576,
        bytes: b"\x80\x80\xc0\x00",
    },
    Signed {
        value: 134_217_728,
        bytes: b"\x80\x80\x80\xc0\x00",
    },
    Signed {
        value: -8_192,
        bytes: b"\x80\x40",
    },
    Signed {
        value: -8_193,
        bytes: b"\xff\xbf\x7f",
    },
    Signed {
        value: -1_048_576,
        bytes: b"\x80\x80\x40",
    },
    Signed {
        value: -1_048_577,
        bytes: b"\xff\xff\xbf\x7f",
    },
    Signed {
        value: -134_217_728,
        bytes: b"\x80\x80\x80\x40",
    },
    Signed {
        value: -134_217_729,
        bytes: b"\xff\xff\xff\xbf\x7f",
    },
];

/// Integers of 33 bits and no fewer.
pub const SIGNED_33: [Signed; 4] = [
    Signed {
        value: 2_147_483_648,
        bytes: b"\x80\x80\x80\x80\x08",
    },
    Signed {
        value: 4_294_967_295,
        bytes: b"\xff\xff\xff\xff\x0f",
    },
    Signed {
        value: -2_147_483_649,
        bytes: b"\xff\xff\xff\xff\x77",
    },
    Signed {
        value: -4_294_967_296,
        bytes: b"\x80\x80\x80\x80\x70",
    },
];

/// Integers of 64 bits and no fewer.
pub const SIGNED_64: [Signed; 2] = [
    Signed {
        value: i64::MAX,
        bytes: b"\xff\xff\xff\xff\xff\xff\xff\xff\xff\x00",
    },
    Signed {
        value: i64::MIN,
        bytes: b"\x80\x80\x80\x80\x80\x80\x80\x80\x80\x7f",
    },
];

/// Integers of 64 bits about where five, six, seven, eight and nine bytes end.
pub const SIGNED_64_BORDERS: [Signed; 20] = [
    Signed {
        value: 17_179_869_183,
        bytes: b"\xff\xff\xff\xff\x3f",
    },
    Signed {
        value: 17_179_869_184,
        bytes: b"\x80\x80\x80\x80\xc0\x00",
    },
    Signed {
        value: -17_179_869_184,
        bytes: b"\x80\x80\x80\x80\x40",
    },
    Signed {
        value: -17_179_869_185,
        bytes: b"\xff\xff\xff\xff\xbf\x7f",
    },
    Signed {
        value: 2_199_023_255_551,
        bytes: b"\xff\xff\xff\xff\xff\x3f",
    },
    Signed {
        value: 2_199_023_255_552,
        bytes: b"\x80\x80\x80\x80\x80\xc0\x00",
    },
    Signed {
        value: -2_199_023_255_552,
        bytes: b"\x80\x80\x80\x80\x80\x40",
    },
    Signed {
        value: -2_199_023_255_553,
        bytes: b"\xff\xff\xff\xff\xff\xbf\x7f",
    },
    Signed {
        value: 281_474_976_710_655,
        bytes: b"\xff\xff\xff\xff\xff\xff\x3f",
    },
    Signed {
        value: 281_474_976_710_656,
        bytes: b"\x80\x80\x80\x80\x80\x80\xc0\x00",
    },
    Signed {
        value: -281_474_976_710_656,
        bytes: b"\x80\x80\x80\x80\x80\x80\x40",
    },
    Signed {
        value: -281_474_976_710_657,
        bytes: b"\xff\xff\xff\xff\xff\xff\xbf\x7f",
    },
    Signed {
        value: 36_028_797_018_963_967,
        bytes: b"\xff\xff\xff\xff\xff\xff\xff\x3f",
    },
    Signed {
        value: 36_028_797_018_963_968,
        bytes: b"\x80\x80\x80\x80\x80\x80\x80\xc0\x00",
    },
    Signed {
        value: -36_028_797_018_963_968,
        bytes: b"\x80\x80\x80\x80\x80\x80\x80\x40",
    },
    Signed {
        value: -36_028_797_018_963_969,
        bytes: b"\xff\xff\xff\xff\xff\xff\xff\xbf\x7f",
    },
    Signed {
        value: 4_611_686_018_427_387_903,
        bytes: b"\xff\xff\xff\xff\xff\xff\xff\xff\x3f",
    },
    Signed {
        value: 4_611_686_018_427_387_904,
        bytes: b"\x80\x80\x80\x80\x80\x80\x80\x80\xc0\x00",
    },
    Signed {
        value: -4_611_686_018_427_387_904,
        bytes: b"\x80\x80\x80\x80\x80\x80\x80\x80\x40",
    },
    Signed {
        value: -4_611_686_018_427_387_905,
        bytes: b"\xff\xff\xff\xff\xff\xff\xff\xff\xbf\x7f",
    },
];

/// Constants of hashes: FNV's prime and its basis, SplitMix's step, two of Murmur's and one of xxHash's; and integers of other numbers
/// in each byte.
pub const SIGNED_64_HASHES: [Signed; 11] = [
    Signed {
        value: 1_099_511_628_211,
        bytes: b"\xb3\x83\x80\x80\x80\x20",
    },
    Signed {
        value: -3_750_763_034_362_895_579,
        bytes: b"\xa5\xc6\x88\xa1\xc8\x9c\xa7\xf9\x4b",
    },
    Signed {
        value: -7_046_029_254_386_353_131,
        bytes: b"\x95\xf8\xa9\xfa\x97\xb7\xde\x9b\x9e\x7f",
    },
    Signed {
        value: -49_064_778_989_728_563,
        bytes: b"\xcd\x99\xd6\xea\xfe\xfa\xeb\xa8\x7f",
    },
    Signed {
        value: -4_265_267_296_055_464_877,
        bytes: b"\xd3\xd8\x97\xd4\xe1\xbf\xae\xe7\x44",
    },
    Signed {
        value: 2_870_177_450_012_600_261,
        bytes: b"\xc5\xcf\xd9\xb2\xf1\xe5\xba\xea\x27",
    },
    Signed {
        value: 1_556_179_371_265,
        bytes: b"\x81\x8a\x93\x9c\xa5\x2d",
    },
    Signed {
        value: -187_525_460_867_839,
        bytes: b"\x81\x8a\x93\x9c\xa5\xae\x55",
    },
    Signed {
        value: 34_020_480_302_499_073,
        bytes: b"\x81\x8a\x93\x9c\xa5\xae\xb7\x3c",
    },
    Signed {
        value: -3_926_895_391_969_852_159,
        bytes: b"\x81\x8a\x93\x9c\xa5\xae\xb7\xc0\x49",
    },
    Signed {
        value: 5_296_476_644_884_923_649,
        bytes: b"\x81\x8a\x93\x9c\xa5\xae\xb7\xc0\xc9\x00",
    },
];

/// Integers of 64 bits in more bytes than they need.
pub const PADDED_64: [Signed; 12] = [
    Signed {
        value: 0,
        bytes: b"\x80\x80\x80\x80\x80\x00",
    },
    Signed {
        value: -1,
        bytes: b"\xff\xff\xff\xff\xff\x7f",
    },
    Signed {
        value: 1,
        bytes: b"\x81\x80\x80\x80\x80\x80\x00",
    },
    Signed {
        value: -65,
        bytes: b"\xbf\xff\xff\xff\xff\xff\x7f",
    },
    Signed {
        value: 128,
        bytes: b"\x80\x81\x80\x80\x80\x80\x80\x00",
    },
    Signed {
        value: -129,
        bytes: b"\xff\xfe\xff\xff\xff\xff\xff\x7f",
    },
    Signed {
        value: 30_993_834_623_233,
        bytes: b"\x81\x82\x83\x84\x85\x86\x87\x80\x00",
    },
    Signed {
        value: -531_956_118_798_079,
        bytes: b"\x81\x82\x83\x84\x85\x86\x87\xff\x7f",
    },
    Signed {
        value: 0,
        bytes: b"\x80\x80\x80\x80\x80\x80\x80\x80\x80\x00",
    },
    Signed {
        value: -1,
        bytes: b"\xff\xff\xff\xff\xff\xff\xff\xff\xff\x7f",
    },
    Signed {
        value: 653_052_939_803_345_153,
        bytes: b"\x81\x82\x83\x84\x85\x86\x87\x88\x89\x00",
    },
    Signed {
        value: -8_570_319_097_051_430_655,
        bytes: b"\x81\x82\x83\x84\x85\x86\x87\x88\x89\x7f",
    },
];

/// More than 64 bits: the tenth byte has another bit than the sign.
pub const TOO_LARGE_64: [&[u8]; 9] = [
    b"\x80\x80\x80\x80\x80\x80\x80\x80\x80\x01",
    b"\x80\x80\x80\x80\x80\x80\x80\x80\x80\x02",
    b"\x80\x80\x80\x80\x80\x80\x80\x80\x80\x3f",
    b"\x80\x80\x80\x80\x80\x80\x80\x80\x80\x40",
    b"\x80\x80\x80\x80\x80\x80\x80\x80\x80\x7e",
    b"\xff\xff\xff\xff\xff\xff\xff\xff\xff\x01",
    b"\xff\xff\xff\xff\xff\xff\xff\xff\xff\x3f",
    b"\xff\xff\xff\xff\xff\xff\xff\xff\xff\x40",
    b"\xff\xff\xff\xff\xff\xff\xff\xff\xff\x7e",
];

/// More than ten bytes.
pub const TOO_LONG_64: [&[u8]; 7] = [
    b"\x80\x80\x80\x80\x80\x80\x80\x80\x80\x80\x00",
    b"\x80\x80\x80\x80\x80\x80\x80\x80\x80\x81\x00",
    b"\x80\x80\x80\x80\x80\x80\x80\x80\x80\xc0\x00",
    b"\x80\x80\x80\x80\x80\x80\x80\x80\x80\xff\x00",
    b"\xff\xff\xff\xff\xff\xff\xff\xff\xff\x80\x7f",
    b"\xff\xff\xff\xff\xff\xff\xff\xff\xff\xff\x7f",
    b"\x80\x80\x80\x80\x80\x80\x80\x80\x80\x80",
];

/// Integers of 64 bits that the bytes end within.
pub const CUT_64: [&[u8]; 6] = [
    b"\x80\x80\x80\x80\x80",
    b"\x80\x80\x80\x80\x80\x80",
    b"\x80\x80\x80\x80\x80\x80\x80",
    b"\x80\x80\x80\x80\x80\x80\x80\x80",
    b"\x80\x80\x80\x80\x80\x80\x80\x80\x80",
    b"\xff\xff\xff\xff\xff\xff\xff\xff\xff",
];
