//! A module of the wider profile in which all that can move does, and what edits of each kind make of it.

use crate::sections::Sections;

/// A valid module that only the wider profile has: blocks whose types are indices, a type of two results, and sign extensions. It holds
/// every section: imports of a function and of a global, a table, a memory, an initialiser, exports of each kind, a start function,
/// elements, offsets, calls and globals that move behind imports, and custom sections in three places, two of one name. It is in its
/// written form.
pub const WIDE: &[u8] = b"\0asm\x01\0\0\0\
    \x00\x04\x01\x63\x01\x02\
    \x01\x10\x03\x60\x00\x00\x60\x01\x7f\x01\x7e\x60\x02\x7f\x7f\x02\x7f\x7f\
    \x02\x0e\x02\x01\x61\x01\x66\x00\x00\x01\x61\x01\x67\x03\x7f\x00\
    \x03\x03\x02\x01\x00\
    \x04\x04\x01\x70\x00\x03\
    \x05\x04\x01\x01\x01\x02\
    \x06\x06\x01\x7f\x01\x23\x00\x0b\
    \x07\x11\x04\x01\x66\x00\x01\x01\x74\x01\x00\x01\x6d\x02\x00\x01\x67\x03\x01\
    \x08\x01\x02\
    \x09\x09\x01\x00\x23\x00\x0b\x03\x00\x01\x02\
    \x00\x02\x01\x64\
    \x0a\x2c\x02\x13\x01\x01\x7e\x20\x00\x41\x01\x02\x02\xc1\x0b\x6a\xac\x10\x02\x23\x01\x1a\x0b\x16\x00\x10\x00\x23\x00\x24\
    \x01\x41\x05\x03\x01\xac\x0b\xc4\x1a\x41\x00\x0e\x01\x00\x00\x0b\
    \x0b\x08\x01\x00\x41\x00\x0b\x02\xaa\xbb\
    \x00\x03\x01\x63\x03";

/// [`WIDE`] without custom sections.
pub const WITHOUT_CUSTOMS: Sections = &[(0, b""), (10, b""), (13, b"")];

/// [`WIDE`] without the custom section `d`.
pub const WITHOUT_D: Sections = &[(10, b"")];

/// The module after the edits of [`OF_EACH_KIND`], which has two tables and two memories.
pub const ALL_EDITED: &[u8] = b"\0asm\x01\0\0\0\
    \x01\x15\x04\x60\x00\x00\x60\x01\x7f\x01\x7e\x60\x02\x7f\x7f\x02\x7f\x7f\x60\x01\x7f\x01\x7c\
    \x02\x2b\x06\x01\x61\x01\x66\x00\x00\x01\x61\x01\x67\x03\x7f\x00\x01\x61\x01\x68\x00\x01\x01\x61\x01\x75\x01\x70\x00\x04\
    \x01\x61\x01\x6e\x02\x01\x01\x03\x01\x61\x01\x69\x03\x7e\x00\
    \x03\x04\x03\x01\x00\x00\
    \x04\x04\x01\x70\x00\x03\
    \x05\x04\x01\x01\x01\x02\
    \x06\x0b\x02\x7f\x01\x23\x00\x0b\x7f\x01\x23\x00\x0b\
    \x07\x11\x04\x01\x66\x00\x02\x01\x74\x01\x01\x01\x6d\x02\x01\x01\x68\x00\x02\
    \x08\x01\x03\
    \x09\x09\x01\x01\x23\x00\x0b\x03\x00\x02\x03\
    \x0a\x2c\x03\x0a\x01\x01\x7e\x20\x00\x02\x01\xac\x0b\x0b\x16\x00\x10\x00\x23\x00\x24\x02\x41\x05\x03\x01\xac\x0b\xc4\x1a\
    \x41\x00\x0e\x01\x00\x00\x0b\x08\x00\x41\x00\x10\x02\xc2\x1a\x0b\
    \x0b\x08\x01\x01\x41\x00\x0b\x02\xaa\xbb";

/// The same where it has to stay valid: without the imports of a table and of a memory.
pub const ALL_KEPT: &[u8] = b"\0asm\x01\0\0\0\
    \x01\x15\x04\x60\x00\x00\x60\x01\x7f\x01\x7e\x60\x02\x7f\x7f\x02\x7f\x7f\x60\x01\x7f\x01\x7c\
    \x02\x1b\x04\x01\x61\x01\x66\x00\x00\x01\x61\x01\x67\x03\x7f\x00\x01\x61\x01\x68\x00\x01\x01\x61\x01\x69\x03\x7e\x00\
    \x03\x04\x03\x01\x00\x00\
    \x04\x04\x01\x70\x00\x03\
    \x05\x04\x01\x01\x01\x02\
    \x06\x0b\x02\x7f\x01\x23\x00\x0b\x7f\x01\x23\x00\x0b\
    \x07\x11\x04\x01\x66\x00\x02\x01\x74\x01\x00\x01\x6d\x02\x00\x01\x68\x00\x02\
    \x08\x01\x03\
    \x09\x09\x01\x00\x23\x00\x0b\x03\x00\x02\x03\
    \x0a\x2c\x03\x0a\x01\x01\x7e\x20\x00\x02\x01\xac\x0b\x0b\x16\x00\x10\x00\x23\x00\x24\x02\x41\x05\x03\x01\xac\x0b\xc4\x1a\
    \x41\x00\x0e\x01\x00\x00\x0b\x08\x00\x41\x00\x10\x02\xc2\x1a\x0b\
    \x0b\x08\x01\x00\x41\x00\x0b\x02\xaa\xbb";

/// An edit of each kind, as a script, with code that only the wider profile has.
pub const OF_EACH_KIND: &[u8] = b"type i32 f64\n\
    import func a h 1\nimport table a u 4\nimport memory a n 1 3\nimport global a i i64 const\n\
    func 0 0041001002c21a0b\nbody 2 01017e20000201ac0b0b\nglobal i32 var 23000b\n\
    export func h 2\nunexport g\n\
    custom set c 0909\ncustom strip c\nstrip\n";

/// The report of them.
pub const ALL_REPORT: &[u8] =
    b"1 ok\n2 ok\n3 ok\n4 ok\n5 ok\n6 ok\n7 ok\n8 ok\n9 ok\n10 ok\n11 ok\n12 ok\n13 ok\n\
    invalid V5 TooManyTables at section 4 item 0\n";

/// The report of them where the module has to stay valid.
pub const KEPT_REPORT: &[u8] = b"1 ok\n2 ok\n\
    3 refused E7 WouldBreak V5 TooManyTables at section 4 item 0\n\
    4 refused E7 WouldBreak V6 TooManyMemories at section 5 item 0\n\
    5 ok\n6 ok\n7 ok\n8 ok\n9 ok\n10 ok\n11 ok\n12 ok\n13 ok\n\
    valid\n";

/// The headers of [`WIDE`].
pub const HEADERS: &[u8] = b"  Custom start=0x0000000a end=0x0000000e size=0x00000004 name=c
    Type start=0x00000010 end=0x00000020 size=0x00000010 count=3
  Import start=0x00000022 end=0x00000030 size=0x0000000e count=2
Function start=0x00000032 end=0x00000035 size=0x00000003 count=2
   Table start=0x00000037 end=0x0000003b size=0x00000004 count=1
  Memory start=0x0000003d end=0x00000041 size=0x00000004 count=1
  Global start=0x00000043 end=0x00000049 size=0x00000006 count=1
  Export start=0x0000004b end=0x0000005c size=0x00000011 count=4
   Start start=0x0000005e end=0x0000005f size=0x00000001 index=2
    Elem start=0x00000061 end=0x0000006a size=0x00000009 count=1
  Custom start=0x0000006c end=0x0000006e size=0x00000002 name=d
    Code start=0x00000070 end=0x0000009c size=0x0000002c count=2
    Data start=0x0000009e end=0x000000a6 size=0x00000008 count=1
  Custom start=0x000000a8 end=0x000000ab size=0x00000003 name=c
";

/// Its details.
pub const DETAILS: &[u8] = b"Custom:
 - custom c bytes=0102
Type[3]:
 - type[0] ()->()
 - type[1] (i32)->(i64)
 - type[2] (i32,i32)->(i32,i32)
Import[2]:
 - import[0] a f func[0] type=0
 - import[1] a g global[0] i32 const
Function[2]:
 - func[1] type=1
 - func[2] type=0
Table[1]:
 - table[0] min=3
Memory[1]:
 - memory[0] min=1 max=2
Global[1]:
 - global[1] i32 var init=23000b
Export[4]:
 - export[0] f func 1
 - export[1] t table 0
 - export[2] m memory 0
 - export[3] g global 1
Start:
 - start 2
Elem[1]:
 - elem[0] table=0 offset=23000b funcs=0,1,2
Custom:
 - custom d bytes=
Code[2]:
 - func[1] size=19
 - func[2] size=22
Data[1]:
 - data[0] memory=0 offset=41000b bytes=aabb
Custom:
 - custom c bytes=03
";

/// Its code.
pub const CODE: &[u8] = b"func[1] type=1:
 locals i64*1
 00000075: local.get 0
 00000077: i32.const 1
 00000079: block type=2
 0000007b:   i32.extend16_s
 0000007c: end
 0000007d: i32.add
 0000007e: i64.extend_i32_s
 0000007f: call 2
 00000081: global.get 1
 00000083: drop
 00000084: end
func[2] type=0:
 00000087: call 0
 00000089: global.get 0
 0000008b: global.set 1
 0000008d: i32.const 5
 0000008f: loop type=1
 00000091:   i64.extend_i32_s
 00000092: end
 00000093: i64.extend32_s
 00000094: drop
 00000095: i32.const 0
 00000097: br_table 0 0
 0000009b: end
";

/// What its functions refer to.
pub const USES: &[u8] = b"func[1]: type[1] type[2] func[2] global[1]
func[2]: type[0] type[1] func[0] global[0] global[1]
";
