//! Modules with their listings.

/// The headers of the module with every section ([`crate::modules::WHOLE`]).
pub const HEADERS: &[u8] = b"  Custom start=0x0000000a end=0x0000000d size=0x00000003 name=a
    Type start=0x0000000f end=0x00000018 size=0x00000009 count=2
  Import start=0x0000001a end=0x00000038 size=0x0000001e count=4
Function start=0x0000003a end=0x0000003c size=0x00000002 count=1
   Table start=0x0000003e end=0x00000042 size=0x00000004 count=1
  Memory start=0x00000044 end=0x00000048 size=0x00000004 count=1
  Global start=0x0000004a end=0x00000050 size=0x00000006 count=1
  Export start=0x00000052 end=0x00000057 size=0x00000005 count=1
   Start start=0x00000059 end=0x0000005a size=0x00000001 index=0
    Elem start=0x0000005c end=0x00000064 size=0x00000008 count=1
    Code start=0x00000066 end=0x0000006c size=0x00000006 count=1
  Custom start=0x0000006e end=0x00000070 size=0x00000002 name=b
    Data start=0x00000072 end=0x0000007a size=0x00000008 count=1
  Custom start=0x0000007c end=0x0000007d size=0x00000001 name=x:
";

/// Its details.
pub const DETAILS: &[u8] = b"Custom:
 - custom a bytes=aa
Type[2]:
 - type[0] ()->()
 - type[1] (i32)->(i64)
Import[4]:
 - import[0] a f func[0] type=0
 - import[1] a t table[0] min=1 max=2
 - import[2] a m memory[0] min=1
 - import[3] a g global[0] i32 const
Function[1]:
 - func[1] type=0
Table[1]:
 - table[1] min=3
Memory[1]:
 - memory[1] min=1 max=2
Global[1]:
 - global[1] i32 var init=41000b
Export[1]:
 - export[0] f func 1
Start:
 - start 0
Elem[1]:
 - elem[0] table=0 offset=41000b funcs=0,1
Code[1]:
 - func[1] size=4
Custom:
 - custom b bytes=
Data[1]:
 - data[0] memory=0 offset=41000b bytes=aabb
Custom:
 - custom x: bytes=
";

/// A function with a local, a block, and references of each kind.
pub const CALLING: &[u8] = b"\0asm\x01\0\0\0\x01\x04\x01\x60\x00\x00\x03\x02\x01\x00\
    \x0a\x14\x01\x12\x01\x01\x7e\x02\x40\x10\x00\x0b\x23\x00\x1a\x11\x00\x00\x3f\x00\x1a\x0b";

/// Its code.
pub const CODE: &[u8] = b"func[0] type=0:
 locals i64*1
 00000019: block
 0000001b:   call 0
 0000001d: end
 0000001e: global.get 0
 00000020: drop
 00000021: call_indirect type=0
 00000024: memory.size
 00000026: drop
 00000027: end
";

/// What it refers to.
pub const USES: &[u8] = b"func[0]: type[0] func[0] global[0] table memory\n";
