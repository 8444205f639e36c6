//! Modules of the shape that a linker gives them, put together of the bodies of a pool.
ghost use Rattle.std.specs.Prelude.{◌<◌};

use crate::code::{CLASSES, GLOBALS, has_result, params_of};
use crate::draws::Draws;
use crate::pool::Pool;
use std::alloc::Global;
use wk_bytes::{OutOfMemory, put_u32};

/// How many functions a module imports: function `f` has type `f % 8`, whether imported or not.
pub(crate) const IMPORTS: u32 = 16;

const HEADER: [u8; 8] = *b"\0asm\x01\0\0\0";

// A body that is valid under no type.
const BROKEN: [u8; 4] = [0x00, 0x42, 0x00, 0x0B];

static STEM: [u8; 24] = *b"runtime_exported_symbol_";

/// Which bodies of a module are invalid.
#[derive(Clone, Copy, Debug, PartialEq, Eq)]
pub(crate) enum Flaws {
    None,
    Last,
    /// Each so manieth, from the first on.
    Each(u32),
}

/// How much a module has of what.
#[derive(Clone, Copy, Debug)]
pub(crate) struct Shape {
    /// Functions of its own.
    pub(crate) funcs: u32,
    /// Types beside the eight that functions have.
    pub(crate) types: u32,
    pub(crate) exports: u32,
    /// Bytes of each of two data segments.
    pub(crate) data: u32,
    /// Bytes of each of two custom sections, one of them called `name`.
    pub(crate) custom: u32,
    pub(crate) flaws: Flaws,
}

/// A place where modules are put together, one after the other.
#[derive(Drop)]
pub(crate) struct Workshop {
    /// The module.
    pub(crate) bytes: Vec<u8>,
    contents: Vec<u8>,
    noise: Vec<u8>,
}

fn push(out: &mut Vec<u8>, byte: u8) -> Result<(), OutOfMemory> {
    out.push(byte).map_err(|_| OutOfMemory)
}

fn put_len(out: &mut Vec<u8>, len: usize) -> Result<(), OutOfMemory> {
    put_u32(out, u32::try_from(len).unwrap_or(0))
}

/// Bytes behind their number.
fn put_bytes(out: &mut Vec<u8>, bytes: &[u8]) -> Result<(), OutOfMemory> {
    put_len(out, bytes.len())?;
    out.extend_from_slice(bytes)?;
    Ok(())
}

/// A number in six digits of base 16, or more.
pub(crate) fn put_digits(out: &mut Vec<u8>, n: u32) -> Result<(), OutOfMemory> {
    for shift in [20, 16, 12, 8, 4, 0] {
        let digit = u8::try_from((n >> shift) & 15).unwrap_or(0);
        push(
            out,
            if digit < 10 {
                digit + b'0'
            } else {
                digit % 16 + b'W'
            },
        )?;
    }
    Ok(())
}

// How much of the stem stands in the name of an export.
fn stem_len(n: u32) -> usize
    ensures { result < 24 }
{
    (n.wrapping_mul(7) % 23) as usize + 1
}

/// The name of an export, of 8 to 30 bytes.
pub(crate) fn put_export_name(out: &mut Vec<u8>, n: u32) -> Result<(), OutOfMemory> {
    out.extend_from_slice(&STEM[..stem_len(n)])?;
    push(out, b'_')?;
    put_digits(out, n)
}

fn put_type(out: &mut Vec<u8>, class: u32) -> Result<(), OutOfMemory> {
    push(out, 0x60)?;
    put_u32(out, params_of(class))?;
    for _ in 0..params_of(class) {
        push(out, 0x7F)?;
    }
    if has_result(class) {
        out.extend_from_slice(&[1, 0x7F])?;
        return Ok(());
    }
    push(out, 0)
}

// A type that no function has.
fn put_other_type(out: &mut Vec<u8>, draws: &mut Draws) -> Result<(), OutOfMemory> {
    push(out, 0x60)?;
    let count = draws.below(9);
    put_u32(out, count)?;
    for _ in 0..count {
        push(out, 0x7C + u8::try_from(draws.below(4)).unwrap_or(0) % 4)?;
    }
    push(out, 0)
}

impl Workshop {
    pub(crate) fn new(alloc: Global, draws: &mut Draws) -> Result<Workshop, OutOfMemory> {
        let mut noise = Vec::new(alloc);
        for _ in 0..16_384 {
            noise.extend_from_slice(&draws.draw().to_le_bytes())?;
        }
        Ok(Workshop {
            bytes: Vec::new(alloc),
            contents: Vec::new(alloc),
            noise,
        })
    }

    /// Begins a module.
    pub(crate) fn begin(&mut self) -> Result<(), OutOfMemory> {
        self.bytes.clear();
        self.contents.clear();
        self.bytes.extend_from_slice(&HEADER)?;
        Ok(())
    }

    // Closes the section whose contents stand.
    fn close(&mut self, id: u8) -> Result<(), OutOfMemory> {
        push(&mut self.bytes, id)?;
        put_bytes(&mut self.bytes, &self.contents)?;
        self.contents.clear();
        Ok(())
    }

    /// The types.
    pub(crate) fn types(&mut self, draws: &mut Draws, more: u32) -> Result<(), OutOfMemory> {
        put_u32(&mut self.contents, CLASSES.saturating_add(more))?;
        for class in 0..CLASSES {
            put_type(&mut self.contents, class)?;
        }
        for _ in 0..more {
            put_other_type(&mut self.contents, draws)?;
        }
        self.close(1)
    }

    fn imports(&mut self) -> Result<(), OutOfMemory> {
        put_u32(&mut self.contents, IMPORTS)?;
        for n in 0..IMPORTS {
            put_bytes(&mut self.contents, b"env")?;
            put_u32(&mut self.contents, 10)?;
            self.contents.extend_from_slice(b"host")?;
            put_digits(&mut self.contents, n)?;
            push(&mut self.contents, 0)?;
            put_u32(&mut self.contents, n % CLASSES)?;
        }
        self.close(2)
    }

    fn funcs(&mut self, count: u32) -> Result<(), OutOfMemory> {
        put_u32(&mut self.contents, count)?;
        for n in 0..count {
            put_u32(&mut self.contents, n % CLASSES)?;
        }
        self.close(3)
    }

    // A table, a memory and the globals.
    fn storage(&mut self, elems: u32, draws: &mut Draws) -> Result<(), OutOfMemory> {
        self.contents.extend_from_slice(&[1, 0x70, 0])?;
        put_u32(&mut self.contents, elems)?;
        self.close(4)?;
        self.contents.extend_from_slice(&[1, 0, 17])?;
        self.close(5)?;
        put_u32(&mut self.contents, GLOBALS)?;
        for _ in 0..GLOBALS {
            self.contents.extend_from_slice(&[0x7F, 1, 0x41])?;
            push(
                &mut self.contents,
                u8::try_from(draws.below(64)).unwrap_or(0),
            )?;
            push(&mut self.contents, 0x0B)?;
        }
        self.close(6)
    }

    fn exports(&mut self, count: u32, funcs: u32, draws: &mut Draws) -> Result<(), OutOfMemory> {
        put_u32(&mut self.contents, count)?;
        for n in 0..count {
            put_len(&mut self.contents, stem_len(n) + 7)?;
            put_export_name(&mut self.contents, n)?;
            push(&mut self.contents, 0)?;
            put_u32(&mut self.contents, draws.below(funcs))?;
        }
        self.close(7)
    }

    fn elems(&mut self, count: u32, funcs: u32, draws: &mut Draws) -> Result<(), OutOfMemory> {
        self.contents.extend_from_slice(&[1, 0, 0x41, 0, 0x0B])?;
        put_u32(&mut self.contents, count)?;
        for _ in 0..count {
            put_u32(&mut self.contents, draws.below(funcs))?;
        }
        self.close(9)
    }

    fn codes(
        &mut self,
        pool: &Pool,
        count: u32,
        flaws: Flaws,
        draws: &mut Draws,
    ) -> Result<(), OutOfMemory> {
        put_u32(&mut self.contents, count)?;
        for n in 0..count {
            let is_broken = match flaws {
                Flaws::None => false,
                Flaws::Last => n.wrapping_add(1) == count,
                Flaws::Each(step) => n % step.max(1) == 0,
            };
            let body = if is_broken {
                &BROKEN
            } else {
                pool.draw(draws, n % CLASSES)
            };
            put_bytes(&mut self.contents, body)?;
        }
        self.close(10)
    }

    // Bytes that say nothing.
    fn filler(&mut self, size: u32, draws: &mut Draws) -> Result<(), OutOfMemory> {
        let mut left = size as usize;
        for _ in 0..size {
            if left == 0 {
                break;
            }
            let from = draws.below(32_768) as usize;
            let piece = self.noise.get(from..).unwrap_or(&[]);
            let len = piece.len().min(left);
            self.contents.extend_from_slice(&piece[..len])?;
            left -= len;
        }
        Ok(())
    }

    fn datas(&mut self, size: u32, draws: &mut Draws) -> Result<(), OutOfMemory> {
        push(&mut self.contents, 2)?;
        for _ in 0..2 {
            self.contents
                .extend_from_slice(&[0, 0x41, 0x80, 0x08, 0x0B])?;
            put_u32(&mut self.contents, size)?;
            self.filler(size, draws)?;
        }
        self.close(11)
    }

    fn custom(&mut self, name: &[u8], size: u32, draws: &mut Draws) -> Result<(), OutOfMemory> {
        put_bytes(&mut self.contents, name)?;
        self.filler(size, draws)?;
        self.close(0)
    }

    /// Puts a module of a shape together.
    pub(crate) fn make(
        &mut self,
        pool: &Pool,
        shape: Shape,
        draws: &mut Draws,
    ) -> Result<(), OutOfMemory> {
        let all = shape.funcs.saturating_add(IMPORTS);
        let elems = shape.funcs / 16;
        self.begin()?;
        self.types(draws, shape.types)?;
        self.imports()?;
        self.funcs(shape.funcs)?;
        self.storage(elems, draws)?;
        self.exports(shape.exports, all, draws)?;
        self.elems(elems, all, draws)?;
        self.codes(pool, shape.funcs, shape.flaws, draws)?;
        self.datas(shape.data, draws)?;
        self.custom(b"name", shape.custom, draws)?;
        self.custom(b"producers", shape.custom / 64, draws)
    }

    /// Puts a module together of one function, which takes and gives nothing, and of this body.
    pub(crate) fn make_one(&mut self, body: &[u8], draws: &mut Draws) -> Result<(), OutOfMemory> {
        self.begin()?;
        self.types(draws, 0)?;
        self.imports()?;
        self.funcs(1)?;
        self.storage(0, draws)?;
        push(&mut self.contents, 1)?;
        put_bytes(&mut self.contents, body)?;
        self.close(10)
    }

    /// Changes one byte of the module.
    pub(crate) fn spoil(&mut self, draws: &mut Draws) {
        let len = u32::try_from(self.bytes.len()).unwrap_or(0);
        let at = draws.below(len) as usize;
        let bits = u8::try_from(draws.below(255)).unwrap_or(0);
        if let Some(byte) = self.bytes.get_mut(at) {
            *byte ^= bits | 1;
        }
    }
}
