//! Code as it is written, with indices and addresses as a linker leaves them or in their shortest spelling.

use crate::draws::Draws;
use std::alloc::Global;
use wk_bytes::{OutOfMemory, put_s32, put_s64, put_u32};

/// The function types that bodies have and call: type `t` takes `t % 5` values of `i32`, and gives one where `t` is odd.
pub(crate) const CLASSES: u32 = 8;

/// How many globals, all variable and of `i32`, bodies may use.
pub(crate) const GLOBALS: u32 = 24;

/// The local groups of each body: eight `i32`, two `i64`, one `f64`.
pub(crate) const GROUPS: [u8; 7] = [0x03, 0x08, 0x7F, 0x02, 0x7E, 0x01, 0x7C];

// How many locals of `i32` stand in the groups.
const INTEGERS: u32 = 8;

// Numeric instructions that take two `i32` and give one.
static BINARY: [u8; 12] = [
    0x6A, 0x6B, 0x6C, 0x71, 0x72, 0x73, 0x74, 0x76, 0x46, 0x47, 0x49, 0x4E,
];

// Loads of an `i32`, each with the greatest exponent of its alignment.
static LOADS: [(u8, u8); 4] = [(0x28, 2), (0x28, 2), (0x2D, 0), (0x2F, 1)];

// Stores of an `i32`, the same.
static STORES: [(u8, u8); 4] = [(0x36, 2), (0x36, 2), (0x3A, 0), (0x3B, 1)];

/// How many parameters the functions of a type have, all of `i32`.
pub(crate) fn params_of(class: u32) -> u32 {
    class % 5
}

/// Whether the functions of a type give an `i32`.
pub(crate) fn has_result(class: u32) -> bool {
    class % 2 == 1
}

/// A body that is being written, without its size.
#[derive(Drop)]
pub(crate) struct Code<'a> {
    bytes: Vec<u8>,
    draws: &'a mut Draws,
    /// Whether what a linker relocates has five bytes.
    padded: bool,
    /// The functions that may be called are those of a lesser index.
    callable: u32,
    params: u32,
    open: u32,
}

impl<'a> Code<'a> {
    /// A body of a type of which no instruction stands yet.
    pub(crate) fn begin(
        alloc: Global,
        draws: &'a mut Draws,
        class: u32,
        padded: bool,
        callable: u32,
    ) -> Result<Code<'a>, OutOfMemory> {
        Ok(Code {
            bytes: Vec::from_slice(alloc, &GROUPS)?,
            draws,
            padded,
            callable,
            params: params_of(class),
            open: 0,
        })
    }

    /// Its length so far.
    pub(crate) fn len(&self) -> usize {
        self.bytes.len()
    }

    fn byte(&mut self, byte: u8) -> Result<(), OutOfMemory> {
        self.bytes.push(byte).map_err(|_| OutOfMemory)
    }

    fn index(&mut self, index: u32) -> Result<(), OutOfMemory> {
        put_u32(&mut self.bytes, index)?;
        Ok(())
    }

    // An index or an address that a linker relocates.
    fn relocated(&mut self, n: u32) -> Result<(), OutOfMemory> {
        if !self.padded {
            return self.index(n);
        }
        for shift in [0, 7, 14, 21] {
            let low = u8::try_from((n >> shift) & 0x7F).unwrap_or(0);
            self.byte(low | 0x80)?;
        }
        self.byte(u8::try_from(n >> 28).unwrap_or(0))
    }

    // The index of a local of `i32`.
    fn integer(&mut self) -> u32 {
        let count = self.params.wrapping_add(INTEGERS);
        self.draws.below(count)
    }

    fn get(&mut self) -> Result<(), OutOfMemory> {
        let local = self.integer();
        self.byte(0x20)?;
        self.index(local)
    }

    fn set(&mut self) -> Result<(), OutOfMemory> {
        let local = self.integer();
        self.byte(0x21)?;
        self.index(local)
    }

    fn tee(&mut self) -> Result<(), OutOfMemory> {
        let local = self.integer();
        self.byte(0x22)?;
        self.index(local)
    }

    // A constant, mostly of one byte, and at times an address.
    fn constant(&mut self) -> Result<(), OutOfMemory> {
        self.byte(0x41)?;
        let n = self.draws.draw();
        match n >> 28 {
            0 => self.relocated(n >> 12),
            1 => {
                put_s32(&mut self.bytes, i32::try_from(n >> 16).unwrap_or(0))?;
                Ok(())
            }
            _ => self.byte(u8::try_from(n & 0x3F).unwrap_or(0)),
        }
    }

    fn binary(&mut self) -> Result<(), OutOfMemory> {
        let opcode = BINARY[(self.draws.draw() % 12) as usize];
        self.byte(opcode)
    }

    fn memarg(&mut self, align: u8) -> Result<(), OutOfMemory> {
        self.byte(align)?;
        if self.draws.is_among(1, 16) {
            let address = self.draws.below(1 << 20);
            return self.relocated(address);
        }
        let offset = self.draws.below(100);
        self.index(offset)
    }

    fn load(&mut self) -> Result<(), OutOfMemory> {
        let (opcode, align) = LOADS[(self.draws.draw() % 4) as usize];
        self.get()?;
        self.byte(opcode)?;
        self.memarg(align)?;
        self.set()
    }

    fn store(&mut self) -> Result<(), OutOfMemory> {
        let (opcode, align) = STORES[(self.draws.draw() % 4) as usize];
        self.get()?;
        self.get()?;
        self.byte(opcode)?;
        self.memarg(align)
    }

    fn arithmetic(&mut self) -> Result<(), OutOfMemory> {
        self.get()?;
        self.constant()?;
        self.binary()?;
        self.tee()?;
        self.get()?;
        self.binary()?;
        self.set()
    }

    // The label of one of the innermost open blocks.
    fn label(&mut self) -> Result<(), OutOfMemory> {
        let near = self.open.min(4);
        let depth = self.draws.below(near);
        self.index(depth)
    }

    fn branch_if(&mut self) -> Result<(), OutOfMemory> {
        if self.open == 0 {
            return self.arithmetic();
        }
        self.get()?;
        self.constant()?;
        self.byte(0x46)?;
        self.byte(0x0D)?;
        self.label()
    }

    fn end(&mut self) -> Result<(), OutOfMemory> {
        self.open = self.open.saturating_sub(1);
        self.byte(0x0B)
    }

    // Opens a block, a loop or an `if`; a body has seldom more than ten open.
    fn opening(&mut self) -> Result<(), OutOfMemory> {
        if self.open > 10 && !self.draws.is_among(1, 8) {
            return self.end();
        }
        match self.draws.draw() % 4 {
            0 => self.byte(0x03)?,
            1 => {
                self.get()?;
                self.byte(0x04)?;
            }
            _ => self.byte(0x02)?,
        }
        self.byte(0x40)?;
        self.open = self.open.saturating_add(1);
        Ok(())
    }

    // Closes a block, at times behind a branch.
    fn closing(&mut self) -> Result<(), OutOfMemory> {
        if self.open == 0 {
            return self.opening();
        }
        match self.draws.draw() % 16 {
            0..=4 => {
                self.byte(0x0C)?;
                self.label()?;
            }
            5 => self.table()?,
            _ => {}
        }
        self.end()
    }

    // A branch by an index, with up to 20 labels.
    fn table(&mut self) -> Result<(), OutOfMemory> {
        self.get()?;
        self.byte(0x0E)?;
        let count = self.draws.below(20);
        self.index(count)?;
        for _ in 0..=count {
            self.label()?;
        }
        Ok(())
    }

    // One of two branches.
    fn choice(&mut self) -> Result<(), OutOfMemory> {
        self.get()?;
        self.byte(0x04)?;
        self.byte(0x40)?;
        self.load()?;
        self.byte(0x05)?;
        self.store()?;
        self.byte(0x0B)
    }

    fn arguments(&mut self, class: u32) -> Result<(), OutOfMemory> {
        for _ in 0..params_of(class) {
            self.get()?;
        }
        Ok(())
    }

    // What takes the result of a call, where there is one.
    fn result(&mut self, class: u32) -> Result<(), OutOfMemory> {
        if !has_result(class) {
            return Ok(());
        }
        if self.draws.is_among(1, 8) {
            return self.byte(0x1A);
        }
        self.set()
    }

    fn call(&mut self) -> Result<(), OutOfMemory> {
        let func = self.draws.below(self.callable);
        let class = func % CLASSES;
        self.arguments(class)?;
        self.byte(0x10)?;
        self.relocated(func)?;
        self.result(class)
    }

    fn call_indirect(&mut self) -> Result<(), OutOfMemory> {
        let class = self.draws.below(CLASSES);
        self.arguments(class)?;
        self.get()?;
        self.byte(0x11)?;
        self.relocated(class)?;
        self.byte(0)?;
        self.result(class)
    }

    fn global(&mut self) -> Result<(), OutOfMemory> {
        let global = self.draws.below(GLOBALS);
        self.byte(0x23)?;
        self.relocated(global)?;
        self.constant()?;
        self.byte(0x6B)?;
        self.byte(0x24)?;
        self.relocated(global)
    }

    // Arithmetic of 64 bits, of integers or of floats.
    fn wide(&mut self) -> Result<(), OutOfMemory> {
        let first = self.params.wrapping_add(INTEGERS);
        if self.draws.is_among(1, 3) {
            let float = first.wrapping_add(2);
            self.byte(0x20)?;
            self.index(float)?;
            self.byte(0x44)?;
            let word = self.draws.draw();
            self.bytes.extend_from_slice(&word.to_le_bytes())?;
            self.bytes.extend_from_slice(&word.to_le_bytes())?;
            self.byte(0xA0)?;
            self.byte(0x21)?;
            return self.index(float);
        }
        self.byte(0x20)?;
        self.index(first)?;
        self.byte(0x42)?;
        let n = self.draws.draw();
        put_s64(&mut self.bytes, i64::from(n >> (n & 31)))?;
        self.byte(0x7C)?;
        self.byte(0x21)?;
        self.index(first)
    }

    fn select(&mut self) -> Result<(), OutOfMemory> {
        self.get()?;
        self.get()?;
        self.get()?;
        self.byte(0x1B)?;
        self.set()
    }

    /// Writes a few instructions that leave the operand stack as it was.
    pub(crate) fn statement(&mut self) -> Result<(), OutOfMemory> {
        match self.draws.draw() % 64 {
            0..=10 => self.load(),
            11..=18 => self.store(),
            19..=33 => self.arithmetic(),
            34..=39 => self.branch_if(),
            40..=45 => self.opening(),
            46..=51 => self.closing(),
            52..=56 => self.call(),
            57 | 58 => self.wide(),
            59 => self.global(),
            60 => self.call_indirect(),
            61 => self.choice(),
            _ => self.select(),
        }
    }

    /// The body, with all blocks closed and a result where its type has one.
    pub(crate) fn finish(mut self, class: u32) -> Result<Vec<u8>, OutOfMemory> {
        for _ in 0..self.open {
            self.byte(0x0B)?;
        }
        if has_result(class) {
            self.get()?;
        }
        self.byte(0x0B)?;
        Ok(self.bytes)
    }
}
