//! Scripts as instrumenters and generators write them.

use crate::code::{CLASSES, GROUPS};
use crate::draws::Draws;
use crate::module::{IMPORTS, put_digits, put_export_name};
use crate::pool::Pool;
use std::alloc::Global;
use wk_bytes::{OutOfMemory, put_u32};

static HEX: [u8; 16] = *b"0123456789abcdef";

/// A script, and what its lines have made of a module so far.
#[derive(Drop)]
pub(crate) struct Script {
    /// The lines.
    pub(crate) text: Vec<u8>,
    // The functions that the module defines.
    funcs: u32,
    // Those that its lines import.
    hooks: u32,
    exports: u32,
    body: Vec<u8>,
}

// A number in base 10.
fn put_number(out: &mut Vec<u8>, n: u32) -> Result<(), OutOfMemory> {
    let mut is_begun = false;
    for unit in [1_000_000, 100_000, 10_000, 1_000, 100, 10, 1] {
        let digit = u8::try_from(n / unit % 10).unwrap_or(0);
        is_begun = is_begun || digit > 0 || unit == 1;
        if is_begun {
            out.push(digit % 10 + b'0').map_err(|_| OutOfMemory)?;
        }
    }
    Ok(())
}

fn put_hex(out: &mut Vec<u8>, bytes: &[u8]) -> Result<(), OutOfMemory> {
    for byte in bytes {
        let digits = [
            HEX[usize::from(*byte >> 4) % 16],
            HEX[usize::from(*byte) % 16],
        ];
        out.extend_from_slice(&digits)?;
    }
    Ok(())
}

impl Script {
    /// One without lines, for a module of so many functions and exports.
    pub(crate) fn new(alloc: Global, funcs: u32, exports: u32) -> Script {
        Script {
            text: Vec::new(alloc),
            funcs,
            hooks: 0,
            exports,
            body: Vec::new(alloc),
        }
    }

    fn word(&mut self, word: &[u8]) -> Result<(), OutOfMemory> {
        self.text.extend_from_slice(word)?;
        Ok(())
    }

    /// A type of up to five parameters.
    pub(crate) fn ty(&mut self, draws: &mut Draws) -> Result<(), OutOfMemory> {
        self.word(b"type i32")?;
        for _ in 0..draws.below(5) {
            self.word(b",f64")?;
        }
        self.word(b" i64\n")
    }

    /// An import of a function, behind which the indices of all functions of the module move.
    pub(crate) fn hook(&mut self) -> Result<(), OutOfMemory> {
        self.word(b"import func hooks h")?;
        put_digits(&mut self.text, self.hooks)?;
        self.word(b" 0\n")?;
        self.hooks = self.hooks.saturating_add(1);
        Ok(())
    }

    /// An import of a global, behind which the indices of all globals of the module move.
    pub(crate) fn flag(&mut self, draws: &mut Draws) -> Result<(), OutOfMemory> {
        self.word(b"import global hooks g")?;
        put_digits(&mut self.text, draws.draw() >> 8)?;
        self.word(b" i32 const\n")
    }

    // A code of the pool, behind a call of the last import that the script made, if it made any.
    fn code(&mut self, pool: &Pool, class: u32, draws: &mut Draws) -> Result<(), OutOfMemory> {
        let from = pool.draw(draws, class);
        let behind = from.get(GROUPS.len()..).unwrap_or(&[]);
        self.body.clear();
        self.body.extend_from_slice(&GROUPS)?;
        if self.hooks > 0 {
            self.body.extend_from_slice(&[0x10])?;
            let last = IMPORTS.wrapping_add(self.hooks).wrapping_sub(1);
            put_u32(&mut self.body, last)?;
        }
        self.body.extend_from_slice(behind)?;
        put_hex(&mut self.text, &self.body)?;
        self.word(b"\n")
    }

    /// Another body for the function of a code entry.
    pub(crate) fn body(
        &mut self,
        pool: &Pool,
        entry: u32,
        draws: &mut Draws,
    ) -> Result<(), OutOfMemory> {
        self.word(b"body ")?;
        let index = IMPORTS.wrapping_add(self.hooks).wrapping_add(entry);
        put_number(&mut self.text, index)?;
        self.word(b" ")?;
        self.code(pool, entry % CLASSES, draws)
    }

    /// A function more.
    pub(crate) fn func(&mut self, pool: &Pool, draws: &mut Draws) -> Result<(), OutOfMemory> {
        let class = draws.below(CLASSES);
        self.word(b"func ")?;
        put_number(&mut self.text, class)?;
        self.word(b" ")?;
        self.code(pool, class, draws)
    }

    /// A global more.
    pub(crate) fn global(&mut self, draws: &mut Draws) -> Result<(), OutOfMemory> {
        self.word(b"global i32 var 41")?;
        let value = u8::try_from(draws.below(64)).unwrap_or(0);
        put_hex(&mut self.text, &[value])?;
        self.word(b"0b\n")
    }

    /// An export more, of a name that is not there.
    pub(crate) fn export(&mut self, draws: &mut Draws) -> Result<(), OutOfMemory> {
        self.word(b"export func ")?;
        put_export_name(&mut self.text, self.exports)?;
        self.word(b" ")?;
        put_number(&mut self.text, draws.below(self.funcs))?;
        self.exports = self.exports.saturating_add(1);
        self.word(b"\n")
    }

    /// The removal of an export that is there at the beginning, or is gone since.
    pub(crate) fn unexport(&mut self, draws: &mut Draws) -> Result<(), OutOfMemory> {
        self.word(b"unexport ")?;
        put_export_name(&mut self.text, draws.below(self.exports))?;
        self.word(b"\n")
    }

    /// A custom section.
    pub(crate) fn custom(&mut self, draws: &mut Draws) -> Result<(), OutOfMemory> {
        self.word(b"custom set note")?;
        put_digits(&mut self.text, draws.below(9))?;
        self.word(b" ")?;
        let value = draws.draw().to_le_bytes();
        put_hex(&mut self.text, &value)?;
        self.word(b"\n")
    }

    /// A line of some kind that an instrumenter writes, but no import.
    pub(crate) fn any(&mut self, pool: &Pool, draws: &mut Draws) -> Result<(), OutOfMemory> {
        match draws.draw() % 16 {
            0..=3 => self.ty(draws),
            4..=6 => self.func(pool, draws),
            7..=9 => {
                let entry = draws.below(self.funcs);
                self.body(pool, entry, draws)
            }
            10 => self.global(draws),
            11..=13 => self.export(draws),
            14 => self.unexport(draws),
            _ => self.custom(draws),
        }
    }
}
