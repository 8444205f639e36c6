//! Bodies to put modules together of.

use crate::code::{CLASSES, Code};
use crate::draws::Draws;
use std::alloc::Global;
use wk_bytes::OutOfMemory;

/// How long bodies are.
#[derive(Clone, Copy, Debug, PartialEq, Eq)]
pub(crate) enum Lengths {
    /// As in linked modules: half have less than 250 bytes, a tenth more than 1,400, and one in a hundred up to 48,000.
    Linked,
    /// Up to 300 bytes.
    Short,
    /// About 15 bytes, as little as a body of this kind has.
    Least,
}

/// Bodies of all types, which call functions below an index.
#[derive(Drop)]
pub(crate) struct Pool {
    bodies: Vec<Vec<u8>>,
}

// A length to write a body to.
fn length(draws: &mut Draws, lengths: Lengths) -> u32 {
    match lengths {
        Lengths::Least => 0,
        Lengths::Short => draws.below(300),
        Lengths::Linked => match draws.draw() % 100 {
            0..=9 => draws.below(20),
            10..=49 => draws.below(230).saturating_add(20),
            50..=89 => draws.below(1_150).saturating_add(250),
            90..=98 => draws.below(5_000).saturating_add(1_400),
            _ => draws.below(42_000).saturating_add(6_400),
        },
    }
}

/// A body of a type, of about so many bytes.
pub(crate) fn body_of(
    alloc: Global,
    draws: &mut Draws,
    class: u32,
    padded: bool,
    callable: u32,
    size: u32,
) -> Result<Vec<u8>, OutOfMemory> {
    let mut code = Code::begin(alloc, draws, class, padded, callable)?;
    for _ in 0..size {
        if code.len() >= size as usize {
            break;
        }
        code.statement()?;
    }
    code.finish(class)
}

impl Pool {
    /// So many bodies of each type.
    pub(crate) fn new(
        alloc: Global,
        draws: &mut Draws,
        padded: bool,
        callable: u32,
        lengths: Lengths,
        each: u32,
    ) -> Result<Pool, OutOfMemory> {
        let mut bodies = Vec::new(alloc);
        for _ in 0..each {
            for class in 0..CLASSES {
                let size = length(draws, lengths);
                let body = body_of(alloc, draws, class, padded, callable, size)?;
                bodies.push(body).map_err(|_| OutOfMemory)?;
            }
        }
        Ok(Pool { bodies })
    }

    /// One of the bodies of a type.
    pub(crate) fn draw(&self, draws: &mut Draws, class: u32) -> &[u8] {
        let each = u32::try_from(self.bodies.len()).unwrap_or(0) / CLASSES;
        let at = draws
            .below(each)
            .wrapping_mul(CLASSES)
            .wrapping_add(class % CLASSES);
        match self.bodies.get(at as usize) {
            Some(body) => body.as_slice(),
            None => &[],
        }
    }
}
