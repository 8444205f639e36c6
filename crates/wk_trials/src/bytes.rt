//! Calls of `wk_bytes`.

ghost use Rattle.std.specs.Prelude.{◌≡◌, ◌<◌, ◌-◌, ◌^◌};

use crate::mark::{call_begins, call_ends};
use crate::sinks::{BEFORE, Room, has_appended, holds, sink, vector};
use std::alloc::Global;
use wk_bytes::{
    Items, Out, OutFault, OutOfMemory, Sink, Stream, Text, out_u32, put_all, put_s32, put_s33,
    put_s64, put_u32,
};
use wk_samples::outcome::Outcome;

/// An integer, put to the end of a vector.
#[derive(Clone, Copy)]
pub(crate) enum Integer {
    /// By `put_u32`.
    U32,
    /// By `put_s32`.
    S32,
    /// By `put_s33`.
    S33,
    /// By `put_s64`.
    S64,
}

impl Integer {
    fn put(self, out: &mut Vec<u8>) -> Result<(), OutOfMemory> {
        match self {
            Integer::U32 => put_u32(out, 624_485),
            Integer::S32 => put_s32(out, -123_456),
            Integer::S33 => put_s33(out, -4_294_967_296),
            Integer::S64 => put_s64(out, i64::MIN),
        }
    }

    fn spelling(self) -> &'static [u8] {
        match self {
            Integer::U32 => b"\xe5\x8e\x26",
            Integer::S32 => b"\xc0\xbb\x78",
            Integer::S33 => b"\x80\x80\x80\x80\x70",
            Integer::S64 => b"\x80\x80\x80\x80\x80\x80\x80\x80\x80\x7f",
        }
    }

    /// The call, on a full vector.
    pub(crate) fn run(self, alloc: Global) -> Outcome {
        match Vec::from_slice(alloc, &BEFORE) {
            Ok(mut bytes) => self.run_on(alloc, &mut bytes),
            Err(_) => Outcome::NO_SAMPLE,
        }
    }

    fn run_on(self, alloc: Global, bytes: &mut Vec<u8>) -> Outcome {
        call_begins(alloc);
        let answer = self.put(bytes);
        call_ends(alloc);
        match answer {
            Ok(()) => Outcome::answered(has_appended(bytes, self.spelling())),
            Err(OutOfMemory) => Outcome::refused(has_appended(bytes, &[])),
        }
    }
}

/// What is put to an output.
#[derive(Clone, Copy, PartialEq, Eq)]
pub(crate) enum Put {
    /// Bytes, by `put_all`.
    All,
    /// An integer, by `out_u32`.
    U32,
}

const MORE: &[u8] = b"more bytes";

impl Put {
    fn put<W: Out>(self, out: &mut W) -> Result<(), OutFault>
        requires { W.failed out.old < 2 ^ 64 - 1 }
    {
        match self {
            Put::All => put_all(out, MORE),
            Put::U32 => out_u32(out, 624_485),
        }
    }

    fn bytes(self) -> &'static [u8] {
        match self {
            Put::All => MORE,
            Put::U32 => Integer::U32.spelling(),
        }
    }

    /// The call, on a sink with that much room.
    pub(crate) fn run(self, alloc: Global, room: Room) -> Outcome {
        match sink(alloc, room) {
            Some(sink) => self.run_on(alloc, sink),
            None => Outcome::NO_SAMPLE,
        }
    }

    fn run_on(self, alloc: Global, mut sink: Sink) -> Outcome
        requires { ⟦<Sink as Out>⟧.failed sink ≡ 0 }
    {
        call_begins(alloc);
        let answer = self.put(&mut sink);
        call_ends(alloc);
        match answer {
            Ok(()) => Outcome::answered(holds(sink, 0, self.bytes())),
            Err(OutFault) => Outcome::refused(holds(sink, 1, &[])),
        }
    }

    /// The call, on a stream over a vector with that much room.
    pub(crate) fn run_on_stream(self, alloc: Global, room: Room) -> Outcome {
        let Some(bytes) = vector(alloc, room) else {
            return Outcome::NO_SAMPLE;
        };
        let mut stream = Stream::new(bytes);
        call_begins(alloc);
        let answer = self.put(&mut stream);
        call_ends(alloc);
        let failures = stream.failures();
        let bytes = stream.into_inner();
        match answer {
            Ok(()) => Outcome::answered(failures == 0 && has_appended(&bytes, self.bytes())),
            Err(OutFault) => Outcome::refused(failures == 1 && has_appended(&bytes, &[])),
        }
    }
}

/// A call of `Items` or `Text`.
#[derive(Clone, Copy)]
pub(crate) enum Holder {
    /// `Items::push`, which hands back what it refuses.
    Push,
    /// `Items::copy`.
    Copy,
    /// `Text::copy`.
    Text,
}

impl Holder {
    /// The call.
    pub(crate) fn run(self, alloc: Global) -> Outcome {
        match Vec::from_slice(alloc, &BEFORE) {
            Ok(bytes) => self.run_on(alloc, Items::from_vec(bytes)),
            Err(_) => Outcome::NO_SAMPLE,
        }
    }

    fn run_on(self, alloc: Global, items: Items<u8>) -> Outcome {
        match self {
            Holder::Push => pushes(alloc, items),
            Holder::Copy => copies(alloc, &items),
            Holder::Text => copies_text(alloc),
        }
    }
}

fn pushes(alloc: Global, mut items: Items<u8>) -> Outcome {
    call_begins(alloc);
    let answer = items.push(4);
    call_ends(alloc);
    match answer {
        Ok(()) => Outcome::answered(has_appended(items.as_slice(), &[4])),
        Err(refused) => {
            Outcome::refused(refused.value == 4 && has_appended(items.as_slice(), &[]))
        }
    }
}

fn copies(alloc: Global, items: &Items<u8>) -> Outcome {
    call_begins(alloc);
    let answer = items.copy(alloc);
    call_ends(alloc);
    match answer {
        Ok(copy) => Outcome::answered(has_appended(copy.as_slice(), &[])),
        Err(_) => Outcome::refused(has_appended(items.as_slice(), &[])),
    }
}

fn copies_text(alloc: Global) -> Outcome {
    match String::from_str(alloc, "text") {
        Ok(text) => copies_of(alloc, &Text::from_string(text)),
        Err(_) => Outcome::NO_SAMPLE,
    }
}

fn copies_of(alloc: Global, text: &Text) -> Outcome {
    call_begins(alloc);
    let answer = text.copy(alloc);
    call_ends(alloc);
    match answer {
        Ok(copy) => Outcome::answered(copy.as_str() == "text"),
        Err(_) => Outcome::refused(text.as_str() == "text"),
    }
}
