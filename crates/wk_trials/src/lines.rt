//! Lines and names that `wk_edit` and `wk_list` make.

use crate::bodies::NO_MEMORY;
use crate::mark::{call_begins, call_ends};
use crate::sinks::{Room, vector, was_appended};
use std::alloc::{AllocError, Global};
use wk_bytes::OutOfMemory;
use wk_check::{Fault, FaultKind, Place, Verdict, malformed_line, verdict_line};
use wk_edit::read_name;
use wk_list::{put_header, token_text};
use wk_module::Token;
use wk_samples::outcome::Outcome;

/// A text that is made.
#[derive(Clone, Copy)]
pub(crate) enum Line {
    /// `malformed_line`.
    Malformed,
    /// `verdict_line` of a valid module.
    Valid,
    /// `verdict_line` of a fault.
    Invalid,
    /// `read_name` of a name in hexadecimal digits.
    Name,
    /// `read_name` of a name that stands for itself.
    PlainName,
    /// `put_header`.
    Header,
    /// `token_text`.
    Token,
}

const FAULT: Verdict = Verdict::Invalid(Fault {
    kind: FaultKind::StackHeight,
    place: Place {
        section: 10,
        item: 0,
        token: Some(1),
    },
});

impl Line {
    /// The call.
    pub(crate) fn run(self, alloc: Global) -> Outcome {
        match self {
            Line::Malformed => {
                call_begins(alloc);
                let answer = malformed_line(alloc, &NO_MEMORY);
                call_ends(alloc);
                was_made(answer, "malformed R17 Memory at 0x00000000\n")
            }
            Line::Valid => tells(alloc, &Verdict::Valid, "valid\n"),
            Line::Invalid => tells(
                alloc,
                &FAULT,
                "invalid V15 StackHeight at section 10 item 0 token 1\n",
            ),
            Line::Name => reads_name(alloc, b"x:6e616d65"),
            Line::PlainName => reads_name(alloc, b"name"),
            Line::Header => puts_header(alloc),
            Line::Token => tells_token(alloc),
        }
    }
}

fn was_made(answer: Result<String, AllocError>, text: &str) -> Outcome {
    match answer {
        Ok(line) => Outcome::answered(line.as_str() == text),
        Err(AllocError) => Outcome::refused(true),
    }
}

fn tells(alloc: Global, verdict: &Verdict, text: &str) -> Outcome {
    call_begins(alloc);
    let answer = verdict_line(alloc, verdict);
    call_ends(alloc);
    was_made(answer, text)
}

fn reads_name(alloc: Global, word: &[u8]) -> Outcome {
    call_begins(alloc);
    let answer = read_name(alloc, word);
    call_ends(alloc);
    match answer {
        Ok(Some(name)) => Outcome::answered(name.as_str() == "name"),
        Ok(None) => Outcome::Wrong("it is no name"),
        Err(AllocError) => Outcome::refused(true),
    }
}

fn puts_header(alloc: Global) -> Outcome {
    let Some(mut text) = vector(alloc, Room::Full) else {
        return Outcome::NO_SAMPLE;
    };
    call_begins(alloc);
    let answer = put_header(&mut text, 11, 10, 20);
    call_ends(alloc);
    let line = b"    Data start=0x0000000a end=0x0000001e size=0x00000014";
    was_appended(&text, answer, line)
}

fn tells_token(alloc: Global) -> Outcome {
    let token = Token::BrTable {
        start: 1,
        len: 2,
        other: 0,
    };
    call_begins(alloc);
    let answer = token_text(alloc, &[7, 1, 2], &token);
    call_ends(alloc);
    match answer {
        Ok(text) => Outcome::answered(text.as_slice() == b"br_table 1 2 0".as_slice()),
        Err(OutOfMemory) => Outcome::refused(true),
    }
}
