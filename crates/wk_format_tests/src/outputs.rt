//! Where bytes go: into memory, and to a writer that fails.

use std::alloc::Global;
use std::io;
use std::io::Write;
use std::test::Fail;
use wk_bytes::{Out, OutFault, Sink, Stream, put_all};

const TEXT: &[u8] = b"abcdefghijklmnopqrstuvwxyz";

/// What a writer does at its bad call.
#[derive(Clone, Copy, PartialEq, Eq)]
enum Answer {
    Fault,
    Nothing,
}

// A writer that counts its calls, and takes all or at most so many bytes at each, but for one call, at which it takes none.
#[derive(Drop)]
struct Writer {
    taken: Vec<u8>,
    most: usize,
    calls: u32,
    bad_call: u32,
    answer: Answer,
}

impl Write for Writer {
    fn write(&mut self, bytes: &[u8]) -> io::Result<usize> {
        self.calls = self.calls.saturating_add(1);
        if self.calls == self.bad_call {
            return match self.answer {
                Answer::Fault => Err(io::Error::from(io::ErrorKind::Other)),
                Answer::Nothing => Ok(0),
            };
        }
        let n = bytes.len().min(self.most);
        self.taken.extend_from_slice(&bytes[..n])?;
        Ok(n)
    }

    fn flush(&mut self) -> io::Result<()> {
        Ok(())
    }
}

// A writer's habit, and what it was called and has taken when the text was put.
#[derive(Clone, Copy)]
struct Row {
    most: usize,
    bad_call: u32,
    answer: Answer,
    calls: u32,
    taken: usize,
}

// Whether the stream counts that failure, makes no call for no bytes, and then hands its writer out as the row says.
fn is_left_so(mut stream: Stream<Writer>, failures: u64, row: Row) -> bool {
    let is_counted = stream.failures() == failures && failures < 2 && stream.put(b"") == Ok(0);
    let writer = stream.into_inner();
    is_counted
        && writer.calls == row.calls
        && TEXT.starts_with(&writer.taken)
        && writer.taken.len() == row.taken
}

// Whether the text is put as the row says.
fn is_put(alloc: Global, row: Row) -> bool {
    let taken = Vec::new(alloc);
    let Row {
        most,
        bad_call,
        answer,
        ..
    } = row;
    let mut stream = Stream::new(Writer {
        taken,
        most,
        calls: 0,
        bad_call,
        answer,
    });
    match put_all(&mut stream, TEXT) {
        Ok(()) => bad_call == 0 && is_left_so(stream, 0, row),
        Err(_) => bad_call != 0 && is_left_so(stream, 1, row),
    }
}

// A failure is answered and counted once, and the writer, which would take all from then on, is not called again.
const ROWS: [Row; 7] = [
    Row {
        most: 100,
        bad_call: 0,
        answer: Answer::Fault,
        calls: 1,
        taken: 26,
    },
    Row {
        most: 10,
        bad_call: 0,
        answer: Answer::Fault,
        calls: 3,
        taken: 26,
    },
    Row {
        most: 100,
        bad_call: 1,
        answer: Answer::Fault,
        calls: 1,
        taken: 0,
    },
    Row {
        most: 10,
        bad_call: 2,
        answer: Answer::Fault,
        calls: 2,
        taken: 10,
    },
    Row {
        most: 10,
        bad_call: 3,
        answer: Answer::Fault,
        calls: 3,
        taken: 20,
    },
    Row {
        most: 100,
        bad_call: 1,
        answer: Answer::Nothing,
        calls: 1,
        taken: 0,
    },
    Row {
        most: 10,
        bad_call: 2,
        answer: Answer::Nothing,
        calls: 2,
        taken: 10,
    },
];

// The bad call and the greatest piece of the first writer that is called or has taken otherwise.
fn wrong_writer(alloc: Global) -> Option<(u32, usize)> {
    for row in ROWS {
        if !is_put(alloc, row) {
            return Some((row.bad_call, row.most));
        }
    }
    None
}

#[test]
fn stops_where_the_writer_fails(rt: HostRuntime) -> Result<(), Fail> {
    assert_eq!(rt; wrong_writer(rt.alloc()), None);
    Ok(())
}

// What a writer does at a call.
#[derive(Clone, Copy, PartialEq, Eq)]
enum Habit {
    /// It takes so many bytes.
    Takes(usize),
    /// It fails so.
    Fails(io::ErrorKind),
}

// A writer with a habit for each call, which counts its calls, those that failed and those that took nothing.
#[derive(Drop)]
struct Fickle<'a> {
    habits: &'a [Habit],
    calls: usize,
    failed: u64,
    empty: u64,
}

impl Write for Fickle<'_> {
    fn write(&mut self, bytes: &[u8]) -> io::Result<usize> {
        let habit = self.habits.get(self.calls);
        self.calls = self.calls.saturating_add(1);
        match habit {
            Some(Habit::Fails(kind)) => {
                self.failed = self.failed.saturating_add(1);
                Err(io::Error::from(*kind))
            }
            Some(Habit::Takes(n)) if *n > 0 => Ok(bytes.len().min(*n)),
            _ => {
                self.empty = self.empty.saturating_add(1);
                Ok(0)
            }
        }
    }

    fn flush(&mut self) -> io::Result<()> {
        Ok(())
    }
}

const HABITS: [Habit; 9] = [
    Habit::Takes(26),
    Habit::Fails(io::ErrorKind::Other),
    Habit::Takes(1),
    Habit::Takes(0),
    Habit::Takes(25),
    Habit::Fails(io::ErrorKind::Interrupted),
    Habit::Fails(io::ErrorKind::WouldBlock),
    Habit::Takes(26),
    Habit::Takes(0),
];

// What a stream answers where its writer does so.
fn answer_to(habit: Habit) -> Result<usize, OutFault> {
    match habit {
        Habit::Takes(n) if n > 0 => Ok(n),
        _ => Err(OutFault),
    }
}

// Whether each call of the stream is one of its writer, which it answers, and each of its failures one of the writer's.
fn answers_as_its_writer() -> bool {
    let mut stream = Stream::new(Fickle {
        habits: &HABITS,
        calls: 0,
        failed: 0,
        empty: 0,
    });
    let mut are_right = true;
    for habit in HABITS {
        let before = stream.failures();
        if before > 100 {
            return false;
        }
        let answer = stream.put(TEXT);
        let more = u64::from(answer.is_err());
        are_right = are_right
            && answer == answer_to(habit)
            && stream.failures() - before == more
            && stream.put(b"") == Ok(0);
    }
    let failures = stream.failures();
    let writer = stream.into_inner();
    are_right
        && writer.calls == HABITS.len()
        && (writer.failed, writer.empty, failures) == (3, 2, 5)
}

#[test]
fn fails_where_the_writer_does(rt: HostRuntime) -> Result<(), Fail> {
    assert!(rt; answers_as_its_writer());
    Ok(())
}

// Whether a sink takes text behind text, and none.
fn is_gathered(alloc: Global) -> bool {
    let mut sink = Sink::new(Vec::new(alloc));
    let are_put = put_all(&mut sink, b"").is_ok()
        && put_all(&mut sink, TEXT).is_ok()
        && sink.put(b"!") == Ok(1);
    let failures = sink.failures();
    let bytes = sink.into_inner();
    are_put && failures == 0 && bytes.strip_prefix(TEXT) == Some(b"!".as_slice())
}

#[test]
fn gathers(rt: HostRuntime) -> Result<(), Fail> {
    assert!(rt; is_gathered(rt.alloc()));
    Ok(())
}
