//! Readers and writers that stop, fail or transfer little at a time.
use super::{Run, assert_end, assert_read, holds};
use recovery_replay::outcome::Outcome;
use recovery_replay::replay::replay_and_tell;
use recovery_replay::script::Ending;
use std::alloc::Global;
use std::io;
use std::io::{ErrorKind, Read, Write};
use std::process::Abort;
use std::test::Fail;

/// Contents that are retransmitted, with a probe in between.
const SCRIPT: &str =
    "send data 0 100 1 - 7 8\nqueue-probe data 0\ntake-pending data\nlost data 0\ntake-pending data\n";

const ANSWERS: &str = "sent 0\nsendable no yes\nqueue 7 8\nlost\nqueue\n";

/// Returns its bytes in small pieces, each after an interrupted read; then it fails or ends.
#[derive(Drop)]
struct Source<'a> {
    rest: &'a [u8],
    step: usize,
    is_interrupted: bool,
    fails: bool,
}

impl<'a> Source<'a> {
    fn new(rest: &'a [u8], step: usize, fails: bool) -> Self {
        Source {
            rest,
            step,
            is_interrupted: false,
            fails,
        }
    }
}

impl Read for Source<'_> {
    fn read(&mut self, buf: &mut [u8]) -> io::Result<usize> {
        self.is_interrupted = !self.is_interrupted;
        if self.is_interrupted {
            return Err(io::Error::from(ErrorKind::Interrupted));
        }
        if self.rest.is_empty() && self.fails {
            return Err(io::Error::from(ErrorKind::BrokenPipe));
        }
        let count = self.step.min(self.rest.len()).min(buf.len());
        let (now, later) = self.rest.split_at(count);
        buf[..count].copy_from_slice(now);
        self.rest = later;
        Ok(count)
    }
}

/// Accepts bytes in small pieces, each after an interrupted write, as long as it has room; then it fails, in one way,
/// or accepts none.
#[derive(Drop)]
struct Sink {
    taken: Vec<u8>,
    room: usize,
    is_interrupted: bool,
    fails: bool,
    flush_fails: bool,
    kind: ErrorKind,
}

impl Sink {
    fn new(alloc: Global, room: usize, fails: bool, flush_fails: bool, kind: ErrorKind) -> Self {
        Sink {
            taken: Vec::new(alloc),
            room,
            is_interrupted: false,
            fails,
            flush_fails,
            kind,
        }
    }
}

impl Write for Sink {
    fn write(&mut self, buf: &[u8]) -> io::Result<usize> {
        self.is_interrupted = !self.is_interrupted;
        if self.is_interrupted {
            return Err(io::Error::from(ErrorKind::Interrupted));
        }
        if self.room == 0 && self.fails {
            return Err(io::Error::from(self.kind));
        }
        let count = self.room.min(buf.len()).min(7);
        self.taken.extend_from_slice(&buf[..count])?;
        self.room -= count;
        Ok(count)
    }

    fn flush(&mut self) -> io::Result<()> {
        if self.flush_fails {
            return Err(io::Error::from(self.kind));
        }
        Ok(())
    }
}

/// Returns the first lines of a text.
fn first_lines(text: &[u8], count: usize) -> &[u8] {
    let mut seen = 0usize;
    for (index, byte) in text.iter().enumerate() {
        if seen == count {
            return &text[..index];
        }
        if *byte == b'\n' {
            seen = seen.saturating_add(1);
        }
    }
    text
}

fn line_feeds(text: &[u8]) -> usize {
    let mut seen = 0usize;
    for byte in text {
        if *byte == b'\n' {
            seen = seen.saturating_add(1);
        }
    }
    seen
}

/// Asserts the outcome of a run that reads a prefix of the script, which then ends or fails.
fn assert_front(rt: &impl Abort, alloc: Global, front: &[u8], fails: bool) {
    let want = Run {
        answers: first_lines(ANSWERS.as_bytes(), line_feeds(front)),
        status: if fails { 1 } else { 0 },
        errors: if fails { b"replay: read failed\n" } else { b"" },
    };
    for step in [1, 4096] {
        let input = Source::new(front, step, fails);
        assert_read(rt, alloc, front.len(), &[], input, &want);
    }
}

/// Asserts the outcome of a run whose output accepts some bytes of the answers, and then fails, and perhaps fails to
/// flush. A closed pipe is no failure.
fn assert_room(rt: &impl Abort, alloc: Global, front: &[u8], fails: bool, flush_fails: bool) {
    let is_cut = front.len() < ANSWERS.len();
    let is_broken = if is_cut { fails } else { flush_fails };
    let failed: &[u8] = if is_cut || flush_fails {
        b"replay: write failed\n"
    } else {
        b""
    };
    let quiet: &[u8] = if is_broken { b"" } else { failed };
    for (kind, errors) in [
        (ErrorKind::PermissionDenied, failed),
        (ErrorKind::BrokenPipe, quiet),
    ] {
        let output = Sink::new(alloc, front.len(), fails, flush_fails, kind);
        assert_written(rt, alloc, front, output, errors);
    }
}

fn assert_written(rt: &impl Abort, alloc: Global, front: &[u8], mut output: Sink, wanted: &[u8]) {
    let mut input = SCRIPT.as_bytes();
    let mut errors = Vec::new(alloc);
    let (outcome, _) = replay_and_tell(alloc, &[], &mut input, &mut output, &mut errors);
    let want = Run {
        answers: front,
        status: if wanted.is_empty() { 0 } else { 1 },
        errors: wanted,
    };
    assert_end(rt, front.len(), outcome, &output.taken, &errors, &want);
}

/// The bytes of a line, whether the read after it fails, and the result of the run.
static LONG_LINES: [(usize, bool, u8, &str); 4] = [
    (4096, false, 2, "line 1: cannot be read\n"),
    (4097, false, 2, "line 1: cannot be read\n"),
    (4096, true, 1, "replay: read failed\n"),
    (4097, true, 2, "line 1: cannot be read\n"),
];

#[test]
fn long_lines(rt: HostRuntime) -> Result<(), Fail> {
    for (row, (length, fails, status, errors)) in LONG_LINES.iter().enumerate() {
        let line = vec![in rt.alloc(); b'a'; *length]?;
        let want = Run {
            answers: b"",
            status: *status,
            errors: errors.as_bytes(),
        };
        let input = Source::new(&line, 1000, *fails);
        assert_read(&rt, rt.alloc(), row, &[], input, &want);
    }
    Ok(())
}

#[test]
fn failed_reads(rt: HostRuntime) {
    let script = SCRIPT.as_bytes();
    assert_front(&rt, rt.alloc(), script, false);
    for kept in 0..=script.len() {
        assert_front(&rt, rt.alloc(), &script[..kept], true);
    }
}

#[test]
fn failed_writes(rt: HostRuntime) {
    let answers = ANSWERS.as_bytes();
    for room in 0..=answers.len() {
        let front = &answers[..room];
        assert_room(&rt, rt.alloc(), front, false, false);
        assert_room(&rt, rt.alloc(), front, true, false);
        assert_room(&rt, rt.alloc(), front, false, true);
    }
}

#[test]
fn failed_texts(rt: HostRuntime) {
    let text = b"line 1: cannot be read\n";
    for room in 0..=text.len() {
        let mut input = b"received data".as_slice();
        let mut output = Vec::new(rt.alloc());
        let kind = ErrorKind::PermissionDenied;
        let mut errors = Sink::new(rt.alloc(), room, true, false, kind);
        let (outcome, told) = replay_and_tell(
            rt.alloc(),
            &[],
            &mut input,
            &mut output,
            &mut errors,
        );
        let want = Run {
            answers: b"",
            status: 2,
            errors: &text[..room],
        };
        assert_end(&rt, room, outcome, &output, &errors.taken, &want);
        let is_bad = matches!(outcome, Outcome::Ended(Ending::BadLine(1)));
        holds(&rt, is_bad && told.is_ok() == (room == text.len()), room);
    }
}
