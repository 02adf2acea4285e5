//! Runs over an outside that gives and takes little at once, and fails at a given call.

ghost use Rattle.std.specs.Prelude.{◌≡◌, ◌≢◌, ◌≤◌, length, None, IfOk};

use super::{Status, run};
use crate::program;
use byte_streams::{
    Failed, MemSink, MemSource, ReaderSource, Sink, SinkError, Source, SureSink, SureSource,
    WriterSink,
};
use std::alloc::{AllocError, Global};
use std::io::{self, Write};
use std::process::ExitCode;
use std::test::Fail;

/// Words and a text, and what a run of them writes where nothing fails.
#[derive(Clone, Copy)]
struct Case {
    words: &'static [&'static str],
    text: &'static [u8],
    is_read: bool,
    output: &'static [u8],
    faults: &'static [u8],
}

/// A text whose inner component names a type of the outer one twice.
const OUTWARD: &[u8] = b"(component (type $t u8) (component (type (list $t)) (type (list $t))))";

/// A text that is encoded.
const ENCODED: Case = Case {
    words: &["encode"],
    text: OUTWARD,
    is_read: true,
    output: b"0061736d0d0001000702017d04160061736d0d000100060501030201000705027000700000160e636f6d706f6e656e742d6e616d6501050301000174\n",
    faults: b"",
};

/// A text that is refused.
const REFUSED: Case = Case {
    words: &["encode"],
    text: b"(component (import \"f\" (func $f)) (component (export \"g\" (func $f))))",
    is_read: true,
    output: b"",
    faults: b"error: OuterKind at 63\n",
};

/// Words that are no command.
const WRONG_WORDS: Case = Case {
    words: &["encode", "encode"],
    text: EMPTY,
    is_read: false,
    output: b"",
    faults: USAGE_LINE,
};

const CASES: [Case; 6] = [
    ENCODED,
    REFUSED,
    WRONG_WORDS,
    Case {
        words: &["encode", "--raw"],
        text: OUTWARD,
        is_read: true,
        output: b"\0asm\x0d\0\x01\0\x07\x02\x01\x7d\x04\x16\0asm\x0d\0\x01\0\x06\x05\x01\x03\x02\x01\0\x07\x05\x02\x70\0\x70\0\0\x16\x0ecomponent-name\x01\x05\x03\x01\0\x01t",
        faults: b"",
    },
    Case {
        words: &["origins"],
        text: OUTWARD,
        is_read: true,
        output: b"written 0\nwritten 1\n  outer-alias 0 0\n  written 0\n  written 1\nname-section\n",
        faults: b"",
    },
    Case {
        words: &["gen", "2"],
        text: EMPTY,
        is_read: false,
        output: TWO,
        faults: b"",
    },
];

/// The first `count` bytes, or all.
fn front(bytes: &[u8], count: usize) -> &[u8] {
    bytes.get(..count).unwrap_or(bytes)
}

fn make_words(alloc: Global, words: &[&str]) -> Result<Vec<String>, AllocError> {
    let mut all = Vec::new(alloc);
    for word in words {
        all.push(String::from_str(alloc, word)?)?;
    }
    Ok(all)
}

fn make_fails(alloc: Global, call: Option<u64>) -> Result<Vec<u64>, AllocError> {
    let mut fails = Vec::new(alloc);
    if let Some(call) = call {
        fails.push(call)?;
    }
    Ok(fails)
}

/// How a run ended, and what it left on its sinks.
#[derive(Drop)]
struct End {
    status: Status,
    output: Vec<u8>,
    faults: Vec<u8>,
}

/// Runs on words and a text where nothing fails.
fn run_surely(alloc: Global, words: &[&str], text: &[u8]) -> Result<End, AllocError>
    ensures reads { IfOk result (λ end. end.status ≢ Status.ReadFault) }
    ensures writes { IfOk result (λ end. end.status ≢ Status.WriteFault) }
{
    let words = make_words(alloc, words)?;
    let mut input = SureSource::new(Vec::from_slice(alloc, text)?);
    let mut output = SureSink::new(alloc);
    let mut faults = SureSink::new(alloc);
    let status = run(alloc, &words, &mut input, &mut output, &mut faults);
    Ok(End {
        status,
        output: Vec::from_slice(alloc, output.bytes())?,
        faults: Vec::from_slice(alloc, faults.bytes())?,
    })
}

/// Words and a text, and how a run of them ends: its status, and what is on the output and on the faults.
type Run = (
    &'static [&'static str],
    &'static [u8],
    Status,
    &'static [u8],
    &'static [u8],
);

const RUNS: [Run; 38] = [
    (&["encode"], EMPTY, Status::Done, HEX, b""),
    (&["encode", "--legacy"], EMPTY, Status::Done, HEX, b""),
    (&["encode", "--raw"], EMPTY, Status::Done, BYTES, b""),
    (
        &["encode", "--legacy", "--raw"],
        EMPTY,
        Status::Done,
        BYTES,
        b"",
    ),
    (
        &["encode", "--raw", "--legacy"],
        EMPTY,
        Status::Done,
        BYTES,
        b"",
    ),
    (&[], EMPTY, Status::Usage, b"", USAGE_LINE),
    (&["--raw", "encode"], EMPTY, Status::Usage, b"", USAGE_LINE),
    (
        &["encode", "--raw", "--raw"],
        EMPTY,
        Status::Usage,
        b"",
        USAGE_LINE,
    ),
    (
        &["encode", "--legacy", "--legacy"],
        EMPTY,
        Status::Usage,
        b"",
        USAGE_LINE,
    ),
    (&["encode", "--Raw"], EMPTY, Status::Usage, b"", USAGE_LINE),
    (&["encode", "raw"], EMPTY, Status::Usage, b"", USAGE_LINE),
    (
        &["encode", "--raw", "--legacy", "--raw"],
        EMPTY,
        Status::Usage,
        b"",
        USAGE_LINE,
    ),
    (
        &["encode"],
        b"",
        Status::Refused,
        b"",
        b"error: Parse at 0\n",
    ),
    (
        &["encode"],
        b"(component \x7f)",
        Status::Refused,
        b"",
        b"error: Lex-BadChar at 11\n",
    ),
    (&["origins"], EMPTY, Status::Done, b"", b""),
    (&["origins"], NESTED, Status::Done, MARKS, b""),
    (
        &["origins", "--legacy"],
        OLDER,
        Status::Done,
        b"written 0\n",
        b"",
    ),
    (
        &["origins"],
        OLDER,
        Status::Refused,
        b"",
        b"error: Parse at 54\n",
    ),
    (&["gen", "0"], b"", Status::Done, NONE, b""),
    (&["gen", "2"], b"", Status::Done, TWO, b""),
    (&["origins", "--raw"], EMPTY, Status::Usage, b"", USAGE_LINE),
    (
        &["origins", "--legacy", "--legacy"],
        EMPTY,
        Status::Usage,
        b"",
        USAGE_LINE,
    ),
    (&["gen"], b"", Status::Usage, b"", USAGE_LINE),
    (&["gen", ""], b"", Status::Usage, b"", USAGE_LINE),
    (&["gen", "02"], b"", Status::Usage, b"", USAGE_LINE),
    (&["gen", "+2"], b"", Status::Usage, b"", USAGE_LINE),
    (&["gen", "100001"], b"", Status::Usage, b"", USAGE_LINE),
    (&["gen", "2", "2"], b"", Status::Usage, b"", USAGE_LINE),
    (&["gen", "--legacy"], b"", Status::Usage, b"", USAGE_LINE),
    (
        &["print"],
        b"0061736d0d000100070501400001000a06010001690100\n",
        Status::Done,
        b"(component (type (func)) (import \"i\" (func (type 0))))\n",
        b"",
    ),
    (
        &["print", "--raw"],
        b"\0asm\x0d\0\x01\0\x07\x03\x01\x70\0\0\x16\x0ecomponent-name\x01\x05\x03\x01\0\x01a",
        Status::Done,
        b"(component (type (list 0)))\n",
        b"",
    ),
    (
        &["print"],
        MODULE,
        Status::Refused,
        b"",
        b"error: Print-CoreModule at 0\n",
    ),
    (
        &["print"],
        b"0061736d0d000100070100",
        Status::Refused,
        b"",
        b"error: Read-NotComponent at 8\n",
    ),
    (
        &["print"],
        b"0061736d0",
        Status::Refused,
        b"",
        b"error: hex at 9\n",
    ),
    (
        &["print", "--raw", "--raw"],
        EMPTY,
        Status::Usage,
        b"",
        USAGE_LINE,
    ),
    (&["print", "-"], EMPTY, Status::Usage, b"", USAGE_LINE),
    // No text, but the bytes that a line of one can't have.
    (
        &["encode"],
        b"(\xff",
        Status::Refused,
        b"",
        b"error: utf-8 at 1\n",
    ),
    (
        &["encode"],
        b"\xe2\x82",
        Status::Refused,
        b"",
        b"error: utf-8 at 0\n",
    ),
];

const EMPTY: &[u8] = b"(component)";

/// A component with a core module, in hexadecimal.
const MODULE: &[u8] =
    b"0061736d0d00010001130061736d010000000009046e616d650002016d0803010300020e0201010164000000000101651200001f0e636f6d706f6e656e742d6e616d650106000001000166010600110100016d\n";

/// An import, and an inner component that names a type of the outer one.
const NESTED: &[u8] =
    b"(component (import \"i\" (func)) (type $t u8) (component (type (list $t))))";

const MARKS: &[u8] =
    b"inline-type 0 0\nwritten 0\nwritten 1\nwritten 2\n  outer-alias 0 0\n  written 0\nname-section\n";

/// A reference to a core function in its older form.
const OLDER: &[u8] = b"(component (core func (canon lower (func 0) (realloc (func 0)))))";

const NONE: &[u8] = b"text 23\nbinary 18\nmarks 1\nouter-aliases 0\n";

const TWO: &[u8] = b"text 102\nbinary 78\nmarks 8\nouter-aliases 2\n";

const HEX: &[u8] = b"0061736d0d000100\n";

const BYTES: &[u8] = b"\0asm\x0d\0\x01\0";

const USAGE_LINE: &[u8] =
    b"usage: encode [--legacy] [--raw] | origins [--legacy] | gen N | list [--raw] | order [--raw] | print [--raw] | compose [--raw]\n";

#[test]
fn runs(rt: HostRuntime) -> Result<(), Fail> {
    for (words, text, status, output, faults) in RUNS {
        let end = run_surely(rt.alloc(), words, text)?;
        assert!(rt; end.status == status, "{words:?} on {text:?}");
        assert!(rt; end.output.as_slice() == output, "{words:?} on {text:?}");
        assert!(rt; end.faults.as_slice() == faults, "{words:?} on {text:?}");
    }
    Ok(())
}

/// Which call fails, counted from 0: a read, or a write of each sink.
#[derive(Clone, Copy)]
enum Call {
    Read(u64),
    Write(u64),
}

/// How many calls pass so many bytes in pieces of at most so many.
fn calls(length: usize, piece: usize) -> u64 {
    let piece = piece.max(1);
    (length / piece) as u64 + u64::from(length % piece != 0)
}

/// A source of a text that fails at such a call.
fn source(alloc: Global, text: &[u8], piece: usize, call: Call) -> Result<MemSource, AllocError> {
    let fails = match call {
        Call::Read(number) => Some(number),
        Call::Write(_) => None,
    };
    let fails = make_fails(alloc, fails)?;
    Ok(MemSource::new(Vec::from_slice(alloc, text)?, fails, piece.max(1)))
}

/// A sink that fails at such a call.
fn sink(alloc: Global, piece: usize, call: Call) -> Result<MemSink, AllocError> {
    let fails = match call {
        Call::Read(_) => None,
        Call::Write(number) => Some(number),
    };
    Ok(MemSink::new(alloc, make_fails(alloc, fails)?, piece.max(1)))
}

/// How a run ends where such a call fails, and how many bytes of its case are written by then.
fn end_of(call: Call, piece: usize) -> (Status, usize) {
    match call {
        Call::Read(_) => (Status::ReadFault, 0),
        Call::Write(number) => (Status::WriteFault, piece.saturating_mul(number as usize)),
    }
}

/// Whether a run fails as it is to, and writes so much of its case.
fn fails_so(alloc: Global, case: Case, piece: usize, call: Call) -> Result<bool, AllocError> {
    let words = make_words(alloc, case.words)?;
    let mut input = source(alloc, case.text, piece, call)?;
    let mut output = sink(alloc, piece, call)?;
    let mut faults = sink(alloc, piece, call)?;
    let status = run(alloc, &words, &mut input, &mut output, &mut faults);
    let (wanted, taken) = end_of(call, piece);
    Ok(
        status == wanted
            && output.bytes() == front(case.output, taken)
            && faults.bytes() == front(case.faults, taken),
    )
}

/// Each read that fails, the one that finds the end too, and each write, in pieces of 1, 2 and 7 bytes.
#[test]
fn faults(rt: HostRuntime) -> Result<(), Fail> {
    for case in CASES {
        for piece in [1, 2, 7] {
            if case.is_read {
                for number in 0..=calls(case.text.len(), piece) {
                    let fails = fails_so(rt.alloc(), case, piece, Call::Read(number))?;
                    assert!(rt; fails, "read {number} in pieces of {piece}");
                }
            }
            for number in 0..calls(case.output.len().max(case.faults.len()), piece) {
                let fails = fails_so(rt.alloc(), case, piece, Call::Write(number))?;
                assert!(rt; fails, "write {number} in pieces of {piece}");
            }
        }
    }
    Ok(())
}

/// Reads as a text with one byte in its middle so often.
#[derive(Drop)]
struct Padded {
    front: &'static [u8],
    byte: u8,
    count: usize,
    back: &'static [u8],
}

/// Gives as much of the front of some bytes as there is room for, and leaves the rest.
fn give(bytes: &mut &'static [u8], room: &mut [u8]) -> usize
    ensures bound { result ≤ length room.old }
    ensures room { length room.new ≡ length room.old }
{
    let count = room.len().min(bytes.len());
    room[..count].copy_from_slice(&bytes[..count]);
    *bytes = &bytes[count..];
    count
}

impl Source for Padded {
    ghost left = { λ _. None };

    ghost faults = { λ _. 0 };

    fn read(&mut self, buf: &mut [u8]) -> Result<usize, Failed> {
        if !self.front.is_empty() {
            return Ok(give(&mut self.front, buf));
        }
        if self.count == 0 {
            return Ok(give(&mut self.back, buf));
        }
        let count = buf.len().min(self.count);
        buf[..count].fill(self.byte);
        self.count -= count;
        Ok(count)
    }
}

/// Takes each piece whole, and keeps how many bytes these were.
#[derive(Drop)]
struct Count {
    bytes: usize,
}

impl Sink for Count {
    ghost taken = { λ _. None };

    ghost faults = { λ _. 0 };

    fn write(&mut self, piece: &[u8]) -> Result<usize, SinkError> {
        self.bytes = self.bytes.saturating_add(piece.len());
        Ok(piece.len())
    }
}

/// A text with one byte in its middle so often, how many of these aren't read, how many bytes are written raw, and the refusal.
type Long = (
    (&'static [u8], u8, usize, &'static [u8]),
    usize,
    usize,
    &'static [u8],
);

/// As many bytes as a text may have, one more, and one that isn't read; the heaviest component with one section, and one that weighs too much.
const LONG: [Long; 7] = [
    (
        (b"", 0, 67_108_864, b""),
        0,
        0,
        b"error: Lex-BadChar at 0\n",
    ),
    ((b"", 0, 67_108_865, b""), 0, 0, b"error: TooBig at 0\n"),
    ((b"", 0, 67_108_866, b""), 1, 0, b"error: TooBig at 0\n"),
    (
        (b"", b' ', 67_108_864, b""),
        0,
        0,
        b"error: Parse at 67108864\n",
    ),
    ((b"", b' ', 67_108_865, b""), 0, 0, b"error: TooBig at 0\n"),
    (
        (b"(component (@custom \"x\" \"", b'a', 67_108_703, b"\"))"),
        0,
        67_108_718,
        b"",
    ),
    (
        (b"(component (@custom \"x\" \"", b'a', 67_108_704, b"\"))"),
        0,
        0,
        b"error: TooBig at 0\n",
    ),
];

#[test]
fn longest_texts(rt: HostRuntime) {
    let alloc = rt.alloc();
    let words = make_words(alloc, &["encode", "--raw"]).expect(&rt, "memory");
    for ((front, byte, count, back), left, written, line) in LONG {
        let mut input = Padded {
            front,
            byte,
            count,
            back,
        };
        let mut output = Count { bytes: 0 };
        let mut faults = SureSink::new(alloc);
        let status = run(alloc, &words, &mut input, &mut output, &mut faults);
        let wanted = if line.is_empty() {
            Status::Done
        } else {
            Status::Refused
        };
        assert!(rt; status == wanted, "{count} bytes");
        assert!(rt;
            output.bytes == written && faults.bytes() == line,
            "{count} bytes"
        );
        assert!(rt; input.count == left, "what is left of {count} bytes");
    }
}

/// Takes nothing of any piece.
#[derive(Drop)]
struct Stuck;

impl Write for Stuck {
    fn write(&mut self, _buf: &[u8]) -> io::Result<usize> {
        Ok(0)
    }

    fn flush(&mut self) -> io::Result<()> {
        Ok(())
    }
}

/// Takes each piece, and can't pass it on.
#[derive(Drop)]
struct Unflushed;

impl Write for Unflushed {
    fn write(&mut self, buf: &[u8]) -> io::Result<usize> {
        Ok(buf.len())
    }

    fn flush(&mut self) -> io::Result<()> {
        Err(io::Error::from(io::ErrorKind::StorageFull))
    }
}

/// How a run ends that writes its output and its faults to these.
fn status_over<O: Write, E: Write>(
    alloc: Global,
    case: Case,
    output: O,
    faults: E,
) -> Result<Status, AllocError>
where
    O: Drop,
    E: Drop,
{
    let words = make_words(alloc, case.words)?;
    let mut input = ReaderSource::new(case.text);
    let mut output = WriterSink::new(output);
    let mut faults = WriterSink::new(faults);
    Ok(run(alloc, &words, &mut input, &mut output, &mut faults))
}

/// A writer that takes nothing of a piece, or that can't pass it on, fails.
#[test]
fn failing_writers(rt: HostRuntime) {
    let alloc = rt.alloc();
    for case in [REFUSED, WRONG_WORDS] {
        let stuck = status_over(alloc, case, Unflushed, Stuck).expect(&rt, "memory");
        assert!(rt; stuck == Status::WriteFault, "faults that take nothing");
        let unflushed = status_over(alloc, case, Stuck, Unflushed).expect(&rt, "memory");
        assert!(rt;
            unflushed == Status::WriteFault,
            "faults that aren't passed on"
        );
    }
    let stuck = status_over(alloc, ENCODED, Stuck, Unflushed).expect(&rt, "memory");
    assert!(rt; stuck == Status::WriteFault, "an output that takes nothing");
    let unflushed = status_over(alloc, ENCODED, Unflushed, Stuck).expect(&rt, "memory");
    assert!(rt;
        unflushed == Status::WriteFault,
        "an output that isn't passed on"
    );
}

/// Takes a byte of each piece, so often, and then finds no memory.
#[derive(Drop)]
struct Starved {
    left: usize,
}

impl Sink for Starved {
    ghost taken = { λ _. None };

    ghost faults = { λ _. 0 };

    fn write(&mut self, piece: &[u8]) -> Result<usize, SinkError> {
        if self.left == 0 {
            return Err(SinkError::NoMemory);
        }
        self.left -= 1;
        Ok(piece.len().min(1))
    }
}

/// A run whose sink finds no memory, at once or later, ends for want of memory.
#[test]
fn starved_sinks(rt: HostRuntime) {
    let alloc = rt.alloc();
    for case in [ENCODED, REFUSED, WRONG_WORDS] {
        for left in [0, 1, 16] {
            let words = make_words(alloc, case.words).expect(&rt, "memory");
            let mut input = ReaderSource::new(case.text);
            let mut output = Starved { left };
            let mut faults = Starved { left };
            let status = run(alloc, &words, &mut input, &mut output, &mut faults);
            assert!(rt; status == Status::NoMemory, "{left} writes");
        }
    }
}

/// The arguments of a test are no command, which the program says on the real standard error.
#[test]
fn real_streams(rt: HostRuntime) {
    assert!(rt; program(&rt) == ExitCode::from(2));
}
