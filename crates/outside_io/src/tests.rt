//! Calls that are made one after another, with faults in mid-stream.
use super::*;
use std::alloc::AllocError;
use std::io;
use std::io::{ErrorKind, Read, Write, pipe};
use std::process::Abort;
use std::test::Fail;

type Answer = Result<usize, IoFault>;

const FAILED: Answer = Err(IoFault::Failed);

const ENDED: Answer = Err(IoFault::Ended);

// Reads once for each answer, which has to be the one wanted, and gives back the bytes that came.
fn read_each<S: Source, R: Abort + AllocGlobal>(
    rt: &R,
    source: &mut S,
    room: usize,
    wanted: &[Answer],
) -> Result<Vec<u8>, AllocError> {
    let mut bytes = Vec::new(rt.alloc());
    let mut buffer = [0u8; 8];
    let room = room.min(8);
    for answer in wanted {
        let into = &mut buffer[..room];
        let got = source.read(into);
        assert_eq!(rt; got, *answer);
        if let Ok(count) = got {
            bytes.extend_from_slice(&buffer[..count])?;
        }
    }
    Ok(bytes)
}

// Writes each piece, whose answer has to be the one wanted.
fn write_each<W: Sink>(rt: &impl Abort, sink: &mut W, wanted: &[(&str, Answer)]) {
    for (piece, answer) in wanted {
        assert_eq!(rt; sink.write(piece.as_bytes()), *answer, "at {piece}");
    }
}

#[derive(Clone, Copy)]
struct Reads<'a> {
    bytes: &'a str,
    piece: usize,
    room: usize,
    fails: &'a [u64],
    answers: &'a [Answer],
    faults: u64,
    given: &'a str,
}

#[test]
fn a_source_in_memory_gives_pieces(rt: HostRuntime) -> Result<(), Fail> {
    let rows = [
        Reads {
            bytes: "abcdefg",
            piece: 3,
            room: 8,
            fails: &[],
            answers: &[Ok(3), Ok(3), Ok(1), ENDED, ENDED],
            faults: 0,
            given: "abcdefg",
        },
        Reads {
            bytes: "abcdefg",
            piece: 8,
            room: 2,
            fails: &[2],
            answers: &[Ok(2), FAILED, Ok(2), Ok(2), Ok(1), ENDED],
            faults: 1,
            given: "abcdefg",
        },
        Reads {
            bytes: "abcdefg",
            piece: 5,
            room: 8,
            fails: &[6, 1, 3, 3],
            answers: &[FAILED, Ok(5), FAILED, Ok(2), ENDED, FAILED, ENDED],
            faults: 3,
            given: "abcdefg",
        },
        Reads {
            bytes: "abc",
            piece: 1,
            room: 0,
            fails: &[2],
            answers: &[Ok(0), FAILED, Ok(0)],
            faults: 1,
            given: "",
        },
    ];
    for row in rows {
        assert!(rt; row.piece >= 1);
        let bytes = Vec::from_slice(rt.alloc(), row.bytes.as_bytes())?;
        let fails = Vec::from_slice(rt.alloc(), row.fails)?;
        let mut source = MemSource::new(bytes, row.piece, fails);
        let given = read_each(&rt, &mut source, row.room, row.answers)?;
        assert_eq!(rt; given.as_slice(), row.given.as_bytes());
        assert_eq!(rt; source.read_faults(), row.faults);
    }
    Ok(())
}

#[derive(Clone, Copy)]
struct Writes<'a> {
    room: usize,
    fails: &'a [u64],
    answers: &'a [(&'a str, Answer)],
    faults: u64,
    taken: &'a str,
}

#[test]
fn a_sink_in_memory_takes_what_fits(rt: HostRuntime) -> Result<(), Fail> {
    let rows = [
        Writes {
            room: 5,
            fails: &[],
            answers: &[("ab", Ok(2)), ("cdef", Ok(3)), ("f", ENDED), ("", Ok(0))],
            faults: 0,
            taken: "abcde",
        },
        Writes {
            room: 4,
            fails: &[2, 4],
            answers: &[("abc", Ok(3)), ("d", FAILED), ("def", Ok(1)), ("e", FAILED)],
            faults: 2,
            taken: "abcd",
        },
        Writes {
            room: 0,
            fails: &[3],
            answers: &[("", Ok(0)), ("a", ENDED), ("a", FAILED), ("a", ENDED)],
            faults: 1,
            taken: "",
        },
    ];
    for row in rows {
        let fails = Vec::from_slice(rt.alloc(), row.fails)?;
        let mut sink = MemSink::new(rt.alloc(), row.room, fails)?;
        write_each(&rt, &mut sink, row.answers);
        assert_eq!(rt; sink.bytes(), row.taken.as_bytes());
        assert_eq!(rt; sink.write_faults(), row.faults);
    }
    Ok(())
}

#[test]
fn a_whole_piece_is_written(rt: HostRuntime) -> Result<(), Fail> {
    let rows: [(usize, &[u64], Result<(), IoFault>, &str); 3] = [
        (6, &[], Ok(()), "abcd"),
        (3, &[], Err(IoFault::Ended), "abc"),
        (6, &[1], Err(IoFault::Failed), ""),
    ];
    for (room, fails, wanted, taken) in rows {
        let fails = Vec::from_slice(rt.alloc(), fails)?;
        let mut sink = MemSink::new(rt.alloc(), room, fails)?;
        assert_eq!(rt; write_all(&mut sink, b"abcd"), wanted);
        assert_eq!(rt; sink.bytes(), taken.as_bytes());
    }
    let steps = [Step::Move(1), Step::Move(2), Step::Fail];
    let mut sink = RealSink::new(Script::new(&steps, false));
    assert_eq!(rt; write_all(&mut sink, b"abcd"), Err(IoFault::Failed));
    Ok(())
}

#[test]
fn a_listed_clock_gives_its_times(rt: HostRuntime) -> Result<(), Fail> {
    let rows: [(&[i64], [i64; 3]); 3] = [
        (&[], [0, 0, 0]),
        (&[5], [5, 5, 5]),
        (&[7, -2], [7, -2, -2]),
    ];
    for (listed, wanted) in rows {
        let mut clock = ListClock::new(Vec::from_slice(rt.alloc(), listed)?);
        for time in wanted {
            assert_eq!(rt; clock.now_ms(), time);
        }
    }
    let mut clock = RealClock::new(rt);
    assert!(rt; clock.now_ms() > 1_600_000_000_000);
    Ok(())
}

// What a stream of the system's does at one call.
#[derive(Clone, Copy)]
enum Step {
    Move(usize),
    Interrupt,
    Fail,
}

// A stream that goes through its steps, and then moves nothing.
#[derive(Drop)]
struct Script<'a> {
    steps: &'a [Step],
    at: usize,
    flush_fails: bool,
}

impl<'a> Script<'a> {
    fn new(steps: &'a [Step], flush_fails: bool) -> Script<'a> {
        Script {
            steps,
            at: 0,
            flush_fails,
        }
    }

    fn next_count(&mut self) -> io::Result<usize> {
        let step = self.steps.get(self.at).copied().unwrap_or(Step::Move(0));
        self.at = self.at.saturating_add(1);
        match step {
            Step::Move(count) => Ok(count),
            Step::Interrupt => Err(io::Error::from(ErrorKind::Interrupted)),
            Step::Fail => Err(io::Error::from(ErrorKind::Other)),
        }
    }
}

impl Read for Script<'_> {
    fn read(&mut self, buf: &mut [u8]) -> io::Result<usize> {
        let count = self.next_count()?.min(buf.len());
        for byte in buf.iter_mut() {
            *byte = b'x';
        }
        Ok(count)
    }
}

impl Write for Script<'_> {
    fn write(&mut self, buf: &[u8]) -> io::Result<usize> {
        Ok(self.next_count()?.min(buf.len()))
    }

    fn flush(&mut self) -> io::Result<()> {
        if self.flush_fails {
            return Err(io::Error::from(ErrorKind::Other));
        }
        Ok(())
    }
}

#[test]
fn a_source_over_a_reader_counts_its_faults(rt: HostRuntime) -> Result<(), Fail> {
    let steps = [
        Step::Move(3),
        Step::Interrupt,
        Step::Interrupt,
        Step::Move(2),
        Step::Fail,
        Step::Move(1),
    ];
    let mut source = RealSource::new(Script::new(&steps, false));
    let answers = [Ok(3), Ok(2), FAILED, Ok(1), ENDED];
    let given = read_each(&rt, &mut source, 4, &answers)?;
    assert_eq!(rt; given.as_slice(), b"xxxxxx".as_slice());
    assert_eq!(rt; source.read_faults(), 1);

    let interrupts = [Step::Interrupt; 40];
    let mut source = RealSource::new(Script::new(&interrupts, false));
    read_each(&rt, &mut source, 4, &[FAILED, FAILED, ENDED])?;
    assert_eq!(rt; source.read_faults(), 2);

    let mut source = RealSource::new(b"abc".as_slice());
    let given = read_each(&rt, &mut source, 2, &[Ok(2), Ok(1), ENDED])?;
    assert_eq!(rt; given.as_slice(), b"abc".as_slice());
    read_each(&rt, &mut source, 0, &[Ok(0)])?;
    Ok(())
}

#[test]
fn a_sink_over_a_writer_counts_its_faults(rt: HostRuntime) -> Result<(), Fail> {
    let steps = [Step::Move(2), Step::Interrupt, Step::Move(3), Step::Fail];
    let mut sink = RealSink::new(Script::new(&steps, false));
    let answers = [
        ("ab", Ok(2)),
        ("", Ok(0)),
        ("cdef", Ok(3)),
        ("f", FAILED),
        ("f", ENDED),
    ];
    write_each(&rt, &mut sink, &answers);
    assert_eq!(rt; sink.write_faults(), 1);

    let mut sink = RealSink::new(Script::new(&[Step::Move(2)], true));
    write_each(&rt, &mut sink, &[("ab", FAILED)]);
    assert_eq!(rt; sink.write_faults(), 1);
    Ok(())
}

#[test]
fn system_streams_carry_the_bytes(rt: HostRuntime) -> Result<(), Fail> {
    read_each(&rt, &mut RealSource::new(rt.stdin()), 0, &[Ok(0)])?;
    write_each(&rt, &mut RealSink::new(rt.stdout()), &[("", Ok(0))]);
    write_each(&rt, &mut RealSink::new(rt.stderr()), &[("", Ok(0))]);
    let (reader, writer) = pipe(&rt)?;
    let mut sink = RealSink::new(writer);
    assert_eq!(rt; write_all(&mut sink, b"hello"), Ok(()));
    assert_eq!(rt; sink.write_faults(), 0);
    drop(sink);
    let mut source = RealSource::new(reader);
    let given = read_each(&rt, &mut source, 4, &[Ok(4), Ok(1), ENDED])?;
    assert_eq!(rt; given.as_slice(), b"hello".as_slice());
    Ok(())
}
