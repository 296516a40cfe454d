//! Sources and sinks over std's readers and writers. They tell no bytes.
ghost use Rattle.std.specs.Prelude.{◌≡◌, ◌≤◌, None, Err, length, take, IfOk, OnErr};
ghost use Rattle.std.specs.Io.{ReadsAtMost, WritesAtMost};
ghost use Rattle.std.specs.Io.KnownBytes.{Keeps, Appends, Consumes, IsAtEnd, ReadConsumes};
ghost use Rattle.outside_io.specs.Causes.{Rose};
ghost use Rattle.outside_io.specs.Told.{IsCount};

use crate::fault::IoFault;
use crate::sink::Sink;
use crate::source::Source;
use std::io;
use std::io::{ErrorKind, Read, Write};

// How often in a row a call that was interrupted is made again, before that counts as a fault.
const RETRIES: u32 = 16;

/// A source over a reader of std's, such as standard input. It tells no bytes.
///
/// A read that was interrupted is made again, up to 16 times in a row, and then counts as a fault.
#[derive(Drop)]
pub struct RealSource<R: Read + Drop> {
    reader: R,
    faults: u64,
}

impl<R: Read + Drop> RealSource<R> {
    /// No fault is counted yet.
    pub fn new(reader: R) -> RealSource<R>
        ensures faults { result.faults ≡ 0 }
        ensures reader { result.reader ≡ reader }
    {
        RealSource { reader, faults: 0 }
    }
}

impl<R: Read + Drop> Source for RealSource<R> {
    ghost reading = { λ s. record { given = None; left = None; failed = s.faults } };

    fn read(&mut self, into: &mut [u8]) -> Result<usize, IoFault>
        ensures count { IfOk result (λ n. IsCount n (length into.old)) }
        ensures failed { result ≡ Err IoFault.Failed → Rose self.old.faults self.new.faults }
        ensures grows { self.old.faults ≤ self.new.faults }

        // Where the reader tells its bytes, they are those that are given, and the end is theirs.
        ensures passed_on { IfOk result (λ n.
            Consumes (R.remaining self.old.reader) (R.remaining self.new.reader) (take n into.new)) }
        ensures none_lost { OnErr result
            (Keeps (R.remaining self.old.reader) (R.remaining self.new.reader)) }
        ensures at_end { result ≡ Err IoFault.Ended → IsAtEnd (R.remaining self.new.reader) }
    {
        if into.is_empty() {
            return Ok(0);
        }
        match read_once(&mut self.reader, into) {
            Ok(0) => Err(IoFault::Ended),
            Ok(count) => Ok(count),
            Err(_) => {
                self.faults = self.faults.saturating_add(1);
                Err(IoFault::Failed)
            }
        }
    }

    fn read_faults(&self) -> u64 {
        self.faults
    }
}

/// A sink over a writer of std's, such as standard output or standard error. It tells no bytes.
///
/// A write that was interrupted is made again, up to 16 times in a row, and then counts as a fault. One that takes
/// nothing of a piece that isn't empty is `Ended`.
///
/// Every byte that it takes has left the program when `write` returns: it flushes the writer after each write. Where
/// the writer has taken bytes and the flush fails, that is a fault, and whether they got through isn't known.
#[derive(Drop)]
pub struct RealSink<W: Write + Drop> {
    writer: W,
    faults: u64,
    ended: u64,
}

impl<W: Write + Drop> RealSink<W> {
    /// No fault and no end is counted yet.
    pub fn new(writer: W) -> RealSink<W>
        ensures faults { result.faults ≡ 0 }
        ensures ended { result.ended ≡ 0 }
        ensures writer { result.writer ≡ writer }
    {
        RealSink {
            writer,
            faults: 0,
            ended: 0,
        }
    }
}

impl<W: Write + Drop> Sink for RealSink<W> {
    ghost writing = { λ s. record { taken = None; failed = s.faults; ended = s.ended } };

    fn write(&mut self, piece: &[u8]) -> Result<usize, IoFault>
        ensures count { IfOk result (λ n. IsCount n (length piece.now)) }
        ensures failed { result ≡ Err IoFault.Failed → Rose self.old.faults self.new.faults }
        ensures ended { result ≡ Err IoFault.Ended → Rose self.old.ended self.new.ended }
        ensures failed_grows { self.old.faults ≤ self.new.faults }
        ensures ended_grows { self.old.ended ≤ self.new.ended }

        // Where the writer tells what it holds, that grows by what is taken.
        ensures passed_on { IfOk result (λ n.
            Appends (W.contents self.old.writer) (W.contents self.new.writer) (take n piece.now)) }
    {
        if piece.is_empty() {
            return Ok(0);
        }
        match write_once(&mut self.writer, piece) {
            Ok(0) => {
                self.ended = self.ended.saturating_add(1);
                Err(IoFault::Ended)
            }
            Ok(count) => Ok(count),
            Err(_) => {
                self.faults = self.faults.saturating_add(1);
                Err(IoFault::Failed)
            }
        }
    }

    fn write_faults(&self) -> u64 {
        self.faults
    }
}

// Reads once, and again where the read was interrupted.
#[tactic(auto, using(crate::proofs::Known::known))]
fn read_once<R: Read>(reader: &mut R, into: &mut [u8]) -> io::Result<usize>
    ensures bound { ReadsAtMost result into.new }
    ensures bytes { ReadConsumes (R.remaining reader.old) (R.remaining reader.new) result into.new }
{
    for _ in 0..RETRIES {
        match reader.read(into) {
            Err(error) if error.kind() == ErrorKind::Interrupted => {}
            other => return other,
        }
    }
    reader.read(into)
}

// Writes once, and again where the write was interrupted, and flushes what was written.
#[tactic(auto, using(crate::proofs::Known::known))]
fn write_once<W: Write>(writer: &mut W, piece: &[u8]) -> io::Result<usize>
    ensures bound { WritesAtMost result piece.now }
    ensures bytes { IfOk result (λ n.
        Appends (W.contents writer.old) (W.contents writer.new) (take n piece.now)) }
{
    for _ in 0..RETRIES {
        match writer.write(piece) {
            Err(error) if error.kind() == ErrorKind::Interrupted => {}
            Ok(count) => {
                writer.flush()?;
                return Ok(count);
            }
            Err(error) => return Err(error),
        }
    }
    let count = writer.write(piece)?;
    writer.flush()?;
    Ok(count)
}
