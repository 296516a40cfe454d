//! Sinks: streams of bytes that are written.
ghost use Rattle.std.specs.Prelude.{◌≡◌, ℕ, ◌≤◌, ◌<◌, List, length, take, Option, Result, Err, IfOk, OnOk, OnErr};
ghost use Rattle.outside_io.specs.Causes.{Rose};
ghost use Rattle.outside_io.specs.Told.{IsCount, Reading, no_reading, Writing, Takes, CountsGrow};

use crate::fault::IoFault;

/// A stream of bytes that is written.
pub trait Sink {
    /// What it shows: the bytes taken, where they are told, the count of the faults of its writes, and the count of
    /// its answers `Ended`, which no code needs to know.
    ghost writing: { Self → Writing };

    /// The half of it that is read, if it has one, which a write leaves as it is.
    ghost reading: { Self → Reading } = { λ _. no_reading };

    /// Takes some bytes from the front of `piece`, and answers how many. `Ended` says that it takes nothing more.
    /// Where `piece` is empty it answers 0 or a fault.
    fn write(&mut self, piece: &[u8]) -> Result<usize, IoFault>
        ensures count { IfOk result (λ n. IsCount n (length piece.now)) }
        ensures appended { IfOk result (λ n.
            Takes (writing self.old) (take n piece.now) (writing self.new)) }
        ensures kept { OnErr result ((writing self.new).taken ≡ (writing self.old).taken) }
        ensures failed { result ≡ Err IoFault.Failed
            → Rose (writing self.old).failed (writing self.new).failed }
        ensures ended { result ≡ Err IoFault.Ended
            → Rose (writing self.old).ended (writing self.new).ended }
        ensures grows { CountsGrow (writing self.old) (writing self.new) }
        ensures leaves { reading self.new ≡ reading self.old };

    /// The count of the faults of its writes. A count that has reached 2^64 - 1 stays there.
    fn write_faults(&self) -> u64
        ensures { result ≡ (writing self.now).failed };
}

/// Writes the whole piece, in as many writes as it takes. At a fault some of its bytes may have been taken, but not
/// all of them.
pub fn write_all<W: Sink>(sink: &mut W, piece: &[u8]) -> Result<(), IoFault>
    ensures all { OnOk result (Takes (W.writing sink.old) piece.now (W.writing sink.new)) }
    ensures some { OnErr result ((n : ℕ) × (n < length piece.now)
        × Takes (W.writing sink.old) (take n piece.now) (W.writing sink.new)) }
    ensures failed { result ≡ Err IoFault.Failed
        → Rose (W.writing sink.old).failed (W.writing sink.new).failed }
    ensures ended { result ≡ Err IoFault.Ended
        → Rose (W.writing sink.old).ended (W.writing sink.new).ended }
    ensures grows { CountsGrow (W.writing sink.old) (W.writing sink.new) }
    ensures leaves { W.reading sink.new ≡ W.reading sink.old }
{
    let mut taken = 0;
    while taken < piece.len() {
        match sink.write(&piece[taken..]) {
            Ok(count) => taken += count,
            Err(fault) => return Err(fault),
        }
    }
    Ok(())
}
