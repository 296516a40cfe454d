//! Sources: streams of bytes that are read.
ghost use Rattle.std.specs.Prelude.{◌≡◌, ℕ, ◌≤◌, List, [], length, take, Option, None, Result, Err, IfOk, OnErr};
ghost use Rattle.std.specs.Option.{ForSome};
ghost use Rattle.outside_io.specs.declared.fault.IoFault.{IoFault};
ghost use Rattle.outside_io.specs.Causes.{Rose};
ghost use Rattle.outside_io.specs.Told.{then_left, taken_then, IsCount, Reading, Writing, no_writing};

use crate::fault::IoFault;

/// A stream of bytes that is read.
pub trait Source {
    /// What it shows: the bytes given since it was made and those left, where they are told, and the count of the
    /// faults of its reads.
    ghost reading: { Self → Reading };

    /// The half of it that is written, if it has one, which a read leaves as it is.
    ghost writing: { Self → Writing } = { λ _. no_writing };

    /// Reads some bytes to the front of `into`, and answers how many. The rest of `into` may change too. Where
    /// `into` has no room it answers 0 or a fault.
    fn read(&mut self, into: &mut [u8]) -> Result<usize, IoFault>
        ensures count { IfOk result (λ n. IsCount n (length into.old)) }
        ensures given { IfOk result (λ n.
            (reading self.old).left ≡ then_left (take n into.new) (reading self.new).left) }
        ensures gave { IfOk result (λ n.
            (reading self.new).given ≡ taken_then (reading self.old).given (take n into.new)) }
        ensures kept { OnErr result ((reading self.new).left ≡ (reading self.old).left) }
        ensures gave_none { OnErr result ((reading self.new).given ≡ (reading self.old).given) }
        ensures ended { result ≡ Err IoFault.Ended
            → ForSome (reading self.old).left (λ bytes. bytes ≡ []) }
        ensures failed { result ≡ Err IoFault.Failed
            → Rose (reading self.old).failed (reading self.new).failed }
        ensures grows { (reading self.old).failed ≤ (reading self.new).failed }
        ensures leaves { writing self.new ≡ writing self.old };

    /// The count of the faults of its reads. A count that has reached 2^64 - 1 stays there.
    fn read_faults(&self) -> u64
        ensures { result ≡ (reading self.now).failed };
}
