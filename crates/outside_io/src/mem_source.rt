//! A source in memory, whose bytes are told.
ghost use Rattle.std.specs.Prelude.{◌≡◌, ◌≢◌, ℕ, ◌+◌, ◌-◌, ◌<◌, ◌≤◌, ◌↔◌, ◌++◌, List, [], length, take, drop, min, Option, Some, Result, Err, IfOk, OnErr};
ghost use Rattle.std.specs.Option.{ForSome};
ghost use Rattle.outside_io.specs.Calls.{FailsNext, failed_calls, after_call};
ghost use Rattle.outside_io.specs.Causes.{Rose};
ghost use Rattle.outside_io.specs.Told.{then_left, taken_then, IsCount};

use crate::calls::Calls;
use crate::fault::IoFault;
use crate::source::Source;
use std::marker::Model;

/// A source over bytes in memory.
#[derive(Drop)]
pub struct MemSource {
    bytes: Vec<u8>,
    at: usize,
    piece: usize,
    calls: Calls,
}

impl Model for MemSource {
    ghost use Rattle.std.specs.Prelude.{◌≤◌, length, take, drop};
    ghost use Rattle.outside_io.specs.Memory.{MemReads};

    ghost Value = { MemReads };

    ghost view = { λ s. record {
      given = take s.at s.bytes.items;
      left = drop s.at s.bytes.items;
      piece = s.piece;
      calls = s.calls;
    } };

    ghost invariant = { λ s. (s.at ≤ length s.bytes.items) × (1 ≤ s.piece) };
}

impl MemSource {
    /// Gives `bytes`, at most `piece` of them in one read. Just the reads whose numbers, from 1, stand in `fails`
    /// fail.
    pub fn new(bytes: Vec<u8>, piece: usize, fails: Vec<u64>) -> MemSource
        requires { 1 ≤ piece }
        ensures { result ≡ record {
          given = [];
          left = bytes.items;
          piece = piece;
          calls = record { fails = fails.items; made = 0 };
        } }
    {
        MemSource {
            bytes,
            at: 0,
            piece,
            calls: Calls::new(fails),
        }
    }
}

impl Source for MemSource {
    ghost reading = { λ s. record { given = Some s.given; left = Some s.left; failed = failed_calls s.calls } };

    fn read(&mut self, into: &mut [u8]) -> Result<usize, IoFault>
        ensures count { IfOk result (λ n. IsCount n (length into.old)) }
        ensures given { IfOk result (λ n.
            Some self.old.left ≡ then_left (take n into.new) (Some self.new.left)) }
        ensures gave { IfOk result (λ n.
            Some self.new.given ≡ taken_then (Some self.old.given) (take n into.new)) }
        ensures kept { OnErr result (self.new.left ≡ self.old.left) }
        ensures gave_none { OnErr result (self.new.given ≡ self.old.given) }
        ensures ended { result ≡ Err IoFault.Ended
            → ForSome (Some self.old.left) (λ bytes. bytes ≡ []) }
        ensures failed { result ≡ Err IoFault.Failed
            → Rose (failed_calls self.old.calls) (failed_calls self.new.calls) }
        ensures grows { failed_calls self.old.calls ≤ failed_calls self.new.calls }

        // Which answer comes: the fault at just the listed calls, and the end just where nothing is left.
        ensures failed_exactly { (result ≡ Err IoFault.Failed) ↔ FailsNext self.old.calls }
        ensures ended_exactly { (result ≡ Err IoFault.Ended) ↔ ((FailsNext self.old.calls → ⊥)
            × (self.old.left ≡ []) × (0 < length into.old)) }
        ensures most { IfOk result (λ n.
            n ≡ min (min (length into.old) self.old.piece) (length self.old.left)) }

        // What it leaves.
        ensures filled { IfOk result (λ n. into.new ≡ take n self.old.left ++ drop n into.old) }
        ensures rest { IfOk result (λ n. self.new.left ≡ drop n self.old.left) }
        ensures untouched { OnErr result (into.new ≡ into.old) }
        ensures counted { self.new.calls ≡ after_call self.old.calls }
        ensures same_piece { self.new.piece ≡ self.old.piece }
    {
        if self.calls.fails_next() {
            return Err(IoFault::Failed);
        }
        let left = self.bytes.len() - self.at;
        if left == 0 && !into.is_empty() {
            return Err(IoFault::Ended);
        }
        let count = into.len().min(self.piece).min(left);
        give(self.bytes.as_slice(), self.at, count, into);
        self.at += count;
        Ok(count)
    }

    fn read_faults(&self) -> u64 {
        self.calls.failed()
    }
}

// Copies so many bytes from a place on to the front of `into`.
fn give(bytes: &[u8], at: usize, count: usize, into: &mut [u8])
    requires there { at + count ≤ length bytes.now }
    requires room { count ≤ length into.old }
    ensures filled { into.new ≡ take count (drop at bytes.now) ++ drop count into.old }
    ensures given { take count into.new ++ drop (at + count) bytes.now ≡ drop at bytes.now }
    ensures gave { take at bytes.now ++ take count into.new ≡ take (at + count) bytes.now }
{
    into[..count].copy_from_slice(&bytes[at..at + count]);
}
