//! A sink in memory, whose bytes are told.
ghost use Rattle.std.specs.Prelude.{◌≡◌, ℕ, ◌+◌, ◌-◌, ◌<◌, ◌≤◌, ◌↔◌, ◌++◌, List, [], length, take, min, Option, Some, Result, Err, IsOk, IfOk, OnErr};
ghost use Rattle.outside_io.specs.Calls.{FailsNext, failed_calls, after_call};
ghost use Rattle.outside_io.specs.Causes.{Rose};
ghost use Rattle.outside_io.specs.Memory.{ended_after};
ghost use Rattle.outside_io.specs.Told.{taken_then, IsCount};

use crate::calls::Calls;
use crate::fault::{IoFault, NoMemory};
use crate::sink::Sink;
use std::alloc::Global;
use std::marker::Model;

/// A sink that keeps what it takes in memory.
#[derive(Drop)]
pub struct MemSink {
    bytes: Vec<u8>,
    room: usize,
    calls: Calls,
    ended: u64,
}

impl Model for MemSink {
    ghost use Rattle.std.specs.Prelude.{◌≤◌, ◌<◌, ◌^◌, length, vec_capacity};
    ghost use Rattle.outside_io.specs.Memory.{MemWrites};

    ghost Value = { MemWrites };

    ghost view = { λ s. record {
      taken = s.bytes.items;
      room = s.room;
      calls = s.calls;
      ended = s.ended;
    } };

    ghost invariant = { λ s. (length s.bytes.items ≤ s.room) × (s.room ≤ vec_capacity s.bytes) };
}

impl MemSink {
    /// Takes up to `room` bytes. Just the writes whose numbers, from 1, stand in `fails` fail. The memory for all of
    /// its bytes is taken here, and none later.
    pub fn new(alloc: Global, room: usize, fails: Vec<u64>) -> Result<MemSink, NoMemory>
        ensures empty { IfOk result (λ sink. sink ≡ record {
          taken = [];
          room = room;
          calls = record { fails = fails.items; made = 0 };
          ended = 0;
        }) }
        ensures succeeds { room ≡ 0 → IsOk result }
    {
        match Vec::with_capacity(alloc, room) {
            Ok(bytes) => Ok(MemSink {
                bytes,
                room,
                calls: Calls::new(fails),
                ended: 0,
            }),
            Err(_) => Err(NoMemory),
        }
    }

    /// The bytes taken so far.
    pub fn bytes(&self) -> &[u8]
        ensures taken { result.now ≡ self.now.taken }
        ensures fits { length self.now.taken ≤ self.now.room }
    {
        self.bytes.as_slice()
    }
}

impl Sink for MemSink {
    ghost writing = { λ s. record { taken = Some s.taken; failed = failed_calls s.calls; ended = s.ended } };

    fn write(&mut self, piece: &[u8]) -> Result<usize, IoFault>
        ensures count { IfOk result (λ n. IsCount n (length piece.now)) }
        ensures appended { IfOk result (λ n.
            Some self.new.taken ≡ taken_then (Some self.old.taken) (take n piece.now)) }
        ensures kept { OnErr result (self.new.taken ≡ self.old.taken) }
        ensures failed { result ≡ Err IoFault.Failed
            → Rose (failed_calls self.old.calls) (failed_calls self.new.calls) }
        ensures ended { result ≡ Err IoFault.Ended → Rose self.old.ended self.new.ended }
        ensures failed_grows { failed_calls self.old.calls ≤ failed_calls self.new.calls }
        ensures ended_grows { self.old.ended ≤ self.new.ended }

        // Which answer comes: the fault at just the listed calls, and the end just where the sink is full.
        ensures failed_exactly { (result ≡ Err IoFault.Failed) ↔ FailsNext self.old.calls }
        ensures ended_exactly { (result ≡ Err IoFault.Ended) ↔ ((FailsNext self.old.calls → ⊥)
            × (length self.old.taken ≡ self.old.room) × (0 < length piece.now)) }
        ensures fits { IfOk result (λ n.
            n ≡ min (length piece.now) (self.old.room - length self.old.taken)) }

        // What it leaves.
        ensures counted { self.new.calls ≡ after_call self.old.calls }
        ensures ends { self.new.ended ≡ ended_after result self.old.ended }
        ensures same_room { self.new.room ≡ self.old.room }
    {
        if self.calls.fails_next() {
            return Err(IoFault::Failed);
        }
        let free = self.room - self.bytes.len();
        if free == 0 && !piece.is_empty() {
            self.ended = self.ended.saturating_add(1);
            return Err(IoFault::Ended);
        }
        let count = piece.len().min(free);
        match self.bytes.extend_from_slice(&piece[..count]) {
            Ok(()) => Ok(count),
            Err(_) => unreachable!(),
        }
    }

    fn write_faults(&self) -> u64 {
        self.calls.failed()
    }
}
