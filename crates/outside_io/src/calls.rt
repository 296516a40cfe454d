//! The calls of objects in memory, of which chosen ones fail.
ghost use Rattle.std.specs.Prelude.{◌≡◌, ℕ, ◌+◌, ◌^◌, ◌<◌, ◌↔◌, IsTrue, Contains, nat_eq, if◌then◌else◌};
ghost use Rattle.std.specs.List.{list_any};
ghost use Rattle.outside_io.specs.Calls.{FailsNext, failed_calls, after_call};

use std::marker::Model;

/// Numbers the calls of an object in memory, from 1, and says which of them fail: those whose numbers are listed.
#[derive(Drop)]
pub struct Calls {
    fails: Vec<u64>,
    made: u64,
    failed: u64,
}

impl Model for Calls {
    ghost use Rattle.std.specs.Prelude.{◌≡◌};
    ghost use Rattle.outside_io.specs.Calls.{CallsMade, failed_of};

    ghost Value = { CallsMade };

    ghost view = { λ c. record { fails = c.fails.items; made = c.made } };

    ghost invariant = { λ c. c.failed ≡ failed_of c.fails.items c.made };
}

impl Calls {
    /// No call has been made yet.
    pub fn new(fails: Vec<u64>) -> Calls
        ensures { result ≡ record { fails = fails.items; made = 0 } }
    {
        Calls {
            fails,
            made: 0,
            failed: 0,
        }
    }

    /// Counts one more call, and answers whether it fails.
    pub fn fails_next(&mut self) -> bool
        ensures fails { IsTrue result ↔ FailsNext self.old }
        ensures counted { self.new ≡ after_call self.old }
        ensures failed { failed_calls self.new
            ≡ (if result then failed_calls self.old + 1 else failed_calls self.old) }
        ensures bounded { failed_calls self.new < 2 ^ 64 }
    {
        let fails = is_next_listed(self.fails.as_slice(), self.made);
        self.made = self.made.saturating_add(1);
        if fails {
            self.failed += 1;
        }
        fails
    }

    /// How many of the calls so far failed.
    pub fn failed(&self) -> u64
        ensures { result ≡ failed_calls self.now }
    {
        self.failed
    }
}

// Whether the call after so many is listed. No list has a number beyond the last `u64`.
fn is_next_listed(fails: &[u64], made: u64) -> bool
    ensures listed { IsTrue result ↔ Contains fails.now (made + 1) }
    ensures value { result ≡ list_any (λ number. nat_eq number (made + 1)) fails.now }
    ensures within { IsTrue result → made + 1 < 2 ^ 64 }
{
    match made.checked_add(1) {
        Some(number) => fails.contains(&number),
        None => false,
    }
}
