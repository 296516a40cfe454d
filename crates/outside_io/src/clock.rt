//! Clocks.
ghost use Rattle.std.specs.Prelude.{◌≡◌, ℤ, List, Option, Some, None};
ghost use Rattle.std.specs.Option.{option_map, ForSome};
ghost use Rattle.outside_io.specs.Times.{next_time, times_after};

use std::marker::Model;
use std::time;
use std::time::{SystemTime, UNIX_EPOCH};

/// A clock, which can't fail.
pub trait Clock {
    /// The times that it will give, where they are told.
    ghost times: { Self → Option (List ℤ) };

    /// The time, in milliseconds since the start of 1970.
    fn now_ms(&mut self) -> i64
        ensures gives { ForSome (times self.old) (λ ts. result ≡ next_time ts) }
        ensures later { times self.new ≡ option_map times_after (times self.old) };
}

/// A clock that gives listed times in order, then the last one for ever, and 0 where none is listed.
#[derive(Drop)]
pub struct ListClock {
    times: Vec<i64>,
    at: usize,
}

impl Model for ListClock {
    ghost use Rattle.std.specs.Prelude.{ℤ, List, ◌≤◌, length, drop};

    ghost Value = { List ℤ };

    ghost view = { λ c. drop c.at c.times.items };

    ghost invariant = { λ c. c.at ≤ length c.times.items };
}

impl ListClock {
    /// Gives these times.
    pub fn new(times: Vec<i64>) -> ListClock
        ensures { result ≡ times.items }
    {
        ListClock { times, at: 0 }
    }
}

impl Clock for ListClock {
    ghost times = { λ c. Some c };

    fn now_ms(&mut self) -> i64
        ensures gives { result ≡ next_time self.old }
        ensures later { self.new ≡ times_after self.old }
    {
        let left = &self.times.as_slice()[self.at..];
        let now = match left.first() {
            Some(time) => *time,
            None => 0,
        };
        if left.len() > 1 {
            self.at += 1;
        }
        now
    }
}

/// The system's clock. It tells no times. Where the system gives none, or one before 1970, it gives 0.
#[derive(Drop)]
pub struct RealClock<R: time::Clock + Drop> {
    clock: R,
}

impl<R: time::Clock + Drop> RealClock<R> {
    /// A clock over the system's.
    pub fn new(clock: R) -> RealClock<R>
        ensures { result.clock ≡ clock }
    {
        RealClock { clock }
    }
}

impl<R: time::Clock + Drop> Clock for RealClock<R> {
    ghost times = { λ _. None };

    fn now_ms(&mut self) -> i64 {
        let Ok(now) = SystemTime::now(&self.clock) else {
            return 0;
        };
        match now.duration_since(UNIX_EPOCH) {
            Ok(since) => i64::try_from(since.as_millis()).unwrap_or(i64::MAX),
            Err(_) => 0,
        }
    }
}
