//! The time since a server began.
ghost use Rattle.std.specs.Prelude.{◌≡◌, ◌≤◌, None};
ghost use Rattle.std.specs.Time.{instant_nanos};
ghost use Rattle.service.specs.Uptimes.{after_reading, millis_between};

use std::time::Instant;

/// The milliseconds since a server began, by a monotonic clock. They never decrease.
#[derive(Clone, Copy)]
pub(crate) struct Uptime {
    start: Option<Instant>,
    millis: u64,
}

/// The milliseconds from one reading of a clock to another: 0 if the clock went back, and at most 2^64 - 1.
fn millis_between(start: Instant, now: Instant) -> u64
    ensures { result ≡ millis_between (instant_nanos start) (instant_nanos now) }
{
    u64::try_from(now.duration_since(start).as_millis()).unwrap_or(u64::MAX)
}

impl Uptime {
    /// Time 0. It begins to count at the first reading of a clock.
    pub(crate) fn new() -> Uptime
        ensures { result ≡ record { start = None; millis = 0 } }
    {
        Uptime {
            start: None,
            millis: 0,
        }
    }

    /// The milliseconds at the last reading.
    pub(crate) fn millis(&self) -> u64
        ensures { result ≡ self.now.millis }
    {
        self.millis
    }

    /// Takes a reading of the clock. If there is none, or if it is earlier than the last, the time doesn't change.
    pub(crate) fn take(&mut self, reading: Option<Instant>)
        ensures taken { self.new ≡ after_reading reading self.old }
        ensures goes_on { self.old.millis ≤ self.new.millis }
    {
        let Some(now) = reading else {
            return;
        };
        match self.start {
            Some(start) => self.millis = self.millis.max(millis_between(start, now)),
            None => self.start = Some(now),
        }
    }
}
