//! How long a read of a socket waits, so that what a tick tells goes out soon after it.
//!
//! Nobody wakes a worker that waits for its peer's bytes. So a link looks up by itself: where it was told something without
//! having been asked, it takes that moment for a tick. It sleeps until shortly before the next one, and then looks up every
//! two milliseconds until that tick has come, or is late. The first look of all waits for nothing, so that a greeting goes
//! out at once.
ghost use Rattle.std.specs.Prelude.{◌≤◌};

use std::time::Duration;

/// The milliseconds between two ticks of a server.
pub const BEAT: u64 = 30;

/// The microseconds between two ticks.
const PERIOD: u64 = BEAT * 1000;

/// How long before a tick the looking begins.
const EARLY: u64 = 3_000;

/// How long it goes on where the last ticks were met, and where they were not: such a link is told nothing at ticks.
const PATIENT: u64 = 18_000;

const BRIEF: u64 = 6_000;

/// How long one look waits for bytes.
const LOOK: u64 = 2_000;

/// How far off a tick may be and still count as the one that was awaited.
const NEAR: u64 = 8_000;

/// By how much one late tick moves the next: the machine may have been busy, and the clock not.
const DRIFT: u64 = 500;

/// The microseconds to the next look, so many after a tick was met.
fn next_look(since: u64) -> u64
    ensures { result ≤ 30000 }
{
    if since < PERIOD - EARLY {
        return PERIOD - EARLY - since;
    }
    let place = (since - (PERIOD - EARLY)) % PERIOD;
    let looking = if since < 2 * PERIOD { PATIENT } else { BRIEF };
    if place < looking {
        LOOK
    } else {
        PERIOD - place
    }
}

/// When a link was told something at a tick, as it takes it.
#[derive(Drop)]
pub struct Rhythm {
    met: u64,
    is_new: bool,
    was_asked: bool,
}

/// The microseconds of a time.
fn micros(time: Duration) -> u64 {
    time.as_secs()
        .saturating_mul(1_000_000)
        .saturating_add(u64::from(time.subsec_micros()))
}

impl Rhythm {
    /// No tick was met yet.
    pub fn new(now: Duration) -> Rhythm {
        Rhythm {
            met: micros(now),
            is_new: true,
            was_asked: false,
        }
    }

    /// How many milliseconds the next look may wait.
    pub fn wait(&mut self, now: Duration) -> i32 {
        if self.is_new {
            self.is_new = false;
            return 0;
        }
        let wait = next_look(micros(now).saturating_sub(self.met));
        (wait / 1000).max(1) as i32
    }

    /// Whether the look found bytes.
    pub fn note_look(&mut self, found: bool) {
        self.was_asked = found;
    }

    /// Something was written. Where the peer had not asked, a tick has told it.
    pub fn note_write(&mut self, now: Duration) {
        if self.was_asked {
            return;
        }
        let now = micros(now);
        let late = now.saturating_sub(self.met) % PERIOD;
        self.met = if late < NEAR {
            now.saturating_sub(late - late.min(DRIFT))
        } else {
            now
        };
    }
}
