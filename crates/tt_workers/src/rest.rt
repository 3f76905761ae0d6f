//! How workers to whom nobody came rest, so that many handles on one socket cost little.
use std::sync::atomic::{AtomicU64, Ordering};
use std::sync::{Condvar, Mutex, Wait};
use std::time::{Clock, Duration};

/// How many milliseconds a worker rests for each worker that there is: so about as many are awake at any time, however many
/// there are.
const EACH: u64 = 3;

/// Where workers rest. A worker that met somebody wakes one that rests: more may come.
pub struct Rest {
    bell: Condvar,
    lock: Mutex<u8>,
    workers: u64,
    rests: AtomicU64,
}

impl Drop for Rest {
    fn drop(self) {
        let Rest {
            bell: _,
            lock: _,
            workers: _,
            rests: _,
        } = self;
    }
}

impl Rest {
    /// A place for so many workers.
    pub fn new(workers: usize) -> Rest {
        Rest {
            bell: Condvar::new(),
            lock: Mutex::new(0),
            workers: workers as u64,
            rests: AtomicU64::new(0),
        }
    }

    /// Rests, until the time is up or somebody wakes it. The first rests are of different length, since the workers begin
    /// together and would rest together for ever.
    pub fn rest<R: Wait + Clock>(&self, rt: &R) {
        let turn = self.rests.fetch_add(1, Ordering::SeqCst).saturating_add(1);
        let time = Duration::from_millis(turn.min(self.workers).saturating_mul(EACH));
        let _ = self.bell.wait_timeout(rt, self.lock.lock(rt), time);
    }

    /// Wakes one that rests, if there is any.
    pub fn wake_one(&self) {
        self.bell.notify_one();
    }
}
