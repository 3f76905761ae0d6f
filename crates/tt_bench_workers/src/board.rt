//! What the threads of a measuring run tell each other: when each beat was told, to how many links, and whether all is done.
use std::alloc::{AllocError, Global};
use std::sync::atomic::{AtomicU64, Ordering};
use std::time::{Clock, Duration};

/// How many beats are told apart: each is told as one byte.
pub const BEATS: u8 = 200;

/// The byte that a link asks with, and is answered.
pub const ASKED: u8 = 255;

/// What is shared.
#[derive(Drop)]
pub struct Board {
    told: Vec<AtomicU64>,
    links: AtomicU64,
    beats: AtomicU64,
    done: AtomicU64,
}

impl Board {
    /// Nobody is there yet, and nothing was told.
    pub fn new(alloc: Global) -> Result<Board, AllocError> {
        let mut told = Vec::with_capacity(alloc, usize::from(BEATS))?;
        for _ in 0..BEATS {
            told.push(AtomicU64::new(0))?;
        }
        Ok(Board {
            told,
            links: AtomicU64::new(0),
            beats: AtomicU64::new(0),
            done: AtomicU64::new(0),
        })
    }

    /// So many links are there now, and are to be told beats.
    pub fn greet(&self, links: u32) {
        self.links.store(u64::from(links), Ordering::SeqCst);
    }

    /// How many links are to be told beats.
    pub fn links(&self) -> u32 {
        u32::try_from(self.links.load(Ordering::SeqCst)).unwrap_or(0)
    }

    /// The byte that so many beats are told by.
    pub fn byte(beats: u64) -> u8 {
        (beats % u64::from(BEATS)) as u8
    }

    /// Begins a beat at a time, and answers its byte.
    pub fn begin(&self, now: u64) -> u8 {
        let number = self.beats.load(Ordering::SeqCst).saturating_add(1);
        let beat = Board::byte(number);
        if let Some(told) = self.told.get(usize::from(beat)) {
            told.store(now, Ordering::SeqCst);
        }
        self.beats.store(number, Ordering::SeqCst);
        beat
    }

    /// How many beats were told.
    pub fn beats(&self) -> u64 {
        self.beats.load(Ordering::SeqCst)
    }

    /// When the last beat with this byte was told.
    pub fn told(&self, beat: u8) -> Option<u64> {
        Some(self.told.get(usize::from(beat))?.load(Ordering::SeqCst))
    }

    /// All is done.
    pub fn end(&self) {
        self.done.store(1, Ordering::SeqCst);
    }

    /// Whether all is done.
    pub fn is_done(&self) -> bool {
        self.done.load(Ordering::SeqCst) > 0
    }
}

/// The microseconds of a duration.
pub fn micros(time: Duration) -> u64 {
    time.as_secs()
        .saturating_mul(1_000_000)
        .saturating_add(u64::from(time.subsec_micros()))
}

/// The time in microseconds; 0 where the clock can't be read.
pub fn now<R: Clock>(rt: &R) -> u64 {
    rt.monotonic().map_or(0, micros)
}
