//! What was measured: microseconds, in lists that are sorted at the end.
use std::alloc::{AllocFailed, Global};

/// The times from a beat to its byte, and from a question to its answer, in microseconds.
#[derive(Drop)]
pub struct Figures {
    beats: Vec<u64>,
    answers: Vec<u64>,
}

impl Figures {
    /// Nothing was measured yet.
    pub fn new(alloc: Global) -> Figures {
        Figures {
            beats: Vec::new(alloc),
            answers: Vec::new(alloc),
        }
    }

    /// A beat's byte came so late.
    pub fn beat(&mut self, late: u64) -> Result<(), AllocFailed<u64>> {
        self.beats.push(late)
    }

    /// An answer came so late.
    pub fn answer(&mut self, late: u64) -> Result<(), AllocFailed<u64>> {
        self.answers.push(late)
    }

    /// How many bytes of beats came.
    pub fn beats(&self) -> usize {
        self.beats.len()
    }

    /// How many answers came.
    pub fn answers(&self) -> usize {
        self.answers.len()
    }

    /// The times of beats that half, and nineteen of twenty, don't pass; and those of answers.
    pub fn told(&mut self) -> [u64; 4] {
        self.beats.sort_unstable();
        self.answers.sort_unstable();
        [
            share(&self.beats, 50),
            share(&self.beats, 95),
            share(&self.answers, 50),
            share(&self.answers, 95),
        ]
    }
}

/// The time that so many of a hundred don't pass. 0 where there is none.
fn share(times: &[u64], of_hundred: usize) -> u64 {
    let place = times.len().saturating_mul(of_hundred) / 100;
    times.get(place).copied().unwrap_or(0)
}
