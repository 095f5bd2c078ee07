// What is known of variables: how much the bound rose where they were split, and how often proofs used their spans.
use crate::numbers::at;
use basis_factor::put;
use std::alloc::{AllocError, Global};
use std::num::nearest_u64_to_f64;

// How much more the newest use counts than the one before.
const GROWTH: f64 = 1.02;

// Where activities are scaled down.
const MOST: f64 = 1e100;

// The least gain.
const LEAST: f64 = 1e-6;

/// Gains of forks on one side, each by unit of distance of the value from that side.
#[derive(Drop)]
pub struct Gains {
    /// By variable, the sum of its gains.
    sums: Vec<f64>,
    /// By variable, how many these are.
    counts: Vec<u32>,
    /// The sum of all gains.
    sum: f64,
    /// How many these are.
    count: u64,
}

impl Gains {
    fn make(alloc: Global, vars: usize) -> Result<Gains, AllocError> {
        Ok(Gains {
            sums: Vec::from_elem(alloc, 0.0, vars)?,
            counts: Vec::from_elem(alloc, 0u32, vars)?,
            sum: 0.0,
            count: 0,
        })
    }

    /// Notes a gain.
    pub fn note(&mut self, var: u32, gain: f64) {
        let place = var as usize;
        if place < self.sums.len() && place < self.counts.len() {
            self.sums[place] += gain;
            self.counts[place] = self.counts[place].saturating_add(1);
            self.sum += gain;
            self.count = self.count.saturating_add(1);
        }
    }

    /// How many gains were noted of a variable.
    pub fn count(&self, var: u32) -> u32 {
        match self.counts.get(var as usize) {
            Some(count) => *count,
            None => 0,
        }
    }

    /// The mean of all gains.
    pub fn mean(&self) -> f64 {
        if self.count == 0 {
            1.0
        } else {
            (self.sum / nearest_u64_to_f64(self.count)).max(LEAST)
        }
    }

    /// The gain to be expected of a variable: its own mean, or else that of all.
    pub fn expected(&self, var: u32) -> f64 {
        let count = self.count(var);
        if count == 0 {
            self.mean()
        } else {
            at(self.sums.as_slice(), var as usize) / nearest_u64_to_f64(u64::from(count))
        }
    }
}

/// What is known of the variables as those to fork at.
pub struct Scores {
    /// The gains on the lower sides of forks.
    pub below: Gains,
    /// The gains on the upper sides of forks.
    pub above: Gains,
    /// By variable, how often proofs used its span, the newest uses counting most.
    activities: Vec<f64>,
    /// What the next use adds to an activity.
    step: f64,
    /// The greatest activity.
    most: f64,
}

impl Drop for Scores {
    fn drop(self) {
        let Scores {
            below: _,
            above: _,
            activities: _,
            step: _,
            most: _,
        } = self;
    }
}

impl Scores {
    pub fn make(alloc: Global, vars: usize) -> Result<Scores, AllocError> {
        Ok(Scores {
            below: Gains::make(alloc, vars)?,
            above: Gains::make(alloc, vars)?,
            activities: Vec::from_elem(alloc, 0.0, vars)?,
            step: 1.0,
            most: 0.0,
        })
    }

    /// Begins with the uses of another proof.
    pub fn begin_uses(&mut self) {
        self.step *= GROWTH;
        if self.step > MOST {
            for activity in self.activities.iter_mut() {
                *activity /= MOST;
            }
            self.step /= MOST;
            self.most /= MOST;
        }
    }

    /// Notes that the proof uses a variable's span.
    pub fn note_use(&mut self, var: usize) {
        let next = at(self.activities.as_slice(), var) + self.step;
        put(self.activities.as_mut_slice(), var, next);
        if next > self.most {
            self.most = next;
        }
    }

    /// The score of a variable whose value is so far above a whole number, by gains below and above, in ones: the
    /// greater the better.
    pub fn score(&self, var: u32, part: f64, below: f64, above: f64) -> f64 {
        let scale = (self.below.mean() * self.above.mean()).max(LEAST) * 0.25;
        let gain = below.max(LEAST) * above.max(LEAST) / scale;
        let activity = at(self.activities.as_slice(), var as usize) / self.most.max(1e-300);
        gain / (1.0 + gain) + 0.1 * activity + 0.01 * part.min(1.0 - part)
    }

    /// The score by the gains that are to be expected.
    pub fn expected(&self, var: u32, part: f64) -> f64 {
        self.score(
            var,
            part,
            self.below.expected(var) * part,
            self.above.expected(var) * (1.0 - part),
        )
    }
}
