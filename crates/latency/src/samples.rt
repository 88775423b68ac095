//! Samples of a number, and how they spread.
use std::alloc::{AllocError, Global};

/// How samples spread: their mean, a part counted as a whole, the one that half of them do not pass, the one
/// that 99 of a hundred do not pass, and the greatest.
#[derive(Clone, Copy)]
pub struct Spread {
    pub mean: u64,
    pub median: u64,
    pub late: u64,
    pub most: u64,
}

/// Samples of a number.
#[derive(Drop)]
pub struct Samples {
    values: Vec<u64>,
    sum: u64,
}

impl Samples {
    /// No samples.
    pub fn new(alloc: Global) -> Samples {
        Samples {
            values: Vec::new(alloc),
            sum: 0,
        }
    }

    /// Takes in a sample.
    pub fn push(&mut self, value: u64) -> Result<(), AllocError> {
        self.values.push(value)?;
        self.sum = self.sum.saturating_add(value);
        Ok(())
    }

    /// How many there are.
    pub fn count(&self) -> u64 {
        self.values.len() as u64
    }

    /// How they spread; 0 where there is none.
    pub fn spread(mut self) -> Result<Spread, AllocError> {
        self.values.sort()?;
        let count = self.values.len();
        Ok(Spread {
            mean: self.sum.div_ceil((count as u64).max(1)),
            median: self.at(count.div_ceil(2)),
            late: self.at(count - count / 100),
            most: self.at(count),
        })
    }

    /// The sample of a rank from 1 on.
    fn at(&self, rank: usize) -> u64 {
        self.values
            .get(rank.saturating_sub(1))
            .copied()
            .unwrap_or(0)
    }
}
