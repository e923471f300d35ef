//! Times, and the numbers that are printed.

use std::alloc::{AllocError, Global};
use std::time::{Clock, Instant};
use std::{fmt, io};

/// A number with three digits after the point.
#[derive(Clone, Copy)]
pub(crate) struct Thousandths(u128);

impl fmt::Display for Thousandths {
    fn fmt<W: fmt::Write>(&self, f: &mut fmt::Formatter<W>) -> fmt::Result {
        let whole = self.0 / 1000;
        let rest = self.0 % 1000;
        write!(f, "{whole}.{rest:03}")
    }
}

/// A quotient, rounded down. A divisor of 0 counts as 1.
pub(crate) fn quotient(dividend: u64, divisor: u64) -> Thousandths {
    Thousandths((dividend as u128).saturating_mul(1000) / (divisor as u128).max(1))
}

/// How many there are in a second, where so many took so many nanoseconds.
pub(crate) fn rate(count: u64, nanoseconds: u64) -> Thousandths {
    Thousandths((count as u128).saturating_mul(1_000_000_000_000) / (nanoseconds as u128).max(1))
}

/// How many megabytes of 10^6 bytes there are in a second, where so many bytes took so many nanoseconds.
pub(crate) fn megabytes_a_second(bytes: u64, nanoseconds: u64) -> Thousandths {
    Thousandths((bytes as u128).saturating_mul(1_000_000) / (nanoseconds as u128).max(1))
}

/// Nanoseconds as microseconds.
pub(crate) fn microseconds(nanoseconds: u64) -> Thousandths {
    Thousandths(nanoseconds as u128)
}

/// Nanoseconds as milliseconds.
pub(crate) fn milliseconds(nanoseconds: u64) -> Thousandths {
    Thousandths((nanoseconds / 1000) as u128)
}

/// Nanoseconds since the start.
pub(crate) fn nanoseconds<R: Clock>(rt: &R, start: &Instant) -> io::Result<u64> {
    Ok(u64::try_from(start.elapsed(rt)?.as_nanos()).unwrap_or(u64::MAX))
}

/// Times of one thing done often, in nanoseconds.
#[derive(Drop)]
pub(crate) struct Times {
    each: Vec<u64>,
}

impl Times {
    pub(crate) fn new(alloc: Global) -> Self {
        Times {
            each: Vec::new(alloc),
        }
    }

    pub(crate) fn push(&mut self, time: u64) -> Result<(), AllocError> {
        self.each.push(time)?;
        Ok(())
    }

    pub(crate) fn count(&self) -> u64 {
        self.each.len() as u64
    }

    pub(crate) fn sum(&self) -> u64 {
        let mut sum = 0u64;
        for time in &self.each {
            sum = sum.saturating_add(*time);
        }
        sum
    }

    /// The greatest time; 0 of none.
    pub(crate) fn most(&self) -> u64 {
        let mut most = 0;
        for time in &self.each {
            most = (*time).max(most);
        }
        most
    }

    /// The time that half of them are at most; 0 of none.
    pub(crate) fn median(&mut self) -> Result<u64, AllocError> {
        self.each.sort()?;
        Ok(self.each.get(self.each.len() / 2).copied().unwrap_or(0))
    }
}
