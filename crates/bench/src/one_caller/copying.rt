//! Plain copies of answers that lie in memory one after another.

use crate::fault::Fault;
use crate::numbers::nanoseconds;
use crate::records::{KEYS, VALUE_LEN, VERSIONS};
use rand_core::{Rng, SeedableRng};
use rand_xoshiro::Xoshiro256PlusPlus;
use std::alloc::{AllocError, Global};
use std::time::{Clock, Instant};

/// The seed of the answers that are copied.
const SEED: u64 = 7;

/// The bytes of all versions of all keys.
fn table(alloc: Global) -> Result<Vec<u8>, AllocError> {
    let mut bytes = Vec::new(alloc);
    for number in 0..KEYS * VERSIONS {
        bytes.extend_from_slice(&[(number % 250 + 1) as u8; VALUE_LEN])?;
    }
    Ok(bytes)
}

/// Copies the answer at a place to the beginning of `out`. Gives its first byte, 0 of none.
fn copy(table: &[u8], place: usize, out: &mut [u8]) -> u8 {
    let start = place.saturating_mul(out.len());
    let end = start.saturating_add(out.len());
    let Some(answer) = table.get(start..end) else {
        return 0;
    };
    for (to, from) in out.iter_mut().zip(answer) {
        *to = *from;
    }
    out.first().copied().unwrap_or(0)
}

/// The nanoseconds of this many copies of answers of so many values each, at random places.
pub(crate) fn time_copies(
    rt: &HostRuntime,
    alloc: Global,
    values: u64,
    count: u64,
) -> Result<u64, Fault> {
    let table = table(alloc)?;
    let answers = KEYS * VERSIONS / values.max(1);
    let len = (values as usize).saturating_mul(VALUE_LEN);
    let mut out = vec![in alloc; 0u8; len]?;
    let mut random = Xoshiro256PlusPlus::seed_from_u64(SEED);
    let mut sum = 0u64;
    let start = Instant::now(rt)?;
    for _ in 0..count {
        let place = random.next_u64() % answers.max(1);
        sum = sum.wrapping_add(copy(&table, place as usize, &mut out) as u64);
    }
    let time = nanoseconds(rt, &start)?;
    if sum == 0 {
        return Err(Fault::Wrong("nothing was copied"));
    }
    Ok(time)
}
