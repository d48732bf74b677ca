//! Measuring the time of a call.

use std::alloc::{AllocError, Global};
use std::io;
use std::rt::Clock;
use std::time::{CpuClock, Duration, Instant};

/// The greatest number of further batches of calls; the fastest batch counts.
const MOST_BATCHES: u64 = 6;

/// The least processor time of a batch, in nanoseconds.
const BATCH_NANOS: u64 = 10_000_000;

/// The greatest processor time of all further batches, in nanoseconds.
const ALL_NANOS: u64 = 1_000_000_000;

/// The greatest number of times that the number of calls in a batch is doubled.
const DOUBLINGS: u32 = 40;

/// What is measured. A byte of the result keeps the call from being optimised away.
pub(crate) trait Call {
    fn call(&self, alloc: Global) -> Result<u8, AllocError>;
}

/// The time of calls, in nanoseconds by the clock and of the processor.
#[derive(Clone, Copy)]
pub(crate) struct Cost {
    pub(crate) clock: u64,
    pub(crate) processor: u64,
}

/// Makes a call `times` times, and adds what it gives.
fn call_times<C: Call>(alloc: Global, call: &C, times: u64) -> Result<u64, AllocError> {
    let mut sum = 0u64;
    for _ in 0..times {
        sum = sum.wrapping_add(u64::from(call.call(alloc)?));
    }
    Ok(sum)
}

fn nanos(time: Duration) -> u64 {
    u64::try_from(time.as_nanos()).unwrap_or(u64::MAX)
}

/// The time of a batch of calls.
fn batch<C: Call>(
    rt: &(impl Clock + CpuClock + AllocGlobal),
    call: &C,
    times: u64,
) -> io::Result<Cost> {
    let start = Instant::now(rt)?;
    let used = rt.thread_cpu_time()?;
    let _ = call_times(rt.alloc(), call, times)?;
    let processor = rt.thread_cpu_time()?.saturating_sub(used);
    let clock = start.elapsed(rt)?;
    Ok(Cost {
        clock: nanos(clock),
        processor: nanos(processor),
    })
}

/// The number of calls in a batch that is long enough, and its time.
fn first_batch<C: Call>(
    rt: &(impl Clock + CpuClock + AllocGlobal),
    call: &C,
) -> io::Result<(u64, Cost)> {
    let mut times = 1u64;
    let mut cost = batch(rt, call, times)?;
    for _ in 0..DOUBLINGS {
        if cost.processor >= BATCH_NANOS {
            break;
        }
        times = times.saturating_mul(2);
        cost = batch(rt, call, times)?;
    }
    Ok((times, cost))
}

/// The time of one call.
pub(crate) fn cost_of<C: Call>(
    rt: &(impl Clock + CpuClock + AllocGlobal),
    call: &C,
) -> io::Result<Cost> {
    let (times, mut best) = first_batch(rt, call)?;
    let more = ALL_NANOS.checked_div(best.processor).unwrap_or(0);
    for _ in 0..more.min(MOST_BATCHES) {
        let next = batch(rt, call, times)?;
        best.clock = best.clock.min(next.clock);
        best.processor = best.processor.min(next.processor);
    }
    Ok(Cost {
        clock: best.clock.checked_div(times).unwrap_or(0),
        processor: best.processor.checked_div(times).unwrap_or(0),
    })
}
