// Draws of one timestamp.
ghost use Rattle.std.specs.Prelude.{◌<◌, ◌≤◌};
ghost use Rattle.pd_types.specs.declared.oracle.TheConstants.{MAX_CLIENTS};

use crate::crew::{Worker, run_all, start};
use pd_types::NoMemory;
use std::alloc::Global;
use std::sync::Wait;
use std::thread::Threads;

/// Draws one timestamp so often by each of so many clients, from a driver that ticks where a client
/// asks for it. The answer is how many were drawn.
pub fn takes<R: Threads + Wait + Sync>(
    rt: &R,
    alloc: Global,
    threads: u8,
    times: u64,
) -> Result<u64, NoMemory>
    requires threads { (0 < threads) × (threads ≤ MAX_CLIENTS) }
{
    let (shared, mut workers) = start(alloc, threads, times, 1, false)?;
    run_all(rt, &shared, &mut workers);
    let mut drawn = 0u64;
    for worker in &workers {
        if let Worker::Draws(drawer) = worker {
            drawn = drawn.saturating_add(drawer.drawn);
        }
    }
    Ok(drawn)
}
