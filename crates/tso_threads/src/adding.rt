// A bare fetch-add, beside which a take is timed.
use std::alloc::Global;
use std::sync::atomic::{AtomicU64, Ordering};
use std::thread;
use std::thread::Threads;

/// Adds 1 to one word so often by each of so many threads, and answers the word.
pub fn adds<R: Threads + Sync>(rt: &R, alloc: Global, threads: u8, times: u64) -> Option<u64> {
    let word = AtomicU64::new(0);
    let mut turns = Vec::new(alloc);
    for _ in 0..threads {
        turns.push(times).ok()?;
    }
    let add = |_: usize, turns: &mut u64| {
        for _ in 0..*turns {
            word.fetch_add(1, Ordering::SeqCst);
        }
    };
    let threads = turns.len().max(1);
    thread::for_each_mut(rt, &mut turns, threads, &add);
    Some(word.load(Ordering::SeqCst))
}
