// Clients that draw at once, from a driver that ticks meanwhile, and drivers that campaign at once.
use crate::crew::{Worker, run_all, start};
use crate::leading::contend;
use crate::turning::turns;
use pd_types::{Batch, Window};
use std::process::Abort;
use std::sync::Wait;
use std::test::Fail;
use std::thread::Threads;

// Whether the batches are of one timestamp or more, each above the one before it.
fn are_rising(batches: &[Batch]) -> bool {
    let mut before = 0;
    for batch in batches {
        if batch.count == 0 || batch.last.saturating_sub(batch.count) < before {
            return false;
        }
        before = batch.last;
    }
    true
}

// How many timestamps they have.
fn stamps(batches: &[Batch]) -> u64 {
    let mut sum = 0u64;
    for batch in batches {
        sum = sum.saturating_add(batch.count);
    }
    sum
}

// All batches, of clients whose own ones rise.
fn gathered<R: AllocGlobal + Abort>(rt: &R, workers: &[Worker]) -> Result<Vec<Batch>, Fail> {
    let mut all = Vec::new(rt.alloc());
    for worker in workers {
        if let Worker::Draws(drawer) = worker {
            assert!(rt; are_rising(&drawer.got));
            all.extend_from_slice(&drawer.got)?;
        }
    }
    all.sort_by_key(|batch| batch.last)?;
    Ok(all)
}

// So many clients draw so often 100 timestamps: each is drawn once, and each client's rise.
fn draw_apart<R: Threads + Wait + Sync + AllocGlobal + Abort>(
    rt: &R,
    clients: u8,
    times: u64,
) -> Result<(), Fail> {
    if clients == 0 || clients > 64 {
        return Err(Fail::new("no client"));
    }
    let (shared, mut workers) = start(rt.alloc(), clients, times, 100, true)?;
    run_all(rt, &shared, &mut workers);
    let all = gathered(rt, &workers)?;
    assert!(rt; are_rising(&all));
    assert_eq!(rt; stamps(&all), 1_000_000);
    Ok(())
}

#[test]
fn two_clients_draw_a_million_timestamps(rt: HostRuntime) -> Result<(), Fail> {
    draw_apart(&rt, 2, 5_000)
}

#[test]
fn four_clients_draw_a_million_timestamps(rt: HostRuntime) -> Result<(), Fail> {
    draw_apart(&rt, 4, 2_500)
}

// Whether each window is of a later term than the one before it, and doesn't begin before its end.
fn follow(windows: &[Window]) -> bool {
    let mut term = 0;
    let mut end = 0;
    for window in windows {
        if window.term <= term || window.lo < end || window.hi <= window.lo {
            return false;
        }
        term = window.term;
        end = window.hi;
    }
    true
}

// Two drivers campaign 1,000 times each against the other. What they won are windows that follow one
// another.
#[test]
fn drivers_that_contend_win_windows_apart(rt: HostRuntime) -> Result<(), Fail> {
    let contenders = contend(&rt, rt.alloc(), 1000)?;
    let mut all = Vec::new(rt.alloc());
    for contender in &contenders {
        assert!(rt; contender.made == 1000 && follow(&contender.won));
        all.extend_from_slice(&contender.won)?;
    }
    all.sort_by_key(|window| window.term)?;
    assert!(rt; contenders.len() == 2 && !all.is_empty() && follow(&all));
    Ok(())
}

// Each taking adds one to the turn's count, and none is lost.
#[test]
fn four_threads_take_a_turn_80_000_times(rt: HostRuntime) -> Result<(), Fail> {
    assert_eq!(rt; turns(&rt, rt.alloc(), 4, 20_000)?, 80_000);
    Ok(())
}
