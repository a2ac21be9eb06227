//! Threads over the oracle: what a benchmark times, and the tests that run drivers and clients at once.
#![tactic(auto)]

mod adding;
mod crew;
#[cfg(test)]
mod draw_tests;
mod leading;
mod taking;
#[cfg(test)]
mod tests;
mod turning;

ghost use Rattle.std.specs.Prelude.{◌<◌, ◌≤◌};
ghost use Rattle.pd_types.specs.declared.oracle.TheConstants.{MAX_CLIENTS};

use pd_lines::number;
use pd_types::MAX_CLIENTS;
use std::env::Env;
use std::io::ErrorKind;
use std::process::ExitCode;
use std::sync::Wait;
use std::thread::Threads;
use std::{env, io};

// How often it was done in all, where so many threads do it so often each. None where the words name
// nothing, or memory is wanting.
fn done<R: Threads + Wait + Sync + AllocGlobal>(
    rt: &R,
    what: &str,
    threads: u8,
    times: u64,
) -> Option<u64>
    requires threads { (0 < threads) × (threads ≤ MAX_CLIENTS) }
{
    match what {
        "takes" => taking::takes(rt, rt.alloc(), threads, times).ok(),
        "adds" => adding::adds(rt, rt.alloc(), threads, times),
        "leads" if threads == 2 => leading::leads(rt, rt.alloc(), times).ok(),
        "turns" if threads == 1 || threads == 2 || threads == 4 => {
            turning::turns(rt, rt.alloc(), threads, times).ok()
        }
        _ => None,
    }
}

// The words of the command line: what is done, by how many threads, and how often by each.
fn asked<R: Threads + Wait + Sync + AllocGlobal + Env>(rt: &R) -> Option<u64> {
    let mut words = env::args(rt).ok()?;
    words.next()?;
    let what = words.next()?;
    let threads = number(words.next()?.as_bytes())?;
    let times = number(words.next()?.as_bytes())?;
    if threads == 0 || threads > MAX_CLIENTS {
        return None;
    }
    done(rt, &what, threads as u8, times)
}

fn main(rt: HostRuntime) -> io::Result<()> {
    match asked(&rt) {
        Some(count) => println!(rt; "{count}"),
        None => println!(rt; "usage: tso_threads takes | adds | turns | leads THREADS TIMES"),
    }
}
