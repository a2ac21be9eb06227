// Scripts whose actors run on threads.
ghost use Rattle.std.specs.Prelude.{IfOk, OnErr, map, string_bytes};
ghost use Rattle.pd_cluster.specs.Replay.{setup_of};
ghost use Rattle.pd_cluster.specs.RunOutcome.{AreLost, TellsLedger};
ghost use Rattle.pd_script.specs.Lawful.{IsLawfulScript};
ghost use Rattle.pd_script.specs.declared.script.Mode.TheVariants.{Run as OnThreads};
ghost use Rattle.tso_board.specs.Crews.{IsLedgerOf};
ghost use Rattle.tso_board.specs.Opened.{IsOpened};

use crate::run_lines::tasks_of;
use crate::run_text::run_text;
use pd_run::run;
use pd_script::Script;
use pd_types::{Gate, NoMemory};
use sched_api::Seated;
use std::alloc::Global;
use std::mem;
use std::sync::Wait;
use std::thread::Threads;
use tso_board::{Crew, Ledger};

/// The text of a run in which each driver, client and store answers its own lines on a thread of its own,
/// over the drivers' benches of schedulers, and the windows and batches of the crew's board. The benches
/// are lent to the drivers and come back; where memory is wanting, all may be gone.
pub fn run_script<R: Threads + Wait + Sync, B: Seated + Drop + Send, G: Gate + Sync>(
    rt: &R,
    alloc: Global,
    script: Script,
    benches: &mut Vec<B>,
    crew: Crew,
    gate: &G,
) -> Result<(String, Ledger), NoMemory>
    requires lawful { IsLawfulScript OnThreads script }
    requires opened { IsOpened (setup_of script) crew }
    ensures text { IfOk result (λ r. TellsLedger (record { old = map B.seats benches.old.items; new = map B.seats benches.new.items }) script r.1 (string_bytes r.0)) }
    ensures ledger { IfOk result (λ r. IsLedgerOf r.1 crew.board) }
    ensures lost { OnErr result (AreLost (record { old = map B.seats benches.old.items; new = map B.seats benches.new.items })) }
{
    let tasks = tasks_of(alloc, script)?;
    let lent = mem::replace(benches, Vec::new(alloc));
    let (left, back) = run(rt, alloc, tasks, lent, crew, gate)?;
    let text = run_text(alloc, &left)?;
    *benches = back;
    Ok((text, left.ledger))
}
