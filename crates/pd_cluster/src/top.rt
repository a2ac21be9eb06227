// The program over whatever source and sink it is handed.
ghost use Rattle.std.specs.Prelude.{◌+◌, ◌≡◌, ◌≢◌, ◌≤◌, IfOk, IfNone, IfSome, IsErrOf, OnErr, OnOk, length, map, string_bytes};
ghost use Rattle.std.specs.Io.KnownBytes.{Keeps};
ghost use Rattle.pd_cluster.specs.Command.{command_of};
ghost use Rattle.pd_cluster.specs.Outcome.{AreHeededBy, AreHeededIn, AreLeft, Asks, TellsParts, Ends, IsHeadline, IsHeededBy, IsOutcome, IsScriptRun, IsStepHeadline, IsUnread, Leaves, Outcome, limit_bytes, limited_text, refusal_outcome, script_outcome, tso_outcome, usage};
ghost use Rattle.pd_cluster.specs.Response.{Gives, HasEndCause, HasFailureCause, IsFinal, Responds, command_in, outcome_of};
ghost use Rattle.pd_cluster.specs.RunOutcome.{AreLost, TellsRun};
ghost use Rattle.pd_cluster.specs.declared.status.Status.TheVariants.{ReadFault, WriteFault};
ghost use Rattle.pd_lines.specs.declared.input.TheConstants.{PIECE};
ghost use Rattle.pd_lines.specs.Input.{TakesFew};
ghost use Rattle.pd_script.specs.Lawful.{IsLawfulScript};
ghost use Rattle.pd_script.specs.Scripts.{script_of};
ghost use Rattle.pd_script.specs.declared.refusal.ScriptRefusal.TheVariants.{Fault, Limit as PastLimit};
ghost use Rattle.pd_script.specs.declared.script.Mode.TheVariants.{Replay as ByLine, Run as OnThreads};

use crate::command::Command;
use crate::replay::{opening_cell, replay_script};
use crate::response::Response;
use crate::run::run_script;
use crate::status::Status;
use pd_io::{PutFault, Sink, Source};
use pd_lines::{ReadRefusal, put_all, read_all};
use pd_script::{Limited, Mode, Reason, Script, ScriptRefusal, read_script};
use pd_types::{Gate, NoMemory, unpack};
use sched_api::Seated;
use std::alloc::{AllocError, Global};
use std::sync::Wait;
use std::thread::Threads;
use tso_board::open;

/// How many bytes a script has at most.
pub const MAX_BYTES: usize = 16777216;

const _: () = prove!(MAX_BYTES == 16_777_216);

/// Why there is nothing to be written.
#[derive(Clone, Copy, Debug, PartialEq, Eq)]
pub enum Failure {
    ReadFault,
    NoMemory,
}

// The response to wrong words.
fn usage_response(alloc: Global) -> Result<Response, AllocError>
    ensures { IfOk result (Gives usage) }
{
    let text = String::from_str(
        alloc,
        "usage: pd_cluster replay | run | gen FROM N | tso N\n",
    )?;
    Ok(Response {
        status: Status::Usage,
        text,
    })
}

// The response to a text that is too long.
fn limit_response(alloc: Global) -> Result<Response, AllocError>
    ensures { IfOk result (Gives limit_bytes) }
{
    let text = String::from_str(alloc, "limit bytes 16777217\n")?;
    Ok(Response {
        status: Status::Limit,
        text,
    })
}

// The response to `tso`.
fn tso_response(alloc: Global, timestamp: u64) -> Result<Response, AllocError>
    ensures gives { IfOk result (Gives (tso_outcome timestamp)) }
    ensures told { IfOk result (λ r. TellsParts timestamp (string_bytes r.text)) }
{
    let (physical, logical) = unpack(timestamp);
    let text = format!(in alloc; "physical {physical} logical {logical}\n")?;
    Ok(Response {
        status: Status::Done,
        text,
    })
}

// The response to a text with a line at fault.
fn fault_response(alloc: Global, line: u32, reason: Reason) -> Result<Response, AllocError>
    ensures { IfOk result (Gives (refusal_outcome (Fault line reason))) }
{
    let reason = reason.number();
    let text = format!(in alloc; "line {line}: reason {reason}\n")?;
    Ok(Response {
        status: Status::Refused,
        text,
    })
}

// The word for what there is too much of.
fn limited_word(what: Limited) -> &'static str
    ensures value { result.now ≡ limited_text what }
{
    match what {
        Limited::Events => "events",
        Limited::Drivers => "drivers",
        Limited::Clients => "clients",
        Limited::Stores => "stores",
        Limited::Reports => "reports",
        Limited::Leads => "leads",
    }
}

// The response to a text past a limit.
fn past_limit_response(alloc: Global, what: Limited, count: u64) -> Result<Response, AllocError>
    ensures { IfOk result (Gives (refusal_outcome (PastLimit what count))) }
{
    let what = limited_word(what);
    let text = format!(in alloc; "limit {what} {count}\n")?;
    Ok(Response {
        status: Status::Limit,
        text,
    })
}

// The response to a text that is no script.
fn refusal_response(alloc: Global, refusal: ScriptRefusal) -> Result<Response, NoMemory>
    ensures gives { IfOk result (Gives (refusal_outcome refusal)) }
    ensures settled { IfOk result (λ r. IsFinal r.status) }
{
    match refusal {
        ScriptRefusal::Fault { line, reason } => Ok(fault_response(alloc, line, reason)?),
        ScriptRefusal::Limit { what, count } => Ok(past_limit_response(alloc, what, count)?),
        ScriptRefusal::NoMemory => Err(NoMemory),
    }
}

// The response to a script, over the drivers' benches of schedulers.
fn script_response<B: Seated>(
    alloc: Global,
    text: &[u8],
    benches: &mut Vec<B>,
) -> Result<Response, NoMemory>
    requires { length text.now ≤ MAX_BYTES }
    ensures gives { IfOk result (Gives (script_outcome (record { old = map B.seats benches.old.items; new = map B.seats benches.new.items }) (script_of ByLine text.now))) }
    ensures heeded { OnOk result (AreHeededIn (record { old = map B.seats benches.old.items; new = map B.seats benches.new.items }) ByLine (script_of ByLine text.now)) }
    ensures settled { IfOk result (λ r. IsFinal r.status) }
{
    match read_script(alloc, text, Mode::Replay) {
        Ok(script) => {
            let text = replay_script(alloc, script, benches)?;
            Ok(Response {
                status: Status::Done,
                text,
            })
        }
        Err(refusal) => refusal_response(alloc, refusal),
    }
}

// The text of a script's run on threads, over the drivers' benches of schedulers.
fn run_on_threads<R: Threads + Wait + Sync, B: Seated + Drop + Send, G: Gate + Sync>(
    rt: &R,
    alloc: Global,
    script: Script,
    benches: &mut Vec<B>,
    gate: &G,
) -> Result<String, NoMemory>
    requires lawful { IsLawfulScript OnThreads script }
    ensures told { IfOk result (λ text. TellsRun (record { old = map B.seats benches.old.items; new = map B.seats benches.new.items }) script (string_bytes text)) }
    ensures lost { OnErr result (AreLost (record { old = map B.seats benches.old.items; new = map B.seats benches.new.items })) }
{
    let cell = opening_cell(script.lines.as_slice());
    let crew = open(alloc, script.drivers, script.clients, cell)?;
    let (text, _) = run_script(rt, alloc, script, benches, crew, gate)?;
    Ok(text)
}

// The response to a script that runs on threads, over the drivers' benches of schedulers.
fn threads_response<R: Threads + Wait + Sync, B: Seated + Drop + Send, G: Gate + Sync>(
    rt: &R,
    alloc: Global,
    text: &[u8],
    benches: &mut Vec<B>,
    gate: &G,
) -> Result<Response, NoMemory>
    requires { length text.now ≤ MAX_BYTES }
    ensures answered { IfOk result (λ r. IsScriptRun (record { old = map B.seats benches.old.items; new = map B.seats benches.new.items }) (script_of OnThreads text.now) (outcome_of r)) }
    ensures heeded { OnOk result (AreHeededIn (record { old = map B.seats benches.old.items; new = map B.seats benches.new.items }) OnThreads (script_of OnThreads text.now)) }
    ensures lost { OnErr result (AreLost (record { old = map B.seats benches.old.items; new = map B.seats benches.new.items })) }
    ensures settled { IfOk result (λ r. IsFinal r.status) }
{
    match read_script(alloc, text, Mode::Run) {
        Ok(script) => {
            let text = run_on_threads(rt, alloc, script, benches, gate)?;
            Ok(Response {
                status: Status::Done,
                text,
            })
        }
        Err(refusal) => refusal_response(alloc, refusal),
    }
}

// The response to a text, as a script in this mode.
fn text_response<R: Threads + Wait + Sync, B: Seated + Drop + Send, G: Gate + Sync>(
    rt: &R,
    alloc: Global,
    mode: Mode,
    text: &[u8],
    benches: &mut Vec<B>,
    gate: &G,
) -> Result<Response, NoMemory>
    requires { length text.now ≤ MAX_BYTES }
    ensures answered { IfOk result (λ r. IsOutcome (record { old = map B.seats benches.old.items; new = map B.seats benches.new.items }) (command_in mode) text.now (outcome_of r)) }
    ensures heeded { OnOk result (AreHeededBy (record { old = map B.seats benches.old.items; new = map B.seats benches.new.items }) (command_in mode) text.now) }
    ensures left { OnErr result (AreLeft (record { old = map B.seats benches.old.items; new = map B.seats benches.new.items }) (command_in mode)) }
    ensures settled { IfOk result (λ r. IsFinal r.status) }
{
    match mode {
        Mode::Replay => script_response(alloc, text, benches),
        Mode::Run => threads_response(rt, alloc, text, benches, gate),
    }
}

// The response to what the source gives, as a script in this mode.
fn source_response<R: Threads + Wait + Sync, S: Source, B: Seated + Drop + Send, G: Gate + Sync>(
    rt: &R,
    alloc: Global,
    mode: Mode,
    source: &mut S,
    benches: &mut Vec<B>,
    gate: &G,
) -> Result<Response, Failure>
    ensures answered { IfOk result (Responds (record { old = map B.seats benches.old.items; new = map B.seats benches.new.items }) (command_in mode) (S.left source.old) (S.left source.new)) }
    ensures left { IsErrOf result Failure.NoMemory → AreLeft (record { old = map B.seats benches.old.items; new = map B.seats benches.new.items }) (command_in mode) }
    ensures unheard { IsErrOf result Failure.ReadFault → map B.seats benches.new.items ≡ map B.seats benches.old.items }
    ensures unread { IsErrOf result Failure.ReadFault → TakesFew (S.left source.old) (S.left source.new) MAX_BYTES }
    ensures asked { TakesFew (S.left source.old) (S.left source.new) (MAX_BYTES + PIECE) }
    ensures cause { HasFailureCause (S.faults source.old) (S.faults source.new) result }
{
    match read_all(alloc, source, MAX_BYTES) {
        Ok(text) => text_response(rt, alloc, mode, text.as_slice(), benches, gate).map_err(
            |_| Failure::NoMemory,
        ),
        Err(ReadRefusal::TooLong) => limit_response(alloc).map_err(|_| Failure::NoMemory),
        Err(ReadRefusal::ReadFault) => Err(Failure::ReadFault),
        Err(ReadRefusal::NoMemory) => Err(Failure::NoMemory),
    }
}

// What is to be written, for a command and what the source gives.
fn respond<R: Threads + Wait + Sync, S: Source, B: Seated + Drop + Send, G: Gate + Sync>(
    rt: &R,
    alloc: Global,
    command: Command,
    source: &mut S,
    benches: &mut Vec<B>,
    gate: &G,
) -> Result<Response, Failure>
    ensures answered { IfOk result (Responds (record { old = map B.seats benches.old.items; new = map B.seats benches.new.items }) command (S.left source.old) (S.left source.new)) }
    ensures left { IsErrOf result Failure.NoMemory → AreLeft (record { old = map B.seats benches.old.items; new = map B.seats benches.new.items }) command }
    ensures unheard { IsErrOf result Failure.ReadFault → map B.seats benches.new.items ≡ map B.seats benches.old.items }
    ensures unread { IsErrOf result Failure.ReadFault → IsUnread command (S.left source.old) (S.left source.new) }
    ensures asked { Asks command (S.left source.old) (S.left source.new) }
    ensures cause { HasFailureCause (S.faults source.old) (S.faults source.new) result }
{
    match command {
        Command::Replay => source_response(rt, alloc, Mode::Replay, source, benches, gate),
        Command::Run => source_response(rt, alloc, Mode::Run, source, benches, gate),
        Command::Tso { timestamp } => {
            tso_response(alloc, timestamp).map_err(|_| Failure::NoMemory)
        }
    }
}

// Writes a response, and says how the program ends.
fn write_out<K: Sink>(response: &Response, sink: &mut K) -> Status
    requires { IsFinal response.now.status }
    ensures written { (outcome : Outcome) → Gives outcome response.now → Leaves outcome result (K.held sink.old) (K.held sink.new) }
    ensures cause { HasEndCause WriteFault (K.faults sink.old) (K.faults sink.new) result }
    ensures read { result ≢ ReadFault }
{
    match put_all(sink, response.text.as_bytes()) {
        Ok(()) => response.status,
        Err(PutFault::Failed) => Status::WriteFault,
        Err(PutFault::NoMemory) => Status::NoMemory,
    }
}

/// Does all that the program does: what the words of the command line ask for, from the source to
/// the sink. The whole script is read and checked before a line of it runs. `replay` and `run` ask the
/// drivers' benches of schedulers, the first of which is the first driver's; where `run` wants memory,
/// all benches may be gone. `run` alone starts threads and asks the gate: each line is answered once the
/// gate lets its actor, or was asked 1,000,000 times, and the gate hears of the answer.
pub fn pd_top<
    R: Threads + Wait + Sync,
    S: Source,
    K: Sink,
    B: Seated + Drop + Send,
    G: Gate + Sync,
>(
    rt: &R,
    alloc: Global,
    words: &[String],
    source: &mut S,
    sink: &mut K,
    benches: &mut Vec<B>,
    gate: &G,
) -> Status
    // Words in no form: the usage text, or a fault of the sink, or want of memory. Nothing is read.
    ensures usage { IfNone (command_of (map string_bytes words.now)) (Leaves usage result (K.held sink.old) (K.held sink.new)) }

    ensures unread { IfNone (command_of (map string_bytes words.now)) (Keeps (S.left source.old) (S.left source.new)) }

    // A command: the outcome of the text that was read, whose answers are a safe history; of `run` that of any lawful run over the benches.
    ensures answer { IfSome (command_of (map string_bytes words.now)) (λ command. Ends (record { old = map B.seats benches.old.items; new = map B.seats benches.new.items }) command result (S.left source.old) (S.left source.new) (K.held sink.old) (K.held sink.new)) }

    // The headline: what was printed are answers to the lines that were read, and grants no timestamp twice.
    ensures history { IfSome (command_of (map string_bytes words.now)) (λ command. IsHeadline command result (S.left source.old) (S.left source.new) (K.held sink.old) (K.held sink.new)) }

    // The headline of placement steps: each step that was printed was sent by an entry of a driver's journal, and was safe there.
    ensures steps { IfSome (command_of (map string_bytes words.now)) (λ command. IsStepHeadline command result (S.left source.old) (S.left source.new) (K.held sink.old) (K.held sink.new)) }

    // The proposals in the answers to a driver's lines are, in order, what its bench said; `tso` asks no bench.
    ensures heeded { IfSome (command_of (map string_bytes words.now)) (λ command. IsHeededBy (record { old = map B.seats benches.old.items; new = map B.seats benches.new.items }) command result (S.left source.old) (S.left source.new) (K.held sink.old) (K.held sink.new)) }

    // Words in no form ask no bench.
    ensures unasked { IfNone (command_of (map string_bytes words.now)) (map B.seats benches.new.items ≡ map B.seats benches.old.items) }

    // What is asked of the source, however it ends.
    ensures asked { IfSome (command_of (map string_bytes words.now)) (λ command. Asks command (S.left source.old) (S.left source.new)) }

    // A fault is answered only where its count rose.
    ensures read { HasEndCause ReadFault (S.faults source.old) (S.faults source.new) result }
    ensures write { HasEndCause WriteFault (K.faults sink.old) (K.faults sink.new) result }
{
    match Command::of(words) {
        None => match usage_response(alloc) {
            Ok(response) => write_out(&response, sink),
            Err(_) => Status::NoMemory,
        },
        Some(command) => match respond(rt, alloc, command, source, benches, gate) {
            Ok(response) => write_out(&response, sink),
            Err(Failure::ReadFault) => Status::ReadFault,
            Err(Failure::NoMemory) => Status::NoMemory,
        },
    }
}
