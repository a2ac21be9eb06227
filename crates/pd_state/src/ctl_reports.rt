// The reports of faults and of commands that change a cluster.
ghost use Rattle.std.specs.Prelude.{◌≡◌, ◌≢◌, false, IfOk};
ghost use Rattle.std.specs.Option.{option_map};
ghost use Rattle.serde_json.specs.View.{view};
ghost use Rattle.serde_json.specs.Written.{has_float};
ghost use Rattle.rule_fit.specs.Suits.{is_among};
ghost use Rattle.pd_ctl.specs.Trees.{fault_tree};
ghost use Rattle.pd_ctl.specs.declared.fault.CtlFault.TheVariants as faults;
ghost use Rattle.pd_state.specs.Ctl.{HaveRate, command_report};
ghost use Rattle.pd_state.specs.Reports.{adding_tree, command_told, ctl_fault_text, done_tree, reported};

use crate::adding::{Adding, DispatchText};
use crate::{Part, Reply};
use pd_ctl::{Command, CtlFault, Parts, read_command, report};
use pd_types::{Bytes, NoMemory, Text, Texts};
use serde_json::{Value, json};
use std::alloc::Global;

/// The command that these words are, or their first fault.
pub fn read_words(alloc: Global, words: &Bytes) -> Result<Result<Command, CtlFault>, NoMemory>
    ensures value { IfOk result (λ told. told ≡ command_told words.now) }
    ensures rates { IfOk result HaveRate }
{
    match read_command(alloc, words.as_slice()) {
        Ok(command) => Ok(Ok(command)),
        Err(fault) => {
            let why = worded(fault)?;
            Ok(Err(why))
        }
    }
}

// A fault of words; want of memory is none.
fn worded(fault: CtlFault) -> Result<CtlFault, NoMemory>
    ensures same { IfOk result (λ why. why ≡ fault) }
    ensures kept { IfOk result (λ why. fault ≢ faults.NoMemory) }
{
    match fault {
        CtlFault::NoMemory => Err(NoMemory),
        _ => Ok(fault),
    }
}

// The text of a fault of words.
fn fault_text(fault: CtlFault) -> &'static str
    ensures value { result.now ≡ ctl_fault_text fault }
{
    match fault {
        CtlFault::Unknown => "unknown",
        CtlFault::BadNumber => "bad-number",
        CtlFault::MissingWord => "missing-word",
        CtlFault::ExtraWord => "extra-word",
        CtlFault::NoMemory => "no-memory",
    }
}

// The reply that is this value's text; a float in it would have no text of its own.
fn reported(alloc: Global, value: Value) -> Result<Reply, NoMemory>
    requires { has_float (view value) ≡ false }
    ensures value { IfOk result (λ reply. reply ≡ reported (view value)) }
{
    Ok(Reply::Report {
        json: Bytes::of(value.to_vec(alloc)?),
    })
}

/// The report of a fault.
#[tactic(auto, using(crate::proofs::Whole::fault_whole))]
pub fn fault(alloc: Global, text: &str) -> Result<Reply, NoMemory>
    ensures value { IfOk result (λ reply. reply ≡ reported (fault_tree text.now)) }
{
    reported(alloc, json!(in alloc; {"fault": text})?)
}

/// The report of a fault of words.
pub fn fault_report(alloc: Global, why: CtlFault) -> Result<Reply, NoMemory>
    ensures value { IfOk result (λ reply. reply ≡ reported (fault_tree (ctl_fault_text why))) }
{
    fault(alloc, fault_text(why))
}

/// The report of what was done.
#[tactic(auto, using(crate::proofs::Whole::done_whole))]
pub fn done(alloc: Global, name: &str) -> Result<Reply, NoMemory>
    ensures value { IfOk result (λ reply. reply ≡ reported (done_tree name.now)) }
{
    reported(alloc, json!(in alloc; {"done": name})?)
}

/// The report of what came of adding an operator of so many steps.
#[tactic(auto, using(crate::proofs::Whole::added_whole))]
pub fn added(alloc: Global, steps: u64, adding: Adding) -> Result<Reply, NoMemory>
    ensures value { IfOk result (λ reply. reply ≡ reported (adding_tree steps adding)) }
{
    let Adding::Added(dispatch) = adding else {
        let text = adding.to_string(alloc)?;
        return fault(alloc, text.as_str());
    };
    let text = DispatchText { dispatch }.to_string(alloc)?;
    let now = text.as_str();
    reported(alloc, json!(in alloc; {"added": steps, "now": now})?)
}

// Whether one of these names is this one.
fn has_name(name: &Text, names: &Texts) -> bool
    ensures { result ≡ is_among name.now names.now }
{
    names
        .as_slice()
        .iter()
        .any(|one| one.as_bytes() == name.as_bytes())
}

/// The report of a command that leaves the tables; none of one that changes them.
pub fn command_report(
    alloc: Global,
    driver: u8,
    part: &Part,
    names: &Texts,
    command: &Command,
) -> Result<Option<Reply>, NoMemory>
    ensures value { IfOk result (λ reply. reply ≡ option_map reported (command_report driver part.now part.now.clock names.now command.now)) }
{
    match command {
        Command::SchedulerRemove { name } => {
            if has_name(name, names) {
                Ok(Some(done(alloc, "Removed")?))
            } else {
                Ok(Some(fault(alloc, "absent")?))
            }
        }
        Command::LeaderResign => Ok(Some(done(alloc, "Resigned")?)),
        _ => {
            if !command.only_reads() {
                return Ok(None);
            }
            let parts = Parts {
                stores: &part.stores,
                standing: &part.standing,
                operators: &part.operators,
                limits: &part.limits,
                names,
                clock: part.clock,
                driver,
                term: part.term,
            };
            let json = report(alloc, command, &parts)?;
            Ok(Some(Reply::Report { json }))
        }
    }
}
