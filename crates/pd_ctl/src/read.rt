// The command that words are.
ghost use Rattle.std.specs.Prelude.{◌≡◌, Ok, IfOk, IfErr};
ghost use Rattle.pd_ctl.specs.Commands.{IsRefusal, command_of, said};
ghost use Rattle.pd_ctl.specs.declared.verb.Verb.TheVariants as verbs;
ghost use Rattle.pd_ctl.specs.Words.{words};

use crate::places::{key, kind, name, number, rate};
use crate::verb::{Verb, verb_of};
use crate::words::{next_word, no_word, one_word, three_words, two_words};
use crate::{Command, CtlFault};
use op_step::Wish;
use std::alloc::Global;

// `store` alone or with one id.
fn store(line: &[u8]) -> Result<Command, CtlFault>
    ensures ok { IfOk result (λ command. said verbs.Store (words line.now) ≡ Ok command) }
    ensures refused { IfErr result (IsRefusal (said verbs.Store (words line.now))) }
{
    if next_word(line).is_none() {
        return Ok(Command::Stores);
    }
    let id = number(one_word(line)?)?;
    Ok(Command::Store { id })
}

fn store_limit(line: &[u8]) -> Result<Command, CtlFault>
    ensures ok { IfOk result (λ command. said verbs.StoreLimit (words line.now) ≡ Ok command) }
    ensures refused { IfErr result (IsRefusal (said verbs.StoreLimit (words line.now))) }
{
    let (id, rate_word, kind_word) = three_words(line)?;
    let id = number(id)?;
    let rate = rate(rate_word)?;
    let kind = kind(kind_word)?;
    Ok(Command::StoreLimit { id, rate, kind })
}

fn region_key(alloc: Global, line: &[u8]) -> Result<Command, CtlFault>
    ensures ok { IfOk result (λ command. said verbs.RegionKey (words line.now) ≡ Ok command) }
    ensures refused { IfErr result (IsRefusal (said verbs.RegionKey (words line.now))) }
{
    let key = key(alloc, one_word(line)?)?;
    Ok(Command::RegionKey { key })
}

fn scheduler_remove(alloc: Global, line: &[u8]) -> Result<Command, CtlFault>
    ensures ok { IfOk result (λ command. said verbs.SchedulerRemove (words line.now) ≡ Ok command) }
    ensures refused { IfErr result (IsRefusal (said verbs.SchedulerRemove (words line.now))) }
{
    let name = name(alloc, one_word(line)?)?;
    Ok(Command::SchedulerRemove { name })
}

fn transfer_peer(line: &[u8]) -> Result<Command, CtlFault>
    ensures ok { IfOk result (λ command. said verbs.TransferPeer (words line.now) ≡ Ok command) }
    ensures refused { IfErr result (IsRefusal (said verbs.TransferPeer (words line.now))) }
{
    let (region, from, to) = three_words(line)?;
    let region = number(region)?;
    let from = number(from)?;
    let to = number(to)?;
    let wish = Wish::MovePeer { from, to };
    Ok(Command::OperatorAdd { region, wish })
}

fn store_delete(line: &[u8]) -> Result<Command, CtlFault>
    ensures ok { IfOk result (λ command. said verbs.StoreDelete (words line.now) ≡ Ok command) }
    ensures refused { IfErr result (IsRefusal (said verbs.StoreDelete (words line.now))) }
{
    let id = number(one_word(line)?)?;
    Ok(Command::StoreDelete { id })
}

fn region(line: &[u8]) -> Result<Command, CtlFault>
    ensures ok { IfOk result (λ command. said verbs.Region (words line.now) ≡ Ok command) }
    ensures refused { IfErr result (IsRefusal (said verbs.Region (words line.now))) }
{
    let id = number(one_word(line)?)?;
    Ok(Command::Region { id })
}

fn operator_remove(line: &[u8]) -> Result<Command, CtlFault>
    ensures ok { IfOk result (λ command. said verbs.OperatorRemove (words line.now) ≡ Ok command) }
    ensures refused { IfErr result (IsRefusal (said verbs.OperatorRemove (words line.now))) }
{
    let region = number(one_word(line)?)?;
    Ok(Command::OperatorRemove { region })
}

fn operator_check(line: &[u8]) -> Result<Command, CtlFault>
    ensures ok { IfOk result (λ command. said verbs.OperatorCheck (words line.now) ≡ Ok command) }
    ensures refused { IfErr result (IsRefusal (said verbs.OperatorCheck (words line.now))) }
{
    let region = number(one_word(line)?)?;
    Ok(Command::OperatorCheck { region })
}

fn tso(line: &[u8]) -> Result<Command, CtlFault>
    ensures ok { IfOk result (λ command. said verbs.Tso (words line.now) ≡ Ok command) }
    ensures refused { IfErr result (IsRefusal (said verbs.Tso (words line.now))) }
{
    let ts = number(one_word(line)?)?;
    Ok(Command::Tso { ts })
}

fn add_peer(line: &[u8]) -> Result<Command, CtlFault>
    ensures ok { IfOk result (λ command. said verbs.AddPeer (words line.now) ≡ Ok command) }
    ensures refused { IfErr result (IsRefusal (said verbs.AddPeer (words line.now))) }
{
    let (region, store) = two_words(line)?;
    let region = number(region)?;
    let store = number(store)?;
    let wish = Wish::AddPeer { store };
    Ok(Command::OperatorAdd { region, wish })
}

fn remove_peer(line: &[u8]) -> Result<Command, CtlFault>
    ensures ok { IfOk result (λ command. said verbs.RemovePeer (words line.now) ≡ Ok command) }
    ensures refused { IfErr result (IsRefusal (said verbs.RemovePeer (words line.now))) }
{
    let (region, store) = two_words(line)?;
    let region = number(region)?;
    let store = number(store)?;
    let wish = Wish::RemovePeer { store };
    Ok(Command::OperatorAdd { region, wish })
}

fn transfer_leader(line: &[u8]) -> Result<Command, CtlFault>
    ensures ok { IfOk result (λ command. said verbs.TransferLeader (words line.now) ≡ Ok command) }
    ensures refused { IfErr result (IsRefusal (said verbs.TransferLeader (words line.now))) }
{
    let (region, store) = two_words(line)?;
    let region = number(region)?;
    let store = number(store)?;
    let wish = Wish::TransferLeader { store };
    Ok(Command::OperatorAdd { region, wish })
}

fn operator_show(line: &[u8]) -> Result<Command, CtlFault>
    ensures ok { IfOk result (λ command. said verbs.OperatorShow (words line.now) ≡ Ok command) }
    ensures refused { IfErr result (IsRefusal (said verbs.OperatorShow (words line.now))) }
{
    no_word(line)?;
    Ok(Command::OperatorShow)
}

fn scheduler_show(line: &[u8]) -> Result<Command, CtlFault>
    ensures ok { IfOk result (λ command. said verbs.SchedulerShow (words line.now) ≡ Ok command) }
    ensures refused { IfErr result (IsRefusal (said verbs.SchedulerShow (words line.now))) }
{
    no_word(line)?;
    Ok(Command::SchedulerShow)
}

fn leader_show(line: &[u8]) -> Result<Command, CtlFault>
    ensures ok { IfOk result (λ command. said verbs.LeaderShow (words line.now) ≡ Ok command) }
    ensures refused { IfErr result (IsRefusal (said verbs.LeaderShow (words line.now))) }
{
    no_word(line)?;
    Ok(Command::LeaderShow)
}

fn leader_resign(line: &[u8]) -> Result<Command, CtlFault>
    ensures ok { IfOk result (λ command. said verbs.LeaderResign (words line.now) ≡ Ok command) }
    ensures refused { IfErr result (IsRefusal (said verbs.LeaderResign (words line.now))) }
{
    no_word(line)?;
    Ok(Command::LeaderResign)
}

// What the words behind the fixed ones say.
fn command(alloc: Global, verb: Verb, line: &[u8]) -> Result<Command, CtlFault>
    ensures ok { IfOk result (λ command. said verb (words line.now) ≡ Ok command) }
    ensures refused { IfErr result (IsRefusal (said verb (words line.now))) }
{
    match verb {
        Verb::Store => store(line),
        Verb::StoreDelete => store_delete(line),
        Verb::StoreLimit => store_limit(line),
        Verb::Region => region(line),
        Verb::RegionKey => region_key(alloc, line),
        Verb::OperatorShow => operator_show(line),
        Verb::AddPeer => add_peer(line),
        Verb::RemovePeer => remove_peer(line),
        Verb::TransferLeader => transfer_leader(line),
        Verb::TransferPeer => transfer_peer(line),
        Verb::OperatorRemove => operator_remove(line),
        Verb::OperatorCheck => operator_check(line),
        Verb::SchedulerShow => scheduler_show(line),
        Verb::SchedulerRemove => scheduler_remove(alloc, line),
        Verb::LeaderShow => leader_show(line),
        Verb::LeaderResign => leader_resign(line),
        Verb::Tso => tso(line),
    }
}

/// The command that words are, which are separated by spaces. The command is that of the table whose
/// fixed words agree with the first words, with the most of them: `Unknown` where none does. Then the
/// number of words is tested (`MissingWord`, `ExtraWord`), and then each of them (`BadNumber`).
pub fn read_command(alloc: Global, words: &[u8]) -> Result<Command, CtlFault>
    ensures ok { IfOk result (λ command. command_of words.now ≡ Ok command) }
    ensures refused { IfErr result (IsRefusal (command_of words.now)) }
{
    let Some((verb, rest)) = verb_of(words) else {
        return Err(CtlFault::Unknown);
    };
    command(alloc, verb, rest)
}
