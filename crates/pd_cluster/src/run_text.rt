// The text of a run, section by section.
ghost use Rattle.std.specs.Prelude.{◌≡◌, ◌↔◌, ◌++◌, ◌∷◌, [], IfOk, OnOk, flat_map, map, option_to_list, string_bytes};
ghost use Rattle.pd_cluster.specs.RunText.{call_text, client_line, client_reply, client_section, driver_line, driver_reply, driver_section, entry_line, fault_reply, journal_section, key_text, lead_reply, meta_line, meta_section, numbered, post_line, post_section, run_text, said_line, store_line, store_section, tick_reply, verdict_text, windows_text};
ghost use Rattle.pd_cluster.specs.Terms.{EndsTerm};
ghost use Rattle.pd_cluster.specs.declared.said.Said.TheVariants.{ByOracle};
ghost use Rattle.pd_types.specs.declared.oracle.Seen.{Seen};
ghost use Rattle.tso_laws.specs.Laws.{learned};
ghost use Rattle.tso_core.specs.Says.{says};
ghost use Rattle.tso_model.specs.declared.view.Setup.{Setup};
ghost use Rattle.tso_outcome.specs.Clients.{got, seen_after};
ghost use Rattle.tso_outcome.specs.Terms.{GivesUp};
ghost use Rattle.tso_run.specs.declared.end.ClientAnswers.{ClientAnswers};
ghost use Rattle.pd_run.specs.declared.answer.DriverAnswers.{DriverAnswers};
ghost use Rattle.pd_run.specs.declared.answer.StoreAnswers.{StoreAnswers};
ghost use Rattle.pd_run.specs.Runs.{journal_of, run_of};

use crate::said::Said;
use meta_store::{MetaCall, MetaEntry, MetaVerdict};
use pd_run::{DriverAnswer, DriverAnswers, DriverSays, Left, StoreAnswer, StoreAnswers, StoreSays};
use pd_state::{Cluster, Entry};
use pd_types::Window;
use std::alloc::{AllocError, Global};
use std::{fmt, str};
use tso_client::{DrawFault, PostEntry, PostWhat};
use tso_core::Reply;
use tso_driver::{DriverSaid, LeadReply, TickReply};
use tso_outcome::{ClientAnswer, ClientSaid};
use tso_run::ClientAnswers;

fn lead_reply(reply: LeadReply) -> Reply
    ensures value { result ≡ lead_reply reply }
{
    match reply {
        LeadReply::Won { term, lo, hi } => Reply::Won { term, lo, hi },
        LeadReply::Beaten { found } => Reply::Beaten { found },
        LeadReply::Lost { found } => Reply::Lost { found },
        LeadReply::TermsSpent => Reply::TermsSpent,
        LeadReply::ClockRange => Reply::ClockRange,
    }
}

fn tick_reply(reply: TickReply) -> Reply
    ensures value { result ≡ tick_reply reply }
{
    match reply {
        TickReply::Moved { next, hi } => Reply::Moved { next, hi },
        TickReply::Idle => Reply::Idle,
        TickReply::Lost { found } => Reply::Lost { found },
        TickReply::ClockRange => Reply::ClockRange,
        TickReply::NotLeading => Reply::NotLeading,
    }
}

// What the oracle's answer to a driver prints. A term ends by it where it says that the driver gave one up.
fn driver_reply(said: DriverSaid) -> Reply
    ensures value { result ≡ driver_reply said }
    ensures ends { EndsTerm result ↔ GivesUp said }
{
    match said {
        DriverSaid::Led { reply, .. } => lead_reply(reply),
        DriverSaid::Ticked { reply, .. } => tick_reply(reply),
        DriverSaid::Resigned { held: true } => Reply::Resigned,
        DriverSaid::Resigned { held: false } => Reply::NotLeading,
    }
}

fn fault_reply(fault: DrawFault) -> Reply
    ensures value { result ≡ fault_reply fault }
{
    match fault {
        DrawFault::NotLeader => Reply::NotLeader,
        DrawFault::Stale { seen_term } => Reply::Stale { seen_term },
        DrawFault::Again { at, hi, n } => Reply::Again { at, hi, n },
    }
}

// What a client's answer prints. It tells the batch that was granted, and what the client has seen then.
fn client_reply(said: ClientSaid) -> Reply
    ensures value { result ≡ client_reply said }
    ensures batch { option_to_list (says result).batch ≡ got said }
    ensures seen { (seen : Seen) → seen_after said seen ≡ learned result seen }
{
    match said {
        ClientSaid::Took { answer, .. } => match answer {
            Ok(batch) => Reply::Got { batch },
            Err(fault) => fault_reply(fault),
        },
        ClientSaid::Told { .. } => Reply::Told,
        ClientSaid::Heard { note: Some(seen) } => Reply::Heard { seen },
        ClientSaid::Heard { note: None } => Reply::Nothing,
    }
}

// The line of the oracle's answer.
fn put_reply(text: &mut String, line: u32, reply: Reply) -> Result<(), AllocError>
    ensures text { OnOk result (string_bytes text.new ≡ string_bytes text.old ++ said_line line (ByOracle reply)) }
{
    writeln!(text, "{line} {reply}")
}

// The window's line, where it was saved.
fn put_window(text: &mut String, window: &Window) -> Result<(), AllocError>
    ensures text { OnOk result (string_bytes text.new ≡ string_bytes text.old ++ windows_text (window.now ∷ [])) }
{
    let Window {
        term,
        driver,
        lo,
        hi,
    } = *window;
    if lo < hi {
        writeln!(text, "window {term} {driver} {lo} {hi}")?;
    }
    Ok(())
}

fn put_windows(text: &mut String, windows: &[Window]) -> Result<(), AllocError>
    ensures text { OnOk result (string_bytes text.new ≡ string_bytes text.old ++ windows_text windows.now) }
{
    for window in windows {
        put_window(text, window)?;
    }
    Ok(())
}

// A driver's answer, as it prints.
fn put_driver_answer(text: &mut String, answer: &DriverAnswer) -> Result<(), AllocError>
    ensures text { OnOk result (string_bytes text.new ≡ string_bytes text.old ++ driver_line answer.now) }
{
    let line = answer.line;
    match &answer.says {
        DriverSays::Oracle(said) => put_reply(text, line, driver_reply(*said)),
        DriverSays::Cluster(reply) | DriverSays::Resigned { reply, .. } => {
            writeln!(text, "{line} {reply}")
        }
    }
}

// All answers of a driver.
fn put_driver_answers(text: &mut String, answers: &[DriverAnswer]) -> Result<(), AllocError>
    ensures text { OnOk result (string_bytes text.new ≡ string_bytes text.old ++ flat_map driver_line answers.now) }
{
    for answer in answers {
        put_driver_answer(text, answer)?;
    }
    Ok(())
}

// A driver's answers behind its head, where it has some.
fn put_driver(text: &mut String, driver: &DriverAnswers) -> Result<(), AllocError>
    ensures text { OnOk result (string_bytes text.new ≡ string_bytes text.old ++ driver_section driver.now.number driver.now.answers.items) }
{
    if driver.answers.is_empty() {
        return Ok(());
    }
    writeln!(text, "driver {}", driver.number)?;
    put_driver_answers(text, &driver.answers)
}

fn put_drivers(text: &mut String, drivers: &[DriverAnswers]) -> Result<(), AllocError>
    ensures text { OnOk result (string_bytes text.new ≡ string_bytes text.old ++ flat_map (λ (d : DriverAnswers). driver_section d.number d.answers.items) drivers.now) }
{
    for driver in drivers {
        put_driver(text, driver)?;
    }
    Ok(())
}

// All answers of a client.
fn put_client_answers(text: &mut String, answers: &[ClientAnswer]) -> Result<(), AllocError>
    ensures text { OnOk result (string_bytes text.new ≡ string_bytes text.old ++ flat_map client_line answers.now) }
{
    for answer in answers {
        put_reply(text, answer.line, client_reply(answer.said))?;
    }
    Ok(())
}

// A client's answers behind its head, where it has some.
fn put_client(text: &mut String, client: &ClientAnswers) -> Result<(), AllocError>
    ensures text { OnOk result (string_bytes text.new ≡ string_bytes text.old ++ client_section client.now.number client.now.answers.items) }
{
    if client.answers.is_empty() {
        return Ok(());
    }
    writeln!(text, "client {}", client.number)?;
    put_client_answers(text, &client.answers)
}

fn put_clients(text: &mut String, clients: &[ClientAnswers]) -> Result<(), AllocError>
    ensures text { OnOk result (string_bytes text.new ≡ string_bytes text.old ++ flat_map (λ (c : ClientAnswers). client_section c.number c.answers.items) clients.now) }
{
    for client in clients {
        put_client(text, client)?;
    }
    Ok(())
}

// A store's answer, as it prints.
fn put_store_answer(text: &mut String, answer: &StoreAnswer) -> Result<(), AllocError>
    ensures text { OnOk result (string_bytes text.new ≡ string_bytes text.old ++ store_line answer.now) }
{
    let line = answer.line;
    match &answer.says {
        StoreSays::Cluster(reply) => writeln!(text, "{line} {reply}"),
        StoreSays::Popped(message) => {
            let said = Said::Popped(*message);
            writeln!(text, "{line} {said}")
        }
    }
}

// All answers of a store.
fn put_store_answers(text: &mut String, answers: &[StoreAnswer]) -> Result<(), AllocError>
    ensures text { OnOk result (string_bytes text.new ≡ string_bytes text.old ++ flat_map store_line answers.now) }
{
    for answer in answers {
        put_store_answer(text, answer)?;
    }
    Ok(())
}

// A store's answers behind its head.
fn put_store(text: &mut String, store: &StoreAnswers) -> Result<(), AllocError>
    ensures text { OnOk result (string_bytes text.new ≡ string_bytes text.old ++ store_section store.now.store store.now.answers.items) }
{
    writeln!(text, "store {}", store.store)?;
    put_store_answers(text, &store.answers)
}

fn put_stores(text: &mut String, stores: &[StoreAnswers]) -> Result<(), AllocError>
    ensures text { OnOk result (string_bytes text.new ≡ string_bytes text.old ++ flat_map (λ (s : StoreAnswers). store_section s.store s.answers.items) stores.now) }
{
    for store in stores {
        put_store(text, store)?;
    }
    Ok(())
}

// An entry of a cluster's journal, with its number in the journal.
fn put_journal_entry(text: &mut String, n: u64, entry: &Entry) -> Result<(), AllocError>
    ensures text { OnOk result (string_bytes text.new ≡ string_bytes text.old ++ entry_line n entry.now) }
{
    writeln!(text, "{n} line {} {}", entry.line, entry.reply)
}

fn put_journal_entries(text: &mut String, entries: &[Entry]) -> Result<(), AllocError>
    ensures text { OnOk result (string_bytes text.new ≡ string_bytes text.old ++ numbered entry_line 1 entries.now) }
{
    for (i, entry) in entries.iter().enumerate() {
        put_journal_entry(text, i as u64 + 1, entry)?;
    }
    Ok(())
}

/// The journal of a driver's cluster behind its head.
pub fn put_journal(text: &mut String, driver: u64, cluster: &Cluster) -> Result<(), AllocError>
    ensures text { OnOk result (string_bytes text.new ≡ string_bytes text.old ++ journal_section driver (journal_of cluster.now)) }
{
    writeln!(text, "journal {driver}")?;
    put_journal_entries(text, cluster.journal().as_slice())
}

// The journals of all drivers, from the first one on.
fn put_journals(text: &mut String, clusters: &[Cluster]) -> Result<(), AllocError>
    ensures text { OnOk result (string_bytes text.new ≡ string_bytes text.old ++ numbered journal_section 1 (map journal_of clusters.now)) }
{
    for (i, cluster) in clusters.iter().enumerate() {
        put_journal(text, i as u64 + 1, cluster)?;
    }
    Ok(())
}

// A key of the metadata, which is text.
fn put_key(text: &mut String, key: &[u8]) -> Result<(), AllocError>
    ensures text { OnOk result (string_bytes text.new ≡ string_bytes text.old ++ key_text key.now) }
{
    match str::from_utf8(key) {
        Ok(key) => text.push_str(key),
        Err(_) => Ok(()),
    }
}

// A call of a driver to the metadata.
fn put_call(text: &mut String, call: &MetaCall) -> Result<(), AllocError>
    ensures text { OnOk result (string_bytes text.new ≡ string_bytes text.old ++ call_text call.now) }
{
    match call {
        MetaCall::Lead { term } => write!(text, "lead {term}"),
        MetaCall::Put { term, key, .. } => {
            write!(text, "put {term} ")?;
            put_key(text, key.as_slice())
        }
        MetaCall::Delete { term, key, .. } => {
            write!(text, "delete {term} ")?;
            put_key(text, key.as_slice())
        }
    }
}

// What the metadata answered.
fn put_verdict(text: &mut String, verdict: MetaVerdict) -> Result<(), AllocError>
    ensures text { OnOk result (string_bytes text.new ≡ string_bytes text.old ++ verdict_text verdict) }
{
    match verdict {
        MetaVerdict::Accepted { revision } => write!(text, "accepted {revision}"),
        MetaVerdict::OldTerm { fence } => write!(text, "old-term {fence}"),
        MetaVerdict::Conflict { found } => write!(text, "conflict {found}"),
        MetaVerdict::Limit => text.push_str("meta-limit"),
    }
}

// A call to the metadata with its verdict, and its number in the journal.
fn put_meta_entry(text: &mut String, n: u64, entry: &MetaEntry) -> Result<(), AllocError>
    ensures text { OnOk result (string_bytes text.new ≡ string_bytes text.old ++ meta_line n entry.now) }
{
    write!(text, "{n} driver {} ", entry.driver)?;
    put_call(text, &entry.call)?;
    text.push_str(" ")?;
    put_verdict(text, entry.verdict)?;
    text.push_str("\n")
}

/// The journal of the metadata behind its head.
pub fn put_meta(text: &mut String, entries: &[MetaEntry]) -> Result<(), AllocError>
    ensures text { OnOk result (string_bytes text.new ≡ string_bytes text.old ++ meta_section entries.now) }
{
    text.push_str("meta\n")?;
    for (i, entry) in entries.iter().enumerate() {
        put_meta_entry(text, i as u64 + 1, entry)?;
    }
    Ok(())
}

// An entry of the post, with its number in the journal.
fn put_post_entry(text: &mut String, n: u64, entry: &PostEntry) -> Result<(), AllocError>
    ensures text { OnOk result (string_bytes text.new ≡ string_bytes text.old ++ post_line n entry.now) }
{
    let line = entry.line;
    match entry.what {
        PostWhat::Told { .. } => writeln!(text, "{n} line {line} told"),
        PostWhat::Heard { seen } => {
            writeln!(text, "{n} line {line} heard {} {}", seen.term, seen.last)
        }
        PostWhat::Nothing => writeln!(text, "{n} line {line} nothing"),
    }
}

// The journal of the post behind its head.
fn put_post(text: &mut String, entries: &[PostEntry]) -> Result<(), AllocError>
    ensures text { OnOk result (string_bytes text.new ≡ string_bytes text.old ++ post_section entries.now) }
{
    text.push_str("post\n")?;
    for (i, entry) in entries.iter().enumerate() {
        put_post_entry(text, i as u64 + 1, entry)?;
    }
    Ok(())
}

/// The text of what a run left.
pub fn run_text(alloc: Global, left: &Left) -> Result<String, AllocError>
    ensures text { IfOk result (λ text. (k : Setup) → string_bytes text ≡ run_text (run_of k left.now)) }
{
    let mut text = String::new(alloc);
    put_windows(&mut text, left.ledger.windows().as_slice())?;
    put_drivers(&mut text, &left.drivers)?;
    put_clients(&mut text, &left.clients)?;
    put_stores(&mut text, &left.stores)?;
    put_journals(&mut text, &left.clusters)?;
    put_meta(&mut text, left.meta.as_slice())?;
    put_post(&mut text, left.post.as_slice())?;
    Ok(text)
}
