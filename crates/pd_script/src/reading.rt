// A script from its text.
ghost use Rattle.std.specs.Prelude.{◌≡◌, ◌<◌, ◌≤◌, ◌-◌, ◌^◌, ◌++◌, All, IfErr, IfOk, OnOk, length, map};
ghost use Rattle.pd_types.specs.declared.oracle.TheConstants.{MAX_CLIENTS, MAX_DRIVERS};
ghost use Rattle.pd_script.specs.Grammar.{events_of};
ghost use Rattle.pd_script.specs.Lawful.{IsLawfulScript};
ghost use Rattle.pd_script.specs.Refusals.{IsFault, IsRefusal, kept};
ghost use Rattle.pd_script.specs.Scripts.{client_of, driver_of, line_of, script_of};

use crate::event::{Event, Numbered, line};
use crate::limits::{Broken, clients, drivers, first_broken};
use crate::line::content;
use crate::{Line, Lines, Mode, Reason, Script, ScriptRefusal};
use pd_types::NoMemory;
use std::alloc::Global;

// Keeps what a line said behind the events before it.
fn keep(events: &mut Vec<Numbered>, number: u32, said: Option<Event>) -> Result<(), NoMemory>
    ensures ok { OnOk result (events.new.items ≡ events.old.items ++ kept number said) }
{
    match said {
        None => Ok(()),
        Some(event) => {
            events.push(Numbered { number, event })?;
            Ok(())
        }
    }
}

// The events of a text, or its first line at fault.
fn read_events(alloc: Global, text: &[u8], mode: Mode) -> Result<Vec<Numbered>, ScriptRefusal>
    requires { length text.now < 2 ^ 32 - 1 }
    ensures ok { IfOk result (λ events. events_of mode text.now ≡ Ok events.items) }
    ensures refused { IfErr result (IsFault (events_of mode text.now)) }
{
    let mut events = Vec::new(alloc);
    let mut start = 0usize;
    let mut number = 1u32;
    for (i, byte) in text.iter().enumerate() {
        if *byte != b'\n' {
            continue;
        }
        let first = events.as_slice().is_empty();
        let said = match content(alloc, mode, first, &text[start..i]) {
            Ok(said) => said,
            Err(refusal) => return Err(refusal.at(number)),
        };
        match keep(&mut events, number, said) {
            Ok(()) => {}
            Err(_) => return Err(ScriptRefusal::NoMemory),
        }
        start = i + 1;
        number += 1;
    }
    if start < text.len() {
        return Err(ScriptRefusal::Fault {
            line: number,
            reason: Reason::NoNewline,
        });
    }
    Ok(events)
}

// The lines of events whose drivers and clients are within their limits.
fn lines_of(alloc: Global, events: Vec<Numbered>) -> Result<Vec<Line>, NoMemory>
    requires drivers { All (λ e. driver_of e.event ≤ MAX_DRIVERS) events.items }
    requires clients { All (λ e. client_of e.event ≤ MAX_CLIENTS) events.items }
    ensures ok { IfOk result (λ lines. lines.items ≡ map line_of events.items) }
{
    let mut lines = Vec::with_capacity(alloc, events.len())?;
    for numbered in events {
        lines.push(line(numbered))?;
    }
    Ok(lines)
}

/// The script of a text of less than 2^32 - 1 bytes (lines are counted in 32 bits), for a mode. The whole text is tested against
/// the grammar before the limits.
pub fn read_script(alloc: Global, text: &[u8], mode: Mode) -> Result<Script, ScriptRefusal>
    requires { length text.now < 2 ^ 32 - 1 }
    ensures ok { IfOk result (λ script. script_of mode text.now ≡ Ok script) }
    ensures lawful { IfOk result (IsLawfulScript mode) }
    ensures refused { IfErr result (IsRefusal (script_of mode text.now)) }
{
    let events = match read_events(alloc, text, mode) {
        Ok(events) => events,
        Err(refusal) => return Err(refusal),
    };
    let (drivers, clients) = (drivers(&events), clients(&events));
    match first_broken(alloc, &events, drivers, clients) {
        Ok(None) => {}
        Ok(Some(Broken { what, count })) => return Err(ScriptRefusal::Limit { what, count }),
        Err(_) => return Err(ScriptRefusal::NoMemory),
    }
    match lines_of(alloc, events) {
        Ok(lines) => Ok(Script {
            drivers: drivers as u8,
            clients: clients as u8,
            lines: Lines::of(lines),
        }),
        Err(_) => Err(ScriptRefusal::NoMemory),
    }
}
