// Lines that aren't passed over, and what they name.
ghost use Rattle.std.specs.Prelude.{◌≡◌, ◌≤◌, option_to_list};
ghost use Rattle.pd_types.specs.declared.oracle.TheConstants.{MAX_CLIENTS, MAX_DRIVERS};
ghost use Rattle.pd_script.specs.Scripts.{act_of, actor_of, client_of, driver_of, is_lead, is_report, line_of, store_of};

use crate::act::step_act;
use crate::actor::{asker, asks_report, speaker, step_actor, store_in};
use crate::numbers::{Numbers, client_in, driver_in};
use crate::verb::Verb;
use crate::{Act, Boxed, Line};
use pd_types::{Actor, Request};

/// A line that isn't passed over.
#[derive(Debug, Drop, PartialEq)]
pub enum Event {
    /// A line that is no request: its first word and its numbers, in their ranges.
    Step {
        verb: Verb,
        numbers: Numbers,
    },
    /// A request to a driver's cluster, of a store or of the driver itself.
    Ask {
        driver: u64,
        request: Boxed<Request>,
    },
}

/// An event with the number of its line, counted from 1 over all lines.
#[derive(Debug, Drop, PartialEq)]
pub struct Numbered {
    pub number: u32,
    pub event: Event,
}

impl Event {
    /// The greatest driver that it names, 0 without one.
    pub fn driver(&self) -> u64
        ensures value { result ≡ driver_of self.now }
    {
        match self {
            Event::Step { verb, numbers } => driver_in(verb.row().places, *numbers),
            Event::Ask { driver, .. } => *driver,
        }
    }

    /// The greatest client that it names, 0 without one.
    pub fn client(&self) -> u64
        ensures value { result ≡ client_of self.now }
    {
        match self {
            Event::Step { verb, numbers } => client_in(verb.row().places, *numbers),
            Event::Ask { .. } => 0,
        }
    }

    /// The store that acts in it, where one does.
    pub fn store(&self) -> Option<u64>
        ensures value { option_to_list result ≡ store_of self.now }
    {
        match self {
            Event::Step { verb, numbers } => store_in(verb.row().places, *numbers),
            Event::Ask { request, .. } => speaker(request.value()),
        }
    }

    /// Whether its line begins a lead or ends one.
    pub fn is_lead(&self) -> bool
        ensures value { result ≡ is_lead (act_of self.now) }
    {
        match self {
            Event::Step { verb, .. } => *verb == Verb::Lead || *verb == Verb::Publish,
            Event::Ask { .. } => false,
        }
    }

    /// Whether its line asks for a report.
    pub fn is_report(&self) -> bool
        ensures value { result ≡ is_report (act_of self.now) }
    {
        match self {
            Event::Step { .. } => false,
            Event::Ask { request, .. } => asks_report(request.value()),
        }
    }

    /// What its line does. The drivers and clients that it names are within their limits.
    pub fn act(self) -> Act
        requires drivers { driver_of self ≤ MAX_DRIVERS }
        requires clients { client_of self ≤ MAX_CLIENTS }
        ensures value { result ≡ act_of self }
    {
        match self {
            Event::Step { verb, numbers } => step_act(verb, numbers),
            Event::Ask { driver, request } => Act::Ask {
                driver: driver as u8,
                request,
            },
        }
    }
}

// Who acts in an event.
fn actor(event: &Event) -> Option<Actor>
    requires drivers { driver_of event.now ≤ MAX_DRIVERS }
    requires clients { client_of event.now ≤ MAX_CLIENTS }
    ensures value { result ≡ actor_of event.now }
{
    match event {
        Event::Step { verb, numbers } => step_actor(verb.row().places, *numbers),
        Event::Ask { driver, request } => Some(asker(*driver as u8, request.value())),
    }
}

/// The line of an event whose drivers and clients are within their limits.
pub fn line(numbered: Numbered) -> Line
    requires drivers { driver_of numbered.event ≤ MAX_DRIVERS }
    requires clients { client_of numbered.event ≤ MAX_CLIENTS }
    ensures value { result ≡ line_of numbered }
{
    let actor = actor(&numbered.event);
    Line {
        number: numbered.number,
        actor,
        act: numbered.event.act(),
    }
}
