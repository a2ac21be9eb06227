// The limits of a script.
ghost use Rattle.std.specs.Prelude.{◌≡◌, IfOk};
ghost use Rattle.pd_script.specs.Scripts.{broken_by, client_of, driver_of, greatest, leads_in, reports_in, stores_in};

use crate::Limited;
use crate::event::Numbered;
use pd_types::{MAX_CLIENTS, MAX_DRIVERS, NoMemory};
use std::alloc::Global;
use std::collections::BTreeSet;

/// How many events a script has at most.
pub const MAX_EVENTS: usize = 65536;

/// How many stores speak at most.
pub const MAX_STORES: u64 = 256;

/// How many lines `ctl` and `patrol` a script has at most.
pub const MAX_REPORTS: u64 = 1024;

/// How many lines `lead` and `publish` a script has at most.
pub const MAX_LEADS: u64 = 1024;

const _: () = prove!(MAX_EVENTS == 65_536 && MAX_STORES == 256 && MAX_LEADS == 1_024);

const _: () = prove!(MAX_REPORTS == 1_024);

/// A limit that is broken, and what was counted.
#[derive(Clone, Copy, Debug, PartialEq, Eq)]
pub struct Broken {
    pub what: Limited,
    pub count: u64,
}

/// The greatest driver that the events name, at least 1.
pub fn drivers(events: &[Numbered]) -> u64
    ensures value { result ≡ greatest driver_of events.now }
{
    let mut most = 1;
    for numbered in events {
        most = numbered.event.driver().max(most);
    }
    most
}

/// The greatest client that the events name, at least 1.
pub fn clients(events: &[Numbered]) -> u64
    ensures value { result ≡ greatest client_of events.now }
{
    let mut most = 1;
    for numbered in events {
        most = numbered.event.client().max(most);
    }
    most
}

/// How many stores speak in the events.
pub fn stores(alloc: Global, events: &[Numbered]) -> Result<u64, NoMemory>
    ensures value { IfOk result (λ count. count ≡ stores_in events.now) }
{
    let mut stores = BTreeSet::new(alloc);
    for numbered in events {
        if let Some(store) = numbered.event.store() {
            stores.insert(store)?;
        }
    }
    Ok(stores.len() as u64)
}

/// How many of the events ask for a report.
pub fn reports(events: &[Numbered]) -> u64
    ensures value { result ≡ reports_in events.now }
{
    let mut count = 0;
    for numbered in events {
        if numbered.event.is_report() {
            count += 1;
        }
    }
    count
}

/// How many of the events begin a lead or end one.
pub fn leads(events: &[Numbered]) -> u64
    ensures value { result ≡ leads_in events.now }
{
    let mut count = 0;
    for numbered in events {
        if numbered.event.is_lead() {
            count += 1;
        }
    }
    count
}

/// The first limit that the events break, and what was counted. The greatest driver and client that they
/// name are handed in.
pub fn first_broken(
    alloc: Global,
    events: &[Numbered],
    drivers: u64,
    clients: u64,
) -> Result<Option<Broken>, NoMemory>
    requires drivers { drivers ≡ greatest driver_of events.now }
    requires clients { clients ≡ greatest client_of events.now }
    ensures value { IfOk result (λ broken. broken ≡ broken_by events.now) }
{
    if events.len() > MAX_EVENTS {
        return Ok(Some(Broken {
            what: Limited::Events,
            count: events.len() as u64,
        }));
    }
    if drivers > MAX_DRIVERS {
        return Ok(Some(Broken {
            what: Limited::Drivers,
            count: drivers,
        }));
    }
    if clients > MAX_CLIENTS {
        return Ok(Some(Broken {
            what: Limited::Clients,
            count: clients,
        }));
    }
    let count = stores(alloc, events)?;
    if count > MAX_STORES {
        return Ok(Some(Broken {
            what: Limited::Stores,
            count,
        }));
    }
    let count = reports(events);
    if count > MAX_REPORTS {
        return Ok(Some(Broken {
            what: Limited::Reports,
            count,
        }));
    }
    let count = leads(events);
    if count > MAX_LEADS {
        return Ok(Some(Broken {
            what: Limited::Leads,
            count,
        }));
    }
    Ok(None)
}
