// The lines that ask a driver's cluster.
ghost use Rattle.std.specs.Prelude.{◌≡◌, IfOk, IfErr, Ok};
ghost use Rattle.pd_script.specs.Asks.{asked_of};
ghost use Rattle.pd_script.specs.Refusals.{IsLineRefusal};
ghost use Rattle.pd_script.specs.StoreLines.{head_of};

use crate::Reason;
use crate::beats::beat;
use crate::checks::{check, patrol};
use crate::ctl::{ctl, schedule};
use crate::place::{Place, read_place};
use crate::refusal::LineRefusal;
use crate::request_verb::RequestVerb;
use crate::rules::{rule, unrule};
use crate::stores::{alive, hello};
use pd_types::Request;
use std::alloc::Global;

/// What is asked of a driver's cluster.
#[derive(Debug, Drop, PartialEq)]
pub struct Asked {
    pub driver: u64,
    pub request: Request,
}

/// A store, the driver that it speaks to, and the moment in milliseconds since the epoch.
#[derive(Clone, Copy, Debug, PartialEq, Eq)]
pub struct Head {
    pub store: u64,
    pub driver: u64,
    pub moment: u64,
}

/// Reads `S D NOW`.
pub fn read_head(store: &[u8], driver: &[u8], moment: &[u8]) -> Result<Head, Reason>
    ensures value { result ≡ head_of store.now driver.now moment.now }
{
    Ok(Head {
        store: read_place(Place::Id, store)?,
        driver: read_place(Place::Driver, driver)?,
        moment: read_place(Place::Moment, moment)?,
    })
}

/// What stands behind the first word.
pub fn read_asked(alloc: Global, verb: RequestVerb, rest: &[u8]) -> Result<Asked, LineRefusal>
    ensures ok { IfOk result (λ asked. asked_of verb rest.now ≡ Ok asked) }
    ensures refused { IfErr result (IsLineRefusal (asked_of verb rest.now)) }
{
    match verb {
        RequestVerb::Hello => hello(alloc, rest),
        RequestVerb::Alive => Ok(alive(rest)?),
        RequestVerb::Beat => beat(alloc, rest),
        RequestVerb::Rule => rule(alloc, rest),
        RequestVerb::Unrule => unrule(alloc, rest),
        RequestVerb::Check => Ok(check(rest)?),
        RequestVerb::Patrol => Ok(patrol(rest)?),
        RequestVerb::Schedule => Ok(schedule(rest)?),
        RequestVerb::Ctl => ctl(alloc, rest),
    }
}
