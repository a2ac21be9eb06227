// The line of a region heartbeat.
ghost use Rattle.std.specs.Prelude.{◌≡◌, nat_lt, length, IfOk, IfErr, Ok};
ghost use Rattle.pd_types.specs.declared.request.Request.TheVariants.{Beat};
ghost use Rattle.pd_script.specs.BeatLines.{beat_of, either_of, epoch_of, troubled_of};
ghost use Rattle.pd_script.specs.Refusals.{IsLineRefusal};
ghost use Rattle.pd_script.specs.Words.{words};

use crate::Reason;
use crate::ask::{Asked, Head, read_head};
use crate::form::key_form;
use crate::items::{downs, peers, pending};
use crate::place::{Place, read_place};
use crate::refusal::LineRefusal;
use crate::split::{next_word, word};
use pd_types::{Downs, Epoch, Ids, Region, RegionBeat, Request};
use std::alloc::Global;

/// The peers of a region that are down, and those that are pending.
#[derive(Debug, Drop, PartialEq)]
pub struct Troubled {
    pub down: Downs,
    pub pending: Ids,
}

// One word, of peers that are down or of those that are pending.
fn either(alloc: Global, word: &[u8]) -> Result<Troubled, LineRefusal>
    ensures ok { IfOk result (λ troubled. either_of word.now ≡ Ok troubled) }
    ensures refused { IfErr result (IsLineRefusal (either_of word.now)) }
{
    if word.starts_with(b"pending=") {
        let pending = pending(alloc, word)?;
        Ok(Troubled {
            down: Downs::new(alloc),
            pending,
        })
    } else {
        let down = downs(alloc, word)?;
        Ok(Troubled {
            down,
            pending: Ids::new(alloc),
        })
    }
}

// None, either or both of `down=` and `pending=`.
fn read_troubled(alloc: Global, rest: &[u8]) -> Result<Troubled, LineRefusal>
    ensures ok { IfOk result (λ troubled. troubled_of (words rest.now) ≡ Ok troubled) }
    ensures refused { IfErr result (IsLineRefusal (troubled_of (words rest.now))) }
{
    let Some((first, rest)) = next_word(rest) else {
        return Ok(Troubled {
            down: Downs::new(alloc),
            pending: Ids::new(alloc),
        });
    };
    let Some((second, _)) = next_word(rest) else {
        return either(alloc, first);
    };
    let down = downs(alloc, first)?;
    let pending = pending(alloc, second)?;
    Ok(Troubled { down, pending })
}

// Whether there are three words or more.
fn has_three(rest: &[u8]) -> bool
    ensures value { result ≡ nat_lt 2 (length (words rest.now)) }
{
    let Some((_, rest)) = next_word(rest) else {
        return false;
    };
    let Some((_, rest)) = next_word(rest) else {
        return false;
    };
    next_word(rest).is_some()
}

// Both numbers of an epoch.
fn read_epoch(conf_ver: &[u8], version: &[u8]) -> Result<Epoch, Reason>
    ensures value { result ≡ epoch_of conf_ver.now version.now }
{
    Ok(Epoch {
        conf_ver: read_place(Place::Version, conf_ver)?,
        version: read_place(Place::Version, version)?,
    })
}

// A region heartbeat with the peers that are down or pending.
fn report(head: Head, region: Region, leader: u64, troubled: Troubled) -> Asked
    ensures driver { result.driver ≡ head.driver }
    ensures request { result.request ≡ Beat head.store head.moment (record {
      region = region;
      leader = leader;
      down = troubled.down;
      pending = troubled.pending;
    }) }
{
    Asked {
        driver: head.driver,
        request: Request::Beat {
            store: head.store,
            moment: head.moment,
            beat: RegionBeat {
                region,
                leader,
                down: troubled.down,
                pending: troubled.pending,
            },
        },
    }
}

/// Reads what stands behind the word of
/// `beat S D NOW R START END CONF VER LEADER PEERS [DOWN] [PENDING]`. Want of memory alone reads nothing.
pub fn beat(alloc: Global, rest: &[u8]) -> Result<Asked, LineRefusal>
    ensures ok { IfOk result (λ asked. beat_of (words rest.now) ≡ Ok asked) }
    ensures refused { IfErr result (IsLineRefusal (beat_of (words rest.now))) }
{
    let (store, rest) = word(rest)?;
    let (driver, rest) = word(rest)?;
    let (moment, rest) = word(rest)?;
    let (id, rest) = word(rest)?;
    let (start, rest) = word(rest)?;
    let (end, rest) = word(rest)?;
    let (conf_ver, rest) = word(rest)?;
    let (version, rest) = word(rest)?;
    let (leader, rest) = word(rest)?;
    let (listed, rest) = word(rest)?;
    if has_three(rest) {
        return Err(LineRefusal::Fault(Reason::ExtraWord));
    }
    let head = read_head(store, driver, moment)?;
    let id = read_place(Place::Id, id)?;
    let start = key_form(alloc, start)?;
    let end = key_form(alloc, end)?;
    let epoch = read_epoch(conf_ver, version)?;
    let leader = read_place(Place::Id, leader)?;
    let peers = peers(alloc, listed)?;
    let troubled = read_troubled(alloc, rest)?;
    let region = Region {
        id,
        start,
        end,
        epoch,
        peers,
    };
    Ok(report(head, region, leader, troubled))
}
