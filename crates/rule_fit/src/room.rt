// Which rules have room for one peer more.
ghost use Rattle.std.specs.Prelude.{◌≡◌, ◌↔◌, ◌<◌, ◌≤◌, length, IfOk, IsTrue};
ghost use Rattle.rule_fit.specs.Assignment.{IsGreatest};
ghost use Rattle.rule_fit.specs.Question.{AreRoomsIn, question};
ghost use Rattle.rule_fit.specs.Room.{AreRooms, HasRoom};
ghost use Rattle.rule_fit.specs.Table.{suits};
ghost use Rattle.pd_types.specs.declared.rule.TheConstants.{MAX_RULES};

use crate::assign::{greatest, placed};
use crate::search::held;
use crate::table::{counts, table};
use pd_types::{NoMemory, RegionBeat, Rule, Rules};
use std::alloc::Global;
use store_table::Stores;

// Whether the rule has room: as many peers have a rule where its count is one less.
fn has_room(
    alloc: Global,
    table: &[Vec<bool>],
    counts: &[u32],
    given: &[Option<u32>],
    rule: usize,
) -> Result<bool, NoMemory>
    requires few { length counts.now ≤ MAX_RULES }
    requires known { rule < length counts.now }
    requires greatest { IsGreatest (suits table.now) (length table.now) counts.now given.now }
    ensures { IfOk result (λ room. IsTrue room ↔ HasRoom (suits table.now) (length table.now) counts.now rule) }
{
    let count = counts[rule];
    if (held(given, rule as u32) as u64) < u64::from(count) {
        return Ok(true);
    }
    if count == 0 {
        return Ok(false);
    }
    let mut fewer = Vec::from_slice(alloc, counts)?;
    fewer[rule] = count - 1;
    let other = greatest(alloc, table, &fewer)?;
    Ok(placed(&other.given) == placed(given))
}

// Which rules have room, beside an assignment that gives the most peers a rule.
fn rooms_beside(
    alloc: Global,
    table: &[Vec<bool>],
    counts: &[u32],
    given: &[Option<u32>],
) -> Result<Vec<bool>, NoMemory>
    requires few { length counts.now ≤ MAX_RULES }
    requires greatest { IsGreatest (suits table.now) (length table.now) counts.now given.now }
    ensures { IfOk result (λ rooms. AreRooms (suits table.now) (length table.now) counts.now rooms.items) }
{
    let mut rooms = Vec::new(alloc);
    for rule in 0..counts.len() {
        let room = has_room(alloc, table, counts, given, rule)?;
        rooms.push(room)?;
    }
    Ok(rooms)
}

// Which of the rules have room in the region.
fn rooms_of(
    alloc: Global,
    beat: &RegionBeat,
    rules: &[Rule],
    stores: &Stores,
    now: u64,
) -> Result<Vec<bool>, NoMemory>
    requires { length rules.now ≤ MAX_RULES }
    ensures { IfOk result (λ rooms. AreRoomsIn (question beat.now rules.now stores.now now) rooms.items) }
{
    let peers = beat.region.peers.as_slice();
    let table = table(alloc, beat.leader, stores, now, peers, rules)?;
    let counts = counts(alloc, rules)?;
    let found = greatest(alloc, &table, &counts)?;
    rooms_beside(alloc, &table, &counts, &found.given)
}

/// Which rules have room for one peer more, in their order: those that can have fewer than their
/// count while the most peers of the region have a rule. One peer more lowers the misfit number
/// where it suits such a rule, and only there. It may be called as `fit` may.
pub fn rooms(
    alloc: Global,
    beat: &RegionBeat,
    rules: &Rules,
    stores: &Stores,
    now: u64,
) -> Result<Vec<bool>, NoMemory>
    requires rules { length rules.now ≤ MAX_RULES }
    ensures value { IfOk result (λ rooms. AreRoomsIn (question beat.now rules.now stores.now now) rooms.items) }
{
    rooms_of(alloc, beat, rules.as_slice(), stores, now)
}
