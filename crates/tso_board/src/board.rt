ghost use Rattle.std.specs.Prelude.{◌≡◌, ℕ, ◌+◌, ◌*◌, ◌<◌, ◌≤◌, [], ◌∷◌, false, IfOk, List};
ghost use Rattle.pd_types.specs.declared.stamp.TheConstants.{LOGICAL};
ghost use Rattle.tso_model.specs.Ledger.{Gathered, HasAll};
ghost use Rattle.tso_model.specs.Moves.{first_words, gave_client, gave_driver, joined, new_client, new_driver};
ghost use Rattle.tso_model.specs.Sound.{IsSetup};
ghost use Rattle.tso_model.specs.Steps.{AtRest};

use crate::plays::{Meets, NewClient, NewDriver, OracleRule};
use atomic_table::{Seat, Table};
use pd_types::{CellWord, LOGICAL};
use std::alloc::{AllocError, Global};
use tso_model::{Setup, View};

/// The atomic words under the oracle's invariant.
pub(crate) type Words = Table<(), View, Setup, OracleRule, Global>;

/// The words of an oracle that many threads step on: the cell, and a limit and a cursor for each
/// driver.
#[derive(Drop)]
pub struct Board {
    pub(crate) table: Words,
    pub(crate) opening: CellWord,
    pub(crate) alloc: Global,
    ghost sized: { table.shared.table_id.words ≡ 1 + 2 * table.shared.key.drivers },
    ghost no_slots: { table.shared.table_id.slots ≡ 0 },
    ghost opens: { table.shared.key.cell ≡ opening },
    ghost some: { 0 < table.shared.key.drivers },
}

/// The words of a new oracle.
pub(crate) fn first_words(alloc: Global, setup: Setup) -> Result<Vec<u64>, AllocError>
    requires setup { IsSetup setup }
    ensures value { IfOk result (λ words. words.items ≡ first_words setup) }
{
    let mut words = Vec::new(alloc);
    words.push(setup.cell.saved * LOGICAL + setup.cell.term)?;
    for _ in 0..2 * setup.drivers as usize {
        words.push(0)?;
    }
    Ok(words)
}

/// Splits the next driver off.
pub(crate) fn split_driver(table: &Words, base: &mut Seat<(), View>) -> Seat<(), View>
    requires board { base.old.table_id ≡ table.now.shared.table_id }
    requires sized { table.now.shared.table_id.words ≡ 1 + 2 * table.now.shared.key.drivers }
    requires live { base.old.me.0.spent ≡ false }
    requires some { (d : ℕ) × (ds : List ℕ) × (base.old.me.0.give_drivers ≡ d ∷ ds) }
    ensures board { base.new.table_id ≡ base.old.table_id }
    ensures same_board { result.table_id ≡ table.now.shared.table_id }
    ensures base { base.new.me ≡ (gave_driver base.old.me.0, base.old.me.1) }
    ensures seat { result.me ≡ (new_driver base.old.me.0, []) }
{
    table.shared.split_seat::<NewDriver>(base)
}

/// Splits the next client off, where a client's quota is left.
pub(crate) fn split_client(table: &Words, base: &mut Seat<(), View>) -> Seat<(), View>
    requires board { base.old.table_id ≡ table.now.shared.table_id }
    requires sized { table.now.shared.table_id.words ≡ 1 + 2 * table.now.shared.key.drivers }
    requires live { base.old.me.0.spent ≡ false }
    requires some { (c : ℕ) × (cs : List ℕ) × (base.old.me.0.give_clients ≡ c ∷ cs) }
    requires quota { LOGICAL ≤ base.old.me.0.quota }
    requires armed { base.old.me.0.armed ≡ 0 }
    ensures board { base.new.table_id ≡ base.old.table_id }
    ensures same_board { result.table_id ≡ table.now.shared.table_id }
    ensures base { base.new.me ≡ (gave_client base.old.me.0, base.old.me.1) }
    ensures seat { result.me ≡ (new_client base.old.me.0, []) }
{
    table.shared.split_seat::<NewClient>(base)
}

/// Takes a seat into the base.
pub(crate) fn take_in(table: &Words, base: &mut Seat<(), View>, other: Seat<(), View>)
    requires board { base.old.table_id ≡ table.now.shared.table_id }
    requires sized { table.now.shared.table_id.words ≡ 1 + 2 * table.now.shared.key.drivers }
    requires other { other.table_id ≡ table.now.shared.table_id }
    requires empty { other.me.1 ≡ [] }
    requires live { base.old.me.0.spent ≡ false }
    requires other_live { other.me.0.spent ≡ false }
    requires rest { AtRest base.old.me.0 }
    ensures board { base.new.table_id ≡ base.old.table_id }
    ensures view { base.new.me ≡ (joined base.old.me.0 other.me.0, base.old.me.1) }
{
    table.shared.join_seat::<Meets>(base, other);
}

/// Ends the words: a base that took in all numbers has the entries of the whole run.
pub(crate) fn close(table: Words, base: Seat<(), View>)
    requires board { base.table_id ≡ table.shared.table_id }
    requires empty { base.me.1 ≡ [] }
    requires slots { table.shared.table_id.slots ≡ 0 }
    requires all { HasAll table.shared.key base.me.0 }
    ensures gathered { Gathered table.shared.key base.me.0 }
{
    table.close_with(base).free();
}
