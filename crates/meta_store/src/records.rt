// The records by rising key.
ghost use Rattle.std.specs.Prelude.{◌≡◌, ◌+◌, ◌<◌, ◌≤◌, ℕ, [], true, false, filter, length, map, slice_index_or, option_copied, IfOk, IfErr, OnOk, OnErr};
ghost use Rattle.pd_types.specs.Keys.{is_below};
ghost use Rattle.meta_store.specs.declared.record.Cell.{Cell};
ghost use Rattle.meta_store.specs.Cells.{AreRising, begins_with, cell_at, placed, without};
ghost use Rattle.meta_store.specs.Known.{bare};
ghost use Rattle.meta_store.specs.Places.{Parts, Stands};

use crate::{Cell, Cells};
use pd_types::{Bytes, Duplicate, NoMemory, Seq};
use std::alloc::Global;
use std::marker::Model;

// A record in a block of its own, so that the list of them moves as pointers.
#[derive(Drop)]
struct Held {
    cell: Box<Cell>,
}

impl Model for Held {
    ghost use Rattle.meta_store.specs.declared.record.Cell.{Cell};

    ghost Value = { Cell };

    ghost view = { λ h. h.cell.value };
}

impl Held {
    fn cell(&self) -> &Cell
        ensures value { result.now ≡ self.now }
    {
        &self.cell
    }
}

/// The records, by rising key. Contracts see them as a list.
#[derive(Drop)]
pub struct Records {
    held: Vec<Held>,
}

impl Model for Records {
    ghost use Rattle.std.specs.Prelude.{List};
    ghost use Rattle.meta_store.specs.declared.record.Cell.{Cell};
    ghost use Rattle.meta_store.specs.Cells.{AreRising};

    ghost Value = { List Cell };

    ghost view = { λ r. r.held.items };

    ghost invariant = { λ r. AreRising r.held.items };
}

// Whether a key is below another, byte by byte.
fn is_below(key: &[u8], other: &[u8]) -> bool
    ensures value { result ≡ is_below key.now other.now }
{
    key.cmp(other).is_lt()
}

// How many records have a lesser key.
fn lesser(held: &[Held], key: &[u8]) -> usize
    requires { AreRising held.now }
    ensures bound { result ≤ length held.now }
    ensures before { (k : ℕ) (d : Cell) → k < result → is_below (slice_index_or held.now k d).key key.now ≡ true }
    ensures after { (k : ℕ) (d : Cell) → result ≤ k → k < length held.now → is_below (slice_index_or held.now k d).key key.now ≡ false }
{
    held.partition_point(|one| is_below(one.cell().key.as_slice(), key))
}

// The place of the key's record, or where it would stand.
fn search(held: &[Held], key: &[u8]) -> Result<usize, usize>
    requires { AreRising held.now }
    ensures found { IfOk result (Stands key.now held.now) }
    ensures absent { IfErr result (λ place. Parts key.now held.now place place) }
{
    let place = lesser(held, key);
    match held.get(place) {
        Some(one) if one.cell().key.as_slice() == key => Ok(place),
        _ => Err(place),
    }
}

// The record of a key.
fn find<'a>(held: &'a [Held], key: &[u8]) -> Option<&'a Cell>
    requires { AreRising held.now }
    ensures value { option_copied result ≡ cell_at key.now held.now }
{
    match search(held, key) {
        Ok(place) => Some(held[place].cell()),
        Err(_) => None,
    }
}

// Puts a record in its place.
fn put_in(alloc: Global, held: &mut Vec<Held>, cell: Cell) -> Result<(), NoMemory>
    requires { AreRising held.old.items }
    ensures ok { OnOk result (held.new.items ≡ placed cell held.old.items) }
    ensures err { OnErr result (held.new.items ≡ held.old.items) }
    ensures rising { AreRising held.new.items }
{
    let found = search(held, cell.key.as_slice());
    let one = Held {
        cell: Box::new(alloc, cell)?,
    };
    match found {
        Ok(place) => held[place] = one,
        Err(place) => held.insert(place, one)?,
    }
    Ok(())
}

// Takes the record of a key out.
fn take_out(held: &mut Vec<Held>, key: &[u8])
    requires { AreRising held.old.items }
    ensures value { held.new.items ≡ without key.now held.old.items }
    ensures rising { AreRising held.new.items }
{
    match search(held, key) {
        Ok(place) => {
            let _ = held.remove(place);
        }
        Err(_) => {}
    }
}

impl Records {
    /// No records. It takes no memory.
    pub fn new(alloc: Global) -> Records
        ensures value { result ≡ [] }
    {
        Records {
            held: Vec::new(alloc),
        }
    }

    /// These records without their bytes.
    pub fn bare(alloc: Global, cells: &[Cell]) -> Result<Records, NoMemory>
        requires { AreRising cells.now }
        ensures value { IfOk result (λ records. records ≡ map bare cells.now) }
    {
        let mut held = Vec::with_capacity(alloc, cells.len())?;
        for cell in cells {
            let cell = Cell {
                key: cell.key.copy(alloc)?,
                revision: cell.revision,
                bytes: Bytes::new(alloc),
            };
            held.push(Held {
                cell: Box::new(alloc, cell)?,
            })?;
        }
        Ok(Records { held })
    }

    /// How many records there are.
    pub fn len(&self) -> usize
        ensures value { result ≡ length self.now }
    {
        self.held.len()
    }

    /// The record of a key.
    pub fn get(&self, key: &[u8]) -> Option<&Cell>
        ensures value { option_copied result ≡ cell_at key.now self.now }
    {
        find(&self.held, key)
    }

    /// Puts a record in its place. Want of memory leaves the records.
    pub fn put(&mut self, alloc: Global, cell: Cell) -> Result<(), NoMemory>
        ensures ok { OnOk result (self.new ≡ placed cell self.old) }
        ensures err { OnErr result (self.new ≡ self.old) }
    {
        put_in(alloc, &mut self.held, cell)
    }

    /// Takes the record of a key out, where it has one. It takes no memory.
    pub fn remove(&mut self, key: &[u8])
        ensures value { self.new ≡ without key.now self.old }
    {
        take_out(&mut self.held, key);
    }

    /// Copies of the records whose keys begin with the prefix, by rising key.
    pub fn under(&self, alloc: Global, prefix: &[u8]) -> Result<Cells, NoMemory>
        ensures value { IfOk result (λ cells. cells ≡ filter (λ cell. begins_with prefix.now cell.key) self.now) }
        ensures rising { AreRising self.now }
    {
        let mut cells = Vec::new(alloc);
        for one in &self.held {
            if one.cell().key.as_slice().starts_with(prefix) {
                cells.push(one.cell().copy(alloc)?)?;
            }
        }
        Ok(Seq::of(cells))
    }

    /// Copies of all records, by rising key.
    pub fn copy(&self, alloc: Global) -> Result<Cells, NoMemory>
        ensures value { IfOk result (λ cells. cells ≡ self.now) }
        ensures rising { AreRising self.now }
    {
        let mut cells = Vec::new(alloc);
        for one in &self.held {
            cells.push(one.cell().copy(alloc)?)?;
        }
        Ok(Seq::of(cells))
    }
}
