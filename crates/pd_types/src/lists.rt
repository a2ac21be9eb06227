// Lists that contracts see as lists.
ghost use Rattle.std.specs.Prelude.{◌≡◌, List, [], ◌∷◌, ◌++◌, length, IsTrue, ◌↔◌, IfOk, OnOk, OnErr};
ghost use Rattle.std.specs.Cmp.Lexicographic.{pointwise};
ghost use Rattle.std.specs.Cmp.Lexicographic.{lists_per};

use crate::{
    Batch, Constraint, DownPeer, Label, NoMemory, Peer, Rule, Step, StepMsg, Text, Window,
};
use std::alloc::Global;
use std::marker::Model;

/// A list that keeps its allocator. Contracts see it as a list, and so each record that holds one.
#[derive(Debug, Drop)]
pub struct Seq<T> {
    items: Vec<T>,
}

impl<T> Model for Seq<T> {
    ghost Value = { List T };

    ghost view = { λ s. s.items.items };
}

/// Bytes, as a key or a text that was read.
pub type Bytes = Seq<u8>;

pub type Batches = Seq<Batch>;

pub type Constraints = Seq<Constraint>;

pub type Downs = Seq<DownPeer>;

/// Ids of peers, regions or stores.
pub type Ids = Seq<u64>;

pub type Keys = Seq<Bytes>;

pub type Labels = Seq<Label>;

pub type Peers = Seq<Peer>;

pub type Rules = Seq<Rule>;

pub type Steps = Seq<Step>;

pub type StepMsgs = Seq<StepMsg>;

pub type Texts = Seq<Text>;

pub type Windows = Seq<Window>;

impl<T> Seq<T> {
    /// The empty list. It takes no memory before the first `push`.
    pub fn new(alloc: Global) -> Self
        ensures value { result ≡ [] }
    {
        Seq {
            items: Vec::new(alloc),
        }
    }

    /// The list of these items, without taking memory.
    pub fn of(items: Vec<T>) -> Self
        ensures value { result ≡ items.items }
    {
        Seq { items }
    }

    /// Gives the items back, without taking memory.
    pub fn into_vec(self) -> Vec<T>
        ensures value { result.items ≡ self }
    {
        self.items
    }

    /// The items, in their order.
    pub fn as_slice(&self) -> &[T]
        ensures value { result.now ≡ self.now }
    {
        &self.items
    }

    /// How many items it has.
    pub fn len(&self) -> usize
        ensures value { result ≡ length self.now }
    {
        self.items.len()
    }

    /// Whether it has no item.
    pub fn is_empty(&self) -> bool
        ensures empty { IsTrue result ↔ (self.now ≡ []) }
    {
        self.items.is_empty()
    }

    /// Puts an item at the end. Want of memory leaves the list.
    pub fn push(&mut self, item: T) -> Result<(), NoMemory>
    where
        T: Drop,
        ensures ok { OnOk result (self.new ≡ self.old ++ item ∷ []) }
        ensures err { OnErr result (self.new ≡ self.old) }
    {
        self.items.push(item)?;
        Ok(())
    }
}

/// A record that can be copied where memory is left.
pub trait Duplicate: Sized {
    /// An equal record.
    fn copy(&self, alloc: Global) -> Result<Self, NoMemory>
        ensures { IfOk result (λ copy. copy ≡ self.now) };
}

impl Duplicate for u64 {
    fn copy(&self, _alloc: Global) -> Result<u64, NoMemory> {
        Ok(*self)
    }
}

impl Duplicate for u8 {
    fn copy(&self, _alloc: Global) -> Result<u8, NoMemory> {
        Ok(*self)
    }
}

// Equal items.
fn copy_all<T: Duplicate + Drop>(alloc: Global, items: &[T]) -> Result<Vec<T>, NoMemory>
    ensures { IfOk result (λ copies. copies.items ≡ items.now) }
{
    let mut copies = Vec::new(alloc);
    for item in items {
        copies.push(item.copy(alloc)?)?;
    }
    Ok(copies)
}

impl<T: Duplicate + Drop> Duplicate for Seq<T> {
    fn copy(&self, alloc: Global) -> Result<Seq<T>, NoMemory> {
        let items = copy_all(alloc, &self.items)?;
        Ok(Seq { items })
    }
}

impl<T: PartialEq> PartialEq for Seq<T> {
    ghost eq = { λ x y. pointwise T.eq x y };

    ghost laws = { lists_per T.laws };

    fn eq(&self, other: &Self) -> bool {
        self.items == other.items
    }
}
