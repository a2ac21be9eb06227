// The streams of a cluster to its stores.
ghost use Rattle.std.specs.Prelude.{◌≡◌, ◌++◌, ◌∷◌, [], ◌≤◌, ◌⊎◌, length};
ghost use Rattle.std.specs.Arc.{arc_value};
ghost use Rattle.std.specs.List.{AllZip};
ghost use mathlib.Core.List.{IsPrefix};
ghost use Rattle.step_stream.specs.declared.stream.TheConstants.{PLACES};
ghost use Rattle.pd_shared.specs.Outlets.{outlet_of, TookUp};

use pd_types::StepMsg;
use std::alloc::Global;
use std::marker::Model;
use std::sync::{Arc, Wait};
use step_stream::{Giver, Stream, Taker};

/// A stream from a cluster to one store, with its end that pushes. Contracts see the store, which stream
/// it is, and what was pushed.
#[derive(Drop)]
pub struct Outlet {
    store: u64,
    stream: Arc<Stream, Global>,
    giver: Giver,
}

impl Model for Outlet {
    ghost use Rattle.std.specs.Prelude.{◌≡◌};
    ghost use Rattle.std.specs.Arc.{arc_value};
    ghost use Rattle.pd_shared.specs.Outlets.{OutletValue, outlet_of};

    ghost Value = { OutletValue };

    ghost view = { λ o. outlet_of o.store o.giver.stream o.giver.list };

    ghost invariant = { λ o. o.giver.stream ≡ arc_value o.stream };
}

/// The outlets of a cluster, one for each store that has a stream.
pub type Givers = Vec<Outlet>;

impl Outlet {
    /// The outlet to a store, of a stream and its end that pushes.
    pub fn new(store: u64, stream: Arc<Stream, Global>, giver: Giver) -> Outlet
        requires stream { giver.stream ≡ arc_value stream }
        ensures value { result ≡ outlet_of store giver.stream giver.list }
    {
        Outlet {
            store,
            stream,
            giver,
        }
    }

    /// The store.
    pub fn store(&self) -> u64
        ensures value { result ≡ self.now.store }
    {
        self.store
    }

    /// Takes in the end that popped, which pops no more: what it popped is a prefix of what was pushed.
    pub fn settle<R: Wait>(&mut self, rt: &R, taker: Taker)
        requires stream { taker.stream ≡ self.old.stream }
        ensures same { self.new ≡ self.old }
        ensures prefix { IsPrefix taker.list self.old.pushed }
    {
        self.stream.settle(rt, &mut self.giver, taker);
    }

    // Pushes a step, unless 64 wait for the store.
    fn push<R: Wait>(&mut self, rt: &R, msg: StepMsg)
        ensures store { self.new.store ≡ self.old.store }
        ensures stream { self.new.stream ≡ self.old.stream }
        ensures pushed { (self.new.pushed ≡ self.old.pushed ++ msg ∷ []) ⊎ ((self.new.pushed ≡ self.old.pushed) × (PLACES ≤ length self.old.pushed)) }
    {
        let _back = self.stream.push(rt, &mut self.giver, msg);
    }

    // Takes up a step: pushes it where it goes to the outlet's store, and finds room.
    fn offer<R: Wait>(&mut self, rt: &R, msg: StepMsg)
        ensures took { TookUp (msg ∷ []) self.old self.new }
    {
        if msg.to == self.store() {
            self.push(rt, msg);
        }
    }

    // Takes up steps one after another.
    fn take_up<R: Wait>(&mut self, rt: &R, sends: &[StepMsg])
        ensures took { TookUp sends.now self.old self.new }
    {
        for msg in sends {
            self.offer(rt, *msg);
        }
    }
}

/// Each outlet pushes those of the steps that go to its store and find room, in their order.
pub fn push_all<R: Wait>(rt: &R, givers: &mut Givers, sends: &[StepMsg])
    ensures took { AllZip (TookUp sends.now) givers.old.items givers.new.items }
{
    for outlet in givers.iter_mut() {
        outlet.take_up(rt, sends);
    }
}
