// The stream and its two ends.
ghost use Rattle.std.specs.Prelude.{◌≡◌, ◌++◌, ◌∷◌, [], ◌≤◌, length, IfOk, IfErr, IfNone, IfSome, OnOk};
ghost use mathlib.Core.List.{IsPrefix};
ghost use Rattle.step_stream.specs.Streams.{end_value, longer, taker_value};

use crate::rule::{Ends, InOrder, Notes, Popping, Pushing, Settling, View};
use crossbeam_queue::{Pass, RuledArrayQueue};
use pd_types::{NoMemory, StepMsg};
use std::alloc::Global;
use std::marker::Model;
use std::sync::Wait;

/// How many steps wait in a stream at most.
pub const PLACES: usize = 64;

const _: () = prove!(PLACES == 64);

/// A stream of steps to one store. Contracts see which it is.
#[derive(Drop)]
pub struct Stream {
    queue: RuledArrayQueue<StepMsg, View, InOrder>,
}

impl Model for Stream {
    ghost use Rattle.std.specs.Prelude.{◌≡◌};
    ghost use Rattle.atomic_table.specs.Seated.{TableId};
    ghost use Rattle.step_stream.specs.declared.stream.TheConstants.{PLACES};

    ghost Value = { TableId };

    ghost view = { λ s. s.queue.table.shared.table_id };

    ghost invariant = { λ s. s.queue.cap ≡ PLACES };
}

/// The one end that pushes. Contracts see its stream and what it pushed.
#[derive(Drop)]
pub struct Giver {
    pass: Pass<StepMsg, View>,
}

impl Model for Giver {
    ghost use Rattle.std.specs.Prelude.{◌≡◌, true, []};
    ghost use Rattle.step_stream.specs.Streams.{EndValue, end_value};

    ghost Value = { EndValue };

    ghost view = { λ g. end_value g.pass.table_id g.pass.me.0.client.pushed };

    ghost invariant = { λ g. (g.pass.me.1 ≡ []) × (g.pass.me.0.client.gives ≡ true) };
}

/// The one end that pops. Contracts see its stream, what it popped, and what it knows to have been
/// pushed.
#[derive(Drop)]
pub struct Taker {
    pass: Pass<StepMsg, View>,
}

impl Model for Taker {
    ghost use Rattle.std.specs.Prelude.{◌≡◌, true, []};
    ghost use Rattle.step_stream.specs.Streams.{TakerValue, taker_value};

    ghost Value = { TakerValue };

    ghost view = { λ t. taker_value t.pass.table_id t.pass.me.0.client.popped t.pass.me.0.client.known };

    ghost invariant = { λ t. (t.pass.me.1 ≡ []) × (t.pass.me.0.client.takes ≡ true) };
}

/// A note of what had been pushed when it was made. Contracts see its stream and those steps.
#[derive(Drop)]
pub struct Note {
    pass: Pass<StepMsg, View>,
}

impl Model for Note {
    ghost use Rattle.std.specs.Prelude.{◌≡◌, []};
    ghost use Rattle.step_stream.specs.Streams.{EndValue, end_value};

    ghost Value = { EndValue };

    ghost view = { λ n. end_value n.pass.table_id n.pass.me.0.client.known };

    ghost invariant = { λ n. n.pass.me.1 ≡ [] };
}

impl Stream {
    /// An empty stream with its two ends, by which nothing was pushed or popped.
    pub fn open(alloc: Global) -> Result<(Stream, Giver, Taker), NoMemory>
        ensures ends { IfOk result (λ opened. (opened.1 ≡ end_value opened.0 []) × (opened.2 ≡ taker_value opened.0 [] [])) }
    {
        let (queue, mut pass) = RuledArrayQueue::<StepMsg, View, InOrder>::ruled(alloc, PLACES)?;
        let taker = queue.another::<Ends>(&mut pass);
        Ok((Stream { queue }, Giver { pass }, Taker { pass: taker }))
    }

    /// Pushes a step. It comes back only where 64 steps waited at one moment of the call, so that 64 or
    /// more were pushed before; then nothing was pushed.
    pub fn push<R: Wait>(&self, rt: &R, giver: &mut Giver, msg: StepMsg) -> Result<(), StepMsg>
        requires stream { giver.old.stream ≡ self.now }
        ensures ok { OnOk result (giver.new ≡ end_value self.now (giver.old.list ++ msg ∷ [])) }
        ensures full { IfErr result (λ back. (back ≡ msg) × (giver.new ≡ giver.old) × (PLACES ≤ length giver.old.list)) }
    {
        self.queue.push_as::<Pushing, R>(rt, &mut giver.pass, msg)
    }

    /// Pops the oldest step that waits. None comes only where none waited at one moment of the call, so
    /// that all that the taker knew to have been pushed was popped; then nothing was popped.
    pub fn pop<R: Wait>(&self, rt: &R, taker: &mut Taker) -> Option<StepMsg>
        requires stream { taker.old.stream ≡ self.now }
        ensures some { IfSome result (λ msg. taker.new ≡ taker_value self.now (taker.old.list ++ msg ∷ []) taker.old.known) }
        ensures none { IfNone result (taker.new ≡ taker.old) }
        ensures empty { IfNone result (IsPrefix taker.old.known taker.old.list) }
    {
        self.queue.pop_as::<Popping, R>(rt, &mut taker.pass)
    }

    /// A note of what was pushed by now.
    pub fn note(&self, giver: &mut Giver) -> Note
        requires stream { giver.old.stream ≡ self.now }
        ensures note { result ≡ end_value self.now giver.old.list }
        ensures same { giver.new ≡ giver.old }
    {
        Note {
            pass: self.queue.another::<Notes>(&mut giver.pass),
        }
    }

    /// Tells the taker what the note knows: from then on it pops none only once it has popped that.
    pub fn meet(&self, taker: &mut Taker, note: Note)
        requires taker { taker.old.stream ≡ self.now }
        requires note { note.stream ≡ self.now }
        ensures known { taker.new ≡ taker_value self.now taker.old.list (longer taker.old.known note.list) }
    {
        let Note { pass } = note;
        self.queue.absorb::<Notes>(&mut taker.pass, pass);
    }

    /// Takes the taker in, which pops no more: what it popped is a prefix of what was pushed.
    pub fn settle<R: Wait>(&self, rt: &R, giver: &mut Giver, taker: Taker)
        requires giver { giver.old.stream ≡ self.now }
        requires taker { taker.stream ≡ self.now }
        ensures same { giver.new ≡ giver.old }
        ensures prefix { IsPrefix taker.list giver.old.list }
    {
        // What the call asks of a runtime is the same for all three; nothing waits here.
        let _ = rt;
        let Taker { pass } = taker;
        self.queue.absorb::<Ends>(&mut giver.pass, pass);
        self.queue.learn_as::<Settling>(&mut giver.pass);
    }
}
