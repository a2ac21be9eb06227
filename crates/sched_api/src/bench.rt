// Schedulers that are asked in turn.
ghost use Rattle.std.specs.Prelude.{◌≡◌, ◌↔◌, ◌≢◌, ◌≤◌, ◌<◌, ◌-◌, [], length, map, IfOk, IfSome, IfNone, OnOk, OnErr, IsNone, IsErr, All, slice_get, Some, None, ℕ, List, IsTrue};
ghost use Rattle.sched_api.specs.Benches.{Seat, Seats, TakesTurn, SaysNothing, StaysLast, Tells, Drops, names_of, reach, seat_of, next_place, place_without, IsFirstPlace};
ghost use Rattle.sched_api.specs.Schedulers.{more_by_one};

use crate::{Absent, Fate, Said, Scheduler};
use heartbeat::Standing;
use pd_types::{Duplicate, Ids, NoMemory, Text, Texts};
use rule_set::RuleSet;
use std::alloc::Global;
use store_table::Stores;

/// Schedulers that are asked in turn, round the list. Contracts see them as `Seats`.
#[derive(Drop)]
pub struct Bench {
    schedulers: Vec<Box<dyn Scheduler + Send>>,
    next: usize,
    /// The place of the scheduler that was asked last, while it is there.
    last: Option<usize>,
    said: Vec<Said>,
    alloc: Global,
    ghost in_turn: { next ≤ length schedulers.items - 1 },
    ghost in_list: { reach last ≤ length schedulers.items },
}

/// Schedulers that are asked in turn. Contracts see each by its own meanings, in the order of the list,
/// the places of the next in turn and of the one asked last, and all that was said. Who asks a bench is
/// generic in it: a function of another crate that takes boxed schedulers counts as one that may make
/// some.
pub trait Seated {
    ghost use Rattle.std.specs.Prelude.{◌≡◌, ◌↔◌, ◌≢◌, [], All, IfNone, IfOk, IfSome, IsErr, IsNone, List, OnErr, OnOk, ℕ};
    ghost use Rattle.sched_api.specs.Benches.{Drops, SaysNothing, Seats, TakesTurn, Tells, names_of};

    ghost seats: { Self → Seats };

    /// Asks the scheduler whose turn it is, and says its answer under its name. None comes exactly
    /// from a bench without schedulers. Want of memory leaves the names, the turn, who is told and what
    /// was said; the scheduler may have been asked.
    fn run_next(
        &mut self,
        stores: &Stores,
        standing: &Standing,
        rules: &RuleSet,
        busy: &Ids,
        now: u64,
    ) -> Result<Option<Said>, NoMemory>
        ensures turn { IfOk result (λ said. IfSome said (TakesTurn (seats self.old) (seats self.new) now)) }
        ensures none { IfOk result (λ said. IsNone said ↔ ((seats self.old).list ≡ [])) }
        ensures empty { IfOk result (λ said. IfNone said (seats self.new ≡ seats self.old)) }
        ensures err { OnErr result (SaysNothing (seats self.old) (seats self.new)) };

    /// Tells the scheduler that was asked last what became of its proposal. Nobody is told where it
    /// was removed, or where none was asked.
    fn tell_last(&mut self, fate: Fate)
        ensures tells { Tells fate (seats self.old) (seats self.new) };

    /// Drops the first scheduler of this name. The one whose turn is next stays the next; where it is
    /// the one dropped, the one after it is.
    fn remove(&mut self, name: &[u8]) -> Result<(), Absent>
        ensures ok { OnOk result (Drops name.now (seats self.old) (seats self.new)) }
        ensures absent { IsErr result ↔ All (λ (one : List ℕ). one ≢ name.now) (names_of (seats self.old)) }
        ensures err { OnErr result (seats self.new ≡ seats self.old) };

    /// The names, in the order of the list.
    fn names(&self) -> Result<Texts, NoMemory>
        ensures value { IfOk result (λ names. names ≡ names_of (seats self.now)) };
}

impl Seated for Bench {
    ghost use Rattle.std.specs.Prelude.{map};
    ghost use Rattle.sched_api.specs.Benches.{seat_of};

    ghost seats = { λ bench. record {
      list = map (λ one. seat_of ((Scheduler-box one).name one.value) ((Scheduler-box one).last one.value) ((Scheduler-box one).asks one.value) ((Scheduler-box one).at one.value) ((Scheduler-box one).heard one.value)) bench.schedulers.items;
      next = bench.next;
      last = bench.last;
      said = bench.said.items;
    } };

    fn run_next(
        &mut self,
        stores: &Stores,
        standing: &Standing,
        rules: &RuleSet,
        busy: &Ids,
        now: u64,
    ) -> Result<Option<Said>, NoMemory> {
        Bench::run_next(self, stores, standing, rules, busy, now)
    }

    fn tell_last(&mut self, fate: Fate) {
        Bench::tell_last(self, fate);
    }

    fn remove(&mut self, name: &[u8]) -> Result<(), Absent> {
        Bench::remove(self, name)
    }

    fn names(&self) -> Result<Texts, NoMemory> {
        Bench::names(self)
    }
}

// Asks a scheduler, and says its answer under its name.
fn ask(
    alloc: Global,
    one: &mut Box<dyn Scheduler + Send>,
    stores: &Stores,
    standing: &Standing,
    rules: &RuleSet,
    busy: &Ids,
    now: u64,
) -> Result<Said, NoMemory>
    ensures named { IfOk result (λ said. said.name ≡ name one.new) }
    ensures answer { IfOk result (λ said. said.proposal ≡ last one.new) }
    ensures asks { OnOk result (asks one.new ≡ more_by_one (asks one.old)) }
    ensures at { OnOk result (at one.new ≡ now) }
    ensures heard { OnOk result (heard one.new ≡ None) }
    ensures name { name one.new ≡ name one.old }
{
    let name = one.name().copy(alloc)?;
    let proposal = one.propose(stores, standing, rules, busy, now)?;
    Ok(Said { name, proposal })
}

// Tells a scheduler what became of its last proposal.
fn tell(one: &mut Box<dyn Scheduler + Send>, fate: Fate)
    ensures heard { heard one.new ≡ Some fate }
    ensures name { name one.new ≡ name one.old }
    ensures last { last one.new ≡ last one.old }
    ensures asks { asks one.new ≡ asks one.old }
    ensures at { at one.new ≡ at one.old }
{
    one.note(fate);
}

// Whether the scheduler has this name.
fn is_named(one: &Box<dyn Scheduler + Send>, wanted: &[u8]) -> bool
    ensures { IsTrue result ↔ (name one.now ≡ wanted.now) }
{
    one.name().as_bytes() == wanted
}

// The place of the first scheduler of this name.
fn place_of(schedulers: &[Box<dyn Scheduler + Send>], wanted: &[u8]) -> Option<usize>
    ensures { IsFirstPlace wanted.now (map (λ one. seat_of ((Scheduler-box one).name one.value) ((Scheduler-box one).last one.value) ((Scheduler-box one).asks one.value) ((Scheduler-box one).at one.value) ((Scheduler-box one).heard one.value)) schedulers.now) result }
{
    for (place, one) in schedulers.iter().enumerate() {
        if is_named(one, wanted) {
            return Some(place);
        }
    }
    None
}

// The place behind this one, round a list of this length.
fn behind(place: usize, len: usize) -> usize
    requires { place < len }
    ensures { result ≡ next_place place len }
{
    if place + 1 < len { place + 1 } else { 0 }
}

// The next place in turn, once another is gone from the list, which has this length now.
fn next_without(gone: usize, next: usize, len: usize) -> usize
    ensures { result ≡ place_without gone next len }
{
    if gone < next {
        next - 1
    } else if next < len {
        next
    } else {
        0
    }
}

// The place of the scheduler that was asked last, once another is gone.
fn last_without(gone: usize, last: Option<usize>) -> Option<usize>
    ensures { StaysLast gone last result }
{
    match last {
        Some(place) if gone < place => Some(place - 1),
        Some(place) if place < gone => Some(place),
        _ => None,
    }
}

impl Bench {
    /// A bench without schedulers. It takes no memory.
    pub fn empty(alloc: Global) -> Bench
        ensures list { (⟦<Bench as Seated>⟧.seats result).list ≡ [] }
        ensures next { (⟦<Bench as Seated>⟧.seats result).next ≡ 0 }
        ensures last { (⟦<Bench as Seated>⟧.seats result).last ≡ None }
        ensures said { (⟦<Bench as Seated>⟧.seats result).said ≡ [] }
    {
        Bench::of(alloc, Vec::new(alloc))
    }

    /// A bench of these schedulers, of which the first is the next in turn. It takes no memory.
    pub fn of(alloc: Global, list: Vec<Box<dyn Scheduler + Send>>) -> Bench
        ensures list { (⟦<Bench as Seated>⟧.seats result).list ≡ map (λ one. seat_of ((Scheduler-box one).name one.value) ((Scheduler-box one).last one.value) ((Scheduler-box one).asks one.value) ((Scheduler-box one).at one.value) ((Scheduler-box one).heard one.value)) list.items }
        ensures next { (⟦<Bench as Seated>⟧.seats result).next ≡ 0 }
        ensures last { (⟦<Bench as Seated>⟧.seats result).last ≡ None }
        ensures said { (⟦<Bench as Seated>⟧.seats result).said ≡ [] }
    {
        Bench {
            schedulers: list,
            next: 0,
            last: None,
            said: Vec::new(alloc),
            alloc,
        }
    }

    /// Asks the scheduler whose turn it is, and says its answer under its name. None comes exactly
    /// from a bench without schedulers. Want of memory leaves the names, the turn, who is told and what
    /// was said; the scheduler may have been asked.
    pub fn run_next(
        &mut self,
        stores: &Stores,
        standing: &Standing,
        rules: &RuleSet,
        busy: &Ids,
        now: u64,
    ) -> Result<Option<Said>, NoMemory>
        ensures turn { IfOk result (λ said. IfSome said (TakesTurn (⟦<Bench as Seated>⟧.seats self.old) (⟦<Bench as Seated>⟧.seats self.new) now)) }
        ensures none { IfOk result (λ said. IsNone said ↔ ((⟦<Bench as Seated>⟧.seats self.old).list ≡ [])) }
        ensures empty { IfOk result (λ said. IfNone said (⟦<Bench as Seated>⟧.seats self.new ≡ ⟦<Bench as Seated>⟧.seats self.old)) }
        ensures err { OnErr result (SaysNothing (⟦<Bench as Seated>⟧.seats self.old) (⟦<Bench as Seated>⟧.seats self.new)) }
    {
        if self.schedulers.is_empty() {
            return Ok(None);
        }
        self.said.reserve(1)?;
        let place = self.next;
        let alloc = self.alloc;
        let answer = ask(
            alloc,
            &mut self.schedulers[place],
            stores,
            standing,
            rules,
            busy,
            now,
        )?;
        let said = answer.copy(alloc)?;
        self.said.push_reserved(said);
        self.last = Some(place);
        self.next = behind(place, self.schedulers.len());
        Ok(Some(answer))
    }

    /// Tells the scheduler that was asked last what became of its proposal. Nobody is told where it
    /// was removed, or where none was asked.
    pub fn tell_last(&mut self, fate: Fate)
        ensures tells { Tells fate (⟦<Bench as Seated>⟧.seats self.old) (⟦<Bench as Seated>⟧.seats self.new) }
    {
        if let Some(place) = self.last {
            tell(&mut self.schedulers[place], fate);
        }
    }

    /// Drops the first scheduler of this name. The one whose turn is next stays the next; where it is
    /// the one dropped, the one after it is.
    pub fn remove(&mut self, name: &[u8]) -> Result<(), Absent>
        ensures ok { OnOk result (Drops name.now (⟦<Bench as Seated>⟧.seats self.old) (⟦<Bench as Seated>⟧.seats self.new)) }
        ensures absent { IsErr result ↔ All (λ (one : List ℕ). one ≢ name.now) (names_of (⟦<Bench as Seated>⟧.seats self.old)) }
        ensures err { OnErr result (⟦<Bench as Seated>⟧.seats self.new ≡ ⟦<Bench as Seated>⟧.seats self.old) }
    {
        let Some(place) = place_of(&self.schedulers, name) else {
            return Err(Absent);
        };
        drop(self.schedulers.remove(place));
        self.next = next_without(place, self.next, self.schedulers.len());
        self.last = last_without(place, self.last);
        Ok(())
    }

    /// The names, in the order of the list.
    pub fn names(&self) -> Result<Texts, NoMemory>
        ensures value { IfOk result (λ names. names ≡ names_of (⟦<Bench as Seated>⟧.seats self.now)) }
    {
        let mut names = Texts::new(self.alloc);
        for one in &self.schedulers {
            names.push(name_of(self.alloc, one)?)?;
        }
        Ok(names)
    }

    /// All that was said, in order.
    pub fn said(&self) -> &[Said]
        ensures value { result.now ≡ (⟦<Bench as Seated>⟧.seats self.now).said }
    {
        &self.said
    }
}

// A copy of a scheduler's name.
fn name_of(alloc: Global, one: &Box<dyn Scheduler + Send>) -> Result<Text, NoMemory>
    ensures { IfOk result (λ copy. copy ≡ name one.now) }
{
    one.name().copy(alloc)
}
