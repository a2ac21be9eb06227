use crate::{Absent, Bench, Fate, Scheduler};
use heartbeat::Standing;
use pd_types::{Ids, NoMemory, Proposal, Seq, Text};
use rule_set::RuleSet;
use std::alloc::Global;
use std::test::Fail;
use store_table::Stores;

// Proposes the leader move of a region to the store of the moment's number; the region is the next one
// once its last proposal was added.
#[derive(Drop)]
struct Steady {
    name: Text,
    region: u64,
    last: Option<Proposal>,
    asks: u64,
    at: u64,
    heard: Option<Fate>,
}

impl Scheduler for Steady {
    ghost name = { λ s. s.name };

    ghost last = { λ s. s.last };

    ghost asks = { λ s. s.asks };

    ghost at = { λ s. s.at };

    ghost heard = { λ s. s.heard };

    fn name(&self) -> &Text {
        &self.name
    }

    fn propose(
        &mut self,
        _stores: &Stores,
        _standing: &Standing,
        _rules: &RuleSet,
        _busy: &Ids,
        now: u64,
    ) -> Result<Option<Proposal>, NoMemory> {
        self.asks = self.asks.saturating_add(1);
        self.at = now;
        self.heard = None;
        let region = self.region;
        self.last = Some(Proposal::MoveLeader { region, to: now });
        Ok(self.last)
    }

    fn note(&mut self, fate: Fate) {
        self.heard = Some(fate);
        match fate {
            Fate::Added(region) => self.region = region.saturating_add(1),
            Fate::Refused => {}
        }
    }
}

fn make_steady(alloc: Global, name: &str, region: u64) -> Result<Steady, Fail> {
    Ok(Steady {
        name: Text::of(String::from_str(alloc, name)?),
        region,
        last: None,
        asks: 0,
        at: 0,
        heard: None,
    })
}

// Wants memory whenever it is asked.
#[derive(Drop)]
struct Needy {
    name: Text,
    asks: u64,
    at: u64,
    heard: Option<Fate>,
}

impl Scheduler for Needy {
    ghost use Rattle.std.specs.Prelude.{None};

    ghost name = { λ s. s.name };

    ghost last = { λ _. None };

    ghost asks = { λ s. s.asks };

    ghost at = { λ s. s.at };

    ghost heard = { λ s. s.heard };

    fn name(&self) -> &Text {
        &self.name
    }

    fn propose(
        &mut self,
        _stores: &Stores,
        _standing: &Standing,
        _rules: &RuleSet,
        _busy: &Ids,
        now: u64,
    ) -> Result<Option<Proposal>, NoMemory> {
        self.asks = self.asks.saturating_add(1);
        self.at = now;
        self.heard = None;
        Err(NoMemory)
    }

    fn note(&mut self, fate: Fate) {
        self.heard = Some(fate);
    }
}

/// What a scheduler is asked over: no stores, no regions, the default rule.
#[derive(Drop)]
struct World {
    stores: Stores,
    standing: Standing,
    rules: RuleSet,
    busy: Ids,
}

fn empty_world(alloc: Global) -> Result<World, Fail> {
    Ok(World {
        stores: Stores::new(alloc),
        standing: Standing::new(alloc),
        rules: RuleSet::new(alloc)?,
        busy: Seq::new(alloc),
    })
}

// The answer of a turn at the moment 7, as `a:1` of the scheduler a for the region 1.
fn ask(alloc: Global, bench: &mut Bench, world: &World) -> Result<String, Fail> {
    let Some(said) = bench.run_next(&world.stores, &world.standing, &world.rules, &world.busy, 7)?
    else {
        return Ok(String::from_str(alloc, "none")?);
    };
    let name = said.name.as_str();
    match said.proposal {
        Some(Proposal::MoveLeader { region, to: 7 }) => Ok(format!(in alloc; "{name}:{region}")?),
        _ => { Err(Fail::new("another answer than the scheduler's")) }
    }
}

// The names, with a slash behind each.
fn names(alloc: Global, bench: &Bench) -> Result<String, Fail> {
    let mut all = String::new(alloc);
    let names = bench.names()?;
    for name in names.as_slice() {
        all.push_str(name.as_str())?;
        all.push_str("/")?;
    }
    Ok(all)
}

// What was said last, and how much was said in all.
fn said(alloc: Global, bench: &Bench) -> Result<String, Fail> {
    let name = match bench.said().last() {
        Some(said) => said.name.as_str(),
        None => "nobody",
    };
    Ok(format!(in alloc; "{name}:{}", bench.said().len())?)
}

// What becomes of a bench at a word of a row, and what it answers.
fn answer(alloc: Global, bench: &mut Bench, world: &World, word: &str) -> Result<String, Fail> {
    let answer = match word {
        "ask" => return ask(alloc, bench, world),
        "names" => return names(alloc, bench),
        "said" => return said(alloc, bench),
        "refused" => {
            bench.tell_last(Fate::Refused);
            "told"
        }
        "added" => {
            bench.tell_last(Fate::Added(50));
            "told"
        }
        name => match bench.remove(name.as_bytes()) {
            Ok(()) => "gone",
            Err(Absent) => "absent",
        },
    };
    Ok(String::from_str(alloc, answer)?)
}

// The answers to the words of a row, one after the other.
fn answers(alloc: Global, bench: &mut Bench, world: &World, words: &str) -> Result<String, Fail> {
    let mut all = String::new(alloc);
    for word in words.split(' ') {
        all.push_str(" ")?;
        all.push_str(answer(alloc, bench, world, word)?.as_str())?;
    }
    Ok(all)
}

// What becomes of a bench of a, b and c, of which the first proposes for region 1, the second for 2,
// the third for 3, and each for region 51 once its last proposal was added for region 50. A letter
// removes the scheduler of that name. First turns, then fates, then removals: of one before the next
// in turn, of the next, of one behind it, and of the last of the list.
const ROWS: &str = "\
ask ask ask ask said names > a:1 b:2 c:3 a:1 a:4 a/b/c/
said d ask d names said > nobody:0 absent a:1 absent a/b/c/ a:1
added ask refused ask ask ask > told a:1 told b:2 c:3 a:1
ask added ask refused ask added ask ask ask > a:1 told b:2 told c:3 told a:51 b:2 c:51
ask a added ask ask ask > a:1 gone told b:2 c:3 b:2
ask ask a added ask ask ask > a:1 b:2 gone told c:3 b:51 c:3
ask ask c added ask ask ask > a:1 b:2 gone told a:1 b:51 a:1
a ask ask ask > gone b:2 c:3 b:2
c ask ask ask > gone a:1 b:2 a:1
ask b b ask ask ask > a:1 gone absent c:3 a:1 c:3
ask ask ask b ask ask ask > a:1 b:2 c:3 gone a:1 c:3 a:1
a b c ask added said > gone gone gone none told nobody:0
";

#[test]
fn a_bench_goes_round_its_list(rt: HostRuntime) -> Result<(), Fail> {
    let alloc = rt.alloc();
    let world = empty_world(alloc)?;
    for row in ROWS.lines() {
        let Some((words, wanted)) = row.split_once(" >") else {
            return Err(Fail::new("a row without answers"));
        };
        let mut list: Vec<Box<dyn Scheduler + Send>> = Vec::new(alloc);
        for (name, region) in [("a", 1), ("b", 2), ("c", 3)] {
            list.push(Box::new(alloc, make_steady(alloc, name, region)?)?)?;
        }
        let mut bench = Bench::of(alloc, list);
        let told = answers(alloc, &mut bench, &world, words)?;
        assert_eq!(rt; told.as_str(), wanted, "{row}");
    }
    Ok(())
}

#[test]
fn an_empty_bench_answers_none(rt: HostRuntime) -> Result<(), Fail> {
    let alloc = rt.alloc();
    let mut bench = Bench::empty(alloc);
    let told = answers(
        alloc,
        &mut bench,
        &empty_world(alloc)?,
        "ask refused a said",
    )?;
    assert_eq!(rt; told.as_str(), " none told absent nobody:0");
    Ok(())
}

#[test]
fn the_first_of_a_name_is_removed(rt: HostRuntime) -> Result<(), Fail> {
    let alloc = rt.alloc();
    let mut list: Vec<Box<dyn Scheduler + Send>> = Vec::new(alloc);
    for (name, region) in [("b", 1), ("a", 2), ("a", 3)] {
        list.push(Box::new(alloc, make_steady(alloc, name, region)?)?)?;
    }
    let mut bench = Bench::of(alloc, list);
    let told = answers(
        alloc,
        &mut bench,
        &empty_world(alloc)?,
        "a names ask ask ask",
    )?;
    assert_eq!(rt; told.as_str(), " gone b/a/ b:1 a:3 b:1");
    Ok(())
}

#[test]
fn want_of_memory_takes_no_turn(rt: HostRuntime) -> Result<(), Fail> {
    let alloc = rt.alloc();
    let world = empty_world(alloc)?;
    let needy = Needy {
        name: Text::of(String::from_str(alloc, "a")?),
        asks: 0,
        at: 0,
        heard: None,
    };
    let mut list: Vec<Box<dyn Scheduler + Send>> = Vec::new(alloc);
    list.push(Box::new(alloc, needy)?)?;
    list.push(Box::new(alloc, make_steady(alloc, "b", 2)?)?)?;
    let mut bench = Bench::of(alloc, list);
    for _ in 0..2 {
        let said = bench.run_next(&world.stores, &world.standing, &world.rules, &world.busy, 7);
        assert!(rt; said.is_err());
    }
    let told = answers(alloc, &mut bench, &world, "said a ask")?;
    assert_eq!(rt; told.as_str(), " nobody:0 gone b:2");
    Ok(())
}
