// The two schedulers.
ghost use Rattle.std.specs.Prelude.{◌≡◌, IfOk, codes, None};
ghost use Rattle.sched_api.specs.Schedulers.{more_by_one};
ghost use Rattle.balance_sched.specs.declared.moves.Kind.TheVariants as kinds;
ghost use Rattle.balance_sched.specs.Moves.{Proposes};
ghost use Rattle.balance_sched.specs.Tables.{tables_of};

use crate::Kind;
use crate::case::View;
use crate::search::propose;
use heartbeat::Standing;
use pd_types::{Ids, NoMemory, Proposal, Text};
use rule_set::RuleSet;
use sched_api::{Fate, Scheduler};
use std::alloc::Global;
use store_table::Stores;

/// Proposes moves of leaders that even their numbers out among the stores.
#[derive(Drop)]
pub struct BalanceLeader {
    name: Text,
    last: Option<Proposal>,
    asks: u64,
    at: u64,
    heard: Option<Fate>,
    alloc: Global,
}

/// Proposes moves of peers that even the numbers of regions out among the stores.
#[derive(Drop)]
pub struct BalanceRegion {
    name: Text,
    last: Option<Proposal>,
    asks: u64,
    at: u64,
    heard: Option<Fate>,
    alloc: Global,
}

impl BalanceLeader {
    /// The scheduler, which was never asked. Its name is `balance-leader-scheduler`.
    pub fn new(alloc: Global) -> Result<BalanceLeader, NoMemory>
        ensures name { IfOk result (λ one. one.name ≡ codes "balance-leader-scheduler") }
        ensures last { IfOk result (λ one. one.last ≡ None) }
        ensures asks { IfOk result (λ one. one.asks ≡ 0) }
        ensures at { IfOk result (λ one. one.at ≡ 0) }
        ensures heard { IfOk result (λ one. one.heard ≡ None) }
    {
        Ok(BalanceLeader {
            name: Text::of(String::from_str(alloc, "balance-leader-scheduler")?),
            last: None,
            asks: 0,
            at: 0,
            heard: None,
            alloc,
        })
    }
}

impl BalanceRegion {
    /// The scheduler, which was never asked. Its name is `balance-region-scheduler`.
    pub fn new(alloc: Global) -> Result<BalanceRegion, NoMemory>
        ensures name { IfOk result (λ one. one.name ≡ codes "balance-region-scheduler") }
        ensures last { IfOk result (λ one. one.last ≡ None) }
        ensures asks { IfOk result (λ one. one.asks ≡ 0) }
        ensures at { IfOk result (λ one. one.at ≡ 0) }
        ensures heard { IfOk result (λ one. one.heard ≡ None) }
    {
        Ok(BalanceRegion {
            name: Text::of(String::from_str(alloc, "balance-region-scheduler")?),
            last: None,
            asks: 0,
            at: 0,
            heard: None,
            alloc,
        })
    }
}

impl Scheduler for BalanceLeader {
    ghost name = { λ s. s.name };

    ghost last = { λ s. s.last };

    ghost asks = { λ s. s.asks };

    ghost at = { λ s. s.at };

    ghost heard = { λ s. s.heard };

    fn name(&self) -> &Text {
        &self.name
    }

    /// The admissible leader move of the greatest difference of leader counts, then of the least
    /// region and the least stores. None comes exactly where no move is admissible.
    fn propose(
        &mut self,
        stores: &Stores,
        standing: &Standing,
        rules: &RuleSet,
        busy: &Ids,
        now: u64,
    ) -> Result<Option<Proposal>, NoMemory>
        ensures answer { IfOk result (λ proposal. proposal ≡ self.new.last) }
        ensures asks { self.new.asks ≡ more_by_one self.old.asks }
        ensures at { self.new.at ≡ now }
        ensures heard { self.new.heard ≡ None }
        ensures name { self.new.name ≡ self.old.name }
        ensures proposes { IfOk result (Proposes kinds.Leaders (tables_of stores.now standing.now rules.now busy.now now)) }
    {
        self.asks = self.asks.saturating_add(1);
        self.at = now;
        self.heard = None;
        let view = View {
            kind: Kind::Leaders,
            stores,
            standing,
            rules,
            busy,
            now,
        };
        let proposal = propose(self.alloc, view)?;
        self.last = proposal;
        Ok(proposal)
    }

    fn note(&mut self, fate: Fate) {
        self.heard = Some(fate);
    }
}

impl Scheduler for BalanceRegion {
    ghost name = { λ s. s.name };

    ghost last = { λ s. s.last };

    ghost asks = { λ s. s.asks };

    ghost at = { λ s. s.at };

    ghost heard = { λ s. s.heard };

    fn name(&self) -> &Text {
        &self.name
    }

    /// The admissible peer move of the greatest difference of region counts, then of the least
    /// region and the least stores. None comes exactly where no move is admissible.
    fn propose(
        &mut self,
        stores: &Stores,
        standing: &Standing,
        rules: &RuleSet,
        busy: &Ids,
        now: u64,
    ) -> Result<Option<Proposal>, NoMemory>
        ensures answer { IfOk result (λ proposal. proposal ≡ self.new.last) }
        ensures asks { self.new.asks ≡ more_by_one self.old.asks }
        ensures at { self.new.at ≡ now }
        ensures heard { self.new.heard ≡ None }
        ensures name { self.new.name ≡ self.old.name }
        ensures proposes { IfOk result (Proposes kinds.Regions (tables_of stores.now standing.now rules.now busy.now now)) }
    {
        self.asks = self.asks.saturating_add(1);
        self.at = now;
        self.heard = None;
        let view = View {
            kind: Kind::Regions,
            stores,
            standing,
            rules,
            busy,
            now,
        };
        let proposal = propose(self.alloc, view)?;
        self.last = proposal;
        Ok(proposal)
    }

    fn note(&mut self, fate: Fate) {
        self.heard = Some(fate);
    }
}
