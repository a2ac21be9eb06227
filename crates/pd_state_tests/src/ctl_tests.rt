// Schedulers' turns and pd-ctl's commands, by scripts with typed answers.
use crate::scripts::Scene;
use heartbeat::Standing;
use pd_types::{Ids, NoMemory, Proposal, Seq, Text};
use rule_set::RuleSet;
use sched_api::{Bench, Fate, Scheduler};
use std::alloc::Global;
use std::test::Fail;
use store_table::Stores;

// Proposes what it was given, one after another, and then nothing.
#[derive(Drop)]
struct Given {
    name: Text,
    list: Seq<Proposal>,
    place: usize,
    last: Option<Proposal>,
    asks: u64,
    at: u64,
    heard: Option<Fate>,
}

impl Scheduler for Given {
    ghost name = { λ s. s.name };

    ghost last = { λ s. s.last };

    ghost asks = { λ s. s.asks };

    ghost at = { λ s. s.at };

    ghost heard = { λ s. s.heard };

    fn name(&self) -> &Text {
        &self.name
    }

    fn propose(
        &mut self,
        _stores: &Stores,
        _standing: &Standing,
        _rules: &RuleSet,
        _busy: &Ids,
        now: u64,
    ) -> Result<Option<Proposal>, NoMemory> {
        self.asks = self.asks.saturating_add(1);
        self.at = now;
        self.heard = None;
        self.last = self.list.as_slice().get(self.place).copied();
        self.place = self.place.saturating_add(1);
        Ok(self.last)
    }

    fn note(&mut self, fate: Fate) {
        self.heard = Some(fate);
    }
}

// Proposes that the store loses the region's peer: of region 1, and of the next one only once an
// operator was added.
#[derive(Drop)]
struct Patient {
    name: Text,
    region: u64,
    last: Option<Proposal>,
    asks: u64,
    at: u64,
    heard: Option<Fate>,
}

impl Scheduler for Patient {
    ghost name = { λ s. s.name };

    ghost last = { λ s. s.last };

    ghost asks = { λ s. s.asks };

    ghost at = { λ s. s.at };

    ghost heard = { λ s. s.heard };

    fn name(&self) -> &Text {
        &self.name
    }

    fn propose(
        &mut self,
        _stores: &Stores,
        _standing: &Standing,
        _rules: &RuleSet,
        _busy: &Ids,
        now: u64,
    ) -> Result<Option<Proposal>, NoMemory> {
        self.asks = self.asks.saturating_add(1);
        self.at = now;
        self.heard = None;
        let region = self.region;
        self.last = Some(Proposal::DropPeer { region, store: 3 });
        Ok(self.last)
    }

    fn note(&mut self, fate: Fate) {
        self.heard = Some(fate);
        match fate {
            Fate::Added(region) => self.region = region.saturating_add(1),
            Fate::Refused => {}
        }
    }
}

// A bench of a scheduler of each name, which proposes these.
fn bench_of(alloc: Global, rows: &[(&str, &[Proposal])]) -> Result<Bench, Fail> {
    let mut list: Vec<Box<dyn Scheduler + Send>> = Vec::new(alloc);
    for (name, proposals) in rows {
        let one = Given {
            name: Text::of(String::from_str(alloc, name)?),
            list: Seq::of(proposals.to_vec(alloc)?),
            place: 0,
            last: None,
            asks: 0,
            at: 0,
            heard: None,
        };
        list.push(Box::new(alloc, one)?)?;
    }
    Ok(Bench::of(alloc, list))
}

// Stale and overlapping heartbeats, whose region is reported.
fn regions() -> &'static str {
    r#"term 1 1000 => term 1 stores 0 rules 1
beat 1000 7 - 40 1 6 11 11:1:v => accepted removed 0 none
beat 1001 8 20 60 1 5 21 21:1:v => stale conf 1 version 6
beat 1002 9 40 - 1 6 31 31:1:v => accepted removed 0 none
beat 1003 10 - - 1 7 41 41:1:v => accepted removed 2 none
beat 1004 11 - - 1 8 51 52:1:v => bad 5
ctl 1004 region 10 => {"conf_ver":1,"end_key":"","id":10,"leader":41,"peers":[{"id":41,"role":"Voter","store_id":1}],"start_key":"","version":7}
ctl 1004 region key 20 => {"conf_ver":1,"end_key":"","id":10,"leader":41,"peers":[{"id":41,"role":"Voter","store_id":1}],"start_key":"","version":7}
ctl 1004 region 7 => {"fault":"no-region"}
"#
}

// A removal that would leave no majority is held.
fn held() -> &'static str {
    r#"term 1 1000 => term 1 stores 0 rules 1
hello 1 1000 a1 => store put
hello 2 1000 a2 => store put
hello 3 1000 a3 => store put
beat 1000 7 - - 1 1 11 11:1:v,12:2:v,13:3:v => accepted removed 0 none
alive 1 21001 => alive
ctl 21001 operator add remove-peer 7 3 => {"added":1,"now":"held before live 1 of 3"}
"#
}

// The same a millisecond earlier is sent.
fn sent() -> &'static str {
    r#"term 1 1000 => term 1 stores 0 rules 1
hello 1 1000 a1 => store put
hello 2 1000 a2 => store put
hello 3 1000 a3 => store put
beat 1000 7 - - 1 1 11 11:1:v,12:2:v,13:3:v => accepted removed 0 none
alive 1 21000 => alive
ctl 21000 operator add remove-peer 7 3 => {"added":1,"now":"send remove-peer peer 13 store 3"}
"#
}

// A leader's peer is moved by hand.
fn moved() -> &'static str {
    r#"term 1 1000 => term 1 stores 0 rules 1
hello 1 1000 a1 => store put
hello 2 1000 a2 => store put
hello 3 1000 a3 => store put
hello 4 1000 a4 => store put
beat 1000 7 - - 1 1 11 11:1:v,12:2:v,13:3:v => accepted removed 0 none
ctl 1000 operator add transfer-peer 7 1 4 => {"added":4,"now":"send add-learner peer 1000001 store 4"}
ctl 1000 operator show => {"operators":[{"kind":"admin","region":7,"state":"Started","step":0,"steps":["add-learner peer 1000001 store 4","promote-learner peer 1000001 store 4","transfer-leader peer 12 store 2","remove-peer peer 11 store 1"]}]}
ctl 1000 operator add transfer-peer 7 1 4 => {"fault":"busy 3"}
"#
}

// Each command of pd-ctl, and its faults.
fn commands() -> &'static str {
    r#"ctl 1000 store => not-leading
term 1 1000 => term 1 stores 0 rules 1
hello 1 1000 a1 zone=z1 => store put
hello 2 1000 a2 => store put
hello 3 1000 a3 => store put
beat 1000 7 - - 1 1 11 11:1:v,12:2:v,13:3:l => accepted removed 0 none
ctl 1000 store => {"count":3,"stores":[{"address":"a1","id":1,"labels":[{"key":"zone","value":"z1"}],"leader_count":1,"region_count":1,"state_name":"Up"},{"address":"a2","id":2,"labels":[],"leader_count":0,"region_count":1,"state_name":"Up"},{"address":"a3","id":3,"labels":[],"leader_count":0,"region_count":1,"state_name":"Up"}]}
ctl 1000 store 2 => {"address":"a2","id":2,"labels":[],"leader_count":0,"region_count":1,"state_name":"Up"}
ctl 1000 store 9 => {"fault":"unknown-store"}
ctl 1000 store x => {"fault":"bad-number"}
ctl 1000 store 1 2 => {"fault":"extra-word"}
ctl 1000 store delete => {"fault":"missing-word"}
ctl 1000 store delete 9 => {"fault":"unknown-store"}
ctl 1000 store delete 3 => {"done":"Offline"}
ctl 1000 store delete 3 => {"done":"Offline"}
ctl 1000 store 3 => {"address":"a3","id":3,"labels":[],"leader_count":0,"region_count":1,"state_name":"Offline"}
hello 3 1000 b3 => store put
ctl 1000 store 3 => {"address":"b3","id":3,"labels":[],"leader_count":0,"region_count":1,"state_name":"Offline"}
ctl 1000 store limit 9 5 add-peer => {"fault":"unknown-store"}
ctl 1000 store limit 1 1000001 add-peer => {"fault":"bad-number"}
ctl 1000 store limit 1 5 leave-peer => {"fault":"bad-number"}
ctl 1000 store limit 3 0 remove-peer => {"done":"Limit"}
ctl 1000 operator add remove-peer 7 3 => {"fault":"limited available 0 needed 60000"}
ctl 1000 store limit 3 15 remove-peer => {"done":"Limit"}
ctl 1000 operator add remove-peer 7 3 => {"fault":"limited available 0 needed 60000"}
ctl 5000 operator add remove-peer 7 3 => {"added":1,"now":"send remove-peer peer 13 store 3"}
ctl 5000 operator check 7 => {"region":7,"state":"Started"}
ctl 5000 operator remove 7 => {"done":"Canceled"}
ctl 5000 operator remove 7 => {"fault":"absent"}
ctl 5000 operator check 7 => {"region":7,"state":"Canceled"}
ctl 5000 operator check 8 => {"fault":"absent"}
ctl 5000 operator show => {"operators":[]}
ctl 5000 operator add add-peer 8 1 => {"fault":"no-region"}
ctl 5000 operator add add-peer 7 9 => {"fault":"unknown-store"}
ctl 5000 operator add add-peer 7 3 => {"fault":"not-usable"}
ctl 5000 operator add add-peer 7 2 => {"fault":"has-peer"}
ctl 5000 operator add transfer-leader 7 1 => {"fault":"is-leader"}
ctl 5000 operator add transfer-leader 7 3 => {"fault":"not-voter"}
ctl 5000 operator add => {"fault":"unknown"}
ctl 5000 operator add transfer-leader 7 2 => {"added":1,"now":"send transfer-leader peer 12 store 2"}
ctl 5000 scheduler show => {"schedulers":[]}
ctl 5000 scheduler remove one => {"fault":"absent"}
ctl 5000 member leader show => {"driver":1,"term":1}
ctl 5000 tso 395181938313123110 => {"logical":120102,"physical":1507499459507}
ctl 5000 pd-ctl => {"fault":"unknown"}
ctl 5000 member leader resign => {"done":"Resigned"}
ctl 5000 member leader resign => not-leading
"#
}

// A deleted store without peers is buried, and a tombstone isn't deleted.
fn buried() -> &'static str {
    r#"term 1 1000 => term 1 stores 0 rules 1
hello 1 1000 a1 => store put
hello 2 1000 a2 => store put
rule 1000 {"group_id":"pd","id":"default","role":"voter","count":1} => rule set
beat 1000 7 - - 1 1 11 11:1:v => accepted removed 0 none
ctl 1000 store delete 2 => {"done":"Offline"}
patrol 1000 1 => patrol regions 1 ok 1 split 0 plan 0 no-plan 0 added 0 buried 1
ctl 1000 store delete 2 => {"fault":"tombstone"}
ctl 1000 store 2 => {"address":"a2","id":2,"labels":[],"leader_count":0,"region_count":0,"state_name":"Tombstone"}
"#
}

// The first driver's term is over, and its hello isn't written; the second one's stores are those that
// were stored.
fn two_drivers() -> &'static str {
    r#"term 1 1000 => term 1 stores 0 rules 1
hello 1 1000 a1 => store put
other => turned
term 2 500 => term 2 stores 1 rules 1
other => turned
hello 2 1001 a2 => old-term 2
ctl 1001 store delete 1 => {"fault":"old-term 2"}
other => turned
ctl 1002 store => {"count":1,"stores":[{"address":"a1","id":1,"labels":[],"leader_count":0,"region_count":0,"state_name":"Disconnected"}]}
alive 9 1002 => unknown-store
"#
}

// What a wish by hand meets: no peer to take away, no target, a peer that is there, and a limit.
fn wishes() -> &'static str {
    r#"term 1 1000 => term 1 stores 0 rules 1
hello 1 1000 a1 => store put
hello 2 1000 a2 => store put
hello 3 1000 a3 => store put
beat 1000 7 - 40 1 1 11 11:1:v => accepted removed 0 none
beat 1000 8 40 - 1 1 81 81:1:v,82:2:v => accepted removed 0 none
ctl 1000 operator add remove-peer 7 2 => {"fault":"no-peer"}
ctl 1000 operator add transfer-leader 7 2 => {"fault":"no-peer"}
ctl 1000 operator add transfer-peer 7 2 3 => {"fault":"no-peer"}
ctl 1000 operator add remove-peer 7 1 => {"fault":"no-target"}
ctl 1000 operator add transfer-peer 8 1 2 => {"fault":"has-peer"}
ctl 1000 operator add add-peer 7 2 => {"added":2,"now":"send add-learner peer 1000001 store 2"}
ctl 1000 store limit 3 0 add-peer => {"done":"Limit"}
ctl 1000 operator add add-peer 8 3 => {"fault":"limited available 0 needed 60000"}
"#
}

// Another driver wrote the record of the store and that of the ids, and then its term is later.
fn overwritten() -> &'static str {
    r#"term 1 1000 => term 1 stores 0 rules 1
hello 1 1000 a1 => store put
hello 2 1000 a2 => store put
beat 1000 7 - - 1 1 11 11:1:v => accepted removed 0 none
keep store/00000000000000000002 up b2 - => kept
ctl 1000 store delete 2 => {"fault":"conflict 3"}
keep id 1001000 => kept
ctl 1000 operator add add-peer 7 2 => {"fault":"conflict 4"}
outdate => outdated
ctl 1000 operator add add-peer 7 2 => {"fault":"old-term 5"}
"#
}

// Wishes of a region that isn't held, of a store that isn't known, and of one that isn't usable.
fn unfounded() -> &'static str {
    r#"term 1 1000 => term 1 stores 0 rules 1
hello 1 1000 a1 => store put
hello 2 1000 a2 => store put
hello 3 1000 a3 => store put
beat 1000 7 - - 1 1 11 11:1:v,12:2:v => accepted removed 0 none
ctl 1000 store delete 3 => {"done":"Offline"}
ctl 1000 operator add remove-peer 8 2 => {"fault":"no-region"}
ctl 1000 operator add transfer-leader 8 2 => {"fault":"no-region"}
ctl 1000 operator add transfer-peer 8 2 3 => {"fault":"no-region"}
ctl 1000 operator add remove-peer 7 9 => {"fault":"unknown-store"}
ctl 1000 operator add transfer-leader 7 9 => {"fault":"unknown-store"}
ctl 1000 operator add transfer-peer 7 9 3 => {"fault":"unknown-store"}
ctl 1000 operator add transfer-peer 7 2 9 => {"fault":"unknown-store"}
ctl 1000 operator add transfer-peer 7 2 3 => {"fault":"not-usable"}
"#
}

// While a region has an operator by hand no other is added, and a move takes of the limits of both
// of its stores.
fn busy() -> &'static str {
    r#"term 1 1000 => term 1 stores 0 rules 1
hello 1 1000 a1 => store put
hello 2 1000 a2 => store put
hello 3 1000 a3 => store put
beat 1000 7 - 40 1 1 11 11:1:v,12:2:v => accepted removed 0 none
beat 1000 8 40 - 1 1 81 81:1:v,82:2:v => accepted removed 0 none
ctl 1000 operator add transfer-leader 7 2 => {"added":1,"now":"send transfer-leader peer 12 store 2"}
ctl 1000 operator add add-peer 7 3 => {"fault":"busy 3"}
ctl 1000 operator add remove-peer 7 2 => {"fault":"busy 3"}
ctl 1000 operator add transfer-leader 7 2 => {"fault":"busy 3"}
ctl 1000 operator add transfer-peer 7 2 3 => {"fault":"busy 3"}
ctl 1000 store limit 2 0 remove-peer => {"done":"Limit"}
ctl 1000 operator add transfer-peer 8 2 3 => {"fault":"limited available 0 needed 60000"}
ctl 1000 store limit 2 15 remove-peer => {"done":"Limit"}
ctl 5000 store limit 3 0 add-peer => {"done":"Limit"}
ctl 5000 operator add transfer-peer 8 2 3 => {"fault":"limited available 0 needed 60000"}
"#
}

// A move's new peer gets no id where another driver wrote the record of the ids, nor where that
// driver's term is later.
fn overtaken() -> &'static str {
    r#"term 1 1000 => term 1 stores 0 rules 1
hello 1 1000 a1 => store put
hello 2 1000 a2 => store put
beat 1000 7 - - 1 1 11 11:1:v => accepted removed 0 none
keep id 1001000 => kept
ctl 1000 operator add transfer-peer 7 1 2 => {"fault":"conflict 3"}
outdate => outdated
ctl 1000 operator add transfer-peer 7 1 2 => {"fault":"old-term 5"}
"#
}

// The metadata takes no more calls.
fn full() -> &'static str {
    r#"term 1 1000 => term 1 stores 0 rules 1
hello 1 1000 a1 => store put
hello 2 1000 a2 => store put
beat 1000 7 - - 1 1 11 11:1:v => accepted removed 0 none
exhaust => exhausted
ctl 1000 store delete 2 => {"fault":"meta-limit"}
ctl 1000 operator add add-peer 7 2 => {"fault":"meta-limit"}
ctl 1000 operator add transfer-peer 7 1 2 => {"fault":"meta-limit"}
"#
}

// No window of ids is left behind this one.
fn spent() -> &'static str {
    r#"keep id 9223372036854775000 => kept
term 2 1000 => term 2 stores 0 rules 1
hello 1 1000 a1 => store put
hello 2 1000 a2 => store put
beat 1000 7 - - 1 1 11 11:1:v => accepted removed 0 none
ctl 1000 operator add add-peer 7 2 => {"fault":"ids-spent"}
ctl 1000 operator add transfer-peer 7 1 2 => {"fault":"ids-spent"}
"#
}

// A majority is live, and wouldn't be once the peer is gone; nor is the target.
fn losing() -> &'static str {
    r#"term 1 1000 => term 1 stores 0 rules 1
hello 1 1000 a1 => store put
hello 2 1000 a2 => store put
hello 3 1000 a3 => store put
beat 1000 7 - 40 1 1 11 11:1:v,12:2:v,13:3:v => accepted removed 0 none
beat 1000 8 40 - 1 1 81 81:1:v,82:2:v,83:3:v => accepted removed 0 none
alive 1 21001 => alive
alive 2 21001 => alive
ctl 21001 operator add remove-peer 7 2 => {"added":1,"now":"held after live 1 of 2"}
ctl 21001 operator add transfer-leader 8 3 => {"added":1,"now":"held target live 2 of 3"}
"#
}

#[test]
fn commands_of_pd_ctl_are_carried_out(rt: HostRuntime) -> Result<(), Fail> {
    let alloc = rt.alloc();
    let scripts = [
        regions(),
        held(),
        sent(),
        moved(),
        commands(),
        buried(),
        two_drivers(),
        wishes(),
        unfounded(),
        busy(),
        overwritten(),
        overtaken(),
        full(),
        spent(),
        losing(),
    ];
    for lines in scripts {
        Scene::new(alloc).play(&rt, alloc, lines)?;
    }
    Ok(())
}

// Turns go round the list; nothing is believed of a proposal, and a wish has its faults.
fn turns() -> &'static str {
    r#"schedule 1000 => not-leading
term 1 1000 => term 1 stores 0 rules 1
hello 1 1000 a1 => store put
hello 2 1000 a2 => store put
hello 3 1000 a3 => store put
hello 4 1000 a4 => store put
beat 1000 7 - - 1 1 11 11:1:v,12:2:v,13:3:v => accepted removed 0 none
alive 1 21001 => alive
alive 4 21001 => alive
schedule 21001 => scheduler one drop-peer region 7 store 3 held before live 1 of 3
schedule 21001 => scheduler two move-leader region 8 store 2 no-region
schedule 21001 => scheduler one move-peer region 7 from 1 to 9 unknown-store
alive 2 21001 => alive
schedule 21001 => scheduler two move-leader region 7 store 2 busy 1
ctl 21001 operator show => {"operators":[{"kind":"one","region":7,"state":"Created","step":0,"steps":["remove-peer peer 13 store 3"]}]}
ctl 21001 operator add transfer-leader 7 2 => {"added":1,"now":"send transfer-leader peer 12 store 2"}
beat 21002 7 - - 1 1 12 11:1:v,12:2:v,13:3:v => accepted removed 0 done
schedule 21002 => scheduler one move-peer region 7 from 1 to 4 send add-learner peer 1000001 store 4
schedule 21002 => scheduler two none
ctl 21002 scheduler show => {"schedulers":["one","two"]}
ctl 21002 scheduler remove one => {"done":"Removed"}
ctl 21002 scheduler remove one => {"fault":"absent"}
ctl 21002 scheduler show => {"schedulers":["two"]}
schedule 21002 => scheduler two none
ctl 21002 scheduler remove two => {"done":"Removed"}
schedule 21002 => no-scheduler
ctl 21002 scheduler show => {"schedulers":[]}
"#
}

#[test]
fn schedulers_propose_in_turn(rt: HostRuntime) -> Result<(), Fail> {
    let alloc = rt.alloc();
    let one = [
        Proposal::DropPeer {
            region: 7,
            store: 3,
        },
        Proposal::MovePeer {
            region: 7,
            from: 1,
            to: 9,
        },
        Proposal::MovePeer {
            region: 7,
            from: 1,
            to: 4,
        },
    ];
    let two = [
        Proposal::MoveLeader { region: 8, to: 2 },
        Proposal::MoveLeader { region: 7, to: 2 },
    ];
    let bench = bench_of(alloc, &[("one", &one), ("two", &two)])?;
    Scene::of(alloc, bench).play(&rt, alloc, turns())
}

// Region 1 is proposed until its operator is added, and then region 2.
fn told() -> &'static str {
    r#"term 1 1000 => term 1 stores 0 rules 1
hello 1 1000 a1 => store put
hello 2 1000 a2 => store put
hello 3 1000 a3 => store put
schedule 1000 => scheduler patient drop-peer region 1 store 3 no-region
beat 1000 1 - 40 1 1 11 11:1:v,12:2:v,13:3:v => accepted removed 0 none
beat 1000 2 40 - 1 1 21 21:1:v,22:2:v,23:3:v => accepted removed 0 none
schedule 1000 => scheduler patient drop-peer region 1 store 3 send remove-peer peer 13 store 3
schedule 1000 => scheduler patient drop-peer region 2 store 3 send remove-peer peer 23 store 3
"#
}

#[test]
fn a_scheduler_is_told_what_became_of_its_proposal(rt: HostRuntime) -> Result<(), Fail> {
    let alloc = rt.alloc();
    let patient = Patient {
        name: Text::of(String::from_str(alloc, "patient")?),
        region: 1,
        last: None,
        asks: 0,
        at: 0,
        heard: None,
    };
    let mut list: Vec<Box<dyn Scheduler + Send>> = Vec::new(alloc);
    list.push(Box::new(alloc, patient)?)?;
    Scene::of(alloc, Bench::of(alloc, list)).play(&rt, alloc, told())
}

// What a scheduler proposes would lose the majority, so its step is held.
fn stubborn() -> &'static str {
    r#"term 1 1000 => term 1 stores 0 rules 1
hello 1 1000 a1 => store put
hello 2 1000 a2 => store put
hello 3 1000 a3 => store put
beat 1000 7 - - 1 1 11 11:1:v,12:2:v,13:3:v => accepted removed 0 none
alive 1 21001 => alive
alive 2 21001 => alive
schedule 21001 => scheduler stubborn drop-peer region 7 store 2 held after live 1 of 2
beat 21001 7 - - 1 1 11 11:1:v,12:2:v,13:3:v => accepted removed 0 held after live 1 of 2
"#
}

#[test]
fn a_proposal_that_would_lose_the_majority_is_held(rt: HostRuntime) -> Result<(), Fail> {
    let alloc = rt.alloc();
    let proposals = [Proposal::DropPeer {
        region: 7,
        store: 2,
    }];
    let bench = bench_of(alloc, &[("stubborn", &proposals)])?;
    Scene::of(alloc, bench).play(&rt, alloc, stubborn())
}
