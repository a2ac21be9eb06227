ghost use Rattle.std.specs.Prelude.{◌≤◌, length, IfOk};

use crate::{AddFault, Dispatch, NewOp, OpState, Operators};
use pd_types::{
    Epoch, NoMemory, Peer, Region, RegionBeat, Role, Seq, Step, StoreRec, StoreState, Text,
};
use std::alloc::{AllocError, Global};
use std::process::Abort;
use std::test::Fail;
use store_limit::{LimitKind, Limits};
use store_table::Stores;

const ADD: Step = Step::AddLearner { peer: 20, store: 4 };

const REMOVE: Step = Step::RemovePeer { peer: 13, store: 3 };

// The peers 11 to 13 are voters on the stores 1 to 3; the peer 20 is a learner on store 4.
fn peers(alloc: Global, learner: bool) -> Result<Seq<Peer>, NoMemory> {
    let mut peers = Seq::new(alloc);
    for store in 1..4 {
        peers.push(Peer {
            id: 10 + store,
            store,
            role: Role::Voter,
        })?;
    }
    if learner {
        peers.push(Peer {
            id: 20,
            store: 4,
            role: Role::Learner,
        })?;
    }
    Ok(peers)
}

// A heartbeat of the region 7, led by the peer 11.
fn beat(alloc: Global, conf_ver: u64, learner: bool) -> Result<RegionBeat, NoMemory> {
    Ok(RegionBeat {
        region: Region {
            id: 7,
            start: Seq::new(alloc),
            end: Seq::new(alloc),
            epoch: Epoch {
                conf_ver,
                version: 1,
            },
            peers: peers(alloc, learner)?,
        },
        leader: 11,
        down: Seq::new(alloc),
        pending: Seq::new(alloc),
    })
}

// The stores 1 to 4, heard at a moment.
fn stores(alloc: Global, moment: u64) -> Result<Stores, Fail> {
    let mut stores = Stores::new(alloc);
    for id in 1..5 {
        let rec = StoreRec {
            id,
            address: Text::of(String::new(alloc)),
            labels: Seq::new(alloc),
            state: StoreState::Up,
        };
        stores.put(rec, moment)?;
    }
    Ok(stores)
}

// The limits of the stores 3 and 4, of which the store 3 may lose no peer.
fn limits(alloc: Global) -> Result<Limits, NoMemory> {
    let mut limits = Limits::new(alloc);
    limits.know(3, 0)?;
    limits.know(4, 0)?;
    let _ = limits.set_rate(3, LimitKind::RemovePeer, 0, 0);
    Ok(limits)
}

// An operator to be added, of conf_ver 1, with one step or none.
fn operator(
    alloc: Global,
    region: u64,
    priority: u8,
    step: Option<Step>,
) -> Result<NewOp, AllocError>
    ensures { IfOk result (λ op. length op.steps ≤ 1) }
{
    let mut steps = Vec::new(alloc);
    if let Some(step) = step {
        steps.push(step)?;
    }
    Ok(NewOp {
        region,
        epoch: Epoch {
            conf_ver: 1,
            version: 1,
        },
        steps: Seq::of(steps),
        kind: Text::of(String::new(alloc)),
        priority,
    })
}

// What `may_add` answers at the moment 100000, and then `add`.
fn add(
    operators: &mut Operators,
    op: NewOp,
    kept: Option<&RegionBeat>,
    limits: &mut Limits,
) -> (Result<(), AddFault>, Result<(), AddFault>)
    requires { length op.steps ≤ 1 }
{
    let may = operators.may_add(&op, kept, limits, 100_000);
    (may, operators.add(op, kept, limits, 100_000))
}

// The operators after the region 7 was given one that adds a peer on store 4.
fn added(operators: &mut Operators, alloc: Global, priority: u8) -> Result<(), Fail> {
    let op = operator(alloc, 7, priority, Some(ADD))?;
    let beat = beat(alloc, 1, false)?;
    let mut limits = limits(alloc)?;
    let (_, answer) = add(operators, op, Some(&beat), &mut limits);
    answer?;
    Ok(())
}

// The word for an answer to a heartbeat.
fn word_of(answer: Dispatch) -> &'static str {
    match answer {
        Dispatch::NoOperator => "none",
        Dispatch::Send(_) => "send",
        Dispatch::Wait(_) => "wait",
        Dispatch::Done => "done",
        Dispatch::Ended(_) => "ended",
    }
}

// Each arrow of the table of an operator's life. An operator of priority 2 was added at the moment
// 100000; what happens to it, at a moment, and the answer; then the state of the region's last
// operator, and the priority of the one that hasn't ended, 0 where there is none. The heartbeats:
// `same`, the region as it was; `silent`, no store is heard; `left`, the step is done; `astray`,
// another change of conf_ver beside it; `grown`, another change alone.
const LIVES: &str = "\
same 100000 send > Started 2
same 100000 send, same 700000 send > Started 2
silent 103000 wait > Created 2
left 100000 done > Success 0
left 900000 done > Success 0
same 100000 send, left 900000 done > Success 0
left 100000 done, left 100001 none > Success 0
astray 100000 ended > Canceled 0
grown 900000 ended > Canceled 0
same 100000 send, astray 100001 ended > Canceled 0
gone 0 none > Canceled 0
same 100000 send, gone 0 none > Canceled 0
remove 0 done > Canceled 0
same 100000 send, remove 0 done > Canceled 0
remove 0 done, remove 0 none > Canceled 0
left 100000 done, gone 0 none > Success 0
replace 0 done > Created 3
same 100000 send, replace 0 done > Created 3
silent 103001 ended > Expired 0
same 103001 ended > Expired 0
same 101000 send, same 701000 send, same 701001 ended > Timeout 0
same 101000 send, silent 700000 wait, silent 701001 ended > Timeout 0
";

// The answer to a heartbeat of that name.
fn hear(
    operators: &mut Operators,
    alloc: Global,
    name: &str,
    moment: u64,
) -> Result<&'static str, Fail> {
    let conf_ver = match name {
        "left" => 2,
        "grown" => 2,
        "astray" => 3,
        _ => 1,
    };
    let beat = beat(alloc, conf_ver, name == "left" || name == "astray")?;
    let stores = stores(alloc, if name == "silent" { 0 } else { moment })?;
    Ok(word_of(operators.dispatch(&beat, &stores, moment)))
}

fn happen(
    operators: &mut Operators,
    alloc: Global,
    name: &str,
    moment: u64,
) -> Result<&'static str, Fail> {
    match name {
        "gone" => {
            operators.gone(7);
            Ok("none")
        }
        "remove" => Ok(if operators.remove(7).is_ok() {
            "done"
        } else {
            "none"
        }),
        "replace" => {
            added(operators, alloc, 3)?;
            Ok("done")
        }
        _ => hear(operators, alloc, name, moment),
    }
}

// Lets each event happen, and compares its answer.
fn live(
    rt: &impl Abort,
    operators: &mut Operators,
    alloc: Global,
    events: &str,
) -> Result<(), Fail> {
    for event in events.split(", ") {
        let mut words = event.split(' ');
        let name = words.next().unwrap_or("");
        let moment = words.next().unwrap_or("").parse::<u64>()?;
        let answer = happen(operators, alloc, name, moment)?;
        assert_eq!(rt; Some(answer), words.next(), "{events}");
    }
    Ok(())
}

// The state of the region's last operator, and the priority of the one that hasn't ended.
fn ending(operators: &Operators, alloc: Global) -> Result<String, AllocError> {
    let priority = match operators.at(0) {
        Some(op) => op.priority,
        None => 0,
    };
    match operators.state(7) {
        Some(state) => format!(in alloc; "{state:?} {priority}"),
        None => format!(in alloc; "none {priority}"),
    }
}

#[test]
fn an_operator_lives_by_the_table(rt: HostRuntime) -> Result<(), Fail> {
    let alloc = rt.alloc();
    for row in LIVES.lines() {
        let Some((events, wanted)) = row.split_once(" > ") else {
            return Err(Fail::new("a row without an end"));
        };
        let mut operators = Operators::new(alloc);
        added(&mut operators, alloc, 2)?;
        live(&rt, &mut operators, alloc, events)?;
        assert_eq!(rt; ending(&operators, alloc)?.as_str(), wanted, "{row}");
    }
    Ok(())
}

// Each refusal, and what is added, once 1,024 regions have an operator of priority 2 and the store 3
// may lose no peer: a region; the conf_ver that is held, 0 where the region isn't; the priority, and
// what the step does; the answer of `may_add` and of `add`. Where two refusals apply the earlier one
// is named: each removal is limited too, a region that has an operator of this priority is busy too,
// and one that has none is one too many.
const ADDS: &str = "\
7 0 2 remove > the region isn't held
7 2 3 remove > the region has another epoch
7 2 2 remove > the region has another epoch
7 1 2 remove > the region has an operator of priority 2
7 1 1 add > the region has an operator of priority 2
7 1 3 remove > a store limit has 0 of 60000 units
2000 1 3 remove > a store limit has 0 of 60000 units
2000 1 3 add > 1024 regions have an operator
7 1 3 add > added
7 1 3 add > the region has an operator of priority 3
";

// 1,024 regions with an operator of priority 2 that has no step.
fn full(alloc: Global) -> Result<Operators, Fail> {
    let mut operators = Operators::new(alloc);
    let beat = beat(alloc, 1, false)?;
    let mut limits = Limits::new(alloc);
    for region in 1..1025 {
        let op = operator(alloc, region, 2, None)?;
        let (_, answer) = add(&mut operators, op, Some(&beat), &mut limits);
        answer?;
    }
    Ok(operators)
}

// The operator of a row: its region, its priority and its step.
fn row_operator(alloc: Global, region: &str, priority: &str, step: &str) -> Result<NewOp, Fail>
    ensures { IfOk result (λ op. length op.steps ≤ 1) }
{
    let region = region.parse::<u64>()?;
    let priority = priority.parse::<u8>()?;
    let step = if step == "add" { ADD } else { REMOVE };
    Ok(operator(alloc, region, priority, Some(step))?)
}

fn said(alloc: Global, answer: Result<(), AddFault>) -> Result<String, AllocError> {
    match answer {
        Ok(()) => String::from_str(alloc, "added"),
        Err(fault) => format!(in alloc; "{fault}"),
    }
}

// Adds the operator of a row; what `may_add` and `add` answer.
fn add_row(
    operators: &mut Operators,
    limits: &mut Limits,
    alloc: Global,
    row: &str,
) -> Result<(String, String), Fail> {
    let mut words = row.split(' ');
    let region = words.next().unwrap_or("");
    let held = words.next().unwrap_or("").parse::<u64>()?;
    let priority = words.next().unwrap_or("");
    let op = row_operator(alloc, region, priority, words.next().unwrap_or(""))?;
    let beat = beat(alloc, held, false)?;
    let kept = if held == 0 { None } else { Some(&beat) };
    let (may, answer) = add(operators, op, kept, limits);
    Ok((said(alloc, may)?, said(alloc, answer)?))
}

#[test]
fn the_first_refusal_is_named(rt: HostRuntime) -> Result<(), Fail> {
    let alloc = rt.alloc();
    let mut operators = full(alloc)?;
    let mut limits = limits(alloc)?;
    for row in ADDS.lines() {
        let Some((words, wanted)) = row.split_once(" > ") else {
            return Err(Fail::new("a row without an answer"));
        };
        let (may, answer) = add_row(&mut operators, &mut limits, alloc, words)?;
        assert_eq!(rt; may.as_str(), wanted, "{row}");
        assert_eq!(rt; answer.as_str(), wanted, "{row}");
    }
    Ok(())
}

// An operator that was made before the region changed names the epoch that is held.
#[test]
fn a_moved_epoch_is_named(rt: HostRuntime) -> Result<(), Fail> {
    let alloc = rt.alloc();
    let mut operators = Operators::new(alloc);
    let mut limits = limits(alloc)?;
    let beat = beat(alloc, 2, false)?;
    let op = operator(alloc, 7, 3, Some(ADD))?;
    let (_, answer) = add(&mut operators, op, Some(&beat), &mut limits);
    let kept = beat.region.epoch;
    assert_eq!(rt; answer, Err(AddFault::EpochMoved { kept }));
    Ok(())
}

// The peer of a word `id:store:role`.
fn peer(word: &str) -> Result<Peer, Fail> {
    let mut parts = word.split(':');
    let id = parts.next().unwrap_or("").parse::<u64>()?;
    let store = parts.next().unwrap_or("").parse::<u64>()?;
    let role = match parts.next() {
        Some("l") => Role::Learner,
        _ => Role::Voter,
    };
    Ok(Peer { id, store, role })
}

// A heartbeat of the region 7: its conf_ver, its leader and its peers.
fn seen(alloc: Global, row: &str) -> Result<RegionBeat, Fail> {
    let mut words = row.split(' ');
    let conf_ver = words.next().unwrap_or("").parse::<u64>()?;
    let mut seen = beat(alloc, conf_ver, false)?;
    seen.leader = words.next().unwrap_or("").parse::<u64>()?;
    let mut peers = Seq::new(alloc);
    for word in words.next().unwrap_or("").split(',') {
        peers.push(peer(word)?)?;
    }
    seen.region.peers = peers;
    Ok(seen)
}

// The four steps by which the leader on store 1 moves to store 4.
fn moving(alloc: Global) -> Result<NewOp, AllocError>
    ensures { IfOk result (λ op. length op.steps ≤ 4) }
{
    let steps = vec![in alloc;
        ADD,
        Step::PromoteLearner { peer: 20, store: 4 },
        Step::TransferLeader { peer: 12, store: 2 },
        Step::RemovePeer { peer: 11, store: 1 },
    ]?;
    Ok(NewOp {
        region: 7,
        epoch: Epoch {
            conf_ver: 1,
            version: 1,
        },
        steps: Seq::of(steps),
        kind: Text::of(String::new(alloc)),
        priority: 3,
    })
}

// The operators after the region 7 was given the four steps at the moment 100000.
fn given_four(alloc: Global) -> Result<Operators, Fail> {
    let mut operators = Operators::new(alloc);
    let mut limits = Limits::new(alloc);
    for store in 1..5 {
        limits.know(store, 0)?;
    }
    let beat = beat(alloc, 1, false)?;
    operators.add(moving(alloc)?, Some(&beat), &mut limits, 100_000)?;
    Ok(operators)
}

// What a heartbeat at the moment 100001 makes of the four steps: the step that is sent.
fn sent(operators: &mut Operators, alloc: Global, row: &str) -> Result<String, Fail> {
    let seen = seen(alloc, row)?;
    let stores = stores(alloc, 100_000)?;
    Ok(match operators.dispatch(&seen, &stores, 100_001) {
        Dispatch::Send(step) => format!(in alloc; "{step}")?,
        _ => String::from_str(alloc, "nothing")?,
    })
}

// Two of the four steps are finished by the second heartbeat; once the last one is done the operator
// has succeeded.
const TO_THE_END: &str = "\
1 11 11:1:v,12:2:v,13:3:v > add-learner peer 20 store 4
3 11 11:1:v,12:2:v,13:3:v,20:4:v > transfer-leader peer 12 store 2
3 12 11:1:v,12:2:v,13:3:v,20:4:v > remove-peer peer 11 store 1
4 12 12:2:v,13:3:v,20:4:v > nothing
";

// One step is passed, which changes conf_ver by one, and conf_ver grew by two.
const PAST_CONF_VER: &str = "\
2 11 11:1:v,12:2:v,13:3:v,20:4:l > promote-learner peer 20 store 4
3 11 11:1:v,12:2:v,13:3:v,20:4:l > nothing
";

// Lets the heartbeats of the rows arrive once the four steps are given, and compares what is sent and
// the operator's state behind them.
fn pass(rt: &impl Abort, alloc: Global, rows: &str, end: OpState) -> Result<(), Fail> {
    let mut operators = given_four(alloc)?;
    for row in rows.lines() {
        let (seen, wanted) = row.split_once(" > ").unwrap_or((row, ""));
        let text = sent(&mut operators, alloc, seen)?;
        assert_eq!(rt; text.as_str(), wanted, "{row}");
    }
    assert_eq!(rt; operators.state(7), Some(end));
    Ok(())
}

#[test]
fn four_steps_are_passed_in_order(rt: HostRuntime) -> Result<(), Fail> {
    let alloc = rt.alloc();
    pass(&rt, alloc, TO_THE_END, OpState::Success)?;
    pass(&rt, alloc, PAST_CONF_VER, OpState::Canceled)
}
