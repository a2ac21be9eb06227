// Scripts with schedulers and with commands of pd-ctl, over a source and a sink in memory. The expected
// answers are worked examples.
use crate::status::Status;
use crate::tests::{answers_of, expect_with, script_of};
use balance_sched::{BalanceLeader, BalanceRegion};
use pd_types::{MAX_DRIVERS, NoMemory};
use sched_api::{Bench, Scheduler};
use std::alloc::Global;
use std::test::Fail;

/// The program's benches.
pub fn benches(alloc: Global) -> Result<Vec<Bench>, NoMemory> {
    let mut benches = Vec::new(alloc);
    for _ in 0..MAX_DRIVERS {
        let leaders: Box<dyn Scheduler + Send> = Box::new(alloc, BalanceLeader::new(alloc)?)?;
        let regions: Box<dyn Scheduler + Send> = Box::new(alloc, BalanceRegion::new(alloc)?)?;
        benches.push(Bench::of(alloc, vec![in alloc; leaders, regions]?))?;
    }
    Ok(benches)
}

// Worked rows. In each line an act stands in front of `>` and its answer.
pub fn rows() -> [&'static str; 11] {
    [
        // Heartbeats that are stale and that overlap.
        r#"lead 1 1000 > won term 1 lo 1000 hi 4000
beat 1 1 1000 7 - 40 1 6 11 11:1:v > accepted removed 0 none
beat 1 1 1001 8 20 60 1 5 21 21:1:v > stale conf 1 version 6
beat 1 1 1002 9 40 - 1 6 31 31:1:v > accepted removed 0 none
beat 1 1 1003 10 - - 1 7 41 41:1:v > accepted removed 2 none
beat 1 1 1004 11 - - 1 8 51 52:1:v > bad 5
ctl 1 1004 region 10 > {"conf_ver":1,"end_key":"","id":10,"leader":41,"peers":[{"id":41,"role":"Voter","store_id":1}],"start_key":"","version":7}"#,
        // A removal that would leave no majority is held.
        r#"lead 1 1000 > won term 1 lo 1000 hi 4000
hello 1 1 1000 a1 > store put
hello 2 1 1000 a2 > store put
hello 3 1 1000 a3 > store put
beat 1 1 1000 7 - - 1 1 11 11:1:v,12:2:v,13:3:v > accepted removed 0 none
alive 1 1 21001 > alive
ctl 1 21001 operator add remove-peer 7 3 > {"added":1,"now":"held before live 1 of 3"}"#,
        // The same a millisecond earlier is sent.
        r#"lead 1 1000 > won term 1 lo 1000 hi 4000
hello 1 1 1000 a1 > store put
hello 2 1 1000 a2 > store put
hello 3 1 1000 a3 > store put
beat 1 1 1000 7 - - 1 1 11 11:1:v,12:2:v,13:3:v > accepted removed 0 none
alive 1 1 21000 > alive
ctl 1 21000 operator add remove-peer 7 3 > {"added":1,"now":"send remove-peer peer 13 store 3"}"#,
        // A peer that is Down is replaced, and its operator is looked at.
        r#"lead 1 1000 > won term 1 lo 1000 hi 4000
hello 1 1 1000 a1 zone=z1 > store put
hello 2 1 1000 a2 zone=z2 > store put
hello 3 1 1000 a3 zone=z3 > store put
hello 4 1 1000 a4 zone=z3 > store put
beat 1 1 1000 7 - - 1 1 11 11:1:v,12:2:v,13:3:v > accepted removed 0 none
alive 1 1 1801001 > alive
alive 2 1 1801001 > alive
alive 4 1 1801001 > alive
check 1 1801001 7 > plan add-voter from 2 to 1 send add-learner peer 1000001 store 4
pop 1 1 > popped term 1 entry 10 region 7 add-learner peer 1000001 store 4
pop 1 1 > empty
beat 1 1 1801002 7 - - 2 1 11 11:1:v,12:2:v,13:3:v,1000001:4:l > accepted removed 0 send promote-learner peer 1000001 store 4
beat 1 1 1801003 7 - - 3 1 11 11:1:v,12:2:v,13:3:v,1000001:4:v > accepted removed 0 done
check 1 1801003 7 > plan remove from 1 to 0 send remove-peer peer 13 store 3
beat 1 1 1801004 7 - - 4 1 11 11:1:v,12:2:v,1000001:4:v > accepted removed 0 done
check 1 1801004 7 > no-fault
ctl 1 1801004 operator check 7 > {"region":7,"state":"Success"}"#,
        // Five stores in three zones, eight regions on three of them: nothing is to be done but to balance.
        r#"lead 1 1000 > won term 1 lo 1000 hi 4000
hello 1 1 1000 s1 zone=z1 > store put
hello 2 1 1000 s2 zone=z1 > store put
hello 3 1 1000 s3 zone=z2 > store put
hello 4 1 1000 s4 zone=z2 > store put
hello 5 1 1000 s5 zone=z3 > store put
beat 1 1 1000 1 - 20 1 1 11 11:1:v,12:3:v,13:5:v > accepted removed 0 none
beat 1 1 1000 2 20 40 1 1 21 21:1:v,22:3:v,23:5:v > accepted removed 0 none
beat 1 1 1000 3 40 60 1 1 31 31:1:v,32:3:v,33:5:v > accepted removed 0 none
beat 1 1 1000 4 60 80 1 1 41 41:1:v,42:3:v,43:5:v > accepted removed 0 none
beat 1 1 1000 5 80 a0 1 1 51 51:1:v,52:3:v,53:5:v > accepted removed 0 none
beat 1 1 1000 6 a0 c0 1 1 61 61:1:v,62:3:v,63:5:v > accepted removed 0 none
beat 1 1 1000 7 c0 e0 1 1 71 71:1:v,72:3:v,73:5:v > accepted removed 0 none
beat 1 1 1000 8 e0 - 1 1 81 81:1:v,82:3:v,83:5:v > accepted removed 0 none
patrol 1 1001 4 > patrol regions 8 ok 8 split 0 plan 0 no-plan 0 added 0 buried 0
schedule 1 1002 > scheduler balance-leader-scheduler move-leader region 1 store 3 send transfer-leader peer 12 store 3
schedule 1 1003 > scheduler balance-region-scheduler move-peer region 2 from 1 to 2 send add-learner peer 1000001 store 2
ctl 1 1004 store 1 > {"address":"s1","id":1,"labels":[{"key":"zone","value":"z1"}],"leader_count":8,"region_count":8,"state_name":"Up"}
ctl 1 1004 scheduler remove balance-region-scheduler > {"done":"Removed"}
ctl 1 1004 scheduler remove balance-region-scheduler > {"fault":"absent"}
ctl 1 1004 scheduler show > {"schedulers":["balance-leader-scheduler"]}"#,
        // A leader's peer is moved by hand.
        r#"lead 1 1000 > won term 1 lo 1000 hi 4000
hello 1 1 1000 a1 > store put
hello 2 1 1000 a2 > store put
hello 3 1 1000 a3 > store put
hello 4 1 1000 a4 > store put
beat 1 1 1000 7 - - 1 1 11 11:1:v,12:2:v,13:3:v > accepted removed 0 none
ctl 1 1000 operator add transfer-peer 7 1 4 > {"added":4,"now":"send add-learner peer 1000001 store 4"}
ctl 1 1000 operator show > {"operators":[{"kind":"admin","region":7,"state":"Started","step":0,"steps":["add-learner peer 1000001 store 4","promote-learner peer 1000001 store 4","transfer-leader peer 12 store 2","remove-peer peer 11 store 1"]}]}
ctl 1 1000 operator add transfer-peer 7 1 4 > {"fault":"busy 3"}"#,
        // A driver whose term is over writes nothing, and another one has what was stored.
        r#"lead 1 1000 > won term 1 lo 1000 hi 4000
hello 1 1 1000 a1 > store put
lead 2 500 > won term 2 lo 4001 hi 7001
hello 2 1 1001 a2 > old-term 2
ctl 1 1001 store delete 1 > {"fault":"old-term 2"}
ctl 2 1002 store > {"count":1,"stores":[{"address":"a1","id":1,"labels":[],"leader_count":0,"region_count":0,"state_name":"Disconnected"}]}
alive 9 2 1002 > unknown-store
alive 1 3 1002 > not-leading
ctl 3 1002 store > not-leading
schedule 3 1002 > not-leading"#,
        // A driver resigns by a command, at its cluster and at the oracle.
        r#"lead 1 1000 > won term 1 lo 1000 hi 4000
hello 1 1 1000 a1 > store put
ctl 1 1001 member leader show > {"driver":1,"term":1}
ctl 1 1001 member leader resign > {"done":"Resigned"}
take 1 1 1 > not-leader
alive 1 1 1001 > not-leading
resign 1 > not-leading
ctl 1 1001 member leader resign > not-leading
lead 1 1002 > won term 2 lo 4001 hi 7001
alive 1 1 1002 > alive
schedule 2 1002 > not-leading"#,
        // In the middle of its single steps it goes on at the oracle.
        r#"lead 1 1000 > won term 1 lo 1000 hi 4000
hello 1 1 1000 a1 > store put
probe 1 3999 > probed cursor 262144000
ctl 1 1001 member leader resign > {"done":"Resigned"}
alive 1 1 1001 > not-leading
resign 1 > out-of-turn expected save
save 1 > saved hi 6999
raise 1 > raised cursor 1048313856
publish 1 > published hi 6999
alive 1 1 1001 > not-leading
take 1 1 1 > got term 1 driver 1 first 1048313857 last 1048313857
resign 1 > resigned"#,
        // Each driver has its own schedulers.
        r#"lead 1 1000 > won term 1 lo 1000 hi 4000
ctl 1 1000 scheduler remove balance-leader-scheduler > {"done":"Removed"}
schedule 1 1000 > scheduler balance-region-scheduler none
lead 2 1000 > won term 2 lo 4001 hi 7001
ctl 2 1000 scheduler show > {"schedulers":["balance-leader-scheduler","balance-region-scheduler"]}
schedule 2 1000 > scheduler balance-leader-scheduler none
ctl 1 1000 scheduler show > {"schedulers":["balance-region-scheduler"]}"#,
        // examples/pd_ctl.txt
        r#"lead 1 1000 > won term 1 lo 1000 hi 4000
hello 1 1 1000 a1 zone=z1,disk=ssd > store put
ctl 1 1001 store > {"count":1,"stores":[{"address":"a1","id":1,"labels":[{"key":"zone","value":"z1"},{"key":"disk","value":"ssd"}],"leader_count":0,"region_count":0,"state_name":"Up"}]}
hello 2 1 1001 a2 zone=z2 > store put
hello 3 1 1001 a3 zone=z3 > store put
hello 4 1 1001 a4 zone=z3 > store put
beat 1 1 1001 7 - 40 1 1 11 11:1:v,12:2:v,13:3:v > accepted removed 0 none
ctl 1 1001 region key 40 > {"fault":"no-region"}
beat 1 1 1001 8 40 - 1 1 21 21:1:v > accepted removed 0 none
ctl 1 1001 store 1 > {"address":"a1","id":1,"labels":[{"key":"zone","value":"z1"},{"key":"disk","value":"ssd"}],"leader_count":2,"region_count":2,"state_name":"Up"}
ctl 1 1001 store 6 > {"fault":"unknown-store"}
ctl 1 1001 region 7 > {"conf_ver":1,"end_key":"40","id":7,"leader":11,"peers":[{"id":11,"role":"Voter","store_id":1},{"id":12,"role":"Voter","store_id":2},{"id":13,"role":"Voter","store_id":3}],"start_key":"","version":1}
ctl 1 1001 region 9 > {"fault":"no-region"}
ctl 1 1001 region key 3FFF > {"conf_ver":1,"end_key":"40","id":7,"leader":11,"peers":[{"id":11,"role":"Voter","store_id":1},{"id":12,"role":"Voter","store_id":2},{"id":13,"role":"Voter","store_id":3}],"start_key":"","version":1}
ctl 1 1001 scheduler show > {"schedulers":["balance-leader-scheduler","balance-region-scheduler"]}
ctl 1 1001 member leader show > {"driver":1,"term":1}
ctl 1 1001 tso 395181938313123110 > {"logical":120102,"physical":1507499459507}
ctl 1 1001 operator add foo 7 4 > {"fault":"unknown"}
ctl 1 1001 store limit x y > {"fault":"missing-word"}
ctl 1 1001 store limit 1 2000000 foo x > {"fault":"extra-word"}
ctl 1 1001 store limit 1 1000001 add-peer > {"fault":"bad-number"}
ctl 1 1001 operator add remove-peer 7 4 > {"fault":"no-peer"}
ctl 1 1001 operator add add-peer 7 3 > {"fault":"has-peer"}
ctl 1 1001 operator add remove-peer 8 1 > {"fault":"no-target"}
ctl 1 1001 operator check 7 > {"fault":"absent"}
ctl 1 1001 operator add add-peer 7 4 > {"added":2,"now":"send add-learner peer 1000001 store 4"}
ctl 1 1001 operator show > {"operators":[{"kind":"admin","region":7,"state":"Started","step":0,"steps":["add-learner peer 1000001 store 4","promote-learner peer 1000001 store 4"]}]}
ctl 1 1001 operator check 7 > {"region":7,"state":"Started"}
ctl 1 1001 operator add transfer-leader 7 2 > {"fault":"busy 3"}
ctl 1 1002 operator remove 7 > {"done":"Canceled"}
ctl 1 1002 operator remove 7 > {"fault":"absent"}
ctl 1 1002 operator check 7 > {"region":7,"state":"Canceled"}
ctl 1 1002 operator add transfer-leader 7 2 > {"added":1,"now":"send transfer-leader peer 12 store 2"}
beat 2 1 1003 7 - 40 1 1 12 11:1:v,12:2:v,13:3:v > accepted removed 0 done
ctl 1 1003 operator check 7 > {"region":7,"state":"Success"}
ctl 1 1003 operator add transfer-peer 7 2 4 > {"added":4,"now":"send add-learner peer 1000002 store 4"}
ctl 1 1003 operator remove 7 > {"done":"Canceled"}
ctl 1 1003 store limit 3 0 remove-peer > {"done":"Limit"}
ctl 1 1003 operator add remove-peer 7 3 > {"fault":"limited available 0 needed 60000"}
ctl 1 1003 store limit 3 1000000 remove-peer > {"done":"Limit"}
ctl 1 1004 operator add remove-peer 7 3 > {"added":1,"now":"send remove-peer peer 13 store 3"}
beat 2 1 1005 7 - 40 2 1 12 11:1:v,12:2:v > accepted removed 0 done
ctl 1 1005 store limit 4 5 add-peer > {"done":"Limit"}
ctl 1 1005 store limit 6 5 add-peer > {"fault":"unknown-store"}
ctl 1 1006 store delete 3 > {"done":"Offline"}
ctl 1 1006 store delete 6 > {"fault":"unknown-store"}
ctl 1 1006 store 3 > {"address":"a3","id":3,"labels":[{"key":"zone","value":"z3"}],"leader_count":0,"region_count":0,"state_name":"Offline"}
ctl 1 1006 scheduler remove balance-region-scheduler > {"done":"Removed"}
ctl 1 1006 scheduler remove balance-region-scheduler > {"fault":"absent"}
ctl 1 1006 scheduler show > {"schedulers":["balance-leader-scheduler"]}
ctl 1 1007 member leader resign > {"done":"Resigned"}
ctl 1 1007 store > not-leading"#,
    ]
}

#[test]
fn worked_rows_are_answered_with_each_drivers_schedulers(rt: HostRuntime) -> Result<(), Fail> {
    let alloc = rt.alloc();
    for row in rows() {
        let script = script_of(alloc, row)?;
        let answers = answers_of(alloc, row)?;
        let mut benches = benches(alloc)?;
        let (script, answers) = (script.as_str(), answers.as_str());
        expect_with(&rt, alloc, script, &mut benches, Status::Done, answers)?;
    }
    Ok(())
}

#[test]
fn a_driver_without_a_bench_has_no_schedulers(rt: HostRuntime) -> Result<(), Fail> {
    let alloc = rt.alloc();
    let row = r#"lead 1 1000 > won term 1 lo 1000 hi 4000
schedule 1 1000 > no-scheduler
ctl 1 1000 scheduler show > {"schedulers":[]}
ctl 1 1000 scheduler remove balance-leader-scheduler > {"fault":"absent"}"#;
    let script = script_of(alloc, row)?;
    let answers = answers_of(alloc, row)?;
    let mut benches = Vec::new(alloc);
    let (script, answers) = (script.as_str(), answers.as_str());
    expect_with(&rt, alloc, script, &mut benches, Status::Done, answers)?;
    Ok(())
}
