// The checker, the patrol and the operators that they add, by scripts with typed answers.
use crate::scripts::Scene;
use std::test::Fail;

// A Down peer is replaced: the misfit numbers are 2, 1 and 0. The worked row of repair. The messages go to
// the leader's store, with the place of the entry that sent each.
fn repair() -> &'static str {
    r#"term 1 1000 => term 1 stores 0 rules 1
hello 1 1000 a1 zone=z1 => store put
hello 2 1000 a2 zone=z2 => store put
hello 3 1000 a3 zone=z3 => store put
hello 4 1000 a4 zone=z3 => store put
beat 1000 7 - - 1 1 11 11:1:v,12:2:v,13:3:v => accepted removed 0 none
alive 1 1801001 => alive
alive 2 1801001 => alive
alive 4 1801001 => alive
check 1801001 7 => plan add-voter from 2 to 1 send add-learner peer 1000001 store 4
ctl 1801001 operator show => {"operators":[{"kind":"check","region":7,"state":"Started","step":0,"steps":["add-learner peer 1000001 store 4","promote-learner peer 1000001 store 4"]}]}
beat 1801002 7 - - 2 1 11 11:1:v,12:2:v,13:3:v,1000001:4:l => accepted removed 0 send promote-learner peer 1000001 store 4
beat 1801003 7 - - 3 1 11 11:1:v,12:2:v,13:3:v,1000001:4:v => accepted removed 0 done
check 1801003 7 => plan remove from 1 to 0 send remove-peer peer 13 store 3
beat 1801004 7 - - 4 1 11 11:1:v,12:2:v,1000001:4:v => accepted removed 0 done
check 1801004 7 => no-fault
sends => (1 to 1 term 1 entry 10 region 7 add-learner peer 1000001 store 4)(1 to 1 term 1 entry 12 region 7 promote-learner peer 1000001 store 4)(1 to 1 term 1 entry 14 region 7 remove-peer peer 13 store 3)
"#
}

// Two voters are missing and a learner is on a Down store: three misfits, of which each plan takes one,
// carried out by the heartbeats that answer its steps.
fn three_misfits() -> &'static str {
    "\
term 1 1000 => term 1 stores 0 rules 1
hello 1 1000 a1 => store put
hello 2 1000 a2 => store put
hello 3 1000 a3 => store put
hello 9 1000 a9 => store put
beat 1000 7 - - 1 1 11 11:1:v,12:9:l => accepted removed 0 none
alive 1 1801001 => alive
alive 2 1801001 => alive
alive 3 1801001 => alive
check 1801001 7 => plan add-voter from 3 to 2 send add-learner peer 1000001 store 2
beat 1801001 7 - - 2 1 11 11:1:v,12:9:l,1000001:2:l => accepted removed 0 send promote-learner peer 1000001 store 2
beat 1801001 7 - - 3 1 11 11:1:v,12:9:l,1000001:2:v => accepted removed 0 done
check 1801001 7 => plan add-voter from 2 to 1 send add-learner peer 1000002 store 3
beat 1801001 7 - - 4 1 11 11:1:v,12:9:l,1000001:2:v,1000002:3:l => accepted removed 0 send promote-learner peer 1000002 store 3
beat 1801001 7 - - 5 1 11 11:1:v,12:9:l,1000001:2:v,1000002:3:v => accepted removed 0 done
check 1801001 7 => plan remove from 1 to 0 send remove-peer peer 12 store 9
beat 1801001 7 - - 6 1 11 11:1:v,1000001:2:v,1000002:3:v => accepted removed 0 done
check 1801001 7 => no-fault
"
}

// Equal totals and no fit, the worked row of two rules that both ask for zone z1.
fn no_fit() -> &'static str {
    r#"term 1 1000 => term 1 stores 0 rules 1
hello 1 1000 a1 zone=z1 => store put
hello 2 1000 a2 zone=z2 => store put
rule 1000 {"group_id":"pd","id":"A","role":"voter","count":1,"label_constraints":[{"key":"zone","op":"in","values":["z1"]}]} => rule set
rule 1000 {"group_id":"pd","id":"B","role":"voter","count":1,"label_constraints":[{"key":"zone","op":"in","values":["z1"]}]} => rule set
unrule 1000 default => rule removed
beat 1000 7 - - 1 1 11 11:1:v,12:2:v => accepted removed 0 none
check 1000 7 => no-plan from 2
"#
}

// A border inside the region comes before all else, the worked row of rules.
fn split() -> &'static str {
    r#"term 1 1000 => term 1 stores 0 rules 1
hello 1 1000 a1 => store put
hello 2 1000 a2 => store put
hello 3 1000 a3 => store put
beat 1000 7 - - 1 1 11 11:1:v,12:2:v,13:3:v => accepted removed 0 none
rule 1000 {"group_id":"pd","id":"x","role":"voter","count":1,"start_key":"40","color":"red"} => rule set
check 1000 7 => needs-split 40
check 1000 8 => no-region
unrule 1000 x => rule removed
check 1000 7 => no-fault
"#
}

// Eight regions of three voters each that fit, the worked row of a patrol after the opening lines of a
// made script: five stores in three zones.
fn eight_regions() -> &'static str {
    "\
term 1 1000 => term 1 stores 0 rules 1
hello 1 1000 s1 zone=z1 => store put
hello 2 1000 s2 zone=z1 => store put
hello 3 1000 s3 zone=z2 => store put
hello 4 1000 s4 zone=z2 => store put
hello 5 1000 s5 zone=z3 => store put
beat 1000 1 - 20 1 1 11 11:1:v,12:3:v,13:5:v => accepted removed 0 none
beat 1000 2 20 40 1 1 21 21:1:v,22:3:v,23:5:v => accepted removed 0 none
beat 1000 3 40 60 1 1 31 31:1:v,32:3:v,33:5:v => accepted removed 0 none
beat 1000 4 60 80 1 1 41 41:1:v,42:3:v,43:5:v => accepted removed 0 none
beat 1000 5 80 a0 1 1 51 51:1:v,52:3:v,53:5:v => accepted removed 0 none
beat 1000 6 a0 c0 1 1 61 61:1:v,62:3:v,63:5:v => accepted removed 0 none
beat 1000 7 c0 e0 1 1 71 71:1:v,72:3:v,73:5:v => accepted removed 0 none
beat 1000 8 e0 - 1 1 81 81:1:v,82:3:v,83:5:v => accepted removed 0 none
patrol 1001 => patrol regions 8 ok 8 split 0 plan 0 no-plan 0 added 0 buried 0
"
}

// A patrol says of each region what a check says of it, and passes over the region that has an
// operator and the one whose plan's steps a store limit refuses. Of three regions the first fits and
// the others lack a voter: the first new peer goes to store 3, as the plan of the check does.
fn patrol() -> &'static str {
    "\
term 1 1000 => term 1 stores 0 rules 1
hello 1 1000 s1 => store put
hello 2 1000 s2 => store put
hello 3 1000 s3 => store put
beat 1000 1 - 20 1 1 11 11:1:v,12:2:v,13:3:v => accepted removed 0 none
beat 1000 2 20 40 1 1 21 21:1:v,22:2:v => accepted removed 0 none
beat 1000 3 40 - 1 1 31 31:1:v,32:2:v,1000002:9:l => accepted removed 0 none
check 1000 1 => no-fault
check 1000 2 => plan add-voter from 1 to 0 send add-learner peer 1000001 store 3
check 1000 2 => plan add-voter from 1 to 0 busy 2
patrol 1000 => patrol regions 3 ok 1 split 0 plan 2 no-plan 0 added 1 buried 0
beat 1000 3 40 - 1 1 31 31:1:v,32:2:v,1000002:9:l => accepted removed 0 send add-learner peer 1000003 store 3
"
}

// Four regions of which each is checked: the first fits, the second lacks a voter, the third has a
// border inside, and the fourth asks for a voter that no store is left for.
fn checked() -> &'static str {
    r#"term 1 1000 => term 1 stores 0 rules 1
hello 1 1000 s1 => store put
hello 2 1000 s2 => store put
hello 3 1000 s3 => store put
rule 1000 {"group_id":"pd","id":"x","role":"voter","count":1,"start_key":"60"} => rule set
beat 1000 1 - 20 1 1 11 11:1:v,12:2:v,13:3:v => accepted removed 0 none
beat 1000 2 20 40 1 1 21 21:1:v,22:2:v => accepted removed 0 none
beat 1000 3 40 80 1 1 31 31:1:v,32:2:v,33:3:v => accepted removed 0 none
beat 1000 4 80 - 1 1 41 41:1:v,42:2:v,43:3:v => accepted removed 0 none
check 1000 1 => no-fault
check 1000 2 => plan add-voter from 1 to 0 send add-learner peer 1000001 store 3
check 1000 3 => needs-split 60
check 1000 4 => no-plan from 1
"#
}

// A patrol of the same regions counts what the checks said, and plans the same step.
fn patrolled() -> &'static str {
    r#"term 1 1000 => term 1 stores 0 rules 1
hello 1 1000 s1 => store put
hello 2 1000 s2 => store put
hello 3 1000 s3 => store put
rule 1000 {"group_id":"pd","id":"x","role":"voter","count":1,"start_key":"60"} => rule set
beat 1000 1 - 20 1 1 11 11:1:v,12:2:v,13:3:v => accepted removed 0 none
beat 1000 2 20 40 1 1 21 21:1:v,22:2:v => accepted removed 0 none
beat 1000 3 40 80 1 1 31 31:1:v,32:2:v,33:3:v => accepted removed 0 none
beat 1000 4 80 - 1 1 41 41:1:v,42:2:v,43:3:v => accepted removed 0 none
patrol 1000 => patrol regions 4 ok 1 split 1 plan 1 no-plan 1 added 1 buried 0
beat 1000 2 20 40 1 1 21 21:1:v,22:2:v => accepted removed 0 send add-learner peer 1000001 store 3
"#
}

// What an operator's clock and its region's end come to: Created ones expire after 3 seconds, an
// epoch that moved cancels, and the operators of a displaced region are gone. Heartbeats go by the
// clock, so that a moment of the past is late too.
fn lives() -> &'static str {
    r#"term 1 1000 => term 1 stores 0 rules 1
hello 1 1000 s1 => store put
hello 2 1000 s2 => store put
hello 3 1000 s3 => store put
beat 1000 7 - - 1 1 11 11:1:v,12:2:v => accepted removed 0 none
check 1000 7 => plan add-voter from 1 to 0 send add-learner peer 1000001 store 3
alive 1 601001 => alive
alive 2 601001 => alive
beat 1000 7 - - 1 1 11 11:1:v,12:2:v => accepted removed 0 ended Timeout
ctl 601001 operator check 7 => {"region":7,"state":"Timeout"}
beat 1000 7 - - 1 1 11 11:1:v,12:2:v => accepted removed 0 none
alive 3 601001 => alive
check 601001 7 => plan add-voter from 1 to 0 send add-learner peer 1000002 store 3
beat 601001 7 - - 3 1 11 11:1:v,12:2:v => accepted removed 0 ended Canceled
check 601001 7 => plan add-voter from 1 to 0 send add-learner peer 1000003 store 3
beat 601001 8 - - 1 2 81 81:1:v,82:2:v => accepted removed 1 none
beat 601001 7 - - 3 3 11 11:1:v,12:2:v => accepted removed 1 none
"#
}

// A learner without a majority of live voters is held, and its operator expires.
fn held() -> &'static str {
    r#"term 1 1000 => term 1 stores 0 rules 1
hello 1 1000 s1 => store put
hello 2 1000 s2 => store put
hello 3 1000 s3 => store put
beat 1000 7 - - 1 1 11 11:1:v,12:2:v,13:3:l => accepted removed 0 none
alive 3 21001 => alive
alive 1 21001 => alive
check 21001 7 => plan promote from 2 to 0 held before live 1 of 2
beat 24001 7 - - 1 1 11 11:1:v,12:2:v,13:3:l => accepted removed 0 held before live 1 of 2
beat 24002 7 - - 1 1 11 11:1:v,12:2:v,13:3:l => accepted removed 0 ended Expired
ctl 24002 operator check 7 => {"region":7,"state":"Expired"}
"#
}

// An outdated driver's plans have no ids: the check's own, and the first of the patrol, which stops there
// and looks no further for one.
fn without_ids() -> &'static str {
    "\
term 1 1000 => term 1 stores 0 rules 1
hello 1 1000 s1 => store put
hello 2 1000 s2 => store put
hello 3 1000 s3 => store put
beat 1000 2 - 40 1 1 21 21:1:v,22:2:v => accepted removed 0 none
beat 1000 3 40 - 1 1 31 31:1:v,32:2:v,33:9:l => accepted removed 0 none
outdate => outdated
check 1000 2 => plan add-voter from 1 to 0 old-term 5
patrol 1000 => patrol regions 2 ok 0 split 0 plan 2 no-plan 0 added 0 buried 0
writes => (1 lead 1)(1 put store/00000000000000000001 0 Accepted { revision: 1 })(1 put store/00000000000000000002 0 Accepted { revision: 2 })(1 put store/00000000000000000003 0 Accepted { revision: 3 })(2 lead 5)(1 put id 0 OldTerm { fence: 5 })(1 put id 0 OldTerm { fence: 5 })
"
}

// An Offline store is buried where no region has a peer on it and the regions leave no key out; a
// buried store is a tombstone then, also for the next term.
fn burial() -> &'static str {
    "\
keep store/00000000000000000008 offline a - => kept
keep store/00000000000000000009 offline a - => kept
term 2 1000 => term 2 stores 2 rules 1
hello 1 1000 s1 => store put
patrol 1000 => patrol regions 0 ok 0 split 0 plan 0 no-plan 0 added 0 buried 0
beat 1000 7 - 80 1 1 11 11:1:v => accepted removed 0 none
patrol 1000 => patrol regions 1 ok 0 split 0 plan 0 no-plan 1 added 0 buried 0
beat 1000 8 80 - 1 1 81 81:1:v,82:8:l => accepted removed 0 none
patrol 1000 => patrol regions 2 ok 0 split 0 plan 0 no-plan 2 added 0 buried 1
hello 9 1000 s9 => tombstone
hello 8 1000 s8 => store put
patrol 1000 => patrol regions 2 ok 0 split 0 plan 0 no-plan 2 added 0 buried 0
term 3 1000 => term 3 stores 3 rules 1
hello 9 1000 s9 => tombstone
"
}

// Each script by itself.
#[test]
fn checks_and_patrols_are_answered(rt: HostRuntime) -> Result<(), Fail> {
    let alloc = rt.alloc();
    let scripts = [
        repair(),
        three_misfits(),
        no_fit(),
        split(),
        eight_regions(),
        patrol(),
        checked(),
        patrolled(),
        lives(),
        held(),
        without_ids(),
        burial(),
    ];
    for lines in scripts {
        Scene::new(alloc).play(&rt, alloc, lines)?;
    }
    Ok(())
}
