// What the reader of a run's text refuses.
use crate::lawful_texts::{OPERATORS, PATROL, REGIONS, TERM, TURNS, WRITES};
use crate::run_reader::Printed;
use crate::run_tests::{
    behind_its_back, behind_its_back_outcome, expect_read, steps, steps_outcome,
};
use std::process::Abort;
use std::test::Fail;

// A text is lawful, and with each of these changes it isn't.
fn expect_refused<R: AllocGlobal + Abort>(
    rt: &R,
    script: &str,
    text: &str,
    changes: &[(&str, &str)],
) -> Result<(), Fail> {
    expect_read(rt, script, text)?;
    for (from, to) in changes {
        let changed = text.replace(rt.alloc(), *from, to)?;
        assert!(rt; changed.as_str() != text, "{from}");
        let lawful = match Printed::read(rt.alloc(), script, changed.as_str()) {
            Ok(printed) => printed.is_lawful(rt.alloc())?,
            Err(_) => false,
        };
        assert!(rt; !lawful, "{changed}");
    }
    Ok(())
}

// Texts that are no lawful run's, by one word each.
#[test]
fn the_reader_refuses_what_is_not_lawful(rt: HostRuntime) -> Result<(), Fail> {
    let script = "lead 1 1000\ntake 1 1 2\ntake 2 1 2\n";
    let text = "\
window 1 1 1000 4000
driver 1
1 won term 1 lo 1000 hi 4000
client 1
2 got term 1 driver 1 first 262144001 last 262144002
client 2
3 got term 1 driver 1 first 262144003 last 262144004
journal 1
1 line 1 term 1 stores 0 rules 1
meta
1 driver 1 lead 1 accepted 0
post
";
    let rows = [
        ("window 1 1 1000 4000", "window 1 1 1000 4001"),
        ("262144003 last 262144004", "262144002 last 262144003"),
        (
            "first 262144001 last 262144002",
            "first 262144001 last 262144001",
        ),
        (
            "first 262144001 last 262144002",
            "first 262143999 last 262144000",
        ),
        ("2 got term 1", "2 got term 2"),
        (
            "got term 1 driver 1 first 262144001 last 262144002",
            "again at 262144000 hi 4000 count 2",
        ),
        (
            "got term 1 driver 1 first 262144001 last 262144002",
            "stale seen 1",
        ),
    ];
    expect_refused(&rt, script, text, &rows)?;
    let rows = [
        ("8 {\"done\":\"Resigned\"}\n9", "8 not-leading\n9"),
        ("4 old-term 2\n6", "4 store put\n6"),
        (
            "6 empty",
            "6 popped term 1 entry 2 region 7 remove-peer peer 1 store 2",
        ),
        ("store 2\n5 store put\n", ""),
        ("journal 2", "journal 3"),
        ("1 line 1 term 1", "1 line 1 term 2"),
        ("1 line 1 term", "0 line 1 term"),
        ("2 line 2 store put", "2 line 2 alive"),
        (
            "2 line 2 store put\n3 line 4 old-term 2",
            "2 line 4 old-term 2\n3 line 2 store put",
        ),
        ("3 line 4 old-term 2", "3 line 6 old-term 2"),
        ("4 line 8 {\"done\":\"Resigned\"}\n", ""),
        ("2 line 5 store put", "2 line 5 not-leading"),
        ("lead 1 accepted 0", "lead 1 accepted 1"),
        ("1 accepted 1", "1 accepted 2"),
        ("lead 2 accepted 1", "lead 2 old-term 1"),
        ("old-term 2\n5", "accepted 2\n5"),
        ("driver 2 put 2", "driver 2 put 1"),
        ("00000000002 accepted", "00000000003 accepted"),
        ("5 driver 2", "6 driver 2"),
        ("3 driver 2 lead 2", "3 driver 1 lead 2"),
    ];
    expect_refused(&rt, behind_its_back(), behind_its_back_outcome(), &rows)?;
    let rows = [
        ("7 popped term 1", "7 popped term 2"),
        ("entry 5 region", "entry 4 region"),
        ("entry 6 region", "entry 5 region"),
        ("7 popped term 1 entry 5", "7 popped term 1 entry 6"),
        (
            "7 popped term 1 entry 5 region 7 add-learner peer 1000001 store 2\n8",
            "7 empty\n8",
        ),
        ("5 region 7 add-learner", "5 region 7 promote-learner"),
    ];
    expect_refused(&rt, steps(), steps_outcome(), &rows)
}

// Answers of the oracle that don't fit their lines.
#[test]
fn answers_that_no_term_gives_are_refused(rt: HostRuntime) -> Result<(), Fail> {
    let rows = [
        ("2 idle", "2 moved next 1001 hi 4000"),
        ("2 idle", "2 not-leading"),
        ("2 idle", "2 resigned"),
        ("2 idle", "2 clock-range"),
        ("2 idle", "2 beaten saved 5000 term 2"),
        ("2 idle", "2 terms-spent"),
        ("4 not-leading", "4 idle"),
        ("4 not-leading", "4 lost saved 5000 term 2"),
    ];
    expect_refused(&rt, TERM.0, TERM.1, &rows)
}

// Writes that no entry made, entries that made no write, and what a cluster can't have been handed.
#[test]
fn records_that_no_entry_wrote_are_refused(rt: HostRuntime) -> Result<(), Fail> {
    let rows = [
        ("put 1 rule/7064/78", "put 1 rule/7064/7a"),
        ("put 1 rule/7064/78", "delete 1 rule/7064/78"),
        (
            "3 driver 1 put 1 rule/7064/64",
            "3 driver 1 put 1 rule/7065/64",
        ),
        ("delete 1 rule/7064/64656661756c74", "delete 1 rule/7064/78"),
        (
            "6 driver 1 put 1 store/00000000000000000001",
            "6 driver 1 put 1 id",
        ),
        ("6 driver 1 put 1 store/0", "6 driver 1 put 1 store/1"),
        ("rule/7064/79 old-term 2", "rule/7064/79 conflict 2"),
        (
            "8 driver 1 put 1 rule/7064/79",
            "8 driver 1 put 1 rule/7064/78",
        ),
        ("8 driver 1 put 1 rule/7064/79 old-term 2\n", ""),
        ("\n8 driver 1 put", "\n8 driver 3 put"),
        ("stores 1 rules 1", "stores 2 rules 1"),
        ("stores 1 rules 1", "stores 1 rules 2"),
        ("last-rule", "absent"),
        ("rule removed", "absent"),
        ("rule set", "bad-rule 3"),
        ("9 alive", "9 unknown-store"),
        ("10 unknown-store", "10 alive"),
        ("{\"fault\":\"unknown-store\"}", "{\"done\":\"Limit\"}"),
        ("{\"done\":\"Offline\"}", "{\"fault\":\"tombstone\"}"),
        ("{\"done\":\"Offline\"}", "{\"done\":\"Limit\"}"),
        ("\"count\":1", "\"count\":2"),
    ];
    expect_refused(&rt, WRITES.0, WRITES.1, &rows)
}

// Schedulers out of turn.
#[test]
fn schedulers_out_of_turn_are_refused(rt: HostRuntime) -> Result<(), Fail> {
    let rows = [
        ("2 scheduler balance-leader", "2 scheduler balance-region"),
        ("3 scheduler balance-region", "3 scheduler balance-leader"),
        ("5 scheduler balance-region", "5 scheduler balance-leader"),
        (
            "5 scheduler balance-region-scheduler none",
            "5 no-scheduler",
        ),
        (
            "[\"balance-region-scheduler\"]",
            "[\"balance-leader-scheduler\"]",
        ),
        ("[\"balance-region-scheduler\"]", "[]"),
        ("{\"fault\":\"absent\"}", "{\"done\":\"Removed\"}"),
        ("{\"done\":\"Removed\"}", "{\"fault\":\"absent\"}"),
    ];
    expect_refused(&rt, TURNS.0, TURNS.1, &rows)
}

// Answers to heartbeats, and to requests for regions, that those which stand don't give.
#[test]
fn regions_that_do_not_stand_are_refused(rt: HostRuntime) -> Result<(), Fail> {
    let rows = [
        ("stale conf 1 version 2", "stale conf 1 version 1"),
        ("stale conf 1 version 2", "accepted removed 1 none"),
        ("accepted removed 1 none", "accepted removed 0 none"),
        ("accepted removed 1 none", "stale conf 1 version 2"),
        ("accepted removed 1 none", "accepted removed 1 done"),
        ("no-region", "no-fault"),
        ("\"leader\":21", "\"leader\":22"),
        ("\"conf_ver\":1", "\"conf_ver\":2"),
        ("bad 5", "bad 6"),
        ("bad 5", "accepted removed 1 none"),
    ];
    expect_refused(&rt, REGIONS.0, REGIONS.1, &rows)
}

// Operators that can't be where they are told, and ids that were given before.
#[test]
fn operators_that_are_not_there_are_refused(rt: HostRuntime) -> Result<(), Fail> {
    let rows = [
        ("busy 2", "busy 3"),
        ("busy 2", "limited available 60000 needed 60000"),
        ("busy 2", "epoch-moved conf 1 version 1"),
        ("busy 2", "old-term 2"),
        ("1000002", "1000001"),
        ("1000002", "1001002"),
        (
            "8 accepted removed 0 send add-learner peer 1000002 store 2",
            "8 accepted removed 0 none",
        ),
        ("11 accepted removed 0 none", "11 accepted removed 0 done"),
        ("{\"fault\":\"absent\"}", "{\"done\":\"Canceled\"}"),
        ("{\"done\":\"Canceled\"}", "{\"fault\":\"absent\"}"),
        ("{\"done\":\"Canceled\"}", "{\"done\":\"Removed\"}"),
        ("has-peer", "no-peer"),
        ("has-peer", "unknown-store"),
        ("held before live 0 of 1", "held before live 1 of 1"),
        (
            "held before live 0 of 1",
            "send add-learner peer 1000003 store 2",
        ),
        ("4 driver 1 put 1 id accepted 3\n", ""),
        ("put 1 id accepted", "put 2 id accepted"),
        (
            "15 empty",
            "15 popped term 1 entry 5 region 7 add-learner peer 1000001 store 2",
        ),
    ];
    expect_refused(&rt, OPERATORS.0, OPERATORS.1, &rows)
}

// Steps that a patrol can't have sent, and stores that it can't have buried.
#[test]
fn steps_that_no_patrol_sent_are_refused(rt: HostRuntime) -> Result<(), Fail> {
    let rows = [
        ("8 region 7 add-learner", "8 region 8 add-learner"),
        ("8 region 7 add-learner", "8 region 9 add-learner"),
        ("entry 8 region 7", "entry 7 region 7"),
        (
            "add-learner peer 1000001 store 2",
            "add-learner peer 1000001 store 1",
        ),
        (
            "add-learner peer 1000001 store 2",
            "remove-peer peer 11 store 1",
        ),
        (
            "add-learner peer 1000001 store 2",
            "transfer-leader peer 11 store 2",
        ),
        (
            "7 add-learner peer 1000001 store 2\n10 popped term 1 entry 8 region 8 add-learner peer 1000002",
            "8 add-learner peer 1000002 store 2\n10 popped term 1 entry 8 region 7 add-learner peer 1000001",
        ),
        ("added 2", "added 1"),
        ("added 2", "added 3"),
        ("regions 2 ok 0", "regions 3 ok 1"),
        ("ok 0 split 0", "ok 1 split 0"),
        ("buried 1", "buried 0"),
        ("buried 1", "buried 2"),
        (
            "7 driver 1 put 1 store/00000000000000000003",
            "7 driver 1 put 1 store/00000000000000000002",
        ),
        ("12 tombstone", "12 alive"),
        ("13 tombstone", "13 store put"),
        ("1000002", "1000001"),
        (
            "6 driver 1 put 1 id",
            "6 driver 1 put 1 store/00000000000000000002",
        ),
    ];
    expect_refused(&rt, PATROL.0, PATROL.1, &rows)
}
