// Whole runs over a source and a sink in memory. The expected answers are worked examples.
use crate::status::Status;
use crate::top::{MAX_BYTES, pd_top};
use pd_io::{MemSink, MemSource, SureSink, SureSource};
use pd_types::OpenGate;
use sched_api::Bench;
use std::alloc::{AllocError, Global};
use std::process::Abort;
use std::sync::Wait;
use std::test::Fail;
use std::thread::Threads;

const SCRIPT: &str = "lead 1 1000\ntake 1 1 3\n";

const ANSWER: &str =
    "1 won term 1 lo 1000 hi 4000\n2 got term 1 driver 1 first 262144001 last 262144003\n";

// The words of a command line.
fn words_of(alloc: Global, words: &[&str]) -> Result<Vec<String>, AllocError> {
    let mut all = Vec::new(alloc);
    for word in words {
        all.push(String::from_str(alloc, word)?)?;
    }
    Ok(all)
}

// Runs `replay` over a script and these benches, and compares how it ends and what it writes.
pub fn expect_with<R: Threads + Wait + Sync + Abort>(
    rt: &R,
    alloc: Global,
    script: &str,
    benches: &mut Vec<Bench>,
    status: Status,
    written: &str,
) -> Result<(), AllocError> {
    let words = words_of(alloc, &["replay"])?;
    let mut source = SureSource::new(script.as_bytes().to_vec(alloc)?);
    let mut sink = SureSink::new(alloc);
    let ended = pd_top(
        rt,
        alloc,
        &words,
        &mut source,
        &mut sink,
        benches,
        &OpenGate,
    );
    assert_eq!(rt; ended, status, "{script}");
    assert_eq!(rt; sink.bytes(), written.as_bytes(), "{script}");
    Ok(())
}

// The same without benches.
fn expect<R: Threads + Wait + Sync + Abort>(
    rt: &R,
    alloc: Global,
    script: &str,
    status: Status,
    written: &str,
) -> Result<(), AllocError> {
    expect_with(rt, alloc, script, &mut Vec::new(alloc), status, written)
}

// Worked rows. In each line an act stands in front of `>` and its answer.
pub fn rows() -> [&'static str; 32] {
    [
        "\
lead 1 1000 > won term 1 lo 1000 hi 4000
hello 1 1 1000 a1 > store put
lead 2 500 > won term 2 lo 4001 hi 7001
hello 2 1 1001 a2 > old-term 2
alive 9 2 1002 > unknown-store
alive 1 3 1002 > not-leading",
        "\
lead 1 1000 > won term 1 lo 1000 hi 4000
hello 1 1 1000 a1 zone=z1 > store put
resign 1 > resigned
alive 1 1 1001 > not-leading
lead 2 5000 > won term 2 lo 5000 hi 8000
alive 1 2 5001 > alive
alive 2 2 5001 > unknown-store
hello 1 2 5002 a9 > store put
lead 1 5003 > won term 3 lo 8001 hi 11001
hello 1 1 5004 a1 > store put
hello 1 2 5005 a1 > old-term 3",
        "\
lead 1 1000 > won term 1 lo 1000 hi 4000
take 1 1 3 > got term 1 driver 1 first 262144001 last 262144003
tick 1 900 > idle
tick 2 900 > not-leading
resign 1 > resigned
resign 1 > not-leading",
        "\
lead 1 0 > won term 1 lo 1 hi 3001
take 1 1 1 > got term 1 driver 1 first 262145 last 262145",
        // examples/logical_part_used_up.txt
        "\
lead 1 1000 > won term 1 lo 1000 hi 4000
take 1 1 262143 > got term 1 driver 1 first 262144001 last 262406143
take 1 1 1 > again at 262406143 hi 4000 count 1
tick 1 1000 > moved next 1001 hi 4000
take 1 1 1 > got term 1 driver 1 first 262406145 last 262406145",
        "\
lead 1 1000 > won term 1 lo 1000 hi 4000
tick 1 3999 > moved next 3999 hi 6999",
        "\
lead 1 1000 > won term 1 lo 1000 hi 4000
tick 1 3998 > moved next 3998 hi 4000",
        // examples/lost_term.txt
        "\
lead 1 1000 > won term 1 lo 1000 hi 4000
take 1 1 3 > got term 1 driver 1 first 262144001 last 262144003
lead 2 500 > won term 2 lo 4001 hi 7001
take 2 2 1 > got term 2 driver 2 first 1048838145 last 1048838145
take 1 1 2 > got term 1 driver 1 first 262144004 last 262144005
hear 1 > nothing
tell 2 1 > told
hear 1 > heard term 2 last 1048838145
take 1 1 1 > stale seen 2
tick 1 3999 > lost saved 7001 term 2
take 2 1 1 > not-leader",
        "\
read 1 1000 > cell saved 0 term 0
read 2 2000 > cell saved 0 term 0
campaign 2 > claimed term 1
campaign 1 > beaten saved 0 term 1
read 1 1000 > cell saved 0 term 1
campaign 1 > claimed term 2
save 2 > lost saved 0 term 2
publish 2 > published 0
save 1 > saved hi 4000
raise 1 > raised cursor 262144000
publish 1 > published hi 4000
raise 1 > out-of-turn expected rest",
        "\
lead 1 1000 > won term 1 lo 1000 hi 4000
take 1 1 262000 > got term 1 driver 1 first 262144001 last 262406000
look 1 1 > looked term 1 hi 4000
arm 1 100 > armed at 262406000
look 2 1 > looked term 1 hi 4000
arm 2 100 > armed at 262406000
draw 1 > got term 1 driver 1 first 262406001 last 262406100
draw 2 > again at 262406100 hi 4000 count 100
take 2 1 1 > got term 1 driver 1 first 262406201 last 262406201",
        "\
lead 1 1000 > won term 1 lo 1000 hi 4000
look 1 1 > looked term 1 hi 4000
arm 1 5 > armed at 262144000
lead 2 1500 > won term 2 lo 4001 hi 7001
lead 1 1600 > won term 3 lo 7002 hi 10002
draw 1 > again at 1835532288 hi 4000 count 5
take 1 1 1 > got term 3 driver 1 first 1835532294 last 1835532294",
        "\
cell 5 262142 > cell saved 5 term 262142
lead 1 0 > won term 262143 lo 6 hi 3006
lead 1 0 > terms-spent",
        "\
lead 1 35184372085832 > clock-range
lead 1 35184372085831 > won term 1 lo 35184372085831 hi 35184372088831
take 1 1 1 > got term 1 driver 1 first 9223372036068081665 last 9223372036068081665",
        "\
probe 1 900 > not-leading
lead 1 1000 > won term 1 lo 1000 hi 4000
probe 1 2000 > probed cursor 262144000
tick 1 2000 > out-of-turn expected raise
raise 1 > raised cursor 524288000",
        "\
lead 1 1000 > won term 1 lo 1000 hi 4000
look 1 1 > looked term 1 hi 4000
draw 1 > out-of-turn expected arm
take 1 1 1 > out-of-turn expected arm
tell 1 1 > out-of-turn expected arm
arm 1 2 > armed at 262144000
hear 1 > out-of-turn expected draw
draw 1 > got term 1 driver 1 first 262144001 last 262144002",
        "\
read 1 1000 > cell saved 0 term 0
lead 1 1000 > out-of-turn expected campaign
campaign 1 > claimed term 1
resign 1 > out-of-turn expected save
save 1 > saved hi 4000
publish 1 > out-of-turn expected raise
raise 1 > raised cursor 262144000
raise 1 > out-of-turn expected publish",
        "\
lead 7 70368744177663 > clock-range
take 64 7 262143 > not-leader",
        "\
lead 1 1000 > won term 1 lo 1000 hi 4000
beat 1 1 1000 7 - 40 1 6 11 11:1:v > accepted removed 0 none
beat 1 1 1001 8 20 60 1 5 21 21:1:v > stale conf 1 version 6
beat 1 1 1002 9 40 - 1 6 31 31:1:v > accepted removed 0 none
beat 1 1 1003 10 - - 1 7 41 41:1:v > accepted removed 2 none
beat 1 1 1004 11 - - 1 8 51 52:1:v > bad 5",
        "\
lead 1 1000 > won term 1 lo 1000 hi 4000
hello 1 1 1000 a1 > store put
hello 2 1 1000 a2 > store put
hello 3 1 1000 a3 > store put
beat 1 1 1000 7 - - 1 1 11 11:1:v,12:2:v,13:3:v > accepted removed 0 none
alive 1 1 21001 > alive
alive 4 1 21001 > unknown-store
alive 1 2 21001 > not-leading
hello 1 2 21001 a1 zone=z1 > not-leading",
        "\
read 1 1000 > cell saved 0 term 0
campaign 1 > claimed term 1
save 1 > saved hi 4000
raise 1 > raised cursor 262144000
alive 1 1 1000 > not-leading
publish 1 > published hi 4000
hello 1 1 900 a1 > store put
probe 1 3999 > probed cursor 262144000
save 1 > saved hi 6999
raise 1 > raised cursor 1048313856
publish 1 > published hi 6999
alive 1 1 1000 > alive
resign 1 > resigned
alive 1 1 1000 > not-leading
lead 1 1000 > won term 2 lo 7000 hi 10000
alive 1 1 1000 > alive
alive 2 1 1000 > unknown-store",
        "\
lead 1 1000 > won term 1 lo 1000 hi 4000
lead 2 1000 > won term 2 lo 4001 hi 7001
hello 1 1 1000 a1 > old-term 2
tick 1 3999 > lost saved 7001 term 2
alive 1 1 1000 > not-leading
alive 1 2 1000 > unknown-store",
        // examples/clock_steps_back.txt
        "\
lead 1 1000 > won term 1 lo 1000 hi 4000
take 1 1 3 > got term 1 driver 1 first 262144001 last 262144003
tick 1 900 > idle
take 1 1 1 > got term 1 driver 1 first 262144004 last 262144004
lead 1 500 > won term 2 lo 4001 hi 7001
take 1 1 1 > got term 2 driver 1 first 1048838145 last 1048838145
tick 1 4002 > idle
tick 1 4003 > moved next 4003 hi 7001
take 1 1 1 > got term 2 driver 1 first 1049362433 last 1049362433",
        // examples/lost_term_on_threads.txt
        "\
lead 1 1000 > won term 1 lo 1000 hi 4000
hello 1 1 1000 a1 > store put
take 1 1 3 > got term 1 driver 1 first 262144001 last 262144003
lead 2 500 > won term 2 lo 4001 hi 7001
hello 2 2 501 a3 > store put
take 1 1 2 > got term 1 driver 1 first 262144004 last 262144005
alive 1 1 1001 > alive
hello 1 1 1002 a2 > old-term 2
tick 1 3999 > lost saved 7001 term 2
alive 1 1 4000 > not-leading
take 2 1 1 > not-leader",
        // examples/stale_heartbeat.txt
        "\
lead 1 1000 > won term 1 lo 1000 hi 4000
hello 1 1 1000 tikv-1:20160 zone=east > store put
beat 1 1 1001 1 - - 1 1 11 11:1:v > accepted removed 0 none
beat 1 1 1002 1 - 6d 1 2 11 11:1:v > accepted removed 0 none
beat 1 1 1003 2 6d - 1 2 21 21:1:v > accepted removed 0 none
beat 1 1 1004 1 - - 1 1 11 11:1:v > stale conf 1 version 2
beat 1 1 1005 2 - - 1 3 21 21:1:v > accepted removed 1 none",
        "\
lead 1 1000 > won term 1 lo 1000 hi 4000
hello 1 1 1000 a1 > store put
hello 2 1 1000 a2 > store put
hello 3 1 1000 a3 > store put
beat 1 1 1000 7 - - 1 1 11 11:1:v,12:2:v,13:3:v > accepted removed 0 none
rule 1 1000 {\"group_id\":\"pd\",\"id\":\"x\",\"role\":\"voter\",\"count\":1,\"start_key\":\"40\",\"color\":\"red\"} > rule set
check 1 1000 7 > needs-split 40
rule 1 1000 {\"group_id\":\"pd\",\"id\":\"x\",\"role\":\"voter\",\"count\":1,\"start_key\":\"40\",\"isolation_level\":\"zone\"} > bad-rule 10
unrule 1 1000 pd y > absent
unrule 1 1000 pd x > rule removed
unrule 1 1000 pd default > last-rule
unrule 2 1000 pd x > not-leading",
        // The first other rule stores the default rule too, so the next term knows both.
        "\
lead 1 1000 > won term 1 lo 1000 hi 4000
rule 1 1000   {\"group_id\": \"pd\", \"id\": \"x\", \"role\": \"voter\", \"count\": 1}   > rule set
lead 2 500 > won term 2 lo 4001 hi 7001
unrule 1 1001 pd x > old-term 2
unrule 2 501 pd default > rule removed
unrule 2 502 pd x > last-rule
lead 1 1002 > won term 3 lo 7002 hi 10002
unrule 1 1003 pd default > absent",
        // Equal totals, no fit.
        "\
lead 1 1000 > won term 1 lo 1000 hi 4000
hello 1 1 1000 a1 zone=z1 > store put
hello 2 1 1000 a2 zone=z2 > store put
rule 1 1000 {\"group_id\":\"pd\",\"id\":\"A\",\"role\":\"voter\",\"count\":1,\"label_constraints\":[{\"key\":\"zone\",\"op\":\"in\",\"values\":[\"z1\"]}]} > rule set
rule 1 1000 {\"group_id\":\"pd\",\"id\":\"B\",\"role\":\"voter\",\"count\":1,\"label_constraints\":[{\"key\":\"zone\",\"op\":\"in\",\"values\":[\"z1\"]}]} > rule set
unrule 1 1000 pd default > rule removed
beat 1 1 1000 7 - - 1 1 11 11:1:v,12:2:v > accepted removed 0 none
check 1 1000 7 > no-plan from 2",
        // A peer that is Down is replaced.
        "\
lead 1 1000 > won term 1 lo 1000 hi 4000
hello 1 1 1000 a1 zone=z1 > store put
hello 2 1 1000 a2 zone=z2 > store put
hello 3 1 1000 a3 zone=z3 > store put
hello 4 1 1000 a4 zone=z3 > store put
beat 1 1 1000 7 - - 1 1 11 11:1:v,12:2:v,13:3:v > accepted removed 0 none
alive 1 1 1801001 > alive
alive 2 1 1801001 > alive
alive 4 1 1801001 > alive
check 1 1801001 7 > plan add-voter from 2 to 1 send add-learner peer 1000001 store 4
pop 1 1 > popped term 1 entry 10 region 7 add-learner peer 1000001 store 4
pop 1 1 > empty
check 1 1801001 7 > plan add-voter from 2 to 1 busy 2
patrol 1 1801001 4 > patrol regions 1 ok 0 split 0 plan 1 no-plan 0 added 0 buried 0
beat 1 1 1801002 7 - - 2 1 11 11:1:v,12:2:v,13:3:v,1000001:4:l > accepted removed 0 send promote-learner peer 1000001 store 4
beat 1 1 1801003 7 - - 3 1 11 11:1:v,12:2:v,13:3:v,1000001:4:v > accepted removed 0 done
check 1 1801003 7 > plan remove from 1 to 0 send remove-peer peer 13 store 3
beat 1 1 1801004 7 - - 4 1 11 11:1:v,12:2:v,1000001:4:v > accepted removed 0 done
check 1 1801004 7 > no-fault
check 1 1801004 8 > no-region
check 2 1801004 7 > not-leading
patrol 2 1801004 1 > not-leading",
        // What waits for a store outlives its term; each store and each driver has its own.
        "\
pop 1 1 > empty
lead 1 1000 > won term 1 lo 1000 hi 4000
hello 1 1 1000 a1 > store put
hello 2 1 1000 a2 > store put
beat 1 1 1000 7 - - 1 1 11 11:1:v > accepted removed 0 none
check 1 1000 7 > plan add-voter from 2 to 1 send add-learner peer 1000001 store 2
beat 1 1 1001 7 - - 1 1 11 11:1:v > accepted removed 0 send add-learner peer 1000001 store 2
lead 1 1801001 > won term 2 lo 1801001 hi 1804001
beat 1 1 1801001 7 - - 2 1 11 11:1:v,1000001:2:l > accepted removed 0 none
pop 2 1 > empty
pop 1 2 > empty
pop 1 1 > popped term 1 entry 5 region 7 add-learner peer 1000001 store 2
pop 1 1 > popped term 1 entry 6 region 7 add-learner peer 1000001 store 2
pop 1 1 > empty",
        // Five stores in three zones, eight regions on three of them: nothing is to be done.
        "\
lead 1 1000 > won term 1 lo 1000 hi 4000
hello 1 1 1000 s1 zone=z1 > store put
hello 2 1 1000 s2 zone=z1 > store put
hello 3 1 1000 s3 zone=z2 > store put
hello 4 1 1000 s4 zone=z2 > store put
hello 5 1 1000 s5 zone=z3 > store put
beat 1 1 1000 1 - 20 1 1 11 11:1:v,12:3:v,13:5:v > accepted removed 0 none
beat 1 1 1000 2 20 40 1 1 21 21:1:v,22:3:v,23:5:v > accepted removed 0 none
beat 1 1 1000 3 40 60 1 1 31 31:1:v,32:3:v,33:5:v > accepted removed 0 none
beat 1 1 1000 4 60 80 1 1 41 41:1:v,42:3:v,43:5:v > accepted removed 0 none
beat 1 1 1000 5 80 a0 1 1 51 51:1:v,52:3:v,53:5:v > accepted removed 0 none
beat 1 1 1000 6 a0 c0 1 1 61 61:1:v,62:3:v,63:5:v > accepted removed 0 none
beat 1 1 1000 7 c0 e0 1 1 71 71:1:v,72:3:v,73:5:v > accepted removed 0 none
beat 1 1 1000 8 e0 - 1 1 81 81:1:v,82:3:v,83:5:v > accepted removed 0 none
patrol 1 1001 4 > patrol regions 8 ok 8 split 0 plan 0 no-plan 0 added 0 buried 0",
        // A driver whose term is over has no ids.
        "\
lead 1 1000 > won term 1 lo 1000 hi 4000
hello 1 1 1000 a1 > store put
hello 2 1 1000 a2 > store put
beat 1 1 1000 7 - - 1 1 11 11:1:v > accepted removed 0 none
lead 2 500 > won term 2 lo 4001 hi 7001
check 1 1000 7 > plan add-voter from 2 to 1 old-term 2
patrol 1 1000 16 > patrol regions 1 ok 0 split 0 plan 1 no-plan 0 added 0 buried 0",
        "",
    ]
}

// The script of a row.
pub fn script_of(alloc: Global, row: &str) -> Result<String, Fail> {
    let mut script = String::new(alloc);
    for line in row.lines() {
        let Some((act, _)) = line.split_once('>') else {
            return Err(Fail::new("a line without an answer"));
        };
        writeln!(script, "{act}")?;
    }
    Ok(script)
}

// The answers of a row, each with its line's number.
pub fn answers_of(alloc: Global, row: &str) -> Result<String, Fail> {
    let mut answers = String::new(alloc);
    let mut number = 1u64;
    for line in row.lines() {
        let Some((_, answer)) = line.split_once('>') else {
            return Err(Fail::new("a line without an answer"));
        };
        writeln!(answers, "{number}{answer}")?;
        number = number.saturating_add(1);
    }
    Ok(answers)
}

#[test]
fn worked_rows_are_answered_with_ample_memory(rt: HostRuntime) -> Result<(), Fail> {
    let alloc = rt.alloc();
    for row in rows() {
        let script = script_of(alloc, row)?;
        let answers = answers_of(alloc, row)?;
        expect(&rt, alloc, script.as_str(), Status::Done, answers.as_str())?;
    }
    Ok(())
}

// 64 clients arm nearly a whole millisecond each before the first of them draws.
fn storm(alloc: Global) -> Result<String, Fail> {
    let mut script = String::new(alloc);
    script.push_str("lead 1 1000\ntick 1 3998\n")?;
    for client in 1u64..65 {
        writeln!(script, "look {client} 1\narm {client} 262143")?;
    }
    for client in 1u64..65 {
        writeln!(script, "draw {client}")?;
    }
    script.push_str("tick 1 3998\ntake 1 1 1\n")?;
    Ok(script)
}

// Its answers: one draw fits, each other one moves the cursor on and is refused.
fn storm_answers(alloc: Global) -> Result<String, Fail> {
    let mut answers = String::new(alloc);
    answers.push_str("1 won term 1 lo 1000 hi 4000\n2 moved next 3998 hi 4000\n")?;
    for client in 1u64..65 {
        let (look, arm) = (2 * client + 1, 2 * client + 2);
        writeln!(
            answers,
            "{look} looked term 1 hi 4000\n{arm} armed at 1048051712"
        )?;
    }
    answers.push_str("131 got term 1 driver 1 first 1048051713 last 1048313855\n")?;
    for client in 2u64..65 {
        let at = 1_048_051_712 + 262_143 * (client - 1);
        writeln!(
            answers,
            "{} again at {at} hi 4000 count 262143",
            130 + client
        )?;
    }
    answers.push_str(
        "195 moved next 4062 hi 7062\n196 got term 1 driver 1 first 1064828929 last 1064828929\n",
    )?;
    Ok(answers)
}

#[test]
fn a_storm_of_refused_draws_moves_the_cursor_64_milliseconds(rt: HostRuntime) -> Result<(), Fail> {
    let alloc = rt.alloc();
    let script = storm(alloc)?;
    let answers = storm_answers(alloc)?;
    expect(&rt, alloc, script.as_str(), Status::Done, answers.as_str())?;
    Ok(())
}

const BEAT: &str = "beat 1 1 1000 7 - - 1 1 11 11:1:v\n";

// A region is checked, and its heartbeat comes 64 times more; then its store takes what waits for it.
pub fn crowd(alloc: Global) -> Result<String, Fail> {
    let mut script = String::new(alloc);
    script.push_str("lead 1 1000\nhello 1 1 1000 a1\nhello 2 1 1000 a2\n")?;
    write!(script, "{BEAT}check 1 1000 7\n")?;
    for _ in 0..64 {
        script.push_str(BEAT)?;
    }
    for _ in 0..65 {
        script.push_str("pop 1 1\n")?;
    }
    write!(script, "{BEAT}pop 1 1\n")?;
    Ok(script)
}

// Its answers: each heartbeat sends the step again. The 65th of the steps that are sent isn't kept.
pub fn crowd_answers(alloc: Global) -> Result<String, Fail> {
    let step = "add-learner peer 1000001 store 2";
    let mut answers = String::new(alloc);
    answers.push_str("1 won term 1 lo 1000 hi 4000\n2 store put\n3 store put\n")?;
    writeln!(answers, "4 accepted removed 0 none")?;
    writeln!(answers, "5 plan add-voter from 2 to 1 send {step}")?;
    for line in 6u64..70 {
        writeln!(answers, "{line} accepted removed 0 send {step}")?;
    }
    for entry in 5u64..69 {
        let line = entry + 65;
        writeln!(
            answers,
            "{line} popped term 1 entry {entry} region 7 {step}"
        )?;
    }
    writeln!(answers, "134 empty\n135 accepted removed 0 send {step}")?;
    writeln!(answers, "136 popped term 1 entry 70 region 7 {step}")?;
    Ok(answers)
}

#[test]
fn the_65th_message_is_not_kept(rt: HostRuntime) -> Result<(), Fail> {
    let alloc = rt.alloc();
    let script = crowd(alloc)?;
    let answers = crowd_answers(alloc)?;
    expect(&rt, alloc, script.as_str(), Status::Done, answers.as_str())?;
    Ok(())
}

#[test]
fn the_first_line_at_fault_or_limit_is_named(rt: HostRuntime) -> Result<(), Fail> {
    let rows = [
        ("lead 1 10", Status::Refused, "line 1: reason 1\n"),
        (
            "lead 1 1000\ntake 1 1 0\n",
            Status::Refused,
            "line 2: reason 7\n",
        ),
        (
            "# x\n\nlead 1\nlead\n",
            Status::Refused,
            "line 3: reason 4\n",
        ),
        (
            "take 1 1 1\ncell 1 1\n",
            Status::Refused,
            "line 2: reason 9\n",
        ),
        (
            "lead 1 1000\nreschedule 1 1000\n",
            Status::Refused,
            "line 2: reason 3\n",
        ),
        ("take 1 8 1\n", Status::Limit, "limit drivers 8\n"),
        ("take 65 1 1\n", Status::Limit, "limit clients 65\n"),
    ];
    for (script, status, written) in rows {
        expect(&rt, rt.alloc(), script, status, written)?;
    }
    Ok(())
}

#[test]
fn one_line_too_many_is_counted(rt: HostRuntime) -> Result<(), Fail> {
    let rows = [
        ("tick 1 1\n", 65537, "limit events 65537\n"),
        ("ctl 1 1 x\n", 1025, "limit reports 1025\n"),
        ("patrol 1 1 1\n", 1025, "limit reports 1025\n"),
        ("lead 1 1\n", 1025, "limit leads 1025\n"),
        ("publish 1\n", 1025, "limit leads 1025\n"),
    ];
    for (line, times, written) in rows {
        let mut script = String::new(rt.alloc());
        for _ in 0..times {
            script.push_str(line)?;
        }
        expect(&rt, rt.alloc(), script.as_str(), Status::Limit, written)?;
    }
    Ok(())
}

// Runs the first script with a call of the source or of the sink that fails (0: none).
fn expect_fault<R: Threads + Wait + Sync + Abort>(
    rt: &R,
    alloc: Global,
    read_fails: u32,
    write_fails: u32,
    status: Status,
    written: &str,
) -> Result<(), AllocError> {
    let words = words_of(alloc, &["replay"])?;
    let bytes = SCRIPT.as_bytes().to_vec(alloc)?;
    let mut source = MemSource::new(bytes, 5, vec![in alloc; read_fails]?);
    let mut sink = MemSink::new(alloc, 1, vec![in alloc; write_fails]?);
    let ended = pd_top(
        rt,
        alloc,
        &words,
        &mut source,
        &mut sink,
        &mut Vec::<Bench>::new(alloc),
        &OpenGate,
    );
    assert_eq!(rt; ended, status);
    assert_eq!(rt; sink.bytes(), written.as_bytes());
    Ok(())
}

#[test]
fn a_fault_ends_the_run_with_its_status(rt: HostRuntime) -> Result<(), Fail> {
    let rows = [
        (0, 0, Status::Done, ANSWER),
        (1, 0, Status::ReadFault, ""),
        (2, 0, Status::ReadFault, ""),
        (0, 1, Status::WriteFault, ""),
        (0, 8, Status::WriteFault, "1 won t"),
    ];
    for (read_fails, write_fails, status, written) in rows {
        expect_fault(&rt, rt.alloc(), read_fails, write_fails, status, written)?;
    }
    Ok(())
}

// Runs other words than `replay`, whose answer is the usage text.
fn expect_usage<R: Threads + Wait + Sync + Abort>(
    rt: &R,
    alloc: Global,
    words: &[&str],
) -> Result<(), AllocError> {
    let words = words_of(alloc, words)?;
    let mut source = SureSource::new(Vec::new(alloc));
    let mut sink = SureSink::new(alloc);
    let ended = pd_top(
        rt,
        alloc,
        &words,
        &mut source,
        &mut sink,
        &mut Vec::<Bench>::new(alloc),
        &OpenGate,
    );
    assert_eq!(rt; ended, Status::Usage);
    let usage = "usage: pd_cluster replay | run | gen FROM N | tso N\n";
    assert_eq!(rt; sink.bytes(), usage.as_bytes());
    Ok(())
}

#[test]
fn other_words_are_answered_with_the_usage(rt: HostRuntime) -> Result<(), Fail> {
    expect_usage(&rt, rt.alloc(), &[])?;
    expect_usage(&rt, rt.alloc(), &["replay", "x"])?;
    expect_usage(&rt, rt.alloc(), &["run", "1"])?;
    expect_usage(&rt, rt.alloc(), &["tso", "01"])?;
    expect_usage(&rt, rt.alloc(), &["tso"])?;
    expect_usage(&rt, rt.alloc(), &["--help"])?;
    Ok(())
}

// Prints a timestamp's parts. The source fails where it is asked.
fn expect_parts<R: Threads + Wait + Sync + Abort>(
    rt: &R,
    alloc: Global,
    timestamp: &str,
    text: &str,
) -> Result<(), AllocError> {
    let words = words_of(alloc, &["tso", timestamp])?;
    let mut source = MemSource::new(Vec::new(alloc), 1, vec![in alloc; 1]?);
    let mut sink = SureSink::new(alloc);
    let ended = pd_top(
        rt,
        alloc,
        &words,
        &mut source,
        &mut sink,
        &mut Vec::<Bench>::new(alloc),
        &OpenGate,
    );
    assert_eq!(rt; ended, Status::Done);
    assert_eq!(rt; sink.bytes(), text.as_bytes());
    Ok(())
}

#[test]
fn a_timestamp_is_split_as_pd_ctl_prints_it(rt: HostRuntime) -> Result<(), Fail> {
    let alloc = rt.alloc();
    expect_parts(
        &rt,
        alloc,
        "395181938313123110",
        "physical 1507499459507 logical 120102\n",
    )?;
    expect_parts(&rt, alloc, "0", "physical 0 logical 0\n")?;
    expect_parts(
        &rt,
        alloc,
        "18446744073709551615",
        "physical 70368744177663 logical 262143\n",
    )?;
    Ok(())
}

#[test]
fn one_byte_too_many_is_refused(rt: HostRuntime) -> Result<(), Fail> {
    let alloc = rt.alloc();
    let words = words_of(alloc, &["replay"])?;
    let bytes = vec![in alloc; b'x'; MAX_BYTES + 1]?;
    let mut source = SureSource::new(bytes);
    let mut sink = SureSink::new(alloc);
    let ended = pd_top(
        &rt,
        alloc,
        &words,
        &mut source,
        &mut sink,
        &mut Vec::<Bench>::new(alloc),
        &OpenGate,
    );
    assert_eq!(rt; ended, Status::Limit);
    assert_eq!(rt; sink.bytes(), b"limit bytes 16777217\n".as_slice());
    Ok(())
}
