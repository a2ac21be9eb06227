// Scripts by `run`, over a source and a sink in memory.
use crate::ctl_tests::{self, benches};
use crate::lawful_texts;
use crate::run_reader::Printed;
use crate::status::Status;
use crate::tests::{self, answers_of, script_of};
use crate::top::pd_top;
use pd_io::{SureSink, SureSource};
use pd_types::{Actor, Gate, OpenGate};
use std::alloc::Global;
use std::process::Abort;
use std::sync::Wait;
use std::sync::atomic::{AtomicU64, Ordering};
use std::test::Fail;
use std::thread::{self, Threads};

// How a command ends over a script with the program's benches and this gate, and what it writes.
pub fn play<R: Threads + Wait + Sync, G: Gate + Sync>(
    rt: &R,
    alloc: Global,
    command: &str,
    script: &str,
    gate: &G,
) -> Result<(Status, String), Fail> {
    let mut words = Vec::new(alloc);
    words.push(String::from_str(alloc, command)?)?;
    let mut source = SureSource::new(script.as_bytes().to_vec(alloc)?);
    let mut sink = SureSink::new(alloc);
    let mut benches = benches(alloc)?;
    let status = pd_top(
        rt,
        alloc,
        &words,
        &mut source,
        &mut sink,
        &mut benches,
        gate,
    );
    match String::from_utf8(sink.bytes().to_vec(alloc)?) {
        Ok(text) => Ok((status, text)),
        Err(_) => Err(Fail::new("no text")),
    }
}

fn expect<R: Threads + Wait + Sync + AllocGlobal + Abort>(
    rt: &R,
    script: &str,
    status: Status,
    written: &str,
) -> Result<(), Fail> {
    let (ended, text) = play(rt, rt.alloc(), "run", script, &OpenGate)?;
    assert_eq!(rt; ended, status, "{script}");
    assert_eq!(rt; text.as_str(), written, "{script}");
    Ok(())
}

#[test]
fn each_section_is_printed(rt: HostRuntime) -> Result<(), Fail> {
    expect(
        &rt,
        "lead 1 1000\n",
        Status::Done,
        "\
window 1 1 1000 4000
driver 1
1 won term 1 lo 1000 hi 4000
journal 1
1 line 1 term 1 stores 0 rules 1
meta
1 driver 1 lead 1 accepted 0
post
",
    )?;
    expect(&rt, "", Status::Done, "journal 1\nmeta\npost\n")?;
    expect(
        &rt,
        "cell 5 3\n# x\nhear 2\n",
        Status::Done,
        "client 2\n3 nothing\njournal 1\nmeta\npost\n1 line 3 nothing\n",
    )
}

#[test]
fn lines_that_threads_do_not_serve_are_refused(rt: HostRuntime) -> Result<(), Fail> {
    for line in [
        "read 1 1000",
        "campaign 1",
        "save 1",
        "raise 1",
        "publish 1",
        "probe 1 1000",
        "look 1 1",
        "arm 1 1",
        "draw 1",
    ] {
        let script = format!(in rt.alloc(); "{line}\n")?;
        expect(&rt, script.as_str(), Status::Refused, "line 1: reason 9\n")?;
    }
    expect(&rt, "take 1 8 1\n", Status::Limit, "limit drivers 8\n")?;
    expect(&rt, "pop 1 8\n", Status::Limit, "limit drivers 8\n")
}

// Lets each line of this order begin once the one before it was answered, and all others then, and counts how often it was asked.
#[derive(Drop)]
pub struct InOrder<'a> {
    order: &'a [u32],
    answered: AtomicU64,
    asks: AtomicU64,
}

impl<'a> Gate for InOrder<'a> {
    fn hold(&self, _actor: Actor, number: u32) -> bool {
        self.asks.fetch_add(1, Ordering::SeqCst);
        thread::yield_now();
        let next = self.answered.load(Ordering::SeqCst) as usize;
        self.order.get(next).is_some_and(|line| *line != number)
    }

    fn done(&self, _actor: Actor, _number: u32) {
        self.answered.fetch_add(1, Ordering::SeqCst);
    }
}

// The gate of these lines, of which none was answered.
pub fn in_order(order: &[u32]) -> InOrder<'_> {
    InOrder {
        order,
        answered: AtomicU64::new(0),
        asks: AtomicU64::new(0),
    }
}

// The lines of a script in their order.
fn order_of(alloc: Global, script: &str) -> Result<Vec<u32>, Fail> {
    let mut order = Vec::new(alloc);
    let mut number = 0u32;
    for _ in script.lines() {
        number = number.saturating_add(1);
        order.push(number)?;
    }
    Ok(order)
}

// Runs a script 100 times whose lines are answered in this order.
fn expect_in_order<R: Threads + Wait + Sync + AllocGlobal + Abort>(
    rt: &R,
    script: &str,
    order: &[u32],
    written: &str,
) -> Result<(), Fail> {
    for _ in 0..100 {
        let gate = in_order(order);
        let (ended, text) = play(rt, rt.alloc(), "run", script, &gate)?;
        assert_eq!(rt; ended, Status::Done);
        assert_eq!(rt; text.as_str(), written);
        assert!(rt; gate.asks.load(Ordering::SeqCst) < 1_000_000);
    }
    Ok(())
}

// Each of the two clients draws while the other waits, in one order and in the other: no fixed order of actors serves both.
#[test]
fn either_client_waits_for_the_other(rt: HostRuntime) -> Result<(), Fail> {
    let script = "lead 1 1000\ntake 1 1 1\ntake 2 1 1\n";
    expect_in_order(
        &rt,
        script,
        &[1, 3, 2],
        "\
window 1 1 1000 4000
driver 1
1 won term 1 lo 1000 hi 4000
client 1
2 got term 1 driver 1 first 262144002 last 262144002
client 2
3 got term 1 driver 1 first 262144001 last 262144001
journal 1
1 line 1 term 1 stores 0 rules 1
meta
1 driver 1 lead 1 accepted 0
post
",
    )?;
    expect_in_order(
        &rt,
        script,
        &[1, 2, 3],
        "\
window 1 1 1000 4000
driver 1
1 won term 1 lo 1000 hi 4000
client 1
2 got term 1 driver 1 first 262144001 last 262144001
client 2
3 got term 1 driver 1 first 262144002 last 262144002
journal 1
1 line 1 term 1 stores 0 rules 1
meta
1 driver 1 lead 1 accepted 0
post
",
    )
}

fn two_drivers() -> &'static str {
    "\
lead 1 1000
take 1 1 3
lead 2 500
take 2 2 1
take 1 1 2
hear 1
tell 2 1
hear 1
take 1 1 1
tick 1 3999
take 2 1 1
"
}

fn two_drivers_outcome() -> &'static str {
    "\
window 1 1 1000 4000
window 2 2 4001 7001
driver 1
1 won term 1 lo 1000 hi 4000
10 lost saved 7001 term 2
driver 2
3 won term 2 lo 4001 hi 7001
client 1
2 got term 1 driver 1 first 262144001 last 262144003
5 got term 1 driver 1 first 262144004 last 262144005
6 nothing
8 heard term 2 last 1048838145
9 stale seen 2
client 2
4 got term 2 driver 2 first 1048838145 last 1048838145
7 told
11 not-leader
journal 1
1 line 1 term 1 stores 0 rules 1
2 line 10 retired
journal 2
1 line 3 term 2 stores 0 rules 1
meta
1 driver 1 lead 1 accepted 0
2 driver 2 lead 2 accepted 0
post
1 line 6 nothing
2 line 7 told
3 line 8 heard 2 1048838145
"
}

// A second driver leads behind the first one's back, whose cluster then can't write.
pub fn behind_its_back() -> &'static str {
    "\
lead 1 1000
hello 1 1 1000 a1
lead 2 500
hello 1 1 1001 a2
hello 2 2 501 a3
pop 1 1
take 1 2 1
ctl 1 1002 member leader resign
tick 1 1003
"
}

pub fn behind_its_back_outcome() -> &'static str {
    "\
window 1 1 1000 4000
window 2 2 4001 7001
driver 1
1 won term 1 lo 1000 hi 4000
8 {\"done\":\"Resigned\"}
9 not-leading
driver 2
3 won term 2 lo 4001 hi 7001
client 1
7 got term 2 driver 2 first 1048838145 last 1048838145
store 1
2 store put
4 old-term 2
6 empty
store 2
5 store put
journal 1
1 line 1 term 1 stores 0 rules 1
2 line 2 store put
3 line 4 old-term 2
4 line 8 {\"done\":\"Resigned\"}
journal 2
1 line 3 term 2 stores 1 rules 1
2 line 5 store put
meta
1 driver 1 lead 1 accepted 0
2 driver 1 put 1 store/00000000000000000001 accepted 1
3 driver 2 lead 2 accepted 1
4 driver 1 put 1 store/00000000000000000001 old-term 2
5 driver 2 put 2 store/00000000000000000002 accepted 2
post
"
}

// The same, where the first driver finds the later term at its next save (examples/lost_term_on_threads.txt).
fn lost_term() -> &'static str {
    "\
lead 1 1000
hello 1 1 1000 a1
take 1 1 3
lead 2 500
hello 2 2 501 a3
take 1 1 2
alive 1 1 1001
hello 1 1 1002 a2
tick 1 3999
alive 1 1 4000
take 2 1 1
"
}

fn lost_term_outcome() -> &'static str {
    "\
window 1 1 1000 4000
window 2 2 4001 7001
driver 1
1 won term 1 lo 1000 hi 4000
9 lost saved 7001 term 2
driver 2
4 won term 2 lo 4001 hi 7001
client 1
3 got term 1 driver 1 first 262144001 last 262144003
6 got term 1 driver 1 first 262144004 last 262144005
client 2
11 not-leader
store 1
2 store put
7 alive
8 old-term 2
10 not-leading
store 2
5 store put
journal 1
1 line 1 term 1 stores 0 rules 1
2 line 2 store put
3 line 7 alive
4 line 8 old-term 2
5 line 9 retired
6 line 10 not-leading
journal 2
1 line 4 term 2 stores 1 rules 1
2 line 5 store put
meta
1 driver 1 lead 1 accepted 0
2 driver 1 put 1 store/00000000000000000001 accepted 1
3 driver 2 lead 2 accepted 1
4 driver 2 put 2 store/00000000000000000002 accepted 2
5 driver 1 put 1 store/00000000000000000001 old-term 2
post
"
}

// A step is sent again at a heartbeat, and the leader's store takes both.
pub fn steps() -> &'static str {
    "\
lead 1 1000
hello 1 1 1000 a1
hello 2 1 1000 a2
beat 1 1 1000 7 - - 1 1 11 11:1:v
check 1 1000 7
beat 1 1 1001 7 - - 1 1 11 11:1:v
pop 1 1
pop 1 1
"
}

pub fn steps_outcome() -> &'static str {
    "\
window 1 1 1000 4000
driver 1
1 won term 1 lo 1000 hi 4000
5 plan add-voter from 2 to 1 send add-learner peer 1000001 store 2
store 1
2 store put
4 accepted removed 0 none
6 accepted removed 0 send add-learner peer 1000001 store 2
7 popped term 1 entry 5 region 7 add-learner peer 1000001 store 2
8 popped term 1 entry 6 region 7 add-learner peer 1000001 store 2
store 2
3 store put
journal 1
1 line 1 term 1 stores 0 rules 1
2 line 2 store put
3 line 3 store put
4 line 4 accepted removed 0 none
5 line 5 plan add-voter from 2 to 1 send add-learner peer 1000001 store 2
6 line 6 accepted removed 0 send add-learner peer 1000001 store 2
meta
1 driver 1 lead 1 accepted 0
2 driver 1 put 1 store/00000000000000000001 accepted 1
3 driver 1 put 1 store/00000000000000000002 accepted 2
4 driver 1 put 1 id accepted 3
post
"
}

#[test]
fn outcomes_of_lines_in_their_order_are_as_worked_out(rt: HostRuntime) -> Result<(), Fail> {
    let rows = [
        (two_drivers(), two_drivers_outcome()),
        (behind_its_back(), behind_its_back_outcome()),
        (lost_term(), lost_term_outcome()),
        (steps(), steps_outcome()),
        lawful_texts::TERM,
        lawful_texts::WRITES,
        lawful_texts::TURNS,
        lawful_texts::REGIONS,
        lawful_texts::OPERATORS,
        lawful_texts::PATROL,
    ];
    for (script, outcome) in rows {
        let order = order_of(rt.alloc(), script)?;
        expect_in_order(&rt, script, order.as_slice(), outcome)?;
    }
    Ok(())
}

// Whether a line is a single step, or opens the cell, which has no answer in `run`.
fn is_left_out(line: &str) -> bool {
    let word = line.split(' ').next().unwrap_or("");
    [
        "cell", "read", "campaign", "save", "raise", "publish", "probe", "look", "arm", "draw",
    ]
    .contains(&word)
}

// Runs a script whose lines are answered in their order: these answers are among those that it prints.
fn expect_answers<R: Threads + Wait + Sync + AllocGlobal + Abort>(
    rt: &R,
    script: &str,
    answers: &str,
) -> Result<(), Fail> {
    let order = order_of(rt.alloc(), script)?;
    let gate = in_order(order.as_slice());
    let (ended, text) = play(rt, rt.alloc(), "run", script, &gate)?;
    assert_eq!(rt; ended, Status::Done, "{script}");
    for answer in answers.lines() {
        assert!(rt;
            text.lines().any(|line| line == answer),
            "{answer} in {text}"
        );
    }
    assert!(rt; gate.asks.load(Ordering::SeqCst) < 1_000_000);
    expect_read(rt, script, text.as_str())
}

// Runs the script of a row, as far as threads serve it: in the order of its lines, where each answer is the row's, and in any order.
fn expect_row<R: Threads + Wait + Sync + AllocGlobal + Abort>(
    rt: &R,
    row: &str,
) -> Result<(), Fail> {
    let script = script_of(rt.alloc(), row)?;
    if script.lines().any(is_left_out) {
        return Ok(());
    }
    let answers = answers_of(rt.alloc(), row)?;
    expect_answers(rt, script.as_str(), answers.as_str())?;
    expect_lawful(rt, script.as_str(), &OpenGate)
}

// The rows that `replay` is played, among them a region that is repaired while its leader's store takes the steps, and one of eight
// regions on five stores whose schedulers move.
#[test]
fn lines_in_their_order_are_answered_as_by_replay(rt: HostRuntime) -> Result<(), Fail> {
    for row in tests::rows() {
        expect_row(&rt, row)?;
    }
    for row in ctl_tests::rows() {
        expect_row(&rt, row)?;
    }
    Ok(())
}

// The second driver's bench loses a scheduler, and stands in its place again.
#[test]
fn each_bench_is_handed_back(rt: HostRuntime) -> Result<(), Fail> {
    let script = "lead 2 1000\nctl 2 1000 scheduler remove balance-leader-scheduler\n";
    let mut words = Vec::new(rt.alloc());
    words.push(String::from_str(rt.alloc(), "run")?)?;
    let mut source = SureSource::new(script.as_bytes().to_vec(rt.alloc())?);
    let mut sink = SureSink::new(rt.alloc());
    let mut benches = benches(rt.alloc())?;
    let status = pd_top(
        &rt,
        rt.alloc(),
        &words,
        &mut source,
        &mut sink,
        &mut benches,
        &OpenGate,
    );
    assert_eq!(rt; status, Status::Done);
    let mut counts = [2, 1, 2, 2, 2, 2, 2].iter();
    for bench in &benches {
        assert_eq!(rt; counts.next(), Some(&bench.names()?.len()));
    }
    assert!(rt; counts.next().is_none());
    Ok(())
}

// Of 65 steps that are sent to a store before it takes one, 64 wait for it; once it took these, a later one finds room.
#[test]
fn the_65th_step_finds_no_room(rt: HostRuntime) -> Result<(), Fail> {
    let script = tests::crowd(rt.alloc())?;
    let answers = tests::crowd_answers(rt.alloc())?;
    expect_answers(&rt, script.as_str(), answers.as_str())
}

// Reads what a script printed.
pub fn expect_read<R: AllocGlobal + Abort>(rt: &R, script: &str, text: &str) -> Result<(), Fail> {
    let printed = Printed::read(rt.alloc(), script, text)?;
    assert!(rt; printed.is_lawful(rt.alloc())?, "{script}{text}");
    Ok(())
}

// Runs a script by this gate, and reads what it printed.
pub fn expect_lawful<R: Threads + Wait + Sync + AllocGlobal + Abort, G: Gate + Sync>(
    rt: &R,
    script: &str,
    gate: &G,
) -> Result<(), Fail> {
    let (ended, text) = play(rt, rt.alloc(), "run", script, gate)?;
    assert_eq!(rt; ended, Status::Done, "{script}");
    expect_read(rt, script, text.as_str())
}

#[test]
fn a_thousand_runs_of_two_drivers_are_lawful(rt: HostRuntime) -> Result<(), Fail> {
    for _ in 0..1000 {
        expect_lawful(&rt, two_drivers(), &OpenGate)?;
    }
    Ok(())
}

// Which allocation fails is chosen from outside, by `rt try --test --fail-alloc N`.
#[test]
fn a_run_without_memory_ends_with_that_or_is_done(rt: HostRuntime) -> Result<(), Fail> {
    let (ended, _) = play(&rt, rt.alloc(), "run", two_drivers(), &OpenGate)?;
    assert!(rt; ended == Status::NoMemory || ended == Status::Done);
    Ok(())
}

#[test]
fn all_actors_answer_a_script_at_every_limit(rt: HostRuntime) -> Result<(), Fail> {
    let mut script = String::new(rt.alloc());
    for driver in 1..8 {
        writeln!(script, "lead {driver} 1000")?;
    }
    for line in 0..65_529u64 {
        let (client, driver, store) = (1 + line % 64, 1 + line % 7, 1 + line % 256);
        if line % 2 == 0 {
            writeln!(script, "take {client} {driver} 1")?;
        } else {
            writeln!(script, "pop {store} {driver}")?;
        }
    }
    let (ended, text) = play(&rt, rt.alloc(), "run", script.as_str(), &OpenGate)?;
    assert_eq!(rt; ended, Status::Done);
    let Some((answers, _)) = text.split_once("journal 1") else {
        return Err(Fail::new("no journal"));
    };
    let answers = answers
        .lines()
        .filter(|line| line.starts_with(|c: char| c.is_ascii_digit()));
    assert_eq!(rt; answers.count(), 65_536);
    Ok(())
}
