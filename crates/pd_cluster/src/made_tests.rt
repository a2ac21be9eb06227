// Made scripts of all lines by `run`: what they print is read, and a journal is compared with what `replay` answers in its order.
use crate::journal_reader::behind;
use crate::run_tests::{expect_read, in_order, play};
use crate::served_again::Again;
use crate::status::Status;
use pd_types::{Gate, OpenGate};
use std::alloc::Global;
use std::process::Abort;
use std::sync::Wait;
use std::test::Fail;
use std::thread::Threads;

// The next number of a made row.
fn next(x: u64) -> u64 {
    x.wrapping_mul(6364136223846793005)
        .wrapping_add(1442695040888963407)
}

// A driver leads two regions, whose leaders' stores are sent steps. Then the made lines run.
const OPENING: &str = "\
lead 1 1000
hello 1 1 1000 a
hello 2 1 1000 b
hello 3 1 1000 c
beat 1 1 1000 1 - 80 1 1 11 11:1:v
beat 2 1 1000 2 80 - 1 1 12 12:2:v
check 1 1000 1
check 1 1000 2
";

// The forms of made lines: of the drivers D, the clients C and E, the stores S, the regions R of keys K with a peer P, the counts N and
// the versions V, at the moment M.
const FORMS: [&str; 32] = [
    "lead D M",
    "lead D M",
    "tick D M",
    "resign D",
    "tell C E",
    "hear C",
    "take C D N",
    "take C D N",
    "hello S D M a",
    "hello S D M b zone=z",
    "alive S D M",
    "beat S D M R K 1 V P P:S:v",
    "beat S D M R K 1 V P P:S:v",
    "pop S D",
    "pop S D",
    "pop S D",
    "check D M R",
    "check D M R",
    "patrol D M 2",
    "schedule D M",
    "rule D M {\"group_id\":\"pd\",\"id\":\"x\",\"role\":\"voter\",\"count\":1}",
    "unrule D M pd x",
    "unrule D M pd default",
    "schedule D M",
    "ctl D M operator add add-peer R S",
    "ctl D M operator remove R",
    "ctl D M region R",
    "ctl D M store",
    "ctl D M store delete S",
    "ctl D M scheduler show",
    "ctl D M scheduler remove balance-leader-scheduler",
    "ctl D M member leader resign",
];

// How far one form of a made script stands behind the form before it, so that each of them comes once.
const STRIDES: [u64; 8] = [1, 5, 7, 11, 13, 17, 19, 23];

// A made number of a letter of a form, at this line, of so many drivers, one or two. A store's region has one peer, with the region's
// id and the store's.
fn made(letter: char, x: u64, line: u64, drivers: u64) -> u64 {
    let (driver, store) = (1 + x / 4_294_967_296 % 2, 1 + x / 8_589_934_592 % 3);
    match letter {
        'D' => driver.min(drivers),
        'S' | 'C' => store,
        'E' => 1 + x / 68_719_476_736 % 3,
        'M' => line.saturating_mul(400).saturating_add(1000),
        'N' => 1 + x / 68_719_476_736 % 100_000,
        'P' => store.saturating_add(10),
        'R' => 1 + x / 68_719_476_736 % 2,
        _ => line.saturating_add(1),
    }
}

// Adds a made line of these drivers, 3 clients and 3 stores, at a moment that rises with the lines.
fn push_made(text: &mut String, form: &str, x: u64, line: u64, drivers: u64) -> Result<(), Fail> {
    for letter in form.chars() {
        match letter {
            'K' if made('R', x, line, drivers) == 1 => text.push_str("- 80")?,
            'K' => text.push_str("80 -")?,
            'A'..='Z' => write!(text, "{}", made(letter, x, line, drivers))?,
            _ => text.push(letter)?,
        }
    }
    text.push_str("\n")?;
    Ok(())
}

// Adds a made line of each form, in a made order.
fn push_all_made(text: &mut String, x: u64, drivers: u64) -> Result<(), Fail> {
    let stride = STRIDES[(x / 1_099_511_627_776 % 8) as usize];
    let mut x = x;
    let mut place = x / 8_796_093_022_208 % 32;
    for line in 0..32 {
        x = next(x);
        place = place.saturating_add(stride) % 32;
        push_made(text, FORMS[place as usize], x, line, drivers)?;
    }
    Ok(())
}

// A script of two drivers, three clients and three stores, with every line that threads serve, and `cell` in front.
fn made_script(alloc: Global, x: u64) -> Result<String, Fail> {
    let mut script = format!(in alloc; "cell 500 2\n{OPENING}")?;
    push_all_made(&mut script, x, 2)?;
    Ok(script)
}

// Runs a script by this gate, reads what it printed, and serves its journals once more. Tells whether they could be.
fn expect_whole<R: Threads + Wait + Sync + AllocGlobal + Abort, G: Gate + Sync>(
    rt: &R,
    script: &str,
    gate: &G,
) -> Result<bool, Fail> {
    let (ended, text) = play(rt, rt.alloc(), "run", script, gate)?;
    assert_eq!(rt; ended, Status::Done, "{script}");
    expect_read(rt, script, text.as_str())?;
    let mut again = Again::read(rt.alloc(), script, text.as_str())?;
    let is_whole = again.serve_all()?;
    assert!(rt; !is_whole || again.is_printed()?, "{script}{text}");
    Ok(is_whole)
}

// Behind the opening the lines come in any order.
#[test]
fn five_hundred_runs_of_made_scripts_are_lawful(rt: HostRuntime) -> Result<(), Fail> {
    let mut x = 7;
    let mut whole = 0u64;
    for _ in 0..500 {
        x = next(x);
        let script = made_script(rt.alloc(), x)?;
        let gate = in_order(&[2, 3, 4, 5, 6, 7, 8, 9]);
        if expect_whole(&rt, script.as_str(), &gate)? {
            whole = whole.saturating_add(1);
        }
    }
    assert!(rt; whole > 400, "{whole}");
    Ok(())
}

#[test]
fn five_hundred_runs_in_any_order_are_lawful(rt: HostRuntime) -> Result<(), Fail> {
    let mut x = 9;
    let mut whole = 0u64;
    for _ in 0..500 {
        x = next(x);
        let script = made_script(rt.alloc(), x)?;
        if expect_whole(&rt, script.as_str(), &OpenGate)? {
            whole = whole.saturating_add(1);
        }
    }
    assert!(rt; whole > 400, "{whole}");
    Ok(())
}

// Which allocation fails is chosen from outside, by `rt try --test --fail-alloc N`.
#[test]
fn a_run_of_every_line_without_memory_ends_with_that_or_is_done(
    rt: HostRuntime,
) -> Result<(), Fail> {
    let script = made_script(rt.alloc(), 7)?;
    let (ended, _) = play(&rt, rt.alloc(), "run", script.as_str(), &OpenGate)?;
    assert!(rt; ended == Status::NoMemory || ended == Status::Done);
    Ok(())
}

// What the lines of a script made of the only driver's journal: these lines, in its order, and what the entries tell.
#[derive(Drop)]
struct Served<'a> {
    script: String,
    told: Vec<&'a str>,
}

impl<'a> Served<'a> {
    fn read(alloc: Global, script: &str, text: &'a str) -> Result<Served<'a>, Fail> {
        let mut served = Served {
            script: String::new(alloc),
            told: Vec::new(alloc),
        };
        let (_, journal) = text.split_once("journal 1\n").unwrap_or(("", ""));
        let (journal, _) = journal.split_once("meta\n").unwrap_or(("", ""));
        for entry in journal.lines() {
            let word = entry.split(' ').nth(2).unwrap_or("");
            let number = word.parse::<u32>().unwrap_or(0);
            let line = script.lines().nth(number.saturating_sub(1) as usize);
            writeln!(served.script, "{}", line.unwrap_or(""))?;
            served.told.push(behind(entry, 3))?;
        }
        Ok(served)
    }
}

// A line of the oracle, whose answer isn't its entry's.
fn is_oracle(line: &str) -> bool {
    let word = line.split(' ').next().unwrap_or("");
    ["lead", "tick", "resign"].contains(&word)
}

// Runs a script of one driver, and compares its journal with the answers of `replay` to the same lines in the journal's order.
fn expect_as_replayed<R: Threads + Wait + Sync + AllocGlobal + Abort>(
    rt: &R,
    script: &str,
) -> Result<(), Fail> {
    let gate = in_order(&[1, 2, 3, 4, 5, 6, 7, 8]);
    let (_, text) = play(rt, rt.alloc(), "run", script, &gate)?;
    let served = Served::read(rt.alloc(), script, text.as_str())?;
    let (ended, answers) = play(rt, rt.alloc(), "replay", served.script.as_str(), &OpenGate)?;
    assert_eq!(rt; ended, Status::Done, "{text}");
    let mut told = served.told.iter();
    let mut lines = served.script.lines();
    for answer in answers.lines() {
        let (entry, line) = (told.next().copied(), lines.next().unwrap_or(""));
        assert!(rt;
            is_oracle(line) || entry == Some(behind(answer, 1)),
            "{answer} in {script}{text}"
        );
    }
    assert!(rt; told.next().is_none(), "{script}{text}");
    Ok(())
}

#[test]
fn a_journal_is_answered_as_by_replay_in_its_order(rt: HostRuntime) -> Result<(), Fail> {
    let mut x = 8;
    for _ in 0..300 {
        x = next(x);
        let mut script = String::from_str(rt.alloc(), OPENING)?;
        push_all_made(&mut script, x, 1)?;
        expect_as_replayed(&rt, script.as_str())?;
    }
    Ok(())
}
