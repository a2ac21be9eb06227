ghost use Rattle.std.specs.Prelude.{◌≡◌, ◌<◌, ◌≤◌, ◌^◌, IfOk};

use crate::{Core, Kind, Reply};
use pd_types::{Actor, CellWord, NoMemory};
use std::alloc::Global;
use std::process::Abort;
use std::test::Fail;

// A call of one of two drivers and two clients.
#[derive(Clone, Copy, Debug, Drop)]
enum Line {
    Lead(u8, u64),
    Tick(u8, u64),
    Resign(u8),
    Take(u8, u8, u64),
    Tell(u8, u8),
    Hear(u8),
    Read(u8, u64),
    Campaign(u8),
    Save(u8),
    Probe(u8, u64),
    Raise(u8),
    Publish(u8),
    Give(u8),
    Look(u8, u8),
    Arm(u8, u64),
    Draw(u8),
}

// The number, within the two actors of a kind.
fn of_two(number: u8) -> u8
    ensures pos { 0 < result }
    ensures low { result ≤ 2 }
{
    number.clamp(1, 2)
}

// The count, within what a client may ask for.
fn count(n: u64) -> u64
    ensures some { 0 < result }
    ensures most { result ≤ 262143 }
{
    n.clamp(1, 262_143)
}

fn play(core: &mut Core, line: Line) -> Result<Reply, NoMemory>
    requires drivers { 2 ≤ core.old.setup.drivers }
    requires clients { 2 ≤ core.old.setup.clients }
    ensures setup { core.new.setup ≡ core.old.setup }
{
    match line {
        Line::Lead(driver, now) => core.lead(of_two(driver), now),
        Line::Tick(driver, now) => core.tick(of_two(driver), now),
        Line::Resign(driver) => core.resign(of_two(driver)),
        Line::Take(client, driver, n) => core.take(of_two(client), of_two(driver), count(n)),
        Line::Tell(from, to) => core.tell(of_two(from), of_two(to)),
        Line::Hear(client) => core.hear(of_two(client)),
        Line::Read(driver, now) => core.step(Actor::Driver(of_two(driver)), Kind::Read { now }),
        Line::Campaign(driver) => core.step(Actor::Driver(of_two(driver)), Kind::Campaign),
        Line::Save(driver) => core.step(Actor::Driver(of_two(driver)), Kind::Save),
        Line::Probe(driver, now) => core.step(Actor::Driver(of_two(driver)), Kind::Probe { now }),
        Line::Raise(driver) => core.step(Actor::Driver(of_two(driver)), Kind::Raise),
        Line::Publish(driver) => core.step(Actor::Driver(of_two(driver)), Kind::Publish),
        Line::Give(driver) => core.step(Actor::Driver(of_two(driver)), Kind::Resign),
        Line::Look(client, driver) => core.step(
            Actor::Client(of_two(client)),
            Kind::Look {
                driver: of_two(driver),
            },
        ),
        Line::Arm(client, n) => core.step(Actor::Client(of_two(client)), Kind::Arm { n: count(n) }),
        Line::Draw(client) => core.step(Actor::Client(of_two(client)), Kind::Draw),
    }
}

// Two drivers and two clients over this cell.
fn over(alloc: Global, cell: CellWord) -> Result<Core, NoMemory>
    requires saved { cell.saved < 2 ^ 45 }
    requires term { cell.term < 262144 }
    ensures drivers { IfOk result (λ core. 2 ≤ core.setup.drivers) }
    ensures clients { IfOk result (λ core. 2 ≤ core.setup.clients) }
{
    Core::new(alloc, 2, 2, cell)
}

// The same over the cell of a new cluster.
fn fresh(alloc: Global) -> Result<Core, NoMemory>
    ensures drivers { IfOk result (λ core. 2 ≤ core.setup.drivers) }
    ensures clients { IfOk result (λ core. 2 ≤ core.setup.clients) }
{
    over(alloc, CellWord { saved: 0, term: 0 })
}

// Plays the lines, each of which must give its text.
fn play_all(
    rt: &impl Abort,
    alloc: Global,
    core: &mut Core,
    lines: &[(Line, &str)],
) -> Result<(), Fail>
    requires drivers { 2 ≤ core.old.setup.drivers }
    requires clients { 2 ≤ core.old.setup.clients }
    ensures setup { core.new.setup ≡ core.old.setup }
{
    for (line, want) in lines {
        let reply = play(core, *line)?;
        let text = format!(in alloc; "{reply}")?;
        assert_eq!(rt; text.as_str(), *want, "at {line:?}");
    }
    Ok(())
}

// The logical part of a millisecond is used up, and a tick goes on to the next one.
#[test]
fn the_logical_part_is_used_up(rt: HostRuntime) -> Result<(), Fail> {
    let alloc = rt.alloc();
    let mut core = fresh(alloc)?;
    let lines = [
        (Line::Lead(1, 1000), "won term 1 lo 1000 hi 4000"),
        (
            Line::Take(1, 1, 262_143),
            "got term 1 driver 1 first 262144001 last 262406143",
        ),
        (Line::Take(1, 1, 1), "again at 262406143 hi 4000 count 1"),
        (Line::Tick(1, 1000), "moved next 1001 hi 4000"),
        (
            Line::Take(1, 1, 1),
            "got term 1 driver 1 first 262406145 last 262406145",
        ),
    ];
    play_all(&rt, alloc, &mut core, &lines)?;
    Ok(())
}

// With a millisecond left of the window, or less, a tick saves a new end.
#[test]
fn a_tick_saves_where_a_millisecond_is_left(rt: HostRuntime) -> Result<(), Fail> {
    let alloc = rt.alloc();
    let mut core = fresh(alloc)?;
    let lines = [
        (Line::Lead(1, 1000), "won term 1 lo 1000 hi 4000"),
        (Line::Tick(1, 3998), "moved next 3998 hi 4000"),
        (Line::Tick(1, 3999), "idle"),
        (Line::Tick(2, 900), "not-leading"),
        (Line::Lead(2, 4000), "won term 2 lo 4001 hi 7001"),
        (Line::Tick(2, 7000), "moved next 7000 hi 10000"),
        (Line::Tick(2, 10_000), "moved next 10000 hi 13000"),
    ];
    play_all(&rt, alloc, &mut core, &lines)?;
    Ok(())
}

// A tick at the moment of the cursor goes on where over half of the logical part is used.
#[test]
fn a_tick_goes_on_where_over_half_is_used(rt: HostRuntime) -> Result<(), Fail> {
    let alloc = rt.alloc();
    let mut core = fresh(alloc)?;
    let lines = [
        (Line::Lead(1, 1000), "won term 1 lo 1000 hi 4000"),
        (
            Line::Take(1, 1, 131_072),
            "got term 1 driver 1 first 262144001 last 262275072",
        ),
        (Line::Tick(1, 1000), "idle"),
        (
            Line::Take(1, 1, 1),
            "got term 1 driver 1 first 262275073 last 262275073",
        ),
        (Line::Tick(1, 1000), "moved next 1001 hi 4000"),
    ];
    play_all(&rt, alloc, &mut core, &lines)?;
    Ok(())
}

// A driver resigns once, and a tick by one that holds no term is refused.
#[test]
fn a_driver_resigns_once(rt: HostRuntime) -> Result<(), Fail> {
    let alloc = rt.alloc();
    let mut core = fresh(alloc)?;
    let lines = [
        (Line::Lead(1, 1000), "won term 1 lo 1000 hi 4000"),
        (
            Line::Take(1, 1, 3),
            "got term 1 driver 1 first 262144001 last 262144003",
        ),
        (Line::Tick(1, 900), "idle"),
        (Line::Tick(2, 900), "not-leading"),
        (Line::Resign(1), "resigned"),
        (Line::Resign(1), "not-leading"),
        (Line::Take(1, 1, 1), "not-leader"),
    ];
    play_all(&rt, alloc, &mut core, &lines)?;
    Ok(())
}

// A second driver wins, a first one that does not know it still grants what it saved, and a note
// tells a client of the later term.
#[test]
fn a_note_makes_an_old_limit_stale(rt: HostRuntime) -> Result<(), Fail> {
    let alloc = rt.alloc();
    let mut core = fresh(alloc)?;
    let lines = [
        (Line::Lead(1, 1000), "won term 1 lo 1000 hi 4000"),
        (
            Line::Take(1, 1, 3),
            "got term 1 driver 1 first 262144001 last 262144003",
        ),
        (Line::Lead(2, 500), "won term 2 lo 4001 hi 7001"),
        (
            Line::Take(2, 2, 1),
            "got term 2 driver 2 first 1048838145 last 1048838145",
        ),
        (
            Line::Take(1, 1, 2),
            "got term 1 driver 1 first 262144004 last 262144005",
        ),
        (Line::Hear(1), "nothing"),
        (Line::Tell(2, 1), "told"),
        (Line::Hear(1), "heard term 2 last 1048838145"),
        (Line::Take(1, 1, 1), "stale seen 2"),
        (Line::Tick(1, 3999), "lost saved 7001 term 2"),
        (Line::Take(2, 1, 1), "not-leader"),
    ];
    play_all(&rt, alloc, &mut core, &lines)?;

    // A batch of an old term stands before those of the later one.
    let lasts = [262_144_003, 262_144_005, 1_048_838_145];
    let batches = core.batches();
    assert_eq!(rt; batches.len(), 3);
    for (batch, last) in batches.iter().zip(lasts) {
        assert_eq!(rt; batch.last, last);
    }
    let ends = [0, 4000, 7001];
    let windows = core.windows();
    assert_eq!(rt; windows.len(), 3);
    for (window, hi) in windows.iter().zip(ends) {
        assert_eq!(rt; window.hi, hi);
    }
    Ok(())
}

// Two drivers race by single steps, and each loses once.
#[test]
fn single_steps_race(rt: HostRuntime) -> Result<(), Fail> {
    let alloc = rt.alloc();
    let mut core = fresh(alloc)?;
    let lines = [
        (Line::Read(1, 1000), "cell saved 0 term 0"),
        (Line::Read(2, 2000), "cell saved 0 term 0"),
        (Line::Campaign(2), "claimed term 1"),
        (Line::Campaign(1), "beaten saved 0 term 1"),
        (Line::Read(1, 1000), "cell saved 0 term 1"),
        (Line::Campaign(1), "claimed term 2"),
        (Line::Save(2), "lost saved 0 term 2"),
        (Line::Publish(2), "published 0"),
        (Line::Save(1), "saved hi 4000"),
        (Line::Raise(1), "raised cursor 262144000"),
        (Line::Publish(1), "published hi 4000"),
        (Line::Raise(1), "out-of-turn expected rest"),
    ];
    play_all(&rt, alloc, &mut core, &lines)?;
    Ok(())
}

// Two armed draws, one of which overshoots into the next millisecond.
#[test]
fn an_armed_draw_overshoots(rt: HostRuntime) -> Result<(), Fail> {
    let alloc = rt.alloc();
    let mut core = fresh(alloc)?;
    let lines = [
        (Line::Lead(1, 1000), "won term 1 lo 1000 hi 4000"),
        (
            Line::Take(1, 1, 262_000),
            "got term 1 driver 1 first 262144001 last 262406000",
        ),
        (Line::Look(1, 1), "looked term 1 hi 4000"),
        (Line::Arm(1, 100), "armed at 262406000"),
        (Line::Look(2, 1), "looked term 1 hi 4000"),
        (Line::Arm(2, 100), "armed at 262406000"),
        (
            Line::Draw(1),
            "got term 1 driver 1 first 262406001 last 262406100",
        ),
        (Line::Draw(2), "again at 262406100 hi 4000 count 100"),
        (
            Line::Take(2, 1, 1),
            "got term 1 driver 1 first 262406201 last 262406201",
        ),
    ];
    play_all(&rt, alloc, &mut core, &lines)?;
    Ok(())
}

// The same driver wins again while a draw of its old term is armed.
#[test]
fn a_driver_wins_again_while_a_draw_is_armed(rt: HostRuntime) -> Result<(), Fail> {
    let alloc = rt.alloc();
    let mut core = fresh(alloc)?;
    let lines = [
        (Line::Lead(1, 1000), "won term 1 lo 1000 hi 4000"),
        (Line::Look(1, 1), "looked term 1 hi 4000"),
        (Line::Arm(1, 5), "armed at 262144000"),
        (Line::Lead(2, 1500), "won term 2 lo 4001 hi 7001"),
        (Line::Lead(1, 1600), "won term 3 lo 7002 hi 10002"),
        (Line::Draw(1), "again at 1835532288 hi 4000 count 5"),
        (
            Line::Take(1, 1, 1),
            "got term 3 driver 1 first 1835532294 last 1835532294",
        ),
    ];
    play_all(&rt, alloc, &mut core, &lines)?;
    Ok(())
}

// The last term is won once.
#[test]
fn the_last_term_is_won_once(rt: HostRuntime) -> Result<(), Fail> {
    let alloc = rt.alloc();
    let cell = CellWord {
        saved: 5,
        term: 262_142,
    };
    let mut core = over(alloc, cell)?;
    let lines = [
        (Line::Lead(1, 0), "won term 262143 lo 6 hi 3006"),
        (Line::Lead(1, 0), "terms-spent"),
    ];
    play_all(&rt, alloc, &mut core, &lines)?;
    Ok(())
}

// The clock has a last millisecond that can be led from.
#[test]
fn the_clock_has_a_last_millisecond(rt: HostRuntime) -> Result<(), Fail> {
    let alloc = rt.alloc();
    let mut core = fresh(alloc)?;
    let lines = [
        (Line::Lead(1, 35_184_372_085_832), "clock-range"),
        (
            Line::Lead(1, 35_184_372_085_831),
            "won term 1 lo 35184372085831 hi 35184372088831",
        ),
        (
            Line::Take(1, 1, 1),
            "got term 1 driver 1 first 9223372036068081665 last 9223372036068081665",
        ),
    ];
    play_all(&rt, alloc, &mut core, &lines)?;
    Ok(())
}

// Each step that is next refuses another one by its name, and a probe and a resignation come at rest.
#[test]
fn each_due_is_refused_once(rt: HostRuntime) -> Result<(), Fail> {
    let alloc = rt.alloc();
    let mut core = fresh(alloc)?;
    let lines = [
        (Line::Campaign(1), "out-of-turn expected rest"),
        (Line::Draw(1), "out-of-turn expected rest"),
        (Line::Read(1, 1000), "cell saved 0 term 0"),
        (Line::Lead(1, 1000), "out-of-turn expected campaign"),
        (Line::Campaign(1), "claimed term 1"),
        (Line::Tick(1, 1000), "out-of-turn expected save"),
        (Line::Save(1), "saved hi 4000"),
        (Line::Resign(1), "out-of-turn expected raise"),
        (Line::Raise(1), "raised cursor 262144000"),
        (Line::Read(1, 1000), "out-of-turn expected publish"),
        (Line::Publish(1), "published hi 4000"),
        (Line::Look(1, 1), "looked term 1 hi 4000"),
        (Line::Take(1, 1, 1), "out-of-turn expected arm"),
        (Line::Tell(1, 2), "out-of-turn expected arm"),
        (Line::Arm(1, 1), "armed at 262144000"),
        (Line::Hear(1), "out-of-turn expected draw"),
        (
            Line::Draw(1),
            "got term 1 driver 1 first 262144001 last 262144001",
        ),
        (Line::Probe(1, 3000), "probed cursor 262144001"),
        (Line::Raise(1), "raised cursor 786432000"),
        (Line::Give(1), "resigned"),
    ];
    play_all(&rt, alloc, &mut core, &lines)?;
    Ok(())
}
