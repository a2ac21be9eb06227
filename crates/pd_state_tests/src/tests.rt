// The requests of stores and about rules, terms, and what the metadata keeps of them.
use crate::scripts::{Scene, request};
use pd_state::{Cluster, Reply};
use pd_types::{Actor, BeatFault, NoMemory, Request};
use std::alloc::Global;
use std::process::Abort;
use std::test::Fail;

// A request, made once more where memory is wanting.
fn asked(alloc: Global, line: &str) -> Result<Request, NoMemory> {
    request(alloc, line).or_else(|_| request(alloc, line))
}

// One request of each kind, in a term.
fn each_kind() -> &'static str {
    r#"term 1 1000
hello 1 1000
alive 1 1001
beat 1002 7 - - 1 1 11
rule 1000 {"group_id":"pd","id":"x","role":"voter","count":1}
unrule 1000 x
check 1003 7
patrol 1004
schedule 1005
ctl 1006 store
retire"#
}

// Serves a request: it has its entry, or there is no memory for it, which leaves the journal, takes
// the tables away and ends every later request so too. Tells whether it was served.
fn serve_whole(
    rt: &impl Abort,
    alloc: Global,
    scene: &mut Scene,
    line: &str,
) -> Result<bool, Fail> {
    let before = scene.cluster.journal().len();
    let request = asked(alloc, line)?;
    if scene.ask(Actor::Store(1), request).is_ok() {
        assert_eq!(rt;
            scene.cluster.journal().len(),
            before.saturating_add(1),
            "at {line}"
        );
        return Ok(true);
    }
    assert!(rt; scene.cluster.part().is_none(), "at {line}");
    let later = scene.ask(Actor::Store(1), Request::Retire);
    assert!(rt; later.is_err(), "after {line}");
    assert_eq!(rt; scene.cluster.journal().len(), before, "at {line}");
    Ok(false)
}

// Serves one request of each kind, as far as memory lasts. Tells whether all were served.
fn serve_each(rt: &impl Abort, alloc: Global, scene: &mut Scene) -> Result<bool, Fail> {
    for line in each_kind().lines() {
        if !serve_whole(rt, alloc, scene, line)? {
            return Ok(false);
        }
    }
    Ok(scene.cluster.journal().len() == 11)
}

// How many stores and rules the cluster of a later term is handed.
fn handed(alloc: Global, scene: &mut Scene) -> Result<(u64, u64), Fail> {
    scene.cluster = Cluster::new(alloc, 2);
    match scene.ask(Actor::Driver(2), asked(alloc, "term 2 2000")?)? {
        Reply::Term {
            term: 2,
            stores,
            rules,
        } => Ok((stores, rules)),
        _ => Err(Fail::new("no term 2")),
    }
}

fn expect_handed(rt: &impl Abort, alloc: Global, scene: &mut Scene) -> Result<(), Fail> {
    let is_whole = serve_each(rt, alloc, scene)?;
    let (stores, rules) = handed(alloc, scene)?;
    assert!(rt;
        if is_whole {
            (stores, rules) == (1, 1)
        } else {
            stores <= 1 && rules <= 2
        }
    );
    Ok(())
}

// With `rt try --test --fail-alloc N` the Nth allocation of each test fails. Whichever it is, the
// cluster of a later term finds the store and the rule each whole in the metadata, or not at all.
#[test]
fn a_request_without_memory_leaves_the_journal(rt: HostRuntime) -> Result<(), Fail> {
    expect_handed(&rt, rt.alloc(), &mut Scene::new(rt.alloc()))
}

// The beginning of a term, stale and overlapping heartbeats, and one whose leader is no peer.
fn stale_and_overlapping() -> &'static str {
    "\
term 1 1000 => term 1 stores 0 rules 1
beat 1000 7 - 40 1 6 11 => accepted removed 0 none
beat 1001 8 20 60 1 5 11 => stale conf 1 version 6
beat 1002 9 40 - 1 6 11 => accepted removed 0 none
beat 1003 10 - - 1 7 11 => accepted removed 2 none
beat 1004 11 - - 1 8 51 => bad 5
"
}

// Three stores and a region, as the gate of operators finds them later: a store is live for 20 seconds.
fn three_stores() -> &'static str {
    r#"term 1 1000 => term 1 stores 0 rules 1
hello 1 1000 => store put
hello 2 1000 => store put
beat 1000 7 - - 1 1 11 => accepted removed 0 none
alive 1 21001 => alive
ctl 21001 store => {"count":2,"stores":[{"address":"a","id":1,"labels":[],"leader_count":1,"region_count":1,"state_name":"Up"},{"address":"a","id":2,"labels":[],"leader_count":0,"region_count":0,"state_name":"Disconnected"}]}
clock => 21001
"#
}

// Without a term nothing is served. A new term knows the stores that were written, and has neither
// heard them nor their regions.
fn terms() -> &'static str {
    "\
alive 1 500 => not-leading
hello 1 500 => not-leading
beat 500 7 - - 1 1 11 => not-leading
retire => not-leading
term 1 1000 => term 1 stores 0 rules 1
alive 1 1000 => unknown-store
hello 1 5000 => store put
hello 1 4000 => store put
beat 1000 7 - - 1 9 11 => accepted removed 0 none
beat 1000 7 - - 1 8 11 => stale conf 1 version 9
term 2 900 => term 2 stores 1 rules 1
alive 1 900 => alive
alive 2 900 => unknown-store
beat 800 7 - - 1 8 11 => accepted removed 0 none
retire => retired
retire => not-leading
alive 1 900 => not-leading
"
}

// The clock doesn't step back, and rises also with a heartbeat that is refused.
fn clock() -> &'static str {
    "\
term 1 1000 => term 1 stores 0 rules 1
beat 3000 7 - - 1 1 12 => bad 5
alive 9 2000 => unknown-store
clock => 3000
"
}

// A kept record, and what a term begins with. A record that doesn't read is passed over, and so is one
// under another key than its own.
fn offline() -> &'static str {
    "\
keep store/00000000000000000001 offline a - => kept
term 1 1000 => term 1 stores 1 rules 1
"
}

fn without_labels() -> &'static str {
    "\
keep store/00000000000000000001 up a => kept
term 1 1000 => term 1 stores 0 rules 1
"
}

fn short_key() -> &'static str {
    "\
keep store/1 up a - => kept
term 1 1000 => term 1 stores 0 rules 1
"
}

fn another_id() -> &'static str {
    r#"keep rule/7064/78 {"group_id":"pd","id":"y","role":"voter","count":1} => kept
term 1 1000 => term 1 stores 0 rules 1
rules => (default)
"#
}

// A stored rule stands in place of the default rule.
fn stored_rule() -> &'static str {
    r#"keep rule/7064/78 {"group_id":"pd","id":"x","role":"voter","count":1} => kept
keep id 1001000 => kept
term 1 1000 => term 1 stores 0 rules 1
rules => (x)
"#
}

// Rules are set and removed, and a new term knows them. The default rule is written with the first
// other one; a rule that was never written is removed without a call.
fn rules() -> &'static str {
    r#"rule 1000 {} => not-leading
term 1 1000 => term 1 stores 0 rules 1
rule 1000 {"group_id":"pd","id":"x","role":"voter","count":1,"start_key":"40","color":"red"} => rule set
rule 1000 {"group_id":"pd","id":"x","role":"voter","count":1,"isolation_level":"zone"} => bad-rule 10
rule 1000 {"group_id":"pd","id":"x"} => bad-rule 3
unrule 1000 y => absent
term 2 1000 => term 2 stores 0 rules 2
unrule 1000 x => rule removed
unrule 1000 default => last-rule
term 3 1000 => term 3 stores 0 rules 1
rule 1000 {"group_id":"pd","id":"x","role":"learner","count":2} => rule set
unrule 1000 default => rule removed
unrule 1000 x => last-rule
term 4 1000 => term 4 stores 0 rules 1
unrule 1000 default => absent
"#
}

// The worked row of rules: after a lead, three stores and a region.
fn rule_row() -> &'static str {
    r#"term 1 1000 => term 1 stores 0 rules 1
hello 1 1000 => store put
hello 2 1000 => store put
hello 3 1000 => store put
beat 1000 7 - - 1 1 11 => accepted removed 0 none
rule 1000 {"group_id":"pd","id":"x","role":"voter","count":1,"start_key":"40","color":"red"} => rule set
rule 1000 {"group_id":"pd","id":"x","role":"voter","count":1,"start_key":"40","color":"red","isolation_level":"zone"} => bad-rule 10
unrule 1000 y => absent
unrule 1000 x => rule removed
unrule 1000 default => last-rule
"#
}

// With 64 rules, `7` of the group `pd` among them, a rule of a new name is refused, and no other.
fn at_the_limit() -> &'static str {
    r#"rule 1000 {"group_id":"pd","id":"64","role":"voter","count":1} => rule-limit
rule 1000 {"group_id":"pd","id":"7","role":"voter","count":2} => rule set
rule 1000 {"group_id":"qd","id":"7","role":"voter","count":2} => rule-limit
unrule 1000 7 => rule removed
rule 1000 {"group_id":"qd","id":"7","role":"voter","count":2} => rule set
"#
}

// The line with a number in the place of each `%`.
fn numbered(alloc: Global, line: &str, number: u64) -> Result<String, Fail> {
    let mut parts = line.split('%');
    let mut text = String::from_str(alloc, parts.next().unwrap_or(""))?;
    for part in parts {
        write!(text, "{number}{part}")?;
    }
    Ok(text)
}

// A line that is played for each number from the first up to the end.
type Row = (u64, u64, &'static str);

// Plays a row.
fn fill(rt: &impl Abort, alloc: Global, scene: &mut Scene, row: Row) -> Result<(), Fail> {
    let (first, end, line) = row;
    for number in first..end {
        let line = numbered(alloc, line, number)?;
        scene.play(rt, alloc, line.as_str())?;
    }
    Ok(())
}

// Plays rows in a scene of their own.
fn fill_all(rt: &impl Abort, alloc: Global, rows: &[Row]) -> Result<(), Fail> {
    let mut scene = Scene::new(alloc);
    for row in rows {
        fill(rt, alloc, &mut scene, *row)?;
    }
    Ok(())
}

fn begin() -> Row {
    (0, 1, "term 1 1000 => term 1 stores 0 rules 1")
}

fn many_stores() -> [Row; 3] {
    [
        begin(),
        (1, 257, "hello % 1000 => store put"),
        (257, 258, "hello % 1000 => limit"),
    ]
}

fn many_kept_stores() -> [Row; 3] {
    [
        begin(),
        (100, 357, "keep store/00000000000000000% up a - => kept"),
        (0, 1, "term 2 1000 => term 2 stores 256 rules 1"),
    ]
}

fn many_rules() -> [Row; 3] {
    [
        begin(),
        (
            1,
            64,
            r#"rule 1000 {"group_id":"pd","id":"%","role":"voter","count":1} => rule set"#,
        ),
        (0, 1, at_the_limit()),
    ]
}

// What is asked for a region more than may have an operator.
fn one_more(line: &'static str) -> Row {
    (2024, 2025, line)
}

fn many_operators() -> [Row; 8] {
    [
        begin(),
        (1, 4, "hello % 1000 => store put"),
        (
            1000,
            2025,
            "beat 1000 % % %ff 1 1 11 11:1:v,12:2:v => accepted removed 0 none",
        ),
        (
            1000,
            2024,
            r#"ctl 1000 operator add transfer-leader % 2 => {"added":1,"now":"send transfer-leader peer 12 store 2"}"#,
        ),
        one_more(r#"ctl 1000 operator add add-peer % 3 => {"fault":"limit"}"#),
        one_more(r#"ctl 1000 operator add remove-peer % 2 => {"fault":"limit"}"#),
        one_more(r#"ctl 1000 operator add transfer-leader % 2 => {"fault":"limit"}"#),
        one_more(r#"ctl 1000 operator add transfer-peer % 2 3 => {"fault":"limit"}"#),
    ]
}

#[test]
fn stores_and_rules_have_limits(rt: HostRuntime) -> Result<(), Fail> {
    fill_all(&rt, rt.alloc(), &many_stores())?;
    fill_all(&rt, rt.alloc(), &many_kept_stores())?;
    fill_all(&rt, rt.alloc(), &many_rules())
}

// So many regions may have an operator.
#[test]
fn operators_have_a_limit(rt: HostRuntime) -> Result<(), Fail> {
    fill_all(&rt, rt.alloc(), &many_operators())
}

// What a driver whose rule `x` is set is answered once it is outdated: a refused write leaves the rules.
fn outdated() -> &'static str {
    r#"term 1 1000 => term 1 stores 0 rules 1
rule 1000 {"group_id":"pd","id":"x","role":"voter","count":1} => rule set
outdate => outdated
rule 1000 {"group_id":"pd","id":"x"} => bad-rule 3
rule 1000 {"group_id":"pd","id":"y","role":"voter","count":1} => old-term 5
unrule 1000 y => absent
unrule 1000 x => old-term 5
rule 1000 {"group_id":"pd","id":"x","role":"learner","count":1} => old-term 5
unrule 1000 default => old-term 5
"#
}

// The first rule that is set is written behind the default rule, and later ones alone; the keys are as
// docs/FORMATS.md spells them.
fn twice() -> &'static str {
    r#"term 1 1000 => term 1 stores 0 rules 1
rule 1000 {"group_id":"pd","id":"x","role":"voter","count":1} => rule set
rule 1000 {"group_id":"pd","id":"x","role":"voter","count":2} => rule set
writes => (1 lead 1)(1 put rule/7064/64656661756c74 0 Accepted { revision: 1 })(1 put rule/7064/78 0 Accepted { revision: 2 })(1 put rule/7064/78 2 Accepted { revision: 3 })
"#
}

// A record of the rule was written behind the cluster's back, so that the second write is refused;
// the default rule stays stored, and the next rule is written alone.
fn second_refused() -> &'static str {
    r#"term 1 1000 => term 1 stores 0 rules 1
keep rule/7064/78 {"group_id":"pd","id":"x","role":"voter","count":1} => kept
rule 1000 {"group_id":"pd","id":"x","role":"voter","count":1} => conflict 1
unrule 1000 x => absent
unrule 1000 default => last-rule
rule 1000 {"group_id":"pd","id":"y","role":"voter","count":1} => rule set
unrule 1000 y => rule removed
term 2 1000 => term 2 stores 0 rules 2
writes => (1 lead 1)(2 put rule/7064/78 0 Accepted { revision: 1 })(1 put rule/7064/64656661756c74 0 Accepted { revision: 2 })(1 put rule/7064/78 0 Conflict { found: 1 })(1 put rule/7064/79 0 Accepted { revision: 3 })(1 delete rule/7064/79 3 Accepted { revision: 4 })(1 lead 2)
"#
}

// Behind a refused write of the default rule none is made.
fn first_refused() -> &'static str {
    r#"term 1 1000 => term 1 stores 0 rules 1
keep rule/7064/64656661756c74 - => kept
rule 1000 {"group_id":"pd","id":"x","role":"voter","count":1} => conflict 1
unrule 1000 x => absent
writes => (1 lead 1)(2 put rule/7064/64656661756c74 0 Accepted { revision: 1 })(1 put rule/7064/64656661756c74 0 Conflict { found: 1 })
"#
}

// A write behind the cluster's back, and a later term: the cluster's own writes are refused, and a
// term that is refused leaves none.
fn guarded() -> &'static str {
    "\
term 1 1000 => term 1 stores 0 rules 1
keep store/00000000000000000001 up a - => kept
hello 1 1000 => conflict 1
outdate => outdated
hello 1 1000 => old-term 5
alive 1 1000 => unknown-store
term 3 1000 => old-term 5
alive 1 1000 => not-leading
"
}

// Each script by itself.
#[test]
fn requests_are_answered(rt: HostRuntime) -> Result<(), Fail> {
    let alloc = rt.alloc();
    let scripts = [
        stale_and_overlapping(),
        three_stores(),
        terms(),
        clock(),
        offline(),
        without_labels(),
        short_key(),
        another_id(),
        stored_rule(),
        rules(),
        rule_row(),
        outdated(),
        twice(),
        second_refused(),
        first_refused(),
        guarded(),
    ];
    for lines in scripts {
        Scene::new(alloc).play(&rt, alloc, lines)?;
    }
    Ok(())
}

fn expect_entry(rt: &impl Abort, alloc: Global, scene: &mut Scene) -> Result<(), Fail> {
    scene.ask(Actor::Store(4), request(alloc, "alive 4 500")?)?;
    let Some(entry) = scene.cluster.journal().as_slice().first() else {
        return Err(Fail::new("no entry"));
    };
    assert_eq!(rt; entry.actor, Actor::Store(4));
    assert_eq!(rt; entry.line, 7);
    assert!(rt; entry.request == request(alloc, "alive 4 500")?);
    assert_eq!(rt; entry.reply, Reply::NotLeading);
    Ok(())
}

#[test]
fn an_entry_has_its_actor_line_and_request(rt: HostRuntime) -> Result<(), Fail> {
    expect_entry(&rt, rt.alloc(), &mut Scene::new(rt.alloc()))
}

// The texts that the scripts above don't have.
#[test]
fn replies_are_printed(rt: HostRuntime) -> Result<(), Fail> {
    let rows = [
        (Reply::OldTerm { fence: 7 }, "old-term 7"),
        (Reply::Conflict { found: 3 }, "conflict 3"),
        (Reply::MetaLimit, "meta-limit"),
        (Reply::Tombstone, "tombstone"),
        (Reply::Limit, "limit"),
        (Reply::Full, "full"),
        (Reply::Bad(BeatFault::NoPeers), "bad 1"),
        (Reply::Bad(BeatFault::LongKey), "bad 8"),
    ];
    for (reply, want) in rows {
        let text = format!(in rt.alloc(); "{reply}")?;
        assert_eq!(rt; text.as_str(), want);
    }
    Ok(())
}
