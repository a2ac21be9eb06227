// A plain search that tries every assignment, and `fit` on the same small cases. A case has four
// peers and four rules at most; a peer that isn't there suits no rule, and a rule that isn't there
// has the count 0. Each peer's store has the labels that its mask tells, and each rule asks for a
// label of its own.
ghost use Rattle.std.specs.Prelude.{◌<◌, ◌≤◌, length};
ghost use Rattle.rule_fit.specs.Ids.{AreApart};
ghost use Rattle.pd_types.specs.declared.beat.TheConstants.{MAX_PEERS};
ghost use Rattle.pd_types.specs.declared.rule.TheConstants.{MAX_RULES};

use super::{constraint, put_store, region, rule, text};
use crate::{Certificate, Fit, Places, are_apart, check_certificate, fit, misfit_number};
use pd_types::{
    Constraint, Constraints, Label, Labels, MAX_PEERS, MAX_RULES, Op, Peer, Peers, RegionBeat,
    Role, RuleRole, Rules, StoreRec, StoreState, Texts,
};
use std::alloc::Global;
use std::test::Fail;
use store_table::Stores;

const KEYS: [&str; 4] = ["a", "b", "c", "d"];

// The last four digits of the number in this base, the last one first.
fn digits(number: u32, base: u32) -> [u32; 4]
    requires { 0 < base }
{
    [
        number % base,
        number / base % base,
        number / base / base % base,
        number / base / base / base % base,
    ]
}

// Whether a peer with this mask suits the rule, which goes by its place from 1.
fn is_suited(mask: u32, rule: u32) -> bool {
    match rule {
        1 => mask & 1 != 0,
        2 => mask & 2 != 0,
        3 => mask & 4 != 0,
        4 => mask & 8 != 0,
        _ => false,
    }
}

// A store for each mask, with the id one above it.
fn labelled_stores(alloc: Global) -> Result<Stores, Fail> {
    let mut stores = Stores::new(alloc);
    for mask in 0..16u32 {
        let mut labels = Labels::new(alloc);
        for (place, key) in KEYS.iter().enumerate() {
            if is_suited(mask, place as u32 + 1) {
                let key = text(alloc, key)?;
                let value = text(alloc, "y")?;
                labels.push(Label { key, value })?;
            }
        }
        let rec = StoreRec {
            id: u64::from(mask) + 1,
            address: text(alloc, "a:1")?,
            labels,
            state: StoreState::Up,
        };
        stores.put(rec, 10)?;
    }
    Ok(stores)
}

// A rule for each count that isn't 0.
fn labelled_rules(alloc: Global, counts: &[u32; 4]) -> Result<Rules, Fail> {
    let mut rules = Rules::new(alloc);
    for (key, count) in KEYS.iter().zip(counts) {
        if *count != 0 {
            let key = text(alloc, key)?;
            let values = Texts::new(alloc);
            let op = Op::Exists;
            let mut constraints = Constraints::new(alloc);
            constraints.push(Constraint { key, op, values })?;
            rules.push(rule(alloc, RuleRole::Voter, *count, constraints)?)?;
        }
    }
    Ok(rules)
}

// The peers with these masks, as many as asked for.
fn masked_peers(alloc: Global, masks: &[u32; 4], many: usize) -> Result<Peers, Fail> {
    let mut peers = Peers::new(alloc);
    let mut id = 11;
    for mask in masks.iter().take(many) {
        peers.push(Peer {
            id: id % 100,
            store: u64::from(*mask) + 1,
            role: Role::Voter,
        })?;
        id = id % 100 + 1;
    }
    Ok(peers)
}

// Whether a peer with this mask may have this choice: 0 for no rule, or a rule that it suits.
fn may_have(mask: u32, choice: u32) -> bool {
    choice == 0 || is_suited(mask, choice)
}

// How many peers have the choice.
fn held(choices: &[u32; 4], choice: u32) -> u32 {
    let [p, q, r, s] = *choices;
    let first = u32::from(p == choice) + u32::from(q == choice);
    first + u32::from(r == choice) + u32::from(s == choice)
}

// Whether no rule has more peers than its count.
fn is_within(counts: &[u32; 4], choices: &[u32; 4]) -> bool {
    let [a, b, c, d] = *counts;
    let first = held(choices, 1) <= a && held(choices, 2) <= b;
    first && held(choices, 3) <= c && held(choices, 4) <= d
}

// Whether each rule has exactly its count of peers.
fn is_exact(counts: &[u32; 4], choices: &[u32; 4]) -> bool {
    let [a, b, c, d] = *counts;
    let first = held(choices, 1) == a && held(choices, 2) == b;
    first && held(choices, 3) == c && held(choices, 4) == d
}

// The most peers that can have a rule, and whether the peers fit.
#[derive(Clone, Copy, Debug, PartialEq, Eq)]
struct Best {
    placed: u32,
    fits: bool,
}

// The better of what is known and what these choices give.
fn tried(best: Best, counts: &[u32; 4], choices: &[u32; 4], many: u32) -> Best {
    if !is_within(counts, choices) {
        return best;
    }
    let placed = 4u32.saturating_sub(held(choices, 0));
    let fits = placed == many && is_exact(counts, choices);
    Best {
        placed: best.placed.max(placed),
        fits: best.fits || fits,
    }
}

// The best over all choices of the last two peers.
fn try_last(best: Best, masks: &[u32; 4], counts: &[u32; 4], p: u32, q: u32, many: u32) -> Best {
    let [_, _, c, d] = *masks;
    let mut best = best;
    for number in 0..25 {
        let r = number / 5;
        let s = number % 5;
        if may_have(c, r) && may_have(d, s) {
            best = tried(best, counts, &[p, q, r, s], many);
        }
    }
    best
}

// The best over every assignment of the peers.
fn plain(masks: &[u32; 4], counts: &[u32; 4], many: u32) -> Best {
    let [a, b, _, _] = *masks;
    let mut best = Best {
        placed: 0,
        fits: false,
    };
    for number in 0..25 {
        let p = number / 5;
        let q = number % 5;
        if may_have(a, p) && may_have(b, q) {
            best = try_last(best, masks, counts, p, q, many);
        }
    }
    best
}

fn placed(given: &Places) -> u32 {
    let placed = given
        .as_slice()
        .iter()
        .filter(|place| place.is_some())
        .count();
    u32::try_from(placed).unwrap_or(u32::MAX)
}

fn best_of(given: &Places, fits: bool) -> Best {
    let placed = placed(given);
    Best { placed, fits }
}

// What `fit` says; none where its certificate doesn't hold.
fn fast(
    alloc: Global,
    beat: &RegionBeat,
    rules: &Rules,
    stores: &Stores,
) -> Result<Option<Best>, Fail>
    requires peers { length beat.now.region.peers ≤ MAX_PEERS }
    requires rules { length rules.now ≤ MAX_RULES }
    requires apart { AreApart beat.now.region.peers }
{
    match fit(alloc, beat, rules, stores, 20)? {
        Fit::Fits { given } => Ok(Some(best_of(&given, true))),
        Fit::Misfit { given, certificate } => {
            if check_certificate(&certificate, beat, rules, stores, 20) {
                Ok(Some(best_of(&given, false)))
            } else {
                Ok(None)
            }
        }
    }
}

fn total(counts: &[u32; 4]) -> u64 {
    let [a, b, c, d] = *counts;
    u64::from(a) + u64::from(b) + u64::from(c) + u64::from(d)
}

// Whether both searches say the same of this many peers with these masks.
fn agrees(
    alloc: Global,
    stores: &Stores,
    rules: &Rules,
    counts: &[u32; 4],
    masks: &[u32; 4],
    many: u32,
) -> Result<bool, Fail> {
    let mut beat = region(alloc, &[])?;
    beat.region.peers = masked_peers(alloc, masks, many as usize)?;
    let peers = beat.region.peers.as_slice();
    if peers.len() > MAX_PEERS || rules.len() > MAX_RULES || !are_apart(peers) {
        return Ok(false);
    }
    let best = plain(masks, counts, many);
    let number = misfit_number(alloc, &beat, rules, stores, 20)?;
    let missing = u128::from(total(counts)) + u128::from(many);
    let same = fast(alloc, &beat, rules, stores)? == Some(best);
    Ok(same && u128::from(number) + 2 * u128::from(best.placed) == missing)
}

// The first masks of this many peers of which the searches say different things, of all masks below
// a bound.
fn first_difference(
    alloc: Global,
    stores: &Stores,
    counts: &[u32; 4],
    many: u32,
    bound: u32,
) -> Result<Option<[u32; 4]>, Fail>
    requires { 0 < bound }
{
    let rules = labelled_rules(alloc, counts)?;
    for number in 0..bound.saturating_pow(many) {
        let masks = digits(number, bound);
        if !agrees(alloc, stores, &rules, counts, &masks, many)? {
            return Ok(Some(masks));
        }
    }
    Ok(None)
}

// Each of three rules is left out, or has a count of 1 or 2; up to three peers suit any of them. All
// orders of the rules and of the peers are tried.
#[test]
fn agrees_on_three_peers_of_three_rules(rt: HostRuntime) -> Result<(), Fail> {
    let alloc = rt.alloc();
    let stores = labelled_stores(alloc)?;
    for number in 0..27 {
        let counts = digits(number, 3);
        for many in 0..4 {
            assert_eq!(rt;
                first_difference(alloc, &stores, &counts, many, 8)?,
                None,
                "counts {counts:?} peers {many}"
            );
        }
    }
    Ok(())
}

// Four peers suit any of two rules of two peers each, in all orders.
#[test]
fn agrees_on_four_peers_of_two_rules(rt: HostRuntime) -> Result<(), Fail> {
    let alloc = rt.alloc();
    let stores = labelled_stores(alloc)?;
    for counts in [[2, 2, 0, 0], [1, 3, 0, 0], [3, 1, 0, 0]] {
        assert_eq!(rt;
            first_difference(alloc, &stores, &counts, 4, 4)?,
            None,
            "counts {counts:?}"
        );
    }
    Ok(())
}

// Four peers suit any of four rules of one peer each: each thirteenth of the 65,536 ways, which is a
// sample over all orders of the peers and of the rules.
#[test]
fn agrees_on_a_sample_of_four_peers_of_four_rules(rt: HostRuntime) -> Result<(), Fail> {
    let alloc = rt.alloc();
    let stores = labelled_stores(alloc)?;
    let counts = [1, 1, 1, 1];
    let rules = labelled_rules(alloc, &counts)?;
    for turn in 0..5_042u32 {
        let masks = digits(turn.saturating_mul(13), 16);
        assert!(rt;
            agrees(alloc, &stores, &rules, &counts, &masks, 4)?,
            "masks {masks:?}"
        );
    }
    Ok(())
}

// Two rules of one peer each ask for the zone z1, where only the first peer is.
#[test]
fn two_rules_of_one_zone_do_not_fit(rt: HostRuntime) -> Result<(), Fail> {
    let alloc = rt.alloc();
    let mut stores = Stores::new(alloc);
    put_store(alloc, &mut stores, 1, "z1")?;
    put_store(alloc, &mut stores, 2, "z2")?;
    let beat = region(alloc, &[Role::Voter, Role::Voter])?;
    let mut rules = Rules::new(alloc);
    for _ in 0..2 {
        let constraints = constraint(alloc, "zone", Op::In, "z1")?;
        rules.push(rule(alloc, RuleRole::Voter, 1, constraints)?)?;
    }
    assert!(rt; are_apart(beat.region.peers.as_slice()));
    assert!(rt; beat.region.peers.len() <= MAX_PEERS && rules.len() <= MAX_RULES);
    match fit(alloc, &beat, &rules, &stores, 1000)? {
        Fit::Fits { .. } => panic!(rt; "a rule is left without a peer"),
        Fit::Misfit { given, certificate } => {
            assert_eq!(rt; given.as_slice(), [Some(0), None].as_slice());
            match certificate {
                Certificate::Peers(ids) => assert_eq!(rt; ids.as_slice(), [12].as_slice()),
                Certificate::Totals { .. } => panic!(rt; "the totals agree"),
            }
        }
    }
    assert_eq!(rt; misfit_number(alloc, &beat, &rules, &stores, 1000)?, 2);
    Ok(())
}

// Fifteen peers and 64 rules of one peer each. Ten of the rules ask for a label that seven of the
// stores have, the others for one that no store has.
#[test]
fn takes_fifteen_peers_and_sixty_four_rules(rt: HostRuntime) -> Result<(), Fail> {
    let alloc = rt.alloc();
    let stores = labelled_stores(alloc)?;
    let beat = region(alloc, &[Role::Voter; 15])?;
    let mut rules = Rules::new(alloc);
    for place in 0..64 {
        let key = if place < 54 { "e" } else { "d" };
        let constraints = constraint(alloc, key, Op::In, "y")?;
        rules.push(rule(alloc, RuleRole::Voter, 1, constraints)?)?;
    }
    assert!(rt; are_apart(beat.region.peers.as_slice()));
    assert!(rt; beat.region.peers.len() <= MAX_PEERS && rules.len() <= MAX_RULES);
    assert_eq!(rt;
        fast(alloc, &beat, &rules, &stores)?,
        Some(Best {
            placed: 7,
            fits: false
        })
    );
    assert_eq!(rt; misfit_number(alloc, &beat, &rules, &stores, 20)?, 65);
    Ok(())
}
