ghost use Rattle.std.specs.Prelude.{◌≡◌, List, ℕ, map, length, IfOk};
ghost use Rattle.std.specs.Option.{option_copied};
ghost use Rattle.rule_fit.specs.Suits.{value_of, satisfies, satisfies_all, entry_suits, role_suits, suits_on, peer_suits, labels_of, labels_of_all, is_among};

use pd_types::{
    Constraint, Constraints, Ids, Label, NoMemory, Op, Peer, Role, Rule, RuleRole, Text,
};
use std::alloc::Global;
use store_table::{StoreEntry, Stores};

/// The value of a label, empty where there is none.
pub fn value_of<'a>(key: &[u8], labels: &'a [Label]) -> &'a [u8]
    ensures { result.now ≡ value_of key.now labels.now }
{
    for label in labels {
        if label.key.as_bytes() == key {
            return label.value.as_bytes();
        }
    }
    b""
}

// Whether the value is one of these.
fn is_among(value: &[u8], values: &[Text]) -> bool
    ensures { result ≡ is_among value.now values.now }
{
    values.iter().any(|one| one.as_bytes() == value)
}

// Whether a store with these labels satisfies the constraint.
fn satisfies(labels: &[Label], constraint: &Constraint) -> bool
    ensures { result ≡ satisfies labels.now constraint.now }
{
    let value = value_of(constraint.key.as_bytes(), labels);
    let values = constraint.values.as_slice();
    match constraint.op {
        Op::In => !value.is_empty() && is_among(value, values),
        Op::NotIn => value.is_empty() || !is_among(value, values),
        Op::Exists => !value.is_empty(),
        Op::NotExists => value.is_empty(),
    }
}

/// Whether a store with these labels satisfies all constraints.
pub fn satisfies_all(labels: &[Label], constraints: &[Constraint]) -> bool
    ensures value { result ≡ satisfies_all labels.now constraints.now }
{
    constraints.iter().all(|one| satisfies(labels, one))
}

/// The labels of a store; none where it isn't known.
pub fn labels_of<'a>(stores: &'a Stores, store: u64) -> &'a [Label]
    ensures value { result.now ≡ labels_of store stores.now }
{
    match stores.get(store) {
        Some(rec) => rec.labels.as_slice(),
        None => &[],
    }
}

/// The labels of each of these stores, which are looked up once for all that is asked of them.
pub fn labels_of_all<'a>(
    alloc: Global,
    stores: &'a Stores,
    ids: &Ids,
) -> Result<Vec<&'a [Label]>, NoMemory>
    ensures value { IfOk result (λ all. map (λ labels. labels.now) all.items ≡ labels_of_all ids.now stores.now) }
    ensures each { IfOk result (λ all. length all.items ≡ length ids.now) }
{
    let mut all = Vec::new(alloc);
    for id in ids.as_slice() {
        all.push(labels_of(stores, *id))?;
    }
    Ok(all)
}

// Whether a peer on the store of which this is known may count for the rule, its role aside: the
// store is usable and satisfies all constraints.
fn entry_suits(entry: &StoreEntry, now: u64, rule: &Rule) -> bool
    ensures value { result ≡ entry_suits entry.now now rule.now }
{
    let labels = entry.store.labels.as_slice();
    entry.is_usable(now) && satisfies_all(labels, rule.constraints.as_slice())
}

// Whether a peer of this role, which leads or doesn't, may count for a rule of that role.
fn role_suits(rule: RuleRole, role: Role, leads: bool) -> bool
    ensures { result ≡ role_suits rule role leads }
{
    match rule {
        RuleRole::Voter => role == Role::Voter,
        RuleRole::Leader => leads,
        RuleRole::Follower => role == Role::Voter && !leads,
        RuleRole::Learner => role == Role::Learner,
    }
}

/// Whether the peer suits the rule, in a region with this leader, where this is known of its store.
pub fn suits_on(leader: u64, entry: Option<&StoreEntry>, now: u64, peer: &Peer, rule: &Rule) -> bool
    ensures value { result ≡ suits_on leader (option_copied entry.entry) now peer.now rule.now }
{
    match entry {
        Some(entry) => {
            role_suits(rule.role, peer.role, peer.id == leader) && entry_suits(entry, now, rule)
        }
        None => false,
    }
}

/// Whether the peer suits the rule, in a region with this leader.
#[tactic(auto, using(crate::proofs::EntryLemmas::peer_by_entry))]
pub fn peer_suits(leader: u64, stores: &Stores, now: u64, peer: &Peer, rule: &Rule) -> bool
    ensures value { result ≡ peer_suits leader stores.now now peer.now rule.now }
{
    suits_on(leader, stores.entry(peer.store), now, peer, rule)
}
