ghost use Rattle.std.specs.Prelude.{◌≡◌, ◌<◌, ◌≤◌, ◌*◌, ◌^◌, length, map};
ghost use Rattle.rule_fit.specs.Isolation.{differ_by, isolation_score, score_among, score_by, score_from};
ghost use Rattle.rule_fit.specs.Suits.{labels_of, labels_of_all};
ghost use Rattle.pd_types.specs.declared.beat.TheConstants.{MAX_PEERS};
ghost use Rattle.pd_types.specs.declared.rule.TheConstants.{MAX_LOCATIONS};

use crate::suiting::{labels_of, value_of};
use pd_types::{Ids, Label, Text, Texts};
use store_table::Stores;

// Whether stores with these labels have different values of one.
fn differ_by(one: &[Label], other: &[Label], label: &[u8]) -> bool
    ensures { result ≡ differ_by one.now other.now label.now }
{
    value_of(label, one) != value_of(label, other)
}

// How far a store with these labels is from another.
fn score_by(one: &[Label], other: &[Label], labels: &[Text]) -> u64
    requires { length labels.now ≤ MAX_LOCATIONS }
    ensures value { result ≡ score_by one.now other.now labels.now }
    ensures bound { result ≤ 1000000 }
{
    for (place, label) in labels.iter().enumerate() {
        if differ_by(one, other, label.as_bytes()) {
            return power(labels.len() - place - 1);
        }
    }
    0
}

// The power of 100 for a label that has this many behind it.
fn power(behind: usize) -> u64
    requires { behind < MAX_LOCATIONS }
    ensures value { result ≡ 100 ^ behind }
    ensures bound { result ≤ 1000000 }
{
    match behind {
        0 => 1,
        1 => 100,
        2 => 10_000,
        _ => 1_000_000,
    }
}

// How far a store with these labels is from other stores.
fn score_of(stores: &Stores, own: &[Label], others: &[u64], labels: &[Text]) -> u64
    requires others { length others.now ≤ MAX_PEERS }
    requires labels { length labels.now ≤ MAX_LOCATIONS }
    ensures { result ≡ score_from own.now stores.now others.now labels.now }
{
    let mut score = 0;
    for other in others {
        score += score_by(own, labels_of(stores, *other), labels);
    }
    score
}

/// How far a store is from other stores by location labels, of which the first weighs most. It may
/// be called with at most 15 others and at most 4 labels.
#[tactic(auto, using(crate::proofs::IsolationLemmas::score_by_labels, crate::proofs::IsolationLemmas::score_among_labels))]
pub fn isolation_score(stores: &Stores, store: u64, others: &Ids, labels: &Texts) -> u64
    requires others { length others.now ≤ MAX_PEERS }
    requires labels { length labels.now ≤ MAX_LOCATIONS }
    ensures value { result ≡ isolation_score stores.now store others.now labels.now }
    ensures among { result ≡ score_among (labels_of store stores.now) (labels_of_all others.now stores.now) labels.now }
{
    let own = labels_of(stores, store);
    score_of(stores, own, others.as_slice(), labels.as_slice())
}

/// How far a store with these labels is from stores with those, by location labels: the isolation
/// score, for a caller that has the labels at hand. It may be called as `isolation_score` may.
pub fn score_among(own: &[Label], others: &[&[Label]], labels: &[Text]) -> u64
    requires others { length others.now ≤ MAX_PEERS }
    requires labels { length labels.now ≤ MAX_LOCATIONS }
    ensures value { result ≡ score_among own.now (map (λ other. other.now) others.now) labels.now }
{
    let mut score = 0;
    for other in others {
        score += score_by(own, other, labels);
    }
    score
}
