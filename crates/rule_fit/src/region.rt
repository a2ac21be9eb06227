ghost use Rattle.std.specs.Prelude.{◌≤◌, ◌↔◌, length, IfOk, IsTrue};
ghost use Rattle.rule_fit.specs.Fit.{given_of, says_fits};
ghost use Rattle.rule_fit.specs.Ids.{AreApart};
ghost use Rattle.rule_fit.specs.Question.{FitsIn, HasItsKindIn, IsCertifiedIn, IsGreatestIn, IsMisfitIn, question};
ghost use Rattle.pd_types.specs.declared.beat.TheConstants.{MAX_PEERS};
ghost use Rattle.pd_types.specs.declared.rule.TheConstants.{MAX_RULES};

use crate::assign::{Matching, placed};
use crate::certificate::total;
use crate::ids::ids_of;
use crate::table::matching;
use crate::{Certificate, Fit, Places};
use pd_types::{Ids, NoMemory, RegionBeat, Rule, Rules};
use std::alloc::Global;
use store_table::Stores;

// Whether the region fits these rules.
fn fit_rules(
    alloc: Global,
    beat: &RegionBeat,
    rules: &[Rule],
    stores: &Stores,
    now: u64,
) -> Result<Fit, NoMemory>
    requires rules { length rules.now ≤ MAX_RULES }
    requires apart { AreApart beat.now.region.peers }
    ensures fits { IfOk result (λ fit. IsTrue (says_fits fit) ↔ FitsIn (question beat.now rules.now stores.now now)) }
    ensures greatest { IfOk result (λ fit. IsGreatestIn (question beat.now rules.now stores.now now) (given_of fit)) }
    ensures certificate { IfOk result (IsCertifiedIn (question beat.now rules.now stores.now now)) }
    ensures kind { IfOk result (HasItsKindIn (question beat.now rules.now stores.now now)) }
{
    let Matching { given, reached } = matching(alloc, beat, rules, stores, now)?;
    let peers = beat.region.peers.as_slice();
    let sum = total(rules);
    let many = peers.len() as u64;
    if sum != many {
        return Ok(Fit::Misfit {
            given: Places::of(given),
            certificate: Certificate::Totals {
                counts: sum,
                peers: many,
            },
        });
    }
    if placed(&given) == peers.len() {
        return Ok(Fit::Fits {
            given: Places::of(given),
        });
    }
    let ids = ids_of(alloc, peers, &reached)?;
    Ok(Fit::Misfit {
        given: Places::of(given),
        certificate: Certificate::Peers(Ids::of(ids)),
    })
}

/// Whether each peer of the region can be given one rule that it suits so that each rule has exactly
/// its count of peers; an assignment that gives the most peers a rule; and a certificate where there
/// is no fit: the totals where they differ, else ids of peers, each once and in the region's order. A region that has peers never fits without rules. It may be called with at most 15
/// peers, no two with one id, and at most 64 rules.
pub fn fit(
    alloc: Global,
    beat: &RegionBeat,
    rules: &Rules,
    stores: &Stores,
    now: u64,
) -> Result<Fit, NoMemory>
    requires peers { length beat.now.region.peers ≤ MAX_PEERS }
    requires rules { length rules.now ≤ MAX_RULES }
    requires apart { AreApart beat.now.region.peers }
    ensures fits { IfOk result (λ fit. IsTrue (says_fits fit) ↔ FitsIn (question beat.now rules.now stores.now now)) }
    ensures greatest { IfOk result (λ fit. IsGreatestIn (question beat.now rules.now stores.now now) (given_of fit)) }
    ensures certificate { IfOk result (IsCertifiedIn (question beat.now rules.now stores.now now)) }
    ensures kind { IfOk result (HasItsKindIn (question beat.now rules.now stores.now now)) }
{
    fit_rules(alloc, beat, rules.as_slice(), stores, now)
}

// How far the region is from a fit.
fn misfit_of(
    alloc: Global,
    beat: &RegionBeat,
    rules: &[Rule],
    stores: &Stores,
    now: u64,
) -> Result<u64, NoMemory>
    requires peers { length beat.now.region.peers ≤ MAX_PEERS }
    requires rules { length rules.now ≤ MAX_RULES }
    ensures { IfOk result (IsMisfitIn (question beat.now rules.now stores.now now)) }
{
    let Matching { given, .. } = matching(alloc, beat, rules, stores, now)?;
    let placed = placed(&given) as u64;
    let open = total(rules) - placed;
    let left = beat.region.peers.len() as u64 - placed;
    Ok(open + left)
}

/// How far the region is from a fit: what is missing of the counts and of the peers, where the most
/// peers have a rule. It is 0 exactly where the region fits. It may be called as `fit` may.
pub fn misfit_number(
    alloc: Global,
    beat: &RegionBeat,
    rules: &Rules,
    stores: &Stores,
    now: u64,
) -> Result<u64, NoMemory>
    requires peers { length beat.now.region.peers ≤ MAX_PEERS }
    requires rules { length rules.now ≤ MAX_RULES }
    ensures value { IfOk result (IsMisfitIn (question beat.now rules.now stores.now now)) }
{
    misfit_of(alloc, beat, rules.as_slice(), stores, now)
}
