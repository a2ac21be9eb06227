// The verdict on a region.
ghost use Rattle.std.specs.Prelude.{◌≡◌, ◌≢◌, ◌≤◌, ◌<◌, [], ℕ, IfOk, IfSome, IfNone, List, length};
ghost use Rattle.pd_types.specs.declared.region.RegionBeat.{RegionBeat};
ghost use Rattle.rule_fit.specs.Ids.{AreApart};
ghost use Rattle.rule_checker.specs.Plan.{FitsRules, HasNone, IsFirst, IsVerdict, Judges, LowersNumber};
ghost use Rattle.rule_set.specs.InForce.{rules_at};
ghost use Rattle.rule_checker.specs.Measure.{HasNumber};
ghost use Rattle.rule_checker.specs.Ranks.{place_of};
ghost use Rattle.rule_checker.specs.Told.{tells, told_of};
ghost use Rattle.rule_checker.specs.declared.class.Class.{Class};
ghost use Rattle.pd_types.specs.declared.beat.TheConstants.{MAX_PEERS};

use crate::best::best_of;
use crate::candidate::steps_of;
use crate::case::Case;
use crate::{Class, Ranked, Verdict};
use heartbeat::Standing;
use pd_types::{NoMemory, RegionBeat};
use rule_fit::{Fit, fit, misfit_number};
use rule_set::RuleSet;
use std::alloc::Global;
use store_table::Stores;

// The best candidate of the class.
fn first_of(alloc: Global, on: Case, class: Class, from: u64) -> Result<Option<Ranked>, NoMemory>
    requires { HasNumber on.beat.now on.rules.now on.stores.now on.now from }
    ensures some { IfOk result (λ best. IfSome best (IsFirst class on.entry.beat.now on.entry.rules.now on.entry.stores.now on.entry.standing.now on.entry.now from)) }
    ensures none { IfOk result (λ best. IfNone best (HasNone class on.entry.beat.now on.entry.rules.now on.entry.stores.now on.entry.now from)) }
{
    if on.rules.is_empty() {
        return Ok(None);
    }
    best_of(alloc, on, class, from)
}

// The class that is tried at this place, from 1.
fn class_at(place: u8) -> Class
    requires first { 0 < place }
    requires last { place < 6 }
    ensures { place_of result ≡ place }
{
    match place {
        1 => Class::Promote,
        2 => Class::Transfer,
        3 => Class::AddVoter,
        4 => Class::AddLearner,
        _ => Class::Remove,
    }
}

/// A candidate with its class.
#[derive(Clone, Copy, Debug)]
struct Choice {
    class: Class,
    best: Ranked,
}

// The best candidate of the first class that has one.
fn choose(alloc: Global, on: Case, from: u64) -> Result<Option<Choice>, NoMemory>
    requires { HasNumber on.beat.now on.rules.now on.stores.now on.now from }
    ensures first { IfOk result (λ choice. IfSome choice (λ one. IsFirst one.class on.entry.beat.now on.entry.rules.now on.entry.stores.now on.entry.standing.now on.entry.now from one.best)) }
    ensures earlier { IfOk result (λ choice. IfSome choice (λ one. (other : Class) → place_of other < place_of one.class → HasNone other on.entry.beat.now on.entry.rules.now on.entry.stores.now on.entry.now from)) }
    ensures none { IfOk result (λ choice. IfNone choice ((class : Class) → HasNone class on.entry.beat.now on.entry.rules.now on.entry.stores.now on.entry.now from)) }
{
    for place in 1..6 {
        let class = class_at(place);
        if let Some(best) = first_of(alloc, on, class, from)? {
            return Ok(Some(Choice { class, best }));
        }
    }
    Ok(None)
}

// The verdict where no candidate lowers the number. The certificate is looked for only here.
fn stuck(alloc: Global, on: Case, from: u64) -> Result<Verdict, NoMemory>
    requires apart { AreApart on.beat.now.region.peers }
    requires number { HasNumber on.beat.now on.rules.now on.stores.now on.now from }
    requires none { (class : Class) → HasNone class on.beat.now on.rules.now on.stores.now on.now from }
    ensures { IfOk result (λ verdict. (held : List RegionBeat) → Judges on.entry.beat.now on.entry.rules.now on.entry.stores.now held on.entry.now verdict) }
{
    match fit(alloc, on.beat, on.rules, on.stores, on.now)? {
        Fit::Fits { .. } => Ok(Verdict::NoFault),
        Fit::Misfit { certificate, .. } => Ok(Verdict::NoPlan { from, certificate }),
    }
}

// The verdict on a region of this misfit number that doesn't fit.
fn mend(alloc: Global, on: Case, from: u64) -> Result<Verdict, NoMemory>
    requires apart { AreApart on.beat.now.region.peers }
    requires number { HasNumber on.beat.now on.rules.now on.stores.now on.now from }
    requires misfit { FitsRules on.beat.now on.rules.now on.stores.now on.now → ⊥ }
    ensures { IfOk result (Judges on.entry.beat.now on.entry.rules.now on.entry.stores.now on.entry.standing.now on.entry.now) }
{
    match choose(alloc, on, from)? {
        Some(Choice { class, best }) => Ok(Verdict::Plan {
            class,
            steps: steps_of(alloc, on, class, &best.peer)?,
            from,
            to: best.to,
        }),
        None => stuck(alloc, on, from),
    }
}

// The verdict on a region that crosses no border.
fn judge(alloc: Global, on: Case) -> Result<Verdict, NoMemory>
    requires apart { AreApart on.beat.now.region.peers }
    ensures { IfOk result (Judges on.entry.beat.now on.entry.rules.now on.entry.stores.now on.entry.standing.now on.entry.now) }
{
    let from = misfit_number(alloc, on.beat, on.rules, on.stores, on.now)?;
    if from == 0 {
        return Ok(Verdict::NoFault);
    }
    mend(alloc, on, from)
}

/// What is to be done for the region: its borders where it crosses any, else whether it fits the
/// rules in force at its start, else the plan that lowers its misfit number, or that there is none.
/// A new peer has the id 0. `now` is the clock in milliseconds since the epoch. It may be called
/// where the region has at most 15 peers, no two with one id, as `check_beat` asks.
pub fn check(
    alloc: Global,
    beat: &RegionBeat,
    rules: &RuleSet,
    stores: &Stores,
    standing: &Standing,
    now: u64,
) -> Result<Verdict, NoMemory>
    requires peers { length beat.now.region.peers ≤ MAX_PEERS }
    requires apart { AreApart beat.now.region.peers }
    ensures verdict { IfOk result (IsVerdict beat.now rules.now stores.now standing.now now) }
    ensures lowers { IfOk result (LowersNumber beat.now rules.now stores.now now) }
    ensures tells { IfOk result (λ verdict. tells verdict ≡ told_of beat.now rules.now stores.now standing.now now) }
{
    let keys = rules.borders(&beat.region)?;
    if !keys.is_empty() {
        return Ok(Verdict::NeedsSplit { keys });
    }
    let rules = rules.rules_at(beat.region.start.as_slice())?;
    judge(
        alloc,
        Case {
            beat,
            rules: &rules,
            stores,
            standing,
            now,
        },
    )
}
