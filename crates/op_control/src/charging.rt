// What an operator's steps take of the stores' limits.
ghost use Rattle.std.specs.Prelude.{◌≡◌, ◌^◌, ◌<◌, ◌≤◌, ◌-◌, ◌*◌, ℕ, None, length, take, drop};
ghost use Rattle.store_limit.specs.Limits.{available_in};
ghost use Rattle.op_control.specs.Charging.{after_charges, charge_of, charged_by, first_refused, refused_at, refused_by};
ghost use Rattle.op_control.specs.Counting.{count_same, is_same};

use pd_types::Step;
use store_limit::{LimitKind, Limited, Limits, PEER_UNITS};

fn charge_of(step: &Step) -> Option<(LimitKind, u64)>
    ensures { result ≡ charge_of step.now }
{
    match *step {
        Step::AddLearner { store, .. } => Some((LimitKind::AddPeer, store)),
        Step::RemovePeer { store, .. } => Some((LimitKind::RemovePeer, store)),
        _ => None,
    }
}

// Whether the step charges that bucket.
fn is_same(kind: LimitKind, store: u64, step: &Step) -> bool
    ensures { result ≡ is_same kind store (charge_of step.now) }
{
    match charge_of(step) {
        Some((LimitKind::AddPeer, other)) => kind == LimitKind::AddPeer && other == store,
        Some((LimitKind::RemovePeer, other)) => kind == LimitKind::RemovePeer && other == store,
        None => false,
    }
}

// How many of the steps charge that bucket.
fn count_same(kind: LimitKind, store: u64, steps: &[Step]) -> usize
    ensures value { result ≡ count_same kind store steps.now }
    ensures bound { result ≤ length steps.now }
{
    let mut count = 0;
    for step in steps {
        if is_same(kind, store, step) {
            count += 1;
        }
    }
    count
}

fn refused_at(available: u64) -> Option<Limited>
    ensures { result ≡ refused_at available }
{
    if available < PEER_UNITS {
        Some(Limited {
            available,
            needed: PEER_UNITS,
        })
    } else {
        None
    }
}

// Why a store's limit refuses the step, after the charges of the steps before it.
fn refused(before: &[Step], step: &Step, limits: &Limits, now: u64) -> Option<Limited>
    requires { length before.now < 2 ^ 32 }
    ensures { result ≡ refused_by (charge_of step.now) (after_charges before.now limits.now now) now }
{
    let (kind, store) = charge_of(step)?;
    let taken = count_same(kind, store, before) as u64 * PEER_UNITS;
    let available = limits.available(store, kind, now);
    refused_at(available.saturating_sub(taken))
}

/// The first of fewer than 2^32 steps that a store's limit refuses, after the charges of the steps
/// before it. It takes no memory; a step's own earlier charges are counted anew for each step.
pub fn first_refused(steps: &[Step], limits: &Limits, now: u64) -> Option<Limited>
    requires { length steps.now < 2 ^ 32 }
    ensures { result ≡ first_refused steps.now limits.now now }
{
    for place in 0..steps.len() {
        if let Some(limited) = refused(&steps[..place], &steps[place], limits, now) {
            return Some(limited);
        }
    }
    None
}

fn charge(step: &Step, limits: &mut Limits, now: u64)
    requires { refused_by (charge_of step.now) limits.old now ≡ None }
    ensures { limits.new ≡ charged_by (charge_of step.now) limits.old now }
{
    if let Some((kind, store)) = charge_of(step) {
        match limits.take(store, kind, now) {
            Ok(()) => {}
            Err(_) => unreachable!(),
        }
    }
}

/// Charges steps that no limit refuses.
pub fn charge_all(steps: &[Step], limits: &mut Limits, now: u64)
    requires { first_refused steps.now limits.old now ≡ None }
    ensures { limits.new ≡ after_charges steps.now limits.old now }
{
    for step in steps {
        charge(step, limits, now);
    }
}
