ghost use Rattle.std.specs.Prelude.{◌≡◌, ◌≤◌, ◌<◌, ℕ, List, true, false, IfOk, OnOk, Contains, length, slice_index_or};
ghost use Rattle.pd_types.specs.Keys.{is_below};
ghost use Rattle.rule_set.specs.Borders.{AreRising, IsBorder, Takes, is_tied, strictly_inside};

use crate::order::is_less;
use pd_types::{Bytes, Duplicate, Keys, NoMemory, Region, Rule};
use std::alloc::Global;

// Whether the key lies inside the region's range and isn't its start.
fn is_inside(region: &Region, key: &[u8]) -> bool
    ensures { result ≡ strictly_inside region.now key.now }
{
    let end = region.end.as_slice();
    is_less(region.start.as_slice(), key) && (end.is_empty() || is_less(key, end))
}

// How many keys are less than this one.
fn lesser(keys: &[Bytes], key: &[u8]) -> usize
    requires { AreRising keys.now }
    ensures bound { result ≤ length keys.now }
    ensures before { (k : ℕ) (d : List ℕ) → k < result → is_below (slice_index_or keys.now k d) key.now ≡ true }
    ensures after { (k : ℕ) (d : List ℕ) → result ≤ k → k < length keys.now → is_below (slice_index_or keys.now k d) key.now ≡ false }
{
    keys.partition_point(|one| is_less(one.as_slice(), key))
}

// Takes a key in that is strictly inside the region and isn't listed yet.
fn take(alloc: Global, region: &Region, keys: &mut Vec<Bytes>, key: &Bytes) -> Result<(), NoMemory>
    requires { AreRising keys.old.items }
    ensures rising { AreRising keys.new.items }
    ensures ok { OnOk result (Takes region.now keys.old.items keys.new.items key.now) }
{
    let bytes = key.as_slice();
    if !is_inside(region, bytes) {
        return Ok(());
    }
    let at = lesser(keys, bytes);
    if is_at(keys, at, bytes) {
        return Ok(());
    }
    let copy = key.copy(alloc)?;
    keys.insert(at, copy)?;
    Ok(())
}

// Whether the key stands at the place.
fn is_at(keys: &[Bytes], at: usize, key: &[u8]) -> bool
    ensures yes { result ≡ true → at < length keys.now }
    ensures equal { result ≡ true → (d : List ℕ) → slice_index_or keys.now at d ≡ key.now }
    ensures other { result ≡ false → (d : List ℕ) → at < length keys.now → is_tied (slice_index_or keys.now at d) key.now ≡ false }
{
    match keys.get(at) {
        Some(one) => one.as_slice() == key,
        None => false,
    }
}

/// The borders of the rules inside the region, rising, each once.
pub fn borders(alloc: Global, rules: &[Rule], region: &Region) -> Result<Keys, NoMemory>
    ensures rising { IfOk result (λ keys. AreRising keys) }
    ensures inside { IfOk result (λ keys. (key : List ℕ) → Contains keys key → IsBorder rules.now region.now key) }
    ensures every { IfOk result (λ keys. (key : List ℕ) → IsBorder rules.now region.now key → Contains keys key) }
{
    let mut keys = Vec::new(alloc);
    for rule in rules {
        take(alloc, region, &mut keys, &rule.start)?;
        take(alloc, region, &mut keys, &rule.end)?;
    }
    Ok(Keys::of(keys))
}
