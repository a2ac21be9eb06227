// A region with what it is judged by.
ghost use Rattle.std.specs.Prelude.{◌≤◌, length, All};
ghost use Rattle.rule_set.specs.RuleSets.{HasFewLocations};
ghost use Rattle.pd_types.specs.declared.beat.TheConstants.{MAX_PEERS};
ghost use Rattle.pd_types.specs.declared.rule.TheConstants.{MAX_RULES};

use heartbeat::Standing;
use pd_types::{RegionBeat, Rules};
use store_table::Stores;

/// A region's heartbeat with the rules in force at its start key, the stores, the heartbeats that
/// stand, and the clock in milliseconds since the epoch.
#[derive(Clone, Copy)]
pub struct Case<'a> {
    pub beat: &'a RegionBeat,
    pub rules: &'a Rules,
    pub stores: &'a Stores,
    pub standing: &'a Standing,
    pub now: u64,
    ghost peers: { length beat.now.region.peers ≤ MAX_PEERS },
    ghost few: { length rules.now ≤ MAX_RULES },
    ghost locations: { All HasFewLocations rules.now },
}
