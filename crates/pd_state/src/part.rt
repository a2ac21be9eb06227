ghost use Rattle.std.specs.Prelude.{◌≡◌, max};

use heartbeat::Standing;
use id_alloc::IdWindow;
use meta_store::Known;
use op_control::Operators;
use rule_set::RuleSet;
use store_limit::Limits;
use store_table::Stores;

/// What a cluster knows in a term. Moments are in milliseconds.
#[derive(Drop)]
pub struct Part {
    pub term: u64,
    /// The moment of the term's request.
    pub began: u64,
    /// The greatest moment of the term's requests.
    pub clock: u64,
    pub stores: Stores,
    pub standing: Standing,
    pub rules: RuleSet,
    /// The revisions of the metadata's records, as far as the term heard of them.
    pub known: Known,
    pub operators: Operators,
    pub limits: Limits,
    /// The ids of new peers.
    pub window: IdWindow,
}

impl Part {
    /// The clock with a request at this moment: an earlier one changes nothing.
    pub(crate) fn advance(&mut self, moment: u64)
        ensures value { self.new ≡ record self.old { clock = max self.old.clock moment } }
    {
        self.clock = self.clock.max(moment);
    }
}
