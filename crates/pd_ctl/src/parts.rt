use heartbeat::Standing;
use op_control::Operators;
use pd_types::Texts;
use store_limit::Limits;
use store_table::Stores;

/// What a driver's cluster holds in its term, and what else a report tells: the names of the
/// schedulers in the order in which they are asked, the cluster's clock in milliseconds, the driver
/// and its term.
#[derive(Clone, Copy)]
pub struct Parts<'a> {
    pub stores: &'a Stores,
    pub standing: &'a Standing,
    pub operators: &'a Operators,
    pub limits: &'a Limits,
    pub names: &'a Texts,
    pub clock: u64,
    pub driver: u8,
    pub term: u64,
}
