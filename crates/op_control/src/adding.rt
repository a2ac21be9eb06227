// Why an operator isn't added, and how it is created.
ghost use Rattle.std.specs.Prelude.{◌≡◌};
ghost use Rattle.std.specs.Option.{option_copied};
ghost use Rattle.op_control.specs.Adding.{created, priority_refusal, room_refusal, same_epoch};
ghost use Rattle.op_control.specs.declared.adding.AddFault.TheVariants as faults;

use crate::operator::{NewOp, OpState, Operator};
use pd_types::{Epoch, NoMemory};
use store_limit::Limited;
use thiserror::Error;

/// At most this many regions have an operator at once.
pub const MOST_OPERATORS: usize = 1024;

/// Why an operator isn't added, in the order of the tests.
#[derive(Clone, Copy, Debug, PartialEq, Eq, Error)]
pub enum AddFault {
    /// The region isn't held.
    #[error("the region isn't held")]
    NoRegion,
    /// The operator was made for another epoch than the held one.
    #[error("the region has another epoch")]
    EpochMoved { kept: Epoch },
    /// The region's operator has at least this priority.
    #[error("the region has an operator of priority {priority}")]
    Busy { priority: u8 },
    /// A store's limit refuses one of the steps.
    #[error("a store limit has {available} of {needed} units")]
    Limited { available: u64, needed: u64 },
    /// 1,024 regions have an operator, and none is replaced.
    #[error("1024 regions have an operator")]
    Limit,
    #[error("out of memory")]
    NoMemory,
}

impl From<NoMemory> for AddFault {
    ghost from_gives = { λ _ fault. fault ≡ faults.NoMemory };

    fn from(_: NoMemory) -> AddFault {
        AddFault::NoMemory
    }
}

/// Whether both numbers are equal.
pub fn same_epoch(one: &Epoch, other: &Epoch) -> bool
    ensures { result ≡ same_epoch one.now other.now }
{
    one.conf_ver == other.conf_ver && one.version == other.version
}

/// The refusal by the priority of the region's operator.
pub fn priority_refusal(active: Option<&Operator>, op: &NewOp) -> Option<AddFault>
    ensures { result ≡ priority_refusal (option_copied active.entry) op.now }
{
    match active {
        Some(active) if op.priority <= active.priority => Some(AddFault::Busy {
            priority: active.priority,
        }),
        _ => None,
    }
}

/// The refusal by a store's limit, or else by how many regions have an operator.
pub fn room_refusal(
    limited: Option<Limited>,
    active: Option<&Operator>,
    count: usize,
) -> Option<AddFault>
    ensures { result ≡ room_refusal limited (option_copied active.entry) count }
{
    if let Some(limited) = limited {
        return Some(AddFault::Limited {
            available: limited.available,
            needed: limited.needed,
        });
    }
    if active.is_none() && count >= MOST_OPERATORS {
        Some(AddFault::Limit)
    } else {
        None
    }
}

/// The operator as it is created.
pub fn created(op: NewOp, now: u64) -> Operator
    ensures { result ≡ created op now }
{
    Operator {
        region: op.region,
        epoch: op.epoch,
        kind: op.kind,
        priority: op.priority,
        steps: op.steps,
        passed: 0,
        state: OpState::Created,
        created: now,
        started: 0,
    }
}
