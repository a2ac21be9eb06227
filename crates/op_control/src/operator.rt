ghost use Rattle.std.specs.Prelude.{◌≡◌, ◌↔◌, IsTrue};
ghost use Rattle.op_control.specs.Life.{is_active};
ghost use Rattle.op_control.specs.StateText.{op_state_text};

use pd_types::{Epoch, Steps, Text};

/// A Created operator expires this many milliseconds after its creation.
pub const EXPIRED_MS: u64 = 3_000;

/// A Started operator times out this many milliseconds after its start (own choice: one time for
/// all).
pub const TIMEOUT_MS: u64 = 600_000;

/// An operator to be added: the region, the epoch that its steps were made for, and who asks, by
/// the kind and by the priority: 1 a scheduler, 2 the checker, 3 pd-ctl.
#[derive(Debug, Drop)]
pub struct NewOp {
    pub region: u64,
    pub epoch: Epoch,
    pub steps: Steps,
    pub kind: Text,
    pub priority: u8,
}

/// Where an operator is in its life. It is Created until its first step is sent, and Started until
/// it ends.
#[derive(Clone, Copy, Debug, PartialEq, Eq)]
pub enum OpState {
    Created,
    Started,
    Success,
    Canceled,
    Replaced,
    Expired,
    Timeout,
}

/// An operator of a region. `passed` steps are done; moments are in milliseconds, and `started` is
/// 0 until it is Started.
#[derive(Debug, Drop)]
pub struct Operator {
    pub region: u64,
    pub epoch: Epoch,
    pub kind: Text,
    pub priority: u8,
    pub steps: Steps,
    pub passed: usize,
    pub state: OpState,
    pub created: u64,
    pub started: u64,
}

impl OpState {
    /// Whether the operator hasn't ended: it is Created or Started.
    pub fn is_active(&self) -> bool
        ensures { result ≡ is_active self.now }
    {
        match self {
            OpState::Created => true,
            OpState::Started => true,
            _ => false,
        }
    }

    /// Its name.
    pub fn name(self) -> &'static str
        ensures value { result.now ≡ op_state_text self }
    {
        match self {
            OpState::Created => "Created",
            OpState::Started => "Started",
            OpState::Success => "Success",
            OpState::Canceled => "Canceled",
            OpState::Replaced => "Replaced",
            OpState::Expired => "Expired",
            OpState::Timeout => "Timeout",
        }
    }
}
