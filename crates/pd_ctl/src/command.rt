ghost use Rattle.std.specs.Prelude.{◌≡◌};
ghost use Rattle.pd_ctl.specs.Reports.{only_reads};

use op_step::Wish;
use pd_types::{Bytes, Text};
use store_limit::LimitKind;

/// A command of pd-ctl. Ids and timestamps are any numbers of 64 bits; a rate, in peers a minute, is
/// at most 1,000,000.
#[derive(Debug, Drop, PartialEq)]
pub enum Command {
    /// `store`
    Stores,
    /// `store ID`
    Store { id: u64 },
    /// `store delete ID`
    StoreDelete { id: u64 },
    /// `store limit ID RATE KIND`
    StoreLimit { id: u64, rate: u64, kind: LimitKind },
    /// `region ID`
    Region { id: u64 },
    /// `region key KEY`
    RegionKey { key: Bytes },
    /// `operator show`
    OperatorShow,
    /// `operator add WISH REGION STORE..`
    OperatorAdd { region: u64, wish: Wish },
    /// `operator remove REGION`
    OperatorRemove { region: u64 },
    /// `operator check REGION`
    OperatorCheck { region: u64 },
    /// `scheduler show`
    SchedulerShow,
    /// `scheduler remove NAME`
    SchedulerRemove { name: Text },
    /// `member leader show`
    LeaderShow,
    /// `member leader resign`
    LeaderResign,
    /// `tso TIMESTAMP`
    Tso { ts: u64 },
}

impl Command {
    /// Whether the command only reads, so that it has a report of its own; the others change the
    /// cluster.
    pub fn only_reads(&self) -> bool
        ensures value { result ≡ only_reads self.now }
    {
        match self {
            Command::Stores => true,
            Command::Store { .. } => true,
            Command::StoreDelete { .. } => false,
            Command::StoreLimit { .. } => false,
            Command::Region { .. } => true,
            Command::RegionKey { .. } => true,
            Command::OperatorShow => true,
            Command::OperatorAdd { .. } => false,
            Command::OperatorRemove { .. } => false,
            Command::OperatorCheck { .. } => true,
            Command::SchedulerShow => true,
            Command::SchedulerRemove { .. } => false,
            Command::LeaderShow => true,
            Command::LeaderResign => false,
            Command::Tso { .. } => true,
        }
    }
}
