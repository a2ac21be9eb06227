ghost use Rattle.std.specs.Prelude.{◌≡◌, Some};
ghost use Rattle.pd_types.specs.BeatCheck.{fault_number};
ghost use Rattle.pd_state.specs.ReplyText.{reply_text, rule_fault_number};

use crate::adding::{Adding, DispatchText, KeyText, class_text};
use op_control::Dispatch;
use pd_types::{BeatFault, Bytes, Duplicate, Epoch, NoMemory, Proposal, Text};
use rule_checker::Class;
use rule_text::RuleFault;
use std::alloc::Global;
use std::{fmt, str};

/// What a cluster answers to a request. It prints as the answer's text.
#[derive(Debug, Drop, PartialEq)]
pub enum Reply {
    /// The cluster has no term.
    NotLeading,
    /// The term began, with these numbers of stores and rules.
    Term {
        term: u64,
        stores: u64,
        rules: u64,
    },
    /// The term was given up.
    Retired,
    /// A later term was announced, so that nothing was written.
    OldTerm {
        fence: u64,
    },
    /// The record has another revision than the cluster knows, so that nothing was written.
    Conflict {
        found: u64,
    },
    /// The metadata has no room, so that nothing was written.
    MetaLimit,
    /// The store is a tombstone.
    Tombstone,
    /// There are 256 stores, and this one isn't among them.
    Limit,
    StorePut,
    /// The store isn't known.
    UnknownStore,
    Alive,
    /// The region heartbeat fails this test by itself.
    Bad(BeatFault),
    /// A held region shows that the heartbeat is stale, by this epoch.
    Stale {
        kept: Epoch,
    },
    /// More than 65,536 regions would stand.
    Full,
    /// The heartbeat stands; so many overlapped regions of other ids went, and its region's operator
    /// was dispatched with this answer.
    Accepted {
        removed: u64,
        dispatch: Dispatch,
    },
    /// The rule's text fails this test.
    BadRule(RuleFault),
    /// There are 64 rules, and none of this group and id.
    RuleLimit,
    RulePut,
    /// There is no rule of this group and id.
    Absent,
    /// There is no other rule.
    LastRule,
    RuleRemoved,
    /// The region isn't held.
    NoRegion,
    /// The region crosses a border of rules, the least of which this is.
    NeedsSplit {
        key: Bytes,
    },
    /// The region fits its rules.
    NoFault,
    /// The region's plan is of this class and lowers its misfit number so; and what came of adding
    /// its operator.
    Plan {
        class: Class,
        from: u64,
        to: u64,
        adding: Adding,
    },
    /// The region doesn't fit, and no plan lowers its misfit number.
    NoPlan {
        from: u64,
    },
    /// The numbers of regions and of the checker's verdicts on them, of operators that were added,
    /// and of stores that were buried.
    Patrolled {
        regions: u64,
        ok: u64,
        split: u64,
        plan: u64,
        no_plan: u64,
        added: u64,
        buried: u64,
    },
    /// The bench has no scheduler.
    NoScheduler,
    /// The scheduler of this name proposes nothing.
    Silent {
        name: Text,
    },
    /// The scheduler of this name proposed this; and what came of adding its operator.
    Proposed {
        name: Text,
        proposal: Proposal,
        adding: Adding,
    },
    /// The report of a command of pd-ctl, in one line of JSON.
    Report {
        json: Bytes,
    },
}

// The number of a test of a region heartbeat, from 1 to 8.
fn fault_number(fault: BeatFault) -> u8
    ensures value { result ≡ fault_number fault }
{
    match fault {
        BeatFault::NoPeers => 1,
        BeatFault::TooManyPeers => 2,
        BeatFault::DoublePeer => 3,
        BeatFault::DoubleStore => 4,
        BeatFault::LeaderAbsent => 5,
        BeatFault::LeaderNotVoter => 6,
        BeatFault::BadRange => 7,
        BeatFault::LongKey => 8,
    }
}

// The number of a test of a rule's text, from 1 to 10.
fn rule_fault_number(fault: RuleFault) -> u8
    ensures value { result ≡ rule_fault_number fault }
{
    match fault {
        RuleFault::NotJson => 1,
        RuleFault::NotObject => 2,
        RuleFault::Missing => 3,
        RuleFault::WrongKind => 4,
        RuleFault::BadHex => 5,
        RuleFault::BadRole => 6,
        RuleFault::BadOp => 7,
        RuleFault::BadCount => 8,
        RuleFault::EmptyRange => 9,
        RuleFault::IsolationLevel => 10,
        RuleFault::NoMemory => 0,
    }
}

impl fmt::Display for Reply {
    ghost output = { λ reply. Some (reply_text reply) };

    fn fmt<W: fmt::Write>(&self, f: &mut fmt::Formatter<W>) -> fmt::Result {
        match self {
            Reply::NotLeading => write!(f, "not-leading"),
            Reply::Term {
                term,
                stores,
                rules,
            } => write!(f, "term {term} stores {stores} rules {rules}"),
            Reply::Retired => write!(f, "retired"),
            Reply::OldTerm { fence } => write!(f, "old-term {fence}"),
            Reply::Conflict { found } => write!(f, "conflict {found}"),
            Reply::MetaLimit => write!(f, "meta-limit"),
            Reply::Tombstone => write!(f, "tombstone"),
            Reply::Limit => write!(f, "limit"),
            Reply::StorePut => write!(f, "store put"),
            Reply::UnknownStore => write!(f, "unknown-store"),
            Reply::Alive => write!(f, "alive"),
            Reply::Bad(fault) => {
                let number = fault_number(*fault);
                write!(f, "bad {number}")
            }
            Reply::Stale { kept } => {
                let conf_ver = kept.conf_ver;
                let version = kept.version;
                write!(f, "stale conf {conf_ver} version {version}")
            }
            Reply::Full => write!(f, "full"),
            Reply::Accepted { removed, dispatch } => {
                let text = DispatchText {
                    dispatch: *dispatch,
                };
                write!(f, "accepted removed {removed} {text}")
            }
            Reply::BadRule(fault) => {
                let number = rule_fault_number(*fault);
                write!(f, "bad-rule {number}")
            }
            Reply::RuleLimit => write!(f, "rule-limit"),
            Reply::RulePut => write!(f, "rule set"),
            Reply::Absent => write!(f, "absent"),
            Reply::LastRule => write!(f, "last-rule"),
            Reply::RuleRemoved => write!(f, "rule removed"),
            Reply::NoRegion => write!(f, "no-region"),
            Reply::NeedsSplit { key } => {
                let text = KeyText {
                    key: key.as_slice(),
                };
                write!(f, "needs-split {text}")
            }
            Reply::NoFault => write!(f, "no-fault"),
            Reply::Plan {
                class,
                from,
                to,
                adding,
            } => {
                let class = class_text(*class);
                write!(f, "plan {class} from {from} to {to} {adding}")
            }
            Reply::NoPlan { from } => write!(f, "no-plan from {from}"),
            Reply::Patrolled {
                regions,
                ok,
                split,
                plan,
                no_plan,
                added,
                buried,
            } => {
                write!(
                    f,
                    "patrol regions {regions} ok {ok} split {split} plan {plan}"
                )?;
                write!(f, " no-plan {no_plan} added {added} buried {buried}")
            }
            Reply::NoScheduler => write!(f, "no-scheduler"),
            Reply::Silent { name } => {
                let name = name.as_str();
                write!(f, "scheduler {name} none")
            }
            Reply::Proposed {
                name,
                proposal,
                adding,
            } => {
                let name = name.as_str();
                write!(f, "scheduler {name} {proposal} {adding}")
            }
            // JSON is UTF-8.
            Reply::Report { json } => {
                f.write_str(str::from_utf8(json.as_slice()).map_err(|_| fmt::Error)?)
            }
        }
    }
}

impl Duplicate for Reply {
    fn copy(&self, alloc: Global) -> Result<Reply, NoMemory> {
        Ok(match self {
            Reply::NotLeading => Reply::NotLeading,
            Reply::Term {
                term,
                stores,
                rules,
            } => Reply::Term {
                term: *term,
                stores: *stores,
                rules: *rules,
            },
            Reply::Retired => Reply::Retired,
            Reply::OldTerm { fence } => Reply::OldTerm { fence: *fence },
            Reply::Conflict { found } => Reply::Conflict { found: *found },
            Reply::MetaLimit => Reply::MetaLimit,
            Reply::Tombstone => Reply::Tombstone,
            Reply::Limit => Reply::Limit,
            Reply::StorePut => Reply::StorePut,
            Reply::UnknownStore => Reply::UnknownStore,
            Reply::Alive => Reply::Alive,
            Reply::Bad(fault) => Reply::Bad(*fault),
            Reply::Stale { kept } => Reply::Stale { kept: *kept },
            Reply::Full => Reply::Full,
            Reply::Accepted { removed, dispatch } => Reply::Accepted {
                removed: *removed,
                dispatch: *dispatch,
            },
            Reply::BadRule(fault) => Reply::BadRule(*fault),
            Reply::RuleLimit => Reply::RuleLimit,
            Reply::RulePut => Reply::RulePut,
            Reply::Absent => Reply::Absent,
            Reply::LastRule => Reply::LastRule,
            Reply::RuleRemoved => Reply::RuleRemoved,
            Reply::NoRegion => Reply::NoRegion,
            Reply::NeedsSplit { key } => Reply::NeedsSplit {
                key: key.copy(alloc)?,
            },
            Reply::NoFault => Reply::NoFault,
            Reply::Plan {
                class,
                from,
                to,
                adding,
            } => Reply::Plan {
                class: *class,
                from: *from,
                to: *to,
                adding: *adding,
            },
            Reply::NoPlan { from } => Reply::NoPlan { from: *from },
            Reply::Patrolled {
                regions,
                ok,
                split,
                plan,
                no_plan,
                added,
                buried,
            } => Reply::Patrolled {
                regions: *regions,
                ok: *ok,
                split: *split,
                plan: *plan,
                no_plan: *no_plan,
                added: *added,
                buried: *buried,
            },
            Reply::NoScheduler => Reply::NoScheduler,
            Reply::Silent { name } => Reply::Silent {
                name: name.copy(alloc)?,
            },
            Reply::Proposed {
                name,
                proposal,
                adding,
            } => Reply::Proposed {
                name: name.copy(alloc)?,
                proposal: *proposal,
                adding: *adding,
            },
            Reply::Report { json } => Reply::Report {
                json: json.copy(alloc)?,
            },
        })
    }
}
