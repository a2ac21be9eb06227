// Where a driver stands in a lead or a tick, and what its steps decide.
ghost use Rattle.std.specs.Prelude.{◌≡◌, ◌<◌};
ghost use Rattle.pd_types.specs.declared.oracle.TheConstants.{CLOCK_END};
ghost use Rattle.tso_core.specs.declared.reply.Due.TheVariants.{Publish};
ghost use Rattle.tso_core.specs.Done.{follow};
ghost use Rattle.tso_core.specs.Driving.{driver_step, IsInTime, decides_by};
ghost use Rattle.tso_core.specs.Due.{at_rest};
ghost use Rattle.tso_core.specs.Steps.{read_decides, probe_decides};

use crate::machine::Made;
use crate::{Done, Due, Kind, Reply};
use pd_types::{CellWord, LAST_TERM, LOGICAL};
use tso_model::{
    AHEAD_MS, WordStep, cell_in, is_past_clock, is_saving, next_of_lead, next_of_tick,
};

/// How far a driver is in a lead or a tick.
#[derive(Clone, Copy, Debug, Drop, PartialEq, Eq)]
pub struct Turn {
    /// The step that is next.
    pub due: Due,
    /// The physical time that the lead or tick goes to, in milliseconds; 0 at rest and once only a
    /// publish is left.
    pub next: u64,
    /// Whether the held window's end is published at last. A publish that is due without it stores
    /// 0, after a lost save.
    pub publishes: bool,
}

/// An answer, and where the driver stands then.
#[derive(Clone, Copy, Debug, Drop)]
pub struct Decided {
    pub reply: Reply,
    pub turn: Turn,
}

impl Turn {
    /// Between two calls.
    pub fn rest() -> Turn
        ensures value { result ≡ at_rest }
    {
        Turn {
            due: Due::Rest,
            next: 0,
            publishes: false,
        }
    }

    /// The step on a word that a driver makes here for a kind; a client's kinds have none.
    pub fn step(self, kind: Kind) -> Option<WordStep>
        requires clock { self.next < CLOCK_END }
        ensures value { result ≡ driver_step kind self }
    {
        match kind {
            Kind::Read { .. } => Some(WordStep::LoadCell),
            Kind::Campaign => Some(WordStep::ClaimTerm),
            Kind::Save => Some(WordStep::SaveEnd {
                hi: self.next + AHEAD_MS,
            }),
            Kind::Probe { .. } => Some(WordStep::RaiseCursor { at: 0 }),
            Kind::Raise => Some(WordStep::RaiseCursor {
                at: self.next * LOGICAL,
            }),
            Kind::Publish if self.publishes => Some(WordStep::StoreLimit),
            Kind::Publish => Some(WordStep::ClearLimit),
            Kind::Resign => Some(WordStep::ClearLimit),
            Kind::Look { .. } | Kind::Arm { .. } | Kind::Draw => None,
        }
    }

    /// What a step of this kind decides here, by what it found and did, over this held end.
    pub fn decide(self, kind: Kind, hi: u64, made: Made) -> Decided
        requires found { IsInTime kind made.found }
        ensures value { result ≡ decides_by kind self hi made.found made.done }
    {
        match kind {
            Kind::Read { now } => after_read(cell_in(made.found), now),
            Kind::Probe { now } => after_probe(hi, now, made.found),
            Kind::Resign => Decided::rest(Reply::Resigned),
            // All other steps go on as what they did says.
            _ => Decided {
                reply: made.done.reply(),
                turn: self.after(made.done),
            },
        }
    }

    // Where a driver that stood here stands once its step did this.
    fn after(self, done: Done) -> Turn
        ensures value { result ≡ follow self done }
    {
        match done {
            Done::Claimed { .. } => Turn {
                due: Due::Save,
                next: self.next,
                publishes: true,
            },
            Done::Saved { .. } => Turn {
                due: Due::Raise,
                next: self.next,
                publishes: true,
            },
            Done::Raised { .. } if self.publishes => Turn::to_publish(true),
            Done::Lost { .. } => Turn::to_publish(false),
            // All else ends the call.
            _ => Turn::rest(),
        }
    }

    // A publish is left, of the held end or of 0.
    fn to_publish(publishes: bool) -> Turn
        ensures value { result ≡ record { due = Publish; next = 0; publishes = publishes } }
    {
        Turn {
            due: Due::Publish,
            next: 0,
            publishes,
        }
    }
}

impl Decided {
    // The call ends with this answer.
    fn rest(reply: Reply) -> Decided
        ensures value { result ≡ record { reply = reply; turn = at_rest } }
    {
        Decided {
            reply,
            turn: Turn::rest(),
        }
    }
}

// After a read of the cell at a moment.
fn after_read(cell: CellWord, now: u64) -> Decided
    requires clock { cell.saved < CLOCK_END }
    ensures value { result ≡ read_decides cell now }
{
    if cell.term == LAST_TERM {
        return Decided::rest(Reply::TermsSpent);
    }
    let next = next_of_lead(cell.saved, now);
    if is_past_clock(next) {
        return Decided::rest(Reply::ClockRange);
    }
    Decided {
        reply: Reply::CellRead { cell },
        turn: Turn {
            due: Due::Campaign,
            next,
            publishes: true,
        },
    }
}

// After a probe at a moment, over this held end.
fn after_probe(hi: u64, now: u64, cursor: u64) -> Decided
    ensures value { result ≡ probe_decides hi now cursor }
{
    let Some(next) = next_of_tick(cursor, hi, now) else {
        return Decided::rest(Reply::Idle);
    };
    let publishes = is_saving(next, hi);
    if publishes && is_past_clock(next) {
        return Decided::rest(Reply::ClockRange);
    }
    let due = if publishes { Due::Save } else { Due::Raise };
    Decided {
        reply: Reply::Probed { cursor },
        turn: Turn {
            due,
            next,
            publishes,
        },
    }
}
