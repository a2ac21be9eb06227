// Steps that can be asked for, and what the oracle answers.
ghost use Rattle.std.specs.Prelude.{◌≡◌, Some};
ghost use Rattle.std.specs.Fmt.{DisplaysOnOk};
ghost use Rattle.tso_core.specs.declared.reply.Reply.TheVariants.{Got, Published};
ghost use Rattle.tso_core.specs.Text.{due_text, reply_text};
ghost use Rattle.tso_core.specs.Due.{same_due, due_for};

use pd_types::{Batch, CellWord, Seen};
use std::fmt;

/// A step that an actor is asked to make. `Read` begins a lead and `Probe` a tick, at a moment in
/// milliseconds.
#[derive(Clone, Copy, Debug, Drop, PartialEq, Eq)]
pub enum Kind {
    Read { now: u64 },
    Campaign,
    Save,
    Probe { now: u64 },
    Raise,
    Publish,
    Resign,
    Look { driver: u8 },
    Arm { n: u64 },
    Draw,
}

/// The step that is an actor's next. At `Rest` a driver may read, probe or resign, and a client
/// look.
#[derive(Clone, Copy, Debug, Drop, PartialEq, Eq)]
pub enum Due {
    Rest,
    Campaign,
    Save,
    Raise,
    Publish,
    Arm,
    Draw,
}

/// What the oracle answers to a step or to a whole call.
#[derive(Clone, Copy, Debug, Drop, PartialEq, Eq)]
pub enum Reply {
    Won { term: u64, lo: u64, hi: u64 },
    Beaten { found: CellWord },
    Lost { found: CellWord },
    TermsSpent,
    ClockRange,
    Moved { next: u64, hi: u64 },
    Idle,
    NotLeading,
    Resigned,
    Got { batch: Batch },
    Again { at: u64, hi: u64, n: u64 },
    NotLeader,
    Stale { seen_term: u64 },
    Told,
    Heard { seen: Seen },
    Nothing,
    OutOfTurn { expected: Due },
    CellRead { cell: CellWord },
    Claimed { term: u64 },
    Saved { hi: u64 },
    Raised { cursor: u64 },
    Probed { cursor: u64 },
    /// The published end, or 0 after a lost save.
    Published { hi: u64 },
    Looked { term: u64, hi: u64 },
    Armed { at: u64 },
}

impl Kind {
    /// The due at which this step comes.
    #[inline(always)]
    pub fn due(self) -> Due
        ensures value { result ≡ due_for self }
    {
        match self {
            Kind::Campaign => Due::Campaign,
            Kind::Save => Due::Save,
            Kind::Raise => Due::Raise,
            Kind::Publish => Due::Publish,
            Kind::Arm { .. } => Due::Arm,
            Kind::Draw => Due::Draw,
            Kind::Read { .. } | Kind::Probe { .. } | Kind::Resign | Kind::Look { .. } => Due::Rest,
        }
    }
}

impl Due {
    /// Whether both are the same due.
    #[inline(always)]
    pub fn is(self, other: Due) -> bool
        ensures value { result ≡ same_due self other }
    {
        match self {
            Due::Rest => matches!(other, Due::Rest),
            Due::Campaign => matches!(other, Due::Campaign),
            Due::Save => matches!(other, Due::Save),
            Due::Raise => matches!(other, Due::Raise),
            Due::Publish => matches!(other, Due::Publish),
            Due::Arm => matches!(other, Due::Arm),
            Due::Draw => matches!(other, Due::Draw),
        }
    }
}

impl fmt::Display for Due {
    ghost output = { λ due. Some (due_text due) };

    fn fmt<W: fmt::Write>(&self, f: &mut fmt::Formatter<W>) -> fmt::Result {
        f.write_str(match self {
            Due::Rest => "rest",
            Due::Campaign => "campaign",
            Due::Save => "save",
            Due::Raise => "raise",
            Due::Publish => "publish",
            Due::Arm => "arm",
            Due::Draw => "draw",
        })
    }
}

impl fmt::Display for Reply {
    ghost output = { λ reply. Some (reply_text reply) };

    fn fmt<W: fmt::Write>(&self, f: &mut fmt::Formatter<W>) -> fmt::Result {
        match self {
            Reply::Won { term, lo, hi } => write!(f, "won term {term} lo {lo} hi {hi}"),
            Reply::Beaten { found } => {
                write!(f, "beaten saved {} term {}", found.saved, found.term)
            }
            Reply::Lost { found } => write!(f, "lost saved {} term {}", found.saved, found.term),
            Reply::TermsSpent => write!(f, "terms-spent"),
            Reply::ClockRange => write!(f, "clock-range"),
            Reply::Moved { next, hi } => write!(f, "moved next {next} hi {hi}"),
            Reply::Idle => write!(f, "idle"),
            Reply::NotLeading => write!(f, "not-leading"),
            Reply::Resigned => write!(f, "resigned"),
            Reply::Got { batch } => write_batch(f, *batch),
            Reply::Again { at, hi, n } => write!(f, "again at {at} hi {hi} count {n}"),
            Reply::NotLeader => write!(f, "not-leader"),
            Reply::Stale { seen_term } => write!(f, "stale seen {seen_term}"),
            Reply::Told => write!(f, "told"),
            Reply::Heard { seen } => write!(f, "heard term {} last {}", seen.term, seen.last),
            Reply::Nothing => write!(f, "nothing"),
            Reply::OutOfTurn { expected } => write!(f, "out-of-turn expected {expected}"),
            Reply::CellRead { cell } => write!(f, "cell saved {} term {}", cell.saved, cell.term),
            Reply::Claimed { term } => write!(f, "claimed term {term}"),
            Reply::Saved { hi } => write!(f, "saved hi {hi}"),
            Reply::Raised { cursor } => write!(f, "raised cursor {cursor}"),
            Reply::Probed { cursor } => write!(f, "probed cursor {cursor}"),
            Reply::Published { hi } => write_published(f, *hi),
            Reply::Looked { term, hi } => write!(f, "looked term {term} hi {hi}"),
            Reply::Armed { at } => write!(f, "armed at {at}"),
        }
    }
}

// The first timestamp is computed with more bits, so it needs no condition on the batch.
fn write_batch<W: fmt::Write>(f: &mut fmt::Formatter<W>, batch: Batch) -> fmt::Result
    ensures { DisplaysOnOk W.write_str_gives f.old result (Some (reply_text (Got batch))) f.new }
{
    let first = u128::from(batch.last).saturating_sub(u128::from(batch.count)) + 1;
    let (term, driver, last) = (batch.term, batch.driver, batch.last);
    write!(
        f,
        "got term {term} driver {driver} first {first} last {last}"
    )
}

fn write_published<W: fmt::Write>(f: &mut fmt::Formatter<W>, hi: u64) -> fmt::Result
    ensures { DisplaysOnOk W.write_str_gives f.old result (Some (reply_text (Published hi))) f.new }
{
    if hi == 0 {
        write!(f, "published 0")
    } else {
        write!(f, "published hi {hi}")
    }
}
