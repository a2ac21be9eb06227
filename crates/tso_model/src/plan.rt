// When a lead or a tick goes where.
ghost use Rattle.std.specs.Prelude.{◌≡◌, ◌<◌, ◌+◌, ◌^◌};
ghost use Rattle.pd_types.specs.declared.oracle.TheConstants.{CLOCK_END};
ghost use Rattle.tso_model.specs.Words.{passes};
ghost use Rattle.tso_model.specs.Steps.{saved_window};
ghost use Rattle.tso_model.specs.Plan.{lead_next, tick_next, past_clock, saves_for};

use pd_types::{CLOCK_END, LOGICAL, Window};

/// How far behind its start a window's end is saved, in milliseconds. Own choice; PD saves its
/// window ahead in the same way.
pub const AHEAD_MS: u64 = 3000;

/// A tick moves on where the logical part is above this.
pub const HALF_LOGICAL: u64 = 131072;

const _: () = prove!(AHEAD_MS == 3_000 && HALF_LOGICAL == 131_072);

/// Whether the end saved with this physical time is past the clock.
pub fn is_past_clock(next: u64) -> bool
    ensures value { result ≡ past_clock next }
{
    next >= CLOCK_END - AHEAD_MS
}

/// The start of a lead over this saved time.
pub fn next_of_lead(saved: u64, now: u64) -> u64
    requires clock { saved < CLOCK_END }
    ensures value { result ≡ lead_next saved now }
{
    now.max(saved + 1)
}

/// Where a tick moves the cursor to, or none.
pub fn next_of_tick(cursor: u64, hi: u64, now: u64) -> Option<u64>
    ensures value { result ≡ tick_next cursor hi now }
{
    let physical = cursor / LOGICAL;
    if now.saturating_sub(physical) > 1 {
        return Some(now);
    }
    if cursor % LOGICAL > HALF_LOGICAL {
        return Some(physical + 1);
    }
    if physical >= hi {
        return Some(physical + 1);
    }
    None
}

/// Whether a tick to this physical time saves a new end.
pub fn is_saving(next: u64, hi: u64) -> bool
    ensures value { result ≡ saves_for next hi }
{
    hi.saturating_sub(next) <= 1
}

/// Whether `n` more than this cursor are at the end or past it, or past the logical part.
pub fn is_passing(at: u64, hi: u64, n: u64) -> bool
    requires sum { at + n < 2 ^ 64 }
    requires end { hi < CLOCK_END }
    ensures value { result ≡ passes at hi n }
{
    at + n >= hi * LOGICAL || at % LOGICAL + n >= LOGICAL
}

/// The window with this end. The first save of its term sets the start too.
pub fn lengthened(hi: u64, window: Window) -> Window
    ensures value { result ≡ saved_window hi window }
{
    let lo = if window.lo == window.hi {
        hi.saturating_sub(AHEAD_MS).max(window.hi)
    } else {
        window.lo
    };
    Window { lo, hi, ..window }
}
