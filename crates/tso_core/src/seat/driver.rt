// What a step of a driver makes of what it knows and did.
ghost use Rattle.std.specs.Prelude.{◌≡◌, ◌<◌};
ghost use Rattle.pd_types.specs.declared.oracle.TheConstants.{LAST_TERM};
ghost use Rattle.tso_model.specs.declared.step.WordStep.TheVariants.{ClaimTerm, SaveEnd, RaiseCursor, StoreLimit, ClearLimit};
ghost use Rattle.tso_model.specs.Steps.{knows, marks};
ghost use Rattle.tso_model.specs.Words.{cell_of};
ghost use Rattle.tso_core.specs.Done.{done_of};
ghost use Rattle.tso_core.specs.Ready.{CellFits, HeldFits};
ghost use Rattle.tso_core.specs.Seated.{with_view, seat_after};

use crate::Done;
use crate::seat::Seat;
use pd_types::{CellWord, LOGICAL, Window};
use tso_model::{Claim, Found, Published, Start, cell_in, lengthened};

impl Seat {
    pub(super) fn know(&mut self, found: u64) -> CellWord
        requires room { 0 < self.old.spare }
        ensures value { result ≡ cell_of found }
        ensures after { self.new ≡ with_view (knows (cell_of found) self.old.view) self.old }
    {
        self.spare -= 1;
        self.cell = cell_in(found);
        self.cell
    }

    pub(super) fn campaign(&mut self, found: u64) -> Done
        requires fits { CellFits self.old.view }
        requires term { self.old.view.cell.term < LAST_TERM }
        requires room { 0 < self.old.spare }
        ensures done { result ≡ done_of ClaimTerm found self.old.view }
        ensures after { self.new ≡ seat_after ClaimTerm found self.old }
    {
        if found != self.known_word() {
            return Done::Beaten {
                found: self.know(found),
            };
        }
        // The window of the next term begins where the known one ends.
        self.spare -= 1;
        if let Some(claim) = self.latest {
            self.older.push_reserved(claim);
        }
        self.cell.term += 1;
        let CellWord { saved, term } = self.cell;
        let window = Window {
            term,
            driver: self.driver,
            lo: saved,
            hi: saved,
        };
        self.latest = Some(Claim { window, at: saved });
        self.holds = true;
        self.marked = false;
        Done::Claimed { window }
    }

    pub(super) fn save(&mut self, hi: u64, found: u64) -> Done
        requires fits { HeldFits self.old.view }
        requires room { 0 < self.old.spare }
        ensures done { result ≡ done_of (SaveEnd hi) found self.old.view }
        ensures after { self.new ≡ seat_after (SaveEnd hi) found self.old }
    {
        if found != self.held_word() {
            return Done::Lost {
                found: self.know(found),
            };
        }
        self.spare -= 1;
        let Some(claim) = self.latest else {
            return Done::Saved { hi };
        };
        let window = claim.window;
        self.cell = CellWord {
            saved: hi,
            term: window.term,
        };
        if window.lo == window.hi {
            self.marked = false;
        }
        self.latest = Some(Claim {
            window: lengthened(hi, window),
            at: claim.at,
        });
        Done::Saved { hi }
    }

    // Whether a raise to this value marks the held window as raised to its start.
    fn is_marked_by(&self, at: u64) -> bool
        ensures value { result ≡ marks at self.now.view }
    {
        let Some(claim) = self.latest else {
            return self.marked;
        };
        let window = claim.window;
        if self.holds && window.lo < window.hi && at / LOGICAL >= window.lo {
            return true;
        }
        self.marked
    }

    #[tactic(auto, using(crate::proofs::Seats::greatest_snoc))]
    pub(super) fn raise(&mut self, at: u64, found: u64) -> Done
        requires room { 0 < self.old.spare }
        ensures done { result ≡ done_of (RaiseCursor at) found self.old.view }
        ensures after { self.new ≡ seat_after (RaiseCursor at) found self.old }
    {
        self.marked = self.is_marked_by(at);
        self.spare -= 1;
        self.founds.push_reserved(Found {
            driver: self.driver,
            cursor: found,
            start: self.greatest_start,
        });
        if at > 0 {
            self.starts.push_reserved(Start {
                driver: self.driver,
                at,
            });
            self.greatest_start = self.greatest_start.max(at);
        }
        Done::Raised {
            cursor: found.max(at),
        }
    }

    pub(super) fn publish(&mut self) -> Done
        requires fits { HeldFits self.old.view }
        requires room { 0 < self.old.spare }
        ensures done { result ≡ done_of StoreLimit 0 self.old.view }
        ensures after { self.new ≡ seat_after StoreLimit 0 self.old }
    {
        let word = self.held_word();
        self.spare -= 1;
        self.published.push_reserved(Published {
            driver: self.driver,
            word,
        });
        Done::Published { hi: self.held().hi }
    }

    pub(super) fn resign(&mut self) -> Done
        requires room { 0 < self.old.spare }
        ensures done { result ≡ done_of ClearLimit 0 self.old.view }
        ensures after { self.new ≡ seat_after ClearLimit 0 self.old }
    {
        self.spare -= 1;
        self.published.push_reserved(Published {
            driver: self.driver,
            word: 0,
        });
        self.holds = false;
        self.marked = false;
        Done::Published { hi: 0 }
    }
}
