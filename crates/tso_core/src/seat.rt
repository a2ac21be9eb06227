// What an actor knows and did, in memory.
ghost use Rattle.std.specs.Prelude.{◌≡◌, ◌<◌, ◌≤◌, ◌+◌, OnOk};
ghost use Rattle.tso_model.specs.Moves.{blank, new_note, spent_view};
ghost use Rattle.tso_model.specs.Steps.{held, hand, word_of, word_after};
ghost use Rattle.tso_model.specs.Words.{cell_word, packed};
ghost use Rattle.tso_core.specs.Done.{done_of};
ghost use Rattle.tso_core.specs.Driving.{has_term_for};
ghost use Rattle.tso_core.specs.Ready.{heard, word_end, CellFits, HeldFits, Suits};
ghost use Rattle.tso_core.specs.Seated.{with_view, seat_after};
ghost use Rattle.tso_core.specs.Steps.{client_due};

mod client;
mod driver;

use crate::run::SPARE_AHEAD;
use crate::{Done, Due, Kind};
use pd_types::{CellWord, NoMemory, Seen, Window};
use std::alloc::Global;
use std::marker::Model;
use tso_model::{
    Added, Claim, Found, Grant, Limit, Look, Published, Refusal, Start, WordStep, greater, packed,
};

/// A view in memory. Its lists have room before a step is made, so a step takes no memory. Most
/// of the lists are the run's evidence and are read by no step.
#[derive(Drop)]
pub struct Seat {
    spent: bool,
    opening: CellWord,
    driver: u8,
    client: u8,
    took_drivers: Vec<u8>,
    took_clients: Vec<u8>,
    cell: CellWord,
    holds: bool,
    marked: bool,
    latest: Option<Claim>,
    older: Vec<Claim>,
    founds: Vec<Found>,
    starts: Vec<Start>,
    published: Vec<Published>,
    seen: Seen,
    hand: Option<Limit>,
    armed: u64,
    quota: u64,
    grants: Vec<Grant>,
    looks: Vec<Look>,
    refusals: Vec<Refusal>,
    added: Vec<Added>,
    // The greatest of its starts, or 0.
    greatest_start: u64,
    // What it added, by the driver's number.
    sums: [u64; 8],
    // Each list has room for so many more entries.
    spare: usize,
}

impl Model for Seat {
    ghost use Rattle.tso_core.specs.Seated.{Seated};

    ghost Value = { Seated };

    ghost use Rattle.tso_core.specs.Seat.{seated_of, IsKept};

    ghost view = { seated_of };

    ghost invariant = { IsKept };
}

impl Seat {
    /// An actor that did nothing yet: a driver, a client or, with the number 0 for both, another.
    pub fn new(alloc: Global, opening: CellWord, driver: u8, client: u8, quota: u64) -> Seat
        ensures view { result.view ≡ record (blank opening) { driver = driver; client = client; quota = quota } }
    {
        Seat {
            spent: false,
            opening,
            driver,
            client,
            took_drivers: Vec::new(alloc),
            took_clients: Vec::new(alloc),
            cell: opening,
            holds: false,
            marked: false,
            latest: None,
            older: Vec::new(alloc),
            founds: Vec::new(alloc),
            starts: Vec::new(alloc),
            published: Vec::new(alloc),
            seen: Seen { term: 0, last: 0 },
            hand: None,
            armed: 0,
            quota,
            grants: Vec::new(alloc),
            looks: Vec::new(alloc),
            refusals: Vec::new(alloc),
            added: Vec::new(alloc),
            greatest_start: 0,
            sums: [0; 8],
            spare: 0,
        }
    }

    /// The note that it makes: what it has seen, and nothing else.
    pub fn note(&self, alloc: Global) -> Seat
        ensures view { result.view ≡ new_note self.now.view }
    {
        let mut note = Seat::new(alloc, self.opening, 0, 0, 0);
        note.seen = self.seen;
        note
    }

    /// Hears a note with this pair.
    pub fn hear(&mut self, seen: Seen)
        requires room { 0 < self.old.spare }
        ensures after { self.new ≡ with_view (heard seen self.old.view) self.old }
    {
        self.spare -= 1;
        self.took_drivers.push_reserved(0);
        self.took_clients.push_reserved(0);
        self.seen = greater(self.seen, seen);
    }

    /// Ends a note that was heard.
    pub fn end(&mut self)
        requires note { self.old.view ≡ record (blank self.old.view.opening) { seen = self.old.view.seen } }
        ensures view { self.new.view ≡ spent_view }
    {
        self.spent = true;
        self.opening = CellWord { saved: 0, term: 0 };
        self.cell = CellWord { saved: 0, term: 0 };
        self.seen = Seen { term: 0, last: 0 };
    }

    /// Makes room for `n` more entries in each list. Want of memory leaves the view.
    #[inline(always)]
    pub fn reserve(&mut self, n: usize) -> Result<(), NoMemory>
        ensures view { self.new.view ≡ self.old.view }
        ensures ok { OnOk result (n ≤ self.new.spare) }
    {
        if n <= self.spare {
            return Ok(());
        }
        let spare = n.saturating_add(SPARE_AHEAD);
        self.took_drivers.reserve(spare)?;
        self.took_clients.reserve(spare)?;
        self.older.reserve(spare)?;
        self.founds.reserve(spare)?;
        self.starts.reserve(spare)?;
        self.published.reserve(spare)?;
        self.grants.reserve(spare)?;
        self.looks.reserve(spare)?;
        self.refusals.reserve(spare)?;
        self.added.reserve(spare)?;
        self.spare = spare;
        Ok(())
    }

    /// What it has seen.
    pub fn seen(&self) -> Seen
        ensures value { result ≡ self.now.view.seen }
    {
        self.seen
    }

    /// Whether it holds a term where a step of this kind needs one.
    pub fn has_term_for(&self, kind: Kind) -> bool
        ensures value { result ≡ has_term_for kind self.now.view.holds }
    {
        match kind {
            Kind::Probe { .. } | Kind::Resign => self.holds,
            // All other steps are for a driver without a term too.
            _ => true,
        }
    }

    /// Its latest window, or one of no length.
    pub fn held(&self) -> Window
        ensures value { result ≡ held self.now.view }
    {
        match self.latest {
            Some(claim) => claim.window,
            None => Window {
                term: 0,
                driver: 0,
                lo: 0,
                hi: 0,
            },
        }
    }

    /// What is next for it as a client.
    #[inline(always)]
    pub fn due(&self) -> Due
        ensures value { result ≡ client_due self.now.view }
    {
        match self.hand {
            None => Due::Rest,
            Some(_) => { if self.armed == 0 { Due::Arm } else { Due::Draw } }
        }
    }

    /// The word that this step touches.
    #[inline(always)]
    pub fn place(&self, step: WordStep) -> usize
        ensures value { result ≡ word_of step self.now.view }
    {
        let own = 2 * self.driver as usize;
        match step {
            WordStep::LoadCell | WordStep::ClaimTerm | WordStep::SaveEnd { .. } => 0,
            WordStep::RaiseCursor { .. } => own,
            WordStep::StoreLimit | WordStep::ClearLimit => own.saturating_sub(1),
            WordStep::LoadLimit { driver } => (2 * driver as usize).saturating_sub(1),
            WordStep::ArmCount { .. } | WordStep::AddArmed => 2 * self.in_hand().driver as usize,
        }
    }

    /// What this step makes of the word that it finds.
    #[inline(always)]
    pub fn written(&self, step: WordStep, found: u64) -> u64
        requires suits { Suits step self.now.view }
        ensures value { result ≡ word_after step self.now.view found }
    {
        match step {
            WordStep::LoadCell => found,
            WordStep::ClaimTerm if found == self.known_word() => self.known_word() + 1,
            WordStep::ClaimTerm => found,
            WordStep::SaveEnd { hi } if found == self.held_word() => packed(hi, self.held().term),
            WordStep::SaveEnd { .. } => found,
            WordStep::RaiseCursor { at } => found.max(at),
            WordStep::StoreLimit => self.held_word(),
            WordStep::ClearLimit => 0,
            WordStep::LoadLimit { .. } | WordStep::ArmCount { .. } => found,
            WordStep::AddArmed => found.wrapping_add(self.armed),
        }
    }

    /// Makes the step, whose word was found to be this, and says what it did.
    #[inline(always)]
    pub fn make(&mut self, step: WordStep, found: u64) -> Done
        requires suits { Suits step self.old.view }
        requires found { found < word_end }
        requires room { 0 < self.old.spare }
        ensures done { result ≡ done_of step found self.old.view }
        ensures after { self.new ≡ seat_after step found self.old }
    {
        match step {
            WordStep::LoadCell => Done::Read {
                cell: self.know(found),
            },
            WordStep::ClaimTerm => self.campaign(found),
            WordStep::SaveEnd { hi } => self.save(hi, found),
            WordStep::RaiseCursor { at } => self.raise(at, found),
            WordStep::StoreLimit => self.publish(),
            WordStep::ClearLimit => self.resign(),
            WordStep::LoadLimit { driver } => self.look(driver, found),
            WordStep::ArmCount { n } => self.arm(n, found),
            WordStep::AddArmed => self.draw(found),
        }
    }

    // The limit in hand, or one of no driver.
    #[inline(always)]
    fn in_hand(&self) -> Limit
        ensures value { result ≡ hand self.now.view }
    {
        match self.hand {
            Some(limit) => limit,
            None => Limit {
                driver: 0,
                term: 0,
                hi: 0,
            },
        }
    }

    // The word of the cell that it knows.
    fn known_word(&self) -> u64
        requires fits { CellFits self.now.view }
        ensures value { result ≡ cell_word self.now.view.cell }
    {
        packed(self.cell.saved, self.cell.term)
    }

    // The word of its window's end and term.
    fn held_word(&self) -> u64
        requires fits { HeldFits self.now.view }
        ensures value { result ≡ packed (held self.now.view).hi (held self.now.view).term }
    {
        let window = self.held();
        packed(window.hi, window.term)
    }
}
