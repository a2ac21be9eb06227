// A reader of the metadata's journal that `run` prints: its calls one after the other, and which records are known by the first of them. It
// knows the rules in plain words, and nothing of the program.
use crate::journal_reader::{Journals, Served, behind, number, word};
use crate::run_reader::Unread;

/// What an accepted write makes of a store's state. One that keeps it makes a new store Up.
#[derive(Clone, Copy, Debug, PartialEq, Eq)]
pub enum Makes {
    Kept,
    Offline,
    Tombstone,
}

/// A driver's call to the metadata: `lead`, `put` or `delete`, with its term, the key that is written, its verdict and that one's number.
#[derive(Drop)]
pub struct Call<'a> {
    pub driver: u64,
    pub asked: &'a str,
    pub term: u64,
    pub key: &'a str,
    pub verdict: &'a str,
    pub number: u64,
    makes: Makes,
}

impl<'a> Call<'a> {
    /// The store whose record is written, under its id in 20 digits.
    pub fn store(&self) -> Option<u64> {
        let id = self.key.strip_prefix("store/")?;
        if id.len() == 20 {
            id.parse::<u64>().ok()
        } else {
            None
        }
    }

    /// It was accepted.
    pub fn is_accepted(&self) -> bool {
        self.verdict == "accepted"
    }

    // The key is that of a rule.
    fn is_rule(&self) -> bool {
        self.key.starts_with("rule/")
    }

    /// The key is that of the rule of this group and id.
    pub fn is_of_rule(&self, name: (&str, &str)) -> bool {
        let Some(rest) = self.key.strip_prefix("rule/") else {
            return false;
        };
        let Some((group, id)) = rest.split_once('/') else {
            return false;
        };
        spells(group, name.0) && spells(id, name.1)
    }

    /// A window of ids is saved.
    pub fn is_id(&self) -> bool {
        self.asked == "put" && self.key == "id"
    }

    // It writes under a key that there is, or announces a term.
    fn is_known(&self) -> bool {
        match self.asked {
            "lead" => true,
            "put" => self.is_id() || self.is_rule() || self.store().is_some(),
            "delete" => self.is_rule(),
            _ => false,
        }
    }
}

// A digit of hexadecimal.
fn digit(value: u8) -> u8 {
    if value < 10 {
        value.saturating_add(48)
    } else {
        value.saturating_add(87)
    }
}

// The digits are those of the bytes of the text, in hexadecimal.
fn spells(digits: &str, text: &str) -> bool {
    let mut left = digits.bytes();
    for byte in text.bytes() {
        let (high, low) = (left.next(), left.next());
        if high != Some(digit(byte / 16)) || low != Some(digit(byte % 16)) {
            return false;
        }
    }
    left.next().is_none()
}

/// The group and the id of the default rule.
pub const DEFAULT_RULE: (&str, &str) = ("pd", "default");

// The records of stores that an entry wrote.
fn stores_written(told: &str) -> u64 {
    match told {
        "store put" | "{\"done\":\"Offline\"}" => 1,
        _ if word(told, 0) == "patrol" => number(told, 14),
        _ => 0,
    }
}

// What an entry that wrote records of stores made of these.
fn change_of(told: &str) -> Makes {
    match told {
        "store put" => Makes::Kept,
        "{\"done\":\"Offline\"}" => Makes::Offline,
        _ => Makes::Tombstone,
    }
}

impl<'a> Journals<'a> {
    // What the write of a store's record by this driver made, behind so many others that were accepted.
    fn made_of_store(&self, driver: u64, before: u64) -> Makes {
        let mut left = before;
        for entry in &self.served {
            if entry.driver != driver {
                continue;
            }
            let count = stores_written(entry.told);
            if left < count {
                return change_of(entry.told);
            }
            left = left.saturating_sub(count);
        }
        Makes::Kept
    }

    /// Reads `N driver D CALL VERDICT`, where N is the next one.
    pub fn read_call(&mut self, line: &'a str) -> Result<(), Unread> {
        let next = (self.calls.len() as u64).saturating_add(1);
        if number(line, 0) != next || word(line, 1) != "driver" {
            return Err(Unread("no call, or out of order"));
        }
        let (driver, asked) = (number(line, 2), word(line, 3));
        let verdict = behind(line, if asked == "lead" { 5 } else { 6 });
        let stored = |call: &&Call| {
            call.driver == driver && call.is_accepted() && call.store().is_some()
        };
        let before = self.calls.iter().filter(stored).count() as u64;
        let makes = self.made_of_store(driver, before);
        self.calls.push(Call {
            driver,
            asked,
            term: number(line, 4),
            key: if asked == "lead" { "" } else { word(line, 5) },
            verdict: word(verdict, 0),
            number: number(verdict, 1),
            makes,
        })?;
        Ok(())
    }

    /// A call of an earlier term than the greatest announced one is refused with that, each write that is accepted counts one more, and there
    /// is no conflict: whoever may write was handed all records, and nobody else wrote since.
    pub fn calls_are(&self) -> bool {
        let (mut fence, mut counter) = (0, 0u64);
        for call in &self.calls {
            let leads = call.asked == "lead";
            if call.is_accepted() && !leads {
                counter = counter.saturating_add(1);
            }
            let lawful = match call.verdict {
                "accepted" if leads => call.number == counter && fence <= call.term,
                "accepted" => call.number == counter && fence == call.term,
                "old-term" => call.term < fence && call.number == fence,
                _ => false,
            };
            if !lawful || !call.is_known() {
                return false;
            }
            if call.is_accepted() {
                fence = call.term;
            }
        }
        true
    }

    /// A driver's call behind so many of its own, and its place in the journal.
    pub fn own(&self, driver: u64, place: usize) -> Option<(usize, &Call<'a>)> {
        let mut own = self
            .calls
            .iter()
            .enumerate()
            .filter(|one| one.1.driver == driver);
        own.nth(place)
    }

    /// How many calls the records come from that a driver's cluster knows behind so many of its own: those up to its last accepted one.
    pub fn known(&self, driver: u64, place: usize) -> usize {
        let (mut known, mut own) = (0, 0usize);
        for (count, call) in self.calls.iter().enumerate() {
            if call.driver != driver || own >= place {
                continue;
            }
            own = own.saturating_add(1);
            if call.is_accepted() {
                known = count.saturating_add(1);
            }
        }
        known
    }

    /// The state of a store by so many calls; none where it has no record.
    pub fn state(&self, known: usize, store: u64) -> Option<Makes> {
        let mut state = None;
        for call in self.calls.iter().take(known) {
            if !call.is_accepted() || call.store() != Some(store) {
                continue;
            }
            state = match (call.makes, state) {
                (Makes::Kept, Some(kept)) => Some(kept),
                (made, _) => Some(made),
            };
        }
        state
    }

    /// The call is the last one of the first calls that was accepted under its key.
    pub fn is_last(&self, known: usize, place: usize, call: &Call) -> bool {
        let mut later = self.calls.iter().take(known).skip(place).skip(1);
        call.is_accepted() && !later.any(|other| other.is_accepted() && other.key == call.key)
    }

    /// How many stores have a record by so many calls.
    pub fn stores(&self, known: usize) -> u64 {
        let mut count = 0u64;
        for (place, call) in self.calls.iter().take(known).enumerate() {
            if call.store().is_some() && self.is_last(known, place, call) {
                count = count.saturating_add(1);
            }
        }
        count
    }

    /// How many rules have a record by so many calls.
    pub fn rules(&self, known: usize) -> u64 {
        let mut count = 0u64;
        for (place, call) in self.calls.iter().take(known).enumerate() {
            let put = call.asked == "put" && call.is_rule();
            if put && self.is_last(known, place, call) {
                count = count.saturating_add(1);
            }
        }
        count
    }

    /// The rule is in the set by so many calls: it has a record, or it is the default rule where none has.
    pub fn has_rule(&self, known: usize, name: (&str, &str)) -> bool {
        let mut stored = false;
        for call in self.calls.iter().take(known) {
            if call.is_accepted() && call.is_of_rule(name) {
                stored = call.asked == "put";
            }
        }
        stored || (name == DEFAULT_RULE && self.rules(known) == 0)
    }

    /// The driver's call at this place, in the entry's term, if it was answered as the entry tells: accepted where that is `done`.
    pub fn heard(&self, entry: &Served, place: usize, told: &str, done: &str) -> Option<&Call<'a>> {
        let (_, call) = self.own(entry.driver, place)?;
        let fits = if told == done {
            call.is_accepted()
        } else {
            !call.is_accepted() && call.verdict == word(told, 0) && call.number == number(told, 1)
        };
        if fits && call.term == entry.term {
            Some(call)
        } else {
            None
        }
    }
}
