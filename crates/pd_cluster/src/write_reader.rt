// A reader of what the entries of the drivers' journals wrote: which calls of the metadata's journal that `run` prints an entry made, and what
// a cluster answers by the records that it knows. It knows the rules in plain words, and nothing of the program.
use crate::journal_reader::{Journals, Served, behind, fault, number, word};
use crate::record_reader::{Call, DEFAULT_RULE, Makes};
use crate::run_reader::Unread;
use std::alloc::Global;

// The id behind which the first window begins, and how many ids a window has.
const FIRST_ID: u64 = 1_000_000;

const WINDOW: u64 = 1000;

// The text of a field of a rule's JSON.
fn field<'a>(json: &'a str, name: &str) -> &'a str {
    match json.split_once(name) {
        Some((_, rest)) => rest.split('"').nth(1).unwrap_or(""),
        None => "",
    }
}

// The group and the id of the rule that is set or removed.
fn rule_of<'a>(entry: &Served<'a>) -> (&'a str, &'a str) {
    let request = entry.request;
    if entry.verb == "rule" {
        (field(request, "\"group_id\""), field(request, "\"id\""))
    } else {
        (word(request, 3), word(request, 4))
    }
}

/// What became of the operator that an entry asked for: the answer of its dispatch, or why it wasn't added.
pub fn adding<'a>(entry: &Served<'a>) -> &'a str {
    let told = entry.told;
    match (word(told, 0), word(told, 2)) {
        ("plan", _) => behind(told, 6),
        ("scheduler", "move-peer") => behind(told, 9),
        ("scheduler", _) => behind(told, 7),
        _ => match (fault(told), told.split_once("\"now\":\"")) {
            (Some(text), _) => text,
            (_, Some((_, rest))) => rest.trim_end_matches("\"}"),
            _ => "",
        },
    }
}

/// An operator was added.
pub fn is_added(adding: &str) -> bool {
    matches!(word(adding, 0), "none" | "send" | "held" | "done" | "ended")
}

// The entry asked for an operator with a new peer.
fn asks_id(entry: &Served) -> bool {
    let told = entry.told;
    match entry.verb {
        "check" => {
            word(told, 0) == "plan" && matches!(word(told, 1), "add-voter" | "add-learner")
        }
        "schedule" => word(told, 2) == "move-peer",
        _ => {
            let wish = word(entry.request, 5);
            entry.is_command("operator", "add") && matches!(wish, "add-peer" | "transfer-peer")
        }
    }
}

// The id of the new peer that an entry tells, 0 where it tells none.
fn new_id(entry: &Served) -> u64 {
    let text = adding(entry);
    if asks_id(entry) && word(text, 1) == "add-learner" {
        number(text, 3)
    } else {
        0
    }
}

// How many ids an entry took at most: 16 for an operator, since a region has 15 peers.
fn ids_taken(entry: &Served) -> u64 {
    if asks_id(entry) {
        16
    } else if entry.head == "patrol" {
        number(entry.told, 8).saturating_mul(16)
    } else {
        0
    }
}

impl<'a> Journals<'a> {
    // The begin of a term announces it, and tells how many stores and rules it was handed.
    fn made_by_term(&self, entry: &Served, place: usize) -> Option<usize> {
        let (before, call) = self.own(entry.driver, place)?;
        let told = entry.told;
        let fits = if call.is_accepted() {
            word(told, 0) == "term"
                && number(told, 3) == self.stores(before)
                && number(told, 5) == self.rules(before).max(1)
        } else {
            word(told, 0) == call.verdict && number(told, 1) == call.number
        };
        (fits && call.asked == "lead" && call.term == entry.won).then_some(1)
    }

    // A `hello` writes the store's record, but that of a tombstone or of one store too many.
    fn made_by_hello(&self, entry: &Served, place: usize, known: usize) -> Option<usize> {
        let store = number(entry.request, 1);
        let state = self.state(known, store);
        if state == Some(Makes::Tombstone) {
            return (entry.told == "tombstone").then_some(0);
        }
        if state.is_none() && self.stores(known) >= 256 {
            return (entry.told == "limit").then_some(0);
        }
        let call = self.heard(entry, place, entry.told, "store put")?;
        (call.asked == "put" && call.store() == Some(store)).then_some(1)
    }

    // A heartbeat of a store writes nothing.
    fn made_by_alive(&self, entry: &Served, known: usize) -> Option<usize> {
        let told = match self.state(known, number(entry.request, 1)) {
            None => "unknown-store",
            Some(Makes::Tombstone) => "tombstone",
            Some(_) => "alive",
        };
        (entry.told == told).then_some(0)
    }

    // A rule is written. Where no rule has a record, the default rule is written before another one.
    fn made_by_rule(&self, entry: &Served, place: usize, known: usize) -> Option<usize> {
        let (told, name) = (entry.told, rule_of(entry));
        if word(told, 0) == "bad-rule" {
            return Some(0);
        }
        if !self.has_rule(known, name) && self.rules(known) >= 64 {
            return (told == "rule-limit").then_some(0);
        }
        let mut before = 0usize;
        if self.rules(known) == 0 && name != DEFAULT_RULE {
            let (_, first) = self.own(entry.driver, place)?;
            let writes = first.asked == "put" && first.is_of_rule(DEFAULT_RULE);
            if !writes || first.term != entry.term {
                return None;
            }
            if !first.is_accepted() {
                return self.heard(entry, place, told, "rule set").map(|_| 1);
            }
            before = 1;
        }
        let call = self.heard(entry, place.saturating_add(before), told, "rule set")?;
        let writes = call.asked == "put" && call.is_of_rule(name);
        writes.then_some(before.saturating_add(1))
    }

    // A rule's record is deleted, but that of the last rule.
    fn made_by_unrule(&self, entry: &Served, place: usize, known: usize) -> Option<usize> {
        let name = rule_of(entry);
        if !self.has_rule(known, name) {
            return (entry.told == "absent").then_some(0);
        }
        if self.rules(known) <= 1 {
            return (entry.told == "last-rule").then_some(0);
        }
        let call = self.heard(entry, place, entry.told, "rule removed")?;
        (call.asked == "delete" && call.is_of_rule(name)).then_some(1)
    }

    // The deletion of a store writes its record.
    fn made_by_delete(&self, entry: &Served, place: usize, known: usize) -> Option<usize> {
        let (store, why) = (number(entry.request, 5), fault(entry.told));
        match self.state(known, store) {
            None => return (why == Some("unknown-store")).then_some(0),
            Some(Makes::Tombstone) => return (why == Some("tombstone")).then_some(0),
            Some(_) => {}
        }
        let told = why.unwrap_or(entry.told);
        let call = self.heard(entry, place, told, "{\"done\":\"Offline\"}")?;
        (call.asked == "put" && call.store() == Some(store)).then_some(1)
    }

    // A command of pd-ctl: one that isn't read does nothing, and a store is unknown that has no record.
    fn made_by_command(&self, entry: &Served, place: usize, known: usize) -> Option<usize> {
        let why = fault(entry.told).unwrap_or("");
        let (first, second) = (word(entry.request, 3), word(entry.request, 4));
        if entry.is_unread() {
            return Some(0);
        }
        let is_known = |store: u64| self.state(known, store).is_some();
        match (first, second) {
            ("store", "delete") => self.made_by_delete(entry, place, known),
            ("store", "limit") => {
                let known = is_known(number(entry.request, 5));
                (known == (why != "unknown-store")).then_some(0)
            }
            ("store", "") => self.has_count(entry, known).then_some(0),
            ("store", _) => {
                let known = is_known(number(entry.request, 4));
                (known == (why != "unknown-store")).then_some(0)
            }
            ("operator", "add") if self.knows_store(entry, known, why) => {
                self.made_by_adding(entry, place)
            }
            ("operator", "add") => None,
            _ => Some(0),
        }
    }

    // A wish's stores are unknown exactly where they have no record, but where the region is.
    fn knows_store(&self, entry: &Served, known: usize, why: &str) -> bool {
        let request = entry.request;
        let has = |place: usize| self.state(known, number(request, place)).is_some();
        let both = has(7) && (word(request, 5) != "transfer-peer" || has(8));
        why == "no-region" || both == (why != "unknown-store")
    }

    // The report of all stores has as many as have a record.
    fn has_count(&self, entry: &Served, known: usize) -> bool {
        let count = entry.told.strip_prefix("{\"count\":").unwrap_or("");
        let count = count.split(',').next().unwrap_or("");
        count.parse::<u64>().ok() == Some(self.stores(known))
    }

    // The driver saved a window of ids in the term that it has behind so many of its calls.
    fn has_window(&self, driver: u64, place: usize) -> bool {
        let mut has = false;
        for call in self
            .calls
            .iter()
            .filter(|call| call.driver == driver)
            .take(place)
        {
            if call.is_accepted() {
                has = call.asked != "lead" && (has || call.is_id());
            }
        }
        has
    }

    // The ids of a window may be used up by the entries of this one's term.
    fn may_be_used_up(&self, entry: &Served) -> bool {
        let mut taken = ids_taken(entry);
        for other in self.served.iter().filter(|other| other.is_before(entry)) {
            taken = taken.saturating_add(ids_taken(other));
        }
        taken > WINDOW
    }

    // The new peer has an id of the last window that was saved by so many calls.
    fn is_in_window(&self, known: usize, id: u64) -> bool {
        let saved = |call: &&Call| call.is_accepted() && call.is_id();
        let windows = self.calls.iter().take(known).filter(saved).count() as u64;
        let end = windows.saturating_mul(WINDOW).saturating_add(FIRST_ID);
        id == 0 || (id <= end && id.saturating_add(WINDOW) > end && windows > 0)
    }

    // An operator's new peer takes the next id of the term's window, which is saved first where the term has none.
    fn made_by_adding(&self, entry: &Served, place: usize) -> Option<usize> {
        let told = adding(entry);
        if !asks_id(entry) {
            return (word(told, 0) != "old-term").then_some(0);
        }
        let saves = match self.heard(entry, place, told, told) {
            Some(call) => call.is_id(),
            None => false,
        };
        let has = self.has_window(entry.driver, place);
        let count = if word(told, 0) == "old-term" {
            let call = self.heard(entry, place, told, "")?;
            (call.is_id() && !has).then_some(1)
        } else if !is_added(told) {
            Some(0)
        } else if has && !(saves && self.may_be_used_up(entry)) {
            Some(0)
        } else {
            saves.then_some(1)
        };
        let known = self.known(entry.driver, place.saturating_add(count?));
        if self.is_in_window(known, new_id(entry)) {
            count
        } else {
            None
        }
    }

    // A patrol buries the store: it is Offline, no region has a peer on it, and the regions cover all keys.
    fn is_grave(&self, entry: &Served, known: usize, store: u64) -> bool {
        self.state(known, store) == Some(Makes::Offline)
            && !self.has_peer_on(entry, store)
            && self.covers_all(entry)
    }

    // How many stores a patrol buries, if no write is refused.
    fn graves(&self, entry: &Served, known: usize) -> u64 {
        let mut count = 0u64;
        for (place, call) in self.calls.iter().take(known).enumerate() {
            let store = call.store().unwrap_or(0);
            if self.is_last(known, place, call) && self.is_grave(entry, known, store) {
                count = count.saturating_add(1);
            }
        }
        count
    }

    // So many calls from this place on are those of a patrol: a window of ids, where the term has none and some plan was made, and then the
    // records of the stores that it buried, by rising id. Behind a refused window there is no other one, and behind a refused record nothing.
    fn are_of_patrol(&self, entry: &Served, place: usize, count: usize) -> bool {
        let (mut ids, mut stores, mut last, mut buried) = (true, true, 0, 0u64);
        for step in 0..count {
            let at = place.saturating_add(step);
            let Some((_, call)) = self.own(entry.driver, at) else {
                return false;
            };
            let lawful = if call.is_id() {
                let has = self.has_window(entry.driver, at);
                ids && number(entry.told, 8) > 0 && (!has || self.may_be_used_up(entry))
            } else {
                let store = call.store().unwrap_or(0);
                let known = self.known(entry.driver, at);
                stores && store > last && self.is_grave(entry, known, store)
            };
            if !lawful || call.term != entry.term {
                return false;
            }
            ids = call.is_id() && call.is_accepted();
            stores = call.is_id() || call.is_accepted();
            last = call.store().unwrap_or(0);
            if !call.is_id() && call.is_accepted() {
                buried = buried.saturating_add(1);
            }
        }
        let all = self.graves(entry, self.known(entry.driver, place));
        buried == number(entry.told, 14) && (!stores || buried == all)
    }

    // How many calls an entry that is no patrol made from this place of its driver's on, if these and its reply are lawful.
    fn made(&self, entry: &Served, place: usize) -> Option<usize> {
        let known = self.known(entry.driver, place);
        if entry.won > 0 {
            return self.made_by_term(entry, place);
        }
        if entry.told == "not-leading" {
            return Some(0);
        }
        match entry.verb {
            "hello" => self.made_by_hello(entry, place, known),
            "alive" => self.made_by_alive(entry, known),
            "rule" => self.made_by_rule(entry, place, known),
            "unrule" => self.made_by_unrule(entry, place, known),
            "check" | "schedule" => self.made_by_adding(entry, place),
            "ctl" => self.made_by_command(entry, place, known),
            _ => Some(0),
        }
    }

    // How far its driver's calls may have come behind an entry, from how far they may have come before it. What a patrol needed it doesn't tell.
    fn come_on(
        &self,
        alloc: Global,
        entry: &Served,
        places: &[usize],
    ) -> Result<Vec<usize>, Unread> {
        let mut next = Vec::new(alloc);
        for place in places {
            if entry.head == "patrol" {
                self.come_by_patrol(entry, *place, &mut next)?;
            } else if let Some(count) = self.made(entry, *place) {
                next.push(place.saturating_add(count))?;
            }
        }
        Ok(next)
    }

    // The same by a patrol.
    fn come_by_patrol(
        &self,
        entry: &Served,
        place: usize,
        next: &mut Vec<usize>,
    ) -> Result<(), Unread> {
        let most = (number(entry.told, 14) as usize).saturating_add(4);
        for count in 0..most.min(self.calls.len().saturating_add(1)) {
            let there = place.saturating_add(count);
            if self.are_of_patrol(entry, place, count) && !next.iter().any(|one| *one == there) {
                next.push(there)?;
            }
        }
        Ok(())
    }

    // The calls of a driver are those of its journal's entries, in their order.
    fn are_of_driver(&self, alloc: Global, driver: u64) -> Result<bool, Unread> {
        let mut places = Vec::new(alloc);
        places.push(0usize)?;
        for entry in &self.served {
            if entry.driver == driver {
                places = self.come_on(alloc, entry, places.as_slice())?;
            }
        }
        let all = self
            .calls
            .iter()
            .filter(|call| call.driver == driver)
            .count();
        Ok(places.iter().any(|place| *place == all))
    }

    // The ids of new peers rise in each journal.
    fn ids_rise(&self) -> bool {
        let (mut driver, mut last) = (0, 0);
        for entry in &self.served {
            if entry.driver != driver {
                (driver, last) = (entry.driver, 0);
            }
            let id = new_id(entry);
            if id > 0 && id <= last {
                return false;
            }
            last = last.max(id);
        }
        true
    }

    /// The calls are those of the entries of the drivers, 7 at most, and no others.
    pub fn are_written(&self, alloc: Global) -> Result<bool, Unread> {
        for driver in 1..8 {
            if !self.are_of_driver(alloc, driver)? {
                return Ok(false);
            }
        }
        let own = |call: &Call| 1 <= call.driver && call.driver <= 7;
        Ok(self.ids_rise() && self.calls.iter().all(own))
    }
}
