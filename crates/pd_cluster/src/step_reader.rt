// A reader of the operators and their steps in what `run` prints: which region has an operator at an entry, and which steps stores took. It
// knows the rules in plain words, and nothing of the program.
use crate::journal_reader::{Journals, Served, behind, fault, number, word};
use crate::region_reader::{begins_below, leader_store, overlap, unbuilt};
use crate::run_reader::{Answer, STORES, Unread};
use crate::write_reader::{adding, is_added};
use std::alloc::Global;

// Whether a region has an operator that hasn't ended, and of which priority. A patrol doesn't tell for which regions it added some.
#[derive(Clone, Copy, Debug, PartialEq, Eq)]
enum Has {
    No,
    Maybe,
    Sure(u64),
}

// The priority of the operators that a patrol adds.
const CHECKER: u64 = 2;

impl Has {
    fn is_sure(self) -> bool {
        matches!(self, Has::Sure(_))
    }

    // Its priority, 0 where there is none.
    fn priority(self) -> u64 {
        match self {
            Has::No => 0,
            Has::Maybe => CHECKER,
            Has::Sure(priority) => priority,
        }
    }
}

// The priority of the operators that an entry asks for.
fn priority(entry: &Served) -> u64 {
    match entry.verb {
        "schedule" => 1,
        "ctl" => 3,
        _ => CHECKER,
    }
}

// A store took a step.
fn is_popped(one: &Answer) -> bool {
    one.section == STORES && one.asked.word == "pop" && one.said.word == "popped"
}

// The entry that sent the step that was taken, `popped term T entry N region R STEP`.
fn sender(one: &Answer) -> u64 {
    number(one.text, 4)
}

// The step that an entry tells as sent.
fn step_told(told: &str) -> Option<&str> {
    let (_, step) = told.split_once("send ")?;
    Some(step.trim_end_matches("\"}"))
}

// Two steps that were taken add the same peer to two regions.
fn share_peer(one: &Answer, other: &Answer) -> bool {
    let add = word(one.text, 7) == "add-learner" && word(other.text, 7) == "add-learner";
    let same = word(one.text, 9) == word(other.text, 9);
    add && same && word(one.text, 6) != word(other.text, 6)
}

// A send that an entry tells, and the store that it went to.
#[derive(Drop)]
struct Sent {
    driver: u64,
    entry: u64,
    to: u64,
}

impl Sent {
    fn is_taken(&self, one: &Answer) -> bool {
        self.driver == one.driver && self.entry == sender(one)
    }

    // It went to the store that took a step, before that one was sent.
    fn is_ahead(&self, one: &Answer) -> bool {
        self.driver == one.driver && self.to == one.actor && self.entry < sender(one)
    }
}

impl<'a> Journals<'a> {
    // What becomes of a region's operator by another region's heartbeat: it ends where its region is displaced.
    fn by_other(&self, beat: &Served, region: u64, before: Has) -> Has {
        match self.held(beat, region) {
            Some(held) if overlap(held.request, beat.request) => Has::No,
            _ => before,
        }
    }

    // What becomes of a region's operator by an entry.
    fn by_entry(&self, entry: &Served, region: u64, before: Has) -> Has {
        let (told, own) = (entry.told, entry.region == region);
        match entry.verb {
            "patrol" if before == Has::No && number(told, 12) > 0 => Has::Maybe,
            "beat" if word(told, 0) != "accepted" => before,
            "beat" if !own => self.by_other(entry, region, before),
            "beat" => match word(told, 3) {
                "send" | "held" => Has::Sure(before.priority()),
                _ => Has::No,
            },
            _ if own && told == "{\"done\":\"Canceled\"}" => Has::No,
            _ if own && is_added(adding(entry)) => match word(adding(entry), 0) {
                "send" | "held" => Has::Sure(priority(entry)),
                _ => Has::No,
            },
            _ => before,
        }
    }

    // Whether a region has an operator before an entry.
    fn operator(&self, at: &Served, region: u64) -> Has {
        let mut has = Has::No;
        for entry in self.served.iter().filter(|one| one.is_before(at)) {
            has = self.by_entry(entry, region, has);
        }
        has
    }

    // An accepted heartbeat is answered for an operator exactly where its region has one.
    fn is_dispatched(&self, at: &Served) -> bool {
        let has = self.operator(at, at.region);
        if at.head != "accepted" {
            true
        } else if word(at.told, 3) == "none" {
            !has.is_sure()
        } else {
            has != Has::No
        }
    }

    // An operator is added only where the region has none of its priority or above, and `busy` tells that one's.
    fn is_free(&self, at: &Served) -> bool {
        let told = adding(at);
        let has = self.operator(at, at.region);
        match word(told, 0) {
            "busy" => has.priority() == number(told, 1) && has.priority() >= priority(at),
            "limited" => number(told, 2) < 60_000 && number(told, 4) == 60_000,
            "epoch-moved" => false,
            _ => !is_added(told) || !has.is_sure() || has.priority() < priority(at),
        }
    }

    // A wish has the first fault that the region's peers show, but where its store is unknown or not usable.
    fn is_built(&self, at: &Served<'a>) -> bool {
        let why = word(adding(at), 0);
        let first = unbuilt(self.looked_at(at).unwrap_or(""), behind(at.request, 5));
        let shown = matches!(why, "has-peer" | "no-peer" | "is-leader" | "not-voter");
        let earlier = matches!(why, "no-region" | "unknown-store" | "not-usable");
        at.is_unread() || earlier || (shown && why == first) || (!shown && first.is_empty())
    }

    // An operator is removed exactly where there is one.
    fn is_canceled(&self, at: &Served) -> bool {
        let has = self.operator(at, at.region);
        if at.told == "{\"done\":\"Canceled\"}" {
            has != Has::No
        } else {
            fault(at.told) != Some("absent") || !has.is_sure()
        }
    }

    // The report of a region's last operator tells one that hasn't ended exactly where there is one.
    fn is_checked(&self, at: &Served) -> bool {
        let has = self.operator(at, at.region);
        if at.told.ends_with(":\"Created\"}") || at.told.ends_with(":\"Started\"}") {
            has != Has::No
        } else {
            !has.is_sure() || fault(at.told).is_some_and(|why| why != "absent")
        }
    }

    /// What the entries tell of operators is so by what was told before.
    pub fn operators_are(&self) -> bool {
        for at in &self.served {
            let lawful = match at.verb {
                _ if at.term == 0 => true,
                "beat" => self.is_dispatched(at),
                "check" | "schedule" => self.is_free(at),
                _ if at.is_command("operator", "add") => self.is_free(at) && self.is_built(at),
                _ if at.is_command("operator", "remove") => self.is_canceled(at),
                _ if at.is_command("operator", "check") => self.is_checked(at),
                _ => true,
            };
            if !lawful {
                return false;
            }
        }
        true
    }

    // A patrol that added operators may have sent this store the step of a region that it leads: the region had no operator.
    fn may_have_sent(&self, at: &Served, region: u64, store: u64, step: &str) -> bool {
        let Some(beat) = self.held(at, region) else {
            return false;
        };
        at.head == "patrol"
            && number(at.told, 12) > 0
            && leader_store(beat.request) == store
            && !self.operator(at, region).is_sure()
            && self.may_send(at, beat.request, step)
    }

    // `popped term T entry N region R STEP`: that entry of this term sent it to the store, which leads the region. It tells the step, or it is a
    // patrol.
    fn is_sent(&self, one: &Answer) -> bool {
        let own = |entry: &&Served| entry.driver == one.driver && entry.place == sender(one);
        let Some(entry) = self.served.iter().find(own) else {
            return false;
        };
        let (region, step) = (number(one.text, 6), behind(one.text, 7));
        let sent = match step_told(entry.told) {
            Some(told) => {
                let beat = self.looked_at(entry).unwrap_or("");
                told == step && entry.region == region && leader_store(beat) == one.actor
            }
            None => self.may_have_sent(entry, region, one.actor, step),
        };
        sent && entry.term > 0 && entry.term == number(one.text, 2)
    }

    // Two steps that an actor of the driver took one after the other were sent so: by two entries, or by a patrol for regions in the order of
    // their keys.
    fn are_in_turn(&self, before: &Answer, one: &Answer) -> bool {
        if before.actor != one.actor || sender(before) != sender(one) {
            return before.actor != one.actor || sender(before) < sender(one);
        }
        let own = |entry: &&Served| entry.driver == one.driver && entry.place == sender(one);
        let Some(at) = self.served.iter().find(own) else {
            return false;
        };
        match (
            self.held(at, number(before.text, 6)),
            self.held(at, number(one.text, 6)),
        ) {
            (Some(first), Some(then)) => begins_below(first.request, then.request),
            _ => false,
        }
    }

    // No more steps of a patrol were taken than it added operators.
    fn are_few(&self, answers: &[Answer]) -> bool {
        for at in &self.served {
            let taken = |one: &&Answer| {
                is_popped(one) && one.driver == at.driver && sender(one) == at.place
            };
            let count = answers.iter().filter(taken).count() as u64;
            if at.head == "patrol" && count > number(at.told, 12) {
                return false;
            }
        }
        true
    }

    /// What stores took was sent to them, in the order in which it was sent, nothing was taken twice, and no two regions are given one peer.
    pub fn pops_are(&self, answers: &[Answer]) -> bool {
        for (count, one) in answers.iter().filter(|one| is_popped(one)).enumerate() {
            if !self.is_sent(one) {
                return false;
            }
            for before in answers.iter().filter(|one| is_popped(one)).take(count) {
                let same = sender(before) == sender(one);
                let twice = same && word(before.text, 6) == word(one.text, 6);
                let turned = before.driver == one.driver && !self.are_in_turn(before, one);
                if (before.driver == one.driver && twice) || turned || share_peer(before, one) {
                    return false;
                }
            }
        }
        self.are_few(answers)
    }

    // The sends that entries tell.
    fn sends(&self, alloc: Global) -> Result<Vec<Sent>, Unread> {
        let mut sends = Vec::new(alloc);
        for entry in &self.served {
            if step_told(entry.told).is_some() {
                let beat = self.looked_at(entry).unwrap_or("");
                sends.push(Sent {
                    driver: entry.driver,
                    entry: entry.place,
                    to: leader_store(beat),
                })?;
            }
        }
        Ok(sends)
    }

    // How many steps patrols may have sent before this one.
    fn untold(&self, one: &Answer) -> u64 {
        let mut count = 0u64;
        for entry in &self.served {
            let before = entry.driver == one.driver && entry.place < sender(one);
            if before && entry.head == "patrol" {
                count = count.saturating_add(number(entry.told, 12));
            }
        }
        count
    }

    /// No step is passed over but where 64 others to that store stand before it, and the first 64 never are.
    pub fn none_is_left_out(&self, alloc: Global, answers: &[Answer]) -> Result<bool, Unread> {
        let sends = self.sends(alloc)?;
        let is_told = |one: &Answer| is_popped(one) && sends.iter().any(|sent| sent.is_taken(one));
        for (place, one) in answers.iter().enumerate() {
            if !is_told(one) {
                continue;
            }
            let own = |other: &&Answer| {
                other.actor == one.actor && other.driver == one.driver && is_told(other)
            };
            let taken = answers.iter().take(place).filter(own).count() as u64;
            let sent = sends.iter().filter(|sent| sent.is_ahead(one)).count() as u64;
            let untold = self.untold(one);
            let full = sent.saturating_add(untold) > 64 && taken.saturating_add(untold) >= 64;
            if taken != sent && !full {
                return Ok(false);
            }
        }
        Ok(true)
    }
}
