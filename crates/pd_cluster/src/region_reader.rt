// A reader of the regions in the journals that `run` prints: which heartbeats stand at an entry, what the cluster answers by them, and
// whether a step may be sent. It knows the rules in plain words, and nothing of the program.
use crate::journal_reader::{Journals, Served, fault, number, word};

// The line of a heartbeat is `beat S D NOW R START END CONF VERSION LEADER PEERS`, with peers `ID:STORE:ROLE`.
const START: usize = 5;

const END: usize = 6;

const CONF: usize = 7;

const VERSION: usize = 8;

const LEADER: usize = 9;

const PEERS: usize = 10;

/// A part of a peer.
pub fn part(peer: &str, place: usize) -> &str {
    peer.split(':').nth(place).unwrap_or("")
}

// The peer of this id, empty where there is none.
fn peer_of<'a>(beat: &'a str, id: &str) -> &'a str {
    let mut peers = word(beat, PEERS).split(',');
    peers.find(|peer| part(peer, 0) == id).unwrap_or("")
}

/// The peer on this store, empty where there is none.
pub fn peer_on<'a>(beat: &'a str, store: &str) -> &'a str {
    let mut peers = word(beat, PEERS).split(',');
    peers.find(|peer| part(peer, 1) == store).unwrap_or("")
}

/// The first fault of a wish that the region's peers show, empty where they show none: `W R S` or `W R S T`.
pub fn unbuilt(beat: &str, wish: &str) -> &'static str {
    let kind = word(wish, 0);
    let peer = peer_on(beat, word(wish, 2));
    let has_target = match kind {
        "add-peer" => !peer.is_empty(),
        _ => kind == "transfer-peer" && !peer_on(beat, word(wish, 3)).is_empty(),
    };
    if has_target {
        "has-peer"
    } else if kind == "add-peer" {
        ""
    } else if peer.is_empty() {
        "no-peer"
    } else if kind == "transfer-leader" && part(peer, 0) == word(beat, LEADER) {
        "is-leader"
    } else if kind == "transfer-leader" && part(peer, 2) != "v" {
        "not-voter"
    } else {
        ""
    }
}

/// The store of the leader that a region's heartbeat names, 0 where it names none.
pub fn leader_store(beat: &str) -> u64 {
    let leader = peer_of(beat, word(beat, LEADER));
    part(leader, 1).parse::<u64>().unwrap_or(0)
}

/// The key at which a region begins is below the other's.
pub fn begins_below(beat: &str, other: &str) -> bool {
    word(beat, START) < word(other, START)
}

// What begins at this key begins before the end, which is open where it is `-`.
fn is_below(start: &str, end: &str) -> bool {
    end == "-" || start < end
}

/// The ranges of two heartbeats have a key in common.
pub fn overlap(one: &str, other: &str) -> bool {
    is_below(word(one, START), word(other, END)) && is_below(word(other, START), word(one, END))
}

// Once the heartbeat was accepted the other one no longer stands: that is of the same region or overlaps it.
fn displaces(beat: &Served, other: &Served) -> bool {
    beat.region == other.region || overlap(beat.request, other.request)
}

// An accepted heartbeat of a region.
fn is_accepted(entry: &Served) -> bool {
    entry.verb == "beat" && entry.head == "accepted"
}

// Two peers have this part in common.
fn has_double(beat: &str, place: usize) -> bool {
    for (count, peer) in word(beat, PEERS).split(',').enumerate() {
        let mut others = word(beat, PEERS).split(',').skip(count).skip(1);
        if others.any(|other| part(other, place) == part(peer, place)) {
            return true;
        }
    }
    false
}

// The number of the first test that a heartbeat fails, 0 where it fails none.
fn fault_of(beat: &str) -> u64 {
    let count = word(beat, PEERS).split(',').count();
    let leader = peer_of(beat, word(beat, LEADER));
    let (start, end) = (word(beat, START), word(beat, END));
    let tests = [
        word(beat, PEERS) == "-",
        count > 15,
        has_double(beat, 0),
        has_double(beat, 1),
        leader.is_empty(),
        part(leader, 2) != "v",
        !is_below(start, end),
        start.len() > 8192 || end.len() > 8192,
    ];
    let mut number = 0u64;
    for failed in tests {
        number = number.saturating_add(1);
        if failed {
            return number;
        }
    }
    0
}

// A number in a report.
fn in_report(told: &str, name: &str) -> Option<u64> {
    let (_, rest) = told.split_once(name)?;
    rest.split(',').next()?.parse::<u64>().ok()
}

impl<'a> Journals<'a> {
    // The heartbeat stands before an entry of its term.
    fn stands(&self, beat: &Served, at: &Served) -> bool {
        if !is_accepted(beat) || !beat.is_before(at) {
            return false;
        }
        let mut later = self.served.iter().filter(|one| beat.is_before(one));
        !later.any(|one| { one.is_before(at) && is_accepted(one) && displaces(one, beat) })
    }

    /// The heartbeat of a region that stands before an entry.
    pub fn held(&self, at: &Served, region: u64) -> Option<&Served<'a>> {
        self.served
            .iter()
            .find(|beat| beat.region == region && self.stands(beat, at))
    }

    /// The heartbeat by which an entry looks at its region: the entry's own, or the one that stands.
    pub fn looked_at(&self, at: &Served<'a>) -> Option<&'a str> {
        if at.verb == "beat" {
            return Some(at.request);
        }
        let beat = self.held(at, at.region)?;
        Some(beat.request)
    }

    // The heartbeat that shows another one to be stale: that of its region, where it has a greater epoch, or the first one by its key of those
    // that it overlaps and that have a greater version.
    fn newer(&self, at: &Served) -> Option<&Served<'a>> {
        let own = self.held(at, at.region);
        let version = number(at.request, VERSION);
        if let Some(own) = own {
            let request = own.request;
            if number(request, VERSION) > version
                || number(request, CONF) > number(at.request, CONF)
            {
                return Some(own);
            }
        }
        let mut first: Option<&Served> = None;
        for beat in &self.served {
            if !self.stands(beat, at) || !overlap(beat.request, at.request) {
                continue;
            }
            let below = first.is_none_or(|one| begins_below(beat.request, one.request));
            if number(beat.request, VERSION) > version && below {
                first = Some(beat);
            }
        }
        first
    }

    // How many regions of other ids the heartbeat displaces.
    fn displaced(&self, at: &Served) -> u64 {
        let region = at.region;
        let other = |beat: &&Served| {
            beat.region != region && self.stands(beat, at) && overlap(beat.request, at.request)
        };
        self.served.iter().filter(other).count() as u64
    }

    // A heartbeat is refused for its first fault, or as stale, or else it is accepted.
    fn is_taken_in(&self, at: &Served) -> bool {
        let (told, fault) = (at.told, fault_of(at.request));
        if fault > 0 {
            return word(told, 0) == "bad" && number(told, 1) == fault;
        }
        match self.newer(at) {
            Some(kept) => {
                word(told, 0) == "stale"
                    && number(told, 2) == number(kept.request, CONF)
                    && number(told, 4) == number(kept.request, VERSION)
            }
            None => word(told, 0) == "accepted" && number(told, 2) == self.displaced(at),
        }
    }

    // A patrol counts each region once, and adds operators for plans alone.
    fn is_counted(&self, at: &Served) -> bool {
        let told = at.told;
        let held = self
            .served
            .iter()
            .filter(|beat| self.stands(beat, at))
            .count() as u64;
        let (ok, split) = (number(told, 4), number(told, 6));
        let (plan, no_plan) = (number(told, 8), number(told, 10));
        let all = ok
            .saturating_add(split)
            .saturating_add(plan)
            .saturating_add(no_plan);
        number(told, 2) == held && all == held && number(told, 12) <= plan
    }

    /// A region that stands before an entry has a peer on the store.
    pub fn has_peer_on(&self, at: &Served, store: u64) -> bool {
        self.served.iter().any(|beat| {
            let mut peers = word(beat.request, PEERS).split(',');
            self.stands(beat, at)
                && peers.any(|peer| part(peer, 1).parse::<u64>().ok() == Some(store))
        })
    }

    // A region that stands before an entry begins at this key.
    fn begins_at(&self, at: &Served, key: &str) -> bool {
        self.served.iter().any(|beat| word(beat.request, START) == key && self.stands(beat, at))
    }

    /// The regions that stand before an entry cover all keys: one begins at the first key, and where one ends another one begins.
    pub fn covers_all(&self, at: &Served) -> bool {
        let ends = |beat: &Served| {
            let end = word(beat.request, END);
            !self.stands(beat, at) || end == "-" || self.begins_at(at, end)
        };
        self.begins_at(at, "-") && self.served.iter().all(ends)
    }

    // The report of a region is that of its heartbeat, and there is one exactly where one stands.
    fn is_reported(&self, at: &Served) -> bool {
        match (self.held(at, at.region), fault(at.told)) {
            (Some(beat), None) => {
                let request = beat.request;
                in_report(at.told, "\"conf_ver\":") == Some(number(request, CONF))
                    && in_report(at.told, "\"leader\":") == Some(number(request, LEADER))
                    && at.told.ends_with("}")
            }
            (None, Some(why)) => why == "no-region",
            _ => false,
        }
    }

    // An entry tells `no-region` exactly where no heartbeat of its region stands.
    fn knows_region(&self, at: &Served) -> bool {
        let why = fault(at.told).unwrap_or(at.told);
        if at.is_unread() {
            return true;
        }
        let held = self.held(at, at.region).is_some();
        match at.verb {
            "check" => held == (why != "no-region"),
            "schedule" => held || at.region == 0,
            _ if at.is_command("operator", "add") => held == (why != "no-region"),
            "ctl" if word(at.request, 3) == "region" && word(at.request, 4) != "key" => {
                self.is_reported(at)
            }
            _ => true,
        }
    }

    // The clock of the term at an entry: the greatest moment of its entries.
    fn clock(&self, at: &Served) -> u64 {
        let mut clock = at.moment;
        for entry in self.served.iter().filter(|one| one.is_before(at)) {
            clock = clock.max(entry.moment);
        }
        clock
    }

    // The store was heard of in the term, 20 seconds before its clock or later.
    fn is_live(&self, at: &Served, store: &str) -> bool {
        let clock = self.clock(at);
        self.served.iter().any(|one| {
            let heard = matches!(one.told, "store put" | "alive") && one.is_before(at);
            heard && word(one.request, 1) == store && one.moment.saturating_add(20_000) >= clock
        })
    }

    // How many of the region's voters are live at an entry, and how many it has, after a step.
    fn votes(&self, at: &Served, beat: &str, step: &str) -> (u64, u64) {
        let (mut live, mut voters) = (0u64, 0u64);
        for peer in word(beat, PEERS).split(',') {
            let own = part(peer, 0) == word(step, 2) && part(peer, 1) == word(step, 4);
            let votes = match word(step, 0) {
                "remove-peer" if own => false,
                "promote-learner" if own => true,
                _ => part(peer, 2) == "v",
            };
            if votes {
                voters = voters.saturating_add(1);
            }
            if votes && self.is_live(at, part(peer, 1)) {
                live = live.saturating_add(1);
            }
        }
        (live, voters)
    }

    // The target of a step is right by the region's heartbeat.
    fn is_target(&self, at: &Served, beat: &str, step: &str) -> bool {
        let (id, store) = (word(step, 2), word(step, 4));
        let peer = peer_of(beat, id);
        let there = !peer.is_empty() && part(peer, 1) == store;
        match word(step, 0) {
            "add-learner" => there || (peer.is_empty() && peer_on(beat, store).is_empty()),
            "promote-learner" => there && part(peer, 2) == "l" && self.is_live(at, store),
            "transfer-leader" => there && part(peer, 2) == "v" && self.is_live(at, store),
            "remove-peer" => there && word(beat, LEADER) != id,
            _ => false,
        }
    }

    // The text alone tells who is live: no store was buried before, and the heartbeat names no peer that is down or pending.
    fn is_plain(&self, at: &Served, beat: &str) -> bool {
        let buried = |one: &Served| {
            one.is_before(at) && one.head == "patrol" && number(one.told, 14) > 0
        };
        word(beat, 11).is_empty() && !self.served.iter().any(buried)
    }

    /// A step may be sent at an entry: more than half of the region's voters are live before the step and after it, and its target is right.
    pub fn may_send(&self, at: &Served, beat: &str, step: &str) -> bool {
        let (before, after) = (self.votes(at, beat, ""), self.votes(at, beat, step));
        let most = |votes: (u64, u64)| votes.0.saturating_mul(2) > votes.1;
        !self.is_plain(at, beat) || (most(before) && most(after) && self.is_target(at, beat, step))
    }

    // A step is held for the voters that the text tells.
    fn may_hold(&self, at: &Served, beat: &str, held: &str) -> bool {
        let told = (number(held, 2), number(held, 4));
        let before = self.votes(at, beat, "");
        let most = before.0.saturating_mul(2) > before.1;
        let lawful = match word(held, 0) {
            "before" => told == before && !most,
            "after" => most && told.0.saturating_mul(2) <= told.1,
            "target" => told == before && most,
            _ => false,
        };
        !self.is_plain(at, beat) || lawful
    }

    // What an entry sends or holds it may send or hold.
    fn is_gated(&self, at: &Served<'a>) -> bool {
        let step = at.told.split_once("send ");
        let held = at.told.split_once("held ");
        let Some(beat) = self.looked_at(at) else {
            return step.is_none() && held.is_none();
        };
        match (step, held) {
            (Some((_, step)), None) => self.may_send(at, beat, step.trim_end_matches("\"}")),
            (None, Some((_, held))) => self.may_hold(at, beat, held.trim_end_matches("\"}")),
            (None, None) => true,
            _ => false,
        }
    }

    /// What the entries tell of regions is so by the heartbeats that stand.
    pub fn regions_are(&self) -> bool {
        for at in &self.served {
            let lawful = match at.head {
                "not-leading" => true,
                "patrol" => self.is_counted(at),
                _ if at.verb == "beat" => self.is_taken_in(at) && self.is_gated(at),
                _ => self.knows_region(at) && self.is_gated(at),
            };
            if !lawful {
                return false;
            }
        }
        true
    }
}
