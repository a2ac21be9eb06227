// A reader of the drivers' answers of the oracle that `run` prints, and of their windows. It knows the rules in plain words, and nothing of
// the program.
use crate::run_reader::{Answer, CLIENTS, DRIVERS, MS, Printed, RESIGNED, Words};

// The greatest term.
const LAST_TERM: u64 = 262_143;

// The first millisecond that no window reaches.
const CLOCK_END: u64 = 35_184_372_088_832;

// What a driver's answers so far tell: whether it holds a term, the end of its window, its greatest start, and its greatest term or the opening one.
#[derive(Drop)]
struct Driven {
    holds: bool,
    hi: u64,
    start: u64,
    term: u64,
}

impl Driven {
    // Takes the next answer in.
    fn go_on(&mut self, one: &Answer) {
        self.start = self.start.max(one.start());
        match one.said.word {
            "won" => {
                self.holds = true;
                self.hi = one.said.at(3);
                self.term = one.said.at(1);
            }
            "moved" => self.hi = one.said.at(2),
            "lost" | "resigned" | RESIGNED => self.holds = false,
            _ => {}
        }
    }
}

impl<'a> Printed<'a> {
    // The last end of a driver's term that its answers tell, 0 where none does.
    fn told_end(&self, driver: u64, term: u64) -> u64 {
        let (mut holds, mut end) = (false, 0);
        for one in &self.answers {
            if one.section != DRIVERS || one.actor != driver {
                continue;
            }
            match one.said.word {
                "won" => {
                    holds = one.said.at(1) == term;
                    if holds {
                        end = one.said.at(3);
                    }
                }
                "moved" if holds => end = one.said.at(2),
                _ => {}
            }
        }
        end
    }

    /// The windows follow one another, each of a later term and behind the end of the one before, and
    /// each ends where its driver's answers tell.
    pub fn windows_follow(&self) -> bool {
        let mut before = self.opened;
        for window in &self.windows {
            let (term, lo, hi) = (window.at(0), window.at(2), window.at(3));
            let told = self.told_end(window.at(1), term);
            if term <= before.0 || lo < before.1 || hi <= lo || hi != told {
                return false;
            }
            before = (term, hi);
        }
        true
    }

    // A lead that won: its window begins by the moment and the end of the one before, and ends there or later.
    fn won(&self, one: &Answer) -> bool {
        let (now, term) = (one.asked.at(1), one.said.at(1));
        let (lo, hi) = (one.said.at(2), one.said.at(3));
        let mut end = self.opened.1;
        for window in &self.windows {
            if window.at(0) == term {
                let own = window.at(1) == one.actor && window.at(2) == lo && hi <= window.at(3);
                let next = now.max(end.saturating_add(1));
                return own && lo == next && hi == next.saturating_add(3000);
            }
            end = window.at(3);
        }
        false
    }

    /// The counts of all draws at a driver, but for those of this client from this line on.
    pub fn drawn(&self, driver: u64, client: u64, line: u64) -> u64 {
        let mut sum = 0u64;
        for one in &self.answers {
            if one.section == CLIENTS && (one.actor != client || one.line < line) {
                sum = sum.saturating_add(one.drawn_at(driver));
            }
        }
        sum
    }

    // A tick: what its plan says of some cursor from the driver's greatest start on. The plan changes with a millisecond and with its
    // second half.
    fn ticked(&self, one: &Answer, so_far: &Driven) -> bool {
        let (hi, start) = (so_far.hi, so_far.start);
        let last = start.saturating_add(self.drawn(one.actor, 0, 0));
        let said = (one.said.word, one.said.at(1), one.said.at(2));
        if tick(one.asked.at(1), hi, start) == said {
            return true;
        }
        for ms in start / MS..=last / MS {
            let begin = ms.saturating_mul(MS);
            for cursor in [begin, begin.saturating_add(131_073)] {
                let there = start <= cursor && cursor <= last;
                if there && tick(one.asked.at(1), hi, cursor) == said {
                    return true;
                }
            }
        }
        false
    }

    // The term that was found is above those of the driver and the opening one, and another driver claimed it: one with a window of it, or one whose lead
    // was lost in between.
    fn found(&self, one: &Answer, known: u64) -> bool {
        let term = one.said.at(2);
        let opened = |w: &Words| w.at(0) == term && w.at(1) != one.actor;
        let between = |other: &Answer| {
            let lost = other.asked.word == "lead" && other.said.word == "lost";
            lost && other.actor != one.actor
        };
        let own = |w: &Words| w.at(0) == term && w.at(1) == one.actor;
        term > known
            && !self.windows.iter().any(own)
            && (self.windows.iter().any(opened) || self.answers.iter().any(between))
    }

    // The moment or the end of a window is so late that no window of 3 seconds fits behind it.
    fn is_past(&self, one: &Answer) -> bool {
        let late = |ms: u64| ms.saturating_add(3001) >= CLOCK_END;
        late(one.asked.at(1).saturating_sub(1))
            || late(self.opened.1)
            || self.windows.iter().any(|w| late(w.at(3)))
    }

    // The last term of all was claimed.
    fn are_spent(&self) -> bool {
        self.opened.0 == LAST_TERM || self.windows.iter().any(|w| w.at(0) == LAST_TERM)
    }

    // A driver's next answer, behind what its answers so far tell.
    fn is_driven(&self, one: &Answer, so_far: &Driven) -> bool {
        let holds = so_far.holds;
        match (one.asked.word, one.said.word) {
            ("lead", "won") => one.said.at(1) > so_far.term && self.won(one),
            ("lead", "beaten" | "lost") => self.found(one, so_far.term),
            ("lead", "clock-range") => self.is_past(one),
            ("lead", "terms-spent") => self.are_spent(),
            ("tick", "moved" | "idle" | "clock-range") => holds && self.ticked(one, so_far),
            ("tick", "lost") => holds && self.found(one, so_far.term),
            ("resign", "resigned") => holds,
            ("tick" | "resign", "not-leading") => !holds,
            (_, RESIGNED) => holds,
            _ => !one.is_oracle(),
        }
    }

    /// A driver's answers, one after the other.
    pub fn drives(&self, driver: u64) -> bool {
        let mut so_far = Driven {
            holds: false,
            hi: 0,
            start: 0,
            term: self.opened.0,
        };
        for one in &self.answers {
            if one.section != DRIVERS || one.actor != driver {
                continue;
            }
            if !self.is_driven(one, &so_far) {
                return false;
            }
            so_far.go_on(one);
        }
        true
    }
}

// What a tick at this moment answers, over the end of the window and the cursor.
fn tick(now: u64, hi: u64, cursor: u64) -> (&'static str, u64, u64) {
    let ms = cursor / MS;
    let next = if now > ms.saturating_add(1) {
        now
    } else if cursor % MS > 131_072 || ms >= hi {
        ms.saturating_add(1)
    } else {
        return ("idle", 0, 0);
    };
    if hi > next.saturating_add(1) {
        ("moved", next, hi)
    } else if next.saturating_add(3000) < CLOCK_END {
        ("moved", next, next.saturating_add(3000))
    } else {
        ("clock-range", 0, 0)
    }
}
