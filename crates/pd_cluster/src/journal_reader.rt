// A reader of the journals that `run` prints, entry by entry. Beside it stand the readers of the metadata's calls, of the regions, of the
// steps and of the schedulers' turns. They know the rules in plain words, and nothing of the program.
use crate::record_reader::Call;
use crate::run_reader::{Answer, CLIENTS, RESIGNED, Unread};
use std::alloc::Global;

/// The word at a place of a line.
pub fn word(line: &str, place: usize) -> &str {
    line.split(' ')
        .filter(|word| !word.is_empty())
        .nth(place)
        .unwrap_or("")
}

/// The number at a place of a line, 0 where none stands there.
pub fn number(line: &str, place: usize) -> u64 {
    word(line, place).parse::<u64>().unwrap_or(0)
}

/// What stands behind so many words of a line.
pub fn behind(line: &str, words: u32) -> &str {
    let mut rest = line;
    for _ in 0..words {
        rest = match rest.split_once(' ') {
            Some((_, rest)) => rest,
            None => "",
        };
    }
    rest
}

/// The text of the fault that a command of pd-ctl answers.
pub fn fault(told: &str) -> Option<&str> {
    let rest = told.strip_prefix("{\"fault\":\"")?;
    Some(rest.trim_end_matches("\"}"))
}

/// An entry of a cluster's journal, with its place from 1 on, what it tells and the first word of that, and its request, of which there are the
/// first word, the moment and the region. `won` is the term that was won on its line, and `term` the one that the cluster has behind the
/// entry. What there is none of is 0.
#[derive(Drop)]
pub struct Served<'a> {
    pub driver: u64,
    pub place: u64,
    pub line: u64,
    pub told: &'a str,
    pub head: &'a str,
    pub request: &'a str,
    pub verb: &'a str,
    pub moment: u64,
    pub region: u64,
    pub won: u64,
    pub term: u64,
}

impl<'a> Served<'a> {
    /// A command of pd-ctl of these words.
    pub fn is_command(&self, first: &str, second: &str) -> bool {
        self.verb == "ctl" && word(self.request, 3) == first && word(self.request, 4) == second
    }

    /// A command of pd-ctl that isn't read.
    pub fn is_unread(&self) -> bool {
        let why = fault(self.told).unwrap_or("");
        matches!(
            why,
            "unknown" | "bad-number" | "missing-word" | "extra-word"
        )
    }

    /// It stands in the same journal and term before another entry.
    pub fn is_before(&self, other: &Served) -> bool {
        self.driver == other.driver && self.term == other.term && self.place < other.place
    }
}

// The term that a cluster has behind an entry, from the one before it and the one that was won on its line.
fn term_behind(told: &str, won: u64, before: u64) -> u64 {
    match word(told, 0) {
        "term" => number(told, 1),
        "retired" | RESIGNED => 0,
        _ if won > 0 => 0,
        _ => before,
    }
}

// The moment of a request.
fn moment_of(request: &str) -> u64 {
    match word(request, 0) {
        "hello" | "alive" | "beat" => number(request, 3),
        _ => number(request, 2),
    }
}

// The region that a request, or the proposal that was told of it, is about.
fn region_of(request: &str, told: &str) -> u64 {
    match word(request, 0) {
        "beat" => number(request, 4),
        "check" => number(request, 3),
        "schedule" => number(told, 4),
        "ctl" if word(request, 3) == "operator" && word(request, 4) == "add" => number(request, 6),
        "ctl" if word(request, 3) == "operator" => number(request, 5),
        "ctl" if word(request, 3) == "region" => number(request, 4),
        _ => 0,
    }
}

// The line makes an entry: a request to a cluster, and a term that begins or ends.
fn makes_entry(one: &Answer) -> bool {
    if one.is_oracle() {
        matches!(one.said.word, "won" | "lost" | "resigned")
    } else {
        one.section != CLIENTS && one.asked.word != "pop"
    }
}

// The entry is the one of this answer's line: it tells the same, or that a term began or ended.
fn is_made(one: &Answer, entry: &Served) -> bool {
    let told = word(entry.told, 0);
    let made = if !one.is_oracle() {
        entry.told == one.text
    } else if one.said.word == "won" {
        told == "old-term" || (told == "term" && number(entry.told, 1) == number(one.text, 2))
    } else {
        told == "retired" || told == "not-leading"
    };
    made && entry.driver == one.driver
}

// Who acts in a line.
fn actor_at(answers: &[Answer], line: u64) -> Option<(u8, u64)> {
    let one = answers.iter().find(|one| one.line == line)?;
    Some((one.section, one.actor))
}

/// The journals of the clusters, from the first driver's on, and that of the metadata.
#[derive(Drop)]
pub struct Journals<'a> {
    pub served: Vec<Served<'a>>,
    pub calls: Vec<Call<'a>>,
}

impl<'a> Journals<'a> {
    /// No entries and no calls.
    pub fn new(alloc: Global) -> Journals<'a> {
        Journals {
            served: Vec::new(alloc),
            calls: Vec::new(alloc),
        }
    }

    /// Reads `N line L ANSWER`, where N is the next of the driver's, on one of the lines with these answers.
    pub fn read_entry(
        &mut self,
        driver: u64,
        line: &'a str,
        answers: &[Answer<'a>],
    ) -> Result<(), Unread> {
        let own = self.served.iter().filter(|entry| entry.driver == driver);
        let (before, term) = match own.last() {
            Some(entry) => (entry.place, entry.term),
            None => (0, 0),
        };
        let (place, told) = (number(line, 0), behind(line, 3));
        if place != before.saturating_add(1) || word(line, 1) != "line" {
            return Err(Unread("no entry, or out of order"));
        }
        let Some(one) = answers.iter().find(|one| one.line == number(line, 2)) else {
            return Err(Unread("an entry without a line"));
        };
        let won = if one.said.word == "won" {
            one.said.at(1)
        } else {
            0
        };
        self.served.push(Served {
            driver,
            place,
            line: one.line,
            told,
            head: word(told, 0),
            request: one.request,
            verb: word(one.request, 0),
            moment: moment_of(one.request),
            region: region_of(one.request, told),
            won,
            term: term_behind(told, won, term),
        })?;
        Ok(())
    }

    // Each line has the entries that it has to have, and there are no others.
    fn entries_are(&self, answers: &[Answer]) -> bool {
        let mut made = 0usize;
        for one in answers {
            let mut entries = self.served.iter().filter(|entry| entry.line == one.line);
            let fits = match (entries.next(), entries.next()) {
                (None, None) => !makes_entry(one),
                (Some(entry), None) => makes_entry(one) && is_made(one, entry),
                _ => false,
            };
            if !fits {
                return false;
            }
            if makes_entry(one) {
                made = made.saturating_add(1);
            }
        }
        made == self.served.len()
    }

    // In each journal the entries of an actor stand in the order of its lines.
    fn are_in_order(&self, answers: &[Answer]) -> bool {
        for (place, entry) in self.served.iter().enumerate() {
            for before in self.served.iter().take(place) {
                let turned = before.driver == entry.driver && before.line >= entry.line;
                if turned && actor_at(answers, before.line) == actor_at(answers, entry.line) {
                    return false;
                }
            }
        }
        true
    }

    // A cluster answers `not-leading` exactly where it has no term: from its begin until it is lost or given up.
    fn have_terms(&self) -> bool {
        let mut leads = false;
        for entry in &self.served {
            leads = leads && entry.place > 1;
            if entry.won == 0 && leads == (entry.head == "not-leading") {
                return false;
            }
            leads = entry.term > 0;
        }
        true
    }

    /// Whether they are those of a run with these answers.
    pub fn are_lawful(&self, alloc: Global, answers: &[Answer]) -> Result<bool, Unread> {
        let told = self.entries_are(answers)
            && self.are_in_order(answers)
            && self.have_terms()
            && self.replies_are()
            && self.calls_are()
            && self.regions_are()
            && self.operators_are()
            && self.turns_are()
            && self.pops_are(answers);
        Ok(told && self.are_written(alloc)? && self.none_is_left_out(alloc, answers)?)
    }
}
