// A reader of what `run` prints, which says whether it is the text of a lawful run of a script. It knows the rules in plain words, and
// nothing of the program.
use crate::journal_reader::{Journals, behind};
use std::alloc::{AllocError, AllocFailed, Global};

/// Why a text isn't read.
#[derive(Debug, Drop)]
pub struct Unread(pub &'static str);

impl From<AllocError> for Unread {
    fn from(_: AllocError) -> Self {
        Unread("out of memory")
    }
}

impl<T: Drop> From<AllocFailed<T>> for Unread {
    fn from(_: AllocFailed<T>) -> Self {
        Unread("out of memory")
    }
}

/// Timestamps of a millisecond.
pub const MS: u64 = 262_144;

/// What tells that a command of pd-ctl gave the driver's term up.
pub const RESIGNED: &str = "{\"done\":\"Resigned\"}";

/// The first word of a line that is no number, and its numbers.
#[derive(Drop)]
pub struct Words<'a> {
    pub word: &'a str,
    numbers: Vec<u64>,
}

impl<'a> Words<'a> {
    fn of(alloc: Global, line: &'a str) -> Result<Words<'a>, Unread> {
        let mut numbers = Vec::new(alloc);
        for word in line.split(' ') {
            if let Ok(number) = word.parse::<u64>() {
                numbers.push(number)?;
            }
        }
        let mut others = line.split(' ').filter(|word| word.parse::<u64>().is_err());
        Ok(Words {
            word: others.next().unwrap_or(""),
            numbers,
        })
    }

    /// The number at a place, 0 where there is none.
    pub fn at(&self, place: usize) -> u64 {
        self.numbers.get(place).copied().unwrap_or(0)
    }
}

/// An answer with its line of the script, the driver whose oracle or cluster is asked by a driver or a store, what is told behind the
/// line's number, and the pair of term and timestamp that a client had seen before it.
#[derive(Drop)]
pub struct Answer<'a> {
    pub section: u8,
    pub actor: u64,
    pub line: u64,
    pub driver: u64,
    pub request: &'a str,
    pub asked: Words<'a>,
    pub said: Words<'a>,
    pub text: &'a str,
    seen: (u64, u64),
}

// The sections, in their order.
const WINDOWS: u8 = 0;

pub const DRIVERS: u8 = 1;

pub const CLIENTS: u8 = 2;

pub const STORES: u8 = 3;

const JOURNALS: u8 = 4;

const META: u8 = 5;

const POST: u8 = 6;

impl<'a> Answer<'a> {
    /// The driver's oracle is asked, and not its cluster.
    pub fn is_oracle(&self) -> bool {
        self.section == DRIVERS && matches!(self.asked.word, "lead" | "tick" | "resign")
    }

    /// The count of a draw at this driver that was answered `got` or `again`, else 0.
    pub fn drawn_at(&self, driver: u64) -> u64 {
        let drew = self.said.word == "got" || self.said.word == "again";
        if drew && self.asked.at(1) == driver {
            self.asked.at(2)
        } else {
            0
        }
    }

    /// Where it says that its driver's cursor was raised to, else 0.
    pub fn start(&self) -> u64 {
        match self.said.word {
            "won" => self.said.at(2).saturating_mul(MS),
            "moved" => self.said.at(1).saturating_mul(MS),
            _ => 0,
        }
    }

    // The pair that the client has seen after it: that of a batch or a note, if that is greater.
    fn seen_after(&self) -> (u64, u64) {
        let shown = match self.said.word {
            "got" => (self.said.at(1), self.said.at(4)),
            "heard" => (self.said.at(1), self.said.at(2)),
            _ => (0, 0),
        };
        let seen = self.seen;
        if shown.0 > seen.0 || (shown.0 == seen.0 && shown.1 > seen.1) {
            shown
        } else {
            seen
        }
    }
}

// An entry of the post, `N line L WHAT`, with its WHAT.
#[derive(Drop)]
struct Entry<'a> {
    words: Words<'a>,
    what: &'a str,
}

/// What was printed: `window T D LO HI` for each window, the answers, the journals of the clusters and of the metadata, and the post;
/// with the opening cell's term and saved time.
#[derive(Drop)]
pub struct Printed<'a> {
    pub opened: (u64, u64),
    pub windows: Vec<Words<'a>>,
    pub answers: Vec<Answer<'a>>,
    journals: Journals<'a>,
    post: Vec<Entry<'a>>,
}

// The section that a head begins.
fn section(word: &str) -> Option<u8> {
    match word {
        "driver" => Some(DRIVERS),
        "client" => Some(CLIENTS),
        "store" => Some(STORES),
        "journal" => Some(JOURNALS),
        "meta" => Some(META),
        "post" => Some(POST),
        _ => None,
    }
}

// A head may stand behind another one: sections in their order, drivers, clients and stores by rising numbers, and a journal for each
// driver from the first one on.
fn may_follow(before: (u8, u64), head: (u8, u64)) -> bool {
    match head.0 {
        JOURNALS if before.0 != JOURNALS => head.1 == 1,
        JOURNALS => head.1 == before.1.saturating_add(1),
        META => before.0 == JOURNALS,
        POST => before.0 == META,
        _ => before < head,
    }
}

// The section in which a line of the script is answered.
fn section_of(word: &str) -> u8 {
    match word {
        "take" | "tell" | "hear" => CLIENTS,
        "hello" | "alive" | "beat" | "pop" => STORES,
        _ => DRIVERS,
    }
}

// The driver that a line names, 0 where it names none.
fn named(asked: &Words) -> u64 {
    match asked.word {
        "tell" | "hear" => 0,
        word if section_of(word) == DRIVERS => asked.at(0),
        _ => asked.at(1),
    }
}

// The term and the saved time of the opening cell.
fn opening(alloc: Global, script: &str) -> Result<(u64, u64), Unread> {
    let first = Words::of(alloc, script.lines().next().unwrap_or(""))?;
    if first.word == "cell" {
        Ok((first.at(1), first.at(0)))
    } else {
        Ok((0, 0))
    }
}

// How many lines have an answer.
fn answered(script: &str) -> usize {
    script
        .lines()
        .filter(|line| !line.starts_with("cell"))
        .count()
}

// The answer on this line, whose actor's last one is given.
fn read_answer<'a>(
    alloc: Global,
    script: &'a str,
    line: &'a str,
    head: (u8, u64),
    last: Option<&Answer<'a>>,
) -> Result<Answer<'a>, Unread> {
    let said = Words::of(alloc, line)?;
    let (section, actor) = head;
    let number = said.at(0);
    let Some(request) = script.lines().nth(number.saturating_sub(1) as usize) else {
        return Err(Unread("no such line"));
    };
    let asked = Words::of(alloc, request)?;
    if asked.at(0) != actor || section_of(asked.word) != section {
        return Err(Unread("another's line"));
    }
    let mut seen = (0, 0);
    if let Some(last) = last {
        if last.section == section && last.actor == actor {
            if last.line >= number {
                return Err(Unread("lines out of order"));
            }
            seen = last.seen_after();
        }
    }
    let driver = if section == CLIENTS { 0 } else { named(&asked) };
    Ok(Answer {
        section,
        actor,
        line: number,
        driver,
        request,
        asked,
        said,
        text: behind(line, 1),
        seen,
    })
}

impl<'a> Printed<'a> {
    /// Reads the sections in their order, each line of the script once, in its actor's section.
    pub fn read(alloc: Global, script: &'a str, text: &'a str) -> Result<Printed<'a>, Unread> {
        let mut printed = Printed {
            opened: opening(alloc, script)?,
            windows: Vec::new(alloc),
            answers: Vec::new(alloc),
            journals: Journals::new(alloc),
            post: Vec::new(alloc),
        };
        let mut head = (WINDOWS, 0);
        let mut journals = 0;
        for line in text.lines() {
            let words = Words::of(alloc, line)?;
            let next = section(words.word).filter(|_| line.starts_with(words.word));
            if let Some(next) = next {
                let next = (next, words.at(0));
                if !may_follow(head, next) {
                    return Err(Unread("sections out of order"));
                }
                head = next;
                if head.0 == JOURNALS {
                    journals = head.1;
                }
            } else {
                printed.read_line(alloc, script, line, head)?;
            }
        }
        let drivers = printed.answers.iter().map(|one| named(&one.asked)).max();
        if printed.answers.len() != answered(script) || head.0 != POST {
            return Err(Unread("a line or a section is missing"));
        }
        if journals != drivers.unwrap_or(1).max(1) {
            return Err(Unread("a driver without a journal"));
        }
        Ok(printed)
    }

    // Reads a line behind this head.
    fn read_line(
        &mut self,
        alloc: Global,
        script: &'a str,
        line: &'a str,
        head: (u8, u64),
    ) -> Result<(), Unread> {
        match head.0 {
            WINDOWS => self.windows.push(Words::of(alloc, line)?)?,
            JOURNALS => {
                let answers = self.answers.as_slice();
                self.journals.read_entry(head.1, line, answers)?;
            }
            META => self.journals.read_call(line)?,
            POST => {
                let words = Words::of(alloc, line)?;
                let what = line.split(' ').nth(3).unwrap_or("");
                self.post.push(Entry { words, what })?;
            }
            _ => {
                let one = read_answer(alloc, script, line, head, self.answers.last())?;
                self.answers.push(one)?;
            }
        }
        Ok(())
    }

    // A batch: the count and the driver that were asked for, inside a window and one millisecond, and above
    // what was seen.
    fn got(&self, one: &Answer) -> bool {
        let (term, driver) = (one.said.at(1), one.said.at(2));
        let (first, last) = (one.said.at(3), one.said.at(4));
        let asked = driver == one.asked.at(1)
            && last.saturating_sub(first).saturating_add(1) == one.asked.at(2);
        let inside = self.windows.iter().any(|w| {
            let (lo, hi) = (w.at(2).saturating_mul(MS), w.at(3).saturating_mul(MS));
            w.at(0) == term && w.at(1) == driver && lo < first && last < hi
        });
        let short = first <= last && first / MS == last / MS;
        asked && inside && short && term >= one.seen.0 && first > one.seen.1
    }

    // A start of the driver, in the window from `lo` on or a later one, that explains the cursor `at`.
    fn has_start(&self, driver: u64, lo: u64, at: u64, drawn: u64) -> bool {
        self.answers.iter().any(|one| {
            let start = one.start();
            let own = one.section == DRIVERS && one.actor == driver && start > 0;
            own && lo.saturating_mul(MS) <= start
                && start <= at
                && at <= start.saturating_add(drawn)
        })
    }

    // `again`: the count passes an end that the driver's answers gave.
    fn again(&self, one: &Answer) -> bool {
        let (at, hi, n) = (one.said.at(1), one.said.at(2), one.said.at(3));
        let past = at.saturating_add(n) >= hi.saturating_mul(MS)
            || (at % MS).saturating_add(n) >= MS;
        let driver = one.asked.at(1);
        let drawn = self.drawn(driver, one.actor, one.line);
        let mut lo = 0;
        for other in &self.answers {
            if other.section != DRIVERS || other.actor != driver {
                continue;
            }
            let end = match other.said.word {
                "won" => other.said.at(3),
                "moved" => other.said.at(2),
                _ => 0,
            };
            if other.said.word == "won" {
                lo = other.said.at(2);
            }
            if end == hi && self.has_start(driver, lo, at, drawn) {
                return past && n == one.asked.at(2);
            }
        }
        false
    }

    // Where the seen term is the driver's, it gave a term up.
    fn no_leader(&self, one: &Answer) -> bool {
        let driver = one.asked.at(1);
        let led = self
            .windows
            .iter()
            .any(|w| w.at(0) == one.seen.0 && w.at(1) == driver);
        let gave_up = self.answers.iter().any(|other| {
            let word = other.said.word;
            let own = other.section == DRIVERS && other.actor == driver;
            own && matches!(word, "lost" | "resigned" | RESIGNED)
        });
        !led || gave_up
    }

    // A client's answer.
    fn draws(&self, one: &Answer) -> bool {
        let earlier = |w: &Words| w.at(1) == one.asked.at(1) && w.at(0) < one.seen.0;
        match (one.asked.word, one.said.word) {
            ("take", "got") => self.got(one),
            ("take", "again") => self.again(one),
            ("take", "stale") => {
                one.said.at(1) == one.seen.0 && self.windows.iter().any(earlier)
            }
            ("take", "not-leader") => self.no_leader(one),
            ("tell", "told") => true,
            ("hear", "heard" | "nothing") => true,
            _ => false,
        }
    }

    // Of any two batches one lies below the other, by term and timestamp.
    fn apart(&self) -> bool {
        let below = |a: &Answer, b: &Answer| a.said.at(1) <= b.said.at(1)
            && a.said.at(4) < b.said.at(3);
        for (place, one) in self.answers.iter().enumerate() {
            for other in self.answers.iter().skip(place).skip(1) {
                let both = one.said.word == "got" && other.said.word == "got";
                if both && !below(one, other) && !below(other, one) {
                    return false;
                }
            }
        }
        true
    }

    // The place of the oldest note for a client among the first entries that no entry before heard.
    fn oldest(&self, client: u64, before: usize) -> Option<(u64, u64)> {
        let mut heard = 0usize;
        for entry in self.post.iter().take(before) {
            let line = entry.words.at(1);
            let own = self
                .answers
                .iter()
                .any(|one| one.line == line && one.actor == client);
            if own && entry.what == "heard" {
                heard = heard.saturating_add(1);
            }
        }
        for entry in self.post.iter().take(before) {
            let line = entry.words.at(1);
            for one in &self.answers {
                if one.line != line || entry.what != "told" || one.asked.at(1) != client {
                    continue;
                }
                if heard == 0 {
                    return Some(one.seen);
                }
                heard = heard.saturating_sub(1);
            }
        }
        None
    }

    // An entry of the post: it is the answer on its line, and a note that is heard is the oldest one.
    fn posted(&self, place: usize, entry: &Entry) -> bool {
        let line = entry.words.at(1);
        let Some(one) = self.answers.iter().find(|one| one.line == line) else {
            return false;
        };
        let oldest = self.oldest(one.actor, place);
        let heard = (entry.words.at(2), entry.words.at(3));
        let first = match entry.what {
            "told" => true,
            "heard" => oldest == Some(heard) && heard == (one.said.at(1), one.said.at(2)),
            "nothing" => oldest.is_none(),
            _ => false,
        };
        first
            && one.said.word == entry.what
            && entry.words.at(0) as usize == place.saturating_add(1)
    }

    // The post has each client's answers to its lines `tell` and `hear`, in their order.
    fn post_keeps(&self) -> bool {
        let mut entries = 0usize;
        for (place, entry) in self.post.iter().enumerate() {
            if !self.posted(place, entry) {
                return false;
            }
            for other in self.post.iter().take(place) {
                let (line, before) = (entry.words.at(1), other.words.at(1));
                let actor = |line: u64| self
                    .answers
                    .iter()
                    .find(|one| one.line == line)
                    .map(|one| one.actor);
                if before >= line && actor(line) == actor(before) {
                    return false;
                }
            }
        }
        for one in &self.answers {
            if one.asked.word == "tell" || one.asked.word == "hear" {
                entries = entries.saturating_add(1);
            }
        }
        entries == self.post.len()
    }

    /// Whether all of it is that of a lawful run.
    pub fn is_lawful(&self, alloc: Global) -> Result<bool, Unread> {
        for one in &self.answers {
            if one.section == DRIVERS && !self.drives(one.actor) {
                return Ok(false);
            }
            if one.section == CLIENTS && !self.draws(one) {
                return Ok(false);
            }
        }
        let told = self.windows_follow() && self.apart() && self.post_keeps();
        Ok(told && self.journals.are_lawful(alloc, self.answers.as_slice())?)
    }
}
