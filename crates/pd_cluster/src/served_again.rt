// The journals that `run` prints, served once more: each cluster is asked what its entries were asked, in their order, and of the clusters
// the one that calls the metadata next. What a cluster replies is proved to be the first reply that applies, whatever plan, proposal, limit
// or report it tells of, so the same journals have to be printed.
use crate::ctl_tests::benches;
use crate::journal_reader::{number, word};
use crate::run_text::{put_journal, put_meta};
use meta_store::Meta;
use pd_script::{Act, Mode, Script, read_script};
use pd_state::Cluster;
use pd_types::{Actor, Duplicate, Request};
use sched_api::Bench;
use std::alloc::Global;
use std::test::Fail;

// The lines behind a head, which begin with their numbers.
fn lines_behind<'a>(alloc: Global, text: &'a str, head: &str) -> Result<Vec<&'a str>, Fail> {
    let mut lines = Vec::new(alloc);
    let mut is_behind = false;
    for line in text.lines() {
        if number(line, 0) == 0 {
            is_behind = line == head;
        } else if is_behind {
            lines.push(line)?;
        }
    }
    Ok(lines)
}

// The term that was won on a line.
fn won_on(text: &str, line: u64) -> u64 {
    let mut answers = text.lines().filter(|answer| number(answer, 0) == line
        && word(answer, 1) == "won");
    answers.next().map_or(0, |answer| number(answer, 3))
}

// What an entry of this line was asked.
fn request_on(alloc: Global, script: &Script, text: &str, line: u64) -> Result<Request, Fail> {
    let mut lines = script.lines.as_slice().iter();
    let Some(found) = lines.find(|one| u64::from(one.number) == line) else {
        return Err(Fail::new("an entry without a line"));
    };
    Ok(match &found.act {
        Act::Ask { request, .. } => request.value().copy(alloc)?,
        Act::Lead { now, .. } => Request::Term {
            term: won_on(text, line),
            moment: *now,
        },
        _ => Request::Retire,
    })
}

// A driver's cluster and bench, and what its journal has in the printed text.
#[derive(Drop)]
struct Side<'a> {
    cluster: Cluster,
    bench: Bench,
    entries: Vec<&'a str>,
}

/// The clusters of a run, from the first driver's on, and the metadata, as far as they were served once more.
#[derive(Drop)]
pub struct Again<'a> {
    alloc: Global,
    script: Script,
    text: &'a str,
    sides: Vec<Side<'a>>,
    meta: Meta,
}

impl<'a> Again<'a> {
    /// Nothing was served of the run of this script that printed this text.
    pub fn read(alloc: Global, script: &str, text: &'a str) -> Result<Again<'a>, Fail> {
        if script.len() > 1_000_000 {
            return Err(Fail::new("a long script"));
        }
        let Ok(script) = read_script(alloc, script.as_bytes(), Mode::Run) else {
            return Err(Fail::new("no script"));
        };
        let mut sides = Vec::new(alloc);
        let mut driver = 0u8;
        for bench in benches(alloc)? {
            driver = driver.saturating_add(1);
            if driver <= script.drivers {
                let head = format!(in alloc; "journal {driver}")?;
                sides.push(Side {
                    cluster: Cluster::new(alloc, driver),
                    bench,
                    entries: lines_behind(alloc, text, head.as_str())?,
                })?;
            }
        }
        let meta = Meta::new(alloc);
        Ok(Again {
            alloc,
            script,
            text,
            sides,
            meta,
        })
    }

    // Serves the next entry of a driver, where it has one.
    fn serve_next(&mut self, driver: u64) -> Result<(), Fail> {
        let place = driver.saturating_sub(1) as usize;
        let Some(side) = self.sides.get_mut(place) else {
            return Ok(());
        };
        let Some(entry) = side.entries.get(side.cluster.journal().len()) else {
            return Ok(());
        };
        let line = number(entry, 2);
        let request = request_on(self.alloc, &self.script, self.text, line)?;
        let (Ok(driver), Ok(line)) = (u8::try_from(driver), u32::try_from(line)) else {
            return Err(Fail::new("no entry"));
        };
        let actor = Actor::Driver(driver);
        side.cluster
            .serve(actor, line, request, &mut self.meta, &mut side.bench)?;
        Ok(())
    }

    // Serves the entries of a driver up to the one that calls the metadata at this place. Tells whether it is this driver that called.
    fn serve_to(&mut self, driver: u64, place: usize) -> Result<bool, Fail> {
        for _ in 0..self.script.lines.len() {
            if self.meta.journal().len() <= place {
                self.serve_next(driver)?;
            }
        }
        match self.meta.journal().get(place) {
            Some(made) => Ok(u64::from(made.driver) == driver),
            None => Err(Fail::new("a call that no entry makes")),
        }
    }

    /// Serves all entries. Tells whether that can be: no call of another driver stands between the calls of one entry.
    pub fn serve_all(&mut self) -> Result<bool, Fail> {
        let calls = lines_behind(self.alloc, self.text, "meta")?;
        for (place, call) in calls.iter().enumerate() {
            if !self.serve_to(number(call, 2), place)? {
                return Ok(false);
            }
        }
        for driver in 1..8 {
            for _ in 0..self.script.lines.len() {
                self.serve_next(driver)?;
            }
        }
        Ok(true)
    }

    /// Whether the text has these journals.
    pub fn is_printed(&self) -> Result<bool, Fail> {
        let mut text = String::new(self.alloc);
        for (place, side) in self.sides.iter().enumerate() {
            put_journal(&mut text, place as u64 + 1, &side.cluster)?;
        }
        put_meta(&mut text, self.meta.journal())?;
        let (_, printed) = self.text.split_once("journal 1\n").unwrap_or(("", ""));
        let (printed, _) = printed.split_once("post\n").unwrap_or(("", ""));
        Ok(text.as_str().strip_prefix("journal 1\n") == Some(printed))
    }
}
