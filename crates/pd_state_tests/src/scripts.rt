// Clusters in scripts: a line is a request or a word about the scene, and behind ` => ` stands what it
// is answered.
use meta_store::{MOST_ENTRIES, Meta, MetaCall, MetaEntry, MetaFault};
use pd_state::{Cluster, Reply};
use pd_types::{
    Actor, Bytes, Downs, Epoch, Ids, Label, Labels, NoMemory, Peer, Peers, Region, RegionBeat,
    Request, Role, StepMsg, Text,
};
use sched_api::Bench;
use std::alloc::Global;
use std::mem;
use std::process::Abort;
use std::test::Fail;

// The number that a word spells, or 0.
fn number(word: Option<&str>) -> u64 {
    word.unwrap_or("").parse().unwrap_or(0)
}

/// A text of a word.
pub fn text(alloc: Global, word: &str) -> Result<Text, NoMemory> {
    Ok(Text::of(String::from_str(alloc, word)?))
}

// The key that a word spells in hexadecimal; `-` is the empty one.
fn key(alloc: Global, word: Option<&str>) -> Result<Bytes, NoMemory> {
    let found = pd_lines::key(alloc, word.unwrap_or("-").as_bytes())?;
    Ok(found.unwrap_or(Bytes::new(alloc)))
}

// The peer that a word `id:store:role` stands for.
fn peer(word: &str) -> Peer {
    let mut parts = word.split(':');
    let id = number(parts.next());
    let store = number(parts.next());
    let role = match parts.next() {
        Some("l") => Role::Learner,
        _ => Role::Voter,
    };
    Peer { id, store, role }
}

// `beat NOW R START END CONF VER LEADER [PEERS [pending=PEER]]`, as a store reports a region; without
// PEERS it has the peer 11 on store 1 alone.
fn beat(alloc: Global, rest: &str) -> Result<Request, NoMemory> {
    let mut words = rest.split(' ');
    let moment = number(words.next());
    let id = number(words.next());
    let start = key(alloc, words.next())?;
    let end = key(alloc, words.next())?;
    let conf_ver = number(words.next());
    let version = number(words.next());
    let leader = number(words.next());
    let mut peers = Peers::new(alloc);
    for word in words.next().unwrap_or("11:1:v").split(',') {
        peers.push(peer(word))?;
    }
    let mut pending = Ids::new(alloc);
    if let Some(word) = words.next() {
        pending.push(number(word.strip_prefix("pending=")))?;
    }
    let epoch = Epoch { conf_ver, version };
    let region = Region {
        id,
        start,
        end,
        epoch,
        peers,
    };
    let beat = RegionBeat {
        region,
        leader,
        down: Downs::new(alloc),
        pending,
    };
    Ok(Request::Beat {
        store: 1,
        moment,
        beat,
    })
}

// `hello S NOW [ADDRESS [zone=VALUE]]`.
fn hello(alloc: Global, rest: &str) -> Result<Request, NoMemory> {
    let mut words = rest.split(' ');
    let store = number(words.next());
    let moment = number(words.next());
    let address = text(alloc, words.next().unwrap_or("a"))?;
    let mut labels = Labels::new(alloc);
    if let Some((key, value)) = words.next().unwrap_or("").split_once('=') {
        labels.push(Label {
            key: text(alloc, key)?,
            value: text(alloc, value)?,
        })?;
    }
    Ok(Request::Hello {
        store,
        moment,
        address,
        labels,
    })
}

// `rule NOW JSON`.
fn rule(alloc: Global, rest: &str) -> Result<Request, NoMemory> {
    let (moment, json) = rest.split_once(' ').unwrap_or((rest, ""));
    Ok(Request::Rule {
        moment: number(Some(moment)),
        json: Bytes::of(Vec::from_slice(alloc, json.as_bytes())?),
    })
}

// `ctl NOW WORDS`.
fn ctl(alloc: Global, rest: &str) -> Result<Request, NoMemory> {
    let (moment, words) = rest.split_once(' ').unwrap_or((rest, ""));
    Ok(Request::Ctl {
        moment: number(Some(moment)),
        words: Bytes::of(Vec::from_slice(alloc, words.as_bytes())?),
    })
}

// The request of two numbers, the moment and another one; of `unrule` the id of a rule of group `pd`.
fn small(alloc: Global, kind: &str, rest: &str) -> Result<Request, NoMemory> {
    let (first, second) = rest.split_once(' ').unwrap_or((rest, ""));
    let moment = number(Some(first));
    let other = number(Some(second));
    Ok(match kind {
        "term" => Request::Term {
            term: moment,
            moment: other,
        },
        "alive" => Request::Alive {
            store: moment,
            moment: other,
        },
        "check" => Request::Check {
            moment,
            region: other,
        },
        "patrol" => Request::Patrol { moment, workers: 1 },
        "unrule" => Request::Unrule {
            moment,
            group: text(alloc, "pd")?,
            id: text(alloc, second)?,
        },
        _ => Request::Retire,
    })
}

/// The request that a line stands for.
pub fn request(alloc: Global, line: &str) -> Result<Request, NoMemory> {
    let (kind, rest) = line.split_once(' ').unwrap_or((line, ""));
    match kind {
        "beat" => beat(alloc, rest),
        "hello" => hello(alloc, rest),
        "rule" => rule(alloc, rest),
        "schedule" => Ok(Request::Schedule {
            moment: number(Some(rest)),
        }),
        "ctl" => ctl(alloc, rest),
        _ => small(alloc, kind, rest),
    }
}

// A driver's call of the metadata.
fn put_call(text: &mut String, entry: &MetaEntry) -> Result<(), Fail> {
    let MetaEntry {
        driver,
        verdict,
        ..
    } = entry;
    match &entry.call {
        MetaCall::Lead { term } => write!(text, "({driver} lead {term})")?,
        MetaCall::Put { key, expected, .. } => {
            let key = str::from_utf8(key.as_slice()).unwrap_or("");
            write!(text, "({driver} put {key} {expected} {verdict:?})")?;
        }
        MetaCall::Delete { key, expected, .. } => {
            let key = str::from_utf8(key.as_slice()).unwrap_or("");
            write!(text, "({driver} delete {key} {expected} {verdict:?})")?;
        }
    }
    Ok(())
}

// A message: from whose cluster to which store, and what stands in it.
fn put_message(text: &mut String, message: &StepMsg) -> Result<(), Fail> {
    let StepMsg {
        driver,
        term,
        entry,
        region,
        to,
        step,
    } = *message;
    write!(
        text,
        "({driver} to {to} term {term} entry {entry} region {region} {step})"
    )?;
    Ok(())
}

/// A cluster of driver 1, one of driver 2 that waits, their metadata and a bench, which is empty at first.
#[derive(Drop)]
pub struct Scene {
    pub cluster: Cluster,
    other: Cluster,
    pub meta: Meta,
    pub bench: Bench,
}

impl Scene {
    /// With an empty bench.
    pub fn new(alloc: Global) -> Scene {
        Scene::of(alloc, Bench::empty(alloc))
    }

    /// With this bench of schedulers.
    pub fn of(alloc: Global, bench: Bench) -> Scene {
        Scene {
            cluster: Cluster::new(alloc, 1),
            other: Cluster::new(alloc, 2),
            meta: Meta::new(alloc),
            bench,
        }
    }

    /// Serves a request.
    pub fn ask(&mut self, actor: Actor, request: Request) -> Result<Reply, NoMemory> {
        self.cluster
            .serve(actor, 7, request, &mut self.meta, &mut self.bench)
    }

    // What a line is answered, as it is printed.
    fn answer(&mut self, alloc: Global, line: &str) -> Result<String, Fail> {
        let (word, rest) = line.split_once(' ').unwrap_or((line, ""));
        match word {
            "keep" => self.keep(alloc, rest),
            "outdate" => self.outdate(alloc),
            "exhaust" => self.exhaust(alloc),
            "other" => self.turn(alloc),
            "clock" => self.clock(alloc),
            "rules" => self.rules(alloc),
            "sends" => self.sends(alloc),
            "writes" => self.writes(alloc),
            _ => {
                let reply = self.ask(Actor::Driver(1), request(alloc, line)?)?;
                Ok(format!(in alloc; "{reply}")?)
            }
        }
    }

    /// Serves each line, whose answer stands behind ` => `.
    pub fn play(&mut self, rt: &impl Abort, alloc: Global, lines: &str) -> Result<(), Fail> {
        for line in lines.lines() {
            let (asked, want) = line.split_once(" => ").unwrap_or((line, ""));
            let text = self.answer(alloc, asked)?;
            assert_eq!(rt; text.as_str(), want, "at {line}");
        }
        Ok(())
    }

    // Puts a record behind the cluster's back, as driver 2: `KEY BYTES`.
    fn keep(&mut self, alloc: Global, rest: &str) -> Result<String, Fail> {
        let (key, bytes) = rest.split_once(' ').unwrap_or((rest, ""));
        let revision = match self.meta.get(key.as_bytes())? {
            Some(cell) => cell.revision,
            None => 0,
        };
        let is_put = self
            .meta
            .put_if(2, 1, key.as_bytes(), revision, bytes.as_bytes());
        Ok(String::from_str(alloc, if is_put.is_ok() { "kept" } else { "refused" })?)
    }

    // Driver 2 announces term 5, so that the cluster is outdated.
    fn outdate(&mut self, alloc: Global) -> Result<String, Fail> {
        let is_led = self.meta.lead(2, 5).is_ok();
        Ok(String::from_str(alloc, if is_led { "outdated" } else { "refused" })?)
    }

    // Driver 2 announces the first term again, until the metadata takes no more calls.
    fn exhaust(&mut self, alloc: Global) -> Result<String, Fail> {
        for _ in 0..MOST_ENTRIES {
            if let Err(MetaFault::Limit) = self.meta.lead(2, 1) {
                return Ok(String::from_str(alloc, "exhausted")?);
            }
        }
        Ok(String::from_str(alloc, "goes on")?)
    }

    // From here on the other driver's cluster is asked.
    fn turn(&mut self, alloc: Global) -> Result<String, Fail> {
        mem::swap(&mut self.cluster, &mut self.other);
        Ok(String::from_str(alloc, "turned")?)
    }

    // The cluster's clock.
    fn clock(&self, alloc: Global) -> Result<String, Fail> {
        let clock = self.cluster.part().map(|part| part.clock);
        Ok(format!(in alloc; "{}", clock.unwrap_or(0))?)
    }

    // The ids of its rules.
    fn rules(&self, alloc: Global) -> Result<String, Fail> {
        let mut text = String::new(alloc);
        if let Some(part) = self.cluster.part() {
            for rule in part.rules.rules().as_slice().iter() {
                write!(text, "({})", rule.id.as_str())?;
            }
        }
        Ok(text)
    }

    // The drivers' calls of the metadata.
    fn writes(&self, alloc: Global) -> Result<String, Fail> {
        let mut text = String::new(alloc);
        for entry in self.meta.journal().iter() {
            put_call(&mut text, entry)?;
        }
        Ok(text)
    }

    // The messages that it sent.
    fn sends(&self, alloc: Global) -> Result<String, Fail> {
        let mut text = String::new(alloc);
        for entry in self.cluster.journal().as_slice().iter() {
            for message in entry.sends.as_slice().iter() {
                put_message(&mut text, message)?;
            }
        }
        Ok(text)
    }
}
