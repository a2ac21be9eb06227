// A reader of the turns of the drivers' schedulers in the journals that `run` prints. It knows the rules in plain words, and nothing of the
// program.
use crate::journal_reader::{Journals, Served, fault, word};

// The schedulers of each driver's bench, in their order.
const LEADERS: &str = "balance-leader-scheduler";

const REGIONS: &str = "balance-region-scheduler";

impl<'a> Journals<'a> {
    // An earlier entry of the journal took the scheduler out.
    fn is_removed(&self, at: &Served, name: &str) -> bool {
        self.served.iter().any(|one| {
            one.driver == at.driver
                && one.place < at.place
                && one.told == "{\"done\":\"Removed\"}"
                && word(one.request, 5) == name
        })
    }

    // The scheduler that had the last turn before an entry, empty where none had.
    fn last_turn(&self, at: &Served) -> &'a str {
        let turns = self.served.iter().filter(|one| {
            one.driver == at.driver && one.place < at.place && one.head == "scheduler"
        });
        turns.last().map_or("", |one| word(one.told, 1))
    }

    // The turn goes round the schedulers that are left, and none is left where there is no answer of one.
    fn is_turn(&self, at: &Served) -> bool {
        let round = if self.last_turn(at) == LEADERS {
            [REGIONS, LEADERS]
        } else {
            [LEADERS, REGIONS]
        };
        match round.iter().find(|name| !self.is_removed(at, name)) {
            Some(name) => at.head == "scheduler" && word(at.told, 1) == *name,
            None => at.told == "no-scheduler",
        }
    }

    // Those are shown that are left, in their order.
    fn are_shown(&self, at: &Served) -> bool {
        let mut shown = at
            .told
            .split('"')
            .filter(|text| text.ends_with("-scheduler"));
        for name in [LEADERS, REGIONS] {
            if !self.is_removed(at, name) && shown.next() != Some(name) {
                return false;
            }
        }
        at.told.starts_with("{\"schedulers\":[") && shown.next().is_none()
    }

    // One that is left is removed, and any other is absent.
    fn is_taken_out(&self, at: &Served) -> bool {
        let name = word(at.request, 5);
        let left = (name == LEADERS || name == REGIONS) && !self.is_removed(at, name);
        if left {
            at.told == "{\"done\":\"Removed\"}"
        } else {
            fault(at.told) == Some("absent")
        }
    }

    /// What the entries tell of schedulers is so by the turns of each driver's.
    pub fn turns_are(&self) -> bool {
        for at in &self.served {
            let lawful = match at.verb {
                _ if at.told == "not-leading" || at.is_unread() => true,
                "schedule" => self.is_turn(at),
                _ if at.is_command("scheduler", "show") => self.are_shown(at),
                _ if at.is_command("scheduler", "remove") => self.is_taken_out(at),
                _ => true,
            };
            if !lawful {
                return false;
            }
        }
        true
    }
}
