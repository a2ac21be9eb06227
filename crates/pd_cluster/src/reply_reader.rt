// A reader of the forms of replies in the journals that `run` prints: what may be told to each request. It knows the rules in plain words, and
// nothing of the program.
use crate::journal_reader::{Journals, Served, fault, number, word};
use crate::run_reader::{MS, RESIGNED};

// The word with which a reply begins, of these requests.
fn begins(verb: &str, told: &str) -> bool {
    let first = word(told, 0);
    match verb {
        "hello" => matches!(told, "store put" | "tombstone" | "limit") || first == "old-term",
        "alive" => matches!(told, "alive" | "unknown-store" | "tombstone"),
        "beat" => matches!(first, "bad" | "stale" | "full" | "accepted"),
        "rule" => {
            matches!(told, "rule set" | "rule-limit") || matches!(first, "bad-rule" | "old-term")
        }
        "unrule" => {
            matches!(told, "rule removed" | "absent" | "last-rule") || first == "old-term"
        }
        "check" => {
            matches!(told, "no-region" | "no-fault")
                || matches!(first, "needs-split" | "plan" | "no-plan")
        }
        "patrol" => first == "patrol",
        "schedule" => matches!(first, "scheduler" | "no-scheduler"),
        _ => false,
    }
}

// What the report of a command begins with, by its first words; empty where there is no such command.
fn report_of(first: &str, second: &str) -> &'static str {
    match (first, second) {
        ("store", "delete") => "{\"done\":\"Offline\"}",
        ("store", "limit") => "{\"done\":\"Limit\"}",
        ("store", "") => "{\"count\":",
        ("store", _) => "{\"address\":",
        ("region", _) => "{\"conf_ver\":",
        ("operator", "show") => "{\"operators\":[",
        ("operator", "add") => "{\"added\":",
        ("operator", "remove") => "{\"done\":\"Canceled\"}",
        ("operator", "check") => "{\"region\":",
        ("scheduler", "show") => "{\"schedulers\":[",
        ("scheduler", "remove") => "{\"done\":\"Removed\"}",
        ("member", "leader") => "{\"",
        ("tso", _) => "{\"logical\":",
        _ => "{\"fault\":",
    }
}

// A number in a report.
fn in_report(told: &str, name: &str) -> Option<u64> {
    let (_, rest) = told.split_once(name)?;
    let text = rest.split(',').next()?;
    text.trim_end_matches('}').parse::<u64>().ok()
}

// The report of a command, or a fault.
fn is_report(at: &Served) -> bool {
    let (first, second) = (word(at.request, 3), word(at.request, 4));
    if at.is_unread() {
        return true;
    }
    if fault(at.told).is_some() {
        return first != "member" && second != "show";
    }
    let told = at.told;
    let lawful = match (first, word(at.request, 5)) {
        ("member", "resign") => told == RESIGNED,
        ("member", "show") => {
            in_report(told, "\"driver\":") == Some(at.driver)
                && in_report(told, "\"term\":") == Some(at.term)
        }
        ("tso", _) => {
            let stamp = number(at.request, 4);
            in_report(told, "\"logical\":") == Some(stamp % MS)
                && in_report(told, "\"physical\":") == Some(stamp / MS)
        }
        _ => true,
    };
    lawful && told.starts_with(report_of(first, second))
}

impl<'a> Journals<'a> {
    /// Each entry tells what may be told to its request.
    pub fn replies_are(&self) -> bool {
        for at in &self.served {
            let lawful = match at.verb {
                _ if at.told == "not-leading" => true,
                "lead" | "tick" | "resign" => true,
                "ctl" => is_report(at),
                verb => begins(verb, at.told),
            };
            if !lawful {
                return false;
            }
        }
        true
    }
}
