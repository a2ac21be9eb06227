ghost use Rattle.std.specs.Prelude.{◌≡◌, ◌↔◌, ℕ, None, Some};
ghost use Rattle.pd_types.specs.declared.request.Request.TheVariants.{Retire, Term};
ghost use Rattle.tso_core.specs.declared.reply.Reply.TheVariants.{Probed, Published};
ghost use Rattle.pd_cluster.specs.Terms.{BeginsTerm, EndsTerm, ReadBegins, WinAsks};
ghost use Rattle.pd_cluster.specs.Answers.{driver_in};
ghost use Rattle.pd_cluster.specs.Replay.{asked_besides, lead_after, moment_of, published_term, with_term};

use pd_script::Act;
use pd_types::{Actor, Request};
use tso_core::Reply;

/// How far a driver's lead by single steps is: the moment of its `read` line, in milliseconds since
/// the epoch, and the term that it claimed, 0 before that.
#[derive(Clone, Copy, Debug, PartialEq, Eq)]
pub struct BegunLead {
    pub moment: u64,
    pub term: u64,
}

/// The driver that acts in a line, by the line's actor; 0 where none does.
pub fn driver_in(actor: Option<Actor>) -> u8
    ensures value { result ≡ driver_in actor }
{
    match actor {
        Some(Actor::Driver(driver)) => driver,
        Some(Actor::Client(_)) | Some(Actor::Store(_)) | None => 0,
    }
}

/// The moment of a line that begins a lead or is one, else 0.
pub fn moment_of(act: &Act) -> u64
    ensures value { result ≡ moment_of act.now }
{
    match act {
        Act::Lead { now, .. } | Act::Read { now, .. } => *now,
        _ => 0,
    }
}

fn with_term(term: u64, lead: Option<BegunLead>) -> Option<BegunLead>
    ensures value { result ≡ with_term term lead }
{
    match lead {
        None => None,
        Some(lead) => Some(BegunLead {
            moment: lead.moment,
            term,
        }),
    }
}

/// How far the lead is after an answer to a line at this moment.
pub fn lead_after(act: &Act, reply: Reply, lead: Option<BegunLead>) -> Option<BegunLead>
    ensures value { result ≡ lead_after act.now reply lead }
    ensures read { ReadBegins act.now reply result }
    ensures probed { (cursor : ℕ) → reply ≡ Probed cursor → result ≡ None }
    ensures published { (hi : ℕ) → reply ≡ Published hi → result ≡ None }
{
    match reply {
        Reply::CellRead { .. } => Some(BegunLead {
            moment: moment_of(act),
            term: 0,
        }),
        Reply::Claimed { term } => with_term(term, lead),
        Reply::Probed { .. } | Reply::Published { .. } => None,
        _ => lead,
    }
}

fn published_term(hi: u64, lead: Option<BegunLead>) -> Option<Request>
    ensures value { result ≡ published_term hi lead }
{
    match lead {
        None => None,
        Some(lead) => {
            if hi == 0 {
                None
            } else {
                Some(Request::Term {
                    term: lead.term,
                    moment: lead.moment,
                })
            }
        }
    }
}

/// What the driver's cluster is asked besides, after an answer of the oracle.
pub fn asked_besides(act: &Act, reply: Reply, lead: Option<BegunLead>) -> Option<Request>
    ensures value { result ≡ asked_besides act.now reply lead }
    ensures ends { (result ≡ Some Retire) ↔ EndsTerm reply }
    ensures won { WinAsks act.now reply result }
    ensures begins { (term moment : ℕ) → result ≡ Some (Term term moment) → BeginsTerm act.now reply lead term moment }
{
    match reply {
        Reply::Won { term, .. } => Some(Request::Term {
            term,
            moment: moment_of(act),
        }),
        Reply::Published { hi } => published_term(hi, lead),
        Reply::Lost { .. } | Reply::Resigned => Some(Request::Retire),
        _ => None,
    }
}
