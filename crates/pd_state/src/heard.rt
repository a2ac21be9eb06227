// What a request heard of the metadata and of the bench of schedulers, and its reply.
ghost use Rattle.std.specs.Prelude.{◌≡◌, ◌∷◌, [], IfOk};
ghost use Rattle.pd_state.specs.Heard.{IsAlone};

use crate::Reply;
use crate::planning::Log;
use crate::sent::Sents;
use meta_store::{MetaAnswer, MetaAnswers};
use pd_types::{NoMemory, Texts};
use sched_api::BenchSaid;
use std::alloc::Global;

/// What a request heard besides its own words: the metadata's answers, in the order of its calls,
/// what the bench of schedulers said, and the names of its schedulers where it asks for them.
#[derive(Debug, Drop)]
pub struct Heard {
    pub answers: MetaAnswers,
    pub bench: BenchSaid,
    pub names: Texts,
}

// These answers, and nothing of a bench.
fn alone(alloc: Global, answers: MetaAnswers) -> Heard
    ensures answers { result.answers ≡ answers }
    ensures alone { IsAlone result }
{
    Heard {
        answers,
        bench: BenchSaid::new(alloc),
        names: Texts::new(alloc),
    }
}

/// The reply to a request, what the request heard, and the steps that it sent.
#[derive(Debug, Drop)]
pub struct Done {
    pub reply: Reply,
    pub heard: Heard,
    pub sents: Sents,
}

/// A reply to a request that heard nothing.
pub fn quiet(alloc: Global, reply: Reply) -> Done
    ensures reply { result.reply ≡ reply }
    ensures heard { result.heard.answers ≡ [] }
    ensures alone { IsAlone result.heard }
    ensures sents { result.sents ≡ [] }
{
    let answers = MetaAnswers::new(alloc);
    Done {
        reply,
        heard: alone(alloc, answers),
        sents: Sents::new(alloc),
    }
}

/// A reply to a request that heard one answer.
pub fn with_answer(alloc: Global, reply: Reply, answer: MetaAnswer) -> Result<Done, NoMemory>
    ensures reply { IfOk result (λ done. done.reply ≡ reply) }
    ensures heard { IfOk result (λ done. done.heard.answers ≡ answer ∷ []) }
    ensures alone { IfOk result (λ done. IsAlone done.heard) }
    ensures sents { IfOk result (λ done. done.sents ≡ []) }
{
    let mut answers = MetaAnswers::new(alloc);
    answers.push(answer)?;
    Ok(Done {
        reply,
        heard: alone(alloc, answers),
        sents: Sents::new(alloc),
    })
}

/// A reply to a request that heard these answers.
pub fn with_answers(alloc: Global, reply: Reply, answers: MetaAnswers) -> Done
    ensures reply { result.reply ≡ reply }
    ensures heard { result.heard.answers ≡ answers }
    ensures alone { IsAlone result.heard }
    ensures sents { result.sents ≡ [] }
{
    Done {
        reply,
        heard: alone(alloc, answers),
        sents: Sents::new(alloc),
    }
}

/// A reply to a request that heard the names of the schedulers, and nothing else.
pub fn with_names(alloc: Global, reply: Reply, names: Texts) -> Done
    ensures reply { result.reply ≡ reply }
    ensures heard { result.heard ≡ record { answers = []; bench = []; names = names } }
    ensures sents { result.sents ≡ [] }
{
    Done {
        reply,
        heard: Heard {
            answers: MetaAnswers::new(alloc),
            bench: BenchSaid::new(alloc),
            names,
        },
        sents: Sents::new(alloc),
    }
}

/// A reply to a request that heard and sent this.
pub fn with_log(alloc: Global, reply: Reply, log: Log) -> Done
    ensures reply { result.reply ≡ reply }
    ensures heard { result.heard.answers ≡ log.answers }
    ensures alone { IsAlone result.heard }
    ensures sents { result.sents ≡ log.sents }
{
    Done {
        reply,
        heard: alone(alloc, log.answers),
        sents: log.sents,
    }
}
