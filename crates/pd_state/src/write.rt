// Calls of the metadata, and what their answers tell.
ghost use Rattle.std.specs.Prelude.{◌≡◌, ◌++◌, ◌∷◌, [], IfOk};
ghost use Rattle.std.specs.List.{cons_option};
ghost use Rattle.meta_store.specs.declared.record.MetaCall.TheVariants as calls;
ghost use Rattle.meta_store.specs.Asked.{AreAsked, Asks};
ghost use Rattle.meta_store.specs.Cells.{AreRising, cell_at, revision_in};
ghost use Rattle.meta_store.specs.Doors.{Serves};
ghost use Rattle.pd_state.specs.Calls.{in_turn};
ghost use Rattle.pd_state.specs.Heard.{known_after, known_more, told_all};
ghost use Rattle.pd_state.specs.Replies.{by_answers, or_then, verdict_refusal};
ghost use Rattle.pd_state.specs.declared.reply.Reply.{Reply};

use crate::Reply;
use meta_store::{
    Door, Known, MetaAnswer, MetaAnswers, MetaCall, MetaVerdict, ask_delete, ask_lead, ask_put,
};
use pd_types::{Bytes, NoMemory};
use std::alloc::Global;

/// The reply that a refused call gives; none where it was accepted.
pub fn refusal(verdict: MetaVerdict) -> Option<Reply>
    ensures value { result ≡ verdict_refusal verdict }
{
    match verdict {
        MetaVerdict::Accepted { .. } => None,
        MetaVerdict::OldTerm { fence } => Some(Reply::OldTerm { fence }),
        MetaVerdict::Conflict { found } => Some(Reply::Conflict { found }),
        MetaVerdict::Limit => Some(Reply::MetaLimit),
    }
}

/// The reply that the first refused one of these answers gives; none where all were accepted.
pub fn first_refusal(answers: &[MetaAnswer]) -> Option<Reply>
    ensures value { (done : Reply) → by_answers done answers.now ≡ or_then result done }
{
    for answer in answers {
        if let Some(reply) = refusal(answer.verdict) {
            return Some(reply);
        }
    }
    None
}

// Makes a call.
fn answer_to<M: Door>(
    alloc: Global,
    door: &mut M,
    driver: u8,
    call: MetaCall,
) -> Result<MetaAnswer, NoMemory>
    requires { Serves (M.place door.old) driver }
    ensures ok { IfOk result (Asks (M.said door.old) (M.said door.new) (M.told door.old) (M.told door.new) driver call) }
    ensures rising { IfOk result (λ answer. AreRising answer.cells) }
    ensures place { M.place door.new ≡ M.place door.old }
{
    match call {
        MetaCall::Lead { term } => ask_lead(alloc, door, driver, term),
        MetaCall::Put {
            term,
            key,
            expected,
            bytes,
        } => ask_put(alloc, door, driver, term, key, expected, bytes),
        MetaCall::Delete {
            term,
            key,
            expected,
        } => ask_delete(alloc, door, driver, term, key, expected),
    }
}

/// Makes a call, and takes in what is then known.
pub fn ask<M: Door>(
    alloc: Global,
    door: &mut M,
    driver: u8,
    known: &mut Known,
    call: MetaCall,
) -> Result<MetaAnswer, NoMemory>
    requires { Serves (M.place door.old) driver }
    ensures ok { IfOk result (Asks (M.said door.old) (M.said door.new) (M.told door.old) (M.told door.new) driver call) }
    ensures known { IfOk result (λ answer. known.new ≡ known_more known.old answer) }
    ensures place { M.place door.new ≡ M.place door.old }
{
    let answer = answer_to(alloc, door, driver, call)?;
    known.hear(alloc, &answer)?;
    Ok(answer)
}

/// Makes a call, behind another one where there is one, and takes in what is then known. Behind a
/// refused call none is made.
pub fn ask_behind<M: Door>(
    alloc: Global,
    door: &mut M,
    driver: u8,
    known: &mut Known,
    first: Option<MetaCall>,
    call: MetaCall,
) -> Result<MetaAnswers, NoMemory>
    requires { Serves (M.place door.old) driver }
    ensures asked { IfOk result (λ answers. AreAsked (in_turn (cons_option first (call ∷ []))) [] answers) }
    ensures known { IfOk result (λ answers. known.new ≡ known_after answers known.old) }
    ensures said { IfOk result (λ answers. M.said door.new ≡ M.said door.old ++ answers) }
    ensures told { IfOk result (λ answers. M.told door.new ≡ told_all (M.told door.old) driver answers) }
    ensures place { M.place door.new ≡ M.place door.old }
{
    let mut answers = MetaAnswers::new(alloc);
    let Some(before) = first else {
        answers.push(ask(alloc, door, driver, known, call)?)?;
        return Ok(answers);
    };
    let answer = ask(alloc, door, driver, known, before)?;
    let refused = refusal(answer.verdict).is_some();
    answers.push(answer)?;
    if refused {
        return Ok(answers);
    }
    answers.push(ask(alloc, door, driver, known, call)?)?;
    Ok(answers)
}

/// Writes a record at the revision that is known of its key, and takes in what is then known.
pub fn put<M: Door>(
    alloc: Global,
    door: &mut M,
    driver: u8,
    term: u64,
    known: &mut Known,
    key: Bytes,
    bytes: Bytes,
) -> Result<MetaAnswer, NoMemory>
    requires { Serves (M.place door.old) driver }
    ensures ok { IfOk result (Asks (M.said door.old) (M.said door.new) (M.told door.old) (M.told door.new) driver (calls.Put term key (revision_in (cell_at key known.old)) bytes)) }
    ensures known { IfOk result (λ answer. known.new ≡ known_more known.old answer) }
    ensures place { M.place door.new ≡ M.place door.old }
{
    let expected = known.revision(key.as_slice());
    let call = MetaCall::Put {
        term,
        key,
        expected,
        bytes,
    };
    ask(alloc, door, driver, known, call)
}
