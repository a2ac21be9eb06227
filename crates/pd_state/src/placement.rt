// What the requests that set and remove a placement rule make of the tables.
ghost use Rattle.std.specs.Prelude.{◌≡◌, ◌++◌, ◌∷◌, [], Some, None, Ok, IfOk};
ghost use Rattle.meta_store.specs.Asked.{AreAsked};
ghost use Rattle.meta_store.specs.Doors.{Serves};
ghost use Rattle.rule_set.specs.Changes.{set_refusal};
ghost use Rattle.rule_set.specs.RuleSets.{HasFewLocations};
ghost use Rattle.pd_state.specs.Calls.{default_put, in_turn, next_call, rule_delete, rule_put, told_calls};
ghost use Rattle.pd_state.specs.Heard.{IsAlone, known_after, told_all};
ghost use Rattle.pd_state.specs.Legal.{term_reply};
ghost use Rattle.pd_state.specs.Replies.{by_answers};
ghost use Rattle.pd_state.specs.State.{set_by};
ghost use Rattle.pd_state.specs.Steps.{changed_part};

use crate::heard::{Done, quiet, with_answer, with_answers};
use crate::rules::{
    default_of, is_default, read_told, removal_refusal, remove, rule_key, set_refusal,
};
use crate::write::{ask, ask_behind, first_refusal, refusal};
use crate::{Part, Reply};
use meta_store::{Door, MetaCall};
use pd_types::{Bytes, NoMemory, Request, Rule, Text};
use rule_text::print_rule;
use std::alloc::Global;

// The write of a rule's text under its key, at the revision that is known of it.
fn rule_put(alloc: Global, part: &Part, rule: &Rule) -> Result<MetaCall, NoMemory>
    ensures value { IfOk result (λ call. call ≡ rule_put part.now rule.now) }
{
    let key = rule_key(alloc, rule.group.as_bytes(), rule.id.as_bytes())?;
    let expected = part.known.revision(key.as_slice());
    Ok(MetaCall::Put {
        term: part.term,
        key,
        expected,
        bytes: print_rule(alloc, rule)?,
    })
}

// The write of the default rule, where it has to be stored before this rule is set.
fn default_put(alloc: Global, part: &Part, rule: &Rule) -> Result<Option<MetaCall>, NoMemory>
    ensures value { IfOk result (λ call. call ≡ default_put part.now rule.now) }
{
    if is_default(rule) {
        return Ok(None);
    }
    let key = rule_key(alloc, b"pd", b"default")?;
    if part.known.revision(key.as_slice()) > 0 {
        return Ok(None);
    }
    match default_of(part.rules.rules().as_slice()) {
        Some(kept) => Ok(Some(rule_put(alloc, part, kept)?)),
        None => Ok(None),
    }
}

// The deletion of a rule's record; none where it isn't stored.
fn rule_delete(
    alloc: Global,
    part: &Part,
    group: &[u8],
    id: &[u8],
) -> Result<Option<MetaCall>, NoMemory>
    ensures value { IfOk result (λ call. call ≡ rule_delete part.now group.now id.now) }
{
    let key = rule_key(alloc, group, id)?;
    let expected = part.known.revision(key.as_slice());
    if expected == 0 {
        return Ok(None);
    }
    Ok(Some(MetaCall::Delete {
        term: part.term,
        key,
        expected,
    }))
}

// Writes a rule, behind the default rule where that isn't stored yet, and then sets it.
fn set_rule<M: Door>(
    alloc: Global,
    driver: u8,
    part: &mut Part,
    rule: Rule,
    door: &mut M,
) -> Result<Done, NoMemory>
    requires serves { Serves (M.place door.old) driver }
    requires few { HasFewLocations rule }
    requires room { set_refusal rule part.old.rules ≡ None }
    ensures reply { IfOk result (λ done. done.reply ≡ by_answers Reply.RulePut done.heard.answers) }
    ensures asked { IfOk result (λ done. AreAsked (in_turn (told_calls part.old (Ok rule))) [] done.heard.answers) }
    ensures after { IfOk result (λ done. part.new ≡ record part.old { rules = set_by done.reply (Ok rule) part.old.rules; known = known_after done.heard.answers part.old.known }) }
    ensures alone { IfOk result (λ done. IsAlone done.heard) }
    ensures sents { IfOk result (λ done. done.sents ≡ []) }
    ensures said { IfOk result (λ done. M.said door.new ≡ M.said door.old ++ done.heard.answers) }
    ensures told { IfOk result (λ done. M.told door.new ≡ told_all (M.told door.old) driver done.heard.answers) }
    ensures place { M.place door.new ≡ M.place door.old }
{
    let first = default_put(alloc, part, &rule)?;
    let call = rule_put(alloc, part, &rule)?;
    let answers = ask_behind(alloc, door, driver, &mut part.known, first, call)?;
    if let Some(reply) = first_refusal(answers.as_slice()) {
        return Ok(with_answers(alloc, reply, answers));
    }
    match part.rules.set(rule) {
        Ok(()) => Ok(with_answers(alloc, Reply::RulePut, answers)),
        // The caller tested that there is room, so that memory alone was wanting.
        Err(_) => Err(NoMemory),
    }
}

/// Reads a rule's text, writes the rule, and sets it.
pub fn rule<M: Door>(
    alloc: Global,
    driver: u8,
    part: &mut Part,
    moment: u64,
    json: &Bytes,
    door: &mut M,
) -> Result<Done, NoMemory>
    requires { Serves (M.place door.old) driver }
    ensures reply { IfOk result (λ done. done.reply ≡ term_reply driver part.old (Request.Rule moment json.now) done.heard) }
    ensures asked { IfOk result (λ done. AreAsked (next_call (Some part.old) (Request.Rule moment json.now) []) [] done.heard.answers) }
    ensures after { IfOk result (λ done. part.new ≡ changed_part part.old (Request.Rule moment json.now) done.reply done.heard) }
    ensures alone { IfOk result (λ done. IsAlone done.heard) }
    ensures sents { IfOk result (λ done. done.sents ≡ []) }
    ensures said { IfOk result (λ done. M.said door.new ≡ M.said door.old ++ done.heard.answers) }
    ensures told { IfOk result (λ done. M.told door.new ≡ told_all (M.told door.old) driver done.heard.answers) }
    ensures place { M.place door.new ≡ M.place door.old }
{
    part.advance(moment);
    let rule = match read_told(alloc, json.as_slice())? {
        Ok(rule) => rule,
        Err(fault) => return Ok(quiet(alloc, Reply::BadRule(fault))),
    };
    if let Some(reply) = set_refusal(part.rules.rules().as_slice(), &rule) {
        return Ok(quiet(alloc, reply));
    }
    set_rule(alloc, driver, part, rule, door)
}

/// Deletes a rule's record, where it is stored, and then removes the rule.
pub fn unrule<M: Door>(
    alloc: Global,
    driver: u8,
    part: &mut Part,
    moment: u64,
    group: &Text,
    id: &Text,
    door: &mut M,
) -> Result<Done, NoMemory>
    requires { Serves (M.place door.old) driver }
    ensures reply { IfOk result (λ done. done.reply ≡ term_reply driver part.old (Request.Unrule moment group.now id.now) done.heard) }
    ensures asked { IfOk result (λ done. AreAsked (next_call (Some part.old) (Request.Unrule moment group.now id.now) []) [] done.heard.answers) }
    ensures after { IfOk result (λ done. part.new ≡ changed_part part.old (Request.Unrule moment group.now id.now) done.reply done.heard) }
    ensures alone { IfOk result (λ done. IsAlone done.heard) }
    ensures sents { IfOk result (λ done. done.sents ≡ []) }
    ensures said { IfOk result (λ done. M.said door.new ≡ M.said door.old ++ done.heard.answers) }
    ensures told { IfOk result (λ done. M.told door.new ≡ told_all (M.told door.old) driver done.heard.answers) }
    ensures place { M.place door.new ≡ M.place door.old }
{
    part.advance(moment);
    let (group, id) = (group.as_bytes(), id.as_bytes());
    if let Some(reply) = removal_refusal(part.rules.rules().as_slice(), group, id) {
        return Ok(quiet(alloc, reply));
    }
    let Some(call) = rule_delete(alloc, part, group, id)? else {
        remove(&mut part.rules, group, id);
        return Ok(quiet(alloc, Reply::RuleRemoved));
    };
    let answer = ask(alloc, door, driver, &mut part.known, call)?;
    if let Some(reply) = refusal(answer.verdict) {
        return with_answer(alloc, reply, answer);
    }
    remove(&mut part.rules, group, id);
    with_answer(alloc, Reply::RuleRemoved, answer)
}
