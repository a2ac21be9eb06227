// The lines that set and remove a placement rule.
ghost use Rattle.std.specs.Prelude.{◌≡◌, true, IfOk, IfErr, Ok};
ghost use Rattle.std.specs.List.{list_all};
ghost use Rattle.pd_script.specs.Refusals.{IsLineRefusal};
ghost use Rattle.pd_script.specs.RuleLines.{is_graphic, is_name, json_form, name_form, rule_of, unrule_of};
ghost use Rattle.pd_script.specs.Words.{words};

use crate::Reason;
use crate::ask::Asked;
use crate::place::{Place, read_place};
use crate::refusal::LineRefusal;
use crate::split::{next_word, trimmed, word};
use pd_types::{Bytes, NoMemory, Request, Text};
use std::alloc::Global;

/// How many bytes the JSON text of a rule has at most.
pub const MAX_JSON: usize = 4096;

/// How many characters the group or the id of a rule has at most.
pub const MAX_NAME: usize = 64;

const _: () = prove!(MAX_JSON == 4_096 && MAX_NAME == 64);

// A text of a rule, which may be too long.
fn json(alloc: Global, text: &[u8]) -> Result<Bytes, LineRefusal>
    ensures ok { IfOk result (λ json. json_form text.now ≡ Ok json) }
    ensures refused { IfErr result (IsLineRefusal (json_form text.now)) }
{
    if text.len() > MAX_JSON {
        return Err(LineRefusal::Fault(Reason::BadWord));
    }
    Ok(Bytes::of(text.to_vec(alloc)?))
}

/// Reads what stands behind the word of `rule D NOW JSON`. Want of memory alone reads nothing.
pub fn rule(alloc: Global, rest: &[u8]) -> Result<Asked, LineRefusal>
    ensures ok { IfOk result (λ asked. rule_of rest.now ≡ Ok asked) }
    ensures refused { IfErr result (IsLineRefusal (rule_of rest.now)) }
{
    let (driver, rest) = word(rest)?;
    let (moment, rest) = word(rest)?;
    let (_, _) = word(rest)?;
    let driver = read_place(Place::Driver, driver)?;
    let moment = read_place(Place::Moment, moment)?;
    let json = json(alloc, trimmed(rest))?;
    Ok(Asked {
        driver,
        request: Request::Rule { moment, json },
    })
}

fn is_graphic(byte: u8) -> bool
    ensures value { result ≡ is_graphic byte }
{
    0x21 <= byte && byte <= 0x7E
}

fn are_graphic(word: &[u8]) -> bool
    ensures value { result ≡ list_all is_graphic word.now }
{
    word.iter().all(|byte| is_graphic(*byte))
}

fn is_name(word: &[u8]) -> bool
    ensures value { result ≡ is_name word.now }
{
    !word.is_empty() && word.len() <= MAX_NAME && are_graphic(word)
}

// The text of a name.
fn name_text(alloc: Global, word: &[u8]) -> Result<Text, NoMemory>
    requires graphic { list_all is_graphic word.now ≡ true }
    ensures ok { IfOk result (λ text. text ≡ word.now) }
{
    Ok(Text::of(String::from_utf8_lossy(alloc, word)?))
}

// The group or the id that a word is.
fn name(alloc: Global, word: &[u8]) -> Result<Text, LineRefusal>
    ensures ok { IfOk result (λ text. name_form word.now ≡ Ok text) }
    ensures refused { IfErr result (IsLineRefusal (name_form word.now)) }
{
    if !is_name(word) {
        return Err(LineRefusal::Fault(Reason::BadWord));
    }
    Ok(name_text(alloc, word)?)
}

/// Reads what stands behind the word of `unrule D NOW GROUP ID`. Want of memory alone reads nothing.
pub fn unrule(alloc: Global, rest: &[u8]) -> Result<Asked, LineRefusal>
    ensures ok { IfOk result (λ asked. unrule_of (words rest.now) ≡ Ok asked) }
    ensures refused { IfErr result (IsLineRefusal (unrule_of (words rest.now))) }
{
    let (driver, rest) = word(rest)?;
    let (moment, rest) = word(rest)?;
    let (group, rest) = word(rest)?;
    let (id, rest) = word(rest)?;
    if next_word(rest).is_some() {
        return Err(LineRefusal::Fault(Reason::ExtraWord));
    }
    let driver = read_place(Place::Driver, driver)?;
    let moment = read_place(Place::Moment, moment)?;
    let group = name(alloc, group)?;
    let id = name(alloc, id)?;
    Ok(Asked {
        driver,
        request: Request::Unrule { moment, group, id },
    })
}
