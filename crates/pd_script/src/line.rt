// What one line of a text says.
ghost use Rattle.std.specs.Prelude.{◌≡◌, ◌∷◌, IfOk, IfErr, Ok};
ghost use Rattle.pd_script.specs.Asks.{request_verb_of};
ghost use Rattle.pd_script.specs.Grammar.{by_request_verb, content_of, event_of, has_bad_byte, step_of};
ghost use Rattle.pd_script.specs.Refusals.{IsLineRefusal};
ghost use Rattle.pd_script.specs.Words.{words};
ghost use Rattle.pd_script.specs.Table.{is_misplaced};

use crate::ask::{Asked, read_asked};
use crate::event::Event;
use crate::numbers::read_numbers;
use crate::refusal::LineRefusal;
use crate::request_verb::request_verb_of;
use crate::split::next_word;
use crate::verb::{Verb, Where, verb_of};
use crate::{Boxed, Mode, Reason};
use std::alloc::Global;

// Whether a line with this standing may not stand here.
fn misplaced(mode: Mode, first: bool, standing: Where) -> bool
    ensures value { result ≡ is_misplaced mode first standing }
{
    match standing {
        Where::Anywhere => false,
        Where::Opening => !first,
        Where::SingleStep => mode == Mode::Run,
    }
}

// What a line says that is no request.
fn step(mode: Mode, first: bool, verb: Verb, rest: &[u8]) -> Result<Event, Reason>
    ensures value { result ≡ step_of mode first verb (words rest.now) }
{
    let row = verb.row();
    if misplaced(mode, first, row.standing) {
        return Err(Reason::Misplaced);
    }
    let numbers = read_numbers(row.places, rest)?;
    Ok(Event::Step { verb, numbers })
}

// What a line that is a request says.
fn ask(alloc: Global, name: &[u8], rest: &[u8]) -> Result<Event, LineRefusal>
    ensures ok { IfOk result (λ event. by_request_verb rest.now (request_verb_of name.now) ≡ Ok event) }
    ensures refused { IfErr result (IsLineRefusal (by_request_verb rest.now (request_verb_of name.now))) }
{
    let Some(verb) = request_verb_of(name) else {
        return Err(LineRefusal::Fault(Reason::UnknownWord));
    };
    let Asked { driver, request } = read_asked(alloc, verb, rest)?;
    let request = Boxed::new(alloc, request)?;
    Ok(Event::Ask { driver, request })
}

// What a line with this first word says.
fn event(
    alloc: Global,
    mode: Mode,
    first: bool,
    name: &[u8],
    rest: &[u8],
) -> Result<Event, LineRefusal>
    ensures ok { IfOk result (λ event. event_of mode first (name.now ∷ words rest.now) rest.now ≡ Ok event) }
    ensures refused { IfErr result (IsLineRefusal (event_of mode first (name.now ∷ words rest.now) rest.now)) }
{
    match verb_of(name) {
        Some(verb) => Ok(step(mode, first, verb, rest)?),
        None => ask(alloc, name, rest),
    }
}

fn bad_byte(line: &[u8]) -> bool
    ensures value { result ≡ has_bad_byte line.now }
{
    line.iter().any(|b| *b < 0x20 || *b > 0x7E)
}

/// What a line that has its line feed says, none where it is passed over; `first` says whether no
/// event stands before it.
pub fn content(
    alloc: Global,
    mode: Mode,
    first: bool,
    line: &[u8],
) -> Result<Option<Event>, LineRefusal>
    ensures ok { IfOk result (λ said. content_of mode first line.now ≡ Ok said) }
    ensures refused { IfErr result (IsLineRefusal (content_of mode first line.now)) }
{
    let Some((name, rest)) = next_word(line) else {
        return Ok(None);
    };
    if name.starts_with(b"#") {
        return Ok(None);
    }
    if bad_byte(line) {
        return Err(LineRefusal::Fault(Reason::BadByte));
    }
    let event = event(alloc, mode, first, name, rest)?;
    Ok(Some(event))
}
