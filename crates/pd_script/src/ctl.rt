// The lines that let a scheduler propose and that carry pd-ctl's commands.
ghost use Rattle.std.specs.Prelude.{◌≡◌, IfErr, IfOk, Ok};
ghost use Rattle.pd_script.specs.CtlLines.{ctl_of, schedule_of};
ghost use Rattle.pd_script.specs.Refusals.{IsLineRefusal};
ghost use Rattle.pd_script.specs.Words.{words};

use crate::Reason;
use crate::ask::Asked;
use crate::place::{Place, read_place};
use crate::refusal::LineRefusal;
use crate::split::{next_word, trimmed, word};
use pd_types::{Bytes, Request};
use std::alloc::Global;

/// Reads what stands behind the word of `schedule D NOW`.
pub fn schedule(rest: &[u8]) -> Result<Asked, Reason>
    ensures value { result ≡ schedule_of (words rest.now) }
{
    let (driver, rest) = word(rest)?;
    let (moment, rest) = word(rest)?;
    if next_word(rest).is_some() {
        return Err(Reason::ExtraWord);
    }
    let driver = read_place(Place::Driver, driver)?;
    let moment = read_place(Place::Moment, moment)?;
    Ok(Asked {
        driver,
        request: Request::Schedule { moment },
    })
}

/// Reads what stands behind the word of `ctl D NOW WORDS`. Want of memory alone reads nothing.
pub fn ctl(alloc: Global, rest: &[u8]) -> Result<Asked, LineRefusal>
    ensures ok { IfOk result (λ asked. ctl_of rest.now ≡ Ok asked) }
    ensures refused { IfErr result (IsLineRefusal (ctl_of rest.now)) }
{
    let (driver, rest) = word(rest)?;
    let (moment, rest) = word(rest)?;
    let (_, _) = word(rest)?;
    let driver = read_place(Place::Driver, driver)?;
    let moment = read_place(Place::Moment, moment)?;
    let words = Bytes::of(trimmed(rest).to_vec(alloc)?);
    Ok(Asked {
        driver,
        request: Request::Ctl { moment, words },
    })
}
