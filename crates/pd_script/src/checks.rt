// The lines that have regions checked.
ghost use Rattle.std.specs.Prelude.{◌≡◌};
ghost use Rattle.pd_script.specs.CheckLines.{check_of, patrol_of};
ghost use Rattle.pd_script.specs.Words.{words};

use crate::Reason;
use crate::ask::Asked;
use crate::place::{Place, read_place};
use crate::split::{next_word, word};
use pd_types::Request;

/// Reads what stands behind the word of `check D NOW R`.
pub fn check(rest: &[u8]) -> Result<Asked, Reason>
    ensures value { result ≡ check_of (words rest.now) }
{
    let (driver, rest) = word(rest)?;
    let (moment, rest) = word(rest)?;
    let (region, rest) = word(rest)?;
    if next_word(rest).is_some() {
        return Err(Reason::ExtraWord);
    }
    let driver = read_place(Place::Driver, driver)?;
    let moment = read_place(Place::Moment, moment)?;
    let region = read_place(Place::Id, region)?;
    Ok(Asked {
        driver,
        request: Request::Check { moment, region },
    })
}

/// Reads what stands behind the word of `patrol D NOW W`.
pub fn patrol(rest: &[u8]) -> Result<Asked, Reason>
    ensures value { result ≡ patrol_of (words rest.now) }
{
    let (driver, rest) = word(rest)?;
    let (moment, rest) = word(rest)?;
    let (workers, rest) = word(rest)?;
    if next_word(rest).is_some() {
        return Err(Reason::ExtraWord);
    }
    let driver = read_place(Place::Driver, driver)?;
    let moment = read_place(Place::Moment, moment)?;
    let workers = read_place(Place::Workers, workers)? as u32;
    Ok(Asked {
        driver,
        request: Request::Patrol { moment, workers },
    })
}
