// The numbers behind the first word of a line that is no request.
ghost use Rattle.std.specs.Prelude.{◌≡◌};
ghost use Rattle.pd_script.specs.Grammar.{numbers_of};
ghost use Rattle.pd_script.specs.Scripts.{greatest_in, if_client, if_driver};
ghost use Rattle.pd_script.specs.Words.{words};

use crate::Reason;
use crate::place::{Place, read_place};
use crate::split::{next_word, word};
use crate::verb::Places;

/// The numbers behind the first word, 0 where there are no more.
#[derive(Clone, Copy, Debug, PartialEq, Eq)]
pub struct Numbers {
    pub first: u64,
    pub second: u64,
    pub third: u64,
}

// The number of a line with one place.
fn one(p: Place, rest: &[u8]) -> Result<Numbers, Reason>
    ensures value { result ≡ numbers_of (Places.One p) (words rest.now) }
{
    let (first, rest) = word(rest)?;
    if let Some(_) = next_word(rest) {
        return Err(Reason::ExtraWord);
    }
    Ok(Numbers {
        first: read_place(p, first)?,
        second: 0,
        third: 0,
    })
}

// The numbers of a line with two places.
fn two(p: Place, q: Place, rest: &[u8]) -> Result<Numbers, Reason>
    ensures value { result ≡ numbers_of (Places.Two p q) (words rest.now) }
{
    let (first, rest) = word(rest)?;
    let (second, rest) = word(rest)?;
    if let Some(_) = next_word(rest) {
        return Err(Reason::ExtraWord);
    }
    Ok(Numbers {
        first: read_place(p, first)?,
        second: read_place(q, second)?,
        third: 0,
    })
}

// The numbers of a line with three places.
fn three(p: Place, q: Place, r: Place, rest: &[u8]) -> Result<Numbers, Reason>
    ensures value { result ≡ numbers_of (Places.Three p q r) (words rest.now) }
{
    let (first, rest) = word(rest)?;
    let (second, rest) = word(rest)?;
    let (third, rest) = word(rest)?;
    if let Some(_) = next_word(rest) {
        return Err(Reason::ExtraWord);
    }
    Ok(Numbers {
        first: read_place(p, first)?,
        second: read_place(q, second)?,
        third: read_place(r, third)?,
    })
}

/// The numbers that stand in the places of a line.
pub fn read_numbers(places: Places, rest: &[u8]) -> Result<Numbers, Reason>
    ensures value { result ≡ numbers_of places (words rest.now) }
{
    match places {
        Places::One(p) => one(p, rest),
        Places::Two(p, q) => two(p, q, rest),
        Places::Three(p, q, r) => three(p, q, r, rest),
    }
}

fn if_driver(place: Place, n: u64) -> u64
    ensures value { result ≡ if_driver place n }
{
    match place {
        Place::Driver => n,
        _ => 0,
    }
}

fn if_client(place: Place, n: u64) -> u64
    ensures value { result ≡ if_client place n }
{
    match place {
        Place::Client => n,
        _ => 0,
    }
}

/// The greatest driver in the places of a line.
pub fn driver_in(places: Places, n: Numbers) -> u64
    ensures value { result ≡ greatest_in if_driver places n }
{
    match places {
        Places::One(p) => if_driver(p, n.first),
        Places::Two(p, q) => if_driver(p, n.first).max(if_driver(q, n.second)),
        Places::Three(p, q, r) => if_driver(p, n.first)
            .max(if_driver(q, n.second))
            .max(if_driver(r, n.third)),
    }
}

/// The greatest client in the places of a line.
pub fn client_in(places: Places, n: Numbers) -> u64
    ensures value { result ≡ greatest_in if_client places n }
{
    match places {
        Places::One(p) => if_client(p, n.first),
        Places::Two(p, q) => if_client(p, n.first).max(if_client(q, n.second)),
        Places::Three(p, q, r) => if_client(p, n.first)
            .max(if_client(q, n.second))
            .max(if_client(r, n.third)),
    }
}
