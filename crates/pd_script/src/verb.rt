ghost use Rattle.std.specs.Prelude.{◌≡◌};
ghost use Rattle.std.specs.List.{find};
ghost use Rattle.std.specs.Str.{bytes_eq};
ghost use Rattle.pd_script.specs.Table.{row, verb_of};

use crate::place::Place;
use crate::place::Place::{Client, Count, Driver, Id, Moment, Saved, Term};
use Places::{One, Three, Two};
use Where::{Anywhere, Opening, SingleStep};

/// The first words of lines.
#[derive(Clone, Copy, Debug, PartialEq, Eq)]
pub enum Verb {
    Cell,
    Lead,
    Tick,
    Resign,
    Take,
    Tell,
    Hear,
    Read,
    Campaign,
    Save,
    Raise,
    Publish,
    Probe,
    Look,
    Arm,
    Draw,
    Pop,
}

/// Where a line may stand.
#[derive(Clone, Copy, Debug, PartialEq, Eq)]
pub enum Where {
    Anywhere,
    /// As the first event alone.
    Opening,
    /// In `replay` alone, a single step of the oracle.
    SingleStep,
}

/// The places behind the first word, one to three.
#[derive(Clone, Copy, Debug, PartialEq, Eq)]
pub enum Places {
    One(Place),
    Two(Place, Place),
    Three(Place, Place, Place),
}

/// What is said of a line by its first word.
#[derive(Clone, Copy, Debug, PartialEq, Eq)]
pub struct Row {
    /// The word itself.
    pub name: &'static str,
    /// What stands behind it.
    pub places: Places,
    /// Where its line may stand.
    pub standing: Where,
}

/// All first words.
pub const VERBS: [Verb; 17] = [
    Verb::Cell,
    Verb::Lead,
    Verb::Tick,
    Verb::Resign,
    Verb::Take,
    Verb::Tell,
    Verb::Hear,
    Verb::Read,
    Verb::Campaign,
    Verb::Save,
    Verb::Raise,
    Verb::Publish,
    Verb::Probe,
    Verb::Look,
    Verb::Arm,
    Verb::Draw,
    Verb::Pop,
];

fn row_of(name: &'static str, places: Places, standing: Where) -> Row
    ensures name { result.name.now ≡ name.now }
    ensures places { result.places ≡ places }
    ensures standing { result.standing ≡ standing }
{
    Row {
        name,
        places,
        standing,
    }
}

impl Verb {
    /// Its row in the table of lines.
    pub fn row(self) -> Row
        ensures name { result.name.now ≡ (row self).name }
        ensures places { result.places ≡ (row self).places }
        ensures standing { result.standing ≡ (row self).standing }
    {
        match self {
            Verb::Cell => row_of("cell", Two(Saved, Term), Opening),
            Verb::Lead => row_of("lead", Two(Driver, Moment), Anywhere),
            Verb::Tick => row_of("tick", Two(Driver, Moment), Anywhere),
            Verb::Resign => row_of("resign", One(Driver), Anywhere),
            Verb::Take => row_of("take", Three(Client, Driver, Count), Anywhere),
            Verb::Tell => row_of("tell", Two(Client, Client), Anywhere),
            Verb::Hear => row_of("hear", One(Client), Anywhere),
            Verb::Read => row_of("read", Two(Driver, Moment), SingleStep),
            Verb::Campaign => row_of("campaign", One(Driver), SingleStep),
            Verb::Save => row_of("save", One(Driver), SingleStep),
            Verb::Raise => row_of("raise", One(Driver), SingleStep),
            Verb::Publish => row_of("publish", One(Driver), SingleStep),
            Verb::Probe => row_of("probe", Two(Driver, Moment), SingleStep),
            Verb::Look => row_of("look", Two(Client, Driver), SingleStep),
            Verb::Arm => row_of("arm", Two(Client, Count), SingleStep),
            Verb::Draw => row_of("draw", One(Client), SingleStep),
            Verb::Pop => row_of("pop", Two(Id, Driver), Anywhere),
        }
    }
}

// The first of these that the word names.
fn first_named(verbs: &[Verb], word: &[u8]) -> Option<Verb>
    ensures value { result ≡ find (λ verb. bytes_eq word.now (row verb).name) verbs.now }
{
    for verb in verbs {
        if word == verb.row().name.as_bytes() {
            return Some(*verb);
        }
    }
    None
}

/// The verb that a word names.
pub fn verb_of(word: &[u8]) -> Option<Verb>
    ensures value { result ≡ verb_of word.now }
{
    first_named(&VERBS, word)
}
