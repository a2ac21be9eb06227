// The rule of the table, and what each step tells.
ghost use Rattle.std.specs.Prelude.{ℕ};

use atomic_table::{Join, Play, Split, TableRule};
use std::marker::{Brand, PhantomData};
use tso_model::{Setup, View};

/// The oracle's invariant, as the rule of the table: it holds between any two steps of any threads.
#[derive(Clone, Copy)]
pub struct OracleRule;

impl TableRule<(), View, Setup> for OracleRule {
    ghost use Rattle.tso_model.specs.Moves.{first_view};
    ghost use Rattle.tso_model.specs.Sound.{Sound};

    ghost holds = { λ k s. Sound k s.words s.views };

    ghost first = { first_view };
}

/// A driver loaded the cell.
pub struct Reads;

impl Play<(), View> for Reads {
    ghost use Rattle.tso_board.specs.Plays.{read};

    ghost then = { read };
}

/// A driver tried to claim the next term.
pub struct Campaigns;

impl Play<(), View> for Campaigns {
    ghost use Rattle.tso_board.specs.Plays.{campaigned};

    ghost then = { campaigned };
}

/// A driver tried to save a later end.
pub struct Saves;

impl Play<(), View> for Saves {
    ghost use Rattle.tso_board.specs.Plays.{saved};

    ghost then = { saved };
}

/// A client added what it armed.
pub struct Draws;

impl Play<(), View> for Draws {
    ghost use Rattle.tso_board.specs.Plays.{drew};

    ghost then = { drew };
}

/// A driver raised its cursor.
pub struct Raises;

impl Play<(), View> for Raises {
    ghost use Rattle.tso_board.specs.Plays.{raised_to};

    ghost then = { raised_to };
}

/// A driver stored its limit.
pub struct Publishes;

impl Play<(), View> for Publishes {
    ghost use Rattle.tso_board.specs.Plays.{published};

    ghost then = { published };
}

/// A driver stored 0 as its limit.
pub struct Resigns;

impl Play<(), View> for Resigns {
    ghost use Rattle.tso_board.specs.Plays.{gave_up};

    ghost then = { gave_up };
}

/// A client loaded a limit.
pub struct Looks;

impl Play<(), View> for Looks {
    ghost use Rattle.tso_board.specs.Plays.{limited};

    ghost then = { limited };
}

/// How many are to be armed. A load has no operand that could say it.
pub trait Count {
    ghost count: { ℕ };
}

impl Count for Brand {
    ghost count = { 0 };
}

/// A client loaded a cursor, and armed this count where it fits.
pub struct Arms<N: Count> {
    of: PhantomData<N>,
}

impl<N: Count> Play<(), View> for Arms<N> {
    ghost use Rattle.tso_board.specs.Plays.{armed_by};

    ghost then = { armed_by N.count };
}

/// A note is split off, and the pass stays.
pub struct Notes;

impl Split<View> for Notes {
    ghost use Rattle.tso_model.specs.Moves.{new_note};

    ghost left = { λ v. v };

    ghost right = { new_note };
}

/// A note, a seat or a pass is taken in.
pub struct Meets;

impl Join<View> for Meets {
    ghost use Rattle.tso_model.specs.Moves.{joined, spent_view};

    ghost both = { joined };

    ghost spent = { spent_view };
}

/// A driver is split off the base.
pub struct NewDriver;

impl Split<View> for NewDriver {
    ghost use Rattle.tso_model.specs.Moves.{gave_driver, new_driver};

    ghost left = { gave_driver };

    ghost right = { new_driver };
}

/// A client is split off the base.
pub struct NewClient;

impl Split<View> for NewClient {
    ghost use Rattle.tso_model.specs.Moves.{gave_client, new_client};

    ghost left = { gave_client };

    ghost right = { new_client };
}
