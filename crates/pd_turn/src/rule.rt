// The rule of a turn's table, and what each step tells.
use crate::tale::Tale;
use atomic_table::{Join, Play, Split, TableRule};
use pd_types::Ids;
use std::collections::LinkedList;
use std::marker::PhantomData;

/// What a seat of the table knows. No value of it is made.
pub struct View<I> {
    /// All numbers of the turn.
    pub numbers: LinkedList<u64>,
    /// Each of its numbers with the items that it made, in order.
    pub lists: LinkedList<(u64, LinkedList<I>)>,
    /// The tale that was taken, or none.
    pub taken: Option<LinkedList<(u64, I)>>,
}

/// The rule of the table of a turn of values `T`.
pub struct TurnRule<T> {
    of: PhantomData<T>,
}

impl<T: Tale> TableRule<Option<T>, View<T::Item>, Ids> for TurnRule<T> {
    ghost use Rattle.pd_turn.specs.Rule.{Sound, opening_view};

    ghost holds = { λ numbers. Sound T.tale numbers };

    ghost first = { λ numbers. opening_view numbers };
}

/// The compare-exchange that takes the value.
pub struct Taking<T> {
    of: PhantomData<T>,
}

impl<T: Tale> Play<Option<T>, View<T::Item>> for Taking<T> {
    ghost use Rattle.pd_turn.specs.Rule.{Takes};

    ghost then = { λ s m r n. Takes T.tale m r n };
}

/// The store that gives it back.
pub struct Giving<T> {
    of: PhantomData<T>,
}

impl<T: Tale> Play<Option<T>, View<T::Item>> for Giving<T> {
    ghost use Rattle.pd_turn.specs.Rule.{Gives};

    ghost then = { λ s m r n. Gives T.tale m n };
}

/// The first number goes to a new seat.
pub struct Handing;

impl<I> Split<View<I>> for Handing {
    ghost use Rattle.pd_turn.specs.Rule.{kept_view, handed_view};

    ghost left = { kept_view };

    ghost right = { handed_view };
}

/// The lists of two seats come together.
pub struct Uniting;

impl<I> Join<View<I>> for Uniting {
    ghost use Rattle.pd_turn.specs.Rule.{both_views, no_view};

    ghost both = { both_views };

    ghost spent = { no_view };
}
