// Which board it is.
use std::marker::Brand;

/// The name of a board: a type for each. The caller of `Post::open` picks it, at a call of its own that is
/// generic in it.
pub trait BoardName {
    ghost use Rattle.atomic_table.specs.Seated.{TableId};

    ghost board: { TableId };
}

impl BoardName for Brand {
    ghost use Rattle.tso_client.specs.Names.{no_board};

    ghost board = { no_board };
}
