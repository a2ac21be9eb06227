ghost use Rattle.std.specs.Prelude.{Some};
ghost use Rattle.store_table.specs.StateText.{state_text};

use std::fmt;

/// How pd-ctl names the state of a store.
#[derive(Clone, Copy, Debug, PartialEq, Eq)]
pub enum StateName {
    /// Up, usable and live.
    Up,
    /// Up and usable, but not live.
    Disconnected,
    /// Up and no longer usable.
    Down,
    Offline,
    Tombstone,
}

impl fmt::Display for StateName {
    ghost output = { λ name. Some (state_text name) };

    fn fmt<W: fmt::Write>(&self, f: &mut fmt::Formatter<W>) -> fmt::Result {
        f.write_str(match self {
            StateName::Up => "Up",
            StateName::Disconnected => "Disconnected",
            StateName::Down => "Down",
            StateName::Offline => "Offline",
            StateName::Tombstone => "Tombstone",
        })
    }
}
