// Which metadata and which streams.
use std::marker::Brand;

/// The name of the metadata that clusters share, and of their streams, each with its driver and its store:
/// a type for each. The caller of `SharedCluster::open` picks it, at a call of its own that is generic in
/// it.
pub trait ClusterName {
    ghost use Rattle.std.specs.Prelude.{List};
    ghost use Rattle.pd_turn.specs.Turns.{TurnValue};
    ghost use Rattle.pd_shared.specs.Names.{StreamName};

    /// The turn of the metadata.
    ghost meta: { TurnValue };

    /// The streams of all clusters.
    ghost streams: { List StreamName };
}

impl ClusterName for Brand {
    ghost use Rattle.std.specs.Prelude.{[]};
    ghost use Rattle.pd_shared.specs.Names.{no_meta};

    ghost meta = { no_meta };

    ghost streams = { [] };
}
