// What the workers of drivers and stores share.
use pd_shared::{ClusterName, SharedCluster};
use std::alloc::Global;
use tso_board::Board;

/// The board, the gate, and the clusters, from the first driver's on.
#[derive(Drop)]
pub struct Shared<'a, N: ClusterName, G> {
    pub alloc: Global,
    pub board: &'a Board,
    pub gate: &'a G,
    pub clusters: &'a [SharedCluster<N>],
}
