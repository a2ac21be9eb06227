//! A driver's cluster behind a lock: who holds a share calls it, and its steps go into streams to the
//! stores.
#![tactic(auto)]

mod laws;
mod locked;
mod name;
mod outlet;
mod shared;
#[cfg(test)]
mod tests;

pub use laws::{what_is_pushed_was_sent, what_was_removed};
pub use locked::Closed;
pub use name::ClusterName;
pub use outlet::{Givers, Outlet};
pub use shared::{Share, SharedCluster, Shares};
