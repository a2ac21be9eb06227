use pd_types::{Ids, Seq};

/// A place in the rules, from 0, for each peer in the region's order, or none.
pub type Places = Seq<Option<u32>>;

/// What shows that a region doesn't fit.
#[derive(Debug, Drop)]
pub enum Certificate {
    /// The sum of the rules' counts and the number of peers, which differ.
    Totals { counts: u64, peers: u64 },
    /// Peers whose suitable rules have a smaller sum of counts than they are many. The ids stand for
    /// the set of them.
    Peers(Ids),
}

/// Whether a region fits, and an assignment that gives the most peers a rule.
#[derive(Debug, Drop)]
pub enum Fit {
    /// Each peer has a rule that it suits, and each rule exactly its count of peers.
    Fits {
        given: Places,
    },
    /// There is no such assignment, as the certificate shows.
    Misfit {
        given: Places,
        certificate: Certificate,
    },
}
