// Parts of a batch.
ghost use Rattle.std.specs.Prelude.{◌≡◌, ◌+◌, ◌<◌, ◌≤◌};
ghost use Rattle.tso_client.specs.Splits.{AreParts};

use pd_types::Batch;

/// The first `k` timestamps of a batch, and the rest.
pub fn split(batch: &Batch, k: u64) -> (Batch, Batch)
    requires batch { batch.now.count ≤ batch.now.last }
    requires some { (0 < k) × (k < batch.now.count) }
    ensures parts { AreParts batch.now result.0 result.1 }
    ensures first { result.0.count ≡ k }
{
    let rest = batch.count - k;
    let first = Batch {
        last: batch.last - rest,
        count: k,
        ..*batch
    };
    let rest = Batch {
        count: rest,
        ..*batch
    };
    (first, rest)
}
