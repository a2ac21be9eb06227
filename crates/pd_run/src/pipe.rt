// The streams from each driver's cluster to each store that acts.
ghost use Rattle.std.specs.Prelude.{◌≡◌, All, IfOk, length, map};
ghost use Rattle.pd_run.specs.Pipes.{ArePipesTo, IsNewPipe};

use crate::line::StoreLines;
use pd_types::NoMemory;
use std::alloc::Global;
use std::sync::Arc;
use step_stream::{Giver, Stream, Taker};

/// A stream of steps to a store, with both its ends.
#[derive(Drop)]
pub struct Pipe {
    pub store: u64,
    pub stream: Arc<Stream, Global>,
    pub giver: Giver,
    pub taker: Taker,
}

fn open_pipe(alloc: Global, store: u64) -> Result<Pipe, NoMemory>
    ensures new { IfOk result IsNewPipe }
    ensures store { IfOk result (λ pipe. pipe.store ≡ store) }
{
    let (stream, giver, taker) = Stream::open(alloc)?;
    let stream = Arc::new(alloc, stream)?;
    Ok(Pipe {
        store,
        stream,
        giver,
        taker,
    })
}

// A stream to each store, from one driver's cluster.
fn pipes_to(alloc: Global, stores: &[StoreLines]) -> Result<Vec<Pipe>, NoMemory>
    ensures pipes { IfOk result (λ pipes. ArePipesTo (map (λ lines. lines.store) stores.now) pipes.items) }
{
    let mut pipes = Vec::new(alloc);
    for lines in stores {
        pipes.push(open_pipe(alloc, lines.store)?)?;
    }
    Ok(pipes)
}

/// The streams to these stores, from each driver's cluster, from the first driver's on.
pub fn open_pipes(
    alloc: Global,
    drivers: usize,
    stores: &[StoreLines],
) -> Result<Vec<Vec<Pipe>>, NoMemory>
    ensures each { IfOk result (λ pipes. All (λ one. ArePipesTo (map (λ lines. lines.store) stores.now) one.items) pipes.items) }
    ensures drivers { IfOk result (λ pipes. length pipes.items ≡ drivers) }
{
    let mut pipes = Vec::new(alloc);
    for _driver in 0..drivers {
        pipes.push(pipes_to(alloc, stores)?)?;
    }
    Ok(pipes)
}
