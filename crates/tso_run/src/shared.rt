// What the workers of clients share, and the gate that holds workers back.
use crate::line::ClientLine;
use pd_types::{Actor, Gate};
use std::thread;
use tso_board::Board;
use tso_client::{BoardName, Post};

// How often a worker asks the gate at most before it goes on.
const MOST_ASKS: u32 = 1_000_000;

/// The board and the post, the gate, and the lines of all clients.
#[derive(Drop)]
pub struct Shared<'a, N: BoardName, G> {
    pub board: &'a Board,
    pub post: &'a Post<N>,
    pub gate: &'a G,
    pub clients: &'a [ClientLine],
}

/// Waits until the gate lets the actor answer this line, or until it was asked often enough.
pub fn pass<G: Gate>(gate: &G, actor: Actor, number: u32) {
    for _ in 0..MOST_ASKS {
        if !gate.hold(actor, number) {
            return;
        }
        thread::yield_now();
    }
}
