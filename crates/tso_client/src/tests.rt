// Parts of a batch, and the post by one thread.
ghost use Rattle.std.specs.Prelude.{◌≡◌, ◌≤◌, IfOk};
ghost use Rattle.tso_board.specs.Boards.{board_id};
ghost use Rattle.tso_board.specs.Passes.{IsPassOf};
ghost use Rattle.tso_client.specs.Slips.{clients_of};

use crate::{BoardName, Post, PostEntry, PostWhat, Slip, split};
use pd_types::{Batch, CellWord, Seen};
use std::alloc::Global;
use std::marker::Brand;
use std::process::Abort;
use std::sync::Wait;
use std::test::Fail;
use tso_board::{Board, Crew, Pass, open};

// 11 to 15 are 11 to 12 and 13 to 15.
#[test]
fn first_two_of_five(rt: HostRuntime) {
    let five = Batch {
        term: 1,
        driver: 1,
        last: 15,
        count: 5,
    };
    let (first, rest) = split(&five, 2);
    assert_eq!(rt; (first.last, first.count), (12, 2));
    assert_eq!(rt; (rest.last, rest.count), (15, 3));
}

// A client's pass on a new board for two clients.
fn one_client(alloc: Global) -> Result<(Board, Pass), Fail>
    ensures pass { IfOk result (λ r. IsPassOf r.1 r.0) }
{
    let cell = CellWord { saved: 0, term: 0 };
    let Crew {
        board,
        mut passes,
        ..
    } = open(alloc, 1, 2, cell)?;
    match passes.pop() {
        Some(pass) => Ok((board, pass)),
        None => Err(Fail::new("no pass")),
    }
}

// A post with its two slips.
fn two_slips<N: BoardName>(
    alloc: Global,
    board: &Board,
) -> Result<(Post<N>, Slip<N>, Slip<N>), Fail>
    requires board { board_id board.now ≡ N.board }
    ensures clients { IfOk result (λ r. clients_of r.0 ≡ 2) }
    ensures first { IfOk result (λ r. r.1.post ≡ r.0) }
    ensures second { IfOk result (λ r. r.2.post ≡ r.0) }
{
    let (post, mut slips) = Post::open(alloc, board, 2)?;
    let Some(second) = slips.pop() else {
        return Err(Fail::new("no slip"));
    };
    let Some(first) = slips.pop() else {
        return Err(Fail::new("one slip"));
    };
    Ok((post, first, second))
}

// Client 1 leaves a note for client 2, which hears it, and then nothing. A note that comes back for
// want of memory, as under `rt try --test --fail-alloc N`, is left once more.
fn tell_and_hear<N: BoardName, R: Wait>(
    rt: &R,
    board: &Board,
    pass: &mut Pass,
    post: &Post<N>,
    first: &mut Slip<N>,
    second: &mut Slip<N>,
) -> Result<(bool, bool), Fail>
    requires board { board_id board.now ≡ N.board }
    requires pass { IsPassOf pass.old board.now }
    requires clients { clients_of post.now ≡ 2 }
    requires first { first.old.post ≡ post.now }
    requires second { second.old.post ≡ post.now }
    ensures first { first.new.post ≡ post.now }
    ensures second { second.new.post ≡ post.now }
{
    let note = pass.note(board);
    let told = match post.tell(rt, first, 2, 7, note) {
        Ok(()) => true,
        Err(note) => post.tell(rt, first, 2, 7, note).is_ok(),
    };
    let heard = post.hear(rt, second, 8)?;
    let again = post.hear(rt, second, 9)?;
    Ok((told && heard.is_some(), again.is_some()))
}

// The whole life of a post.
fn post_of_two<N: BoardName, R: Wait + AllocGlobal>(
    rt: &R,
    board: Board,
    mut pass: Pass,
) -> Result<(bool, bool, Vec<PostEntry>), Fail>
    requires board { board_id board ≡ N.board }
    requires pass { IsPassOf pass board }
{
    let alloc = rt.alloc();
    let (post, mut first, mut second) = two_slips::<N>(alloc, &board)?;
    let (heard, again) = tell_and_hear(rt, &board, &mut pass, &post, &mut first, &mut second)?;
    let mut slips = Vec::new(alloc);
    slips.push(first)?;
    slips.push(second)?;
    let journal = post.close(rt, slips)?;
    Ok((heard, again, journal.into_vec()))
}

#[test]
fn note_is_heard_once(rt: HostRuntime) -> Result<(), Fail> {
    let (board, pass) = one_client(rt.alloc())?;
    let (heard, again, journal) = post_of_two::<Brand, _>(&rt, board, pass)?;
    assert!(rt; heard && !again);
    let seen = Seen { term: 0, last: 0 };
    let entries = [
        PostEntry {
            client: 1,
            line: 7,
            what: PostWhat::Told { to: 2, seen },
        },
        PostEntry {
            client: 2,
            line: 8,
            what: PostWhat::Heard { seen },
        },
        PostEntry {
            client: 2,
            line: 9,
            what: PostWhat::Nothing,
        },
    ];
    assert!(rt; journal.as_slice() == entries.as_slice());
    Ok(())
}
