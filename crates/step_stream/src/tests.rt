ghost use Rattle.std.specs.Prelude.{◌≡◌};

use crate::{Giver, Stream, Taker};
use pd_types::{Step, StepMsg};
use std::sync::Wait;
use std::test::Fail;

// A step for this region, sent to store 1.
fn to_region(region: u64) -> StepMsg {
    StepMsg {
        driver: 1,
        term: 1,
        entry: 1,
        region,
        to: 1,
        step: Step::TransferLeader { peer: 11, store: 1 },
    }
}

// Pushes steps for the regions below this one, and counts those that went in.
fn push_below<R: Wait>(rt: &R, stream: &Stream, giver: &mut Giver, end: u64) -> u64
    requires stream { giver.old.stream ≡ stream.now }
    ensures stream { giver.new.stream ≡ stream.now }
{
    let mut pushed: u64 = 0;
    for region in 0..end {
        if stream.push(rt, giver, to_region(region)).is_ok() {
            pushed = pushed.saturating_add(1);
        }
    }
    pushed
}

// The regions of two steps that are popped.
fn pop_two<R: Wait>(rt: &R, stream: &Stream, taker: &mut Taker) -> (Option<u64>, Option<u64>)
    requires stream { taker.old.stream ≡ stream.now }
    ensures stream { taker.new.stream ≡ stream.now }
{
    let first = stream.pop(rt, taker);
    let second = stream.pop(rt, taker);
    (first.map(|msg| msg.region), second.map(|msg| msg.region))
}

// Of 65 steps that nobody pops the last comes back. They are popped in their order, and then there is
// room for one more.
#[test]
fn the_65th_step_finds_no_room(rt: HostRuntime) -> Result<(), Fail> {
    let (stream, mut giver, mut taker) = Stream::open(rt.alloc())?;
    assert!(rt; push_below(&rt, &stream, &mut giver, 65) == 64);
    assert!(rt; pop_two(&rt, &stream, &mut taker) == (Some(0), Some(1)));
    assert!(rt; push_below(&rt, &stream, &mut giver, 1) == 1);
    stream.settle(&rt, &mut giver, taker);
    Ok(())
}

#[test]
fn an_empty_stream_has_no_step(rt: HostRuntime) -> Result<(), Fail> {
    let (stream, mut giver, mut taker) = Stream::open(rt.alloc())?;
    assert!(rt; push_below(&rt, &stream, &mut giver, 1) == 1);
    assert!(rt; pop_two(&rt, &stream, &mut taker) == (Some(0), None));
    Ok(())
}

// What a taker knows to have been pushed it pops before it finds nothing.
#[test]
fn a_known_step_is_popped(rt: HostRuntime) -> Result<(), Fail> {
    let (stream, mut giver, mut taker) = Stream::open(rt.alloc())?;
    let before = stream.note(&mut giver);
    assert!(rt; push_below(&rt, &stream, &mut giver, 2) == 2);
    let behind = stream.note(&mut giver);
    stream.meet(&mut taker, behind);
    stream.meet(&mut taker, before);
    assert!(rt; pop_two(&rt, &stream, &mut taker) == (Some(0), Some(1)));
    assert!(rt; stream.pop(&rt, &mut taker).is_none());
    Ok(())
}
