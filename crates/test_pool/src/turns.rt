// The order of tokens with several ends.
use std::alloc::Global;
use std::process::Abort;
use std::sync::Wait;
use std::test::Fail;
use tn_pool::{RunQueue, TurnEnd};

/// How many tokens there are: of the control list, and of each pid.
const SLOTS: u32 = 65;

/// The end takes the token at a place of a full queue, and gives it back or doesn't.
fn turn<R: Abort + Wait>(
    rt: &R,
    end: &mut TurnEnd<'_, Global>,
    place: u32,
    gives: bool,
) -> Result<(), Fail> {
    let token = end.take_turn(rt).ok_or("the queue is empty")?;
    let pick = if place == 0 {
        0
    } else {
        place.saturating_add(99)
    };
    assert_eq!(rt; token.pick(), pick);
    if gives {
        assert!(rt; end.give_turn(rt, token).is_ok(), "it came back");
    }
    Ok(())
}

/// Three ends take one after another, in the queue's order, and find their tokens again after the others'. Once all
/// are taken the queue is empty.
#[test]
fn three_ends(rt: HostRuntime) -> Result<(), Fail> {
    let mut queue = RunQueue::full(&rt, rt.alloc())?;
    let mut ends = queue.ends(rt.alloc(), 3)?;
    for round in 0..3 {
        for place in 0..SLOTS {
            let end = ends.get_mut(place as usize % 3).ok_or("no end")?;
            turn(&rt, end, place, round < 2)?;
        }
    }
    let end = ends.first_mut().ok_or("no end")?;
    assert!(rt; end.take_turn(&rt).is_none(), "one too many");
    Ok(())
}
