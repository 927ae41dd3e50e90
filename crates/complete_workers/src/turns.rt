// The run queue and its ends.
ghost use Rattle.std.specs.Prelude.{◌≡◌, Err, IfOk, IfErr};
ghost use Rattle.def_turns.specs.Turns.{times};
ghost use Rattle.tn_pool.specs.Queues.{IsRunQueue};
ghost use Rattle.complete_workers.specs.Ends.{EndAlike};
ghost use Rattle.complete_workers.specs.Turns.{hand_of};

use std::alloc::{AllocError, Allocator};
use std::sync::Wait;
use tn_pool::{RunQueue, Token, TurnEnd};

/// `tn_pool::RunQueue::full` has one answer.
pub fn full<A: Allocator, R: Wait>(
    rt: &R,
    alloc: A,
    same_alloc: A,
) -> (
    Result<RunQueue<A>, AllocError>,
    Result<RunQueue<A>, AllocError>,
)
    ensures { IfOk result.0 (λ q. IfOk result.1 (λ p. hand_of q ≡ hand_of p)) }
{
    let first = RunQueue::full(rt, alloc);
    let second = RunQueue::full(rt, same_alloc);
    (first, second)
}

/// `tn_pool::RunQueue::ends` has one answer.
pub fn ends<'q, A: Allocator>(
    one: &'q mut RunQueue<A>,
    other: &'q mut RunQueue<A>,
    alloc: A,
    same_alloc: A,
    n: u32,
) -> (
    Result<Vec<TurnEnd<'q, A>, A>, AllocError>,
    Result<Vec<TurnEnd<'q, A>, A>, AllocError>,
)
    requires first { IsRunQueue one.old }
    requires second { IsRunQueue other.old }
    ensures { IfOk result.0 (λ v. IfOk result.1 (λ w. v.items ≡ w.items)) }
{
    let first = one.ends(alloc, n);
    let second = other.ends(same_alloc, n);
    (first, second)
}

/// `tn_pool::TurnEnd::take_turn` has one answer but for which token comes, if any: what the end holds
/// afterwards goes by that.
pub fn take_turn<A: Allocator, R: Wait>(
    rt: &R,
    one: &mut TurnEnd<'_, A>,
    other: &mut TurnEnd<'_, A>,
) -> (Option<Token>, Option<Token>)
    requires { one.old ≡ other.old }
    ensures { result.0 ≡ result.1 → one.new ≡ other.new }
{
    let first = one.take_turn(rt);
    let second = other.take_turn(rt);
    (first, second)
}

/// `tn_pool::TurnEnd::give_turn` has one answer but for whether the token comes back: what the end holds
/// afterwards goes by that.
pub fn give_turn<A: Allocator, R: Wait>(
    rt: &R,
    one: &mut TurnEnd<'_, A>,
    other: &mut TurnEnd<'_, A>,
    token: Token,
    same_token: Token,
) -> (Result<(), Token>, Result<(), Token>)
    requires views { one.old ≡ other.old }
    requires tokens { token ≡ same_token }
    ensures back { IfErr result.0 (λ x. IfErr result.1 (λ y. x ≡ y)) }
    ensures held { EndAlike result.0 result.1 → one.new ≡ other.new }
{
    let first = one.give_turn(rt, token);
    let second = other.give_turn(rt, same_token);
    (first, second)
}

/// `tn_pool::TurnEnd::give_turn` has one answer to a token that the end doesn't hold: it comes back.
pub fn give_another<A: Allocator, R: Wait>(
    rt: &R,
    end: &mut TurnEnd<'_, A>,
    token: Token,
) -> Result<(), Token>
    requires { times token end.old ≡ 0 }
    ensures back { result ≡ Err token }
    ensures held { end.new ≡ end.old }
{
    end.give_turn(rt, token)
}
