// The rule of the run queue, and what each of its steps tells the pass that takes it.
use crate::token::Token;
use crossbeam_deque::protocol::{Outcome, Protocol, Split};
use std::collections::LinkedList;

/// What a pass of the queue knows: the slots that it holds and, while it is the only pass, what is in the
/// queue. It exists in proofs alone; no value of it is made.
pub struct Hand {
    pub held: LinkedList<u32>,
    pub alone: bool,
    pub queue: LinkedList<u32>,
}

/// No slot stands twice, in the queue, in the queue and a view, or in two views.
pub struct Exclusive;

impl Protocol<Token, Hand> for Exclusive {
    ghost use Rattle.tn_pool.specs.Hands.{Keeps, first_hand};

    ghost holds = { Keeps };

    ghost first = { first_hand };

    ghost guest = { first_hand };
}

/// A push gives a slot up.
pub struct Gives;

impl Outcome<Token, Hand> for Gives {
    ghost use Rattle.tn_pool.specs.Hands.{GivesUp};

    ghost then = { GivesUp };
}

/// A steal gains a slot, or finds the queue empty.
pub struct Takes;

impl Outcome<Token, Hand> for Takes {
    ghost use Rattle.tn_pool.specs.Hands.{HandGains, FindsNone};

    ghost then = { HandGains };

    ghost empty = { FindsNone };
}

/// A new pass holds nothing, and from then on no pass is alone.
pub struct Cut;

impl Split<Hand> for Cut {
    ghost use Rattle.tn_pool.specs.Hands.{beside_others, new_hand};

    ghost left = { beside_others };

    ghost right = { λ h. new_hand };
}
