// The run queue and its ends.
ghost use Rattle.std.specs.Prelude.{◌≡◌, ◌<◌, [], ◌∷◌, false, true, IfOk};
ghost use Rattle.std.specs.Prelude.{IfSome, IfNone, IfErr, OnOk, vec_len, All, replicate};
ghost use Rattle.crossbeam_deque.specs.Injected.{injector_view, IsInjectorPassOf};
ghost use Rattle.def_turns.specs.Slots.{is_slot, all_slots};
ghost use Rattle.def_turns.specs.Turns.{times};
ghost use Rattle.def_turns.specs.Moments.{TakesTurn, FindsNoTurn, GivesTurn, KeepsTurn};
ghost use Rattle.tn_pool.specs.Hands.{GivesUp, HandGains};
ghost use Rattle.tn_pool.specs.Rows.{row_place};
ghost use Rattle.tn_pool.specs.Queues.{IsRunQueue, HoldsAlone};

use crate::rule::{Cut, Exclusive, Gives, Hand, Takes};
use crate::token::Token;
use crossbeam_deque::{Injector, InjectorPass, Steal};
use std::alloc::{AllocError, Allocator};
use std::marker::Model;
use std::sync::Wait;
use std::thread;

/// The slot of the control list.
const CONTROL: u32 = 0;

/// The first pid.
const FIRST_PID: u32 = 100;

/// The number after the last pid.
const PIDS_END: u32 = 164;

/// The queue that the tokens go through.
type Turns<A> = Injector<Token, A, Hand, Exclusive>;

/// A pass for that queue: what it holds of it.
type Pass<A> = InjectorPass<Token, Hand, A>;

/// One worker's end of the run queue. Contracts see it as its view, the slots that it holds.
#[derive(Drop)]
pub struct TurnEnd<'a, A: Allocator> {
    queue: &'a Turns<A>,
    pass: Pass<A>,
    held: [bool; 65],
}

impl<'a, A: Allocator> Model for TurnEnd<'a, A> {
    ghost use Rattle.std.specs.Prelude.{ℕ, List};
    ghost use Rattle.crossbeam_deque.specs.Injected.{injector_view, IsInjectorPassOf};
    ghost use Rattle.tn_pool.specs.Rows.{IsHeld};

    ghost Value = { List ℕ };

    ghost view = { λ e. (injector_view e.pass).held };

    ghost invariant = { λ e. IsInjectorPassOf e.queue.now e.pass × IsHeld e.held (injector_view e.pass).held };
}

/// The place of a slot in an end's row.
fn place(slot: u32) -> usize
    requires { is_slot slot ≡ true }
    ensures { (result ≡ row_place slot) × (result < 65) }
{
    if slot == CONTROL {
        0
    } else {
        (slot - (FIRST_PID - 1)) as usize
    }
}

/// Takes the token at the queue's front.
fn steal<A: Allocator, R: Wait>(rt: &R, queue: &Turns<A>, pass: &mut Pass<A>) -> Option<Token>
    requires { IsInjectorPassOf queue.now pass.old }
    ensures same { IsInjectorPassOf queue.now pass.new }
    ensures some { IfSome result (λ x. TakesTurn (injector_view pass.old).held x (injector_view pass.new).held) }
    ensures none { IfNone result (FindsNoTurn (injector_view pass.old).held (injector_view pass.new).held) }
{
    for _ in rt.forever() {
        match queue.steal_as::<Takes, R>(rt, pass) {
            Steal::Success(token) => return Some(token),
            Steal::Empty => return None,
            Steal::Retry => thread::yield_now(),
        }
    }
    unreachable!()
}

impl<'a, A: Allocator> TurnEnd<'a, A> {
    /// Takes the token at the queue's front. None only where the queue was empty at one moment.
    pub fn take_turn<R: Wait>(&mut self, rt: &R) -> Option<Token>
        ensures some { IfSome result (λ x. TakesTurn self.old x self.new) }
        ensures none { IfNone result (FindsNoTurn self.old self.new) }
    {
        let token = steal(rt, self.queue, &mut self.pass)?;
        let at = place(token.pick());
        self.held[at] = true;
        Some(token)
    }

    /// Gives a token that this end took up, at the queue's back. The caller gives tokens of this queue alone.
    ///
    /// # Errors
    ///
    /// The same token, where another end took it, or there is no room or no memory for it in the queue. The
    /// end that took it still holds it, and may give it again.
    pub fn give_turn<R: Wait>(&mut self, rt: &R, token: Token) -> Result<(), Token>
        ensures ok { OnOk result (GivesTurn self.old token self.new) }
        ensures err { IfErr result (λ back. KeepsTurn self.old token back self.new) }
    {
        let at = place(token.pick());
        if !self.held[at] {
            return Err(token);
        }
        self.queue.push_as::<Gives, R>(rt, &mut self.pass, token)?;
        self.held[at] = false;
        Ok(())
    }
}

/// The run queue: a token for each slot, in the queue or with an end.
#[derive(Drop)]
pub struct RunQueue<A: Allocator> {
    queue: Turns<A>,
    pass: Pass<A>,
}

/// Puts a slot that the pass holds into the queue.
fn put<A: Allocator, R: Wait>(
    rt: &R,
    queue: &Turns<A>,
    pass: &mut Pass<A>,
    slot: u32,
) -> Result<(), AllocError>
    requires pass { IsInjectorPassOf queue.now pass.old }
    requires slot { (is_slot slot ≡ true) × (times slot (injector_view pass.old).held ≡ 1) }
    ensures same { IsInjectorPassOf queue.now pass.new }
    ensures gives { OnOk result (GivesUp (injector_view pass.old) (slot ∷ []) (injector_view pass.new)) }
{
    match queue.push_as::<Gives, R>(rt, pass, Token::of(slot)) {
        Ok(()) => Ok(()),
        Err(_) => Err(AllocError),
    }
}

/// One more end, which holds nothing.
fn end<'a, A: Allocator>(queue: &'a Turns<A>, pass: &mut Pass<A>) -> TurnEnd<'a, A>
    requires { IsInjectorPassOf queue.now pass.old }
    ensures same { IsInjectorPassOf queue.now pass.new }
    ensures empty { result ≡ [] }
{
    let pass = queue.another::<Cut>(pass);
    let held = no_slots();
    TurnEnd { queue, pass, held }
}

/// The row of an end that holds nothing.
fn no_slots() -> [bool; 65]
    ensures { result ≡ replicate 65 false }
{
    [false; 65]
}

/// So many ends, which hold nothing.
fn make_ends<'a, A: Allocator>(
    queue: &'a Turns<A>,
    pass: &mut Pass<A>,
    alloc: A,
    n: u32,
) -> Result<Vec<TurnEnd<'a, A>, A>, AllocError>
    requires { IsInjectorPassOf queue.now pass.old }
    ensures count { IfOk result (λ ends. vec_len ends ≡ n) }
    ensures empty { IfOk result (λ ends. All (λ view. view ≡ []) ends.items) }
{
    let mut ends = Vec::new(alloc);
    for _ in 0..n {
        ends.push(end(queue, pass))?;
    }
    Ok(ends)
}

impl<A: Allocator> RunQueue<A> {
    /// A queue with the 65 tokens in the order 0, 100, .., 163. It has no end yet.
    ///
    /// # Errors
    ///
    /// AllocError where memory was refused.
    pub fn full<R: Wait>(rt: &R, alloc: A) -> Result<RunQueue<A>, AllocError>
        ensures queue { IfOk result IsRunQueue }
        ensures order { IfOk result (λ q. HoldsAlone q all_slots) }
    {
        let (queue, mut pass) = Turns::new_as(alloc)?;
        put(rt, &queue, &mut pass, CONTROL)?;
        for pid in FIRST_PID..PIDS_END {
            put(rt, &queue, &mut pass, pid)?;
        }
        Ok(RunQueue { queue, pass })
    }

    /// So many ends of the queue, which hold no slot yet.
    ///
    /// # Errors
    ///
    /// AllocError where memory was refused.
    pub fn ends(&mut self, alloc: A, n: u32) -> Result<Vec<TurnEnd<'_, A>, A>, AllocError>
        requires { IsRunQueue self.old }
        ensures count { IfOk result (λ ends. vec_len ends ≡ n) }
        ensures empty { IfOk result (λ ends. All (λ view. view ≡ []) ends.items) }
    {
        let RunQueue { queue, pass } = self;
        make_ends(queue, pass, alloc, n)
    }
}
