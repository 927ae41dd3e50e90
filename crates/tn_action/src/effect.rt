// What a specification gives.
ghost use Rattle.std.specs.Prelude.{◌≡◌};
ghost use Rattle.def_spec.specs.Expressions.{flags_by};
ghost use Rattle.tn_flags.specs.Views.{table_of};
ghost use Rattle.tn_action.specs.Views.{effect_seen};

use std::alloc::Allocator;
use tn_flags::{FlagTable, Flags};
use tn_guard::Value;

/// What an action of a body asks of the session ("Match Specifications in Erlang", "Functions Allowed
/// Only for Tracing"). Its term is not copied: it lies where the value of the expression lies.
#[derive_where(Clone, Copy)]
pub enum Effect<'a, A: Allocator> {
    /// The term that the message gets, or `true`, or `false` for no message.
    Message(Value<'a, A>),
    /// A message when the call returns.
    ReturnTrace,
    /// A message when the call returns or fails.
    ExceptionTrace,
    /// The flag `silent` of the process whose event it is.
    Silent(bool),
    /// The flags that a process loses, then those that it gets.
    Change { pid: u32, off: Flags, on: Flags },
}

impl<'a, A: Allocator> Effect<'a, A> {
    /// Changes the flags as the effect asks, in an event of the process `me`.
    pub fn apply_to(&self, flags: &mut FlagTable, self_pid: u32)
        ensures { table_of flags.new ≡ flags_by self_pid (table_of flags.old) (effect_seen self.now) }
    {
        match self {
            Effect::Message(_) | Effect::ReturnTrace | Effect::ExceptionTrace => {}
            Effect::Silent(on) => flags.silence(self_pid, *on),
            Effect::Change { pid, off, on } => flags.change(*pid, *off, *on),
        }
    }
}

/// What a specification gives for one event.
#[derive(Drop)]
pub enum Outcome<'a, A: Allocator> {
    /// No clause fires.
    NoMatch,
    /// The effects of the body of the first clause that fires, in their order.
    Matched(Vec<Effect<'a, A>, A>),
}
