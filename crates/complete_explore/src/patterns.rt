// Patterns of trace messages.
ghost use Rattle.std.specs.Prelude.{◌≡◌, IfOk};
ghost use Rattle.tn_spec.specs.Views.{pattern_seen};
ghost use Rattle.tn_term.specs.Views.{tree_of};

use bumpalo::Bump;
use std::alloc::{AllocError, Allocator};
use tn_message_pattern::MessagePattern;
use tn_term::Term;

/// `tn_message_pattern::MessagePattern::matches` has one answer.
pub fn matches<A: Allocator, B: Allocator>(
    arena: &Bump<B>,
    patterns: (&MessagePattern<A>, &MessagePattern<A>),
    messages: (&Term<B>, &Term<B>),
) -> (Result<bool, AllocError>, Result<bool, AllocError>)
    requires pattern { pattern_seen patterns.0.now.pattern ≡ pattern_seen patterns.1.now.pattern }
    requires message { tree_of messages.0.now ≡ tree_of messages.1.now }
    ensures { IfOk result.0 (λ b. IfOk result.1 (λ d. b ≡ d)) }
{
    let first = patterns.0.matches(arena, messages.0);
    let second = patterns.1.matches(arena, messages.1);
    (first, second)
}
