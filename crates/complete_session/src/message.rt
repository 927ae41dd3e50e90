// What a session reports of an event.
ghost use Rattle.std.specs.Prelude.{◌≡◌, IfOk, OnOk, OnErr};
ghost use Rattle.tn_term.specs.Views.{tree_of};
ghost use Rattle.tn_session.specs.Messages.{message_seen};

use std::alloc::{AllocError, Allocator};
use tn_session::Message;
use tn_term::Term;

/// `tn_session::Message::term` has one answer.
pub fn term<A: Allocator, B: Allocator + Copy>(
    one: &Message<'_, A>,
    other: &Message<'_, A>,
    alloc: B,
) -> (Result<Term<B>, AllocError>, Result<Term<B>, AllocError>)
    requires { message_seen one.now ≡ message_seen other.now }
    ensures { IfOk result.0 (λ t. IfOk result.1 (λ u. tree_of t ≡ tree_of u)) }
{
    let first = one.term(alloc);
    let second = other.term(alloc);
    (first, second)
}

/// `tn_session::Message::append_text` has one answer. Where memory is refused, the text is as it was.
pub fn append_text<A: Allocator, B: Allocator>(
    one: &Message<'_, A>,
    other: &Message<'_, A>,
    out: &mut Vec<u8, B>,
    same_out: &mut Vec<u8, B>,
) -> (Result<(), AllocError>, Result<(), AllocError>)
    requires messages { message_seen one.now ≡ message_seen other.now }
    requires outs { out.old.items ≡ same_out.old.items }
    ensures ok { OnOk result.0 (OnOk result.1 (out.new.items ≡ same_out.new.items)) }
    ensures err { OnErr result.0 (out.new.items ≡ out.old.items) }
{
    let first = one.append_text(out);
    let second = other.append_text(same_out);
    (first, second)
}
