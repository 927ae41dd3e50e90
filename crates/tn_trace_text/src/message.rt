// Whether a term is a trace message.
ghost use Rattle.std.specs.Prelude.{◌≡◌, ◌&&◌};
ghost use Rattle.std.specs.Option.{is_some};
ghost use Rattle.def_term.specs.Names.{word};
ghost use Rattle.def_term.specs.Order.{same};
ghost use Rattle.def_term.specs.Tree.{pid_in, tuple};
ghost use Rattle.def_trace_text.specs.Messages.{is_trace_message};
ghost use Rattle.tn_term.specs.Views.{tree_of, trees_of};

use std::alloc::Allocator;
use tn_term::Term;

/// Whether a term is a pid.
fn is_pid<A: Allocator>(term: &Term<A>) -> bool
    ensures { result ≡ is_some (pid_in (tree_of term.now)) }
{
    matches!(term, Term::Pid(_))
}

/// Whether the tuple of these elements is a trace message.
fn are_message_fields<A: Allocator>(fields: &[Term<A>]) -> bool
    ensures { result ≡ is_trace_message (tuple (trees_of fields.now)) }
{
    if fields.len() < 3 {
        return false;
    }
    let has_pid = is_pid(&fields[1]);
    let has_tag = fields[0].is_word("trace");
    has_pid && has_tag
}

/// Whether a term is a trace message.
pub(crate) fn is_trace_message<A: Allocator>(term: &Term<A>) -> bool
    ensures { result ≡ is_trace_message (tree_of term.now) }
{
    match term {
        Term::Tuple(fields) => are_message_fields(fields.as_slice()),
        _ => false,
    }
}
