// Messages as lines.
ghost use Rattle.std.specs.Prelude.{◌≡◌, ◌++◌, OnOk, flat_map};
ghost use Rattle.def_run.specs.Listing.{line_of, lines_of};
ghost use Rattle.tn_messages.specs.MessageViews.{message_tree, trees_seen, lists_seen};

use crate::entry::SessionName;
use crate::listing_rows::{add_lists, add_messages, put_listed_rows};
use std::alloc::{AllocError, Allocator};
use tn_formats::JsonText;
use tn_messages::{MessageList, SharedMessage};

/// What is kept of the messages of a session.
pub(crate) trait Listing {
    ghost use Rattle.std.specs.Prelude.{◌≡◌, ◌++◌, IfOk, List, OnOk};
    ghost use Rattle.def_term.specs.Tree.{Tree};
    ghost use Rattle.def_run.specs.Listing.{lines_of};
    ghost use Rattle.def_formats.specs.JsonRows.{json_lines};
    ghost use Rattle.def_compare.specs.AnswerRows.{listed_rows};
    ghost use Rattle.tn_answers.specs.AnswerViews.{session_name_seen};

    /// Its messages, as they are listed.
    ghost listed: { Self → List Tree };

    /// Appends each message's text with a line feed.
    fn put_lines<B: Allocator>(&self, out: &mut Vec<u8, B>) -> Result<(), AllocError>
        ensures { OnOk result (out.new.items ≡ out.old.items ++ lines_of (listed self.now)) };

    /// Appends the rows of a session with these messages.
    fn put_rows<A: Allocator + Copy, N: Allocator>(
        &self,
        alloc: A,
        out: JsonText<A>,
        session: &SessionName<N>,
    ) -> Result<JsonText<A>, AllocError>
        ensures { IfOk result (λ v. v.lines.items ≡
            out.lines.items ++ json_lines (listed_rows (session_name_seen session.now) (listed self.now))) };
}

/// Appends a message's text with a line feed.
fn put_line<A: Allocator, B: Allocator>(
    message: &SharedMessage<A>,
    out: &mut Vec<u8, B>,
) -> Result<(), AllocError>
    ensures { OnOk result (out.new.items ≡ out.old.items ++ line_of (message_tree message.now)) }
{
    out.extend_from_slice(message.text())?;
    out.push(b'\n')?;
    Ok(())
}

/// Appends each message's text with a line feed.
fn put_messages<A: Allocator, B: Allocator>(
    messages: &[SharedMessage<A>],
    out: &mut Vec<u8, B>,
) -> Result<(), AllocError>
    ensures { OnOk result (out.new.items ≡ out.old.items ++ flat_map (λ m. line_of (message_tree m)) messages.now) }
{
    for message in messages {
        put_line(message, out)?;
    }
    Ok(())
}

impl<A: Allocator> Listing for MessageList<A> {
    ghost listed = { trees_seen };

    fn put_lines<B: Allocator>(&self, out: &mut Vec<u8, B>) -> Result<(), AllocError> {
        put_messages(self, out)
    }

    fn put_rows<B: Allocator + Copy, N: Allocator>(
        &self,
        alloc: B,
        out: JsonText<B>,
        session: &SessionName<N>,
    ) -> Result<JsonText<B>, AllocError> {
        let mut all = Vec::new(alloc);
        add_messages(self, &mut all)?;
        put_listed_rows(alloc, out, session, &all)
    }
}

/// Appends the lines of each process.
fn put_processes<A: Allocator, B: Allocator>(
    lists: &[MessageList<A>],
    out: &mut Vec<u8, B>,
) -> Result<(), AllocError>
    ensures { OnOk result (out.new.items ≡ out.old.items ++ flat_map (λ v. lines_of (trees_seen v)) lists.now) }
{
    for messages in lists {
        messages.put_lines(out)?;
    }
    Ok(())
}

impl<A: Allocator> Listing for Vec<MessageList<A>, A> {
    ghost use Rattle.tn_answers.specs.AnswerViews.{processes_listed};

    ghost listed = { processes_listed };

    fn put_lines<B: Allocator>(&self, out: &mut Vec<u8, B>) -> Result<(), AllocError> {
        put_processes(self, out)
    }

    fn put_rows<B: Allocator + Copy, N: Allocator>(
        &self,
        alloc: B,
        out: JsonText<B>,
        session: &SessionName<N>,
    ) -> Result<JsonText<B>, AllocError> {
        let mut all = Vec::new(alloc);
        add_lists(self, &mut all)?;
        put_listed_rows(alloc, out, session, &all)
    }
}
