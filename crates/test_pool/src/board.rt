// The output of a closed lock, with no line of the board and with all but one of another message.
use crate::lock::PICKS;
use std::alloc::Global;
use std::process::Abort;
use std::test::Fail;
use tn_listing::{Line, line_of};
use tn_live::{Closed, JournalName, Receipt};
use tn_pool::{Board, assemble};
use tn_term::Term;
use tn_text::WrittenTerm;
use tn_trace::Item;

/// The output for the picks.
const OUTPUT: &str = "== session s1 tracer t1
{trace,<0.100.0>,spawn,<0.101.0>,{m,kid,[1]}}
{trace,<0.101.0>,spawned,<0.100.0>,{m,kid,[1]}}
{trace,<0.100.0>,spawn,<0.102.0>,{m,kid,[2]}}
{trace,<0.101.0>,exit,normal}
== replies
{session,s1}
1
== journal
0 0 100 100 100 101 101 102 102
";

/// The index of the line in whose place the board has that of another message.
const OTHER: u64 = 2;

/// A line of session 1 with this index, whose message is a number.
fn number_line(alloc: Global, index: u64, number: i64) -> Result<Line<Global>, Fail> {
    let item = Item {
        session: 1,
        index,
        message: WrittenTerm::new(alloc, Term::Int(number))?,
    };
    Ok(line_of(alloc, item)?)
}

/// Puts a line of each item on the board, but for one of another message.
fn fill(alloc: Global, board: &Board<Global>, receipts: Vec<Receipt<Global>>) -> Result<(), Fail> {
    for receipt in receipts {
        for item in receipt.items {
            let line = if item.index == OTHER {
                number_line(alloc, OTHER, 7)?
            } else {
                line_of(alloc, item)?
            };
            if board.put(line).is_err() {
                return Err(Fail::new("it came back"));
            }
        }
    }
    Ok(())
}

/// The output is that of the picks, with so many lines of the board.
fn check_output<J: JournalName>(
    rt: &impl Abort,
    alloc: Global,
    closed: &Closed<Global, J>,
    board: &Board<Global>,
    taken: u64,
) -> Result<(), Fail> {
    let assembled = assemble(alloc, closed, board)?;
    assert_eq!(rt; assembled.text.as_slice(), OUTPUT.as_bytes());
    assert_eq!(rt; assembled.picks.as_slice(), PICKS.as_slice());
    assert_eq!(rt; assembled.taken, taken);
    Ok(())
}

/// The output with no line of the board and with three of the four, again and again. A second line for a place
/// comes back, and the first one stays.
pub fn check_board<J: JournalName>(
    rt: &impl Abort,
    alloc: Global,
    closed: &Closed<Global, J>,
    receipts: Vec<Receipt<Global>>,
) -> Result<(), Fail> {
    let board = Board::new(alloc, alloc, 1, 4)?;
    check_output(rt, alloc, closed, &board, 0)?;
    fill(alloc, &board, receipts)?;
    check_output(rt, alloc, closed, &board, 3)?;
    assert!(rt;
        board.put(number_line(alloc, OTHER, 8)?).is_err(),
        "a place for two"
    );
    let line = board.line(1, OTHER).ok_or("no line")?;
    assert_eq!(rt; line.text(), b"7\n".as_slice());
    check_output(rt, alloc, closed, &board, 3)
}
