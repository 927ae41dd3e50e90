// The rows of a picture.
ghost use Rattle.std.specs.Prelude.{◌≡◌};
ghost use Rattle.def_picture.specs.Picture.{row_text};
ghost use Rattle.tn_picture.specs.Views.{picture_row_seen};

use crate::shape::Shape;
use std::alloc::Allocator;

/// A message that a session reports: the session's number, from 1, and the line of its listing.
#[derive(Drop)]
pub struct Report<A: Allocator> {
    pub session: u64,
    pub text: Vec<u8, A>,
}

/// A row: the number of its move, its shape, what is written beside it, and who reports it.
#[derive(Drop)]
pub struct Row<A: Allocator> {
    pub move_number: u64,
    pub shape: Shape,
    pub label: Vec<u8, A>,
    pub reports: Vec<Report<A>, A>,
}

/// What a row shows: the message of the first session that reports it, else what the event or the command is.
pub(crate) fn row_text<'a, A: Allocator>(row: &'a Row<A>) -> &'a [u8]
    ensures { result.now ≡ row_text (picture_row_seen row.now) }
{
    match row.reports.first() {
        Some(report) => &report.text,
        None => &row.label,
    }
}
