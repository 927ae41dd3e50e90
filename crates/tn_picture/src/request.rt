// What is drawn of a run, and what was written.
ghost use Rattle.std.specs.Prelude.{IfOk};
ghost use Rattle.tn_picture.specs.Requests.{format_text};
ghost use Rattle.tn_picture.specs.Views.{picture_seen};

use crate::json_picture::picture_json;
use crate::picture::Picture;
use crate::plain::plain_text;
use crate::svg::svg_text;
use std::alloc::{AllocError, Allocator};
use tn_moves::Schedule;
use tn_run::RunRefusal;

/// What a picture is written as.
#[derive(Clone, Copy, Debug, PartialEq, Eq)]
pub enum PictureFormat {
    /// A graphic.
    Svg,
    /// Lines for a terminal.
    Plain,
    /// JSON, a value a line.
    Json,
}

/// What is drawn: a run by a schedule.
#[derive(Clone, Copy)]
pub struct DrawRequest<'a> {
    /// Which picks it takes.
    pub schedule: Schedule<'a>,
    /// What the picture is written as.
    pub format: PictureFormat,
}

/// What was written.
#[derive(Clone, Copy, Debug, PartialEq, Eq, Drop)]
pub enum DrawOutcome {
    /// The picture of an accepted script's run.
    Drawn,
    /// What the refusal says.
    Refused(RunRefusal),
}

impl PictureFormat {
    ghost use Rattle.std.specs.Prelude.{◌≡◌, IfOk};
    ghost use Rattle.tn_picture.specs.Requests.{format_text};
    ghost use Rattle.tn_picture.specs.Views.{picture_seen};

    /// The text of a picture.
    ///
    /// # Errors
    ///
    /// AllocError where memory was refused.
    pub fn text_of<A: Allocator + Copy>(
        self,
        alloc: A,
        picture: &Picture<A>,
    ) -> Result<Vec<u8, A>, AllocError>
        ensures { IfOk result (λ v. v.items ≡ format_text self (picture_seen picture.now)) }
    {
        match self {
            PictureFormat::Svg => svg_text(alloc, picture),
            PictureFormat::Plain => plain_text(alloc, picture),
            PictureFormat::Json => picture_json(alloc, picture),
        }
    }
}
