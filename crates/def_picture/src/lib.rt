//! The picture of a run, and its text as a graphic, for a terminal and as JSON.
//!
//! Depends on def_run, on def_formats, and on the kit's `json` for the JSON of RFC 8259. Promises, as laws: each event
//! and command of a run has a row; the messages of a session in the rows are the lines of its listing, and there is no
//! other; a frame is in its process's column; and the content of an element has no markup.
#![tactic(auto)]

ghost use Rattle.def_picture.specs.Laws.{PictureShowsTheEvents, PictureShowsTheListing, PictureShowsSessionsAlone};
ghost use Rattle.def_picture.specs.Laws.{FrameIsInItsColumn, ColumnsAreSideBySide, XmlTextIsContent};

/// Each event and command of a run has a row of its picture, in their order. The messages of a session in the rows
/// are the lines of its listing, each once and in their order, and each message in a row is of a session of the
/// control list.
pub fn a_picture_shows_the_listing()
    ensures events { PictureShowsTheEvents }
    ensures listing { PictureShowsTheListing }
    ensures alone { PictureShowsSessionsAlone }
{}

/// The columns of processes are side by side, and each frame of a process is drawn in its own.
pub fn a_frame_is_in_its_column()
    ensures frame { FrameIsInItsColumn }
    ensures columns { ColumnsAreSideBySide }
{}

/// The content of an element of the graphic has no markup, whatever the text.
pub fn a_content_has_no_markup()
    ensures { XmlTextIsContent }
{}
