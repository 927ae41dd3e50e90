//! The picture of a run: each event and command is a row, each process a column, each message of a session a mark.
//!
//! Depends on tn_trace, tn_run, tn_formats, def_picture and the kit's `json`. Promises that `picture_of` is the picture
//! of the program's run, `svg_text`, `plain_text` and `picture_json` are its texts, and `draw` writes exactly that
//! text, or the line of the one refusal.
#![tactic(auto)]

mod job;
mod json_picture;
mod label;
mod life;
mod painter;
mod picture;
mod plain;
mod request;
mod row;
mod shape;
mod slots;
mod svg;
mod templates;

pub use job::{draw, picture_text};
pub use json_picture::picture_json;
pub use life::Life;
pub use picture::{Picture, picture_of};
pub use plain::plain_text;
pub use request::{DrawOutcome, DrawRequest, PictureFormat};
pub use row::{Report, Row};
pub use shape::Shape;
pub use svg::svg_text;
