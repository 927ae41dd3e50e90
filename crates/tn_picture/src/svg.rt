// The text of a picture as a graphic.
ghost use Rattle.std.specs.Prelude.{◌≡◌, ◌++◌, ◌<◌, ◌≤◌, ◌*◌, ◌^◌, OnOk, IfOk, codes, flat_map, length, map, sum};
ghost use Rattle.def_term.specs.Text.{atom_text};
ghost use Rattle.def_picture.specs.Svg.{column_width, column_x, process_x, columns_end, row_y, session_x};
ghost use Rattle.def_picture.specs.Svg.{hue_of, longest_text, is_long, first_letters, whole_svg};
ghost use Rattle.def_picture.specs.Svg.{columns_shift, columns_svg};
ghost use Rattle.def_picture.specs.Svg.{arrow_svg, shape_svg, group_svg, spot_svg, report_svg, dashed_svg};
ghost use Rattle.def_picture.specs.Svg.{marks_svg, move_svg, label_svg, row_text_svg, row_marks_svg};
ghost use Rattle.def_picture.specs.Svg.{legend_svg, session_svg, life_svg, width_of, height_of, head_svg, svg_text};
ghost use Rattle.def_picture.specs.Templates.{each_numbered, xml_text};
ghost use Rattle.tn_picture.specs.Views.{life_seen, report_seen, picture_row_seen, row_shape_seen, picture_seen};

use crate::life::{Life, column_of};
use crate::picture::Picture;
use crate::row::{Report, Row, row_text};
use crate::shape::Shape;
use crate::templates::{put_filled, put_text, put_xml};
use std::alloc::{AllocError, Allocator};
use tn_term::Atom;
use tn_text::write_atom;

// ---- places

/// How many frames a process has at most.
const FRAMES: usize = 64;

/// The width of the column of a process, with room for its deepest frame.
fn column_width(life: &Life) -> u128
    ensures width { result ≡ column_width (life_seen life.now) }
    ensures fits { result ≤ 552 }
{
    let room = 8 * life.depth.min(FRAMES) + 40;
    room.max(110) as u128
}

/// The width of all columns.
fn columns_width(lives: &[Life]) -> u128
    ensures width { result ≡ sum (map column_width (map life_seen lives.now)) }
    ensures fits { result ≤ 552 * length lives.now }
{
    let mut width = 0;
    for life in lives {
        width += column_width(life);
    }
    width
}

/// The line of the process in a column; that of the column after the last one is where the last one ends.
#[tactic(auto, using(crate::proofs::Places::seen_front))]
fn column_x(lives: &[Life], column: usize) -> u128
    ensures x { result ≡ column_x (map life_seen lives.now) column }
    ensures fits { result < 2 ^ 80 }
{
    if column < lives.len() {
        80 + columns_width(&lives[..column])
    } else {
        80 + columns_width(lives)
    }
}

/// The line of a process.
fn process_x(lives: &[Life], pid: u32) -> u128
    ensures x { result ≡ process_x (map life_seen lives.now) pid }
    ensures fits { result < 2 ^ 80 }
{
    column_x(lives, column_of(lives, pid))
}

/// Where the columns end.
#[tactic(auto, using(crate::proofs::Places::seen_count))]
fn columns_end(lives: &[Life]) -> u128
    ensures x { result ≡ columns_end (map life_seen lives.now) }
    ensures fits { result < 2 ^ 80 }
{
    column_x(lives, lives.len())
}

/// How many rows there are.
#[tactic(auto, using(crate::proofs::Places::seen_count))]
fn count_of<A: Allocator>(rows: &[Row<A>]) -> usize
    ensures { result ≡ length (map picture_row_seen rows.now) }
{
    rows.len()
}

/// The line of a row.
fn row_y(sessions: usize, row: usize) -> u128
    ensures { result ≡ row_y sessions row }
{
    80 + 20 * sessions as u128 + 24 * row as u128
}

/// The line of a session's messages.
fn session_x(lives: &[Life], session: u64) -> u128
    ensures x { result ≡ session_x (map life_seen lives.now) session }
    ensures fits { result < 2 ^ 81 }
{
    columns_end(lives) + 20 * session as u128
}

/// The colour of a session.
fn hue_of(session: u64) -> u128
    ensures { result ≡ hue_of session }
{
    137 * session as u128
}

// ---- shapes

/// Appends an arrow to the right or to the left.
#[tactic(auto, unfolding(def_picture::specs::Svg::arrow_svg))]
fn put_arrow<A: Allocator>(
    x1: u128,
    x2: u128,
    y: u128,
    out: &mut Vec<u8, A>,
) -> Result<(), AllocError>
    ensures { OnOk result (out.new.items ≡ out.old.items ++ arrow_svg x1 x2 y) }
{
    if x1 < x2 {
        put_filled(b"<path d=\"M@ @H@l-8 -4m8 4l-8 4\"/>", &[x1, y, x2], out)
    } else {
        put_filled(b"<path d=\"M@ @H@l8 -4m-8 4l8 4\"/>", &[x1, y, x2], out)
    }
}

/// Appends a shape at this height.
#[tactic(auto, unfolding(def_picture::specs::Svg::shape_svg))]
fn put_shape<A: Allocator>(
    lives: &[Life],
    y: u128,
    shape: Shape,
    out: &mut Vec<u8, A>,
) -> Result<(), AllocError>
    ensures { OnOk result (out.new.items ≡ out.old.items ++
        shape_svg (map life_seen lives.now) y (row_shape_seen shape)) }
{
    match shape {
        Shape::Arrow { source, target } => {
            let x1 = process_x(lives, source);
            let x2 = process_x(lives, target);
            put_arrow(x1, x2, y, out)
        }
        Shape::FrameStart { pid, depth } => {
            let x = process_x(lives, pid) + 8 * depth as u128;
            put_filled(b"<path d=\"M@ @v-6l9 6l-9 6z\"/>", &[x, y], out)
        }
        Shape::FrameEnd { pid, depth } => {
            let x = process_x(lives, pid) + 8 * depth as u128;
            put_filled(b"<path d=\"M@ @l9 -6v12z\"/>", &[x, y], out)
        }
        Shape::Birth { pid } => {
            let x = process_x(lives, pid);
            put_filled(b"<circle cx=\"@\" cy=\"@\" r=\"6\"/>", &[x, y], out)
        }
        Shape::Death { pid } => {
            let x = process_x(lives, pid);
            put_filled(b"<path d=\"M@ @m-6 -6l12 12m0 -12l-12 12\"/>", &[x, y], out)
        }
        Shape::Dot { pid } => {
            let x = process_x(lives, pid);
            put_filled(b"<circle cx=\"@\" cy=\"@\" r=\"3\"/>", &[x, y], out)
        }
        Shape::CommandLine => {
            let x = columns_end(lives);
            put_filled(b"<path d=\"M50 @H@\"/>", &[y, x], out)
        }
    }
}

// ---- rows

/// Appends the start of a group in the colour of a session, and of its tooltip.
#[tactic(auto, unfolding(def_picture::specs::Svg::group_svg))]
fn put_group<A: Allocator>(session: u64, out: &mut Vec<u8, A>) -> Result<(), AllocError>
    ensures { OnOk result (out.new.items ≡ out.old.items ++ group_svg session) }
{
    let hue = hue_of(session);
    put_filled(
        b"<g fill=\"none\" stroke=\"hsl(@,90%,35%)\" stroke-width=\"2\"><title>",
        &[hue],
        out,
    )
}

/// Appends a spot on the line of a session, and the end of its group.
#[tactic(auto, unfolding(def_picture::specs::Svg::spot_svg))]
fn put_spot<A: Allocator>(
    lives: &[Life],
    session: u64,
    y: u128,
    out: &mut Vec<u8, A>,
) -> Result<(), AllocError>
    ensures { OnOk result (out.new.items ≡ out.old.items ++ spot_svg (map life_seen lives.now) session y) }
{
    let x = session_x(lives, session);
    let hue = hue_of(session);
    put_filled(
        b"<circle cx=\"@\" cy=\"@\" r=\"4\" fill=\"hsl(@,90%,35%)\"/></g>\n",
        &[x, y, hue],
        out,
    )
}

/// Appends a message: the row's shape and a spot in the colour of the session, with the message as tooltip.
#[tactic(auto, unfolding(def_picture::specs::Svg::report_svg))]
fn put_report<A: Allocator>(
    lives: &[Life],
    y: u128,
    shape: Shape,
    report: &Report<A>,
    out: &mut Vec<u8, A>,
) -> Result<(), AllocError>
    ensures { OnOk result (out.new.items ≡ out.old.items ++
        report_svg (map life_seen lives.now) y (row_shape_seen shape) (report_seen report.now)) }
{
    put_group(report.session, out)?;
    put_xml(&report.text, out)?;
    put_text(b"</title>", out)?;
    put_shape(lives, y, shape, out)?;
    put_spot(lives, report.session, y, out)
}

/// Appends the messages of a row.
fn put_reports<A: Allocator>(
    lives: &[Life],
    y: u128,
    shape: Shape,
    reports: &[Report<A>],
    out: &mut Vec<u8, A>,
) -> Result<(), AllocError>
    ensures { OnOk result (out.new.items ≡ out.old.items ++
        flat_map (report_svg (map life_seen lives.now) y (row_shape_seen shape)) (map report_seen reports.now)) }
{
    for report in reports {
        put_report(lives, y, shape, report, out)?;
    }
    Ok(())
}

/// How many sessions report a row.
#[tactic(auto, using(crate::proofs::Places::seen_count))]
fn reporters_of<A: Allocator>(reports: &[Report<A>]) -> usize
    ensures { result ≡ length (map report_seen reports.now) }
{
    reports.len()
}

/// Appends a shape that no session reports: it is dashed.
#[tactic(auto, unfolding(def_picture::specs::Svg::dashed_svg))]
fn put_dashed<A: Allocator>(
    lives: &[Life],
    y: u128,
    shape: Shape,
    out: &mut Vec<u8, A>,
) -> Result<(), AllocError>
    ensures { OnOk result (out.new.items ≡ out.old.items ++
        dashed_svg (map life_seen lives.now) y (row_shape_seen shape)) }
{
    put_text(
        b"<g fill=\"none\" stroke=\"#777\" stroke-dasharray=\"3 1\">",
        out,
    )?;
    put_shape(lives, y, shape, out)?;
    put_text(b"</g>\n", out)
}

/// Appends the marks of a row.
#[tactic(auto, unfolding(def_picture::specs::Svg::marks_svg))]
fn put_marks<A: Allocator>(
    lives: &[Life],
    y: u128,
    shape: Shape,
    reports: &[Report<A>],
    out: &mut Vec<u8, A>,
) -> Result<(), AllocError>
    ensures { OnOk result (out.new.items ≡ out.old.items ++
        marks_svg (map life_seen lives.now) y (row_shape_seen shape) (map report_seen reports.now)) }
{
    if reporters_of(reports) == 0 {
        put_dashed(lives, y, shape, out)?;
    }
    put_reports(lives, y, shape, reports, out)
}

/// Appends the number of a move.
#[tactic(auto, unfolding(def_picture::specs::Svg::move_svg))]
fn put_move<A: Allocator>(y: u128, move_number: u64, out: &mut Vec<u8, A>) -> Result<(), AllocError>
    requires { y < 2 ^ 127 }
    ensures { OnOk result (out.new.items ≡ out.old.items ++ move_svg y move_number) }
{
    put_filled(
        b"<text x=\"8\" y=\"@\">@</text>",
        &[y + 4, move_number as u128],
        out,
    )
}

/// Appends the start of a text at this place, which is grey where no session reports the row.
#[tactic(auto, unfolding(def_picture::specs::Svg::label_svg))]
fn put_label_start<A: Allocator>(
    x: u128,
    y: u128,
    reports: &[Report<A>],
    out: &mut Vec<u8, A>,
) -> Result<(), AllocError>
    requires { y < 2 ^ 127 }
    ensures { OnOk result (out.new.items ≡ out.old.items ++ label_svg x y (map report_seen reports.now)) }
{
    if reporters_of(reports) == 0 {
        put_filled(b"<text x=\"@\" y=\"@\" fill=\"#777\">", &[x, y + 4], out)
    } else {
        put_filled(b"<text x=\"@\" y=\"@\">", &[x, y + 4], out)
    }
}

/// How many letters of a text are shown.
const MOST_LETTERS: usize = 100;

/// Whether a text has more letters than are shown.
fn is_long(text: &[u8]) -> bool
    ensures { result ≡ is_long text.now }
{
    text.len() > MOST_LETTERS
}

/// Appends a long text whole, as a tooltip.
fn put_whole<A: Allocator>(text: &[u8], out: &mut Vec<u8, A>) -> Result<(), AllocError>
    ensures { OnOk result (out.new.items ≡ out.old.items ++ whole_svg text.now) }
{
    if !is_long(text) {
        return Ok(());
    }
    put_text(b"<title>", out)?;
    put_xml(text, out)?;
    put_text(b"</title>", out)
}

/// Appends the first letters of a text, and two dots where there are more.
#[tactic(auto, using(crate::proofs::Cuts::long_cut, crate::proofs::Cuts::short_cut, crate::proofs::Cuts::front))]
fn put_cut<A: Allocator>(text: &[u8], out: &mut Vec<u8, A>) -> Result<(), AllocError>
    ensures { OnOk result (out.new.items ≡ out.old.items ++ xml_text (first_letters text.now)) }
{
    if text.len() <= MOST_LETTERS {
        return put_xml(text, out);
    }
    put_xml(&text[..MOST_LETTERS], out)?;
    put_text(b"..", out)
}

/// Where the texts of the rows begin.
const TEXT_X: u128 = 60;

/// Appends the text of a row: the number of its move, and what it shows.
#[tactic(auto, unfolding(def_picture::specs::Svg::row_text_svg))]
fn put_row_text<A: Allocator>(
    sessions: usize,
    number: usize,
    row: &Row<A>,
    out: &mut Vec<u8, A>,
) -> Result<(), AllocError>
    ensures { OnOk result (out.new.items ≡ out.old.items ++
        row_text_svg sessions number (picture_row_seen row.now)) }
{
    let y = row_y(sessions, number);
    let text = row_text(row);
    put_move(y, row.move_number, out)?;
    put_label_start(TEXT_X, y, &row.reports, out)?;
    put_whole(text, out)?;
    put_cut(text, out)?;
    put_text(b"</text>\n", out)
}

/// Appends the texts of the rows.
fn put_row_texts<A: Allocator>(
    sessions: usize,
    rows: &[Row<A>],
    out: &mut Vec<u8, A>,
) -> Result<(), AllocError>
    ensures { OnOk result (out.new.items ≡ out.old.items ++
        each_numbered (row_text_svg sessions) 0 (map picture_row_seen rows.now)) }
{
    for number in 0..rows.len() {
        put_row_text(sessions, number, &rows[number], out)?;
    }
    Ok(())
}

/// Appends the marks of a row.
#[tactic(auto, unfolding(def_picture::specs::Svg::row_marks_svg))]
fn put_row_marks<A: Allocator>(
    sessions: usize,
    lives: &[Life],
    number: usize,
    row: &Row<A>,
    out: &mut Vec<u8, A>,
) -> Result<(), AllocError>
    ensures { OnOk result (out.new.items ≡ out.old.items ++
        row_marks_svg sessions (map life_seen lives.now) number (picture_row_seen row.now)) }
{
    let y = row_y(sessions, number);
    put_marks(lives, y, row.shape, &row.reports, out)
}

/// Appends the marks of the rows.
fn put_rows<A: Allocator>(
    sessions: usize,
    lives: &[Life],
    rows: &[Row<A>],
    out: &mut Vec<u8, A>,
) -> Result<(), AllocError>
    ensures { OnOk result (out.new.items ≡ out.old.items ++
        each_numbered (row_marks_svg sessions (map life_seen lives.now)) 0 (map picture_row_seen rows.now)) }
{
    for number in 0..rows.len() {
        put_row_marks(sessions, lives, number, &rows[number], out)?;
    }
    Ok(())
}

// ---- the header

/// Appends the start of the name of a session, in its colour.
#[tactic(auto, unfolding(def_picture::specs::Svg::legend_svg))]
fn put_legend<A: Allocator>(number: u64, out: &mut Vec<u8, A>) -> Result<(), AllocError>
    ensures { OnOk result (out.new.items ≡ out.old.items ++ legend_svg number) }
{
    put_filled(
        b"<text x=\"60\" y=\"@\" fill=\"hsl(@,90%,35%)\">session ",
        &[10 + 20 * number as u128, hue_of(number)],
        out,
    )
}

/// The written text of an atom.
fn atom_text<A: Allocator>(alloc: A, name: &Atom<A>) -> Result<Vec<u8, A>, AllocError>
    ensures { IfOk result (λ v. v.items ≡ atom_text name.now) }
{
    let mut text = Vec::new(alloc);
    write_atom(name, &mut text)?;
    Ok(text)
}

/// Appends the name of a session.
#[tactic(auto, unfolding(def_picture::specs::Svg::session_svg))]
fn put_session<A: Allocator>(
    alloc: A,
    number: u64,
    name: &Atom<A>,
    out: &mut Vec<u8, A>,
) -> Result<(), AllocError>
    ensures { OnOk result (out.new.items ≡ out.old.items ++ session_svg number name.now) }
{
    let text = atom_text(alloc, name)?;
    put_legend(number, out)?;
    put_xml(&text, out)?;
    put_text(b"</text>\n", out)
}

/// Appends the names of the sessions.
fn put_sessions<A: Allocator + Copy>(
    alloc: A,
    sessions: &[Atom<A>],
    out: &mut Vec<u8, A>,
) -> Result<(), AllocError>
    ensures { OnOk result (out.new.items ≡ out.old.items ++ each_numbered session_svg 1 sessions.now) }
{
    for place in 0..sessions.len() {
        put_session(alloc, place as u64 + 1, &sessions[place], out)?;
    }
    Ok(())
}

/// Appends the pid of a process over its life line.
#[tactic(auto, unfolding(def_picture::specs::Svg::life_svg))]
fn put_life<A: Allocator>(
    lives: &[Life],
    sessions: usize,
    column: usize,
    life: &Life,
    out: &mut Vec<u8, A>,
) -> Result<(), AllocError>
    ensures { OnOk result (out.new.items ≡ out.old.items ++
        life_svg (map life_seen lives.now) sessions column (life_seen life.now)) }
{
    let x = column_x(lives, column);
    put_filled(
        b"<text x=\"@\" y=\"@\" text-anchor=\"middle\">&lt;0.@.0&gt;</text><path d=\"M@ @V@\" stroke=\"#bbb\"/>\n",
        &[
            x,
            50 + 20 * sessions as u128,
            life.pid as u128,
            x,
            row_y(sessions, life.first),
            row_y(sessions, life.last),
        ],
        out,
    )
}

/// Appends the life lines.
fn put_lives<A: Allocator>(
    sessions: usize,
    lives: &[Life],
    out: &mut Vec<u8, A>,
) -> Result<(), AllocError>
    ensures { OnOk result (out.new.items ≡ out.old.items ++
        each_numbered (life_svg (map life_seen lives.now) sessions) 0 (map life_seen lives.now)) }
{
    for column in 0..lives.len() {
        put_life(lives, sessions, column, &lives[column], out)?;
    }
    Ok(())
}

// ---- the whole

/// How many letters of a text are shown, with the dots.
#[tactic(auto, using(crate::proofs::Cuts::long_letters, crate::proofs::Cuts::short_letters))]
fn shown_letters(text: &[u8]) -> usize
    ensures letters { result ≡ length (first_letters text.now) }
    ensures few { result ≤ 102 }
{
    if text.len() > MOST_LETTERS {
        MOST_LETTERS + 2
    } else {
        text.len()
    }
}

/// The length of the longest text of a row, as it is shown.
fn longest_text<A: Allocator>(rows: &[Row<A>]) -> usize
    ensures length { result ≡ longest_text (map picture_row_seen rows.now) }
    ensures few { result ≤ 102 }
{
    let mut longest = 0;
    for row in rows {
        longest = longest.max(shown_letters(row_text(row)));
    }
    longest
}

/// How far the columns are moved to the right, so that they are beside the texts.
#[tactic(auto, unfolding(def_picture::specs::Svg::columns_shift))]
fn columns_shift<A: Allocator>(picture: &Picture<A>) -> u128
    ensures shift { result ≡ columns_shift (picture_seen picture.now) }
    ensures few { result ≤ 826 }
{
    8 * longest_text(&picture.rows) as u128 + 10
}

/// The width.
#[tactic(auto, unfolding(def_picture::specs::Svg::width_of))]
fn width_of<A: Allocator>(picture: &Picture<A>) -> u128
    ensures { result ≡ width_of (picture_seen picture.now) }
{
    let sessions = picture.sessions.len() as u64;
    columns_shift(picture) + session_x(&picture.lives, sessions) + 20
}

/// The height.
#[tactic(auto, unfolding(def_picture::specs::Svg::height_of))]
fn height_of<A: Allocator>(picture: &Picture<A>) -> u128
    ensures { result ≡ height_of (picture_seen picture.now) }
{
    row_y(picture.sessions.len(), count_of(&picture.rows))
}

/// Appends the root element.
#[tactic(auto, unfolding(def_picture::specs::Svg::head_svg))]
fn put_head<A: Allocator>(width: u128, height: u128, out: &mut Vec<u8, A>) -> Result<(), AllocError>
    ensures { OnOk result (out.new.items ≡ out.old.items ++ head_svg width height) }
{
    put_filled(
        b"<svg xmlns=\"http://www.w3.org/2000/svg\" width=\"@\" height=\"@\" font-family=\"monospace\" font-size=\"13\">\n<rect width=\"100%\" height=\"100%\" fill=\"#fff\"/>\n",
        &[width, height],
        out,
    )
}

/// Appends the start of the columns.
#[tactic(auto, unfolding(def_picture::specs::Svg::columns_svg))]
fn put_columns<A: Allocator>(shift: u128, out: &mut Vec<u8, A>) -> Result<(), AllocError>
    ensures { OnOk result (out.new.items ≡ out.old.items ++ columns_svg shift) }
{
    put_filled(b"<g transform=\"translate(@)\">\n", &[shift], out)
}

/// The text of a picture as a graphic.
///
/// # Errors
///
/// AllocError where memory was refused.
pub fn svg_text<A: Allocator + Copy>(
    alloc: A,
    picture: &Picture<A>,
) -> Result<Vec<u8, A>, AllocError>
    ensures { IfOk result (λ v. v.items ≡ svg_text (picture_seen picture.now)) }
{
    let mut out = Vec::new(alloc);
    let sessions = picture.sessions.len();
    put_head(width_of(picture), height_of(picture), &mut out)?;
    put_sessions(alloc, &picture.sessions, &mut out)?;
    put_row_texts(sessions, &picture.rows, &mut out)?;
    put_columns(columns_shift(picture), &mut out)?;
    put_lives(sessions, &picture.lives, &mut out)?;
    put_rows(sessions, &picture.lives, &picture.rows, &mut out)?;
    put_text(b"</g>\n</svg>\n", &mut out)?;
    Ok(out)
}
