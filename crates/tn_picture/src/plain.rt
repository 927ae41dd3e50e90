// The text of a picture for a terminal.
ghost use Rattle.std.specs.Prelude.{◌≡◌, ◌++◌, ◌∷◌, [], ◌-◌, OnOk, IfOk, flat_map, length, map, replicate};
ghost use Rattle.def_term.specs.Text.{atom_text};
ghost use Rattle.def_picture.specs.Plain.{pad, life_cell, arrow_cell, mark_cell, shape_cell, cell_text};
ghost use Rattle.def_picture.specs.Plain.{reporters_text, row_plain, session_plain};
ghost use Rattle.def_picture.specs.Plain.{lives_plain, plain_text};
ghost use Rattle.def_picture.specs.Templates.{each_numbered, fill};
ghost use Rattle.tn_picture.specs.Views.{life_seen, report_seen, picture_row_seen, row_shape_seen, picture_seen};

use crate::life::{Life, column_of};
use crate::picture::Picture;
use crate::row::{Report, Row, row_text};
use crate::shape::Shape;
use crate::templates::{put_filled, put_text};
use itoa::Buffer;
use std::alloc::{AllocError, Allocator};
use tn_term::Atom;
use tn_text::write_atom;

/// Appends a letter so many times.
fn put_letters<A: Allocator>(
    count: usize,
    letter: u8,
    out: &mut Vec<u8, A>,
) -> Result<(), AllocError>
    ensures { OnOk result (out.new.items ≡ out.old.items ++ replicate count letter) }
{
    for _ in 0..count {
        out.push(letter)?;
    }
    Ok(())
}

/// Appends a text with this letter after it, to a width.
#[tactic(auto, unfolding(def_picture::specs::Plain::pad))]
fn put_padded<A: Allocator>(
    width: usize,
    letter: u8,
    text: &[u8],
    out: &mut Vec<u8, A>,
) -> Result<(), AllocError>
    ensures { OnOk result (out.new.items ≡ out.old.items ++ pad width letter text.now) }
{
    put_text(text, out)?;
    put_letters(width.saturating_sub(text.len()), letter, out)
}

/// Appends a template with one number in it, with blanks after it, to a width.
fn put_padded_number<A: Allocator + Copy>(
    alloc: A,
    width: usize,
    template: &[u8],
    number: u128,
    out: &mut Vec<u8, A>,
) -> Result<(), AllocError>
    ensures { OnOk result (out.new.items ≡ out.old.items ++ pad width 32 (fill template.now (number ∷ []))) }
{
    let mut text = Vec::new(alloc);
    put_filled(template, &[number], &mut text)?;
    put_padded(width, b' ', &text, out)
}

/// A cell of a row: where a process has nothing else there, its life line.
#[derive(Clone, Copy)]
struct Cell {
    column: usize,
    row: usize,
    life: Life,
}

impl Cell {
    ghost use Rattle.std.specs.Prelude.{◌≡◌, ◌++◌, ◌∷◌, [], OnOk, map};
    ghost use Rattle.def_picture.specs.Plain.{life_cell, arrow_cell, mark_cell, shape_cell};
    ghost use Rattle.def_picture.specs.Templates.{fill};
    ghost use Rattle.tn_picture.specs.Views.{life_seen, row_shape_seen};
    ghost use Rattle.tn_picture.specs.Cells.{cell_life};

    /// Appends the life line of the process, where it lives.
    #[tactic(auto, unfolding(def_picture::specs::Plain::life_cell))]
    fn put_life<A: Allocator>(&self, out: &mut Vec<u8, A>) -> Result<(), AllocError>
        ensures { OnOk result (out.new.items ≡ out.old.items ++ cell_life self.now) }
    {
        if self.life.first <= self.row && self.row <= self.life.last {
            put_padded(12, b' ', b"|", out)
        } else {
            put_padded(12, b' ', b"", out)
        }
    }

    /// Appends what an arrow between two columns has there.
    #[tactic(auto, unfolding(def_picture::specs::Plain::arrow_cell))]
    fn put_arrow<A: Allocator>(
        &self,
        source: usize,
        target: usize,
        out: &mut Vec<u8, A>,
    ) -> Result<(), AllocError>
        ensures { OnOk result (out.new.items ≡ out.old.items ++
            arrow_cell source target self.now.column (cell_life self.now)) }
    {
        let column = self.column;
        if column == source {
            let letter = if source < target { b'-' } else { b' ' };
            return put_padded(12, letter, b"*", out);
        }
        if column == target {
            let letter = if target < source { b'-' } else { b' ' };
            let head: &[u8] = if source < target { b">" } else { b"<" };
            return put_padded(12, letter, head, out);
        }
        if source < column && column < target || target < column && column < source {
            return put_padded(12, b'-', b"", out);
        }
        self.put_life(out)
    }

    /// Appends a mark, in the column of its process.
    #[tactic(auto, unfolding(def_picture::specs::Plain::mark_cell))]
    fn put_mark<A: Allocator>(
        &self,
        column: usize,
        mark: &[u8],
        out: &mut Vec<u8, A>,
    ) -> Result<(), AllocError>
        ensures { OnOk result (out.new.items ≡ out.old.items ++
            mark_cell column self.now.column mark.now (cell_life self.now)) }
    {
        if self.column == column {
            put_padded(12, b' ', mark, out)
        } else {
            self.put_life(out)
        }
    }

    /// Appends a mark with a depth, in the column of its process.
    fn put_frame<A: Allocator + Copy>(
        &self,
        alloc: A,
        column: usize,
        template: &[u8],
        depth: usize,
        out: &mut Vec<u8, A>,
    ) -> Result<(), AllocError>
        ensures { OnOk result (out.new.items ≡ out.old.items ++
            mark_cell column self.now.column (fill template.now (depth ∷ [])) (cell_life self.now)) }
    {
        let mut mark = Vec::new(alloc);
        put_filled(template, &[depth as u128], &mut mark)?;
        self.put_mark(column, &mark, out)
    }

    /// Appends what a shape has there.
    #[tactic(auto, unfolding(def_picture::specs::Plain::shape_cell))]
    fn put_shape<A: Allocator + Copy>(
        &self,
        alloc: A,
        lives: &[Life],
        shape: Shape,
        out: &mut Vec<u8, A>,
    ) -> Result<(), AllocError>
        ensures { OnOk result (out.new.items ≡ out.old.items ++
            shape_cell (map life_seen lives.now) self.now.column (row_shape_seen shape) (cell_life self.now)) }
    {
        match shape {
            Shape::Arrow { source, target } => {
                self.put_arrow(column_of(lives, source), column_of(lives, target), out)
            }
            Shape::FrameStart { pid, depth } => {
                self.put_frame(alloc, column_of(lives, pid), b"[@", depth, out)
            }
            Shape::FrameEnd { pid, depth } => {
                self.put_frame(alloc, column_of(lives, pid), b"]@", depth, out)
            }
            Shape::Birth { pid } => self.put_mark(column_of(lives, pid), b"+", out),
            Shape::Death { pid } => self.put_mark(column_of(lives, pid), b"x", out),
            Shape::Dot { pid } => self.put_mark(column_of(lives, pid), b"o", out),
            Shape::CommandLine => put_padded(12, b' ', b"===========", out),
        }
    }
}

/// Appends the cells of a row.
#[tactic(auto, unfolding(def_picture::specs::Plain::cell_text))]
fn put_cells<A: Allocator + Copy>(
    alloc: A,
    lives: &[Life],
    row: usize,
    shape: Shape,
    out: &mut Vec<u8, A>,
) -> Result<(), AllocError>
    ensures { OnOk result (out.new.items ≡ out.old.items ++
        each_numbered (cell_text (map life_seen lives.now) row (row_shape_seen shape)) 0 (map life_seen lives.now)) }
{
    for column in 0..lives.len() {
        let life = lives[column];
        let cell = Cell { column, row, life };
        cell.put_shape(alloc, lives, shape, out)?;
    }
    Ok(())
}

/// Appends the numbers of the sessions that report a row.
#[tactic(auto, unfolding(def_picture::specs::Plain::reporters_text))]
fn put_reporters<A: Allocator>(
    reports: &[Report<A>],
    out: &mut Vec<u8, A>,
) -> Result<(), AllocError>
    ensures { OnOk result (out.new.items ≡ out.old.items ++ reporters_text (map report_seen reports.now)) }
{
    for report in reports {
        put_filled(b" =>@", &[report.session as u128], out)?;
    }
    Ok(())
}

/// Appends a row: the number of its move, its cells, what it shows and who reports it.
#[tactic(auto, unfolding(def_picture::specs::Plain::row_plain))]
fn put_row<A: Allocator + Copy>(
    alloc: A,
    lives: &[Life],
    number: usize,
    row: &Row<A>,
    out: &mut Vec<u8, A>,
) -> Result<(), AllocError>
    ensures { OnOk result (out.new.items ≡ out.old.items ++
        row_plain (map life_seen lives.now) number (picture_row_seen row.now)) }
{
    let mut buffer = Buffer::new();
    put_padded(8, b' ', buffer.format(row.move_number).as_bytes(), out)?;
    put_cells(alloc, lives, number, row.shape, out)?;
    put_text(row_text(row), out)?;
    put_reporters(&row.reports, out)?;
    put_text(b"\n", out)
}

/// Appends the rows.
fn put_rows<A: Allocator + Copy>(
    alloc: A,
    lives: &[Life],
    rows: &[Row<A>],
    out: &mut Vec<u8, A>,
) -> Result<(), AllocError>
    ensures { OnOk result (out.new.items ≡ out.old.items ++
        each_numbered (row_plain (map life_seen lives.now)) 0 (map picture_row_seen rows.now)) }
{
    for number in 0..rows.len() {
        put_row(alloc, lives, number, &rows[number], out)?;
    }
    Ok(())
}

/// Appends the written text of an atom.
fn put_atom<A: Allocator>(name: &Atom<A>, out: &mut Vec<u8, A>) -> Result<(), AllocError>
    ensures { OnOk result (out.new.items ≡ out.old.items ++ atom_text name.now) }
{
    write_atom(name, out)
}

/// Appends the number and the name of a session.
#[tactic(auto, unfolding(def_picture::specs::Plain::session_plain))]
fn put_session<A: Allocator>(
    number: u64,
    name: &Atom<A>,
    out: &mut Vec<u8, A>,
) -> Result<(), AllocError>
    ensures { OnOk result (out.new.items ≡ out.old.items ++ session_plain number name.now) }
{
    put_filled(b"=>@ session ", &[number as u128], out)?;
    put_atom(name, out)?;
    put_text(b"\n", out)
}

/// Appends the numbers and the names of the sessions.
fn put_sessions<A: Allocator>(sessions: &[Atom<A>], out: &mut Vec<u8, A>) -> Result<(), AllocError>
    ensures { OnOk result (out.new.items ≡ out.old.items ++ each_numbered session_plain 1 sessions.now) }
{
    for place in 0..sessions.len() {
        put_session(place as u64 + 1, &sessions[place], out)?;
    }
    Ok(())
}

/// Appends the pid of each process over its column.
#[tactic(auto, unfolding(def_picture::specs::Plain::lives_plain))]
fn put_pids<A: Allocator + Copy>(
    alloc: A,
    lives: &[Life],
    out: &mut Vec<u8, A>,
) -> Result<(), AllocError>
    ensures { OnOk result (out.new.items ≡ out.old.items ++ lives_plain (map life_seen lives.now)) }
{
    for life in lives {
        put_padded_number(alloc, 12, b"<0.@.0>", life.pid as u128, out)?;
    }
    Ok(())
}

/// The text of a picture for a terminal.
///
/// # Errors
///
/// AllocError where memory was refused.
pub fn plain_text<A: Allocator + Copy>(
    alloc: A,
    picture: &Picture<A>,
) -> Result<Vec<u8, A>, AllocError>
    ensures { IfOk result (λ v. v.items ≡ plain_text (picture_seen picture.now)) }
{
    let mut out = Vec::new(alloc);
    put_sessions(&picture.sessions, &mut out)?;
    put_padded(8, b' ', b"", &mut out)?;
    put_pids(alloc, &picture.lives, &mut out)?;
    put_text(b"\n", &mut out)?;
    put_rows(alloc, &picture.lives, &picture.rows, &mut out)?;
    Ok(out)
}
