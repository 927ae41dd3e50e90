// The life lines of a picture.
ghost use Rattle.std.specs.Prelude.{◌≡◌, ◌==◌, ◌<◌, ◌++◌, map, IfOk, OnOk, flat_map};
ghost use Rattle.std.specs.List.{position};
ghost use Rattle.def_run.specs.Round.{pass_from};
ghost use Rattle.def_picture.specs.Picture.{births, is_birth, is_death, deepest_frame, life_of, column_of, pids_of};
ghost use Rattle.tn_picture.specs.Views.{life_seen, picture_row_seen, row_shape_seen};

use crate::row::Row;
use crate::shape::Shape;
use std::alloc::{AllocError, Allocator};

/// The life of a process: the rows of its birth and of its death, which are numbered from 0, and the depth of its
/// deepest frame.
#[derive(Clone, Copy, Drop)]
pub struct Life {
    pub pid: u32,
    pub first: usize,
    pub last: usize,
    pub depth: usize,
}

/// The row of the birth of a process.
fn birth_row<A: Allocator>(rows: &[Row<A>], pid: u32) -> Option<usize>
    ensures { result ≡ position (λ r. is_birth pid (row_shape_seen r.shape)) rows.now }
{
    rows.iter().position(|row| row.shape.is_birth(pid))
}

/// The row of its death.
fn death_row<A: Allocator>(rows: &[Row<A>], pid: u32) -> Option<usize>
    ensures { result ≡ position (λ r. is_death pid (row_shape_seen r.shape)) rows.now }
{
    rows.iter().position(|row| row.shape.is_death(pid))
}

/// The depth of its deepest frame, 0 where it has none.
fn deepest_frame<A: Allocator>(rows: &[Row<A>], pid: u32) -> usize
    ensures { result ≡ deepest_frame (map picture_row_seen rows.now) pid }
{
    let mut deepest = 0;
    for row in rows {
        deepest = deepest.max(row.shape.frame_depth(pid));
    }
    deepest
}

/// The place of a process among these.
fn place_of(lives: &[Life], pid: u32) -> Option<usize>
    ensures { result ≡ position (λ l. l.pid == pid) lives.now }
{
    lives.iter().position(|life| life.pid == pid)
}

/// The life of a process in these rows.
fn life_of<A: Allocator>(rows: &[Row<A>], pid: u32) -> Life
    ensures { life_seen result ≡ life_of (map picture_row_seen rows.now) pid }
{
    Life {
        pid,
        first: birth_row(rows, pid).unwrap_or(0),
        last: death_row(rows, pid).unwrap_or(rows.len()),
        depth: deepest_frame(rows, pid),
    }
}

/// The column of a process, in order of birth; that of a pid which no process has is the one after them.
pub(crate) fn column_of(lives: &[Life], pid: u32) -> usize
    ensures { result ≡ column_of (map life_seen lives.now) pid }
{
    place_of(lives, pid).unwrap_or(lives.len())
}

/// The lives of the processes in the order of their births: those of so many entries, and those that are spawned.
pub(crate) fn lives_of<A: Allocator + Copy>(
    alloc: A,
    entries: usize,
    rows: &[Row<A>],
) -> Result<Vec<Life, A>, AllocError>
    requires { entries < 65536 }
    ensures { IfOk result (λ v. map life_seen v.items ≡
        map (life_of (map picture_row_seen rows.now)) (pids_of entries (map picture_row_seen rows.now))) }
{
    let mut lives = Vec::new(alloc);
    put_entries(entries, rows, &mut lives)?;
    put_births(rows, &mut lives)?;
    Ok(lives)
}

/// Appends the lives of the processes of so many entries.
fn put_entries<A: Allocator>(
    entries: usize,
    rows: &[Row<A>],
    lives: &mut Vec<Life, A>,
) -> Result<(), AllocError>
    requires { entries < 65536 }
    ensures { OnOk result (map life_seen lives.new.items ≡ map life_seen lives.old.items ++
        map (life_of (map picture_row_seen rows.now)) (pass_from entries 100)) }
{
    let end = 100 + entries as u32;
    for pid in 100..end {
        lives.push(life_of(rows, pid))?;
    }
    Ok(())
}

/// Appends the life of the process that a row gives birth to.
fn put_birth<A: Allocator>(
    shape: Shape,
    rows: &[Row<A>],
    lives: &mut Vec<Life, A>,
) -> Result<(), AllocError>
    ensures { OnOk result (map life_seen lives.new.items ≡ map life_seen lives.old.items ++
        map (life_of (map picture_row_seen rows.now)) (births (row_shape_seen shape))) }
{
    if let Shape::Birth { pid } = shape {
        lives.push(life_of(rows, pid))?;
    }
    Ok(())
}

/// Appends the lives of the processes that are spawned.
fn put_births<A: Allocator>(rows: &[Row<A>], lives: &mut Vec<Life, A>) -> Result<(), AllocError>
    ensures { OnOk result (map life_seen lives.new.items ≡ map life_seen lives.old.items ++
        map (life_of (map picture_row_seen rows.now))
        (flat_map (λ r. births r.shape) (map picture_row_seen rows.now))) }
{
    for row in rows {
        put_birth(row.shape, rows, lives)?;
    }
    Ok(())
}
