// Who moves by a piece of a text of moves.
ghost use Rattle.std.specs.Prelude.{◌≡◌, IfOk};
ghost use Rattle.std.specs.Str.{bytes_eq};
ghost use Rattle.def_term.specs.Text.{atom_text};
ghost use Rattle.def_moves.specs.Texts.{pids_named};
ghost use Rattle.tn_program.specs.Views.{program_of};
ghost use Rattle.tn_moves.specs.Readings.{IsMoverRead, IsNumberRead, IsOnly};

use std::alloc::{AllocError, Allocator};
use tn_listing::{PicksFault, read_picks};
use tn_program::Program;
use tn_term::Atom;
use tn_text::write_atom;

/// The pid of the first initial process.
const FIRST_PID: u32 = 100;

/// The number below 2^32 that a text writes without a leading zero.
///
/// # Errors
///
/// AllocError where memory was refused.
pub fn number<A: Allocator>(alloc: A, text: &[u8]) -> Result<Option<u32>, AllocError>
    ensures { IfOk result (IsNumberRead text.now) }
{
    match read_picks(alloc, text) {
        Ok(picks) => Ok(only(&picks)),
        Err(PicksFault::BadPicks) => Ok(None),
        Err(PicksFault::OutOfMemory) => Err(AllocError),
    }
}

/// Whether the atom is written so.
fn is_written<A: Allocator, B: Allocator>(
    alloc: A,
    atom: &Atom<B>,
    name: &[u8],
) -> Result<bool, AllocError>
    ensures { IfOk result (λ b. b ≡ bytes_eq name.now (atom_text atom.now)) }
{
    let mut text = Vec::new(alloc);
    write_atom(atom, &mut text)?;
    Ok(name == text.as_slice())
}

/// The initial processes of a program whose function's name is written so, in order.
///
/// # Errors
///
/// AllocError where memory was refused.
pub fn pids_named<A: Allocator + Copy>(
    alloc: A,
    program: &Program<A>,
    name: &[u8],
) -> Result<Vec<u32, A>, AllocError>
    ensures { IfOk result (λ v. v.items ≡ pids_named (program_of program.now) name.now) }
{
    let entries = program.entries();
    let mut pids = Vec::new(alloc);
    for (i, entry) in entries.iter().enumerate() {
        if is_written(alloc, &entry.name, name)? {
            pids.push(FIRST_PID + i as u32)?;
        }
    }
    Ok(pids)
}

/// The only one of a list, where there is just one.
fn only(picks: &[u32]) -> Option<u32>
    ensures { IsOnly picks.now result }
{
    if picks.len() == 1 {
        Some(picks[0])
    } else {
        None
    }
}

/// The pick that a text says: a number, or the one initial process of that name.
pub(crate) fn mover<A: Allocator + Copy>(
    alloc: A,
    program: &Program<A>,
    text: &[u8],
) -> Result<Option<u32>, AllocError>
    ensures { IfOk result (IsMoverRead (program_of program.now) text.now) }
{
    let [first, ..] = text else {
        return Ok(None);
    };
    if first.is_ascii_digit() {
        return number(alloc, text);
    }
    let pids = pids_named(alloc, program, text)?;
    Ok(only(&pids))
}
