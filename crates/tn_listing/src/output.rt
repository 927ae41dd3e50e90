// The text of an output.
ghost use Rattle.std.specs.Prelude.{◌≡◌, ◌++◌, IfOk, OnOk};
ghost use Rattle.def_run.specs.Listing.{header_line, program_output};
ghost use Rattle.tn_listing.specs.Outputs.{OnItsPicks, Outputs, AppendsListing, SaysTheRest};
ghost use Rattle.tn_listing.specs.Outputs.{all_listings};

use crate::listing::put_header;
use crate::picks::write_picks;
use std::alloc::{AllocError, Allocator};
use tn_program::Program;
use tn_term::Atom;
use tn_trace::Transcript;

/// Puts the header of a session before its lines, which are copied to no other vector. After an `Err` the lines are
/// of no use.
fn put_header_before<A: Allocator>(
    name: &Atom<A>,
    tracer: &Atom<A>,
    lines: &mut Vec<u8, A>,
) -> Result<(), AllocError>
    ensures { OnOk result (lines.new.items ≡ header_line name.now tracer.now ++ lines.old.items) }
{
    let len = lines.len();
    put_header(name, tracer, lines)?;
    let header = lines.len() - len;
    lines.rotate_right(header);
    Ok(())
}

/// Appends the header of the session with this number, from 0, and these lines, which are its messages. Where nothing
/// is there yet, the lines become the text.
fn append_listing<A: Allocator + Copy>(
    text: &mut Vec<u8, A>,
    lines: Option<Vec<u8, A>>,
    program: &Program<A>,
    number: usize,
) -> Result<(), AllocError>
    ensures { AppendsListing program.now number lines result text.old text.new }
{
    let Some((name, tracer)) = program.session_at(number) else {
        return Ok(());
    };
    let Some(lines) = lines else {
        return Ok(());
    };
    if text.is_empty() {
        *text = lines;
        return Ok(put_header_before(name, tracer, text)?);
    }
    put_header(name, tracer, text)?;
    text.extend_from_slice(&lines)?;
    Ok(())
}

/// How many bytes the lines have that the transcript still has.
fn lines_left<A: Allocator + Copy>(transcript: &Transcript<A>, program: &Program<A>) -> usize {
    let mut bytes: usize = 0;
    for number in 0..program.session_count() {
        if let Some(lines) = transcript.lines(number) {
            bytes = bytes.saturating_add(lines.len());
        }
    }
    bytes
}

/// Makes room for the lines that the transcript still has, after those of the first session.
fn make_room<A: Allocator + Copy>(
    text: &mut Vec<u8, A>,
    transcript: &Transcript<A>,
    program: &Program<A>,
    number: usize,
) -> Result<(), AllocError>
    ensures { text.new.items ≡ text.old.items }
{
    if number > 0 {
        return Ok(());
    }
    text.try_reserve(lines_left(transcript, program))
}

/// Appends each session's header and messages. The lines of each leave the transcript before those of the next.
fn append_listings<A: Allocator + Copy>(
    text: &mut Vec<u8, A>,
    transcript: &mut Transcript<A>,
    program: &Program<A>,
) -> Result<(), AllocError>
    ensures listings { Outputs all_listings program.now transcript.old result text.old text.new }
    ensures rest { SaysTheRest transcript.old transcript.new }
{
    for number in 0..program.session_count() {
        let lines = transcript.take_lines(number);
        append_listing(text, lines, program, number)?;
        make_room(text, transcript, program, number)?;
    }
    Ok(())
}

/// The output of a run, whose transcript this is: each session's listing, the replies and the journal. The lines of the
/// first session become the output, and those of another are given back as soon as they are in it, so that they are in
/// memory once.
///
/// # Errors
///
/// AllocError where memory was refused.
pub fn transcript_output<A: Allocator + Copy>(
    alloc: A,
    transcript: Transcript<A>,
    program: &Program<A>,
) -> Result<Vec<u8, A>, AllocError>
    ensures { OnItsPicks program.now transcript (λ p picks. IfOk result (λ v. v.items ≡ program_output p picks)) }
{
    let mut transcript = transcript;
    let mut text = Vec::new(alloc);
    append_listings(&mut text, &mut transcript, program)?;
    text.extend_from_slice(b"== replies\n")?;
    text.extend_from_slice(transcript.replies())?;
    text.extend_from_slice(b"== journal\n")?;
    write_picks(transcript.journal(), &mut text)?;
    text.push(b'\n')?;
    Ok(text)
}
