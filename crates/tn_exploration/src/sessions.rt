// The sessions that an exploration is about.
ghost use Rattle.std.specs.Prelude.{◌≡◌, ◌++◌, IfOk, OnOk, map, slice_get};
ghost use Rattle.std.specs.Option.{option_map};
ghost use Rattle.def_script.specs.Script.{creations};
ghost use Rattle.tn_program.specs.Views.{program_of};
ghost use Rattle.tn_answers.specs.AnswerViews.{session_name_seen};
ghost use Rattle.tn_search.specs.Sessions.{element_at, elements_at};
ghost use Rattle.tn_exploration.specs.Requests.{is_session_of_request, place_of_request, places_of};

use std::alloc::{AllocError, Allocator};
use tn_answers::SessionName;
use tn_program::Program;
use tn_term::Atom;

/// Whether the session of this name is asked for: that of the asked name alone, where one is given.
fn is_session_of_request<A: Allocator>(asked: Option<&str>, name: &Atom<A>) -> bool
    ensures { result ≡ is_session_of_request (option_map (λ s. s.now) asked.entry) name.now }
{
    match asked {
        None => true,
        Some(asked) => asked == name.text(),
    }
}

/// Adds a place, where the session there is asked for.
fn add_place<A: Allocator + Copy>(
    program: &Program<A>,
    asked: Option<&str>,
    place: usize,
    places: &mut Vec<usize, A>,
) -> Result<(), AllocError>
    ensures { let name = option_map (λ s. s.now) asked.entry in
        let at = slice_get (creations (program_of program.now).commands) place in
        OnOk result (places.new.items ≡ places.old.items ++ place_of_request name place at) }
{
    let Some((name, _)) = program.session_at(place) else {
        return Ok(());
    };
    if !is_session_of_request(asked, name) {
        return Ok(());
    }
    places.push(place)?;
    Ok(())
}

/// The places of the sessions that are asked for.
pub(crate) fn places_of<A: Allocator + Copy>(
    alloc: A,
    program: &Program<A>,
    asked: Option<&str>,
) -> Result<Vec<usize, A>, AllocError>
    ensures { let p = program_of program.now in
        IfOk result (λ v. v.items ≡ places_of (option_map (λ s. s.now) asked.entry) p) }
{
    let mut places = Vec::new(alloc);
    for place in 0..program.session_count() {
        add_place(program, asked, place, &mut places)?;
    }
    Ok(places)
}

/// Adds the name and the tracer of the session at a place, where there is one.
fn add_name<A: Allocator + Copy>(
    alloc: A,
    program: &Program<A>,
    place: usize,
    names: &mut Vec<SessionName<A>, A>,
) -> Result<(), AllocError>
    ensures { let at = element_at place (creations (program_of program.now).commands) in
        OnOk result (map session_name_seen names.new.items ≡ map session_name_seen names.old.items ++ at) }
{
    let Some((name, tracer)) = program.session_at(place) else {
        return Ok(());
    };
    let name = name.copy_into(alloc)?;
    let tracer = tracer.copy_into(alloc)?;
    names.push(SessionName { name, tracer })?;
    Ok(())
}

/// The names and tracers of the sessions at these places.
pub(crate) fn names_at<A: Allocator + Copy>(
    alloc: A,
    program: &Program<A>,
    places: &[usize],
) -> Result<Vec<SessionName<A>, A>, AllocError>
    ensures { let sessions = creations (program_of program.now).commands in
        IfOk result (λ v. map session_name_seen v.items ≡ elements_at places.now sessions) }
{
    let mut names = Vec::new(alloc);
    for place in places {
        add_name(alloc, program, *place, &mut names)?;
    }
    Ok(names)
}
