// Reading terms in one pass.
ghost use Rattle.std.specs.Prelude.{◌≡◌, ℕ, ◌≤◌, List, length, map, Ok, true};
ghost use Rattle.def_text.specs.Limits.{DEPTH};
ghost use Rattle.def_text.specs.Tokens.{Token as TextToken, IsToken};
ghost use Rattle.def_text.specs.Scan.{IsTokenOf};
ghost use Rattle.def_text.specs.Reading.{inside, next, read_start, step, end_reading};
ghost use Rattle.def_text.specs.ScriptReading.{reading, script_step, script_end};
ghost use Rattle.tn_term.specs.Views.{tree_of};
ghost use Rattle.tn_text.specs.Kinds.{kind_of};
ghost use Rattle.tn_text.specs.Lexer.{StandsAt};
ghost use Rattle.tn_text.specs.Stack.{frames_of, read_state_of, IsShallow, StepsReading};
ghost use Rattle.tn_text.specs.Stack.{text_fault_of, TakesToken, Finishes};
ghost use Rattle.tn_text.specs.Stack.{ScriptStepsAt, ScriptFinishes};
ghost use Rattle.tn_text.specs.Answers.{IsTermRead, IsReadScript};

use crate::fault::TextFault;
use crate::leaf::{put_atom, put_integer, put_pid, put_quoted, put_string};
use crate::lexer::{MAX_TEXT, NextToken, Token, next_at};
use crate::scan::Kind;
use crate::stack::{Bracket, Frame, Position, Progress, StepError, close, comma, open};
use std::alloc::Allocator;
use tn_term::Term;

/// Before the first token of a term.
fn at_start<A: Allocator>(alloc: A) -> Progress<A>
    ensures { read_state_of result ≡ read_start }
{
    Progress::Inside(Position::Next, Vec::new(alloc))
}

/// A token where a term may stand.
fn enter<A: Allocator + Copy>(
    alloc: A,
    kind: Kind,
    bytes: &[u8],
    frames: Vec<Frame<A>, A>,
) -> Result<Progress<A>, StepError>
    requires { length (frames_of frames.items) ≤ DEPTH }
    ensures { (rest : List ℕ) (t : TextToken) → IsToken bytes.now rest t → IsTokenOf (kind_of kind) bytes.now rest t
        → StepsReading result (step DEPTH true (inside next (frames_of frames.items)) t) }
{
    match kind {
        Kind::Integer => put_integer(bytes, frames),
        Kind::Pid => put_pid(bytes, frames),
        Kind::Bare => put_atom(alloc, bytes, frames),
        Kind::Quoted => put_quoted(alloc, bytes, frames),
        Kind::Characters => put_string(alloc, bytes, frames),
        Kind::OpenBrace => open(alloc, Bracket::Brace, frames),
        Kind::OpenBracket => open(alloc, Bracket::Square, frames),
        Kind::CloseBrace | Kind::CloseBracket | Kind::Comma | Kind::Stop => Err(
            StepError::Misplaced,
        ),
    }
}

/// One token further.
fn step_on<A: Allocator + Copy>(
    alloc: A,
    kind: Kind,
    bytes: &[u8],
    progress: Progress<A>,
) -> Result<Progress<A>, StepError>
    requires { IsShallow (read_state_of progress) }
    ensures { (rest : List ℕ) (t : TextToken) → IsToken bytes.now rest t → IsTokenOf (kind_of kind) bytes.now rest t
        → StepsReading result (step DEPTH true (read_state_of progress) t) }
{
    match progress {
        Progress::Done(_) => Err(StepError::Misplaced),
        Progress::Inside(Position::Next, frames) => enter(alloc, kind, bytes, frames),
        Progress::Inside(Position::First, frames) => match kind {
            Kind::CloseBrace => close(Bracket::Brace, frames),
            Kind::CloseBracket => close(Bracket::Square, frames),
            _ => enter(alloc, kind, bytes, frames),
        },
        Progress::Inside(Position::Behind, frames) => match kind {
            Kind::CloseBrace => close(Bracket::Brace, frames),
            Kind::CloseBracket => close(Bracket::Square, frames),
            Kind::Comma => comma(frames),
            _ => Err(StepError::Misplaced),
        },
    }
}

/// The refusal of the token at that place.
fn fault_at(error: StepError, at: usize) -> TextFault
    ensures { result ≡ text_fault_of error at }
{
    match error {
        StepError::OutOfMemory => TextFault::OutOfMemory,
        StepError::Misplaced => TextFault::Token { at },
        StepError::TooDeep => TextFault::TooDeep { at },
        StepError::TooLarge => TextFault::TooLarge { at },
    }
}

/// One token of a text further.
fn step_at<A: Allocator + Copy>(
    alloc: A,
    bytes: &[u8],
    token: Token,
    progress: Progress<A>,
) -> Result<Progress<A>, TextFault>
    requires start { token.from ≤ token.to }
    requires end { token.to ≤ length bytes.now }
    requires shallow { IsShallow (read_state_of progress) }
    ensures { TakesToken result bytes.now token progress }
{
    match step_on(alloc, token.kind, &bytes[token.from..token.to], progress) {
        Ok(further) => Ok(further),
        Err(error) => Err(fault_at(error, token.from)),
    }
}

/// The term, where the tokens end with it.
fn finish<A: Allocator>(progress: Progress<A>, end: usize) -> Result<Term<A>, TextFault>
    ensures { Finishes result end (end_reading (Ok (read_state_of progress))) }
{
    match progress {
        Progress::Done(term) => Ok(term),
        Progress::Inside(_, _) => Err(TextFault::Token { at: end }),
    }
}

/// The one term that the text spells, without a full stop. Beside the term it allocates the stack of
/// at most 32 tuples and lists that are open, and for a quoted atom or a string with a backslash its
/// characters, one at a time. Of a text that spells none within the limits it
/// answers refusal 1 to 4, with the offset of the refused token or the text's length; memory that
/// runs out is `OutOfMemory` and says nothing of the text.
pub fn read_term<A: Allocator + Copy>(alloc: A, bytes: &[u8]) -> Result<Term<A>, TextFault>
    ensures { IsTermRead bytes.now result }
{
    if bytes.len() > MAX_TEXT {
        return Err(TextFault::TooLong);
    }
    let mut progress = at_start(alloc);
    let mut at = 0;
    while at < bytes.len() {
        match next_at(bytes, at) {
            NextToken::End => return finish(progress, bytes.len()),
            NextToken::Bad(from) => return Err(TextFault::Token { at: from }),
            NextToken::Token(token) => {
                progress = step_at(alloc, bytes, token, progress)?;
                at = token.to;
            }
        }
    }
    finish(progress, bytes.len())
}

/// One token of a script further: a full stop after a term ends it.
fn script_step_at<A: Allocator + Copy>(
    alloc: A,
    bytes: &[u8],
    token: Token,
    progress: Progress<A>,
    terms: &mut Vec<Term<A>, A>,
) -> Result<Progress<A>, TextFault>
    requires start { token.from ≤ token.to }
    requires end { token.to ≤ length bytes.now }
    requires shallow { IsShallow (read_state_of progress) }
    ensures { (at : ℕ) (s : StandsAt bytes.now at token) → ScriptStepsAt result terms.new.items token.from
        (script_step DEPTH true (reading (map tree_of terms.old.items) (read_state_of progress)) s.spanned.token) }
{
    match progress {
        Progress::Inside(place, frames) => step_at(
            alloc,
            bytes,
            token,
            Progress::Inside(place, frames),
        ),
        Progress::Done(term) => match token.kind {
            Kind::Stop => match terms.push(term) {
                Ok(()) => Ok(at_start(alloc)),
                Err(_) => Err(TextFault::OutOfMemory),
            },
            _ => Err(TextFault::Token { at: token.from }),
        },
    }
}

/// The terms, where the tokens end after a full stop.
fn all_finished<A: Allocator>(
    progress: Progress<A>,
    terms: Vec<Term<A>, A>,
    end: usize,
) -> Result<Vec<Term<A>, A>, TextFault>
    ensures { ScriptFinishes result end (script_end (reading (map tree_of terms.items) (read_state_of progress))) }
{
    match progress {
        Progress::Inside(Position::Next, frames) => {
            if frames.is_empty() {
                Ok(terms)
            } else {
                Err(TextFault::Token { at: end })
            }
        }
        Progress::Inside(Position::First, _) => Err(TextFault::Token { at: end }),
        Progress::Inside(Position::Behind, _) => Err(TextFault::Token { at: end }),
        Progress::Done(_) => Err(TextFault::Token { at: end }),
    }
}

/// All terms of the script that the text spells, each with a full stop after it. Memory is as for
/// `read_term`, and the list of terms. Refusals are as those of `read_term`, with scripts for terms: a
/// term without its full stop is only a beginning.
pub fn read_terms<A: Allocator + Copy>(alloc: A, bytes: &[u8]) -> Result<Vec<Term<A>, A>, TextFault>
    ensures { IsReadScript bytes.now result }
{
    if bytes.len() > MAX_TEXT {
        return Err(TextFault::TooLong);
    }
    let mut terms = Vec::new(alloc);
    let mut progress = at_start(alloc);
    let mut at = 0;
    while at < bytes.len() {
        match next_at(bytes, at) {
            NextToken::End => return all_finished(progress, terms, bytes.len()),
            NextToken::Bad(from) => return Err(TextFault::Token { at: from }),
            NextToken::Token(token) => {
                progress = script_step_at(alloc, bytes, token, progress, &mut terms)?;
                at = token.to;
            }
        }
    }
    all_finished(progress, terms, bytes.len())
}
