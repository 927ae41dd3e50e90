// A request, read of its line.
ghost use Rattle.std.specs.Prelude.{◌≡◌, IfOk, map, string_bytes};
ghost use Rattle.json.specs.Find.{as_str};
ghost use Rattle.json.specs.Value.{value_view, items_view, members_view};
ghost use Rattle.def_serve.specs.Requests.{words_in, command_words, names_serve, only_value};
ghost use Rattle.def_serve.specs.Requests.{no_command, no_input, no_parts};
ghost use Rattle.def_serve.specs.Requests.{with_command_member, with_input_member, with_member, with_members};
ghost use Rattle.def_serve.specs.Requests.{request_of_parts, request_of_json, request_read};
ghost use Rattle.tn_serve.specs.Views.{words_seen, parts_seen, request_seen, IsRequestOutcome};

use crate::fault::RequestFault;
use json::{Error, Scratch, Value};
use std::alloc::{AllocError, Global};

/// The most bytes that a line may have before its line feed.
pub const MAX_LINE: usize = 8_388_608;

/// What a line asks for.
#[derive(Debug, Drop)]
pub struct ServeRequest {
    /// The words of a command line after the program's name.
    pub command: Vec<String>,
    /// What the command reads of standard input.
    pub input: String,
}

/// What was read of the members so far.
#[derive(Drop)]
struct RequestParts {
    command: Option<Vec<String>>,
    input: Option<String>,
}

/// The strings that these values are; None where one is no string.
fn words_of(alloc: Global, items: &[Value<'_>]) -> Result<Option<Vec<String>>, AllocError>
    ensures { IfOk result (λ words. words_seen words ≡ words_in (items_view items.now)) }
{
    let mut words = Vec::new(alloc);
    for item in items {
        let Some(text) = item.as_str() else {
            return Ok(None);
        };
        words.push(String::from_str(alloc, text)?)?;
    }
    Ok(Some(words))
}

/// The strings of an array; None where one is no string, or the value is no array.
fn command_words(alloc: Global, value: &Value<'_>) -> Result<Option<Vec<String>>, AllocError>
    ensures { IfOk result (λ words. words_seen words ≡ command_words (value_view value.now)) }
{
    if let Value::Array(items) = value {
        words_of(alloc, items)
    } else {
        Ok(None)
    }
}

/// The parts with the member `command`.
fn with_command_member(
    alloc: Global,
    parts: RequestParts,
    value: &Value<'_>,
) -> Result<RequestParts, RequestFault>
    ensures { let p = parts_seen parts in IsRequestOutcome parts_seen result
        (with_command_member p (only_value p.command (command_words (value_view value.now)) no_command)) }
{
    let RequestParts { command, input } = parts;
    if command.is_some() {
        return Err(RequestFault::RepeatedMember);
    }
    match command_words(alloc, value)? {
        Some(words) => Ok(RequestParts {
            command: Some(words),
            input,
        }),
        None => Err(RequestFault::NoCommand),
    }
}

/// The parts with the member `input`.
fn with_input_member(
    alloc: Global,
    parts: RequestParts,
    value: &Value<'_>,
) -> Result<RequestParts, RequestFault>
    ensures { let p = parts_seen parts in IsRequestOutcome parts_seen result
        (with_input_member p (only_value p.input (as_str (value_view value.now)) no_input)) }
{
    let RequestParts { command, input } = parts;
    if input.is_some() {
        return Err(RequestFault::RepeatedMember);
    }
    let Some(text) = value.as_str() else {
        return Err(RequestFault::NoInput);
    };
    let text = String::from_str(alloc, text)?;
    Ok(RequestParts {
        command,
        input: Some(text),
    })
}

/// The parts with one member more.
fn with_member(
    alloc: Global,
    parts: RequestParts,
    name: &str,
    value: &Value<'_>,
) -> Result<RequestParts, RequestFault>
    ensures { IsRequestOutcome parts_seen result (with_member (parts_seen parts) name.now (value_view value.now)) }
{
    if name == "command" {
        return with_command_member(alloc, parts, value);
    }
    if name == "input" {
        return with_input_member(alloc, parts, value);
    }
    Err(RequestFault::OtherMember)
}

/// The parts of all members.
fn parts_of(alloc: Global, members: &[(&str, Value<'_>)]) -> Result<RequestParts, RequestFault>
    ensures { IsRequestOutcome parts_seen result (with_members (members_view members.now) no_parts) }
{
    let mut parts = RequestParts {
        command: None,
        input: None,
    };
    for member in members {
        parts = with_member(alloc, parts, member.0, &member.1)?;
    }
    Ok(parts)
}

/// Whether the words ask for `serve`.
fn names_serve(words: &[String]) -> bool
    ensures { result ≡ names_serve (map string_bytes words.now) }
{
    match words.first() {
        Some(word) => word.as_str() == "serve",
        None => false,
    }
}

/// The request that the parts are.
fn request_of_parts(alloc: Global, parts: RequestParts) -> Result<ServeRequest, RequestFault>
    ensures { let p = parts_seen parts in IsRequestOutcome request_seen result (request_of_parts p.command p.input) }
{
    let RequestParts { command, input } = parts;
    let Some(command) = command else {
        return Err(RequestFault::NoCommand);
    };
    if names_serve(&command) {
        return Err(RequestFault::NestedServe);
    }
    match input {
        Some(input) => Ok(ServeRequest { command, input }),
        None => Ok(ServeRequest {
            command,
            input: String::new(alloc),
        }),
    }
}

/// The request that a value is.
fn request_of_json(alloc: Global, value: &Value<'_>) -> Result<ServeRequest, RequestFault>
    ensures { IsRequestOutcome request_seen result (request_of_json (value_view value.now)) }
{
    if let Value::Object(members) = value {
        request_of_parts(alloc, parts_of(alloc, members)?)
    } else {
        Err(RequestFault::NoObject)
    }
}

/// The request that a line is, without its line feed.
///
/// # Errors
///
/// Why it is none; `Memory` where the system refused memory, and then nothing is said of the line.
pub fn read_request(alloc: Global, line: &[u8]) -> Result<ServeRequest, RequestFault>
    ensures { IsRequestOutcome request_seen result (request_read line.now) }
{
    if line.len() > MAX_LINE {
        return Err(RequestFault::LongLine);
    }
    let mut scratch = Scratch::new(alloc);
    match Value::from_slice(alloc, line, &mut scratch) {
        Ok(value) => request_of_json(alloc, &value),
        Err(Error::Invalid) => Err(RequestFault::NoJson),
        Err(_) => Err(RequestFault::Memory),
    }
}
