// The line of an answer.
ghost use Rattle.std.specs.Prelude.{◌≡◌, ◌++◌, ◌∷◌, [], IfOk, codes};
ghost use Rattle.std.specs.Process.{exit_status};
ghost use Rattle.json.specs.Token.{begin_object, end_object};
ghost use Rattle.json.specs.Print.{print};
ghost use Rattle.def_formats.specs.JsonRows.{number_value};
ghost use Rattle.def_serve.specs.Answers.{bytes_value, serve_answer};
ghost use Rattle.tn_serve.specs.MemberTokens.{AddsMember};

use json::Writer;
use std::alloc::{AllocError, Allocator};
use std::process::ExitCode;

/// The exit status as a number.
pub fn status_number(status: ExitCode) -> u8
    ensures { result ≡ exit_status status }
{
    for number in 0..u8::MAX {
        if status == ExitCode::from(number) {
            return number;
        }
    }
    u8::MAX
}

/// The beginning of an answer.
fn begin_answer<A: Allocator + Copy>(alloc: A) -> Result<Writer<A>, AllocError>
    ensures before { IfOk result (λ w. w.before ≡ []) }
    ensures tokens { IfOk result (λ w. w.tokens ≡ begin_object ∷ []) }
{
    let mut writer = Writer::new(Vec::new(alloc));
    writer.begin_object()?;
    Ok(writer)
}

/// Writes the member `status`.
fn put_status<A: Allocator>(writer: &mut Writer<A>, status: u8) -> Result<(), AllocError>
    ensures { AddsMember result writer.old writer.new (codes "status") (number_value status) }
{
    writer.key("status")?;
    writer.u64(status as u64)
}

/// Writes a member that is what a command wrote.
fn put_bytes<A: Allocator + Copy>(
    alloc: A,
    writer: &mut Writer<A>,
    name: &str,
    bytes: &[u8],
) -> Result<(), AllocError>
    ensures { AddsMember result writer.old writer.new name.now (bytes_value bytes.now) }
{
    let text = String::from_utf8_lossy(alloc, bytes)?;
    writer.key(name)?;
    writer.string(text.as_str())
}

/// The end of an answer, with its line feed.
fn end_answer<A: Allocator>(writer: Writer<A>) -> Result<Vec<u8, A>, AllocError>
    ensures { IfOk result (λ line. line.items ≡
        (writer.before ++ print (writer.tokens ++ end_object ∷ [])) ++ 10 ∷ []) }
{
    let mut writer = writer;
    writer.end_object()?;
    let mut line = writer.into_inner();
    line.push(b'\n')?;
    Ok(line)
}

/// The answer to a request whose command ended with this status and wrote these bytes to standard output and to
/// standard error. What is no UTF-8 in them is replaced.
///
/// # Errors
///
/// AllocError where memory was refused.
pub fn serve_answer<A: Allocator + Copy>(
    alloc: A,
    status: u8,
    output: &[u8],
    errors: &[u8],
) -> Result<Vec<u8, A>, AllocError>
    ensures { IfOk result (λ line. line.items ≡ serve_answer status output.now errors.now) }
{
    let mut writer = begin_answer(alloc)?;
    put_status(&mut writer, status)?;
    put_bytes(alloc, &mut writer, "output", output)?;
    put_bytes(alloc, &mut writer, "errors", errors)?;
    end_answer(writer)
}
