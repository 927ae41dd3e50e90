// Names as they are printed: on one line, without control characters.
ghost use Rattle.std.specs.Prelude.{◌≡◌, ◌<◌, ◌++◌, IfOk, OnOk};
ghost use Rattle.tn_notice.specs.PlainTexts.{escaped_byte, escaped_text, hex_digit};

use std::alloc::{AllocError, Allocator};

/// The digit of a number below 16.
fn hex_digit(n: u8) -> u8
    requires { n < 16 }
    ensures { result ≡ hex_digit n }
{
    if n < 10 { b'0' + n } else { b'a' - 10 + n }
}

/// Appends a byte, or the escape of one that is a control character.
fn put_escaped<A: Allocator>(b: u8, out: &mut Vec<u8, A>) -> Result<(), AllocError>
    ensures { OnOk result (out.new.items ≡ out.old.items ++ escaped_byte b) }
{
    if b >= 32 && b != 127 {
        out.push(b)?;
        return Ok(());
    }
    out.extend_from_slice(b"\\x")?;
    out.push(hex_digit(b / 16))?;
    out.push(hex_digit(b % 16))?;
    Ok(())
}

/// The text with an escape `\xHH` in place of each control character from 0 to 31 and 127.
///
/// # Errors
///
/// AllocError where memory was refused.
pub fn escape_controls<A: Allocator>(alloc: A, text: &str) -> Result<Vec<u8, A>, AllocError>
    ensures { IfOk result (λ v. v.items ≡ escaped_text text.now) }
{
    let mut out = Vec::new(alloc);
    for b in text.as_bytes() {
        put_escaped(*b, &mut out)?;
    }
    Ok(out)
}

/// A name as it is printed, which stands for one that there is no memory for.
pub fn plain_name<'a>(plain: &'a Result<Vec<u8>, AllocError>, other: &'a str) -> &'a str {
    match plain {
        Ok(bytes) => str::from_utf8(bytes).unwrap_or(other),
        Err(_) => other,
    }
}
