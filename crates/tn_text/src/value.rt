// The values of tokens.
ghost use Rattle.std.specs.Prelude.{◌≡◌, IfOk, IfSome, false};
ghost use Rattle.def_text.specs.Scan.{unescape};
ghost use Rattle.tn_text.specs.Values.{IsIntegerRead, IsPidRead, inner};

use std::alloc::{AllocError, Allocator};

/// The integer that the bytes spell; None where it is out of range.
pub fn integer_value(bytes: &[u8]) -> Option<i64>
    ensures { IsIntegerRead bytes.now result }
{
    match std::str::from_utf8(bytes) {
        Ok(text) => match text.parse::<i64>() {
            Ok(n) => Some(n),
            Err(_) => None,
        },
        Err(_) => None,
    }
}

/// The number of the pid that the bytes spell; None where it is out of range.
pub fn pid_value(bytes: &[u8]) -> Option<u32>
    ensures { IsPidRead bytes.now result }
{
    if bytes.len() < 6 {
        return None;
    }
    match std::str::from_utf8(&bytes[3..bytes.len() - 3]) {
        Ok(text) => match text.parse::<u32>() {
            Ok(n) => Some(n),
            Err(_) => None,
        },
        Err(_) => None,
    }
}

/// The characters between the quotes, where they hold no backslash.
pub fn plain_content(bytes: &[u8]) -> Option<&[u8]>
    ensures { IfSome result (λ s. s.now ≡ unescape false (inner bytes.now)) }
{
    let [_, text @ .., _] = bytes else {
        return None;
    };
    for b in text {
        if *b == b'\\' {
            return None;
        }
    }
    Some(text)
}

/// The characters between the quotes, without the backslashes before them.
pub fn content<A: Allocator>(alloc: A, bytes: &[u8]) -> Result<Vec<u8, A>, AllocError>
    ensures { IfOk result (λ v. v.items ≡ unescape false (inner bytes.now)) }
{
    let [_, text @ .., _] = bytes else {
        return Ok(Vec::new(alloc));
    };
    let mut out = Vec::new(alloc);
    let mut escaped = false;
    for b in text {
        if escaped {
            out.push(*b)?;
            escaped = false;
        } else if *b == b'\\' {
            escaped = true;
        } else {
            out.push(*b)?;
        }
    }
    Ok(out)
}
