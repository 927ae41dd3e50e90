// Texts with numbers in them, and texts inside an element of XML.
ghost use Rattle.std.specs.Prelude.{◌≡◌, ◌++◌, OnOk};
ghost use Rattle.def_picture.specs.Templates.{fill, xml_byte, xml_text};

use std::alloc::{AllocError, Allocator};
use tn_text::write_decimal;

/// Appends a text.
pub(crate) fn put_text<A: Allocator>(text: &[u8], out: &mut Vec<u8, A>) -> Result<(), AllocError>
    ensures { OnOk result (out.new.items ≡ out.old.items ++ text.now) }
{
    out.extend_from_slice(text)
}

/// Appends a template with each `@` replaced by the next number. The numbers are of 128 bits, so that no place in a
/// picture is too far away for them.
#[tactic(auto, unfolding(def_picture::specs::Templates::fill))]
pub(crate) fn put_filled<A: Allocator>(
    template: &[u8],
    numbers: &[u128],
    out: &mut Vec<u8, A>,
) -> Result<(), AllocError>
    ensures { OnOk result (out.new.items ≡ out.old.items ++ fill template.now numbers.now) }
{
    let mut next = 0;
    for byte in template {
        if *byte == b'@' && next < numbers.len() {
            write_decimal(numbers[next], out)?;
            next += 1;
        } else {
            out.push(*byte)?;
        }
    }
    Ok(())
}

/// Appends a byte of a text as the content of an element.
fn put_xml_byte<A: Allocator>(byte: u8, out: &mut Vec<u8, A>) -> Result<(), AllocError>
    ensures { OnOk result (out.new.items ≡ out.old.items ++ xml_byte byte) }
{
    match byte {
        b'<' => out.extend_from_slice(b"&lt;"),
        b'>' => out.extend_from_slice(b"&gt;"),
        b'&' => out.extend_from_slice(b"&amp;"),
        b'"' => out.extend_from_slice(b"&quot;"),
        _ => {
            out.push(byte)?;
            Ok(())
        }
    }
}

/// Appends a text as the content of an element.
pub(crate) fn put_xml<A: Allocator>(text: &[u8], out: &mut Vec<u8, A>) -> Result<(), AllocError>
    ensures { OnOk result (out.new.items ≡ out.old.items ++ xml_text text.now) }
{
    for byte in text {
        put_xml_byte(*byte, out)?;
    }
    Ok(())
}
