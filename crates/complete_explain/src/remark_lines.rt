// The lines of what is said of a script's commands.
ghost use Rattle.std.specs.Prelude.{◌≡◌, ◌<◌, length, OnOk};
ghost use Rattle.tn_remark.specs.TextLines.{texts_seen};

use std::alloc::{AllocError, Allocator};

/// A script's text, its name, and the offsets at which its commands begin.
#[derive(Clone, Copy)]
pub struct ScriptText<'a> {
    pub name: &'a str,
    pub text: &'a [u8],
    pub starts: &'a [usize],
}

/// `tn_remark::put_lines` leaves one text. After a refusal nothing of it is said.
pub fn put_lines<A: Allocator>(
    script: ScriptText<'_>,
    one: &Vec<Option<Vec<u8, A>>, A>,
    other: &Vec<Option<Vec<u8, A>>, A>,
    first: &mut Vec<u8, A>,
    second: &mut Vec<u8, A>,
) -> (Result<(), AllocError>, Result<(), AllocError>)
    requires within { length script.text.now < usize.MAX }
    requires said { texts_seen one.now.items ≡ texts_seen other.now.items }
    requires texts { first.old.items ≡ second.old.items }
    ensures { OnOk result.0 (OnOk result.1 (first.new.items ≡ second.new.items)) }
{
    (
        tn_remark::put_lines(script.name, script.text, script.starts, one, first),
        tn_remark::put_lines(script.name, script.text, script.starts, other, second),
    )
}
