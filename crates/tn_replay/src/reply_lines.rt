// Whether a command of a run can be remarked of, by the text of the replies alone.
ghost use Rattle.std.specs.Prelude.{◌≡◌, true};
ghost use Rattle.def_explain.specs.Remarks.{begins_reason, has_reason_line};

/// Whether a text begins with the line of a reply that has a reason.
fn begins_reason(text: &[u8]) -> bool
    ensures { result ≡ begins_reason text.now }
{
    text.starts_with(b"badarg\n") || text.starts_with(b"0\n") || text.starts_with(b"{unsupported,")
}

/// Whether one of the lines of the replies is one that has a reason.
pub(crate) fn has_reason_line(replies: &[u8]) -> bool
    ensures { result ≡ has_reason_line true replies.now }
{
    let mut at_start = true;
    for place in 0..replies.len() {
        if at_start && begins_reason(&replies[place..]) {
            return true;
        }
        at_start = replies[place] == b'\n';
    }
    false
}
