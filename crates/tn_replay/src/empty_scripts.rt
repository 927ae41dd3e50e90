// Whether a script has no forms.
ghost use Rattle.std.specs.Prelude.{◌≡◌, false};
ghost use Rattle.def_explain.specs.EmptyScripts.{is_gap};

use tn_text::gap_len;

/// Whether a text is blanks and comments alone, so that it is a script without forms.
pub fn has_no_forms(text: &[u8]) -> bool
    ensures { result ≡ is_gap false text.now }
{
    gap_len(text) == text.len()
}
