// The lengths of the parts of a text.
ghost use Rattle.std.specs.Prelude.{◌≡◌};

/// `tn_text::is_blank` has one answer.
pub fn is_blank(b: u8) -> (bool, bool)
    ensures { result.0 ≡ result.1 }
{
    (tn_text::is_blank(b), tn_text::is_blank(b))
}

/// `tn_text::ends_form` has one answer.
pub fn ends_form(bytes: &[u8]) -> (bool, bool)
    ensures { result.0 ≡ result.1 }
{
    (tn_text::ends_form(bytes), tn_text::ends_form(bytes))
}

/// `tn_text::gap_len` has one answer.
pub fn gap_len(bytes: &[u8]) -> (usize, usize)
    ensures { result.0 ≡ result.1 }
{
    (tn_text::gap_len(bytes), tn_text::gap_len(bytes))
}

/// `tn_text::digits_len` has one answer.
pub fn digits_len(bytes: &[u8]) -> (usize, usize)
    ensures { result.0 ≡ result.1 }
{
    (tn_text::digits_len(bytes), tn_text::digits_len(bytes))
}

/// `tn_text::name_len` has one answer.
pub fn name_len(bytes: &[u8]) -> (usize, usize)
    ensures { result.0 ≡ result.1 }
{
    (tn_text::name_len(bytes), tn_text::name_len(bytes))
}

/// `tn_text::quoted_len` has one answer.
pub fn quoted_len(bytes: &[u8], quote: u8) -> (Option<usize>, Option<usize>)
    ensures { result.0 ≡ result.1 }
{
    (
        tn_text::quoted_len(bytes, quote),
        tn_text::quoted_len(bytes, quote),
    )
}
