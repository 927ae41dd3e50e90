// The reserved words, looked up by their length.
ghost use Rattle.std.specs.Prelude.{◌≡◌, codes, [], ◌∷◌};
ghost use Rattle.def_term.specs.Text.{is_among, reserved_words};
ghost use Rattle.tn_text.specs.Kinds.{reserved_of_three, reserved_of_four};

/// Whether the text is a reserved word.
pub fn is_reserved(text: &str) -> bool
    ensures { result ≡ is_among reserved_words text.now }
{
    match text.len() {
        2 => is_reserved_of_two(text),
        3 => is_reserved_of_three(text),
        4 => is_reserved_of_four(text),
        5 => is_reserved_of_five(text),
        6 => text == "orelse",
        7 => is_reserved_of_seven(text),
        _ => false,
    }
}

/// Whether it is a reserved word of two letters.
fn is_reserved_of_two(text: &str) -> bool
    ensures { result ≡ is_among (codes "if" ∷ codes "of" ∷ codes "or" ∷ []) text.now }
{
    matches!(text, "if" | "of" | "or")
}

/// Whether it is a reserved word of three letters.
fn is_reserved_of_three(text: &str) -> bool
    ensures { result ≡ is_among reserved_of_three text.now }
{
    matches!(
        text,
        "and"
            | "bor"
            | "bsl"
            | "bsr"
            | "div"
            | "end"
            | "fun"
            | "let"
            | "not"
            | "rem"
            | "try"
            | "xor"
    )
}

/// Whether it is a reserved word of four letters.
fn is_reserved_of_four(text: &str) -> bool
    ensures { result ≡ is_among reserved_of_four text.now }
{
    matches!(text, "band" | "bnot" | "bxor" | "case" | "cond" | "when")
}

/// Whether it is a reserved word of five letters.
fn is_reserved_of_five(text: &str) -> bool
    ensures { result ≡ is_among (codes "after" ∷ codes "begin" ∷ codes "catch" ∷ []) text.now }
{
    matches!(text, "after" | "begin" | "catch")
}

/// Whether it is a reserved word of seven letters.
fn is_reserved_of_seven(text: &str) -> bool
    ensures { result ≡ is_among (codes "andalso" ∷ codes "receive" ∷ []) text.now }
{
    matches!(text, "andalso" | "receive")
}
