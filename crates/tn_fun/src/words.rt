// The symbols and the reserved words.
ghost use Rattle.std.specs.Prelude.{◌≡◌, ℕ, List};
ghost use Rattle.std.specs.Option.{option_map};
ghost use Rattle.tn_fun.specs.Tokens.{fun_token_seen};
ghost use Rattle.tn_fun.specs.Scan.{symbol_named, word_named};

use crate::operator::Operator;
use crate::token::Kind;

/// The symbol of this text.
#[tactic(auto, unfolding(crate::specs::Scan::symbol_named))]
pub fn symbol_of(text: &str) -> Option<Kind>
    ensures { (bytes : List ℕ) → option_map (λ k. fun_token_seen k text.now bytes) result ≡ symbol_named text.now }
{
    match text {
        "(" => Some(Kind::OpenParen),
        ")" => Some(Kind::CloseParen),
        "[" => Some(Kind::OpenBracket),
        "]" => Some(Kind::CloseBracket),
        "{" => Some(Kind::OpenBrace),
        "}" => Some(Kind::CloseBrace),
        "," => Some(Kind::Comma),
        ";" => Some(Kind::Semicolon),
        "|" => Some(Kind::Bar),
        "->" => Some(Kind::Arrow),
        "=" => Some(Kind::Match),
        "==" => Some(Kind::Operator(Operator::Equal)),
        "/=" => Some(Kind::Operator(Operator::NotEqual)),
        "=<" => Some(Kind::Operator(Operator::LessOrEqual)),
        "<" => Some(Kind::Operator(Operator::Less)),
        ">=" => Some(Kind::Operator(Operator::GreaterOrEqual)),
        ">" => Some(Kind::Operator(Operator::Greater)),
        "=:=" => Some(Kind::Operator(Operator::ExactlyEqual)),
        "=/=" => Some(Kind::Operator(Operator::ExactlyNotEqual)),
        "+" => Some(Kind::Operator(Operator::Plus)),
        "-" => Some(Kind::Operator(Operator::Minus)),
        "*" => Some(Kind::Operator(Operator::Times)),
        "<-"
        | "<="
        | "<<"
        | ">>"
        | "=>"
        | ":="
        | "::"
        | ":"
        | "++"
        | "--"
        | "/"
        | "||"
        | "..."
        | ".."
        | "?="
        | "?"
        | "!"
        | "#"
        | "~" => Some(Kind::LeftOut),
        _ => None,
    }
}

/// The reserved word of this text.
#[tactic(auto, unfolding(crate::specs::Scan::word_named))]
pub fn word_of(text: &str) -> Option<Kind>
    ensures { (bytes : List ℕ) → option_map (λ k. fun_token_seen k text.now bytes) result ≡ word_named text.now }
{
    match text {
        "fun" => Some(Kind::Fun),
        "when" => Some(Kind::When),
        "end" => Some(Kind::End),
        "orelse" => Some(Kind::Operator(Operator::OrElse)),
        "andalso" => Some(Kind::Operator(Operator::AndAlso)),
        "bor" => Some(Kind::Operator(Operator::BitOr)),
        "bxor" => Some(Kind::Operator(Operator::BitXor)),
        "or" => Some(Kind::Operator(Operator::OneOf)),
        "xor" => Some(Kind::Operator(Operator::JustOneOf)),
        "div" => Some(Kind::Operator(Operator::Divide)),
        "rem" => Some(Kind::Operator(Operator::Remainder)),
        "band" => Some(Kind::Operator(Operator::BitAnd)),
        "and" => Some(Kind::Operator(Operator::AllOf)),
        "bnot" => Some(Kind::Operator(Operator::BitNot)),
        "not" => Some(Kind::Operator(Operator::Negation)),
        "after"
        | "begin"
        | "bsl"
        | "bsr"
        | "case"
        | "catch"
        | "cond"
        | "else"
        | "if"
        | "let"
        | "maybe"
        | "of"
        | "receive"
        | "try" => Some(Kind::LeftOut),
        _ => None,
    }
}
