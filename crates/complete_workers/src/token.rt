// The pick of a token.
ghost use Rattle.std.specs.Prelude.{◌≡◌};

use tn_pool::Token;

/// `tn_pool::Token::pick` has one answer.
pub fn pick(one: &Token, other: &Token) -> (u32, u32)
    requires { one.now ≡ other.now }
    ensures { result.0 ≡ result.1 }
{
    (one.pick(), other.pick())
}
