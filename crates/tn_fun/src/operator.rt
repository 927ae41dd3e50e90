// The operators of funs.

/// An operator of a fun (own). The names are those of the definition.
#[derive(Clone, Copy)]
pub enum Operator {
    OrElse,
    AndAlso,
    Equal,
    NotEqual,
    LessOrEqual,
    Less,
    GreaterOrEqual,
    Greater,
    ExactlyEqual,
    ExactlyNotEqual,
    Plus,
    Minus,
    BitOr,
    BitXor,
    OneOf,
    JustOneOf,
    Times,
    Divide,
    Remainder,
    BitAnd,
    AllOf,
    BitNot,
    Negation,
}
