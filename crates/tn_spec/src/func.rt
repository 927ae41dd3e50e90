// What a specification is for, and the functions and actions that its expressions call.

/// What a specification is for.
#[derive(Clone, Copy)]
pub enum Dialect {
    Call,
    Send,
    Recv,
}

/// The functions of conditions and bodies, but for `andalso` and `orelse`, which stop early.
#[derive(Clone, Copy)]
pub enum Func {
    IsAtom,
    IsInteger,
    IsList,
    IsTuple,
    IsPid,
    IsNumber,
    IsBoolean,
    IsFloat,
    IsPort,
    IsReference,
    IsMap,
    IsBinary,
    IsBitstring,
    IsFunction,
    /// `hd`
    Head,
    /// `tl`
    Tail,
    Length,
    Size,
    TupleSize,
    Element,
    /// `abs`
    Absolute,
    Add,
    Subtract,
    Multiply,
    /// `div`
    Divide,
    /// `rem`
    Remainder,
    /// `band`
    BitAnd,
    /// `bor`
    BitOr,
    /// `bxor`
    BitXor,
    /// `bnot`
    BitNot,
    Greater,
    GreaterOrEqual,
    Less,
    LessOrEqual,
    Equal,
    ExactlyEqual,
    NotEqual,
    ExactlyNotEqual,
    /// `self`
    OwnPid,
    /// `node`
    OwnNode,
    /// `and`
    AllOf,
    /// `or`
    OneOf,
    /// `xor`
    JustOneOf,
    /// `not`
    IsFalse,
}

/// The actions of bodies.
#[derive(Clone, Copy)]
pub enum Action {
    Message,
    ReturnTrace,
    ExceptionTrace,
    Silent,
    EnableTrace,
    DisableTrace,
    /// `trace`: flags of a process cleared and set.
    Trace,
    Caller,
}
