// The classes of exceptions.

/// The class of an exception, by the function of the module `erlang` that raises it (`error/1`, `throw/1`, `exit/1`).
#[derive(Clone, Copy, Debug, PartialEq, Eq)]
pub enum Class {
    Error,
    Throw,
    Exit,
}
