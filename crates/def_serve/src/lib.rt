//! The requests and the answers of `serve`: a line of JSON each.
//!
//! Depends on the JSON rows of `def_formats`, and on the kit's `json` for the JSON of RFC 8259. Defines which line is a
//! request, and what the line of an answer and of each error is. Promises, as laws, that an answer and an error are one
//! line each, which is read as its object; that text is in an answer as the command wrote it; and that a request is
//! read as it was meant. There is no code.
#![tactic(auto)]

ghost use Rattle.def_serve.specs.Laws.{AnswerIsALine, ErrorIsALine, AnswerIsRead, ErrorIsRead, TextIsKept};
ghost use Rattle.def_serve.specs.Laws.{RequestIsRead, LineHasMemory};

/// An answer and an error have no line feed before the one at their end, whatever the command wrote.
pub fn an_answer_is_one_line()
    ensures answer { AnswerIsALine }
    ensures error { ErrorIsALine }
{}

/// An answer and an error are read as the objects that they are defined as.
pub fn an_answer_is_read_as_it_is_written()
    ensures answer { AnswerIsRead }
    ensures error { ErrorIsRead }
    ensures text { TextIsKept }
{}

/// A request is read as the request that was meant, and no line is refused for lack of memory.
pub fn a_request_is_read_as_it_is_meant()
    ensures request { RequestIsRead }
    ensures memory { LineHasMemory }
{}
