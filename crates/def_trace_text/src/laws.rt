// The laws of texts of trace messages.
ghost use Rattle.def_trace_text.specs.TraceLaws.{LinesAreThere, TermTextIsThere, MessagesAreTuples};
ghost use Rattle.def_trace_text.specs.TraceLaws.{DbgLineIsNoTerm, DbgLineHasParts, DbgMessageIsRead};
ghost use Rattle.def_trace_text.specs.TraceLaws.{WholeLinesAreAsMany, OtherLinesAreWhole};
ghost use Rattle.def_trace_text.specs.TraceLaws.{ErrorMapIsEmpty, OtherTextIsLeft};
ghost use Rattle.def_trace_text.specs.TraceLaws.{SpelledTraceIsOne, SpelledTraceIsNotRefused, TraceRefusalIsOne};
ghost use Rattle.def_trace_text.specs.TraceLaws.{TraceOrRefusal};

/// A text is its lines with their ends, and a line is the text of a term, a full stop or none, and blanks.
pub fn a_line_has_one_term()
    ensures lines { LinesAreThere }
    ensures term { TermTextIsThere }
{}

/// A line of `dbg` spells no term, so that no line is of both kinds.
pub fn a_line_is_of_one_kind()
    ensures { DbgLineIsNoTerm }
{}

/// A line that has a format of `dbg` is what `dbg` prints by it, with the line's parts.
pub fn a_line_of_dbg_is_its_format()
    ensures { DbgLineHasParts }
{}

/// What `dbg` prints of a trace message of written terms is read as the text of the message.
pub fn a_message_of_dbg_is_read()
    ensures { DbgMessageIsRead }
{}

/// A line of `dbg` and the lines that go on with it are one, with empty lines in their places, so that each line keeps
/// its number; other lines stay as they are.
pub fn a_whole_line_keeps_its_number()
    ensures number { WholeLinesAreAsMany }
    ensures others { OtherLinesAreWhole }
{}

/// The map of an error is read as the empty list, and a text without one stays as it is.
pub fn a_map_of_an_error_is_empty()
    ensures map { ErrorMapIsEmpty }
    ensures others { OtherTextIsLeft }
{}

/// The trace messages are the tuples of three elements or more with the atom `trace` and a pid first.
pub fn the_messages_are_tuples()
    ensures { MessagesAreTuples }
{}

/// A text spells one list of trace messages, or is refused in one way, and never both.
pub fn a_text_spells_one_trace()
    ensures one { SpelledTraceIsOne }
    ensures refused { SpelledTraceIsNotRefused }
    ensures once { TraceRefusalIsOne }
    ensures either { TraceOrRefusal }
{}
