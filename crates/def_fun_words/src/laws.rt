// The laws of the definitions.
ghost use Rattle.def_fun_words.specs.NoteLaws.{NotesAreWhereTheyApply};
ghost use Rattle.def_fun_words.specs.WordLaws.{LinesAreThoseOfSpec, EachClauseHasWords, NamesAreOfTheirNumbers};

/// The lines of a test without the words of a fun are those of `spec`.
pub fn lines_without_words_are_those_of_spec()
    ensures { LinesAreThoseOfSpec }
{}

/// Each clause of the specification of a fun has words, and the name of a number is the variable that has it.
pub fn each_clause_has_words()
    ensures counted { EachClauseHasWords }
    ensures named { NamesAreOfTheirNumbers }
{}

/// A note on a fun is there exactly where the fun's tree has what is noted.
pub fn notes_are_where_they_apply()
    ensures { NotesAreWhereTheyApply }
{}
