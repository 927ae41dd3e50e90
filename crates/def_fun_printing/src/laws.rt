// The laws of funs that are read, and of printed funs.
ghost use Rattle.def_fun_printing.specs.Laws.{DerivedFunIsRead, DerivedFunIsOne, FunIsASpecification};
ghost use Rattle.def_fun_printing.specs.Laws.{FunIsPrinted, TextIsPrinted, PrintedIsAFun, TextsAreShort};

/// A fun that tokens spell within the limits is read, and they spell one at most.
pub fn a_fun_that_is_spelled_is_read()
    ensures read { DerivedFunIsRead }
    ensures one { DerivedFunIsOne }
{}

/// The term that a fun is translated to is a specification for the same dialect.
pub fn the_term_of_a_fun_is_a_specification()
    ensures { FunIsASpecification }
{}

/// The specification of a fun is printed for the dialect of its translation, and so is that of a text.
pub fn the_specification_of_a_fun_is_printed()
    ensures funs { FunIsPrinted }
    ensures texts { TextIsPrinted }
{}

/// The text that a specification within the limits is printed as has that specification, where neither its own
/// written text nor that of the fun is longer than 1,048,576 bytes. No longer text has a specification, nor has any
/// text one whose written text is longer.
pub fn a_printed_fun_has_its_specification()
    ensures printed { PrintedIsAFun }
    ensures short { TextsAreShort }
{}
