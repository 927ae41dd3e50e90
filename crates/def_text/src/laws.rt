// The laws of the definitions.
ghost use Rattle.def_text.specs.Laws.{TokensAreOne, TokensAreThere, ReadTermIsDerived, DerivedTermIsRead};
ghost use Rattle.def_text.specs.Laws.{TermFaultIsFirst, ReadScriptIsDerived, DerivedScriptIsRead, ScriptFaultIsFirst};
ghost use Rattle.def_text.specs.Laws.{SpelledTermIsOne, SpelledTermIsNotRefused, TermRefusalIsOne, TermOrRefusal};
ghost use Rattle.def_text.specs.Laws.{SpelledTermsAreOne, SpelledTermsAreNotRefused, ScriptRefusalIsOne};
ghost use Rattle.def_text.specs.Laws.{TermsOrRefusal, IntegerIsItsToken, PidIsItsToken, AtomIsItsToken};
ghost use Rattle.def_text.specs.Laws.{WrittenTextSpells};
ghost use Rattle.def_text.specs.PlaceLaws.{PlaceIsThere, PlaceIsOne, OneByteOn, FormIsAfterStops, FormOffsetIsOne};

/// A text has one list of tokens.
pub fn tokens_are_determined()
    ensures one { TokensAreOne }
    ensures some { TokensAreThere }
{}

/// A term is read exactly where the tokens derive it within the limits, and a refusal is the first fault.
pub fn reading_is_exact()
    ensures found { ReadTermIsDerived }
    ensures only { DerivedTermIsRead }
    ensures refused { TermFaultIsFirst }
{}

/// A script is read exactly where the tokens derive its terms within the limits, and a refusal is the first fault.
pub fn reading_a_script_is_exact()
    ensures found { ReadScriptIsDerived }
    ensures only { DerivedScriptIsRead }
    ensures refused { ScriptFaultIsFirst }
{}

/// A text within the length spells one term, or is refused in one way, and never both.
pub fn a_text_spells_one_term()
    ensures one { SpelledTermIsOne }
    ensures refused { SpelledTermIsNotRefused }
    ensures once { TermRefusalIsOne }
    ensures either { TermOrRefusal }
{}

/// A text within the length spells one list of terms with full stops, or is refused as a script in one
/// way, and never both.
pub fn a_text_spells_one_script()
    ensures one { SpelledTermsAreOne }
    ensures refused { SpelledTermsAreNotRefused }
    ensures once { ScriptRefusalIsOne }
    ensures either { TermsOrRefusal }
{}

/// The written text of an integer, atom or pid is its token, where what follows does not go on with it.
pub fn a_leaf_is_written_as_its_token()
    ensures integers { IntegerIsItsToken }
    ensures pids { PidIsItsToken }
    ensures atoms { AtomIsItsToken }
{}

/// The written text of a tree within the limits spells the tree.
pub fn written_text_spells()
    ensures { WrittenTextSpells }
{}

/// The bytes before an offset are whole lines and the bytes of its own line, and its place says how many of
/// each there are; no other place does.
pub fn a_place_counts_lines_and_bytes()
    ensures some { PlaceIsThere }
    ensures one { PlaceIsOne }
{}

/// One byte later comes the next column, or after a line feed the first column of the next line.
pub fn one_byte_on()
    ensures { OneByteOn }
{}

/// A form begins after as many full stops as there are forms before it, the last of which is right
/// before it; and a text's form begins at one offset.
pub fn a_form_begins_after_full_stops()
    ensures stops { FormIsAfterStops }
    ensures one { FormOffsetIsOne }
{}
