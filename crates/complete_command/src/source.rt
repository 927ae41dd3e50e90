// What a word of the command line names.
ghost use Rattle.std.specs.Prelude.{◌≡◌};
ghost use Rattle.complete_command.specs.Words.{source_seen, word_seen};

use tn_command::Source;

/// `tn_command::source_of` has one answer.
pub fn source_of<'a>(one: Option<&'a str>, other: Option<&'a str>) -> (Source<'a>, Source<'a>)
    requires { word_seen one ≡ word_seen other }
    ensures { source_seen result.0 ≡ source_seen result.1 }
{
    let first = tn_command::source_of(one);
    let second = tn_command::source_of(other);
    (first, second)
}
