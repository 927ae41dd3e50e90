// What a request reads from standard input, which can be one text alone.
ghost use Rattle.std.specs.Prelude.{◌≡◌};
ghost use Rattle.std.specs.Option.{option_map};
ghost use Rattle.tn_notice.specs.NoticeViews.{input_text_seen};
ghost use Rattle.tn_request.specs.InputsAsked.{both_inputs, input_pair_seen, of_source, shared_input, text_input};
ghost use Rattle.tn_request.specs.InputsAsked.{first_two_of_four};

use crate::output::listing_source;
use crate::request::{Request, TextSource};
use tn_command::Source;
use tn_notice::InputText;

/// The text, where it is read from standard input.
fn of_source(source: Option<Source<'_>>, text: InputText) -> Option<InputText>
    ensures { option_map input_text_seen result ≡ of_source source.entry (input_text_seen text) }
{
    match source {
        Some(Source::Input) => Some(text),
        _ => None,
    }
}

/// The text beside the script, where it is read from standard input.
fn text_input(source: Option<TextSource<'_>>) -> Option<InputText>
    ensures { option_map input_text_seen result ≡ text_input source.entry }
{
    match source {
        Some(TextSource::Picks(source)) => of_source(Some(source), InputText::Picks),
        Some(TextSource::Moves(source)) => of_source(Some(source), InputText::Moves),
        _ => None,
    }
}

/// Both, where both are there.
fn both_inputs(one: Option<InputText>, other: Option<InputText>) -> Option<(InputText, InputText)>
    ensures { option_map input_pair_seen result ≡
        both_inputs (option_map input_text_seen one) (option_map input_text_seen other) }
{
    Some((one?, other?))
}

/// The first two of four texts, of those that are there.
fn first_two(
    script: Option<InputText>,
    text: Option<InputText>,
    output: Option<InputText>,
    listing: Option<InputText>,
) -> Option<(InputText, InputText)>
    ensures { option_map input_pair_seen result ≡ first_two_of_four (option_map input_text_seen script)
        (option_map input_text_seen text) (option_map input_text_seen output) (option_map input_text_seen listing) }
{
    let first = script.or(text);
    let second = first.or(output);
    both_inputs(script, text)
        .or(both_inputs(first, output))
        .or(both_inputs(second, listing))
}

impl Request<'_> {
    /// The first two texts that are both to be read from standard input, which has one alone.
    pub fn shared_input(&self) -> Option<(InputText, InputText)>
        ensures { option_map input_pair_seen result ≡ shared_input self.now }
    {
        let words = self.expectation();
        first_two(
            of_source(self.script(), InputText::Script),
            text_input(self.text_source()),
            of_source(words.output, InputText::Output),
            of_source(listing_source(words.session), InputText::Listing),
        )
    }
}
