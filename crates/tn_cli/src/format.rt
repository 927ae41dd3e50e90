// In which format the output is.
ghost use Rattle.std.specs.Prelude.{◌≡◌};
ghost use Rattle.std.specs.Option.{option_map};
ghost use Rattle.tn_cli.specs.Formats.{IsFormatOf, format_named, has_colours, is_held, json_named};
ghost use Rattle.tn_cli.specs.Formats.{prints_output, summary_named};
ghost use Rattle.tn_cli.specs.Requests.{is_given};

use crate::request::flag;
use clap::ArgMatches;
use tn_formats::Format;

/// The format that `--json` asks for, by the name of the command. A picture is written as JSON at once.
fn json_of(name: &str) -> Option<Format>
    ensures { result ≡ json_named name.now }
{
    match name {
        "explain" => Some(Format::AccountJson),
        "spec" => Some(Format::TextJson),
        "state" => Some(Format::TextJson),
        "draw" => None,
        _ => Some(Format::OutputJson),
    }
}

/// The format of a summary, which `--json` asks for as JSON.
fn summary_as(is_json: bool) -> Format
    ensures { result ≡ summary_named is_json }
{
    if is_json {
        Format::SummaryJson
    } else {
        Format::Summary
    }
}

/// Whether a command of this name prints the output of a run.
fn prints_output(name: &str) -> bool
    ensures { result ≡ prints_output name.now }
{
    name == "run" || name == "replay" || name == "round" || name == "workers"
}

/// Whether something is expected of the output, which is then held as a text without colours.
fn is_held(given: &ArgMatches<'_>) -> bool
    ensures { result ≡ is_held given.now }
{
    given.get_str("expect").is_some()
        || given.get_str("expect-session").is_some()
        || given.get_str("expect-line").is_some()
        || given.get_str("reject-line").is_some()
}

/// Whether an output has colours: as `--color` says, and else where a terminal shows it.
fn has_colours(shows_colours: bool, color: Option<&str>) -> bool
    ensures { result ≡ has_colours shows_colours (option_map (λ t. t.now) color.entry) }
{
    match color {
        Some("always") => true,
        Some("never") => false,
        _ => shows_colours,
    }
}

/// The format that a command of this name is asked for.
fn named_format(shows_colours: bool, name: &str, given: &ArgMatches<'_>) -> Option<Format>
    ensures { result ≡ format_named shows_colours name.now given.now }
{
    if flag(given, "summary") {
        return Some(summary_as(flag(given, "json")));
    }
    if flag(given, "json") {
        return json_of(name);
    }
    let shows_colours = shows_colours && !is_held(given);
    if prints_output(name) && has_colours(shows_colours, given.get_str("color")) {
        return Some(Format::Coloured);
    }
    None
}

/// The format that the command line asks for: that of the subcommand that it names. Whether a terminal shows the output
/// in colours, where the words don't say it.
pub fn format_of(shows_colours: bool, matches: &ArgMatches<'_>) -> Option<Format>
    ensures { IsFormatOf shows_colours matches.now result }
{
    match matches.subcommand() {
        Some((name, given)) => named_format(shows_colours, name, given),
        None => None,
    }
}
