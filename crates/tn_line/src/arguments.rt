// The arguments of the commands.
ghost use Rattle.std.specs.Prelude.{◌≡◌, ◌∷◌, [], codes, true, IfOk};
ghost use Rattle.tn_line.specs.Line.{IsOption, IsOptions, IsFlag, IsWord, IsElse, IsFromTo, IsCountFromTo, IsOneOf};
ghost use Rattle.tn_line.specs.Line.{Excludes};
ghost use Rattle.tn_line.specs.Line.{PICKS, PICKS_OR_ROUND};

use clap::{Arg, ArgAction, ArgGroup, value_parser};
use std::alloc::{AllocError, Global};

/// The script of a command.
pub(crate) fn script<'a>(alloc: Global) -> Arg<'a>
    ensures { IsWord (codes "script") result }
{
    Arg::new(alloc, "script")
        .value_name("SCRIPT")
        .help("The file of the script; standard input where it is absent or -")
        .action(ArgAction::Set)
}

/// `--picks TEXT`. TEXT may begin with a hyphen: the run refuses it, not the command line.
pub(crate) fn picks<'a>(alloc: Global) -> Arg<'a>
    ensures { IsOption (codes "picks") result }
{
    Arg::new(alloc, "picks")
        .long("picks")
        .value_name("TEXT")
        .help("The picks: decimal numbers, one space\nbetween each two")
        .allow_hyphen_values(true)
        .action(ArgAction::Set)
}

/// `--picks-file FILE`.
pub(crate) fn picks_file<'a>(alloc: Global) -> Arg<'a>
    ensures { IsOption (codes "picks-file") result }
{
    Arg::new(alloc, "picks-file")
        .long("picks-file")
        .value_name("FILE")
        .help("The file of the picks; standard input\nwhere it is -")
        .action(ArgAction::Set)
}

/// `--moves TEXT`. TEXT may begin with a hyphen: the run refuses it, not the command line.
pub(crate) fn moves<'a>(alloc: Global) -> Arg<'a>
    ensures { IsOption (codes "moves") result }
{
    Arg::new(alloc, "moves")
        .long("moves")
        .value_name("TEXT")
        .help("The moves: N, N*K, N!, where N is a\nnumber or a function, and * for everybody")
        .allow_hyphen_values(true)
        .action(ArgAction::Set)
}

/// `--moves-file FILE`.
pub(crate) fn moves_file<'a>(alloc: Global) -> Arg<'a>
    ensures { IsOption (codes "moves-file") result }
{
    Arg::new(alloc, "moves-file")
        .long("moves-file")
        .value_name("FILE")
        .help("The file of the moves; standard input\nwhere it is -")
        .action(ArgAction::Set)
}

/// Just one of `--picks`, `--picks-file`, `--moves` and `--moves-file` must be given; the usage names all.
pub(crate) fn one_of_picks<'a>(alloc: Global) -> Result<ArgGroup<'a>, AllocError>
    ensures { IfOk result (IsOneOf PICKS) }
{
    ArgGroup::new(alloc, "picks-source")
        .required(true)
        .arg("picks")?
        .arg("picks-file")?
        .arg("moves")?
        .arg("moves-file")
}

/// Just one of these and `--round` must be given; the usage names all.
pub(crate) fn picks_or_round<'a>(alloc: Global) -> Result<ArgGroup<'a>, AllocError>
    ensures { IfOk result (IsOneOf PICKS_OR_ROUND) }
{
    ArgGroup::new(alloc, "picks-source")
        .required(true)
        .arg("picks")?
        .arg("picks-file")?
        .arg("moves")?
        .arg("moves-file")?
        .arg("round")
}

/// `--quiet`, `-q`.
pub(crate) fn quiet<'a>(alloc: Global) -> Arg<'a>
    ensures { IsFlag (codes "quiet") result }
{
    Arg::new(alloc, "quiet")
        .long("quiet")
        .short('q')
        .help("Prints no notes on standard error")
        .action(ArgAction::SetTrue)
}

/// `--summary`.
pub(crate) fn summary<'a>(alloc: Global) -> Arg<'a>
    ensures { IsFlag (codes "summary") result }
{
    Arg::new(alloc, "summary")
        .long("summary")
        .help("Prints how many messages and bytes each\nsession has, in place of the messages")
        .action(ArgAction::SetTrue)
}

/// `--json`.
pub(crate) fn json<'a>(alloc: Global) -> Arg<'a>
    ensures { IsFlag (codes "json") result }
{
    Arg::new(alloc, "json")
        .long("json")
        .help("Prints JSON, a value a line")
        .action(ArgAction::SetTrue)
}

/// What `--color` may be given.
pub(crate) const WHENS: &[&str] = &["auto", "always", "never"];

/// `--color WHEN`.
pub(crate) fn color<'a>(alloc: Global) -> Arg<'a>
    ensures { IsOption (codes "color") result }
{
    Arg::new(alloc, "color")
        .long("color")
        .value_name("WHEN")
        .help("When trace messages are in colours; auto:\non a terminal")
        .value_parser(WHENS)
        .action(ArgAction::Set)
}

/// `--json`, which no command takes beside `--summary`.
pub(crate) fn json_alone<'a>(alloc: Global) -> Result<Arg<'a>, AllocError>
    ensures { IfOk result (IsFlag (codes "json")) }
{
    json(alloc).conflicts_with("summary")
}

/// `--expect-session NAME FILE`, which no command takes beside `--json`, since JSON has no sections.
pub(crate) fn expect_session<'a>(alloc: Global) -> Result<Arg<'a>, AllocError>
    ensures { IfOk result (IsOption (codes "expect-session")) }
{
    Arg::new(alloc, "expect-session")
        .long("expect-session")
        .value_names(LISTING)
        .num_args(2)
        .help("The listing of this session must be these\nlines, or else the exit status is 1")
        .action(ArgAction::Set)
        .conflicts_with("json")
}

/// The values of `--expect-session`.
const LISTING: &[&str] = &["NAME", "FILE"];

/// `--expect FILE`.
pub(crate) fn expect<'a>(alloc: Global) -> Arg<'a>
    ensures { IsOption (codes "expect") result }
{
    Arg::new(alloc, "expect")
        .long("expect")
        .value_name("FILE")
        .help(
            "The output must be the bytes of this file,\nor else the exit status is 1; - is\nstandard input",
        )
        .action(ArgAction::Set)
}

/// `--expect-line TEXT`. TEXT may begin with a hyphen.
pub(crate) fn expect_line<'a>(alloc: Global) -> Arg<'a>
    ensures { IsOptions (codes "expect-line") result }
{
    Arg::new(alloc, "expect-line")
        .long("expect-line")
        .value_name("TEXT")
        .help(
            "The output must have this line, or else\nthe exit status is 1; it may be given\nagain",
        )
        .allow_hyphen_values(true)
        .action(ArgAction::Append)
}

/// `--reject-line TEXT`. TEXT may begin with a hyphen.
pub(crate) fn reject_line<'a>(alloc: Global) -> Arg<'a>
    ensures { IsOptions (codes "reject-line") result }
{
    Arg::new(alloc, "reject-line")
        .long("reject-line")
        .value_name("TEXT")
        .help(
            "The output must not have this line, or\nelse the exit status is 1; it may be given\nagain",
        )
        .allow_hyphen_values(true)
        .action(ArgAction::Append)
}

/// `--strict`.
pub(crate) fn strict<'a>(alloc: Global) -> Arg<'a>
    ensures { IsFlag (codes "strict") result }
{
    Arg::new(alloc, "strict")
        .long("strict")
        .help(
            "Each command must be done, and the script\nmust have forms, or else the exit status\nis 1",
        )
        .action(ArgAction::SetTrue)
}

/// `--max-output BYTES`.
pub(crate) fn max_output<'a>(alloc: Global) -> Arg<'a>
    ensures named { IsOption (codes "max-output") result }
    ensures value { IsElse (codes "1073741824") result }
    ensures range { IsFromTo 1 4294967295 result }
{
    Arg::new(alloc, "max-output")
        .long("max-output")
        .value_name("BYTES")
        .help(
            "How many bytes the output may have, from 1\nto 4294967295; where it has more, nothing\nis written",
        )
        .value_parser(value_parser!(u32).range(1..=4294967295))
        .default_value("1073741824")
        .action(ArgAction::Set)
}

/// `--max-memory BYTES`.
pub(crate) fn max_memory<'a>(alloc: Global) -> Arg<'a>
    ensures named { IsOption (codes "max-memory") result }
    ensures value { IsElse (codes "1073741824") result }
    ensures range { IsCountFromTo 1 18446744073709551615 result }
{
    Arg::new(alloc, "max-memory")
        .long("max-memory")
        .value_name("BYTES")
        .help(
            "How many bytes of memory the run may take,\nfrom 1; where it needs more, nothing is\nwritten",
        )
        .value_parser(value_parser!(u64).range(1..))
        .default_value("1073741824")
        .action(ArgAction::Set)
}

/// `--output FILE`, `-o FILE`.
pub(crate) fn output<'a>(alloc: Global) -> Arg<'a>
    ensures { IsOption (codes "output") result }
{
    Arg::new(alloc, "output")
        .long("output")
        .short('o')
        .value_name("FILE")
        .help(
            "The file that the output goes to, whole or\nnot at all; standard output where it is\nabsent",
        )
        .action(ArgAction::Set)
}

/// `--session NAME`. NAME may begin with a hyphen, and may be in quotes as atoms are in scripts.
pub(crate) fn session<'a>(alloc: Global) -> Arg<'a>
    ensures { IsOption (codes "session") result }
{
    Arg::new(alloc, "session")
        .long("session")
        .value_name("NAME")
        .help(
            "Explains what the session of this name, in quotes\nor not, makes of the run, and no other",
        )
        .allow_hyphen_values(true)
        .action(ArgAction::Set)
}

/// The second word without a name of `explain`: the number of a move, which may be the first word in place of the
/// script.
pub(crate) fn move_word<'a>(alloc: Global) -> Arg<'a>
    ensures { IsWord (codes "number") result }
{
    Arg::new(alloc, "number")
        .value_name("N")
        .help(
            "The number of the move that is explained alone, as --move N;\nit may stand before SCRIPT",
        )
        .action(ArgAction::Set)
}

/// `--move N`.
pub(crate) fn move_number<'a>(alloc: Global) -> Arg<'a>
    ensures { IsOption (codes "move") result }
{
    Arg::new(alloc, "move")
        .long("move")
        .value_name("N")
        .help("Explains the move of this number alone, counted\nfrom 1")
        .value_parser(value_parser!(u32))
        .action(ArgAction::Set)
}

/// `--node`.
pub(crate) fn node<'a>(alloc: Global) -> Arg<'a>
    ensures { IsFlag (codes "node") result }
{
    Arg::new(alloc, "node")
        .long("node")
        .help("Explains the moves alone that a running node does\notherwise")
        .action(ArgAction::SetTrue)
}

/// The argument, which can't be given with another, with `--node` or with `--move`.
fn without_moves<'a>(arg: Arg<'a>, other: &'a str) -> Result<Arg<'a>, AllocError>
    ensures { IfOk result (Excludes (other.entry.now ∷ codes "node" ∷ codes "move" ∷ []) arg.entry) }
{
    arg.conflicts_with_all(&[other, "node", "move"])
}

/// `--message PATTERN`, which `explain` doesn't take beside `--why-not`, `--node` or `--move`. PATTERN may begin with a
/// hyphen.
pub(crate) fn message<'a>(alloc: Global) -> Result<Arg<'a>, AllocError>
    ensures { IfOk result (IsOption (codes "message")) }
{
    let message = Arg::new(alloc, "message")
        .long("message")
        .value_name("PATTERN")
        .help(
            "Explains the moves alone at which a session sends a\nmessage that matches PATTERN, or its message of this\nnumber, counted from 1, where PATTERN is digits",
        )
        .allow_hyphen_values(true)
        .action(ArgAction::Set);
    without_moves(message, "why-not")
}

/// `--why-not PATTERN`, which `explain` doesn't take beside `--message`, `--node` or `--move`. PATTERN may begin with a
/// hyphen.
pub(crate) fn why_not<'a>(alloc: Global) -> Result<Arg<'a>, AllocError>
    ensures { IfOk result (IsOption (codes "why-not")) }
{
    let why_not = Arg::new(alloc, "why-not")
        .long("why-not")
        .value_name("PATTERN")
        .help(
            "Explains the moves alone whose message would match\nPATTERN, where a session sends none",
        )
        .allow_hyphen_values(true)
        .action(ArgAction::Set);
    without_moves(why_not, "message")
}

/// `--text`, which no command takes beside `--json`.
pub(crate) fn text<'a>(alloc: Global) -> Result<Arg<'a>, AllocError>
    ensures { IfOk result (IsFlag (codes "text")) }
{
    Arg::new(alloc, "text")
        .long("text")
        .help("Writes lines for a terminal, and no SVG")
        .action(ArgAction::SetTrue)
        .conflicts_with("json")
}

/// `--limit N`.
pub(crate) fn limit<'a>(alloc: Global) -> Arg<'a>
    ensures named { IsOption (codes "limit") result }
    ensures value { IsElse (codes "10000") result }
    ensures range { IsFromTo 1 65536 result }
{
    Arg::new(alloc, "limit")
        .long("limit")
        .value_name("N")
        .help("How many picks may move,\nfrom 1 to 65536")
        .value_parser(value_parser!(u32).range(1..=65536))
        .default_value("10000")
        .action(ArgAction::Set)
}

/// When the control list may be taken.
pub(crate) const ORDERS: &[&str] = &["first"];

/// `--control first`.
pub(crate) fn control<'a>(alloc: Global) -> Arg<'a>
    ensures { IsOption (codes "control") result }
{
    Arg::new(alloc, "control")
        .long("control")
        .value_name("ORDER")
        .help("When all commands of the control list are\ntaken: first, before the rounds\n")
        .value_parser(ORDERS)
        .action(ArgAction::Set)
}

/// `--round`.
pub(crate) fn in_rounds<'a>(alloc: Global) -> Arg<'a>
    ensures { IsFlag (codes "round") result }
{
    Arg::new(alloc, "round")
        .long("round")
        .help("The run is the one that the command round makes")
        .action(ArgAction::SetTrue)
}

/// The argument, which can't be given with picks or moves.
pub(crate) fn without_picks<'a>(arg: Arg<'a>) -> Result<Arg<'a>, AllocError>
    ensures { IfOk result (Excludes PICKS arg.entry) }
{
    arg.conflicts_with_all(&["picks", "picks-file", "moves", "moves-file"])
}

/// `--n N`, `-n N`.
pub(crate) fn worker_count<'a>(alloc: Global) -> Arg<'a>
    ensures named { IsOption (codes "n") result }
    ensures needed { result.required ≡ true }
    ensures range { IsFromTo 1 16 result }
{
    Arg::new(alloc, "n")
        .long("n")
        .short('n')
        .value_name("N")
        .help("How many workers there are, from 1 to 16")
        .required(true)
        .value_parser(value_parser!(u32).range(1..=16))
        .action(ArgAction::Set)
}

/// `--turns T`.
pub(crate) fn turns<'a>(alloc: Global) -> Arg<'a>
    ensures named { IsOption (codes "turns") result }
    ensures value { IsElse (codes "1000") result }
    ensures range { IsFromTo 1 65536 result }
{
    Arg::new(alloc, "turns")
        .long("turns")
        .value_name("T")
        .help("How many turns each worker takes at most,\nfrom 1 to 65536")
        .value_parser(value_parser!(u32).range(1..=65536))
        .default_value("1000")
        .action(ArgAction::Set)
}

/// `--spread SEED`.
pub(crate) fn spread<'a>(alloc: Global) -> Arg<'a>
    ensures { IsOption (codes "spread") result }
{
    Arg::new(alloc, "spread")
        .long("spread")
        .value_name("SEED")
        .help(
            "Each turn gives way to other workers some\ntimes, by this number, so that races show",
        )
        .value_parser(value_parser!(u32))
        .action(ArgAction::Set)
}

/// `--list TERM`. TERM may begin with a hyphen, as in all words of `spec`.
pub(crate) fn list<'a>(alloc: Global) -> Arg<'a>
    ensures named { IsOptions (codes "list") result }
    ensures needed { result.required ≡ true }
{
    Arg::new(alloc, "list")
        .long("list")
        .value_name("TERM")
        .help(
            "The list: [Arg, ..] of a call, [Receiver, Message] of a\nsend, [Node, Sender, Message] of a receive; it may be\ngiven again",
        )
        .required(true)
        .allow_hyphen_values(true)
        .action(ArgAction::Append)
}

/// What the specification of `spec` is for.
pub(crate) const EVENTS: &[&str] = &["call", "send", "receive"];

/// `--for EVENT`.
pub(crate) fn event<'a>(alloc: Global) -> Arg<'a>
    ensures named { IsOption (codes "for") result }
    ensures value { IsElse (codes "call") result }
{
    Arg::new(alloc, "for")
        .long("for")
        .value_name("EVENT")
        .help(
            "What the specification is for, and\nthe one flag that the process has: call, send or receive\n",
        )
        .value_parser(EVENTS)
        .default_value("call")
        .action(ArgAction::Set)
}

/// `--me N`, where N is a number or a pid: what `spec` asks for reads it.
pub(crate) fn own_process<'a>(alloc: Global) -> Arg<'a>
    ensures named { IsOption (codes "me") result }
    ensures value { IsElse (codes "100") result }
{
    Arg::new(alloc, "me")
        .long("me")
        .value_name("N")
        .help(
            "The process whose event it is: a number N or a pid\n<0.N.0>; no other process has a flag",
        )
        .default_value("100")
        .action(ArgAction::Set)
}

/// `--caller TERM`.
pub(crate) fn caller<'a>(alloc: Global) -> Arg<'a>
    ensures { IsOption (codes "caller") result }
{
    Arg::new(alloc, "caller")
        .long("caller")
        .value_name("TERM")
        .help("The function that the call comes from,\n{Module,Function,Arity}")
        .allow_hyphen_values(true)
        .action(ArgAction::Set)
}

/// `--file FILE`, which `spec` doesn't take beside a specification.
pub(crate) fn spec_file<'a>(alloc: Global) -> Result<Arg<'a>, AllocError>
    ensures { IfOk result (IsOption (codes "file")) }
{
    Arg::new(alloc, "file")
        .long("file")
        .value_name("FILE")
        .help("The file of the specification")
        .action(ArgAction::Set)
        .conflicts_with("specification")
}

/// `--fun` of `spec`.
pub(crate) fn of_fun<'a>(alloc: Global) -> Arg<'a>
    ensures { IsFlag (codes "fun") result }
{
    Arg::new(alloc, "fun")
        .long("fun")
        .help("SPECIFICATION is a fun: its specification is tested")
        .action(ArgAction::SetTrue)
}

/// The specification of `spec`.
pub(crate) fn specification<'a>(alloc: Global) -> Arg<'a>
    ensures { IsWord (codes "specification") result }
{
    Arg::new(alloc, "specification")
        .value_name("SPECIFICATION")
        .help("The specification; standard input where it is absent or -")
        .allow_hyphen_values(true)
        .action(ArgAction::Set)
}
