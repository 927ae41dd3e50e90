// Sets of flags, and how they are inherited.
ghost use Rattle.std.specs.Prelude.{◌≡◌, ◌||◌, ◌&&◌, not};
ghost use Rattle.std.specs.Option.{option_map};
ghost use Rattle.def_term.specs.Tree.{atom};
ghost use Rattle.def_spec.specs.Flags.{no_flags, only, union, without, has_all};
ghost use Rattle.def_spec.specs.Flags.{same_flags, flag_named, after_spawn, after_link};
ghost use Rattle.tn_term.specs.Views.{tree_of};
ghost use Rattle.tn_flags.specs.Inheritance.{GivesAndKeeps};
ghost use Rattle.tn_flags.specs.Views.{flags_of};

use std::alloc::Allocator;
use tn_term::Term;

/// A set of the ten flags that a process may have in a session (`trace:process/4`).
#[derive(Clone, Copy, Debug, PartialEq, Eq)]
pub struct Flags {
    pub send: bool,
    pub receive: bool,
    pub call: bool,
    pub procs: bool,
    pub silent: bool,
    pub arity: bool,
    pub set_on_spawn: bool,
    pub set_on_first_spawn: bool,
    pub set_on_link: bool,
    pub set_on_first_link: bool,
}

/// One of the two. These are plain functions on truth values, so that a set of ten is made without branches.
fn either(a: bool, b: bool) -> bool
    ensures { result ≡ (a || b) }
{
    a || b
}

/// The first, and not the other.
fn but_not(a: bool, b: bool) -> bool
    ensures { result ≡ (a && not b) }
{
    a && !b
}

/// The first, wherever the other is.
fn holds_if(a: bool, b: bool) -> bool
    ensures { result ≡ (a || not b) }
{
    a || !b
}

/// No flag.
const NONE: Flags = Flags {
    send: false,
    receive: false,
    call: false,
    procs: false,
    silent: false,
    arity: false,
    set_on_spawn: false,
    set_on_first_spawn: false,
    set_on_link: false,
    set_on_first_link: false,
};

/// The flag `silent` alone.
pub(crate) const SILENT: Flags = Flags {
    send: false,
    receive: false,
    call: false,
    procs: false,
    silent: true,
    arity: false,
    set_on_spawn: false,
    set_on_first_spawn: false,
    set_on_link: false,
    set_on_first_link: false,
};

impl Flags {
    /// No flag.
    pub fn none() -> Flags
        ensures { flags_of result ≡ no_flags }
    {
        NONE
    }

    /// The flags of either.
    pub fn join(self, other: Flags) -> Flags
        ensures { flags_of result ≡ union (flags_of self) (flags_of other) }
    {
        Flags {
            send: either(self.send, other.send),
            receive: either(self.receive, other.receive),
            call: either(self.call, other.call),
            procs: either(self.procs, other.procs),
            silent: either(self.silent, other.silent),
            arity: either(self.arity, other.arity),
            set_on_spawn: either(self.set_on_spawn, other.set_on_spawn),
            set_on_first_spawn: either(self.set_on_first_spawn, other.set_on_first_spawn),
            set_on_link: either(self.set_on_link, other.set_on_link),
            set_on_first_link: either(self.set_on_first_link, other.set_on_first_link),
        }
    }

    /// These flags but those of the other set.
    pub fn without(self, other: Flags) -> Flags
        ensures { flags_of result ≡ without (flags_of self) (flags_of other) }
    {
        Flags {
            send: but_not(self.send, other.send),
            receive: but_not(self.receive, other.receive),
            call: but_not(self.call, other.call),
            procs: but_not(self.procs, other.procs),
            silent: but_not(self.silent, other.silent),
            arity: but_not(self.arity, other.arity),
            set_on_spawn: but_not(self.set_on_spawn, other.set_on_spawn),
            set_on_first_spawn: but_not(self.set_on_first_spawn, other.set_on_first_spawn),
            set_on_link: but_not(self.set_on_link, other.set_on_link),
            set_on_first_link: but_not(self.set_on_first_link, other.set_on_first_link),
        }
    }

    /// Whether all flags of the other set are among these.
    pub fn has(self, other: Flags) -> bool
        ensures { result ≡ has_all (flags_of self) (flags_of other) }
    {
        holds_if(self.send, other.send)
            && holds_if(self.receive, other.receive)
            && holds_if(self.call, other.call)
            && holds_if(self.procs, other.procs)
            && holds_if(self.silent, other.silent)
            && holds_if(self.arity, other.arity)
            && holds_if(self.set_on_spawn, other.set_on_spawn)
            && holds_if(self.set_on_first_spawn, other.set_on_first_spawn)
            && holds_if(self.set_on_link, other.set_on_link)
            && holds_if(self.set_on_first_link, other.set_on_first_link)
    }

    /// Whether both have the same flags.
    pub fn same(self, other: Flags) -> bool
        ensures { result ≡ same_flags (flags_of self) (flags_of other) }
    {
        self.has(other) && other.has(self)
    }
}

/// The flag of this name; None where none of the ten has it.
pub fn flag_of_name(text: &str) -> Option<Flags>
    ensures { option_map flags_of result ≡ option_map only (flag_named (atom text.now)) }
{
    match text {
        "send" => Some(Flags { send: true, ..NONE }),
        "receive" => Some(Flags {
            receive: true,
            ..NONE
        }),
        "call" => Some(Flags { call: true, ..NONE }),
        "procs" => Some(Flags {
            procs: true,
            ..NONE
        }),
        "silent" => Some(Flags {
            silent: true,
            ..NONE
        }),
        "arity" => Some(Flags {
            arity: true,
            ..NONE
        }),
        "set_on_spawn" => Some(Flags {
            set_on_spawn: true,
            ..NONE
        }),
        "set_on_first_spawn" => Some(Flags {
            set_on_first_spawn: true,
            ..NONE
        }),
        "set_on_link" => Some(Flags {
            set_on_link: true,
            ..NONE
        }),
        "set_on_first_link" => Some(Flags {
            set_on_first_link: true,
            ..NONE
        }),
        _ => None,
    }
}

/// The flag that the term names; None where it names none of the ten.
pub fn flag_of<A: Allocator>(term: &Term<A>) -> Option<Flags>
    ensures { option_map flags_of result ≡ option_map only (flag_named (tree_of term.now)) }
{
    match term {
        Term::Atom(name) => flag_of_name(name.text()),
        _ => None,
    }
}

/// What a process gives on, and what it keeps, by its flag that gives always and its flag that gives the
/// first time.
fn given_and_kept(flags: Flags, always: bool, first: bool, both: Flags) -> (Flags, Flags)
    ensures { GivesAndKeeps flags always first both result }
{
    if first {
        let rest = flags.without(both);
        (rest, rest)
    } else if always {
        (flags, flags)
    } else {
        (Flags::none(), flags)
    }
}

/// The new flags of a parent and its child, in that order, by the flags `set_on_spawn` and
/// `set_on_first_spawn` (`trace:process/4`).
pub fn inherit_spawn(parent: Flags, child: Flags) -> (Flags, Flags)
    ensures { (flags_of result.0, flags_of result.1) ≡ after_spawn (flags_of parent) (flags_of child) }
{
    let both = Flags {
        set_on_spawn: true,
        set_on_first_spawn: true,
        ..NONE
    };
    let (given, kept) = given_and_kept(
        parent,
        parent.set_on_spawn,
        parent.set_on_first_spawn,
        both,
    );
    (kept, child.join(given))
}

/// The new flags of a process that links and of its partner, in that order, by the flags
/// `set_on_link` and `set_on_first_link` (`trace:process/4`).
pub fn inherit_link(linker: Flags, partner: Flags) -> (Flags, Flags)
    ensures { (flags_of result.0, flags_of result.1) ≡ after_link (flags_of linker) (flags_of partner) }
{
    let both = Flags {
        set_on_link: true,
        set_on_first_link: true,
        ..NONE
    };
    let (given, kept) = given_and_kept(linker, linker.set_on_link, linker.set_on_first_link, both);
    (kept, partner.join(given))
}
