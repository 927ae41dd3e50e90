// The forms of a script.
ghost use Rattle.std.specs.Prelude.{◌≤◌, length};

use std::alloc::Allocator;
use tn_flags::{Class, Command};
use tn_term::{Atom, Term};

/// The arguments of a call or of a process: at most 255 terms.
#[derive(Drop)]
pub struct Arguments<A: Allocator> {
    pub terms: Vec<Term<A>, A>,
    ghost fits: { length terms.items ≤ 255 },
}

/// A step of a function; its terms are templates. A target that is none throws the value away.
#[derive(Drop)]
pub enum Step<A: Allocator> {
    /// Sends a message.
    Send {
        to: Term<A>,
        message: Term<A>,
    },
    /// Takes the first message of the mailbox.
    Receive {
        target: Option<Atom<A>>,
    },
    /// Calls a function, naming the module.
    CallRemote {
        target: Option<Atom<A>>,
        module: Atom<A>,
        name: Atom<A>,
        args: Arguments<A>,
    },
    /// Calls a function of the same module without naming it.
    CallLocal {
        target: Option<Atom<A>>,
        name: Atom<A>,
        args: Arguments<A>,
    },
    /// Calls a function, naming the module, and catches what is raised in it.
    Catch {
        target: Option<Atom<A>>,
        module: Atom<A>,
        name: Atom<A>,
        args: Arguments<A>,
    },
    /// Starts a process.
    Spawn {
        target: Option<Atom<A>>,
        module: Atom<A>,
        name: Atom<A>,
        args: Arguments<A>,
    },
    /// Links the process to another.
    Link(Term<A>),
    /// Removes the link to another process.
    Unlink(Term<A>),
    /// Returns a value.
    Return(Term<A>),
    /// Raises an exception of this class.
    Raise {
        class: Class,
        value: Term<A>,
    },
}

/// A function that a script declares.
#[derive(Drop)]
pub struct Function<A: Allocator> {
    pub module: Atom<A>,
    pub name: Atom<A>,
    pub exported: bool,
    pub params: Vec<Atom<A>, A>,
    pub steps: Vec<Step<A>, A>,
    ghost fits: { length params.items ≤ 255 },
}

/// The call with which an initial process begins.
#[derive(Drop)]
pub struct Entry<A: Allocator> {
    pub module: Atom<A>,
    pub name: Atom<A>,
    pub args: Arguments<A>,
}

/// A form of a script.
#[derive(Drop)]
pub enum Form<A: Allocator> {
    /// Declares a function.
    Function(Function<A>),
    /// Starts an initial process.
    Process(Entry<A>),
    /// Gives commands of the control list.
    Control(Vec<Command<A>, A>),
}
