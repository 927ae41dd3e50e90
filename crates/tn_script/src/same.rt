// Equality of the parts of forms; it takes no memory.
ghost use Rattle.std.specs.Prelude.{◌≡◌, ◌↔◌, IsTrue, map};
ghost use Rattle.def_term.specs.Names.{Name};
ghost use Rattle.def_script.specs.Program as program;
ghost use Rattle.tn_flags.specs.Views.{class_of, command_of};
ghost use Rattle.tn_script.specs.Views.{args_of, step_of, function_of, entry_of};

use crate::form::{Arguments, Entry, Function, Step};
use std::alloc::Allocator;
use tn_flags::{Class, Command};
use tn_term::{Atom, same_terms};

/// A part of a form, by what it stands for.
pub trait Part {
    ghost Seen: { Type 0 };

    ghost seen: { Self → Seen };

    /// Whether both are the same.
    fn same(&self, other: &Self) -> bool
        ensures { IsTrue result ↔ (seen self.now ≡ seen other.now) };
}

/// Whether the lists of parts are the same.
fn same_each<P: Part>(one: &[P], other: &[P]) -> bool
    ensures { IsTrue result ↔ (map P.seen one.now ≡ map P.seen other.now) }
{
    if one.len() != other.len() {
        return false;
    }
    for i in 0..one.len() {
        if !one[i].same(&other[i]) {
            return false;
        }
    }
    true
}

/// Whether the names are the same.
fn same_name<A: Allocator>(one: &Atom<A>, other: &Atom<A>) -> bool
    ensures { IsTrue result ↔ (one.now ≡ other.now) }
{
    one.text() == other.text()
}

/// Whether the targets are the same.
fn same_target<A: Allocator>(one: &Option<Atom<A>>, other: &Option<Atom<A>>) -> bool
    ensures { IsTrue result ↔ (one.now ≡ other.now) }
{
    match (one, other) {
        (Some(one), Some(other)) => same_name(one, other),
        (None, None) => true,
        _ => false,
    }
}

/// Whether the arguments are the same.
fn same_args<A: Allocator>(one: &Arguments<A>, other: &Arguments<A>) -> bool
    ensures { IsTrue result ↔ (args_of one.now ≡ args_of other.now) }
{
    same_terms(&one.terms, &other.terms)
}

/// Whether the classes are the same.
fn same_class(one: Class, other: Class) -> bool
    ensures { IsTrue result ↔ (class_of one ≡ class_of other) }
{
    one == other
}

/// Whether both are exported, or neither.
fn same_visibility(one: bool, other: bool) -> bool
    ensures { IsTrue result ↔ (one ≡ other) }
{
    if one { other } else { !other }
}

impl<A: Allocator> Part for Atom<A> {
    ghost Seen = { Name };

    ghost seen = { λ s. s };

    fn same(&self, other: &Self) -> bool {
        same_name(self, other)
    }
}

impl<A: Allocator> Part for Step<A> {
    ghost Seen = { program.Step };

    ghost seen = { step_of };

    fn same(&self, other: &Self) -> bool {
        match (self, other) {
            (
                Step::Send { to, message },
                Step::Send {
                    to: to2,
                    message: message2,
                },
            ) => to.same(to2) && message.same(message2),
            (Step::Receive { target }, Step::Receive { target: target2 }) => same_target(
                target, target2,
            ),
            (
                Step::CallRemote {
                    target,
                    module,
                    name,
                    args,
                },
                Step::CallRemote {
                    target: target2,
                    module: module2,
                    name: name2,
                    args: args2,
                },
            ) => same_target(target, target2)
                && same_name(module, module2)
                && same_name(name, name2)
                && same_args(args, args2),
            (
                Step::CallLocal { target, name, args },
                Step::CallLocal {
                    target: target2,
                    name: name2,
                    args: args2,
                },
            ) => {
                same_target(target, target2) && same_name(name, name2) && same_args(args, args2)
            }
            (
                Step::Catch {
                    target,
                    module,
                    name,
                    args,
                },
                Step::Catch {
                    target: target2,
                    module: module2,
                    name: name2,
                    args: args2,
                },
            ) => same_target(target, target2)
                && same_name(module, module2)
                && same_name(name, name2)
                && same_args(args, args2),
            (
                Step::Spawn {
                    target,
                    module,
                    name,
                    args,
                },
                Step::Spawn {
                    target: target2,
                    module: module2,
                    name: name2,
                    args: args2,
                },
            ) => same_target(target, target2)
                && same_name(module, module2)
                && same_name(name, name2)
                && same_args(args, args2),
            (Step::Link(term), Step::Link(term2)) => term.same(term2),
            (Step::Unlink(term), Step::Unlink(term2)) => term.same(term2),
            (Step::Return(term), Step::Return(term2)) => term.same(term2),
            (
                Step::Raise { class, value },
                Step::Raise {
                    class: class2,
                    value: value2,
                },
            ) => same_class(*class, *class2) && value.same(value2),
            _ => false,
        }
    }
}

impl<A: Allocator> Part for Function<A> {
    ghost Seen = { program.Function };

    ghost seen = { function_of };

    fn same(&self, other: &Self) -> bool {
        if !same_name(&self.module, &other.module) {
            return false;
        }
        if !same_name(&self.name, &other.name) {
            return false;
        }
        if !same_visibility(self.exported, other.exported) {
            return false;
        }
        if !same_each(&self.params, &other.params) {
            return false;
        }
        same_each(&self.steps, &other.steps)
    }
}

impl<A: Allocator> Part for Entry<A> {
    ghost Seen = { program.Entry };

    ghost seen = { entry_of };

    fn same(&self, other: &Self) -> bool {
        same_name(&self.module, &other.module)
            && same_name(&self.name, &other.name)
            && same_args(&self.args, &other.args)
    }
}

impl<A: Allocator> Part for Command<A> {
    ghost Seen = { program.Command };

    ghost seen = { command_of };

    fn same(&self, other: &Self) -> bool {
        match (self, other) {
            (
                Command::SessionCreate { session, tracer },
                Command::SessionCreate {
                    session: session2,
                    tracer: tracer2,
                },
            ) => { same_name(session, session2) && same_name(tracer, tracer2) }
            (Command::SessionDestroy { session }, Command::SessionDestroy { session: session2 }) =>
                same_name(session, session2),
            (
                Command::Process {
                    session,
                    procs,
                    how,
                    flags,
                },
                Command::Process {
                    session: session2,
                    procs: procs2,
                    how: how2,
                    flags: flags2,
                },
            ) => same_name(session, session2)
                && procs.same(procs2)
                && how.same(how2)
                && flags.same(flags2),
            (
                Command::Function {
                    session,
                    mfa,
                    specification,
                    options,
                },
                Command::Function {
                    session: session2,
                    mfa: mfa2,
                    specification: specification2,
                    options: options2,
                },
            ) => same_name(session, session2)
                && mfa.same(mfa2)
                && specification.same(specification2)
                && options.same(options2),
            (
                Command::Send {
                    session,
                    specification,
                },
                Command::Send {
                    session: session2,
                    specification: specification2,
                },
            ) => { same_name(session, session2) && specification.same(specification2) }
            (
                Command::Recv {
                    session,
                    specification,
                },
                Command::Recv {
                    session: session2,
                    specification: specification2,
                },
            ) => { same_name(session, session2) && specification.same(specification2) }
            _ => false,
        }
    }
}

/// Whether the lists of functions are the same.
pub fn same_functions<A: Allocator>(one: &[Function<A>], other: &[Function<A>]) -> bool
    ensures { IsTrue result ↔ (map function_of one.now ≡ map function_of other.now) }
{
    same_each(one, other)
}

/// Whether the lists of entry calls are the same.
pub fn same_entries<A: Allocator>(one: &[Entry<A>], other: &[Entry<A>]) -> bool
    ensures { IsTrue result ↔ (map entry_of one.now ≡ map entry_of other.now) }
{
    same_each(one, other)
}

/// Whether the lists of commands are the same.
pub fn same_commands<A: Allocator>(one: &[Command<A>], other: &[Command<A>]) -> bool
    ensures { IsTrue result ↔ (map command_of one.now ≡ map command_of other.now) }
{
    same_each(one, other)
}
