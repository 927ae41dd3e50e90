// What is known of the next step of a process before it is made. Nothing is built, and no memory is taken.
ghost use Rattle.std.specs.Prelude.{◌≡◌, length, slice_get, Some};
ghost use Rattle.std.specs.Option.{option_map};
ghost use Rattle.def_term.specs.Tree.{pid_in};
ghost use Rattle.def_outlook.specs.Outlook.{error_past, error_without_pid, error_entering, error_without_child};
ghost use Rattle.def_outlook.specs.Outlook.{runtime_error, is_waiting, addressee, catch_depth};
ghost use Rattle.def_outlook.specs.Outlook.{upcoming, upcoming_of, addressee_by};
ghost use Rattle.def_outlook.specs.Outlook.{own_link, own_link_by, own_link_to};
ghost use Rattle.tn_term.specs.Views.{tree_of};
ghost use Rattle.tn_script.specs.Views.{function_of, functions_of, step_of};
ghost use Rattle.tn_process.specs.Templates.{built_in};
ghost use Rattle.tn_process.specs.Views.{env_of, process_seen};
ghost use Rattle.tn_process.specs.Outlooks.{error_seen, upcoming_seen, error_calling_in, error_linking_in};
ghost use Rattle.tn_process.specs.Outlooks.{error_sending_in, error_of_step_in, own_link_seen};

use crate::function::find_function;
use crate::process::{FRAMES, Frame, Process};
use crate::values::pid_in;
use std::alloc::Allocator;
use tn_script::{Arguments, Entry, Function, Step, is_variable};
use tn_term::Term;

/// A run-time error, which ends a process.
#[derive(Clone, Copy, Debug, PartialEq, Eq, Drop)]
pub enum RuntimeError {
    /// A call of a function that isn't there: `undef`.
    CallsNothing,
    /// A step that builds a term past the limits: `system_limit`.
    BuildsPastLimit,
    /// A call past the greatest depth: `system_limit`.
    CallsPastLimit,
    /// A spawn past the last pid: `system_limit`.
    SpawnsPastLimit,
    /// A send to what is no pid: `badarg`.
    SendsToNoPid,
    /// A link to what is no pid: `badarg`.
    LinksToNoPid,
    /// An unlink of what is no pid: `badarg`.
    UnlinksFromNoPid,
}

/// A link of a process with itself, or an unlink from itself.
#[derive(Clone, Copy, Debug, PartialEq, Eq, Drop)]
pub enum OwnLink {
    /// It links to itself.
    Links,
    /// It unlinks from itself.
    Unlinks,
}

/// What a process does next.
#[derive(Clone, Copy, Drop)]
pub(crate) enum Upcoming<'a, A: Allocator + Copy> {
    /// It takes an exit signal.
    Signal,
    /// It makes its entry call.
    Entry(&'a Entry<A>),
    /// It has no step.
    Nothing,
    /// It makes a step of its newest frame; none is left where the frame returns.
    Step {
        function: &'a Function<A>,
        frame: &'a Frame<A>,
        step: Option<&'a Step<A>>,
    },
}

/// The error of a term that isn't within the limits, or what follows.
fn error_past(fits: bool, rest: Option<RuntimeError>) -> Option<RuntimeError>
    ensures { option_map error_seen result ≡ error_past fits (option_map error_seen rest) }
{
    if fits {
        rest
    } else {
        Some(RuntimeError::BuildsPastLimit)
    }
}

/// The error of a target that is no pid.
fn error_without_pid(error: RuntimeError, pid: Option<u32>) -> Option<RuntimeError>
    ensures { option_map error_seen result ≡ error_without_pid (error_seen error) pid }
{
    match pid {
        Some(_) => None,
        None => Some(error),
    }
}

/// The error of a spawn with no pid left.
fn error_without_child(child: Option<u32>) -> Option<RuntimeError>
    ensures { option_map error_seen result ≡ error_without_child child }
{
    match child {
        Some(_) => None,
        None => Some(RuntimeError::SpawnsPastLimit),
    }
}

/// The error of a call, by the number of its function, above so many frames.
fn error_entering<A: Allocator>(
    functions: &[Function<A>],
    count: usize,
    number: Option<usize>,
) -> Option<RuntimeError>
    ensures { option_map error_seen result ≡ error_entering (functions_of functions.now) count number }
{
    let Some(number) = number else {
        return Some(RuntimeError::CallsNothing);
    };
    match functions.get(number) {
        None => Some(RuntimeError::CallsNothing),
        Some(_) => {
            if count >= FRAMES {
                Some(RuntimeError::CallsPastLimit)
            } else {
                None
            }
        }
    }
}

/// The link or the unlink that is given, where its target is the process itself.
fn own_link_to(pid: u32, link: OwnLink, target: Option<u32>) -> Option<OwnLink>
    ensures { option_map own_link_seen result ≡ own_link_to pid (own_link_seen link) target }
{
    match target {
        None => None,
        Some(other) => { if pid == other { Some(link) } else { None } }
    }
}

/// The step at a place; None where the steps are used up.
fn step_at<'a, A: Allocator>(function: &'a Function<A>, place: usize) -> Option<&'a Step<A>>
    ensures { option_map (λ s. step_of s.now) result ≡ slice_get (function_of function.now).steps place }
{
    match function.steps.get(place) {
        Some(step) => Some(step),
        None => None,
    }
}

impl<A: Allocator + Copy> Frame<A> {
    /// The pid that the template stands for, if it is one.
    fn built_pid(&self, template: &Term<A>) -> Option<u32>
        ensures { result ≡ pid_in (built_in self.now template.now) }
    {
        match template {
            Term::Pid(number) => Some(*number),
            Term::Atom(name) => {
                if !is_variable(name.text()) {
                    return None;
                }
                match self.env.get(name.text()) {
                    Some(value) => pid_in(value),
                    None => None,
                }
            }
            _ => None,
        }
    }

    /// The error of a call of this name by this frame, above so many.
    fn error_calling(
        &self,
        functions: &[Function<A>],
        count: usize,
        home: &str,
        name: &str,
        templates: &Arguments<A>,
    ) -> Option<RuntimeError>
        ensures { option_map error_seen result ≡
            error_calling_in self.now functions.now count home.now name.now templates.now }
    {
        let number = find_function(functions, home, name, templates.terms.len());
        let entering = error_entering(functions, count, number);
        error_past(self.env.all_fit(&templates.terms), entering)
    }

    /// The error of a send.
    fn error_sending(&self, to: &Term<A>, message: &Term<A>) -> Option<RuntimeError>
        ensures { option_map error_seen result ≡ error_sending_in self.now to.now message.now }
    {
        let of_target = error_without_pid(RuntimeError::SendsToNoPid, self.built_pid(to));
        let of_message = error_past(self.env.fits(message), of_target);
        error_past(self.env.fits(to), of_message)
    }

    /// The error of a link or an unlink, which is this one where the target is no pid.
    fn error_linking(&self, error: RuntimeError, other: &Term<A>) -> Option<RuntimeError>
        ensures { option_map error_seen result ≡ error_linking_in self.now error other.now }
    {
        let of_target = error_without_pid(error, self.built_pid(other));
        error_past(self.env.fits(other), of_target)
    }

    /// The pid to which a step of this frame sends.
    fn addressee(&self, step: &Step<A>) -> Option<u32>
        ensures { result ≡ addressee_by (env_of self.now.env) (Some (step_of step.now)) }
    {
        match step {
            Step::Send { to, .. } => self.built_pid(to),
            _ => None,
        }
    }

    /// The link with itself, or the unlink from itself, that a step of this frame is, of the process with this pid.
    fn own_link(&self, pid: u32, step: &Step<A>) -> Option<OwnLink>
        ensures { option_map own_link_seen result ≡
            own_link_by pid (env_of self.now.env) (Some (step_of step.now)) }
    {
        match step {
            Step::Link(other) => own_link_to(pid, OwnLink::Links, self.built_pid(other)),
            Step::Unlink(other) => own_link_to(pid, OwnLink::Unlinks, self.built_pid(other)),
            _ => None,
        }
    }

    /// The error of a step of this frame, the newest of so many, whose function is the one given.
    fn error_of_step(
        &self,
        functions: &[Function<A>],
        child: Option<u32>,
        function: &Function<A>,
        count: usize,
        step: &Step<A>,
    ) -> Option<RuntimeError>
        ensures { option_map error_seen result ≡
            error_of_step_in self.now functions.now child function.now count step.now }
    {
        match step {
            Step::Send { to, message } => self.error_sending(to, message),
            Step::Receive { .. } => None,
            Step::CallRemote {
                module: home,
                name,
                args,
                ..
            } => self.error_calling(functions, count, home.text(), name.text(), args),
            Step::CallLocal { name, args, .. } => {
                self.error_calling(functions, count, function.module.text(), name.text(), args)
            }
            Step::Catch {
                module: home,
                name,
                args,
                ..
            } => self.error_calling(functions, count, home.text(), name.text(), args),
            Step::Spawn { args, .. } => {
                error_past(self.env.all_fit(&args.terms), error_without_child(child))
            }
            Step::Link(other) => self.error_linking(RuntimeError::LinksToNoPid, other),
            Step::Unlink(other) => self.error_linking(RuntimeError::UnlinksFromNoPid, other),
            Step::Return(value) => error_past(self.env.fits(value), None),
            Step::Raise { value, .. } => error_past(self.env.fits(value), None),
        }
    }
}

impl<A: Allocator + Copy> Process<A> {
    /// The next step of its newest frame.
    fn upcoming_of_newest<'a>(&'a self, functions: &'a [Function<A>]) -> Upcoming<'a, A>
        ensures { upcoming_seen (length self.now.frames.items) result ≡
            upcoming_of (functions_of functions.now) (process_seen self.now).frames }
    {
        let Some(frame) = self.frames.last() else {
            return Upcoming::Nothing;
        };
        match functions.get(frame.function) {
            None => Upcoming::Nothing,
            Some(function) => Upcoming::Step {
                function,
                frame,
                step: step_at(function, frame.place),
            },
        }
    }

    /// What it does next.
    fn upcoming<'a>(&'a self, functions: &'a [Function<A>]) -> Upcoming<'a, A>
        ensures { upcoming_seen (length self.now.frames.items) result ≡
            upcoming (functions_of functions.now) (process_seen self.now) }
    {
        match &self.signal {
            Some(_) => Upcoming::Signal,
            None => match &self.entry {
                Some(entry) => Upcoming::Entry(entry),
                None => self.upcoming_of_newest(functions),
            },
        }
    }

    /// The run-time error that its next step is, if it is one. `child` is the pid that a spawn would give.
    pub fn runtime_error(
        &self,
        functions: &[Function<A>],
        child: Option<u32>,
    ) -> Option<RuntimeError>
        ensures { option_map error_seen result ≡
            runtime_error (functions_of functions.now) child (process_seen self.now) }
    {
        let count = self.frames.len();
        match self.upcoming(functions) {
            Upcoming::Signal | Upcoming::Nothing => None,
            Upcoming::Entry(entry) => {
                let arity = entry.args.terms.len();
                let number = find_function(
                    functions,
                    entry.module.text(),
                    entry.name.text(),
                    arity,
                );
                error_entering(functions, count, number)
            }
            Upcoming::Step {
                function,
                frame,
                step,
            } => match step {
                None => None,
                Some(step) => frame.error_of_step(functions, child, function, count, step),
            },
        }
    }

    /// Whether it waits: its next step is a receive, and its mailbox is empty; or it has no step.
    pub fn is_waiting(&self, functions: &[Function<A>]) -> bool
        ensures { result ≡ is_waiting (functions_of functions.now) (process_seen self.now) }
    {
        match self.upcoming(functions) {
            Upcoming::Signal | Upcoming::Entry(_) => false,
            Upcoming::Nothing => true,
            Upcoming::Step { step, .. } => match step {
                Some(Step::Receive { .. }) => self.mailbox.is_empty(),
                _ => false,
            },
        }
    }

    /// The pid to which its next step sends.
    pub fn addressee(&self, functions: &[Function<A>]) -> Option<u32>
        ensures { result ≡ addressee (functions_of functions.now) (process_seen self.now) }
    {
        match self.upcoming(functions) {
            Upcoming::Signal | Upcoming::Entry(_) | Upcoming::Nothing => None,
            Upcoming::Step { frame, step, .. } => match step {
                Some(step) => frame.addressee(step),
                None => None,
            },
        }
    }

    /// The link with itself, or the unlink from itself, that its next step is; this is its pid.
    pub fn own_link(&self, functions: &[Function<A>], pid: u32) -> Option<OwnLink>
        ensures { option_map own_link_seen result ≡
            own_link (functions_of functions.now) pid (process_seen self.now) }
    {
        match self.upcoming(functions) {
            Upcoming::Signal | Upcoming::Entry(_) | Upcoming::Nothing => None,
            Upcoming::Step { frame, step, .. } => match step {
                Some(step) => frame.own_link(pid, step),
                None => None,
            },
        }
    }

    /// The depth of its newest frame that a catch step called.
    pub fn catch_depth(&self) -> Option<usize>
        ensures { result ≡ catch_depth (process_seen self.now).frames }
    {
        let mut depth = None;
        for place in 0..self.frames.len() {
            if self.frames[place].by_catch {
                depth = Some(place + 1);
            }
        }
        depth
    }
}
