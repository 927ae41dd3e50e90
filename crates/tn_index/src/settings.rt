// The settings of functions.
ghost use Rattle.std.specs.Prelude.{◌≡◌, [], ◌∷◌, ◌++◌, reverse, OnOk, OnErr};
ghost use Rattle.std.specs.List.{All};
ghost use Rattle.std.specs.Option.{option_map};
ghost use Rattle.tn_term.specs.Views.{mfa_seen};
ghost use Rattle.tn_index.specs.Entries.{IsRight};
ghost use Rattle.tn_index.specs.Newest.{newest_setting};

use crate::entry::{Entry, Places, enter, find, renew};
use crate::function_setting::FunctionSetting;
use indexmap::IndexMap;
use std::alloc::{AllocError, Allocator};
use std::marker::Model;
use tn_term::Mfa;

/// The function commands that were accepted, seen as their list, the newest first. Of each function of the
/// program it knows which one is the newest that covers it.
#[derive(Drop)]
pub struct Settings<S, A: Allocator> {
    alloc: A,
    /// The newest last.
    accepted: Vec<FunctionSetting<S, A>, A>,
    /// The functions of the program, from the first command on.
    entries: Vec<Entry<A>, A>,
    places: Places<A>,
}

impl<S, A: Allocator> Model for Settings<S, A> {
    ghost use Rattle.std.specs.Prelude.{List, reverse};
    ghost use Rattle.std.specs.List.{All};
    ghost use Rattle.tn_index.specs.declared.function_setting.FunctionSetting.{FunctionSetting};
    ghost use Rattle.tn_index.specs.Entries.{IsRight};

    ghost Value = { List (FunctionSetting S A) };

    ghost view = { λ s. reverse s.accepted.items };

    ghost invariant = { λ s. All (IsRight s.accepted.items) s.entries.items };
}

/// The newest of these commands, of which the last is the newest, that has the function among its own.
fn newest_in<'a, S, A: Allocator>(
    accepted: &'a [FunctionSetting<S, A>],
    function: &Mfa<A>,
    exported: bool,
) -> Option<&'a FunctionSetting<S, A>>
    ensures { option_map (λ k. k.now) result ≡ newest_setting (reverse accepted.now) (mfa_seen function.now) exported }
{
    let mut left = accepted.len();
    while left > 0 {
        left -= 1;
        let function_setting = &accepted[left];
        if function_setting.has_among(function, exported) {
            return Some(function_setting);
        }
    }
    None
}

/// Makes the entries of these functions before the first command. An error is refused memory.
fn begin<S, A: Allocator + Copy>(
    alloc: A,
    functions: &[(Mfa<A>, bool)],
    accepted: &Vec<FunctionSetting<S, A>, A>,
    entries: &mut Vec<Entry<A>, A>,
    places: &mut Places<A>,
) -> Result<(), AllocError>
    requires { All (IsRight accepted.now.items) entries.old.items }
    ensures { All (IsRight accepted.now.items) entries.new.items }
{
    if accepted.is_empty() {
        enter(alloc, functions, entries, places)?;
    }
    Ok(())
}

/// Adds a command, which is the newest of the functions that it covers from now on. An error is refused
/// memory.
fn add<S: Drop, A: Allocator>(
    function_setting: FunctionSetting<S, A>,
    accepted: &mut Vec<FunctionSetting<S, A>, A>,
    entries: &mut Vec<Entry<A>, A>,
) -> Result<(), AllocError>
    requires { All (IsRight accepted.old.items) entries.old.items }
    ensures right { All (IsRight accepted.new.items) entries.new.items }
    ensures ok { OnOk result (accepted.new.items ≡ accepted.old.items ++ function_setting ∷ []) }
    ensures err { OnErr result (accepted.new.items ≡ accepted.old.items) }
{
    let place = accepted.len();
    accepted.push(function_setting)?;
    renew(entries, place, &accepted[place]);
    Ok(())
}

impl<S: Drop, A: Allocator + Copy> Settings<S, A> {
    /// No function command was accepted yet. It takes no memory.
    pub fn new(alloc: A) -> Settings<S, A>
        ensures { result ≡ [] }
    {
        Settings {
            alloc,
            accepted: Vec::new(alloc),
            entries: Vec::new(alloc),
            places: IndexMap::new(alloc),
        }
    }

    /// An accepted command is the newest from now on, and the one of each function that it covers,
    /// whichever kind the one before it is. The functions are those of the program, each once, with whether
    /// it is exported: those that are given with the first command are found in constant time.
    ///
    /// # Errors
    ///
    /// AllocError where memory was refused: no command was added.
    pub fn set(
        &mut self,
        functions: &[(Mfa<A>, bool)],
        function_setting: FunctionSetting<S, A>,
    ) -> Result<(), AllocError>
        ensures ok { OnOk result (self.new ≡ function_setting ∷ self.old) }
        ensures err { OnErr result (self.new ≡ self.old) }
    {
        let accepted = &self.accepted;
        begin(
            self.alloc,
            functions,
            accepted,
            &mut self.entries,
            &mut self.places,
        )?;
        add(function_setting, &mut self.accepted, &mut self.entries)?;
        Ok(())
    }

    /// The commands, the oldest first.
    pub fn commands(&self) -> &[FunctionSetting<S, A>]
        ensures { reverse result.now ≡ self.now }
    {
        &self.accepted
    }

    /// The newest command that has the function, exported or not, among its own, whichever kind it is.
    pub fn get(&self, function: &Mfa<A>, exported: bool) -> Option<&FunctionSetting<S, A>>
        ensures { option_map (λ k. k.now) result ≡ newest_setting self.now (mfa_seen function.now) exported }
    {
        if self.accepted.is_empty() {
            return None;
        }
        match find(&self.entries, &self.places, function, exported) {
            Some(entry) => self.accepted.get(entry.newest?),
            None => newest_in(&self.accepted, function, exported),
        }
    }
}
