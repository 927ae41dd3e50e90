// What variables are bound to.
ghost use Rattle.std.specs.Prelude.{◌≡◌, ◌≤◌, map, length, nat_lt};
ghost use Rattle.std.specs.List.{position_or_len};
ghost use Rattle.std.specs.Option.{option_map};
ghost use Rattle.def_spec.specs.Matching as matching;
ghost use Rattle.tn_guard.specs.Views.{value_seen};
ghost use Rattle.tn_head.specs.Views.{binding_seen, bindings_seen};

use smallvec::SmallVec;
use std::alloc::Allocator;
use tn_guard::{ListView, Value};

/// A variable, by its number, and the first value that it met.
#[derive_where(Clone, Copy)]
pub struct Binding<'a, A: Allocator> {
    pub number: u16,
    pub value: Value<'a, A>,
}

impl<'a, A: Allocator> Default for Binding<'a, A> {
    /// A binding of variable 0, which fills a place that is not used.
    fn default() -> Binding<'a, A> {
        Binding {
            number: 0,
            value: Value::default(),
        }
    }
}

/// The bindings of the first variables lie in the value itself, those of more in an allocation.
pub type SomeBindings<'a, A, B> = SmallVec<Binding<'a, A>, 4, B>;

/// What the variables of a head are bound to.
#[derive(Drop)]
pub enum Bindings<'a, A: Allocator, B: Allocator> {
    /// The head is this variable, which is bound to the whole list of these elements.
    Whole(u16, ListView<'a, A>),
    /// Each variable of the head, by rising number.
    Each(SomeBindings<'a, A, B>),
}

impl<'a, A: Allocator, B: Allocator> Bindings<'a, A, B> {
    /// What `'$N'` is bound to.
    pub fn get(&self, number: u16) -> Option<Value<'a, A>>
        ensures { option_map value_seen result ≡ matching.value_bound (bindings_seen self.now) number }
    {
        match self {
            Bindings::Whole(n, list) => {
                if *n == number {
                    Some(list.list())
                } else {
                    None
                }
            }
            Bindings::Each(bindings) => value_of(bindings.as_slice(), number),
        }
    }
}

/// The value that the variable met.
pub fn value_of<'a, A: Allocator>(bindings: &[Binding<'a, A>], number: u16) -> Option<Value<'a, A>>
    ensures { option_map value_seen result ≡ matching.value_bound (map binding_seen bindings.now) number }
{
    for binding in bindings {
        if binding.number == number {
            return Some(binding.value);
        }
    }
    None
}

/// The place of a variable that isn't bound yet: before the first of a greater number.
pub fn place_of<A: Allocator>(bindings: &[Binding<'_, A>], number: u16) -> usize
    ensures place { result ≡ position_or_len (λ b. nat_lt number b.number) bindings.now }
    ensures within { result ≤ length bindings.now }
{
    for (place, binding) in bindings.iter().enumerate() {
        if number < binding.number {
            return place;
        }
    }
    bindings.len()
}
