// The elements of a vector of a known length, moved out of it.
ghost use Rattle.std.specs.Prelude.{◌≡◌, ◌≢◌, List, [], ◌∷◌, length, MatchOption};

use std::alloc::Allocator;

/// The only element.
fn one<T: Drop, A: Allocator>(mut items: Vec<T, A>) -> Option<T>
    ensures { MatchOption result (length items.items ≢ 1) (λ x. items.items ≡ x ∷ []) }
{
    let last = items.pop()?;
    if items.is_empty() { Some(last) } else { None }
}

/// The two elements, where there are two.
pub fn two<T: Drop, A: Allocator>(mut items: Vec<T, A>) -> Option<(T, T)>
    ensures { MatchOption result (length items.items ≢ 2) (λ p. items.items ≡ p.0 ∷ p.1 ∷ []) }
{
    let last = items.pop()?;
    let first = one(items)?;
    Some((first, last))
}

/// The three elements, where there are three.
pub fn three<T: Drop, A: Allocator>(mut items: Vec<T, A>) -> Option<(T, T, T)>
    ensures { MatchOption result (length items.items ≢ 3) (λ p. items.items ≡ p.0 ∷ p.1 ∷ p.2 ∷ []) }
{
    let last = items.pop()?;
    let (first, second) = two(items)?;
    Some((first, second, last))
}

/// The four elements, where there are four.
pub fn four<T: Drop, A: Allocator>(mut items: Vec<T, A>) -> Option<(T, T, T, T)>
    ensures { MatchOption result (length items.items ≢ 4) (λ p. items.items ≡ p.0 ∷ p.1 ∷ p.2 ∷ p.3 ∷ []) }
{
    let last = items.pop()?;
    let (first, second, third) = three(items)?;
    Some((first, second, third, last))
}

/// The five elements, where there are five.
pub fn five<T: Drop, A: Allocator>(mut items: Vec<T, A>) -> Option<(T, T, T, T, T)>
    ensures { MatchOption result (length items.items ≢ 5) (λ p. items.items ≡ p.0 ∷ p.1 ∷ p.2 ∷ p.3 ∷ p.4 ∷ []) }
{
    let last = items.pop()?;
    let (first, second, third, fourth) = four(items)?;
    Some((first, second, third, fourth, last))
}

/// The six elements, where there are six.
pub fn six<T: Drop, A: Allocator>(mut items: Vec<T, A>) -> Option<(T, T, T, T, T, T)>
    ensures { MatchOption result (length items.items ≢ 6) (λ p. items.items ≡ p.0 ∷ p.1 ∷ p.2 ∷ p.3 ∷ p.4 ∷ p.5 ∷ []) }
{
    let last = items.pop()?;
    let (first, second, third, fourth, fifth) = five(items)?;
    Some((first, second, third, fourth, fifth, last))
}
