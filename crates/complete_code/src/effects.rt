// The texts of effects.
ghost use Rattle.std.specs.Prelude.{◌≡◌, OnOk, map};
ghost use Rattle.tn_action.specs.Views.{effect_seen};
ghost use Rattle.tn_flags.specs.Views.{flags_of};

use std::alloc::{AllocError, Allocator};
use tn_action::Effect;
use tn_flags::Flags;

/// `tn_verdict::put_flags` has one answer but for what stands there after refused memory: that is a part of it.
pub fn put_flags<B: Allocator>(
    verb: &'static [u8],
    flags: Flags,
    again: Flags,
    one: &mut Vec<u8, B>,
    other: &mut Vec<u8, B>,
) -> (Result<(), AllocError>, Result<(), AllocError>)
    requires flags { flags_of flags ≡ flags_of again }
    requires texts { one.old.items ≡ other.old.items }
    ensures { OnOk result.0 (OnOk result.1 (one.new.items ≡ other.new.items)) }
{
    let first = tn_verdict::put_flags(verb, flags, one);
    let second = tn_verdict::put_flags(verb, again, other);
    (first, second)
}

/// `tn_verdict::put_effects` has one answer but for what stands there after refused memory: that is a part of it.
pub fn put_effects<A: Allocator, B: Allocator>(
    effects: &[Effect<'_, A>],
    again: &[Effect<'_, A>],
    one: &mut Vec<u8, B>,
    other: &mut Vec<u8, B>,
) -> (Result<(), AllocError>, Result<(), AllocError>)
    requires effects { map effect_seen effects.now ≡ map effect_seen again.now }
    requires texts { one.old.items ≡ other.old.items }
    ensures { OnOk result.0 (OnOk result.1 (one.new.items ≡ other.new.items)) }
{
    let first = tn_verdict::put_effects(effects, one);
    let second = tn_verdict::put_effects(again, other);
    (first, second)
}
