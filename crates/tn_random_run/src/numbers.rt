// Numbers from a seed.
ghost use Rattle.std.specs.Prelude.{◌≡◌};
ghost use Rattle.def_random_run.specs.Numbers.{next_seed, seed_mixture, seed_number};

/// The seed after a seed: a step of a linear congruential generator.
pub fn seed_after(seed: u64) -> u64
    ensures { result ≡ next_seed seed }
{
    seed.wrapping_mul(6_364_136_223_846_793_005)
        .wrapping_add(1_442_695_040_888_963_407)
}

/// The bits of a seed, mixed.
pub fn mixture_of(seed: u64) -> u64
    ensures { result ≡ seed_mixture seed }
{
    (seed ^ (seed >> 29)).wrapping_mul(0x9E37_79B9_7F4A_7C15)
}

/// The number of a seed: the high bits of its mixture.
pub fn number_of(seed: u64) -> u64
    ensures { result ≡ seed_number seed }
{
    mixture_of(seed) >> 33
}
