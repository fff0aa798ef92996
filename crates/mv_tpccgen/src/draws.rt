//! Draws of random numbers.

ghost use Rattle.std.specs.Prelude.{◌≡◌, ◌<◌, ◌≤◌, ◌^◌, ◌+◌, ◌-◌};
ghost use Rattle.mv_tpccgen.specs.Draws.{IsDrawn, random, nurand, other, words_at, words_from};

use rand_core::{Rng, SeedableRng};
use rand_xoshiro::SplitMix64;

/// Draws a number from `low` to `high`.
pub(crate) fn draw(low: u32, high: u32, words: &mut SplitMix64) -> u32
    requires { low ≤ high }
    ensures drawn { IsDrawn (random low high) result words.old words.new }
    ensures least { low ≤ result }
    ensures greatest { result ≤ high }
{
    let width = u64::from(high - low) + 1;
    low + (words.next_u64() % width) as u32
}

/// Draws a number from `low` to `high` that isn't uniform.
pub(crate) fn draw_nurand(most: u32, low: u32, high: u32, words: &mut SplitMix64) -> u32
    requires order { low ≤ high }
    requires small { high < 2 ^ 16 }
    requires mask { most < 2 ^ 16 }
    ensures drawn { IsDrawn (nurand most low high) result words.old words.new }
    ensures least { low ≤ result }
    ensures greatest { result ≤ high }
{
    let mask = draw(0, most, words);
    let number = draw(low, high, words);
    ((mask | number) + 7) % (high - low + 1) + low
}

/// Draws one of the warehouses, but not this one.
pub(crate) fn draw_other(warehouses: u32, warehouse: u32, words: &mut SplitMix64) -> u32
    requires several { 1 < warehouses }
    requires few { warehouses ≤ 16 }
    requires first { 1 ≤ warehouse }
    requires last { warehouse ≤ warehouses }
    ensures drawn { IsDrawn (other warehouses warehouse) result words.old words.new }
    ensures least { 1 ≤ result }
    ensures greatest { result ≤ warehouses }
{
    let step = draw(1, warehouses - 1, words);
    (warehouse - 1 + step) % warehouses + 1
}

/// Returns the words of a seed.
pub(crate) fn words_from(seed: u32) -> SplitMix64
    ensures { words_at result ≡ words_from seed }
{
    SplitMix64::from_seed(u64::from(seed).to_le_bytes())
}
