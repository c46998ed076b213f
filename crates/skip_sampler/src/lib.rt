//! Which accesses of a task are watched: after a number of others that are skipped, as KCSAN
//! samples.
#![tactic(auto)]

ghost use Rattle.std.specs.Prelude.{◌≡◌, ◌+◌, ◌↔◌, ℕ, Bool, IsTrue, if◌then◌else◌};
ghost use Rattle.skip_sampler.specs.Sampler as spec;
ghost use Rattle.skip_sampler.specs.Sampler.{LeadsTo, SamplerPositions, gap_by, is_drawn};
ghost use Rattle.skip_sampler.specs.Sampler.{stream_from};
ghost use Rattle.rand_core.specs.Stream.{next_u64};

use rand_core::{Rng, SeedableRng};
use rand_xoshiro::Xoshiro256PlusPlus;
use std::marker::Model;

pub mod laws;

pub use laws::{
    law_askings_lead_to_samplers, law_gaps_are_within_skip, law_positions_of_seed_one,
    law_positions_without_chance,
};

/// Says of each access that asks whether it is watched. Of two that are watched, `skip` others are
/// skipped in between, or, randomized, from 1 to `skip` others.
#[derive(PartialEq, Eq, Drop)]
pub struct Sampler {
    skip: u64,
    randomize: bool,
    counter: u64,
    generator: Xoshiro256PlusPlus,
}

impl Model for Sampler {
    ghost Value = { spec.Sampler };

    ghost view = { λ s. record {
      skip = s.skip;
      randomize = s.randomize;
      counter = s.counter;
      generator = s.generator;
    } };

    ghost inverse = { λ s. record {
      skip = s.skip;
      randomize = s.randomize;
      counter = s.counter;
      generator = s.generator;
    } };
}

impl Sampler {
    /// A sampler that skips the first `skip` accesses. The seed decides what a randomized sampler
    /// skips between later ones. That it begins with a whole skip is a choice, where core.c watches
    /// the first access that asks: so without chance each multiple of `skip` + 1 is watched.
    pub fn new(skip: u64, randomize: bool, seed: u64) -> Sampler
        ensures { LeadsTo skip randomize seed 0 result }
    {
        Sampler {
            skip,
            randomize,
            counter: skip,
            generator: Xoshiro256PlusPlus::seed_from_u64(seed),
        }
    }

    /// A second sampler, which gives the same answers from here on. Asking one leaves the other as it is.
    pub fn copy(&self) -> Sampler
        ensures { result ≡ self.now }
    {
        let Ok(generator) = self.generator.clone() else {
            unreachable!()
        };
        Sampler {
            skip: self.skip,
            randomize: self.randomize,
            counter: self.counter,
            generator,
        }
    }

    /// Whether the access that asks now is watched.
    #[inline(always)]
    pub fn should_watch(&mut self) -> bool
        ensures watched { (skip : ℕ) (randomize : Bool) (seed askings : ℕ)
            → LeadsTo skip randomize seed askings self.old
            → (IsTrue result ↔ SamplerPositions skip randomize seed (askings + 1)) }
        ensures follows { (skip : ℕ) (randomize : Bool) (seed askings : ℕ)
            → LeadsTo skip randomize seed askings self.old
            → LeadsTo skip randomize seed (askings + 1) self.new }
    {
        if self.counter > 0 {
            self.counter -= 1;
            return false;
        }
        self.counter = next_gap(self.skip, self.randomize, &mut self.generator);
        true
    }
}

/// How many accesses are skipped after one that is watched. The generator is asked only where this
/// is drawn. As by KCSAN's reset_kcsan_skip() a random part is taken off `skip`, which so stays the most.
fn next_gap(skip: u64, randomize: bool, generator: &mut Xoshiro256PlusPlus) -> u64
    ensures gap { result ≡ gap_by skip randomize (next_u64 (stream_from generator.old)).0 }
    ensures rest { stream_from generator.new
        ≡ (if is_drawn skip randomize
        then (next_u64 (stream_from generator.old)).1
        else stream_from generator.old) }
{
    if !randomize || skip == 0 {
        return skip;
    }
    skip - generator.next_u64() % skip
}
