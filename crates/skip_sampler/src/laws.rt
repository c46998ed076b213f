//! What is true of the positions at which a sampler answers yes.

ghost use Rattle.std.specs.Prelude.{◌≡◌, ◌+◌, ◌*◌, ◌<◌, ◌≤◌, ◌⊎◌, ℕ, [], ◌∷◌, Bool, false, true};
ghost use Rattle.std.specs.Prelude.{map};
ghost use Rattle.skip_sampler.specs.Sampler as spec;
ghost use Rattle.skip_sampler.specs.Sampler.{LeadsTo, gap, position};

/// Law: so many askings lead to some sampler, however many they are.
pub fn law_askings_lead_to_samplers()
    ensures { (skip : ℕ) (randomize : Bool) (seed askings : ℕ)
        → (sampler : spec.Sampler) × LeadsTo skip randomize seed askings sampler }
{}

/// Law: after a yes at most `skip` askings are answered no, and at least one is where there is
/// something to skip.
pub fn law_gaps_are_within_skip()
    ensures most { (skip : ℕ) (randomize : Bool) (seed k : ℕ) → gap skip randomize seed k ≤ skip }
    ensures least { (skip : ℕ) (randomize : Bool) (seed k : ℕ) → 0 < skip
        → 0 < gap skip randomize seed k }
{}

/// Law: where skips aren't randomized, or are at most 1, the positions are the multiples of
/// `skip + 1`.
pub fn law_positions_without_chance()
    ensures { (skip : ℕ) (randomize : Bool) (seed k : ℕ) → (randomize ≡ false) ⊎ (skip ≤ 1)
        → position skip randomize seed k ≡ (k + 1) * (skip + 1) }
{}

/// Law: the first twenty positions with skip 10, randomized, with seed 1. The numbers were computed
/// from the published C of SplitMix64 and xoshiro256++, apart from this code and its definitions.
pub fn law_positions_of_seed_one()
    ensures { map (position 10 true 1)
        (0 ∷ 1 ∷ 2 ∷ 3 ∷ 4 ∷ 5 ∷ 6 ∷ 7 ∷ 8 ∷ 9
        ∷ 10 ∷ 11 ∷ 12 ∷ 13 ∷ 14 ∷ 15 ∷ 16 ∷ 17 ∷ 18 ∷ 19 ∷ [])
        ≡ 11 ∷ 15 ∷ 21 ∷ 28 ∷ 39 ∷ 50 ∷ 56 ∷ 64 ∷ 70 ∷ 81
        ∷ 90 ∷ 100 ∷ 104 ∷ 109 ∷ 119 ∷ 130 ∷ 138 ∷ 149 ∷ 151 ∷ 160 ∷ [] }
{}
