//! What lines of a trace told of: takings, races and changes of unknown origin.

ghost use Rattle.std.specs.Prelude.{◌≡◌, ◌++◌, ◌∷◌, ◌↔◌, [], ℕ, List, IsTrue, OnOk};
ghost use Rattle.access_types.specs.Takes as spec;
ghost use Rattle.access_types.specs.declared.arms.ArmOutcome.TheVariants.{Hit};
ghost use Rattle.report_text.specs.Truth.{Pair, hit_in, origin_of, pair_in, race_in, reported_pair, unknown_in};
ghost use Rattle.trace_replay.specs.Told.{AreOne, HaveRoom, WereTold};

use crate::counts::Counts;
use access_types::{Arm, ArmOutcome, HitResult, Report, Take};
use std::alloc::{AllocError, Global};

/// How often each taking, each race and each change of unknown origin was told of.
#[derive(Drop)]
pub struct Told {
    takes: Counts<(u32, usize, u32)>,
    races: Counts<(u32, u32)>,
    origins: Counts<u32>,
}

impl Told {
    /// Nothing was told. What is told takes its memory from this allocator.
    pub fn new(alloc: Global) -> Told
        ensures { WereTold [] [] [] result }
    {
        Told {
            takes: Counts::new(alloc),
            races: Counts::new(alloc),
            origins: Counts::new(alloc),
        }
    }

    /// A taking is told. The only error is want of memory.
    pub fn take(&mut self, take: &Take) -> Result<(), AllocError>
        requires { (takes : List spec.Take) × (races : List Pair) × (origins : List ℕ)
            × WereTold takes races origins self.old × HaveRoom takes [] [] }
        ensures { (takes : List spec.Take) (races : List Pair) (origins : List ℕ)
            → WereTold takes races origins self.old → OnOk result (WereTold (takes ++ take.now ∷ []) races origins self.new) }
    {
        self.takes.add((take.finder(), take.index(), take.setter()))
    }

    /// A race is told, by the tickets of its setter and its finder. The only error is want of memory.
    fn race(&mut self, setter: u32, finder: u32) -> Result<(), AllocError>
        requires { (takes : List spec.Take) × (races : List Pair) × (origins : List ℕ)
            × WereTold takes races origins self.old × HaveRoom [] races [] }
        ensures { (takes : List spec.Take) (races : List Pair) (origins : List ℕ)
            → WereTold takes races origins self.old → OnOk result (WereTold takes (races ++ (setter, finder) ∷ []) origins self.new) }
    {
        self.races.add((setter, finder))
    }

    /// A change of unknown origin is told, by the ticket of its access. The only error is want of memory.
    fn origin(&mut self, setter: u32) -> Result<(), AllocError>
        requires { (takes : List spec.Take) × (races : List Pair) × (origins : List ℕ)
            × WereTold takes races origins self.old × HaveRoom [] [] origins }
        ensures { (takes : List spec.Take) (races : List Pair) (origins : List ℕ)
            → WereTold takes races origins self.old → OnOk result (WereTold takes races (origins ++ setter ∷ []) self.new) }
    {
        self.origins.add(setter)
    }

    /// What became of an arming is told. The only error is want of memory.
    pub fn arm(&mut self, arm: &Arm) -> Result<(), AllocError>
        requires { (takes : List spec.Take) × (races : List Pair) × (origins : List ℕ)
            × WereTold takes races origins self.old × HaveRoom takes races origins }
        ensures { (takes : List spec.Take) (races : List Pair) (origins : List ℕ) → WereTold takes races origins self.old
            → OnOk result (WereTold (takes ++ hit_in arm.now.setter arm.now.index arm.now.outcome)
            (races ++ pair_in arm.now.setter arm.now.outcome) (origins ++ origin_of arm.now.setter arm.now.outcome) self.new) }
    {
        match arm.outcome() {
            ArmOutcome::Quiet => Ok(()),
            ArmOutcome::Origin => self.origin(arm.setter()),
            ArmOutcome::Hit { finder, result } => {
                self.take(&Take::new(finder, arm.index(), arm.setter()))?;
                self.hit(arm.setter(), finder, result)
            }
        }
    }

    /// What was made of a hit is told: a race, where it was reported. The only error is want of memory.
    fn hit(&mut self, setter: u32, finder: u32, result_of_hit: HitResult) -> Result<(), AllocError>
        requires { (takes : List spec.Take) × (races : List Pair) × (origins : List ℕ)
            × WereTold takes races origins self.old × HaveRoom [] races [] }
        ensures { (takes : List spec.Take) (races : List Pair) (origins : List ℕ) → WereTold takes races origins self.old
            → OnOk result (WereTold takes (races ++ reported_pair setter finder result_of_hit) origins self.new) }
    {
        match result_of_hit {
            HitResult::Report => self.race(setter, finder),
            HitResult::Encoding | HitResult::Same | HitResult::Masked => Ok(()),
        }
    }

    /// A report is told. The only error is want of memory.
    pub fn report(&mut self, report: &Report) -> Result<(), AllocError>
        requires { (takes : List spec.Take) × (races : List Pair) × (origins : List ℕ)
            × WereTold takes races origins self.old × HaveRoom takes races origins }
        ensures { (takes : List spec.Take) (races : List Pair) (origins : List ℕ) → WereTold takes races origins self.old
            → OnOk result (WereTold takes (races ++ race_in report.now) (origins ++ unknown_in report.now) self.new) }
    {
        match *report {
            Report::Two { setter, finder, .. } => self.race(setter, finder),
            Report::Unknown { setter, .. } => self.origin(setter),
        }
    }

    /// The two were told of the same, each as often.
    pub fn agrees_with(&self, others: &Told) -> bool
        ensures { (takes : List spec.Take) (races : List Pair) (origins : List ℕ)
            (other_takes : List spec.Take) (other_races : List Pair) (other_origins : List ℕ)
            → WereTold takes races origins self.now → WereTold other_takes other_races other_origins others.now
            → IsTrue result ↔ AreOne takes races origins other_takes other_races other_origins }
    {
        self.takes.agree_with(&others.takes)
            && self.races.agree_with(&others.races)
            && self.origins.agree_with(&others.origins)
    }
}
