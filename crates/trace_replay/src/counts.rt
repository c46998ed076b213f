//! How often each of some keys was seen.

ghost use Rattle.std.specs.Prelude.{◌≡◌, ◌++◌, ◌∷◌, ◌↔◌, ◌<◌, ◌-◌, ◌^◌, [], List, All, IsTrue, OnOk};
ghost use Rattle.indexmap.specs.IndexMap.{IsUnique};
ghost use Rattle.trace_replay.specs.Counts.{AreCounts, CountAlike, count_at};

use indexmap::IndexMap;
use std::alloc::{AllocError, Global};
use std::hash::Hash;

/// How often each key was added. A key that never was counts 0.
#[derive(Drop)]
pub struct Counts<K: Hash + Eq> {
    by_key: IndexMap<K, u64>,
}

impl<K: Hash + Eq + Copy + Drop> Counts<K> {
    /// No key was added. The counts take their memory from this allocator.
    pub fn new(alloc: Global) -> Counts<K>
        ensures { AreCounts K.eq [] result }
    {
        Counts {
            by_key: IndexMap::new(alloc),
        }
    }

    /// How often the key was added.
    pub fn of(&self, key: K) -> u64
        ensures { result ≡ count_at K.eq self.now key }
    {
        self.by_key.get(&key).copied().unwrap_or(0)
    }

    /// Adds the key once more. The only error is want of memory.
    pub fn add(&mut self, key: K) -> Result<(), AllocError>
        requires { count_at K.eq self.old key < 2 ^ 64 - 1 }
        ensures { (keys : List K) → AreCounts K.eq keys self.old
            → OnOk result (AreCounts K.eq (keys ++ key ∷ []) self.new) }
    {
        let before = self.of(key);
        self.by_key.insert(key, before + 1)?;
        Ok(())
    }

    /// The two count each key alike.
    pub fn agree_with(&self, others: &Counts<K>) -> bool
        ensures { IsTrue result ↔ CountAlike K.eq self.now others.now }
    {
        let here = self.stand_in(others);
        let there = others.stand_in(self);
        here && there
    }

    /// The other has the same count of each key that was added here.
    fn stand_in(&self, others: &Counts<K>) -> bool
        ensures decided { IsTrue result ↔ All (λ entry. entry.1 ≡ count_at K.eq others.now entry.0) self.now.by_key.entries }
        ensures distinct { IsUnique K.eq self.now.by_key }
    {
        for (key, count) in self.by_key.iter() {
            if *count != others.of(*key) {
                return false;
            }
        }
        true
    }
}
