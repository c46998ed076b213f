//! How many armings each setter has.

ghost use Rattle.std.specs.Prelude.{◌≡◌, ◌+◌, ◌<◌, ◌^◌, ◌++◌, ◌∷◌, [], List, IfOk, vec_capacity};
ghost use Rattle.access_types.specs.Arms.{Arm};
ghost use Rattle.access_types.specs.Ticket.{site_in};
ghost use Rattle.task_log.specs.Armings.{CountsBySite, armings_by};

use access_types::Arm;
use access_types::list_copy::copied;
use std::alloc::{AllocError, Global};

/// How many sites a ticket tells apart.
const SITES: usize = 256;

/// Of a site, the highest ticket of a setter, and how many armings are by it.
#[derive(Clone, Copy)]
pub(crate) struct Highest {
    pub setter: u32,
    pub number: u64,
}

/// For each site, how many armings its highest setter has. A ticket is made of task, site and repetition, and the
/// repetitions at a site only go up. So the next setter there is the highest or one with no arming yet, and its number
/// is told at once, however many armings there are. Only those of a lower one would be counted one by one. All room is
/// taken when it is made, so that no step takes memory.
#[derive(Drop)]
pub(crate) struct Armings {
    pub sites: Vec<Highest>,
}

/// The place of a setter: its site.
fn place_of(setter: u32) -> usize
    ensures { result ≡ site_in setter }
{
    (setter.saturating_sub(1) / 256 % 256) as usize
}

/// How many of these armings are by the access with this ticket, counted one by one.
fn counted(arms: &[Arm], setter: u32) -> u64
    ensures { result ≡ armings_by setter arms.now }
{
    arms.iter().filter(|arm| arm.setter() == setter).count() as u64
}

impl Armings {
    /// No arming yet.
    pub(crate) fn new(alloc: Global) -> Result<Armings, AllocError>
        ensures { IfOk result (λ armings. CountsBySite [] armings.sites.items) }
    {
        let none = Highest {
            setter: 0,
            number: 0,
        };
        let mut sites = Vec::with_capacity(alloc, SITES)?;
        sites.resize(SITES, none)?;
        Ok(Armings { sites })
    }

    /// The same again, with as much room.
    pub(crate) fn copy(&self, alloc: Global) -> Result<Armings, AllocError>
        ensures sites { IfOk result (λ copy. copy.sites.items ≡ self.now.sites.items) }
        ensures room { IfOk result (λ copy. vec_capacity copy.sites ≡ vec_capacity self.now.sites) }
    {
        Ok(Armings {
            sites: copied(alloc, &self.sites)?,
        })
    }

    /// How many of these armings are by the access with this ticket.
    #[inline(always)]
    pub(crate) fn by(&self, arms: &[Arm], setter: u32) -> u64
        ensures { CountsBySite arms.now self.now.sites.items → result ≡ armings_by setter arms.now }
    {
        let place = place_of(setter);
        if place < self.sites.len() {
            let highest = self.sites[place];
            if highest.setter < setter {
                return 0;
            }
            if highest.setter == setter {
                return highest.number;
            }
        }
        counted(arms, setter)
    }

    /// One more arming is noted, by the access with this ticket, after so many by it.
    #[inline(always)]
    pub(crate) fn note(&mut self, setter: u32, number: u64)
        ensures counts { (arms : List Arm) (arm : Arm) → arm.setter ≡ setter → number ≡ armings_by setter arms
            → number + 1 < 2 ^ 64 → CountsBySite arms self.old.sites.items → CountsBySite (arms ++ arm ∷ []) self.new.sites.items }
        ensures room { vec_capacity self.new.sites ≡ vec_capacity self.old.sites }
    {
        let place = place_of(setter);
        if place < self.sites.len() && self.sites[place].setter <= setter {
            self.sites[place] = Highest {
                setter,
                number: number.saturating_add(1),
            };
        }
    }
}
