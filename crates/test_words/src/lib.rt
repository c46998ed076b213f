//! Accesses, watch words, values, boards, a kernel's configurations and coloured texts, tried on rows that were worked
//! out by hand. Nothing stands on this crate.
#![tactic(auto)]

#[cfg(test)]
mod accesses;
#[cfg(test)]
mod arms;
#[cfg(test)]
mod boards;
#[cfg(test)]
mod configs;
#[cfg(test)]
mod indices;
#[cfg(test)]
mod kinds;
#[cfg(test)]
mod lists;
#[cfg(test)]
mod pairs;
#[cfg(test)]
mod same;
#[cfg(test)]
mod sites;
#[cfg(test)]
mod slots;
#[cfg(test)]
mod stamped;
#[cfg(test)]
mod styles;
#[cfg(test)]
mod takes;
#[cfg(test)]
mod tickets;
#[cfg(test)]
mod verdicts;
#[cfg(test)]
mod watches;
