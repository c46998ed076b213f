//! Runs on threads and the tables that they share, tried on real threads. Nothing stands on this crate.
#![tactic(auto)]

#[cfg(test)]
mod checkers;
#[cfg(test)]
mod many;
#[cfg(test)]
mod points;
#[cfg(test)]
mod runs;
#[cfg(test)]
mod same;
#[cfg(test)]
mod words;
