//! Slow plain programs that decide the definitions of histories, the headline, and the verdict on a pair of sites.
#![tactic(auto)]

pub mod oracle_definitions;
pub mod oracle_headline;
pub mod oracle_headline_laws;
pub mod oracle_races;
