//! Slow plain programs that decide what a text means, and which records are in its program order.
#![tactic(auto)]

pub mod oracle_meaning;
pub mod oracle_order;
