//! Schedules: where one order of lane steps ended without a race, every order leaves the same.
//!
//! The law is said of any lanes and any memory that keep six laws (`specs/System.antt`), and is cited from other crates as the lemma
//! `proofs/Law.antt`. Here it is stated for lanes that are told by what they ask after each list of answers, over memory as words by root.
#![tactic(auto)]

mod laws;

pub use laws::{ends_are_one, lane_by_lane_stands_for_all, records_tell_races, schedules_agree};
