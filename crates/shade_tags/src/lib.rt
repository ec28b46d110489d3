//! The verdict on a module whose functions call one another: the tags of each function, violations with the reasons of their
//! paths, and the tags that these paths use.
//!
//! What tags are stands in `specs/Tags.antt`, violations in `Violations.antt`, used tags in `Used.antt`, clean modules in
//! `Clean.antt`, the order of functions and the limits in `Order.antt`.
#![tactic(auto)]

mod law;
mod used;

pub use law::{
    all_functions_are_analysed, callees_are_analysed_first, closed_tables_are_the_table,
    tables_are_one, tags_are_joined_by_paths, tags_are_joined_over_the_tags_of_callees,
    used_tags_are_one_list, used_tags_are_tags,
};
pub use used::UsedTag;
