//! Values as rows of words, and the operations on them.
#![tactic(auto)]

mod apply;
mod copies;
mod leaves;
mod members;
mod moves;
mod parts;
mod places;
mod span;
mod sums;
mod values;
mod vectors;

pub use apply::apply_words;
pub use copies::{clear_words, copy_value, copy_words};
pub use moves::{put_value, read_value};
pub use places::{is_covered, part_count, part_offset, word_count};
pub use span::WordSpan;
pub use values::write_value;
