//! What several tests of texts use.

use shade_base::Place;

/// A place in a text of one line.
pub fn place(offset: u32) -> Place {
    Place {
        offset,
        line: 1,
        column: offset.wrapping_add(1),
    }
}
