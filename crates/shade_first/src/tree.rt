//! Trees of the first form.

use shade_base::Place;
use shade_values::Name;
use sqlite_items::Items;

/// One statement of the first form.
#[derive(Drop)]
pub enum FirstItem {
    /// A barrier, at the place of its name.
    Barrier(Place),
    /// An `if`, with the places of the keyword and of `<`, the number behind `<`, and the statements of its block.
    If {
        place: Place,
        operator: Place,
        limit: u32,
        items: Items<FirstItem>,
    },
}

/// A shader of the first form: how many lanes it has, its name with the place, the name of its parameter, its
/// statements, and the place of the last `}`.
#[derive(Drop)]
pub struct FirstShader {
    pub size: u32,
    pub name: Name,
    pub place: Place,
    pub parameter: Name,
    pub items: Items<FirstItem>,
    pub end: Place,
}
