//! Declarations in force.

use shade_base::Place;

/// A declaration in force: its name, its node and place, how many scopes are open around it, and whether it is an entry.
#[derive(Clone, Copy, Debug, PartialEq, Eq)]
pub struct Bound {
    pub name: u32,
    pub node: u32,
    pub place: Place,
    pub depth: usize,
    pub entry: bool,
}
