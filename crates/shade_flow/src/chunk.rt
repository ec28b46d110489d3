//! A chunk of definitions, with a row of bits for every point.

ghost use Rattle.std.specs.Prelude.{◌≤◌, length};

use crate::Defined;

/// At most 64 definitions, and for each point the bits of those that reach it.
#[derive(Drop)]
pub struct Chunk {
    pub definitions: Vec<Defined>,
    pub rows: Vec<u64>,
    pub ghost few: { length definitions.items ≤ 64 },
}
