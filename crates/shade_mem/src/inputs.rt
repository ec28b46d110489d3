//! What a run is handed.

use sqlite_items::Items;

/// A list of words of memory.
pub type Words = Items<u32>;

/// One list of words for each root of a module, which is empty for a root that is neither storage nor uniform.
pub type RootWords = Items<Words>;

/// What a run is handed: the number of its entry, how many workgroups there are in each direction, which of them runs,
/// and the words of the buffers.
#[derive(Drop)]
pub struct Inputs {
    pub entry: u32,
    pub groups: [u32; 3],
    pub group: [u32; 3],
    pub words: RootWords,
}
