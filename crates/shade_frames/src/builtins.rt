//! What a lane is handed at its start.

/// What a lane knows of its place: its own position in its workgroup and the number of that position, the position of
/// the workgroup, how many workgroups there are, and the size of each.
#[derive(Clone, Copy, Debug, PartialEq, Eq)]
pub struct Builtins {
    pub local: [u32; 3],
    pub index: u32,
    pub group: [u32; 3],
    pub groups: [u32; 3],
    pub size: [u32; 3],
}
