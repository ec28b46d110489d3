//! Accesses to shared memory.

/// What an access does with the words that it touches.
#[derive(Clone, Copy, Debug, PartialEq, Eq)]
pub enum TouchKind {
    Read,
    Write,
    Atomic,
}

/// An access: the words of the module variable `root` from word `first` on, `count` of them.
#[derive(Clone, Copy, Debug, PartialEq, Eq)]
pub struct Touch {
    pub root: u32,
    pub first: u32,
    pub count: u32,
    pub kind: TouchKind,
}
