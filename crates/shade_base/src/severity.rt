//! How grave a violation is.

/// How grave a violation is, the gravest first. `Off` drops it.
#[derive(Clone, Copy, Debug, PartialEq, Eq, PartialOrd, Ord)]
pub enum Severity {
    Error,
    Warning,
    Info,
    Off,
}
