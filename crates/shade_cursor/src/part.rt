//! Phrases that were read, and faults.

use shade_ast::Expr;
use sqlite_items::Items;

/// Why no phrase was read.
#[derive(Clone, Copy, Debug, PartialEq, Eq)]
pub enum Fault {
    /// No phrase goes on past this token.
    Unexpected(usize),
    NoMemory,
}

/// A phrase, the number of the token behind it and the next number of a node; and whether it is anything but two
/// expressions with an operator between them.
#[derive(Drop)]
pub struct Part {
    pub expr: Expr,
    pub end: usize,
    pub node: u32,
    pub bare: bool,
}

/// A list of expressions with the token that closes it, and whether a comma stands before that.
#[derive(Drop)]
pub struct Listing {
    pub items: Items<Expr>,
    pub trailing: bool,
    pub end: usize,
    pub node: u32,
}
