//! Attributes.

use crate::expr::{Expr, Named};
use shade_base::Place;
use sqlite_items::Items;

/// An attribute: its number in postorder, the place of its `@`, its name, and its arguments where it has parentheses.
#[derive(Drop)]
pub struct Attr {
    pub node: u32,
    pub place: Place,
    pub name: AttrName,
    pub arguments: Option<Arguments>,
}

/// The name of an attribute, which may be one of two keywords.
#[derive(Clone, Copy, Debug, PartialEq, Eq)]
pub enum AttrName {
    Name(Named),
    Diagnostic(Place),
    Const(Place),
}

/// Arguments in parentheses, and whether a comma stands behind the last.
#[derive(Drop)]
pub struct Arguments {
    pub items: Items<Expr>,
    pub trailing: bool,
}
