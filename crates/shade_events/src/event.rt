//! What happens to names and filters, in the order of a text.

use crate::filters::Filter;
use shade_ast::Named;
use shade_base::Place;

/// What happens to names and filters.
#[derive(Clone, Copy, Debug, PartialEq, Eq)]
pub enum Event {
    /// A scope begins.
    Opens,
    /// The scope that is open and began last ends.
    Closes,
    /// A declaration of a name, which is in force from here on; an entry is a function that a host starts.
    Declares { name: Named, entry: bool },
    /// A use of a name, and whether it stands where something is called.
    Uses { name: Named, called: bool },
    /// What follows belongs to the module's declaration with this node.
    Enters(u32),
    /// A range of filters begins.
    Covers,
    /// A filter of the range that began last.
    Filters(Filter),
    /// A filter has something else where a severity must stand, at this place.
    LacksSeverity(Place),
    /// The range that is open and began last ends.
    Uncovers,
    /// A node of the tree, by its number.
    Node(u32),
    /// A loop begins, whose body is the innermost scope where it has a continuing part.
    Loops,
    /// A `continue` of the innermost loop.
    Continues(Place),
    /// The continuing part of the innermost loop begins.
    Turns,
    /// The loop that is open and began last ends.
    LoopEnds,
}

/// What an expression stands for where its name is looked up.
#[derive(Clone, Copy, Debug, PartialEq, Eq)]
pub enum Role {
    /// A value or a type.
    Used,
    /// What is called.
    Called,
    /// Nothing: its names are not looked up.
    Ignored,
}
