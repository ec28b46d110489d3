//! Parts of statements.

use shade_ast::{
    Arm, Attr, Block, BreakIf, Clause, Continuing, Expr, Otherwise, Selector, Simple, Stmt, Update,
};
use shade_base::Place;
use sqlite_items::{Boxed, Items};

/// A condition and the block behind it.
#[derive(Drop)]
pub struct Guarded {
    pub condition: Expr,
    pub body: Block,
}

/// Statements, and the place of the `}` behind them.
#[derive(Drop)]
pub struct Body {
    pub statements: Items<Stmt>,
    pub end: Place,
}

/// What follows the first block of an `if`.
#[derive(Drop)]
pub struct Branches {
    pub arms: Items<Arm>,
    pub otherwise: Option<Boxed<Otherwise>>,
}

/// What stands in the parentheses of a `for`.
#[derive(Drop)]
pub struct ForHeader {
    pub initial: Option<Boxed<Simple>>,
    pub condition: Option<Expr>,
    pub update: Option<Boxed<Update>>,
}

/// What follows the keyword of a `for`.
#[derive(Drop)]
pub struct ForParts {
    pub head: ForHeader,
    pub body: Block,
}

/// What follows the keyword of a `switch`.
#[derive(Drop)]
pub struct SwitchParts {
    pub selector: Expr,
    pub inner: Items<Attr>,
    pub clauses: Items<Clause>,
    pub end: Place,
}

/// Selectors of a `case`, and whether a comma stands behind the last.
#[derive(Drop)]
pub struct Selectors {
    pub items: Items<Selector>,
    pub trailing: bool,
}

/// A block that a `:` may stand before.
#[derive(Drop)]
pub struct ClauseBody {
    pub colon: bool,
    pub body: Block,
}

/// What follows the keyword of a `loop`.
#[derive(Drop)]
pub struct LoopParts {
    pub inner: Items<Attr>,
    pub body: Items<Stmt>,
    pub continuing: Option<Boxed<Continuing>>,
    pub end: Place,
}

/// What ends a `loop`: its continuing part, if it has one, and its `}`.
#[derive(Drop)]
pub struct LoopEnd {
    pub continuing: Option<Boxed<Continuing>>,
    pub end: Place,
}

/// What stands between the braces of a continuing part, and the place of its `}`.
#[derive(Drop)]
pub struct LastBody {
    pub statements: Items<Stmt>,
    pub leave: Option<BreakIf>,
    pub end: Place,
}

/// The condition of a `break if`, and the place of the `}` behind it.
#[derive(Drop)]
pub struct Leave {
    pub condition: Expr,
    pub end: Place,
}
