//! Statements.

use crate::attr::Attr;
use crate::expr::{Expr, Named};
use shade_base::Place;
use sqlite_items::{Boxed, Items};

/// A declaration by `var`.
#[derive(Drop)]
pub struct Var {
    pub keyword: Place,
    pub space: Option<VarSpace>,
    pub name: Named,
    pub ty: Option<Expr>,
    pub value: Option<Expr>,
}

/// The template list of a `var`: its space, its access, and whether a comma stands behind the last.
#[derive(Clone, Copy, Debug, PartialEq, Eq)]
pub struct VarSpace {
    pub space: Named,
    pub access: Option<Named>,
    pub trailing: bool,
}

/// A declaration by `const` or `let`.
#[derive(Drop)]
pub struct Binding {
    pub keyword: Place,
    pub name: Named,
    pub ty: Option<Expr>,
    pub value: Expr,
}

/// An operator that assigns.
#[derive(Clone, Copy, Debug, PartialEq, Eq)]
pub enum OpAssign {
    Add,
    Subtract,
    Multiply,
    Divide,
    Remainder,
    BitAnd,
    BitOr,
    BitXor,
    ShiftLeft,
    ShiftRight,
}

/// What changes a variable, or calls a function; with the place of its operator.
#[derive(Drop)]
pub enum Update {
    /// `=` with a left side.
    Assign {
        target: Expr,
        at: Place,
        value: Expr,
    },
    /// An operator that assigns.
    Compound {
        target: Expr,
        operator: OpAssign,
        at: Place,
        value: Expr,
    },
    /// `=` with a `_`.
    Phony {
        underscore: Place,
        at: Place,
        value: Expr,
    },
    /// `++`.
    Increment {
        target: Expr,
        at: Place,
    },
    /// `--`.
    Decrement {
        target: Expr,
        at: Place,
    },
    /// A call.
    Call(Expr),
}

/// A statement that may begin a `for`.
#[derive(Drop)]
pub enum Simple {
    Var(Var),
    Const(Binding),
    Let(Binding),
    Update(Update),
}

/// A selector of a `case`.
#[derive(Drop)]
pub enum Selector {
    Default(Place),
    Value(Expr),
}

/// Statements in braces: its number in postorder, the places of its first token and of its `}`.
#[cycle(stmt)]
#[derive(Drop)]
pub struct Block {
    pub node: u32,
    pub place: Place,
    pub attrs: Items<Attr>,
    pub body: Items<Stmt>,
    pub end: Place,
}

/// A statement: its number in postorder, the place of its first token, and what it is.
#[cycle(stmt)]
#[derive(Drop)]
pub struct Stmt {
    pub node: u32,
    pub place: Place,
    pub kind: StmtKind,
}

/// What a statement is. A keyword that is its first token has the place of the statement.
#[cycle(stmt)]
#[derive(Drop)]
pub enum StmtKind {
    Empty,
    Block(Block),
    Simple(Boxed<Simple>),
    Return(Option<Expr>),
    Break,
    Continue,
    Discard,
    ConstAssert(Expr),
    If {
        attrs: Items<Attr>,
        keyword: Place,
        condition: Expr,
        then: Block,
        arms: Items<Arm>,
        otherwise: Option<Boxed<Otherwise>>,
    },
    Switch {
        attrs: Items<Attr>,
        keyword: Place,
        selector: Expr,
        inner: Items<Attr>,
        clauses: Items<Clause>,
        end: Place,
    },
    Loop {
        attrs: Items<Attr>,
        keyword: Place,
        inner: Items<Attr>,
        body: Items<Stmt>,
        continuing: Option<Boxed<Continuing>>,
        end: Place,
    },
    For {
        attrs: Items<Attr>,
        keyword: Place,
        initial: Option<Boxed<Simple>>,
        condition: Option<Expr>,
        update: Option<Boxed<Update>>,
        body: Block,
    },
    While {
        attrs: Items<Attr>,
        keyword: Place,
        condition: Expr,
        body: Block,
    },
}

/// `else if` with its condition and its block, and the places of both keywords.
#[cycle(stmt)]
#[derive(Drop)]
pub struct Arm {
    pub else_keyword: Place,
    pub if_keyword: Place,
    pub condition: Expr,
    pub body: Block,
}

/// `else` with its block.
#[cycle(stmt)]
#[derive(Drop)]
pub struct Otherwise {
    pub keyword: Place,
    pub body: Block,
}

/// A clause of a `switch`, with the place of its keyword, and whether a `:` stands before its block.
#[cycle(stmt)]
#[derive(Drop)]
pub enum Clause {
    Case {
        keyword: Place,
        selectors: Items<Selector>,
        trailing: bool,
        colon: bool,
        body: Block,
    },
    Default {
        keyword: Place,
        colon: bool,
        body: Block,
    },
}

/// The continuing part of a `loop`.
#[cycle(stmt)]
#[derive(Drop)]
pub struct Continuing {
    pub keyword: Place,
    pub attrs: Items<Attr>,
    pub body: Items<Stmt>,
    pub leave: Option<BreakIf>,
    pub end: Place,
}

/// `break if` with its condition, and the places of both keywords.
#[derive(Drop)]
pub struct BreakIf {
    pub break_keyword: Place,
    pub if_keyword: Place,
    pub condition: Expr,
}
