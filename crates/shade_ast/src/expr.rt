//! Expressions and types.

use shade_base::Place;
use shade_lex::Suffix;
use sqlite_items::{Boxed, Items};

/// A name, by its number.
#[derive(Clone, Copy, Debug, PartialEq, Eq)]
pub struct Named {
    pub node: u32,
    pub place: Place,
    pub name: u32,
}

/// An operator between two expressions.
#[derive(Clone, Copy, Debug, PartialEq, Eq)]
pub enum Infix {
    Or,
    And,
    BitAnd,
    BitOr,
    BitXor,
    Less,
    Greater,
    LessEqual,
    GreaterEqual,
    Equal,
    NotEqual,
    ShiftLeft,
    ShiftRight,
    Add,
    Subtract,
    Multiply,
    Divide,
    Remainder,
}

/// An operator before an expression.
#[derive(Clone, Copy, Debug, PartialEq, Eq)]
pub enum Prefix {
    Negate,
    Not,
    Complement,
    Deref,
    AddressOf,
}

/// An expression or a type: its number in postorder, the place of its first token, and what it is.
#[cycle(expr)]
#[derive(Drop)]
pub struct Expr {
    pub node: u32,
    pub place: Place,
    pub kind: ExprKind,
}

/// What an expression is. A name, a keyword or an operator that is its first token has the place of the expression.
#[cycle(expr)]
#[derive(Drop)]
pub enum ExprKind {
    /// Two expressions and the operator between them.
    Infix {
        left: Boxed<Expr>,
        operator: Infix,
        at: Place,
        right: Boxed<Expr>,
    },
    /// An operator and the expression behind it.
    Prefix {
        operator: Prefix,
        operand: Boxed<Expr>,
    },
    /// A part by its name, with the place of the `.`.
    Member {
        whole: Boxed<Expr>,
        dot: Place,
        member: Named,
    },
    /// A part by its index, with the place of the `[`.
    Index {
        whole: Boxed<Expr>,
        bracket: Place,
        index: Boxed<Expr>,
    },
    /// A call; the one that is called is a name or a name with its template list.
    Call {
        callee: Boxed<Expr>,
        arguments: Items<Expr>,
        trailing: bool,
    },
    /// A name with its template list.
    Template {
        name: u32,
        arguments: Items<Expr>,
        trailing: bool,
    },
    /// A name, by its number.
    Name(u32),
    /// A number.
    Number {
        value: u64,
        suffix: Suffix,
    },
    /// `true`.
    True,
    /// `false`.
    False,
    /// An expression in parentheses.
    Paren(Boxed<Expr>),
}
