//! The syntax tree of a text, its table of names, and the grammar.
#![tactic(auto)]

mod attr;
mod expr;
mod lexeme;
mod name_key;
mod names;
mod stmt;
mod tree;

pub use attr::{Arguments, Attr, AttrName};
pub use expr::{Expr, ExprKind, Infix, Named, Prefix};
pub use lexeme::{Keyword, Sign};
pub use name_key::NameKey;
pub use names::Names;
pub use stmt::{
    Arm, Binding, Block, BreakIf, Clause, Continuing, OpAssign, Otherwise, Selector, Simple, Stmt,
    StmtKind, Update, Var, VarSpace,
};
pub use tree::{Decl, DeclKind, Directive, DirectiveKind, FnResult, Member, Rule, Tree};
