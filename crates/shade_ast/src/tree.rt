//! Declarations and whole texts.

use crate::attr::Attr;
use crate::expr::{Expr, Named};
use crate::names::Names;
use crate::stmt::{Binding, Block, Var};
use shade_base::Place;
use sqlite_items::Items;

/// A member of a struct or a parameter: its number in postorder and the place of its first token.
#[derive(Drop)]
pub struct Member {
    pub node: u32,
    pub place: Place,
    pub attrs: Items<Attr>,
    pub name: Named,
    pub ty: Expr,
}

/// The type of a function's result.
#[derive(Drop)]
pub struct FnResult {
    pub attrs: Items<Attr>,
    pub ty: Expr,
}

/// A declaration: its number in postorder, the place of its first token, and what it is.
#[derive(Drop)]
pub struct Decl {
    pub node: u32,
    pub place: Place,
    pub kind: DeclKind,
}

/// What a declaration is. A keyword that is its first token has the place of the declaration.
#[derive(Drop)]
pub enum DeclKind {
    Empty,
    Alias {
        name: Named,
        ty: Expr,
    },
    Const(Binding),
    ConstAssert(Expr),
    Struct {
        name: Named,
        members: Items<Member>,
        trailing: bool,
        end: Place,
    },
    Var {
        attrs: Items<Attr>,
        var: Var,
    },
    Override {
        attrs: Items<Attr>,
        keyword: Place,
        name: Named,
        ty: Option<Expr>,
        value: Option<Expr>,
    },
    Fn {
        attrs: Items<Attr>,
        keyword: Place,
        name: Named,
        params: Items<Member>,
        trailing: bool,
        result: Option<FnResult>,
        body: Block,
    },
}

/// The rule of a diagnostic filter: a name, or two with the place of the `.` between them.
#[derive(Clone, Copy, Debug, PartialEq, Eq)]
pub enum Rule {
    Plain(Named),
    Scoped {
        scope: Named,
        dot: Place,
        name: Named,
    },
}

/// A directive: its number in postorder, the place of its keyword, and what it is.
#[derive(Drop)]
pub struct Directive {
    pub node: u32,
    pub place: Place,
    pub kind: DirectiveKind,
}

/// What a directive is.
#[derive(Drop)]
pub enum DirectiveKind {
    Diagnostic {
        severity: Named,
        rule: Rule,
        trailing: bool,
    },
    Requires {
        names: Items<Named>,
        trailing: bool,
    },
    Enable {
        names: Items<Named>,
        trailing: bool,
    },
}

/// A whole text: its directives, its declarations, and the names that they name by number.
#[derive(Drop)]
pub struct Tree {
    pub directives: Items<Directive>,
    pub decls: Items<Decl>,
    pub names: Names,
}
