//! Trees from their parts.

ghost use Rattle.std.specs.Prelude.{◌≡◌, ◌+◌, ◌<◌, ◌≤◌, ◌^◌, ◌++◌, ◌∷◌, [], length, slice_get, MatchResult, IfOk};
ghost use Rattle.std.specs.Result.{IsErrAnd};
ghost use Rattle.shade_ast.specs.Names.{Grows};
ghost use Rattle.shade_cursor.specs.Makes.{made, made_infix, named, Makes};

use crate::part::{Fault, Listing, Part};
use shade_ast::{Expr, ExprKind, Infix, Named, Names, Prefix};
use shade_base::Place;
use sqlite_items::{Boxed, Items};
use std::alloc::{AllocError, Global};

/// A refusal, which lets go of what was read before it. A tree that is dropped at an exit of its own reader is dropped there
/// kind by kind, which is what takes the longest to prove: so it is handed on to here.
pub fn refuse<H: Drop>(fault: Fault, held: H) -> Result<Part, Fault>
    ensures { IsErrAnd result (λ f. f ≡ fault) }
{
    Err(fault)
}

/// The number of a name, which stays right while names are added.
pub fn number(names: &mut Names, text: &str) -> Result<u32, Fault>
    requires { length names.old < 2 ^ 32 }
    ensures text { MatchResult result (λ n. slice_get names.new n ≡ Some text.now) (λ f. f ≡ Fault.NoMemory) }
    ensures grows { Grows names.old names.new }
    ensures few { length names.new ≤ length names.old + 1 }
{
    match names.number(text) {
        Ok(number) => Ok(number),
        Err(_) => Err(Fault::NoMemory),
    }
}

fn boxed(alloc: Global, expr: Expr) -> Result<Boxed<Expr>, Fault>
    ensures { MatchResult result (λ b. b ≡ expr) (λ f. f ≡ Fault.NoMemory) }
{
    Boxed::new(alloc, expr).map_err(|_| Fault::NoMemory)
}

/// A tree of a kind, with the next number.
fn part(kind: ExprKind, place: Place, end: usize, node: u32) -> Part
    requires node { node + 1 < 2 ^ 32 }
    ensures { result ≡ made kind place end node }
{
    let expr = Expr { node, place, kind };
    Part {
        expr,
        end,
        node: node + 1,
        bare: true,
    }
}

/// Two expressions and the operator between them.
pub fn infix(
    alloc: Global,
    left: Part,
    operator: Infix,
    at: Place,
    right: Part,
) -> Result<Part, Fault>
    requires { right.node + 1 < 2 ^ 32 }
    ensures { Makes (made_infix (ExprKind.Infix left.expr operator at right.expr) left.expr.place right.end right.node) result }
{
    let place = left.expr.place;
    let left = match boxed(alloc, left.expr) {
        Ok(left) => left,
        Err(fault) => return refuse(fault, right),
    };
    let kind = ExprKind::Infix {
        left,
        operator,
        at,
        right: boxed(alloc, right.expr)?,
    };
    Ok(Part {
        bare: false,
        ..part(kind, place, right.end, right.node)
    })
}

/// An operator before an expression.
pub fn prefix(alloc: Global, operator: Prefix, place: Place, operand: Part) -> Result<Part, Fault>
    requires { operand.node + 1 < 2 ^ 32 }
    ensures { Makes (made (ExprKind.Prefix operator operand.expr) place operand.end operand.node) result }
{
    let kind = ExprKind::Prefix {
        operator,
        operand: boxed(alloc, operand.expr)?,
    };
    Ok(part(kind, place, operand.end, operand.node))
}

/// An expression in parentheses, of which the second stands behind it.
pub fn paren(alloc: Global, place: Place, inner: Part) -> Result<Part, Fault>
    requires node { inner.node + 1 < 2 ^ 32 }
    requires end { inner.end + 1 < 2 ^ 64 }
    ensures { Makes (made (ExprKind.Paren inner.expr) place (inner.end + 1) inner.node) result }
{
    let kind = ExprKind::Paren(boxed(alloc, inner.expr)?);
    Ok(part(kind, place, inner.end + 1, inner.node))
}

/// A part by its name, of which the token stands behind the `.`.
pub fn member(
    alloc: Global,
    whole: Part,
    dot: Place,
    place: Place,
    name: u32,
) -> Result<Part, Fault>
    requires node { whole.node + 2 < 2 ^ 32 }
    requires end { whole.end + 2 < 2 ^ 64 }
    ensures { Makes (made (ExprKind.Member whole.expr dot (named whole.node place name)) whole.expr.place (whole.end + 2) (whole.node + 1)) result }
{
    let first = whole.expr.place;
    let member = Named {
        node: whole.node,
        place,
        name,
    };
    let kind = ExprKind::Member {
        whole: boxed(alloc, whole.expr)?,
        dot,
        member,
    };
    Ok(part(kind, first, whole.end + 2, whole.node + 1))
}

/// A part by its index, which stands in brackets.
pub fn index(alloc: Global, whole: Part, bracket: Place, at: Part) -> Result<Part, Fault>
    requires node { at.node + 1 < 2 ^ 32 }
    requires end { at.end + 1 < 2 ^ 64 }
    ensures { Makes (made (ExprKind.Index whole.expr bracket at.expr) whole.expr.place (at.end + 1) at.node) result }
{
    let first = whole.expr.place;
    let whole = match boxed(alloc, whole.expr) {
        Ok(whole) => whole,
        Err(fault) => return refuse(fault, at),
    };
    let kind = ExprKind::Index {
        whole,
        bracket,
        index: boxed(alloc, at.expr)?,
    };
    Ok(part(kind, first, at.end + 1, at.node))
}

/// A call.
pub fn call(alloc: Global, callee: Part, list: Listing) -> Result<Part, Fault>
    requires { list.node + 1 < 2 ^ 32 }
    ensures { Makes (made (ExprKind.Call callee.expr list.items list.trailing) callee.expr.place list.end list.node) result }
{
    let place = callee.expr.place;
    let kind = ExprKind::Call {
        callee: boxed(alloc, callee.expr)?,
        arguments: list.items,
        trailing: list.trailing,
    };
    Ok(part(kind, place, list.end, list.node))
}

/// A name with its template list.
pub fn template(place: Place, name: u32, list: Listing) -> Part
    requires { list.node + 1 < 2 ^ 32 }
    ensures { result ≡ made (ExprKind.Template name list.items list.trailing) place list.end list.node }
{
    let kind = ExprKind::Template {
        name,
        arguments: list.items,
        trailing: list.trailing,
    };
    part(kind, place, list.end, list.node)
}

/// An expression of one token.
pub fn leaf(kind: ExprKind, place: Place, from: usize, node: u32) -> Part
    requires node { node + 1 < 2 ^ 32 }
    requires end { from + 1 < 2 ^ 64 }
    ensures { result ≡ made kind place (from + 1) node }
{
    part(kind, place, from + 1, node)
}

/// One item more.
pub fn push(items: &mut Items<Expr>, item: Expr) -> Result<(), Fault>
    ensures { MatchResult result (λ u. items.new ≡ items.old ++ item ∷ []) (λ f. f ≡ Fault.NoMemory) }
{
    items.push(item).map_err(|_| Fault::NoMemory)
}
