//! What changes a variable or calls a function, and what may begin a `for`.

ghost use Rattle.std.specs.Prelude.{◌≡◌, slice_get, IfOk, MatchResult};
ghost use Rattle.shade_ast.specs.declared.lexeme.Sign.TheVariants as sign_;
ghost use Rattle.shade_ast.specs.Lexemes.{Mark};
ghost use Rattle.shade_ast.specs.Names.{Grows};
ghost use Rattle.shade_ast.specs.Statements.{SimpleStatement, UpdateOf};
ghost use Rattle.shade_parse_simple.specs.Readings.{simple_seen, update_seen, ReadsOf};
ghost use Rattle.shade_parse_simple.specs.Updates.{assigned_by, NoOther};
ghost use Rattle.shade_parse_expr.specs.Parts.{Faults};
ghost use Rattle.shade_cursor.specs.Shown.{lexemes};
ghost use Rattle.shade_parse_expr.specs.Reading.{CanRead, Went};

use crate::bindings::{bound, var};
use crate::operators::{assigning, begins_call};
use crate::read::{Read, refuse};
use shade_ast::{Expr, Keyword, Names, OpAssign, Sign, Simple, Update};
use shade_base::Place;
use shade_cursor::part::Fault;
use shade_cursor::piece::{Piece, key_at, mark_at};
use shade_parse_expr::parse::{call_only, expression, left_side};
use std::alloc::Global;

/// Reads a statement that may begin a `for`. `Unexpected` has the first token with which none goes on, `NoMemory` comes where a part
/// of the tree or a name finds no memory.
pub fn simple(
    alloc: Global,
    pieces: &[Piece],
    names: &mut Names,
    from: usize,
    node: u32,
) -> Result<Read<Simple>, Fault>
    requires can { CanRead pieces.now names.old from node }
    ensures tree { MatchResult result (λ r. ReadsOf simple_seen SimpleStatement 8 (lexemes pieces.now) names.new from node r)
        (λ f. Faults SimpleStatement 8 (lexemes pieces.now) names.old names.new from f) }
    ensures grows { Grows names.old names.new }
    ensures went { IfOk result (λ r. Went pieces.now names.old names.new from node r.end r.node) }
{
    if key_at(pieces, from, Keyword::Var).is_some() {
        let variable = var(alloc, pieces, names, from, node)?;
        return Ok(Read {
            tree: Simple::Var(variable.tree),
            end: variable.end,
            node: variable.node,
        });
    }
    if let Some(keyword) = key_at(pieces, from, Keyword::Const) {
        let constant = bound(alloc, pieces, names, from + 1, node, keyword)?;
        return Ok(Read {
            tree: Simple::Const(constant.tree),
            end: constant.end,
            node: constant.node,
        });
    }
    if let Some(keyword) = key_at(pieces, from, Keyword::Let) {
        let value = bound(alloc, pieces, names, from + 1, node, keyword)?;
        return Ok(Read {
            tree: Simple::Let(value.tree),
            end: value.end,
            node: value.node,
        });
    }
    let changed = update(alloc, pieces, names, from, node)?;
    Ok(Read {
        tree: Simple::Update(changed.tree),
        end: changed.end,
        node: changed.node,
    })
}

/// Reads an assignment, an increment, a decrement or a call. `Unexpected` has the first token with which none goes on, `NoMemory`
/// comes where a part of the tree or a name finds no memory.
pub fn update(
    alloc: Global,
    pieces: &[Piece],
    names: &mut Names,
    from: usize,
    node: u32,
) -> Result<Read<Update>, Fault>
    requires can { CanRead pieces.now names.old from node }
    ensures tree { MatchResult result (λ r. ReadsOf update_seen UpdateOf 7 (lexemes pieces.now) names.new from node r)
        (λ f. Faults UpdateOf 7 (lexemes pieces.now) names.old names.new from f) }
    ensures grows { Grows names.old names.new }
    ensures went { IfOk result (λ r. Went pieces.now names.old names.new from node r.end r.node) }
{
    if let Some(underscore) = mark_at(pieces, from, Sign::Underscore) {
        return phony(alloc, pieces, names, from, node, underscore);
    }
    if !begins_call(pieces, from) {
        return changed(alloc, pieces, names, from, node);
    }
    let callee = call_only(alloc, pieces, names, from, node)?;
    Ok(Read {
        tree: Update::Call(callee.expr),
        end: callee.end,
        node: callee.node,
    })
}

/// A value that a `_` drops, from the `_` on.
fn phony(
    alloc: Global,
    pieces: &[Piece],
    names: &mut Names,
    from: usize,
    node: u32,
    underscore: Place,
) -> Result<Read<Update>, Fault>
    requires stands { slice_get (lexemes pieces.now) from ≡ Some (Mark sign_.Underscore underscore) }
    requires can { CanRead pieces.now names.old from node }
    ensures tree { MatchResult result (λ r. ReadsOf update_seen UpdateOf 7 (lexemes pieces.now) names.new from node r)
        (λ f. Faults UpdateOf 7 (lexemes pieces.now) names.old names.new from f) }
    ensures grows { Grows names.old names.new }
    ensures went { IfOk result (λ r. Went pieces.now names.old names.new from node r.end r.node) }
{
    let Some(at) = mark_at(pieces, from + 1, Sign::Equal) else {
        return Err(Fault::Unexpected(from + 1));
    };
    let value = expression(alloc, pieces, names, from + 2, node)?;
    Ok(Read {
        tree: Update::Phony {
            underscore,
            at,
            value: value.expr,
        },
        end: value.end,
        node: value.node,
    })
}

/// A left side and what changes it.
fn changed(
    alloc: Global,
    pieces: &[Piece],
    names: &mut Names,
    from: usize,
    node: u32,
) -> Result<Read<Update>, Fault>
    requires other { NoOther (lexemes pieces.now) from }
    requires can { CanRead pieces.now names.old from node }
    ensures tree { MatchResult result (λ r. ReadsOf update_seen UpdateOf 7 (lexemes pieces.now) names.new from node r)
        (λ f. Faults UpdateOf 7 (lexemes pieces.now) names.old names.new from f) }
    ensures grows { Grows names.old names.new }
    ensures went { IfOk result (λ r. Went pieces.now names.old names.new from node r.end r.node) }
{
    let target = left_side(alloc, pieces, names, from, node)?;
    if let Some(at) = mark_at(pieces, target.end, Sign::PlusPlus) {
        return Ok(Read {
            tree: Update::Increment {
                target: target.expr,
                at,
            },
            end: target.end + 1,
            node: target.node,
        });
    }
    if let Some(at) = mark_at(pieces, target.end, Sign::MinusMinus) {
        return Ok(Read {
            tree: Update::Decrement {
                target: target.expr,
                at,
            },
            end: target.end + 1,
            node: target.node,
        });
    }
    let found = match assigning(pieces, target.end) {
        Ok(found) => found,
        Err(fault) => return refuse(fault, target),
    };
    let (operator, at, behind) = found;
    let value = match expression(alloc, pieces, names, behind, target.node) {
        Ok(value) => value,
        Err(fault) => return refuse(fault, target),
    };
    Ok(Read {
        tree: assigned(target.expr, operator, at, value.expr),
        end: value.end,
        node: value.node,
    })
}

/// An assignment by `=`, or by an operator.
fn assigned(target: Expr, operator: Option<OpAssign>, at: Place, value: Expr) -> Update
    ensures { result ≡ assigned_by target operator at value }
{
    match operator {
        None => Update::Assign { target, at, value },
        Some(operator) => Update::Compound {
            target,
            operator,
            at,
            value,
        },
    }
}
