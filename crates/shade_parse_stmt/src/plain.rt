//! Statements that hold no others, and the parts of others that hold none.

ghost use Rattle.std.specs.Prelude.{◌≡◌, ◌+◌, ◌<◌, IfOk, MatchResult};
ghost use Rattle.shade_ast.specs.Names.{Grows};
ghost use Rattle.shade_ast.specs.Repeats.{Listed};
ghost use Rattle.shade_ast.specs.Statements.{Selects};
ghost use Rattle.shade_parse_stmt.specs.Follows.{Above, Anything, Selected, ReadsOfBy, FaultsBy};
ghost use Rattle.shade_parse_stmt.specs.StatementParts.{stmt_seen, value_seen, maybe_simple_seen, maybe_update_seen, for_head_seen, ForHead, leave_seen, selector_seen, selectors_seen, ValueEnd, UntilValue, UntilSimple, UntilUpdate, Leaves, SimpleEnd, Plain};
ghost use Rattle.shade_parse_simple.specs.Readings.{expr_seen};
ghost use Rattle.shade_cursor.specs.Shown.{lexemes};
ghost use Rattle.shade_parse_expr.specs.Reading.{CanRead, Went};

use crate::builds::{push_selector, simple_place, statement_of};
use crate::hold::before;
use crate::marks::{ends_selectors, is_mark, jump_at, jump_kind};
use crate::parts::{ForHeader, Leave, Selectors};
use shade_ast::{Expr, Keyword, Names, Selector, Sign, Simple, Stmt, StmtKind, Update};
use shade_cursor::part::Fault;
use shade_cursor::piece::{Piece, key_at, mark_at};
use shade_parse_expr::parse::expression;
use shade_parse_simple::items::boxed;
use shade_parse_simple::read::{Read, refuse};
use shade_parse_simple::updates::{simple, update};
use sqlite_items::{Boxed, Items};
use std::alloc::Global;

/// An expression, if one stands there, and the `;` behind it.
pub fn value_until(
    alloc: Global,
    pieces: &[Piece],
    names: &mut Names,
    from: usize,
    node: u32,
) -> Result<Read<Option<Expr>>, Fault>
    requires can { CanRead pieces.now names.old from node }
    ensures tree { MatchResult result (λ r. ReadsOfBy value_seen UntilValue Anything (lexemes pieces.now) names.new from node r)
        (λ f. FaultsBy UntilValue Anything (lexemes pieces.now) names.old names.new from f) }
    ensures grows { Grows names.old names.new }
    ensures went { IfOk result (λ r. Went pieces.now names.old names.new from node r.end r.node) }
{
    if is_mark(pieces, from, Sign::Semicolon) {
        return Ok(Read {
            tree: None,
            end: from + 1,
            node,
        });
    }
    let value = expression(alloc, pieces, names, from, node)?;
    let Some(_) = mark_at(pieces, value.end, Sign::Semicolon) else {
        return refuse(Fault::Unexpected(value.end), value);
    };
    Ok(Read {
        tree: Some(value.expr),
        end: value.end + 1,
        node: value.node,
    })
}

/// An expression and the `;` behind it.
pub fn value_end(
    alloc: Global,
    pieces: &[Piece],
    names: &mut Names,
    from: usize,
    node: u32,
) -> Result<Read<Expr>, Fault>
    requires can { CanRead pieces.now names.old from node }
    ensures tree { MatchResult result (λ r. ReadsOfBy expr_seen ValueEnd Anything (lexemes pieces.now) names.new from node r)
        (λ f. FaultsBy ValueEnd Anything (lexemes pieces.now) names.old names.new from f) }
    ensures grows { Grows names.old names.new }
    ensures went { IfOk result (λ r. Went pieces.now names.old names.new from node r.end r.node) }
    ensures node { IfOk result (λ r. r.node + from < node + r.end) }
{
    let value = expression(alloc, pieces, names, from, node)?;
    let Some(_) = mark_at(pieces, value.end, Sign::Semicolon) else {
        return refuse(Fault::Unexpected(value.end), value);
    };
    Ok(Read {
        tree: value.expr,
        end: value.end + 1,
        node: value.node,
    })
}

/// A simple statement, if one stands there, and the `;` behind it.
pub fn simple_until(
    alloc: Global,
    pieces: &[Piece],
    names: &mut Names,
    from: usize,
    node: u32,
) -> Result<Read<Option<Boxed<Simple>>>, Fault>
    requires can { CanRead pieces.now names.old from node }
    ensures tree { MatchResult result (λ r. ReadsOfBy maybe_simple_seen UntilSimple Anything (lexemes pieces.now) names.new from node r)
        (λ f. FaultsBy UntilSimple Anything (lexemes pieces.now) names.old names.new from f) }
    ensures grows { Grows names.old names.new }
    ensures went { IfOk result (λ r. Went pieces.now names.old names.new from node r.end r.node) }
{
    if is_mark(pieces, from, Sign::Semicolon) {
        return Ok(Read {
            tree: None,
            end: from + 1,
            node,
        });
    }
    let part = simple(alloc, pieces, names, from, node)?;
    let whole = before(pieces, part, Sign::Semicolon)?;
    let simple = boxed(alloc, whole.tree)?;
    Ok(Read {
        tree: Some(simple),
        end: whole.end,
        node: whole.node,
    })
}

/// An update, if one stands there, and the `)` behind it.
pub fn update_until(
    alloc: Global,
    pieces: &[Piece],
    names: &mut Names,
    from: usize,
    node: u32,
) -> Result<Read<Option<Boxed<Update>>>, Fault>
    requires can { CanRead pieces.now names.old from node }
    ensures tree { MatchResult result (λ r. ReadsOfBy maybe_update_seen UntilUpdate Anything (lexemes pieces.now) names.new from node r)
        (λ f. FaultsBy UntilUpdate Anything (lexemes pieces.now) names.old names.new from f) }
    ensures grows { Grows names.old names.new }
    ensures went { IfOk result (λ r. Went pieces.now names.old names.new from node r.end r.node) }
{
    if is_mark(pieces, from, Sign::Close) {
        return Ok(Read {
            tree: None,
            end: from + 1,
            node,
        });
    }
    let part = update(alloc, pieces, names, from, node)?;
    let whole = before(pieces, part, Sign::Close)?;
    let update = boxed(alloc, whole.tree)?;
    Ok(Read {
        tree: Some(update),
        end: whole.end,
        node: whole.node,
    })
}

/// What follows `break if` in a continuing part.
pub fn leave(
    alloc: Global,
    pieces: &[Piece],
    names: &mut Names,
    from: usize,
    node: u32,
) -> Result<Read<Leave>, Fault>
    requires can { CanRead pieces.now names.old from node }
    ensures tree { MatchResult result (λ r. ReadsOfBy leave_seen Leaves Anything (lexemes pieces.now) names.new from node r)
        (λ f. FaultsBy Leaves Anything (lexemes pieces.now) names.old names.new from f) }
    ensures grows { Grows names.old names.new }
    ensures went { IfOk result (λ r. Went pieces.now names.old names.new from node r.end r.node) }
{
    let condition = value_end(alloc, pieces, names, from, node)?;
    let Some(end) = mark_at(pieces, condition.end, Sign::CloseBrace) else {
        return refuse(Fault::Unexpected(condition.end), condition);
    };
    Ok(Read {
        tree: Leave {
            condition: condition.tree,
            end,
        },
        end: condition.end + 1,
        node: condition.node,
    })
}

/// A simple statement and the `;` behind it.
fn simple_end(
    alloc: Global,
    pieces: &[Piece],
    names: &mut Names,
    from: usize,
    node: u32,
) -> Result<Read<Stmt>, Fault>
    requires can { CanRead pieces.now names.old from node }
    ensures tree { MatchResult result (λ r. ReadsOfBy stmt_seen SimpleEnd Anything (lexemes pieces.now) names.new from node r)
        (λ f. FaultsBy SimpleEnd Anything (lexemes pieces.now) names.old names.new from f) }
    ensures grows { Grows names.old names.new }
    ensures went { IfOk result (λ r. Went pieces.now names.old names.new from node r.end r.node) }
{
    let part = simple(alloc, pieces, names, from, node)?;
    let whole = before(pieces, part, Sign::Semicolon)?;
    let place = simple_place(&whole.tree);
    let simple = boxed(alloc, whole.tree)?;
    Ok(statement_of(StmtKind::Simple(simple), place, whole.end, whole.node))
}

/// A statement that no attributes may stand before.
pub fn plain(
    alloc: Global,
    pieces: &[Piece],
    names: &mut Names,
    from: usize,
    node: u32,
) -> Result<Read<Stmt>, Fault>
    requires can { CanRead pieces.now names.old from node }
    ensures tree { MatchResult result (λ r. ReadsOfBy stmt_seen Plain Anything (lexemes pieces.now) names.new from node r)
        (λ f. FaultsBy Plain Anything (lexemes pieces.now) names.old names.new from f) }
    ensures grows { Grows names.old names.new }
    ensures went { IfOk result (λ r. Went pieces.now names.old names.new from node r.end r.node) }
{
    if let Some(place) = mark_at(pieces, from, Sign::Semicolon) {
        return Ok(statement_of(StmtKind::Empty, place, from + 1, node));
    }
    if let Some((jump, place)) = jump_at(pieces, from) {
        if !is_mark(pieces, from + 1, Sign::Semicolon) {
            return Err(Fault::Unexpected(from + 1));
        }
        return Ok(statement_of(jump_kind(jump), place, from + 2, node));
    }
    if let Some(place) = key_at(pieces, from, Keyword::Return) {
        let value = value_until(alloc, pieces, names, from + 1, node)?;
        return Ok(statement_of(StmtKind::Return(value.tree), place, value.end, value.node));
    }
    if let Some(place) = key_at(pieces, from, Keyword::ConstAssert) {
        let condition = value_end(alloc, pieces, names, from + 1, node)?;
        return Ok(statement_of(
            StmtKind::ConstAssert(condition.tree),
            place,
            condition.end,
            condition.node,
        ));
    }
    simple_end(alloc, pieces, names, from, node)
}

/// An expression, if one stands there, and the `;` behind it, behind what is kept.
fn value_behind<K: Drop>(
    alloc: Global,
    pieces: &[Piece],
    names: &mut Names,
    from: usize,
    node: u32,
    kept: K,
) -> Result<(K, Read<Option<Expr>>), Fault>
    requires can { CanRead pieces.now names.old from node }
    ensures tree { MatchResult result (λ r. ReadsOfBy value_seen UntilValue Anything (lexemes pieces.now) names.new from node r.1)
        (λ f. FaultsBy UntilValue Anything (lexemes pieces.now) names.old names.new from f) }
    ensures kept { IfOk result (λ r. r.0 ≡ kept) }
    ensures grows { Grows names.old names.new }
    ensures went { IfOk result (λ r. Went pieces.now names.old names.new from node r.1.end r.1.node) }
{
    match value_until(alloc, pieces, names, from, node) {
        Ok(read) => Ok((kept, read)),
        Err(fault) => Err(fault),
    }
}

/// An update, if one stands there, and the `)` behind it, behind what is kept.
fn update_behind<K: Drop>(
    alloc: Global,
    pieces: &[Piece],
    names: &mut Names,
    from: usize,
    node: u32,
    kept: K,
) -> Result<(K, Read<Option<Boxed<Update>>>), Fault>
    requires can { CanRead pieces.now names.old from node }
    ensures tree { MatchResult result (λ r. ReadsOfBy maybe_update_seen UntilUpdate Anything (lexemes pieces.now) names.new from node r.1)
        (λ f. FaultsBy UntilUpdate Anything (lexemes pieces.now) names.old names.new from f) }
    ensures kept { IfOk result (λ r. r.0 ≡ kept) }
    ensures grows { Grows names.old names.new }
    ensures went { IfOk result (λ r. Went pieces.now names.old names.new from node r.1.end r.1.node) }
{
    match update_until(alloc, pieces, names, from, node) {
        Ok(read) => Ok((kept, read)),
        Err(fault) => Err(fault),
    }
}

/// What stands in the parentheses of a `for`.
pub fn for_header(
    alloc: Global,
    pieces: &[Piece],
    names: &mut Names,
    from: usize,
    node: u32,
) -> Result<Read<ForHeader>, Fault>
    requires can { CanRead pieces.now names.old from node }
    ensures tree { MatchResult result (λ r. ReadsOfBy for_head_seen ForHead Anything (lexemes pieces.now) names.new from node r)
        (λ f. FaultsBy ForHead Anything (lexemes pieces.now) names.old names.new from f) }
    ensures grows { Grows names.old names.new }
    ensures went { IfOk result (λ r. Went pieces.now names.old names.new from node r.end r.node) }
{
    if !is_mark(pieces, from, Sign::Open) {
        return Err(Fault::Unexpected(from));
    }
    let first = simple_until(alloc, pieces, names, from + 1, node)?;
    let (initial, second) = value_behind(alloc, pieces, names, first.end, first.node, first.tree)?;
    let (parts, last) = update_behind(
        alloc,
        pieces,
        names,
        second.end,
        second.node,
        (initial, second.tree),
    )?;
    let tree = ForHeader {
        initial: parts.0,
        condition: parts.1,
        update: last.tree,
    };
    Ok(Read {
        tree,
        end: last.end,
        node: last.node,
    })
}

/// A selector of a `case`.
fn selector(
    alloc: Global,
    pieces: &[Piece],
    names: &mut Names,
    from: usize,
    node: u32,
) -> Result<Read<Selector>, Fault>
    requires can { CanRead pieces.now names.old from node }
    ensures tree { MatchResult result (λ r. ReadsOfBy selector_seen Selects (Above 7) (lexemes pieces.now) names.new from node r)
        (λ f. FaultsBy Selects (Above 7) (lexemes pieces.now) names.old names.new from f) }
    ensures grows { Grows names.old names.new }
    ensures went { IfOk result (λ r. Went pieces.now names.old names.new from node r.end r.node) }
{
    if let Some(place) = key_at(pieces, from, Keyword::Default) {
        return Ok(Read {
            tree: Selector::Default(place),
            end: from + 1,
            node,
        });
    }
    let value = expression(alloc, pieces, names, from, node)?;
    Ok(Read {
        tree: Selector::Value(value.expr),
        end: value.end,
        node: value.node,
    })
}

/// The selectors of a `case`.
pub fn selectors(
    alloc: Global,
    pieces: &[Piece],
    names: &mut Names,
    from: usize,
    node: u32,
) -> Result<Read<Selectors>, Fault>
    requires can { CanRead pieces.now names.old from node }
    ensures tree { MatchResult result (λ r. ReadsOfBy selectors_seen (Listed Selects) Selected (lexemes pieces.now) names.new from node r)
        (λ f. FaultsBy (Listed Selects) Selected (lexemes pieces.now) names.old names.new from f) }
    ensures grows { Grows names.old names.new }
    ensures went { IfOk result (λ r. Went pieces.now names.old names.new from node r.end r.node) }
{
    let mut items = Items::new(alloc);
    let mut at = from;
    let mut next = node;
    'list: loop {
        let item = selector(alloc, pieces, names, at, next)?;
        push_selector(&mut items, item.tree)?;
        next = item.node;
        let Some(_) = mark_at(pieces, item.end, Sign::Comma) else {
            return Ok(Read {
                tree: Selectors {
                    items,
                    trailing: false,
                },
                end: item.end,
                node: next,
            });
        };
        at = item.end + 1;
        if ends_selectors(pieces, at) {
            return Ok(Read {
                tree: Selectors {
                    items,
                    trailing: true,
                },
                end: at,
                node: next,
            });
        }
    }
}
