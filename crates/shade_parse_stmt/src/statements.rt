//! Statements.

ghost use Rattle.std.specs.Prelude.{◌+◌, ◌<◌, IfOk, MatchResult};
ghost use Rattle.shade_ast.specs.Names.{Grows};
ghost use Rattle.shade_ast.specs.Repeats.{Many};
ghost use Rattle.shade_ast.specs.Statements.{Block as BlockPhrase, Statement};
ghost use Rattle.shade_parse_stmt.specs.Follows.{Above, Anything, Closing, Free, ReadsOfBy, FaultsBy};
ghost use Rattle.shade_parse_stmt.specs.StatementParts.{block_seen, stmt_seen, body_seen, stmts_seen, guarded_seen, branches_seen, for_seen, switch_seen, clauses_seen, clause_seen, clause_body_seen, loop_seen, loop_end_seen, continuing_seen, last_seen, Braced, Compound, Guards, AllArms, ForRest, SwitchRest, OneClause, ColonBlock, LoopRest, LoopEnds, ContinuingRest, LastStatements};
ghost use Rattle.shade_parse_simple.specs.Readings.{ReadsOf};
ghost use Rattle.shade_parse_expr.specs.Parts.{Faults};
ghost use Rattle.shade_cursor.specs.Shown.{lexemes};
ghost use Rattle.shade_parse_expr.specs.Reading.{CanRead, Went, WentOrStayed};

use crate::builds::{
    arm_of, block_of, block_statement, boxed_continuing, boxed_otherwise, case_of, continuing_of,
    default_of, for_statement, if_statement, loop_statement, otherwise_of, push_arm, push_clause,
    push_statement, switch_statement, while_statement,
};
use crate::hold::both;
use crate::marks::{begins_clause, begins_compound, break_if_at, closes, is_mark};
use crate::parts::{
    Body, Branches, ClauseBody, ForParts, Guarded, LastBody, LoopEnd, LoopParts, SwitchParts,
};
use crate::plain::{for_header, leave, plain, selectors};
use shade_ast::{Block, BreakIf, Clause, Continuing, Keyword, Names, Sign, Stmt};
use shade_base::Place;
use shade_cursor::part::Fault;
use shade_cursor::piece::{Piece, key_at, mark_at};
use shade_parse_expr::parse::expression;
use shade_parse_simple::attributes::attributes;
use shade_parse_simple::read::{Read, refuse};
use sqlite_items::{Boxed, Items};
use std::alloc::Global;

/// Reads the block that begins at a token, with the attributes before its `{`. `Unexpected` has the first token with which none goes on,
/// `NoMemory` comes where a part of the tree or a name finds no memory.
#[cycle(statement)]
pub fn block(
    alloc: Global,
    pieces: &[Piece],
    names: &mut Names,
    from: usize,
    node: u32,
) -> Result<Read<Block>, Fault>
    requires can { CanRead pieces.now names.old from node }
    ensures tree { MatchResult result (λ r. ReadsOf block_seen BlockPhrase 0 (lexemes pieces.now) names.new from node r)
        (λ f. Faults BlockPhrase 0 (lexemes pieces.now) names.old names.new from f) }
    ensures grows { Grows names.old names.new }
    ensures went { IfOk result (λ r. Went pieces.now names.old names.new from node r.end r.node) }
{
    let attrs = attributes(alloc, pieces, names, from, node)?;
    let Some(place) = mark_at(pieces, attrs.end, Sign::OpenBrace) else {
        return Err(Fault::Unexpected(attrs.end));
    };
    let body = braced(alloc, pieces, names, attrs.end + 1, attrs.node)?;
    Ok(block_of(attrs.tree, place, body))
}

/// Statements and the `}` behind them.
#[cycle(statement)]
fn braced(
    alloc: Global,
    pieces: &[Piece],
    names: &mut Names,
    from: usize,
    node: u32,
) -> Result<Read<Body>, Fault>
    requires can { CanRead pieces.now names.old from node }
    ensures tree { MatchResult result (λ r. ReadsOfBy body_seen Braced Anything (lexemes pieces.now) names.new from node r)
        (λ f. FaultsBy Braced Anything (lexemes pieces.now) names.old names.new from f) }
    ensures grows { Grows names.old names.new }
    ensures went { IfOk result (λ r. Went pieces.now names.old names.new from node r.end r.node) }
    ensures node { IfOk result (λ r. r.node + from < node + r.end) }
{
    let list = statements(alloc, pieces, names, from, node)?;
    let Some(end) = mark_at(pieces, list.end, Sign::CloseBrace) else {
        return Err(Fault::Unexpected(list.end));
    };
    Ok(Read {
        tree: Body {
            statements: list.tree,
            end,
        },
        end: list.end + 1,
        node: list.node,
    })
}

/// Statements up to a `}` or a `continuing`.
#[cycle(statement)]
fn statements(
    alloc: Global,
    pieces: &[Piece],
    names: &mut Names,
    from: usize,
    node: u32,
) -> Result<Read<Items<Stmt>>, Fault>
    requires can { CanRead pieces.now names.old from node }
    ensures tree { MatchResult result (λ r. ReadsOfBy stmts_seen (Many Statement) Closing (lexemes pieces.now) names.new from node r)
        (λ f. FaultsBy (Many Statement) Closing (lexemes pieces.now) names.old names.new from f) }
    ensures grows { Grows names.old names.new }
    ensures went { IfOk result (λ r. WentOrStayed pieces.now names.old names.new from node r.end r.node) }
{
    let mut list = Items::new(alloc);
    let mut at = from;
    let mut next = node;
    'list: while !closes(pieces, at) {
        let item = statement(alloc, pieces, names, at, next)?;
        push_statement(alloc, &mut list, item.tree)?;
        at = item.end;
        next = item.node;
    }
    Ok(Read {
        tree: list,
        end: at,
        node: next,
    })
}

/// A statement.
#[cycle(statement)]
fn statement(
    alloc: Global,
    pieces: &[Piece],
    names: &mut Names,
    from: usize,
    node: u32,
) -> Result<Read<Stmt>, Fault>
    requires can { CanRead pieces.now names.old from node }
    ensures tree { MatchResult result (λ r. ReadsOfBy stmt_seen Statement Free (lexemes pieces.now) names.new from node r)
        (λ f. FaultsBy Statement Free (lexemes pieces.now) names.old names.new from f) }
    ensures grows { Grows names.old names.new }
    ensures went { IfOk result (λ r. Went pieces.now names.old names.new from node r.end r.node) }
{
    if begins_compound(pieces, from) {
        return compound(alloc, pieces, names, from, node);
    }
    plain(alloc, pieces, names, from, node)
}

/// A statement that attributes may stand before.
#[cycle(statement)]
fn compound(
    alloc: Global,
    pieces: &[Piece],
    names: &mut Names,
    from: usize,
    node: u32,
) -> Result<Read<Stmt>, Fault>
    requires can { CanRead pieces.now names.old from node }
    ensures tree { MatchResult result (λ r. ReadsOfBy stmt_seen Compound Free (lexemes pieces.now) names.new from node r)
        (λ f. FaultsBy Compound Free (lexemes pieces.now) names.old names.new from f) }
    ensures grows { Grows names.old names.new }
    ensures went { IfOk result (λ r. Went pieces.now names.old names.new from node r.end r.node) }
{
    let attrs = attributes(alloc, pieces, names, from, node)?;
    let at = attrs.end;
    if let Some(place) = mark_at(pieces, at, Sign::OpenBrace) {
        let body = braced(alloc, pieces, names, at + 1, attrs.node)?;
        return Ok(block_statement(attrs.tree, place, body));
    }
    if let Some(keyword) = key_at(pieces, at, Keyword::If) {
        let first = guarded(alloc, pieces, names, at + 1, attrs.node)?;
        let others = match branches(alloc, pieces, names, first.end, first.node) {
            Ok(others) => others,
            Err(fault) => return refuse(fault, first),
        };
        return Ok(if_statement(attrs.tree, keyword, first.tree, others));
    }
    if let Some(keyword) = key_at(pieces, at, Keyword::Switch) {
        let rest = switch_parts(alloc, pieces, names, at + 1, attrs.node)?;
        return Ok(switch_statement(attrs.tree, keyword, rest));
    }
    if let Some(keyword) = key_at(pieces, at, Keyword::Loop) {
        let rest = loop_parts(alloc, pieces, names, at + 1, attrs.node)?;
        return Ok(loop_statement(attrs.tree, keyword, rest));
    }
    if let Some(keyword) = key_at(pieces, at, Keyword::For) {
        let rest = for_parts(alloc, pieces, names, at + 1, attrs.node)?;
        return Ok(for_statement(attrs.tree, keyword, rest));
    }
    if let Some(keyword) = key_at(pieces, at, Keyword::While) {
        let rest = guarded(alloc, pieces, names, at + 1, attrs.node)?;
        return Ok(while_statement(attrs.tree, keyword, rest));
    }
    Err(Fault::Unexpected(at))
}

/// A condition and the block behind it.
#[cycle(statement)]
fn guarded(
    alloc: Global,
    pieces: &[Piece],
    names: &mut Names,
    from: usize,
    node: u32,
) -> Result<Read<Guarded>, Fault>
    requires can { CanRead pieces.now names.old from node }
    ensures tree { MatchResult result (λ r. ReadsOfBy guarded_seen Guards (Above 0) (lexemes pieces.now) names.new from node r)
        (λ f. FaultsBy Guards (Above 0) (lexemes pieces.now) names.old names.new from f) }
    ensures grows { Grows names.old names.new }
    ensures went { IfOk result (λ r. Went pieces.now names.old names.new from node r.end r.node) }
{
    let condition = expression(alloc, pieces, names, from, node)?;
    let body = match block(alloc, pieces, names, condition.end, condition.node) {
        Ok(body) => body,
        Err(fault) => return refuse(fault, condition),
    };
    Ok(Read {
        tree: Guarded {
            condition: condition.expr,
            body: body.tree,
        },
        end: body.end,
        node: body.node,
    })
}

/// What follows the first block of an `if`.
#[cycle(statement)]
fn branches(
    alloc: Global,
    pieces: &[Piece],
    names: &mut Names,
    from: usize,
    node: u32,
) -> Result<Read<Branches>, Fault>
    requires can { CanRead pieces.now names.old from node }
    ensures tree { MatchResult result (λ r. ReadsOfBy branches_seen AllArms Free (lexemes pieces.now) names.new from node r)
        (λ f. FaultsBy AllArms Free (lexemes pieces.now) names.old names.new from f) }
    ensures grows { Grows names.old names.new }
    ensures went { IfOk result (λ r. WentOrStayed pieces.now names.old names.new from node r.end r.node) }
{
    let mut arms = Items::new(alloc);
    let mut at = from;
    let mut next = node;
    'arms: while let Some(else_keyword) = key_at(pieces, at, Keyword::Else) {
        let Some(if_keyword) = key_at(pieces, at + 1, Keyword::If) else {
            let body = block(alloc, pieces, names, at + 1, next)?;
            let otherwise = boxed_otherwise(alloc, otherwise_of(else_keyword, body.tree))?;
            return Ok(Read {
                tree: Branches {
                    arms,
                    otherwise: Some(otherwise),
                },
                end: body.end,
                node: body.node,
            });
        };
        let guarded = guarded(alloc, pieces, names, at + 2, next)?;
        push_arm(&mut arms, arm_of(else_keyword, if_keyword, guarded.tree))?;
        at = guarded.end;
        next = guarded.node;
    }
    Ok(Read {
        tree: Branches {
            arms,
            otherwise: None,
        },
        end: at,
        node: next,
    })
}

/// What follows the keyword of a `for`.
#[cycle(statement)]
fn for_parts(
    alloc: Global,
    pieces: &[Piece],
    names: &mut Names,
    from: usize,
    node: u32,
) -> Result<Read<ForParts>, Fault>
    requires can { CanRead pieces.now names.old from node }
    ensures tree { MatchResult result (λ r. ReadsOfBy for_seen ForRest (Above 0) (lexemes pieces.now) names.new from node r)
        (λ f. FaultsBy ForRest (Above 0) (lexemes pieces.now) names.old names.new from f) }
    ensures grows { Grows names.old names.new }
    ensures went { IfOk result (λ r. Went pieces.now names.old names.new from node r.end r.node) }
{
    let head = for_header(alloc, pieces, names, from, node)?;
    let body = block(alloc, pieces, names, head.end, head.node);
    let (head, body) = both(head, body)?;
    Ok(Read {
        tree: ForParts {
            head: head.tree,
            body: body.tree,
        },
        end: body.end,
        node: body.node,
    })
}

/// What follows the keyword of a `switch`.
#[cycle(statement)]
fn switch_parts(
    alloc: Global,
    pieces: &[Piece],
    names: &mut Names,
    from: usize,
    node: u32,
) -> Result<Read<SwitchParts>, Fault>
    requires can { CanRead pieces.now names.old from node }
    ensures tree { MatchResult result (λ r. ReadsOfBy switch_seen SwitchRest Anything (lexemes pieces.now) names.new from node r)
        (λ f. FaultsBy SwitchRest Anything (lexemes pieces.now) names.old names.new from f) }
    ensures grows { Grows names.old names.new }
    ensures went { IfOk result (λ r. Went pieces.now names.old names.new from node r.end r.node) }
{
    let selector = expression(alloc, pieces, names, from, node)?;
    let inner = match attributes(alloc, pieces, names, selector.end, selector.node) {
        Ok(inner) => inner,
        Err(fault) => return refuse(fault, selector),
    };
    let Some(_) = mark_at(pieces, inner.end, Sign::OpenBrace) else {
        return refuse(Fault::Unexpected(inner.end), (selector, inner));
    };
    let list = match clauses(alloc, pieces, names, inner.end + 1, inner.node) {
        Ok(list) => list,
        Err(fault) => return refuse(fault, (selector, inner)),
    };
    let Some(end) = mark_at(pieces, list.end, Sign::CloseBrace) else {
        return refuse(Fault::Unexpected(list.end), (selector, inner, list));
    };
    let tree = SwitchParts {
        selector: selector.expr,
        inner: inner.tree,
        clauses: list.tree,
        end,
    };
    Ok(Read {
        tree,
        end: list.end + 1,
        node: list.node,
    })
}

/// The clauses of a `switch`.
#[cycle(statement)]
fn clauses(
    alloc: Global,
    pieces: &[Piece],
    names: &mut Names,
    from: usize,
    node: u32,
) -> Result<Read<Items<Clause>>, Fault>
    requires can { CanRead pieces.now names.old from node }
    ensures tree { MatchResult result (λ r. ReadsOfBy clauses_seen (Many OneClause) (Above 9) (lexemes pieces.now) names.new from node r)
        (λ f. FaultsBy (Many OneClause) (Above 9) (lexemes pieces.now) names.old names.new from f) }
    ensures grows { Grows names.old names.new }
    ensures went { IfOk result (λ r. WentOrStayed pieces.now names.old names.new from node r.end r.node) }
{
    let mut list = Items::new(alloc);
    let mut at = from;
    let mut next = node;
    'list: while begins_clause(pieces, at) {
        let item = clause(alloc, pieces, names, at, next)?;
        push_clause(&mut list, item.tree)?;
        at = item.end;
        next = item.node;
    }
    Ok(Read {
        tree: list,
        end: at,
        node: next,
    })
}

/// A clause of a `switch`.
#[cycle(statement)]
fn clause(
    alloc: Global,
    pieces: &[Piece],
    names: &mut Names,
    from: usize,
    node: u32,
) -> Result<Read<Clause>, Fault>
    requires can { CanRead pieces.now names.old from node }
    ensures tree { MatchResult result (λ r. ReadsOfBy clause_seen OneClause (Above 0) (lexemes pieces.now) names.new from node r)
        (λ f. FaultsBy OneClause (Above 0) (lexemes pieces.now) names.old names.new from f) }
    ensures grows { Grows names.old names.new }
    ensures went { IfOk result (λ r. Went pieces.now names.old names.new from node r.end r.node) }
{
    if let Some(keyword) = key_at(pieces, from, Keyword::Case) {
        let list = selectors(alloc, pieces, names, from + 1, node)?;
        let rest = clause_body(alloc, pieces, names, list.end, list.node)?;
        return Ok(Read {
            tree: case_of(keyword, list.tree, rest.tree),
            end: rest.end,
            node: rest.node,
        });
    }
    let Some(keyword) = key_at(pieces, from, Keyword::Default) else {
        return Err(Fault::Unexpected(from));
    };
    let rest = clause_body(alloc, pieces, names, from + 1, node)?;
    Ok(Read {
        tree: default_of(keyword, rest.tree),
        end: rest.end,
        node: rest.node,
    })
}

/// A block that a `:` may stand before.
#[cycle(statement)]
fn clause_body(
    alloc: Global,
    pieces: &[Piece],
    names: &mut Names,
    from: usize,
    node: u32,
) -> Result<Read<ClauseBody>, Fault>
    requires can { CanRead pieces.now names.old from node }
    ensures tree { MatchResult result (λ r. ReadsOfBy clause_body_seen ColonBlock (Above 0) (lexemes pieces.now) names.new from node r)
        (λ f. FaultsBy ColonBlock (Above 0) (lexemes pieces.now) names.old names.new from f) }
    ensures grows { Grows names.old names.new }
    ensures went { IfOk result (λ r. Went pieces.now names.old names.new from node r.end r.node) }
{
    if is_mark(pieces, from, Sign::Colon) {
        let body = block(alloc, pieces, names, from + 1, node)?;
        return Ok(Read {
            tree: ClauseBody {
                colon: true,
                body: body.tree,
            },
            end: body.end,
            node: body.node,
        });
    }
    let body = block(alloc, pieces, names, from, node)?;
    Ok(Read {
        tree: ClauseBody {
            colon: false,
            body: body.tree,
        },
        end: body.end,
        node: body.node,
    })
}

/// What follows the keyword of a `loop`.
#[cycle(statement)]
fn loop_parts(
    alloc: Global,
    pieces: &[Piece],
    names: &mut Names,
    from: usize,
    node: u32,
) -> Result<Read<LoopParts>, Fault>
    requires can { CanRead pieces.now names.old from node }
    ensures tree { MatchResult result (λ r. ReadsOfBy loop_seen LoopRest Anything (lexemes pieces.now) names.new from node r)
        (λ f. FaultsBy LoopRest Anything (lexemes pieces.now) names.old names.new from f) }
    ensures grows { Grows names.old names.new }
    ensures went { IfOk result (λ r. Went pieces.now names.old names.new from node r.end r.node) }
{
    let inner = attributes(alloc, pieces, names, from, node)?;
    let Some(_) = mark_at(pieces, inner.end, Sign::OpenBrace) else {
        return Err(Fault::Unexpected(inner.end));
    };
    let body = statements(alloc, pieces, names, inner.end + 1, inner.node)?;
    let last = loop_end(alloc, pieces, names, body.end, body.node)?;
    let tree = LoopParts {
        inner: inner.tree,
        body: body.tree,
        continuing: last.tree.continuing,
        end: last.tree.end,
    };
    Ok(Read {
        tree,
        end: last.end,
        node: last.node,
    })
}

/// The continuing part of a `loop`, if it has one, and its `}`.
#[cycle(statement)]
fn loop_end(
    alloc: Global,
    pieces: &[Piece],
    names: &mut Names,
    from: usize,
    node: u32,
) -> Result<Read<LoopEnd>, Fault>
    requires can { CanRead pieces.now names.old from node }
    ensures tree { MatchResult result (λ r. ReadsOfBy loop_end_seen LoopEnds Anything (lexemes pieces.now) names.new from node r)
        (λ f. FaultsBy LoopEnds Anything (lexemes pieces.now) names.old names.new from f) }
    ensures grows { Grows names.old names.new }
    ensures went { IfOk result (λ r. Went pieces.now names.old names.new from node r.end r.node) }
{
    if let Some(end) = mark_at(pieces, from, Sign::CloseBrace) {
        return Ok(Read {
            tree: LoopEnd {
                continuing: None,
                end,
            },
            end: from + 1,
            node,
        });
    }
    let Some(keyword) = key_at(pieces, from, Keyword::Continuing) else {
        return Err(Fault::Unexpected(from));
    };
    let part = continuing(alloc, pieces, names, from + 1, node, keyword)?;
    let Some(end) = mark_at(pieces, part.end, Sign::CloseBrace) else {
        return refuse(Fault::Unexpected(part.end), part);
    };
    Ok(Read {
        tree: LoopEnd {
            continuing: Some(part.tree),
            end,
        },
        end: part.end + 1,
        node: part.node,
    })
}

/// What follows the keyword of a continuing part.
#[cycle(statement)]
fn continuing(
    alloc: Global,
    pieces: &[Piece],
    names: &mut Names,
    from: usize,
    node: u32,
    keyword: Place,
) -> Result<Read<Boxed<Continuing>>, Fault>
    requires can { CanRead pieces.now names.old from node }
    ensures tree { MatchResult result (λ r. ReadsOfBy continuing_seen (ContinuingRest keyword) Anything (lexemes pieces.now) names.new from node r)
        (λ f. FaultsBy (ContinuingRest keyword) Anything (lexemes pieces.now) names.old names.new from f) }
    ensures grows { Grows names.old names.new }
    ensures went { IfOk result (λ r. Went pieces.now names.old names.new from node r.end r.node) }
{
    let attrs = attributes(alloc, pieces, names, from, node)?;
    let Some(_) = mark_at(pieces, attrs.end, Sign::OpenBrace) else {
        return Err(Fault::Unexpected(attrs.end));
    };
    let body = last_body(alloc, pieces, names, attrs.end + 1, attrs.node)?;
    let part = boxed_continuing(alloc, continuing_of(keyword, attrs.tree, body.tree))?;
    Ok(Read {
        tree: part,
        end: body.end,
        node: body.node,
    })
}

/// The statements of a continuing part, its `break if`, if it has one, and its `}`.
#[cycle(statement)]
fn last_body(
    alloc: Global,
    pieces: &[Piece],
    names: &mut Names,
    from: usize,
    node: u32,
) -> Result<Read<LastBody>, Fault>
    requires can { CanRead pieces.now names.old from node }
    ensures tree { MatchResult result (λ r. ReadsOfBy last_seen LastStatements Anything (lexemes pieces.now) names.new from node r)
        (λ f. FaultsBy LastStatements Anything (lexemes pieces.now) names.old names.new from f) }
    ensures grows { Grows names.old names.new }
    ensures went { IfOk result (λ r. Went pieces.now names.old names.new from node r.end r.node) }
{
    let mut statements = Items::new(alloc);
    let mut at = from;
    let mut next = node;
    'list: loop {
        if let Some(end) = mark_at(pieces, at, Sign::CloseBrace) {
            return Ok(Read {
                tree: LastBody {
                    statements,
                    leave: None,
                    end,
                },
                end: at + 1,
                node: next,
            });
        }
        if let Some((break_keyword, if_keyword)) = break_if_at(pieces, at) {
            let last = leave(alloc, pieces, names, at + 2, next)?;
            let leave = BreakIf {
                break_keyword,
                if_keyword,
                condition: last.tree.condition,
            };
            return Ok(Read {
                tree: LastBody {
                    statements,
                    leave: Some(leave),
                    end: last.tree.end,
                },
                end: last.end,
                node: last.node,
            });
        }
        let item = statement(alloc, pieces, names, at, next)?;
        push_statement(alloc, &mut statements, item.tree)?;
        at = item.end;
        next = item.node;
    }
}
