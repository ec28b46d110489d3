//! Declarations by `var`, `const` and `let`.

ghost use Rattle.std.specs.Prelude.{◌+◌, ◌<◌, IfOk, MatchResult};
ghost use Rattle.shade_ast.specs.declared.lexeme.Sign.TheVariants as sign_;
ghost use Rattle.shade_ast.specs.Lexemes.{Mark};
ghost use Rattle.shade_ast.specs.Names.{Grows};
ghost use Rattle.shade_ast.specs.Statements.{HasValue, OfType, Var as VarPhrase, VarSpace as VarSpacePhrase};
ghost use Rattle.shade_parse_simple.specs.Maybes.{MaybeFaults, MaybeOf};
ghost use Rattle.shade_parse_simple.specs.Readings.{access_seen, binding_seen, expr_seen, var_seen, var_space_seen, ReadsOf};
ghost use Rattle.shade_parse_simple.specs.Rests.{Bound, SpaceEnd};
ghost use Rattle.shade_parse_expr.specs.Parts.{Faults};
ghost use Rattle.shade_cursor.specs.Shown.{lexemes};
ghost use Rattle.shade_parse_expr.specs.Reading.{CanRead, Went, WentOrStayed};

use crate::read::{Read, refuse};
use crate::tokens::{closed, name};
use shade_ast::{Binding, Expr, Keyword, Named, Names, Sign, Var, VarSpace};
use shade_base::Place;
use shade_cursor::part::Fault;
use shade_cursor::piece::{Piece, key_at, mark_at};
use shade_parse_expr::parse::{expression, type_name};
use std::alloc::Global;

/// Reads a type behind a `:`, where a `:` stands. `Unexpected` has the first token with which none goes on,
/// `NoMemory` comes where a part of the tree or a name finds no memory.
pub fn maybe_type(
    alloc: Global,
    pieces: &[Piece],
    names: &mut Names,
    from: usize,
    node: u32,
) -> Result<Read<Option<Expr>>, Fault>
    requires can { CanRead pieces.now names.old from node }
    ensures tree { MatchResult result (λ r. MaybeOf expr_seen (Mark sign_.Colon) OfType 0 (lexemes pieces.now) names.new from node r)
        (λ f. MaybeFaults (Mark sign_.Colon) OfType 0 (lexemes pieces.now) names.old names.new from f) }
    ensures grows { Grows names.old names.new }
    ensures went { IfOk result (λ r. WentOrStayed pieces.now names.old names.new from node r.end r.node) }
{
    let Some(_) = mark_at(pieces, from, Sign::Colon) else {
        return Ok(Read {
            tree: None,
            end: from,
            node,
        });
    };
    let ty = of_type(alloc, pieces, names, from, node)?;
    Ok(Read {
        tree: Some(ty.tree),
        end: ty.end,
        node: ty.node,
    })
}

/// Reads a type behind a `:`. `Unexpected` has the first token with which none goes on,
/// `NoMemory` comes where a part of the tree or a name finds no memory.
pub fn of_type(
    alloc: Global,
    pieces: &[Piece],
    names: &mut Names,
    from: usize,
    node: u32,
) -> Result<Read<Expr>, Fault>
    requires can { CanRead pieces.now names.old from node }
    ensures tree { MatchResult result (λ r. ReadsOf expr_seen OfType 0 (lexemes pieces.now) names.new from node r)
        (λ f. Faults OfType 0 (lexemes pieces.now) names.old names.new from f) }
    ensures grows { Grows names.old names.new }
    ensures went { IfOk result (λ r. Went pieces.now names.old names.new from node r.end r.node) }
    ensures node { IfOk result (λ r. r.node + from < node + r.end) }
{
    let Some(_) = mark_at(pieces, from, Sign::Colon) else {
        return Err(Fault::Unexpected(from));
    };
    let ty = type_name(alloc, pieces, names, from + 1, node)?;
    Ok(Read {
        tree: ty.expr,
        end: ty.end,
        node: ty.node,
    })
}

/// Reads a value behind a `=`, where a `=` stands. `Unexpected` has the first token with which none goes on,
/// `NoMemory` comes where a part of the tree or a name finds no memory.
pub fn maybe_value(
    alloc: Global,
    pieces: &[Piece],
    names: &mut Names,
    from: usize,
    node: u32,
) -> Result<Read<Option<Expr>>, Fault>
    requires can { CanRead pieces.now names.old from node }
    ensures tree { MatchResult result (λ r. MaybeOf expr_seen (Mark sign_.Equal) HasValue 7 (lexemes pieces.now) names.new from node r)
        (λ f. MaybeFaults (Mark sign_.Equal) HasValue 7 (lexemes pieces.now) names.old names.new from f) }
    ensures grows { Grows names.old names.new }
    ensures went { IfOk result (λ r. WentOrStayed pieces.now names.old names.new from node r.end r.node) }
{
    let Some(_) = mark_at(pieces, from, Sign::Equal) else {
        return Ok(Read {
            tree: None,
            end: from,
            node,
        });
    };
    let value = has_value(alloc, pieces, names, from, node)?;
    Ok(Read {
        tree: Some(value.tree),
        end: value.end,
        node: value.node,
    })
}

/// Reads a value behind a `=`. `Unexpected` has the first token with which none goes on,
/// `NoMemory` comes where a part of the tree or a name finds no memory.
pub fn has_value(
    alloc: Global,
    pieces: &[Piece],
    names: &mut Names,
    from: usize,
    node: u32,
) -> Result<Read<Expr>, Fault>
    requires can { CanRead pieces.now names.old from node }
    ensures tree { MatchResult result (λ r. ReadsOf expr_seen HasValue 7 (lexemes pieces.now) names.new from node r)
        (λ f. Faults HasValue 7 (lexemes pieces.now) names.old names.new from f) }
    ensures grows { Grows names.old names.new }
    ensures went { IfOk result (λ r. Went pieces.now names.old names.new from node r.end r.node) }
    ensures node { IfOk result (λ r. r.node + from < node + r.end) }
{
    let Some(_) = mark_at(pieces, from, Sign::Equal) else {
        return Err(Fault::Unexpected(from));
    };
    let value = expression(alloc, pieces, names, from + 1, node)?;
    Ok(Read {
        tree: value.expr,
        end: value.end,
        node: value.node,
    })
}

/// Reads what stands behind the keyword of a `const` or a `let`: a name, a type where one stands, and a value. `Unexpected` has the first token with which none goes on,
/// `NoMemory` comes where a part of the tree or a name finds no memory.
pub fn bound(
    alloc: Global,
    pieces: &[Piece],
    names: &mut Names,
    from: usize,
    node: u32,
    keyword: Place,
) -> Result<Read<Binding>, Fault>
    requires can { CanRead pieces.now names.old from node }
    ensures tree { MatchResult result (λ r. ReadsOf binding_seen (Bound keyword) 7 (lexemes pieces.now) names.new from node r)
        (λ f. Faults (Bound keyword) 7 (lexemes pieces.now) names.old names.new from f) }
    ensures grows { Grows names.old names.new }
    ensures went { IfOk result (λ r. Went pieces.now names.old names.new from node r.end r.node) }
{
    let name = name(pieces, names, from, node)?;
    let ty = maybe_type(alloc, pieces, names, name.end, name.node)?;
    let value = match has_value(alloc, pieces, names, ty.end, ty.node) {
        Ok(value) => value,
        Err(fault) => return refuse(fault, ty),
    };
    Ok(Read {
        tree: Binding {
            keyword,
            name: name.tree,
            ty: ty.tree,
            value: value.tree,
        },
        end: value.end,
        node: value.node,
    })
}

/// A second name in the template list of a `var`, where one stands, and the `>`.
fn access(
    pieces: &[Piece],
    names: &mut Names,
    from: usize,
    node: u32,
) -> Result<Read<(Option<Named>, bool)>, Fault>
    requires can { CanRead pieces.now names.old from node }
    ensures tree { MatchResult result (λ r. ReadsOf access_seen SpaceEnd 0 (lexemes pieces.now) names.new from node r)
        (λ f. Faults SpaceEnd 0 (lexemes pieces.now) names.old names.new from f) }
    ensures grows { Grows names.old names.new }
    ensures went { IfOk result (λ r. Went pieces.now names.old names.new from node r.end r.node) }
{
    if let Some(_) = mark_at(pieces, from, Sign::CloseTemplate) {
        return Ok(Read {
            tree: (None, false),
            end: from + 1,
            node,
        });
    }
    let Some(_) = mark_at(pieces, from, Sign::Comma) else {
        return Err(Fault::Unexpected(from));
    };
    if let Some(_) = mark_at(pieces, from + 1, Sign::CloseTemplate) {
        return Ok(Read {
            tree: (None, true),
            end: from + 2,
            node,
        });
    }
    let name = name(pieces, names, from + 1, node)?;
    let (trailing, end) = closed(pieces, name.end, Sign::CloseTemplate)?;
    Ok(Read {
        tree: (Some(name.tree), trailing),
        end,
        node: name.node,
    })
}

/// The template list of a `var`, where one stands.
fn maybe_space(
    pieces: &[Piece],
    names: &mut Names,
    from: usize,
    node: u32,
) -> Result<Read<Option<VarSpace>>, Fault>
    requires can { CanRead pieces.now names.old from node }
    ensures tree { MatchResult result (λ r. MaybeOf var_space_seen (Mark sign_.OpenTemplate) VarSpacePhrase 0 (lexemes pieces.now) names.new from node r)
        (λ f. MaybeFaults (Mark sign_.OpenTemplate) VarSpacePhrase 0 (lexemes pieces.now) names.old names.new from f) }
    ensures grows { Grows names.old names.new }
    ensures went { IfOk result (λ r. WentOrStayed pieces.now names.old names.new from node r.end r.node) }
{
    let Some(_) = mark_at(pieces, from, Sign::OpenTemplate) else {
        return Ok(Read {
            tree: None,
            end: from,
            node,
        });
    };
    let space = name(pieces, names, from + 1, node)?;
    let access = access(pieces, names, space.end, space.node)?;
    let (other, trailing) = access.tree;
    Ok(Read {
        tree: Some(VarSpace {
            space: space.tree,
            access: other,
            trailing,
        }),
        end: access.end,
        node: access.node,
    })
}

/// Reads a declaration by `var`, up to what stands behind its name, type and value. `Unexpected` has the first token with which none goes on,
/// `NoMemory` comes where a part of the tree or a name finds no memory.
pub fn var(
    alloc: Global,
    pieces: &[Piece],
    names: &mut Names,
    from: usize,
    node: u32,
) -> Result<Read<Var>, Fault>
    requires can { CanRead pieces.now names.old from node }
    ensures tree { MatchResult result (λ r. ReadsOf var_seen VarPhrase 8 (lexemes pieces.now) names.new from node r)
        (λ f. Faults VarPhrase 8 (lexemes pieces.now) names.old names.new from f) }
    ensures grows { Grows names.old names.new }
    ensures went { IfOk result (λ r. Went pieces.now names.old names.new from node r.end r.node) }
{
    let Some(keyword) = key_at(pieces, from, Keyword::Var) else {
        return Err(Fault::Unexpected(from));
    };
    let space = maybe_space(pieces, names, from + 1, node)?;
    let name = name(pieces, names, space.end, space.node)?;
    let ty = maybe_type(alloc, pieces, names, name.end, name.node)?;
    let value = match maybe_value(alloc, pieces, names, ty.end, ty.node) {
        Ok(value) => value,
        Err(fault) => return refuse(fault, ty),
    };
    Ok(Read {
        tree: Var {
            keyword,
            space: space.tree,
            name: name.tree,
            ty: ty.tree,
            value: value.tree,
        },
        end: value.end,
        node: value.node,
    })
}
