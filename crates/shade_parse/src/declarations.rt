//! Declarations.

ghost use Rattle.std.specs.Prelude.{◌≡◌, ◌+◌, ◌<◌, ◌^◌, IfOk, MatchResult};
ghost use Rattle.shade_ast.specs.Names.{Grows};
ghost use Rattle.shade_ast.specs.Declarations.{Declaration};
ghost use Rattle.shade_ast.specs.Chains.{Headed};
ghost use Rattle.shade_parse.specs.Parts.{decl_kind_seen, decl_seen, fn_seen, override_seen};
ghost use Rattle.shade_parse_simple.specs.Readings.{first_of, ReadsOf};
ghost use Rattle.shade_parse.specs.Rests.{AliasRest, AssertRest, ConstRest, FnRest, OverrideRest, PlainAt, StructRest};
ghost use Rattle.shade_parse_expr.specs.Parts.{Faults};
ghost use Rattle.shade_cursor.specs.Shown.{lexemes};
ghost use Rattle.shade_parse_expr.specs.Reading.{CanRead, Went};

use crate::members::{maybe_result, members, parameters};
use shade_ast::{
    Attr, Block, Decl, DeclKind, Expr, FnResult, Keyword, Member, Named, Names, Sign, Var,
};
use shade_base::Place;
use shade_cursor::part::Fault;
use shade_cursor::piece::{Piece, key_at, mark_at};
use shade_parse_expr::parse::{expression, type_name};
use shade_parse_simple::attributes::{attributes, first_place};
use shade_parse_simple::bindings::{bound, maybe_type, maybe_value, var};
use shade_parse_simple::read::{Read, refuse};
use shade_parse_simple::tokens::name;
use shade_parse_stmt::statements::block;
use sqlite_items::Items;
use std::alloc::Global;

/// What stands behind the keyword of an `override`.
#[derive(Drop)]
pub struct OverrideBody {
    pub name: Named,
    pub ty: Option<Expr>,
    pub value: Option<Expr>,
}

/// What stands behind the keyword of a `fn`.
#[derive(Drop)]
pub struct FnBody {
    pub name: Named,
    pub params: Items<Member>,
    pub trailing: bool,
    pub result: Option<FnResult>,
    pub body: Block,
}

/// A declaration.
pub fn declaration(
    alloc: Global,
    pieces: &[Piece],
    names: &mut Names,
    from: usize,
    node: u32,
) -> Result<Read<Decl>, Fault>
    requires can { CanRead pieces.now names.old from node }
    ensures tree { MatchResult result (λ r. ReadsOf decl_seen Declaration 0 (lexemes pieces.now) names.new from node r)
        (λ f. Faults Declaration 0 (lexemes pieces.now) names.old names.new from f) }
    ensures grows { Grows names.old names.new }
    ensures went { IfOk result (λ r. Went pieces.now names.old names.new from node r.end r.node) }
{
    let attrs = attributes(alloc, pieces, names, from, node)?;
    if let Some(keyword) = key_at(pieces, attrs.end, Keyword::Fn) {
        let body = function(alloc, pieces, names, attrs.end + 1, attrs.node)?;
        return Ok(fn_decl(attrs.tree, keyword, body));
    }
    if let Some(keyword) = key_at(pieces, attrs.end, Keyword::Override) {
        let body = overridable(alloc, pieces, names, attrs.end + 1, attrs.node)?;
        return Ok(override_decl(attrs.tree, keyword, body));
    }
    if let Some(_) = key_at(pieces, attrs.end, Keyword::Var) {
        let variable = var(alloc, pieces, names, attrs.end, attrs.node)?;
        let Some(_) = mark_at(pieces, variable.end, Sign::Semicolon) else {
            return refuse(Fault::Unexpected(variable.end), variable);
        };
        return Ok(var_decl(attrs.tree, variable));
    }
    if !attrs.tree.is_empty() {
        return Err(Fault::Unexpected(attrs.end));
    }
    plain(alloc, pieces, names, attrs.end, attrs.node)
}

/// What stands behind the keyword of a `fn`.
fn function(
    alloc: Global,
    pieces: &[Piece],
    names: &mut Names,
    from: usize,
    node: u32,
) -> Result<Read<FnBody>, Fault>
    requires can { CanRead pieces.now names.old from node }
    ensures tree { MatchResult result (λ r. ReadsOf fn_seen FnRest 0 (lexemes pieces.now) names.new from node r)
        (λ f. Faults FnRest 0 (lexemes pieces.now) names.old names.new from f) }
    ensures grows { Grows names.old names.new }
    ensures went { IfOk result (λ r. Went pieces.now names.old names.new from node r.end r.node) }
{
    let name = name(pieces, names, from, node)?;
    let Some(_) = mark_at(pieces, name.end, Sign::Open) else {
        return Err(Fault::Unexpected(name.end));
    };
    let list = parameters(alloc, pieces, names, name.end + 1, name.node)?;
    let result = maybe_result(alloc, pieces, names, list.end, list.node)?;
    let body = match block(alloc, pieces, names, result.end, result.node) {
        Ok(body) => body,
        Err(fault) => return refuse(fault, (list, result)),
    };
    let params = list.tree;
    Ok(Read {
        tree: FnBody {
            name: name.tree,
            params: params.items,
            trailing: params.trailing,
            result: result.tree,
            body: body.tree,
        },
        end: body.end,
        node: body.node,
    })
}

/// What stands behind the keyword of an `override`.
fn overridable(
    alloc: Global,
    pieces: &[Piece],
    names: &mut Names,
    from: usize,
    node: u32,
) -> Result<Read<OverrideBody>, Fault>
    requires can { CanRead pieces.now names.old from node }
    ensures tree { MatchResult result (λ r. ReadsOf override_seen OverrideRest 0 (lexemes pieces.now) names.new from node r)
        (λ f. Faults OverrideRest 0 (lexemes pieces.now) names.old names.new from f) }
    ensures grows { Grows names.old names.new }
    ensures went { IfOk result (λ r. Went pieces.now names.old names.new from node r.end r.node) }
{
    let name = name(pieces, names, from, node)?;
    let ty = maybe_type(alloc, pieces, names, name.end, name.node)?;
    let value = match maybe_value(alloc, pieces, names, ty.end, ty.node) {
        Ok(value) => value,
        Err(fault) => return refuse(fault, ty),
    };
    let Some(_) = mark_at(pieces, value.end, Sign::Semicolon) else {
        return refuse(Fault::Unexpected(value.end), (ty, value));
    };
    Ok(Read {
        tree: OverrideBody {
            name: name.tree,
            ty: ty.tree,
            value: value.tree,
        },
        end: value.end + 1,
        node: value.node,
    })
}

fn fn_decl(attrs: Items<Attr>, keyword: Place, body: Read<FnBody>) -> Read<Decl>
    requires { body.node + 1 < 2 ^ 32 }
    ensures { result ≡ record {
      tree = record {
        node = body.node;
        place = first_of attrs keyword;
        kind = DeclKind.Fn attrs keyword body.tree.name body.tree.params body.tree.trailing body.tree.result body.tree.body;
      };
      end = body.end;
      node = body.node + 1;
    } }
{
    let place = first_place(&attrs, keyword);
    let parts = body.tree;
    let kind = DeclKind::Fn {
        attrs,
        keyword,
        name: parts.name,
        params: parts.params,
        trailing: parts.trailing,
        result: parts.result,
        body: parts.body,
    };
    numbered(place, kind, body.end, body.node)
}

fn override_decl(attrs: Items<Attr>, keyword: Place, body: Read<OverrideBody>) -> Read<Decl>
    requires { body.node + 1 < 2 ^ 32 }
    ensures { result ≡ record {
      tree = record {
        node = body.node;
        place = first_of attrs keyword;
        kind = DeclKind.Override attrs keyword body.tree.name body.tree.ty body.tree.value;
      };
      end = body.end;
      node = body.node + 1;
    } }
{
    let place = first_place(&attrs, keyword);
    let parts = body.tree;
    let kind = DeclKind::Override {
        attrs,
        keyword,
        name: parts.name,
        ty: parts.ty,
        value: parts.value,
    };
    numbered(place, kind, body.end, body.node)
}

/// A declaration by `var`, of which the `;` stands behind.
fn var_decl(attrs: Items<Attr>, var: Read<Var>) -> Read<Decl>
    requires node { var.node + 1 < 2 ^ 32 }
    requires end { var.end + 1 < 2 ^ 64 }
    ensures { result ≡ record {
      tree = record {
        node = var.node;
        place = first_of attrs var.tree.keyword;
        kind = DeclKind.Var attrs var.tree;
      };
      end = var.end + 1;
      node = var.node + 1;
    } }
{
    let variable = var.tree;
    let place = first_place(&attrs, variable.keyword);
    let kind = DeclKind::Var {
        attrs,
        var: variable,
    };
    numbered(place, kind, var.end + 1, var.node)
}

/// A declaration with its number, from what it is.
fn numbered(place: Place, kind: DeclKind, end: usize, node: u32) -> Read<Decl>
    requires { node + 1 < 2 ^ 32 }
    ensures { result ≡ record { tree = record { node = node; place = place; kind = kind }; end = end; node = node + 1 } }
{
    Read {
        tree: Decl { node, place, kind },
        end,
        node: node + 1,
    }
}

/// A declaration that begins with no attribute, and is neither a `fn` nor an `override` nor a `var`.
fn plain(
    alloc: Global,
    pieces: &[Piece],
    names: &mut Names,
    from: usize,
    node: u32,
) -> Result<Read<Decl>, Fault>
    requires can { CanRead pieces.now names.old from node }
    ensures tree { MatchResult result (λ r. ReadsOf decl_seen (Headed PlainAt) 0 (lexemes pieces.now) names.new from node r)
        (λ f. Faults (Headed PlainAt) 0 (lexemes pieces.now) names.old names.new from f) }
    ensures grows { Grows names.old names.new }
    ensures went { IfOk result (λ r. Went pieces.now names.old names.new from node r.end r.node) }
{
    if let Some(place) = mark_at(pieces, from, Sign::Semicolon) {
        return Ok(numbered(place, DeclKind::Empty, from + 1, node));
    }
    if let Some(place) = key_at(pieces, from, Keyword::Alias) {
        let read = alias(alloc, pieces, names, from + 1, node, place)?;
        return Ok(numbered(place, read.tree, read.end, read.node));
    }
    if let Some(place) = key_at(pieces, from, Keyword::Const) {
        let read = constant(alloc, pieces, names, from + 1, node, place)?;
        return Ok(numbered(place, read.tree, read.end, read.node));
    }
    if let Some(place) = key_at(pieces, from, Keyword::ConstAssert) {
        let read = assertion(alloc, pieces, names, from + 1, node, place)?;
        return Ok(numbered(place, read.tree, read.end, read.node));
    }
    let Some(place) = key_at(pieces, from, Keyword::Struct) else {
        return Err(Fault::Unexpected(from));
    };
    let read = structure(alloc, pieces, names, from + 1, node, place)?;
    Ok(numbered(place, read.tree, read.end, read.node))
}

/// What stands behind the keyword `alias`.
fn alias(
    alloc: Global,
    pieces: &[Piece],
    names: &mut Names,
    from: usize,
    node: u32,
    place: Place,
) -> Result<Read<DeclKind>, Fault>
    requires can { CanRead pieces.now names.old from node }
    ensures tree { MatchResult result (λ r. ReadsOf (decl_kind_seen place) (AliasRest place) 0 (lexemes pieces.now) names.new from node r)
        (λ f. Faults (AliasRest place) 0 (lexemes pieces.now) names.old names.new from f) }
    ensures grows { Grows names.old names.new }
    ensures went { IfOk result (λ r. Went pieces.now names.old names.new from node r.end r.node) }
{
    let name = name(pieces, names, from, node)?;
    let Some(_) = mark_at(pieces, name.end, Sign::Equal) else {
        return Err(Fault::Unexpected(name.end));
    };
    let ty = type_name(alloc, pieces, names, name.end + 1, name.node)?;
    let Some(_) = mark_at(pieces, ty.end, Sign::Semicolon) else {
        return refuse(Fault::Unexpected(ty.end), ty);
    };
    Ok(Read {
        tree: DeclKind::Alias {
            name: name.tree,
            ty: ty.expr,
        },
        end: ty.end + 1,
        node: ty.node,
    })
}

/// What stands behind the keyword of a `const`, and a `;`.
fn constant(
    alloc: Global,
    pieces: &[Piece],
    names: &mut Names,
    from: usize,
    node: u32,
    place: Place,
) -> Result<Read<DeclKind>, Fault>
    requires can { CanRead pieces.now names.old from node }
    ensures tree { MatchResult result (λ r. ReadsOf (decl_kind_seen place) (ConstRest place) 0 (lexemes pieces.now) names.new from node r)
        (λ f. Faults (ConstRest place) 0 (lexemes pieces.now) names.old names.new from f) }
    ensures grows { Grows names.old names.new }
    ensures went { IfOk result (λ r. Went pieces.now names.old names.new from node r.end r.node) }
{
    let binding = bound(alloc, pieces, names, from, node, place)?;
    let Some(_) = mark_at(pieces, binding.end, Sign::Semicolon) else {
        return refuse(Fault::Unexpected(binding.end), binding);
    };
    Ok(Read {
        tree: DeclKind::Const(binding.tree),
        end: binding.end + 1,
        node: binding.node,
    })
}

/// What stands behind the keyword `const_assert`.
fn assertion(
    alloc: Global,
    pieces: &[Piece],
    names: &mut Names,
    from: usize,
    node: u32,
    place: Place,
) -> Result<Read<DeclKind>, Fault>
    requires can { CanRead pieces.now names.old from node }
    ensures tree { MatchResult result (λ r. ReadsOf (decl_kind_seen place) (AssertRest place) 0 (lexemes pieces.now) names.new from node r)
        (λ f. Faults (AssertRest place) 0 (lexemes pieces.now) names.old names.new from f) }
    ensures grows { Grows names.old names.new }
    ensures went { IfOk result (λ r. Went pieces.now names.old names.new from node r.end r.node) }
{
    let condition = expression(alloc, pieces, names, from, node)?;
    let Some(_) = mark_at(pieces, condition.end, Sign::Semicolon) else {
        return refuse(Fault::Unexpected(condition.end), condition);
    };
    Ok(Read {
        tree: DeclKind::ConstAssert(condition.expr),
        end: condition.end + 1,
        node: condition.node,
    })
}

/// What stands behind the keyword `struct`.
fn structure(
    alloc: Global,
    pieces: &[Piece],
    names: &mut Names,
    from: usize,
    node: u32,
    place: Place,
) -> Result<Read<DeclKind>, Fault>
    requires can { CanRead pieces.now names.old from node }
    ensures tree { MatchResult result (λ r. ReadsOf (decl_kind_seen place) (StructRest place) 0 (lexemes pieces.now) names.new from node r)
        (λ f. Faults (StructRest place) 0 (lexemes pieces.now) names.old names.new from f) }
    ensures grows { Grows names.old names.new }
    ensures went { IfOk result (λ r. Went pieces.now names.old names.new from node r.end r.node) }
{
    let name = name(pieces, names, from, node)?;
    let Some(_) = mark_at(pieces, name.end, Sign::OpenBrace) else {
        return Err(Fault::Unexpected(name.end));
    };
    let list = members(
        alloc,
        pieces,
        names,
        name.end + 1,
        name.node,
        Sign::CloseBrace,
    )?;
    let found = list.tree;
    Ok(Read {
        tree: DeclKind::Struct {
            name: name.tree,
            members: found.items,
            trailing: found.trailing,
            end: found.close,
        },
        end: list.end,
        node: list.node,
    })
}
