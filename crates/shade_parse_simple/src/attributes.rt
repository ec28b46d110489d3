//! Attributes.

ghost use Rattle.std.specs.Prelude.{◌≡◌, IfOk, MatchResult};
ghost use Rattle.shade_ast.specs.declared.lexeme.Sign.TheVariants as sign_;
ghost use Rattle.shade_ast.specs.Lexemes.{Mark};
ghost use Rattle.shade_ast.specs.Names.{Grows};
ghost use Rattle.shade_ast.specs.Repeats.{Many};
ghost use Rattle.shade_ast.specs.Statements.{AttrArguments, AttrName as AttrNamePhrase, Attribute};
ghost use Rattle.shade_parse_simple.specs.Maybes.{MaybeFaults, MaybeOf};
ghost use Rattle.shade_parse_simple.specs.Readings.{arguments_seen, attr_name_seen, attr_seen, attrs_seen, first_of, ReadsOf};
ghost use Rattle.shade_parse_expr.specs.Parts.{Faults};
ghost use Rattle.shade_cursor.specs.Shown.{lexemes};
ghost use Rattle.shade_parse_expr.specs.Reading.{CanRead, Went, WentOrStayed};

use crate::items::push;
use crate::read::Read;
use crate::tokens::name;
use shade_ast::{Arguments, Attr, AttrName, Keyword, Names, Sign};
use shade_base::Place;
use shade_cursor::part::Fault;
use shade_cursor::piece::{Piece, key_at, mark_at};
use shade_parse_expr::parse::arguments;
use sqlite_items::Items;
use std::alloc::Global;

/// Reads the attributes that begin at a token, which may be none. `Unexpected` has the first token with which none goes on,
/// `NoMemory` comes where a part of the tree or a name finds no memory.
pub fn attributes(
    alloc: Global,
    pieces: &[Piece],
    names: &mut Names,
    from: usize,
    node: u32,
) -> Result<Read<Items<Attr>>, Fault>
    requires can { CanRead pieces.now names.old from node }
    ensures tree { MatchResult result (λ r. ReadsOf attrs_seen (Many Attribute) 8 (lexemes pieces.now) names.new from node r)
        (λ f. Faults (Many Attribute) 8 (lexemes pieces.now) names.old names.new from f) }
    ensures grows { Grows names.old names.new }
    ensures went { IfOk result (λ r. WentOrStayed pieces.now names.old names.new from node r.end r.node) }
{
    let mut attrs = Items::new(alloc);
    let mut at = from;
    let mut next = node;
    'attrs: while let Some(_) = mark_at(pieces, at, Sign::At) {
        let attr = attribute(alloc, pieces, names, at, next)?;
        push(&mut attrs, attr.tree)?;
        at = attr.end;
        next = attr.node;
    }
    Ok(Read {
        tree: attrs,
        end: at,
        node: next,
    })
}

/// An attribute.
fn attribute(
    alloc: Global,
    pieces: &[Piece],
    names: &mut Names,
    from: usize,
    node: u32,
) -> Result<Read<Attr>, Fault>
    requires can { CanRead pieces.now names.old from node }
    ensures tree { MatchResult result (λ r. ReadsOf attr_seen Attribute 1 (lexemes pieces.now) names.new from node r)
        (λ f. Faults Attribute 1 (lexemes pieces.now) names.old names.new from f) }
    ensures grows { Grows names.old names.new }
    ensures went { IfOk result (λ r. Went pieces.now names.old names.new from node r.end r.node) }
{
    let Some(place) = mark_at(pieces, from, Sign::At) else {
        return Err(Fault::Unexpected(from));
    };
    let name = attr_name(pieces, names, from + 1, node)?;
    let listed = maybe_arguments(alloc, pieces, names, name.end, name.node)?;
    Ok(Read {
        tree: Attr {
            node: listed.node,
            place,
            name: name.tree,
            arguments: listed.tree,
        },
        end: listed.end,
        node: listed.node + 1,
    })
}

/// The name of an attribute, which may be one of two keywords.
fn attr_name(
    pieces: &[Piece],
    names: &mut Names,
    from: usize,
    node: u32,
) -> Result<Read<AttrName>, Fault>
    requires can { CanRead pieces.now names.old from node }
    ensures tree { MatchResult result (λ r. ReadsOf attr_name_seen AttrNamePhrase 0 (lexemes pieces.now) names.new from node r)
        (λ f. Faults AttrNamePhrase 0 (lexemes pieces.now) names.old names.new from f) }
    ensures grows { Grows names.old names.new }
    ensures went { IfOk result (λ r. Went pieces.now names.old names.new from node r.end r.node) }
{
    if let Some(place) = key_at(pieces, from, Keyword::Diagnostic) {
        return Ok(Read {
            tree: AttrName::Diagnostic(place),
            end: from + 1,
            node,
        });
    }
    if let Some(place) = key_at(pieces, from, Keyword::Const) {
        return Ok(Read {
            tree: AttrName::Const(place),
            end: from + 1,
            node,
        });
    }
    let name = name(pieces, names, from, node)?;
    Ok(Read {
        tree: AttrName::Name(name.tree),
        end: name.end,
        node: name.node,
    })
}

/// The arguments of an attribute, where a `(` stands.
fn maybe_arguments(
    alloc: Global,
    pieces: &[Piece],
    names: &mut Names,
    from: usize,
    node: u32,
) -> Result<Read<Option<Arguments>>, Fault>
    requires can { CanRead pieces.now names.old from node }
    ensures tree { MatchResult result (λ r. MaybeOf arguments_seen (Mark sign_.Open) AttrArguments 0 (lexemes pieces.now) names.new from node r)
        (λ f. MaybeFaults (Mark sign_.Open) AttrArguments 0 (lexemes pieces.now) names.old names.new from f) }
    ensures grows { Grows names.old names.new }
    ensures went { IfOk result (λ r. WentOrStayed pieces.now names.old names.new from node r.end r.node) }
{
    let Some(_) = mark_at(pieces, from, Sign::Open) else {
        return Ok(Read {
            tree: None,
            end: from,
            node,
        });
    };
    let list = arguments(alloc, pieces, names, from + 1, node)?;
    Ok(Read {
        tree: Some(Arguments {
            items: list.items,
            trailing: list.trailing,
        }),
        end: list.end,
        node: list.node,
    })
}

/// Gives the place of the first token of what may begin with attributes: of the first, or else the one given.
pub fn first_place(attrs: &Items<Attr>, place: Place) -> Place
    ensures { result ≡ first_of attrs.now place }
{
    match attrs.as_slice() {
        [first, ..] => first.place,
        [] => place,
    }
}
