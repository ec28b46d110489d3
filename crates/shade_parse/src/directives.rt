//! Directives.

ghost use Rattle.std.specs.Prelude.{◌≡◌, ◌+◌, ◌<◌, ◌^◌, IfOk, MatchResult};
ghost use Rattle.shade_ast.specs.Names.{Grows};
ghost use Rattle.shade_ast.specs.Declarations.{DirectiveOf, RuleOf};
ghost use Rattle.shade_parse.specs.Parts.{directive_kind_seen, directive_seen, rule_seen};
ghost use Rattle.shade_parse_simple.specs.Readings.{ReadsOf};
ghost use Rattle.shade_parse.specs.Rests.{DiagnosticRest};
ghost use Rattle.shade_parse_expr.specs.Parts.{Faults};
ghost use Rattle.shade_cursor.specs.Shown.{lexemes};
ghost use Rattle.shade_parse_expr.specs.Reading.{CanRead, Went};

use crate::members::name_list;
use shade_ast::{Directive, DirectiveKind, Keyword, Names, Rule, Sign};
use shade_base::Place;
use shade_cursor::part::Fault;
use shade_cursor::piece::{Piece, key_at, mark_at};
use shade_parse_simple::read::Read;
use shade_parse_simple::tokens::{closed, name};
use std::alloc::Global;

/// A directive.
pub fn directive(
    alloc: Global,
    pieces: &[Piece],
    names: &mut Names,
    from: usize,
    node: u32,
) -> Result<Read<Directive>, Fault>
    requires can { CanRead pieces.now names.old from node }
    ensures tree { MatchResult result (λ r. ReadsOf directive_seen DirectiveOf 0 (lexemes pieces.now) names.new from node r)
        (λ f. Faults DirectiveOf 0 (lexemes pieces.now) names.old names.new from f) }
    ensures grows { Grows names.old names.new }
    ensures went { IfOk result (λ r. Went pieces.now names.old names.new from node r.end r.node) }
{
    if let Some(place) = key_at(pieces, from, Keyword::Diagnostic) {
        let kind = diagnostic(pieces, names, from + 1, node, place)?;
        return Ok(numbered(place, kind));
    }
    if let Some(place) = key_at(pieces, from, Keyword::Requires) {
        let list = name_list(alloc, pieces, names, from + 1, node)?;
        let found = list.tree;
        let kind = DirectiveKind::Requires {
            names: found.items,
            trailing: found.trailing,
        };
        return Ok(numbered(
            place,
            Read {
                tree: kind,
                end: list.end,
                node: list.node,
            },
        ));
    }
    let Some(place) = key_at(pieces, from, Keyword::Enable) else {
        return Err(Fault::Unexpected(from));
    };
    let list = name_list(alloc, pieces, names, from + 1, node)?;
    let found = list.tree;
    let kind = DirectiveKind::Enable {
        names: found.items,
        trailing: found.trailing,
    };
    Ok(numbered(
        place,
        Read {
            tree: kind,
            end: list.end,
            node: list.node,
        },
    ))
}

/// A directive with its number, from what it is.
fn numbered(place: Place, kind: Read<DirectiveKind>) -> Read<Directive>
    requires { kind.node + 1 < 2 ^ 32 }
    ensures { result ≡ record { tree = record { node = kind.node; place = place; kind = kind.tree }; end = kind.end; node = kind.node + 1 } }
{
    Read {
        tree: Directive {
            node: kind.node,
            place,
            kind: kind.tree,
        },
        end: kind.end,
        node: kind.node + 1,
    }
}

/// What stands behind the keyword `diagnostic`.
fn diagnostic(
    pieces: &[Piece],
    names: &mut Names,
    from: usize,
    node: u32,
    place: Place,
) -> Result<Read<DirectiveKind>, Fault>
    requires can { CanRead pieces.now names.old from node }
    ensures tree { MatchResult result (λ r. ReadsOf (directive_kind_seen place) (DiagnosticRest place) 0 (lexemes pieces.now) names.new from node r)
        (λ f. Faults (DiagnosticRest place) 0 (lexemes pieces.now) names.old names.new from f) }
    ensures grows { Grows names.old names.new }
    ensures went { IfOk result (λ r. Went pieces.now names.old names.new from node r.end r.node) }
{
    let Some(_) = mark_at(pieces, from, Sign::Open) else {
        return Err(Fault::Unexpected(from));
    };
    let severity = name(pieces, names, from + 1, node)?;
    let Some(_) = mark_at(pieces, severity.end, Sign::Comma) else {
        return Err(Fault::Unexpected(severity.end));
    };
    let rule = rule(pieces, names, severity.end + 1, severity.node)?;
    let (trailing, end) = closed(pieces, rule.end, Sign::Close)?;
    let Some(_) = mark_at(pieces, end, Sign::Semicolon) else {
        return Err(Fault::Unexpected(end));
    };
    Ok(Read {
        tree: DirectiveKind::Diagnostic {
            severity: severity.tree,
            rule: rule.tree,
            trailing,
        },
        end: end + 1,
        node: rule.node,
    })
}

/// The rule of a diagnostic filter.
fn rule(pieces: &[Piece], names: &mut Names, from: usize, node: u32) -> Result<Read<Rule>, Fault>
    requires can { CanRead pieces.now names.old from node }
    ensures tree { MatchResult result (λ r. ReadsOf rule_seen RuleOf 2 (lexemes pieces.now) names.new from node r)
        (λ f. Faults RuleOf 2 (lexemes pieces.now) names.old names.new from f) }
    ensures grows { Grows names.old names.new }
    ensures went { IfOk result (λ r. Went pieces.now names.old names.new from node r.end r.node) }
{
    let first = name(pieces, names, from, node)?;
    let Some(dot) = mark_at(pieces, first.end, Sign::Dot) else {
        return Ok(Read {
            tree: Rule::Plain(first.tree),
            end: first.end,
            node: first.node,
        });
    };
    let name = name(pieces, names, first.end + 1, first.node)?;
    Ok(Read {
        tree: Rule::Scoped {
            scope: first.tree,
            dot,
            name: name.tree,
        },
        end: name.end,
        node: name.node,
    })
}
