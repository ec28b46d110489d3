//! Members, parameters, results and lists of names.

ghost use Rattle.std.specs.Prelude.{◌≡◌, ◌+◌, ◌<◌, ◌^◌, ◌⊎◌, IfOk, MatchResult};
ghost use Rattle.shade_ast.specs.declared.lexeme.Sign.TheVariants as sign_;
ghost use Rattle.shade_ast.specs.Lexemes.{Mark};
ghost use Rattle.shade_ast.specs.Names.{Grows};
ghost use Rattle.shade_ast.specs.Repeats.{Listed, MaybeListed};
ghost use Rattle.shade_ast.specs.Statements.{Name};
ghost use Rattle.shade_ast.specs.Declarations.{MemberOf, ResultOf};
ghost use Rattle.shade_parse_simple.specs.Maybes.{MaybeFaults, MaybeOf};
ghost use Rattle.shade_parse.specs.Parts.{enclosed_seen, member_seen, result_seen};
ghost use Rattle.shade_parse_simple.specs.Readings.{named_seen, ReadsOf};
ghost use Rattle.shade_parse.specs.Rests.{Enclosed};
ghost use Rattle.shade_parse_expr.specs.Parts.{Faults};
ghost use Rattle.shade_cursor.specs.Shown.{lexemes};
ghost use Rattle.shade_parse_expr.specs.Reading.{CanRead, Went, WentOrStayed};

use shade_ast::{FnResult, Member, Named, Names, Sign};
use shade_base::Place;
use shade_cursor::part::Fault;
use shade_cursor::piece::{Piece, mark_at};
use shade_parse_expr::parse::type_name;
use shade_parse_simple::attributes::{attributes, first_place};
use shade_parse_simple::bindings::of_type;
use shade_parse_simple::items::push;
use shade_parse_simple::read::Read;
use shade_parse_simple::tokens::name;
use sqlite_items::Items;
use std::alloc::Global;

/// Items with commas between them, whether a comma stands behind the last, and the place of the mark that closes them.
#[derive(Drop)]
pub struct ItemList<T> {
    pub items: Items<T>,
    pub trailing: bool,
    pub close: Place,
}

/// Names with commas between them, and a `;`.
pub fn name_list(
    alloc: Global,
    pieces: &[Piece],
    names: &mut Names,
    from: usize,
    node: u32,
) -> Result<Read<ItemList<Named>>, Fault>
    requires can { CanRead pieces.now names.old from node }
    ensures tree { MatchResult result
        (λ r. ReadsOf (enclosed_seen named_seen) (Enclosed (Listed Name) sign_.Semicolon) 0 (lexemes pieces.now) names.new from node r)
        (λ f. Faults (Enclosed (Listed Name) sign_.Semicolon) 0 (lexemes pieces.now) names.old names.new from f) }
    ensures grows { Grows names.old names.new }
    ensures went { IfOk result (λ r. Went pieces.now names.old names.new from node r.end r.node) }
{
    let mut items = Items::new(alloc);
    let mut at = from;
    let mut next = node;
    'items: loop {
        let item = name(pieces, names, at, next)?;
        push(&mut items, item.tree)?;
        next = item.node;
        if let Some(close) = mark_at(pieces, item.end, Sign::Semicolon) {
            return Ok(closed_list(items, false, close, item.end, next));
        }
        let Some(_) = mark_at(pieces, item.end, Sign::Comma) else {
            return Err(Fault::Unexpected(item.end));
        };
        at = item.end + 1;
        if let Some(close) = mark_at(pieces, at, Sign::Semicolon) {
            return Ok(closed_list(items, true, close, at, next));
        }
    }
}

/// A list, of which the closing mark stands at a place.
fn closed_list<T>(
    items: Items<T>,
    trailing: bool,
    close: Place,
    at: usize,
    node: u32,
) -> Read<ItemList<T>>
    requires { at + 1 < 2 ^ 64 }
    ensures { result ≡ record { tree = record { items = items; trailing = trailing; close = close }; end = at + 1; node = node } }
{
    Read {
        tree: ItemList {
            items,
            trailing,
            close,
        },
        end: at + 1,
        node,
    }
}

/// A member of a struct, or a parameter.
fn member(
    alloc: Global,
    pieces: &[Piece],
    names: &mut Names,
    from: usize,
    node: u32,
) -> Result<Read<Member>, Fault>
    requires can { CanRead pieces.now names.old from node }
    ensures tree { MatchResult result (λ r. ReadsOf member_seen MemberOf 0 (lexemes pieces.now) names.new from node r)
        (λ f. Faults MemberOf 0 (lexemes pieces.now) names.old names.new from f) }
    ensures grows { Grows names.old names.new }
    ensures went { IfOk result (λ r. Went pieces.now names.old names.new from node r.end r.node) }
{
    let attrs = attributes(alloc, pieces, names, from, node)?;
    let name = name(pieces, names, attrs.end, attrs.node)?;
    let ty = of_type(alloc, pieces, names, name.end, name.node)?;
    let place = first_place(&attrs.tree, name.tree.place);
    Ok(Read {
        tree: Member {
            node: ty.node,
            place,
            attrs: attrs.tree,
            name: name.tree,
            ty: ty.tree,
        },
        end: ty.end,
        node: ty.node + 1,
    })
}

/// Members or parameters with commas between them, and the mark that closes them.
pub fn members(
    alloc: Global,
    pieces: &[Piece],
    names: &mut Names,
    from: usize,
    node: u32,
    closer: Sign,
) -> Result<Read<ItemList<Member>>, Fault>
    requires can { CanRead pieces.now names.old from node }
    requires closer { (closer ≡ sign_.CloseBrace) ⊎ (closer ≡ sign_.Close) }
    ensures tree { MatchResult result
        (λ r. ReadsOf (enclosed_seen member_seen) (Enclosed (Listed MemberOf) closer) 0 (lexemes pieces.now) names.new from node r)
        (λ f. Faults (Enclosed (Listed MemberOf) closer) 0 (lexemes pieces.now) names.old names.new from f) }
    ensures grows { Grows names.old names.new }
    ensures went { IfOk result (λ r. Went pieces.now names.old names.new from node r.end r.node) }
{
    let mut items = Items::new(alloc);
    let mut at = from;
    let mut next = node;
    'items: loop {
        let item = member(alloc, pieces, names, at, next)?;
        push(&mut items, item.tree)?;
        next = item.node;
        if let Some(close) = mark_at(pieces, item.end, closer) {
            return Ok(closed_list(items, false, close, item.end, next));
        }
        let Some(_) = mark_at(pieces, item.end, Sign::Comma) else {
            return Err(Fault::Unexpected(item.end));
        };
        at = item.end + 1;
        if let Some(close) = mark_at(pieces, at, closer) {
            return Ok(closed_list(items, true, close, at, next));
        }
    }
}

/// Parameters, which may be none, and the `)` behind them.
pub fn parameters(
    alloc: Global,
    pieces: &[Piece],
    names: &mut Names,
    from: usize,
    node: u32,
) -> Result<Read<ItemList<Member>>, Fault>
    requires can { CanRead pieces.now names.old from node }
    ensures tree { MatchResult result
        (λ r. ReadsOf (enclosed_seen member_seen) (Enclosed (MaybeListed MemberOf) sign_.Close) 0 (lexemes pieces.now) names.new from node r)
        (λ f. Faults (Enclosed (MaybeListed MemberOf) sign_.Close) 0 (lexemes pieces.now) names.old names.new from f) }
    ensures grows { Grows names.old names.new }
    ensures went { IfOk result (λ r. Went pieces.now names.old names.new from node r.end r.node) }
{
    if let Some(close) = mark_at(pieces, from, Sign::Close) {
        return Ok(closed_list(Items::new(alloc), false, close, from, node));
    }
    members(alloc, pieces, names, from, node, Sign::Close)
}

/// The type of a result, where a `->` stands.
pub fn maybe_result(
    alloc: Global,
    pieces: &[Piece],
    names: &mut Names,
    from: usize,
    node: u32,
) -> Result<Read<Option<FnResult>>, Fault>
    requires can { CanRead pieces.now names.old from node }
    ensures tree { MatchResult result (λ r. MaybeOf result_seen (Mark sign_.Arrow) ResultOf 0 (lexemes pieces.now) names.new from node r)
        (λ f. MaybeFaults (Mark sign_.Arrow) ResultOf 0 (lexemes pieces.now) names.old names.new from f) }
    ensures grows { Grows names.old names.new }
    ensures went { IfOk result (λ r. WentOrStayed pieces.now names.old names.new from node r.end r.node) }
{
    let Some(_) = mark_at(pieces, from, Sign::Arrow) else {
        return Ok(Read {
            tree: None,
            end: from,
            node,
        });
    };
    let attrs = attributes(alloc, pieces, names, from + 1, node)?;
    let ty = type_name(alloc, pieces, names, attrs.end, attrs.node)?;
    Ok(Read {
        tree: Some(FnResult {
            attrs: attrs.tree,
            ty: ty.expr,
        }),
        end: ty.end,
        node: ty.node,
    })
}
