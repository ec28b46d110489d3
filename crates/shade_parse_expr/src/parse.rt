//! Expressions, types, left sides and calls, without limits of depth.

ghost use Rattle.std.specs.Prelude.{◌≡◌, ◌+◌, ◌<◌, ◌≤◌, ◌^◌, length, slice_get, IsTrue, IfOk, []};
ghost use Rattle.shade_ast.specs.declared.lexeme.Sign.TheVariants as sign_;
ghost use Rattle.shade_ast.specs.Lexemes.{Mark};
ghost use Rattle.shade_ast.specs.Names.{Grows};
ghost use Rattle.shade_ast.specs.Needs.{expr_needs};
ghost use Rattle.shade_ast.specs.Nodes.{expr_nodes};
ghost use Rattle.shade_ast.specs.Repeats.{Listed, MaybeListed};
ghost use Rattle.shade_ast.specs.Shaped.{expr_shape};
ghost use Rattle.shade_ast.specs.Expressions.{Additive, Call, Expression, LeftSide, LeftSingular, Multiplicative};
ghost use Rattle.shade_ast.specs.Expressions.{Primary, Relational, Shift, Singular, TypeName, Unary};
ghost use Rattle.shade_ast.specs.Steps.{AccessStep, IndexStep, LeftFirst, MemberStep};
ghost use Rattle.shade_ast.specs.Chains.{Closed, Tail};
ghost use Rattle.shade_cursor.specs.Operators.{Closing, Joins, NoLeaf, StandsWord};
ghost use Rattle.shade_parse_expr.specs.Parts.{Parses, ParsesList, ParsesOn};
ghost use Rattle.shade_parse_expr.specs.Rests.{Called, Compared, JoinPart, Joining, is_bare, joint_rank};
ghost use Rattle.shade_cursor.specs.Shown.{lexemes};
ghost use Rattle.shade_parse_expr.specs.Reading.{CanRead, Went, WentOrStayed};

use shade_ast::{Expr, ExprKind, Keyword, Names, Sign};
use shade_base::Place;
use shade_cursor::builds::{
    call, index, infix, leaf, member, number, paren, prefix, push, refuse, template,
};
use shade_cursor::operators::{
    Joint, comparison_at, factor_at, infix_of, joins, joint_at, left_prefix_at, prefix_at,
    shift_at, sign_of, term_at,
};
use shade_cursor::part::{Fault, Listing, Part};
use shade_cursor::piece::{Piece, key_at, mark_at, number_at, word_at};
use sqlite_items::Items;
use std::alloc::Global;

/// The expression that begins at a token, with the token behind it. Its nodes are numbered from `node` on, and its names
/// stand in `names`. `Unexpected` has the first token with which no expression goes on, `NoMemory` comes where a part of the
/// tree or a name finds no memory; `names` may then have names more.
#[cycle(grammar)]
pub fn expression(
    alloc: Global,
    pieces: &[Piece],
    names: &mut Names,
    from: usize,
    node: u32,
) -> Result<Part, Fault>
    requires can { CanRead pieces.now names.old from node }
    ensures tree { Parses Expression 7 (lexemes pieces.now) names.old names.new [] from node result }
    ensures grows { Grows names.old names.new }
    ensures went { IfOk result (λ p. Went pieces.now names.old names.new from node p.end p.node) }
{
    let left = relational(alloc, pieces, names, from, node)?;
    let Some((joint, _)) = joint_at(pieces, left.end) else {
        return Ok(left);
    };
    if !joins(joint, left.bare) {
        return Ok(left);
    }
    joined(alloc, pieces, names, left, joint)
}

/// What one operator joins to what stands before it.
#[cycle(grammar)]
fn joined(
    alloc: Global,
    pieces: &[Piece],
    names: &mut Names,
    first: Part,
    joint: Joint,
) -> Result<Part, Fault>
    requires can { CanRead pieces.now names.old first.end first.node }
    requires known { expr_needs first.expr ≤ length names.old }
    requires bare { first.bare ≡ is_bare (expr_shape names.old first.expr) }
    ensures tree { ParsesOn (Joining joint) 7 (lexemes pieces.now) names.old names.new first first.end result }
    ensures grows { Grows names.old names.new }
    ensures went { IfOk result (λ p. WentOrStayed pieces.now names.old names.new first.end first.node p.end p.node) }
{
    let mut left = first;
    'joints: while let Some(place) = mark_at(pieces, left.end, sign_of(joint)) {
        let right = match join_part(alloc, pieces, names, joint, left.end + 1, left.node) {
            Ok(right) => right,
            Err(fault) => return refuse(fault, left),
        };
        left = infix(alloc, left, infix_of(joint), place, right)?;
    }
    Ok(left)
}

/// What stands on the right of an operator that joins.
#[cycle(grammar)]
fn join_part(
    alloc: Global,
    pieces: &[Piece],
    names: &mut Names,
    joint: Joint,
    from: usize,
    node: u32,
) -> Result<Part, Fault>
    requires can { CanRead pieces.now names.old from node }
    ensures tree { Parses (JoinPart joint) (joint_rank joint) (lexemes pieces.now) names.old names.new [] from node result }
    ensures grows { Grows names.old names.new }
    ensures went { IfOk result (λ p. Went pieces.now names.old names.new from node p.end p.node) }
{
    match joint {
        Joint::Or | Joint::And => relational(alloc, pieces, names, from, node),
        Joint::BitAnd | Joint::BitOr | Joint::BitXor => unary(alloc, pieces, names, from, node),
    }
}

/// A comparison, or one side of it alone.
#[cycle(grammar)]
fn relational(
    alloc: Global,
    pieces: &[Piece],
    names: &mut Names,
    from: usize,
    node: u32,
) -> Result<Part, Fault>
    requires can { CanRead pieces.now names.old from node }
    ensures tree { Parses Relational 6 (lexemes pieces.now) names.old names.new [] from node result }
    ensures grows { Grows names.old names.new }
    ensures went { IfOk result (λ p. Went pieces.now names.old names.new from node p.end p.node) }
{
    let left = additive(alloc, pieces, names, from, node)?;
    let Some((operator, place, next)) = shift_at(pieces, left.end, left.bare) else {
        return compared(alloc, pieces, names, left);
    };
    let right = match unary(alloc, pieces, names, next, left.node) {
        Ok(right) => right,
        Err(fault) => return refuse(fault, left),
    };
    let left = infix(alloc, left, operator, place, right)?;
    compared(alloc, pieces, names, left)
}

/// The rest of a comparison behind its left side, if it is one.
#[cycle(grammar)]
fn compared(alloc: Global, pieces: &[Piece], names: &mut Names, left: Part) -> Result<Part, Fault>
    requires can { CanRead pieces.now names.old left.end left.node }
    requires known { expr_needs left.expr ≤ length names.old }
    requires bare { left.bare ≡ is_bare (expr_shape names.old left.expr) }
    ensures tree { ParsesOn Compared 6 (lexemes pieces.now) names.old names.new left left.end result }
    ensures grows { Grows names.old names.new }
    ensures went { IfOk result (λ p. WentOrStayed pieces.now names.old names.new left.end left.node p.end p.node) }
{
    let Some((operator, place, next)) = comparison_at(pieces, left.end) else {
        return Ok(left);
    };
    let right = match shift(alloc, pieces, names, next, left.node) {
        Ok(right) => right,
        Err(fault) => return refuse(fault, left),
    };
    infix(alloc, left, operator, place, right)
}

/// The right side of a comparison. A `>` behind a single operand is taken to begin a `>>`.
#[cycle(grammar)]
fn shift(
    alloc: Global,
    pieces: &[Piece],
    names: &mut Names,
    from: usize,
    node: u32,
) -> Result<Part, Fault>
    requires can { CanRead pieces.now names.old from node }
    ensures tree { Parses Shift 6 (lexemes pieces.now) names.old names.new [] from node result }
    ensures grows { Grows names.old names.new }
    ensures went { IfOk result (λ p. Went pieces.now names.old names.new from node p.end p.node) }
{
    let left = additive(alloc, pieces, names, from, node)?;
    let Some((operator, place, next)) = shift_at(pieces, left.end, left.bare) else {
        if !left.bare {
            return Ok(left);
        }
        if mark_at(pieces, left.end, Sign::Greater).is_none() {
            return Ok(left);
        }
        return refuse(Fault::Unexpected(left.end + 1), left);
    };
    let right = match unary(alloc, pieces, names, next, left.node) {
        Ok(right) => right,
        Err(fault) => return refuse(fault, left),
    };
    infix(alloc, left, operator, place, right)
}

/// A sum.
#[cycle(grammar)]
fn additive(
    alloc: Global,
    pieces: &[Piece],
    names: &mut Names,
    from: usize,
    node: u32,
) -> Result<Part, Fault>
    requires can { CanRead pieces.now names.old from node }
    ensures tree { Parses Additive 4 (lexemes pieces.now) names.old names.new [] from node result }
    ensures grows { Grows names.old names.new }
    ensures went { IfOk result (λ p. Went pieces.now names.old names.new from node p.end p.node) }
{
    let mut left = multiplicative(alloc, pieces, names, from, node)?;
    'terms: while let Some((operator, place)) = term_at(pieces, left.end) {
        let right = match multiplicative(alloc, pieces, names, left.end + 1, left.node) {
            Ok(right) => right,
            Err(fault) => return refuse(fault, left),
        };
        left = infix(alloc, left, operator, place, right)?;
    }
    Ok(left)
}

/// A product.
#[cycle(grammar)]
fn multiplicative(
    alloc: Global,
    pieces: &[Piece],
    names: &mut Names,
    from: usize,
    node: u32,
) -> Result<Part, Fault>
    requires can { CanRead pieces.now names.old from node }
    ensures tree { Parses Multiplicative 3 (lexemes pieces.now) names.old names.new [] from node result }
    ensures grows { Grows names.old names.new }
    ensures went { IfOk result (λ p. Went pieces.now names.old names.new from node p.end p.node) }
{
    let mut left = unary(alloc, pieces, names, from, node)?;
    'factors: while let Some((operator, place)) = factor_at(pieces, left.end) {
        let right = match unary(alloc, pieces, names, left.end + 1, left.node) {
            Ok(right) => right,
            Err(fault) => return refuse(fault, left),
        };
        left = infix(alloc, left, operator, place, right)?;
    }
    Ok(left)
}

/// An operand with the operators before it.
#[cycle(grammar)]
fn unary(
    alloc: Global,
    pieces: &[Piece],
    names: &mut Names,
    from: usize,
    node: u32,
) -> Result<Part, Fault>
    requires can { CanRead pieces.now names.old from node }
    ensures tree { Parses Unary 2 (lexemes pieces.now) names.old names.new [] from node result }
    ensures grows { Grows names.old names.new }
    ensures went { IfOk result (λ p. Went pieces.now names.old names.new from node p.end p.node) }
{
    let Some((operator, place)) = prefix_at(pieces, from) else {
        return singular(alloc, pieces, names, from, node);
    };
    let operand = unary(alloc, pieces, names, from + 1, node)?;
    prefix(alloc, operator, place, operand)
}

/// An operand with the accesses behind it.
#[cycle(grammar)]
fn singular(
    alloc: Global,
    pieces: &[Piece],
    names: &mut Names,
    from: usize,
    node: u32,
) -> Result<Part, Fault>
    requires can { CanRead pieces.now names.old from node }
    ensures tree { Parses Singular 2 (lexemes pieces.now) names.old names.new [] from node result }
    ensures grows { Grows names.old names.new }
    ensures went { IfOk result (λ p. Went pieces.now names.old names.new from node p.end p.node) }
{
    let whole = primary(alloc, pieces, names, from, node)?;
    accesses(alloc, pieces, names, whole)
}

/// Accesses to parts of what stands before them.
#[cycle(grammar)]
fn accesses(alloc: Global, pieces: &[Piece], names: &mut Names, first: Part) -> Result<Part, Fault>
    requires can { CanRead pieces.now names.old first.end first.node }
    requires known { expr_needs first.expr ≤ length names.old }
    requires bare { first.bare ≡ is_bare (expr_shape names.old first.expr) }
    ensures tree { ParsesOn (Tail AccessStep) 2 (lexemes pieces.now) names.old names.new first first.end result }
    ensures grows { Grows names.old names.new }
    ensures went { IfOk result (λ p. WentOrStayed pieces.now names.old names.new first.end first.node p.end p.node) }
{
    let mut whole = first;
    'steps: loop {
        if let Some(dot) = mark_at(pieces, whole.end, Sign::Dot) {
            whole = by_name(alloc, pieces, names, whole, dot)?;
        } else if let Some(bracket) = mark_at(pieces, whole.end, Sign::OpenBracket) {
            whole = by_index(alloc, pieces, names, whole, bracket)?;
        } else {
            return Ok(whole);
        }
    }
}

/// A part by its name, behind the `.`.
fn by_name(
    alloc: Global,
    pieces: &[Piece],
    names: &mut Names,
    whole: Part,
    dot: Place,
) -> Result<Part, Fault>
    requires can { CanRead pieces.now names.old whole.end whole.node }
    requires within { whole.end + 1 ≤ length pieces.now }
    requires known { expr_needs whole.expr ≤ length names.old }
    requires bare { whole.bare ≡ is_bare (expr_shape names.old whole.expr) }
    ensures tree { ParsesOn (λ l. MemberStep l dot) 1 (lexemes pieces.now) names.old names.new whole (whole.end + 1) result }
    ensures grows { Grows names.old names.new }
    ensures went { IfOk result (λ p. Went pieces.now names.old names.new whole.end whole.node p.end p.node) }
    ensures further { IfOk result (λ p. whole.end + 1 < p.end) }
{
    let Some((text, place)) = word_at(pieces, whole.end + 1) else {
        return refuse(Fault::Unexpected(whole.end + 1), whole);
    };
    let name = match number(names, text) {
        Ok(name) => name,
        Err(fault) => return refuse(fault, whole),
    };
    member(alloc, whole, dot, place, name)
}

/// A part by its index, behind the `[`.
#[cycle(grammar)]
fn by_index(
    alloc: Global,
    pieces: &[Piece],
    names: &mut Names,
    whole: Part,
    bracket: Place,
) -> Result<Part, Fault>
    requires can { CanRead pieces.now names.old whole.end whole.node }
    requires within { whole.end + 1 ≤ length pieces.now }
    requires known { expr_needs whole.expr ≤ length names.old }
    requires bare { whole.bare ≡ is_bare (expr_shape names.old whole.expr) }
    ensures tree { ParsesOn (λ l. IndexStep l bracket) 1 (lexemes pieces.now) names.old names.new whole (whole.end + 1) result }
    ensures grows { Grows names.old names.new }
    ensures went { IfOk result (λ p. Went pieces.now names.old names.new whole.end whole.node p.end p.node) }
    ensures further { IfOk result (λ p. whole.end + 1 < p.end) }
{
    let at = match expression(alloc, pieces, names, whole.end + 1, whole.node) {
        Ok(at) => at,
        Err(fault) => return refuse(fault, whole),
    };
    if mark_at(pieces, at.end, Sign::CloseBracket).is_none() {
        return refuse(Fault::Unexpected(at.end), (whole, at));
    }
    index(alloc, whole, bracket, at)
}

/// An operand.
#[cycle(grammar)]
fn primary(
    alloc: Global,
    pieces: &[Piece],
    names: &mut Names,
    from: usize,
    node: u32,
) -> Result<Part, Fault>
    requires can { CanRead pieces.now names.old from node }
    ensures tree { Parses Primary 1 (lexemes pieces.now) names.old names.new [] from node result }
    ensures grows { Grows names.old names.new }
    ensures went { IfOk result (λ p. Went pieces.now names.old names.new from node p.end p.node) }
{
    if word_at(pieces, from).is_some() {
        return call_or_type(alloc, pieces, names, from, node);
    }
    if let Some((value, suffix, place)) = number_at(pieces, from) {
        return Ok(leaf(ExprKind::Number { value, suffix }, place, from, node));
    }
    if let Some(place) = key_at(pieces, from, Keyword::True) {
        return Ok(leaf(ExprKind::True, place, from, node));
    }
    if let Some(place) = key_at(pieces, from, Keyword::False) {
        return Ok(leaf(ExprKind::False, place, from, node));
    }
    in_parens(alloc, pieces, names, from, node)
}

/// An expression in parentheses, where no other operand begins.
#[cycle(grammar)]
fn in_parens(
    alloc: Global,
    pieces: &[Piece],
    names: &mut Names,
    from: usize,
    node: u32,
) -> Result<Part, Fault>
    requires can { CanRead pieces.now names.old from node }
    requires none { NoLeaf (lexemes pieces.now) from }
    ensures tree { Parses Primary 1 (lexemes pieces.now) names.old names.new [] from node result }
    ensures grows { Grows names.old names.new }
    ensures went { IfOk result (λ p. Went pieces.now names.old names.new from node p.end p.node) }
{
    let Some(place) = mark_at(pieces, from, Sign::Open) else {
        return Err(Fault::Unexpected(from));
    };
    let inner = expression(alloc, pieces, names, from + 1, node)?;
    if mark_at(pieces, inner.end, Sign::Close).is_none() {
        return refuse(Fault::Unexpected(inner.end), inner);
    }
    paren(alloc, place, inner)
}

/// A type, or a call of one.
#[cycle(grammar)]
fn call_or_type(
    alloc: Global,
    pieces: &[Piece],
    names: &mut Names,
    from: usize,
    node: u32,
) -> Result<Part, Fault>
    requires can { CanRead pieces.now names.old from node }
    requires word { StandsWord (lexemes pieces.now) from }
    ensures tree { Parses Primary 1 (lexemes pieces.now) names.old names.new [] from node result }
    ensures grows { Grows names.old names.new }
    ensures went { IfOk result (λ p. Went pieces.now names.old names.new from node p.end p.node) }
{
    let callee = type_name(alloc, pieces, names, from, node)?;
    if mark_at(pieces, callee.end, Sign::Open).is_none() {
        return Ok(callee);
    }
    called(alloc, pieces, names, callee)
}

/// The call that begins at a token, as `expression` reads an expression. `Unexpected` has the first token with which no call
/// goes on, `NoMemory` comes where a part of the tree or a name finds no memory.
pub fn call_only(
    alloc: Global,
    pieces: &[Piece],
    names: &mut Names,
    from: usize,
    node: u32,
) -> Result<Part, Fault>
    requires can { CanRead pieces.now names.old from node }
    ensures tree { Parses Call 1 (lexemes pieces.now) names.old names.new [] from node result }
    ensures grows { Grows names.old names.new }
    ensures went { IfOk result (λ p. Went pieces.now names.old names.new from node p.end p.node) }
{
    let callee = type_name(alloc, pieces, names, from, node)?;
    if mark_at(pieces, callee.end, Sign::Open).is_none() {
        return refuse(Fault::Unexpected(callee.end), callee);
    }
    called(alloc, pieces, names, callee)
}

/// The arguments of a call, behind the `(`.
#[cycle(grammar)]
fn called(alloc: Global, pieces: &[Piece], names: &mut Names, callee: Part) -> Result<Part, Fault>
    requires can { CanRead pieces.now names.old callee.end callee.node }
    requires within { callee.end + 1 ≤ length pieces.now }
    requires known { expr_needs callee.expr ≤ length names.old }
    requires bare { callee.bare ≡ is_bare (expr_shape names.old callee.expr) }
    ensures tree { ParsesOn Called 1 (lexemes pieces.now) names.old names.new callee (callee.end + 1) result }
    ensures grows { Grows names.old names.new }
    ensures went { IfOk result (λ p. Went pieces.now names.old names.new callee.end callee.node p.end p.node) }
    ensures further { IfOk result (λ p. callee.end + 1 < p.end) }
{
    let list = match arguments(alloc, pieces, names, callee.end + 1, callee.node) {
        Ok(list) => list,
        Err(fault) => return refuse(fault, callee),
    };
    call(alloc, callee, list)
}

/// The type that begins at a token, as `expression` reads an expression. `Unexpected` has the first token with which no type
/// goes on, `NoMemory` comes where a part of the tree or a name finds no memory.
#[cycle(grammar)]
pub fn type_name(
    alloc: Global,
    pieces: &[Piece],
    names: &mut Names,
    from: usize,
    node: u32,
) -> Result<Part, Fault>
    requires can { CanRead pieces.now names.old from node }
    ensures tree { Parses TypeName 0 (lexemes pieces.now) names.old names.new [] from node result }
    ensures grows { Grows names.old names.new }
    ensures went { IfOk result (λ p. Went pieces.now names.old names.new from node p.end p.node) }
{
    let Some((text, place)) = word_at(pieces, from) else {
        return Err(Fault::Unexpected(from));
    };
    let name = number(names, text)?;
    if mark_at(pieces, from + 1, Sign::OpenTemplate).is_none() {
        return Ok(leaf(ExprKind::Name(name), place, from, node));
    }
    let arguments = list(alloc, pieces, names, from + 2, node, Sign::CloseTemplate)?;
    Ok(template(place, name, arguments))
}

/// Arguments, which may be none, and the `)` behind them.
#[cycle(grammar)]
pub fn arguments(
    alloc: Global,
    pieces: &[Piece],
    names: &mut Names,
    from: usize,
    node: u32,
) -> Result<Listing, Fault>
    requires can { CanRead pieces.now names.old from node }
    ensures tree { ParsesList (Closed (MaybeListed Expression) (Mark sign_.Close)) 0 (lexemes pieces.now) names.old names.new from node result }
    ensures grows { Grows names.old names.new }
    ensures went { IfOk result (λ p. Went pieces.now names.old names.new from node p.end p.node) }
{
    if mark_at(pieces, from, Sign::Close).is_some() {
        return Ok(Listing {
            items: Items::new(alloc),
            trailing: false,
            end: from + 1,
            node,
        });
    }
    list(alloc, pieces, names, from, node, Sign::Close)
}

/// Expressions with commas between them, and the token that closes them.
#[cycle(grammar)]
fn list(
    alloc: Global,
    pieces: &[Piece],
    names: &mut Names,
    from: usize,
    start: u32,
    closer: Sign,
) -> Result<Listing, Fault>
    requires can { CanRead pieces.now names.old from start }
    requires closes { Closing closer }
    ensures tree { ParsesList (Closed (Listed Expression) (Mark closer)) 0 (lexemes pieces.now) names.old names.new from start result }
    ensures grows { Grows names.old names.new }
    ensures went { IfOk result (λ p. Went pieces.now names.old names.new from start p.end p.node) }
{
    let mut items = Items::new(alloc);
    let mut at = from;
    let mut node = start;
    'items: loop {
        let item = expression(alloc, pieces, names, at, node)?;
        push(&mut items, item.expr)?;
        node = item.node;
        if mark_at(pieces, item.end, closer).is_some() {
            return Ok(listing(items, false, item.end, node));
        }
        if mark_at(pieces, item.end, Sign::Comma).is_none() {
            return Err(Fault::Unexpected(item.end));
        }
        at = item.end + 1;
        if mark_at(pieces, at, closer).is_some() {
            return Ok(listing(items, true, at, node));
        }
    }
}

/// A list of which the closing token stands at a place.
fn listing(items: Items<Expr>, trailing: bool, close: usize, node: u32) -> Listing
    requires { close + 1 < 2 ^ 64 }
    ensures { result ≡ record { items = items; trailing = trailing; end = close + 1; node = node } }
{
    Listing {
        items,
        trailing,
        end: close + 1,
        node,
    }
}

/// The left side of an assignment that begins at a token, as `expression` reads an expression. `Unexpected` has the first
/// token with which no left side goes on, `NoMemory` comes where a part of the tree or a name finds no memory.
#[cycle(lefts)]
pub fn left_side(
    alloc: Global,
    pieces: &[Piece],
    names: &mut Names,
    from: usize,
    node: u32,
) -> Result<Part, Fault>
    requires can { CanRead pieces.now names.old from node }
    ensures tree { Parses LeftSide 2 (lexemes pieces.now) names.old names.new [] from node result }
    ensures grows { Grows names.old names.new }
    ensures went { IfOk result (λ p. Went pieces.now names.old names.new from node p.end p.node) }
{
    let Some((operator, place)) = left_prefix_at(pieces, from) else {
        return left_singular(alloc, pieces, names, from, node);
    };
    let operand = left_side(alloc, pieces, names, from + 1, node)?;
    prefix(alloc, operator, place, operand)
}

/// A left side with no operator before it.
#[cycle(lefts)]
fn left_singular(
    alloc: Global,
    pieces: &[Piece],
    names: &mut Names,
    from: usize,
    node: u32,
) -> Result<Part, Fault>
    requires can { CanRead pieces.now names.old from node }
    ensures tree { Parses LeftSingular 2 (lexemes pieces.now) names.old names.new [] from node result }
    ensures grows { Grows names.old names.new }
    ensures went { IfOk result (λ p. Went pieces.now names.old names.new from node p.end p.node) }
{
    let whole = left_first(alloc, pieces, names, from, node)?;
    accesses(alloc, pieces, names, whole)
}

/// A name or a left side in parentheses.
#[cycle(lefts)]
fn left_first(
    alloc: Global,
    pieces: &[Piece],
    names: &mut Names,
    from: usize,
    node: u32,
) -> Result<Part, Fault>
    requires can { CanRead pieces.now names.old from node }
    ensures tree { Parses LeftFirst 1 (lexemes pieces.now) names.old names.new [] from node result }
    ensures grows { Grows names.old names.new }
    ensures went { IfOk result (λ p. Went pieces.now names.old names.new from node p.end p.node) }
{
    if let Some((text, place)) = word_at(pieces, from) {
        let name = number(names, text)?;
        return Ok(leaf(ExprKind::Name(name), place, from, node));
    }
    let Some(place) = mark_at(pieces, from, Sign::Open) else {
        return Err(Fault::Unexpected(from));
    };
    let inner = left_side(alloc, pieces, names, from + 1, node)?;
    if mark_at(pieces, inner.end, Sign::Close).is_none() {
        return refuse(Fault::Unexpected(inner.end), inner);
    }
    paren(alloc, place, inner)
}
