//! What assigns, and what begins a call, where it stands.

ghost use Rattle.std.specs.Prelude.{◌≡◌, ◌+◌, ◌<◌, ◌≤◌, ◌↔◌, [], length, slice_get, IfOk, IsTrue, MatchOption, MatchResult, OnSome};
ghost use Rattle.shade_ast.specs.Lexemes.{Adjacent, Mark};
ghost use Rattle.shade_ast.specs.Reads.{Reads};
ghost use Rattle.shade_parse_simple.specs.Updates.{assigns_by, assigns_of, Assigning, BeginsCall};
ghost use Rattle.shade_cursor.specs.Operators.{found, Behind};
ghost use Rattle.shade_parse_expr.specs.Parts.{Faults};
ghost use Rattle.shade_cursor.specs.Shown.{lexemes};

use shade_ast::{OpAssign, Sign};
use shade_base::Place;
use shade_cursor::part::Fault;
use shade_cursor::piece::{Piece, is_behind, mark_at, sign_at, word_at};

/// Whether a name stands there with a `(` or a template list behind it.
pub fn begins_call(pieces: &[Piece], at: usize) -> bool
    requires { at ≤ length pieces.now }
    ensures { IsTrue result ↔ BeginsCall (lexemes pieces.now) at }
{
    if word_at(pieces, at).is_none() {
        return false;
    }
    if mark_at(pieces, at + 1, Sign::Open).is_some() {
        return true;
    }
    mark_at(pieces, at + 1, Sign::OpenTemplate).is_some()
}

/// What assigns by one mark, if it does: `=` has no operator.
fn assigns_by(sign: Sign) -> Option<Option<OpAssign>>
    ensures { result ≡ assigns_by sign }
{
    match sign {
        Sign::Equal => Some(None),
        Sign::PlusEqual => Some(Some(OpAssign::Add)),
        Sign::MinusEqual => Some(Some(OpAssign::Subtract)),
        Sign::StarEqual => Some(Some(OpAssign::Multiply)),
        Sign::SlashEqual => Some(Some(OpAssign::Divide)),
        Sign::PercentEqual => Some(Some(OpAssign::Remainder)),
        Sign::AmpersandEqual => Some(Some(OpAssign::BitAnd)),
        Sign::BarEqual => Some(Some(OpAssign::BitOr)),
        Sign::CaretEqual => Some(Some(OpAssign::BitXor)),
        Sign::ShiftLeftEqual => Some(Some(OpAssign::ShiftLeft)),
        _ => None,
    }
}

/// A `=`, or an operator of one token that assigns, if one stands there.
fn assigns_at(pieces: &[Piece], at: usize) -> Option<(Option<OpAssign>, Place)>
    ensures value { result ≡ found assigns_of (slice_get (lexemes pieces.now) at) }
    ensures within { OnSome result (at < length pieces.now) }
{
    let (sign, place) = sign_at(pieces, at)?;
    let operator = assigns_by(sign)?;
    Some((operator, place))
}

/// The place of a mark, if it stands there directly behind a mark of one byte.
fn mark_behind(pieces: &[Piece], at: usize, sign: Sign, first: Place) -> Option<Place>
    ensures value { MatchOption result (¬ (Behind (lexemes pieces.now) at sign first)) (λ p. (slice_get (lexemes pieces.now) at ≡ Some (Mark sign p)) × Adjacent first p) }
    ensures within { OnSome result (at < length pieces.now) }
{
    let place = mark_at(pieces, at, sign)?;
    if !is_behind(pieces, at, sign, first) {
        return None;
    }
    Some(place)
}

/// A `=` or an operator that assigns, with its place and the number of the token behind it. `Unexpected` has the first token
/// with which none goes on.
pub fn assigning(pieces: &[Piece], from: usize) -> Result<(Option<OpAssign>, Place, usize), Fault>
    requires within { from ≤ length pieces.now }
    ensures sign { MatchResult result (λ r. Reads Assigning 0 (lexemes pieces.now) from (r.0, r.1) r.2)
        (λ f. Faults Assigning 0 (lexemes pieces.now) [] [] from f) }
    ensures further { IfOk result (λ r. from < r.2) }
    ensures within { IfOk result (λ r. r.2 ≤ length pieces.now) }
{
    if let Some((operator, place)) = assigns_at(pieces, from) {
        return Ok((operator, place, from + 1));
    }
    let Some(first) = mark_at(pieces, from, Sign::Greater) else {
        return Err(Fault::Unexpected(from));
    };
    let Some(second) = mark_behind(pieces, from + 1, Sign::Greater, first) else {
        return Err(Fault::Unexpected(from + 1));
    };
    let Some(_) = mark_behind(pieces, from + 2, Sign::Equal, second) else {
        return Err(Fault::Unexpected(from + 2));
    };
    Ok((Some(OpAssign::ShiftRight), first, from + 3))
}
