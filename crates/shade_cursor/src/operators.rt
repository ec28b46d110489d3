//! Operators, where they stand.

ghost use Rattle.std.specs.Prelude.{◌≡◌, ◌<◌, ◌≤◌, ◌↔◌, IfSome, OnSome, ℕ, length, slice_get, MatchOption, IsTrue};
ghost use Rattle.shade_base.specs.declared.place.Place.{Place as PlaceOf};
ghost use Rattle.shade_ast.specs.declared.expr.Infix.{Infix as InfixOf};
ghost use Rattle.shade_cursor.specs.Shown.{lexemes};
ghost use Rattle.shade_cursor.specs.Operators.{found, factor_by, factor_of, term_by, term_of, relation_by, relation_of, prefix_by, prefix_of};
ghost use Rattle.shade_cursor.specs.Operators.{left_prefix_by, left_prefix_of, ShiftAt, ComparisonAt, joint_by, joint_of, joint_sign, joint_infix};
ghost use Rattle.shade_cursor.specs.Operators.{Joins};

use crate::piece::{Piece, is_behind, mark_at, sign_at};
use shade_ast::{Infix, Prefix, Sign};
use shade_base::Place;

/// An operator that joins comparisons or operands, and mixes with no other.
#[derive(Clone, Copy, Debug, PartialEq, Eq)]
pub enum Joint {
    Or,
    And,
    BitAnd,
    BitOr,
    BitXor,
}

pub fn sign_of(joint: Joint) -> Sign
    ensures { result ≡ joint_sign joint }
{
    match joint {
        Joint::Or => Sign::OrOr,
        Joint::And => Sign::AndAnd,
        Joint::BitAnd => Sign::Ampersand,
        Joint::BitOr => Sign::Bar,
        Joint::BitXor => Sign::Caret,
    }
}

pub fn infix_of(joint: Joint) -> Infix
    ensures { result ≡ joint_infix joint }
{
    match joint {
        Joint::Or => Infix::Or,
        Joint::And => Infix::And,
        Joint::BitAnd => Infix::BitAnd,
        Joint::BitOr => Infix::BitOr,
        Joint::BitXor => Infix::BitXor,
    }
}

/// The operator of a product that a mark is, if it is one.
fn factor_by(sign: Sign) -> Option<Infix>
    ensures { result ≡ factor_by sign }
{
    match sign {
        Sign::Star => Some(Infix::Multiply),
        Sign::Slash => Some(Infix::Divide),
        Sign::Percent => Some(Infix::Remainder),
        _ => None,
    }
}

/// The operator of a product, if one stands there.
pub fn factor_at(pieces: &[Piece], at: usize) -> Option<(Infix, Place)>
    ensures value { result ≡ found factor_of (slice_get (lexemes pieces.now) at) }
    ensures within { OnSome result (at < length pieces.now) }
{
    let (sign, place) = sign_at(pieces, at)?;
    let factor = factor_by(sign)?;
    Some((factor, place))
}

/// The operator of a sum that a mark is, if it is one.
fn term_by(sign: Sign) -> Option<Infix>
    ensures { result ≡ term_by sign }
{
    match sign {
        Sign::Plus => Some(Infix::Add),
        Sign::Minus => Some(Infix::Subtract),
        _ => None,
    }
}

/// The operator of a sum, if one stands there.
pub fn term_at(pieces: &[Piece], at: usize) -> Option<(Infix, Place)>
    ensures value { result ≡ found term_of (slice_get (lexemes pieces.now) at) }
    ensures within { OnSome result (at < length pieces.now) }
{
    let (sign, place) = sign_at(pieces, at)?;
    let term = term_by(sign)?;
    Some((term, place))
}

/// The operator before an operand that a mark is, if it is one.
fn prefix_by(sign: Sign) -> Option<Prefix>
    ensures { result ≡ prefix_by sign }
{
    match sign {
        Sign::Minus => Some(Prefix::Negate),
        Sign::Bang => Some(Prefix::Not),
        Sign::Tilde => Some(Prefix::Complement),
        Sign::Star => Some(Prefix::Deref),
        Sign::Ampersand => Some(Prefix::AddressOf),
        _ => None,
    }
}

/// The operator before an operand, if one stands there.
pub fn prefix_at(pieces: &[Piece], at: usize) -> Option<(Prefix, Place)>
    ensures value { result ≡ found prefix_of (slice_get (lexemes pieces.now) at) }
    ensures within { OnSome result (at < length pieces.now) }
{
    let (sign, place) = sign_at(pieces, at)?;
    let prefix = prefix_by(sign)?;
    Some((prefix, place))
}

/// The operator before a left side that a mark is, if it is one.
fn left_prefix_by(sign: Sign) -> Option<Prefix>
    ensures { result ≡ left_prefix_by sign }
{
    match sign {
        Sign::Star => Some(Prefix::Deref),
        Sign::Ampersand => Some(Prefix::AddressOf),
        _ => None,
    }
}

/// The operator before a left side, if one stands there.
pub fn left_prefix_at(pieces: &[Piece], at: usize) -> Option<(Prefix, Place)>
    ensures value { result ≡ found left_prefix_of (slice_get (lexemes pieces.now) at) }
    ensures within { OnSome result (at < length pieces.now) }
{
    let (sign, place) = sign_at(pieces, at)?;
    let left_prefix = left_prefix_by(sign)?;
    Some((left_prefix, place))
}

/// The operator of a comparison that a mark begins, if it begins one.
fn relation_by(sign: Sign) -> Option<Infix>
    ensures { result ≡ relation_by sign }
{
    match sign {
        Sign::Less => Some(Infix::Less),
        Sign::Greater => Some(Infix::Greater),
        Sign::LessEqual => Some(Infix::LessEqual),
        Sign::EqualEqual => Some(Infix::Equal),
        Sign::NotEqual => Some(Infix::NotEqual),
        _ => None,
    }
}

/// The first token of a comparison's operator, if one stands there.
fn relation_at(pieces: &[Piece], at: usize) -> Option<(Infix, Place)>
    ensures value { result ≡ found relation_of (slice_get (lexemes pieces.now) at) }
    ensures within { OnSome result (at < length pieces.now) }
{
    let (sign, place) = sign_at(pieces, at)?;
    let relation = relation_by(sign)?;
    Some((relation, place))
}

/// The operator of a comparison and the place behind it, if one stands there.
pub fn comparison_at(pieces: &[Piece], at: usize) -> Option<(Infix, Place, usize)>
    ensures value { MatchOption result (found relation_of (slice_get (lexemes pieces.now) at) ≡ None)
        (λ o. ComparisonAt (lexemes pieces.now) at o.0 o.1 o.2) }
    ensures within { IfSome result (λ o. o.2 ≤ length pieces.now) }
    ensures further { IfSome result (λ o. at < o.2) }
{
    let (operator, place) = relation_at(pieces, at)?;
    if operator != Infix::Greater {
        return Some((operator, place, at + 1));
    }
    if !is_behind(pieces, at + 1, Sign::Equal, place) {
        return Some((operator, place, at + 1));
    }
    Some((Infix::GreaterEqual, place, at + 2))
}

/// The operator of a shift of a single operand and the place behind it, if one stands there.
pub fn shift_at(pieces: &[Piece], at: usize, bare: bool) -> Option<(Infix, Place, usize)>
    ensures value { MatchOption result ((i : InfixOf) (p : PlaceOf) (next : ℕ) → ¬ (ShiftAt (lexemes pieces.now) at bare i p next))
        (λ o. ShiftAt (lexemes pieces.now) at bare o.0 o.1 o.2) }
    ensures within { IfSome result (λ o. o.2 ≤ length pieces.now) }
    ensures further { IfSome result (λ o. at < o.2) }
{
    if !bare {
        return None;
    }
    if let Some(place) = mark_at(pieces, at, Sign::ShiftLeft) {
        return Some((Infix::ShiftLeft, place, at + 1));
    }
    let place = mark_at(pieces, at, Sign::Greater)?;
    if !is_behind(pieces, at + 1, Sign::Greater, place) {
        return None;
    }
    Some((Infix::ShiftRight, place, at + 2))
}

/// The operator that joins what stands before it that a mark is, if it is one.
fn joint_by(sign: Sign) -> Option<Joint>
    ensures { result ≡ joint_by sign }
{
    match sign {
        Sign::OrOr => Some(Joint::Or),
        Sign::AndAnd => Some(Joint::And),
        Sign::Ampersand => Some(Joint::BitAnd),
        Sign::Bar => Some(Joint::BitOr),
        Sign::Caret => Some(Joint::BitXor),
        _ => None,
    }
}

/// The operator that joins what stands before it, if one stands there.
pub fn joint_at(pieces: &[Piece], at: usize) -> Option<(Joint, Place)>
    ensures value { result ≡ found joint_of (slice_get (lexemes pieces.now) at) }
    ensures within { OnSome result (at < length pieces.now) }
{
    let (sign, place) = sign_at(pieces, at)?;
    let joint = joint_by(sign)?;
    Some((joint, place))
}

/// Whether an operator joins what stands before it; operators on bits join only single operands.
pub fn joins(joint: Joint, bare: bool) -> bool
    ensures { IsTrue result ↔ Joins joint bare }
{
    match joint {
        Joint::Or | Joint::And => true,
        Joint::BitAnd | Joint::BitOr | Joint::BitXor => bare,
    }
}
