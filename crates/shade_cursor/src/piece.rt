//! What the parser sees of tokens.

ghost use Rattle.std.specs.Prelude.{◌≡◌, ◌<◌, ◌↔◌, ℕ, List, length, slice_get, MatchOption, OnSome, IsTrue};
ghost use Rattle.shade_base.specs.declared.place.Place.{Place as PlaceOf};
ghost use Rattle.shade_lex.specs.declared.token.Suffix.{Suffix as SuffixOf};
ghost use Rattle.shade_ast.specs.Lexemes.{Word, Key, Number, Mark, Adjacent};
ghost use Rattle.shade_cursor.specs.Operators.{found, key_of, mark_of};
ghost use Rattle.shade_cursor.specs.Shown.{lexemes};

use shade_ast::{Keyword, Sign};
use shade_base::Place;
use shade_lex::Suffix;

/// A token: a name with its text, a keyword, a number or a mark, with its place.
#[derive(Clone, Copy)]
pub enum Piece<'a> {
    Word(&'a str, Place),
    Key(Keyword, Place),
    Number(u64, Suffix, Place),
    Mark(Sign, Place),
    /// What no text has.
    Stray(Place),
}

/// The name at a place, if one stands there.
pub fn word_at<'a>(pieces: &[Piece<'a>], at: usize) -> Option<(&'a str, Place)>
    ensures value { MatchOption result ((t : List ℕ) (p : PlaceOf) → ¬ (slice_get (lexemes pieces.now) at ≡ Some (Word t p)))
        (λ w. slice_get (lexemes pieces.now) at ≡ Some (Word w.0.now w.1)) }
    ensures within { OnSome result (at < length pieces.now) }
{
    match pieces.get(at) {
        Some(Piece::Word(text, place)) => Some((*text, *place)),
        _ => None,
    }
}

/// The number at a place, if one stands there.
pub fn number_at(pieces: &[Piece], at: usize) -> Option<(u64, Suffix, Place)>
    ensures value { MatchOption result ((v : ℕ) (s : SuffixOf) (p : PlaceOf) → ¬ (slice_get (lexemes pieces.now) at ≡ Some (Number v s p)))
        (λ n. slice_get (lexemes pieces.now) at ≡ Some (Number n.0 n.1 n.2)) }
    ensures within { OnSome result (at < length pieces.now) }
{
    match pieces.get(at) {
        Some(Piece::Number(value, suffix, place)) => Some((*value, *suffix, *place)),
        _ => None,
    }
}

/// The keyword at a place, if one stands there.
pub fn keyword_at(pieces: &[Piece], at: usize) -> Option<(Keyword, Place)>
    ensures value { result ≡ found key_of (slice_get (lexemes pieces.now) at) }
    ensures within { OnSome result (at < length pieces.now) }
{
    match pieces.get(at) {
        Some(Piece::Key(found, place)) => Some((*found, *place)),
        _ => None,
    }
}

/// The place of a keyword, if it stands there.
pub fn key_at(pieces: &[Piece], at: usize, keyword: Keyword) -> Option<Place>
    ensures value { MatchOption result ((p : PlaceOf) → ¬ (slice_get (lexemes pieces.now) at ≡ Some (Key keyword p)))
        (λ p. slice_get (lexemes pieces.now) at ≡ Some (Key keyword p)) }
    ensures within { OnSome result (at < length pieces.now) }
{
    let (found, place) = keyword_at(pieces, at)?;
    if found == keyword {
        return Some(place);
    }
    None
}

/// The mark at a place, if one stands there.
pub fn sign_at(pieces: &[Piece], at: usize) -> Option<(Sign, Place)>
    ensures value { result ≡ found mark_of (slice_get (lexemes pieces.now) at) }
    ensures within { OnSome result (at < length pieces.now) }
{
    match pieces.get(at) {
        Some(Piece::Mark(found, place)) => Some((*found, *place)),
        _ => None,
    }
}

/// The place of a mark, if it stands there.
pub fn mark_at(pieces: &[Piece], at: usize, sign: Sign) -> Option<Place>
    ensures value { MatchOption result ((p : PlaceOf) → ¬ (slice_get (lexemes pieces.now) at ≡ Some (Mark sign p)))
        (λ p. slice_get (lexemes pieces.now) at ≡ Some (Mark sign p)) }
    ensures within { OnSome result (at < length pieces.now) }
{
    let (found, place) = sign_at(pieces, at)?;
    if found == sign {
        return Some(place);
    }
    None
}

/// Whether a mark stands there, directly behind a mark of one byte.
pub fn is_behind(pieces: &[Piece], at: usize, sign: Sign, first: Place) -> bool
    ensures value { IsTrue result ↔ ((p : PlaceOf) × (slice_get (lexemes pieces.now) at ≡ Some (Mark sign p)) × Adjacent first p) }
    ensures within { IsTrue result → at < length pieces.now }
{
    let Some(second) = mark_at(pieces, at, sign) else {
        return false;
    };
    second.offset as u64 == first.offset as u64 + 1
}
