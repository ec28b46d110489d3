//! Tokens that decide what a statement is.

ghost use Rattle.std.specs.Prelude.{◌≡◌, ◌<◌, ◌≤◌, ◌+◌, ◌↔◌, ℕ, List, length, slice_get, Some, IsTrue, OnSome, MatchOption};
ghost use Rattle.shade_base.specs.declared.place.Place.{Place as PlaceOf};
ghost use Rattle.shade_ast.specs.Lexemes.{Key, Mark};
ghost use Rattle.shade_cursor.specs.Operators.{found};
ghost use Rattle.shade_cursor.specs.Shown.{lexemes};
ghost use Rattle.shade_parse_stmt.specs.Trees.{jump_by, jump_of, kind_of, holds, closing_sign, closing_keyword, is_closing, selected_sign, is_selected};
ghost use Rattle.shade_parse_stmt.specs.Trees.{compound_sign, compound_keyword, is_compound, clause_keyword, is_clause};

use shade_ast::{Keyword, Sign, StmtKind};
use shade_base::Place;
use shade_cursor::piece::{Piece, key_at, keyword_at, mark_at};

/// Whether a mark stands there.
pub fn is_mark(pieces: &[Piece], at: usize, sign: Sign) -> bool
    ensures value { IsTrue result ↔ ((p : PlaceOf) × (slice_get (lexemes pieces.now) at ≡ Some (Mark sign p))) }
    ensures within { IsTrue result → at < length pieces.now }
{
    let Some(_place) = mark_at(pieces, at, sign) else {
        return false;
    };
    true
}

/// Whether the mark may follow the statements of a block.
fn closing_sign(sign: Sign) -> bool
    ensures { result ≡ closing_sign sign }
{
    match sign {
        Sign::CloseBrace => true,
        _ => false,
    }
}

/// Whether the keyword may follow the statements of a `loop`.
fn closing_keyword(keyword: Keyword) -> bool
    ensures { result ≡ closing_keyword keyword }
{
    match keyword {
        Keyword::Continuing => true,
        _ => false,
    }
}

/// Whether what stands there may follow the statements of a block or of a `loop`.
pub fn closes(pieces: &[Piece], at: usize) -> bool
    ensures value { result ≡ holds is_closing (slice_get (lexemes pieces.now) at) }
{
    match pieces.get(at) {
        Some(Piece::Mark(sign, _)) => closing_sign(*sign),
        Some(Piece::Key(keyword, _)) => closing_keyword(*keyword),
        _ => false,
    }
}

/// Whether the mark may follow the selectors of a `case`.
fn selected_sign(sign: Sign) -> bool
    ensures { result ≡ selected_sign sign }
{
    match sign {
        Sign::Colon => true,
        Sign::At => true,
        Sign::OpenBrace => true,
        _ => false,
    }
}

/// Whether what stands there may follow the selectors of a `case`.
pub fn ends_selectors(pieces: &[Piece], at: usize) -> bool
    ensures value { result ≡ holds is_selected (slice_get (lexemes pieces.now) at) }
{
    match pieces.get(at) {
        Some(Piece::Mark(sign, _)) => selected_sign(*sign),
        _ => false,
    }
}

/// Whether a statement which attributes may stand before may begin with the mark.
fn compound_sign(sign: Sign) -> bool
    ensures { result ≡ compound_sign sign }
{
    match sign {
        Sign::At => true,
        Sign::OpenBrace => true,
        _ => false,
    }
}

/// Whether a statement which attributes may stand before may begin with the keyword.
fn compound_keyword(keyword: Keyword) -> bool
    ensures { result ≡ compound_keyword keyword }
{
    match keyword {
        Keyword::If => true,
        Keyword::Switch => true,
        Keyword::Loop => true,
        Keyword::For => true,
        Keyword::While => true,
        _ => false,
    }
}

/// Whether a statement which attributes may stand before may begin there.
pub fn begins_compound(pieces: &[Piece], at: usize) -> bool
    ensures value { result ≡ holds is_compound (slice_get (lexemes pieces.now) at) }
{
    match pieces.get(at) {
        Some(Piece::Mark(sign, _)) => compound_sign(*sign),
        Some(Piece::Key(keyword, _)) => compound_keyword(*keyword),
        _ => false,
    }
}

/// Whether a clause may begin with the keyword.
fn clause_keyword(keyword: Keyword) -> bool
    ensures { result ≡ clause_keyword keyword }
{
    match keyword {
        Keyword::Case => true,
        Keyword::Default => true,
        _ => false,
    }
}

/// Whether a clause may begin there.
pub fn begins_clause(pieces: &[Piece], at: usize) -> bool
    ensures value { result ≡ holds is_clause (slice_get (lexemes pieces.now) at) }
{
    match pieces.get(at) {
        Some(Piece::Key(keyword, _)) => clause_keyword(*keyword),
        _ => false,
    }
}

/// A statement of one keyword.
#[derive(Clone, Copy, Debug, PartialEq, Eq)]
pub enum Jump {
    Break,
    Continue,
    Discard,
}

/// The statement that is this keyword alone, if one is.
fn jump_by(keyword: Keyword) -> Option<Jump>
    ensures { result ≡ jump_by keyword }
{
    match keyword {
        Keyword::Break => Some(Jump::Break),
        Keyword::Continue => Some(Jump::Continue),
        Keyword::Discard => Some(Jump::Discard),
        _ => None,
    }
}

/// The statement of one keyword that stands there, and its place.
pub fn jump_at(pieces: &[Piece], at: usize) -> Option<(Jump, Place)>
    ensures value { result ≡ found jump_of (slice_get (lexemes pieces.now) at) }
    ensures within { OnSome result (at < length pieces.now) }
{
    let (keyword, place) = keyword_at(pieces, at)?;
    let jump = jump_by(keyword)?;
    Some((jump, place))
}

/// What such a statement is.
pub fn jump_kind(jump: Jump) -> StmtKind
    ensures { result ≡ kind_of jump }
{
    match jump {
        Jump::Break => StmtKind::Break,
        Jump::Continue => StmtKind::Continue,
        Jump::Discard => StmtKind::Discard,
    }
}

/// The places of `break` and `if`, if both stand there.
pub fn break_if_at(pieces: &[Piece], at: usize) -> Option<(Place, Place)>
    requires { at ≤ length pieces.now }
    ensures value { MatchOption result
        ((p q : PlaceOf) → slice_get (lexemes pieces.now) at ≡ Some (Key Keyword.Break p) → ¬ (slice_get (lexemes pieces.now) (at + 1) ≡ Some (Key Keyword.If q)))
        (λ k. (slice_get (lexemes pieces.now) at ≡ Some (Key Keyword.Break k.0)) × (slice_get (lexemes pieces.now) (at + 1) ≡ Some (Key Keyword.If k.1))) }
    ensures within { OnSome result (at + 1 < length pieces.now) }
{
    let break_keyword = key_at(pieces, at, Keyword::Break)?;
    let if_keyword = key_at(pieces, at + 1, Keyword::If)?;
    Some((break_keyword, if_keyword))
}
