//! The pieces that a text is read in.

ghost use Rattle.std.specs.Prelude.{◌≡◌, ◌==◌, ◌&&◌, ◌<◌, ◌≤◌, false, None, Some, length, IfOk, IfErr};
ghost use Rattle.std.specs.Char.{is_ascii_digit};
ghost use Rattle.shade_lex.specs.Characters.{starts};
ghost use Rattle.shade_lex.specs.Lexemes.{is_word, is_number, kind_of, is_reserved, problem_of};
ghost use Rattle.shade_lex.specs.Pieces.{is_for_blank, piece_count, IsPiece, IsProblem};

use crate::comment::{block_comment, is_blankspace, line_comment, starts_with_two};
use crate::lexeme::{mark_length, number_length, word_length};
use crate::number::number_kind;
use crate::token::TokenKind;

/// A blank or a token, and how many characters it has.
#[derive(Clone, Copy, Debug, PartialEq, Eq)]
pub enum Piece {
    Blank(usize),
    Token(TokenKind, usize),
}

/// Why neither a blank nor a token begins at a place.
#[derive(Clone, Copy, Debug, PartialEq, Eq)]
pub enum Problem {
    BadCharacter,
    OpenComment,
    BadNumber,
    NumberTooLarge,
    FloatLiteral,
}

/// The piece that begins at the front of a text, or why none does.
pub fn read_piece(text: &[char]) -> Result<Piece, Problem>
    requires { 0 < length text.now }
    ensures piece { IfOk result (IsPiece text.now) }
    ensures some { IfOk result (λ piece. 0 < piece_count piece) }
    ensures within { IfOk result (λ piece. piece_count piece ≤ length text.now) }
    ensures problem { IfErr result (IsProblem text.now) }
{
    if starts_with_two(text, '/', '/') {
        return Ok(Piece::Blank(line_comment(text)));
    }
    if starts_with_two(text, '/', '*') {
        return match block_comment(text) {
            Some(count) => Ok(Piece::Blank(count)),
            None => Err(Problem::OpenComment),
        };
    }
    if is_blankspace(text[0]) {
        return Ok(Piece::Blank(1));
    }
    read_token(text)
}

/// The token that begins at the front of a text where no blank does, or why none does.
fn read_token(text: &[char]) -> Result<Piece, Problem>
    requires { is_for_blank text.now ≡ false }
    ensures token { IfOk result (IsPiece text.now) }
    ensures some { IfOk result (λ piece. 0 < piece_count piece) }
    ensures within { IfOk result (λ piece. piece_count piece ≤ length text.now) }
    ensures problem { IfErr result (IsProblem text.now) }
{
    let word = word_length(text);
    let number = number_length(text);
    let count = word.max(number.max(mark_length(text)));
    if count == 0 {
        return Err(Problem::BadCharacter);
    }
    let (front, after) = text.split_at(count);
    match lexeme_kind(front, after, word == count, number == count) {
        Ok(kind) => Ok(Piece::Token(kind, count)),
        Err(problem) => Err(problem),
    }
}

/// What a lexeme is, before the rest of the text.
fn lexeme_kind(
    front: &[char],
    after: &[char],
    word: bool,
    number: bool,
) -> Result<TokenKind, Problem>
    requires word { word ≡ is_word front.now }
    requires number { number ≡ is_number front.now }
    ensures kind { IfOk result (λ kind. (problem_of front.now after.now ≡ None) × (kind ≡ kind_of front.now)) }
    ensures problem { IfErr result (λ problem. problem_of front.now after.now ≡ Some problem) }
{
    if word {
        if is_reserved(front) {
            Err(Problem::BadCharacter)
        } else {
            Ok(TokenKind::Word)
        }
    } else if number {
        number_kind(front, after)
    } else if begins_float(front, after) {
        Err(Problem::FloatLiteral)
    } else {
        Ok(TokenKind::Mark)
    }
}

/// Whether a word begins with `__`.
fn is_reserved(word: &[char]) -> bool
    ensures { result ≡ is_reserved word.now }
{
    match word {
        [first, second, ..] => *first == '_' && *second == '_',
        _ => false,
    }
}

/// Whether a `.` stands before a digit.
fn begins_float(mark: &[char], after: &[char]) -> bool
    ensures { result ≡ starts (λ c. c == 46) mark.now && starts is_ascii_digit after.now }
{
    match (mark, after) {
        ([first, ..], [next, ..]) => *first == '.' && next.is_ascii_digit(),
        _ => false,
    }
}
