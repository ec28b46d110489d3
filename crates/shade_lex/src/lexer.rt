//! The tokens of a text, piece by piece.

ghost use Rattle.std.specs.Prelude.{◌≡◌, ℕ, ◌+◌, ◌++◌, ◌<◌, ◌≤◌, ◌^◌, chars, length, IfOk, IfErr, OnOk};
ghost use Rattle.shade_lex.specs.Pieces.{piece_count};
ghost use Rattle.shade_lex.specs.Tokens.{width, token_of, fault_at, AreTokens, IsFaultOf};

use crate::fault::LexFault;
use crate::piece::{Piece, Problem, read_piece};
use crate::token::Token;
use shade_base::{Place, place_after};
use std::alloc::{AllocError, Global};
use std::marker::Model;

/// A text of at most 1,048,576 bytes and its tokens in order.
#[derive(Debug, Drop)]
pub struct Tokens {
    text: String,
    items: Vec<Token>,
}

impl Model for Tokens {
    ghost use Rattle.std.specs.Prelude.{string_bytes};
    ghost use Rattle.shade_lex.specs.Tokens.{IsLexed, LexedText};

    ghost Value = { LexedText };

    ghost view = { λ t. record { text = string_bytes t.text; tokens = t.items.items } };

    ghost invariant = { λ t. IsLexed (string_bytes t.text) t.items.items };
}

impl Tokens {
    /// The text. Takes no memory.
    pub fn text(&self) -> &str
        ensures text { result.now ≡ self.now.text }
        ensures tokens { AreTokens self.now.text self.now.tokens }
        ensures small { length self.now.text ≤ 1048576 }
    {
        self.text.as_str()
    }

    /// The tokens in order. Takes no memory.
    pub fn as_slice(&self) -> &[Token]
        ensures items { result.now ≡ self.now.tokens }
        ensures tokens { AreTokens self.now.text self.now.tokens }
    {
        self.items.as_slice()
    }
}

/// The tokens of a text, or the fault at the first place where neither a blank nor a token begins.
///
/// Takes time in the order of the text's bytes, and memory for its characters and tokens; without that memory the
/// fault is `NoMemory`.
pub fn lex(alloc: Global, text: &str) -> Result<Tokens, LexFault>
    requires { length text.now ≤ 1048576 }
    ensures text { IfOk result (λ lexed. lexed.text ≡ text.now) }
    ensures tokens { IfOk result (λ lexed. AreTokens text.now lexed.tokens) }
    ensures fault { IfErr result (IsFaultOf text.now) }
{
    let Ok(characters) = characters_of(alloc, text) else {
        return Err(LexFault::NoMemory);
    };
    let mut items = Vec::new(alloc);
    let mut at = 0;
    let mut place = Place {
        offset: 0,
        line: 1,
        column: 1,
    };
    'pieces: while at < characters.len() {
        let rest = &characters[at..];
        let piece = match read_piece(rest) {
            Ok(piece) => piece,
            Err(problem) => return Err(fault_at(problem, place)),
        };
        let count = count_of(piece);
        let bytes = width_of(&rest[..count]);
        add_token(&mut items, piece, place, bytes as u32)?;
        place = place_after(text, place, place.offset + bytes as u32);
        at += count;
    }
    match String::from_str(alloc, text) {
        Ok(text) => Ok(Tokens { text, items }),
        Err(_) => Err(LexFault::NoMemory),
    }
}

fn characters_of(alloc: Global, text: &str) -> Result<Vec<char>, AllocError>
    ensures { IfOk result (λ characters. characters.items ≡ chars text.now) }
{
    text.chars().collect(alloc)
}

/// How many characters a piece has.
fn count_of(piece: Piece) -> usize
    ensures { result ≡ piece_count piece }
{
    match piece {
        Piece::Blank(count) => count,
        Piece::Token(_, count) => count,
    }
}

/// How many bytes characters have.
fn width_of(characters: &[char]) -> usize
    requires { width characters.now < 2 ^ 32 }
    ensures { result ≡ width characters.now }
{
    let mut bytes = 0;
    for c in characters {
        bytes += c.len_utf8();
    }
    bytes
}

/// Adds the token that a piece is, and nothing for a blank.
fn add_token(
    items: &mut Vec<Token>,
    piece: Piece,
    place: Place,
    length: u32,
) -> Result<(), LexFault>
    ensures ok { OnOk result (items.new.items ≡ items.old.items ++ token_of piece place length) }
    ensures err { IfErr result (λ fault. fault ≡ LexFault.NoMemory) }
{
    if let Piece::Token(kind, _) = piece {
        let token = Token {
            kind,
            place,
            length,
        };
        items.push(token).map_err(|_| LexFault::NoMemory)?;
    }
    Ok(())
}

fn fault_at(problem: Problem, place: Place) -> LexFault
    ensures { result ≡ fault_at problem place }
{
    match problem {
        Problem::BadCharacter => LexFault::BadCharacter(place),
        Problem::OpenComment => LexFault::OpenComment(place),
        Problem::BadNumber => LexFault::BadNumber(place),
        Problem::NumberTooLarge => LexFault::NumberTooLarge(place),
        Problem::FloatLiteral => LexFault::FloatLiteral(place),
    }
}
