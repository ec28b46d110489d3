//! Reads the tokens of a text.

ghost use Rattle.std.specs.Prelude.{◌≡◌, ◌+◌, ◌≤◌, ◌<◌, ℕ, IfOk, IsTrue, OnOk, length, drop, take};
ghost use Rattle.std.specs.Prelude.{[], ◌∷◌, ◌++◌};
ghost use Rattle.std.specs.List.{prefix_len};
ghost use Rattle.shade_first.specs.Lines.{place_of, ends_break};
ghost use Rattle.shade_first.specs.Tokens.{front_of, number_size, HasRoom, mark_front, is_blank, is_letter, is_digit, goes_on, Lexes};

use crate::token::{Kind, Mark, Token, size};
use shade_base::Place;
use shade_values::Name;
use sqlite_items::Items;
use std::alloc::{AllocError, Global};

/// What stands at the front of a text: a blank, a token, or neither, at its end or at a byte that begins no token.
#[derive(Drop)]
pub enum Front {
    Blank,
    Token(Kind),
    Nothing,
}

/// The tokens of a text, and the offset of the first byte that begins none, or the length of the text.
#[derive(Drop)]
pub struct Lexed {
    pub tokens: Items<Token>,
    pub stop: u32,
}

/// Reads tokens up to the first byte that begins none.
pub fn lex(alloc: Global, text: &[u8]) -> Result<Lexed, AllocError>
    requires { length text.now ≤ 4096 }
    ensures lexed { IfOk result (λ l. Lexes text.now 0 l.tokens l.stop) }
    ensures within { IfOk result (λ l. l.stop ≤ length text.now) }
{
    let mut tokens = Items::new(alloc);
    let mut place = Place {
        offset: 0,
        line: 1,
        column: 1,
    };
    'text: loop {
        match read_front(alloc, &text[place.offset as usize..])? {
            Front::Blank => place = past(text, place, 1),
            Front::Token(kind) => {
                let next = past(text, place, size(&kind));
                tokens.push(Token { kind, place })?;
                place = next;
            }
            Front::Nothing => {
                return Ok(Lexed {
                    tokens,
                    stop: place.offset,
                });
            }
        }
    }
}

// The place so many bytes further on.
fn past(text: &[u8], from: Place, count: usize) -> Place
    requires within { from.offset + count ≤ length text.now }
    requires small { length text.now ≤ 4096 }
    requires placed { from ≡ place_of text.now from.offset }
    ensures { result ≡ place_of text.now (from.offset + count) }
{
    let mut place = from;
    'bytes: for _ in 0..count {
        place = next(text, place);
    }
    place
}

// The place of the next byte.
fn next(text: &[u8], place: Place) -> Place
    requires within { place.offset < length text.now }
    requires small { length text.now ≤ 4096 }
    requires placed { place ≡ place_of text.now place.offset }
    ensures { result ≡ place_of text.now (place.offset + 1) }
{
    if ends_break(text, place.offset as usize) {
        Place {
            offset: place.offset + 1,
            line: place.line + 1,
            column: 1,
        }
    } else {
        Place {
            offset: place.offset + 1,
            line: place.line,
            column: place.column + 1,
        }
    }
}

// Whether a line break ends right after the byte at `last`.
fn ends_break(text: &[u8], last: usize) -> bool
    requires { last < length text.now }
    ensures { result ≡ ends_break text.now (last + 1) }
{
    match text[last] {
        10..=12 => true,
        13 => last + 1 == text.len() || text[last + 1] != 10,
        _ => false,
    }
}

// What stands at the front of a text.
fn read_front(alloc: Global, text: &[u8]) -> Result<Front, AllocError>
    ensures front { IfOk result (λ f. f ≡ front_of text.now) }
    ensures room { IfOk result (λ f. HasRoom f text.now) }
{
    let Some(first) = text.first().copied() else {
        return Ok(Front::Nothing);
    };
    if is_blank(first) {
        return Ok(Front::Blank);
    }
    if is_letter(first) {
        let end = word_size(text);
        return Ok(Front::Token(Kind::Word(spelled(alloc, &text[..end])?)));
    }
    if is_digit(first) {
        let end = number_size(text);
        return Ok(Front::Token(Kind::Number(spelled(alloc, &text[..end])?)));
    }
    Ok(mark(first))
}

fn spelled(alloc: Global, text: &[u8]) -> Result<Name, AllocError>
    ensures { IfOk result (λ n. n ≡ text.now) }
{
    Ok(Name::from_vec(Vec::from_slice(alloc, text)?))
}

fn mark(byte: u8) -> Front
    ensures { result ≡ mark_front byte }
{
    let mark = match byte {
        b'@' => Mark::At,
        b'(' => Mark::Open,
        b')' => Mark::Close,
        b'{' => Mark::OpenBrace,
        b'}' => Mark::CloseBrace,
        b':' => Mark::Colon,
        b';' => Mark::Semicolon,
        b'<' => Mark::Less,
        _ => return Front::Nothing,
    };
    Front::Token(Kind::Mark(mark))
}

// How many bytes of a word stand at the front.
fn word_size(text: &[u8]) -> usize
    ensures size { result ≡ prefix_len goes_on text.now }
    ensures within { result ≤ length text.now }
{
    text.iter().take_while(|b| goes_on(**b)).count()
}

fn digit_count(text: &[u8]) -> usize
    ensures size { result ≡ prefix_len is_digit text.now }
    ensures within { result ≤ length text.now }
{
    text.iter().take_while(|b| is_digit(**b)).count()
}

// How many bytes of a number stand at the front.
fn number_size(text: &[u8]) -> usize
    ensures size { result ≡ number_size text.now }
    ensures within { result ≤ length text.now }
{
    let digits = digit_count(text);
    if digits < text.len() && text[digits] == b'u' {
        digits + 1
    } else {
        digits
    }
}

fn is_blank(byte: u8) -> bool
    ensures { result ≡ is_blank byte }
{
    matches!(byte, 9..=13 | b' ')
}

fn is_letter(byte: u8) -> bool
    ensures { result ≡ is_letter byte }
{
    byte.is_ascii_alphabetic()
}

fn is_digit(byte: u8) -> bool
    ensures { result ≡ is_digit byte }
{
    byte.is_ascii_digit()
}

fn goes_on(byte: u8) -> bool
    ensures { result ≡ goes_on byte }
{
    is_letter(byte) || is_digit(byte) || byte == b'_'
}
