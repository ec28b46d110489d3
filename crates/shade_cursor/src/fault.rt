//! Why tokens spell no phrase.

ghost use Rattle.std.specs.Prelude.{◌≡◌, ◌≤◌, length};
ghost use Rattle.shade_base.specs.Lines.{place_of};
ghost use Rattle.shade_cursor.specs.TokenPlaces.{fault_of, place_at as place_at_token};

use shade_base::{Place, place_at};
use shade_lex::Tokens;
use thiserror::Error;

/// Why tokens spell no phrase of a goal, with the place of a token or the end of the text.
#[derive(Clone, Copy, Debug, PartialEq, Eq, Error)]
pub enum SyntaxFault {
    #[error("no phrase goes on with this token")]
    Unexpected(Place),
    #[error("this token is nested too deep, or too many operators stand before it")]
    TooDeep(Place),
    #[error("no memory")]
    NoMemory,
}

/// Why tokens spell no phrase, with the number of a token or of their end.
#[derive(Clone, Copy, Debug, PartialEq, Eq)]
pub enum Refusal {
    Unexpected(usize),
    TooDeep(usize),
    NoMemory,
}

/// The fault that a refusal is, in a text.
pub fn fault_of(tokens: &Tokens, refusal: Refusal) -> SyntaxFault
    ensures { result ≡ fault_of tokens.now.text tokens.now.tokens refusal }
{
    match refusal {
        Refusal::Unexpected(at) => SyntaxFault::Unexpected(place_of(tokens, at)),
        Refusal::TooDeep(at) => SyntaxFault::TooDeep(place_of(tokens, at)),
        Refusal::NoMemory => SyntaxFault::NoMemory,
    }
}

/// The place of a token, or the end of the text behind the last.
fn place_of(tokens: &Tokens, at: usize) -> Place
    ensures { result ≡ place_at_token tokens.now.text tokens.now.tokens at }
{
    match tokens.as_slice().get(at) {
        Some(token) => token.place,
        None => end_of(tokens.text()),
    }
}

/// The end of a text.
fn end_of(text: &str) -> Place
    requires { length text.now ≤ 1048576 }
    ensures { result ≡ place_of text.now (length text.now) }
{
    place_at(text, text.len() as u32)
}
