//! Tokens of the first form.

ghost use Rattle.std.specs.Prelude.{◌≡◌};
ghost use Rattle.shade_first.specs.Tokens.{size_of};

use shade_base::Place;
use shade_values::Name;

/// A mark.
#[derive(Clone, Copy, PartialEq, Eq)]
pub enum Mark {
    At,
    Open,
    Close,
    OpenBrace,
    CloseBrace,
    Colon,
    Semicolon,
    Less,
}

/// What a token is: a word or a number, as it is written, or a mark.
#[derive(Drop)]
pub enum Kind {
    Word(Name),
    Number(Name),
    Mark(Mark),
}

/// A token, and the place where it begins.
#[derive(Drop)]
pub struct Token {
    pub kind: Kind,
    pub place: Place,
}

// How many bytes a token of this kind has.
pub fn size(kind: &Kind) -> usize
    ensures { result ≡ size_of kind.now }
{
    match kind {
        Kind::Word(text) | Kind::Number(text) => text.len(),
        Kind::Mark(_) => 1,
    }
}
