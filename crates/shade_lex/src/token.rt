//! Tokens.

use shade_base::Place;

/// What the `i` or `u` after a number says.
#[derive(Clone, Copy, Debug, PartialEq, Eq)]
pub enum Suffix {
    Plain,
    Signed,
    Unsigned,
}

/// What a token is. Keywords are words.
#[derive(Clone, Copy, Debug, PartialEq, Eq)]
pub enum TokenKind {
    Word,
    Number { value: u64, suffix: Suffix },
    Mark,
}

/// A token: what it is, where it begins and how many bytes it has.
#[derive(Clone, Copy, Debug, PartialEq, Eq)]
pub struct Token {
    pub kind: TokenKind,
    pub place: Place,
    pub length: u32,
}
