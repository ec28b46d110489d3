//! The faults of a text that has no tokens.

use shade_base::Place;
use thiserror::Error;

/// Why a text has no tokens, with the first place where neither a blank nor a token begins.
#[derive(Clone, Copy, Debug, PartialEq, Eq, Error)]
pub enum LexFault {
    #[error("no token begins with this character")]
    BadCharacter(Place),
    #[error("this comment is not closed")]
    OpenComment(Place),
    #[error("a letter, a digit or `_` stands directly after this number")]
    BadNumber(Place),
    #[error("this number is too large")]
    NumberTooLarge(Place),
    #[error("this number has a fraction or an exponent")]
    FloatLiteral(Place),
    #[error("no memory")]
    NoMemory,
}
