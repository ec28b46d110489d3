//! The tokens of a text, and the template lists among them.
#![tactic(auto)]

mod candidate;
mod comment;
mod fault;
pub mod law;
mod lexeme;
mod lexer;
mod number;
mod piece;
mod role;
mod scan;
mod template;
mod token;

pub use fault::LexFault;
pub use lexer::{Tokens, lex};
pub use piece::Problem;
pub use template::{TemplatePairs, templates};
pub use token::{Suffix, Token, TokenKind};
