//! The names of a text.

ghost use Rattle.std.specs.Prelude.{◌≡◌, ◌<◌, ◌^◌, length, IfOk, OnOk};
ghost use Rattle.shade_ast.specs.Names.{IsDistinct};
ghost use Rattle.shade_cursor.specs.Shown.{lexeme, lexemes};
ghost use Rattle.shade_parse.specs.Tables.{names_of, with_word};

use shade_ast::{NameKey, Names};
use shade_cursor::piece::Piece;
use std::alloc::{AllocError, Global};

/// Gives the words of a text as names, each once, in the order in which they first appear. Takes memory for each of them.
pub fn names_of(alloc: Global, pieces: &[Piece], key: NameKey) -> Result<Names, AllocError>
    requires { length pieces.now < 2 ^ 32 }
    ensures { IfOk result (λ names. names ≡ names_of (lexemes pieces.now)) }
{
    let mut names = Names::new(alloc, key);
    for piece in pieces {
        add_word(&mut names, piece)?;
    }
    Ok(names)
}

/// Adds the word that a token is, if it is one and new.
fn add_word(names: &mut Names, piece: &Piece) -> Result<(), AllocError>
    requires { length names.old < 2 ^ 32 }
    ensures { OnOk result (names.new ≡ with_word names.old (lexeme piece.now)) }
{
    if let Piece::Word(text, _) = *piece {
        names.number(text)?;
    }
    Ok(())
}

/// Tells that no text has two numbers. It looks at the first name alone, since a table is so as long as it lives.
pub fn are_distinct(names: &Names)
    ensures { IsDistinct names.now }
{
    if names.len() > 0 {
        let _first = names.text(0);
    }
}
