//! What is true of every text.

ghost use Rattle.std.specs.Prelude.{List, ℕ};
ghost use Rattle.shade_lex.specs.declared.token.Token.{Token};
ghost use Rattle.shade_lex.specs.Templates.{HaveOneReading};
ghost use Rattle.shade_lex.specs.Tokens.{IsReadOnce};

/// A text has at most one list of tokens, at most one problem, and not both. It does nothing: its contract is the law.
pub fn texts_are_read_once()
    ensures { (text : List ℕ) → IsReadOnce text }
{}

/// The tokens of a text have one list of template lists. It does nothing: its contract is the law.
pub fn templates_are_one()
    ensures { (text : List ℕ) (tokens : List Token) → HaveOneReading text tokens }
{}
