//! What is true of all tokens.

ghost use Rattle.std.specs.Prelude.{List};
ghost use Rattle.shade_ast.specs.Lexemes.{Lexeme};
ghost use Rattle.shade_parse.specs.Once.{IsParsedOnce};

/// The tokens of a text spell at most one tree, but for its numbers and with one list of names, or are refused at one place for one
/// reason; never two of these. It does nothing: its contract is the law.
pub fn tokens_are_parsed_once()
    ensures { (tokens : List Lexeme) → IsParsedOnce tokens }
{}
