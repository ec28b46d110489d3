//! What is true of all tokens.

ghost use Rattle.std.specs.Prelude.{List, ℕ};
ghost use Rattle.shade_ast.specs.Lexemes.{Lexeme};
ghost use Rattle.shade_parse_expr.specs.declared.goal.Goal.{Goal as GoalOf};
ghost use Rattle.shade_parse_expr.specs.Once.{IsAnsweredOnce};

/// From a token on there is one phrase of a goal, but for the numbers of names and nodes, or one place and reason why there
/// is none. It does nothing: its contract is the law.
pub fn tokens_are_answered_once()
    ensures { (goal : GoalOf) (tokens : List Lexeme) (from : ℕ) → IsAnsweredOnce goal tokens from }
{}
