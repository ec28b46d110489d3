//! Expressions, types, left sides and calls among the tokens of a text.

ghost use Rattle.std.specs.Prelude.{◌+◌, ◌*◌, ◌-◌, ◌<◌, ◌≤◌, ◌^◌, length, MatchResult};
ghost use Rattle.shade_ast.specs.Lexemes.{lexemes};
ghost use Rattle.shade_ast.specs.Names.{Grows};
ghost use Rattle.shade_parse_expr.specs.Answers.{IsFault, IsPhrase};

use crate::goal::{Goal, phrase};
use shade_ast::{Expr, Names};
use shade_cursor::fault::{SyntaxFault, fault_of};
use shade_cursor::pieces::pieces_of;
use shade_lex::{TemplatePairs, Tokens};
use std::alloc::Global;

/// The phrase of a goal that the tokens from `from` on spell, up to the first token that goes on with no phrase; then the
/// number of that token, and the next number of a node. The nodes are numbered from `node` on in postorder.
///
/// `Unexpected` tells that token, or the end of the text, where the tokens before it spell no phrase. Where a token before
/// it passes the expression depth or the chain, counted from `from`, `TooDeep` tells the first such token. Without memory
/// the fault is `NoMemory`. After every answer `names` may have more names at its end, at most one for each token that was
/// read.
///
/// Takes memory and time in the order of all tokens of the text, but for the look-ups of names and of template lists.
pub fn expression(
    alloc: Global,
    tokens: &Tokens,
    pairs: &TemplatePairs,
    names: &mut Names,
    goal: Goal,
    from: usize,
    node: u32,
) -> Result<(Expr, usize, u32), SyntaxFault>
    requires within { from ≤ length tokens.now.tokens }
    requires node { node + 16 * length tokens.now.tokens < 2 ^ 32 }
    requires names { length names.old + length tokens.now.tokens < 2 ^ 32 - 1 }
    ensures answer { MatchResult result (λ p. IsPhrase goal (lexemes tokens.now.text pairs.now tokens.now.tokens) names.old names.new from node p.0 p.1 p.2)
        (IsFault goal tokens.now.text tokens.now.tokens (lexemes tokens.now.text pairs.now tokens.now.tokens) names.old names.new from) }
    ensures grows { Grows names.old names.new }
{
    let Ok(pieces) = pieces_of(alloc, tokens, pairs) else {
        return Err(SyntaxFault::NoMemory);
    };
    match phrase(alloc, &pieces, names, goal, from, node) {
        Ok(part) => Ok((part.expr, part.end, part.node)),
        Err(refusal) => Err(fault_of(tokens, refusal)),
    }
}
