//! Whole texts.

ghost use Rattle.std.specs.Prelude.{◌≡◌, ℕ, ◌<◌, ◌≤◌, length, IfOk, IfSome, MatchOption, MatchResult};
ghost use Rattle.shade_ast.specs.Lexemes.{lexemes as lexemes_of};
ghost use Rattle.shade_parse.specs.Answers.{IsFault, IsTree, PassesDepth};
ghost use Rattle.shade_parse.specs.Cuts.{cut_of, earlier_of, uncut_of, IsRefused, IsWhole};
ghost use Rattle.shade_parse.specs.Wholes.{Refused};
ghost use Rattle.shade_cursor.specs.Passes.{IsFirst};
ghost use Rattle.shade_cursor.specs.Shown.{lexemes};

use crate::modules;
use crate::nesting::first_nested;
use crate::words::{are_distinct, names_of};
use shade_ast::{NameKey, Tree};
use shade_cursor::depths::first_deep;
use shade_cursor::fault::{Refusal, fault_of};
use shade_cursor::part::Fault;
use shade_cursor::piece::Piece;
use shade_cursor::pieces::pieces_of;
use shade_lex::{TemplatePairs, Tokens};
use shade_parse_expr::SyntaxFault;
use std::alloc::{AllocError, Global};

/// The tree that the tokens of a text spell, with its nodes numbered in postorder from 0.
///
/// `Unexpected` tells the first token up to which no tree begins, or the end of the text, where the tokens spell no tree.
/// Where a token before it passes a depth, of braces, of expressions, of the chain or of the arms, `TooDeep` tells the
/// first such token. Without memory the fault is `NoMemory`.
///
/// Takes memory and time in the order of the tokens, but for the look-ups of names and of template lists.
pub fn parse(alloc: Global, tokens: &Tokens, pairs: &TemplatePairs) -> Result<Tree, SyntaxFault>
    ensures { MatchResult result (IsTree (lexemes_of tokens.now.text pairs.now tokens.now.tokens)) (IsFault tokens.now.text tokens.now.tokens (lexemes_of tokens.now.text pairs.now tokens.now.tokens)) }
{
    let Ok(pieces) = pieces_of(alloc, tokens, pairs) else {
        return Err(SyntaxFault::NoMemory);
    };
    match tree(alloc, &pieces, NameKey::of(tokens.text())) {
        Ok(tree) => Ok(tree),
        Err(refusal) => Err(fault_of(tokens, refusal)),
    }
}

/// The tree that all tokens spell, of which none passes a depth.
fn tree(alloc: Global, pieces: &[Piece], key: NameKey) -> Result<Tree, Refusal>
    requires { length pieces.now ≤ 1048576 }
    ensures { MatchResult result (IsTree (lexemes pieces.now)) (IsRefused (lexemes pieces.now)) }
{
    let Ok(passing) = first_passing(alloc, pieces) else {
        return Err(Refusal::NoMemory);
    };
    match passing {
        None => uncut(named(alloc, pieces, key)),
        Some(deep) => {
            let front = &pieces[..deep + 1];
            Err(cut(named(alloc, front, key), deep))
        }
    }
}

/// The tree that all tokens spell, whatever their depths. Its names are those of the text: the parser is handed a table of them, and each
/// word that it meets is in it.
fn named(alloc: Global, pieces: &[Piece], key: NameKey) -> Result<Tree, Fault>
    requires { length pieces.now ≤ 1048576 }
    ensures { MatchResult result (IsWhole (lexemes pieces.now)) (Refused (lexemes pieces.now)) }
{
    let Ok(names) = names_of(alloc, pieces, key) else {
        return Err(Fault::NoMemory);
    };
    let Ok(known) = names_of(alloc, pieces, key) else {
        return Err(Fault::NoMemory);
    };
    let Tree {
        directives,
        decls,
        names: all,
    } = modules::whole(alloc, pieces, known)?;
    are_distinct(&all);
    Ok(Tree {
        directives,
        decls,
        names,
    })
}

/// The first token that passes a depth, if one does.
fn first_passing(alloc: Global, pieces: &[Piece]) -> Result<Option<usize>, AllocError>
    ensures first { IfOk result (λ r. MatchOption r ((k : ℕ) → PassesDepth (lexemes pieces.now) k → ⊥) (λ k. IsFirst (PassesDepth (lexemes pieces.now)) k)) }
    ensures within { IfOk result (λ r. IfSome r (λ k. k < length pieces.now)) }
{
    let deep = first_deep(alloc, pieces, 0)?;
    let nested = first_nested(alloc, pieces)?;
    Ok(earlier(deep, nested))
}

/// The lesser of two places.
fn earlier(one: Option<usize>, other: Option<usize>) -> Option<usize>
    ensures { result ≡ earlier_of one other }
{
    match (one, other) {
        (None, _) => other,
        (_, None) => one,
        (Some(first), Some(second)) => Some(first.min(second)),
    }
}

/// What was answered of the tokens up to one that passes a depth, as an answer of all.
fn cut(answer: Result<Tree, Fault>, deep: usize) -> Refusal
    ensures { result ≡ cut_of answer deep }
{
    match answer {
        Ok(_) => Refusal::TooDeep(deep),
        Err(Fault::Unexpected(at)) => {
            if at <= deep {
                Refusal::Unexpected(at)
            } else {
                Refusal::TooDeep(deep)
            }
        }
        Err(Fault::NoMemory) => Refusal::NoMemory,
    }
}

/// The answer where no token passes a depth.
fn uncut(answer: Result<Tree, Fault>) -> Result<Tree, Refusal>
    ensures { result ≡ uncut_of answer }
{
    match answer {
        Ok(tree) => Ok(tree),
        Err(Fault::Unexpected(at)) => Err(Refusal::Unexpected(at)),
        Err(Fault::NoMemory) => Err(Refusal::NoMemory),
    }
}
