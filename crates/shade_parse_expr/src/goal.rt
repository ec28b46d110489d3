//! Phrases of a goal.

ghost use Rattle.std.specs.Prelude.{◌≡◌, MatchResult};
ghost use Rattle.shade_ast.specs.Names.{Grows};
ghost use Rattle.shade_parse_expr.specs.Answers.{IsPhrase, IsRefused};
ghost use Rattle.shade_parse_expr.specs.Cuts.{cut_of, uncut_of, IsRead, IsUnread};
ghost use Rattle.shade_cursor.specs.Shown.{lexemes};
ghost use Rattle.shade_parse_expr.specs.Reading.{CanRead};

use crate::parse;
use shade_ast::Names;
use shade_cursor::depths::first_deep;
use shade_cursor::fault::Refusal;
use shade_cursor::part::{Fault, Part};
use shade_cursor::piece::Piece;
use std::alloc::Global;

/// What is to be read: a whole expression, a type, a left side, or a call alone.
#[derive(Clone, Copy, Debug, PartialEq, Eq)]
pub enum Goal {
    Whole,
    TypeName,
    LeftSide,
    CallOnly,
}

/// A phrase of a goal, of which no token passes a depth.
pub fn phrase(
    alloc: Global,
    pieces: &[Piece],
    names: &mut Names,
    goal: Goal,
    from: usize,
    node: u32,
) -> Result<Part, Refusal>
    requires can { CanRead pieces.now names.old from node }
    ensures answer { MatchResult result (λ p. IsPhrase goal (lexemes pieces.now) names.old names.new from node p.expr p.end p.node)
        (IsRefused goal (lexemes pieces.now) names.old names.new from) }
    ensures grows { Grows names.old names.new }
{
    let Ok(deep) = first_deep(alloc, pieces, from) else {
        return Err(Refusal::NoMemory);
    };
    match deep {
        None => uncut(read(alloc, pieces, names, goal, from, node)),
        Some(deep) => {
            let front = &pieces[..deep + 1];
            cut(read(alloc, front, names, goal, from, node), deep)
        }
    }
}

/// A phrase of a goal, without limits of depth.
fn read(
    alloc: Global,
    pieces: &[Piece],
    names: &mut Names,
    goal: Goal,
    from: usize,
    node: u32,
) -> Result<Part, Fault>
    requires can { CanRead pieces.now names.old from node }
    ensures answer { MatchResult result (IsRead goal (lexemes pieces.now) names.old names.new from node)
        (IsUnread goal (lexemes pieces.now) names.old names.new from) }
    ensures grows { Grows names.old names.new }
{
    match goal {
        Goal::Whole => parse::expression(alloc, pieces, names, from, node),
        Goal::TypeName => parse::type_name(alloc, pieces, names, from, node),
        Goal::LeftSide => parse::left_side(alloc, pieces, names, from, node),
        Goal::CallOnly => parse::call_only(alloc, pieces, names, from, node),
    }
}

/// What was answered of the tokens up to one that passes a depth, as an answer of all.
fn cut(answer: Result<Part, Fault>, deep: usize) -> Result<Part, Refusal>
    ensures { result ≡ cut_of answer deep }
{
    match answer {
        Ok(part) => {
            if part.end <= deep {
                Ok(part)
            } else {
                Err(Refusal::TooDeep(deep))
            }
        }
        Err(Fault::Unexpected(at)) => {
            if at <= deep {
                Err(Refusal::Unexpected(at))
            } else {
                Err(Refusal::TooDeep(deep))
            }
        }
        Err(Fault::NoMemory) => Err(Refusal::NoMemory),
    }
}

/// The answer where no token passes a depth.
fn uncut(answer: Result<Part, Fault>) -> Result<Part, Refusal>
    ensures { result ≡ uncut_of answer }
{
    match answer {
        Ok(part) => Ok(part),
        Err(Fault::Unexpected(at)) => Err(Refusal::Unexpected(at)),
        Err(Fault::NoMemory) => Err(Refusal::NoMemory),
    }
}
