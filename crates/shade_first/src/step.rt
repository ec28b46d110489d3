//! The tokens that the form fixes.

ghost use Rattle.std.specs.Prelude.{◌≡◌, ◌↔◌, IsTrue};
ghost use Rattle.shade_first.specs.Steps.{kind_of};

use crate::token::{Kind, Mark};

/// A token that the form fixes: a mark, or a certain word.
#[derive(Clone, Copy)]
pub enum Step<'t> {
    Mark(Mark),
    Word(&'t [u8]),
}

/// Whether a token is the one of a step.
pub fn is_kind(kind: &Kind, step: Step) -> bool
    ensures { IsTrue result ↔ (kind.now ≡ kind_of step.entry) }
{
    match (kind, step) {
        (Kind::Mark(mark), Step::Mark(wanted)) => *mark == wanted,
        (Kind::Word(text), Step::Word(wanted)) => text.as_slice() == wanted,
        _ => false,
    }
}
