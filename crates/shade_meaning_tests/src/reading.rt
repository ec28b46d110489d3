//! What several tests of texts use.

use shade_ast::{Expr, NameKey, Names, Tree};
use shade_base::Place;
use shade_lex::{lex, templates};
use shade_parse::parse;
use shade_parse_expr::{Goal, expression};
use std::alloc::Global;

/// A place in a text of one line.
pub fn place(offset: u32) -> Place {
    Place {
        offset,
        line: 1,
        column: offset.wrapping_add(1),
    }
}

/// The phrase of a goal that a text begins with, if there is one.
pub fn expr_of(alloc: Global, text: &str, goal: Goal) -> Option<Expr> {
    if text.len() > 1_048_576 {
        return None;
    }
    let tokens = lex(alloc, text).ok()?;
    let pairs = templates(alloc, &tokens).ok()?;
    if tokens.as_slice().len() > 1_048_576 {
        return None;
    }
    let mut names = Names::new(alloc, NameKey::of(text));
    match expression(alloc, &tokens, &pairs, &mut names, goal, 0, 0) {
        Ok((read, _, _)) => Some(read),
        Err(_) => None,
    }
}

/// The tree of a text, if it has one.
pub fn tree_of(alloc: Global, text: &str) -> Option<Tree> {
    if text.len() > 1_048_576 {
        return None;
    }
    let tokens = lex(alloc, text).ok()?;
    let pairs = templates(alloc, &tokens).ok()?;
    parse(alloc, &tokens, &pairs).ok()
}
