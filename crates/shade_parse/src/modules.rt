//! Whole texts.

ghost use Rattle.std.specs.Prelude.{◌≡◌, ◌+◌, ◌<◌, ◌≤◌, ◌^◌, ◌↔◌, length, IfOk, IsTrue, MatchResult};
ghost use Rattle.shade_ast.specs.Declarations.{Module};
ghost use Rattle.shade_ast.specs.Names.{Grows};
ghost use Rattle.shade_ast.specs.Needs.{tree_needs};
ghost use Rattle.shade_ast.specs.Nodes.{tree_nodes, CountFrom};
ghost use Rattle.shade_ast.specs.Places.{IsOnly};
ghost use Rattle.shade_ast.specs.Shaped.{tree_shape};
ghost use Rattle.shade_parse.specs.Wholes.{DirectiveStands, Refused};
ghost use Rattle.shade_cursor.specs.Shown.{lexemes};

use crate::declarations::declaration;
use crate::directives::directive;
use shade_ast::{Keyword, Names, Tree};
use shade_cursor::part::Fault;
use shade_cursor::piece::{Piece, key_at};
use shade_parse_simple::items::push;
use sqlite_items::Items;
use std::alloc::Global;

/// Reads the tree of a whole text: directives, and then declarations, to the last token. Its nodes are numbered from 0 on, and names that
/// are not known yet come behind those that are.
///
/// `Unexpected` where no text is spelled, with the number of the first token past which none goes on, or of the end;
/// `NoMemory` where memory for the tree or its names is wanting.
pub fn whole(alloc: Global, pieces: &[Piece], mut names: Names) -> Result<Tree, Fault>
    requires small { length pieces.now ≤ 1048576 }
    requires few { length names ≤ length pieces.now }
    ensures tree { MatchResult result (λ t. IsOnly Module (tree_shape t) (lexemes pieces.now)) (λ f. Refused (lexemes pieces.now) f) }
    ensures known { IfOk result (λ t. tree_needs t ≤ length t.names) }
    ensures nodes { IfOk result (λ t. CountFrom 0 (tree_nodes t) (length (tree_nodes t))) }
    ensures grows { IfOk result (λ t. Grows names t.names) }
    ensures few_nodes { IfOk result (λ t. length (tree_nodes t) ≤ length pieces.now) }
{
    let mut directives = Items::new(alloc);
    let mut decls = Items::new(alloc);
    let mut at = 0;
    let mut node = 0;
    'directives: while is_directive_at(pieces, at) {
        let read = directive(alloc, pieces, &mut names, at, node)?;
        push(&mut directives, read.tree)?;
        at = read.end;
        node = read.node;
    }
    'decls: while at < pieces.len() {
        let read = declaration(alloc, pieces, &mut names, at, node)?;
        push(&mut decls, read.tree)?;
        at = read.end;
        node = read.node;
    }
    Ok(Tree {
        directives,
        decls,
        names,
    })
}

/// Whether a directive begins at a place.
fn is_directive_at(pieces: &[Piece], at: usize) -> bool
    ensures value { IsTrue result ↔ DirectiveStands (lexemes pieces.now) at }
    ensures within { IsTrue result → at < length pieces.now }
{
    if let Some(_) = key_at(pieces, at, Keyword::Diagnostic) {
        return true;
    }
    if let Some(_) = key_at(pieces, at, Keyword::Requires) {
        return true;
    }
    if let Some(_) = key_at(pieces, at, Keyword::Enable) {
        return true;
    }
    false
}
