//! The text that takes the most room for its length, as far as is known: semicolons alone, each of which is a declaration.

use shade_ast::Decl;
use shade_cursor::piece::Piece;
use shade_lex::{Token, lex, templates};
use shade_parse::parse;
use std::alloc::{AllocError, Global};
use std::mem::size_of;
use std::test::Fail;

/// How many semicolons are read.
const COUNT: usize = 4_096;

/// At most so many bytes are kept of each: as a token, for the parser, and as a declaration.
const MOST: usize = 400;

/// How many tokens and how many directives, declarations and names are kept of a text.
fn kept(alloc: Global, text: &str) -> Option<(usize, usize, usize, usize)> {
    if text.len() > 1_048_576 {
        return None;
    }
    let tokens = lex(alloc, text).ok()?;
    let pairs = templates(alloc, &tokens).ok()?;
    let tree = parse(alloc, &tokens, &pairs).ok()?;
    Some((
        tokens.as_slice().len(),
        tree.directives.len(),
        tree.decls.len(),
        tree.names.len(),
    ))
}

fn semicolons(alloc: Global, count: usize) -> Result<String, AllocError> {
    let mut text = String::new(alloc);
    for _ in 0..count {
        text.push_str(";")?;
    }
    Ok(text)
}

#[test]
fn one_declaration_a_byte(rt: HostRuntime) -> Result<(), Fail> {
    let alloc = rt.alloc();
    let bytes = size_of::<Token>() + size_of::<Piece>() + size_of::<Decl>();
    assert!(rt; bytes <= MOST, "{bytes}");
    let text = semicolons(alloc, COUNT)?;
    assert_eq!(rt; kept(alloc, &text), Some((COUNT, 0, COUNT, 0)));
    Ok(())
}
