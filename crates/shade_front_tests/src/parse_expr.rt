//! Pieces and phrases of texts, at their edges.

use crate::reading::place;
use shade_ast::{Keyword, NameKey, Names, Sign};
use shade_cursor::piece::{Piece, key_at, mark_at, number_at, word_at};
use shade_cursor::pieces::pieces_of;
use shade_lex::{Suffix, lex, templates};
use shade_parse_expr::{Goal, SyntaxFault, expression};
use std::alloc::{AllocError, Global};
use std::test::Fail;

#[derive(Clone, Copy, Drop)]
enum Want {
    Word,
    Key(Keyword),
    Number(u64, Suffix),
    Mark(Sign),
}

fn stands(pieces: &[Piece], at: usize, want: Want) -> bool {
    match want {
        Want::Word => word_at(pieces, at).is_some(),
        Want::Key(keyword) => key_at(pieces, at, keyword).is_some(),
        Want::Number(value, suffix) => match number_at(pieces, at) {
            Some((found, sign, _)) => found == value && sign == suffix,
            None => false,
        },
        Want::Mark(sign) => mark_at(pieces, at, sign).is_some(),
    }
}

/// Whether a piece of a text, by its number, is of this kind.
fn has_piece(alloc: Global, text: &str, at: usize, want: Want) -> bool {
    if text.len() > 1_048_576 {
        return false;
    }
    let Ok(tokens) = lex(alloc, text) else {
        return false;
    };
    let Ok(pairs) = templates(alloc, &tokens) else {
        return false;
    };
    match pieces_of(alloc, &tokens, &pairs) {
        Ok(pieces) => stands(&pieces, at, want),
        Err(_) => false,
    }
}

/// Texts, with the kind of one of their pieces.
const PIECES: &[(&str, usize, Want)] = &[
    ("if x", 0, Want::Key(Keyword::If)),
    ("if x", 1, Want::Word),
    ("iff", 0, Want::Word),
    ("é = é", 2, Want::Word),
    ("a 0x1Fu", 1, Want::Number(31, Suffix::Unsigned)),
    ("a<b>(c)", 1, Want::Mark(Sign::OpenTemplate)),
    ("a<b>(c)", 3, Want::Mark(Sign::CloseTemplate)),
    ("a < b", 1, Want::Mark(Sign::Less)),
    ("a<b<c>=d>e", 1, Want::Mark(Sign::Less)),
    ("a<b<c>=d>e", 3, Want::Mark(Sign::OpenTemplate)),
    ("a<b<c>=d>e", 8, Want::Mark(Sign::Greater)),
    ("a <<= b", 1, Want::Mark(Sign::ShiftLeftEqual)),
    ("_ = a", 0, Want::Mark(Sign::Underscore)),
];

#[test]
fn pieces(rt: HostRuntime) {
    let alloc = rt.alloc();
    for (text, at, want) in PIECES {
        assert!(rt; has_piece(alloc, text, *at, *want), "{text}");
    }
}

/// Where the phrase at the front of a text ends and how many nodes it has, or why there is none.
fn read(alloc: Global, text: &str, goal: Goal) -> Result<(usize, u32), SyntaxFault> {
    if text.len() > 1_048_576 {
        return Err(SyntaxFault::NoMemory);
    }
    let Ok(tokens) = lex(alloc, text) else {
        return Err(SyntaxFault::NoMemory);
    };
    let Ok(pairs) = templates(alloc, &tokens) else {
        return Err(SyntaxFault::NoMemory);
    };
    if tokens.as_slice().len() > 1_048_576 {
        return Err(SyntaxFault::NoMemory);
    }
    let mut names = Names::new(alloc, NameKey::of(text));
    match expression(alloc, &tokens, &pairs, &mut names, goal, 0, 0) {
        Ok((_, end, next)) => Ok((end, next)),
        Err(fault) => Err(fault),
    }
}

/// Phrases at the front of texts, with the token behind each and its count of nodes.
const PHRASES: &[(Goal, &str, (usize, u32))] = &[
    (Goal::Whole, "1 < b", (3, 3)),
    (Goal::Whole, "(a)", (3, 2)),
    (Goal::Whole, "-a * b + c", (6, 6)),
    (Goal::Whole, "a.b[1]", (6, 5)),
    (Goal::Whole, "f(a, 1u,)", (7, 4)),
    (Goal::Whole, "vec2<u32>(1u, 2u)", (9, 5)),
    (Goal::Whole, "a << 2u > b", (5, 5)),
    (Goal::Whole, "a >> 1u", (4, 3)),
    (Goal::Whole, "a >= b", (4, 3)),
    // Each stops at the first token that goes on with no phrase.
    (Goal::Whole, "a; b", (1, 1)),
    (Goal::Whole, "a && b || c", (3, 3)),
    (Goal::Whole, "a == b & c", (3, 3)),
    (Goal::Whole, "a << b << c", (3, 3)),
    (Goal::TypeName, "u32(1)", (1, 1)),
    (Goal::TypeName, "array<u32, 4>", (6, 3)),
    (Goal::LeftSide, "*p = 1", (2, 2)),
    (Goal::LeftSide, "(a).x = 1", (5, 4)),
    (Goal::CallOnly, "f();", (3, 2)),
    (Goal::CallOnly, "f().x", (3, 2)),
];

#[test]
fn phrases(rt: HostRuntime) {
    let alloc = rt.alloc();
    for (goal, text, want) in PHRASES {
        assert_eq!(rt; read(alloc, text, *goal), Ok(*want), "{text}");
    }
}

/// Texts that begin with no phrase, with the offset that is told.
const REFUSALS: &[(Goal, &str, u32)] = &[
    (Goal::Whole, "", 0),
    (Goal::Whole, "1 < b > c", 8),
    (Goal::Whole, "(a && b || c)", 8),
    (Goal::Whole, "a +", 3),
    (Goal::Whole, "a[", 2),
    (Goal::Whole, "f(,)", 2),
    (Goal::Whole, "vec2<u32>(", 10),
    (Goal::TypeName, "1", 0),
    (Goal::TypeName, "array<>", 6),
    (Goal::LeftSide, "1 = a", 0),
    (Goal::LeftSide, "(a + b) = 1", 3),
    (Goal::CallOnly, "f", 1),
    (Goal::CallOnly, "a.b()", 1),
];

#[test]
fn refusals(rt: HostRuntime) {
    let alloc = rt.alloc();
    for (goal, text, at) in REFUSALS {
        assert_eq!(rt;
            read(alloc, text, *goal),
            Err(SyntaxFault::Unexpected(place(*at))),
            "{text}"
        );
    }
}

/// An `a` between texts, which are repeated.
fn nested(alloc: Global, front: &str, back: &str, count: usize) -> Result<String, AllocError> {
    let mut text = String::new(alloc);
    for _ in 0..count {
        text.push_str(front)?;
    }
    text.push_str("a")?;
    for _ in 0..count {
        text.push_str(back)?;
    }
    Ok(text)
}

/// A front and a back around an `a`, how often, and what is read or the offset that is too deep.
const DEPTHS: &[(&str, &str, usize, Result<(usize, u32), u32>)] = &[
    ("(", ")", 127, Ok((255, 128))),
    ("(", ")", 128, Err(127)),
    ("!", "", 127, Ok((128, 128))),
    ("!", "", 128, Err(127)),
    ("!(", ")", 64, Err(127)),
    ("a[", "]", 128, Err(255)),
    ("f(", ",)", 128, Err(255)),
    ("a+", "", 1023, Ok((2047, 2047))),
    ("a+", "", 1024, Err(2048)),
    ("", ".a", 1023, Ok((2047, 2047))),
    ("", ".a", 1024, Err(2048)),
];

#[test]
fn depths(rt: HostRuntime) {
    let alloc = rt.alloc();
    for (front, back, count, want) in DEPTHS {
        let text = nested(alloc, front, back, *count).expect(&rt, "memory");
        let wanted = match *want {
            Ok(read) => Ok(read),
            Err(at) => Err(SyntaxFault::TooDeep(place(at))),
        };
        assert_eq!(rt;
            read(alloc, &text, Goal::Whole),
            wanted,
            "{front} {back} {count}"
        );
    }
}
