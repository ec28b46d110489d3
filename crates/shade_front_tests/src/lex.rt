//! Tokens and faults at their edges.

use shade_base::{Place, place_at};
use shade_lex::{LexFault, Suffix, Token, TokenKind, Tokens, lex, templates};
use std::alloc::Global;
use std::test::Fail;

fn place(offset: u32, line: u32, column: u32) -> Place {
    Place {
        offset,
        line,
        column,
    }
}

fn token(kind: TokenKind, offset: u32, length: u32) -> Token {
    Token {
        kind,
        place: place(offset, 1, offset.wrapping_add(1)),
        length,
    }
}

fn number(value: u64, suffix: Suffix) -> TokenKind {
    TokenKind::Number { value, suffix }
}

fn read(alloc: Global, text: &str) -> Result<Tokens, LexFault> {
    if text.len() > 1_048_576 {
        return Err(LexFault::NoMemory);
    }
    lex(alloc, text)
}

fn fault(alloc: Global, text: &str) -> Option<LexFault> {
    match read(alloc, text) {
        Ok(_) => None,
        Err(fault) => Some(fault),
    }
}

/// The token that is a whole text.
fn only(alloc: Global, text: &str) -> Option<TokenKind> {
    match read(alloc, text) {
        Ok(tokens) => match tokens.as_slice() {
            [only] => Some(only.kind),
            _ => None,
        },
        Err(_) => None,
    }
}

#[test]
fn tokens(rt: HostRuntime) -> Result<(), Fail> {
    let alloc = rt.alloc();
    let text = "fn _a(_){<<=>>= 0x1Fu}/*/* */*/";
    let lexed = read(alloc, text).ok().ok_or("a fault")?;
    let want = [
        token(TokenKind::Word, 0, 2),
        token(TokenKind::Word, 3, 2),
        token(TokenKind::Mark, 5, 1),
        token(TokenKind::Mark, 6, 1),
        token(TokenKind::Mark, 7, 1),
        token(TokenKind::Mark, 8, 1),
        token(TokenKind::Mark, 9, 3),
        token(TokenKind::Mark, 12, 1),
        token(TokenKind::Mark, 13, 1),
        token(TokenKind::Mark, 14, 1),
        token(number(31, Suffix::Unsigned), 16, 5),
        token(TokenKind::Mark, 21, 1),
    ];
    assert_eq!(rt; lexed.as_slice(), want.as_slice());
    assert_eq!(rt; lexed.text(), text);
    assert_eq!(rt;
        only(alloc, "2147483647i"),
        Some(number(2_147_483_647, Suffix::Signed))
    );
    assert_eq!(rt; only(alloc, "0xfI"), None);
    assert_eq!(rt; only(alloc, "\u{e9}t\u{e9}"), Some(TokenKind::Word));
    assert_eq!(rt; only(alloc, "\r\u{2028}_//"), Some(TokenKind::Mark));
    Ok(())
}

#[test]
fn faults(rt: HostRuntime) {
    let alloc = rt.alloc();
    let cases = [
        ("/* x", LexFault::OpenComment(place(0, 1, 1))),
        ("/*/**/", LexFault::OpenComment(place(0, 1, 1))),
        ("  var x = 1.5;", LexFault::FloatLiteral(place(10, 1, 11))),
        ("__x", LexFault::BadCharacter(place(0, 1, 1))),
        ("0x", LexFault::BadNumber(place(0, 1, 1))),
        ("01", LexFault::BadNumber(place(0, 1, 1))),
        ("1u.", LexFault::FloatLiteral(place(0, 1, 1))),
        (".5", LexFault::FloatLiteral(place(0, 1, 1))),
        ("2147483648i", LexFault::NumberTooLarge(place(0, 1, 1))),
        (
            "9223372036854775808",
            LexFault::NumberTooLarge(place(0, 1, 1)),
        ),
        ("a\u{2028}#", LexFault::BadCharacter(place(4, 2, 1))),
    ];
    for (text, want) in cases {
        assert_eq!(rt; fault(alloc, text), Some(want), "{text}");
    }
}

fn reached(text: &str, offset: u32) -> Option<Place> {
    if text.len() > 1_048_576 || offset as usize > text.len() {
        return None;
    }
    Some(place_at(text, offset))
}

#[test]
fn places(rt: HostRuntime) {
    let text = "a\u{b}b\u{c}c\rd\r\ne\u{85}f\u{2028}g\u{2029}h";
    let cases = [
        place(2, 2, 1),
        place(4, 3, 1),
        place(6, 4, 1),
        place(8, 4, 3),
        place(9, 5, 1),
        place(12, 6, 1),
        place(16, 7, 1),
        place(20, 8, 1),
    ];
    for want in cases {
        assert_eq!(rt; reached(text, want.offset), Some(want));
    }
}

fn has_pairs(alloc: Global, text: &str, want: &[(u32, u32)]) -> bool {
    let Ok(tokens) = read(alloc, text) else {
        return false;
    };
    match templates(alloc, &tokens) {
        Ok(pairs) => pairs.as_slice() == want,
        Err(_) => false,
    }
}

/// Template list pairs, as a program that counts as the definition does gave them.
const PAIRS: &[(&str, &[(u32, u32)])] = &[
    ("a < b > (c)", &[(2, 6)]),
    ("vec2<u32>(1u, 2u)", &[(4, 8)]),
    ("a < b && c > d", &[]),
    ("array<u32, (4 > 3)>", &[(5, 18)]),
    ("a<b>=c", &[(1, 3)]),
    ("a<b>>=c", &[(1, 3)]),
    ("a<b>==c", &[(1, 3)]),
    ("a < b > > = c", &[(2, 6)]),
    ("a<(b>=c)>d", &[(1, 8)]),
    ("a<(b> =c)>d", &[]),
    ("a<b<c>=d>e", &[(3, 5)]),
    ("a<b,c<d>>e", &[(1, 8), (5, 7)]),
    ("(a<b)>c", &[]),
    ("x:a<b==c>d", &[(3, 8)]),
];

#[test]
fn template_lists(rt: HostRuntime) {
    let alloc = rt.alloc();
    for (text, want) in PAIRS {
        assert!(rt; has_pairs(alloc, text, want), "{text}");
    }
}
